//! The trusted account list of an account, by rising account number.

ghost use Rattle.std.specs.Prelude.{◌≡◌, OnOk, OnErr, All};
ghost use Rattle.reg_base.specs.Rising.{IsRising};
ghost use Rattle.reg_account.specs.Trusted.{trusted_numbers, effective_in, is_in_effect, with_entry, without_entry};
ghost use Rattle.reg_account.specs.Trusted.{EntryIsInRange};

use reg_base::{AccountNo, Day, FIRST_DAY, NoMemory};
use smallvec::SmallVec;

/// An entry of a trusted account list.
#[derive(Clone, Copy, Debug, PartialEq, Eq)]
pub struct TrustedEntry {
    /// The account that is trusted.
    pub account: AccountNo,
    /// The first date on which this entry is in effect.
    pub effective: Day,
}

impl Default for TrustedEntry {
    ghost is_default = { λ t. t ≡ record { account = 1; effective = 18628 } };

    /// The lowest account number and the first date. It fills the unused rest of a short list.
    fn default() -> Self {
        TrustedEntry {
            account: AccountNo::new(1).unwrap(),
            effective: Day::new(FIRST_DAY).unwrap(),
        }
    }
}

/// A trusted account list. Most have at most four entries, so four take no allocation of their own.
pub(crate) type Entries = SmallVec<TrustedEntry, 4>;

/// The date on which the entry of this account takes effect, if the list has the account.
pub(crate) fn find_effective(entries: &[TrustedEntry], account: AccountNo) -> Option<Day>
    requires { IsRising (trusted_numbers entries.now) }
    ensures { result ≡ effective_in entries.now account }
{
    match entries.binary_search_by_key(&account, |entry| entry.account) {
        Ok(index) => Some(entries[index].effective),
        Err(_) => None,
    }
}

/// Whether the list has this account, with an entry that is in effect on this date.
pub(crate) fn is_in_effect(entries: &[TrustedEntry], account: AccountNo, day: Day) -> bool
    requires { IsRising (trusted_numbers entries.now) }
    ensures { result ≡ is_in_effect entries.now account day }
{
    match find_effective(entries, account) {
        Some(effective) => effective <= day,
        None => false,
    }
}

/// Puts this entry where it belongs by account number. An earlier one of that account is replaced.
///
/// # Errors
/// `NoMemory` if memory ran out. The entries are unchanged.
pub(crate) fn put_entry(entries: &mut Entries, new: TrustedEntry) -> Result<(), NoMemory>
    requires { IsRising (trusted_numbers entries.old.items) }
    ensures ok { OnOk result (entries.new.items ≡ with_entry new entries.old.items) }
    ensures err { OnErr result (entries.new.items ≡ entries.old.items) }
{
    match entries
        .as_slice()
        .binary_search_by_key(&new.account, |entry| entry.account)
    {
        Ok(index) => entries[index] = new,
        Err(index) => entries.insert(index, new)?,
    }
    Ok(())
}

/// Takes the entry of this account out, if there is one. Takes no memory.
pub(crate) fn remove_entry(entries: &mut Entries, account: AccountNo)
    requires { IsRising (trusted_numbers entries.old.items) }
    ensures { entries.new.items ≡ without_entry account entries.old.items }
{
    match entries
        .as_slice()
        .binary_search_by_key(&account, |entry| entry.account)
    {
        Ok(index) => {
            entries.remove(index);
        }
        Err(_) => {}
    }
}

// Reads each number in these entries, so that a proof knows its range.
pub(crate) fn know_entries(entries: &[TrustedEntry])
    ensures { All EntryIsInRange entries.now }
{
    for entry in entries {
        entry.account.get();
        entry.effective.get();
    }
}
