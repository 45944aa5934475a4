//! An account: its copy, and the changes that take memory.

ghost use Rattle.std.specs.Prelude.{◌≡◌, ◌≤◌, IsTrue, nat_lt};
ghost use Rattle.std.specs.List.{list_all};
ghost use Rattle.reg_base.specs.declared.limits.TheConstants.{MOST_RETIRED};
ghost use Rattle.reg_account.specs.Account.{CanRetire, retired_by};
ghost use Rattle.reg_account.specs.Rows.{retirement_of};
ghost use Rattle.reg_rules.specs.Effect.{IsBehind};

use crate::call::{Call, rehearse, try_call, try_rehearsed};
use crate::digest::{Digest, digest_of};
use crate::endings::{Ended, how_ended};
use crate::stop::Stop;
use reg_account::{Account, Fate, RetirementRow};
use reg_base::{
    AccountNo, AllowanceKind, Day, MOST_RETIRED, MOST_ROWS, MOST_TRUSTED, NoMemory, RecordNo, Year,
};
use reg_text::DayInput;
use std::alloc::Global;
use std::io::Write;

// `Account::copy`.
#[derive(Drop)]
struct Copying<'d> {
    account: &'d Account,
}

impl Call for Copying<'_> {
    fn make(&mut self, alloc: Global) -> Ended {
        how_ended(self.account.copy(alloc))
    }
}

// The first account of a day.
fn first_account(day: &DayInput) -> Result<&Account, Stop> {
    match day.book.accounts().first() {
        Some(account) => Ok(account),
        None => Err(Stop::Input),
    }
}

/// Tries `Account::copy` of the first account.
pub(crate) fn try_copy<W: Write>(
    alloc: Global,
    day: &DayInput,
    writer: &mut W,
) -> Result<(), Stop> {
    let account = first_account(day)?;
    try_rehearsed(alloc, day, &mut Copying { account }, writer)
}

/// A change of an account that takes memory.
#[derive(Clone, Copy)]
pub(crate) enum Change {
    /// Surrenders 50 general allowances for period 1 under the next record number.
    Retire,
    /// Trusts the account with the number 3 from the settlement day on.
    Trust,
    /// Enters 60 tonnes for 2021.
    SetEmissions,
    /// Determines -15 tonnes for 2022.
    Determine,
}

// How much of this kind the account has surrendered, or deleted, as the row does.
fn retired(account: &Account, row: &RetirementRow) -> u64
    ensures value { result ≡ retired_by account.now (retirement_of row.now.fate) row.now.kind }
    ensures limit { result ≤ MOST_RETIRED }
{
    match row.fate {
        Fate::Surrendered { .. } => account.surrendered(row.kind),
        Fate::Deleted => account.deleted(row.kind),
    }
}

/// Whether each surrender and each deletion of the account has a number below this one.
pub(crate) fn has_rows_below(account: &Account, number: RecordNo) -> bool
    ensures { result ≡ list_all (λ row. nat_lt row.number number) account.now.rows }
{
    account.rows().iter().all(|row| row.number < number)
}

// Whether this number comes after those of all surrenders and deletions of the account.
fn is_later(account: &Account, number: RecordNo) -> bool
    ensures { IsTrue result → IsBehind number account.now }
{
    has_rows_below(account, number)
}

// Whether the row can be the account's next one.
fn can_retire(account: &Account, row: &RetirementRow) -> bool
    ensures { IsTrue result → CanRetire account.now row.now }
{
    if row.reversed {
        return false;
    }
    if row.amount < 1 {
        return false;
    }
    if !is_later(account, row.number) {
        return false;
    }
    if account.rows().len() >= MOST_ROWS {
        return false;
    }
    if row.amount > account.held(row.kind) {
        return false;
    }
    row.amount <= MOST_RETIRED - retired(account, row)
}

fn retire(account: &mut Account, number: RecordNo, day: Day) -> Result<(), Ended> {
    let row = RetirementRow {
        number,
        fate: Fate::Surrendered { period: 1 },
        kind: AllowanceKind::General,
        amount: 50,
        day,
        reversed: false,
    };
    if !can_retire(account, &row) {
        return Err(Ended::Otherwise);
    }
    Ok(account.retire(row)?)
}

fn trust(account: &mut Account, day: Day) -> Result<(), Ended> {
    let Some(other) = AccountNo::new(3) else {
        return Err(Ended::Otherwise);
    };
    if account.trusted_entries().len() >= MOST_TRUSTED {
        return Err(Ended::Otherwise);
    }
    Ok(account.trust(other, day)?)
}

fn set_emissions(account: &mut Account) -> Result<(), Ended> {
    let Some(year) = Year::new(2021) else {
        return Err(Ended::Otherwise);
    };
    Ok(account.set_emissions(year, 60)?)
}

fn determine(account: &mut Account) -> Result<(), Ended> {
    let Some(year) = Year::new(2022) else {
        return Err(Ended::Otherwise);
    };
    Ok(account.determine(year, -15)?)
}

// A change of an account.
#[derive(Drop)]
struct Changing {
    account: Account,
    change: Change,
    number: RecordNo,
    day: Day,
}

impl Call for Changing {
    fn make(&mut self, _alloc: Global) -> Ended {
        let account = &mut self.account;
        let answer = match self.change {
            Change::Retire => retire(account, self.number, self.day),
            Change::Trust => trust(account, self.day),
            Change::SetEmissions => set_emissions(account),
            Change::Determine => determine(account),
        };
        match answer {
            Ok(()) => Ended::Done(digest_of(&self.account)),
            Err(ended) => ended,
        }
    }

    fn lent(&self) -> Digest {
        digest_of(&self.account)
    }
}

// A change of a copy of the first account.
fn make_changing(alloc: Global, day: &DayInput, change: Change) -> Result<Changing, Stop> {
    let Some(number) = RecordNo::new(day.book.next_record()) else {
        return Err(Stop::Input);
    };
    let Ok(account) = first_account(day)?.copy(alloc) else {
        return Err(Stop::Short);
    };
    Ok(Changing {
        account,
        change,
        number,
        day: day.batch.day(),
    })
}

/// Tries a change of a copy of the first account.
pub(crate) fn try_change<W: Write>(
    alloc: Global,
    day: &DayInput,
    change: Change,
    writer: &mut W,
) -> Result<(), Stop> {
    let wanted = rehearse(alloc, &mut make_changing(alloc, day, change)?);
    let mut call = make_changing(alloc, day, change)?;
    try_call(alloc, day, &mut call, wanted, writer)
}
