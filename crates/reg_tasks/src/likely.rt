//! Finding the slot of an account, which is the index of its opening, counted from 0.

ghost use Rattle.std.specs.Prelude.{◌≡◌, ◌<◌, false, length, slice_index, IfSome, MatchOption};
ghost use Rattle.reg_base.specs.Footprint.{is_among};
ghost use Rattle.reg_base.specs.Rising.{IsRising};
ghost use Rattle.reg_tasks.specs.Slots.{opened_accounts};

use reg_base::AccountNo;
use reg_plan::Opening;

/// The slot of an account. If it is the likely one, one comparison shows it; else it is searched for.
pub(crate) fn find_slot(openings: &[Opening], account: AccountNo, likely: u32) -> Option<usize>
    requires { IsRising (opened_accounts openings.now) }
    ensures { MatchOption result
        (is_among (opened_accounts openings.now) account ≡ false)
        (λ k. (k < length openings.now) × (slice_index (opened_accounts openings.now) k ≡ account)) }
{
    match own_slot(openings, account, likely as usize) {
        Some(slot) => Some(slot),
        None => search_slot(openings, account),
    }
}

// The slot with this number, if it is the account's.
fn own_slot(openings: &[Opening], account: AccountNo, slot: usize) -> Option<usize>
    ensures { IfSome result (λ k. (k < length openings.now)
        × (slice_index (opened_accounts openings.now) k ≡ account)) }
{
    let opening = openings.get(slot)?;
    (opening.account == account).then_some(slot)
}

fn search_slot(openings: &[Opening], account: AccountNo) -> Option<usize>
    requires { IsRising (opened_accounts openings.now) }
    ensures { MatchOption result
        (is_among (opened_accounts openings.now) account ≡ false)
        (λ k. (k < length openings.now) × (slice_index (opened_accounts openings.now) k ≡ account)) }
{
    match openings.binary_search_by_key(&account, |opening| opening.account) {
        Ok(slot) => Some(slot),
        Err(_) => None,
    }
}
