//! Whether replies and parcels are those from which a settled day is gathered, and the rows of its log.

ghost use Rattle.std.specs.Prelude.{◌≡◌, Some, length, map, IfOk, IsPermutation};
ghost use Rattle.std.specs.List.Sorted.{IsNonDecreasingBy};
ghost use Rattle.reg_tasks.specs.Contexts.{the_day};
ghost use Rattle.reg_tasks.specs.Places.{IsPlaceOf};
ghost use Rattle.reg_tasks.specs.Parcels.{names_of};
ghost use Rattle.reg_tasks.specs.Gathering.{AreWithin, places_of, row_replied, rows_in, counts_up, are_each};
ghost use Rattle.reg_tasks.specs.Gathering.{have_accounts, are_outcomes};
ghost use Rattle.reg_tasks.specs.LastParcels.{parcels_in};
ghost use Rattle.reg_tasks.specs.Slots.{opened_accounts};

use crate::context::Context;
use crate::done::Done;
use crate::last_parcel::LastParcel;
use crate::naming::Naming;
use crate::nearby::bring_near;
use crate::run::number_of;
use reg_base::NoMemory;
use reg_rules::{LogRow, log_row};
use std::alloc::Global;

/// Sorts what is kept of instructions by place.
pub(crate) fn sort_done<N: Naming>(rows: &mut [Done<N>])
    ensures same { IsPermutation rows.old rows.new }
    ensures sorted { IsNonDecreasingBy (λ done. done.place) rows.new }
{
    bring_near(rows, |done| (done.place() as usize).saturating_sub(1));
    rows.sort_unstable_by_key(|done| done.place());
}

/// Sorts the last parcels of a day by the numbers of their accounts.
pub(crate) fn sort_parcels<N: Naming>(parcels: &mut [LastParcel<N>])
    ensures same { IsPermutation parcels.old parcels.new }
    ensures sorted { IsNonDecreasingBy (λ last. last.parcel.value.number) parcels.new }
{
    bring_near(parcels, |last| last.likely_slot() as usize);
    parcels.sort_unstable_by_key(|last| last.account());
}

// Whether the places are 1, 2 and so on.
fn count_up<N: Naming>(rows: &[Done<N>]) -> bool
    ensures { result ≡ counts_up 1 (places_of rows.now) }
{
    let mut next: u64 = 1;
    for done in rows {
        if u64::from(done.place()) != next {
            return false;
        }
        next += 1;
    }
    true
}

/// Whether there is a reply at each place, by rising place.
pub(crate) fn are_each<N: Naming>(context: &Context<N>, rows: &[Done<N>]) -> bool
    ensures { result ≡ are_each (the_day context.now) (places_of rows.now) }
{
    rows.len() == context.batch().len() as usize && count_up(rows)
}

/// Whether these last parcels are those of all touched accounts, by rising account.
pub(crate) fn have_accounts<N: Naming>(context: &Context<N>, parcels: &[LastParcel<N>]) -> bool
    ensures { result ≡ have_accounts (opened_accounts context.now.plan.openings) (names_of (parcels_in parcels.now)) }
{
    let openings = context.openings();
    if parcels.len() != openings.len() {
        return false;
    }
    for index in 0..parcels.len() {
        let last = &parcels[index];
        if last.account() != openings[index].account {
            return false;
        }
    }
    true
}

/// Whether there is a reply at each place, by rising place, and the last parcel of each touched account, by rising
/// account.
pub(crate) fn are_outcomes<N: Naming>(
    context: &Context<N>,
    rows: &[Done<N>],
    parcels: &[LastParcel<N>],
) -> bool
    ensures { result ≡ are_outcomes (the_day context.now) (opened_accounts context.now.plan.openings)
        (places_of rows.now) (names_of (parcels_in parcels.now)) }
{
    are_each(context, rows) && have_accounts(context, parcels)
}

// The row in the log of an instruction that was run: the batch has all of it but the reply.
fn into_row<N: Naming>(context: &Context<N>, done: Done<N>) -> LogRow
    requires place { IsPlaceOf context.now.batch.now done.place }
    ensures { row_replied (the_day context.now) done.place done.reply ≡ Some result }
{
    let place = done.place();
    let number = number_of(context, place);
    let batch = context.batch();
    let instruction = batch.at(place);
    log_row(number, batch.day(), *instruction, done.into_reply())
}

/// The rows in the log of instructions that were run.
pub(crate) fn into_rows<N: Naming>(
    alloc: Global,
    context: &Context<N>,
    done: Vec<Done<N>>,
) -> Result<Vec<LogRow>, NoMemory>
    requires within { AreWithin (length context.now.batch.now.instructions) done.items }
    ensures { IfOk result (λ rows. map Some rows.items ≡ rows_in (the_day context.now) done.items) }
{
    let mut rows = Vec::with_capacity(alloc, done.len())?;
    for one in done {
        rows.push(into_row(context, one))?;
    }
    Ok(rows)
}
