//! Slots for parcels: one for each touched account, in the order of a plan's openings.

ghost use Rattle.std.specs.Prelude.{◌≡◌, ℕ, ◌==◌, true, false, Some, None, nat_eq, length, map, is_some, MatchOption};
ghost use Rattle.std.specs.Prelude.{OnOk, OnErr, IfOk, IfErr, if◌then◌else◌};
ghost use Rattle.std.specs.Option.{option_map};
ghost use Rattle.std.specs.List.{IsDistinct, list_all};
ghost use Rattle.reg_base.specs.Footprint.{is_among};
ghost use Rattle.reg_base.specs.Rising.{IsRising};
ghost use Rattle.reg_tasks.specs.Contexts.{the_day};
ghost use Rattle.reg_tasks.specs.Gathering.{is_last_there};
ghost use Rattle.reg_tasks.specs.LastParcels.{parcels_in};
ghost use Rattle.reg_tasks.specs.Parcels.{names_of};
ghost use Rattle.reg_schedules.specs.Docks.{names_needed};
ghost use Rattle.reg_tasks.specs.Slots.{opened_accounts, name_of, standing_in, laid_at, is_there, LacksFor};

use crate::context::Context;
use crate::lack::Lack;
use crate::last_parcel::LastParcel;
use crate::likely::find_slot;
use crate::naming::Naming;
use crate::needs::{is_named, tail_in};
use crate::parcel::Parcel;
use reg_base::{AccountNo, NoMemory};
use reg_plan::{Arrow, LikelySlots, Opening};
use std::alloc::Global;

// Takes the parcel out of the slot of an account.
fn take_parcel<N: Naming>(
    openings: &[Opening],
    slots: &mut [Option<Parcel<N>>],
    account: AccountNo,
    likely: u32,
) -> Option<Parcel<N>>
    requires rising { IsRising (opened_accounts openings.now) }
    requires size { length slots.old ≡ length openings.now }
    ensures value { option_map name_of result ≡ standing_in openings.now slots.old account }
    ensures left { (b : ℕ) → standing_in openings.now slots.new b
        ≡ (if account == b then None else standing_in openings.now slots.old b) }
{
    let Some(slot) = find_slot(openings, account, likely) else {
        return None;
    };
    slots[slot].take()
}

// Puts a parcel into the slot of its account, and answers whether there is one.
fn lay_parcel<N: Naming>(
    openings: &[Opening],
    slots: &mut [Option<Parcel<N>>],
    parcel: Parcel<N>,
) -> bool
    requires rising { IsRising (opened_accounts openings.now) }
    requires size { length slots.old ≡ length openings.now }
    ensures there { result ≡ is_among (opened_accounts openings.now) parcel.value.number }
    ensures laid { result ≡ true → (b : ℕ)
        → standing_in openings.now slots.new b
        ≡ (if parcel.value.number == b then Some (name_of parcel) else standing_in openings.now slots.old b) }
{
    let Some(slot) = find_slot(openings, parcel.account(), parcel.likely_slot()) else {
        return false;
    };
    slots[slot].replace(parcel);
    true
}

/// A slot for each touched account, with its opening value.
pub(crate) fn open_slots<N: Naming>(
    alloc: Global,
    context: &Context<N>,
) -> Result<Vec<Option<Parcel<N>>>, NoMemory>
    ensures { IfOk result (λ slots. map (option_map name_of) slots.items
        ≡ map (λ opening. Some (opening.account, 0)) context.now.plan.openings) }
{
    let openings = context.openings();
    let mut slots = Vec::with_capacity(alloc, openings.len())?;
    let mut slot: u32 = 0;
    for opening in openings {
        let parcel = context.open_touched(alloc, opening.account, slot)?;
        slots.push(Some(parcel))?;
        slot = slot.saturating_add(1);
    }
    Ok(slots)
}

// Whether the parcel that is named by this account and this place stands in the slot of the account.
fn stands<N: Naming>(
    openings: &[Opening],
    slots: &[Option<Parcel<N>>],
    account: AccountNo,
    after: u32,
    likely: u32,
) -> bool
    requires rising { IsRising (opened_accounts openings.now) }
    requires size { length slots.now ≡ length openings.now }
    ensures { result ≡ is_there (standing_in openings.now slots.now) (account, after) }
{
    let Some(slot) = find_slot(openings, account, likely) else {
        return false;
    };
    match &slots[slot] {
        Some(parcel) => is_named(parcel, account, after),
        None => false,
    }
}

/// Whether the parcels that an instruction needs, by the accounts that it touches and the arrows that lead to it, are
/// in the slots of their accounts. The likely slots are those of the accounts.
pub(crate) fn are_ready<N: Naming>(
    openings: &[Opening],
    slots: &[Option<Parcel<N>>],
    accounts: &[AccountNo],
    arrows: &[Arrow],
    mut likely: LikelySlots,
) -> bool
    requires rising { IsRising (opened_accounts openings.now) }
    requires size { length slots.now ≡ length openings.now }
    ensures { result ≡ list_all (λ name. is_there (standing_in openings.now slots.now) name)
        (names_needed arrows.now accounts.now) }
{
    for account in accounts {
        let slot = likely.next();
        if !stands(openings, slots, *account, tail_in(arrows, *account), slot) {
            return false;
        }
    }
    true
}

/// Takes the parcels of these accounts out of their slots.
///
/// # Errors
/// `NoMemory` if memory ran out. Nothing is taken then.
pub(crate) fn take_parcels<N: Naming>(
    alloc: Global,
    openings: &[Opening],
    slots: &mut [Option<Parcel<N>>],
    accounts: &[AccountNo],
    mut likely: LikelySlots,
) -> Result<Vec<Parcel<N>>, NoMemory>
    requires rising { IsRising (opened_accounts openings.now) }
    requires size { length slots.old ≡ length openings.now }
    requires distinct { IsDistinct nat_eq accounts.now }
    requires there { list_all (λ a. is_some (standing_in openings.now slots.old a)) accounts.now ≡ true }
    ensures names { IfOk result
        (λ parcels. map Some (names_of parcels.items) ≡ map (standing_in openings.now slots.old) accounts.now) }
    ensures left { OnOk result
        ((b : ℕ) → standing_in openings.now slots.new b
        ≡ (if is_among accounts.now b then None else standing_in openings.now slots.old b)) }
    ensures back { OnErr result (slots.new ≡ slots.old) }
{
    let mut parcels = Vec::with_capacity(alloc, accounts.len())?;
    for account in accounts {
        let parcel = take_parcel(openings, slots, *account, likely.next()).unwrap();
        parcels.push_reserved(parcel);
    }
    Ok(parcels)
}

// Whether there is a slot for each of these parcels.
pub(crate) fn have_slots<N: Naming>(openings: &[Opening], parcels: &[Parcel<N>]) -> bool
    requires rising { IsRising (opened_accounts openings.now) }
    ensures { result ≡ list_all (λ n. is_among (opened_accounts openings.now) n.0) (names_of parcels.now) }
{
    for parcel in parcels {
        if find_slot(openings, parcel.account(), parcel.likely_slot()).is_none() {
            return false;
        }
    }
    true
}

/// Puts parcels into the slots of their accounts, and answers whether there are such slots.
pub(crate) fn lay_parcels<N: Naming>(
    openings: &[Opening],
    slots: &mut [Option<Parcel<N>>],
    parcels: Vec<Parcel<N>>,
) -> bool
    requires rising { IsRising (opened_accounts openings.now) }
    requires size { length slots.old ≡ length openings.now }
    ensures there { result ≡ list_all (λ n. is_among (opened_accounts openings.now) n.0) (names_of parcels.items) }
    ensures laid { result ≡ true → (b : ℕ)
        → standing_in openings.now slots.new b
        ≡ laid_at (names_of parcels.items) (standing_in openings.now slots.old b) b }
{
    for parcel in parcels {
        if !lay_parcel(openings, slots, parcel) {
            return false;
        }
    }
    true
}

/// What stands in a slot, exactly if something does and it is what the last instruction left.
pub(crate) fn last_there<N: Naming>(
    context: &Context<N>,
    slot: Option<Parcel<N>>,
) -> Option<LastParcel<N>>
    ensures { MatchOption result
        (is_last_there (the_day context.now) context.now.plan (option_map name_of slot) ≡ false)
        (λ last. (Some (name_of last.parcel) ≡ option_map name_of slot)
        × (is_last_there (the_day context.now) context.now.plan (option_map name_of slot) ≡ true)) }
{
    let Some(parcel) = slot else {
        return None;
    };
    match context.last_parcel(parcel) {
        Ok(last) => Some(last),
        Err(_) => None,
    }
}

/// The last parcels that stand in all slots, in their order.
///
/// # Errors
/// `Memory` if memory ran out. `Foreign` if a slot is empty, or if what stands in it is not what the last instruction
/// left.
pub(crate) fn empty_slots<N: Naming>(
    alloc: Global,
    context: &Context<N>,
    slots: Vec<Option<Parcel<N>>>,
) -> Result<Vec<LastParcel<N>>, Lack>
    ensures names { IfOk result
        (λ lasts. map Some (names_of (parcels_in lasts.items)) ≡ map (option_map name_of) slots.items) }
    ensures lack { IfErr result
        (LacksFor (list_all (is_last_there (the_day context.now) context.now.plan)
        (map (option_map name_of) slots.items) ≡ false)) }
{
    let mut lasts = Vec::with_capacity(alloc, slots.len())?;
    for slot in slots {
        let Some(last) = last_there(context, slot) else {
            return Err(Lack::Foreign);
        };
        lasts.push(last)?;
    }
    Ok(lasts)
}
