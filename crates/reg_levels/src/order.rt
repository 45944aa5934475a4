//! The instructions of a day by rising level.

ghost use Rattle.std.specs.Prelude.{◌≡◌, ℕ, ◌+◌, ◌<◌, ◌≤◌, None, length, IfOk, OnOk, IsPermutation};
ghost use Rattle.std.specs.List.Sorted.{IsNonDecreasingBy};
ghost use Rattle.reg_base.specs.Rising.{count_up};
ghost use Rattle.reg_plan.specs.Plans.{level_at};
ghost use Rattle.reg_plan.specs.Orders.{first_order_fault};
ghost use Rattle.reg_levels.specs.Levels.{AreRestOrMost, IsByLevel, IsOneLevel, with_level_of};

use reg_base::NoMemory;
use reg_plan::Plan;
use reg_plan::laws::{levels_rise_along_arrows, no_fault_is_a_legal_order};
use reg_tasks::{Context, Naming};
use std::alloc::Global;

// The level of a place, which is counted from 1. Behind the last place it is 0.
fn level_of(levels: &[u32], place: u32) -> u32
    ensures { result ≡ level_at levels.now place }
{
    match levels.get(place.saturating_sub(1) as usize) {
        Some(level) => *level,
        None => 0,
    }
}

// The places of so many instructions.
fn places(alloc: Global, count: u32) -> Result<Vec<u32>, NoMemory>
    ensures { IfOk result (λ places. places.items ≡ count_up 1 count) }
{
    let mut places = Vec::with_capacity(alloc, count as usize)?;
    for before in 0..count {
        places.push(before + 1)?;
    }
    Ok(places)
}

// Sorts places by level. Those of one level keep their order.
fn sort_by_level(levels: &[u32], places: &mut Vec<u32>) -> Result<(), NoMemory>
    ensures same { IsPermutation places.old.items places.new.items }
    ensures sorted { OnOk result (IsNonDecreasingBy (λ place. level_at levels.now place) places.new.items) }
    ensures kept { OnOk result
        ((place : ℕ) → with_level_of levels.now place places.new.items
        ≡ with_level_of levels.now place places.old.items) }
{
    places.sort_by_key(|place| level_of(levels, *place))?;
    Ok(())
}

/// The places by rising level, and within a level by rising place: this is a legal order.
pub(crate) fn order_by_level<N: Naming>(
    alloc: Global,
    context: &Context<N>,
) -> Result<Vec<u32>, NoMemory>
    ensures legal { IfOk result (λ order. first_order_fault context.now.plan order.items ≡ None) }
    ensures by_level { IfOk result (λ order. IsByLevel context.now.plan order.items) }
{
    levels_rise_along_arrows();
    no_fault_is_a_legal_order();
    let plan = context.plan();
    let mut order = places(alloc, plan.len())?;
    sort_by_level(plan.levels(), &mut order)?;
    Ok(order)
}

/// The index behind the places of an order that stand from this index on and have the level of the place there, or
/// behind the first `most` of them. Indexes are counted from 0.
pub(crate) fn level_end(plan: &Plan, order: &[u32], from: usize, most: usize) -> usize
    requires there { from < length order.now }
    requires most { 1 ≤ most }
    ensures some { from < result }
    ensures within { result ≤ length order.now }
    ensures few { result ≤ from + most }
    ensures one { IsOneLevel plan.now order.now from result }
    ensures whole { AreRestOrMost plan.now order.now most from result }
{
    let levels = plan.levels();
    let level = level_of(levels, order[from]);
    let end = from + most.min(order.len() - from);
    for index in from + 1..end {
        if level_of(levels, order[index]) != level {
            return index;
        }
    }
    end
}
