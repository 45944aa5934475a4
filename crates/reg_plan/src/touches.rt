//! Which instructions touch which accounts.

ghost use Rattle.std.specs.Prelude.{◌≡◌, ◌+◌, ◌≤◌, ◌++◌, length, OnOk, IfOk};
ghost use Rattle.std.specs.List.Sorted.{IsPermutation, IsSorted};
ghost use Rattle.reg_base.specs.declared.limits.TheConstants.{MOST_INSTRUCTIONS};
ghost use Rattle.reg_plan.specs.TouchList.{touched_at, touches_of, touch_cmp};

use crate::arrow::Touch;
use crate::touched::Touched;
use reg_base::{AccountNo, NoMemory};
use std::alloc::Global;

// Each account that an instruction touches with the instruction's place. The first instruction has the place `first`.
// The touches are sorted, so that `in_order` only has to merge those of several runs; no contract promises this order.
pub(crate) fn sorted_touches(
    alloc: Global,
    first: u32,
    touched: &Touched,
) -> Result<Vec<Touch>, NoMemory>
    requires { first + length touched.now ≤ MOST_INSTRUCTIONS + 1 }
    ensures { IfOk result (λ touches. IsPermutation (touches_of first touched.now) touches.items) }
{
    let mut touches = find_touches(alloc, first, touched)?;
    touches.sort_unstable();
    Ok(touches)
}

// Touches in the order of account and place.
pub(crate) fn in_order(touches: Vec<Touch>) -> Result<Vec<Touch>, NoMemory>
    ensures each { IfOk result (λ sorted. IsPermutation touches.items sorted.items) }
    ensures sorted { IfOk result (λ sorted. IsSorted touch_cmp sorted.items) }
{
    let mut sorted = touches;
    sorted.sort()?;
    Ok(sorted)
}

// Each account that an instruction touches with the instruction's place, in the order of the instructions.
fn find_touches(alloc: Global, first: u32, touched: &Touched) -> Result<Vec<Touch>, NoMemory>
    requires { first + length touched.now ≤ MOST_INSTRUCTIONS + 1 }
    ensures { IfOk result (λ touches. touches.items ≡ touches_of first touched.now) }
{
    let mut touches = Vec::with_capacity(alloc, touched.count())?;
    let mut place = first;
    for index in 0..touched.len() {
        push_touches(&mut touches, place, touched.at(index as u32 + 1))?;
        place += 1;
    }
    Ok(touches)
}

fn push_touches(
    touches: &mut Vec<Touch>,
    place: u32,
    accounts: &[AccountNo],
) -> Result<(), NoMemory>
    ensures { OnOk result (touches.new.items ≡ touches.old.items ++ touched_at place accounts.now) }
{
    for account in accounts {
        touches.push(Touch {
            account: *account,
            place,
        })?;
    }
    Ok(())
}
