//! Running one instruction on what stands in the slots.

ghost use Rattle.std.specs.Prelude.{◌≡◌, Some, false, IfOk, IfErr, OnOk};
ghost use Rattle.reg_book.specs.Day.{DayValue};
ghost use Rattle.reg_tasks.specs.Contexts.{the_day};
ghost use Rattle.reg_tasks.specs.Names.{IsRowOfDay};
ghost use Rattle.reg_tasks.specs.Places.{IsPlaceOf};
ghost use Rattle.reg_tasks.specs.Slots.{IsLaidBack, LacksFor, is_ready};
ghost use Rattle.reg_tasks.specs.Standing.{stands};

use crate::gate::Gate;
use crate::lack::Lack;
use crate::naming::Naming;
use crate::outcome::Ran;
use crate::slots::Slots;
use reg_rules::LogRow;
use std::alloc::Global;

/// Runs the instruction at a place on what stands in the slots: takes its task, passes the gate as the only worker,
/// runs the task, and lays what it leaves. Answers its run and its row in the log. The place is counted from 1.
///
/// # Errors
/// `Memory` if memory ran out. `Foreign` if a parcel that the instruction needs is not there. If no day is named, also
/// `Memory` if the task does not fit the context, and `Foreign` if what it leaves has no slot.
pub fn run_at<N: Naming, G: Gate>(
    alloc: Global,
    slots: &mut Slots<'_, '_, N>,
    gate: &G,
    place: u32,
) -> Result<(Ran<N>, LogRow), Lack>
    requires place { IsPlaceOf slots.old.context.now.batch.now place }
    ensures context { slots.new.context.now ≡ slots.old.context.now }
    ensures place { IfOk result (λ kept. kept.0.place ≡ place) }
    ensures row { IfOk result (λ kept. IsRowOfDay N.day place kept.1) }
    ensures laid { OnOk result
        (IsLaidBack N.day (the_day slots.old.context.now) place (stands slots.old) (stands slots.new)) }
    ensures lack { IfErr result
        (LacksFor ((d : DayValue) → N.day ≡ Some d
        → is_ready (the_day slots.old.context.now) slots.old.context.now.plan place (stands slots.old) ≡ false)) }
{
    let task = slots.take(alloc, place)?;
    gate.enter(0, &task);
    let Ok(outcome) = task.run(alloc, slots.context()) else {
        return Err(Lack::Memory);
    };
    let Ok(kept) = slots.lay_for_row(outcome) else {
        return Err(Lack::Foreign);
    };
    Ok(kept)
}
