//! Settlement by one worker.

ghost use Rattle.std.specs.Prelude.{◌≡◌, ℕ, ◌≤◌, [], ◌∷◌, ◌++◌, length, IfOk, IfSome, OnOk};
ghost use Rattle.reg_book.specs.Day.{settled_day};
ghost use Rattle.reg_book.specs.Settled.{IsOfBook};
ghost use Rattle.reg_facts.specs.Counting.{times, once};
ghost use Rattle.reg_tasks.specs.Gathering.{AreFirstRows};
ghost use Rattle.reg_work.specs.Shifts.{AreShifts, places_ran};

use crate::shift::Shift;
use reg_base::NoMemory;
use reg_book::Settled;
use reg_rules::LogRow;
use reg_tasks::{Context, Gate, Lack, Naming, Ran, Slots, run_at};
use std::alloc::Global;

// Puts one more item behind those that are there.
fn keep<T: Drop>(items: &mut Vec<T>, item: T) -> Result<(), NoMemory>
    ensures { OnOk result (items.new.items ≡ items.old.items ++ item ∷ []) }
{
    items.push(item)?;
    Ok(())
}

/// Runs the instructions in the order of the batch, and answers their runs and the log.
///
/// # Errors
/// `Memory` if memory ran out. Otherwise what [`run_at`] lacks.
pub(crate) fn run_in_order<N: Naming, G: Gate>(
    alloc: Global,
    slots: &mut Slots<'_, '_, N>,
    gate: &G,
) -> Result<(Vec<Ran<N>>, Vec<LogRow>), Lack>
    ensures context { slots.new.context.now ≡ slots.old.context.now }
    ensures each_once { IfOk result
        (λ kept. (p : ℕ) → times p (places_ran kept.0.items)
        ≡ once (length slots.old.context.now.batch.now.instructions) p) }
    ensures log { IfOk result
        (λ kept. AreFirstRows N.day (length slots.old.context.now.batch.now.instructions) kept.1.items) }
{
    let places = slots.context().batch().len();
    let mut ran = Vec::with_capacity(alloc, places as usize)?;
    let mut log = Vec::with_capacity(alloc, places as usize)?;
    for before in 0..places {
        let (one, row) = run_at(alloc, slots, gate, before + 1)?;
        keep(&mut ran, one)?;
        keep(&mut log, row)?;
    }
    Ok((ran, log))
}

/// The shift of a worker that is the only one.
///
/// # Errors
/// `NoMemory` if memory ran out.
pub(crate) fn only_shift<N: Naming>(
    alloc: Global,
    ran: Vec<Ran<N>>,
) -> Result<Vec<Shift<N>>, NoMemory>
    ensures { IfOk result (λ shifts. (count : ℕ) → ((p : ℕ) → times p (places_ran ran.items) ≡ once count p)
        → AreShifts 1 count shifts.items) }
{
    let mut shifts = Vec::with_capacity(alloc, 1)?;
    keep(&mut shifts, Shift { worker: 0, ran })?;
    Ok(shifts)
}

/// Settles the day of a context by one worker, which is the calling thread. Nobody else needs what an instruction
/// leaves, so it lies in a slot until the next instruction takes it: no dock, no deque and no claim.
///
/// # Errors
/// `Memory` if memory ran out. Otherwise what [`run_at`] or [`Slots::into_settled_with`] lacks.
pub(crate) fn settle_alone<N: Naming, G: Gate>(
    alloc: Global,
    context: &Context<N>,
    gate: &G,
) -> Result<(Settled, Vec<Shift<N>>), Lack>
    ensures settled { IfOk result (λ s. IfSome N.day (λ d. s.0 ≡ settled_day d)) }
    ensures of_book { IfOk result (λ s. IsOfBook context.now.book.now s.0) }
    ensures shifts { IfOk result (λ s. AreShifts 1 (length context.now.batch.now.instructions) s.1.items) }
{
    let mut slots = Slots::open(alloc, context)?;
    let (ran, log) = run_in_order(alloc, &mut slots, gate)?;
    let shifts = only_shift(alloc, ran)?;
    let settled = slots.into_settled_with(alloc, log)?;
    Ok((settled, shifts))
}
