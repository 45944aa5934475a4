//! Settlement by levels.

ghost use Rattle.std.specs.Prelude.{◌≡◌, ◌<◌, ◌≤◌, ◌+◌, true, length, IfOk, IfErr, IfSome, OnOk, MatchResult};
ghost use Rattle.reg_book.specs.Day.{day_of, settled_day};
ghost use Rattle.reg_book.specs.Settled.{IsOfBook};
ghost use Rattle.reg_book.specs.Settling.{IsSettleFault};
ghost use Rattle.reg_tasks.specs.Names.{IsNamed};
ghost use Rattle.reg_base.specs.Workers.{may_work};
ghost use Rattle.reg_work.specs.Faults.{IsWorkFault};
ghost use Rattle.reg_work.specs.Shortages.{IsShortage};

use crate::fault::{Shortage, WorkFault};
use crate::level::run_level;
use reg_base::{Batch, Rules};
use reg_book::{Book, Settled};
use reg_levels::Levels;
use reg_schedules::MOST_WORKERS;
use reg_tasks::{Context, Gate, Naming};
use std::alloc::Global;
use std::marker::Brand;
use std::sync::Wait;
use std::thread::Threads;

// Whether this number of workers is within its limits.
pub(crate) fn is_allowed(workers: u32) -> bool
    ensures { result ≡ may_work workers }
{
    1 <= workers && workers <= MOST_WORKERS
}

// So many tasks are taken at once if one worker runs them: their values then stay near the processor.
const AT_ONCE: usize = 32;

// All tasks of a level are taken at once.
const ALL: usize = usize::MAX;

// How many tasks of a level are taken at once, at most: all, unless one worker runs them.
fn most_at_once(workers: u32) -> usize
    ensures some { 1 ≤ result }
    ensures all { 2 ≤ workers → result ≡ usize.MAX }
{
    if workers <= 1 { AT_ONCE } else { ALL }
}

// Runs the tasks of the next level, or some of them if one worker runs them, and lays what they leave.
fn run_next<N: Naming + Send + Sync, R: Threads + Wait, G: Gate>(
    rt: &R,
    alloc: Global,
    context: &Context<N>,
    levels: &mut Levels<N>,
    workers: u32,
    gate: &G,
) -> Result<(), Shortage>
    requires workers { may_work workers ≡ true }
    requires laid { levels.old.laid ≡ levels.old.taken }
    requires left { levels.old.taken < length levels.old.order.items }
    ensures context { levels.new.slots.context.now ≡ levels.old.slots.context.now }
    ensures order { levels.new.order ≡ levels.old.order }
    ensures laid { OnOk result (levels.new.laid ≡ levels.new.taken) }
    ensures more { OnOk result (levels.old.taken < levels.new.taken) }
    ensures lack { IfErr result (IsShortage workers) }
{
    let tasks = levels.take(alloc, most_at_once(workers))?;
    let outcomes = run_level(rt, alloc, context, gate, workers, tasks)?;
    levels.lay(outcomes)?;
    Ok(())
}

// Runs all levels, one after another.
fn run_all<N: Naming + Send + Sync, R: Threads + Wait, G: Gate>(
    rt: &R,
    alloc: Global,
    context: &Context<N>,
    levels: &mut Levels<N>,
    workers: u32,
    gate: &G,
) -> Result<(), Shortage>
    requires workers { may_work workers ≡ true }
    requires laid { levels.old.laid ≡ levels.old.taken }
    ensures context { levels.new.slots.context.now ≡ levels.old.slots.context.now }
    ensures laid { OnOk result (levels.new.laid ≡ length levels.new.order.items) }
    ensures lack { IfErr result (IsShortage workers) }
{
    while levels.are_left() {
        run_next(rt, alloc, context, levels, workers, gate)?;
    }
    Ok(())
}

// Settles the day of a context.
fn settle_context<N: Naming + Send + Sync, R: Threads + Wait, G: Gate>(
    rt: &R,
    alloc: Global,
    context: &Context<N>,
    workers: u32,
    gate: &G,
) -> Result<Settled, Shortage>
    requires workers { may_work workers ≡ true }
    ensures settled { IfOk result (λ s. IfSome N.day (λ d. s ≡ settled_day d)) }
    ensures of_book { IfOk result (λ s. IsOfBook context.now.book.now s) }
    ensures lack { IfErr result (IsShortage workers) }
{
    let mut levels = Levels::open(alloc, context)?;
    run_all(rt, alloc, context, &mut levels, workers, gate)?;
    Ok(levels.into_settled(alloc)?)
}

// Settles a batch by workers whose number is within its limits. If a day is named, it is this one.
fn settle_named<N: Naming + Send + Sync, R: Threads + Wait, G: Gate>(
    rt: &R,
    alloc: Global,
    book: &Book,
    rules: &Rules,
    batch: &Batch,
    workers: u32,
    gate: &G,
) -> Result<Settled, WorkFault>
    requires day { IsNamed N.day book.now rules.now batch.now }
    requires workers { may_work workers ≡ true }
    ensures answer { MatchResult result
        (λ s. (batch.now.base + 1 ≡ book.now.next) × IfSome N.day (λ d. s ≡ settled_day d))
        (IsWorkFault workers book.now batch.now) }
    ensures of_book { IfOk result (λ s. IsOfBook book.now s) }
{
    let context = Context::<N>::of(alloc, book, rules, batch)?;
    Ok(settle_context(rt, alloc, &context, workers, gate)?)
}

/// Settles a batch by workers, level by level: the instructions of a level touch no account in common, so they run at
/// the same time. They are divided among so many workers, or as many as there are instructions in the level if these
/// are fewer, in parts whose sizes differ by at most one. Each of several workers has a thread of its own. A single
/// worker, or that of a level of one instruction, is the calling thread. Each passes the gate before each run. The book
/// is not changed.
///
/// The settled day is that of `settle_plain`, for each number of workers.
///
/// # Errors
/// The first of these that applies. `Workers` if the number of workers is not 1 to 8. `WrongBase` if the first record
/// number of the batch is not the book's next record number. `NoThread` if a thread could not be started, which only
/// several workers need. `NoMemory` if memory ran out. All threads have ended then.
pub fn settle_waves<R: Threads + Wait, G: Gate>(
    rt: &R,
    alloc: Global,
    book: &Book,
    rules: &Rules,
    batch: &Batch,
    workers: u32,
    gate: &G,
) -> Result<Settled, WorkFault>
    ensures settled { MatchResult result
        (λ s. (may_work workers ≡ true) × (batch.now.base + 1 ≡ book.now.next)
        × (s ≡ settled_day (day_of book.now rules.now batch.now)))
        (IsWorkFault workers book.now batch.now) }
    ensures of_book { IfOk result (λ s. IsOfBook book.now s) }
{
    if !is_allowed(workers) {
        return Err(WorkFault::Workers);
    }
    settle_named::<Brand, R, G>(rt, alloc, book, rules, batch, workers, gate)
}
