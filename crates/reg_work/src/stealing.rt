//! Settlement by workers that steal.

ghost use Rattle.std.specs.Prelude.{◌≡◌, ℕ, ◌+◌, ◌≤◌, ◌<◌, [], true, length, map, vec_len, All, IfOk, IfErr, IfSome};
ghost use Rattle.std.specs.Prelude.{MatchResult};
ghost use Rattle.std.specs.List.{range_with_len};
ghost use Rattle.reg_book.specs.Day.{day_of, settled_day};
ghost use Rattle.reg_book.specs.Settled.{IsOfBook};
ghost use Rattle.reg_claim.specs.Views.{fresh};
ghost use Rattle.reg_claim.specs.Seats.{known, seat_table, table_id, places};
ghost use Rattle.reg_facts.specs.Counting.{times, once};
ghost use Rattle.reg_tasks.specs.Gathering.{places_of};
ghost use Rattle.reg_tasks.specs.Names.{IsNamed};
ghost use Rattle.reg_deques.specs.Yards.{deques, deques_of_owners, deques_of_pass, worker_of, IsBlank};
ghost use Rattle.reg_base.specs.Workers.{may_work};
ghost use Rattle.reg_work.specs.Faults.{IsWorkFault};
ghost use Rattle.reg_work.specs.Shifts.{AreShifts};
ghost use Rattle.reg_work.specs.Shortages.{IsShortage};

use crate::alone::settle_alone;
use crate::fault::{Shortage, WorkFault};
use crate::shared::Shared;
use crate::shift::Shift;
use crate::tally::{Work, count_up, join_parts};
use crate::threads::run_in_threads;
use crate::waves::is_allowed;
use reg_base::{Batch, Rules};
use reg_book::{Book, Settled};
use reg_claim::{ClaimTable, Seat};
use reg_run::{ReadyWorkers, Sharing, make_workers};
use reg_tasks::{Context, Gate, Lack, Naming, Task};
use reg_yard::{Docks, Owner, Pass, Yard};
use std::alloc::Global;
use std::marker::{Brand, PhantomData};
use std::sync::Wait;
use std::sync::atomic::AtomicU32;
use std::thread::Threads;

// Gives each worker a seat at the table, lets the workers work, and counts up what they did.
fn run_workers<
    'c,
    N: Naming + Send + Sync,
    S: Sharing + Send + Sync,
    R: Threads + Wait + Sync,
    G: Gate,
>(
    rt: &R,
    alloc: Global,
    context: &'c Context<'c, N>,
    docks: Docks<'c, 'c, N>,
    table: ClaimTable,
    seat: Seat,
    yard: Yard<Task<N>>,
    owners: Vec<Owner<Task<N>>>,
    passes: Vec<Pass<Task<N>>>,
    gate: &G,
) -> Result<Work<N>, Shortage>
    requires count { length context.now.batch.now.instructions ≡ S.count }
    requires table { (table_id table ≡ S.table) × (places table ≡ S.count) × (seat_table seat ≡ S.table) }
    requires fresh { known seat ≡ fresh }
    requires yard { deques yard ≡ S.deques }
    requires owners { deques_of_owners owners.items ≡ S.deques }
    requires passes { All (λ p. deques_of_pass p ≡ S.deques) passes.items }
    requires blank { All IsBlank passes.items }
    requires workers { map worker_of passes.items ≡ range_with_len 0 (vec_len passes) }
    requires some { 0 < vec_len passes }
    requires few { (vec_len passes ≤ 8) × (vec_len owners ≡ vec_len passes) }
    ensures shifts { IfOk result (λ w. AreShifts (vec_len passes) S.count w.shifts.items) }
    ensures each_done { IfOk result (λ w. (p : ℕ) → times p (places_of w.done.items) ≡ once S.count p) }
{
    let ready: ReadyWorkers<Task<N>, S> = make_workers(alloc, &table, seat, owners, passes)?;
    let ReadyWorkers {
        seat: rest,
        workers: mut unstarted,
    } = ready;
    let last = unstarted.pop().unwrap();
    let shared: Shared<'_, Task<N>, N, S> = Shared {
        context,
        docks,
        table,
        yard,
        opened: AtomicU32::new(0),
        of: PhantomData,
    };
    let ended_workers = run_in_threads(rt, alloc, &shared, gate, unstarted, last)?;
    let Shared { table, .. } = shared;
    Ok(count_up(alloc, table, rest, ended_workers)?)
}

// Runs the day of a context by several workers, which have docks, deques and a claim table.
fn run_by_stealing<N: Naming + Send + Sync, R: Threads + Wait + Sync, G: Gate>(
    rt: &R,
    alloc: Global,
    context: &Context<N>,
    workers: u32,
    gate: &G,
) -> Result<Work<N>, Shortage>
    requires several { 2 ≤ workers }
    requires workers { may_work workers ≡ true }
    ensures shifts { IfOk result (λ w. AreShifts workers (length context.now.batch.now.instructions) w.shifts.items) }
    ensures lack { IfErr result (IsShortage workers) }
    ensures each_done { IfOk result
        (λ w. (p : ℕ) → times p (places_of w.done.items) ≡ once (length context.now.batch.now.instructions) p) }
{
    let docks = Docks::of_waiting(alloc, context)?;
    let (yard, owners, passes) = Yard::new(alloc, workers)?;
    let Ok((table, seat)) = ClaimTable::new(alloc, context.batch().len()) else {
        return Err(Shortage::Day(Lack::Memory));
    };
    run_workers::<N, Brand, R, G>(
        rt, alloc, context, docks, table, seat, yard, owners, passes, gate,
    )
}

// Settles the day of a context.
fn settle_context<N: Naming + Send + Sync, R: Threads + Wait + Sync, G: Gate>(
    rt: &R,
    alloc: Global,
    context: &Context<N>,
    workers: u32,
    gate: &G,
) -> Result<(Settled, Vec<Shift<N>>), Shortage>
    requires workers { may_work workers ≡ true }
    ensures settled { IfOk result (λ s. IfSome N.day (λ d. s.0 ≡ settled_day d)) }
    ensures of_book { IfOk result (λ s. IsOfBook context.now.book.now s.0) }
    ensures shifts { IfOk result (λ s. AreShifts workers (length context.now.batch.now.instructions) s.1.items) }
    ensures lack { IfErr result (IsShortage workers) }
{
    if workers == 1 {
        return Ok(settle_alone(alloc, context, gate)?);
    }
    let work = run_by_stealing(rt, alloc, context, workers, gate)?;
    let Work {
        shifts,
        done,
        closing,
    } = work;
    let closing = join_parts(alloc, closing)?;
    let settled = context.gather_done(alloc, done, closing)?;
    Ok((settled, shifts))
}

// Settles a batch by workers whose number is within its limits. If a day is named, it is this one.
fn settle_named<N: Naming + Send + Sync, R: Threads + Wait + Sync, G: Gate>(
    rt: &R,
    alloc: Global,
    book: &Book,
    rules: &Rules,
    batch: &Batch,
    workers: u32,
    gate: &G,
) -> Result<(Settled, Vec<Shift<N>>), WorkFault>
    requires day { IsNamed N.day book.now rules.now batch.now }
    requires workers { may_work workers ≡ true }
    ensures answer { MatchResult result
        (λ s. (batch.now.base + 1 ≡ book.now.next) × IfSome N.day (λ d. s.0 ≡ settled_day d))
        (IsWorkFault workers book.now batch.now) }
    ensures of_book { IfOk result (λ s. IsOfBook book.now s.0) }
    ensures shifts { IfOk result (λ s. AreShifts workers (length batch.now.instructions) s.1.items) }
{
    let context = Context::<N>::of(alloc, book, rules, batch)?;
    Ok(settle_context(rt, alloc, &context, workers, gate)?)
}

/// Settles a batch by workers. Each of several workers has a deque of tasks. A worker takes the first task of its own
/// deque. If there is none, it opens the next places of the day, and puts the tasks of those that wait for no other
/// into its deque. If all are opened, it tries the deques of the others in rising number, and steals the first task of
/// one. It claims the task's place, passes the gate, runs the task, hands on what the instruction left to the
/// instructions that wait for it, puts each task that is complete with that into its own deque, and finishes the place.
/// It leaves after it saw that all places are finished, or that the workers are to leave. The book is not changed.
///
/// The last of several workers is the calling thread, and each other one has a thread of its own. A single worker is
/// the calling thread. Nobody waits for it, so it needs no deque, no dock and no claim: it runs the instructions in the
/// order of the batch, each on what those before it left, and passes the gate before each.
///
/// The settled day is that of `settle_plain`, whatever the number of workers and the order in which they work. There is
/// a shift for each worker, from worker 0 on, and each place from 1 to the number of instructions is in one shift,
/// once.
///
/// # Errors
/// The first of these that applies. `Workers` if the number of workers is not 1 to 8. `WrongBase` if the first record
/// number of the batch is not the book's next record number. `NoThread` if a thread could not be started. `NoMemory` if
/// memory ran out. All threads have ended then.
pub fn settle_with<R: Threads + Wait + Sync, G: Gate>(
    rt: &R,
    alloc: Global,
    book: &Book,
    rules: &Rules,
    batch: &Batch,
    workers: u32,
    gate: &G,
) -> Result<(Settled, Vec<Shift<Brand>>), WorkFault>
    ensures settled { MatchResult result
        (λ s. (may_work workers ≡ true) × (batch.now.base + 1 ≡ book.now.next)
        × (s.0 ≡ settled_day (day_of book.now rules.now batch.now)))
        (IsWorkFault workers book.now batch.now) }
    ensures of_book { IfOk result (λ s. IsOfBook book.now s.0) }
    ensures shifts { IfOk result (λ s. AreShifts workers (length batch.now.instructions) s.1.items) }
{
    if !is_allowed(workers) {
        return Err(WorkFault::Workers);
    }
    settle_named::<Brand, R, G>(rt, alloc, book, rules, batch, workers, gate)
}
