//! A worker that takes tasks from deques, and runs them.

ghost use Rattle.std.specs.Prelude.{◌≡◌, [], ◌∷◌, ◌++◌, List, IfOk};
ghost use Rattle.reg_claim.specs.Seats.{known, seat_table, table_id, places, IsToFinish};
ghost use Rattle.reg_deques.specs.Yards.{deques, worker_of};
ghost use Rattle.reg_run.specs.Running.{numbers_ran, answers_of, IsEnd, RunsOne};
ghost use Rattle.reg_run.specs.Taking.{known_by};

use crate::doing::Do;
use crate::ran::Ran;
use crate::taker::{Sharing, Taken, Taker};
use reg_base::NoMemory;
use reg_claim::{ClaimTable, Seat};
use reg_deques::{Numbered, Yard};
use std::alloc::Global;
use std::marker::PhantomData;

/// A worker that has not begun: what it takes tasks by, and its seat.
#[derive(Drop)]
pub struct ReadyWorker<T: Numbered, S: Sharing> {
    /// Its own deque, and its pass at the others.
    pub taker: Taker<T, S>,
    /// Its seat at the table.
    pub seat: Seat,
    pub(crate) ghost table_is: { seat_table seat ≡ S.table },
    pub(crate) ghost one_stake: { (known seat).stake ≡ 1 },
    pub(crate) ghost fresh: { (known seat).finished ≡ [] },
}

/// A worker that has begun: its notes, its seat, and the tasks that it ran, in the order in which it did.
#[derive(Drop)]
pub(crate) struct BusyWorker<S: Sharing, A, N> {
    pub(crate) notes: N,
    pub(crate) seat: Seat,
    pub(crate) ran: Vec<Ran<A>>,
    pub(crate) of: PhantomData<S>,
    pub(crate) ghost table_is: { seat_table seat ≡ S.table },
    pub(crate) ghost one_stake: { (known seat).stake ≡ 1 },
    pub(crate) ghost finished: { numbers_ran ran.items ≡ (known seat).finished },
}

/// Runs tasks of its own deque, and when there are none, tasks that it steals from the others. It leaves when it finds
/// none: no task appears later. It runs those that it took, in this order, and no others.
///
/// # Errors
/// `NoMemory` if memory ran out.
pub(crate) fn work<T: Numbered + Drop, A: Drop, N: Drop, D: Do<T, A, N>, S: Sharing>(
    alloc: Global,
    doing: &D,
    table: &ClaimTable,
    yard: &Yard<T>,
    worker: ReadyWorker<T, S>,
) -> Result<BusyWorker<S, A, N>, NoMemory>
    requires ready { D.ready doing.now }
    requires table { (table_id table.now ≡ S.table) × (places table.now ≡ D.count doing.now) }
    requires yard { deques yard.now ≡ S.deques }
    ensures { IfOk result
        (λ w. IsEnd (D.promises doing.now) D.noted (known_by worker.taker) w.ran.items w.notes) }
{
    let ReadyWorker { taker, seat } = worker;
    let mut taker = taker;
    let number = taker.pass.worker();
    let mut busy: BusyWorker<S, A, N> = begin(alloc, doing, number, seat);
    for _turn in 0..u32::MAX {
        let Some(taken) = taker.take(yard) else {
            return Ok(busy);
        };
        busy = run_taken(alloc, doing, table, number, busy, taken)?;
    }
    Ok(busy)
}

// A worker begins: it ran nothing, and has noted nothing.
fn begin<T: Numbered + Drop, A: Drop, N: Drop, D: Do<T, A, N>, S: Sharing>(
    alloc: Global,
    doing: &D,
    worker: u32,
    seat: Seat,
) -> BusyWorker<S, A, N>
    requires table { seat_table seat ≡ S.table }
    requires stake { (known seat).stake ≡ 1 }
    requires fresh { (known seat).finished ≡ [] }
    ensures none { result.ran.items ≡ [] }
    ensures noted { D.noted worker [] result.notes }
{
    BusyWorker {
        notes: doing.begin(alloc, worker),
        seat,
        ran: Vec::new(alloc),
        of: PhantomData,
    }
}

// Claims a task, runs it, and counts it as finished.
fn run_taken<T: Numbered + Drop, A: Drop, N: Drop, D: Do<T, A, N>, S: Sharing>(
    alloc: Global,
    doing: &D,
    table: &ClaimTable,
    worker: u32,
    busy: BusyWorker<S, A, N>,
    taken: Taken<T>,
) -> Result<BusyWorker<S, A, N>, NoMemory>
    requires ready { D.ready doing.now }
    requires table { (table_id table.now ≡ S.table) × (places table.now ≡ D.count doing.now) }
    ensures ran { IfOk result (λ next. RunsOne (D.promises doing.now) worker taken.stolen (T.number taken.task)
        busy.ran.items next.ran.items) }
    ensures noted { IfOk result (λ next. D.noted worker (answers_of busy.ran.items) busy.notes
        → D.noted worker (answers_of next.ran.items) next.notes) }
{
    let mut busy = busy;
    let Taken { task, stolen } = taken;
    let number = doing.number(&task);
    // A deque gives none twice, so this never comes.
    if !table.claim(&mut busy.seat, number) {
        return Err(NoMemory);
    }
    let BusyWorker {
        mut notes,
        mut seat,
        mut ran,
        ..
    } = busy;
    let answer = run_claimed(alloc, doing, &seat, worker, stolen, task, &mut notes)?;
    ran.reserve(1)?;
    table.finish(&mut seat, number);
    ran.push_reserved(Ran {
        number,
        worker,
        stolen,
        answer,
    });
    Ok(BusyWorker {
        notes,
        seat,
        ran,
        of: PhantomData,
    })
}

// Runs a task whose number the worker has claimed. No worker does so anywhere else.
fn run_claimed<T: Numbered + Drop, A: Drop, N: Drop, D: Do<T, A, N>>(
    alloc: Global,
    doing: &D,
    _seat: &Seat,
    worker: u32,
    stolen: bool,
    task: T,
    notes: &mut N,
) -> Result<A, NoMemory>
    requires ready { D.ready doing.now }
    requires claimed { IsToFinish (T.number task) (known _seat.now) }
    ensures promised { IfOk result (λ answer. D.promises doing.now (T.number task) answer) }
    ensures noted { IfOk result (λ answer. (before : List A) → D.noted worker before notes.old
        → D.noted worker (before ++ answer ∷ []) notes.new) }
{
    doing.run(alloc, worker, stolen, task, notes)
}
