//! What a worker does until all is done.

ghost use Rattle.std.specs.Prelude.{◌≡◌, true};
ghost use Rattle.reg_claim.specs.Seats.{known};
ghost use Rattle.reg_work.specs.Ends.{sees_end};

use crate::shared::Shared;
use crate::worker::Worker;
use crossbeam_utils::Backoff;
use reg_deques::Numbered;
use reg_run::{Sharing, Taken};
use reg_tasks::{Gate, Lack, Naming, Task};
use std::alloc::Global;
use std::sync::Wait;
use std::thread::Parker;
use std::time::Duration;

// How long a worker sleeps that has found nothing for a while, in microseconds. An instruction takes about one, and to
// fall asleep and to wake up takes some five. The system may add 50 of its own.
const NAP: u64 = 50;

/// A worker at its end: it has seen that all is done, or that the workers are to leave. If it told them to, it says
/// what it lacked.
#[derive(Drop)]
pub(crate) struct EndedWorker<T: Numbered, N: Naming, S: Sharing> {
    pub(crate) number: u32,
    pub(crate) worker: Worker<T, N, S>,
    pub(crate) lack: Option<Lack>,
    pub(crate) ghost over: { sees_end S.count (known worker.seat) ≡ true },
}

// Claims and runs a task, hands on what it left, and finishes it. A task whose place is claimed already is not run.
fn run_task<N: Naming, S: Sharing, R: Wait, G: Gate>(
    rt: &R,
    alloc: Global,
    shared: &Shared<'_, Task<N>, N, S>,
    gate: &G,
    number: u32,
    worker: &mut Worker<Task<N>, N, S>,
    task: Task<N>,
) -> Result<(), Lack> {
    let Some(mut execution) = worker.run(alloc, shared, gate, number, task)? else {
        return Ok(());
    };
    worker.hand_on(rt, shared, &mut execution)?;
    Ok(worker.finish(shared, execution)?)
}

// The task that a worker runs next, if it finds one: of its own deque, else of the places that it opens, else of
// another worker's deque. It opens and steals nothing once it sees that the workers are to leave.
fn find<N: Naming, S: Sharing, R: Wait>(
    rt: &R,
    alloc: Global,
    shared: &Shared<'_, Task<N>, N, S>,
    worker: &mut Worker<Task<N>, N, S>,
) -> Result<Option<Task<N>>, Lack> {
    for _ in 0..shared.context.batch().len() {
        let own = worker.take_own();
        if own.is_some() {
            return Ok(own);
        }
        if worker.is_over(shared) {
            return Ok(None);
        }
        if !worker.open_next(rt, alloc, shared)? {
            break;
        }
    }
    Ok(worker.take(shared).map(|taken| taken.task))
}

// One step of a worker: finds a task and runs it. Answers whether it found one.
fn step<N: Naming, S: Sharing, R: Wait, G: Gate>(
    rt: &R,
    alloc: Global,
    shared: &Shared<'_, Task<N>, N, S>,
    gate: &G,
    number: u32,
    worker: &mut Worker<Task<N>, N, S>,
) -> Result<bool, Lack> {
    let Some(task) = find(rt, alloc, shared, worker)? else {
        return Ok(false);
    };
    run_task(rt, alloc, shared, gate, number, worker, task)?;
    Ok(true)
}

// Lets a worker wait that has found nothing. It spins at first, then it lets others have the processor, and if that has
// not helped it sleeps for a while: nobody wakes it.
fn pause<R: Wait>(rt: &R, backoff: &Backoff) {
    if backoff.is_completed() {
        Parker::new().park_timeout(rt, Duration::from_micros(NAP));
    } else {
        backoff.snooze();
    }
}

/// Runs tasks until all are done, or the workers are to leave. If something is lacking, it tells all workers to leave.
/// It leaves only after a look that shows the one or the other.
pub(crate) fn work<N: Naming, S: Sharing, R: Wait, G: Gate>(
    rt: &R,
    alloc: Global,
    shared: &Shared<'_, Task<N>, N, S>,
    gate: &G,
    number: u32,
    worker: Worker<Task<N>, N, S>,
) -> EndedWorker<Task<N>, N, S>
    ensures { result.number ≡ number }
{
    let mut worker = worker;
    let mut lack = None;
    let backoff = Backoff::new();
    for _ in rt.forever() {
        let found = match step(rt, alloc, shared, gate, number, &mut worker) {
            Ok(found) => found,
            Err(why) => {
                worker.stop(shared);
                lack = Some(why);
                false
            }
        };
        if found {
            backoff.reset();
            continue;
        }
        if worker.is_over(shared) {
            return EndedWorker {
                number,
                worker,
                lack,
            };
        }
        pause(rt, &backoff);
    }
    unreachable!()
}
