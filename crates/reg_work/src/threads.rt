//! The threads of the workers of a call.

ghost use Rattle.std.specs.Prelude.{◌≡◌, ◌≤◌, ◌<◌, ◌+◌, ◌++◌, [], vec_len, vec_capacity, map, IfOk, IfErr, OnOk};
ghost use Rattle.reg_work.specs.declared.fault.Shortage.TheVariants.{Thread};
ghost use Rattle.reg_facts.specs.Lists.{first_numbers};
ghost use Rattle.reg_work.specs.EndedWorkers.{ended_numbers};

use crate::fault::Shortage;
use crate::shared::Shared;
use crate::work_loop::{EndedWorker, work};
use crate::worker::Worker;
use reg_deques::Numbered;
use reg_run::{ReadyWorker, Sharing};
use reg_tasks::{Gate, Naming, Task};
use std::alloc::Global;
use std::sync::Wait;
use std::thread;
use std::thread::{Promise, PromisedHandle, Scope, Threads};

/// A thread leaves the worker with this number, at its end.
#[derive(Clone, Copy)]
pub(crate) struct EndOf {
    number: u32,
}

impl<T: Numbered, N: Naming, S: Sharing> Promise<EndedWorker<T, N, S>> for EndOf {
    ghost kept_by = { λ promise ended_worker. ended_worker.number ≡ promise.number };
}

type Handle<N, S> = PromisedHandle<EndedWorker<Task<N>, N, S>, EndOf>;

// Starts a thread for each worker, from worker 0 on, until one cannot be started. There is room for their handles.
fn start_all<
    's,
    'b: 's,
    E,
    N: Naming + Send + Sync + 's,
    S: Sharing + Send + Sync + 's,
    R: Wait + Sync + 's,
    G: Gate + 's,
>(
    scope: &Scope<'s, E>,
    rt: &'s R,
    alloc: Global,
    shared: &'s Shared<'b, Task<N>, N, S>,
    gate: &'s G,
    unstarted: Vec<ReadyWorker<Task<N>, S>>,
    handles: &mut Vec<Handle<N, S>>,
) -> Result<(), Shortage>
    requires none { handles.old.items ≡ [] }
    requires room { vec_len unstarted ≤ vec_capacity handles.old }
    requires few { vec_len unstarted ≤ 8 }
    ensures all { OnOk result
        (map (λ handle. handle.promise.number) handles.new.items ≡ first_numbers (vec_len unstarted)) }
    ensures each { OnOk result (vec_len handles.new ≡ vec_len unstarted) }
    ensures fault { IfErr result (λ fault. fault ≡ Thread) }
{
    let mut next: u32 = 0;
    for worker in unstarted {
        let number = next;
        let started = scope.spawn_with(
            EndOf { number },
            move || -> EndedWorker<Task<N>, N, S>
                ensures { result.number ≡ number }
            { work(rt, alloc, shared, gate, number, Worker::new(alloc, worker)) },
        );
        let Ok(handle) = started else {
            return Err(Shortage::Thread);
        };
        handles.push_reserved(handle);
        next = number.saturating_add(1);
    }
    Ok(())
}

// Joins all threads, and keeps what they leave, for which there is room.
fn join_all<N: Naming, S: Sharing, R: Threads>(
    rt: &R,
    handles: Vec<Handle<N, S>>,
    ended_workers: &mut Vec<EndedWorker<Task<N>, N, S>>,
)
    requires none { ended_workers.old.items ≡ [] }
    requires room { vec_len handles + 1 ≤ vec_capacity ended_workers.old }
    ensures all { ended_numbers ended_workers.new.items ≡ map (λ handle. handle.promise.number) handles.items }
    ensures each { vec_len ended_workers.new ≡ vec_len handles }
    ensures room { vec_len ended_workers.new + 1 ≤ vec_capacity ended_workers.new }
{
    for handle in handles {
        ended_workers.push_reserved(handle.join(rt));
    }
}

// Joins all threads that were started, which were told to leave. What they leave is dropped.
fn join_and_drop<N: Naming, S: Sharing, R: Threads>(rt: &R, handles: Vec<Handle<N, S>>) {
    for handle in handles {
        handle.join(rt);
    }
}

/// Runs the workers: each in a thread of its own, except the last, which is the calling thread. All threads are joined.
///
/// # Errors
/// `Thread` if a thread could not be started: then those that were started are told to leave. Otherwise `Memory` if
/// memory ran out.
pub(crate) fn run_in_threads<
    N: Naming + Send + Sync,
    S: Sharing + Send + Sync,
    R: Threads + Wait + Sync,
    G: Gate,
>(
    rt: &R,
    alloc: Global,
    shared: &Shared<'_, Task<N>, N, S>,
    gate: &G,
    unstarted: Vec<ReadyWorker<Task<N>, S>>,
    last: ReadyWorker<Task<N>, S>,
) -> Result<Vec<EndedWorker<Task<N>, N, S>>, Shortage>
    requires few { vec_len unstarted ≤ 7 }
    ensures workers { IfOk result
        (λ ended_workers. ended_numbers ended_workers.items ≡ first_numbers (vec_len unstarted + 1)) }
    ensures each { IfOk result (λ ended_workers. vec_len ended_workers ≡ vec_len unstarted + 1) }
{
    let count = unstarted.len();
    thread::scope(
        thread::scope_env(),
        rt,
        move |scope| -> Result<Vec<EndedWorker<Task<N>, N, S>>, Shortage>
            requires few { vec_len unstarted ≤ 7 }
            requires number { count ≡ vec_len unstarted }
            ensures workers { IfOk result
                (λ ended_workers. ended_numbers ended_workers.items ≡ first_numbers (vec_len unstarted + 1)) }
            ensures each { IfOk result (λ ended_workers. vec_len ended_workers ≡ vec_len unstarted + 1) }
        {
            let mut last = Worker::new(alloc, last);
            let mut handles = Vec::with_capacity(alloc, count)?;
            let mut ended_workers = Vec::with_capacity(alloc, count + 1)?;
            let Ok(()) = start_all(scope, rt, alloc, shared, gate, unstarted, &mut handles) else {
                last.stop(shared);
                // A thread that is not joined may run on, and what it leaves is never dropped.
                join_and_drop(rt, handles);
                return Err(Shortage::Thread);
            };
            let ended_worker = work(rt, alloc, shared, gate, count as u32, last);
            join_all(rt, handles, &mut ended_workers);
            ended_workers.push_reserved(ended_worker);
            Ok(ended_workers)
        },
    )
}
