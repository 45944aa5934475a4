//! Running the tasks of a level.

ghost use Rattle.std.specs.Prelude.{◌≡◌, ◌≤◌, ◌++◌, [], Err, map, flat_map, vec_len, vec_capacity, IfOk, IfErr, OnOk};
ghost use Rattle.std.specs.Prelude.{is_ok, true};
ghost use Rattle.reg_work.specs.declared.fault.Shortage.TheVariants.{Thread};
ghost use Rattle.reg_levels.specs.Levels.{places_of, places_run};
ghost use Rattle.reg_facts.specs.Lists.{joined_lists};
ghost use Rattle.reg_work.specs.Parts.{AreEven};
ghost use Rattle.reg_work.specs.Shortages.{IsShortage};

use crate::division::divide;
use crate::fault::Shortage;
use reg_base::NoMemory;
use reg_tasks::{Context, Gate, Naming, Task, TaskOutcome};
use std::alloc::Global;
use std::snapshot::Snapshot;
use std::sync::Wait;
use std::thread;
use std::thread::{Promise, PromisedHandle, Scope, Threads};

/// A thread leaves the outcomes of these tasks, in their order, unless memory ran out.
#[derive(Drop)]
struct OutcomesOf<N: Naming> {
    tasks: Snapshot<Vec<Task<N>>>,
}

impl<N: Naming> Promise<Result<Vec<TaskOutcome<N>>, NoMemory>> for OutcomesOf<N> {
    ghost kept_by = { λ promise result. IfOk result
        (λ outcomes. places_run outcomes.items ≡ places_of promise.tasks.value.items) };
}

type Handle<N> = PromisedHandle<Result<Vec<TaskOutcome<N>>, NoMemory>, OutcomesOf<N>>;

// Runs tasks one after another, as one worker.
fn run_part<N: Naming, G: Gate>(
    alloc: Global,
    context: &Context<N>,
    gate: &G,
    worker: u32,
    tasks: Vec<Task<N>>,
) -> Result<Vec<TaskOutcome<N>>, NoMemory>
    ensures { IfOk result (λ outcomes. places_run outcomes.items ≡ places_of tasks.items) }
{
    let mut outcomes = Vec::with_capacity(alloc, tasks.len())?;
    for task in tasks {
        gate.enter(worker, &task);
        let Ok(outcome) = task.run(alloc, context) else {
            return Err(NoMemory);
        };
        outcomes.push(outcome)?;
    }
    Ok(outcomes)
}

// Joins all threads, and adds what they made to the outcomes.
fn join_all<N: Naming, R: Threads>(
    rt: &R,
    handles: Vec<Handle<N>>,
    outcomes: &mut Vec<TaskOutcome<N>>,
) -> Result<(), NoMemory>
    ensures { OnOk result (places_run outcomes.new.items
        ≡ places_run outcomes.old.items
        ++ places_of (flat_map (λ handle. handle.promise.tasks.value.items) handles.items)) }
{
    let mut answer = Ok(());
    for handle in handles {
        let added = match handle.join(rt) {
            Ok(mut part) => outcomes.append(&mut part).or(Err(NoMemory)),
            Err(NoMemory) => Err(NoMemory),
        };
        answer = answer.and(added);
    }
    answer
}

// Starts a thread for each part, until one cannot be started. There is room for their handles.
fn start_all<'s, E, N: Naming + Send + Sync + 's, G: Gate + 's>(
    scope: &Scope<'s, E>,
    alloc: Global,
    context: &'s Context<'s, N>,
    gate: &'s G,
    parts: Vec<Vec<Task<N>>>,
    handles: &mut Vec<Handle<N>>,
) -> Result<(), Shortage>
    requires none { handles.old.items ≡ [] }
    requires room { vec_len parts ≤ vec_capacity handles.old }
    ensures all { OnOk result
        (flat_map (λ handle. handle.promise.tasks.value.items) handles.new.items ≡ joined_lists parts.items) }
    ensures fault { IfErr result (λ fault. fault ≡ Thread) }
{
    let mut worker: u32 = 0;
    for part in parts {
        let number = worker;
        let promise = OutcomesOf {
            tasks: Snapshot::of(&part),
        };
        let started = scope.spawn_with(
            promise,
            move || -> Result<Vec<TaskOutcome<N>>, NoMemory>
                ensures { IfOk result (λ outcomes. places_run outcomes.items ≡ places_of part.items) }
            { run_part(alloc, context, gate, number, part) },
        );
        let Ok(handle) = started else {
            return Err(Shortage::Thread);
        };
        handles.push_reserved(handle);
        worker = number.saturating_add(1);
    }
    Ok(())
}

// What was lacking, if anything: a thread comes before memory.
fn first_lack(
    started: Result<(), Shortage>,
    joined_lists: Result<(), NoMemory>,
) -> Result<(), Shortage>
    ensures thread { IfErr started (λ shortage. result ≡ Err shortage) }
    ensures both { OnOk result ((is_ok started ≡ true) × (is_ok joined_lists ≡ true)) }
{
    started?;
    joined_lists?;
    Ok(())
}

// Runs each part in a thread of its own, and joins all threads. There are so many tasks in all, and no more parts than
// workers, of sizes that differ by at most one.
fn run_parts<N: Naming + Send + Sync, R: Threads + Wait, G: Gate>(
    rt: &R,
    alloc: Global,
    context: &Context<N>,
    gate: &G,
    workers: u32,
    parts: Vec<Vec<Task<N>>>,
    count: usize,
) -> Result<Vec<TaskOutcome<N>>, Shortage>
    requires few { vec_len parts ≤ workers }
    requires even { AreEven (map vec_len parts.items) }
    ensures { IfOk result (λ outcomes. places_run outcomes.items ≡ places_of (joined_lists parts.items)) }
{
    let _workers = workers;
    thread::scope(
        thread::scope_env(),
        rt,
        move |scope| -> Result<Vec<TaskOutcome<N>>, Shortage>
            ensures { IfOk result (λ outcomes. places_run outcomes.items ≡ places_of (joined_lists parts.items)) }
        {
            let mut outcomes = Vec::with_capacity(alloc, count)?;
            let mut handles = Vec::with_capacity(alloc, parts.len())?;
            let started = start_all(scope, alloc, context, gate, parts, &mut handles);
            let joined_lists = join_all(rt, handles, &mut outcomes);
            first_lack(started, joined_lists)?;
            Ok(outcomes)
        },
    )
}

/// Runs the tasks of a level, divided in their order among so many workers, or as many as there are tasks if these are
/// fewer. Each of several workers has a thread of its own; a single worker is the calling thread. Each passes the gate
/// before each run. The outcomes are in the order of the tasks.
///
/// # Errors
/// `Thread` if a thread could not be started. Otherwise `Memory` if memory ran out. If no day is named, also if a task
/// is of another context. All threads have ended then.
pub(crate) fn run_level<N: Naming + Send + Sync, R: Threads + Wait, G: Gate>(
    rt: &R,
    alloc: Global,
    context: &Context<N>,
    gate: &G,
    workers: u32,
    tasks: Vec<Task<N>>,
) -> Result<Vec<TaskOutcome<N>>, Shortage>
    requires { 1 ≤ workers }
    ensures outcomes { IfOk result (λ outcomes. places_run outcomes.items ≡ places_of tasks.items) }
    ensures lack { IfErr result (IsShortage workers) }
{
    let count = tasks.len();
    let parts = count.min(workers as usize);
    if parts <= 1 {
        return Ok(run_part(alloc, context, gate, 0, tasks)?);
    }
    run_parts(
        rt,
        alloc,
        context,
        gate,
        workers,
        divide(alloc, tasks, parts)?,
        count,
    )
}
