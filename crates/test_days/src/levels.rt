//! Settlement by levels: what only running threads show.

use crate::fixtures::worked;
use crate::orders::{APART, TWICE, settled, told};
use crossbeam_utils::Backoff;
use reg_graph::{Naming, Task};
use reg_plan::{OrderFault, Plan};
use reg_text::DayInput;
use reg_work::{FreeGate, Gate, settle_waves};
use std::alloc::Global;
use std::process::Abort;
use std::sync::Wait;
use std::sync::atomic::{AtomicU32, Ordering};
use std::thread::Threads;

// How often a gate looks before it gives up.
pub(crate) const TURNS: u32 = 1_000_000;

// Eight transfers to unknown accounts, which touch no account.
pub(crate) const UNKNOWN: &str = "\
do,2025-03-31,101,102,transfer,1,71,general,1
do,2025-03-31,101,102,transfer,1,72,general,1
do,2025-03-31,101,102,transfer,1,73,general,1
do,2025-03-31,101,102,transfer,1,74,general,1
do,2025-03-31,101,102,transfer,1,75,general,1
do,2025-03-31,101,102,transfer,1,76,general,1
do,2025-03-31,101,102,transfer,1,77,general,1
do,2025-03-31,101,102,transfer,1,78,general,1
";

// Three transfers to unknown accounts.
const THREE: &str = "\
do,2025-03-31,101,102,transfer,1,71,general,1
do,2025-03-31,101,102,transfer,1,72,general,1
do,2025-03-31,101,102,transfer,1,73,general,1
";

// A gate that holds each task until so many have entered. It counts the tasks that entered and those that waited in
// vain, and adds up the numbers of the workers.
#[derive(Drop)]
pub(crate) struct Meeting {
    wanted: u32,
    entered: AtomicU32,
    pub(crate) missed: AtomicU32,
    workers: AtomicU32,
}

impl Meeting {
    pub(crate) fn of(wanted: u32) -> Meeting {
        Meeting {
            wanted,
            entered: AtomicU32::new(0),
            missed: AtomicU32::new(0),
            workers: AtomicU32::new(0),
        }
    }
}

impl Gate for Meeting {
    fn enter<N: Naming>(&self, worker: u32, _task: &Task<N>) {
        self.workers.fetch_add(worker, Ordering::SeqCst);
        self.entered.fetch_add(1, Ordering::SeqCst);
        let backoff = Backoff::new();
        for _ in 0..TURNS {
            if self.entered.load(Ordering::SeqCst) >= self.wanted {
                return;
            }
            backoff.snooze();
        }
        self.missed.fetch_add(1, Ordering::SeqCst);
    }
}

// A gate that notes the places of two tasks in the order in which they enter.
#[derive(Drop)]
struct Notes {
    entered: AtomicU32,
    first: AtomicU32,
    second: AtomicU32,
}

impl Gate for Notes {
    fn enter<N: Naming>(&self, _worker: u32, task: &Task<N>) {
        if self.entered.fetch_add(1, Ordering::SeqCst) == 0 {
            self.first.store(task.place(), Ordering::SeqCst);
        } else {
            self.second.store(task.place(), Ordering::SeqCst);
        }
    }
}

// What so many workers leave of a day.
fn by_workers<R: Abort + Threads + Wait, G: Gate>(
    rt: &R,
    alloc: Global,
    day: &DayInput,
    workers: u32,
    gate: &G,
) -> String {
    let settled = settle_waves(rt, alloc, &day.book, &day.rules, &day.batch, workers, gate);
    told(rt, alloc, &settled.expect(rt, "memory and threads"))
}

// Whether so many workers leave what the instructions of a day one after another leave.
pub(crate) fn is_same<R: Abort + Threads + Wait>(
    rt: &R,
    alloc: Global,
    day: &DayInput,
    workers: u32,
) -> bool {
    by_workers(rt, alloc, day, workers, &FreeGate) == settled(rt, alloc, day)
}

// Of so many workers who wait until so many tasks have entered: how many tasks entered, how many of them waited in
// vain, and the sum of the workers' numbers, one for each task.
fn met<R: Abort + Threads + Wait>(
    rt: &R,
    alloc: Global,
    instructions: &str,
    workers: u32,
    wanted: u32,
) -> [u32; 3] {
    let day = worked(rt, alloc, instructions);
    let gate = Meeting::of(wanted);
    let left = by_workers(rt, alloc, &day, workers, &gate);
    assert!(rt; left == settled(rt, alloc, &day));
    [
        gate.entered.load(Ordering::SeqCst),
        gate.missed.load(Ordering::SeqCst),
        gate.workers.load(Ordering::SeqCst),
    ]
}

// The places of two transfers in the order in which two workers enter with them.
fn noted<R: Abort + Threads + Wait>(rt: &R, alloc: Global) -> [u32; 2] {
    let gate = Notes {
        entered: AtomicU32::new(0),
        first: AtomicU32::new(0),
        second: AtomicU32::new(0),
    };
    by_workers(rt, alloc, &worked(rt, alloc, TWICE), 2, &gate);
    [
        gate.first.load(Ordering::SeqCst),
        gate.second.load(Ordering::SeqCst),
    ]
}

// What is wrong with an order of the two transfers.
fn fault_of(rt: &impl Abort, alloc: Global, order: &[u32]) -> Option<OrderFault> {
    let DayInput { book, batch, .. } = worked(rt, alloc, TWICE);
    let plan = Plan::of(alloc, &batch, book.directory()).expect(rt, "memory");
    plan.check_order(alloc, order).err()
}

// As many transfers as a batch can have, of which the first 100 find enough.
pub(crate) fn full_batch(rt: &impl Abort, alloc: Global) -> String {
    "do,2025-03-31,101,102,transfer,1,2,general,1\n"
        .repeat(alloc, 16_384)
        .expect(rt, "memory")
}

#[test]
fn two_tasks_are_run_by_two_workers_at_once(rt: HostRuntime) {
    for workers in [2, 8] {
        assert_eq!(rt;
            met(&rt, rt.alloc(), APART, workers, 2),
            [2, 0, 1],
            "{workers} workers"
        );
    }
}

#[test]
fn three_tasks_are_run_by_three_workers_at_once(rt: HostRuntime) {
    assert_eq!(rt; met(&rt, rt.alloc(), THREE, 3, 3), [3, 0, 3]);
}

// Three workers get 3, 3 and 2 tasks: 0 + 0 + 0, 1 + 1 + 1 and 2 + 2 are 7.
#[test]
fn eight_tasks_are_shared_by_all_workers_at_once(rt: HostRuntime) {
    let sums = [0, 4, 7, 12, 13, 16, 21, 28];
    for (workers, sum) in (1..9).zip(sums) {
        let found = met(&rt, rt.alloc(), UNKNOWN, workers, workers);
        assert_eq!(rt; found, [8, 0, sum], "{workers} workers");
    }
}

#[test]
fn eight_workers_settle_a_full_batch(rt: HostRuntime) {
    let instructions = full_batch(&rt, rt.alloc());
    let day = worked(&rt, rt.alloc(), instructions.as_str());
    assert!(rt; is_same(&rt, rt.alloc(), &day, 8));
}

#[test]
fn an_instruction_enters_after_those_that_it_waits_for(rt: HostRuntime) {
    let order = noted(&rt, rt.alloc());
    assert_eq!(rt; fault_of(&rt, rt.alloc(), &order), None);
}
