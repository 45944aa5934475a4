//! Settlement by workers that steal: what only running threads show.

use crate::fixtures::worked;
use crate::levels::{Meeting, TURNS, UNKNOWN, full_batch};
use crate::orders::{APART, settled, told};
use crossbeam_utils::Backoff;
use reg_tasks::{Naming, Task};
use reg_text::DayInput;
use reg_work::{FreeGate, Gate, Shift, settle_with};
use std::alloc::Global;
use std::process::Abort;
use std::sync::Wait;
use std::sync::atomic::{AtomicU32, Ordering};
use std::thread::Threads;

// A transfer, and two instructions that wait for it and share no account: both become complete in one worker's deque.
const AFTER_ONE: &str = "\
do,2025-03-31,101,102,transfer,1,2,general,10
do,2025-03-31,101,102,surrender,1,general,10
do,2025-03-31,201,202,untrust,2,1
";

// An instruction that shares no account with the others, which wait for each other.
const ASIDE: &str = "\
do,2025-03-31,301,302,surrender,3,aviation,10
do,2025-03-31,101,102,surrender,1,general,10
do,2025-03-31,101,102,surrender,1,general,10
do,2025-03-31,101,102,surrender,1,general,10
";

// Looks whether a task has entered until it has, and counts if it looks in vain.
fn wait_for(entered: &AtomicU32, missed: &AtomicU32) {
    let backoff = Backoff::new();
    for _ in 0..TURNS {
        if entered.load(Ordering::SeqCst) != 0 {
            return;
        }
        backoff.snooze();
    }
    missed.fetch_add(1, Ordering::SeqCst);
}

// A gate that holds the task of place 1 until that of place 4 has entered, and counts if it waited in vain.
#[derive(Drop)]
struct Hold {
    last: AtomicU32,
    missed: AtomicU32,
}

impl Gate for Hold {
    fn enter<N: Naming>(&self, _worker: u32, task: &Task<N>) {
        match task.place() {
            1 => wait_for(&self.last, &self.missed),
            4 => self.last.store(1, Ordering::SeqCst),
            _ => {}
        }
    }
}

// A gate that holds the tasks of places 2 and 3 until both have entered, and counts those that waited in vain.
#[derive(Drop)]
struct Pair {
    second: AtomicU32,
    third: AtomicU32,
    missed: AtomicU32,
}

impl Gate for Pair {
    fn enter<N: Naming>(&self, _worker: u32, task: &Task<N>) {
        match task.place() {
            2 => {
                self.second.store(1, Ordering::SeqCst);
                wait_for(&self.third, &self.missed);
            }
            3 => {
                self.third.store(1, Ordering::SeqCst);
                wait_for(&self.second, &self.missed);
            }
            _ => {}
        }
    }
}

// How many places each worker ran.
fn lengths<N: Naming>(rt: &impl Abort, alloc: Global, shifts: &[Shift<N>]) -> String {
    let mut told = String::new(alloc);
    for shift in shifts {
        let one = format!(in alloc; "{}:{} ", shift.worker, shift.ran.len()).expect(rt, "memory");
        told.push_str(one.as_str()).expect(rt, "memory");
    }
    told
}

// How many places each of so many workers ran of a day, whose instructions leave what they leave one after another.
pub(crate) fn shifts<R: Abort + Threads + Wait + Sync, G: Gate>(
    rt: &R,
    alloc: Global,
    day: &DayInput,
    workers: u32,
    gate: &G,
) -> String {
    let done = settle_with(rt, alloc, &day.book, &day.rules, &day.batch, workers, gate);
    let (left, shifts) = done.expect(rt, "memory and threads");
    assert!(rt; told(rt, alloc, &left) == settled(rt, alloc, day));
    lengths(rt, alloc, shifts.as_slice())
}

// Of so many workers who each wait until so many have entered: how many places each ran. None waits in vain.
fn met<R: Abort + Threads + Wait + Sync>(
    rt: &R,
    alloc: Global,
    instructions: &str,
    workers: u32,
) -> String {
    let day = worked(rt, alloc, instructions);
    let gate = Meeting::of(workers);
    let told = shifts(rt, alloc, &day, workers, &gate);
    assert!(rt; gate.missed.load(Ordering::SeqCst) == 0);
    told
}

#[test]
fn two_workers_run_at_once(rt: HostRuntime) {
    let told = met(&rt, rt.alloc(), APART, 2);
    assert_eq!(rt; told.as_str(), "0:1 1:1 ");
}

#[test]
fn eight_workers_run_at_once(rt: HostRuntime) {
    let each = "0:1 1:1 2:1 3:1 4:1 5:1 6:1 7:1 ";
    let told = met(&rt, rt.alloc(), UNKNOWN, 8);
    assert_eq!(rt; told.as_str(), each);
}

// One of them opens all places, most often the first.
#[test]
fn all_of_several_workers_run_at_once(rt: HostRuntime) {
    for workers in 3..8 {
        let told = met(&rt, rt.alloc(), UNKNOWN, workers);
        assert!(rt; !told.as_str().contains(":0"), "{told}");
    }
}

#[test]
fn a_worker_steals_what_is_complete_in_another_ones_deque(rt: HostRuntime) {
    let gate = Pair {
        second: AtomicU32::new(0),
        third: AtomicU32::new(0),
        missed: AtomicU32::new(0),
    };
    let day = worked(&rt, rt.alloc(), AFTER_ONE);
    shifts(&rt, rt.alloc(), &day, 2, &gate);
    assert_eq!(rt; gate.missed.load(Ordering::SeqCst), 0);
}

#[test]
fn a_held_worker_holds_no_other_one(rt: HostRuntime) {
    let gate = Hold {
        last: AtomicU32::new(0),
        missed: AtomicU32::new(0),
    };
    let day = worked(&rt, rt.alloc(), ASIDE);
    shifts(&rt, rt.alloc(), &day, 2, &gate);
    assert_eq!(rt; gate.missed.load(Ordering::SeqCst), 0);
}

#[test]
fn eight_workers_settle_a_full_batch(rt: HostRuntime) {
    let instructions = full_batch(&rt, rt.alloc());
    let day = worked(&rt, rt.alloc(), instructions.as_str());
    shifts(&rt, rt.alloc(), &day, 8, &FreeGate);
}
