//! Settlement by regions: what only running threads show.

use crate::fixtures::worked;
use crate::levels::{TURNS, UNKNOWN, full_batch};
use crate::orders::{APART, TWICE};
use crossbeam_utils::Backoff;
use reg_base::{Batch, Rules};
use reg_book::{Parts, settle_plain};
use reg_regions::{FreePlaces, OwnedRegion, PlaceGate, RegionsFault, WorkShift, settle_regions};
use reg_text::{DayInput, write_book};
use std::alloc::Global;
use std::process::Abort;
use std::sync::atomic::{AtomicU32, Ordering};
use std::thread::Threads;

// The book in one list.
fn in_parts(rt: &impl Abort, alloc: Global, day: DayInput) -> (Parts, Rules, Batch) {
    let DayInput { book, rules, batch } = day;
    (
        Parts::of_book(alloc, book).expect(rt, "memory"),
        rules,
        batch,
    )
}

// The text of the book.
fn book_of(rt: &impl Abort, alloc: Global, parts: Parts) -> String {
    let book = parts.into_book(alloc).expect(rt, "memory");
    let bytes = write_book(alloc, &book).expect(rt, "memory");
    String::from_utf8(bytes).expect(rt, "a text")
}

// The text of the book that a day leaves, one instruction after another.
fn plainly(rt: &impl Abort, alloc: Global, instructions: &str) -> String {
    let DayInput {
        mut book,
        rules,
        batch,
    } = worked(rt, alloc, instructions);
    let settled = settle_plain(alloc, &book, &rules, &batch).expect(rt, "memory");
    let fault = book.commit(settled).err();
    assert!(rt; fault.is_none());
    let bytes = write_book(alloc, &book).expect(rt, "memory");
    String::from_utf8(bytes).expect(rt, "a text")
}

// Adds behind how many places of a worker each of its regions stands: behind `=` one of its own, behind `+` one that it
// stole.
fn add_regions(rt: &impl Abort, alloc: Global, told: &mut String, regions: &[OwnedRegion]) {
    for region in regions {
        let sign = if region.stolen { "+" } else { "=" };
        let one = format!(in alloc; "{sign}{} ", region.before);
        told.push_str(one.expect(rt, "memory").as_str())
            .expect(rt, "memory");
    }
}

// How many places each worker ran, and its regions.
fn lengths(rt: &impl Abort, alloc: Global, shifts: &[WorkShift]) -> String {
    let mut told = String::new(alloc);
    for shift in shifts {
        let one = format!(in alloc; "{}:{} ", shift.worker(), shift.places().len());
        told.push_str(one.expect(rt, "memory").as_str())
            .expect(rt, "memory");
        add_regions(rt, alloc, &mut told, shift.regions());
    }
    told
}

// The same of each of so many workers on a day, which leaves what its instructions leave one after another.
fn shifts<R: Abort + Threads + Sync, G: PlaceGate + Sync>(
    rt: &R,
    alloc: Global,
    instructions: &str,
    workers: u32,
    gate: &G,
) -> String {
    let (parts, rules, batch) = in_parts(rt, alloc, worked(rt, alloc, instructions));
    let done = settle_regions(rt, alloc, parts, &rules, &batch, workers, gate);
    let (closed, shifts) = done.expect(rt, "memory");
    assert!(rt; book_of(rt, alloc, closed.parts) == plainly(rt, alloc, instructions));
    lengths(rt, alloc, shifts.as_slice())
}

// A gate that holds each instruction until so many have entered, and counts those that waited in vain.
#[derive(Drop)]
struct Meeting {
    wanted: u32,
    entered: AtomicU32,
    missed: AtomicU32,
}

impl PlaceGate for Meeting {
    fn enter(&self, _worker: u32, _place: u32) {
        self.entered.fetch_add(1, Ordering::SeqCst);
        self.wait(self.wanted);
    }
}

impl Meeting {
    fn of(wanted: u32) -> Meeting {
        Meeting {
            wanted,
            entered: AtomicU32::new(0),
            missed: AtomicU32::new(0),
        }
    }

    // Waits until so many have entered, and counts if it waits in vain.
    fn wait(&self, wanted: u32) {
        let backoff = Backoff::new();
        for _ in 0..TURNS {
            if self.entered.load(Ordering::SeqCst) >= wanted {
                return;
            }
            backoff.snooze();
        }
        self.missed.fetch_add(1, Ordering::SeqCst);
    }
}

// A gate at which all workers meet, and which adds up who passes it with which place.
#[derive(Drop)]
struct Sums {
    meeting: Meeting,
    entered: AtomicU32,
    left: AtomicU32,
}

impl PlaceGate for Sums {
    fn enter(&self, worker: u32, place: u32) {
        self.entered
            .fetch_add(told_of(worker, place), Ordering::SeqCst);
        self.meeting.enter(worker, place);
    }

    fn leave(&self, worker: u32, place: u32) {
        self.left
            .fetch_add(told_of(worker, place), Ordering::SeqCst);
    }
}

fn told_of(worker: u32, place: u32) -> u32 {
    place.wrapping_mul(100).wrapping_add(worker)
}

// Six transfers to unknown accounts, which touch no account: a region each, as many as two workers want.
const SIX: &str = "\
do,2025-03-31,101,102,transfer,1,71,general,1
do,2025-03-31,101,102,transfer,1,72,general,1
do,2025-03-31,101,102,transfer,1,73,general,1
do,2025-03-31,101,102,transfer,1,74,general,1
do,2025-03-31,101,102,transfer,1,75,general,1
do,2025-03-31,101,102,transfer,1,76,general,1
";

// A gate that holds the first instruction until all others have entered.
#[derive(Drop)]
struct HeldFirst {
    meeting: Meeting,
}

impl PlaceGate for HeldFirst {
    fn enter(&self, _worker: u32, _place: u32) {
        if self.meeting.entered.fetch_add(1, Ordering::SeqCst) == 0 {
            self.meeting.wait(self.meeting.wanted);
        }
    }
}

// A gate that holds worker 7 until all instructions have entered.
#[derive(Drop)]
struct HeldLast {
    meeting: Meeting,
}

impl PlaceGate for HeldLast {
    fn enter(&self, worker: u32, _place: u32) {
        self.meeting.entered.fetch_add(1, Ordering::SeqCst);
        if worker == 7 {
            self.meeting.wait(self.meeting.wanted);
        }
    }
}

#[test]
fn instructions_of_two_bundles_run_at_once(rt: HostRuntime) {
    let gate = Meeting::of(2);
    let told = shifts(&rt, rt.alloc(), APART, 2, &gate);
    assert_eq!(rt; told.as_str(), "0:1 =0 1:1 =0 ");
    assert_eq!(rt; gate.missed.load(Ordering::SeqCst), 0);
}

#[test]
fn eight_workers_run_eight_bundles_at_once(rt: HostRuntime) {
    let gate = Meeting::of(8);
    let told = shifts(&rt, rt.alloc(), UNKNOWN, 8, &gate);
    assert_eq!(rt;
        told.as_str(),
        "0:1 =0 1:1 =0 2:1 =0 3:1 =0 4:1 =0 5:1 =0 6:1 =0 7:1 =0 "
    );
    assert_eq!(rt; gate.missed.load(Ordering::SeqCst), 0);
}

// Eight workers, 0 to 7, carry out one instruction each, at the places 1 to 8.
#[test]
fn each_worker_passes_the_gate_by_its_number(rt: HostRuntime) {
    let gate = Sums {
        meeting: Meeting::of(8),
        entered: AtomicU32::new(0),
        left: AtomicU32::new(0),
    };
    shifts(&rt, rt.alloc(), UNKNOWN, 8, &gate);
    assert_eq!(rt; gate.entered.load(Ordering::SeqCst), 3_628);
    assert_eq!(rt; gate.left.load(Ordering::SeqCst), 3_628);
}

// The one that is not held runs its own three, and then steals both that lie in the deque of the other.
#[test]
fn a_held_worker_holds_up_no_region_but_its_own(rt: HostRuntime) {
    let gate = HeldFirst {
        meeting: Meeting::of(6),
    };
    let told = shifts(&rt, rt.alloc(), SIX, 2, &gate);
    assert!(rt;
        told.as_str() == "0:1 =0 1:5 =0 =1 =2 +3 +4 "
            || told.as_str() == "0:5 =0 =1 =2 +3 +4 1:1 =0 ",
        "{told}"
    );
    assert_eq!(rt; gate.meeting.missed.load(Ordering::SeqCst), 0);
}

// Six instructions, of which one touches the last account of a book with fewer accounts than regions are wanted.
const LAST: &str = "\
do,2025-03-31,101,102,transfer,1,71,general,1
do,2025-03-31,101,102,transfer,1,72,general,1
do,2025-03-31,101,102,transfer,1,73,general,1
do,2025-03-31,101,102,transfer,1,74,general,1
do,2025-03-31,101,102,transfer,1,75,general,1
do,2025-03-31,101,102,surrender,9,general,1
";

// Each account is a region: two of the six instructions share one.
#[test]
fn five_regions_run_at_once_in_a_book_of_five_accounts(rt: HostRuntime) {
    let gate = Meeting::of(5);
    let told = shifts(&rt, rt.alloc(), LAST, 8, &gate);
    assert_eq!(rt; gate.missed.load(Ordering::SeqCst), 0, "{told}");
}

// 24 transfers to unknown accounts, which touch no account: a region each, three for each of eight workers.
fn apart(rt: &impl Abort, alloc: Global) -> String {
    let mut rows = String::new(alloc);
    for number in 71u32..95 {
        let row = format!(in alloc; "do,2025-03-31,101,102,transfer,1,{number},general,1\n");
        rows.push_str(row.expect(rt, "memory").as_str())
            .expect(rt, "memory");
    }
    rows
}

// The last worker has two more regions in its deque, which the others steal from it.
#[test]
fn the_last_worker_of_eight_holds_up_no_region_but_its_own(rt: HostRuntime) {
    let gate = HeldLast {
        meeting: Meeting::of(24),
    };
    let rows = apart(&rt, rt.alloc());
    let told = shifts(&rt, rt.alloc(), rows.as_str(), 8, &gate);
    assert_eq!(rt; gate.meeting.missed.load(Ordering::SeqCst), 0, "{told}");
}

// A day of one bundle is not dealt out: worker 0 carries it out. The other region has no instructions.
#[test]
fn worker_0_carries_out_a_day_of_one_bundle(rt: HostRuntime) {
    let told = shifts(&rt, rt.alloc(), TWICE, 4, &Meeting::of(1));
    assert_eq!(rt; told.as_str(), "0:2 =0 =2 1:0 2:0 3:0 ");
}

// At an open gate nobody waits, and worker 0 is done with a small day before another has begun.
#[test]
fn worker_0_carries_out_a_small_day_at_an_open_gate(rt: HostRuntime) {
    let told = shifts(&rt, rt.alloc(), UNKNOWN, 4, &FreePlaces);
    assert_eq!(rt; told.as_str(), "0:8 =0 =1 =2 =3 =4 =5 =6 =7 1:0 2:0 3:0 ");
}

#[test]
fn each_number_of_workers_settles_a_full_batch(rt: HostRuntime) {
    let instructions = full_batch(&rt, rt.alloc());
    for workers in 1..9 {
        shifts(&rt, rt.alloc(), instructions.as_str(), workers, &FreePlaces);
    }
}

// Why a book is not settled by nine workers, nor with a batch that begins one record late; and its next record number
// after the right batch.
fn settled_at_last<R: Abort + Threads + Sync>(
    rt: &R,
    alloc: Global,
) -> (RegionsFault, RegionsFault, u64) {
    let (parts, rules, batch) = in_parts(rt, alloc, worked(rt, alloc, TWICE));
    let late = Batch::new(batch.day(), batch.base() + 1, Vec::new(alloc)).expect(rt, "a batch");
    let refused = settle_regions(rt, alloc, parts, &rules, &late, 2, &FreePlaces).err();
    let first = refused.expect(rt, "a book that is not settled");
    let parts = first.parts.expect(rt, "the book");
    let refused = settle_regions(rt, alloc, parts, &rules, &batch, 9, &FreePlaces).err();
    let second = refused.expect(rt, "a book that is not settled");
    let parts = second.parts.expect(rt, "the book");
    let done = settle_regions(rt, alloc, parts, &rules, &batch, 2, &FreePlaces);
    let (closed, _) = done.expect(rt, "memory");
    (first.fault, second.fault, closed.parts.next_record())
}

#[test]
fn a_book_that_is_handed_back_can_be_settled(rt: HostRuntime) {
    let found = settled_at_last(&rt, rt.alloc());
    assert_eq!(rt;
        found,
        (
            RegionsFault::WrongBase { next: 1 },
            RegionsFault::Workers,
            3
        )
    );
}
