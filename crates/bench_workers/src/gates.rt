//! A gate that delays workers and notes who entered when, and whether each left as it had entered.

use crate::stop::Stop;
use crate::ways::Lane;
use crossbeam_utils::Backoff;
use reg_graph::MOST_WORKERS;
use reg_regions::PlaceGate;
use reg_tasks::{Naming, Task};
use reg_work::Gate;
use std::alloc::{AllocError, Global};
use std::sync::atomic::{AtomicU32, Ordering};
use std::time::{Clock, Instant};

// How long a worker is held up before each run, in turns of a pause.
const TURNS: u32 = 30;

// A drawn delay is below this number of turns.
const MOST_DRAWN: u32 = 16;

/// The number of no worker.
pub(crate) const NOBODY: u32 = 9;

// The place of a worker that is between two instructions.
const OUTSIDE: u32 = 0;

/// Whom a gate delays before each run.
#[derive(Clone, Copy)]
pub(crate) struct Delays {
    /// The worker that is held up each time, counted from 0. The others steal what lies in its deque.
    pub(crate) held_up: u32,
    /// From which the delays of all workers are drawn, place by place; 0 for none.
    pub(crate) seed: u32,
}

impl Delays {
    // How many turns a worker waits before it runs a place.
    fn turns(self, worker: u32, place: u32) -> u32 {
        if worker == self.held_up {
            return TURNS;
        }
        if self.seed == 0 {
            return 0;
        }
        let drawn = (self.seed ^ place).wrapping_mul(2_654_435_761) >> 16;
        drawn % MOST_DRAWN
    }

    // Waits as long.
    fn pause(self, worker: u32, place: u32) {
        let backoff = Backoff::new();
        for _ in 0..self.turns(worker, place) {
            backoff.snooze();
        }
    }
}

/// Notes which worker entered with which place, in the order in which they entered, and delays them.
#[derive(Drop)]
pub(crate) struct Noting {
    delays: Delays,
    next: AtomicU32,
    places: Vec<AtomicU32>,
    workers: Vec<AtomicU32>,
    // With which place each worker entered and has not left.
    inside: Vec<AtomicU32>,
    // How often a worker entered or left and was not where it had to come from.
    astray: AtomicU32,
}

/// Notes when workers entered and left with each place, in microseconds, and delays them.
#[derive(Drop)]
pub(crate) struct Timing<'a, R> {
    clock: &'a R,
    start: Instant,
    delays: Delays,
    entered: Vec<AtomicU32>,
    left: Vec<AtomicU32>,
}

impl<'a, R: Clock> Timing<'a, R> {
    /// A gate for a day of so many instructions, whose time begins now.
    pub(crate) fn of(
        clock: &'a R,
        alloc: Global,
        count: u32,
        delays: Delays,
    ) -> Result<Timing<'a, R>, Stop> {
        let Ok(start) = Instant::now(clock) else {
            return Err(Stop::Short);
        };
        Ok(Timing {
            clock,
            start,
            delays,
            entered: zeros(alloc, count)?,
            left: zeros(alloc, count)?,
        })
    }

    fn note(&self, times: &[AtomicU32], place: u32) {
        let Ok(passed) = self.start.elapsed(self.clock) else {
            return;
        };
        let micros = u32::try_from(passed.as_micros()).unwrap_or(u32::MAX);
        if let Some(time) = times.get((place as usize).saturating_sub(1)) {
            time.store(micros, Ordering::SeqCst);
        }
    }

    /// How many microseconds went by from when a worker entered with one place until it left with another one.
    pub(crate) fn between(&self, first: u32, last: u32) -> u32 {
        let entered = time_at(&self.entered, first);
        time_at(&self.left, last).saturating_sub(entered)
    }
}

// What was noted of a place, or 0.
fn time_at(times: &[AtomicU32], place: u32) -> u32 {
    match times.get((place as usize).saturating_sub(1)) {
        Some(time) => time.load(Ordering::SeqCst),
        None => 0,
    }
}

impl<'a, R: Clock + Sync> PlaceGate for Timing<'a, R> {
    fn enter(&self, worker: u32, place: u32) {
        self.note(&self.entered, place);
        self.delays.pause(worker, place);
    }

    fn leave(&self, _worker: u32, place: u32) {
        self.note(&self.left, place);
    }
}

// So many counters at 0.
fn zeros(alloc: Global, count: u32) -> Result<Vec<AtomicU32>, AllocError> {
    let mut zeros = Vec::new(alloc);
    for _ in 0..count {
        if zeros.push(AtomicU32::new(0)).is_err() {
            return Err(AllocError);
        }
    }
    Ok(zeros)
}

impl Noting {
    /// A gate for a day of so many instructions.
    pub(crate) fn of(alloc: Global, count: u32, delays: Delays) -> Result<Noting, AllocError> {
        Ok(Noting {
            delays,
            next: AtomicU32::new(0),
            places: zeros(alloc, count)?,
            workers: zeros(alloc, count)?,
            inside: zeros(alloc, MOST_WORKERS)?,
            astray: AtomicU32::new(0),
        })
    }

    fn note(&self, worker: u32, place: u32) {
        let at = self.next.fetch_add(1, Ordering::SeqCst) as usize;
        if let Some(note) = self.places.get(at) {
            note.store(place, Ordering::SeqCst);
        }
        if let Some(note) = self.workers.get(at) {
            note.store(worker, Ordering::SeqCst);
        }
    }

    // Notes a worker that enters with a place, and delays it.
    fn pass(&self, worker: u32, place: u32) {
        self.note(worker, place);
        self.delays.pause(worker, place);
    }

    /// The places in the order in which workers entered with them.
    pub(crate) fn order(&self, alloc: Global) -> Result<Vec<u32>, AllocError> {
        let mut order = Vec::new(alloc);
        for place in self.places.iter() {
            if order.push(place.load(Ordering::SeqCst)).is_err() {
                return Err(AllocError);
            }
        }
        Ok(order)
    }

    // Lets a worker go from one place to another, and counts it if it was not there.
    fn go(&self, worker: u32, from: u32, to: u32) {
        let was_at = match self.inside.get(worker as usize) {
            Some(place) => place.swap(to, Ordering::SeqCst),
            None => to,
        };
        if was_at != from {
            self.astray.fetch_add(1, Ordering::SeqCst);
        }
    }

    /// Whether each worker left with each place with which it had entered, before it entered with another one.
    pub(crate) fn is_left(&self) -> bool {
        let all_outside = self
            .inside
            .iter()
            .all(|place| place.load(Ordering::SeqCst) == OUTSIDE);
        all_outside && self.astray.load(Ordering::SeqCst) == 0
    }

    /// Whether a worker entered with just the places of its shift, in their order.
    pub(crate) fn is_followed(&self, shift: &Lane) -> bool {
        let mut entered = 0;
        for (place, worker) in self.places.iter().zip(self.workers.iter()) {
            if worker.load(Ordering::SeqCst) != shift.worker {
                continue;
            }
            if shift.places.get(entered).copied() != Some(place.load(Ordering::SeqCst)) {
                return false;
            }
            entered = entered.saturating_add(1);
        }
        entered == shift.places.len()
    }
}

impl Gate for Noting {
    fn enter<N: Naming>(&self, worker: u32, task: &Task<N>) {
        self.pass(worker, task.place());
    }
}

impl PlaceGate for Noting {
    fn enter(&self, worker: u32, place: u32) {
        self.go(worker, OUTSIDE, place);
        self.pass(worker, place);
    }

    fn leave(&self, worker: u32, place: u32) {
        self.go(worker, place, OUTSIDE);
    }
}
