//! The steps of workers in a world, of which the laws of schedules speak.

use thiserror::Error;

/// The most workers of a world, and of a settlement by `reg_work`: the limit of docs/RULES.md. The fewest are 1.
pub const MOST_WORKERS: u32 = 8;

/// A step of a worker. Workers are counted from 0.
///
/// Each step says which faults it can have, in the order in which they are tested.
#[derive(Clone, Copy, Debug, PartialEq, Eq)]
pub enum Event {
    /// The worker takes the first task of its own list in hand.
    ///
    /// Faults: `NoSuchWorker`, `HandsFull`, `EmptyDeque`.
    Pop {
        /// The worker.
        worker: u32,
    },
    /// The worker takes the first task of another worker's list in hand.
    ///
    /// Faults: `NoSuchWorker` for either worker, `OwnDeque`, `HandsFull`, `EmptyDeque`.
    Steal {
        /// The worker.
        worker: u32,
        /// The worker from whose list the task is taken.
        from: u32,
    },
    /// The worker runs the task in its hand. What no later instruction needs is closing; the other parcels stay in
    /// hand.
    ///
    /// Faults: `NoSuchWorker`, `NothingToRun`; in a world of `reg_graph`, which takes memory, last also `NoMemory`.
    Run {
        /// The worker.
        worker: u32,
    },
    /// The worker puts the first parcel in its hand into the dock of the instruction that needs it next. If that was
    /// the last parcel that the dock awaited, the task comes to the hand.
    ///
    /// Faults: `NoSuchWorker`, `NothingToDeliver`.
    Deliver {
        /// The worker.
        worker: u32,
    },
    /// The worker puts the task that became complete at the end of its list.
    ///
    /// Faults: `NoSuchWorker`, `NothingToPush`.
    Push {
        /// The worker.
        worker: u32,
    },
}

/// Why an event was not carried out: the first of these that applies.
#[derive(Clone, Copy, Debug, PartialEq, Eq, Error)]
pub enum EventFault {
    /// There is no such worker.
    #[error("there is no such worker")]
    NoSuchWorker,
    /// A worker does not steal from itself.
    #[error("a worker does not steal from itself")]
    OwnDeque,
    /// The worker has something in hand.
    #[error("the worker has something in hand")]
    HandsFull,
    /// The list has no task.
    #[error("the list has no task")]
    EmptyDeque,
    /// The worker has no task to run in hand.
    #[error("the worker has no task to run")]
    NothingToRun,
    /// The worker has no parcel to deliver in hand, or a task that became complete waits there to be pushed first.
    #[error("the worker has no parcel to deliver")]
    NothingToDeliver,
    /// No task that became complete is in hand.
    #[error("the worker has no task to push")]
    NothingToPush,
    /// The event is possible, but memory ran out while a task was run. The task is still in the hand.
    #[error("out of memory")]
    NoMemory,
}

/// Where an instruction is.
#[derive(Clone, Copy, Debug, PartialEq, Eq)]
pub enum Whereabouts {
    /// In its dock: not all parcels that it awaits have come.
    Dock,
    /// Its task is in a worker's list.
    List {
        /// The worker.
        worker: u32,
    },
    /// Its task is in a worker's hand, to be run or to be pushed.
    Hand {
        /// The worker.
        worker: u32,
    },
    /// It is done.
    Done,
}
