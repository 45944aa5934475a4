//! A yard, and its deques.

ghost use Rattle.std.specs.Prelude.{◌≡◌, ◌≤◌};

use crate::call::{Call, rehearse, try_call};
use crate::digest::{Digest, digest_of};
use crate::endings::Ended;
use crate::settling::context_of;
use crate::stop::Stop;
use crate::tasks::task_of;
use reg_base::NoMemory;
use reg_deques::Numbered;
use reg_tasks::{Task, Unnamed};
use reg_text::DayInput;
use reg_yard::{Owner, Pass, Yard};
use std::alloc::Global;
use std::io::Write;

type Made = (
    Yard<Task<Unnamed>>,
    Vec<Owner<Task<Unnamed>>>,
    Vec<Pass<Task<Unnamed>>>,
);

// A yard of so many workers, if this is a number of workers.
fn yard(alloc: Global, workers: u32) -> Option<Result<Made, NoMemory>> {
    if workers < 1 || workers > 8 {
        return None;
    }
    Some(Yard::new(alloc, workers))
}

// `Yard::new`, of which is looked at how many deques, owners and passes there are.
#[derive(Drop)]
struct Making {
    workers: u32,
}

impl Call for Making {
    fn make(&mut self, alloc: Global) -> Ended {
        match yard(alloc, self.workers) {
            Some(Ok((yard, owners, passes))) => {
                Ended::Done(digest_of(&(yard.workers(), owners.len(), passes.len())))
            }
            Some(Err(NoMemory)) => Ended::NoMemory,
            None => Ended::Otherwise,
        }
    }
}

/// Tries `Yard::new`.
pub(crate) fn try_yard<W: Write>(alloc: Global, workers: u32, writer: &mut W) -> Result<(), Stop> {
    let counts = (workers as usize, workers as usize, workers as usize);
    let wanted = Ended::Done(digest_of(&counts));
    try_call(alloc, &workers, &mut Making { workers }, wanted, writer)
}

// More tasks than this are not taken out of a deque: far more than were put.
const MOST_TASKS: u32 = 1_000;

// `Owner::put` of a task into a deque.
#[derive(Drop)]
struct Putting<T: Numbered> {
    owner: Owner<T>,
    task: Option<T>,
}

impl Call for Putting<Task<Unnamed>> {
    fn make(&mut self, _alloc: Global) -> Ended {
        let Some(task) = self.task.take() else {
            return Ended::Otherwise;
        };
        match self.owner.put(task) {
            Ok(()) => Ended::Done(Digest::new()),
            Err(task) => {
                self.task = Some(task);
                Ended::GivenBack
            }
        }
    }

    // A digest of the place of the task that is to be put.
    fn lent(&self) -> Digest {
        match &self.task {
            Some(task) => digest_of(&task.place()),
            None => Digest::new(),
        }
    }

    // The places of the tasks that are taken out, until none is left.
    fn look_after(&mut self, ended: Ended) -> Ended {
        let mut places = Digest::new();
        for _ in 0..MOST_TASKS {
            let Some(task) = self.owner.take_own() else {
                break;
            };
            places.add(&task.place());
        }
        match ended {
            Ended::Done(_) => Ended::Done(places),
            other => other,
        }
    }
}

impl Putting<Task<Unnamed>> {
    // Puts the task that was to be put, and has this one put next.
    fn go_on(&mut self, next: Task<Unnamed>) -> Result<(), Stop> {
        let Some(task) = self.task.replace(next) else {
            return Ok(());
        };
        match self.owner.put(task) {
            Ok(()) => Ok(()),
            Err(_) => Err(Stop::Short),
        }
    }
}

// One owner of a yard of two.
fn owner(alloc: Global) -> Result<Owner<Task<Unnamed>>, Stop> {
    let Ok((_yard, mut owners, _passes)) = Yard::new(alloc, 2) else {
        return Err(Stop::Short);
    };
    match owners.pop() {
        Some(owner) => Ok(owner),
        None => Err(Stop::Short),
    }
}

// An owner of a yard of two, with the first tasks of a day in its deque, so many, and the task after them. The
// first instructions of the day wait for no other.
fn make_putting(
    alloc: Global,
    day: &DayInput,
    before: u32,
) -> Result<Putting<Task<Unnamed>>, Stop> {
    let context = context_of(alloc, day)?;
    let mut putting = Putting {
        owner: owner(alloc)?,
        task: None,
    };
    for place in 0..before {
        putting.go_on(task_of(alloc, &context, place + 1)?)?;
    }
    let last = task_of(alloc, &context, before.saturating_add(1))?;
    putting.go_on(last)?;
    Ok(putting)
}

/// Tries `Owner::put` of the task after so many.
pub(crate) fn try_put<W: Write>(
    alloc: Global,
    day: &DayInput,
    before: u32,
    writer: &mut W,
) -> Result<(), Stop> {
    let wanted = rehearse(alloc, &mut make_putting(alloc, day, before)?);
    let mut call = make_putting(alloc, day, before)?;
    try_call(alloc, day, &mut call, wanted, writer)
}
