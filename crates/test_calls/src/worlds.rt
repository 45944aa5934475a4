//! A world of workers: its start, and the event that takes memory.

ghost use Rattle.std.specs.Prelude.{◌≡◌, ◌≤◌, length};
ghost use Rattle.reg_schedules.specs.declared.event.TheConstants.{MOST_WORKERS};

use crate::call::{Call, rehearse, try_call, try_rehearsed};
use crate::digest::Digest;
use crate::endings::Ended;
use crate::settling::context_of;
use crate::stop::Stop;
use reg_base::NoMemory;
use reg_graph::{Context, Event, EventFault, MOST_WORKERS, Unnamed, Whereabouts, World};
use reg_text::DayInput;
use std::alloc::Global;
use std::io::Write;

type WorldOf<'c> = World<'c, 'c, Unnamed>;

// A world at its start, of so many workers, if this is a number of workers.
fn start<'c>(
    alloc: Global,
    context: &'c Context<'c, Unnamed>,
    workers: u32,
) -> Option<Result<WorldOf<'c>, NoMemory>> {
    if workers < 1 || workers > MOST_WORKERS {
        return None;
    }
    Some(World::new(alloc, context, workers))
}

// Where a place is.
fn found(world: &WorldOf<'_>, place: u32) -> Option<Whereabouts> {
    if place == 0 || place > world.context().batch().len() {
        return None;
    }
    Some(world.whereabouts(place))
}

// The digest of where each place is.
fn places_of(world: &WorldOf<'_>) -> Digest {
    let mut places = Digest::new();
    for before in 0..world.context().batch().len() {
        places.add(&found(world, before + 1));
    }
    places
}

// `World::new`.
#[derive(Drop)]
struct Starting<'c> {
    context: &'c Context<'c, Unnamed>,
    workers: u32,
}

impl Call for Starting<'_> {
    fn make(&mut self, alloc: Global) -> Ended {
        match start(alloc, self.context, self.workers) {
            Some(Ok(world)) => Ended::Done(places_of(&world)),
            Some(Err(NoMemory)) => Ended::NoMemory,
            None => Ended::Otherwise,
        }
    }
}

/// Tries `World::new`.
pub(crate) fn try_start<W: Write>(
    alloc: Global,
    day: &DayInput,
    workers: u32,
    writer: &mut W,
) -> Result<(), Stop> {
    let context = context_of(alloc, day)?;
    let mut call = Starting {
        context: &context,
        workers,
    };
    try_rehearsed(alloc, day, &mut call, writer)
}

// `World::event` with `Run` of worker 0, which holds a task.
#[derive(Drop)]
struct Running<'c> {
    world: WorldOf<'c>,
}

impl Call for Running<'_> {
    fn make(&mut self, _alloc: Global) -> Ended {
        match self.world.event(Event::Run { worker: 0 }) {
            Ok(()) => Ended::Done(places_of(&self.world)),
            Err(EventFault::NoMemory) => Ended::NoMemory,
            Err(_) => Ended::Otherwise,
        }
    }

    fn lent(&self) -> Digest {
        places_of(&self.world)
    }
}

// A world in which worker 0 holds a task.
fn make_running<'c>(
    alloc: Global,
    context: &'c Context<'c, Unnamed>,
    workers: u32,
) -> Result<Running<'c>, Stop> {
    let Some(Ok(mut world)) = start(alloc, context, workers) else {
        return Err(Stop::Input);
    };
    if world.event(Event::Pop { worker: 0 }).is_err() {
        return Err(Stop::Input);
    }
    Ok(Running { world })
}

/// Tries `World::event` with `Run`.
pub(crate) fn try_event<W: Write>(
    alloc: Global,
    day: &DayInput,
    workers: u32,
    writer: &mut W,
) -> Result<(), Stop> {
    let context = context_of(alloc, day)?;
    let wanted = rehearse(alloc, &mut make_running(alloc, &context, workers)?);
    let mut call = make_running(alloc, &context, workers)?;
    try_call(alloc, day, &mut call, wanted, writer)
}
