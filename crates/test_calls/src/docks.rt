//! Docks.

ghost use Rattle.std.specs.Prelude.{◌≡◌, ◌≤◌, length};

use crate::call::{Call, try_rehearsed};
use crate::digest::{Digest, digest_of};
use crate::endings::Ended;
use crate::settling::context_of;
use crate::stop::Stop;
use reg_base::NoMemory;
use reg_tasks::{Context, Unnamed};
use reg_text::DayInput;
use reg_yard::{Dock, Docks};
use std::alloc::Global;
use std::io::Write;

// `Dock::new` of the first place.
#[derive(Drop)]
struct OpeningOne<'c> {
    context: &'c Context<'c, Unnamed>,
}

impl Call for OpeningOne<'_> {
    // It leaves a dock of this place, and a task at once or none.
    fn make(&mut self, alloc: Global) -> Ended {
        if self.context.batch().len() == 0 {
            return Ended::Otherwise;
        }
        match Dock::new(alloc, self.context, 1) {
            Ok((dock, task)) => Ended::Done(digest_of(&(dock.place(), task.is_some()))),
            Err(NoMemory) => Ended::NoMemory,
        }
    }
}

/// Tries `Dock::new` of the first place.
pub(crate) fn try_dock<W: Write>(
    alloc: Global,
    day: &DayInput,
    writer: &mut W,
) -> Result<(), Stop> {
    let context = context_of(alloc, day)?;
    let mut call = OpeningOne { context: &context };
    try_rehearsed(alloc, day, &mut call, writer)
}

// `Docks::new`.
#[derive(Drop)]
struct OpeningAll<'c, 'a> {
    context: &'c Context<'a, Unnamed>,
}

impl Call for OpeningAll<'_, '_> {
    // It leaves tasks of these places at once.
    fn make(&mut self, alloc: Global) -> Ended {
        match Docks::new(alloc, self.context) {
            Ok((_docks, tasks)) => {
                let mut places = Digest::new();
                for task in &tasks {
                    places.add(&task.place());
                }
                Ended::Done(places)
            }
            Err(NoMemory) => Ended::NoMemory,
        }
    }
}

fn for_all<'c, 'a>(context: &'c Context<'a, Unnamed>) -> OpeningAll<'c, 'a> {
    OpeningAll { context }
}

/// Tries `Docks::new`.
pub(crate) fn try_docks<W: Write>(
    alloc: Global,
    day: &DayInput,
    writer: &mut W,
) -> Result<(), Stop> {
    let context = context_of(alloc, day)?;
    try_rehearsed(alloc, day, &mut for_all(&context), writer)
}
