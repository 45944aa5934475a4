//! Runs a day's instructions by a schedule of workers that a number chooses.

ghost use Rattle.std.specs.Prelude.{◌≤◌};
ghost use Rattle.reg_schedules.specs.declared.event.TheConstants.{MOST_WORKERS};

use reg_book::Settled;
use reg_graph::{Context, Event, Unnamed, World};
use reg_text::DayInput;
use std::alloc::Global;

/// What came of a schedule.
#[derive(Drop)]
pub(crate) enum Ended {
    /// All instructions are done.
    Settled(Settled),
    /// Not all are, though no schedule has so many events.
    NotOver,
    /// The day or its world could not be made.
    NotBegun,
}

// The event of a number below `workers * (workers + 4)`: four kinds of each worker, and stealing from each worker.
fn event_of(number: u32, workers: u32) -> Event
    requires { 1 ≤ workers }
{
    let worker = number % workers;
    match number / workers {
        0 => Event::Pop { worker },
        1 => Event::Run { worker },
        2 => Event::Deliver { worker },
        3 => Event::Push { worker },
        kind => Event::Steal {
            worker,
            from: kind.wrapping_sub(4),
        },
    }
}

// Carries out the first possible event from a number on. Answers whether there is one.
fn step(world: &mut World<Unnamed>, first: u32, workers: u32) -> bool
    requires some { 1 ≤ workers }
    requires few { workers ≤ MOST_WORKERS }
{
    let kinds = workers * (workers + 4);
    for tried in 0..kinds {
        let number = first.wrapping_add(tried) % kinds;
        if world.event(event_of(number, workers)).is_ok() {
            return true;
        }
    }
    false
}

// A number that follows from another, much as if it were drawn.
fn next(number: u32) -> u32 {
    number.wrapping_mul(1_664_525).wrapping_add(1_013_904_223)
}

/// Runs the day by a schedule of so many workers. At each step a number that follows from the seed chooses the event.
pub(crate) fn run_schedule(alloc: Global, day: &DayInput, workers: u32, seed: u32) -> Ended
    requires some { 1 ≤ workers }
    requires few { workers ≤ MOST_WORKERS }
{
    let Ok(context) = Context::<Unnamed>::of(alloc, &day.book, &day.rules, &day.batch) else {
        return Ended::NotBegun;
    };
    let Ok(mut world) = World::new(alloc, &context, workers) else {
        return Ended::NotBegun;
    };
    // No schedule has more events than three for each instruction and one for each arrow.
    let arrows = context.plan().arrows().len();
    let most = arrows.saturating_add(3 * day.batch.len() as usize);
    let mut drawn = seed;
    for _ in 0..most {
        drawn = next(drawn);
        if !step(&mut world, drawn >> 8, workers) {
            break;
        }
    }
    match world.into_settled() {
        Ok(settled) => Ended::Settled(settled),
        Err(_) => Ended::NotOver,
    }
}
