//! The workers' world: lists of tasks, docks in which parcels wait for each other, and the events that move them. The
//! events and laws of `reg_schedules` are passed on, and of `reg_tasks` what callers of a world need.
//!
//! A use of it, proved in `example_uses/src/graph.rt`:
//!
//! ```rust
//! ghost use Rattle.std.specs.Prelude.{◌≡◌, IfSome};
//! ghost use Rattle.reg_book.specs.Day.{settled_day};
//! ghost use Rattle.reg_tasks.specs.Contexts.{the_day};
//!
//! use reg_book::Settled;
//! use reg_graph::{Context, Event, Naming, World};
//! use std::alloc::Global;
//!
//! /// Carries out these events of two workers. The day is settled if all instructions are done then, whatever the
//! /// events were. `None` if an event is not possible, if something is left to do, or if memory ran out.
//! pub fn run_schedule<N: Naming>(
//!     alloc: Global,
//!     context: &Context<N>,
//!     events: &[Event],
//! ) -> Option<Settled>
//!     ensures { IfSome result (λ s. s ≡ settled_day (the_day context.now)) }
//! {
//!     let mut world = World::new(alloc, context, 2).ok()?;
//!     for event in events {
//!         world.event(*event).ok()?;
//!     }
//!     world.into_settled().ok()
//! }
//! ```
#![tactic(auto)]

mod delivery;
mod docks;
mod ending;
mod hand;
mod held;
mod moves;
mod places;
mod start;
mod steps;
mod world;
mod world_parts;

pub use reg_schedules::{Event, EventFault, MOST_WORKERS, Whereabouts, laws};
pub use reg_tasks::{
    Context, Done, Lack, Naming, Parcel, Ran, RunFault, Slots, Task, TaskOutcome, Unnamed,
    run_order,
};
pub use world::{World, most_workers_are_eight};
