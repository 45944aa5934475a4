//! A day's instructions as tasks: each instruction is carried out on the values of its own accounts alone, in any order
//! that keeps to the plan's arrows.
//!
//! A use of it, proved in `example_uses/src/tasks.rt`:
//!
//! ```rust
//! ghost use Rattle.std.specs.Prelude.{◌≡◌, true, IfSome, OnSome};
//! ghost use Rattle.reg_plan.specs.Plans.{inward};
//! ghost use Rattle.reg_schedules.specs.Pool.{footprint_at};
//! ghost use Rattle.reg_schedules.specs.Docks.{names_needed};
//! ghost use Rattle.reg_tasks.specs.Contexts.{the_day};
//! ghost use Rattle.reg_tasks.specs.Names.{has_names, IsRowOfDay, AreLeft};
//! ghost use Rattle.reg_tasks.specs.Parcels.{names_of};
//! ghost use Rattle.reg_tasks.specs.Places.{IsPlaceOf};
//!
//! use reg_tasks::{Context, Naming, Parcel, Task, TaskOutcome};
//! use std::alloc::Global;
//!
//! /// Runs the instruction at a place, counted from 1, on these values of accounts, if they are those that it needs.
//! /// If a day is named, its row is the day's. `None` if they are others, or memory ran out.
//! pub fn run_on<N: Naming>(
//!     alloc: Global,
//!     context: &Context<N>,
//!     place: u32,
//!     parcels: Vec<Parcel<N>>,
//! ) -> Option<TaskOutcome<N>>
//!     requires place { IsPlaceOf context.now.batch.now place }
//!     ensures needed { IfSome result
//!         (λ _. has_names (names_of parcels.items)
//!         (names_needed (inward context.now.plan.arrows place) (footprint_at (the_day context.now) place)) ≡ true) }
//!     ensures row { IfSome result (λ o. IsRowOfDay N.day place o.row) }
//!     ensures left { IfSome result (λ o. AreLeft N.day place (names_of o.parcels.items)) }
//! {
//!     let task = Task::assemble(context, place, parcels).ok()?;
//!     task.run(alloc, context).ok()
//! }
//! ```
#![tactic(auto)]

mod arrows;
mod collect;
mod context;
mod done;
mod gate;
mod gather;
mod lack;
mod last_parcel;
mod likely;
mod naming;
mod nearby;
mod needs;
mod opened;
mod order;
mod outcome;
mod parcel;
mod run;
mod slot;
mod slots;
mod task;
mod turn;

pub use context::Context;
pub use done::Done;
pub use gate::{FreeGate, Gate};
pub use lack::Lack;
pub use last_parcel::LastParcel;
pub use naming::{Naming, Unnamed};
pub use order::{RunFault, run_order};
pub use outcome::{Ran, TaskOutcome};
pub use parcel::Parcel;
pub use slots::Slots;
pub use task::Task;
pub use turn::run_at;
