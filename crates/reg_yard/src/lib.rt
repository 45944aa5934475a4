//! The docks of a day: one for each instruction, in which the values that it needs come together. The deques of the
//! workers, which are their yard, come from `reg_deques`.
//!
//! A use of it, proved in `example_uses/src/yard.rt`:
//!
//! ```rust
//! ghost use Rattle.std.specs.Prelude.{◌≡◌, Some, IfSome};
//! ghost use Rattle.reg_yard.specs.Parcels.{parcel_of, goes_to};
//!
//! use reg_tasks::{Context, Naming, Parcel, TaskOutcome};
//! use reg_yard::Docks;
//! use std::alloc::Global;
//! use std::sync::Wait;
//!
//! /// Delivers the value of an account to the instruction that needs it next, and runs that one if it was the last
//! /// value that it awaited. `None` if it awaits more, if no instruction awaits the value, if memory ran out, or, if
//! /// no day is named, if the task does not fit the context.
//! pub fn deliver_and_run<N: Naming, R: Wait>(
//!     wait: &R,
//!     alloc: Global,
//!     context: &Context<N>,
//!     docks: &Docks<N>,
//!     parcel: Parcel<N>,
//! ) -> Option<TaskOutcome<N>>
//!     ensures { IfSome result (λ o. goes_to docks.now.context.now.plan (parcel_of parcel) ≡ Some o.place) }
//! {
//!     let task = docks.deliver(wait, parcel).ok()??;
//!     task.run(alloc, context).ok()
//! }
//! ```
#![tactic(auto)]

mod assemble;
mod awaited;
mod dock;
mod docks;
pub mod laws;
mod locked;
mod places;
mod start;

pub use dock::Dock;
pub use docks::Docks;
pub use reg_deques::{DequePass, DequeView, Owner, Pass, Steal, TicketView, Yard};
