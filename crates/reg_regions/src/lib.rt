//! Regions of a day: accounts of their own, with the instructions that touch these alone.
//!
//! A use of it, proved in `example_uses/src/regions.rt`:
//!
//! ```rust
//! ghost use Rattle.reg_regions.specs.Laws.{RegionEndsAsTheDay};
//!
//! use reg_regions::region_is_as_the_day;
//!
//! /// Settled alone, the accounts of a region end as the day leaves them.
//! pub fn a_region_ends_as_the_day()
//!     ensures { RegionEndsAsTheDay }
//! {
//!     region_is_as_the_day();
//! }
//! ```
//!
//! [`settle_regions`] and [`settle_without_shifts`] deal a day out to regions, and settle these by workers.
#![tactic(auto)]

mod admission;
mod exchange;
mod gate;
mod instruction;
mod laws;
mod lists;
mod not_settled;
mod running;
mod settlement;

pub use gate::{FreePlaces, PlaceGate};
pub use instruction::Placed;
pub use laws::{region_is_as_the_day, regions_are_a_day};
pub use not_settled::{NotSettled, RegionsFault};
pub use running::shift::{OwnedRegion, WorkShift};
pub use settlement::{are_allowed, settle_regions, settle_without_shifts};
