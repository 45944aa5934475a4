//! What the orders and the workers' schedules of a day's instructions mean, as definitions, and what is true of all of
//! them, as laws. A pool, docks, lists and hands are plain data here. The only code is the names of the workers'
//! events, of their faults, and of where an instruction is.
//!
//! A use of it, proved in `example_uses/src/schedules.rt`:
//!
//! ```rust
//! ghost use Rattle.std.specs.Prelude.{◌≡◌, ℕ, List, Some};
//! ghost use Rattle.reg_plan.specs.Plans.{PlanValue};
//! ghost use Rattle.reg_plan.specs.Orders.{IsLegalOrder};
//! ghost use Rattle.reg_book.specs.Day.{DayValue};
//! ghost use Rattle.reg_schedules.specs.Laws.{IsPlanOf};
//! ghost use Rattle.reg_schedules.specs.Pool.{Progress, meaning_of};
//!
//! use reg_schedules::laws::every_order;
//!
//! /// Two legal orders of a day's instructions leave the same accounts. This function does nothing: a function whose
//! /// proof needs the law calls it, as this one calls `every_order`.
//! pub fn orders_agree()
//!     ensures { (day : DayValue) (plan : PlanValue) (one other : List ℕ) (p q : Progress) → IsPlanOf day plan
//!         → IsLegalOrder plan one → IsLegalOrder plan other
//!         → meaning_of day plan one ≡ Some p → meaning_of day plan other ≡ Some q
//!         → (account : ℕ) → p.closing account ≡ q.closing account }
//! {
//!     every_order();
//! }
//! ```
#![tactic(auto)]

mod event;
pub mod laws;

pub use event::{Event, EventFault, MOST_WORKERS, Whereabouts};
