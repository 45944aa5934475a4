//! The plan of a batch: which instruction has to come before which other, account by account, and which orders
//! of the instructions keep to that.
//!
//! A use of it, proved in `example_uses/src/plan.rt`:
//!
//! ```rust
//! ghost use Rattle.std.specs.Prelude.{◌↔◌, IsTrue, IfOk};
//! ghost use Rattle.reg_plan.specs.Arrows.{IsArrow};
//! ghost use Rattle.reg_plan.specs.declared.arrow.Arrow.{Arrow};
//!
//! use reg_base::{Batch, Directory, NoMemory};
//! use reg_plan::Plan;
//! use std::alloc::Global;
//!
//! /// Whether no instruction of a batch has to wait for another one, since no two of them touch the same account.
//! ///
//! /// # Errors
//! /// `NoMemory` if memory ran out.
//! pub fn needs_no_order(alloc: Global, batch: &Batch, directory: &Directory) -> Result<bool, NoMemory>
//!     ensures { IfOk result (λ free. IsTrue free
//!         ↔ ((arrow : Arrow) → ¬ IsArrow directory.now batch.now.instructions arrow)) }
//! {
//!     let plan = Plan::of(alloc, batch, directory)?;
//!     Ok(plan.arrows().is_empty())
//! }
//! ```
//!
//! An arrow leads from an instruction to the next one that touches the same account. A legal order has each
//! arrow's tail before its head.
#![tactic(auto)]

mod arrow;
mod arrows;
mod index;
pub mod laws;
mod levels;
mod likely;
mod order;
mod plan;
mod runs;
mod touched;
mod touches;

pub use arrow::{Arrow, Opening};
pub use likely::LikelySlots;
pub use order::OrderFault;
pub use plan::Plan;
