//! Advice on how a day is dealt out to regions of its accounts. Nothing is promised of it, so it may be changed without
//! a proof: whoever takes it tests it first, as `reg_regions` does.
//!
//! A use of it, proved in `example_uses/src/advice.rt`:
//!
//! ```rust
//! ghost use Rattle.reg_base.specs.Rising.{IsRising};
//! ghost use Rattle.reg_facts.specs.Lists.{joined_lists};
//! ghost use Rattle.reg_rules.specs.State.{numbers};
//!
//! use reg_account::Account;
//! use reg_advice::advise;
//! use reg_base::Batch;
//! use std::alloc::Global;
//! use std::thread::Threads;
//!
//! /// Whether four workers are advised to deal this day out to regions.
//! pub fn is_worth_dealing<R: Threads + Sync>(
//!     rt: &R,
//!     alloc: Global,
//!     lists: &[Vec<Account>],
//!     batch: &Batch,
//! ) -> bool
//!     requires { IsRising (numbers (joined_lists lists.now)) }
//! {
//!     match advise(rt, alloc, lists, batch, 4) {
//!         Some(dealing) => dealing.deals.len() > 1,
//!         None => false,
//!     }
//! }
//! ```
#![tactic(auto)]

mod advice;
mod bundles;
mod dealing;
mod homes;
mod labels;
mod layout;
mod lookups;
mod movers;
pub mod numbers;
mod runs;
#[cfg(test)]
mod small;

pub use advice::advise;
pub use dealing::{Deal, Dealing, Swap};
pub use runs::runs_of;
