//! The claim table of workers that steal: who claimed which place, how many places are finished, and whether the
//! workers are told to leave.
//!
//! A use of it, proved in `example_uses/src/claim.rt`:
//!
//! ```rust
//! ghost use Rattle.std.specs.Prelude.{◌≡◌, IfOk, true, false};
//!
//! use reg_claim::{ClaimTable, NoMemory};
//! use std::alloc::Global;
//!
//! /// Claims the one place of a table twice, and finishes it. Answers both claims, and how many places are finished.
//! ///
//! /// # Errors
//! /// `NoMemory` if memory ran out.
//! pub fn claim_twice(alloc: Global) -> Result<(bool, bool, u32), NoMemory>
//!     ensures { IfOk result (λ seen. seen ≡ (true, false, 1)) }
//! {
//!     let (table, mut seat) = ClaimTable::new(alloc, 1)?;
//!     let first = table.claim(&mut seat, 1);
//!     let second = table.claim(&mut seat, 1);
//!     table.finish(&mut seat, 1);
//!     let tally = table.close(seat);
//!     Ok((first, second, tally.done))
//! }
//! ```
//!
//! A table of `n` places has a word for each place and one word for the count. Each worker has a [`Seat`]. A seat's
//! view says what it claimed, what it finished and the greatest count that it saw; it exists in proofs alone, and takes
//! no bytes. The rule of the table (`specs/Claims.antt`) holds between any two steps of any threads, so each place is
//! claimed once, and the count is that of the finished places.
//!
//! Only [`ClaimTable::new`] takes memory. No call here waits.
#![tactic(auto)]

mod calls;
mod claim_table;
mod fault;
mod protocol;
mod seats;
mod views;

pub use claim_table::{ClaimTable, Look, Tally};
pub use fault::NoMemory;
pub use seats::Seat;
pub use views::SeatView;
