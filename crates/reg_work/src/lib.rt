//! Workers of instructions: those of a day, run in threads: by workers that take them as soon as what they wait for is
//! there, or level by level. No command uses them: the program's workers are those of `reg_run`, with regions as their
//! tasks. Here a task appears while others are run, so the loop, docks and threads are of this crate; how a worker gets
//! its deque and its seat, and how it puts, takes and steals tasks, is `reg_run`'s.
//!
//! A use of it, proved in `example_uses/src/work.rt`:
//!
//! ```rust
//! ghost use Rattle.std.specs.Prelude.{◌≡◌, ◌+◌, MatchResult};
//! ghost use Rattle.reg_book.specs.Day.{day_of, settled_day};
//! ghost use Rattle.reg_work.specs.Faults.{IsWorkFault};
//!
//! use reg_base::{Batch, Rules};
//! use reg_book::{Book, Settled};
//! use reg_work::{FreeGate, WorkFault, settle_with};
//! use std::alloc::Global;
//! use std::sync::Wait;
//! use std::thread::Threads;
//!
//! /// Settles a day by four workers: the calling thread, and three threads of their own. The settled day is that of
//! /// the instructions one after another.
//! ///
//! /// # Errors
//! /// As [`settle_with`].
//! pub fn settle_by_four<R: Threads + Wait + Sync>(
//!     rt: &R,
//!     alloc: Global,
//!     book: &Book,
//!     rules: &Rules,
//!     batch: &Batch,
//! ) -> Result<Settled, WorkFault>
//!     ensures { MatchResult result
//!         (λ s. (batch.now.base + 1 ≡ book.now.next) × (s ≡ settled_day (day_of book.now rules.now batch.now)))
//!         (IsWorkFault 4 book.now batch.now) }
//! {
//!     let (settled, _) = settle_with(rt, alloc, book, rules, batch, 4, &FreeGate)?;
//!     Ok(settled)
//! }
//! ```
#![tactic(auto)]

mod alone;
mod division;
mod execution;
mod fault;
mod level;
mod shared;
mod shift;
mod stealing;
mod tally;
mod threads;
mod waves;
mod work_loop;
mod worker;

pub use fault::WorkFault;
pub use reg_tasks::{FreeGate, Gate};
pub use shift::Shift;
pub use stealing::settle_with;
pub use waves::settle_waves;
