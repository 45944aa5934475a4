//! Tasks that workers run: each once, by workers in threads that steal from one another. A task is whatever has a
//! number. What is done with one is said by a type of the caller ([`Do`]); nothing here knows what a task is.
//!
//! A use of it, proved in `example_uses/src/run.rt`:
//!
//! ```rust
//! ghost use Rattle.std.specs.Prelude.{◌≡◌, All, IfOk, IsPermutation, map};
//! ghost use Rattle.reg_base.specs.Rising.{count_up};
//!
//! use reg_base::NoMemory;
//! use reg_deques::Numbered;
//! use reg_run::{Do, Ran, run};
//! use std::alloc::Global;
//! use std::thread::Threads;
//!
//! /// Runs tasks by two workers, and answers what came of each. What the caller's type promises holds of all answers.
//! ///
//! /// # Errors
//! /// `NoMemory` if memory ran out.
//! pub fn run_by_two<
//!     T: Numbered + Drop + Send,
//!     A: Drop + Send,
//!     N: Drop + Send,
//!     D: Do<T, A, N>,
//!     R: Threads + Sync,
//! >(rt: &R, alloc: Global, doing: &D, tasks: Vec<T>) -> Result<Vec<Ran<A>>, NoMemory>
//!     requires ready { D.ready doing.now }
//!     requires numbers { IsPermutation (count_up 1 (D.count doing.now)) (map T.number tasks.items) }
//!     ensures { IfOk result (λ all. All (λ r. D.promises doing.now r.number r.answer) all.items) }
//! {
//!     let outcome = run(rt, alloc, doing, tasks, 2)?;
//!     Ok(outcome.answers)
//! }
//! ```
//!
//! [`run`] deals the tasks to deques (`reg_deques`), one for each worker. A worker takes a task of its own deque, or
//! else steals one, claims its number at a table (`reg_claim`), runs it, and counts it as finished. The deques let no
//! two workers take one task; the table lets no task be run that was run before, and tells at the end that each was.
//! What is so of every run, whatever the threads did, stands in `specs/Running.antt` (`WereRun`): each task was put
//! into one deque, once; each worker took just the tasks that it ran; each task was run once, by the worker that its
//! answer names; and what is promised of the answers holds.
//!
//! Whoever has tasks that appear while others are run has a loop of its own over the same parts: workers that are ready
//! ([`make_workers`]), each with a deque and a pass at the others ([`Taker`]), and a seat. `reg_work` does so.
#![tactic(auto)]

mod dealing;
mod doing;
mod outcome;
mod ran;
mod running;
mod taker;
mod tally;
mod threads;
mod worker;

pub use dealing::{ReadyWorkers, make_workers};
pub use doing::Do;
pub use outcome::Outcome;
pub use ran::Ran;
pub use running::run;
pub use taker::{Sharing, Taken, Taker};
pub use worker::ReadyWorker;
