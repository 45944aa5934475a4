//! Deques of tasks: one for each worker, who puts tasks behind and takes the first, while the others steal the first. A
//! task is whatever has a number ([`Numbered`]): a region of a day, or an instruction with the values that it needs.
//!
//! A use of it, proved in `example_uses/src/deques.rt`:
//!
//! ```rust
//! ghost use Rattle.std.specs.Prelude.{IfSome, ◌∷◌, []};
//! ghost use Rattle.reg_deques.specs.Views.{with_put};
//! ghost use Rattle.reg_deques.specs.Steps.{TakesOwn};
//! ghost use Rattle.reg_deques.specs.Passes.{owned};
//!
//! use reg_deques::{Numbered, Owner};
//!
//! /// Puts a task behind those of a worker's deque, and takes the first one, which is this task only if no other is
//! /// there. `None` if the deque has no room for it, or if thieves have taken all tasks.
//! pub fn put_and_take<T: Numbered + Drop>(owner: &mut Owner<T>, task: T) -> Option<T>
//!     ensures { IfSome result (λ t. TakesOwn (with_put (T.number task ∷ []) (owned owner.old)) (T.number t)
//!         (owned owner.new)) }
//! {
//!     owner.put(task).ok()?;
//!     owner.take_own()
//! }
//! ```
//!
//! A [`Yard`] has a deque for each worker. Its [`Owner`] puts and takes tasks. A worker steals from the others by its
//! [`Pass`], which says what it knows of each deque: the positions that it took, and the numbers that it saw to be put.
//! What is known exists in proofs alone, and takes no bytes. The rule of a deque (`specs/Deques.antt`) holds between
//! any two steps of any threads, so the tasks come out in the order in which they were put, and each position is taken
//! once.
//!
//! The kit's deque joins a pass only with its worker. So each task lies in its deque with a ticket of its position, and
//! whoever takes the task gets the ticket too. The tickets of a deque have a table, whose rule (`specs/Tickets.antt`)
//! says that no ticket is at two seats: so two passes can be joined, and no position is in both. A ticket takes no
//! bytes either.
//!
//! Only [`Yard::new`] and [`Owner::put`] take memory. No call here waits.
#![tactic(auto)]

mod calls;
mod numbered;
mod owner;
mod owning;
mod pass;
mod protocol;
mod stealer;
mod stealing;
mod ticket;
mod views;
mod yard;

pub use crossbeam_deque::Steal;
pub use numbered::Numbered;
pub use owner::Owner;
pub use pass::{DequePass, Pass};
pub use views::{DequeView, TicketView};
pub use yard::Yard;
