//! The book of all accounts, and the plain settlement of a day, which executes the instructions one after another.
//!
//! A use of it, proved in `example_uses/src/book.rt`:
//!
//! ```rust
//! ghost use Rattle.std.specs.Prelude.{◌≡◌, IfOk, IfErr, OnOk, OnErr};
//! ghost use Rattle.reg_book.specs.Day.{day_of, settled_day, log_of};
//! ghost use Rattle.reg_book.specs.Settled.{committed};
//! ghost use Rattle.reg_book.specs.Settling.{IsSettleFault};
//!
//! use reg_base::{Batch, Rules};
//! use reg_book::{Book, SettleFault, settle_plain};
//! use reg_rules::LogRow;
//! use std::alloc::Global;
//!
//! /// Settles a day, puts it into the book, and answers its log.
//! ///
//! /// # Errors
//! /// As [`settle_plain`]. The book stays as it is.
//! pub fn close_day(
//!     alloc: Global,
//!     book: &mut Book,
//!     rules: &Rules,
//!     batch: &Batch,
//! ) -> Result<Vec<LogRow>, SettleFault>
//!     ensures book { OnOk result (book.new ≡ committed book.old (settled_day (day_of book.old rules.now batch.now))) }
//!     ensures log { IfOk result (λ rows. rows.items ≡ log_of (day_of book.old rules.now batch.now)) }
//!     ensures fault { IfErr result (IsSettleFault book.old batch.now) }
//!     ensures unchanged { OnErr result (book.new ≡ book.old) }
//! {
//!     let settled = settle_plain(alloc, book, rules, batch)?;
//!     match book.commit(settled) {
//!         Ok(rows) => Ok(rows),
//!         Err((_, stale)) => Err(SettleFault::WrongBase { next: stale.next }),
//!     }
//! }
//! ```
//!
//! One instruction at a time, proved in `example_uses/src/single.rt`:
//!
//! ```rust
//! ghost use Rattle.std.specs.Prelude.{◌≡◌, ◌+◌, IfOk, IfErr, OnOk, OnErr};
//! ghost use Rattle.reg_rules.specs.Checks.{refusal};
//! ghost use Rattle.reg_book.specs.Single.{setting_on, IsApplyFault};
//!
//! use reg_base::{Day, Instruction, Refusal, Rules};
//! use reg_book::{ApplyFault, Book};
//! use std::alloc::Global;
//!
//! /// Settles one instruction, and answers the check that refused it, or `None` if it was carried out. In both cases
//! /// one record number is used up.
//! ///
//! /// # Errors
//! /// As [`Book::apply`]. The book stays as it is.
//! pub fn settle_one(
//!     alloc: Global,
//!     book: &mut Book,
//!     rules: &Rules,
//!     day: Day,
//!     instruction: &Instruction,
//! ) -> Result<Option<Refusal>, ApplyFault>
//!     ensures refused { IfOk result
//!         (λ found. found ≡ refusal (setting_on book.old rules.now day) book.old.accounts instruction.now) }
//!     ensures next { OnOk result (book.new.next ≡ book.old.next + 1) }
//!     ensures fault { IfErr result (IsApplyFault book.old rules.now day instruction.now) }
//!     ensures unchanged { OnErr result (book.new ≡ book.old) }
//! {
//!     let row = book.apply(alloc, rules, day, instruction)?;
//!     Ok(row.reply.refusal())
//! }
//! ```
#![tactic(auto)]

mod apply;
mod book;
mod closing;
mod draft;
mod indexes;
mod laws;
mod listed;
mod parts;
mod settle;
mod settled;
mod totals;
mod touched;

pub use apply::ApplyFault;
pub use book::Book;
pub use closing::{ClosedDay, settle_in_place};
pub use draft::{BookDraft, BookFault, has_row_ahead};
pub use indexes::{Indexes, all_indexes, index_of};
pub use laws::{
    closing_is_a_book, each_is_a_step, every_chain, fold_conserves, fold_keeps_closed,
    log_is_made_again, settled_is_closing, settled_is_of_book, stays_ready, untouched_stay,
    value_is_last_touchers,
};
pub use listed::ListedAccounts;
pub use parts::{ClosedParts, Parts, add_up_lists};
pub use settle::{SettleFault, settle_plain};
pub use settled::{Settled, Stale};
pub use totals::{BothTotals, Totals, add_up};
