//! The settlement of a day in the place of its book.

ghost use Rattle.std.specs.Prelude.{◌≡◌, ◌+◌, IfOk};
ghost use Rattle.reg_book.specs.Day.{day_of, settled_day, replies_of};
ghost use Rattle.reg_book.specs.Settled.{committed};

use crate::book::Book;
use crate::indexes::all_indexes;
use crate::settle::settle_all;
use reg_base::{Batch, NoMemory, Rules};
use reg_rules::{Reply, Setting, step_laws};
use std::alloc::Global;

/// A day that is over: the book after it, and what was answered. The rest of its log is in the batch.
#[derive(Debug, Drop)]
pub struct ClosedDay {
    /// The book after the day.
    pub book: Book,
    /// The replies to the instructions, in order.
    pub replies: Vec<Reply>,
}

/// Settles a batch on the book's own accounts. The first record number of the batch must be the book's next one. The
/// book and the replies are those that `settle_plain` and then [`Book::commit`] give, but no account is copied.
/// `settle_plain` is for callers that keep their book as it was.
///
/// The time is linear in the batch, except for the look-ups: an account is looked up once for each instruction that
/// touches it.
///
/// # Errors
/// `NoMemory` if memory ran out. The book is dropped then.
pub fn settle_in_place(
    alloc: Global,
    book: Book,
    rules: &Rules,
    batch: &Batch,
) -> Result<ClosedDay, NoMemory>
    requires { batch.now.base + 1 ≡ book.next }
    ensures book { IfOk result
        (λ closed. closed.book ≡ committed book (settled_day (day_of book rules.now batch.now))) }
    ensures replies { IfOk result (λ closed. closed.replies.items ≡ replies_of (day_of book rules.now batch.now)) }
{
    rules.are_within_limits();
    step_laws();
    batch.base();
    let (mut accounts, directory, next) = book.into_parts();
    let indexes = all_indexes(alloc, &accounts, batch.instructions())?;
    let setting = Setting {
        rules,
        day: batch.day(),
        directory: &directory,
    };
    let replies = settle_all(alloc, &setting, batch, &mut accounts, &indexes)?;
    let count = replies.len() as u64;
    Ok(ClosedDay {
        book: Book::from_sorted(accounts, directory, next + count),
        replies,
    })
}
