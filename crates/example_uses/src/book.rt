//! A use of `reg_book`.

ghost use Rattle.std.specs.Prelude.{◌≡◌, IfOk, IfErr, OnOk, OnErr};
ghost use Rattle.reg_book.specs.Day.{day_of, settled_day, log_of};
ghost use Rattle.reg_book.specs.Settled.{committed};
ghost use Rattle.reg_book.specs.Settling.{IsSettleFault};

use reg_base::{Batch, Rules};
use reg_book::{Book, SettleFault, settle_plain};
use reg_rules::LogRow;
use std::alloc::Global;

/// Settles a day, puts it into the book, and answers its log.
///
/// # Errors
/// As [`settle_plain`]. The book stays as it is.
pub fn close_day(
    alloc: Global,
    book: &mut Book,
    rules: &Rules,
    batch: &Batch,
) -> Result<Vec<LogRow>, SettleFault>
    ensures book { OnOk result (book.new ≡ committed book.old (settled_day (day_of book.old rules.now batch.now))) }
    ensures log { IfOk result (λ rows. rows.items ≡ log_of (day_of book.old rules.now batch.now)) }
    ensures fault { IfErr result (IsSettleFault book.old batch.now) }
    ensures unchanged { OnErr result (book.new ≡ book.old) }
{
    let settled = settle_plain(alloc, book, rules, batch)?;
    match book.commit(settled) {
        Ok(rows) => Ok(rows),
        Err((_, stale)) => Err(SettleFault::WrongBase { next: stale.next }),
    }
}
