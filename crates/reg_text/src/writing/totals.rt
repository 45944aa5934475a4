//! Writing the text of the totals.

ghost use Rattle.std.specs.Prelude.{◌≡◌, IfOk};
ghost use Rattle.reg_text.specs.Report.{text_of};
ghost use Rattle.reg_text.specs.Totals.{totals_rows};

use crate::writing::pieces::spell_tail;
use reg_base::NoMemory;
use reg_book::{Book, Parts};
use std::alloc::Global;

/// The totals of a book: how many allowances of each kind all accounts together hold, have surrendered and have
/// deleted, and the row `end`. Surrenders and deletions that were reversed do not count.
///
/// # Errors
/// `NoMemory` if memory ran out.
pub fn totals_text(alloc: Global, book: &Book) -> Result<Vec<u8>, NoMemory>
    ensures { IfOk result (λ text. text.items ≡ text_of (totals_rows book.now)) }
{
    spell_tail(alloc, &book.both_totals())
}

/// The same text of a book whose accounts lie in lists.
///
/// # Errors
/// `NoMemory` if memory ran out.
pub fn totals_of_parts(alloc: Global, parts: &Parts) -> Result<Vec<u8>, NoMemory>
    ensures { IfOk result (λ text. text.items ≡ text_of (totals_rows parts.now)) }
{
    spell_tail(alloc, &parts.both_totals())
}
