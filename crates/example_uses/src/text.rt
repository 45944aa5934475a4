//! A use of `reg_text`.

ghost use Rattle.std.specs.Prelude.{◌≡◌, IfOk};
ghost use Rattle.reg_book.specs.Day.{DayValue};
ghost use Rattle.reg_cuts.specs.Rows.{rows_in_text};
ghost use Rattle.reg_text.specs.Reading.{IsReading};
ghost use Rattle.reg_text.specs.Report.{text_of, written_book};

use reg_text::{DayFault, read_day, write_book};
use std::alloc::Global;

/// The book of a day text, written as it is in a report.
///
/// # Errors
/// `Row` if this is no day text, with its first faulty row and the cause. `NoMemory` if memory ran out.
pub fn book_of_text(alloc: Global, text: &[u8]) -> Result<Vec<u8>, DayFault>
    ensures { IfOk result (λ written. (day : DayValue) × IsReading (rows_in_text text.now) day
        × (written.items ≡ text_of (written_book day.book))) }
{
    let day = read_day(alloc, text)?;
    let written = write_book(alloc, &day.book)?;
    Ok(written)
}
