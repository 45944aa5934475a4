//! Reading the version of a day text alone.

ghost use Rattle.std.specs.Prelude.{◌≡◌, IfOk, Some};
ghost use Rattle.csv.specs.Records.{fields_of};
ghost use Rattle.reg_book.specs.Day.{DayValue};
ghost use Rattle.reg_cuts.specs.Rows.{rows_in_text};
ghost use Rattle.reg_text.specs.Reading.{IsReading};
ghost use Rattle.reg_text.specs.SingleRows.{version_of_row, version_told};

use crate::cause::Cause;
use crate::fields::words::{Word, is_word};
use crate::reading::heading_rows::read_format_row;
use crate::reading::row::field_at;
use crate::reading::scope::Version;
use crate::reading::tag::Tag;
use csv::ByteRecord;
use reg_base::NoMemory;
use reg_cuts::{next_row, start_rows};
use std::alloc::Global;

// The version that a row with the tag `format` says.
fn read_version_row(row: &ByteRecord) -> Result<Version, Cause>
    ensures { result ≡ version_of_row (fields_of row.now) }
{
    if !is_word(field_at(row, 0), Tag::Format.word()) {
        return Err(Cause::Tag);
    }
    read_format_row(row)
}

/// The version of the format in which a day text is spelled, by its first row. `None` if there is no row, or the first
/// one names no version, so that the text is no day text. The other rows are not looked at: a text with a version may
/// still have a fault. This is never inlined, since the frame of a caller would then have room for its reader too.
///
/// # Errors
/// `NoMemory` if memory ran out.
#[inline(never)]
pub fn read_version(alloc: Global, text: &[u8]) -> Result<Option<Version>, NoMemory>
    ensures told { IfOk result (λ version. version ≡ version_told (rows_in_text text.now)) }
    ensures spelled { IfOk result (λ version. (day : DayValue) (reading : IsReading (rows_in_text text.now) day)
        → version ≡ Some reading.version) }
{
    let mut reader = start_rows(alloc, text);
    let mut row = ByteRecord::new(alloc);
    if next_row(&mut reader, &mut row)? {
        Ok(read_version_row(&row).ok())
    } else {
        Ok(None)
    }
}
