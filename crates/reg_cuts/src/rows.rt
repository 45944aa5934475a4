//! The rows of a text, read one after another into the same record of csv.

ghost use Rattle.std.specs.Prelude.{◌≡◌, ◌∷◌, [], IfOk, IsTrue};
ghost use Rattle.std.specs.Bool.{MatchBool};
ghost use Rattle.csv.specs.Records.{fields_of};
ghost use Rattle.csv.specs.Reading.{error_kind};
ghost use Rattle.reg_cuts.specs.Rows.{IsBetweenRows, IsOfMemory, rows_left, rows_in_text};

use csv::{ByteRecord, Error, ErrorKind, Reader, ReaderBuilder};
use reg_base::NoMemory;
use std::alloc::Global;

/// A reader at the first row of a text. No row is a header, and the rows may have any numbers of fields.
pub fn start_rows(alloc: Global, text: &[u8]) -> Reader<&[u8]>
    ensures between { IsBetweenRows result }
    ensures rows { rows_left result ≡ rows_in_text text.now }
{
    ReaderBuilder::new()
        .has_headers(false)
        .flexible(true)
        .from_reader(alloc, text)
}

/// Reads the next row into `row`, and answers whether there was one. The reader must come from [`start_rows`], and each
/// call with it so far must have answered a row.
///
/// # Errors
/// `NoMemory` if memory ran out, or if the bytes could not be read, which bytes in memory always can. The reader is of
/// no use after an error.
pub fn next_row(reader: &mut Reader<&[u8]>, row: &mut ByteRecord) -> Result<bool, NoMemory>
    requires { IsBetweenRows reader.old }
    ensures between { IfOk result (λ found. IsTrue found → IsBetweenRows reader.new) }
    ensures rows { IfOk result
        (λ found. MatchBool found (rows_left reader.old ≡ fields_of row.new ∷ rows_left reader.new)
        (rows_left reader.old ≡ [])) }
{
    match reader.read_byte_record(row) {
        Ok(found) => Ok(found),
        Err(error) => Err(out_of_memory(&error)),
    }
}

// An error of the reader: of memory or of its bytes. The rows may have any lengths and bytes, so no other one can come.
fn out_of_memory(error: &Error) -> NoMemory
    requires { IsOfMemory (error_kind error.now) }
{
    match error.kind() {
        ErrorKind::OutOfMemory | ErrorKind::Io(_) => NoMemory,
        ErrorKind::Utf8 { .. }
        | ErrorKind::UnequalLengths { .. }
        | ErrorKind::Serialize(_)
        | ErrorKind::Deserialize { .. } => unreachable!(),
    }
}
