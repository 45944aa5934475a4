//! Reading an instruction alone, from a text of one row.

ghost use Rattle.std.specs.Prelude.{◌≡◌};
ghost use Rattle.csv.specs.Records.{fields_of};
ghost use Rattle.reg_cuts.specs.Rows.{rows_in_text};
ghost use Rattle.reg_text.specs.Faults.{Answers};
ghost use Rattle.reg_text.specs.SingleRows.{instruction_in, instruction_of_rows};

use crate::cause::{Cause, DayFault};
use crate::fields::words::{Word, is_word};
use crate::reading::instruction_row::read_instruction_row;
use crate::reading::row::field_at;
use crate::reading::tag::Tag;
use csv::ByteRecord;
use reg_base::Instruction;
use reg_cuts::{next_row, start_rows};
use std::alloc::Global;

// The instruction that a row with the tag `do` says.
fn read_do_row(row: &ByteRecord) -> Result<Instruction, Cause>
    ensures { result ≡ instruction_in (fields_of row.now) }
{
    if !is_word(field_at(row, 0), Tag::Do.word()) {
        return Err(Cause::Tag);
    }
    read_instruction_row(row)
}

/// The instruction that one `do` row says, as it stands in a day text, with its line end or without. The fields are the
/// same in both versions of the format. The accounts need not exist: no book is looked at.
///
/// # Errors
/// `Row` if this is no such row, with the first cause that applies to it: row 1 with `Tag` if it has another tag, row 1
/// with `End` if there is no row, row 2 with `End` if there is a second one. `NoMemory` if memory ran out.
pub fn read_instruction(alloc: Global, text: &[u8]) -> Result<Instruction, DayFault>
    ensures { Answers (λ i. i) result (instruction_of_rows (rows_in_text text.now)) }
{
    let mut reader = start_rows(alloc, text);
    let mut row = ByteRecord::new(alloc);
    if !next_row(&mut reader, &mut row)? {
        return Err(DayFault::Row {
            row: 1,
            cause: Cause::End,
        });
    }
    let instruction = match read_do_row(&row) {
        Ok(instruction) => instruction,
        Err(cause) => return Err(DayFault::Row { row: 1, cause }),
    };
    if next_row(&mut reader, &mut row)? {
        return Err(DayFault::Row {
            row: 2,
            cause: Cause::End,
        });
    }
    Ok(instruction)
}
