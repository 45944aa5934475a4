//! Uses of the calls of `reg_text` for single rows, dates and causes.

ghost use Rattle.std.specs.Prelude.{◌≡◌, [], ◌∷◌, Ok, IfOk};
ghost use Rattle.reg_cuts.specs.Rows.{rows_in_text};
ghost use Rattle.reg_text.specs.declared.reading.tag.Tag.TheVariants as tag;
ghost use Rattle.reg_text.specs.Grammar.{row_text};
ghost use Rattle.reg_text.specs.Log.{log_row};

use reg_base::{Day, Instruction, NoMemory};
use reg_rules::LogRow;
use reg_text::laws::{one_name_of_each_cause, one_row_of_an_instruction, one_spelling_of_a_day};
use reg_text::{
    Cause, DayFault, logs_are_their_rows, read_date, read_instruction, spell_date, write_log_row,
};
use std::alloc::Global;

/// The instruction of one `do` row. What is answered has this row and no other.
///
/// # Errors
/// `Row` if this is no such row. `NoMemory` if memory ran out.
pub fn instruction_of_row(alloc: Global, row: &[u8]) -> Result<Instruction, DayFault>
    ensures { IfOk result (λ i. rows_in_text row.now ≡ row_text tag.Do i ∷ []) }
{
    one_row_of_an_instruction();
    read_instruction(alloc, row)
}

/// One row of a log, as a text that `csv` reads as this row.
///
/// # Errors
/// `NoMemory` if memory ran out.
pub fn text_of_log_row(alloc: Global, row: &LogRow) -> Result<Vec<u8>, NoMemory>
    ensures { IfOk result (λ text. rows_in_text text.items ≡ log_row row.now ∷ []) }
{
    logs_are_their_rows();
    write_log_row(alloc, row)
}

/// The day whose date was written, read again.
///
/// # Errors
/// None.
pub fn day_again(day: Day) -> Result<Day, Cause>
    ensures { result ≡ Ok day }
{
    one_spelling_of_a_day();
    read_date(&spell_date(day))
}

/// The cause whose name was written, read again.
///
/// # Errors
/// None.
pub fn cause_again(cause: Cause) -> Result<Cause, Cause>
    ensures { result ≡ Ok cause }
{
    one_name_of_each_cause();
    cause.name().parse()
}
