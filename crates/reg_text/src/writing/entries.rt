//! Writing the rows of the log of a batch from the replies to its instructions. The batch has all else of a row, so no
//! row is made before its text.

ghost use Rattle.std.specs.Prelude.{◌≡◌, ◌+◌, ◌≤◌, ◌++◌, length, OnOk};
ghost use Rattle.reg_base.specs.declared.limits.TheConstants.{MOST_RECORD};
ghost use Rattle.reg_book.specs.Day.{rows_replied};
ghost use Rattle.reg_book.specs.Fold.{rows_from};
ghost use Rattle.reg_text.specs.Pieces.{rows_after};
ghost use Rattle.reg_text.specs.Report.{text_of, log_rows};

use crate::writing::dates::spell_date;
use crate::writing::log::put_entry;
use crate::writing::row::RowText;
use crate::writing::text::Text;
use reg_base::{Batch, Day, Instruction, NoMemory, RecordNo};
use reg_rules::Reply;

// Adds the log rows of instructions with these replies. The record number before the first is `last`.
fn put_entries(
    text: &mut Text,
    row: &mut RowText,
    day: Day,
    last: u64,
    instructions: &[Instruction],
    replies: &[Reply],
) -> Result<(), NoMemory>
    requires { last + length instructions.now ≤ MOST_RECORD }
    ensures { OnOk result (text.new
        ≡ text.old ++ text_of (log_rows (rows_from day (last + 1) instructions.now replies.now))) }
{
    let spelled = spell_date(day);
    let mut entry = last;
    for index in 0..instructions.len().min(replies.len()) {
        entry += 1;
        let number = RecordNo::new(entry).unwrap();
        put_entry(
            text,
            row,
            number,
            day,
            &spelled,
            &instructions[index],
            &replies[index],
        )?;
    }
    Ok(())
}

/// Adds the log of a batch with these replies.
pub(crate) fn put_log_of(
    text: &mut Text,
    row: &mut RowText,
    batch: &Batch,
    replies: &[Reply],
) -> Result<(), NoMemory>
    ensures { OnOk result (text.new ≡ text.old ++ text_of (log_rows (rows_replied batch.now replies.now))) }
{
    put_entries(
        text,
        row,
        batch.day(),
        batch.base(),
        batch.instructions(),
        replies,
    )
}

/// Adds the log rows of instructions with these replies. The first of them has this index, counted from 0.
pub(crate) fn put_log_after(
    text: &mut Text,
    row: &mut RowText,
    batch: &Batch,
    first: usize,
    replies: &[Reply],
) -> Result<(), NoMemory>
    ensures { OnOk result (text.new ≡ text.old ++ text_of (log_rows (rows_after batch.now first replies.now))) }
{
    let instructions = batch.instructions();
    if instructions.len() < first {
        return Ok(());
    }
    let last = batch.base() + first as u64;
    put_entries(
        text,
        row,
        batch.day(),
        last,
        &instructions[first..],
        replies,
    )
}
