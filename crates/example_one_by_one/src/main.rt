//! A program over the crates that settles one instruction at a time, for callers to copy: reads a day text from
//! standard input, applies its instructions to the book one after another, and writes a line for each to standard
//! output: its record number, and `done` or the check that refused it, with a sentence. The exit status is 1 if
//! anything failed.
#![tactic(auto)]

ghost use Rattle.std.specs.Prelude.{◌≡◌, ◌+◌, IfOk};
ghost use Rattle.reg_book.specs.Day.{day_of, log_of};

use reg_base::{Batch, Rules};
use reg_book::Book;
use reg_rules::LogRow;
use reg_text::read_day;
use std::alloc::Global;
use std::io::{Read, Write};
use std::process::ExitCode;

/// Not all was read, applied and written.
#[derive(Drop)]
struct Unanswered;

/// Applies the instructions one at a time, and answers their log rows: those that settling the whole batch gives. The
/// batch must begin with the book's next record number.
///
/// # Errors
/// [`Unanswered`] if memory ran out.
fn apply_all(
    alloc: Global,
    book: &mut Book,
    rules: &Rules,
    batch: &Batch,
) -> Result<Vec<LogRow>, Unanswered>
    requires { batch.now.base + 1 ≡ book.old.next }
    ensures { IfOk result (λ rows. rows.items ≡ log_of (day_of book.old rules.now batch.now)) }
{
    let day = batch.day();
    let instructions = batch.instructions();
    let mut rows = Vec::new(alloc);
    for instruction in instructions {
        let Ok(row) = book.apply(alloc, rules, day, instruction) else {
            return Err(Unanswered);
        };
        let Ok(()) = rows.push(row) else {
            return Err(Unanswered);
        };
    }
    Ok(rows)
}

/// Writes the line of a log row: its record number, and `done` or the check that refused it, with a sentence.
fn write_line<W: Write>(writer: &mut W, row: &LogRow) -> Result<(), Unanswered> {
    let number = row.number.get();
    match row.reply.refusal() {
        None => writeln!(writer, "{number} done").or(Err(Unanswered)),
        Some(refusal) => {
            let sentence = refusal.sentence();
            writeln!(writer, "{number} {refusal}: {sentence}").or(Err(Unanswered))
        }
    }
}

/// Reads the whole input, applies the instructions of its day, and writes their lines.
///
/// # Errors
/// [`Unanswered`] if the input can't be read or is no day text, if the lines can't be written, or if memory ran out.
fn answer<R: Read, W: Write>(
    alloc: Global,
    reader: &mut R,
    writer: &mut W,
) -> Result<(), Unanswered> {
    let mut text = Vec::new(alloc);
    let Ok(_) = reader.read_to_end(&mut text) else {
        return Err(Unanswered);
    };
    let Ok(mut day) = read_day(alloc, text.as_slice()) else {
        return Err(Unanswered);
    };
    let rows = apply_all(alloc, &mut day.book, &day.rules, &day.batch)?;
    for row in rows.iter() {
        write_line(writer, row)?;
    }
    writer.flush().or(Err(Unanswered))
}

fn main(rt: HostRuntime) -> ExitCode {
    match answer(rt.alloc(), &mut rt.stdin(), &mut rt.stdout()) {
        Ok(()) => ExitCode::SUCCESS,
        Err(Unanswered) => ExitCode::FAILURE,
    }
}
