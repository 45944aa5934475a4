//! A whole program over the crates, for callers to copy: reads a day text from standard input, settles the day, puts
//! it into the book, and writes the report to standard output. The exit status is 1 if anything failed.
//!
//! `registry` does more: it takes words, settles by workers, tells what failed, and reads no more than 2^30 bytes.
#![tactic(auto)]

ghost use Rattle.std.specs.Prelude.{◌≡◌, IfSome, OnOk};
ghost use Rattle.std.specs.Io.KnownBytes.{Appends};
ghost use Rattle.reg_book.specs.Day.{DayValue};
ghost use Rattle.reg_cuts.specs.Rows.{rows_in_text};
ghost use Rattle.reg_text.specs.Inputs.{day_of_input};
ghost use Rattle.reg_text.specs.NextDays.{report_of};
ghost use Rattle.reg_text.specs.Reading.{IsReading};

use reg_book::settle_plain;
use reg_text::{DayInput, read_day, write_report};
use std::alloc::Global;
use std::io::{Read, Write};
use std::process::ExitCode;

/// The report of a day. `None` if memory ran out.
fn report_from_day(alloc: Global, mut day: DayInput) -> Option<Vec<u8>>
    ensures { IfSome result (λ report. report.items ≡ report_of (day_of_input day)) }
{
    let Ok(settled) = settle_plain(alloc, &day.book, &day.rules, &day.batch) else {
        return None;
    };
    let Ok(log) = day.book.commit(settled) else {
        return None;
    };
    write_report(alloc, &day.book, log.as_slice()).ok()
}

/// The report of the day that this text describes. `None` if it is no day text, or if memory ran out.
fn report_from_text(alloc: Global, text: &[u8]) -> Option<Vec<u8>>
    ensures { IfSome result (λ report. (day : DayValue) × IsReading (rows_in_text text.now) day
        × (report.items ≡ report_of day)) }
{
    let Ok(day) = read_day(alloc, text) else {
        return None;
    };
    report_from_day(alloc, day)
}

/// No report was written, or not all of it.
struct Unanswered;

/// Reads the whole input, and writes the report of the day that it describes.
///
/// # Errors
/// [`Unanswered`] if the input can't be read or is no day text, if the report can't be written, or if memory ran out.
fn answer<R: Read, W: Write>(
    alloc: Global,
    reader: &mut R,
    writer: &mut W,
) -> Result<(), Unanswered>
    ensures { OnOk result (IfSome (R.remaining reader.old) (λ text. (day : DayValue) × IsReading (rows_in_text text) day
        × Appends (W.contents writer.old) (W.contents writer.new) (report_of day))) }
{
    let mut text = Vec::new(alloc);
    let Ok(_) = reader.read_to_end(&mut text) else {
        return Err(Unanswered);
    };
    let Some(report) = report_from_text(alloc, text.as_slice()) else {
        return Err(Unanswered);
    };
    let Ok(()) = writer.write_all(report.as_slice()) else {
        return Err(Unanswered);
    };
    let Ok(()) = writer.flush() else {
        return Err(Unanswered);
    };
    Ok(())
}

fn main(rt: HostRuntime) -> ExitCode {
    match answer(rt.alloc(), &mut rt.stdin(), &mut rt.stdout()) {
        Ok(()) => ExitCode::SUCCESS,
        Err(Unanswered) => ExitCode::FAILURE,
    }
}
