//! A whole program over the crates with workers, for callers to copy. It does what the program `registry` does: reads a
//! day text from standard input, settles the day on its own accounts by four workers, who own regions of them, and
//! writes the report to standard output. How many instructions each worker carried out goes to standard error: this
//! differs from run to run, and the report does not. The exit status is 1 if anything failed.
#![tactic(auto)]

ghost use Rattle.std.specs.Prelude.{◌≡◌, IfSome};
ghost use Rattle.reg_text.specs.Inputs.{day_of_parts};
ghost use Rattle.reg_text.specs.NextDays.{report_of};
ghost use Rattle.reg_text.specs.Pieces.{text_of_pieces};

use reg_book::log_is_made_again;
use reg_regions::{FreePlaces, WorkShift, settle_regions};
use reg_text::{DayParts, LEAST_PART, read_day_of_pieces, write_report_pieces};
use std::alloc::Global;
use std::io::{Read, Write};
use std::process::ExitCode;
use std::thread::Threads;

/// How many workers settle the day: 1 to 8. As many threads read its text and write the report.
const WORKERS: u32 = 4;

/// Not all was read, settled and written.
#[derive(Drop)]
struct Unanswered;

/// Writes how many instructions each worker carried out.
fn tell_shifts<W: Write>(writer: &mut W, shifts: &[WorkShift]) -> Result<(), Unanswered> {
    for shift in shifts {
        let worker = shift.worker();
        let count = shift.places().len();
        writeln!(writer, "worker {worker} carried out {count}").or(Err(Unanswered))?;
    }
    Ok(())
}

/// The report of a day that workers settle, in pieces, which take the memory of `spare`; `teller` is told how many
/// instructions each carried out. `None` if memory ran out, if the day's first record is not the book's next one, or if
/// the teller takes nothing.
fn report_by_workers<T: Threads + Sync, W: Write>(
    rt: &T,
    alloc: Global,
    day: DayParts,
    spare: Vec<Vec<u8>>,
    teller: &mut W,
) -> Option<Vec<Vec<u8>>>
    ensures { IfSome result (λ pieces. text_of_pieces pieces.items ≡ report_of (day_of_parts day)) }
{
    log_is_made_again();
    let DayParts {
        rules,
        parts,
        batch,
    } = day;
    let Ok((closed, shifts)) = settle_regions(
        rt,
        alloc,
        parts,
        &rules,
        &batch,
        WORKERS,
        &FreePlaces,
    ) else {
        return None;
    };
    tell_shifts(teller, &shifts).ok()?;
    let replies = closed.replies.as_slice();
    let threads = WORKERS as usize;
    let Ok(pieces) = write_report_pieces(rt, alloc, &closed.parts, &batch, replies, spare, threads)
    else {
        return None;
    };
    Some(pieces)
}

/// The whole input, as one piece.
fn read_input<R: Read>(alloc: Global, reader: &mut R) -> Option<Vec<Vec<u8>>> {
    let mut text = Vec::new(alloc);
    reader.read_to_end(&mut text).ok()?;
    let mut pieces = Vec::new(alloc);
    pieces.push(text).ok()?;
    Some(pieces)
}

/// Reads the whole input, and writes the report of the day that it describes.
///
/// # Errors
/// [`Unanswered`] if the input can't be read or is no day text, if workers can't settle it, or if something can't be
/// written.
fn answer<T: Threads + Sync, R: Read, W: Write, E: Write>(
    rt: &T,
    alloc: Global,
    reader: &mut R,
    writer: &mut W,
    teller: &mut E,
) -> Result<(), Unanswered> {
    let Some(input) = read_input(alloc, reader) else {
        return Err(Unanswered);
    };
    let Ok(day) = read_day_of_pieces(rt, alloc, &input, WORKERS as usize, LEAST_PART) else {
        return Err(Unanswered);
    };
    let Some(pieces) = report_by_workers(rt, alloc, day, input, teller) else {
        return Err(Unanswered);
    };
    for piece in pieces.iter() {
        let Ok(()) = writer.write_all(piece.as_slice()) else {
            return Err(Unanswered);
        };
    }
    writer.flush().or(Err(Unanswered))
}

fn main(rt: HostRuntime) -> ExitCode {
    match answer(
        &rt,
        rt.alloc(),
        &mut rt.stdin(),
        &mut rt.stdout(),
        &mut rt.stderr(),
    ) {
        Ok(()) => ExitCode::SUCCESS,
        Err(Unanswered) => ExitCode::FAILURE,
    }
}
