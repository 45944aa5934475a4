//! The day that an input describes.

ghost use Rattle.std.specs.Prelude.{◌≡◌, ◌+◌, IfOk, IfErr, IfSome, OnOk};
ghost use Rattle.reg_cuts.specs.Rows.{rows_in_text};
ghost use Rattle.reg_text.specs.Reading.{IsReading};
ghost use Rattle.reg_text.specs.Inputs.{day_of_parts};
ghost use Rattle.reg_front.specs.Streams.{CanFail};
ghost use Rattle.reg_front.specs.Devices.{IsReadWhole};
ghost use Rattle.reg_front.specs.Runs.{IsReadingFault, Reads};

use crate::device::read_pieces;
use crate::fault::FrontFault;
use crate::stream::Source;
use reg_text::{DayParts, LEAST_PART, read_day_of_pieces};
use std::alloc::Global;
use std::thread::Threads;

/// The day that the whole input describes, read by at most so many threads, and the pieces of the input, whose memory
/// is used again for the output.
pub(crate) fn read_input<T: Threads + Sync, R: Source>(
    rt: &T,
    alloc: Global,
    reader: &mut R,
    threads: usize,
) -> Result<(DayParts, Vec<Vec<u8>>), FrontFault>
    requires { CanFail (R.stream reader.old) }
    ensures ok { IfOk result
        (λ read. IfSome (R.stream reader.old).bytes (λ input. IsReading (rows_in_text input) (day_of_parts read.0))) }
    ensures whole { OnOk result (IsReadWhole (R.stream reader.old) (R.stream reader.new)) }
    ensures follows { IfOk result (λ read. read.0.batch.base + 1 ≡ read.0.parts.next) }
    ensures err { IfErr result (IsReadingFault (R.stream reader.old).bytes) }
    ensures read { IfErr result (λ fault. Reads fault (R.stream reader.old) (R.stream reader.new)) }
{
    let pieces = read_pieces(alloc, reader)?;
    let day = read_day_of_pieces(rt, alloc, pieces.as_slice(), threads, LEAST_PART)?;
    Ok((day, pieces))
}
