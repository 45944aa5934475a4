//! One command, from its input to its output.

ghost use Rattle.std.specs.Prelude.{◌≡◌, true};
ghost use Rattle.std.specs.Result.{result_err};
ghost use Rattle.reg_base.specs.Workers.{may_work};
ghost use Rattle.reg_front.specs.Streams.{CanFail};
ghost use Rattle.reg_front.specs.Runs.{CarriesOut};
ghost use Rattle.reg_front.specs.Ranging.{ranged_stream};

use crate::command::Command;
use crate::fault::FrontFault;
use crate::input::read_input;
use crate::pieces::write_pieces;
use crate::ranged::Ranged;
use crate::ranges::ReadAt;
use crate::stream::{Sink, Source};
use crate::texts::{Used, make_text};
use std::alloc::Global;
use std::io::Read;
use std::thread::Threads;
use std::{mem, thread};

/// Reads the whole input, carries out the command on the day that it describes, and writes the command's text. The
/// whole text is made before its first byte is written.
///
/// # Errors
/// - `Read` if a call of the reader fails, or the input has more than 2^30 bytes.
/// - `Row` if the input is not a day text, with the first faulty row and the first cause that applies to it.
/// - `Workers` if the input is a day text and the number of workers is not 1 to 8.
/// - `NoAccount` if the input is a day text and the account of a statement is not in its book.
/// - `NoMemory` if memory ran out.
/// - `WriteFailed` if a call of the writer fails, the last one among them, which flushes it. A prefix of the text has
///   then been written.
///
/// A failed call is not tried again. After all faults except `WriteFailed`, nothing has been written. It is no fault if
/// a thread can't be started: the others do its work. So `NoThread` is never answered. Threads are started, and joined,
/// and none waits for another one: this call returns, if those of the reader and the writer do.
pub fn run<T: Threads + Sync, R: Source, W: Sink>(
    rt: &T,
    alloc: Global,
    reader: &mut R,
    writer: &mut W,
    command: Command,
) -> Result<(), FrontFault>
    requires reader { CanFail (R.stream reader.old) }
    requires writer { CanFail (W.stream writer.old) }
    ensures { CarriesOut command (result_err result) (R.stream reader.old) (R.stream reader.new) (W.stream writer.old)
        (W.stream writer.new) }
{
    run_and_keep(rt, alloc, reader, writer, &command)?;
    Ok(())
}

/// The same as [`run`], of a source that may be a file, which is read ahead in pieces if it is long; and the memory
/// that the command has used is not freed. A program that ends now need not free the lists of each account one after
/// another: the system takes all its memory back at once.
///
/// # Errors
/// As [`run`].
pub fn run_without_freeing<
    T: Threads + Sync,
    R: Source,
    F: ReadAt + Sync + Drop,
    S: Read + Drop,
    W: Sink,
>(
    rt: &T,
    alloc: Global,
    reader: &mut Ranged<R, F, S>,
    writer: &mut W,
    command: Command,
) -> Result<(), FrontFault>
    requires reader { CanFail (ranged_stream R.stream reader.old) }
    requires writer { CanFail (W.stream writer.old) }
    ensures { CarriesOut command (result_err result) (ranged_stream R.stream reader.old)
        (ranged_stream R.stream reader.new) (W.stream writer.old) (W.stream writer.new) }
{
    reader.read_ahead(rt, alloc, threads_of(rt, &command) as usize);
    mem::forget(run_and_keep(rt, alloc, reader, writer, &command)?);
    Ok(())
}

// Runs the command, and answers what it has used.
fn run_and_keep<T: Threads + Sync, R: Source, W: Sink>(
    rt: &T,
    alloc: Global,
    reader: &mut R,
    writer: &mut W,
    command: &Command,
) -> Result<Used, FrontFault>
    requires reader { CanFail (R.stream reader.old) }
    requires writer { CanFail (W.stream writer.old) }
    ensures { CarriesOut command.now (result_err result) (R.stream reader.old) (R.stream reader.new)
        (W.stream writer.old) (W.stream writer.new) }
{
    let threads = threads_of(rt, command);
    let (day, input) = read_input(rt, alloc, reader, threads as usize)?;
    let used = make_text(rt, alloc, day, input, command, threads)?;
    if write_pieces(writer, used.pieces.as_slice(), used.text.as_slice()).is_err() {
        return Err(FrontFault::WriteFailed);
    }
    Ok(used)
}

// By how many threads a command reads its input and makes its text: a settlement by as many as it has workers, within
// their limits, and anything else by as many as there are processors, at most 8.
fn threads_of<T: Threads>(rt: &T, command: &Command) -> u32
    ensures { may_work result ≡ true }
{
    if let Command::Settle { workers } = *command {
        return workers.clamp(1, 8);
    }
    let Ok(count) = thread::available_parallelism(rt) else {
        return 1;
    };
    match u32::try_from(count.get()) {
        Ok(count) => count.clamp(1, 8),
        Err(_) => 8,
    }
}
