//! Settles one day of an emission allowance registry: reads a day text from standard input and writes the text of a
//! command to standard output. A fault is one line on standard error.
#![tactic(auto)]

ghost use Rattle.std.specs.IoError.{error_kind};
ghost use Rattle.std.specs.Prelude.{◌≡◌, ◌≢◌, ◌⊎◌, IfOk, MatchResult, drop, map};
ghost use Rattle.std.specs.Process.{exit_status};
ghost use Rattle.std.specs.Vec.Iter.{into_iter_items};
ghost use Rattle.std.specs.declared.io.ErrorKind.TheVariants.{OutOfMemory as MemoryRanOut};
ghost use Rattle.clap.specs.Words.{kind_of};
ghost use Rattle.clap.specs.declared.error.kind.ErrorKind.TheVariants.{DisplayHelp, DisplayVersion, OutOfMemory};
ghost use Rattle.reg_front.specs.Counting.{counted_stream};
ghost use Rattle.reg_front.specs.Lines.{IsTold};
ghost use Rattle.reg_front.specs.Ranging.{ranged_stream};
ghost use Rattle.reg_front.specs.Streams.{CanFail};
ghost use Rattle.reg_front.specs.declared.fault.FrontFault.TheVariants.{NoMemory};
ghost use Rattle.registry.specs.Serving.{IsEnded, IsUnread, Serves, ServesArguments, streams_of};
ghost use Rattle.registry.specs.Statuses.{exit_status_of};

mod input;
mod laws;
mod system;
mod words;

use crate::input::input_of;
use crate::system::open_files;
use crate::words::read_words;
use clap::error::ErrorKind;
use reg_front::{
    Counted, FrontFault, Ranged, ReadAt, Sink, Source, run_without_freeing, tell_fault,
};
use std::alloc::{AllocError, Global};
use std::convert::AsStr;
use std::env::Args;
use std::io::{Read, Write};
use std::process::ExitCode;
use std::thread::Threads;
use std::{env, io};

/// Carries out the command of these words, which stand without the program's name: reads a day text from `reader`
/// and writes the command's text to `writer`. Help and the version go to `writer` too. Each stream is any reader or
/// writer, whose failed calls are counted.
///
/// Answers the exit status of the program: 0 after the command's text, help or the version; 2 if the words, the number
/// of workers or the account are not taken; 3 if the input is no day text; 4 if memory ran out; 5 if the input can't be
/// read or has more than 2^30 bytes, or if the command's text can't be written. A fault is written as one line to
/// `faults`, and why words are not taken as a longer text, before any input is read. The status is the same if one of
/// these, help or the version can't be written.
///
/// The memory that the command has used is not freed: the program ends with it.
pub fn serve<
    T: Threads + Sync,
    S: AsStr,
    R: Source,
    I: ReadAt + Sync + Drop,
    P: Read + Drop,
    W: Write,
    F: Write,
>(
    rt: &T,
    alloc: Global,
    words: &[S],
    reader: &mut Ranged<R, I, P>,
    writer: &mut Counted<W>,
    faults: &mut Counted<F>,
) -> u8
    requires reader { CanFail (ranged_stream R.stream reader.old) }
    requires writer { CanFail (counted_stream W.contents writer.old) }
    requires faults { CanFail (counted_stream F.contents faults.old) }
    ensures { Serves (map S.text words.entry.now) result
        (streams_of W.contents F.contents (ranged_stream R.stream reader.old) writer.old faults.old)
        (streams_of W.contents F.contents (ranged_stream R.stream reader.new) writer.new faults.new) }
{
    match read_words(alloc, words) {
        Ok(command) => match run_without_freeing(rt, alloc, reader, writer, command) {
            Ok(()) => 0,
            Err(fault) => tell(fault, faults),
        },
        Err(error) => show(&error, writer, faults),
    }
}

// Shows help, or why the words are not taken, and answers the status.
fn show<W: Write, F: Write>(
    error: &clap::Error,
    writer: &mut Counted<W>,
    faults: &mut Counted<F>,
) -> u8
    requires { CanFail (counted_stream F.contents faults.old) }
    ensures ended { IsEnded result (counted_stream W.contents writer.old) (counted_stream W.contents writer.new)
        (counted_stream F.contents faults.old) (counted_stream F.contents faults.new) }
    ensures help { result ≡ 0 → (kind_of error.now ≡ DisplayHelp) ⊎ (kind_of error.now ≡ DisplayVersion) }
    ensures memory { kind_of error.now ≡ OutOfMemory → result ≡ 4 }
{
    if error.kind() == ErrorKind::OutOfMemory {
        return tell(FrontFault::NoMemory, faults);
    }
    if error.use_stderr() {
        let _ = write!(faults, "{error}");
        return WORDS_NOT_TAKEN;
    }
    let _ = write!(writer, "{error}");
    let _ = Write::flush(writer);
    0
}

// Writes the line of a fault, and answers its status.
fn tell<F: Sink>(fault: FrontFault, faults: &mut F) -> u8
    requires { CanFail (F.stream faults.old) }
    ensures status { result ≡ exit_status_of fault }
    ensures line { IsTold fault (F.stream faults.old) (F.stream faults.new) }
{
    tell_fault(fault, faults);
    status(fault)
}

// The exit status if the words are not taken.
const WORDS_NOT_TAKEN: u8 = 2;

// The exit status of a fault.
fn status(fault: FrontFault) -> u8
    ensures { result ≡ exit_status_of fault }
{
    match fault {
        FrontFault::Workers | FrontFault::NoAccount => WORDS_NOT_TAKEN,
        FrontFault::Row { .. } => 3,
        FrontFault::NoThread | FrontFault::NoMemory => 4,
        FrontFault::Read | FrontFault::WriteFailed => 5,
    }
}

// What is said if a word is not UTF-8.
const NOT_UTF8: &str = "error: a word is not UTF-8\n\nFor more information, try '--help'.\n";

// The words behind the program's name.
fn words_behind_name(alloc: Global, arguments: Args) -> Result<Vec<String>, AllocError>
    ensures { IfOk result (λ words. words.items ≡ drop 1 (into_iter_items arguments)) }
{
    arguments.skip(1).collect(alloc)
}

// Says why the system gave no words, and answers the status.
fn tell_unread<F: Write>(fault: &io::Error, faults: &mut Counted<F>) -> u8
    requires { CanFail (counted_stream F.contents faults.old) }
    ensures memory { error_kind fault.now ≡ MemoryRanOut → result ≡ 4 }
    ensures word { error_kind fault.now ≢ MemoryRanOut → result ≡ 2 }
    ensures told { result ≡ 4 → IsTold NoMemory (counted_stream F.contents faults.old)
        (counted_stream F.contents faults.new) }
{
    if fault.kind() == io::ErrorKind::OutOfMemory {
        return tell(FrontFault::NoMemory, faults);
    }
    let _ = write!(faults, "{NOT_UTF8}");
    WORDS_NOT_TAKEN
}

// Serves with the words behind the program's name, if there is memory for them.
fn serve_arguments<
    T: Threads + Sync,
    R: Source,
    I: ReadAt + Sync + Drop,
    P: Read + Drop,
    W: Write,
    F: Write,
>(
    rt: &T,
    alloc: Global,
    arguments: Args,
    reader: &mut Ranged<R, I, P>,
    writer: &mut Counted<W>,
    faults: &mut Counted<F>,
) -> u8
    requires reader { CanFail (ranged_stream R.stream reader.old) }
    requires writer { CanFail (counted_stream W.contents writer.old) }
    requires faults { CanFail (counted_stream F.contents faults.old) }
    ensures { ServesArguments (into_iter_items arguments) result
        (streams_of W.contents F.contents (ranged_stream R.stream reader.old) writer.old faults.old)
        (streams_of W.contents F.contents (ranged_stream R.stream reader.new) writer.new faults.new) }
{
    match words_behind_name(alloc, arguments) {
        Ok(words) => serve(rt, alloc, words.as_slice(), reader, writer, faults),
        Err(AllocError) => tell(FrontFault::NoMemory, faults),
    }
}

/// The whole program, started with these arguments, of which the first is its name: [`serve`] with the words behind it.
/// If the system gives no arguments, because one is no UTF-8 or memory ran out, no input is read, and the exit status
/// is 2 or 4.
pub fn serve_program<
    T: Threads + Sync + AllocGlobal,
    R: Source,
    I: ReadAt + Sync + Drop,
    P: Read + Drop,
    W: Write,
    F: Write,
>(
    rt: &T,
    arguments: io::Result<Args>,
    reader: &mut Ranged<R, I, P>,
    writer: &mut Counted<W>,
    faults: &mut Counted<F>,
) -> ExitCode
    requires reader { CanFail (ranged_stream R.stream reader.old) }
    requires writer { CanFail (counted_stream W.contents writer.old) }
    requires faults { CanFail (counted_stream F.contents faults.old) }
    ensures { MatchResult arguments
        (λ given. ServesArguments (into_iter_items given) (exit_status result)
        (streams_of W.contents F.contents (ranged_stream R.stream reader.old) writer.old faults.old)
        (streams_of W.contents F.contents (ranged_stream R.stream reader.new) writer.new faults.new))
        (λ fault. IsUnread (error_kind fault) (exit_status result)
        (streams_of W.contents F.contents (ranged_stream R.stream reader.old) writer.old faults.old)
        (streams_of W.contents F.contents (ranged_stream R.stream reader.new) writer.new faults.new)) }
{
    let status = match arguments {
        Ok(given) => serve_arguments(rt, rt.alloc(), given, reader, writer, faults),
        Err(fault) => tell_unread(&fault, faults),
    };
    ExitCode::from(status)
}

fn main(rt: HostRuntime) -> ExitCode {
    let mut reader = input_of(rt.stdin(), rt.stderr(), open_files(&rt));
    let mut writer = Counted::new(rt.stdout());
    let mut faults = Counted::new(rt.stderr());
    serve_program(&rt, env::args(&rt), &mut reader, &mut writer, &mut faults)
}
