//! A command, from a fixed input into a digest.

use reg_front::{Command, Counted, FrontFault, run};
use std::alloc::Global;
use std::io::Write;
use std::sync::Wait;
use std::thread::Threads;
use test_calls::{Digest, Ended, Stop, try_threads};

// How a command ended that failed. What is wrong with the text or the words is its answer, as a text is.
fn how_failed(fault: FrontFault) -> Ended {
    match fault {
        FrontFault::NoMemory => Ended::NoMemory,
        FrontFault::NoThread => Ended::NoThread,
        FrontFault::Row { .. } | FrontFault::Workers | FrontFault::NoAccount => {
            let mut told = Digest::new();
            let _ = write!(told, "{fault}");
            Ended::Done(told)
        }
        FrontFault::Read | FrontFault::WriteFailed => Ended::Otherwise,
    }
}

// `run`. It reads from a slice, whose length it is told, and writes into a digest, which takes no memory. A command
// that is refused something writes nothing.
fn run_command<R: Threads + Wait + Sync>(
    rt: &R,
    alloc: Global,
    text: &[u8],
    command: &Command,
) -> Ended {
    let mut rest = text;
    let mut written = Digest::new();
    let mut reader = Counted::new(&mut rest).expecting(text.len());
    let mut writer = Counted::new(&mut written);
    let answer = run(rt, alloc, &mut reader, &mut writer, *command);
    match answer {
        Ok(()) => Ended::Done(written),
        Err(fault) if written == Digest::new() => how_failed(fault),
        Err(_) => Ended::Otherwise,
    }
}

// Tries `run` with a command. What it writes is wanted as another command writes it.
fn try_run<R: Threads + Wait + Sync, W: Write>(
    rt: &R,
    alloc: Global,
    text: &[u8],
    command: &Command,
    model: &Command,
    writer: &mut W,
) -> Result<(), Stop> {
    let wanted = run_command(rt, alloc, text, model);
    let call = || run_command(rt, alloc, text, command);
    try_threads(&text, call, wanted, writer)
}

/// Tries `run` with a command.
pub(crate) fn try_command<R: Threads + Wait + Sync, W: Write>(
    rt: &R,
    alloc: Global,
    text: &[u8],
    command: Command,
    writer: &mut W,
) -> Result<(), Stop> {
    try_run(rt, alloc, text, &command, &command, writer)
}

/// Tries `run` that settles by so many workers. What it writes is wanted as one worker writes it, who starts no thread.
pub(crate) fn try_settle<R: Threads + Wait + Sync, W: Write>(
    rt: &R,
    alloc: Global,
    text: &[u8],
    workers: u32,
    writer: &mut W,
) -> Result<(), Stop> {
    let command = Command::Settle { workers };
    let alone = Command::Settle { workers: 1 };
    try_run(rt, alloc, text, &command, &alone, writer)
}
