//! The words that name calls.

use crate::front::{try_command, try_settle};
use reg_base::AccountNo;
use reg_front::Command;
use std::alloc::Global;
use std::io::Write;
use std::sync::Wait;
use std::thread::Threads;
use test_calls::{Stop, tell, try_named};

// The name in a word, and the number behind its colon, or 0 if it has none.
fn parts_of(word: &str) -> Result<(&str, u32), Stop> {
    let Some((name, number)) = word.split_once(':') else {
        return Ok((word, 0));
    };
    match number.parse::<u32>() {
        Ok(number) => Ok((name, number)),
        Err(_) => Err(Stop::Input),
    }
}

/// Tries the call of a word on a day text.
pub(crate) fn try_word<R: Threads + Wait + Sync, W: Write>(
    rt: &R,
    alloc: Global,
    word: &str,
    text: &[u8],
    writer: &mut W,
) -> Result<(), Stop> {
    let (name, number) = parts_of(word)?;
    tell(writer, &word)?;
    if let Some(command) = name.strip_prefix("command_") {
        return try_run_of(rt, alloc, command, number, text, writer);
    }
    try_named(rt, alloc, name, number, text, writer)
}

// Tries `run` with the command of this name.
fn try_run_of<R: Threads + Wait + Sync, W: Write>(
    rt: &R,
    alloc: Global,
    name: &str,
    number: u32,
    text: &[u8],
    writer: &mut W,
) -> Result<(), Stop> {
    match name {
        "settle" => try_settle(rt, alloc, text, number, writer),
        "workers" => try_command(rt, alloc, text, Command::Settle { workers: number }, writer),
        "plan" => try_command(rt, alloc, text, Command::Plan, writer),
        "statement" => try_run_of_statement(rt, alloc, number, text, writer),
        "figures" => try_command(rt, alloc, text, Command::Figures, writer),
        "totals" => try_command(rt, alloc, text, Command::Totals, writer),
        _ => Err(Stop::Input),
    }
}

fn try_run_of_statement<R: Threads + Wait + Sync, W: Write>(
    rt: &R,
    alloc: Global,
    number: u32,
    text: &[u8],
    writer: &mut W,
) -> Result<(), Stop> {
    let Some(account) = AccountNo::new(number) else {
        return Err(Stop::Input);
    };
    try_command(rt, alloc, text, Command::Statement { account }, writer)
}
