//! Makes calls that take memory, each between the lines `begin` and `end`, and writes how it ended.
//! `cases/run-refusals` starts it where the memory or the thread that a call asks for is refused.
//!
//! The words name calls of the crates below, such as `settle_plain`, and some have a number behind a colon, such as
//! `settle_with:2`: mostly that of the workers. The day text of standard input is what each call is made on. After a
//! call that was refused something the program writes `unchanged` if all that the call was lent is as it was before,
//! and makes the call again. At last it writes `right` if the call left what it is to leave: a settled day as settling
//! one instruction after another leaves it, anything else as the same call, or the one by a single thread, leaves it
//! where nothing is refused. Otherwise it writes `changed` or `wrong`.
//! The calls of the crates below `reg_front` are in `test_calls`.
//!
//! The exit status is 0 after all words, 2 if the words can't be read, 3 if a word or the text is not taken, 4 if
//! memory ran out outside the calls, and 5 if the output is not taken.
#![tactic(auto)]

mod front;
mod words;

use crate::words::try_word;
use std::alloc::{AllocError, Global};
use std::env;
use std::io::{Read, Write};
use std::process::ExitCode;
use std::sync::Wait;
use std::thread::Threads;
use test_calls::Stop;

// Reads the text, and tries the calls of these words on it.
fn serve<T: Threads + Wait + Sync, R: Read, W: Write>(
    rt: &T,
    alloc: Global,
    words: &[String],
    reader: &mut R,
    writer: &mut W,
) -> Result<(), Stop> {
    let mut text = Vec::new(alloc);
    if reader.read_to_end(&mut text).is_err() {
        return Err(Stop::Input);
    }
    for word in words {
        try_word(rt, alloc, word.as_str(), text.as_slice(), writer)?;
    }
    Ok(())
}

fn main(rt: HostRuntime) -> ExitCode {
    let Ok(arguments) = env::args(&rt) else {
        return ExitCode::from(2);
    };
    let words: Result<Vec<String>, AllocError> = arguments.skip(1).collect(rt.alloc());
    let Ok(words) = words else {
        return ExitCode::from(4);
    };
    let status = match serve(
        &rt,
        rt.alloc(),
        words.as_slice(),
        &mut rt.stdin(),
        &mut rt.stdout(),
    ) {
        Ok(()) => 0,
        Err(Stop::Input) => 3,
        Err(Stop::Short) => 4,
        Err(Stop::Output) => 5,
    };
    ExitCode::from(status)
}
