//! Runs the instructions of a day in orders that are handed in, and by schedules of workers that numbers choose.

use crate::schedules::{Ended, run_schedule};
use crate::stop::{Stop, tell, told};
use reg_book::{Settled, settle_plain};
use reg_graph::{Context, MOST_WORKERS, RunFault, Unnamed, run_order};
use reg_plan::Plan;
use reg_text::DayInput;
use std::alloc::{AllocError, Global};
use std::io::Write;

// The numbers of a word, which commas part. Anything else than a digit counts as a comma.
fn numbers(alloc: Global, word: &str) -> Result<Vec<u32>, AllocError> {
    let mut numbers = Vec::new(alloc);
    let mut number: u32 = 0;
    for byte in word.as_bytes() {
        if byte.is_ascii_digit() {
            number = number
                .saturating_mul(10)
                .saturating_add(u32::from(*byte - b'0'));
        } else {
            numbers.push(number)?;
            number = 0;
        }
    }
    numbers.push(number)?;
    Ok(numbers)
}

// The places of a day, in batch order.
fn places(alloc: Global, day: &DayInput) -> Result<Vec<u32>, AllocError> {
    let mut places = Vec::with_capacity(alloc, day.batch.len() as usize)?;
    for place in 0..day.batch.len() {
        places.push(place + 1)?;
    }
    Ok(places)
}

// Runs the instructions in an order, on values of their own.
fn run(alloc: Global, day: &DayInput, order: &[u32]) -> Result<Settled, RunFault> {
    let Ok(context) = Context::<Unnamed>::of(alloc, &day.book, &day.rules, &day.batch) else {
        return Err(RunFault::NoMemory);
    };
    run_order(alloc, &context, order)
}

/// Makes the plan of the day.
pub(crate) fn make_plan(alloc: Global, day: &DayInput) -> Result<(), Stop> {
    match Plan::of(alloc, &day.batch, day.book.directory()) {
        Ok(_) => Ok(()),
        Err(_) => Err(Stop::Short),
    }
}

/// Runs the instructions in batch order, on values of their own.
pub(crate) fn run_batch(alloc: Global, day: &DayInput) -> Result<(), Stop> {
    let order = places(alloc, day)?;
    match run(alloc, day, order.as_slice()) {
        Ok(_) => Ok(()),
        Err(_) => Err(Stop::Short),
    }
}

/// Runs the instructions by a schedule of four workers.
pub(crate) fn run_four(alloc: Global, day: &DayInput) -> Result<(), Stop> {
    match run_schedule(alloc, day, 4, 1) {
        Ended::Settled(_) => Ok(()),
        Ended::NotOver | Ended::NotBegun => Err(Stop::Short),
    }
}

// How a settled day compares with the one that settling one instruction after another gives.
fn compared(alloc: Global, settled: &Settled, plain: &str) -> Result<&'static str, Stop> {
    let text = told(alloc, settled)?;
    Ok(if text.as_str() == plain {
        "same"
    } else {
        "other"
    })
}

// Runs the instructions in an order, and writes what comes of it.
fn try_order<W: Write>(
    alloc: Global,
    day: &DayInput,
    plain: &str,
    order: &[u32],
    writer: &mut W,
) -> Result<(), Stop> {
    match run(alloc, day, order) {
        Ok(settled) => tell(writer, &compared(alloc, &settled, plain)?),
        Err(fault) => tell(writer, &fault),
    }
}

// Runs the instructions by the schedule of two numbers, the workers and what chooses the events, and writes what comes
// of it.
fn try_schedule<W: Write>(
    alloc: Global,
    day: &DayInput,
    plain: &str,
    chosen: &[u32],
    writer: &mut W,
) -> Result<(), Stop> {
    let (Some(workers), Some(seed)) = (chosen.first(), chosen.get(1)) else {
        return Err(Stop::Input);
    };
    if *workers == 0 || *workers > MOST_WORKERS {
        return Err(Stop::Input);
    }
    match run_schedule(alloc, day, *workers, *seed) {
        Ended::Settled(settled) => tell(writer, &compared(alloc, &settled, plain)?),
        Ended::NotOver => tell(writer, &"not over"),
        Ended::NotBegun => Err(Stop::Short),
    }
}

// Runs the instructions in the order, or by the schedule, of a word, and writes what comes of it.
fn try_word<W: Write>(
    alloc: Global,
    day: &DayInput,
    plain: &str,
    word: &str,
    writer: &mut W,
) -> Result<(), Stop> {
    let numbers = numbers(alloc, word)?;
    if word.contains(':') {
        return try_schedule(alloc, day, plain, numbers.as_slice(), writer);
    }
    try_order(alloc, day, plain, numbers.as_slice(), writer)
}

/// Tries each order and each schedule of these words.
pub(crate) fn try_orders<W: Write>(
    alloc: Global,
    day: &DayInput,
    words: &[String],
    writer: &mut W,
) -> Result<(), Stop> {
    let Ok(settled) = settle_plain(alloc, &day.book, &day.rules, &day.batch) else {
        return Err(Stop::Short);
    };
    let plain = told(alloc, &settled)?;
    for word in words {
        try_word(alloc, day, plain.as_str(), word.as_str(), writer)?;
    }
    Ok(())
}
