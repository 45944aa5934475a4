//! Settling by workers that are delayed, and what is looked at.

use crate::gates::{Delays, Noting};
use crate::stop::{Stop, number_at, tell, told};
use crate::ways::{Lane, by_regions, by_stealing, close_in_place, joined, read, read_in_lists};
use reg_book::settle_plain;
use reg_cuts::cut_near;
use reg_plan::Plan;
use reg_text::DayInput;
use std::alloc::{AllocError, Global};
use std::io::Write;
use std::sync::Wait;
use std::thread::Threads;

// What stands in front of each day text but the first, and at its beginning.
const START: [&[u8]; 1] = [b"\nformat,"];

// Notes how often each place was run.
fn note_places(times: &mut [u32], shift: &Lane) {
    for place in shift.places.iter() {
        if let Some(count) = times.get_mut(*place as usize) {
            *count = count.saturating_add(1);
        }
    }
}

// Whether each place of the day is in these shifts, once.
fn are_whole(alloc: Global, day: &DayInput, shifts: &[Lane]) -> Result<bool, AllocError> {
    let mut times = Vec::from_elem(alloc, 0, day.batch.len() as usize + 1)?;
    for shift in shifts {
        note_places(times.as_mut_slice(), shift);
    }
    Ok(times.iter().skip(1).all(|count| *count == 1))
}

// What a run by workers that were noted is like, in a word: `same` if it is as it has to be.
fn judge(
    alloc: Global,
    day: &DayInput,
    gate: &Noting,
    shifts: &[Lane],
) -> Result<&'static str, Stop> {
    if !are_whole(alloc, day, shifts)? {
        return Ok("a place is not run once");
    }
    if !shifts.iter().all(|shift| gate.is_followed(shift)) {
        return Ok("a shift is not what its worker entered with");
    }
    let order = gate.order(alloc)?;
    let Ok(plan) = Plan::of(alloc, &day.batch, day.book.directory()) else {
        return Err(Stop::Short);
    };
    match plan.check_order(alloc, order.as_slice()) {
        Ok(()) => Ok("same"),
        Err(_) => Ok("the order of entering is not legal"),
    }
}

// What the days of a text leave that are settled one instruction after another: the settled day, and the closed one.
#[derive(Drop)]
struct Wanted {
    settled: String,
    closed: String,
}

impl Wanted {
    fn of(alloc: Global, text: &[u8]) -> Result<Wanted, Stop> {
        let day = read(alloc, text)?;
        let Ok(settled) = settle_plain(alloc, &day.book, &day.rules, &day.batch) else {
            return Err(Stop::Short);
        };
        Ok(Wanted {
            settled: told(alloc, &settled)?,
            closed: told(alloc, &close_in_place(alloc, day)?)?,
        })
    }
}

// Settles by workers that are delayed, and answers in a word whether that is as it has to be.
fn try_settling<R: Threads + Wait + Sync>(
    rt: &R,
    alloc: Global,
    day: &DayInput,
    workers: u32,
    delays: Delays,
    wanted: &str,
) -> Result<&'static str, Stop> {
    let gate = Noting::of(alloc, day.batch.len(), delays)?;
    let (settled, shifts) = by_stealing(rt, alloc, day, workers, &gate)?;
    if told(alloc, &settled)?.as_str() != wanted {
        return Ok("another day");
    }
    judge(alloc, day, &gate, shifts.as_slice())
}

// The same, but the workers own regions of the text's own book.
fn try_regions<R: Threads + Sync>(
    rt: &R,
    alloc: Global,
    text: &[u8],
    day: &DayInput,
    workers: u32,
    delays: Delays,
    wanted: &str,
) -> Result<&'static str, Stop> {
    let gate = Noting::of(alloc, day.batch.len(), delays)?;
    let parts = read_in_lists(rt, alloc, text, workers)?;
    let (closed, shifts) = by_regions(rt, alloc, parts, workers, &gate)?;
    if told(alloc, &joined(alloc, closed)?)?.as_str() != wanted {
        return Ok("another closed day");
    }
    if !gate.is_left() {
        return Ok("a worker did not leave as it had entered");
    }
    judge(alloc, day, &gate, shifts.as_slice())
}

// Tries to settle by workers that are delayed, in both ways, and writes whether that is as it has to be.
fn try_delayed<R: Threads + Wait + Sync, W: Write>(
    rt: &R,
    alloc: Global,
    text: &[u8],
    day: &DayInput,
    workers: u32,
    delays: Delays,
    wanted: &Wanted,
    writer: &mut W,
) -> Result<(), Stop> {
    let mut word = try_settling(rt, alloc, day, workers, delays, wanted.settled.as_str())?;
    if word == "same" {
        word = try_regions(
            rt,
            alloc,
            text,
            day,
            workers,
            delays,
            wanted.closed.as_str(),
        )?;
    }
    tell(writer, &word)
}

/// Tries so often to settle by workers that are delayed, with another seed each time, if delays are drawn.
pub(crate) fn try_stealing<R: Threads + Wait + Sync, W: Write>(
    rt: &R,
    alloc: Global,
    text: &[u8],
    day: &DayInput,
    words: &[String],
    writer: &mut W,
) -> Result<(), Stop> {
    let workers = number_at(words, 0)?;
    let held_up = number_at(words, 1)?;
    let mut seed = number_at(words, 2)?;
    let wanted = Wanted::of(alloc, text)?;
    for _ in 0..number_at(words, 3)? {
        let delays = Delays { held_up, seed };
        try_delayed(rt, alloc, text, day, workers, delays, &wanted, writer)?;
        if seed != 0 {
            seed = seed.wrapping_add(1);
        }
    }
    Ok(())
}

// Tries a drawn day once. The seed says how many workers there are, which of them is held up, and how the others are
// delayed.
fn try_drawn<R: Threads + Wait + Sync, W: Write>(
    rt: &R,
    alloc: Global,
    text: &[u8],
    seed: u32,
    writer: &mut W,
) -> Result<(), Stop> {
    let day = read(alloc, text)?;
    let wanted = Wanted::of(alloc, text)?;
    let workers = 1 + seed % 8;
    let delays = Delays {
        held_up: seed / 8 % 8,
        seed,
    };
    try_delayed(rt, alloc, text, &day, workers, delays, &wanted, writer)
}

/// Tries each of several day texts that stand one behind another, at most so many, with rising seeds.
pub(crate) fn try_each<R: Threads + Wait + Sync, W: Write>(
    rt: &R,
    alloc: Global,
    texts: &[u8],
    words: &[String],
    writer: &mut W,
) -> Result<(), Stop> {
    let mut seed = number_at(words, 0)?;
    let mut rest = texts;
    for _ in 0..number_at(words, 1)? {
        if rest.is_empty() {
            break;
        }
        let (text, behind) = cut_near(rest, &START, 0);
        try_drawn(rt, alloc, text, seed, writer)?;
        seed = seed.wrapping_add(1);
        rest = behind;
    }
    Ok(())
}
