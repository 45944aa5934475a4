//! Settles the day text of standard input in several ways, to measure them beside each other and to try many, and tells
//! which worker ran what. `bench/orders.py` and `bench/workers.py` start it.
//!
//! The first word says what is done: `read` reads the text alone, `plain` settles one instruction after another,
//! `place` the same on the book's own accounts, `plan` makes the plan, `order` runs the instructions in batch order on
//! values of their own, `schedule` by a schedule of four workers, `levels` settles level by level, `stealing` by
//! workers that steal, `regions` by workers that own regions of the book. `lists` reads the text
//! into as many lists as the program does, and `list-regions` settles these by regions, as the program does. `lanes`
//! writes the regions that each worker owned, in order: whether it stole it, the places that it ran, and how many
//! microseconds it took.
//!
//! `orders` runs the instructions in each order that a further word lists, such as `2,1,3`, and writes a line for each:
//! `same` if the settled day is that of `plain`, or the fault. A word such as `4:17` stands for a schedule of 4 workers
//! whose events the number 17 chooses.
//!
//! `try` settles by workers that steal and are delayed before each run, and writes `same` if the settled day is that of
//! `plain`, each place was run once, the order in which workers entered the gate is legal, and each worker's shift is
//! what it entered with. Then it does the same by workers that own regions of the book, with the book that `place`
//! leaves; each of these must also leave with the place with which it entered.
//!
//! `each` does what `try` does with several day texts that stand one behind another, once with each, and writes a line
//! for each.
//!
//! For `levels`, `stealing`, `regions`, `lanes` and `try` the second word is the number of workers. For `lanes` the
//! third is a seed from which delays are drawn, or 0 for none. For `try` the third is a worker, counted from 0, that is
//! held up, or a higher number for none, the fourth a seed, or 0, and the fifth how often it is tried. For `each` the
//! second word is a seed, which is one more for each further day; it says how many workers there are, which of them is
//! held up, and how they are delayed. The third is the most days that are tried.
#![tactic(auto)]

mod gates;
mod orders;
mod schedules;
mod stop;
mod tries;
mod ways;

use crate::gates::{Delays, NOBODY, Timing};
use crate::orders::{make_plan, run_batch, run_four, try_orders};
use crate::stop::{Stop, number_at, tell};
use crate::tries::{try_each, try_stealing};
use crate::ways::{
    Lane, by_regions, by_stealing, close_in_parts, close_in_place, in_one_list, read, read_in_parts,
};
use reg_book::settle_plain;
use reg_regions::FreePlaces;
use reg_text::DayInput;
use reg_work::{FreeGate, settle_waves};
use std::alloc::{AllocError, Global};
use std::env;
use std::io::{Read, Write};
use std::process::ExitCode;
use std::sync::Wait;
use std::thread::Threads;
use std::time::Clock;

// Writes the places of a region that a worker ran, whose it was before, and how many microseconds it took.
fn tell_region<R: Clock, W: Write>(
    writer: &mut W,
    gate: &Timing<R>,
    stolen: bool,
    places: &[u32],
) -> Result<(), Stop> {
    let (Some(first), Some(last)) = (places.first(), places.last()) else {
        return Ok(());
    };
    let word = if stolen { "stolen" } else { "own" };
    if write!(writer, " {word}").is_err() {
        return Err(Stop::Output);
    }
    for place in places {
        if write!(writer, " {place}").is_err() {
            return Err(Stop::Output);
        }
    }
    if write!(writer, " took {}", gate.between(*first, *last)).is_err() {
        return Err(Stop::Output);
    }
    Ok(())
}

// Writes the regions that a worker ran.
fn tell_lane<R: Clock, W: Write>(
    writer: &mut W,
    gate: &Timing<R>,
    shift: &Lane,
) -> Result<(), Stop> {
    if write!(writer, "{}:", shift.worker).is_err() {
        return Err(Stop::Output);
    }
    for (index, region) in shift.regions.iter().enumerate() {
        let end = match shift.regions.get(index.saturating_add(1)) {
            Some(next) => next.before,
            None => shift.places.len(),
        };
        if let Some(places) = shift.places.get(region.before..end) {
            tell_region(writer, gate, region.stolen, places)?;
        }
    }
    tell(writer, &"")
}

// Writes which places each worker ran, with delays drawn from a seed, or none if it is 0.
fn tell_lanes<R: Threads + Clock + Sync, W: Write>(
    rt: &R,
    alloc: Global,
    day: DayInput,
    words: &[String],
    writer: &mut W,
) -> Result<(), Stop> {
    let delays = Delays {
        held_up: NOBODY,
        seed: number_at(words, 1)?,
    };
    let gate = Timing::of(rt, alloc, day.batch.len(), delays)?;
    let parts = in_one_list(alloc, day)?;
    let (_, shifts) = by_regions(rt, alloc, parts, number_at(words, 0)?, &gate)?;
    for shift in shifts.iter() {
        tell_lane(writer, &gate, shift)?;
    }
    Ok(())
}

fn settle_plainly(alloc: Global, day: &DayInput) -> Result<(), Stop> {
    match settle_plain(alloc, &day.book, &day.rules, &day.batch) {
        Ok(_) => Ok(()),
        Err(_) => Err(Stop::Short),
    }
}

fn settle_in_regions<R: Threads + Sync>(
    rt: &R,
    alloc: Global,
    day: DayInput,
    workers: u32,
) -> Result<(), Stop> {
    let parts = in_one_list(alloc, day)?;
    by_regions(rt, alloc, parts, workers, &FreePlaces)?;
    Ok(())
}

fn settle_levels<R: Threads + Wait>(
    rt: &R,
    alloc: Global,
    day: &DayInput,
    workers: u32,
) -> Result<(), Stop> {
    settle_waves(
        rt, alloc, &day.book, &day.rules, &day.batch, workers, &FreeGate,
    )?;
    Ok(())
}

fn settle_stealing<R: Threads + Wait + Sync>(
    rt: &R,
    alloc: Global,
    day: &DayInput,
    workers: u32,
) -> Result<(), Stop> {
    by_stealing(rt, alloc, day, workers, &FreeGate)?;
    Ok(())
}

// Does what the words say.
fn carry_out<R: Threads + Wait + Clock + Sync, W: Write>(
    rt: &R,
    alloc: Global,
    text: &[u8],
    words: &[String],
    writer: &mut W,
) -> Result<(), Stop> {
    let Some((first, rest)) = words.split_first() else {
        return Err(Stop::Input);
    };
    match first.as_str() {
        "each" => try_each(rt, alloc, text, rest, writer),
        "lists" => {
            read_in_parts(rt, alloc, text, number_at(rest, 0)?)?;
            Ok(())
        }
        "list-regions" => {
            close_in_parts(rt, alloc, text, number_at(rest, 0)?)?;
            Ok(())
        }
        _ => carry_out_day(rt, alloc, text, first.as_str(), rest, writer),
    }
}

// Does what the words say with the day that a text says.
fn carry_out_day<R: Threads + Wait + Clock + Sync, W: Write>(
    rt: &R,
    alloc: Global,
    text: &[u8],
    first: &str,
    rest: &[String],
    writer: &mut W,
) -> Result<(), Stop> {
    let day = read(alloc, text)?;
    match first {
        "read" => Ok(()),
        "place" => {
            close_in_place(alloc, day)?;
            Ok(())
        }
        "regions" => settle_in_regions(rt, alloc, day, number_at(rest, 0)?),
        "lanes" => tell_lanes(rt, alloc, day, rest, writer),
        "try" => try_stealing(rt, alloc, text, &day, rest, writer),
        _ => carry_out_on(rt, alloc, &day, first, rest, writer),
    }
}

// Does what the words say with a day that stays as it is.
fn carry_out_on<R: Threads + Wait + Sync, W: Write>(
    rt: &R,
    alloc: Global,
    day: &DayInput,
    first: &str,
    rest: &[String],
    writer: &mut W,
) -> Result<(), Stop> {
    match first {
        "plain" => settle_plainly(alloc, day),
        "plan" => make_plan(alloc, day),
        "order" => run_batch(alloc, day),
        "schedule" => run_four(alloc, day),
        "orders" => try_orders(alloc, day, rest, writer),
        "levels" => settle_levels(rt, alloc, day, number_at(rest, 0)?),
        "stealing" => settle_stealing(rt, alloc, day, number_at(rest, 0)?),
        _ => Err(Stop::Input),
    }
}

// Reads the day and does what the words say.
fn serve<T: Threads + Wait + Clock + Sync, R: Read, W: Write>(
    rt: &T,
    alloc: Global,
    words: &[String],
    reader: &mut R,
    writer: &mut W,
) -> Result<(), Stop> {
    let mut text = Vec::new(alloc);
    if reader.read_to_end(&mut text).is_err() {
        return Err(Stop::Input);
    }
    carry_out(rt, alloc, text.as_slice(), words, writer)
}

fn main(rt: HostRuntime) -> ExitCode {
    let Ok(arguments) = env::args(&rt) else {
        return ExitCode::from(2);
    };
    let words: Result<Vec<String>, AllocError> = arguments.skip(1).collect(rt.alloc());
    let Ok(words) = words else {
        return ExitCode::from(4);
    };
    let status = match serve(
        &rt,
        rt.alloc(),
        words.as_slice(),
        &mut rt.stdin(),
        &mut rt.stdout(),
    ) {
        Ok(()) => 0,
        Err(Stop::Input) => 3,
        Err(Stop::Short) => 4,
        Err(Stop::Output) => 5,
    };
    ExitCode::from(status)
}
