//! Settling a day, in each way.

use crate::call::{Call, try_call, try_rehearsed, try_threads, try_using_up};
use crate::digest::digest_of;
use crate::endings::{Ended, how_ended};
use crate::stop::Stop;
use reg_base::{Batch, NoMemory, Rules};
use reg_book::{ClosedDay, ClosedParts, Parts, SettleFault, settle_in_place, settle_plain};
use reg_regions::{FreePlaces, PlaceGate, settle_regions};
use reg_tasks::{Context, Unnamed, run_order};
use reg_text::{DayInput, DayParts, read_day};
use reg_work::{FreeGate, settle_waves, settle_with};
use std::alloc::Global;
use std::io::Write;
use std::sync::Wait;
use std::thread::Threads;

/// How settling one instruction after another ends.
pub(crate) fn settled_plainly(alloc: Global, day: &DayInput) -> Ended {
    how_ended(settle_plain(alloc, &day.book, &day.rules, &day.batch))
}

/// The context of a day.
pub(crate) fn context_of<'a>(
    alloc: Global,
    day: &'a DayInput,
) -> Result<Context<'a, Unnamed>, Stop> {
    match Context::of(alloc, &day.book, &day.rules, &day.batch) {
        Ok(context) => Ok(context),
        Err(SettleFault::NoMemory) => Err(Stop::Short),
        Err(SettleFault::WrongBase { .. }) => Err(Stop::Input),
    }
}

// `settle_plain`.
#[derive(Drop)]
struct Plainly<'d> {
    day: &'d DayInput,
}

impl Call for Plainly<'_> {
    fn make(&mut self, alloc: Global) -> Ended {
        settled_plainly(alloc, self.day)
    }
}

/// Tries `settle_plain`.
pub(crate) fn try_plain<W: Write>(
    alloc: Global,
    day: &DayInput,
    writer: &mut W,
) -> Result<(), Stop> {
    try_rehearsed(alloc, day, &mut Plainly { day }, writer)
}

// `run_order` of all places in batch order.
#[derive(Drop)]
struct InOrder<'d> {
    context: &'d Context<'d, Unnamed>,
    order: &'d [u32],
}

impl Call for InOrder<'_> {
    fn make(&mut self, alloc: Global) -> Ended {
        how_ended(run_order(alloc, self.context, self.order))
    }
}

/// The places of a day, in batch order.
pub(crate) fn batch_order(alloc: Global, day: &DayInput) -> Result<Vec<u32>, Stop> {
    let mut order = Vec::with_capacity(alloc, day.batch.len() as usize)?;
    for before in 0..day.batch.len() {
        if order.push(before + 1).is_err() {
            return Err(Stop::Short);
        }
    }
    Ok(order)
}

/// Tries `run_order`.
pub(crate) fn try_order<W: Write>(
    alloc: Global,
    day: &DayInput,
    writer: &mut W,
) -> Result<(), Stop> {
    let order = batch_order(alloc, day)?;
    let context = context_of(alloc, day)?;
    let mut call = InOrder {
        context: &context,
        order: order.as_slice(),
    };
    try_call(alloc, day, &mut call, settled_plainly(alloc, day), writer)
}

// `settle_waves`.
#[derive(Drop)]
struct InWaves<'d, R> {
    rt: &'d R,
    day: &'d DayInput,
    workers: u32,
}

impl<R: Threads + Wait> Call for InWaves<'_, R> {
    fn make(&mut self, alloc: Global) -> Ended {
        how_ended(settle_waves(
            self.rt,
            alloc,
            &self.day.book,
            &self.day.rules,
            &self.day.batch,
            self.workers,
            &FreeGate,
        ))
    }
}

/// Tries `settle_waves`.
pub(crate) fn try_waves<R: Threads + Wait, W: Write>(
    rt: &R,
    alloc: Global,
    day: &DayInput,
    workers: u32,
    writer: &mut W,
) -> Result<(), Stop> {
    let mut call = InWaves { rt, day, workers };
    try_call(alloc, day, &mut call, settled_plainly(alloc, day), writer)
}

// `settle_with`, of which the settled day alone is looked at.
fn settled_by_workers<R: Threads + Wait + Sync>(
    rt: &R,
    alloc: Global,
    day: &DayInput,
    workers: u32,
) -> Ended {
    let answer = settle_with(
        rt, alloc, &day.book, &day.rules, &day.batch, workers, &FreeGate,
    );
    match answer {
        Ok((settled, _)) => Ended::Done(digest_of(&settled)),
        Err(fault) => fault.into(),
    }
}

/// Tries `settle_with`.
pub(crate) fn try_workers<R: Threads + Wait + Sync, W: Write>(
    rt: &R,
    alloc: Global,
    day: &DayInput,
    workers: u32,
    writer: &mut W,
) -> Result<(), Stop> {
    let call = || settled_by_workers(rt, alloc, day, workers);
    try_threads(day, call, settled_plainly(alloc, day), writer)
}

/// The day of a text.
pub(crate) fn day_of(alloc: Global, text: &[u8]) -> Result<DayInput, Stop> {
    match read_day(alloc, text) {
        Ok(day) => Ok(day),
        Err(_) => Err(Stop::Input),
    }
}

// `settle_in_place`.
fn closed_in_place(alloc: Global, day: DayInput) -> Ended {
    let DayInput { book, rules, batch } = day;
    if batch.base() + 1 != book.next_record() {
        return Ended::Otherwise;
    }
    how_ended(settle_in_place(alloc, book, &rules, &batch))
}

// The day of a text, with its accounts in one list.
fn listed_day_of(alloc: Global, text: &[u8]) -> Result<DayParts, Stop> {
    let DayInput { rules, book, batch } = day_of(alloc, text)?;
    match Parts::of_book(alloc, book) {
        Ok(parts) => Ok(DayParts {
            rules,
            parts,
            batch,
        }),
        Err(_) => Err(Stop::Short),
    }
}

// The book, which `settle_regions` gives back for an empty batch that begins one record late. Nothing in here takes
// memory.
fn given_back<R: Threads + Sync>(
    rt: &R,
    alloc: Global,
    parts: Parts,
    rules: &Rules,
    batch: &Batch,
) -> Option<Parts> {
    let Ok(late) = Batch::new(batch.day(), batch.base() + 1, Vec::new(alloc)) else {
        return None;
    };
    match settle_regions(rt, alloc, parts, rules, &late, 1, &FreePlaces) {
        Ok(_) => None,
        Err(not_settled) => not_settled.parts,
    }
}

// The closed day with its accounts in one list.
fn joined(alloc: Global, closed: ClosedParts) -> Result<ClosedDay, NoMemory> {
    let ClosedParts { parts, replies } = closed;
    match parts.into_book(alloc) {
        Ok(book) => Ok(ClosedDay { book, replies }),
        Err((_, none)) => Err(none),
    }
}

// A gate of which nobody knows whether it is open: so each worker has a thread of its own.
struct Threaded;

impl PlaceGate for Threaded {
    fn enter(&self, _worker: u32, _place: u32) {}
}

// `settle_regions`, of which the closed day alone is looked at, with a book that it has given back before.
fn closed_by_regions<R: Threads + Sync>(
    rt: &R,
    alloc: Global,
    day: DayParts,
    workers: u32,
) -> Ended {
    let DayParts {
        parts,
        rules,
        batch,
    } = day;
    let Some(parts) = given_back(rt, alloc, parts, &rules, &batch) else {
        return Ended::Otherwise;
    };
    match settle_regions(rt, alloc, parts, &rules, &batch, workers, &Threaded) {
        Ok((closed, _)) => how_ended(joined(alloc, closed)),
        Err(not_settled) => not_settled.fault.into(),
    }
}

/// Tries `settle_regions`: first with a wrong base, for which it gives the book back, and then with the right one. If
/// it was refused something, that book is gone, and it is tried with another one.
pub(crate) fn try_regions<R: Threads + Sync, W: Write>(
    rt: &R,
    alloc: Global,
    text: &[u8],
    workers: u32,
    writer: &mut W,
) -> Result<(), Stop> {
    let wanted = closed_in_place(alloc, day_of(alloc, text)?);
    let (first, second) = (listed_day_of(alloc, text)?, listed_day_of(alloc, text)?);
    let call = |day: DayParts| closed_by_regions(rt, alloc, day, workers);
    try_using_up(first, second, call, wanted, writer)
}
