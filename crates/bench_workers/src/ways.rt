//! Ways of settling a day by workers or on the book's own accounts.

use crate::stop::Stop;
use reg_base::NoMemory;
use reg_book::{ClosedDay, ClosedParts, Parts, Settled, settle_in_place};
use reg_regions::{
    FreePlaces, OwnedRegion, PlaceGate, WorkShift, are_allowed, settle_regions,
    settle_without_shifts,
};
use reg_tasks::Naming;
use reg_text::{DayInput, DayParts, LEAST_PART, read_day, read_day_of_pieces};
use reg_work::{Gate, Shift, settle_with};
use std::alloc::Global;
use std::sync::Wait;
use std::thread::Threads;

/// The day that a text says.
pub(crate) fn read(alloc: Global, text: &[u8]) -> Result<DayInput, Stop> {
    match read_day(alloc, text) {
        Ok(day) => Ok(day),
        Err(_) => Err(Stop::Input),
    }
}

/// The day that a text says, with its accounts in up to four lists for each worker, however few they are.
pub(crate) fn read_in_lists<R: Threads + Sync>(
    rt: &R,
    alloc: Global,
    text: &[u8],
    workers: u32,
) -> Result<DayParts, Stop> {
    read_by(rt, alloc, text, workers, 1)
}

/// The day that a text says, read by threads as the program does: with its accounts in the lists that they leave.
pub(crate) fn read_in_parts<R: Threads + Sync>(
    rt: &R,
    alloc: Global,
    text: &[u8],
    workers: u32,
) -> Result<DayParts, Stop> {
    read_by(rt, alloc, text, workers, LEAST_PART)
}

// The day that a text says, as one piece, with lists of so many bytes of it or more, about.
fn read_by<R: Threads + Sync>(
    rt: &R,
    alloc: Global,
    text: &[u8],
    workers: u32,
    least: usize,
) -> Result<DayParts, Stop> {
    let mut piece = Vec::new(alloc);
    piece.extend_from_slice(text)?;
    let mut pieces = Vec::new(alloc);
    if pieces.push(piece).is_err() {
        return Err(Stop::Short);
    }
    match read_day_of_pieces(rt, alloc, &pieces, workers as usize, least) {
        Ok(day) => Ok(day),
        Err(_) => Err(Stop::Input),
    }
}

/// Settles these lists by regions, as the program does.
pub(crate) fn close_in_parts<R: Threads + Sync>(
    rt: &R,
    alloc: Global,
    text: &[u8],
    workers: u32,
) -> Result<ClosedParts, Stop> {
    let DayParts {
        parts,
        rules,
        batch,
    } = read_in_parts(rt, alloc, text, workers)?;
    if !are_allowed(workers) || batch.base() + 1 != parts.next_record() {
        return Err(Stop::Input);
    }
    match settle_without_shifts(rt, alloc, parts, &rules, &batch, workers, &FreePlaces) {
        Ok(closed) => Ok(closed),
        Err(NoMemory) => Err(Stop::Short),
    }
}

/// A day with its accounts in one list.
pub(crate) fn in_one_list(alloc: Global, day: DayInput) -> Result<DayParts, Stop> {
    let DayInput { book, rules, batch } = day;
    match Parts::of_book(alloc, book) {
        Ok(parts) => Ok(DayParts {
            parts,
            rules,
            batch,
        }),
        Err(_) => Err(Stop::Short),
    }
}

/// The places that a worker ran, to be written and compared, and the regions that it owned, if it owned some. Unlike a
/// shift, anybody can make one.
#[derive(Drop)]
pub(crate) struct Lane {
    pub(crate) worker: u32,
    pub(crate) places: Vec<u32>,
    pub(crate) regions: Vec<OwnedRegion>,
}

fn lane_of<N: Naming>(alloc: Global, shift: &Shift<N>) -> Result<Lane, Stop> {
    let mut places = Vec::new(alloc);
    for ran in shift.ran.iter() {
        if places.push(ran.place()).is_err() {
            return Err(Stop::Short);
        }
    }
    Ok(Lane {
        worker: shift.worker,
        places,
        regions: Vec::new(alloc),
    })
}

fn lanes_of<N: Naming>(alloc: Global, shifts: &[Shift<N>]) -> Result<Vec<Lane>, Stop> {
    let mut all = Vec::new(alloc);
    for shift in shifts {
        let one = lane_of(alloc, shift)?;
        if all.push(one).is_err() {
            return Err(Stop::Short);
        }
    }
    Ok(all)
}

fn lane_of_work(alloc: Global, shift: &WorkShift) -> Result<Lane, Stop> {
    let mut places = Vec::new(alloc);
    for place in shift.places() {
        if places.push(*place).is_err() {
            return Err(Stop::Short);
        }
    }
    let mut regions = Vec::new(alloc);
    for region in shift.regions() {
        if regions.push(*region).is_err() {
            return Err(Stop::Short);
        }
    }
    Ok(Lane {
        worker: shift.worker(),
        places,
        regions,
    })
}

fn lanes_of_work(alloc: Global, shifts: &[WorkShift]) -> Result<Vec<Lane>, Stop> {
    let mut all = Vec::new(alloc);
    for shift in shifts {
        let one = lane_of_work(alloc, shift)?;
        if all.push(one).is_err() {
            return Err(Stop::Short);
        }
    }
    Ok(all)
}

/// Settles by workers that steal, on copies of the accounts.
pub(crate) fn by_stealing<R: Threads + Wait + Sync, G: Gate>(
    rt: &R,
    alloc: Global,
    day: &DayInput,
    workers: u32,
    gate: &G,
) -> Result<(Settled, Vec<Lane>), Stop> {
    let (settled, shifts) = settle_with(
        rt, alloc, &day.book, &day.rules, &day.batch, workers, gate,
    )?;
    let lanes = lanes_of(alloc, shifts.as_slice())?;
    Ok((settled, lanes))
}

/// Settles by workers that own regions of the book and steal them.
pub(crate) fn by_regions<R: Threads + Sync, G: PlaceGate + Sync>(
    rt: &R,
    alloc: Global,
    day: DayParts,
    workers: u32,
    gate: &G,
) -> Result<(ClosedParts, Vec<Lane>), Stop> {
    let DayParts {
        parts,
        rules,
        batch,
    } = day;
    match settle_regions(rt, alloc, parts, &rules, &batch, workers, gate) {
        Ok((closed, shifts)) => Ok((closed, lanes_of_work(alloc, shifts.as_slice())?)),
        Err(not_settled) => Err(not_settled.fault.into()),
    }
}

/// A closed day with its accounts in one list.
pub(crate) fn joined(alloc: Global, closed: ClosedParts) -> Result<ClosedDay, Stop> {
    let ClosedParts { parts, replies } = closed;
    match parts.into_book(alloc) {
        Ok(book) => Ok(ClosedDay { book, replies }),
        Err(_) => Err(Stop::Short),
    }
}

/// Settles on the book's own accounts.
pub(crate) fn close_in_place(alloc: Global, day: DayInput) -> Result<ClosedDay, Stop> {
    let DayInput { book, rules, batch } = day;
    if batch.base() + 1 != book.next_record() {
        return Err(Stop::Input);
    }
    match settle_in_place(alloc, book, &rules, &batch) {
        Ok(closed) => Ok(closed),
        Err(NoMemory) => Err(Stop::Short),
    }
}
