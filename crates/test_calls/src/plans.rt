//! A plan: making it, checking an order, writing it.

use crate::call::{Call, try_call, try_rehearsed, try_threads};
use crate::digest::digest_of;
use crate::endings::{Ended, how_ended};
use crate::settling::batch_order;
use crate::stop::Stop;
use reg_base::NoMemory;
use reg_plan::Plan;
use reg_text::{DayInput, plan_text};
use std::alloc::Global;
use std::io::Write;
use std::thread::Threads;

// `Plan::of`.
#[derive(Drop)]
struct Planning<'d> {
    day: &'d DayInput,
}

impl Call for Planning<'_> {
    fn make(&mut self, alloc: Global) -> Ended {
        how_ended(Plan::of(alloc, &self.day.batch, self.day.book.directory()))
    }
}

/// Tries `Plan::of`.
pub(crate) fn try_plan<W: Write>(
    alloc: Global,
    day: &DayInput,
    writer: &mut W,
) -> Result<(), Stop> {
    try_rehearsed(alloc, day, &mut Planning { day }, writer)
}

/// Tries `Plan::of_with` by so many threads, each of which looks up the accounts of an instruction or more: it is to
/// end as `Plan::of` does.
pub(crate) fn try_plan_with<R: Threads + Sync, W: Write>(
    rt: &R,
    alloc: Global,
    day: &DayInput,
    threads: u32,
    writer: &mut W,
) -> Result<(), Stop> {
    let (batch, directory) = (&day.batch, day.book.directory());
    let wanted = how_ended(Plan::of(alloc, batch, directory));
    let call = || how_ended(Plan::of_with(rt, alloc, batch, directory, threads, 1));
    try_threads(day, call, wanted, writer)
}

fn plan_of(alloc: Global, day: &DayInput) -> Result<Plan, Stop> {
    match Plan::of(alloc, &day.batch, day.book.directory()) {
        Ok(plan) => Ok(plan),
        Err(NoMemory) => Err(Stop::Short),
    }
}

// `Plan::check_order` of a list of places.
#[derive(Drop)]
struct Checking<'p> {
    plan: &'p Plan,
    order: &'p [u32],
}

impl Call for Checking<'_> {
    fn make(&mut self, alloc: Global) -> Ended {
        how_ended(self.plan.check_order(alloc, self.order))
    }
}

/// Tries `Plan::check_order` of the batch order, which is legal.
pub(crate) fn try_check<W: Write>(
    alloc: Global,
    day: &DayInput,
    writer: &mut W,
) -> Result<(), Stop> {
    let order = batch_order(alloc, day)?;
    let plan = plan_of(alloc, day)?;
    let mut call = Checking {
        plan: &plan,
        order: order.as_slice(),
    };
    try_call(alloc, &plan, &mut call, Ended::Done(digest_of(&())), writer)
}

// `plan_text`.
#[derive(Drop)]
struct Writing<'p> {
    plan: &'p Plan,
}

impl Call for Writing<'_> {
    fn make(&mut self, alloc: Global) -> Ended {
        how_ended(plan_text(alloc, self.plan))
    }
}

/// Tries `plan_text`.
pub(crate) fn try_plan_text<W: Write>(
    alloc: Global,
    day: &DayInput,
    writer: &mut W,
) -> Result<(), Stop> {
    let plan = plan_of(alloc, day)?;
    try_rehearsed(alloc, &plan, &mut Writing { plan: &plan }, writer)
}
