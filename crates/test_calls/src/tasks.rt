//! A context, opening values, tasks and what is gathered of them.

ghost use Rattle.std.specs.Prelude.{◌≡◌};
ghost use Rattle.reg_base.specs.Touches.{touches, is_touched};

use crate::call::{Call, rehearse, try_call, try_rehearsed};
use crate::digest::{Digest, digest_of};
use crate::endings::{Ended, how_ended};
use crate::settling::{context_of, settled_plainly};
use crate::stop::Stop;
use reg_base::{AccountNo, Batch, Directory, Instruction, NoMemory};
use reg_rules::LogRow;
use reg_tasks::{Context, Parcel, Task, TaskOutcome, Unnamed};
use reg_text::DayInput;
use std::alloc::Global;
use std::io::Write;

// `Context::of`, of which the plan alone is looked at.
#[derive(Drop)]
struct Opening<'d> {
    day: &'d DayInput,
}

impl Call for Opening<'_> {
    fn make(&mut self, alloc: Global) -> Ended {
        let day = self.day;
        match Context::<Unnamed>::of(alloc, &day.book, &day.rules, &day.batch) {
            Ok(context) => Ended::Done(digest_of(context.plan())),
            Err(fault) => fault.into(),
        }
    }
}

/// Tries `Context::of`.
pub(crate) fn try_context<W: Write>(
    alloc: Global,
    day: &DayInput,
    writer: &mut W,
) -> Result<(), Stop> {
    try_rehearsed(alloc, day, &mut Opening { day }, writer)
}

fn touches(instruction: &Instruction, directory: &Directory, number: AccountNo) -> bool
    ensures { result ≡ touches directory.now instruction.now number }
{
    let touched = instruction.touches(directory);
    touched.as_slice().iter().any(|account| *account == number)
}

fn is_touched(batch: &Batch, directory: &Directory, number: AccountNo) -> bool
    ensures { result ≡ is_touched directory.now batch.now.instructions number }
{
    let mut instructions = batch.instructions().iter();
    instructions.any(|instruction| touches(instruction, directory, number))
}

// The opening value of an account, if an instruction touches it.
fn open<'a>(
    alloc: Global,
    context: &Context<'a, Unnamed>,
    number: AccountNo,
) -> Option<Result<Parcel<Unnamed>, NoMemory>> {
    if !is_touched(context.batch(), context.book().directory(), number) {
        return None;
    }
    Some(context.opening(alloc, number))
}

// `Context::opening`.
#[derive(Drop)]
struct OpeningOne<'c> {
    context: &'c Context<'c, Unnamed>,
    number: AccountNo,
}

impl Call for OpeningOne<'_> {
    fn make(&mut self, alloc: Global) -> Ended {
        match open(alloc, self.context, self.number) {
            Some(Ok(parcel)) => Ended::Done(digest_of(parcel.value())),
            Some(Err(NoMemory)) => Ended::NoMemory,
            None => Ended::Otherwise,
        }
    }
}

/// Tries `Context::opening` of the first account.
pub(crate) fn try_opening<W: Write>(
    alloc: Global,
    day: &DayInput,
    writer: &mut W,
) -> Result<(), Stop> {
    let Some(account) = day.book.accounts().first() else {
        return Err(Stop::Input);
    };
    let context = context_of(alloc, day)?;
    let mut call = OpeningOne {
        context: &context,
        number: account.number(),
    };
    try_call(
        alloc,
        day,
        &mut call,
        Ended::Done(digest_of(account)),
        writer,
    )
}

// The opening values of the accounts that the instruction at a place touches.
fn openings(
    alloc: Global,
    context: &Context<Unnamed>,
    place: u32,
) -> Result<Vec<Parcel<Unnamed>>, Stop> {
    let Some(before) = place.checked_sub(1) else {
        return Err(Stop::Input);
    };
    let Some(instruction) = context.batch().instructions().get(before as usize) else {
        return Err(Stop::Input);
    };
    let touched = instruction.touches(context.book().directory());
    let mut parcels = Vec::new(alloc);
    for number in touched.as_slice() {
        match open(alloc, context, *number) {
            Some(Ok(parcel)) => parcels.push(parcel)?,
            Some(Err(NoMemory)) => return Err(Stop::Short),
            None => return Err(Stop::Input),
        }
    }
    Ok(parcels)
}

/// The task of a place whose instruction waits for no other.
pub(crate) fn task_of(
    alloc: Global,
    context: &Context<Unnamed>,
    place: u32,
) -> Result<Task<Unnamed>, Stop> {
    if place == 0 || place > context.batch().len() {
        return Err(Stop::Input);
    }
    let parcels = openings(alloc, context, place)?;
    match Task::assemble(context, place, parcels) {
        Ok(task) => Ok(task),
        Err(_) => Err(Stop::Input),
    }
}

// The rows of instructions that were run, and the parcels that they left.
#[derive(Drop)]
struct Left {
    rows: Vec<LogRow>,
    parcels: Vec<Parcel<Unnamed>>,
}

impl Left {
    // Adds what an outcome has.
    fn add(&mut self, outcome: TaskOutcome<Unnamed>) -> Result<(), Stop> {
        let (_, row, mut parcels) = outcome.into_parts();
        self.rows.push(row)?;
        self.parcels.append(&mut parcels)?;
        Ok(())
    }
}

fn run(
    alloc: Global,
    context: &Context<Unnamed>,
    task: Task<Unnamed>,
) -> Result<TaskOutcome<Unnamed>, Stop> {
    match task.run(alloc, context) {
        Ok(outcome) => Ok(outcome),
        Err(_) => Err(Stop::Short),
    }
}

// Runs all tasks of a day whose instructions wait for no other.
fn run_all(alloc: Global, context: &Context<Unnamed>) -> Result<Left, Stop> {
    let mut left = Left {
        rows: Vec::new(alloc),
        parcels: Vec::new(alloc),
    };
    for before in 0..context.batch().len() {
        let task = task_of(alloc, context, before + 1)?;
        left.add(run(alloc, context, task)?)?;
    }
    Ok(left)
}

// `Task::run`.
#[derive(Drop)]
struct Running<'c> {
    context: &'c Context<'c, Unnamed>,
    task: Option<Task<Unnamed>>,
}

// The digest of the row and the parcels that an instruction has left.
fn digest_after(outcome: TaskOutcome<Unnamed>) -> Digest {
    let (_, row, parcels) = outcome.into_parts();
    let mut digest = digest_of(&row);
    for parcel in &parcels {
        digest.add(parcel.value());
        digest.add(&parcel.after());
    }
    digest
}

impl Call for Running<'_> {
    fn make(&mut self, alloc: Global) -> Ended {
        let Some(task) = self.task.take() else {
            return Ended::Otherwise;
        };
        match task.run(alloc, self.context) {
            Ok(outcome) => Ended::Done(digest_after(outcome)),
            Err(task) => {
                self.task = Some(task);
                Ended::GivenBack
            }
        }
    }

    fn lent(&self) -> Digest {
        match &self.task {
            Some(task) => digest_of(&(task.place(), task.parcel_count())),
            None => Digest::new(),
        }
    }
}

// `Task::run` of the first instruction.
fn make_running<'c>(alloc: Global, context: &'c Context<'c, Unnamed>) -> Result<Running<'c>, Stop> {
    let task = Some(task_of(alloc, context, 1)?);
    Ok(Running { context, task })
}

/// Tries `Task::run` of the first instruction, which waits for no other.
pub(crate) fn try_run<W: Write>(alloc: Global, day: &DayInput, writer: &mut W) -> Result<(), Stop> {
    let context = context_of(alloc, day)?;
    let wanted = rehearse(alloc, &mut make_running(alloc, &context)?);
    let mut call = make_running(alloc, &context)?;
    try_call(alloc, day, &mut call, wanted, writer)
}

// `Context::gather`, which uses up what it is given: so each time the call is made it takes the last of these.
#[derive(Drop)]
struct Gathering<'c> {
    context: &'c Context<'c, Unnamed>,
    given: Vec<Left>,
}

impl Call for Gathering<'_> {
    fn make(&mut self, alloc: Global) -> Ended {
        let Some(Left { rows, parcels }) = self.given.pop() else {
            return Ended::Otherwise;
        };
        how_ended(self.context.gather(alloc, rows, parcels))
    }
}

// What two calls are given.
fn given_twice(alloc: Global, context: &Context<Unnamed>) -> Result<Vec<Left>, Stop> {
    let mut given = Vec::with_capacity(alloc, 2)?;
    for _ in 0..2 {
        given.push(run_all(alloc, context)?)?;
    }
    Ok(given)
}

/// Tries `Context::gather`, on a day whose instructions wait for no other.
pub(crate) fn try_gather<W: Write>(
    alloc: Global,
    day: &DayInput,
    writer: &mut W,
) -> Result<(), Stop> {
    let context = context_of(alloc, day)?;
    let mut call = Gathering {
        context: &context,
        given: given_twice(alloc, &context)?,
    };
    try_call(alloc, day, &mut call, settled_plainly(alloc, day), writer)
}
