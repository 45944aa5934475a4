//! What the instructions of a batch touch, found run by run, by several threads.

ghost use Rattle.std.specs.Prelude.{◌≡◌, ◌⊎◌, ◌+◌, ◌*◌, ◌/◌, ◌%◌, ◌<◌, ◌≤◌, ◌++◌, min, length, vec_len, IfOk};
ghost use Rattle.reg_base.specs.Chunks.{MadeOfChunks, UnlessOut};
ghost use Rattle.reg_base.specs.declared.limits.TheConstants.{MOST_INSTRUCTIONS};
ghost use Rattle.reg_plan.specs.Runs.{IsFound, IsFoundFrom};

use crate::arrow::Touch;
use crate::touched::Touched;
use crate::touches::sorted_touches;
use reg_base::{Directory, Instruction, NoMemory};
use std::alloc::{AllocError, Global};
use std::thread;
use std::thread::Threads;

// What was found of instructions: the accounts that each touches, and each of these accounts with its place.
#[derive(Drop)]
pub(crate) struct Found {
    pub(crate) touched: Touched,
    pub(crate) touches: Vec<Touch>,
}

// What is found of these instructions, of which the first has this place.
pub(crate) fn find_run(
    alloc: Global,
    directory: &Directory,
    first: u32,
    instructions: &[Instruction],
) -> Result<Found, NoMemory>
    requires { first + length instructions.now ≤ MOST_INSTRUCTIONS + 1 }
    ensures { IfOk result (IsFound directory.now first instructions.now) }
{
    let touched = Touched::of(alloc, directory, instructions)?;
    let touches = sorted_touches(alloc, first, &touched)?;
    Ok(Found { touched, touches })
}

// What was found of instructions, and behind it what was found of those behind them.
fn append(front: Found, back: Found) -> Result<Found, NoMemory>
    ensures touched { IfOk result (λ both. both.touched ≡ front.touched ++ back.touched) }
    ensures touches { IfOk result (λ both. both.touches.items ≡ front.touches.items ++ back.touches.items) }
{
    let Found {
        touched,
        mut touches,
    } = front;
    let Found {
        touched: further,
        touches: mut behind,
    } = back;
    touches.append(&mut behind)?;
    let both = touched.append(further)?;
    Ok(Found {
        touched: both,
        touches,
    })
}

/// The number of runs of so many instructions, at most the wanted one: each of several runs has `least` instructions or
/// more.
pub(crate) fn count_runs(instructions: u32, wanted: u32, least: u32) -> u32
    ensures some { 1 ≤ result }
    ensures few { (result ≡ 1) ⊎ ((result ≤ wanted) × (result * least ≤ instructions)) }
{
    (instructions / least.max(1)).min(wanted).max(1)
}

// What is found of the instructions of each run of so many, each in a thread of its own where one can be started.
fn find_each_run<R: Threads + Sync>(
    rt: &R,
    alloc: Global,
    directory: &Directory,
    instructions: &[Instruction],
    size: usize,
) -> Result<Vec<Result<Found, NoMemory>>, AllocError>
    requires size { 0 < size }
    requires few { length instructions.now ≤ MOST_INSTRUCTIONS }
    ensures len { IfOk result
        (λ runs. vec_len runs ≡ length instructions.now / size + min 1 (length instructions.now % size)) }
    ensures each { IfOk result
        (λ runs. MadeOfChunks (UnlessOut (IsFoundFrom directory.now)) instructions.now size runs.items) }
{
    thread::map_chunks(
        rt,
        alloc,
        instructions,
        size,
        &|start, run|
            requires { start + length run.now ≤ MOST_INSTRUCTIONS }
        { find_run(alloc, directory, start as u32 + 1, run) },
    )
}

/// The same as `find_run` of all instructions of a batch, in at most so many runs, each found by a thread of its own
/// where one can be started.
pub(crate) fn find_by_runs<R: Threads + Sync>(
    rt: &R,
    alloc: Global,
    directory: &Directory,
    instructions: &[Instruction],
    runs: u32,
) -> Result<Found, NoMemory>
    requires runs { 1 ≤ runs }
    requires few { length instructions.now ≤ MOST_INSTRUCTIONS }
    ensures { IfOk result (IsFound directory.now 1 instructions.now) }
{
    let size = instructions.len() / runs as usize + 1;
    let mut all = find_run(alloc, directory, 1, &[])?;
    for found in find_each_run(rt, alloc, directory, instructions, size)? {
        all = append(all, found?)?;
    }
    Ok(all)
}
