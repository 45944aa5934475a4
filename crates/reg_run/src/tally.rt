//! What all workers did is put together.

ghost use Rattle.std.specs.Prelude.{◌≡◌, ◌+◌, ◌++◌, [], ℕ, map, vec_len, IfOk, OnOk, IsPermutation};
ghost use Rattle.std.specs.List.{flat_map};
ghost use Rattle.reg_base.specs.Rising.{count_up};
ghost use Rattle.reg_claim.specs.Seats.{known, seat_table, table_id, places};
ghost use Rattle.reg_facts.specs.Counting.{times, once};
ghost use Rattle.reg_run.specs.Running.{numbers_ran};

use crate::outcome::Outcome;
use crate::ran::Ran;
use crate::taker::Sharing;
use crate::worker::BusyWorker;
use reg_base::NoMemory;
use reg_claim::{ClaimTable, Seat};
use std::alloc::Global;

/// Joins the seats of all workers and closes the table: each task was run once. Answers what came of the tasks, worker
/// by worker, and what each worker noted.
///
/// # Errors
/// `NoMemory` if memory ran out.
pub(crate) fn count_tasks<S: Sharing, A: Drop, N: Drop>(
    alloc: Global,
    count: u32,
    table: ClaimTable,
    seat: Seat,
    workers: Vec<BusyWorker<S, A, N>>,
) -> Result<Outcome<A, N>, NoMemory>
    requires table { (table_id table ≡ S.table) × (places table ≡ count) × (seat_table seat ≡ S.table) }
    requires stake { (known seat).stake + vec_len workers ≡ 16 }
    requires fresh { (known seat).finished ≡ [] }
    ensures ran { IfOk result (λ o. o.answers.items ≡ flat_map (λ w. w.ran.items) workers.items) }
    ensures each { IfOk result (λ o. (p : ℕ) → times p (numbers_ran o.answers.items) ≡ once count p) }
    ensures notes { IfOk result (λ o. o.notes.items ≡ map (λ w. w.notes) workers.items) }
{
    let mut rest = seat;
    let mut answers = Vec::with_capacity(alloc, count as usize)?;
    let mut all = Vec::with_capacity(alloc, workers.len())?;
    for worker in workers {
        let BusyWorker {
            notes,
            seat: theirs,
            ran,
            ..
        } = worker;
        rest = table.join(rest, theirs);
        all.push(notes)?;
        append(&mut answers, ran)?;
    }
    let tally = table.close(rest);
    // Each task was put into a deque, and each worker ran all of its own deque: so this is never less.
    if tally.done != count {
        return Err(NoMemory);
    }
    Ok(Outcome {
        answers,
        notes: all,
    })
}

fn append<A: Drop>(answers: &mut Vec<Ran<A>>, ran: Vec<Ran<A>>) -> Result<(), NoMemory>
    ensures { OnOk result (answers.new.items ≡ answers.old.items ++ ran.items) }
{
    let mut ran = ran;
    answers.append(&mut ran)?;
    Ok(())
}

/// Tasks that were run, by rising number.
pub(crate) fn in_order<A: Drop>(ran: Vec<Ran<A>>) -> Vec<Ran<A>>
    ensures same { IsPermutation ran.items result.items }
    ensures numbers { (count : ℕ) → ((p : ℕ) → times p (numbers_ran ran.items) ≡ once count p)
        → numbers_ran result.items ≡ count_up 1 count }
{
    let mut ran = ran;
    ran.sort_unstable_by_key(|one| one.number);
    ran
}
