//! Counting up what the workers did.

ghost use Rattle.std.specs.Prelude.{◌≡◌, ℕ, ◌+◌, ◌<◌, ◌++◌, [], vec_len, IfOk, OnOk};
ghost use Rattle.reg_claim.specs.Seats.{known, seat_table, table_id, places};
ghost use Rattle.reg_facts.specs.Counting.{times, once};
ghost use Rattle.reg_tasks.specs.Gathering.{places_of};
ghost use Rattle.reg_facts.specs.Lists.{joined_lists};
ghost use Rattle.reg_work.specs.Shifts.{AreShifts, workers_of, times_in};
ghost use Rattle.reg_work.specs.EndedWorkers.{ended_numbers, all_done, all_closing};
ghost use Rattle.reg_facts.specs.Lists.{first_numbers};

use crate::shift::Shift;
use crate::work_loop::EndedWorker;
use crate::worker::Worker;
use reg_base::NoMemory;
use reg_claim::{ClaimTable, Seat};
use reg_run::Sharing;
use reg_tasks::{Done, Lack, LastParcel, Naming, Ran, Task};
use std::alloc::Global;

/// What all workers did: who ran what, the replies, and the values that no later instruction needs, worker by worker.
#[derive(Drop)]
pub(crate) struct Work<N: Naming> {
    pub(crate) shifts: Vec<Shift<N>>,
    pub(crate) done: Vec<Done<N>>,
    pub(crate) closing: Vec<Vec<LastParcel<N>>>,
}

impl<N: Naming> Work<N> {
    ghost use Rattle.std.specs.Prelude.{◌∷◌};
    ghost use Rattle.reg_facts.specs.Lists.{joined_lists};
    ghost use Rattle.reg_work.specs.Shifts.{places_ran};

    // Nobody did anything yet.
    fn new(alloc: Global) -> Work<N>
        ensures { (result.shifts.items ≡ []) × (result.done.items ≡ []) × (result.closing.items ≡ []) }
    {
        Work {
            shifts: Vec::new(alloc),
            done: Vec::new(alloc),
            closing: Vec::new(alloc),
        }
    }

    // Adds what a worker did.
    fn add(
        &mut self,
        worker: u32,
        ran: Vec<Ran<N>>,
        done: Vec<Done<N>>,
        closing: Vec<LastParcel<N>>,
    ) -> Result<(), NoMemory>
        ensures done { OnOk result (self.new.done.items ≡ self.old.done.items ++ done.items) }
        ensures closing { OnOk result
            (joined_lists self.new.closing.items ≡ joined_lists self.old.closing.items ++ closing.items) }
        ensures shifts { OnOk result
            (self.new.shifts.items ≡ self.old.shifts.items ++ record { worker = worker; ran = ran } ∷ []) }
        ensures workers { OnOk result
            (workers_of self.new.shifts.items ≡ workers_of self.old.shifts.items ++ worker ∷ []) }
        ensures times { OnOk result
            ((p : ℕ) → times_in p self.new.shifts.items
            ≡ times_in p self.old.shifts.items + times p (places_ran ran.items)) }
    {
        append_all(&mut self.done, done)?;
        self.closing.push(closing)?;
        self.shifts.push(Shift { worker, ran })?;
        Ok(())
    }
}

// Puts items behind those that are there. If none are there, no item is moved.
fn append_all<T: Drop>(items: &mut Vec<T>, more: Vec<T>) -> Result<(), NoMemory>
    ensures { OnOk result (items.new.items ≡ items.old.items ++ more.items) }
{
    let mut more = more;
    if items.is_empty() {
        *items = more;
        return Ok(());
    }
    items.append(&mut more)?;
    Ok(())
}

/// The items of all parts, one part after another.
///
/// # Errors
/// `NoMemory` if memory ran out.
pub(crate) fn join_parts<T: Drop>(alloc: Global, parts: Vec<Vec<T>>) -> Result<Vec<T>, NoMemory>
    ensures { IfOk result (λ all. all.items ≡ joined_lists parts.items) }
{
    let mut all = Vec::new(alloc);
    for part in parts {
        append_all(&mut all, part)?;
    }
    Ok(all)
}

/// Joins the seats of all workers and closes the table. Without a stop each place is in one shift, once.
///
/// # Errors
/// `Memory` if memory ran out. If the workers were told to leave, what was lacking for the one that told them to; if
/// several did, for the one with the lowest number.
pub(crate) fn count_up<N: Naming, S: Sharing>(
    alloc: Global,
    table: ClaimTable,
    seat: Seat,
    ended_workers: Vec<EndedWorker<Task<N>, N, S>>,
) -> Result<Work<N>, Lack>
    requires table { (table_id table ≡ S.table) × (places table ≡ S.count) × (seat_table seat ≡ S.table) }
    requires stake { (known seat).stake + vec_len ended_workers ≡ 16 }
    requires fresh { ((known seat).finished ≡ []) × ((known seat).seen ≡ 0) }
    requires some { 0 < vec_len ended_workers }
    requires workers { ended_numbers ended_workers.items ≡ first_numbers (vec_len ended_workers) }
    ensures shifts { IfOk result (λ w. AreShifts (vec_len ended_workers) S.count w.shifts.items) }
    ensures done { IfOk result (λ w. w.done.items ≡ all_done ended_workers.items) }
    ensures closing { IfOk result (λ w. joined_lists w.closing.items ≡ all_closing ended_workers.items) }
    ensures each_done { IfOk result (λ w. (p : ℕ) → times p (places_of w.done.items) ≡ once S.count p) }
{
    let mut rest = seat;
    let mut work: Work<N> = Work::new(alloc);
    let mut lack: Option<Lack> = None;
    for ended_worker in ended_workers {
        let EndedWorker {
            number,
            worker,
            lack: why,
            ..
        } = ended_worker;
        let Worker {
            seat: theirs,
            ran,
            done,
            closing,
            ..
        } = worker;
        lack = lack.or(why);
        rest = table.join(rest, theirs);
        work.add(number, ran, done, closing)?;
    }
    let tally = table.close(rest);
    if tally.stopped {
        return Err(lack.unwrap_or(Lack::Foreign));
    }
    Ok(work)
}
