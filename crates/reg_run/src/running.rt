//! Tasks are run by workers.

ghost use Rattle.std.specs.Prelude.{◌≡◌, ◌≤◌, All, map, vec_len, IfOk, IsPermutation};
ghost use Rattle.std.specs.List.{range_with_len};
ghost use Rattle.reg_base.specs.Rising.{count_up};
ghost use Rattle.reg_claim.specs.Seats.{known, seat_table, table_id, places};
ghost use Rattle.reg_claim.specs.Views.{fresh};
ghost use Rattle.reg_deques.specs.Yards.{deques, deques_of_owners, deques_of_pass, each_owned, worker_of};
ghost use Rattle.reg_deques.specs.Yards.{IsBlank, IsNew};
ghost use Rattle.reg_run.specs.Running.{WereRun, numbers_ran};

use crate::dealing::{ReadyWorkers, deal_tasks, make_workers};
use crate::doing::Do;
use crate::outcome::Outcome;
use crate::taker::Sharing;
use crate::tally::{count_tasks, in_order};
use crate::threads::run_all;
use reg_base::NoMemory;
use reg_claim::{ClaimTable, Seat};
use reg_deques::{Numbered, Owner, Pass, Yard};
use std::alloc::Global;
use std::marker::Brand;
use std::thread::Threads;

/// Runs tasks by 1 to 8 workers. Each worker has a deque, to which tasks are dealt in turn, in the order in which they
/// are given. It runs those of its own deque, and when there are none, it steals from the others. It leaves when there
/// is nothing to steal, and nobody waits: no task appears later. The calling thread is the last worker, and each of the
/// others has a thread of its own where one can be started.
///
/// Each task is put into one deque, taken once at most, and run once, by the worker that its answer names. What `Do`
/// promises holds of each answer.
///
/// # Errors
/// `NoMemory` if memory ran out. Then the tasks are gone, and all threads have ended.
pub fn run<
    T: Numbered + Drop + Send,
    A: Drop + Send,
    N: Drop + Send,
    D: Do<T, A, N>,
    R: Threads + Sync,
>(rt: &R, alloc: Global, doing: &D, tasks: Vec<T>, workers: u32) -> Result<Outcome<A, N>, NoMemory>
    requires workers { (1 ≤ workers) × (workers ≤ 8) }
    requires ready { D.ready doing.now }
    requires numbers { IsPermutation (count_up 1 (D.count doing.now)) (map T.number tasks.items) }
    ensures numbers { IfOk result (λ o. numbers_ran o.answers.items ≡ count_up 1 (D.count doing.now)) }
    ensures promised { IfOk result (λ o. All (λ r. D.promises doing.now r.number r.answer) o.answers.items) }
    ensures ran { IfOk result
        (λ o. WereRun (D.promises doing.now) D.noted workers (D.count doing.now) o.answers.items o.notes.items) }
{
    let (table, seat) = new_table(alloc, doing.count())?;
    let (yard, owners, passes) = Yard::new(alloc, workers)?;
    run_dealt::<T, A, N, D, Brand, R>(rt, alloc, doing, table, seat, tasks, yard, owners, passes)
}

fn new_table(alloc: Global, count: u32) -> Result<(ClaimTable, Seat), NoMemory>
    ensures places { IfOk result (λ made. places made.0 ≡ count) }
    ensures seat { IfOk result (λ made. seat_table made.1 ≡ table_id made.0) }
    ensures fresh { IfOk result (λ made. known made.1 ≡ fresh) }
{
    match ClaimTable::new(alloc, count) {
        Ok(made) => Ok(made),
        Err(_) => Err(NoMemory),
    }
}

// Deals tasks to the deques of workers, lets these run them, and counts up what they did.
fn run_dealt<
    T: Numbered + Drop + Send,
    A: Drop + Send,
    N: Drop + Send,
    D: Do<T, A, N>,
    S: Sharing + Send + Sync,
    R: Threads + Sync,
>(
    rt: &R,
    alloc: Global,
    doing: &D,
    table: ClaimTable,
    seat: Seat,
    tasks: Vec<T>,
    yard: Yard<T>,
    owners: Vec<Owner<T>>,
    passes: Vec<Pass<T>>,
) -> Result<Outcome<A, N>, NoMemory>
    requires ready { D.ready doing.now }
    requires numbers { IsPermutation (count_up 1 (D.count doing.now)) (map T.number tasks.items) }
    requires table { (table_id table ≡ S.table) × (places table ≡ D.count doing.now) × (seat_table seat ≡ S.table) }
    requires fresh { known seat ≡ fresh }
    requires yard { deques yard ≡ S.deques }
    requires owners { deques_of_owners owners.items ≡ S.deques }
    requires new { All IsNew (each_owned owners.items) }
    requires passes { All (λ p. deques_of_pass p ≡ S.deques) passes.items }
    requires blank { All IsBlank passes.items }
    requires many { (1 ≤ vec_len passes) × (vec_len passes ≤ 8) × (vec_len owners ≡ vec_len passes) }
    requires workers { map worker_of passes.items ≡ range_with_len 0 (vec_len passes) }
    ensures numbers { IfOk result (λ o. numbers_ran o.answers.items ≡ count_up 1 (D.count doing.now)) }
    ensures promised { IfOk result (λ o. All (λ r. D.promises doing.now r.number r.answer) o.answers.items) }
    ensures ran { IfOk result (λ o. WereRun (D.promises doing.now) D.noted (vec_len passes) (D.count doing.now)
        o.answers.items o.notes.items) }
{
    let mut owners = owners;
    deal_tasks(tasks, &mut owners)?;
    let begun: ReadyWorkers<T, S> = make_workers(alloc, &table, seat, owners, passes)?;
    let ReadyWorkers {
        seat: rest,
        workers: ready,
    } = begun;
    let ended = run_all(rt, alloc, doing, &table, &yard, ready)?;
    let counted = count_tasks(alloc, doing.count(), table, rest, ended)?;
    let Outcome { answers, notes } = counted;
    Ok(Outcome {
        answers: in_order(answers),
        notes,
    })
}
