//! Tasks are dealt to the deques of workers.

ghost use Rattle.std.specs.Prelude.{◌≡◌, ◌+◌, ◌≤◌, ◌<◌, [], ◌∷◌, ℕ, All, map, vec_len, IfOk, OnOk};
ghost use Rattle.std.specs.List.{range_with_len};
ghost use Rattle.reg_claim.specs.Seats.{known, seat_table, table_id};
ghost use Rattle.reg_deques.specs.Passes.{owned, owner_id};
ghost use Rattle.reg_deques.specs.Views.{with_put};
ghost use Rattle.reg_deques.specs.Yards.{deques_of_owners, deques_of_pass, each_owned, worker_of, IsBlank};
ghost use Rattle.reg_facts.specs.Counting.{times};
ghost use Rattle.reg_run.specs.Taking.{all_put, HasOnlyPut};

use crate::taker::{Sharing, Taker};
use crate::worker::ReadyWorker;
use reg_base::NoMemory;
use reg_claim::{ClaimTable, Seat};
use reg_deques::{Numbered, Owner, Pass};
use std::alloc::Global;
use std::marker::PhantomData;

/// Deals tasks to the deques, one to each in turn.
///
/// # Errors
/// `NoMemory` if memory ran out.
pub(crate) fn deal_tasks<T: Numbered + Drop>(
    tasks: Vec<T>,
    owners: &mut Vec<Owner<T>>,
) -> Result<(), NoMemory>
    requires some { 1 ≤ vec_len owners.old }
    requires fresh { All HasOnlyPut (each_owned owners.old.items) }
    ensures same { deques_of_owners owners.new.items ≡ deques_of_owners owners.old.items }
    ensures fresh { OnOk result (All HasOnlyPut (each_owned owners.new.items)) }
    ensures put { OnOk result ((p : ℕ) → times p (all_put (each_owned owners.new.items))
        ≡ times p (all_put (each_owned owners.old.items)) + times p (map T.number tasks.items)) }
{
    let mut next = 0;
    for task in tasks {
        put_at(owners, next, task)?;
        next = (next + 1) % owners.len();
    }
    Ok(())
}

// Puts a task behind those of one deque.
fn put_at<T: Numbered + Drop>(owners: &mut Vec<Owner<T>>, k: usize, task: T) -> Result<(), NoMemory>
    requires within { k < vec_len owners.old }
    requires fresh { All HasOnlyPut (each_owned owners.old.items) }
    ensures len { vec_len owners.new ≡ vec_len owners.old }
    ensures same { deques_of_owners owners.new.items ≡ deques_of_owners owners.old.items }
    ensures fresh { OnOk result (All HasOnlyPut (each_owned owners.new.items)) }
    ensures put { OnOk result ((p : ℕ) → times p (all_put (each_owned owners.new.items))
        ≡ times p (all_put (each_owned owners.old.items)) + times p (T.number task ∷ [])) }
{
    put(&mut owners[k], task)
}

// Puts a task into a deque. There is room for 16, and the deque takes memory for more.
fn put<T: Numbered + Drop>(owner: &mut Owner<T>, task: T) -> Result<(), NoMemory>
    ensures same { owner_id owner.new ≡ owner_id owner.old }
    ensures put { OnOk result (owned owner.new ≡ with_put (T.number task ∷ []) (owned owner.old)) }
{
    match owner.put(task) {
        Ok(()) => Ok(()),
        Err(_) => Err(NoMemory),
    }
}

/// Workers that have not begun, and the seat that is left.
#[derive(Drop)]
pub struct ReadyWorkers<T: Numbered, S: Sharing> {
    /// The seat that is left, whose stake is that of no worker.
    pub seat: Seat,
    /// The workers, from worker 0 on.
    pub workers: Vec<ReadyWorker<T, S>>,
}

/// A worker for each deque, with its pass at the others and a seat of its own.
///
/// # Errors
/// `NoMemory` if memory ran out.
pub fn make_workers<T: Numbered + Drop, S: Sharing>(
    alloc: Global,
    table: &ClaimTable,
    seat: Seat,
    owners: Vec<Owner<T>>,
    passes: Vec<Pass<T>>,
) -> Result<ReadyWorkers<T, S>, NoMemory>
    requires table { (table_id table.now ≡ S.table) × (seat_table seat ≡ S.table) }
    requires fresh { ((known seat).stake ≡ 16) × ((known seat).finished ≡ []) }
    requires few { vec_len passes ≤ 8 }
    requires deques { All (λ p. deques_of_pass p ≡ S.deques) passes.items }
    requires owners { deques_of_owners owners.items ≡ S.deques }
    requires one_each { vec_len owners ≡ vec_len passes }
    requires numbers { map worker_of passes.items ≡ range_with_len 0 (vec_len passes) }
    requires blank { All IsBlank passes.items }
    ensures table { IfOk result (λ made. seat_table made.seat ≡ S.table) }
    ensures stake { IfOk result (λ made. (known made.seat).stake + vec_len passes ≡ 16) }
    ensures fresh { IfOk result (λ made. (known made.seat).finished ≡ []) }
    ensures seen { IfOk result (λ made. (known made.seat).seen ≡ (known seat).seen) }
    ensures each { IfOk result (λ made. vec_len made.workers ≡ vec_len passes) }
    ensures numbers { IfOk result
        (λ made. map (λ w. worker_of w.taker.pass) made.workers.items ≡ map worker_of passes.items) }
    ensures owned { IfOk result
        (λ made. map (λ w. owned w.taker.owner) made.workers.items ≡ each_owned owners.items) }
    ensures blank { IfOk result (λ made. All (λ w. IsBlank w.taker.pass) made.workers.items) }
{
    let mut rest = seat;
    let mut workers = Vec::with_capacity(alloc, passes.len())?;
    let mut owners = owners.into_iter();
    for pass in passes {
        let owner = owners.next().unwrap();
        let (kept, own) = table.split(rest);
        rest = kept;
        let taker = Taker {
            owner,
            pass,
            of: PhantomData,
        };
        workers.push(ReadyWorker { taker, seat: own })?;
    }
    Ok(ReadyWorkers {
        seat: rest,
        workers,
    })
}
