//! Workers run in threads.

ghost use Rattle.std.specs.Prelude.{◌≡◌, Ok, map, IfOk};
ghost use Rattle.reg_claim.specs.Seats.{table_id, places};
ghost use Rattle.reg_deques.specs.Yards.{deques};
ghost use Rattle.reg_run.specs.Running.{AreEnds, IsEnd};
ghost use Rattle.reg_run.specs.Taking.{known_by};

use crate::doing::Do;
use crate::taker::Sharing;
use crate::worker::{BusyWorker, ReadyWorker, work};
use reg_base::NoMemory;
use reg_claim::ClaimTable;
use reg_deques::{Numbered, Yard};
use std::alloc::Global;
use std::thread;
use std::thread::Threads;

/// Lets workers work: the last one in the calling thread, and each of the others in a thread of its own, or where none
/// can be started, after another worker and in its thread. They come back in their order.
///
/// # Errors
/// `NoMemory` if memory ran out. All threads have ended then.
pub(crate) fn run_all<
    T: Numbered + Drop + Send,
    A: Drop + Send,
    N: Drop + Send,
    D: Do<T, A, N>,
    S: Sharing + Send + Sync,
    R: Threads + Sync,
>(
    rt: &R,
    alloc: Global,
    doing: &D,
    table: &ClaimTable,
    yard: &Yard<T>,
    workers: Vec<ReadyWorker<T, S>>,
) -> Result<Vec<BusyWorker<S, A, N>>, NoMemory>
    requires ready { D.ready doing.now }
    requires table { (table_id table.now ≡ S.table) × (places table.now ≡ D.count doing.now) }
    requires yard { deques yard.now ≡ S.deques }
    ensures { IfOk result (λ all. AreEnds (D.promises doing.now) D.noted (map (λ w. known_by w.taker) workers.items)
        (map (λ w. w.ran.items) all.items) (map (λ w. w.notes) all.items)) }
{
    let ended = thread::map_vec(
        rt,
        workers,
        &|worker: ReadyWorker<T, S>| -> Result<BusyWorker<S, A, N>, NoMemory>
            requires { D.ready doing.now × (table_id table.now ≡ S.table)
                × (places table.now ≡ D.count doing.now) × (deques yard.now ≡ S.deques) }
            ensures { IfOk result (λ w. IsEnd (D.promises doing.entry.now) D.noted (known_by worker.taker) w.ran.items
                w.notes) }
        { work(alloc, doing, table, yard, worker) },
    )?;
    let all = all_ended(alloc, ended)?;
    Ok(all)
}

// What all workers answered, if none of them lacked memory.
fn all_ended<S: Sharing, A: Drop, N: Drop>(
    alloc: Global,
    ended: Vec<Result<BusyWorker<S, A, N>, NoMemory>>,
) -> Result<Vec<BusyWorker<S, A, N>>, NoMemory>
    ensures { IfOk result (λ all. map Ok all.items ≡ ended.items) }
{
    let mut all = Vec::with_capacity(alloc, ended.len())?;
    for one in ended {
        let worker = one?;
        all.push(worker)?;
    }
    Ok(all)
}
