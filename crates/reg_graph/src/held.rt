//! The event that runs the task in a worker's hand.

ghost use Rattle.std.specs.Prelude.{◌≡◌, ◌+◌, ◌++◌, ◌≤◌, ◌<◌, Ok, not, [], length, map, filter, slice_set, MatchResult};
ghost use Rattle.std.specs.Prelude.{OnOk, OnErr, IfErr, vec_len, vec_capacity};
ghost use Rattle.reg_tasks.specs.Contexts.{the_day};
ghost use Rattle.reg_tasks.specs.Places.{IsPlaceOf};
ghost use Rattle.reg_schedules.specs.Pool.{leads_on};
ghost use Rattle.reg_schedules.specs.World.{Holds, with_hand, run_by};
ghost use Rattle.reg_tasks.specs.Parcels.{parcels_of};
ghost use Rattle.reg_tasks.specs.Tasks.{task_of};
ghost use Rattle.reg_graph.specs.WorldParts.{world_of, IsWhy, HeldIsOfBatch};
ghost use Rattle.reg_schedules.specs.declared.event.EventFault.TheVariants.{NoMemory};

use crate::hand::Hand;
use crate::world_parts::Parts;
use reg_account::Account;
use reg_schedules::EventFault;
use reg_tasks::{Context, Naming, Parcel, Task};
use std::alloc::Global;
use std::mem;

// The parcels from which an arrow leads on, in their order. The accounts of the others are added to the closing ones.
fn keep_leading<N: Naming>(
    context: &Context<N>,
    place: u32,
    parcels: Vec<Parcel<N>>,
    mut kept: Vec<Parcel<N>>,
    closing: &mut Vec<Account>,
) -> Vec<Parcel<N>>
    requires place { IsPlaceOf context.now.batch.now place }
    requires empty { kept.items ≡ [] }
    requires fits { length parcels.items ≤ vec_capacity kept }
    requires room { vec_len closing.old + length parcels.items ≤ vec_capacity closing.old }
    ensures kept { parcels_of result.items
        ≡ filter (λ p. leads_on context.now.plan place p.value.number) (parcels_of parcels.items) }
    ensures closing { closing.new.items
        ≡ closing.old.items ++ map (λ p. p.value)
        (filter (λ p. not (leads_on context.now.plan place p.value.number)) (parcels_of parcels.items)) }
{
    for parcel in parcels {
        if context.leads_on(place, parcel.account()) {
            kept.push_reserved(parcel);
        } else {
            let (value, _) = parcel.into_parts();
            closing.push_reserved(value);
        }
    }
    kept
}

impl<N: Naming> Parts<N> {
    // Runs a task for a worker with an empty hand.
    //
    // If memory runs out, the task is in the hand then.
    fn run_held(
        &mut self,
        alloc: Global,
        context: &Context<N>,
        worker: usize,
        task: Task<N>,
    ) -> Result<(), EventFault>
        requires there { worker < length self.old.hands.items }
        requires places { length self.old.rows.items ≡ length context.now.batch.now.instructions }
        requires place { IsPlaceOf context.now.batch.now task.place }
        ensures docks { self.new.docks.items ≡ self.old.docks.items }
        ensures ok { OnOk result
            (run_by (the_day context.now) context.now.plan worker (world_of self.old) (Holds (task_of task))
            ≡ Ok (world_of self.new)) }
        ensures err { IfErr result (λ why. why ≡ NoMemory) }
        ensures back { OnErr result
            (world_of self.new ≡ record (world_of self.old) {
              hands = slice_set (world_of self.old).hands worker
                  (Holds (task_of task));
            }) }
    {
        let count = task.parcel_count();
        let Ok(kept) = Vec::with_capacity(alloc, count) else {
            self.hands[worker] = Hand::Holds(task);
            return Err(EventFault::NoMemory);
        };
        if self.closing.reserve(count).is_err() {
            self.hands[worker] = Hand::Holds(task);
            return Err(EventFault::NoMemory);
        }
        match task.run(alloc, context) {
            Ok(outcome) => {
                let (ran, row, parcels) = outcome.into_parts();
                let place = ran.place();
                let kept = keep_leading(context, place, parcels, kept, &mut self.closing);
                self.rows[place as usize - 1] = Some(row);
                self.hands[worker] = Hand::Carries(None, kept);
                Ok(())
            }
            Err(task) => {
                self.hands[worker] = Hand::Holds(task);
                Err(EventFault::NoMemory)
            }
        }
    }

    /// Runs the task in a worker's hand.
    ///
    /// # Errors
    /// Why that is not possible. `NoMemory` if memory ran out: the task is still in the hand.
    pub(crate) fn run_task(
        &mut self,
        alloc: Global,
        context: &Context<N>,
        worker: u32,
    ) -> Result<(), EventFault>
        requires places { length self.old.rows.items ≡ length context.now.batch.now.instructions }
        requires within { HeldIsOfBatch (the_day context.now) (world_of self.old) worker }
        ensures docks { self.new.docks.items ≡ self.old.docks.items }
        ensures answer { MatchResult result
            (λ _. with_hand (world_of self.old) worker
            (run_by (the_day context.now) context.now.plan worker (world_of self.old)) ≡ Ok (world_of self.new))
            (λ why. (world_of self.new ≡ world_of self.old)
            × IsWhy (with_hand (world_of self.old) worker
            (run_by (the_day context.now) context.now.plan worker (world_of self.old))) why) }
    {
        let worker = worker as usize;
        if worker >= self.hands.len() {
            return Err(EventFault::NoSuchWorker);
        }
        let empty = Hand::Carries(None, Vec::new(alloc));
        match mem::replace(&mut self.hands[worker], empty) {
            Hand::Holds(task) => self.run_held(alloc, context, worker, task),
            Hand::Carries(ready, parcels) => {
                self.hands[worker] = Hand::Carries(ready, parcels);
                Err(EventFault::NothingToRun)
            }
        }
    }
}
