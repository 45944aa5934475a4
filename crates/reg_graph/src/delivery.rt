//! The event that puts a parcel into its dock.

ghost use Rattle.std.specs.Prelude.{◌≡◌, ◌++◌, ◌≤◌, ◌<◌, Some, None, Ok, Err, [], ◌∷◌, length, slice_set, MatchResult};
ghost use Rattle.std.specs.Prelude.{OnOk, OnErr, IfErr, IfSome, vec_len, vec_capacity};
ghost use Rattle.std.specs.Option.{option_map, option_map_or};
ghost use Rattle.reg_book.specs.Day.{DayValue};
ghost use Rattle.reg_tasks.specs.Contexts.{the_day};
ghost use Rattle.reg_tasks.specs.Places.{IsPlaceOf};
ghost use Rattle.reg_schedules.specs.declared.event.EventFault.TheVariants.{NothingToDeliver};
ghost use Rattle.reg_schedules.specs.Pool.{footprint_at};
ghost use Rattle.reg_schedules.specs.World.{Carries, at_place, with_place, with_hand, delivered_by};
ghost use Rattle.reg_tasks.specs.Parcels.{parcels_of};
ghost use Rattle.reg_tasks.specs.Tasks.{task_of};
ghost use Rattle.reg_graph.specs.WorldParts.{docks_of, DocksHaveRoom, world_of, first_head, task_with, FirstIsSent};
ghost use Rattle.reg_graph.specs.WorldParts.{FirstHasRoom, NextIsSent, NextHasRoom};

use crate::hand::Hand;
use crate::world_parts::Parts;
use reg_schedules::EventFault;
use reg_tasks::{Context, Naming, Parcel, Task};
use std::alloc::Global;
use std::mem;

// The place to which an arrow leads on from the first of these parcels, if there is one.
fn first_head<N: Naming>(context: &Context<N>, parcels: &[Parcel<N>]) -> Option<u32>
    requires sent { FirstIsSent (the_day context.now) (parcels_of parcels.now) }
    ensures { result ≡ first_head context.now.plan (parcels_of parcels.now) }
{
    match parcels.split_first() {
        Some((first, _)) => context.head_of(first.after(), first.account()),
        None => None,
    }
}

// Takes out what came to the dock of a place, if it waits.
fn take_dock<N: Naming>(
    docks: &mut Vec<Option<Vec<Parcel<N>>>>,
    place: u32,
) -> Option<Vec<Parcel<N>>>
    ensures came { option_map (λ came. parcels_of came.items) result
        ≡ option_map_or (λ d. d) (at_place (docks_of docks.old.items) place) None }
    ensures room { (day : DayValue) → DocksHaveRoom day docks.old.items
        → IfSome result (λ came. vec_capacity came ≡ length (footprint_at day place)) }
    ensures left { docks_of docks.new.items ≡ with_place (docks_of docks.old.items) place None }
    ensures rooms { (day : DayValue) → DocksHaveRoom day docks.old.items → DocksHaveRoom day docks.new.items }
{
    if place == 0 {
        return None;
    }
    let at = place as usize - 1;
    if at >= docks.len() {
        return None;
    }
    docks[at].take()
}

// Puts back what came to the dock of a place.
fn put_dock<N: Naming>(docks: &mut Vec<Option<Vec<Parcel<N>>>>, place: u32, came: Vec<Parcel<N>>)
    requires from_one { 1 ≤ place }
    requires within { place ≤ length docks.old.items }
    ensures there { docks_of docks.new.items
        ≡ with_place (docks_of docks.old.items) place (Some (parcels_of came.items)) }
    ensures rooms { (day : DayValue) → DocksHaveRoom day docks.old.items
        → vec_capacity came ≡ length (footprint_at day place) → DocksHaveRoom day docks.new.items }
{
    docks[place as usize - 1] = Some(came);
}

// A parcel comes to a dock that has room for it. Answers the task of the place if it is complete now, and otherwise all
// that came.
fn receive<N: Naming>(
    context: &Context<N>,
    place: u32,
    mut came: Vec<Parcel<N>>,
    parcel: Parcel<N>,
) -> Result<Task<N>, Vec<Parcel<N>>>
    requires place { IsPlaceOf context.now.batch.now place }
    requires room { vec_len came < vec_capacity came }
    ensures { MatchResult result
        (λ t. task_with (the_day context.now) context.now.plan place came.items parcel ≡ Some (task_of t))
        (λ ps. (ps.items ≡ came.items ++ parcel ∷ []) × (vec_capacity ps ≡ vec_capacity came)
        × (task_with (the_day context.now) context.now.plan place came.items parcel ≡ None)) }
{
    came.push_reserved(parcel);
    Task::assemble(context, place, came)
}

impl<N: Naming> Parts<N> {
    // Delivers the first of these parcels for a worker with an empty hand.
    //
    // If that is not possible, they are in the hand then.
    fn deliver_held(
        &mut self,
        context: &Context<N>,
        worker: usize,
        mut parcels: Vec<Parcel<N>>,
    ) -> Result<(), EventFault>
        requires there { worker < length self.old.hands.items }
        requires places { length self.old.docks.items ≡ length context.now.batch.now.instructions }
        requires rooms { DocksHaveRoom (the_day context.now) self.old.docks.items }
        requires sent { FirstIsSent (the_day context.now) (parcels_of parcels.items) }
        requires room { FirstHasRoom (the_day context.now) context.now.plan (world_of self.old)
            (parcels_of parcels.items) }
        ensures rooms { DocksHaveRoom (the_day context.now) self.new.docks.items }
        ensures ok { OnOk result
            (delivered_by (the_day context.now) context.now.plan worker (world_of self.old)
            (Carries None (parcels_of parcels.items)) ≡ Ok (world_of self.new)) }
        ensures err { IfErr result
            (λ why. delivered_by (the_day context.now) context.now.plan worker (world_of self.old)
            (Carries None (parcels_of parcels.items)) ≡ Err why) }
        ensures back { OnErr result
            (world_of self.new ≡ record (world_of self.old) {
              hands = slice_set (world_of self.old).hands worker
                  (Carries None (parcels_of parcels.items));
            }) }
    {
        let Some(place) = first_head(context, &parcels) else {
            self.hands[worker] = Hand::Carries(None, parcels);
            return Err(EventFault::NothingToDeliver);
        };
        let Some(came) = take_dock(&mut self.docks, place) else {
            self.hands[worker] = Hand::Carries(None, parcels);
            return Err(EventFault::NothingToDeliver);
        };
        let parcel = parcels.remove(0);
        match receive(context, place, came, parcel) {
            Ok(task) => {
                self.hands[worker] = Hand::Carries(Some(task), parcels);
                Ok(())
            }
            Err(came) => {
                put_dock(&mut self.docks, place, came);
                self.hands[worker] = Hand::Carries(None, parcels);
                Ok(())
            }
        }
    }

    /// Delivers the first parcel in a worker's hand.
    ///
    /// # Errors
    /// Why that is not possible.
    pub(crate) fn deliver_parcel(
        &mut self,
        alloc: Global,
        context: &Context<N>,
        worker: u32,
    ) -> Result<(), EventFault>
        requires places { length self.old.docks.items ≡ length context.now.batch.now.instructions }
        requires rooms { DocksHaveRoom (the_day context.now) self.old.docks.items }
        requires sent { NextIsSent (the_day context.now) (world_of self.old) worker }
        requires room { NextHasRoom (the_day context.now) context.now.plan (world_of self.old) worker }
        ensures rooms { DocksHaveRoom (the_day context.now) self.new.docks.items }
        ensures answer { MatchResult result
            (λ _. with_hand (world_of self.old) worker
            (delivered_by (the_day context.now) context.now.plan worker (world_of self.old)) ≡ Ok (world_of self.new))
            (λ why. (world_of self.new ≡ world_of self.old)
            × (with_hand (world_of self.old) worker
            (delivered_by (the_day context.now) context.now.plan worker (world_of self.old)) ≡ Err why)) }
    {
        let worker = worker as usize;
        if worker >= self.hands.len() {
            return Err(EventFault::NoSuchWorker);
        }
        let empty = Hand::Carries(None, Vec::new(alloc));
        match mem::replace(&mut self.hands[worker], empty) {
            Hand::Carries(ready, parcels) => match ready {
                None => self.deliver_held(context, worker, parcels),
                Some(task) => {
                    self.hands[worker] = Hand::Carries(Some(task), parcels);
                    Err(EventFault::NothingToDeliver)
                }
            },
            Hand::Holds(task) => {
                self.hands[worker] = Hand::Holds(task);
                Err(EventFault::NothingToDeliver)
            }
        }
    }
}
