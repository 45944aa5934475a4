//! The docks of a day.

ghost use Rattle.std.specs.Prelude.{◌≡◌, length};
ghost use Rattle.reg_base.specs.Rising.{count_up};
ghost use Rattle.reg_yard.specs.Docks.{dock_places};

use crate::locked::LockedDock;
use crate::places::place_for;
use crate::start::{open_docks, waiting_docks};
use reg_base::NoMemory;
use reg_tasks::{Context, Naming, Parcel, Task};
use std::alloc::Global;
use std::sync::Wait;

/// A dock for each instruction of the day, in the order of the instructions, each behind a lock of its own.
#[derive(Drop)]
pub struct Docks<'c, 'a, N: Naming> {
    context: &'c Context<'a, N>,
    docks: Vec<LockedDock<'c, 'a, N>>,
    pub ghost in_order: { dock_places docks.items ≡ count_up 1 (length context.now.batch.now.instructions) },
}

impl<'c, 'a, N: Naming> Docks<'c, 'a, N> {
    ghost use Rattle.std.specs.Prelude.{None, Some, true, is_err, map, Contains, IfOk, IfErr, IfSome};
    ghost use Rattle.std.specs.Option.{option_map};
    ghost use Rattle.reg_tasks.specs.Contexts.{the_day};
    ghost use Rattle.reg_tasks.specs.Tasks.{task_of};
    ghost use Rattle.reg_yard.specs.AtOnce.{tasks_at_once};
    ghost use Rattle.reg_yard.specs.Parcels.{parcel_of, goes_to};
    ghost use Rattle.reg_yard.specs.Held.{IsTaken};

    /// A dock for each instruction, to which nothing has come yet, and the tasks of those that touch no account, by
    /// rising place.
    ///
    /// The time is linear in the instructions.
    ///
    /// # Errors
    /// `NoMemory` if memory ran out.
    pub fn new(
        alloc: Global,
        context: &'c Context<'a, N>,
    ) -> Result<(Docks<'c, 'a, N>, Vec<Task<N>>), NoMemory>
        ensures context { IfOk result (λ r. r.0.context.now ≡ context.now) }
        ensures tasks { IfOk result (λ r. map task_of r.1.items ≡ tasks_at_once (the_day context.now)) }
    {
        let (docks, tasks) = open_docks(alloc, context)?;
        Ok((Docks { context, docks }, tasks))
    }

    /// A dock for each instruction that waits for another, to which nothing has come yet. The docks of all others are
    /// those of instructions whose tasks have gone out: whoever makes these docks makes their tasks too, by
    /// [`Task::open`].
    ///
    /// The time is linear in the instructions.
    ///
    /// # Errors
    /// `NoMemory` if memory ran out.
    pub fn of_waiting(
        alloc: Global,
        context: &'c Context<'a, N>,
    ) -> Result<Docks<'c, 'a, N>, NoMemory>
        ensures context { IfOk result (λ docks. docks.context.now ≡ context.now) }
    {
        let docks = waiting_docks(alloc, context)?;
        Ok(Docks { context, docks })
    }

    // The dock of a place, counted from 1.
    fn dock_of(&self, place: u32) -> Option<&LockedDock<'c, 'a, N>>
        ensures { IfSome result (λ dock. dock.now.place ≡ place) }
    {
        if place == 0 {
            return None;
        }
        self.docks.get(place as usize - 1)
    }

    /// Delivers a parcel to the dock of the place that awaits it, once no other thread is at that dock: an opening
    /// value to the first instruction that touches its account, any other to the head of the arrow that leads on from
    /// it. Answers the task of that place if the parcel is the last that was awaited. Takes no memory.
    ///
    /// # Errors
    /// The parcel, if nothing awaits it, or if it has come already.
    pub fn deliver<R: Wait>(
        &self,
        wait: &R,
        parcel: Parcel<N>,
    ) -> Result<Option<Task<N>>, Parcel<N>>
        ensures nowhere { goes_to self.now.context.now.plan (parcel_of parcel) ≡ None → is_err result ≡ true }
        ensures place { IfOk result
            (λ task. IfSome task (λ t. goes_to self.now.context.now.plan (parcel_of parcel) ≡ Some t.place)) }
        ensures has { IfOk result (λ task. IfSome task (λ t. Contains t.parcels.items parcel)) }
        ensures taken { IfOk result
            (λ task. IsTaken N.day (goes_to self.now.context.now.plan (parcel_of parcel)) (parcel_of parcel)
            (option_map task_of task)) }
        ensures back { IfErr result (λ p. p ≡ parcel) }
    {
        let Some(place) = place_for(self.context, &parcel) else {
            return Err(parcel);
        };
        let Some(dock) = self.dock_of(place) else {
            return Err(parcel);
        };
        dock.deliver(wait, parcel)
    }
}
