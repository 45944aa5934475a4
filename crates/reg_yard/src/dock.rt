//! Where the parcels of an instruction come together.

ghost use Rattle.std.specs.Prelude.{◌≡◌};
ghost use Rattle.reg_tasks.specs.Contexts.{the_day};
ghost use Rattle.reg_tasks.specs.Places.{IsPlaceOf};
ghost use Rattle.reg_yard.specs.Held.{FewWait, HaveRoom};

use crate::assemble::try_assemble;
use crate::awaited::{awaited_accounts, is_awaited};
use reg_base::NoMemory;
use reg_tasks::{Context, Naming, Parcel, Task};
use std::alloc::Global;

/// Where the parcels that an instruction needs wait for each other. The task goes out with the last of them, and from
/// then on nothing is awaited.
#[derive(Drop)]
pub struct Dock<'c, 'a, N: Naming> {
    context: &'c Context<'a, N>,
    place: u32,
    waiting: Option<Vec<Parcel<N>>>,
    pub ghost place_is: { IsPlaceOf context.now.batch.now place },
    pub ghost few: { FewWait (the_day context.now) context.now.plan place waiting },
    pub ghost room: { HaveRoom (the_day context.now) place waiting },
}

impl<'c, 'a, N: Naming> Dock<'c, 'a, N> {
    ghost use Rattle.std.specs.Prelude.{[], true, not, Some, None, is_some, is_err, IfOk, IfErr, IfSome, OnErr};
    ghost use Rattle.std.specs.Prelude.{Contains};
    ghost use Rattle.std.specs.Option.{option_map};
    ghost use Rattle.reg_tasks.specs.Tasks.{task_of};
    ghost use Rattle.reg_yard.specs.AtOnce.{task_at_once};
    ghost use Rattle.reg_yard.specs.Parcels.{parcel_of};
    ghost use Rattle.reg_yard.specs.Held.{left_at, IsTaken};
    ghost use Rattle.reg_yard.specs.Dock.{came_to, refuses, after_parcel};

    /// The dock of a place, to which nothing has come yet, and its task, exactly if the instruction touches no account.
    /// The place is counted from 1.
    ///
    /// # Errors
    /// `NoMemory` if memory ran out.
    pub fn new(
        alloc: Global,
        context: &'c Context<'a, N>,
        place: u32,
    ) -> Result<(Dock<'c, 'a, N>, Option<Task<N>>), NoMemory>
        requires place { IsPlaceOf context.now.batch.now place }
        ensures context { IfOk result (λ r. r.0.context.now ≡ context.now) }
        ensures place { IfOk result (λ r. r.0.place ≡ place) }
        ensures left { IfOk result
            (λ r. (came_to r.0, option_map task_of r.1) ≡ left_at (the_day context.now) context.now.plan place []) }
        ensures at_once { IfOk result (λ r. option_map task_of r.1 ≡ task_at_once (the_day context.now) place) }
    {
        let none = Vec::with_capacity(alloc, awaited_accounts(context, place).len())?;
        let (waiting, task) = try_assemble(context, place, none);
        let dock = Dock {
            context,
            place,
            waiting,
        };
        Ok((dock, task))
    }

    /// The dock of a place whose instruction waits for others, to which nothing has come yet. The place is counted from
    /// 1.
    ///
    /// # Errors
    /// `NoMemory` if memory ran out.
    pub(crate) fn waiting(
        alloc: Global,
        context: &'c Context<'a, N>,
        place: u32,
    ) -> Result<Dock<'c, 'a, N>, NoMemory>
        requires place { IsPlaceOf context.now.batch.now place }
        ensures place { IfOk result (λ dock. dock.place ≡ place) }
        ensures came { IfOk result (λ dock. came_to dock ≡ Some []) }
    {
        let none = Vec::with_capacity(alloc, awaited_accounts(context, place).len())?;
        Ok(Dock {
            context,
            place,
            waiting: Some(none),
        })
    }

    /// The dock of a place whose task has gone out. The place is counted from 1.
    pub(crate) fn emptied(context: &'c Context<'a, N>, place: u32) -> Dock<'c, 'a, N>
        requires place { IsPlaceOf context.now.batch.now place }
        ensures place { result.place ≡ place }
        ensures out { came_to result ≡ None }
    {
        Dock {
            context,
            place,
            waiting: None,
        }
    }

    /// The place of its instruction, counted from 1.
    pub fn place(&self) -> u32
        ensures { result ≡ self.now.place }
    {
        self.place
    }

    // Whether the parcel is still awaited. Then there is room for it.
    fn awaits(&self, parcel: &Parcel<N>) -> bool
        ensures awaits { result ≡ not (refuses self.now parcel.now) }
        ensures open { result ≡ true → is_some self.now.waiting ≡ true }
    {
        match &self.waiting {
            Some(waiting) => is_awaited(self.context, self.place, waiting, parcel),
            None => false,
        }
    }

    /// A parcel comes. Answers the task if the parcel is the last that was awaited. Takes no memory.
    ///
    /// # Errors
    /// The parcel, if it is not awaited or has come already.
    pub fn deliver(&mut self, parcel: Parcel<N>) -> Result<Option<Task<N>>, Parcel<N>>
        ensures context { self.new.context.now ≡ self.old.context.now }
        ensures place { self.new.place ≡ self.old.place }
        ensures refused { is_err result ≡ refuses self.old parcel }
        ensures delivered { IfOk result
            (λ task. (came_to self.new, option_map task_of task) ≡ after_parcel self.old parcel) }
        ensures at { IfOk result (λ task. IfSome task (λ t. t.place ≡ self.old.place)) }
        ensures has { IfOk result (λ task. IfSome task (λ t. Contains t.parcels.items parcel)) }
        ensures back { IfErr result (λ p. p ≡ parcel) }
        ensures unchanged { OnErr result (self.new ≡ self.old) }
    {
        if !self.awaits(&parcel) {
            return Err(parcel);
        }
        let mut parcels = self.waiting.take().unwrap();
        parcels.push_reserved(parcel);
        let (waiting, task) = try_assemble(self.context, self.place, parcels);
        self.waiting = waiting;
        Ok(task)
    }

    // A parcel for this place comes, if this is the dock of the place.
    pub(crate) fn deliver_at(
        &mut self,
        place: u32,
        parcel: Parcel<N>,
    ) -> Result<Option<Task<N>>, Parcel<N>>
        ensures at { IfOk result (λ task. IfSome task (λ t. t.place ≡ place)) }
        ensures has { IfOk result (λ task. IfSome task (λ t. Contains t.parcels.items parcel)) }
        ensures taken { IfOk result (λ task. IsTaken N.day (Some place) (parcel_of parcel) (option_map task_of task)) }
        ensures back { IfErr result (λ p. p ≡ parcel) }
        ensures unchanged { OnErr result (self.new ≡ self.old) }
    {
        if self.place != place {
            return Err(parcel);
        }
        self.deliver(parcel)
    }
}
