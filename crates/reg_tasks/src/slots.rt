//! The parcels that stand between the instructions of a day: one for each account that an instruction touches.

ghost use Rattle.std.specs.Prelude.{◌≡◌, length};

use crate::context::Context;
use crate::done::Done;
use crate::gather::settle_log;
use crate::lack::Lack;
use crate::naming::Naming;
use crate::outcome::{Ran, TaskOutcome};
use crate::parcel::Parcel;
use crate::slot::{are_ready, empty_slots, have_slots, lay_parcels, open_slots, take_parcels};
use crate::task::Task;
use reg_base::NoMemory;
use reg_base::laws::{each_footprint_is_sound, last_toucher_is_last};
use reg_book::Settled;
use reg_plan::laws::tails_are_last_touchers;
use reg_rules::LogRow;
use std::alloc::Global;

/// A slot for each account that an instruction of the day touches. The parcel that the last instruction so far left
/// stands in it, or the opening value, until the next instruction takes it.
#[derive(Drop)]
pub struct Slots<'c, 'a, N: Naming> {
    context: &'c Context<'a, N>,
    slots: Vec<Option<Parcel<N>>>,
    pub ghost size: { length slots.items ≡ length context.now.plan.openings },
}

impl<'c, 'a, N: Naming> Slots<'c, 'a, N> {
    ghost use Rattle.std.specs.Prelude.{ℕ, Some, IfOk, IfErr, IfSome};
    ghost use Rattle.reg_book.specs.Day.{DayValue, settled_day};
    ghost use Rattle.reg_book.specs.Settled.{IsOfBook};
    ghost use Rattle.reg_tasks.specs.Contexts.{the_day};
    ghost use Rattle.reg_tasks.specs.Places.{IsPlaceOf};
    ghost use Rattle.reg_base.specs.Rising.{count_up};
    ghost use Rattle.reg_tasks.specs.Gathering.{places_of, AreFirstRows};
    ghost use Rattle.reg_tasks.specs.Slots.{AreOpened, IsAtEnd, LacksFor};
    ghost use Rattle.reg_tasks.specs.Standing.{stands};
    ghost use Rattle.reg_tasks.specs.Turns.{TakesTask, LaysForRow, LaysForReply};

    /// The slots before the first instruction: the opening value stands in each.
    ///
    /// The time is linear in the touched accounts, look-ups apart.
    ///
    /// # Errors
    /// `NoMemory` if memory ran out.
    pub fn open(alloc: Global, context: &'c Context<'a, N>) -> Result<Slots<'c, 'a, N>, NoMemory>
        ensures context { IfOk result (λ s. s.context.now ≡ context.now) }
        ensures opened { IfOk result (λ s. AreOpened (the_day context.now) (stands s)) }
    {
        last_toucher_is_last();
        tails_are_last_touchers();
        let slots = open_slots(alloc, context)?;
        Ok(Slots { context, slots })
    }

    /// The day whose touched accounts have these slots.
    pub fn context(&self) -> &'c Context<'a, N>
        ensures { result.now ≡ self.now.context.now }
    {
        self.context
    }

    /// Takes the parcels that the instruction at a place needs out of their slots, and makes its task. The place is
    /// counted from 1.
    ///
    /// # Errors
    /// `Foreign` if one of them is not there. Otherwise `Memory` if memory ran out. Nothing is taken then.
    pub fn take(&mut self, alloc: Global, place: u32) -> Result<Task<N>, Lack>
        requires place { IsPlaceOf self.old.context.now.batch.now place }
        ensures { TakesTask place self.old self.new result }
    {
        each_footprint_is_sound();
        let context = self.context;
        let accounts = context.touched_at(place);
        let likely = context.likely_slots(place);
        if !are_ready(
            context.openings(),
            &self.slots,
            accounts,
            context.arrows_to(place),
            likely,
        ) {
            return Err(Lack::Foreign);
        }
        let parcels = take_parcels(alloc, context.openings(), &mut self.slots, accounts, likely)?;
        let task = Task::of_needed(context, place, parcels);
        Ok(task)
    }

    /// Lays what an instruction left into the slots of its accounts, in place of what stood there, and answers its run
    /// and its row in the log.
    ///
    /// # Errors
    /// The outcome as it was, if one of its accounts has no slot. Nothing is laid then. If a day is named, this does
    /// not occur.
    pub fn lay_for_row(
        &mut self,
        outcome: TaskOutcome<N>,
    ) -> Result<(Ran<N>, LogRow), TaskOutcome<N>>
        ensures { LaysForRow outcome self.old self.new result }
    {
        last_toucher_is_last();
        tails_are_last_touchers();
        let openings = self.context.openings();
        if !have_slots(openings, outcome.parcels()) {
            return Err(outcome);
        }
        let (ran, row, parcels) = outcome.into_parts();
        lay_parcels(openings, &mut self.slots, parcels);
        Ok((ran, row))
    }

    /// Lays what an instruction left into the slots of its accounts, in place of what stood there, and answers what is
    /// kept of the instruction itself.
    ///
    /// # Errors
    /// The outcome as it was, if one of its accounts has no slot. Nothing is laid then. If a day is named, this does
    /// not occur.
    pub fn lay(&mut self, outcome: TaskOutcome<N>) -> Result<(Ran<N>, Done<N>), TaskOutcome<N>>
        ensures { LaysForReply outcome self.old self.new result }
    {
        let (ran, row) = self.lay_for_row(outcome)?;
        let done = Done::new(ran.place(), row);
        Ok((ran, done))
    }

    /// The settled day, from its log in the order of the batch, and what stands in the slots. If a day is named, the
    /// log must be its log.
    ///
    /// # Errors
    /// `Memory` if memory ran out. `Foreign` if what stands for some account is not what its last instruction left. If
    /// no day is named, also if the log is that of another context.
    pub fn into_settled_with(self, alloc: Global, log: Vec<LogRow>) -> Result<Settled, Lack>
        requires log { AreFirstRows N.day (length self.context.now.batch.now.instructions) log.items }
        ensures settled { IfOk result (λ s. IfSome N.day (λ d. s ≡ settled_day d)) }
        ensures of_book { IfOk result (λ s. IsOfBook self.entry.context.now.book.now s) }
        ensures lack { IfErr result
            (LacksFor ((d : DayValue) → N.day ≡ Some d
            → ¬ (IsAtEnd d (count_up 1 (length d.batch.instructions)) (stands self.entry)))) }
    {
        last_toucher_is_last();
        tails_are_last_touchers();
        let Slots { context, slots, .. } = self;
        let parcels = empty_slots(alloc, context, slots)?;
        settle_log(alloc, context, log, parcels)
    }

    /// The settled day, from what is kept of each instruction, in any order, and what stands in the slots.
    ///
    /// # Errors
    /// `Memory` if memory ran out. `Foreign` if there is not exactly one reply for each place, or if what stands for
    /// some account is not what its last instruction left. If no day is named, also if they are of another context.
    pub fn into_settled(self, alloc: Global, done: Vec<Done<N>>) -> Result<Settled, Lack>
        ensures settled { IfOk result (λ s. IfSome N.day (λ d. s ≡ settled_day d)) }
        ensures of_book { IfOk result (λ s. IsOfBook self.entry.context.now.book.now s) }
        ensures lack { IfErr result
            (LacksFor ((d : DayValue) → N.day ≡ Some d → ¬ (IsAtEnd d (places_of done.items) (stands self.entry)))) }
    {
        last_toucher_is_last();
        tails_are_last_touchers();
        let Slots { context, slots, .. } = self;
        let parcels = empty_slots(alloc, context, slots)?;
        context.gather_done(alloc, done, parcels)
    }
}
