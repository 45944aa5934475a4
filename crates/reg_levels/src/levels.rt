//! The levels of a day, one after another.

ghost use Rattle.std.specs.Prelude.{◌≡◌, ◌+◌, ◌≤◌, None, take, length, vec_len, vec_capacity};
ghost use Rattle.reg_plan.specs.Orders.{first_order_fault};
ghost use Rattle.reg_tasks.specs.Contexts.{the_day};
ghost use Rattle.reg_tasks.specs.Gathering.{places_of as places_done};
ghost use Rattle.reg_tasks.specs.Standing.{stands};
ghost use Rattle.reg_levels.specs.Levels.{AreBetween, IsByLevel, IsOneLevel, places_between};

use crate::order::{level_end, order_by_level};
use reg_base::NoMemory;
use reg_base::laws::last_toucher_is_last;
use reg_book::Settled;
use reg_plan::laws::{
    levels_rise_along_arrows, no_fault_is_a_legal_order, tails_are_last_touchers,
};
use reg_tasks::{Context, Done, Lack, Naming, Slots, Task, TaskOutcome};
use std::alloc::Global;

/// The instructions of a day, level by level. The tasks of a level are taken together, or some at a time. When they
/// were run, their outcomes are laid, and once those of the whole level are, the tasks of the next level are complete.
#[derive(Drop)]
pub struct Levels<'c, 'a, N: Naming> {
    slots: Slots<'c, 'a, N>,
    order: Vec<u32>,
    laid: usize,
    taken: usize,
    done: Vec<Done<N>>,
    pub ghost legal: { first_order_fault slots.context.now.plan order.items ≡ None },
    pub ghost by_level: { IsByLevel slots.context.now.plan order.items },
    pub ghost ahead: { laid ≤ taken },
    pub ghost within: { taken ≤ length order.items },
    pub ghost level: { IsOneLevel slots.context.now.plan order.items laid taken },
    pub ghost standing: { AreBetween N.day (the_day slots.context.now) (take laid order.items)
        (places_between order.items laid taken) (stands slots) },
    pub ghost rows: { places_done done.items ≡ take laid order.items },
    pub ghost room: { vec_len done + length order.items ≤ vec_capacity done + laid },
}

impl<'c, 'a, N: Naming> Levels<'c, 'a, N> {
    ghost use Rattle.std.specs.Prelude.{Bool, ◌<◌, ◌==◌, IfOk, IfErr, IfSome, OnOk, slice_index, nat_lt};
    ghost use Rattle.reg_book.specs.Day.{settled_day};
    ghost use Rattle.reg_book.specs.Settled.{IsOfBook};
    ghost use Rattle.reg_tasks.specs.Slots.{IsLack};
    ghost use Rattle.reg_tasks.specs.declared.lack.Lack.TheVariants.{Foreign};
    ghost use Rattle.reg_levels.specs.Levels.{places_run};
    ghost use Rattle.reg_levels.specs.Steps.{TakesLevel, LaysLevel};

    /// The levels of a day, before the first.
    ///
    /// The time is linear in the instructions, sorting and look-ups apart.
    ///
    /// # Errors
    /// `NoMemory` if memory ran out.
    pub fn open(alloc: Global, context: &'c Context<'a, N>) -> Result<Levels<'c, 'a, N>, NoMemory>
        ensures context { IfOk result (λ l. l.slots.context.now ≡ context.now) }
        ensures start { IfOk result (λ l. (l.laid ≡ 0) × (l.taken ≡ 0)) }
    {
        let order = order_by_level(alloc, context)?;
        let done = Vec::with_capacity(alloc, order.len())?;
        let slots = Slots::open(alloc, context)?;
        Ok(Levels {
            slots,
            order,
            laid: 0,
            taken: 0,
            done,
        })
    }

    /// Whether tasks are left to take.
    pub fn are_left(&self) -> bool
        ensures { result ≡ nat_lt self.now.taken (length self.now.order.items) }
    {
        self.taken < self.order.len()
    }

    // Takes the next task.
    fn take_one(&mut self, alloc: Global) -> Result<Task<N>, Lack>
        requires left { self.old.taken < length self.old.order.items }
        requires level { IsOneLevel self.old.slots.context.now.plan self.old.order.items self.old.laid
            (self.old.taken + 1) }
        ensures context { self.new.slots.context.now ≡ self.old.slots.context.now }
        ensures order { self.new.order ≡ self.old.order }
        ensures laid { self.new.laid ≡ self.old.laid }
        ensures taken { OnOk result (self.new.taken ≡ self.old.taken + 1) }
        ensures place { IfOk result (λ t. t.place ≡ slice_index self.old.order.items self.old.taken) }
        ensures lack { IfErr result (IsLack N.day) }
    {
        levels_rise_along_arrows();
        last_toucher_is_last();
        tails_are_last_touchers();
        let place = self.order[self.taken];
        let task = self.slots.take(alloc, place)?;
        self.taken += 1;
        Ok(task)
    }

    /// Takes the tasks of the next level, by rising place, or the first `most` of them that are left. `most` must be at
    /// least 1, tasks must be left, and the outcomes of all that were taken before must be laid.
    ///
    /// # Errors
    /// `Memory` if memory ran out. If no day is named, `Foreign` if a value of another context was laid. The tasks that
    /// were taken by this call are lost then.
    pub fn take(&mut self, alloc: Global, most: usize) -> Result<Vec<Task<N>>, Lack>
        requires laid { self.old.laid ≡ self.old.taken }
        requires left { self.old.taken < length self.old.order.items }
        requires most { 1 ≤ most }
        ensures { TakesLevel most self.old self.new result }
    {
        let context = self.slots.context();
        let end = level_end(context.plan(), &self.order, self.taken, most);
        let mut tasks = Vec::with_capacity(alloc, end - self.taken)?;
        for _ in self.taken..end {
            let task = self.take_one(alloc)?;
            tasks.push_reserved(task);
        }
        Ok(tasks)
    }

    // Lays the outcome of the first task that runs.
    fn lay_one(&mut self, outcome: TaskOutcome<N>) -> Result<(), Lack>
        requires running { self.old.laid < self.old.taken }
        requires place { outcome.place ≡ slice_index self.old.order.items self.old.laid }
        ensures context { self.new.slots.context.now ≡ self.old.slots.context.now }
        ensures order { self.new.order ≡ self.old.order }
        ensures taken { self.new.taken ≡ self.old.taken }
        ensures laid { OnOk result (self.new.laid ≡ self.old.laid + 1) }
        ensures foreign { IfErr result (λ lack. (lack ≡ Foreign) × (N.day ≡ None)) }
    {
        levels_rise_along_arrows();
        last_toucher_is_last();
        tails_are_last_touchers();
        let Ok((_, done)) = self.slots.lay(outcome) else {
            return Err(Lack::Foreign);
        };
        self.done.push_reserved(done);
        self.laid += 1;
        Ok(())
    }

    /// Lays what the tasks left that were taken last: the outcomes of all of them, in the order in which the tasks were
    /// taken. Takes no memory.
    ///
    /// # Errors
    /// `Foreign` if a value of another context comes. If a day is named, this does not occur.
    pub fn lay(&mut self, outcomes: Vec<TaskOutcome<N>>) -> Result<(), Lack>
        requires outcomes { places_run outcomes.items
            ≡ places_between self.old.order.items self.old.laid self.old.taken }
        ensures { LaysLevel self.old self.new result }
    {
        for outcome in outcomes {
            self.lay_one(outcome)?;
        }
        Ok(())
    }

    /// The settled day. The outcomes of all levels must be laid.
    ///
    /// # Errors
    /// `Memory` if memory ran out. If no day is named, `Foreign` if a value of another context was laid.
    pub fn into_settled(self, alloc: Global) -> Result<Settled, Lack>
        requires laid { self.laid ≡ length self.order.items }
        ensures settled { IfOk result (λ s. IfSome N.day (λ d. s ≡ settled_day d)) }
        ensures of_book { IfOk result (λ s. IsOfBook self.entry.slots.context.now.book.now s) }
        ensures lack { IfErr result (IsLack N.day) }
    {
        last_toucher_is_last();
        tails_are_last_touchers();
        no_fault_is_a_legal_order();
        let Levels { slots, done, .. } = self;
        slots.into_settled(alloc, done)
    }
}
