//! Carrying events out.

ghost use Rattle.std.specs.Prelude.{◌≡◌, ◌≤◌, ℕ, Ok, length, MatchResult};
ghost use Rattle.reg_tasks.specs.Contexts.{the_day};
ghost use Rattle.reg_schedules.specs.World.{after_event};
ghost use Rattle.reg_schedules.specs.Schedules.{times_found};
ghost use Rattle.reg_graph.specs.WorldParts.{world_of, IsWhyOf, HeldIsOfBatch, ListHasRoom, NextIsSent, NextHasRoom};
ghost use Rattle.reg_schedules.specs.declared.event.TheConstants.{MOST_WORKERS};

use crate::world::World;
use reg_base::laws::{each_footprint_is_sound, last_toucher_is_last};
use reg_plan::laws::tails_are_last_touchers;
use reg_rules::step_laws;
use reg_schedules::{Event, EventFault};
use reg_tasks::Naming;

impl<N: Naming> World<'_, '_, N> {
    // What is known of a world that a schedule leads to. This method does nothing.
    pub(crate) fn knows(&self)
        ensures rows { length self.now.parts.rows.items ≡ length self.now.context.now.batch.now.instructions }
        ensures docks { length self.now.parts.docks.items ≡ length self.now.context.now.batch.now.instructions }
        ensures few { length self.now.parts.hands.items ≤ MOST_WORKERS }
        ensures once { (place : ℕ) → 1 ≤ place → place ≤ length self.now.context.now.batch.now.instructions
            → times_found (world_of self.now.parts) place ≡ 1 }
        ensures list_room { (worker : ℕ) → ListHasRoom (world_of self.now.parts) worker }
        ensures held { (worker : ℕ) → HeldIsOfBatch (the_day self.now.context.now) (world_of self.now.parts) worker }
        ensures sent { (worker : ℕ) → NextIsSent (the_day self.now.context.now) (world_of self.now.parts) worker }
        ensures dock_room { (worker : ℕ)
            → NextHasRoom (the_day self.now.context.now) self.now.context.now.plan (world_of self.now.parts) worker }
    {
        self.context.is_day();
        each_footprint_is_sound();
        step_laws();
        last_toucher_is_last();
        tails_are_last_touchers();
    }

    /// Carries out an event. Only a `Run` takes memory.
    ///
    /// # Errors
    /// The world is unchanged. The answer is the first reason why the event is not possible:
    /// - `NoSuchWorker` if the world has no such worker, for a `Steal` also if it has not the one that is stolen from;
    /// - `OwnDeque` if a `Steal` is from the worker itself;
    /// - `HandsFull` if something is in the hand of the worker of a `Pop` or a `Steal`;
    /// - `EmptyDeque` if the list has no task for a `Pop` or a `Steal`;
    /// - `NothingToRun`, `NothingToDeliver` or `NothingToPush` if the worker has in hand no task to run, no parcel to
    ///   deliver, or no task that became complete;
    /// - `NoMemory` if a `Run` is possible and memory ran out. The task is still in the hand, so the same event may
    ///   come again.
    pub fn event(&mut self, event: Event) -> Result<(), EventFault>
        ensures context { self.new.context.now ≡ self.old.context.now }
        ensures answer { MatchResult result
            (λ _. after_event (the_day self.old.context.now) self.old.context.now.plan (world_of self.old.parts) event
            ≡ Ok (world_of self.new.parts))
            (λ why. (world_of self.new.parts ≡ world_of self.old.parts)
            × IsWhyOf event (after_event (the_day self.old.context.now) self.old.context.now.plan
            (world_of self.old.parts) event) why) }
    {
        self.knows();
        match event {
            Event::Pop { worker } => self.parts.take_task(worker, worker),
            Event::Steal { worker, from } => self.parts.steal_task(worker, from),
            Event::Run { worker } => self.parts.run_task(self.alloc, self.context, worker),
            Event::Deliver { worker } => self
                .parts
                .deliver_parcel(self.alloc, self.context, worker),
            Event::Push { worker } => self.parts.push_task(worker),
        }
    }
}
