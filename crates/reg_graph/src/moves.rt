//! The events that take a task in hand and put one at the end of a list.

ghost use Rattle.std.specs.Prelude.{◌≡◌, Ok, Err, MatchResult};
ghost use Rattle.reg_schedules.specs.World.{with_hand, pushed_by};
ghost use Rattle.reg_graph.specs.WorldParts.{world_of, after_taking, after_stealing, ListHasRoom};

use crate::hand::Hand;
use crate::world_parts::Parts;
use reg_schedules::EventFault;
use reg_tasks::Naming;

impl<N: Naming> Parts<N> {
    /// Moves the first task of a list to a worker's empty hand.
    ///
    /// # Errors
    /// Why that is not possible.
    pub(crate) fn take_task(&mut self, worker: u32, from: u32) -> Result<(), EventFault>
        ensures docks { self.new.docks.items ≡ self.old.docks.items }
        ensures answer { MatchResult result
            (λ _. after_taking (world_of self.old) worker from ≡ Ok (world_of self.new))
            (λ why. (world_of self.new ≡ world_of self.old)
            × (after_taking (world_of self.old) worker from ≡ Err why)) }
    {
        let worker = worker as usize;
        let from = from as usize;
        if worker >= self.hands.len() || from >= self.lists.len() {
            return Err(EventFault::NoSuchWorker);
        }
        if !self.hands[worker].is_empty() {
            return Err(EventFault::HandsFull);
        }
        match self.lists[from].pop_front() {
            Some(task) => {
                self.hands[worker] = Hand::Holds(task);
                Ok(())
            }
            None => Err(EventFault::EmptyDeque),
        }
    }

    /// Moves the first task of another worker's list to a worker's empty hand.
    ///
    /// # Errors
    /// Why that is not possible.
    pub(crate) fn steal_task(&mut self, worker: u32, from: u32) -> Result<(), EventFault>
        ensures docks { self.new.docks.items ≡ self.old.docks.items }
        ensures answer { MatchResult result
            (λ _. after_stealing (world_of self.old) worker from ≡ Ok (world_of self.new))
            (λ why. (world_of self.new ≡ world_of self.old)
            × (after_stealing (world_of self.old) worker from ≡ Err why)) }
    {
        if worker != from {
            return self.take_task(worker, from);
        }
        if worker as usize >= self.hands.len() {
            return Err(EventFault::NoSuchWorker);
        }
        Err(EventFault::OwnDeque)
    }

    /// Puts the task that became complete in a worker's hand at the end of its list.
    ///
    /// # Errors
    /// Why that is not possible.
    pub(crate) fn push_task(&mut self, worker: u32) -> Result<(), EventFault>
        requires room { ListHasRoom (world_of self.old) worker }
        ensures docks { self.new.docks.items ≡ self.old.docks.items }
        ensures answer { MatchResult result
            (λ _. with_hand (world_of self.old) worker (pushed_by worker (world_of self.old)) ≡ Ok (world_of self.new))
            (λ why. (world_of self.new ≡ world_of self.old)
            × (with_hand (world_of self.old) worker (pushed_by worker (world_of self.old)) ≡ Err why)) }
    {
        let worker = worker as usize;
        if worker >= self.hands.len() {
            return Err(EventFault::NoSuchWorker);
        }
        let Hand::Carries(ready, _) = &mut self.hands[worker] else {
            return Err(EventFault::NothingToPush);
        };
        let Some(task) = ready.take() else {
            return Err(EventFault::NothingToPush);
        };
        self.lists[worker].push_back_reserved(task);
        Ok(())
    }
}
