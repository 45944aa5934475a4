//! Where the instructions of a world are.

ghost use Rattle.std.specs.Prelude.{◌≡◌, ◌==◌};
ghost use Rattle.std.specs.List.{list_any};
ghost use Rattle.reg_tasks.specs.Places.{IsPlaceOf};
ghost use Rattle.reg_schedules.specs.World.{is_in_hand, is_over, IsAt};
ghost use Rattle.reg_graph.specs.WorldParts.{hand_of, world_of};

use crate::hand::Hand;
use crate::world::World;
use reg_schedules::Whereabouts;
use reg_tasks::{Naming, Task};
use std::collections::VecDeque;

// Whether a task of the place is in the list.
fn is_listed<N: Naming>(tasks: &VecDeque<Task<N>>, place: u32) -> bool
    ensures { result ≡ list_any (λ task. task.place == place) tasks.now.items }
{
    tasks.iter().any(|task| task.place() == place)
}

// Whether a task of the place is in the hand.
fn is_held<N: Naming>(hand: &Hand<N>, place: u32) -> bool
    ensures { result ≡ is_in_hand place (hand_of hand.now) }
{
    match hand {
        Hand::Holds(task) => task.place() == place,
        Hand::Carries(Some(task), _) => task.place() == place,
        Hand::Carries(None, _) => false,
    }
}

impl<N: Naming> World<'_, '_, N> {
    /// Where the instruction at a place is. The place is counted from 1.
    ///
    /// The time is linear in the tasks of the workers' lists.
    pub fn whereabouts(&self, place: u32) -> Whereabouts
        requires place { IsPlaceOf self.now.context.now.batch.now place }
        ensures { IsAt (world_of self.now.parts) place result }
    {
        self.knows();
        if self.parts.docks[place as usize - 1].is_some() {
            return Whereabouts::Dock;
        }
        for worker in 0..self.parts.hands.len() as u32 {
            if is_listed(&self.parts.lists[worker as usize], place) {
                return Whereabouts::List { worker };
            }
            if is_held(&self.parts.hands[worker as usize], place) {
                return Whereabouts::Hand { worker };
            }
        }
        Whereabouts::Done
    }

    /// Whether all instructions are done.
    pub fn is_over(&self) -> bool
        ensures { result ≡ is_over (world_of self.now.parts) }
    {
        self.parts.rows.iter().all(|row| row.is_some())
    }
}
