//! What a worker has in hand.

use reg_tasks::{Naming, Parcel, Task};

/// What a worker has in hand.
#[derive(Drop)]
pub(crate) enum Hand<N: Naming> {
    /// A task to run.
    Holds(Task<N>),
    /// The task that the last delivery made complete, if it did, and the parcels that a run left and that are still to
    /// be delivered.
    Carries(Option<Task<N>>, Vec<Parcel<N>>),
}

impl<N: Naming> Hand<N> {
    ghost use Rattle.std.specs.Prelude.{◌≡◌, ◌↔◌, IsTrue};
    ghost use Rattle.reg_schedules.specs.World.{empty};
    ghost use Rattle.reg_graph.specs.WorldParts.{hand_of};

    // Whether the hand is empty.
    pub(crate) fn is_empty(&self) -> bool
        ensures { IsTrue result ↔ (hand_of self.now ≡ empty) }
    {
        match self {
            Hand::Carries(None, parcels) => parcels.is_empty(),
            Hand::Carries(Some(_), _) | Hand::Holds(_) => false,
        }
    }
}
