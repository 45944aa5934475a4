//! A dock behind a lock.

ghost use Rattle.std.specs.Prelude.{◌≡◌, Some, Contains, IfOk, IfErr, IfSome};
ghost use Rattle.std.specs.Option.{option_map};
ghost use Rattle.reg_tasks.specs.Tasks.{task_of};
ghost use Rattle.reg_yard.specs.Parcels.{parcel_of};
ghost use Rattle.reg_yard.specs.Held.{IsTaken};

use crate::dock::Dock;
use reg_tasks::{Naming, Parcel, Task};
use std::sync::{Mutex, Wait};

/// A dock behind a lock of its own. No contract can name what is behind a lock, so the place of the dock stands outside
/// of it.
#[derive(Drop)]
pub(crate) struct LockedDock<'c, 'a, N: Naming> {
    place: u32,
    dock: Mutex<Dock<'c, 'a, N>>,
}

impl<'c, 'a, N: Naming> LockedDock<'c, 'a, N> {
    /// Puts a dock behind a lock.
    pub(crate) fn new(dock: Dock<'c, 'a, N>) -> LockedDock<'c, 'a, N>
        ensures { result.place ≡ dock.entry.place }
    {
        LockedDock {
            place: dock.place(),
            dock: Mutex::new(dock),
        }
    }

    /// Delivers a parcel to the dock, once no other thread is at it. Takes no memory.
    ///
    /// # Errors
    /// The parcel, if it is not awaited or has come already.
    pub(crate) fn deliver<R: Wait>(
        &self,
        wait: &R,
        parcel: Parcel<N>,
    ) -> Result<Option<Task<N>>, Parcel<N>>
        ensures at { IfOk result (λ task. IfSome task (λ t. t.place ≡ self.now.place)) }
        ensures has { IfOk result (λ task. IfSome task (λ t. Contains t.parcels.items parcel)) }
        ensures taken { IfOk result
            (λ task. IsTaken N.day (Some self.now.place) (parcel_of parcel) (option_map task_of task)) }
        ensures back { IfErr result (λ p. p ≡ parcel) }
    {
        self.dock.lock(wait).deliver_at(self.place, parcel)
    }
}
