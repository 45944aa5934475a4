//! One execution of a task: an instruction that a worker claimed and ran.

ghost use Rattle.std.specs.Prelude.{◌≡◌};

use reg_tasks::{Done, Naming, Parcel, Ran};

/// An instruction that a worker claimed and ran, and the parcels that it has still to hand on. It is finished only when
/// none is left.
#[derive(Drop)]
pub(crate) struct Execution<N: Naming> {
    pub(crate) ran: Ran<N>,
    pub(crate) done: Done<N>,
    pub(crate) left: Vec<Parcel<N>>,
    pub(crate) ghost same: { done.place ≡ ran.place },
}
