//! Who ran what.

ghost use Rattle.std.specs.Prelude.{◌≡◌, ◌↔◌, IsTrue, [], length};

use reg_tasks::{Naming, Ran};

/// What a worker ran, in the order in which it did.
#[derive(Drop)]
pub struct Shift<N: Naming> {
    /// The number of the worker, counted from 0.
    pub worker: u32,
    /// The runs of the instructions' tasks.
    pub ran: Vec<Ran<N>>,
}

impl<N: Naming> Shift<N> {
    /// How many instructions the worker ran.
    pub fn len(&self) -> usize
        ensures { result ≡ length self.now.ran.items }
    {
        self.ran.len()
    }

    /// Whether the worker ran none.
    pub fn is_empty(&self) -> bool
        ensures { IsTrue result ↔ (self.now.ran.items ≡ []) }
    {
        self.ran.is_empty()
    }
}
