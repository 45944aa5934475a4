//! What workers pass before each instruction, and behind it.

/// What a worker passes before it carries out an instruction, and behind it. Several workers may pass at once, so a
/// gate that threads pass is `Sync`.
pub trait PlaceGate {
    /// A worker, counted from 0, is about to carry out the instruction at a place, counted from 1.
    fn enter(&self, worker: u32, place: u32);

    /// It has carried it out. A worker that lacks memory does not come here. A gate that does not say otherwise does
    /// nothing.
    fn leave(&self, _worker: u32, _place: u32) {}

    /// Whether nobody ever waits at it. Then fewer than 1,024 instructions are carried out by one worker, who is done
    /// before another has begun. A gate that does not say so may hold a worker until others have come.
    fn is_open(&self) -> bool {
        false
    }
}

/// A gate that does nothing.
#[derive(Clone, Copy)]
pub struct FreePlaces;

impl PlaceGate for FreePlaces {
    fn enter(&self, _worker: u32, _place: u32) {}

    fn is_open(&self) -> bool {
        true
    }
}
