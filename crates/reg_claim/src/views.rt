//! What a seat knows.

use std::collections::LinkedList;

/// A seat's view of the table. No value of it is ever made: it is what proofs know of a seat. A seat that another one
/// joined has the lists of both, its own first.
pub struct SeatView {
    /// How many of the 16 parts of the right to close the table the seat has; 0 if it was joined to another seat.
    pub stake: u64,
    /// The places that the seat claimed, in the order in which it did.
    pub claimed: LinkedList<u32>,
    /// Those of them that it finished, in the order in which it did.
    pub finished: LinkedList<u32>,
    /// The greatest count that the seat saw: twice the number of finished places, and 1 more after a stop.
    pub seen: u64,
}
