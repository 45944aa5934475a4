//! What a region has of each of its instructions.

use reg_rules::Reply;

/// The reply to the instruction at a place.
#[derive(Debug, Drop)]
pub struct Placed {
    /// The place, counted from 1.
    pub place: u32,
    /// The reply.
    pub reply: Reply,
}
