//! The seat of a worker.

ghost use Rattle.std.specs.Prelude.{◌≡◌, ◌<◌, []};

use crate::views::SeatView;

/// What a worker steps with. It takes no bytes, and may go to another thread. It fits only the table that it is of:
/// that is a condition of each call.
///
/// A seat that is dropped takes its stake with it. Then no seat is ever the last, and the table can't be closed.
#[derive(Drop)]
pub struct Seat {
    pub(crate) seat: atomic_table::Seat<(), SeatView>,
    pub(crate) ghost empty: { seat.me.1 ≡ [] },
    pub(crate) ghost lives: { 0 < seat.me.0.stake },
}
