//! The claim table, and what it says.

ghost use Rattle.std.specs.Prelude.{◌≡◌, ◌+◌};

use crate::protocol::Claims;
use crate::views::SeatView;
use atomic_table::Table;
use std::alloc::Global;

/// A word for each place, and one for the count. Up to 16 threads may share it, each with a seat of its own: a seat has
/// one or more of the 16 parts of the stake.
#[derive(Drop)]
pub struct ClaimTable {
    pub(crate) table: Table<(), SeatView, u32, Claims, Global>,
    pub(crate) ghost wide: { table.shared.table_id.words ≡ table.shared.key + 1 },
    pub(crate) ghost no_slots: { table.shared.table_id.slots ≡ 0 },
}

/// What a look at the count shows: how many places are finished, and whether the workers are to leave.
#[derive(Clone, Copy, Debug, PartialEq, Eq)]
pub struct Look {
    pub done: u32,
    pub stopped: bool,
}

/// What a closed table had: how many places are finished, and whether the workers were told to leave.
#[derive(Clone, Copy, Debug, PartialEq, Eq)]
pub struct Tally {
    pub done: u32,
    pub stopped: bool,
}
