//! The parts of a world.

ghost use Rattle.std.specs.Prelude.{◌≡◌, ◌≤◌, All, [], length, vec_capacity};
ghost use Rattle.std.specs.VecDeque.{deque_capacity};

use crate::hand::Hand;
use reg_account::Account;
use reg_rules::LogRow;
use reg_tasks::{Naming, Parcel, Task};
use std::collections::VecDeque;

/// The parts of a world: for each place the parcels that came to its dock, until its task goes out; for each worker its
/// list of tasks and its hand; for each place its row, once it was run; the accounts that no instruction needs any
/// more; and an empty log with room for all rows.
#[derive(Drop)]
pub(crate) struct Parts<N: Naming> {
    pub(crate) docks: Vec<Option<Vec<Parcel<N>>>>,
    pub(crate) lists: Vec<VecDeque<Task<N>>>,
    pub(crate) hands: Vec<Hand<N>>,
    pub(crate) rows: Vec<Option<LogRow>>,
    pub(crate) closing: Vec<Account>,
    pub(crate) log: Vec<LogRow>,
    pub ghost workers: { length lists.items ≡ length hands.items },
    pub ghost no_log: { log.items ≡ [] },
    pub ghost log_room: { length rows.items ≤ vec_capacity log },
    pub ghost list_room: { All (λ tasks. length rows.items ≤ deque_capacity tasks) lists.items },
}
