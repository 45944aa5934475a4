//! What a worker knows of the deques as a thief.

ghost use Rattle.std.specs.Prelude.{◌≡◌, ◌∷◌, [], false, None};
ghost use Rattle.crossbeam_deque.specs.Handles.{view as view_of};
ghost use Rattle.reg_deques.specs.Views.{table_of};
ghost use Rattle.reg_deques.specs.Tickets.{Covers};

use crate::numbered::Numbered;
use crate::ticket::Ticketed;
use crate::views::{DequeView, TicketView};
use atomic_table::Seat;

/// What a thief knows of one deque: its pass there, and its seat at the table of tickets.
#[derive(Drop)]
pub struct DequePass<T: Numbered> {
    pub(crate) pass: crossbeam_deque::Pass<Ticketed<T>, DequeView>,
    pub(crate) seat: Seat<(), TicketView>,
    pub(crate) ghost light: { (pass.me.hand ≡ None) × (pass.me.spare ≡ None) },
    pub(crate) ghost guest: { (view_of pass).owns ≡ false },
    pub(crate) ghost told: { table_of (view_of pass) ≡ seat.table_id ∷ [] },
    pub(crate) ghost bare: { seat.me.1 ≡ [] },
    pub(crate) ghost stranger: { seat.me.0.owns ≡ false },
    pub(crate) ghost settled: { seat.me.0.also ≡ [] },
    pub(crate) ghost covers: { Covers seat.me.0.took (view_of pass).took },
}

/// What a worker knows of each deque as a thief, in the order of the deques.
#[derive(Drop)]
pub struct Pass<T: Numbered> {
    pub(crate) worker: u32,
    pub(crate) deque_passes: Vec<DequePass<T>>,
}

impl<T: Numbered + Drop> Pass<T> {
    /// The worker that it was made for, counted from 0.
    pub fn worker(&self) -> u32
        ensures { result ≡ self.now.worker }
    {
        self.worker
    }
}
