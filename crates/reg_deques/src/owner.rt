//! The owner of a deque.

ghost use Rattle.std.specs.Prelude.{◌≡◌, ◌≤◌, ◌∷◌, [], true, length};
ghost use Rattle.crossbeam_deque.specs.Handles.{worker_view, worker_flavor, worker_capacity, worker_index};
ghost use Rattle.reg_deques.specs.Views.{table_of};
ghost use Rattle.reg_deques.specs.Tickets.{owner_of};

use crate::numbered::Numbered;
use crate::protocol::{InOrder, Tickets};
use crate::ticket::Ticketed;
use crate::views::{DequeView, TicketView};
use atomic_table::{Seat, Table};
use crossbeam_deque::Worker;
use std::alloc::Global;
use std::sync::Arc;

pub(crate) type Deque<T> = Worker<Ticketed<T>, Global, DequeView, InOrder<T>>;

pub(crate) type TicketTable = Table<(), TicketView, (), Tickets, Global>;

/// The owner of a deque, which puts tasks into it and takes them. Proofs know what it put, and what it took itself.
#[derive(Drop)]
pub struct Owner<T: Numbered> {
    pub(crate) deque: Deque<T>,
    pub(crate) table: Arc<TicketTable, Global>,
    pub(crate) seat: Seat<(), TicketView>,
    pub(crate) ghost fifo: { worker_flavor deque ≡ 0 },
    pub(crate) ghost owns: { (worker_view deque).owns ≡ true },
    pub(crate) ghost told: { table_of (worker_view deque) ≡ table.value.shared.table_id ∷ [] },
    pub(crate) ghost seated: { seat.table_id ≡ table.value.shared.table_id },
    pub(crate) ghost wide: { table.value.shared.table_id.words ≡ 1 },
    pub(crate) ghost bare: { seat.me.1 ≡ [] },
    pub(crate) ghost same: { seat.me.0 ≡ owner_of (worker_view deque).put },
    pub(crate) ghost room: { 16 ≤ worker_capacity deque },
    pub(crate) ghost index: { worker_index deque ≤ length (worker_view deque).put },
}
