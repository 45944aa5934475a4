//! Where thieves take from a deque.

ghost use Rattle.std.specs.Prelude.{◌≡◌};
ghost use Rattle.crossbeam_deque.specs.Handles.{stealer_flavor};

use crate::numbered::Numbered;
use crate::owner::TicketTable;
use crate::protocol::InOrder;
use crate::ticket::Ticketed;
use crate::views::DequeView;
use std::alloc::Global;
use std::sync::Arc;

/// Where thieves take from a deque: the stealer of `crossbeam_deque`, with the table of the deque's tickets.
#[derive(Drop)]
pub(crate) struct Stealer<T: Numbered> {
    pub(crate) stealer: crossbeam_deque::Stealer<Ticketed<T>, Global, DequeView, InOrder<T>>,
    pub(crate) table: Arc<TicketTable, Global>,
    pub(crate) ghost fifo: { stealer_flavor stealer ≡ 0 },
    pub(crate) ghost wide: { table.value.shared.table_id.words ≡ 1 },
}
