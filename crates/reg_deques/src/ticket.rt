//! Tasks with their tickets.

ghost use Rattle.std.specs.Prelude.{◌≡◌, []};
ghost use Rattle.reg_deques.specs.Tickets.{IsTicket};

use crate::numbered::Numbered;
use crate::views::TicketView;

/// A task that lies in a deque, with the ticket of its position. The ticket takes no bytes. Whoever takes the task has
/// the ticket, and so knows that nobody else took this position, whatever deques and passes there are.
#[derive(Drop)]
pub(crate) struct Ticketed<T: Numbered> {
    pub(crate) task: T,
    pub(crate) ticket: atomic_table::Seat<(), TicketView>,
    pub(crate) ghost empty: { ticket.me.1 ≡ [] },
    pub(crate) ghost of_it: { IsTicket (T.number task) ticket.me.0 },
}
