//! The rule of a deque and that of its table of tickets, and what each kind of step does.

ghost use Rattle.std.specs.Prelude.{ℕ, []};
ghost use Rattle.atomic_table.specs.Seated.{TableId};

use crate::numbered::Numbered;
use crate::ticket::Ticketed;
use crate::views::{DequeView, TicketView};
use atomic_table::{Join, Play, Split, TableRule};
use crossbeam_deque::protocol::{Outcome, Protocol};
use std::marker::{Brand, PhantomData};

/// The rule of a deque.
pub(crate) struct InOrder<T: Numbered> {
    of: PhantomData<T>,
}

impl<T: Numbered> Protocol<Ticketed<T>, DequeView> for InOrder<T> {
    ghost use Rattle.reg_deques.specs.Queues.{queue_of, IsDeque};
    ghost use Rattle.reg_deques.specs.Views.{fresh_view};

    ghost holds = { λ tasks views. IsDeque (queue_of tasks) views };

    ghost first = { fresh_view };

    // (for passes that a stealer of the kit makes; here the owner makes them all)
    ghost guest = { fresh_view };
}

// The owner puts a task.
pub(crate) struct Putting;

impl<T: Numbered> Outcome<Ticketed<T>, DequeView> for Putting {
    ghost use Rattle.reg_deques.specs.Queues.{queue_of};
    ghost use Rattle.reg_deques.specs.Steps.{PutStep};

    ghost then = { λ v tasks w. PutStep v (queue_of tasks) w };
}

// The owner takes the first task.
pub(crate) struct Taking;

impl<T: Numbered> Outcome<Ticketed<T>, DequeView> for Taking {
    ghost use Rattle.reg_deques.specs.Queues.{queue_of};
    ghost use Rattle.reg_deques.specs.Steps.{TakeStep};

    ghost then = { λ v tasks w. TakeStep v (queue_of tasks) w };
}

// Another worker takes the first task.
pub(crate) struct Stealing;

impl<T: Numbered> Outcome<Ticketed<T>, DequeView> for Stealing {
    ghost use Rattle.reg_deques.specs.Queues.{queue_of};
    ghost use Rattle.reg_deques.specs.Steps.{StealStep};

    ghost then = { λ v tasks w. StealStep v (queue_of tasks) w };
}

// The owner makes a pass for another worker.
pub(crate) struct Parting;

impl Split<DequeView> for Parting {
    ghost use Rattle.reg_deques.specs.Views.{blank, table_of};

    ghost left = { λ v. v };

    ghost right = { λ v. blank (table_of v) };
}

// Which table has the tickets of a deque: a new deque does not know it.
pub(crate) trait Ticketing {
    ghost table: { TableId };
}

impl Ticketing for Brand {
    ghost table = { record { words = 0; slots = 0; views_name = 0; atom = 0; block = 0; offset = 0; slot_names = [] } };
}

// The owner of a new deque is told the table of its tickets.
pub(crate) struct Telling<T: Ticketing> {
    of: PhantomData<T>,
}

impl<T: Ticketing> Split<DequeView> for Telling<T> {
    ghost use Rattle.std.specs.Prelude.{[], ◌∷◌};
    ghost use Rattle.reg_deques.specs.Views.{with_table, blank};

    ghost left = { λ v. with_table T.table v };

    ghost right = { λ v. blank (T.table ∷ []) };
}

/// The rule of a table of tickets.
pub(crate) struct Tickets;

impl TableRule<(), TicketView, ()> for Tickets {
    ghost use Rattle.std.specs.Prelude.{[]};
    ghost use Rattle.reg_deques.specs.Tickets.{AreTickets, owner_of};

    ghost holds = { λ k s. AreTickets s.views };

    ghost first = { λ k. owner_of [] };
}

// The number of the task that gets the next ticket.
pub(crate) trait Numbering {
    ghost number: { ℕ };
}

impl Numbering for Brand {
    ghost number = { 0 };
}

// The owner makes a ticket for a task that it is about to put.
pub(crate) struct Issuing<P: Numbering> {
    of: PhantomData<P>,
}

impl<P: Numbering> Split<TicketView> for Issuing<P> {
    ghost use Rattle.std.specs.Prelude.{[], ◌∷◌, ◌++◌};
    ghost use Rattle.reg_deques.specs.Tickets.{owner_of, ticket_of};

    ghost left = { λ v. owner_of (v.seen ++ P.number ∷ []) };

    ghost right = { λ v. ticket_of (v.seen ++ P.number ∷ []) };
}

// The owner takes the last ticket back, since the deque did not take the task.
pub(crate) struct Returning;

impl Join<TicketView> for Returning {
    ghost use Rattle.reg_deques.specs.Tickets.{owner_of, without_last, empty_ticket_view};

    ghost both = { λ v w. owner_of (without_last v.seen) };

    ghost spent = { empty_ticket_view };
}

// A seat for another worker, which holds nothing.
pub(crate) struct Seating;

impl Split<TicketView> for Seating {
    ghost use Rattle.reg_deques.specs.Tickets.{empty_ticket_view};

    ghost left = { λ v. v };

    ghost right = { λ v. empty_ticket_view };
}

// What a seat holds goes to another: a ticket to the thief who stole its task, or all that one of two passes has.
pub(crate) struct Joining;

impl Join<TicketView> for Joining {
    ghost use Rattle.reg_deques.specs.Tickets.{joined_ticket_views, empty_ticket_view};

    ghost both = { λ v w. joined_ticket_views v w };

    ghost spent = { empty_ticket_view };
}

// The two lists that a joined seat has seen, its own and the other's, become one.
pub(crate) struct Settling;

impl Play<(), TicketView> for Settling {
    ghost use Rattle.reg_deques.specs.Steps.{SettleStep};

    ghost then = { λ step m found m'. SettleStep m m' };
}
