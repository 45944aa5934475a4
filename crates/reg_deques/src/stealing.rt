//! Stealing, and joining what two thieves know of a deque.

ghost use Rattle.std.specs.Prelude.{◌≡◌, [], false, IfOk};
ghost use Rattle.crossbeam_deque.specs.Steals.{MatchSteal};
ghost use Rattle.reg_deques.specs.Passes.{stealer_id, deque_pass_id, owner_id, ticket_view_of};
ghost use Rattle.reg_deques.specs.Steps.{Steals, Joins};

use crate::numbered::Numbered;
use crate::owner::{Owner, TicketTable};
use crate::pass::DequePass;
use crate::protocol::{Joining, Settling, Stealing};
use crate::stealer::Stealer;
use crate::ticket::Ticketed;
use crate::views::TicketView;
use atomic_table::Seat;
use crossbeam_deque::Steal;
use reg_base::NoMemory;
use std::sync::Arc;

// All that a seat holds goes to another one, which knows then that no ticket is there twice.
fn gather(table: &TicketTable, seat: &mut Seat<(), TicketView>, other: Seat<(), TicketView>)
    requires same { (seat.old.table_id ≡ table.now.shared.table_id) × (other.table_id ≡ table.now.shared.table_id) }
    requires wide { table.now.shared.table_id.words ≡ 1 }
    requires bare { (seat.old.me.1 ≡ []) × (other.me.1 ≡ []) }
    requires strangers { (seat.old.me.0.owns ≡ false) × (other.me.0.owns ≡ false) }
    requires settled { (seat.old.me.0.also ≡ []) × (other.me.0.also ≡ []) }
    ensures same { seat.new.table_id ≡ seat.old.table_id }
    ensures bare { seat.new.me.1 ≡ [] }
    ensures stranger { seat.new.me.0.owns ≡ false }
    ensures settled { seat.new.me.0.also ≡ [] }
    ensures joined { Joins seat.old.me.0 other.me.0 seat.new.me.0 }
{
    table.shared.join_seat::<Joining>(seat, other);
    table.shared.load::<Settling>(seat, 0);
}

impl<T: Numbered + Drop> Stealer<T> {
    // Where others take from an owner's deque.
    pub(crate) fn of(owner: &Owner<T>) -> Result<Stealer<T>, NoMemory>
        ensures { IfOk result (λ d. stealer_id d ≡ owner_id owner.now) }
    {
        let stealer = owner.deque.stealer()?;
        let table = Arc::try_clone(&owner.table)?;
        Ok(Stealer { stealer, table })
    }

    // Takes the first task of the deque, if there is one and nobody is quicker.
    pub(crate) fn steal(&self, deque_pass: &mut DequePass<T>) -> Steal<T>
        requires of { deque_pass_id deque_pass.old ≡ stealer_id self.now }
        ensures of { deque_pass_id deque_pass.new ≡ deque_pass_id deque_pass.old }
        ensures rule { MatchSteal result (ticket_view_of deque_pass.new ≡ ticket_view_of deque_pass.old)
            (ticket_view_of deque_pass.new ≡ ticket_view_of deque_pass.old)
            (λ t. Steals (ticket_view_of deque_pass.old) (T.number t) (ticket_view_of deque_pass.new)) }
    {
        match self.stealer.steal_as::<Stealing>(&mut deque_pass.pass) {
            Steal::Success(ticketed) => {
                let Ticketed { task, ticket } = ticketed;
                gather(&self.table, &mut deque_pass.seat, ticket);
                Steal::Success(task)
            }
            Steal::Empty => Steal::Empty,
            Steal::Retry => Steal::Retry,
        }
    }

    // Makes one pass of two at this deque. It goes on stealing by the pass of the first.
    pub(crate) fn join(&self, deque_pass: &mut DequePass<T>, other: DequePass<T>)
        requires of { deque_pass_id deque_pass.old ≡ stealer_id self.now }
        requires other { deque_pass_id other ≡ stealer_id self.now }
        ensures of { deque_pass_id deque_pass.new ≡ deque_pass_id deque_pass.old }
        ensures joined { Joins (ticket_view_of deque_pass.old) (ticket_view_of other) (ticket_view_of deque_pass.new) }
    {
        let DequePass { pass: _, seat } = other;
        gather(&self.table, &mut deque_pass.seat, seat);
    }
}
