//! What the owner of a deque does.

ghost use Rattle.std.specs.Prelude.{◌≡◌, ◌≤◌, ◌∷◌, [], length, IfOk, IfErr, IfSome, IfNone, OnOk};
ghost use Rattle.crossbeam_deque.specs.Handles.{worker_deque, worker_view, worker_flavor, worker_capacity};
ghost use Rattle.crossbeam_deque.specs.Handles.{worker_index};
ghost use Rattle.reg_deques.specs.Views.{fresh_view, with_table, with_put};
ghost use Rattle.reg_deques.specs.Tickets.{empty_ticket_view};
ghost use Rattle.reg_deques.specs.Steps.{TakesOwn};
ghost use Rattle.reg_deques.specs.Passes.{owner_id, deque_pass_id, owned, ticket_view_of};

use crate::numbered::Numbered;
use crate::owner::{Deque, Owner, TicketTable};
use crate::pass::DequePass;
use crate::protocol::{
    Issuing, Numbering, Parting, Putting, Returning, Seating, Taking, Telling, Ticketing,
};
use crate::ticket::Ticketed;
use atomic_table::Table;
use crossbeam_deque::Worker;
use reg_base::NoMemory;
use std::alloc::Global;
use std::marker::Brand;
use std::sync::Arc;

// Tells the owner of a new deque the table of its tickets.
fn tell<T: Numbered + Drop, K: Ticketing>(deque: &mut Deque<T>, table: &TicketTable)
    requires table { K.table ≡ table.now.shared.table_id }
    requires fresh { worker_view deque.old ≡ fresh_view }
    ensures same { (worker_deque deque.new ≡ worker_deque deque.old)
        × (worker_flavor deque.new ≡ worker_flavor deque.old) }
    ensures room { worker_capacity deque.old ≤ worker_capacity deque.new }
    ensures index { worker_index deque.new ≡ worker_index deque.old }
    ensures view { worker_view deque.new ≡ with_table K.table fresh_view }
{
    deque.another::<Telling<K>>();
}

// A new deque, which has room for 16 tasks.
#[tactic(auto, using(crate::proofs::Moves::begins))]
fn new_deque<T: Numbered + Drop>(alloc: Global) -> Result<Deque<T>, NoMemory>
    ensures room { IfOk result (λ d. worker_capacity d ≡ 16) }
    ensures fifo { IfOk result (λ d. worker_flavor d ≡ 0) }
    ensures fresh { IfOk result (λ d. (worker_view d ≡ fresh_view) × (worker_index d ≡ 0)) }
{
    let deque: Deque<T> = Worker::fifo_as(alloc, 16)?;
    Ok(deque)
}

impl<T: Numbered + Drop> Owner<T> {
    // A new deque, which has room for 16 tasks, and its table of tickets.
    pub(crate) fn new(alloc: Global) -> Result<Owner<T>, NoMemory>
        ensures { IfOk result (λ o. owned o ≡ with_table o.table.value.shared.table_id fresh_view) }
    {
        let (table, seat) = Table::of_words(alloc, &[0], &())?;
        let Ok(table) = Arc::new(alloc, table) else {
            return Err(NoMemory);
        };
        let mut deque: Deque<T> = new_deque(alloc)?;
        tell::<T, Brand>(&mut deque, &table);
        Ok(Owner { deque, table, seat })
    }

    /// Puts a task behind all others.
    ///
    /// # Errors
    ///
    /// The task, if the deque has no room for it and cannot grow. Then nothing has changed. The first 16 tasks have
    /// room.
    pub fn put(&mut self, task: T) -> Result<(), T>
        ensures put { OnOk result (owned self.new ≡ with_put (T.number task ∷ []) (owned self.old)) }
        ensures back { IfErr result (λ t. t ≡ task) }
        ensures refused { IfErr result (λ t. owned self.new ≡ owned self.old) }
        ensures full { IfErr result (λ t. 16 ≤ length (owned self.old).put) }
        ensures same { owner_id self.new ≡ owner_id self.old }
    {
        self.put_named::<Brand>(task)
    }

    fn put_named<P: Numbering>(&mut self, task: T) -> Result<(), T>
        requires number { P.number ≡ T.number task }
        ensures put { OnOk result (owned self.new ≡ with_put (T.number task ∷ []) (owned self.old)) }
        ensures back { IfErr result (λ t. t ≡ task) }
        ensures refused { IfErr result (λ t. owned self.new ≡ owned self.old) }
        ensures full { IfErr result (λ t. 16 ≤ length (owned self.old).put) }
        ensures same { owner_id self.new ≡ owner_id self.old }
    {
        let shared = &self.table.shared;
        let ticket = shared.split_seat::<Issuing<P>>(&mut self.seat);
        match self.deque.push_as::<Putting>(Ticketed { task, ticket }) {
            Ok(()) => Ok(()),
            Err(refused) => {
                let Ticketed { task, ticket } = refused;
                shared.join_seat::<Returning>(&mut self.seat, ticket);
                Err(task)
            }
        }
    }

    /// Takes the first task, if there is one.
    pub fn take_own(&mut self) -> Option<T>
        ensures some { IfSome result (λ t. TakesOwn (owned self.old) (T.number t) (owned self.new)) }
        ensures none { IfNone result (owned self.new ≡ owned self.old) }
        ensures same { owner_id self.new ≡ owner_id self.old }
    {
        let Ticketed { task, ticket: _ } = self.deque.pop_as::<Taking>()?;
        Some(task)
    }

    // What a thief knows of the deque at first: nothing.
    pub(crate) fn deque_pass(&mut self) -> DequePass<T>
        ensures of { deque_pass_id result ≡ owner_id self.old }
        ensures blank { ticket_view_of result ≡ empty_ticket_view }
        ensures same { (owner_id self.new ≡ owner_id self.old) × (owned self.new ≡ owned self.old) }
    {
        let pass = self.deque.another::<Parting>();
        let seat = self.table.shared.split_seat::<Seating>(&mut self.seat);
        DequePass { pass, seat }
    }
}
