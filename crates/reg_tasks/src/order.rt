//! Running a batch in an order of its instructions.

ghost use Rattle.std.specs.Prelude.{◌≡◌, Some, None, [], IfOk, IfErr, IfSome, OnOk};
ghost use Rattle.reg_plan.specs.Orders.{first_order_fault};
ghost use Rattle.reg_book.specs.Day.{settled_day};
ghost use Rattle.reg_tasks.specs.Contexts.{the_day};
ghost use Rattle.reg_tasks.specs.Places.{IsPlaceOf};
ghost use Rattle.reg_book.specs.Settled.{IsOfBook};
ghost use Rattle.reg_tasks.specs.Gathering.{places_of};
ghost use Rattle.reg_tasks.specs.Slots.{IsLack, AreReady, IsLaidBack, AreStanding, IsRunFault, run_fault};
ghost use Rattle.reg_tasks.specs.Standing.{stands};

use crate::context::Context;
use crate::done::Done;
use crate::gate::FreeGate;
use crate::lack::Lack;
use crate::naming::Naming;
use crate::slots::Slots;
use crate::turn::run_at;
use reg_base::laws::last_toucher_is_last;
use reg_book::Settled;
use reg_plan::OrderFault;
use reg_plan::laws::{no_fault_is_a_legal_order, tails_are_last_touchers};
use std::alloc::Global;
use thiserror::Error;

/// Why a batch was not run in an order.
#[derive(Clone, Copy, Debug, PartialEq, Eq, Error)]
pub enum RunFault {
    /// The list is no legal order.
    #[error("{0}")]
    Order(OrderFault),
    /// Memory ran out.
    #[error("out of memory")]
    NoMemory,
}

impl From<OrderFault> for RunFault {
    ghost from_gives = { λ fault why. why ≡ run_fault fault };

    fn from(fault: OrderFault) -> RunFault {
        match fault {
            OrderFault::NoMemory => RunFault::NoMemory,
            _ => RunFault::Order(fault),
        }
    }
}

// Runs the instruction at a place on the parcels that stand for the accounts that it touches, and lays back what it
// leaves.
fn run_place<N: Naming>(
    alloc: Global,
    slots: &mut Slots<'_, '_, N>,
    place: u32,
) -> Result<Done<N>, Lack>
    requires place { IsPlaceOf slots.old.context.now.batch.now place }
    requires ready { AreReady N.day (the_day slots.old.context.now) slots.old.context.now.plan place
        (stands slots.old) }
    ensures context { slots.new.context.now ≡ slots.old.context.now }
    ensures place { IfOk result (λ done. done.place ≡ place) }
    ensures laid { OnOk result
        (IsLaidBack N.day (the_day slots.old.context.now) place (stands slots.old) (stands slots.new)) }
    ensures lack { IfErr result (IsLack N.day) }
{
    let (ran, row) = run_at(alloc, slots, &FreeGate, place)?;
    Ok(Done::new(ran.place(), row))
}

// Runs the instructions at these places one after another.
fn run_places<N: Naming>(
    alloc: Global,
    slots: &mut Slots<'_, '_, N>,
    order: &[u32],
) -> Result<Vec<Done<N>>, Lack>
    requires legal { first_order_fault slots.old.context.now.plan order.now ≡ None }
    requires opened { AreStanding N.day (the_day slots.old.context.now) [] (stands slots.old) }
    ensures context { slots.new.context.now ≡ slots.old.context.now }
    ensures places { IfOk result (λ done. places_of done.items ≡ order.now) }
    ensures standing { OnOk result (AreStanding N.day (the_day slots.old.context.now) order.now (stands slots.new)) }
    ensures lack { IfErr result (IsLack N.day) }
{
    last_toucher_is_last();
    tails_are_last_touchers();
    let mut done = Vec::with_capacity(alloc, order.len())?;
    for place in order {
        let one = run_place(alloc, slots, *place)?;
        done.push_reserved(one);
    }
    Ok(done)
}

// Runs the instructions in a legal order, each on the parcels that those before it left, and gathers what comes out.
fn run_legal<N: Naming>(alloc: Global, context: &Context<N>, order: &[u32]) -> Result<Settled, Lack>
    requires legal { first_order_fault context.now.plan order.now ≡ None }
    ensures settled { IfOk result (λ s. IfSome N.day (λ d. s ≡ settled_day d)) }
    ensures of_book { IfOk result (λ s. IsOfBook context.now.book.now s) }
    ensures lack { IfErr result (IsLack N.day) }
{
    last_toucher_is_last();
    tails_are_last_touchers();
    no_fault_is_a_legal_order();
    let mut slots = Slots::open(alloc, context)?;
    let done = run_places(alloc, &mut slots, order)?;
    slots.into_settled(alloc, done)
}

/// Runs the batch in an order of its instructions, given by their places, counted from 1. If the order is legal, this
/// gives the same settled day as executing the instructions one after another. Each touched account is copied once,
/// before the first instruction is run.
///
/// The time is linear in the instructions, sorting and look-ups apart.
///
/// # Errors
/// `Order` with the first fault of the list if it is no legal order. `NoMemory` if memory ran out.
pub fn run_order<N: Naming>(
    alloc: Global,
    context: &Context<N>,
    order: &[u32],
) -> Result<Settled, RunFault>
    ensures legal { OnOk result (first_order_fault context.now.plan order.now ≡ None) }
    ensures settled { IfOk result (λ s. IfSome N.day (λ d. s ≡ settled_day d)) }
    ensures of_book { IfOk result (λ s. IsOfBook context.now.book.now s) }
    ensures fault { IfErr result (IsRunFault context.now.plan order.now) }
{
    context.plan().check_order(alloc, order)?;
    match run_legal(alloc, context, order) {
        Ok(settled) => Ok(settled),
        Err(_) => Err(RunFault::NoMemory),
    }
}
