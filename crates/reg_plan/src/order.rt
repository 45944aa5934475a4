//! Whether an order of the instructions keeps to the arrows.

ghost use Rattle.std.specs.Prelude.{◌≡◌, ◌≤◌, false, not, [], length, find, All};
ghost use Rattle.std.specs.List.Sorted.{IsNonDecreasingBy};
ghost use Rattle.std.specs.Result.{result_err};
ghost use Rattle.reg_base.specs.declared.limits.TheConstants.{MOST_INSTRUCTIONS};
ghost use Rattle.reg_plan.specs.Plans.{IsBetween};
ghost use Rattle.reg_plan.specs.Orders.{fault_at, first_fault_after, marked};

use crate::arrow::Arrow;
use crate::index::{End, with_end};
use thiserror::Error;

/// Why a list of numbers is no legal order: the first of these that applies, the last three position by position.
#[derive(Clone, Copy, Debug, PartialEq, Eq, Error)]
pub enum OrderFault {
    /// It has more or fewer numbers than the batch has instructions.
    #[error("the order has another length than the batch")]
    Length,
    /// Memory ran out.
    #[error("out of memory")]
    NoMemory,
    /// The number at this position is no place.
    #[error("the number at position {at} is no place")]
    Number {
        /// The position, counted from 1.
        at: u32,
    },
    /// The number at this position has come already.
    #[error("the number at position {at} has come already")]
    Repeated {
        /// The position, counted from 1.
        at: u32,
    },
    /// An arrow's head comes before its tail: the first such arrow to that head.
    #[error("instruction {to} comes before {from}")]
    Arrow {
        /// The place of the tail, counted from 1.
        from: u32,
        /// The place of the head, counted from 1.
        to: u32,
    },
}

// Checks an order number by number, and marks each number that has come. `heads` are the likely counts of arrows by
// their heads.
pub(crate) fn check_numbers(
    arrows: &[Arrow],
    heads: &[u32],
    came: &mut [bool],
    order: &[u32],
) -> Result<(), OrderFault>
    requires by_head { IsNonDecreasingBy (λ arrow. arrow.to) arrows.now }
    requires between { All (IsBetween (length came.old)) arrows.now }
    requires few { length order.now ≤ MOST_INSTRUCTIONS }
    requires none { All (λ mark. mark ≡ false) came.old }
    ensures { result_err result ≡ first_fault_after arrows.now (length came.old) [] order.now }
{
    for (index, number) in order.iter().enumerate() {
        if let Some(fault) = find_fault(arrows, heads, came, index as u32 + 1, *number) {
            return Err(fault);
        }
        came[*number as usize - 1] = true;
    }
    Ok(())
}

// What is wrong with a number at a position.
fn find_fault(
    arrows: &[Arrow],
    heads: &[u32],
    came: &[bool],
    at: u32,
    number: u32,
) -> Option<OrderFault>
    requires by_head { IsNonDecreasingBy (λ arrow. arrow.to) arrows.now }
    requires between { All (IsBetween (length came.now)) arrows.now }
    ensures { result ≡ fault_at arrows.now (length came.now) (marked came.now) at number }
{
    if number == 0 || number as usize > came.len() {
        return Some(OrderFault::Number { at });
    }
    if came[number as usize - 1] {
        return Some(OrderFault::Repeated { at });
    }
    let arrow = first_waiting(with_end(arrows, End::Head, heads, number), came)?;
    Some(OrderFault::Arrow {
        from: arrow.from,
        to: arrow.to,
    })
}

// The first arrow whose tail has not come.
fn first_waiting(arrows: &[Arrow], came: &[bool]) -> Option<Arrow>
    requires { All (IsBetween (length came.now)) arrows.now }
    ensures { result ≡ find (λ arrow. not (marked came.now arrow.from)) arrows.now }
{
    for arrow in arrows {
        if !came[arrow.from as usize - 1] {
            return Some(*arrow);
        }
    }
    None
}
