//! Arrows and openings of touches that are sorted by account and place.

ghost use Rattle.std.specs.Prelude.{◌≡◌, ℕ, IfOk};
ghost use Rattle.std.specs.List.Sorted.{IsNonDecreasingBy};
ghost use Rattle.reg_plan.specs.TouchList.{arrows_of, openings_of, AreSorted};
ghost use Rattle.reg_plan.specs.Plans.{outward};

use crate::arrow::{Arrow, Opening, Touch};
use reg_base::NoMemory;
use std::alloc::Global;

// The arrows of touches, sorted by head, tail and account.
pub(crate) fn sorted_arrows(alloc: Global, touches: &[Touch]) -> Result<Vec<Arrow>, NoMemory>
    ensures { IfOk result (λ arrows. AreSorted touches.now arrows.items) }
{
    let mut arrows = find_arrows(alloc, touches)?;
    arrows.sort_unstable();
    Ok(arrows)
}

// The arrows by tail, and those of one tail in the order that they have.
pub(crate) fn sorted_by_tail(alloc: Global, arrows: &[Arrow]) -> Result<Vec<Arrow>, NoMemory>
    ensures sorted { IfOk result (λ by_tail. IsNonDecreasingBy (λ arrow. arrow.from) by_tail.items) }
    ensures same { IfOk result (λ by_tail. (place : ℕ) → outward by_tail.items place ≡ outward arrows.now place) }
{
    let mut by_tail = arrows.to_vec(alloc)?;
    by_tail.sort_by_key(|arrow| arrow.from)?;
    Ok(by_tail)
}

// From each touch to the next one of the same account.
fn find_arrows(alloc: Global, touches: &[Touch]) -> Result<Vec<Arrow>, NoMemory>
    ensures { IfOk result (λ arrows. arrows.items ≡ arrows_of touches.now) }
{
    let mut arrows = Vec::new(alloc);
    let Some((first, rest)) = touches.split_first() else {
        return Ok(arrows);
    };
    let mut before = *first;
    for touch in rest {
        if before.account == touch.account {
            arrows.push(Arrow {
                to: touch.place,
                from: before.place,
                account: touch.account,
            })?;
        }
        before = *touch;
    }
    Ok(arrows)
}

// The first touch of each account.
pub(crate) fn find_openings(alloc: Global, touches: &[Touch]) -> Result<Vec<Opening>, NoMemory>
    ensures { IfOk result (λ openings. openings.items ≡ openings_of touches.now) }
{
    let mut openings = Vec::new(alloc);
    let Some((first, rest)) = touches.split_first() else {
        return Ok(openings);
    };
    let mut before = *first;
    openings.push(open(before))?;
    for touch in rest {
        if before.account != touch.account {
            openings.push(open(*touch))?;
        }
        before = *touch;
    }
    Ok(openings)
}

fn open(touch: Touch) -> Opening
    ensures { result ≡ record { account = touch.account; first = touch.place } }
{
    Opening {
        account: touch.account,
        first: touch.place,
    }
}
