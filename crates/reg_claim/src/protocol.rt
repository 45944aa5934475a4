//! The rule of the claim table, and its six kinds of step.

ghost use Rattle.std.specs.Prelude.{ℕ};

use crate::views::SeatView;
use atomic_table::{Join, Play, Split, TableRule};
use std::marker::{Brand, PhantomData};

/// The rule that holds between any two steps. It is told how many places there are.
pub(crate) struct Claims;

impl TableRule<(), SeatView, u32> for Claims {
    ghost use Rattle.reg_claim.specs.Claims.{IsClaimTable};
    ghost use Rattle.reg_claim.specs.Views.{fresh};

    ghost holds = { λ n s. IsClaimTable n s.words s.views };

    ghost first = { λ n. fresh };
}

// A swap of a place's word.
pub(crate) struct Claiming;

impl Play<(), SeatView> for Claiming {
    ghost use Rattle.reg_claim.specs.Steps.{ClaimStep};

    ghost then = { ClaimStep };
}

// Which place it is that is finished: a step on the count has no place among its operands.
pub(crate) trait Finished {
    ghost place: { ℕ };
}

impl Finished for Brand {
    ghost place = { 0 };
}

// An addition of 2 to the count.
pub(crate) struct Finishing<P: Finished> {
    of: PhantomData<P>,
}

impl<P: Finished> Play<(), SeatView> for Finishing<P> {
    ghost use Rattle.reg_claim.specs.Steps.{FinishStep};

    ghost then = { λ step m found m'. FinishStep P.place m found m' };
}

// A load of the count.
pub(crate) struct Looking;

impl Play<(), SeatView> for Looking {
    ghost use Rattle.reg_claim.specs.Steps.{LookStep};

    ghost then = { λ step m found m'. LookStep m found m' };
}

// A bitwise or of 1 into the count.
pub(crate) struct Stopping;

impl Play<(), SeatView> for Stopping {
    ghost use Rattle.reg_claim.specs.Steps.{StopStep};

    ghost then = { λ step m found m'. StopStep m found m' };
}

// One part of the stake goes to a new seat.
pub(crate) struct Parting;

impl Split<SeatView> for Parting {
    ghost use Rattle.reg_claim.specs.Views.{with_less, newcomer};

    ghost left = { λ v. with_less v };

    ghost right = { λ v. newcomer v.seen };
}

// Two seats become one.
pub(crate) struct Joining;

impl Join<SeatView> for Joining {
    ghost use Rattle.reg_claim.specs.Views.{joined_views, spent};

    ghost both = { λ v w. joined_views v w };

    ghost spent = { spent };
}
