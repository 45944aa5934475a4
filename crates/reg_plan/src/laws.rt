//! Laws of the definitions. Each is the contract of a function that does nothing; whoever needs a law calls its
//! function.

ghost use Rattle.reg_plan.specs.Laws.{EachBatchHasAPlan, FaultIsAtFirstPosition, NoFaultIsALegalOrder};
ghost use Rattle.reg_plan.specs.Laws.{LevelsRiseAlongArrows, TailsAreLastTouchers};

use reg_base::laws::{each_footprint_is_sound, last_toucher_is_last};

/// Each batch has a plan, so what is said of every plan of a batch is said of at least one.
pub fn each_batch_has_a_plan()
    ensures { EachBatchHasAPlan }
{
    each_footprint_is_sound();
}

/// A list of numbers has no fault exactly where it is a legal order: a permutation of the places with each arrow's
/// tail before its head.
pub fn no_fault_is_a_legal_order()
    ensures { NoFaultIsALegalOrder }
{}

/// A fault, unless it is a wrong length, is that of the first position that has one: the numbers before it have none,
/// and what the fault says of its number is so.
pub fn fault_is_at_first_position()
    ensures { FaultIsAtFirstPosition }
{}

/// Every tail's level is below its head's.
pub fn levels_rise_along_arrows()
    ensures { LevelsRiseAlongArrows }
{}

/// An arrow is what leads from the last toucher of an account to the next one.
pub fn tails_are_last_touchers()
    ensures { TailsAreLastTouchers }
{
    last_toucher_is_last();
}
