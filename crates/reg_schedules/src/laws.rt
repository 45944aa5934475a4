//! Laws of the definitions. Each is the contract of a function that does nothing; whoever needs a law calls its
//! function.

ghost use Rattle.reg_schedules.specs.Laws.{EachDayHasAPlan, EveryOrder, FaultIsFirstUndefined, UndefinedAtFirstFault};
ghost use Rattle.reg_schedules.specs.Schedules.{EachScheduleIsAnOrder, EverySchedule, NothingLost};
ghost use Rattle.reg_schedules.specs.Conserved.{Conserved};

use reg_base::laws::{each_footprint_is_sound, last_toucher_is_last};
use reg_book::{
    each_is_a_step, fold_conserves, settled_is_closing, untouched_stay, value_is_last_touchers,
};
use reg_plan::laws::{
    each_batch_has_a_plan, fault_is_at_first_position, no_fault_is_a_legal_order,
    tails_are_last_touchers,
};
use reg_rules::step_laws;

/// Each day has a plan, so what the laws say of every plan of a day they say of at least one.
pub fn each_day_has_a_plan()
    ensures { EachDayHasAPlan }
{
    each_batch_has_a_plan();
}

/// Every legal order of a day's instructions gives the settled day, and every other list of as many numbers is
/// undefined.
pub fn every_order()
    ensures { EveryOrder }
{
    each_footprint_is_sound();
    step_laws();
    each_is_a_step();
    untouched_stay();
    value_is_last_touchers();
    settled_is_closing();
    last_toucher_is_last();
    tails_are_last_touchers();
    no_fault_is_a_legal_order();
}

/// An order is undefined at the first number that has a fault, and at no number before it.
pub fn undefined_at_first_fault()
    ensures { UndefinedAtFirstFault }
{
    each_footprint_is_sound();
    step_laws();
    each_is_a_step();
    untouched_stay();
    value_is_last_touchers();
    last_toucher_is_last();
    tails_are_last_touchers();
}

/// The fault of an order, unless it is a wrong length, is that of the first position at which the order is undefined.
pub fn fault_is_first_undefined()
    ensures { FaultIsFirstUndefined }
{
    undefined_at_first_fault();
    fault_is_at_first_position();
}

/// After every schedule of workers' steps each value is the one of its name, and each row is the one of its
/// instruction. If all instructions are done, the rows and the closing values are those of the settled day.
pub fn every_schedule()
    ensures { EverySchedule }
{
    each_footprint_is_sound();
    step_laws();
    each_is_a_step();
    untouched_stay();
    value_is_last_touchers();
    last_toucher_is_last();
    tails_are_last_touchers();
}

/// Every schedule carries out an order: the beginning of a legal one, or, if all instructions are done, a legal one.
/// The rows and the accounts that no instruction needs any more are those that the order has made, and each parcel is
/// in its pool under the parcel's name.
pub fn each_schedule_is_an_order()
    ensures { EachScheduleIsAnOrder }
{
    each_footprint_is_sound();
    step_laws();
    each_is_a_step();
    untouched_stay();
    value_is_last_touchers();
    last_toucher_is_last();
    tails_are_last_touchers();
    no_fault_is_a_legal_order();
}

/// After every schedule each instruction is in exactly one place: in its dock, in a list, in a hand, or done. If no
/// list and no hand has anything, all are done; otherwise some event is possible. No schedule has more events than
/// three for each instruction and one for each arrow. Whatever a worker has in hand, it can go on with it: it can run a
/// task, or push one that became complete, or, if it has no such task, deliver a parcel, whose dock waits for it. No
/// account is closing twice. The value that an instruction needs of an account lies in one dock, list or hand from when
/// it is made until that instruction is done.
pub fn nothing_lost()
    ensures { NothingLost }
{
    each_footprint_is_sound();
    step_laws();
    each_is_a_step();
    untouched_stay();
    value_is_last_touchers();
    last_toucher_is_last();
    tails_are_last_touchers();
}

/// After a day's instructions one after another, after every legal order, and after every schedule in which all
/// instructions are done, the number of allowances of a kind that all accounts hold or have surrendered has changed
/// only by accepted creations, deletions and reversals of deletions.
pub fn conserved()
    ensures { Conserved }
{
    every_order();
    each_schedule_is_an_order();
    settled_is_closing();
    fold_conserves();
}
