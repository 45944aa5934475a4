//! Orders of a day's instructions: that running them succeeds where memory is left, under a name that stands for the
//! day.

ghost use Rattle.std.specs.Prelude.{◌≡◌, IfSome};
ghost use Rattle.reg_base.specs.Touches.{touches, is_touched};
ghost use Rattle.reg_book.specs.Day.{day_of, settled_day};
ghost use Rattle.reg_tasks.specs.Names.{IsNamed};

use crate::fixtures::{account_no, worked};
use reg_base::{AccountNo, Batch, Directory, Instruction, Rules};
use reg_book::{Book, Settled, settle_plain};
use reg_graph::{Context, Naming, Parcel, run_order};
use reg_text::DayInput;
use std::alloc::Global;
use std::marker::Brand;
use std::process::Abort;

/// Two transfers of which the second finds too little.
pub(crate) const TWICE: &str = "\
do,2025-03-31,101,102,transfer,1,2,general,70
do,2025-03-31,101,102,transfer,1,2,general,70
";

/// Two surrenders that share no account.
pub(crate) const APART: &str = "\
do,2025-03-31,101,102,surrender,1,general,50
do,2025-03-31,301,302,surrender,3,aviation,50
";

/// What a settled day leaves: its log, and each account that it touched.
pub(crate) fn told(rt: &impl Abort, alloc: Global, settled: &Settled) -> String {
    format!(in alloc; "{:?}", settled).expect(rt, "memory")
}

/// What the instructions of a day one after another leave.
pub(crate) fn settled(rt: &impl Abort, alloc: Global, day: &DayInput) -> String {
    let settled = settle_plain(alloc, &day.book, &day.rules, &day.batch).expect(rt, "memory");
    told(rt, alloc, &settled)
}

// The settled day of a batch that is run in an order, under the name of this very day.
fn run_named(
    alloc: Global,
    book: &Book,
    rules: &Rules,
    batch: &Batch,
    order: &[u32],
) -> Option<Settled>
    ensures { IfSome result (λ s. s ≡ settled_day (day_of book.now rules.now batch.now)) }
{
    run_under::<Brand>(alloc, book, rules, batch, order)
}

// The same under any name.
fn run_under<N: Naming>(
    alloc: Global,
    book: &Book,
    rules: &Rules,
    batch: &Batch,
    order: &[u32],
) -> Option<Settled>
    requires { IsNamed N.day book.now rules.now batch.now }
    ensures { IfSome result (λ s. IfSome N.day (λ d. s ≡ settled_day d)) }
{
    let Ok(context) = Context::<N>::of(alloc, book, rules, batch) else {
        return None;
    };
    run_order(alloc, &context, order).ok()
}

fn touches(instruction: &Instruction, directory: &Directory, number: AccountNo) -> bool
    ensures { result ≡ touches directory.now instruction.now number }
{
    let touched = instruction.touches(directory);
    touched.as_slice().iter().any(|account| *account == number)
}

fn is_touched(batch: &Batch, directory: &Directory, number: AccountNo) -> bool
    ensures { result ≡ is_touched directory.now batch.now.instructions number }
{
    let mut instructions = batch.instructions().iter();
    instructions.any(|instruction| touches(instruction, directory, number))
}

/// The opening value of an account.
pub(crate) fn opening<N: Naming>(
    rt: &impl Abort,
    alloc: Global,
    context: &Context<N>,
    number: u32,
) -> Parcel<N> {
    let number = account_no(rt, number);
    assert!(rt; is_touched(context.batch(), context.book().directory(), number));
    context.opening(alloc, number).expect(rt, "memory")
}

#[test]
fn both_orders_of_two_surrenders_leave_the_same_day(rt: HostRuntime) {
    let day = worked(&rt, rt.alloc(), APART);
    for order in [[1, 2], [2, 1]] {
        let ran = run_named(rt.alloc(), &day.book, &day.rules, &day.batch, &order);
        let ran = ran.expect(&rt, "a legal order");
        assert_eq!(rt; told(&rt, rt.alloc(), &ran), settled(&rt, rt.alloc(), &day));
    }
}
