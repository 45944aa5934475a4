//! Distributions: one account gives to one to eight others, by all ways of settling.

use crate::fixtures::{read, worked};
use crate::levels::is_same;
use crate::orders::{opening, settled, told};
use crate::stealing::shifts;
use reg_tasks::{Context, Unnamed, run_order};
use reg_text::DayInput;
use reg_work::FreeGate;
use reg_yard::Dock;
use std::alloc::Global;
use std::process::Abort;
use std::sync::Wait;
use std::thread::Threads;

// Account 8 has 600 general allowances, and distributes 150 of them.
const TWO_SHARES: &str = "\
do,2025-03-31,901,902,create,9,general,1000
do,2025-03-31,901,902,central,9,8,general,600
do,2025-03-31,901,902,distribute,8,general,1,100,3,50
do,2025-03-31,101,102,transfer,1,2,general,150
";

// The shares together are one more than account 8 holds.
const ONE_TOO_MANY: &str = "\
do,2025-03-31,901,902,create,9,general,1000
do,2025-03-31,901,902,central,9,8,general,600
do,2025-03-31,901,902,distribute,8,general,1,600,3,1
do,2025-03-31,101,102,transfer,1,2,general,100
";

// A distribution that touches no account, since one of its accounts is unknown.
const TO_NOBODY: &str = "\
do,2025-03-31,901,902,create,9,general,1000
do,2025-03-31,901,902,central,9,8,general,600
do,2025-03-31,901,902,distribute,8,general,1,100,77,1
do,2025-03-31,901,902,central,8,1,general,1
";

// An account receives twice.
const TO_ONE_TWICE: &str = "\
do,2025-03-31,901,902,create,9,general,1000
do,2025-03-31,901,902,central,9,8,general,600
do,2025-03-31,901,902,distribute,8,general,1,100,1,50
do,2025-03-31,901,902,central,8,1,general,1
";

// A trading account receives.
const TO_TRADING: &str = "\
do,2025-03-31,901,902,create,9,general,1000
do,2025-03-31,901,902,central,9,8,general,600
do,2025-03-31,901,902,distribute,8,general,1,100,2,1
do,2025-03-31,901,902,central,8,1,general,1
";

// A share of nothing.
const OF_NOTHING: &str = "\
do,2025-03-31,901,902,create,9,general,1000
do,2025-03-31,901,902,central,9,8,general,600
do,2025-03-31,901,902,distribute,8,general,1,100,3,0
do,2025-03-31,901,902,central,8,1,general,1
";

// The shares together are more than 64 bits can say.
const ABOVE_64_BITS: &str = "\
do,2025-03-31,901,902,create,9,general,1000
do,2025-03-31,901,902,central,9,8,general,600
do,2025-03-31,901,902,distribute,8,general,1,18446744073709551615,3,18446744073709551615
do,2025-03-31,901,902,central,8,1,general,1
";

// Account 3 is full, so account 1 receives nothing either.
const TO_A_FULL_ONE: &str = "\
format,1
day,2025-03-31,1
period,2021,2030
lags,0,1,1,2
admin,901
admin,902
work,2025-03-31
account,1,operator,11,open,no,no,0,100,0
account,3,aircraft,13,open,no,no,0,1000000000000000,50
account,8,allocation,1,open,no,no,0,600,0
do,2025-03-31,901,902,distribute,8,general,1,1,3,1
do,2025-03-31,901,902,central,8,1,general,1
end
";

// A distribution to as many accounts as there may be.
const EIGHT_SHARES: &str = "\
format,1
day,2025-03-31,1
period,2021,2030
lags,0,1,1,2
admin,901
admin,902
work,2025-03-31
account,8,allocation,1,open,no,no,0,600,0
account,21,operator,21,open,no,no,0,0,0
account,22,operator,22,open,no,no,0,0,0
account,23,operator,23,open,no,no,0,0,0
account,24,operator,24,open,no,no,0,0,0
account,25,aircraft,25,open,no,no,0,0,0
account,26,aircraft,26,open,no,no,0,0,0
account,27,aircraft,27,open,no,no,0,0,0
account,28,aircraft,28,open,no,no,0,0,0
do,2025-03-31,901,902,distribute,8,general,28,1,27,2,26,3,25,4,24,5,23,6,22,7,21,8
end
";

// A distribution to two accounts.
const TO_TWO: &str = "\
format,1
day,2025-03-31,1
period,2021,2030
lags,0,1,1,2
admin,901
admin,902
work,2025-03-31
account,1,operator,11,open,no,no,0,100,0
account,3,aircraft,13,open,no,no,0,0,50
account,8,allocation,1,open,no,no,0,600,0
do,2025-03-31,901,902,distribute,8,general,1,100,3,50
end
";

// What the instructions of a day leave in this order, each on its own values.
fn in_order(rt: &impl Abort, alloc: Global, day: &DayInput, order: &[u32]) -> String {
    let context = Context::<Unnamed>::of(alloc, &day.book, &day.rules, &day.batch).expect(
        rt, "memory",
    );
    let settled = run_order(alloc, &context, order).expect(rt, "a legal order");
    told(rt, alloc, &settled)
}

/// Tells whether all ways, of which one takes this order, leave what the instructions of a day one after another leave.
pub(crate) fn are_same<R: Abort + Threads + Wait + Sync>(
    rt: &R,
    alloc: Global,
    day: &DayInput,
    order: &[u32],
) -> bool {
    for workers in 1..9u32 {
        shifts(rt, alloc, day, workers, &FreeGate);
        if !is_same(rt, alloc, day, workers) {
            return false;
        }
    }
    in_order(rt, alloc, day, order) == settled(rt, alloc, day)
}

// How many opening values the dock of a distribution takes until it gives the task out.
fn awaited(rt: &impl Abort, alloc: Global, text: &str, accounts: &[u32]) -> usize {
    let DayInput { rules, book, batch } = read(rt, alloc, text);
    let context = Context::<Unnamed>::of(alloc, &book, &rules, &batch).expect(rt, "memory");
    assert!(rt; batch.len() == 1);
    let (mut dock, task) = Dock::new(alloc, &context, 1).expect(rt, "memory");
    assert!(rt; task.is_none());
    let mut came: usize = 0;
    for account in accounts {
        came = came.saturating_add(1);
        let Ok(task) = dock.deliver(opening(rt, alloc, &context, *account)) else {
            panic!(rt; "a value that is not awaited");
        };
        if task.is_some() {
            return came;
        }
    }
    0
}

#[test]
fn all_ways_leave_what_one_instruction_after_another_leaves(rt: HostRuntime) {
    for instructions in [
        TWO_SHARES,
        ONE_TOO_MANY,
        TO_NOBODY,
        TO_ONE_TWICE,
        TO_TRADING,
        OF_NOTHING,
        ABOVE_64_BITS,
    ] {
        let day = worked(&rt, rt.alloc(), instructions);
        assert!(rt;
            are_same(&rt, rt.alloc(), &day, &[1, 2, 3, 4]),
            "{instructions}"
        );
    }
}

#[test]
fn all_ways_refuse_a_distribution_to_a_full_account(rt: HostRuntime) {
    let day = read(&rt, rt.alloc(), TO_A_FULL_ONE);
    assert!(rt; are_same(&rt, rt.alloc(), &day, &[1, 2]));
}

#[test]
fn a_dock_gives_the_task_with_its_last_value(rt: HostRuntime) {
    let accounts = [24, 8, 21, 28, 22, 27, 23, 26, 25];
    assert_eq!(rt; awaited(&rt, rt.alloc(), TO_TWO, &[3, 8, 1]), 3);
    assert_eq!(rt; awaited(&rt, rt.alloc(), EIGHT_SHARES, &accounts), 9);
}
