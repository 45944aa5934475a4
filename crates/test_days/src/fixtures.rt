//! Values that the tests share. What can't be made ends the test.

ghost use Rattle.reg_account.specs.Rows.{FateFits};

use reg_account::{Fate, RetirementRow};
use reg_base::{AccountNo, AllowanceKind, Day, HolderNo, RecordNo};
use reg_text::{DayInput, read_day};
use std::alloc::Global;
use std::process::Abort;

// The accounts of a day that was worked out by hand, up to its instructions.
const WORKED: &str = "\
format,1
day,2025-03-31,1
period,2021,2030
lags,0,1,1,2
surrender,operator,general
surrender,aircraft,general
surrender,aircraft,aviation
admin,901
admin,902
work,2025-03-31
work,2025-04-01
work,2025-04-02
work,2025-04-03
work,2025-04-04
account,1,operator,11,open,no,no,0,100,0
user,101,propose
user,102,approve
trusted,2,2025-03-03
account,2,trading,12,open,no,no,0,0,0
user,201,both
user,202,both
trusted,1,2025-03-03
account,3,aircraft,13,open,no,no,0,0,50
user,301,propose
user,302,approve
account,8,allocation,1,open,no,no,0,0,0
account,9,total,1,open,no,no,0,0,0
";

// The day that lies so many days after 1970-01-01.
fn day(rt: &impl Abort, count: u32) -> Day {
    Day::new(count).expect(rt, "a day within its limits")
}

/// The account number.
pub(crate) fn account_no(rt: &impl Abort, number: u32) -> AccountNo {
    AccountNo::new(number).expect(rt, "an account number within its limits")
}

/// The holder number.
pub(crate) fn holder(rt: &impl Abort, number: u32) -> HolderNo {
    HolderNo::new(number).expect(rt, "a holder number within its limits")
}

/// A surrender of so many general allowances on 2025-03-28 for period 1, under this record number.
pub(crate) fn surrendered(rt: &impl Abort, number: u64, amount: u64) -> RetirementRow
    ensures { FateFits result.fate }
{
    RetirementRow {
        number: RecordNo::new(number).expect(rt, "a record number within its limits"),
        fate: Fate::Surrendered { period: 1 },
        kind: AllowanceKind::General,
        amount,
        day: day(rt, 20_175),
        reversed: false,
    }
}

/// That day with these instructions.
pub(crate) fn worked(rt: &impl Abort, alloc: Global, instructions: &str) -> DayInput {
    let text = format!(in alloc; "{}{}end\n", WORKED, instructions).expect(rt, "memory");
    read(rt, alloc, text.as_str())
}

/// The day of a text.
pub(crate) fn read(rt: &impl Abort, alloc: Global, text: &str) -> DayInput {
    read_day(alloc, text.as_bytes()).expect(rt, "a day text")
}
