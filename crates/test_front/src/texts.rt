//! The texts of faults, of all error types of the libraries.

use reg_account::{AccountFault, FigureFault};
use reg_base::{BatchFault, CalendarFault, NoMemory, NumberFault, RulesFault, UnknownWord, Year};
use reg_book::{ApplyFault, BookFault, SettleFault, Stale};
use reg_front::{CallFailed, FrontFault};
use reg_graph::{EventFault, Lack, RunFault};
use reg_plan::OrderFault;
use reg_regions::{NotSettled, RegionsFault};
use reg_text::{Cause, DayFault, StatementFault};
use reg_work::WorkFault;

#[test]
fn faults_of_the_base_have_their_texts(rt: HostRuntime) {
    let text = format!(in rt.alloc();
        "{}\n{}\n{}\n{}\n{}\n{}\n{}\n{}\n{}\n{}\n{}\n{}\n{}\n{}\n",
        NoMemory,
        NumberFault::NotANumber,
        NumberFault::OutOfRange,
        UnknownWord,
        CalendarFault::NotRising { place: 3 },
        BatchFault::TooMany,
        BatchFault::NumbersSpent,
        RulesFault::TooManyAdmins,
        RulesFault::AdminsNotRising { place: 3 },
        RulesFault::LagTooLong,
        RulesFault::PeriodCount,
        RulesFault::PeriodReversed,
        RulesFault::PeriodsNotRising { place: 2 },
        RulesFault::CurrentOutside,
    );
    let wanted = "\
out of memory
not a number
number out of range
unknown word
the working day at position 3 is not later than the one before it
there are more than 16,384 instructions
the last record number would be above 10^15
there are more than 64 administrators
the administrator at position 3 has no higher number than the one before
a lag or the reversal window is longer than 1,000 working days
there are not 1 to 8 periods
the last year of a period is before its first
the period at position 2 does not begin after the one before has ended
the current period is none of the periods
";
    assert_eq!(rt; text.expect(&rt, "memory").as_str(), wanted);
}

#[test]
fn faults_of_accounts_have_their_texts(rt: HostRuntime) {
    let text = format!(in rt.alloc();
        "{}\n{}\n{}\n{}\n{}\n{}\n{}\n{}\n",
        AccountFault::Correction,
        AccountFault::Holding,
        AccountFault::Users,
        AccountFault::Trusted,
        AccountFault::Rows,
        AccountFault::Retired,
        AccountFault::Emissions,
        AccountFault::Figures,
    );
    let wanted = "\
a correction factor is not -10^15 to 10^15 tonnes, or those of later periods are 0 or don't rise from 2 to 8
a holding is above 10^15 allowances
the representatives are more than 64, or don't rise
the trusted accounts are more than 256, or don't rise
the surrenders and deletions are more than 4,096, don't rise, or have an amount that is not 1 to 10^15 \
or a period that is not 1 to 8
a surrendered or deleted amount is above 10^15 allowances
the years of the emissions don't rise, or emissions are above 10^12 tonnes
the years of the figures don't rise, or a figure is not -4 x 10^15 to 4 x 10^15 tonnes
";
    assert_eq!(rt; text.expect(&rt, "memory").as_str(), wanted);
}

#[test]
fn faults_of_figures_and_books_have_their_texts(rt: HostRuntime) {
    let year = Year::new(2024).expect(&rt, "a year");
    let text = format!(in rt.alloc();
        "{}\n{}\n{}\n{}\n{}\n{}\n{}\n{}\n{}\n{}\n{}\n",
        FigureFault::YearOutsidePeriod,
        FigureFault::Missing(year),
        BookFault::Repeated,
        BookFault::RowAhead,
        BookFault::Full,
        BookFault::NoMemory,
        SettleFault::WrongBase { next: 2 },
        SettleFault::NoMemory,
        Stale { next: 2 },
        ApplyFault::NumbersSpent,
        ApplyFault::NoMemory,
    );
    let wanted = "\
the year is outside every period
the emissions of a year are missing
an account of this number is there already
a surrender or a deletion is recorded under a number that comes only later
the book has as many accounts as it may have
out of memory
the batch does not begin with record 2
out of memory
the next record number is 2
no record number is left
out of memory
";
    assert_eq!(rt; text.expect(&rt, "memory").as_str(), wanted);
}

#[test]
fn faults_of_orders_have_their_texts(rt: HostRuntime) {
    let text = format!(in rt.alloc();
        "{}\n{}\n{}\n{}\n{}\n{}\n{}\n{}\n{}\n",
        OrderFault::Length,
        OrderFault::NoMemory,
        OrderFault::Number { at: 3 },
        OrderFault::Repeated { at: 3 },
        OrderFault::Arrow { from: 1, to: 4 },
        RunFault::Order(OrderFault::Length),
        RunFault::NoMemory,
        Lack::Memory,
        Lack::Foreign,
    );
    let wanted = "\
the order has another length than the batch
out of memory
the number at position 3 is no place
the number at position 3 has come already
instruction 4 comes before 1
the order has another length than the batch
out of memory
out of memory
a parcel or a row is not the one that is needed
";
    assert_eq!(rt; text.expect(&rt, "memory").as_str(), wanted);
}

#[test]
fn faults_of_events_have_their_texts(rt: HostRuntime) {
    let text = format!(in rt.alloc();
        "{}\n{}\n{}\n{}\n{}\n{}\n{}\n{}\n",
        EventFault::NoSuchWorker,
        EventFault::OwnDeque,
        EventFault::HandsFull,
        EventFault::EmptyDeque,
        EventFault::NothingToRun,
        EventFault::NothingToDeliver,
        EventFault::NothingToPush,
        EventFault::NoMemory,
    );
    let wanted = "\
there is no such worker
a worker does not steal from itself
the worker has something in hand
the list has no task
the worker has no task to run
the worker has no parcel to deliver
the worker has no task to push
out of memory
";
    assert_eq!(rt; text.expect(&rt, "memory").as_str(), wanted);
}

#[test]
fn faults_of_texts_and_of_the_engine_have_their_texts(rt: HostRuntime) {
    let (row, cause) = (28, Cause::Fields);
    let text = format!(in rt.alloc();
        "{}\n{}\n{}\n{}\n{}\n{}\n{}\n{}\n{}\n{}\n{}\n{}\n",
        DayFault::Row { row, cause },
        DayFault::NoMemory,
        StatementFault::UnknownAccount,
        StatementFault::NoMemory,
        FrontFault::Row { row, cause },
        FrontFault::Read,
        FrontFault::Workers,
        FrontFault::NoAccount,
        FrontFault::NoThread,
        FrontFault::NoMemory,
        FrontFault::WriteFailed,
        CallFailed,
    );
    let wanted = "\
row 28: fields
out of memory
no such account
out of memory
row 28: fields
read failed
workers must be 1 to 8
no such account
no thread
out of memory
write failed
the call failed
";
    assert_eq!(rt; text.expect(&rt, "memory").as_str(), wanted);
}

#[test]
fn faults_of_workers_have_their_texts(rt: HostRuntime) {
    let text = format!(in rt.alloc();
        "{}\n{}\n{}\n{}\n{}\n{}\n{}\n{}\n{}\n",
        WorkFault::Workers,
        WorkFault::WrongBase { next: 2 },
        WorkFault::NoThread,
        WorkFault::NoMemory,
        reg_claim::NoMemory,
        RegionsFault::Workers,
        RegionsFault::WrongBase { next: 2 },
        RegionsFault::NoMemory,
        NotSettled {
            fault: RegionsFault::WrongBase { next: 3 },
            parts: None,
        },
    );
    let wanted = "\
workers must be 1 to 8
the batch does not begin with record 2
no thread
out of memory
out of memory
workers must be 1 to 8
the batch does not begin with record 2
out of memory
the batch does not begin with record 3
";
    assert_eq!(rt; text.expect(&rt, "memory").as_str(), wanted);
}
