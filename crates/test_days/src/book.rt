//! Books, settled days and their commit: that the calls succeed where memory is left, and days worked out by hand.

use crate::fixtures::{account_no, holder, read, surrendered};
use reg_account::{Account, AccountParts, Holdings, Lists};
use reg_base::{AccountKind, AllowanceKind, Status};
use reg_book::{BookDraft, BookFault, SettleFault, Settled, Stale, settle_plain};
use reg_text::write_book;
use std::alloc::Global;
use std::process::Abort;

// A trading account with so many general allowances.
fn account(rt: &impl Abort, alloc: Global, number: u32, general: u64) -> Account {
    account_with(rt, number, general, Lists::empty(alloc))
}

// The same with these lists.
fn account_with(rt: &impl Abort, number: u32, general: u64, lists: Lists) -> Account {
    let parts = AccountParts {
        number: account_no(rt, number),
        kind: AccountKind::Trading,
        holder: holder(rt, 11),
        status: Status::Opened,
        outside: false,
        waiver: false,
        correction: 0,
        held: Holdings {
            general,
            aviation: 0,
        },
        lists,
    };
    Account::of(parts).expect(rt, "an account")
}

// Takes an account in.
fn insert(rt: &impl Abort, draft: &mut BookDraft, account: Account) {
    draft.insert(account).expect(rt, "room in the draft");
}

// A draft of the accounts 1 to `count`, each with so many general allowances, whose next record number is 7.
fn draft(rt: &impl Abort, alloc: Global, count: u32, general: u64) -> BookDraft {
    let mut draft = BookDraft::new(alloc, 7);
    for number in 0..count {
        insert(rt, &mut draft, account(rt, alloc, number + 1, general));
    }
    draft
}

// The text of a book whose accounts came in this order.
fn book_text(rt: &impl Abort, alloc: Global, came: [u32; 3]) -> Vec<u8> {
    let mut draft = BookDraft::new(alloc, 7);
    for number in came {
        insert(rt, &mut draft, account(rt, alloc, number, 5));
    }
    write_book(alloc, &draft.finish()).expect(rt, "memory")
}

// What each of them gives.
const RISING: &str = "\
book,7
account,1,trading,11,open,no,no,0,5,0
account,2,trading,11,open,no,no,0,5,0
account,3,trading,11,open,no,no,0,5,0
";

#[test]
fn accounts_stand_by_rising_number(rt: HostRuntime) {
    for came in [[3, 1, 2], [1, 2, 3], [2, 3, 1]] {
        let text = book_text(&rt, rt.alloc(), came);
        assert_eq!(rt; text.as_slice(), RISING.as_bytes());
    }
}

// Why a draft refuses an account, which it gives back as it was.
fn refuse(rt: &impl Abort, alloc: Global, draft: &mut BookDraft, number: u32) -> BookFault {
    let refused = draft.insert(account(rt, alloc, number, 5)).err();
    let (back, fault) = refused.expect(rt, "an account that is refused");
    assert_eq!(rt; back.number().get(), number);
    assert_eq!(rt; back.held(AllowanceKind::General), 5);
    fault
}

#[test]
fn an_account_comes_once(rt: HostRuntime) {
    let mut draft = draft(&rt, rt.alloc(), 2, 100);
    assert_eq!(rt; refuse(&rt, rt.alloc(), &mut draft, 1), BookFault::Repeated);
}

// Account 1 with a surrender under this record number.
fn with_row(rt: &impl Abort, alloc: Global, number: u64) -> Account {
    let mut lists = Lists::empty(alloc);
    let row = surrendered(rt, number, 10);
    lists.push_row(row).expect(rt, "memory");
    account_with(rt, 1, 0, lists)
}

#[test]
fn a_surrender_comes_before_the_next_record(rt: HostRuntime) {
    let mut draft = BookDraft::new(rt.alloc(), 5);
    let refused = draft.insert(with_row(&rt, rt.alloc(), 5)).err();
    let (back, fault) = refused.expect(&rt, "an account that is refused");
    assert_eq!(rt; fault, BookFault::RowAhead);
    assert_eq!(rt; back.rows().len(), 1);
    insert(&rt, &mut draft, with_row(&rt, rt.alloc(), 4));
}

#[test]
fn a_book_has_a_hundred_thousand_accounts(rt: HostRuntime) {
    let mut draft = draft(&rt, rt.alloc(), 100_000, 0);
    assert_eq!(rt;
        refuse(&rt, rt.alloc(), &mut draft, 100_001),
        BookFault::Full
    );
    assert_eq!(rt; draft.finish().accounts().len(), 100_000);
}

// A day on which account 1 moves 70 of its 100 to account 2, and then can't do it again.
const DAY: &str = "\
format,1
day,2025-03-31,1
period,2021,2030
lags,0,1,1,2
work,2025-03-31
account,1,operator,11,open,no,no,0,100,0
user,101,propose
user,102,approve
trusted,2,2025-03-31
account,2,trading,12,open,no,no,0,0,0
account,3,aircraft,13,open,no,no,0,50,0
do,2025-03-31,101,102,transfer,1,2,general,70
do,2025-03-31,101,102,transfer,1,2,general,70
end
";

// How many general allowances a settled day leaves on an account, where it touched it.
fn left(rt: &impl Abort, settled: &Settled, number: u32) -> Option<u64> {
    let account = settled.account(account_no(rt, number))?;
    Some(account.held(AllowanceKind::General))
}

// Settles the day twice and puts both into its book. Answers why the second one does not follow, and of what is given
// back how many log rows it has and what it leaves on account 1.
fn commit_twice(rt: &impl Abort, alloc: Global) -> (Stale, usize, Option<u64>) {
    let mut day = read(rt, alloc, DAY);
    let first = settle_plain(alloc, &day.book, &day.rules, &day.batch).expect(rt, "memory");
    let second = settle_plain(alloc, &day.book, &day.rules, &day.batch).expect(rt, "memory");
    let log = day.book.commit(first).expect(rt, "a day that follows");
    assert_eq!(rt; log.as_slice().len(), 2);
    let refused = day.book.commit(second).err();
    let (back, stale) = refused.expect(rt, "a day that does not follow");
    (stale, back.rows().len(), left(rt, &back, 1))
}

// Settles the day, puts it into its book, and settles it again. Answers the book's next record number, and why the day
// is not settled again.
fn settle_again(rt: &impl Abort, alloc: Global) -> (u64, Option<SettleFault>) {
    let mut day = read(rt, alloc, DAY);
    let first = settle_plain(alloc, &day.book, &day.rules, &day.batch).expect(rt, "memory");
    day.book.commit(first).expect(rt, "a day that follows");
    let late = settle_plain(alloc, &day.book, &day.rules, &day.batch);
    (day.book.next_record(), late.err())
}

#[test]
fn of_two_settled_days_one_is_stale(rt: HostRuntime) {
    let found = commit_twice(&rt, rt.alloc());
    assert_eq!(rt; found, (Stale { next: 3 }, 2, Some(30)));
    let again = settle_again(&rt, rt.alloc());
    assert_eq!(rt; again, (3, Some(SettleFault::WrongBase { next: 3 })));
}
