//! Words and numbers: values are written as the texts spell them, and read from them.

use reg_base::{
    AccountKind, AccountNo, Act, AllowanceKind, NumberFault, Refusal, Retirement, Right, Status,
    UnknownWord, Year,
};
use std::alloc::Global;
use std::process::Abort;

// A deletion of seven general allowances of account 9, its kind and its account, as they are written.
fn written(rt: &impl Abort, alloc: Global) -> String {
    let from = AccountNo::new(9).expect(rt, "an account number within its limits");
    let kind = AllowanceKind::General;
    let act = Act::Delete {
        from,
        kind,
        amount: 7,
    };
    format!(in alloc; "{act},{from:>3},{kind}").expect(rt, "memory")
}

#[test]
fn values_are_written_as_in_the_texts(rt: HostRuntime) {
    assert_eq!(rt; written(&rt, rt.alloc()).as_str(), "delete,  9,general");
    assert_eq!(rt; Refusal::NotDue.as_str(), "NotDue");
    assert_eq!(rt;
        Refusal::NotDue.sentence(),
        "The due day is later than the settlement day."
    );
}

#[test]
fn words_are_read(rt: HostRuntime) {
    assert_eq!(rt; "blocked".parse(), Ok(Status::Blocked));
    assert_eq!(rt; "Blocked".parse::<Status>(), Err(UnknownWord));
    assert_eq!(rt; "NotDue".parse(), Ok(Refusal::NotDue));
    assert_eq!(rt; "notdue".parse::<Refusal>(), Err(UnknownWord));
}

#[test]
fn each_kind_has_its_word(rt: HostRuntime) {
    for (kind, word) in [
        (AllowanceKind::General, "general"),
        (AllowanceKind::Aviation, "aviation"),
    ] {
        assert_eq!(rt; (kind.as_str(), word.parse()), (word, Ok(kind)));
    }
    for (kind, word) in [
        (AccountKind::Total, "total"),
        (AccountKind::Allocation, "allocation"),
        (AccountKind::Operator, "operator"),
        (AccountKind::Aircraft, "aircraft"),
        (AccountKind::Trading, "trading"),
    ] {
        assert_eq!(rt; (kind.as_str(), word.parse()), (word, Ok(kind)));
    }
}

#[test]
fn each_status_and_each_right_has_its_word(rt: HostRuntime) {
    for (status, word) in [
        (Status::Opened, "open"),
        (Status::Blocked, "blocked"),
        (Status::Excluded, "excluded"),
        (Status::Closed, "closed"),
    ] {
        assert_eq!(rt; (status.as_str(), word.parse()), (word, Ok(status)));
    }
    for (right, word) in [
        (Right::Propose, "propose"),
        (Right::Approve, "approve"),
        (Right::Both, "both"),
    ] {
        assert_eq!(rt; (right.as_str(), word.parse()), (word, Ok(right)));
    }
    for (way, word) in [
        (Retirement::Surrendered, "surrender"),
        (Retirement::Deleted, "deletion"),
    ] {
        assert_eq!(rt; (way.as_str(), word.parse()), (word, Ok(way)));
    }
}

#[test]
fn numbers_are_read(rt: HostRuntime) {
    assert_eq!(rt; "999999999".parse().ok(), AccountNo::new(999_999_999));
    assert_eq!(rt;
        "1000000000".parse::<AccountNo>(),
        Err(NumberFault::OutOfRange)
    );
    assert_eq!(rt; "007".parse::<AccountNo>(), Err(NumberFault::NotANumber));
    assert_eq!(rt; "2020".parse::<Year>(), Err(NumberFault::OutOfRange));
}
