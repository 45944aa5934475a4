//! Small days, for the tests of this crate.

use reg_account::{Account, AccountParts, Holdings, Lists};
use reg_base::{AccountKind, AccountNo, HolderNo, Status};
use reg_book::{BookDraft, Indexes, Parts};
use std::alloc::Global;
use std::process::Abort;

// An account with this number, which holds nothing.
fn account(rt: &impl Abort, alloc: Global, number: u32) -> Account {
    let parts = AccountParts {
        number: AccountNo::new(number).expect(rt, "an account number"),
        kind: AccountKind::Trading,
        holder: HolderNo::new(1).expect(rt, "a holder number"),
        status: Status::Opened,
        outside: false,
        waiver: false,
        correction: 0,
        held: Holdings {
            general: 0,
            aviation: 0,
        },
        lists: Lists::empty(alloc),
    };
    match Account::of(parts) {
        Ok(account) => account,
        Err((_, fault)) => panic!(rt; "{fault}"),
    }
}

/// A list of accounts for each of these, with the numbers that it has.
pub(crate) fn lists_of(rt: &impl Abort, alloc: Global, numbers: &[&[u32]]) -> Vec<Vec<Account>> {
    let mut lists = Vec::new(alloc);
    for list in numbers {
        let mut accounts = Vec::new(alloc);
        for number in *list {
            accounts
                .push(account(rt, alloc, *number))
                .expect(rt, "memory");
        }
        lists.push(accounts).expect(rt, "memory");
    }
    lists
}

/// The book of accounts with these numbers, in one list.
pub(crate) fn book_of(rt: &impl Abort, alloc: Global, numbers: &[u32]) -> Parts {
    let mut draft = BookDraft::new(alloc, 1);
    for number in numbers {
        match draft.insert(account(rt, alloc, *number)) {
            Ok(()) => (),
            Err((_, fault)) => panic!(rt; "{fault}"),
        }
    }
    match Parts::of_book(alloc, draft.finish()) {
        Ok(parts) => parts,
        Err((_, fault)) => panic!(rt; "{fault}"),
    }
}

/// One run of instructions, of which each touches accounts at these indexes.
pub(crate) fn run_of(rt: &impl Abort, alloc: Global, touched: &[&[u32]]) -> Vec<Vec<Indexes>> {
    let mut run = Vec::new(alloc);
    for indexes in touched {
        let mut own = Indexes::new();
        for index in *indexes {
            if !own.is_full() {
                own.push(*index);
            }
        }
        run.push(own).expect(rt, "memory");
    }
    vec![in alloc; run].expect(rt, "memory")
}
