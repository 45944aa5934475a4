//! A book in the making.

ghost use Rattle.std.specs.Prelude.{◌≡◌, ◌<◌, [], ◌∷◌, ◌++◌, length, vec_len, vec_capacity, MatchResult, OnOk, OnErr};
ghost use Rattle.std.specs.Prelude.{None, false, IsTrue, ◌↔◌, nat_eq, IsPermutation, IfErr, IfOk, true, if◌then◌else◌};
ghost use Rattle.std.specs.List.{IsDistinct};
ghost use Rattle.reg_base.specs.Rising.{IsRising};
ghost use Rattle.reg_base.specs.Footprint.{is_among};
ghost use Rattle.reg_rules.specs.State.{numbers};
ghost use Rattle.reg_rules.specs.Effect.{IsBehind};
ghost use Rattle.reg_account.specs.Account.{IsAccount};
ghost use Rattle.reg_book.specs.Book.{directory_of, has_row_ahead, first_fault, IsBookFault};

use crate::book::Book;
use reg_account::Account;
use reg_base::{Directory, MOST_ACCOUNTS, NoMemory};
use std::alloc::Global;
use std::marker::Model;
use thiserror::Error;

/// Why a draft refuses an account: the first of these that applies.
#[derive(Clone, Copy, Debug, PartialEq, Eq, Error)]
pub enum BookFault {
    /// The draft already has an account with this number.
    #[error("an account of this number is there already")]
    Repeated,
    /// A surrender or a deletion of the account has a number that is not below the next record number.
    #[error("a surrender or a deletion is recorded under a number that comes only later")]
    RowAhead,
    /// The draft already has 100,000 accounts.
    #[error("the book has as many accounts as it may have")]
    Full,
    /// Memory ran out.
    #[error("out of memory")]
    NoMemory,
}

/// A book in the making: its accounts, in the order in which they were inserted, and the next record number.
#[derive(Debug, Drop)]
pub struct BookDraft {
    accounts: Vec<Account>,
    directory: Directory,
    next: u64,
}

impl Model for BookDraft {
    ghost use Rattle.reg_book.specs.Book.{BookValue, IsBookDraft};

    ghost Value = { BookValue };

    ghost view = { λ d. record { accounts = d.accounts.items; next = d.next } };

    ghost invariant = { λ d. IsBookDraft d.accounts.items d.directory d.next };
}

impl BookDraft {
    ghost use Rattle.reg_book.specs.Book.{with_account, IsNext, IsFinished, IsBookFault, first_fault};

    /// A draft without accounts. `next` is the next record number, 1 to 10^15 + 1. Takes no memory.
    pub fn new(alloc: Global, next: u64) -> Self
        requires { IsNext next }
        ensures { result ≡ record { accounts = []; next = next } }
    {
        BookDraft {
            accounts: Vec::new(alloc),
            directory: Directory::empty(alloc),
            next,
        }
    }

    /// Inserts an account. The accounts may come in any order of their numbers.
    ///
    /// # Errors
    /// The account as it was, and the first fault that applies, in the order of [`BookFault`]. The draft is not
    /// changed.
    pub fn insert(&mut self, account: Account) -> Result<(), (Account, BookFault)>
        ensures { MatchResult result
            (λ _. (self.new ≡ with_account self.old account) × (first_fault self.old account ≡ None))
            (λ e. (self.new ≡ self.old) × (e.0 ≡ account) × IsBookFault self.old account e.1) }
    {
        match admit(&mut self.accounts, &mut self.directory, self.next, &account) {
            Err(fault) => Err((account, fault)),
            Ok(()) => {
                self.accounts.push(account).unwrap();
                Ok(())
            }
        }
    }

    /// The book of these accounts, by rising number. Takes no memory.
    pub fn finish(self) -> Book
        ensures { IsFinished self result }
    {
        let BookDraft {
            mut accounts,
            directory,
            next,
        } = self;
        put_in_order(&mut accounts);
        Book::from_sorted(accounts, directory, next)
    }
}

// Sorts the accounts by number, in place. Accounts that are in order already are not moved.
fn put_in_order(accounts: &mut Vec<Account>)
    requires { IsDistinct nat_eq (numbers accounts.old.items) }
    ensures same { IsPermutation accounts.old.items accounts.new.items }
    ensures len { length accounts.new.items ≡ length accounts.old.items }
    ensures rising { IsRising (numbers accounts.new.items) }
    ensures as_inserted { IsRising (numbers accounts.old.items) → accounts.new.items ≡ accounts.old.items }
{
    if !has_rising_numbers(accounts) {
        accounts.sort_unstable_by_key(|account| account.number());
    }
}

fn has_rising_numbers(accounts: &[Account]) -> bool
    ensures { IsTrue result ↔ IsRising (numbers accounts.now) }
{
    for next in 1..accounts.len() {
        if accounts[next].number() <= accounts[next - 1].number() {
            return false;
        }
    }
    true
}

// Makes room for the account and enters it into the directory, or says why it can't be taken in.
fn admit(
    accounts: &mut Vec<Account>,
    directory: &mut Directory,
    next: u64,
    account: &Account,
) -> Result<(), BookFault>
    requires listed { directory.old ≡ directory_of accounts.old.items }
    ensures items { accounts.new.items ≡ accounts.old.items }
    ensures room { OnOk result (vec_len accounts.new < vec_capacity accounts.new) }
    ensures entered { OnOk result (directory.new ≡ directory_of (accounts.old.items ++ account.now ∷ [])) }
    ensures fault { MatchResult result
        (λ _. first_fault (record { accounts = accounts.old.items; next = next }) account.now ≡ None)
        (IsBookFault (record { accounts = accounts.old.items; next = next }) account.now) }
    ensures err { OnErr result (directory.new ≡ directory.old) }
    ensures within_limits { IsAccount account.now }
    ensures behind { OnOk result (IsBehind next account.now) }
{
    account.is_within_limits();
    if let Some(fault) = find_fault(accounts, directory, next, account) {
        return Err(fault);
    }
    match make_room(accounts, directory, account) {
        Ok(()) => Ok(()),
        Err(NoMemory) => Err(BookFault::NoMemory),
    }
}

// What is wrong with taking the account in, if anything is.
fn find_fault(
    accounts: &[Account],
    directory: &Directory,
    next: u64,
    account: &Account,
) -> Option<BookFault>
    requires listed { directory.now ≡ directory_of accounts.now }
    ensures { result ≡ first_fault (record { accounts = accounts.now; next = next }) account.now }
{
    if directory.find(account.number()).is_some() {
        return Some(BookFault::Repeated);
    }
    if has_row_ahead(next, account) {
        return Some(BookFault::RowAhead);
    }
    (accounts.len() >= MOST_ACCOUNTS).then_some(BookFault::Full)
}

/// Whether a surrender or a deletion of the account has a record number that is not below `next`. Takes no memory. Only
/// the last row is looked at, which has the highest number.
pub fn has_row_ahead(next: u64, account: &Account) -> bool
    ensures { result ≡ has_row_ahead next account.now }
{
    match account.rows().last() {
        Some(row) => next <= row.number.get(),
        None => false,
    }
}

// Makes room for the account among the others, and enters it into the directory.
fn make_room(
    accounts: &mut Vec<Account>,
    directory: &mut Directory,
    account: &Account,
) -> Result<(), NoMemory>
    requires listed { directory.old ≡ directory_of accounts.old.items }
    requires is_new { is_among (numbers accounts.old.items) account.now.number ≡ false }
    ensures items { accounts.new.items ≡ accounts.old.items }
    ensures room { OnOk result (vec_len accounts.new < vec_capacity accounts.new) }
    ensures entered { OnOk result (directory.new ≡ directory_of (accounts.old.items ++ account.now ∷ [])) }
    ensures err { OnErr result (directory.new ≡ directory.old) }
{
    accounts.reserve(1)?;
    directory.insert(account.number(), account.kind(), account.holder())?;
    Ok(())
}
