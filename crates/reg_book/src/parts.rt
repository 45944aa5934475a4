//! A book whose accounts lie in several lists, so that threads can own them by value.

ghost use Rattle.std.specs.Prelude.{◌≡◌, ◌≤◌, ◌++◌, [], true, None, All, length, OnOk, MatchResult};
ghost use Rattle.std.specs.Option.{option_copied};
ghost use Rattle.reg_base.specs.Rising.{IsRising};
ghost use Rattle.reg_base.specs.declared.limits.TheConstants.{MOST_ACCOUNTS};
ghost use Rattle.reg_account.specs.Account.{IsAccount};
ghost use Rattle.reg_rules.specs.State.{account, numbers};
ghost use Rattle.reg_facts.specs.Lists.{joined_lists};
ghost use Rattle.reg_book.specs.Totals.{totals_of};

use crate::book::{Book, get_account};
use crate::listed::ListedAccounts;
use crate::totals::{BothTotals, add_up};
use reg_account::Account;
use reg_base::{AccountNo, Directory, NoMemory};
use reg_rules::Reply;
use std::alloc::Global;
use std::marker::Model;
use std::mem;

/// The accounts of a registry, by rising number, in lists one behind the other, and the next record number. A contract
/// sees it as plain data, and does not see where a list ends: it is the book of all the accounts.
#[derive(Debug, Drop)]
pub struct Parts {
    lists: Vec<Vec<Account>>,
    directory: Directory,
    next: u64,
}

/// A day that is over: the book after it in lists, and what was answered. The rest of its log is in the batch.
#[derive(Debug, Drop)]
pub struct ClosedParts {
    /// The book after the day.
    pub parts: Parts,
    /// The replies to the instructions, in order.
    pub replies: Vec<Reply>,
}

impl Model for Parts {
    ghost use Rattle.reg_book.specs.Book.{BookValue, IsBookKept};
    ghost use Rattle.reg_facts.specs.Lists.{joined_lists};

    ghost Value = { BookValue };

    ghost view = { λ p. record { accounts = joined_lists p.lists.items; next = p.next } };

    ghost invariant = { λ p. IsBookKept (joined_lists p.lists.items) p.directory p.next };
}

impl Parts {
    ghost use Rattle.reg_book.specs.Book.{directory_of, IsBook, IsBookKept};

    /// The book of these lists, with the directory of their accounts and the next record number: what
    /// [`Parts::into_lists`] took apart, or what a day made of it. The accounts stand by rising number, one list after
    /// another. Takes no memory.
    pub fn of_lists(lists: Vec<Vec<Account>>, directory: Directory, next: u64) -> Self
        requires { IsBookKept (joined_lists lists.items) directory next }
        ensures { result ≡ record { accounts = joined_lists lists.items; next = next } }
    {
        Parts {
            lists,
            directory,
            next,
        }
    }

    /// The book of these accounts, in their lists, and the next record number, 1 to 10^15 + 1. The accounts must stand
    /// by rising number and be at most 100,000, and their surrenders and deletions must have lower record numbers than
    /// the next one.
    ///
    /// # Errors
    /// The accounts as they were, with `NoMemory`, if memory ran out.
    pub fn of_rising(
        alloc: Global,
        listed: ListedAccounts,
        next: u64,
    ) -> Result<Self, (ListedAccounts, NoMemory)>
        requires { IsBook (record { accounts = listed; next = next }) }
        ensures { MatchResult result
            (λ parts. parts ≡ record { accounts = listed; next = next }) (λ e. e.0 ≡ listed) }
    {
        let (lists, entries) = listed.into_lists()?;
        Ok(Parts {
            lists,
            directory: Directory::of_rising(alloc, entries),
            next,
        })
    }

    /// A book as one list.
    ///
    /// # Errors
    /// The book as it was, with `NoMemory`, if memory ran out: the list of lists takes some.
    pub fn of_book(alloc: Global, book: Book) -> Result<Self, (Book, NoMemory)>
        ensures { MatchResult result (λ parts. parts ≡ book) (λ e. e.0 ≡ book) }
    {
        let mut lists = Vec::new(alloc);
        if lists.reserve(1).is_err() {
            return Err((book, NoMemory));
        }
        let (accounts, directory, next) = book.into_parts();
        lists.push(accounts).unwrap();
        Ok(Parts {
            lists,
            directory,
            next,
        })
    }

    /// The book with all its accounts in one list. If they lie in one list already, none is moved, and no memory is
    /// taken.
    ///
    /// # Errors
    /// The book as it was, with `NoMemory`, if memory ran out.
    pub fn into_book(self, alloc: Global) -> Result<Book, (Self, NoMemory)>
        ensures { MatchResult result (λ book. book ≡ self) (λ e. e.0 ≡ self) }
    {
        let Parts {
            mut lists,
            directory,
            next,
        } = self;
        match join(alloc, &mut lists) {
            Ok(accounts) => Ok(Book::from_sorted(accounts, directory, next)),
            Err(none) => {
                let parts = Parts {
                    lists,
                    directory,
                    next,
                };
                Err((parts, none))
            }
        }
    }

    /// The lists of its accounts, their directory and the next record number. Takes no memory.
    pub fn into_lists(self) -> (Vec<Vec<Account>>, Directory, u64)
        ensures accounts { joined_lists result.0.items ≡ self.accounts }
        ensures directory { result.1 ≡ directory_of self.accounts }
        ensures next { result.2 ≡ self.next }
        ensures kept { IsBook self }
    {
        let Parts {
            lists,
            directory,
            next,
        } = self;
        (lists, directory, next)
    }

    /// The lists of its accounts.
    pub fn lists(&self) -> &[Vec<Account>]
        ensures value { joined_lists result.now ≡ self.now.accounts }
        ensures kept { IsBook self.now }
    {
        self.lists.as_slice()
    }

    /// The kinds and holders of the accounts.
    pub fn directory(&self) -> &Directory
        ensures { result.now ≡ directory_of self.now.accounts }
    {
        &self.directory
    }

    /// The number of the next record, 1 to 10^15 + 1.
    pub fn next_record(&self) -> u64
        ensures value { result ≡ self.now.next }
        ensures kept { IsBook self.now }
    {
        self.next
    }

    /// The account with this number, or `None` if there is none.
    pub fn get(&self, number: AccountNo) -> Option<&Account>
        ensures { option_copied result ≡ account self.now.accounts number }
    {
        get_in_lists(&self.lists, number)
    }

    /// The sums over all accounts for both kinds, in one walk. Takes no memory.
    pub fn both_totals(&self) -> BothTotals
        ensures { result ≡ totals_of self.now.accounts }
    {
        add_up_lists(&self.lists)
    }
}

// How many accounts lists have together. Nothing is promised of the number: room is made for so many.
fn count_accounts(lists: &[Vec<Account>]) -> usize {
    let mut count: usize = 0;
    for list in lists {
        count = count.saturating_add(list.len());
    }
    count
}

// Moves the accounts of lists behind others. Whatever comes of it, all the accounts stay, in their order.
fn move_behind(all: &mut Vec<Account>, lists: &mut [Vec<Account>]) -> Result<(), NoMemory>
    ensures same { all.new.items ++ joined_lists lists.new ≡ all.old.items ++ joined_lists lists.old }
    ensures moved { OnOk result (joined_lists lists.new ≡ []) }
{
    let Some((list, behind)) = lists.split_first_mut() else {
        return Ok(());
    };
    all.append(list)?;
    move_behind(all, behind)
}

// The accounts of lists in one list. They are moved into the first list, in which room for all is made before. If
// memory ran out, the lists have the same accounts as before.
fn join(alloc: Global, lists: &mut [Vec<Account>]) -> Result<Vec<Account>, NoMemory>
    ensures { MatchResult result
        (λ all. all.items ≡ joined_lists lists.old) (λ _. joined_lists lists.new ≡ joined_lists lists.old) }
{
    let count = count_accounts(lists);
    let Some((first, behind)) = lists.split_first_mut() else {
        return Ok(Vec::new(alloc));
    };
    first.reserve(count.saturating_sub(first.len()))?;
    move_behind(first, behind)?;
    Ok(mem::replace(first, Vec::new(alloc)))
}

// The account with this number, if one of the lists has it.
fn get_in_lists(lists: &[Vec<Account>], number: AccountNo) -> Option<&Account>
    requires { IsRising (numbers (joined_lists lists.now)) }
    ensures { option_copied result ≡ account (joined_lists lists.now) number }
{
    for list in lists {
        if let Some(found) = get_up_to(list, number) {
            return Some(found);
        }
    }
    None
}

// The account with this number, if the list has it. If its last number is lower, nothing else in it is looked at.
fn get_up_to(list: &[Account], number: AccountNo) -> Option<&Account>
    requires { IsRising (numbers list.now) }
    ensures { option_copied result ≡ account list.now number }
{
    if ends_below(list, number) {
        return None;
    }
    get_account(list, number)
}

// Whether all accounts of a list have lower numbers: its last one tells.
fn ends_below(list: &[Account], number: AccountNo) -> bool
    requires { IsRising (numbers list.now) }
    ensures { result ≡ true → account list.now number ≡ None }
{
    match list.last() {
        Some(last) => last.number() < number,
        None => true,
    }
}

/// What the accounts of lists together hold, have surrendered and have deleted, of both kinds. There must be at most
/// 100,000 accounts, as in a book. Takes no memory.
pub fn add_up_lists(lists: &[Vec<Account>]) -> BothTotals
    requires fit { All IsAccount (joined_lists lists.now) }
    requires few { length (joined_lists lists.now) ≤ MOST_ACCOUNTS }
    ensures { result ≡ totals_of (joined_lists lists.now) }
{
    let mut totals = BothTotals::none();
    for list in lists {
        totals = totals.plus(&add_up(list));
    }
    totals
}
