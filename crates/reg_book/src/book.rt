//! The book of all accounts.

ghost use Rattle.std.specs.Prelude.{◌≡◌, ◌≢◌, ◌+◌, ◌-◌, ◌<◌, ◌≤◌, [], ◌∷◌, All, length, slice_index, MatchResult};
ghost use Rattle.std.specs.Option.{option_copied};
ghost use Rattle.reg_base.specs.Rising.{IsRising};
ghost use Rattle.reg_base.specs.declared.kinds.Retirement.TheVariants.{Surrendered, Deleted};
ghost use Rattle.reg_account.specs.Account.{IsAccount};
ghost use Rattle.reg_rules.specs.State.{account, numbers};
ghost use Rattle.reg_book.specs.Book.{overlay, AreHigher};
ghost use Rattle.reg_facts.specs.Lists.{joined_lists};
ghost use Rattle.reg_book.specs.Totals.{totals_of};

use crate::apply::{ApplyFault, carry_out};
use crate::settled::{Settled, Stale};
use crate::totals::{BothTotals, Totals, add_up};
use reg_account::Account;
use reg_base::{AccountNo, AllowanceKind, Day, Directory, Instruction, NoMemory, RecordNo, Rules};
use reg_rules::{LogRow, Setting, log_row, step_laws};
use std::alloc::Global;
use std::marker::Model;
use std::slice::from_ref;

/// The accounts of a registry, by rising number, and the next record number. A contract sees the book as plain data.
#[derive(Debug, Drop)]
pub struct Book {
    accounts: Vec<Account>,
    directory: Directory,
    next: u64,
}

impl Model for Book {
    ghost use Rattle.reg_book.specs.Book.{BookValue, IsBookKept};

    ghost Value = { BookValue };

    ghost view = { λ b. record { accounts = b.accounts.items; next = b.next } };

    ghost invariant = { λ b. IsBookKept b.accounts.items b.directory b.next };
}

impl Book {
    ghost use Rattle.reg_book.specs.Book.{directory_of, IsBook, IsBookKept, total_held, total_retired};
    ghost use Rattle.reg_book.specs.Settled.{IsOfBook, committed};
    ghost use Rattle.reg_book.specs.Single.{IsApplied, IsNotApplied};

    /// The book of these accounts, with their directory and the next record number: what [`Book::into_parts`] took
    /// apart, or what a day made of it. The accounts stand by rising number. Takes no memory.
    pub fn from_sorted(accounts: Vec<Account>, directory: Directory, next: u64) -> Self
        requires { IsBookKept accounts.items directory next }
        ensures { result ≡ record { accounts = accounts.items; next = next } }
    {
        Book {
            accounts,
            directory,
            next,
        }
    }

    /// Its accounts by rising number, their directory and the next record number. Takes no memory.
    pub fn into_parts(self) -> (Vec<Account>, Directory, u64)
        ensures accounts { result.0.items ≡ self.accounts }
        ensures directory { result.1 ≡ directory_of self.accounts }
        ensures next { result.2 ≡ self.next }
        ensures kept { IsBook self }
    {
        let Book {
            accounts,
            directory,
            next,
        } = self;
        (accounts, directory, next)
    }

    /// The account with this number, or `None` if there is none.
    pub fn get(&self, number: AccountNo) -> Option<&Account>
        ensures { option_copied result ≡ account self.now.accounts number }
    {
        get_account(&self.accounts, number)
    }

    /// The accounts, by rising number.
    pub fn accounts(&self) -> &[Account]
        ensures value { result.now ≡ self.now.accounts }
        ensures kept { IsBook self.now }
    {
        self.accounts.as_slice()
    }

    /// The accounts as one list, where several may stand: as [`Parts::lists`](crate::Parts::lists) has them.
    pub fn lists(&self) -> &[Vec<Account>]
        ensures value { joined_lists result.now ≡ self.now.accounts }
        ensures kept { IsBook self.now }
    {
        from_ref(&self.accounts)
    }

    /// The kinds and holders of the accounts.
    pub fn directory(&self) -> &Directory
        ensures { result.now ≡ directory_of self.now.accounts }
    {
        &self.directory
    }

    /// The number of the next record, 1 to 10^15 + 1.
    pub fn next_record(&self) -> u64
        ensures value { result ≡ self.now.next }
        ensures kept { IsBook self.now }
    {
        self.next
    }

    /// The sums over all accounts for this kind. Takes no memory.
    pub fn totals(&self, kind: AllowanceKind) -> Totals
        ensures { result ≡ record {
          held = total_held self.now kind;
          surrendered = total_retired self.now Surrendered kind;
          deleted = total_retired self.now Deleted kind;
        } }
    {
        self.both_totals().of_kind(kind)
    }

    /// The sums over all accounts for both kinds, in one walk. Takes no memory.
    pub fn both_totals(&self) -> BothTotals
        ensures { result ≡ totals_of self.now.accounts }
    {
        add_up(&self.accounts)
    }

    /// Settles one instruction on this settlement day, by these rules: carries it out or refuses it, under the next
    /// record number, and answers its log row. The book and the row are those that a batch of this one instruction
    /// gives by `settle_plain` and [`Book::commit`]. Who settles a batch so, one instruction after another, gets the
    /// book and the log of the batch.
    ///
    /// A refused instruction is no error: it takes a record number, changes no account and takes no memory. The book
    /// is changed in place, and no account is copied: the time is that of the look-ups of the accounts that the
    /// instruction touches.
    ///
    /// # Errors
    /// `NumbersSpent` if the next record number is above 10^15. Otherwise `NoMemory` if memory ran out for an
    /// instruction that no check refuses. The book stays as it was, and can be used again.
    pub fn apply(
        &mut self,
        alloc: Global,
        rules: &Rules,
        day: Day,
        instruction: &Instruction,
    ) -> Result<LogRow, ApplyFault>
        ensures answer { MatchResult result (IsApplied rules.now day instruction.now self.old self.new)
            (IsNotApplied rules.now day instruction.now self.old self.new) }
        ensures directory { directory_of self.new.accounts ≡ directory_of self.old.accounts }
    {
        let next = self.next;
        let Some(number) = RecordNo::new(next) else {
            return Err(ApplyFault::NumbersSpent);
        };
        rules.are_within_limits();
        instruction.is_within_limits();
        step_laws();
        let setting = Setting {
            rules,
            day,
            directory: &self.directory,
        };
        match carry_out(alloc, &setting, number, instruction, &mut self.accounts) {
            Ok(reply) => {
                day.get();
                self.next = next + 1;
                Ok(log_row(number, day, *instruction, reply))
            }
            Err(NoMemory) => Err(ApplyFault::NoMemory),
        }
    }

    /// Replaces each account that the day touched by the settled one, raises the next record number by the number of
    /// log rows, and answers these rows. All other accounts stay as they are. If the settled day begins with the book's
    /// next record number, it must be of this book: its accounts are in the book, with the same kinds and holders, and
    /// their surrenders and deletions have record numbers up to that of the last log row. Takes no memory.
    ///
    /// The time is linear in the book's accounts.
    ///
    /// # Errors
    /// The settled day as it was, with the book's next record number, if the day does not begin with that number. The
    /// book is unchanged.
    pub fn commit(&mut self, settled: Settled) -> Result<Vec<LogRow>, (Settled, Stale)>
        requires { settled.base + 1 ≡ self.old.next → IsOfBook self.old settled }
        ensures answer { MatchResult result
            (λ rows. (settled.base + 1 ≡ self.old.next) × (self.new ≡ committed self.old settled)
            × (rows.items ≡ settled.rows))
            (λ e. (settled.base + 1 ≢ self.old.next) × (self.new ≡ self.old) × (e.0 ≡ settled)
            × (e.1.next ≡ self.old.next)) }
        ensures directory { directory_of self.new.accounts ≡ directory_of self.old.accounts }
    {
        let next = self.next;
        if settled.base() != next - 1 {
            return Err((settled, Stale { next }));
        }
        let (rows, accounts) = settled.into_parts();
        self.next = next + rows.len() as u64;
        replace_accounts(&mut self.accounts, accounts);
        Ok(rows)
    }
}

// Puts each settled account in the place of the one with its number. Both lists are walked once, from their ends.
fn replace_accounts(accounts: &mut Vec<Account>, mut settled: Vec<Account>)
    requires rising { IsRising (numbers accounts.old.items) }
    requires settled_rising { IsRising (numbers settled.items) }
    requires within_limits { All IsAccount accounts.old.items }
    ensures items { accounts.new.items ≡ overlay accounts.old.items settled.items }
    ensures within_limits { All IsAccount accounts.new.items }
{
    let mut until = accounts.len();
    while let Some(account) = settled.pop() {
        until = count_not_higher(accounts, until, account.number());
        replace_last(accounts, until, account);
    }
}

// Replaces the last of the first `count` accounts by this one, if it has the same number. These first ones are those
// with numbers that are not higher.
fn replace_last(accounts: &mut Vec<Account>, count: usize, account: Account)
    requires rising { IsRising (numbers accounts.old.items) }
    requires within_limits { All IsAccount accounts.old.items }
    requires within { count ≤ length accounts.old.items }
    requires higher { AreHigher (numbers accounts.old.items) count account.number }
    requires last { 0 < count → slice_index (numbers accounts.old.items) (count - 1) ≤ account.number }
    ensures items { accounts.new.items ≡ overlay accounts.old.items (account ∷ []) }
    ensures within_limits { All IsAccount accounts.new.items }
{
    account.is_within_limits();
    let number = account.number();
    if count > 0 && accounts[count - 1].number() == number {
        accounts[count - 1] = account;
    }
}

// How many of the first accounts have a number that is not higher.
fn count_not_higher(accounts: &[Account], until: usize, number: AccountNo) -> usize
    requires within { until ≤ length accounts.now }
    requires higher { AreHigher (numbers accounts.now) until number }
    ensures within { result ≤ length accounts.now }
    ensures higher { AreHigher (numbers accounts.now) result number }
    ensures last { 0 < result → slice_index (numbers accounts.now) (result - 1) ≤ number }
{
    let mut count = until;
    while count > 0 && accounts[count - 1].number() > number {
        count -= 1;
    }
    count
}

// The account with this number, found by binary search.
pub(crate) fn get_account(accounts: &[Account], number: AccountNo) -> Option<&Account>
    requires { IsRising (numbers accounts.now) }
    ensures { option_copied result ≡ account accounts.now number }
{
    match accounts.binary_search_by_key(&number, |account| account.number()) {
        Ok(index) => Some(&accounts[index]),
        Err(_) => None,
    }
}
