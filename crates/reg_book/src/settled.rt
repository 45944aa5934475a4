//! A settled day that is not yet in the book.

ghost use Rattle.std.specs.Prelude.{◌≡◌, ℕ, ◌+◌, ◌<◌, ◌≤◌, length};
ghost use Rattle.std.specs.Option.{option_copied};
ghost use Rattle.reg_base.specs.declared.limits.TheConstants.{MOST_RECORD};
ghost use Rattle.reg_base.specs.Rising.{IsRising, count_up};
ghost use Rattle.reg_rules.specs.State.{account, numbers};
ghost use Rattle.reg_book.specs.Settled.{record_numbers};

use crate::book::get_account;
use reg_account::Account;
use reg_base::AccountNo;
use reg_rules::LogRow;
use std::marker::Model;
use thiserror::Error;

/// The settled day does not begin with the book's next record number: another day came between.
#[derive(Clone, Copy, Debug, PartialEq, Eq, Error)]
#[error("the next record number is {next}")]
pub struct Stale {
    /// The book's next record number.
    pub next: u64,
}

/// A settled day: the last record number before it, its log, and the touched accounts as they are after it.
#[derive(Debug, Drop)]
pub struct Settled {
    base: u64,
    rows: Vec<LogRow>,
    accounts: Vec<Account>,
}

impl Model for Settled {
    ghost use Rattle.reg_book.specs.Settled.{SettledValue, IsSettled};

    ghost Value = { SettledValue };

    ghost view = { λ s. record { base = s.base; rows = s.rows.items; accounts = s.accounts.items } };

    ghost invariant = { λ s. IsSettled (record { base = s.base; rows = s.rows.items; accounts = s.accounts.items }) };
}

impl Settled {
    ghost use Rattle.reg_book.specs.Settled.{SettledValue, IsSettled};

    /// The settled day with these parts: the last record number before it, its log, and the touched accounts as they
    /// are after it. The log must have the record numbers from `base + 1` on, and the accounts must stand by rising
    /// number. Takes no memory.
    pub fn of(base: u64, rows: Vec<LogRow>, accounts: Vec<Account>) -> Self
        requires numbered { record_numbers rows.items ≡ count_up (base + 1) (length rows.items) }
        requires rising { IsRising (numbers accounts.items) }
        ensures { result ≡ record { base = base; rows = rows.items; accounts = accounts.items } }
    {
        know_last(&rows);
        Settled::new(base, rows, accounts)
    }

    /// The settled day with these parts. Takes no memory.
    pub(crate) fn new(base: u64, rows: Vec<LogRow>, accounts: Vec<Account>) -> Self
        requires { let day : SettledValue = record {
          base = base;
          rows = rows.items;
          accounts = accounts.items;
        } in IsSettled day }
        ensures { result ≡ record { base = base; rows = rows.items; accounts = accounts.items } }
    {
        Settled {
            base,
            rows,
            accounts,
        }
    }

    /// The record number before the day's first.
    pub fn base(&self) -> u64
        ensures value { result ≡ self.now.base }
        ensures kept { IsSettled self.now }
    {
        self.base
    }

    /// The log, by rising record number.
    pub fn rows(&self) -> &[LogRow]
        ensures { result.now ≡ self.now.rows }
    {
        self.rows.as_slice()
    }

    /// The account with this number as it is after the day, or `None` if the day did not touch it.
    pub fn account(&self, number: AccountNo) -> Option<&Account>
        ensures { option_copied result ≡ account self.now.accounts number }
    {
        get_account(&self.accounts, number)
    }

    /// Its log and its accounts.
    pub(crate) fn into_parts(self) -> (Vec<LogRow>, Vec<Account>)
        ensures rows { result.0.items ≡ self.rows }
        ensures accounts { result.1.items ≡ self.accounts }
        ensures kept { IsSettled self }
    {
        let Settled { rows, accounts, .. } = self;
        (rows, accounts)
    }
}

// Reads the last record number, so that a proof knows its limit.
fn know_last(rows: &[LogRow])
    ensures { (base : ℕ) → record_numbers rows.now ≡ count_up (base + 1) (length rows.now) → 0 < length rows.now
        → base + length rows.now ≤ MOST_RECORD }
{
    if let Some(row) = rows.last() {
        row.number.get();
    }
}
