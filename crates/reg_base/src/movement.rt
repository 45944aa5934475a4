//! What an act does: what becomes of its first account, and which other accounts receive allowances.

ghost use Rattle.std.specs.Prelude.{◌≡◌, ◌<◌, ◌≤◌, ◌^◌, ◌==◌, [], ◌∷◌, ◌++◌, All, length, map};
ghost use Rattle.std.specs.List.{list_any};
ghost use Rattle.reg_base.specs.declared.limits.TheConstants.{MOST_SHARES};
ghost use Rattle.reg_base.specs.Acts.{parties_of, other_known, amounts_of, amounts_named, tonnes_named, record_named};
ghost use Rattle.reg_base.specs.Acts.{years_named, others_named};
ghost use Rattle.reg_base.specs.Footprint.{each_once};
ghost use Rattle.reg_base.specs.Numbers.{IsAccountNo, IsRecordNo, IsYearNo};

use crate::footprint::Footprint;
use crate::kinds::{AllowanceKind, Retirement, Status};
use crate::numbers::{AccountNo, RecordNo, Year};
use crate::shares::{Receivers, Share};

/// What becomes of the first account of an act.
#[derive(Clone, Copy, Debug, PartialEq, Eq)]
pub enum Change {
    /// Allowances leave it for the accounts that receive.
    Debit {
        /// Their kind.
        kind: AllowanceKind,
        /// How many: the sum of what these accounts receive.
        amount: u128,
    },
    /// New allowances are created on it.
    Credit {
        /// Their kind.
        kind: AllowanceKind,
        /// How many: any number. A check refuses 0.
        amount: u64,
    },
    /// Allowances leave it and are recorded as surrendered or as deleted.
    Retire {
        /// Which of both.
        retirement: Retirement,
        /// Their kind.
        kind: AllowanceKind,
        /// How many: any number. A check refuses 0.
        amount: u64,
    },
    /// A surrender or a deletion is marked as reversed, and its allowances come back.
    Unretire {
        /// The record number of the surrender or the deletion.
        number: RecordNo,
    },
    /// Another account is put on its trusted account list.
    Trust {
        /// The other account.
        other: AccountNo,
    },
    /// Another account is taken off its trusted account list.
    Untrust {
        /// The other account.
        other: AccountNo,
    },
    /// Its status is set.
    SetStatus {
        /// The new status.
        status: Status,
    },
    /// Its emissions of a year are entered.
    SetEmissions {
        /// The year.
        year: Year,
        /// The emissions, in tonnes of carbon dioxide equivalent: any number. A check refuses more than 10^12.
        tonnes: u64,
    },
    /// Its compliance status figure of a year is determined.
    Determine {
        /// The year.
        year: Year,
    },
}

/// What an act does: what becomes of its first account, which allowances leave that, and which accounts receive some.
#[derive(Clone, Copy, Debug, PartialEq, Eq)]
pub struct Movement {
    /// The account that gives, or the only one that the act reads or changes.
    pub first: AccountNo,
    /// What becomes of this account.
    pub change: Change,
    /// The kind of the allowances that leave it: `General` if none do.
    pub kind: AllowanceKind,
    /// How many allowances leave it.
    pub leaves: u128,
    /// The accounts that receive allowances, and how many.
    pub shares: Receivers,
}

impl Movement {
    /// The accounts that are read or changed: the first and those that receive, each once.
    pub fn parties(&self) -> Footprint
        ensures { result ≡ each_once (parties_of self.now) }
    {
        footprint_of(self.first, self.shares.as_slice())
    }

    /// The account that must be in the directory, although it is neither read nor changed: the one that is put on a
    /// trusted account list.
    pub fn also_known(&self) -> Option<AccountNo>
        ensures { result ≡ other_known self.now.change }
    {
        match self.change {
            Change::Trust { other } => Some(other),
            _ => None,
        }
    }

    /// Whether an amount of allowances that the act names is 0.
    pub fn names_zero(&self) -> bool
        ensures { result ≡ list_any (λ n. n == 0) (amounts_of self.now) }
    {
        are_some_empty(self.shares.as_slice(), &self.change)
    }

    // Reads each number in the movement, so that a proof knows its range.
    pub(crate) fn know_numbers(&self)
        ensures accounts { All IsAccountNo (parties_of self.now) }
        ensures others { All IsAccountNo (others_named self.now.change) }
        ensures amounts { All (λ n. n < 2 ^ 64) (amounts_of self.now) }
        ensures emissions { All (λ n. n < 2 ^ 64) (tonnes_named self.now.change) }
        ensures records { All IsRecordNo (record_named self.now.change) }
        ensures years { All IsYearNo (years_named self.now.change) }
    {
        self.first.get();
        know_shares(self.shares.as_slice());
        self.change.know_numbers();
    }
}

impl Change {
    // Whether the amount of allowances that are created, surrendered or deleted is 0.
    fn names_zero(&self) -> bool
        ensures { result ≡ list_any (λ n. n == 0) (amounts_named self.now) }
    {
        match *self {
            Change::Credit { amount, .. } | Change::Retire { amount, .. } => amount == 0,
            _ => false,
        }
    }

    fn know_numbers(&self)
        ensures others { All IsAccountNo (others_named self.now) }
        ensures amounts { All (λ n. n < 2 ^ 64) (amounts_named self.now) }
        ensures emissions { All (λ n. n < 2 ^ 64) (tonnes_named self.now) }
        ensures records { All IsRecordNo (record_named self.now) }
        ensures years { All IsYearNo (years_named self.now) }
    {
        match *self {
            Change::Credit { amount, .. } | Change::Retire { amount, .. } => know_amount(amount),
            Change::Unretire { number } => {
                number.get();
            }
            Change::Trust { other } | Change::Untrust { other } => {
                other.get();
            }
            Change::SetEmissions { year, tonnes } => {
                year.get();
                know_amount(tonnes);
            }
            Change::Determine { year } => {
                year.get();
            }
            Change::Debit { .. } | Change::SetStatus { .. } => (),
        }
    }
}

// The first account and those that receive, each once.
fn footprint_of(first: AccountNo, shares: &[Share]) -> Footprint
    requires { length shares.now ≤ MOST_SHARES }
    ensures { result ≡ each_once (first ∷ map (λ share. share.to) shares.now) }
{
    let mut footprint = Footprint::none().with(first);
    for share in shares {
        footprint = footprint.with(share.to);
    }
    footprint
}

// Whether a share, or the amount that is created, surrendered or deleted, is 0.
fn are_some_empty(shares: &[Share], change: &Change) -> bool
    ensures { result ≡ list_any (λ n. n == 0) (map (λ share. share.amount) shares.now ++ amounts_named change.now) }
{
    has_empty_share(shares) || change.names_zero()
}

fn has_empty_share(shares: &[Share]) -> bool
    ensures { result ≡ list_any (λ share. share.amount == 0) shares.now }
{
    shares.iter().any(|share| share.amount == 0)
}

fn know_amount(amount: u64)
    ensures { amount < 2 ^ 64 }
{
    let _any = amount;
}

// Reads each number in these shares, so that a proof knows its range.
fn know_shares(shares: &[Share])
    ensures accounts { All IsAccountNo (map (λ share. share.to) shares.now) }
    ensures amounts { All (λ n. n < 2 ^ 64) (map (λ share. share.amount) shares.now) }
{
    for share in shares {
        share.to.get();
        know_amount(share.amount);
    }
}
