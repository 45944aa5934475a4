//! What an instruction is to do.

ghost use Rattle.std.specs.Prelude.{◌≡◌};
ghost use Rattle.reg_base.specs.Acts.{passing, retiring, staying, distributing, movement_of};

use crate::kinds::{AllowanceKind, Retirement, Status};
use crate::movement::{Change, Movement};
use crate::numbers::{AccountNo, RecordNo, Year};
use crate::shares::{Receivers, Shares};

/// What an instruction is to do. docs/RULES.md has a section on each act.
#[derive(Clone, Copy, Debug, PartialEq, Eq)]
pub enum Act {
    /// Allowances move from one holder's account to another.
    Transfer {
        /// The account that gives.
        from: AccountNo,
        /// The account that receives.
        to: AccountNo,
        /// The kind of the allowances.
        kind: AllowanceKind,
        /// How many allowances: any number. A check refuses 0.
        amount: u64,
    },
    /// Allowances leave an account and are recorded as surrendered for the emissions of the current period.
    Surrender {
        /// The operator's or aircraft operator's account that gives.
        from: AccountNo,
        /// The kind of the allowances.
        kind: AllowanceKind,
        /// How many allowances: any number. A check refuses 0.
        amount: u64,
    },
    /// Allowances leave a holder's account and are recorded as deleted. They count for no emissions.
    Delete {
        /// The account that gives.
        from: AccountNo,
        /// The kind of the allowances.
        kind: AllowanceKind,
        /// How many allowances: any number. A check refuses 0.
        amount: u64,
    },
    /// Allowances that were allocated in excess go back to an allocation account.
    ReturnExcess {
        /// The operator's or aircraft operator's account that gives.
        from: AccountNo,
        /// The allocation account that receives.
        to: AccountNo,
        /// The kind of the allowances.
        kind: AllowanceKind,
        /// How many allowances: any number. A check refuses 0.
        amount: u64,
    },
    /// A surrender or a deletion is reversed: its allowances come back.
    Reverse {
        /// The account that gave the allowances and gets them back.
        account: AccountNo,
        /// The record number of the surrender or the deletion.
        number: RecordNo,
    },
    /// New allowances are created on the EU total quantity account.
    Create {
        /// The account that receives.
        to: AccountNo,
        /// The kind of the allowances.
        kind: AllowanceKind,
        /// How many allowances: any number. A check refuses 0.
        amount: u64,
    },
    /// Allowances move from the total quantity account to an allocation account, or from there back, or on to the
    /// operator or aircraft operator to whom they are allocated.
    CentralMove {
        /// The total quantity or allocation account that gives.
        from: AccountNo,
        /// The account that receives.
        to: AccountNo,
        /// The kind of the allowances.
        kind: AllowanceKind,
        /// How many allowances: any number. A check refuses 0.
        amount: u64,
    },
    /// Allowances move from an allocation account to those to whom they are allocated: all of them, or none.
    Distribute {
        /// The allocation account that gives.
        from: AccountNo,
        /// The kind of the allowances.
        kind: AllowanceKind,
        /// The operators' and aircraft operators' accounts that receive, and how many each.
        shares: Shares,
    },
    /// An account is put on the trusted account list of another. The entry takes effect after the list lag, which is
    /// counted from the settlement day.
    Trust {
        /// The account whose list it is.
        account: AccountNo,
        /// The account that is put on the list.
        other: AccountNo,
    },
    /// An account is taken off the trusted account list of another, at once.
    Untrust {
        /// The account whose list it is.
        account: AccountNo,
        /// The account that is taken off the list. It need not be in the directory.
        other: AccountNo,
    },
    /// The status of an account is set. It may be the one that the account has.
    SetStatus {
        /// The account of a holder.
        account: AccountNo,
        /// The new status.
        status: Status,
    },
    /// The verified emissions of a year are entered. They replace those that were entered before.
    EnterEmissions {
        /// The operator's or aircraft operator's account.
        account: AccountNo,
        /// The year of the emissions.
        year: Year,
        /// The emissions, in tonnes of carbon dioxide equivalent: any number, also 0. A check refuses more than 10^12.
        tonnes: u64,
    },
    /// The compliance status figure of a year is determined. It replaces the one that was determined before.
    Assess {
        /// The operator's or aircraft operator's account.
        account: AccountNo,
        /// The year of the figure.
        year: Year,
    },
}

impl Act {
    /// What the act does: a row for each act.
    pub fn movement(&self) -> Movement
        ensures { result ≡ movement_of self.now }
    {
        match *self {
            Act::Transfer {
                from,
                to,
                kind,
                amount,
            }
            | Act::ReturnExcess {
                from,
                to,
                kind,
                amount,
            }
            | Act::CentralMove {
                from,
                to,
                kind,
                amount,
            } => passing(from, to, kind, amount),
            Act::Surrender { from, kind, amount } => {
                retiring(from, Retirement::Surrendered, kind, amount)
            }
            Act::Delete { from, kind, amount } => {
                retiring(from, Retirement::Deleted, kind, amount)
            }
            Act::Reverse { account, number } => staying(account, Change::Unretire { number }),
            Act::Create { to, kind, amount } => staying(to, Change::Credit { kind, amount }),
            Act::Distribute { from, kind, shares } => distributing(from, kind, shares),
            Act::Trust { account, other } => staying(account, Change::Trust { other }),
            Act::Untrust { account, other } => staying(account, Change::Untrust { other }),
            Act::SetStatus { account, status } => staying(account, Change::SetStatus { status }),
            Act::EnterEmissions {
                account,
                year,
                tonnes,
            } => staying(account, Change::SetEmissions { year, tonnes }),
            Act::Assess { account, year } => staying(account, Change::Determine { year }),
        }
    }
}

// Allowances pass from one account to another.
fn passing(from: AccountNo, to: AccountNo, kind: AllowanceKind, amount: u64) -> Movement
    ensures { result ≡ passing from to kind amount }
{
    Movement {
        first: from,
        change: Change::Debit {
            kind,
            amount: u128::from(amount),
        },
        kind,
        leaves: u128::from(amount),
        shares: Receivers::one(to, amount),
    }
}

// Allowances pass from one account to several others.
fn distributing(from: AccountNo, kind: AllowanceKind, shares: Shares) -> Movement
    ensures { result ≡ distributing from kind shares }
{
    let amount = shares.total();
    Movement {
        first: from,
        change: Change::Debit { kind, amount },
        kind,
        leaves: amount,
        shares: shares.receivers(),
    }
}

// Allowances are surrendered or deleted: they leave an account, and no other account receives any.
fn retiring(from: AccountNo, retirement: Retirement, kind: AllowanceKind, amount: u64) -> Movement
    ensures { result ≡ retiring from retirement kind amount }
{
    Movement {
        first: from,
        change: Change::Retire {
            retirement,
            kind,
            amount,
        },
        kind,
        leaves: u128::from(amount),
        shares: Receivers::none(),
    }
}

// No allowance leaves the account, so the kind says nothing.
fn staying(account: AccountNo, change: Change) -> Movement
    ensures { result ≡ staying account change }
{
    Movement {
        first: account,
        change,
        kind: AllowanceKind::General,
        leaves: 0,
        shares: Receivers::none(),
    }
}
