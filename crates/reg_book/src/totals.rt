//! Sums over all accounts.

ghost use Rattle.std.specs.Prelude.{◌≡◌, []};
ghost use Rattle.reg_book.specs.Totals.{BothTotalsFit, TotalsFit, both_added, totals_added, totals_for, totals_of};

use reg_account::Account;
use reg_base::AllowanceKind;
use reg_base::AllowanceKind::{Aviation, General};

/// How many allowances of one kind accounts together hold, have surrendered and have deleted.
#[derive(Clone, Copy, Debug, PartialEq, Eq)]
pub struct Totals {
    /// Allowances held.
    pub held: u128,
    /// Allowances surrendered and not reversed.
    pub surrendered: u128,
    /// Allowances deleted and not reversed.
    pub deleted: u128,
}

/// How many allowances of each kind accounts together hold, have surrendered and have deleted.
#[derive(Clone, Copy, Debug, PartialEq, Eq)]
pub struct BothTotals {
    /// The totals of general allowances.
    pub general: Totals,
    /// The totals of aviation allowances.
    pub aviation: Totals,
}

impl Totals {
    // The totals of no account.
    fn none() -> Totals
        ensures { result ≡ record { held = 0; surrendered = 0; deleted = 0 } }
    {
        Totals {
            held: 0,
            surrendered: 0,
            deleted: 0,
        }
    }

    // Those of two lists of accounts together.
    fn plus(&self, other: &Totals) -> Totals
        requires { TotalsFit (totals_added self.now other.now) }
        ensures { result ≡ totals_added self.now other.now }
    {
        Totals {
            held: self.held + other.held,
            surrendered: self.surrendered + other.surrendered,
            deleted: self.deleted + other.deleted,
        }
    }
}

impl BothTotals {
    /// Those of no account.
    pub fn none() -> BothTotals
        ensures { result ≡ totals_of [] }
    {
        BothTotals {
            general: Totals::none(),
            aviation: Totals::none(),
        }
    }

    /// Those of two lists of accounts together. The sums have to be below 2^128: those of lists of one book are, and no
    /// law says so of two books.
    pub fn plus(&self, other: &BothTotals) -> BothTotals
        requires { BothTotalsFit (both_added self.now other.now) }
        ensures { result ≡ both_added self.now other.now }
    {
        BothTotals {
            general: self.general.plus(&other.general),
            aviation: self.aviation.plus(&other.aviation),
        }
    }

    /// Those of one kind.
    pub fn of_kind(&self, kind: AllowanceKind) -> Totals
        ensures { result ≡ totals_for self.now kind }
    {
        match kind {
            General => self.general,
            Aviation => self.aviation,
        }
    }
}

/// What these accounts together hold, have surrendered and have deleted, of both kinds in one walk. Takes no memory.
pub fn add_up(accounts: &[Account]) -> BothTotals
    ensures { result ≡ totals_of accounts.now }
{
    let mut general_held = 0;
    let mut general_surrendered = 0;
    let mut general_deleted = 0;
    let mut aviation_held = 0;
    let mut aviation_surrendered = 0;
    let mut aviation_deleted = 0;
    for account in accounts {
        general_held += u128::from(account.held(General));
        general_surrendered += u128::from(account.surrendered(General));
        general_deleted += u128::from(account.deleted(General));
        aviation_held += u128::from(account.held(Aviation));
        aviation_surrendered += u128::from(account.surrendered(Aviation));
        aviation_deleted += u128::from(account.deleted(Aviation));
    }
    BothTotals {
        general: Totals {
            held: general_held,
            surrendered: general_surrendered,
            deleted: general_deleted,
        },
        aviation: Totals {
            held: aviation_held,
            surrendered: aviation_surrendered,
            deleted: aviation_deleted,
        },
    }
}
