//! An account within its limits.

ghost use Rattle.std.specs.Prelude.{◌≡◌, ◌+◌, ◌-◌, ◌≤◌, ◌↔◌, IsOk, IfOk, IfSome, OnOk, OnErr, MatchResult};
ghost use Rattle.std.specs.Option.{option_map};
ghost use Rattle.std.specs.Result.{result_err};
ghost use Rattle.reg_account.specs.Account.{account_of, amount_of, with_amount, first_account_fault};
ghost use Rattle.reg_base.specs.declared.limits.TheConstants.{MOST_HELD, MOST_RETIRED, MOST_EMISSIONS};

use crate::account_parts::{AccountFault, AccountParts, Holdings};
use crate::corrections::{Correction, find_factor};
use crate::faults::find_fault;
use crate::figure::{FigureFault, figure_of};
use crate::ranges::{know_emissions, know_figures, know_row, know_rows};
use crate::rows::{RetirementRow, find_row};
use crate::trusted::{TrustedEntry, find_effective, is_in_effect, know_entries};
use crate::users::{Representative, find_right, know_users};
use crate::years::{Emission, Figure, find_emissions, find_figure};
use reg_base::{
    AccountKind, AccountNo, AllowanceKind, Day, HolderNo, MOST_HELD, MOST_PERIODS, NoMemory,
    RecordNo, Retirement, Right, Rules, Status, UserNo, Year,
};
use std::alloc::Global;
use std::marker::Model;

/// An account, each part within its limits. A contract sees it as plain data. It is not `Clone`, so that no
/// allowance is doubled by accident; only [`Account::copy`] makes a second one.
#[derive(Debug, Drop)]
pub struct Account {
    parts: AccountParts,
}

impl Model for Account {
    ghost use Rattle.reg_account.specs.Account.{AccountValue, account_of, IsAccount};

    ghost Value = { AccountValue };

    ghost view = { λ a. account_of a.parts };

    ghost invariant = { λ a. IsAccount (account_of a.parts) };
}

impl Account {
    ghost use Rattle.reg_base.specs.declared.kinds.Retirement.TheVariants.{Surrendered, Deleted};
    ghost use Rattle.reg_account.specs.Corrections.{CorrectionFits, CorrectionsFit};
    ghost use Rattle.reg_account.specs.Users.{right_in, UsersFit};
    ghost use Rattle.reg_account.specs.Trusted.{effective_in, TrustedFit};
    ghost use Rattle.reg_account.specs.Rows.{row_in, surrendered_in, FateFits, RowsFit};
    ghost use Rattle.reg_account.specs.Years.{emissions_in, figure_in, EmissionsFit, FiguresFit, FigureFits};
    ghost use Rattle.reg_account.specs.Account.{correction_of, held_by, retired_by, credited, debited, retired};
    ghost use Rattle.reg_account.specs.Account.{unretired, trusts, with_trusted, without_trusted, with_status};
    ghost use Rattle.reg_account.specs.Account.{with_emissions, with_determined, CanTrust, CanRetire};
    ghost use Rattle.reg_account.specs.Account.{CanUnretire, IsAccount};
    ghost use Rattle.reg_account.specs.Figure.{figure_of};

    /// The account with these parts, exactly if they have no fault. Takes no memory.
    ///
    /// # Errors
    /// The parts as they were, and the first fault that applies, in the order of [`AccountFault`].
    pub fn of(parts: AccountParts) -> Result<Self, (AccountParts, AccountFault)>
        ensures accepts { IsOk result ↔ IsAccount (account_of parts) }
        ensures fault { option_map (λ e. e.1) (result_err result) ≡ first_account_fault (account_of parts) }
        ensures value { MatchResult result
            (λ a. (a ≡ account_of parts) × IsAccount (account_of parts))
            (λ e. e.0 ≡ parts) }
    {
        if let Some(fault) = find_fault(&parts) {
            return Err((parts, fault));
        }
        parts.number.get();
        parts.holder.get();
        know_users(parts.lists.users());
        know_entries(parts.lists.trusted());
        know_rows(parts.lists.rows());
        know_emissions(parts.lists.emissions());
        know_figures(parts.lists.figures());
        Ok(Account { parts })
    }

    /// The account with these parts, none of which may have a fault. Takes no memory and looks at no list: for callers
    /// that have tested each part, as a reader does that has tested each row.
    pub fn of_fitting(parts: AccountParts) -> Self
        requires { IsAccount (account_of parts) }
        ensures { result ≡ account_of parts }
    {
        Account { parts }
    }

    /// Every account is within its limits. This method does nothing. A function whose proof needs this fact calls it.
    pub fn is_within_limits(&self)
        ensures { IsAccount self.now }
    {
        let _ = &self.parts;
    }

    /// Its number.
    pub fn number(&self) -> AccountNo
        ensures { result ≡ self.now.number }
    {
        self.parts.number
    }

    /// Its kind.
    pub fn kind(&self) -> AccountKind
        ensures { result ≡ self.now.kind }
    {
        self.parts.kind
    }

    /// Its holder.
    pub fn holder(&self) -> HolderNo
        ensures { result ≡ self.now.holder }
    {
        self.parts.holder
    }

    /// Its status.
    pub fn status(&self) -> Status
        ensures { result ≡ self.now.status }
    {
        self.parts.status
    }

    /// Whether it allows transfers to accounts that it does not trust.
    pub fn outside(&self) -> bool
        ensures { result ≡ self.now.outside }
    {
        self.parts.outside
    }

    /// Whether a transfer to a trusted account needs no approval.
    pub fn waiver(&self) -> bool
        ensures { result ≡ self.now.waiver }
    {
        self.parts.waiver
    }

    /// The correction factor of its compliance figures of this period, from -10^15 to 10^15 tonnes of carbon dioxide
    /// equivalent. The periods are counted from 1. The factor is 0 where none was given.
    pub fn correction(&self, period: u8) -> i64
        ensures value { result ≡ correction_of self.now period }
        ensures limits { CorrectionFits result }
    {
        if period == 1 {
            return self.parts.correction;
        }
        find_factor(self.parts.lists.corrections(), period)
    }

    /// Its correction factors of the periods after the first that have one, by rising period.
    pub fn corrections(&self) -> &[Correction]
        ensures value { result.now ≡ self.now.corrections }
        ensures fit { CorrectionsFit result.now }
    {
        self.parts.lists.corrections()
    }

    /// How many allowances of this kind it holds, 0 to 10^15.
    pub fn held(&self, kind: AllowanceKind) -> u64
        ensures value { result ≡ held_by self.now kind }
        ensures limit { result ≤ MOST_HELD }
    {
        match kind {
            AllowanceKind::General => self.parts.held.general,
            AllowanceKind::Aviation => self.parts.held.aviation,
        }
    }

    /// Adds `amount` allowances of this kind. The sum must be at most [`MOST_HELD`]. Nothing else changes. Takes no
    /// memory.
    pub fn credit(&mut self, kind: AllowanceKind, amount: u64)
        requires { held_by self.old kind + amount ≤ MOST_HELD }
        ensures { self.new ≡ credited self.old kind amount }
    {
        raise(&mut self.parts.held, kind, amount);
    }

    /// Takes `amount` allowances of this kind away. The account must hold them. Nothing else changes. Takes no
    /// memory.
    pub fn debit(&mut self, kind: AllowanceKind, amount: u64)
        requires { amount ≤ held_by self.old kind }
        ensures { self.new ≡ debited self.old kind amount }
    {
        lower(&mut self.parts.held, kind, amount);
    }

    /// Sets the status. Nothing else changes. Takes no memory.
    pub fn set_status(&mut self, status: Status)
        ensures { self.new ≡ with_status self.old status }
    {
        self.parts.status = status;
    }

    /// Its representatives: at most 64, by rising user number.
    pub fn users(&self) -> &[Representative]
        ensures value { result.now ≡ self.now.users }
        ensures fit { UsersFit result.now }
    {
        self.parts.lists.users()
    }

    /// What this user may do for the account, or `None` if the user is no representative of it. Found by binary search.
    pub fn right(&self, user: UserNo) -> Option<Right>
        ensures { result ≡ right_in self.now.users user }
    {
        find_right(self.parts.lists.users(), user)
    }

    /// Its trusted account list: at most 256 entries, by rising account number.
    pub fn trusted_entries(&self) -> &[TrustedEntry]
        ensures value { result.now ≡ self.now.trusted }
        ensures fit { TrustedFit result.now }
    {
        self.parts.lists.trusted()
    }

    /// The date on which the entry of the account `other` on the trusted account list takes effect, or `None` if the
    /// list has no such entry. Found by binary search.
    pub fn effective(&self, other: AccountNo) -> Option<Day>
        ensures { result ≡ effective_in self.now.trusted other }
    {
        find_effective(self.parts.lists.trusted(), other)
    }

    /// Whether the other account, which `holder` holds, is trusted on this date: both have the same holder, or it is on
    /// the trusted account list with an entry that takes effect on this date or took effect before.
    pub fn trusted(&self, other: AccountNo, holder: HolderNo, day: Day) -> bool
        ensures { result ≡ trusts self.now other holder day }
    {
        self.parts.holder == holder || is_in_effect(self.parts.lists.trusted(), other, day)
    }

    /// Puts the other account on the trusted account list, with an entry that takes effect on this date. An earlier
    /// entry of that account is replaced. The list must have fewer than 256 entries. Nothing else changes.
    ///
    /// # Errors
    /// `NoMemory` if memory ran out. The account is unchanged.
    pub fn trust(&mut self, other: AccountNo, effective: Day) -> Result<(), NoMemory>
        requires { CanTrust self.old }
        ensures ok { OnOk result
            (self.new ≡ with_trusted self.old (record { account = other; effective = effective })) }
        ensures err { OnErr result (self.new ≡ self.old) }
    {
        other.get();
        effective.get();
        self.parts.lists.put_trusted(TrustedEntry {
            account: other,
            effective,
        })?;
        Ok(())
    }

    /// Takes the other account off the trusted account list, if it is on it. Nothing else changes. Takes no memory.
    pub fn untrust(&mut self, other: AccountNo)
        ensures { self.new ≡ without_trusted self.old other }
    {
        self.parts.lists.remove_trusted(other);
    }

    /// How many allowances of this kind it has surrendered, 0 to 10^15. Surrenders that were reversed do not count.
    pub fn surrendered(&self, kind: AllowanceKind) -> u64
        ensures value { result ≡ retired_by self.now Surrendered kind }
        ensures limit { result ≤ MOST_RETIRED }
    {
        self.parts.lists.sum(Retirement::Surrendered, kind) as u64
    }

    /// How many allowances of both kinds it has surrendered for this period, 0 to 2 x 10^15. The periods are counted
    /// from 1; for 0 and above 8 the answer is 0. Surrenders that were reversed do not count.
    pub fn surrendered_for(&self, period: u8) -> u64
        ensures value { result ≡ surrendered_in period self.now.rows }
        ensures limit { result ≤ MOST_RETIRED + MOST_RETIRED }
    {
        self.is_within_limits();
        if period < 1 || MOST_PERIODS < period {
            return 0;
        }
        self.parts.lists.surrendered_for(period) as u64
    }

    /// How many allowances of this kind it has deleted, 0 to 10^15. Deletions that were reversed do not count.
    pub fn deleted(&self, kind: AllowanceKind) -> u64
        ensures value { result ≡ retired_by self.now Deleted kind }
        ensures limit { result ≤ MOST_RETIRED }
    {
        self.parts.lists.sum(Retirement::Deleted, kind) as u64
    }

    /// Its surrenders and deletions: at most 4,096, by rising record number.
    pub fn rows(&self) -> &[RetirementRow]
        ensures value { result.now ≡ self.now.rows }
        ensures fit { RowsFit result.now }
    {
        self.parts.lists.rows()
    }

    /// Its surrender or deletion with this record number, or `None` if it has none. Found by binary search.
    pub fn row(&self, number: RecordNo) -> Option<RetirementRow>
        ensures { result ≡ row_in self.now.rows number }
    {
        find_row(self.parts.lists.rows(), number)
    }

    /// Its emissions of all years, by rising year.
    pub fn all_emissions(&self) -> &[Emission]
        ensures value { result.now ≡ self.now.emissions }
        ensures fit { EmissionsFit result.now }
    {
        self.parts.lists.emissions()
    }

    /// Its emissions of this year, 0 to 10^12 tonnes of carbon dioxide equivalent, or `None` if none were entered.
    pub fn emissions(&self, year: Year) -> Option<u64>
        ensures value { result ≡ emissions_in self.now.emissions year }
        ensures limit { IfSome result (λ tonnes. tonnes ≤ MOST_EMISSIONS) }
    {
        find_emissions(self.parts.lists.emissions(), year)
    }

    /// Its determined figures of all years, by rising year.
    pub fn all_figures(&self) -> &[Figure]
        ensures value { result.now ≡ self.now.figures }
        ensures fit { FiguresFit result.now }
    {
        self.parts.lists.figures()
    }

    /// Its determined compliance figure of this year, -4 x 10^15 to 4 x 10^15 tonnes, or `None` if none was determined.
    pub fn determined(&self, year: Year) -> Option<i64>
        ensures value { result ≡ figure_in self.now.figures year }
        ensures limit { IfSome result FigureFits }
    {
        find_figure(self.parts.lists.figures(), year)
    }

    /// Its compliance figure of this year as of now: the allowances of both kinds that it surrendered for the period of
    /// the year, minus its emissions of that period up to and including the year, plus its correction factor of the
    /// period: -4 x 10^15 to 4 x 10^15 tonnes of carbon dioxide equivalent. This is the figure of docs/RULES.md. It may
    /// differ from the determined one.
    ///
    /// # Errors
    /// `YearOutsidePeriod` if no period has the year. Otherwise `Missing`, with the first year of its period that has
    /// no emissions, if this year or an earlier one of the period has none.
    pub fn figure(&self, rules: &Rules, year: Year) -> Result<i64, FigureFault>
        ensures value { result ≡ figure_of rules.now self.now year }
        ensures limits { IfOk result FigureFits }
    {
        figure_of(rules, self, year)
    }

    /// Surrenders or deletes allowances: they leave the account, and the row is its last one. The row must not be
    /// reversed, its amount must be at least 1, its number must be above those of the other rows, and the period of a
    /// surrender must be 1 to 8. The account must hold the amount, and all limits must stay met. Nothing else changes.
    ///
    /// # Errors
    /// `NoMemory` if memory ran out. The account is unchanged.
    pub fn retire(&mut self, row: RetirementRow) -> Result<(), NoMemory>
        requires can { CanRetire self.old row }
        requires fate { FateFits row.fate }
        ensures ok { OnOk result (self.new ≡ retired self.old row) }
        ensures err { OnErr result (self.new ≡ self.old) }
    {
        know_row(&row);
        let added = row;
        self.parts.lists.push_row(added)?;
        lower(&mut self.parts.held, row.kind, row.amount);
        Ok(())
    }

    /// Reverses the surrender or deletion with this record number: the allowances are back, and the row is marked.
    /// There must be such a row, it must not be reversed, and the holding must stay within its limit. Nothing else
    /// changes. Takes no memory.
    pub fn unretire(&mut self, number: RecordNo)
        requires { CanUnretire self.old number }
        ensures { self.new ≡ unretired self.old number }
    {
        if let Some(row) = self.parts.lists.reverse(number) {
            raise(&mut self.parts.held, row.kind, row.amount);
        }
    }

    /// Sets the emissions of a year, at most 10^12 tonnes of carbon dioxide equivalent. Earlier ones of that year are
    /// replaced. Nothing else changes.
    ///
    /// # Errors
    /// `NoMemory` if memory ran out. The account is unchanged.
    pub fn set_emissions(&mut self, year: Year, tonnes: u64) -> Result<(), NoMemory>
        requires { tonnes ≤ MOST_EMISSIONS }
        ensures ok { OnOk result (self.new ≡ with_emissions self.old (record { year = year; tonnes = tonnes })) }
        ensures err { OnErr result (self.new ≡ self.old) }
    {
        year.get();
        self.parts.lists.put_emission(Emission { year, tonnes })?;
        Ok(())
    }

    /// Sets the determined figure of a year, -4 x 10^15 to 4 x 10^15 tonnes of carbon dioxide equivalent. An earlier
    /// one of that year is replaced. Nothing else changes.
    ///
    /// # Errors
    /// `NoMemory` if memory ran out. The account is unchanged.
    pub fn determine(&mut self, year: Year, tonnes: i64) -> Result<(), NoMemory>
        requires { FigureFits tonnes }
        ensures ok { OnOk result (self.new ≡ with_determined self.old (record { year = year; tonnes = tonnes })) }
        ensures err { OnErr result (self.new ≡ self.old) }
    {
        year.get();
        self.parts.lists.put_figure(Figure { year, tonnes })?;
        Ok(())
    }

    /// A second account, equal in all parts.
    ///
    /// # Errors
    /// `NoMemory` if memory ran out, which happens only if a list has something, or once had.
    pub fn copy(&self, alloc: Global) -> Result<Account, NoMemory>
        ensures { IfOk result (λ a. a ≡ self.now) }
    {
        let parts = AccountParts {
            number: self.parts.number,
            kind: self.parts.kind,
            holder: self.parts.holder,
            status: self.parts.status,
            outside: self.parts.outside,
            waiver: self.parts.waiver,
            correction: self.parts.correction,
            held: self.parts.held,
            lists: self.parts.lists.copy(alloc)?,
        };
        Ok(Account { parts })
    }
}

// More allowances of a kind.
fn raise(held: &mut Holdings, kind: AllowanceKind, amount: u64)
    requires { amount_of held.old kind + amount ≤ MOST_HELD }
    ensures { held.new ≡ with_amount held.old kind (amount_of held.old kind + amount) }
{
    match kind {
        AllowanceKind::General => held.general += amount,
        AllowanceKind::Aviation => held.aviation += amount,
    }
}

// Fewer allowances of a kind.
fn lower(held: &mut Holdings, kind: AllowanceKind, amount: u64)
    requires { amount ≤ amount_of held.old kind }
    ensures { held.new ≡ with_amount held.old kind (amount_of held.old kind - amount) }
{
    match kind {
        AllowanceKind::General => held.general -= amount,
        AllowanceKind::Aviation => held.aviation -= amount,
    }
}
