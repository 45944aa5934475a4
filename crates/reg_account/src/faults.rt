//! What can be wrong with the parts of an account.

ghost use Rattle.std.specs.Prelude.{◌≡◌, ℤ};
ghost use Rattle.std.specs.List.{list_any};
ghost use Rattle.reg_base.specs.Rising.{is_rising_from};
ghost use Rattle.reg_account.specs.Corrections.{correction_periods, is_factor_unfit, is_later_unfit};
ghost use Rattle.reg_account.specs.Corrections.{are_corrections_unfit};
ghost use Rattle.reg_account.specs.Users.{user_numbers, are_users_unfit};
ghost use Rattle.reg_account.specs.Trusted.{trusted_numbers, are_trusted_unfit};
ghost use Rattle.reg_account.specs.Rows.{row_numbers, is_fate_unfit, is_row_unfit, are_rows_unfit, is_too_much};
ghost use Rattle.reg_account.specs.Rows.{is_too_much_retired};
ghost use Rattle.reg_account.specs.Years.{emission_years, figure_years, is_emission_unfit, are_emissions_unfit};
ghost use Rattle.reg_account.specs.Years.{is_figure_unfit, are_figures_unfit};
ghost use Rattle.reg_account.specs.Account.{account_of, account_has, first_account_fault};

use crate::account_parts::{AccountFault, AccountParts};
use crate::corrections::Correction;
use crate::lists::Lists;
use crate::rows::{Fate, RetirementRow};
use crate::trusted::TrustedEntry;
use crate::users::Representative;
use crate::years::{Emission, Figure};
use reg_base::{
    AllowanceKind, MOST_CORRECTION, MOST_EMISSIONS, MOST_FIGURE, MOST_HELD, MOST_PERIODS,
    MOST_RETIRED, MOST_ROWS, MOST_TRUSTED, MOST_USERS, Retirement,
};

// The faults that parts can have, in the order in which they are named.
const FAULTS: [AccountFault; 8] = [
    AccountFault::Correction,
    AccountFault::Holding,
    AccountFault::Users,
    AccountFault::Trusted,
    AccountFault::Rows,
    AccountFault::Retired,
    AccountFault::Emissions,
    AccountFault::Figures,
];

/// The first fault of the parts.
pub(crate) fn find_fault(parts: &AccountParts) -> Option<AccountFault>
    ensures { result ≡ first_account_fault (account_of parts.now) }
{
    FAULTS
        .iter()
        .copied()
        .find(|fault| has_fault(parts, *fault))
}

fn has_fault(parts: &AccountParts, fault: AccountFault) -> bool
    ensures { result ≡ account_has (account_of parts.now) fault }
{
    match fault {
        AccountFault::Correction => {
            is_factor_unfit(parts.correction) || are_corrections_unfit(parts.lists.corrections())
        }
        AccountFault::Holding => {
            MOST_HELD < parts.held.general || MOST_HELD < parts.held.aviation
        }
        AccountFault::Users => are_users_unfit(parts.lists.users()),
        AccountFault::Trusted => are_trusted_unfit(parts.lists.trusted()),
        AccountFault::Rows => are_rows_unfit(parts.lists.rows()),
        AccountFault::Retired => is_too_much_retired(&parts.lists),
        AccountFault::Emissions => are_emissions_unfit(parts.lists.emissions()),
        AccountFault::Figures => are_figures_unfit(parts.lists.figures()),
    }
}

fn is_factor_unfit(factor: i64) -> bool
    ensures { result ≡ is_factor_unfit factor }
{
    factor < -MOST_CORRECTION || MOST_CORRECTION < factor
}

fn are_corrections_unfit(corrections: &[Correction]) -> bool
    ensures { result ≡ are_corrections_unfit corrections.now }
{
    !have_rising_periods(corrections) || has_unfit_factor(corrections)
}

fn have_rising_periods(corrections: &[Correction]) -> bool
    ensures { result ≡ is_rising_from 0 (correction_periods corrections.now) }
{
    let mut low = 0;
    for correction in corrections {
        let period = u16::from(correction.period);
        if period < low {
            return false;
        }
        low = period + 1;
    }
    true
}

fn has_unfit_factor(corrections: &[Correction]) -> bool
    ensures { result ≡ list_any is_later_unfit corrections.now }
{
    corrections
        .iter()
        .any(|correction| is_later_unfit(correction))
}

fn is_later_unfit(correction: &Correction) -> bool
    ensures { result ≡ is_later_unfit correction.now }
{
    (correction.period < 2 || MOST_PERIODS < correction.period)
        || (correction.factor == 0 || is_factor_unfit(correction.factor))
}

fn are_users_unfit(users: &[Representative]) -> bool
    ensures { result ≡ are_users_unfit users.now }
{
    MOST_USERS < users.len() || !have_rising_users(users)
}

fn have_rising_users(users: &[Representative]) -> bool
    ensures { result ≡ is_rising_from 0 (user_numbers users.now) }
{
    let mut low = 0;
    for representative in users {
        let user = representative.user.get();
        if user < low {
            return false;
        }
        low = user + 1;
    }
    true
}

fn are_trusted_unfit(entries: &[TrustedEntry]) -> bool
    ensures { result ≡ are_trusted_unfit entries.now }
{
    MOST_TRUSTED < entries.len() || !have_rising_accounts(entries)
}

fn have_rising_accounts(entries: &[TrustedEntry]) -> bool
    ensures { result ≡ is_rising_from 0 (trusted_numbers entries.now) }
{
    let mut low = 0;
    for entry in entries {
        let account = entry.account.get();
        if account < low {
            return false;
        }
        low = account + 1;
    }
    true
}

fn are_rows_unfit(rows: &[RetirementRow]) -> bool
    ensures { result ≡ are_rows_unfit rows.now }
{
    MOST_ROWS < rows.len() || (!have_rising_numbers(rows) || has_unfit_row(rows))
}

fn have_rising_numbers(rows: &[RetirementRow]) -> bool
    ensures { result ≡ is_rising_from 0 (row_numbers rows.now) }
{
    let mut low = 0;
    for row in rows {
        let number = row.number.get();
        if number < low {
            return false;
        }
        low = number + 1;
    }
    true
}

fn has_unfit_row(rows: &[RetirementRow]) -> bool
    ensures { result ≡ list_any is_row_unfit rows.now }
{
    rows.iter().any(|row| is_row_unfit(row))
}

fn is_row_unfit(row: &RetirementRow) -> bool
    ensures { result ≡ is_row_unfit row.now }
{
    row.amount < 1 || (MOST_RETIRED < row.amount || is_fate_unfit(row.fate))
}

fn is_fate_unfit(fate: Fate) -> bool
    ensures { result ≡ is_fate_unfit fate }
{
    match fate {
        Fate::Surrendered { period } => period < 1 || MOST_PERIODS < period,
        Fate::Deleted => false,
    }
}

fn is_too_much_retired(lists: &Lists) -> bool
    ensures { result ≡ is_too_much_retired lists.now.rows }
{
    is_too_much(lists, Retirement::Surrendered) || is_too_much(lists, Retirement::Deleted)
}

fn is_too_much(lists: &Lists, way: Retirement) -> bool
    ensures { result ≡ is_too_much lists.now.rows way }
{
    u128::from(MOST_RETIRED) < lists.sum(way, AllowanceKind::General)
        || u128::from(MOST_RETIRED) < lists.sum(way, AllowanceKind::Aviation)
}

fn are_emissions_unfit(emissions: &[Emission]) -> bool
    ensures { result ≡ are_emissions_unfit emissions.now }
{
    !have_rising_emission_years(emissions) || has_unfit_emission(emissions)
}

fn have_rising_emission_years(emissions: &[Emission]) -> bool
    ensures { result ≡ is_rising_from 0 (emission_years emissions.now) }
{
    let mut low = 0;
    for emission in emissions {
        let year = emission.year.get();
        if year < low {
            return false;
        }
        low = year + 1;
    }
    true
}

fn has_unfit_emission(emissions: &[Emission]) -> bool
    ensures { result ≡ list_any is_emission_unfit emissions.now }
{
    emissions.iter().any(|emission| is_emission_unfit(emission))
}

fn is_emission_unfit(emission: &Emission) -> bool
    ensures { result ≡ is_emission_unfit emission.now }
{
    MOST_EMISSIONS < emission.tonnes
}

fn are_figures_unfit(figures: &[Figure]) -> bool
    ensures { result ≡ are_figures_unfit figures.now }
{
    !have_rising_figure_years(figures) || has_unfit_figure(figures)
}

fn have_rising_figure_years(figures: &[Figure]) -> bool
    ensures { result ≡ is_rising_from 0 (figure_years figures.now) }
{
    let mut low = 0;
    for figure in figures {
        let year = figure.year.get();
        if year < low {
            return false;
        }
        low = year + 1;
    }
    true
}

fn has_unfit_figure(figures: &[Figure]) -> bool
    ensures { result ≡ list_any is_figure_unfit figures.now }
{
    figures.iter().any(|figure| is_figure_unfit(figure))
}

fn is_figure_unfit(figure: &Figure) -> bool
    ensures { result ≡ is_figure_unfit figure.now }
{
    figure.tonnes < -MOST_FIGURE || MOST_FIGURE < figure.tonnes
}
