//! The compliance status figure of a year.

ghost use Rattle.std.specs.Prelude.{◌≡◌, ◌+◌, ◌-◌, ◌*◌, ◌≤◌, IfOk};
ghost use Rattle.reg_base.specs.declared.limits.TheConstants.{MOST_RETIRED, MOST_EMISSIONS};
ghost use Rattle.reg_base.specs.Rising.{count_up};
ghost use Rattle.reg_account.specs.Account.{CorrectionFits};
ghost use Rattle.reg_account.specs.Years.{FigureFits};
ghost use Rattle.reg_account.specs.Figure.{figure_of, years_counted, emitted_or_missing, surrendered_for_year};
ghost use Rattle.reg_account.specs.Figure.{correction_added};

use crate::account::Account;
use reg_base::{Rules, Year};
use thiserror::Error;

/// Why there is no figure of a year.
#[derive(Clone, Copy, Debug, PartialEq, Eq, Error)]
pub enum FigureFault {
    /// The year is outside every period.
    #[error("the year is outside every period")]
    YearOutsidePeriod,
    /// There are no emissions of this year, which counts for the figure. It is the first such year.
    #[error("the emissions of a year are missing")]
    Missing(Year),
}

/// The figure of a year. See [`Account::figure`].
pub(crate) fn figure_of(rules: &Rules, account: &Account, year: Year) -> Result<i64, FigureFault>
    ensures value { result ≡ figure_of rules.now account.now year }
    ensures limits { IfOk result FigureFits }
{
    if !rules.is_in_period(year) {
        return Err(FigureFault::YearOutsidePeriod);
    }
    let emitted = add_emissions(rules, account, year)?;
    let surrendered = surrendered_for_year(rules, account, year);
    Ok(surrendered as i64 - emitted as i64 + correction_added(rules, account, year))
}

// The emissions of the years that count, or the first of them that has none.
fn add_emissions(rules: &Rules, account: &Account, year: Year) -> Result<u64, FigureFault>
    ensures value { result ≡ emitted_or_missing account.now (years_counted rules.now year) }
    ensures limit { IfOk result (λ sum. sum ≤ 100 * MOST_EMISSIONS) }
{
    match rules.period_with(year) {
        Some(period) => add_years(account, period.0, year),
        None => Ok(0),
    }
}

// The emissions of the years from one to another, or the first of them that has none.
fn add_years(account: &Account, first: Year, last: Year) -> Result<u64, FigureFault>
    ensures value { result ≡ emitted_or_missing account.now (count_up first (last + 1 - first)) }
    ensures limit { IfOk result (λ sum. sum ≤ 100 * MOST_EMISSIONS) }
{
    let first = first.get();
    let mut sum = 0;
    for number in first..last.get() + 1 {
        let counted = Year::new(number).unwrap();
        match account.emissions(counted) {
            Some(tonnes) => sum += tonnes,
            None => return Err(FigureFault::Missing(counted)),
        }
    }
    Ok(sum)
}

// The allowances of both kinds that were surrendered for the period of the year.
fn surrendered_for_year(rules: &Rules, account: &Account, year: Year) -> u64
    ensures value { result ≡ surrendered_for_year rules.now account.now year }
    ensures limit { result ≤ MOST_RETIRED + MOST_RETIRED }
{
    match rules.period_of(year) {
        Some(period) => account.surrendered_for(period),
        None => 0,
    }
}

// The correction factor of the period of the year.
fn correction_added(rules: &Rules, account: &Account, year: Year) -> i64
    ensures value { result ≡ correction_added rules.now account.now year }
    ensures limits { CorrectionFits result }
{
    match rules.period_of(year) {
        Some(period) => account.correction(period),
        None => 0,
    }
}
