//! Years and emissions that an instruction names, and the figure that it determines.

ghost use Rattle.std.specs.Prelude.{◌≡◌, Some, IfOk};
ghost use Rattle.reg_base.specs.Acts.{change_of};
ghost use Rattle.reg_account.specs.Years.{FigureFits};
ghost use Rattle.reg_rules.specs.Checks.{names_year_outside, enters_too_much, is_missing, lacks_emissions};
ghost use Rattle.reg_rules.specs.Cases.{seen_in, figure_asked};

use crate::case::Case;
use reg_account::{Account, FigureFault};
use reg_base::{Change, MOST_EMISSIONS, Rules};

/// Whether a year that the act names is outside every period.
pub(crate) fn names_year_outside(case: &Case) -> bool
    ensures { result ≡ names_year_outside case.now.setting.rules (change_of case.now.instruction.act) }
{
    let setting = case.setting;
    match case.movement.change {
        Change::SetEmissions { year, .. } | Change::Determine { year } => {
            !setting.rules.is_in_period(year)
        },
        _ => false,
    }
}

/// Whether emissions that are entered are too large.
pub(crate) fn enters_too_much(case: &Case) -> bool
    ensures { result ≡ enters_too_much (change_of case.now.instruction.act) }
{
    match case.movement.change {
        Change::SetEmissions { tonnes, .. } => MOST_EMISSIONS < tonnes,
        _ => false,
    }
}

/// The figure that this change determines for the first account, or why there is none: `YearOutsidePeriod` too if the
/// change determines none.
pub(crate) fn figure_asked(
    rules: &Rules,
    change: &Change,
    first: &Account,
) -> Result<i64, FigureFault>
    ensures value { result ≡ figure_asked rules.now change.now (Some first.now) }
    ensures limits { IfOk result FigureFits }
{
    match *change {
        Change::Determine { year } => first.figure(rules, year),
        _ => Err(FigureFault::YearOutsidePeriod),
    }
}

/// Whether the figure that is to be determined lacks the emissions of a year.
pub(crate) fn lacks_emissions(case: &Case) -> bool
    ensures { result ≡ lacks_emissions case.now.setting.rules (change_of case.now.instruction.act)
        (seen_in case.now) }
{
    match case.movement.change {
        Change::Determine { .. } => is_missing(case.found.figure),
        _ => false,
    }
}

fn is_missing(figure: Result<i64, FigureFault>) -> bool
    ensures { result ≡ is_missing figure }
{
    match figure {
        Ok(_) | Err(FigureFault::YearOutsidePeriod) => false,
        Err(FigureFault::Missing(_)) => true,
    }
}
