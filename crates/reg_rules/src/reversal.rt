//! Reversals: the surrender or deletion that is to be reversed, the window for it, and what it makes of the figure.

ghost use Rattle.std.specs.Prelude.{◌≡◌, ◌&&◌, [], false, nat_lt, find, reverse, Some};
ghost use Rattle.std.specs.Option.{option_map_or};
ghost use Rattle.reg_base.specs.Acts.{change_of};
ghost use Rattle.reg_base.specs.Rules.{is_year_of};
ghost use Rattle.reg_account.specs.Rows.{row_in};
ghost use Rattle.reg_account.specs.Figure.{is_for_year};
ghost use Rattle.reg_account.specs.Laws.{lowered_by};
ghost use Rattle.reg_rules.specs.Cases.{seeing, seen_in};
ghost use Rattle.reg_rules.specs.Checks.{is_reversal, row_to_reverse, is_past_window, counted_amount, is_compliant};
ghost use Rattle.reg_rules.specs.Checks.{is_negative, becomes_negative, becomes_negative_in, becomes_negative_by};
ghost use Rattle.reg_rules.specs.Checks.{loses_compliance, would_become_non_compliant};

use crate::case::Case;
use crate::setting::Setting;
use reg_account::laws::figure_laws;
use reg_account::{Account, Fate, Figure, FigureFault, RetirementRow};
use reg_base::{Change, Day, RecordNo, Rules, Year};

/// The surrender or deletion that is to be reversed, if the first account has it.
pub(crate) fn row_to_reverse(change: &Change, first: &Account) -> Option<RetirementRow>
    ensures { result ≡ row_to_reverse change.now (seeing first.now [] []) }
{
    match *change {
        Change::Unretire { number } => first.row(number),
        _ => None,
    }
}

/// Whether a surrender or a deletion is to be reversed.
pub(crate) fn is_reversal(change: &Change) -> bool
    ensures { result ≡ is_reversal change.now }
{
    match *change {
        Change::Unretire { .. } => true,
        _ => false,
    }
}

/// Whether there is a row, and it was reversed before.
pub(crate) fn is_reversed(row: Option<RetirementRow>) -> bool
    ensures { result ≡ option_map_or (λ row. row.reversed) row false }
{
    row.is_some_and(|row| row.reversed)
}

/// Whether there is a row, and the last day for its reversal is over. It is not over if the calendar has no such day.
pub(crate) fn is_window_over(setting: &Setting, row: Option<RetirementRow>) -> bool
    ensures { result ≡ option_map_or (is_past_window setting.now) row false }
{
    match row {
        Some(row) => is_past_window(setting, row),
        None => false,
    }
}

fn is_past_window(setting: &Setting, row: RetirementRow) -> bool
    ensures { result ≡ is_past_window setting.now row }
{
    let rules = setting.rules;
    is_before(
        rules.calendar().due(row.day, rules.reversal_window()),
        setting.day,
    )
}

// Whether there is a last day, and it is earlier than this one.
fn is_before(last: Option<Day>, day: Day) -> bool
    ensures { result ≡ option_map_or (λ w. nat_lt w day) last false }
{
    last.is_some_and(|last| last < day)
}

/// Whether the reversal would make the account non-compliant.
pub(crate) fn would_become_non_compliant(case: &Case) -> bool
    ensures { result ≡ would_become_non_compliant case.now.setting.rules (change_of case.now.instruction.act)
        (seen_in case.now) }
{
    let setting = case.setting;
    match case.movement.change {
        Change::Unretire { number } => {
            loses_compliance(setting.rules, number, case.found.row, case.first)
        },
        _ => false,
    }
}

fn loses_compliance(
    rules: &Rules,
    number: RecordNo,
    row: Option<RetirementRow>,
    account: &Account,
) -> bool
    requires { row ≡ row_in account.now.rows number }
    ensures { result ≡ loses_compliance rules.now number account.now }
{
    match row {
        Some(row) => becomes_negative_by(rules, number, row, account),
        None => false,
    }
}

// Whether the figure that the row's allowances count for becomes negative. Deleted ones count for none.
fn becomes_negative_by(
    rules: &Rules,
    number: RecordNo,
    row: RetirementRow,
    account: &Account,
) -> bool
    requires { row_in account.now.rows number ≡ Some row }
    ensures { result ≡ becomes_negative_by rules.now number account.now row.fate }
{
    match row.fate {
        Fate::Surrendered { period } => becomes_negative_in(rules, number, row, account, period),
        Fate::Deleted => false,
    }
}

// Whether the figure becomes negative that belongs to the latest year of the period with a determined figure.
fn becomes_negative_in(
    rules: &Rules,
    number: RecordNo,
    row: RetirementRow,
    account: &Account,
    period: u8,
) -> bool
    requires { row_in account.now.rows number ≡ Some row }
    ensures { result ≡ becomes_negative_in rules.now number account.now period }
{
    match latest_determined(rules, period, account.all_figures()) {
        Some(latest) => becomes_negative(rules, number, row, account, latest.year),
        None => false,
    }
}

// The determined figure of the latest year of the period that has one.
fn latest_determined(rules: &Rules, period: u8, figures: &[Figure]) -> Option<Figure>
    ensures { result ≡ find (λ f. is_year_of rules.now period f.year) (reverse figures.now) }
{
    figures
        .iter()
        .rev()
        .copied()
        .find(|figure| rules.is_year_of(period, figure.year))
}

// Whether the figure of the year is 0 or more, and would be below 0 after the reversal.
fn becomes_negative(
    rules: &Rules,
    _number: RecordNo,
    row: RetirementRow,
    account: &Account,
    year: Year,
) -> bool
    requires { row_in account.now.rows _number ≡ Some row }
    ensures { result ≡ becomes_negative rules.now _number account.now year }
{
    figure_laws();
    account.is_within_limits();
    let lost = counted_amount(rules, year, row);
    falls_below_zero(account.figure(rules, year), lost)
}

// How many allowances of the row count for the figure of the year.
fn counted_amount(rules: &Rules, year: Year, row: RetirementRow) -> u64
    ensures { result ≡ counted_amount rules.now year row }
{
    if is_for_year(rules, year, row.fate) && !row.reversed {
        row.amount
    } else {
        0
    }
}

// Whether allowances with this fate were surrendered for the period of the year.
fn is_for_year(rules: &Rules, year: Year, fate: Fate) -> bool
    ensures { result ≡ is_for_year rules.now year fate }
{
    match fate {
        Fate::Surrendered { period } => rules.is_year_of(period, year),
        Fate::Deleted => false,
    }
}

// Whether there is a figure of 0 or more that is below 0 without this amount.
fn falls_below_zero(figure: Result<i64, FigureFault>, lost: u64) -> bool
    ensures { result ≡ (is_compliant figure && is_negative (lowered_by lost figure)) }
{
    match figure {
        Ok(figure) => 0 <= figure && i128::from(figure) - i128::from(lost) < 0,
        Err(_) => false,
    }
}
