//! Trust between accounts, what depends on it, and the entries of a trusted list.

ghost use Rattle.std.specs.Prelude.{◌≡◌, nat_le, length};
ghost use Rattle.std.specs.List.{list_all};
ghost use Rattle.reg_base.specs.declared.limits.TheConstants.{MOST_TRUSTED};
ghost use Rattle.reg_base.specs.Acts.{change_of};
ghost use Rattle.reg_base.specs.Calendar.{due};
ghost use Rattle.reg_account.specs.Account.{trusts};
ghost use Rattle.reg_rules.specs.ActRules.{rule_of};
ghost use Rattle.reg_rules.specs.Trust.{lag_by, is_waived, lacks_approval, is_not_trusted, effective_day};
ghost use Rattle.reg_rules.specs.Trust.{has_no_effective_day, is_already_trusted, is_not_on_list, is_list_full};
ghost use Rattle.reg_rules.specs.Cases.{seen_in, effect_day};
ghost use Rattle.reg_rules.specs.Indexed.{accounts_at};

use crate::case::Case;
use crate::indexed::next_at;
use crate::rule::LagRule;
use crate::setting::Setting;
use reg_account::Account;
use reg_base::{Change, Day, Instruction, MOST_TRUSTED, Rules};

/// Whether the first account trusts each of those at these indexes on this day.
pub(crate) fn trusts_each(
    day: Day,
    first: &Account,
    accounts: &[Account],
    receivers: &[u32],
) -> bool
    ensures { result ≡ list_all (λ w. trusts first.now w.number w.holder day)
        (accounts_at accounts.now receivers.now) }
{
    match next_at(accounts, receivers) {
        None => true,
        Some((other, others)) => {
            first.trusted(other.number(), other.holder(), day)
                && trusts_each(day, first, accounts, others)
        }
    }
}

/// The day on which the instruction falls due, if the calendar has it, given the lag of its act, and whether each
/// account that receives is trusted.
pub(crate) fn due_day(
    setting: &Setting,
    instruction: &Instruction,
    lag: LagRule,
    trusted: bool,
) -> Option<Day>
    ensures { result ≡ due setting.now.rules.calendar instruction.now.proposed
        (lag_by setting.now.rules lag trusted) }
{
    let rules = setting.rules;
    rules
        .calendar()
        .due(instruction.proposed, lag_by(rules, lag, trusted))
}

fn lag_by(rules: &Rules, lag: LagRule, trusted: bool) -> u16
    ensures { result ≡ lag_by rules.now lag trusted }
{
    match lag {
        LagRule::ByTrust => {
            if trusted {
                rules.trusted_lag()
            } else {
                rules.other_lag()
            }
        }
        LagRule::NoLag => 0,
    }
}

/// Whether there is no approver, and one is needed.
pub(crate) fn lacks_approval(case: &Case) -> bool
    ensures { result ≡ lacks_approval case.now.setting case.now.instruction (seen_in case.now) }
{
    case.instruction.approver.is_none() && !is_waived(case)
}

fn is_waived(case: &Case) -> bool
    ensures { result ≡ is_waived case.now.setting (rule_of case.now.instruction.act).lag (seen_in case.now) }
{
    match case.found.rule.lag {
        LagRule::ByTrust => case.first.waiver() && case.found.trusted,
        LagRule::NoLag => false,
    }
}

/// Whether the act depends on trust, an account that receives is not trusted, and the first account allows transfers to
/// trusted accounts alone.
pub(crate) fn is_not_trusted(case: &Case) -> bool
    ensures { result ≡ is_not_trusted case.now.setting (rule_of case.now.instruction.act).lag (seen_in case.now) }
{
    match case.found.rule.lag {
        LagRule::ByTrust => !case.found.trusted && !case.first.outside(),
        LagRule::NoLag => false,
    }
}

/// The day of effect of what this change adds to a trusted list, if it adds something, and the calendar has the day.
pub(crate) fn effect_day(setting: &Setting, change: &Change) -> Option<Day>
    ensures { result ≡ effect_day setting.now change.now }
{
    match *change {
        Change::Trust { .. } => effective_day(setting),
        _ => None,
    }
}

// The day of effect of what is added to a trusted list today, if the calendar has it.
fn effective_day(setting: &Setting) -> Option<Day>
    ensures { result ≡ effective_day setting.now }
{
    let rules = setting.rules;
    rules.calendar().due(setting.day, rules.list_lag())
}

/// Whether an addition to a trusted list would have no day of effect.
pub(crate) fn has_no_effective_day(case: &Case) -> bool
    ensures { result ≡ has_no_effective_day case.now.setting (change_of case.now.instruction.act) }
{
    match case.movement.change {
        Change::Trust { .. } => case.found.effective.is_none(),
        _ => false,
    }
}

/// Whether the account that is to be added is on the first account's list, in effect or not.
pub(crate) fn is_already_trusted(case: &Case) -> bool
    ensures { result ≡ is_already_trusted (change_of case.now.instruction.act) (seen_in case.now) }
{
    match case.movement.change {
        Change::Trust { other } => case.first.effective(other).is_some(),
        _ => false,
    }
}

/// Whether the account that is to be removed is not on the first account's list.
pub(crate) fn is_not_on_list(case: &Case) -> bool
    ensures { result ≡ is_not_on_list (change_of case.now.instruction.act) (seen_in case.now) }
{
    match case.movement.change {
        Change::Untrust { other } => case.first.effective(other).is_none(),
        _ => false,
    }
}

/// Whether an entry is to be added, and the first account's list has as many as it may have.
pub(crate) fn is_list_full(case: &Case) -> bool
    ensures { result ≡ is_list_full (change_of case.now.instruction.act) (seen_in case.now) }
{
    match case.movement.change {
        Change::Trust { .. } => has_full_list(case.first),
        _ => false,
    }
}

fn has_full_list(account: &Account) -> bool
    ensures { result ≡ nat_le MOST_TRUSTED (length account.now.trusted) }
{
    MOST_TRUSTED <= account.trusted_entries().len()
}
