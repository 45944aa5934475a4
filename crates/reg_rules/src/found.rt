//! What several checks of an instruction ask. Each is found once.

ghost use Rattle.std.specs.Prelude.{◌≡◌, map, IfOk};
ghost use Rattle.reg_base.specs.Acts.{movement_of, shares};
ghost use Rattle.reg_account.specs.Years.{FigureFits};
ghost use Rattle.reg_rules.specs.State.{numbers};
ghost use Rattle.reg_rules.specs.Cases.{seeing, found_of};
ghost use Rattle.reg_rules.specs.Indexed.{accounts_at};

use crate::compliance::figure_asked;
use crate::reversal::row_to_reverse;
use crate::rule::{ActRule, rule_of};
use crate::setting::Setting;
use crate::trust::{due_day, effect_day, trusts_each};
use reg_account::{Account, FigureFault, RetirementRow};
use reg_base::{Day, Instruction, Movement};

/// What several checks of an instruction ask.
#[derive(Clone, Copy, Debug, PartialEq, Eq)]
pub struct Found {
    /// The row of the act in the table of acts.
    pub rule: ActRule,
    /// Whether the first account trusts each that receives on the settlement day.
    pub trusted: bool,
    /// The due day, if the calendar has it.
    pub due: Option<Day>,
    /// The surrender or deletion that is to be reversed, if there is one.
    pub row: Option<RetirementRow>,
    /// The day of effect of what is put on a trusted account list, if something is, and the calendar has the day.
    pub effective: Option<Day>,
    /// The figure that is to be determined, or why there is none. It is `YearOutsidePeriod` too if the act determines
    /// no figure.
    pub figure: Result<i64, FigureFault>,
}

impl Found {
    /// Finds all of it, for an instruction whose accounts are these: its first one, and those of
    /// these accounts that receive, by their indexes, in order.
    pub(crate) fn of(
        setting: &Setting,
        instruction: &Instruction,
        movement: &Movement,
        first: &Account,
        accounts: &[Account],
        receivers: &[u32],
    ) -> Self
        requires movement { movement.now ≡ movement_of instruction.now.act }
        requires in_order { numbers (accounts_at accounts.now receivers.now)
            ≡ map (λ share. share.to) (shares instruction.now.act) }
        ensures value { result ≡ found_of setting.now instruction.now
            (seeing first.now (accounts_at accounts.now receivers.now) (shares instruction.now.act)) }
        ensures fits { IfOk result.figure FigureFits }
    {
        let rule = rule_of(&instruction.act);
        let trusted = trusts_each(setting.day, first, accounts, receivers);
        Found {
            rule,
            trusted,
            due: due_day(setting, instruction, rule.lag, trusted),
            row: row_to_reverse(&movement.change, first),
            effective: effect_day(setting, &movement.change),
            figure: figure_asked(setting.rules, &movement.change, first),
        }
    }
}
