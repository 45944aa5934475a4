//! The checks of an instruction, in the order of the table of checks.

ghost use Rattle.std.specs.Prelude.{◌≡◌, ◌∷◌, false, nat_lt, find, IfOk};
ghost use Rattle.std.specs.Option.{option_map_or};
ghost use Rattle.std.specs.Result.{result_err};
ghost use Rattle.reg_base.specs.Acts.{movement_of};
ghost use Rattle.reg_base.specs.Footprint.{footprint};
ghost use Rattle.reg_base.specs.Refusals.{checks};
ghost use Rattle.reg_account.specs.Years.{FigureFits};
ghost use Rattle.reg_rules.specs.State.{numbers, seen};
ghost use Rattle.reg_rules.specs.Cases.{seen_in, found_of};
ghost use Rattle.reg_rules.specs.Indexed.{accounts_at};
ghost use Rattle.reg_rules.specs.Checks.{fails, refusal};

use crate::amounts::{
    are_rows_full, is_kind_not_allowed, is_retired_too_large, is_short, overfills_first,
    overfills_some,
};
use crate::case::Case;
use crate::compliance::{enters_too_much, lacks_emissions, names_year_outside};
use crate::entitlement::{is_not_approver, is_not_proposer, is_same_representative};
use crate::found::Found;
use crate::indexed::{front, next_at};
use crate::parties::{destination_allows, has_right_kinds, names_one_twice, source_allows};
use crate::reversal::{is_reversal, is_reversed, is_window_over, would_become_non_compliant};
use crate::setting::Setting;
use crate::trust::{
    has_no_effective_day, is_already_trusted, is_list_full, is_not_on_list, is_not_trusted,
    lacks_approval,
};
use reg_account::Account;
use reg_base::laws::each_footprint_is_sound;
use reg_base::{CHECKS, Day, Directory, Instruction, Movement, RecordNo, Refusal, Rules};

/// The first check that fails, or `None` if no check fails. Takes no memory.
///
/// `accounts` must be the accounts that the instruction touches, in the order of [`Instruction::touches`]. The answer
/// does not depend on the record number.
pub fn decide(
    rules: &Rules,
    day: Day,
    number: RecordNo,
    instruction: &Instruction,
    directory: &Directory,
    accounts: &[Account],
) -> Option<Refusal>
    requires { numbers accounts.now ≡ footprint directory.now instruction.now.act }
    ensures { result ≡ refusal
        (record { rules = rules.now; day = day; directory = directory.now }) accounts.now instruction.now }
{
    // No check asks for the record number yet.
    let _unused_yet = number;
    let setting = Setting {
        rules,
        day,
        directory,
    };
    let movement = instruction.act.movement();
    each_footprint_is_sound();
    let indexes = front(accounts, &movement);
    match judge(&setting, instruction, &movement, accounts, indexes) {
        Ok(_) => None,
        Err(refusal) => Some(refusal),
    }
}

/// What was found for the accounts at these indexes, given what the act does, if no check fails.
///
/// # Errors
/// The first check that fails.
pub(crate) fn judge(
    setting: &Setting,
    instruction: &Instruction,
    movement: &Movement,
    accounts: &[Account],
    indexes: &[u32],
) -> Result<Found, Refusal>
    requires own { numbers (accounts_at accounts.now indexes.now)
        ≡ footprint setting.now.directory instruction.now.act }
    requires movement { movement.now ≡ movement_of instruction.now.act }
    ensures fails { result_err result
        ≡ find (fails setting.now (seen (accounts_at accounts.now indexes.now) instruction.now.act) instruction.now)
        checks }
    ensures found { IfOk result
        (λ found. found ≡ found_of setting.now instruction.now
        (seen (accounts_at accounts.now indexes.now) instruction.now.act)) }
    ensures fits { IfOk result (λ found. IfOk found.figure FigureFits) }
{
    match next_at(accounts, indexes) {
        // The footprint is empty exactly if an account that must be known is not.
        None => Err(Refusal::UnknownAccount),
        Some((first, receivers)) => {
            judge_among(setting, instruction, movement, first, accounts, receivers)
        }
    }
}

// The same, if `first` is the first account of the instruction, and those that receive stand at these indexes.
fn judge_among<'a>(
    setting: &'a Setting,
    instruction: &'a Instruction,
    movement: &'a Movement,
    first: &'a Account,
    accounts: &'a [Account],
    receivers: &'a [u32],
) -> Result<Found, Refusal>
    requires own { numbers (first.now ∷ accounts_at accounts.now receivers.now)
        ≡ footprint setting.now.directory instruction.now.act }
    requires movement { movement.now ≡ movement_of instruction.now.act }
    ensures fails { result_err result
        ≡ find (fails setting.now (seen (first.now ∷ accounts_at accounts.now receivers.now) instruction.now.act)
        instruction.now) checks }
    ensures found { IfOk result
        (λ found. found ≡ found_of setting.now instruction.now
        (seen (first.now ∷ accounts_at accounts.now receivers.now) instruction.now.act)) }
    ensures fits { IfOk result (λ found. IfOk found.figure FigureFits) }
{
    if names_one_twice(movement) {
        return Err(Refusal::SameAccount);
    }
    each_footprint_is_sound();
    let found = Found::of(setting, instruction, movement, first, accounts, receivers);
    let case = Case {
        setting,
        instruction,
        movement,
        first,
        accounts,
        receivers,
        found,
    };
    judge_in(&case)
}

// What was found of this case, or the first check that fails in it.
fn judge_in(case: &Case) -> Result<Found, Refusal>
    ensures fails { result_err result
        ≡ find (fails case.now.setting (seen_in case.now) case.now.instruction) checks }
    ensures found { IfOk result
        (λ found. found ≡ found_of case.now.setting case.now.instruction (seen_in case.now)) }
    ensures fits { IfOk result (λ found. IfOk found.figure FigureFits) }
{
    match first_in(case) {
        Some(refusal) => Err(refusal),
        None => Ok(case.found),
    }
}

// The first check that fails in this case.
fn first_in(case: &Case) -> Option<Refusal>
    ensures { result ≡ find (fails case.now.setting (seen_in case.now) case.now.instruction) checks }
{
    CHECKS.iter().copied().find(|check| refuses(*check, case))
}

// Whether this check fails.
fn refuses(check: Refusal, case: &Case) -> bool
    ensures { result ≡ fails case.now.setting (seen_in case.now) case.now.instruction check }
{
    use Refusal::*;
    let found = case.found;
    let setting = case.setting;
    match check {
        // Where they fail, there is no case.
        UnknownAccount | SameAccount => false,
        WrongAccountKind => !has_right_kinds(case),
        SourceStatus => !source_allows(case),
        DestinationStatus => !destination_allows(case),
        NotProposer => is_not_proposer(case),
        ApprovalMissing => lacks_approval(case),
        SameRepresentative => is_same_representative(case.instruction),
        NotApprover => is_not_approver(case),
        NotTrusted => is_not_trusted(case),
        OutsideCalendar => found.due.is_none() || has_no_effective_day(case),
        NotDue => is_after(found.due, setting.day),
        KindNotAllowed => is_kind_not_allowed(case),
        ZeroAmount => case.movement.names_zero(),
        UnknownTransaction => is_reversal(&case.movement.change) && found.row.is_none(),
        AlreadyReversed => is_reversed(found.row),
        WindowClosed => is_window_over(setting, found.row),
        NotEnough => is_short(case),
        HoldingTooLarge => overfills_first(case) || overfills_some(case),
        RetiredTooLarge => is_retired_too_large(case),
        RowsFull => are_rows_full(case),
        WouldBecomeNonCompliant => would_become_non_compliant(case),
        AlreadyTrusted => is_already_trusted(case),
        NotOnList => is_not_on_list(case),
        ListFull => is_list_full(case),
        YearOutsidePeriod => names_year_outside(case),
        AmountTooLarge => enters_too_much(case),
        EmissionsMissing => lacks_emissions(case),
    }
}

// Whether there is a due day, and it is later than this one.
fn is_after(due: Option<Day>, day: Day) -> bool
    ensures { result ≡ option_map_or (λ w. nat_lt day w) due false }
{
    due.is_some_and(|due| due > day)
}
