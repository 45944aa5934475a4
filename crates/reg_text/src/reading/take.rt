//! What each row adds to the draft.

#![tactic(auto, unfolding(crate::specs::Faults::with_row))]

ghost use Rattle.std.specs.Prelude.{◌≡◌, ◌+◌, ◌<◌, ◌≤◌, ◌&&◌, nat_lt, nat_le, ◌∷◌, ◌++◌, [], length, Ok};
ghost use Rattle.std.specs.Prelude.{if◌then◌else◌, option_to_list, OnOk, OnErr};
ghost use Rattle.reg_base.specs.declared.limits.TheConstants.{MOST_ACCOUNTS, MOST_RETIRED, MOST_INSTRUCTIONS};
ghost use Rattle.reg_base.specs.declared.limits.TheConstants.{MOST_RECORD, MOST_ROWS};
ghost use Rattle.csv.specs.Records.{fields_of};
ghost use Rattle.reg_account.specs.Rows.{retired_in, retirement_of};
ghost use Rattle.reg_text.specs.Lasts.{last_item};
ghost use Rattle.reg_text.specs.Sections.{key, follows};
ghost use Rattle.reg_text.specs.Drafts.{draft_of, heading_of, read_behind, with_block_over};
ghost use Rattle.reg_text.specs.DraftLimits.{FitsSoFar, IsDraft};
ghost use Rattle.reg_text.specs.Faults.{TakesRow, placed, next_in, is_recorded, is_sum_left, is_number_left};
ghost use Rattle.reg_text.specs.Faults.{has_row_space, with_row, next_draft};
ghost use Rattle.reg_text.specs.declared.reading.tag.Tag.TheVariants as tag;

use crate::cause::{Cause, RowError};
use crate::reading::account_row::{make_account, read_account_row};
use crate::reading::block_rows::{
    read_correction_row, read_emissions_row, read_figure_row, read_representative_row,
    read_retired_row, read_trusted_row,
};
use crate::reading::draft::{Body, Draft, Heading};
use crate::reading::heading_rows::{
    read_current_row, read_day_row, read_format_row, read_lags_row, read_period_row,
};
use crate::reading::instruction_row::read_instruction_row;
use crate::reading::list_rows::{pair_index, read_admin_row, read_surrender_row, read_work_row};
use crate::reading::row::{field_at, has_fields};
use crate::reading::tag::{Tag, read_tag};
use csv::ByteRecord;
use reg_account::{Lists, RetirementRow};
use reg_base::{
    Day, Instruction, MOST_ACCOUNTS, MOST_ADMINISTRATORS, MOST_INSTRUCTIONS, MOST_PERIODS,
    MOST_RECORD, MOST_RETIRED, MOST_ROWS, MOST_TRUSTED, MOST_USERS, NoMemory,
};

// Takes a row of a list. A call names the body of the draft and the tag, what the row says and how it is read, the
// value before it in its list, when it comes after that value, how many there may be, if that is limited, and how it is
// added.
macro_rules! take_listed {
    ($body:expr, $tag:ident, $value:ident = $read:expr, $before:ident in $list:expr,
    follows $follows:expr, $(at_most $most:expr,)? push $push:expr) => {{
        let $value = $read?;
        if let Some($before) = $list.last().copied() {
            if !($follows) {
                return Err(RowError::Fault(Cause::Order));
            }
        }
        $(if $list.len() >= $most {
            return Err(RowError::Fault(Cause::Limit));
        })?
        $push?;
        $body.last = Some(Tag::$tag);
        Ok(())
    }};
}

fn take_format(heading: &mut Heading, body: &mut Body, row: &ByteRecord) -> Result<(), RowError>
    requires { (heading_of heading.old).versions ≡ [] }
    ensures { TakesRow (read_behind heading.new body.new) result
        (with_row tag.Format (read_behind heading.old body.old) (fields_of row.now)) }
{
    let version = read_format_row(row)?;
    heading.version = Some(version);
    body.last = Some(Tag::Format);
    Ok(())
}

fn take_day(heading: &mut Heading, body: &mut Body, row: &ByteRecord) -> Result<(), RowError>
    requires { (heading_of heading.old).days ≡ [] }
    ensures { TakesRow (read_behind heading.new body.new) result
        (with_row tag.Day (read_behind heading.old body.old) (fields_of row.now)) }
{
    let (day, next) = read_day_row(row)?;
    heading.day = Some((day, next));
    body.last = Some(Tag::Day);
    Ok(())
}

fn take_period(heading: &mut Heading, body: &mut Body, row: &ByteRecord) -> Result<(), RowError>
    ensures { TakesRow (read_behind heading.new body.new) result
        (with_row tag.Period (read_behind heading.old body.old) (fields_of row.now)) }
{
    take_listed!(body, Period, period = read_period_row(row), before in heading.periods,
        follows before.1 < period.0, at_most usize::from(MOST_PERIODS), push heading.periods.push(period))
}

fn take_current(heading: &mut Heading, body: &mut Body, row: &ByteRecord) -> Result<(), RowError>
    requires { (heading_of heading.old).current ≡ [] }
    ensures { TakesRow (read_behind heading.new body.new) result
        (with_row tag.Current (read_behind heading.old body.old) (fields_of row.now)) }
{
    let current = read_current_row(heading.scope(), row)?;
    heading.current = Some(current);
    body.last = Some(Tag::Current);
    Ok(())
}

fn take_lags(heading: &mut Heading, body: &mut Body, row: &ByteRecord) -> Result<(), RowError>
    requires { (heading_of heading.old).lags ≡ [] }
    ensures { TakesRow (read_behind heading.new body.new) result
        (with_row tag.Lags (read_behind heading.old body.old) (fields_of row.now)) }
{
    let lags = read_lags_row(row)?;
    heading.lags = Some(lags);
    body.last = Some(Tag::Lags);
    Ok(())
}

fn take_surrender(heading: &mut Heading, body: &mut Body, row: &ByteRecord) -> Result<(), RowError>
    ensures { TakesRow (read_behind heading.new body.new) result
        (with_row tag.Surrender (read_behind heading.old body.old) (fields_of row.now)) }
{
    take_listed!(body, Surrender, pair = read_surrender_row(row), before in heading.surrender,
        follows pair_index(before) < pair_index(pair), push heading.surrender.push(pair))
}

fn take_admin(heading: &mut Heading, body: &mut Body, row: &ByteRecord) -> Result<(), RowError>
    ensures { TakesRow (read_behind heading.new body.new) result
        (with_row tag.Admin (read_behind heading.old body.old) (fields_of row.now)) }
{
    take_listed!(body, Admin, admin = read_admin_row(row), before in heading.admins,
        follows before < admin, at_most MOST_ADMINISTRATORS, push heading.admins.push(admin))
}

fn take_work(heading: &mut Heading, body: &mut Body, row: &ByteRecord) -> Result<(), RowError>
    ensures { TakesRow (read_behind heading.new body.new) result
        (with_row tag.Work (read_behind heading.old body.old) (fields_of row.now)) }
{
    take_listed!(body, Work, day = read_work_row(row), before in heading.work,
        follows before < day, push heading.work.push(day))
}

/// Puts the begun account, if there is one, among those whose blocks are over.
pub(crate) fn end_block(heading: &Heading, body: &mut Body) -> Result<(), NoMemory>
    requires { FitsSoFar (read_behind heading.now body.old) }
    ensures over { OnOk result (read_behind heading.now body.new ≡ with_block_over (read_behind heading.now body.old)) }
    ensures count { OnOk result (body.new.count ≡ body.old.count) }
{
    if let Some(head) = body.head {
        let account = make_account(head, body.lists.take());
        body.accounts.push_last(account)?;
        body.head = None;
    }
    Ok(())
}

fn take_account(heading: &Heading, body: &mut Body, row: &ByteRecord) -> Result<(), RowError>
    requires { IsDraft (read_behind heading.now body.old) }
    ensures { TakesRow (read_behind heading.now body.new) result
        (with_row tag.Account (read_behind heading.now body.old) (fields_of row.now)) }
{
    let head = read_account_row(row)?;
    if let Some(before) = body.head {
        if head.number <= before.number {
            return Err(RowError::Fault(Cause::Order));
        }
    }
    if body.count >= MOST_ACCOUNTS {
        return Err(RowError::Fault(Cause::Limit));
    }
    end_block(heading, body)?;
    body.head = Some(head);
    body.count += 1;
    body.last = Some(Tag::Account);
    Ok(())
}

fn take_correction(heading: &Heading, body: &mut Body, row: &ByteRecord) -> Result<(), RowError>
    ensures { TakesRow (read_behind heading.now body.new) result
        (with_row tag.Correction (read_behind heading.now body.old) (fields_of row.now)) }
{
    take_listed!(body, Correction, correction = read_correction_row(heading.scope(), row),
        before in body.lists.corrections(),
        follows before.period < correction.period, push body.lists.push_correction(correction))
}

fn take_user(heading: &Heading, body: &mut Body, row: &ByteRecord) -> Result<(), RowError>
    ensures { TakesRow (read_behind heading.now body.new) result
        (with_row tag.User (read_behind heading.now body.old) (fields_of row.now)) }
{
    take_listed!(body, User, user = read_representative_row(row), before in body.lists.users(),
        follows before.user < user.user, at_most MOST_USERS, push body.lists.push_user(user))
}

fn take_trusted(heading: &Heading, body: &mut Body, row: &ByteRecord) -> Result<(), RowError>
    ensures { TakesRow (read_behind heading.now body.new) result
        (with_row tag.Trusted (read_behind heading.now body.old) (fields_of row.now)) }
{
    take_listed!(body, Trusted, entry = read_trusted_row(row), before in body.lists.trusted(),
        follows before.account < entry.account, at_most MOST_TRUSTED, push body.lists.push_trusted(entry))
}

// How many allowances of the row count: none if it was reversed.
fn counted(row: RetirementRow) -> u64
    ensures { result ≡ (if row.reversed then 0 else row.amount) }
{
    if row.reversed { 0 } else { row.amount }
}

// Whether what was surrendered (or deleted) of a kind is within the limit with this row.
fn is_sum_left(lists: &Lists, row: RetirementRow) -> bool
    requires { retired_in (retirement_of row.fate) row.kind lists.now.rows ≤ MOST_RETIRED }
    ensures { result ≡ is_sum_left lists.now.rows row }
{
    lists.sum(row.fate.retirement(), row.kind) + u128::from(counted(row))
        <= u128::from(MOST_RETIRED)
}

// Whether the number of a row is below the next one, if that is known.
fn is_recorded(day: Option<(Day, u64)>, row: &RetirementRow) -> bool
    ensures { result ≡ is_recorded (next_in (option_to_list day)) row.now }
{
    match day {
        Some((_, next)) => row.number.get() < next,
        None => true,
    }
}

// Whether there is space for one more row, its number is below the next one, and the sum is within the limit with it.
fn has_row_space(lists: &Lists, day: Option<(Day, u64)>, row: RetirementRow) -> bool
    requires { retired_in (retirement_of row.fate) row.kind lists.now.rows ≤ MOST_RETIRED }
    ensures { result ≡ has_row_space (next_in (option_to_list day)) lists.now.rows row }
{
    lists.rows().len() < MOST_ROWS && (is_recorded(day, &row) && is_sum_left(lists, row))
}

// Whether the number of a row is above that of the one before it, if there is one.
fn is_later_row(before: Option<RetirementRow>, row: &RetirementRow) -> bool
    ensures { result ≡ follows (key tag.Retired) before row.now }
{
    match before {
        Some(before) => before.number < row.number,
        None => true,
    }
}

// Whether the number of a row is above those of the rows in the lists.
fn comes_last(lists: &Lists, row: &RetirementRow) -> bool
    ensures { result ≡ follows (key tag.Retired) (last_item lists.now.rows) row.now }
{
    is_later_row(lists.rows().last().copied(), row)
}

// Whether a row comes behind those in the lists, and there is space for it.
fn check_row(lists: &Lists, day: Option<(Day, u64)>, row: &RetirementRow) -> Result<(), Cause>
    requires { retired_in (retirement_of row.now.fate) row.now.kind lists.now.rows ≤ MOST_RETIRED }
    ensures { result ≡ placed (follows (key tag.Retired) (last_item lists.now.rows) row.now)
        (has_row_space (next_in (option_to_list day)) lists.now.rows row.now) tt }
{
    if !comes_last(lists, row) {
        return Err(Cause::Order);
    }
    if !has_row_space(lists, day, *row) {
        return Err(Cause::Limit);
    }
    Ok(())
}

#[tactic(auto)]
fn take_retired(heading: &Heading, body: &mut Body, row: &ByteRecord) -> Result<(), RowError>
    requires { IsDraft (read_behind heading.now body.old) }
    ensures { TakesRow (read_behind heading.now body.new) result
        (with_row tag.Retired (read_behind heading.now body.old) (fields_of row.now)) }
{
    let retired = read_retired_row(heading.scope(), row)?;
    check_row(&body.lists, heading.day, &retired)?;
    body.lists.push_row(retired)?;
    body.last = Some(Tag::Retired);
    Ok(())
}

fn take_emissions(heading: &Heading, body: &mut Body, row: &ByteRecord) -> Result<(), RowError>
    ensures { TakesRow (read_behind heading.now body.new) result
        (with_row tag.Emissions (read_behind heading.now body.old) (fields_of row.now)) }
{
    take_listed!(body, Emissions, emission = read_emissions_row(row), before in body.lists.emissions(),
        follows before.year < emission.year, push body.lists.push_emission(emission))
}

fn take_figure(heading: &Heading, body: &mut Body, row: &ByteRecord) -> Result<(), RowError>
    ensures { TakesRow (read_behind heading.now body.new) result
        (with_row tag.Figure (read_behind heading.now body.old) (fields_of row.now)) }
{
    take_listed!(body, Figure, figure = read_figure_row(row), before in body.lists.figures(),
        follows before.year < figure.year, push body.lists.push_figure(figure))
}

// Whether there is a record number for one more of so many instructions, if the next number is known.
fn is_number_left(day: Option<(Day, u64)>, count: usize) -> bool
    requires { count < MOST_INSTRUCTIONS }
    ensures { result ≡ is_number_left (next_in (option_to_list day)) count }
{
    match day {
        Some((_, next)) => next <= MOST_RECORD - count as u64,
        None => true,
    }
}

/// Whether there is space and a record number for one more of so many instructions.
pub(crate) fn has_number(day: Option<(Day, u64)>, count: usize) -> bool
    ensures { result ≡ (nat_lt count MOST_INSTRUCTIONS && is_number_left (next_in (option_to_list day)) count) }
{
    count < MOST_INSTRUCTIONS && is_number_left(day, count)
}

fn take_instruction(heading: &Heading, body: &mut Body, row: &ByteRecord) -> Result<(), RowError>
    ensures { TakesRow (read_behind heading.now body.new) result
        (with_row tag.Do (read_behind heading.now body.old) (fields_of row.now)) }
{
    // (taken apart and made again: the kit's borrow checker carries its fields, and not the whole)
    let Instruction {
        proposed,
        proposer,
        approver,
        act,
    } = read_instruction_row(row)?;
    if !has_number(heading.day, body.instructions.len()) {
        return Err(RowError::Fault(Cause::Limit));
    }
    body.instructions.push(Instruction {
        proposed,
        proposer,
        approver,
        act,
    })?;
    body.last = Some(Tag::Do);
    Ok(())
}

fn take_end(heading: &Heading, body: &mut Body, row: &ByteRecord) -> Result<(), RowError>
    ensures { TakesRow (read_behind heading.now body.new) result
        (with_row tag.End (read_behind heading.now body.old) (fields_of row.now)) }
{
    if !has_fields(row, 1) {
        return Err(RowError::Fault(Cause::Fields));
    }
    body.last = Some(Tag::End);
    Ok(())
}

// Takes a row by its tag. Rows of the heading are taken by the arms that a call adds, in braces; the brackets have what
// comes behind the call that takes another row.
macro_rules! take_tagged {
    ($tag:expr, $heading:expr, $body:expr, $row:ident, [$($end:tt)*] {$($early:tt)*}) => {
        match $tag {
            Tag::Account => { take_account($heading, $body, $row) $($end)* }
            Tag::Correction => { take_correction($heading, $body, $row) $($end)* }
            Tag::User => { take_user($heading, $body, $row) $($end)* }
            Tag::Trusted => { take_trusted($heading, $body, $row) $($end)* }
            Tag::Retired => { take_retired($heading, $body, $row) $($end)* }
            Tag::Emissions => { take_emissions($heading, $body, $row) $($end)* }
            Tag::Figure => { take_figure($heading, $body, $row) $($end)* }
            Tag::Do => { take_instruction($heading, $body, $row) $($end)* }
            Tag::End => { take_end($heading, $body, $row) $($end)* }
            $($early)*
        }
    };
}

/// Adds what a row says, or answers the first cause that applies to it.
#[tactic(auto)]
pub(crate) fn take_row(draft: &mut Draft, row: &ByteRecord) -> Result<(), RowError>
    requires { IsDraft (draft_of draft.old) }
    ensures { TakesRow (draft_of draft.new) result (next_draft (draft_of draft.old) (fields_of row.now)) }
{
    if draft.body.last == Some(Tag::End) {
        return Err(RowError::Fault(Cause::End));
    }
    take_tagged!(
        read_tag(draft.heading.scope().version, draft.body.last, field_at(row, 0))?,
        &draft.heading,
        &mut draft.body,
        row,
        [] {
        Tag::Format => take_format(&mut draft.heading, &mut draft.body, row),
        Tag::Day => take_day(&mut draft.heading, &mut draft.body, row),
        Tag::Period => take_period(&mut draft.heading, &mut draft.body, row),
        Tag::Current => take_current(&mut draft.heading, &mut draft.body, row),
        Tag::Lags => take_lags(&mut draft.heading, &mut draft.body, row),
        Tag::Surrender => take_surrender(&mut draft.heading, &mut draft.body, row),
        Tag::Admin => take_admin(&mut draft.heading, &mut draft.body, row),
        Tag::Work => take_work(&mut draft.heading, &mut draft.body, row),
        }
    )
}

/// Adds what a row says that stands behind a heading. If it is a row of the heading itself, it is not taken.
#[tactic(auto)]
pub(crate) fn take_row_behind(
    heading: &Heading,
    body: &mut Body,
    row: &ByteRecord,
) -> Result<(), RowError>
    requires { IsDraft (read_behind heading.now body.old) }
    ensures { OnOk result (next_draft (read_behind heading.now body.old) (fields_of row.now)
        ≡ Ok (read_behind heading.now body.new)) }
{
    if body.last == Some(Tag::End) {
        return Err(RowError::Fault(Cause::End));
    }
    take_tagged!(
        read_tag(heading.scope().version, body.last, field_at(row, 0))?,
        heading,
        body,
        row,
        [?; Ok(())] { _ => Err(RowError::Fault(Cause::Tag)), }
    )
}
