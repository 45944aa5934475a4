//! The words and sentences that a caller can ask for, so that it needs no table of its own.

ghost use Rattle.std.specs.Prelude.{◌≡◌};
ghost use Rattle.reg_text.specs.CauseNames.{causes};
ghost use Rattle.registry_c.specs.Columns.{column_with, name_of_column, sentence_with};
ghost use Rattle.registry_c.specs.Names.{cause_with, check_with, sentence_of_check, word_of_cause, word_of_check};

use crate::answer::number_of;
use crate::causes::sentence_of_fault;
use crate::columns::column_with;
use reg_base::{CHECKS, Refusal};
use reg_text::Cause;

// The causes, in the order of their numbers.
const CAUSES: [Cause; 9] = [
    Cause::End,
    Cause::Tag,
    Cause::Fields,
    Cause::Number,
    Cause::Date,
    Cause::Word,
    Cause::Version,
    Cause::Limit,
    Cause::Order,
];

// The cause with this number, if there is one.
fn cause_with(number: u32) -> Option<Cause>
    ensures { result ≡ cause_with number }
{
    CAUSES
        .iter()
        .copied()
        .find(|cause| number_of(*cause) == number)
}

// The check with this code, if there is one.
fn check_with(code: u32) -> Option<Refusal>
    ensures { result ≡ check_with code }
{
    CHECKS
        .iter()
        .copied()
        .find(|check| u32::from(check.code()) == code)
}

/// The word of a cause, or nothing.
pub(crate) fn word_of_cause(number: u32) -> &'static str
    ensures { result.now ≡ word_of_cause (cause_with number) }
{
    match cause_with(number) {
        Some(cause) => cause.as_str(),
        None => "",
    }
}

/// The word of a check, or nothing.
pub(crate) fn word_of_check(code: u32) -> &'static str
    ensures { result.now ≡ word_of_check (check_with code) }
{
    match check_with(code) {
        Some(check) => check.as_str(),
        None => "",
    }
}

/// The sentence of a check, or nothing.
pub(crate) fn sentence_of_check(code: u32) -> &'static str
    ensures { result.now ≡ sentence_of_check (check_with code) }
{
    match check_with(code) {
        Some(check) => check.sentence(),
        None => "",
    }
}

/// The name of a column, or nothing.
pub(crate) fn name_of_column(number: u32) -> &'static str
    ensures { result.now ≡ name_of_column (column_with number) }
{
    match column_with(number) {
        Some(column) => column.name(),
        None => "",
    }
}

/// The sentence of a fault with this cause in this column, or nothing.
pub(crate) fn sentence_of(cause: u32, column: u32) -> &'static str
    ensures { result.now ≡ sentence_with (cause_with cause) (column_with column) }
{
    match cause_with(cause) {
        Some(cause) => sentence_of_fault(cause, column_with(column)),
        None => "",
    }
}
