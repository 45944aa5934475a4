//! What is wrong with a row, in a sentence.

ghost use Rattle.std.specs.Prelude.{◌≡◌};
ghost use Rattle.registry_c.specs.Columns.{cause_sentence, field_sentence, order_sentence, sentence_of_fault};

use crate::columns::Column;
use reg_text::Cause;

// What is wrong with a row as a whole.
fn cause_sentence(cause: Cause) -> &'static str
    ensures { result.now ≡ cause_sentence cause }
{
    match cause {
        Cause::End => "The text ends before its row end, or a row stands behind it.",
        Cause::Tag => "The tag is unknown, or no row with it may stand here.",
        Cause::Fields => "The row has too few or too many fields.",
        Cause::Number => "A field is no number in plain digits.",
        Cause::Date => "A field is no date.",
        Cause::Word => "A field is none of the words that may stand there.",
        Cause::Version => "The version of the format is 1 or 2.",
        Cause::Limit => "There are more such rows than there may be, or no record number is left.",
        Cause::Order => {
            "The row does not come after the one before it: such rows rise, and stand once."
        }
    }
}

// What is wanted in a column, or what is wrong with the row as a whole.
fn field_sentence(cause: Cause, column: Option<Column>) -> &'static str
    ensures { result.now ≡ field_sentence cause column }
{
    match column {
        Some(column) => column.wanted().sentence(),
        None => cause_sentence(cause),
    }
}

// A period ends before it begins, or the rows of a list do not rise.
fn order_sentence(column: Option<Column>) -> &'static str
    ensures { result.now ≡ order_sentence column }
{
    match column {
        Some(Column::LastYear) => "A period may not end before it begins.",
        _ => cause_sentence(Cause::Order),
    }
}

/// The sentence of a fault with this cause in this column, if it is one's.
pub(crate) fn sentence_of_fault(cause: Cause, column: Option<Column>) -> &'static str
    ensures { result.now ≡ sentence_of_fault cause column }
{
    match cause {
        Cause::End | Cause::Tag | Cause::Fields | Cause::Version => cause_sentence(cause),
        Cause::Number | Cause::Date | Cause::Word | Cause::Limit => field_sentence(cause, column),
        Cause::Order => order_sentence(column),
    }
}
