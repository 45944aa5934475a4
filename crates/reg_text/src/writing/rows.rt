//! Values that a text has rows for, one value after another.

ghost use Rattle.std.specs.Prelude.{◌≡◌, ◌+◌, ◌*◌, ◌<◌, ◌≤◌, ◌++◌, [], ◌∷◌, List, OnOk, map, length};
ghost use Rattle.std.specs.List.{flat_map};
ghost use Rattle.reg_text.specs.TextRows.{TextRow};
ghost use Rattle.csv.specs.Writing.{default_writer, row_text as text_of_row};
ghost use Rattle.reg_text.specs.declared.reading.tag.Tag.{Tag};
ghost use Rattle.reg_text.specs.declared.writing.row.TheConstants.{MOST_FIELD};
ghost use Rattle.reg_text.specs.Plain.{IsPlain, with_commas};
ghost use Rattle.reg_text.specs.Numbers.{number};
ghost use Rattle.reg_text.specs.Scopes.{widest};
ghost use Rattle.reg_text.specs.Grammar.{Said, row as codec, row_text, tag_word};
ghost use Rattle.reg_text.specs.Report.{text_of};

use crate::writing::row::RowText;
use crate::writing::text::Text;
use reg_base::NoMemory;

/// A value that a text has rows for.
pub(crate) trait Rows {
    ghost rows: { Self → List TextRow };

    /// Adds the rows of the value.
    fn put(&self, text: &mut Text, row: &mut RowText) -> Result<(), NoMemory>
        ensures { OnOk result (text.new ≡ text.old ++ text_of (rows self.now)) };
}

/// Adds the rows of each value, in order.
#[tactic(auto, using(crate::proofs::TextFacts::row_loop))]
pub(crate) fn put_each<T: Rows>(
    text: &mut Text,
    row: &mut RowText,
    values: &[T],
) -> Result<(), NoMemory>
    ensures { OnOk result (text.new ≡ text.old ++ text_of (flat_map T.rows values.now)) }
{
    for value in values {
        value.put(text, row)?;
    }
    Ok(())
}

/// A value that a row with a tag says.
pub(crate) trait Tagged {
    ghost tag: { Tag };

    ghost said: { Self → Said tag };

    /// The word of the tag.
    fn tag_word() -> &'static [u8]
        ensures text { result.now ≡ tag_word tag }
        ensures short { length result.now ≤ MOST_FIELD };

    /// Adds the fields behind the tag.
    fn put_fields(&self, row: &mut RowText)
        requires { row.old ≡ 10 ∷ [] }
        ensures text { row.new ≡ with_commas ((codec widest tag).spell (said self.now)) row.old }
        ensures short { length row.new ≤ length row.old + 9 * MOST_FIELD };
}

/// Adds the row that says a value.
pub(crate) fn put_row<T: Tagged>(
    text: &mut Text,
    row: &mut RowText,
    value: &T,
) -> Result<(), NoMemory>
    ensures { OnOk result (text.new ≡ text.old ++ text_of_row default_writer (row_text T.tag (T.said value.now))) }
{
    row.begin();
    value.put_fields(row);
    row.put(T::tag_word());
    text.append(row.as_slice())
}

/// Adds the rows of a list: one for each value, in order.
#[tactic(auto, using(crate::proofs::TextFacts::row_loop))]
pub(crate) fn put_list<T: Tagged>(
    text: &mut Text,
    row: &mut RowText,
    values: &[T],
) -> Result<(), NoMemory>
    ensures { OnOk result
        (text.new ≡ text.old ++ text_of (flat_map (λ value. row_text T.tag (T.said value) ∷ []) values.now)) }
{
    for value in values {
        put_row(text, row, value)?;
    }
    Ok(())
}

/// Adds a row of a tag and numbers.
pub(crate) fn put_numbers(
    text: &mut Text,
    row: &mut RowText,
    tag: &[u8],
    numbers: &[u64],
) -> Result<(), NoMemory>
    requires plain { IsPlain tag.now }
    requires short { length tag.now ≤ MOST_FIELD }
    requires some { 0 < length numbers.now }
    requires few { length numbers.now ≤ 8 }
    ensures { OnOk result (text.new ≡ text.old ++ text_of_row default_writer (tag.now ∷ map number numbers.now)) }
{
    row.begin();
    row.numbers(numbers);
    row.put(tag);
    text.append(row.as_slice())
}
