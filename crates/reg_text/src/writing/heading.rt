//! Writing the heading of a day text, and a day text up to its instructions.

ghost use Rattle.std.specs.Prelude.{◌≡◌, ◌++◌, IfOk, OnOk};
ghost use Rattle.csv.specs.Writing.{default_writer, row_text};
ghost use Rattle.reg_text.specs.declared.reading.tag.Tag.TheVariants as tag;
ghost use Rattle.reg_text.specs.NextText.{front_text, heading_text};
ghost use Rattle.reg_text.specs.ReadAgain.{accounts_text};
ghost use Rattle.reg_text.specs.Report.{text_of};
ghost use Rattle.reg_text.specs.Sections.{each_row};
ghost use Rattle.reg_text.specs.Spelling.{current_rows, lags_in};

use crate::fields::words::Word;
use crate::reading::heading_rows::Lags;
use crate::reading::scope::Version;
use crate::reading::tag::Tag;
use crate::writing::report::put_lists;
use crate::writing::row::RowText;
use crate::writing::rows::{Tagged, put_list, put_numbers, put_row};
use crate::writing::text::Text;
use reg_base::{AccountKind, AllowanceKind, Day, NoMemory, Rules, UserNo, Year};
use reg_book::Book;
use std::alloc::Global;

impl Tagged for Version {
    ghost tag = { tag.Format };

    ghost said = { λ version. version };

    fn tag_word() -> &'static [u8] {
        Tag::Format.word()
    }

    fn put_fields(&self, row: &mut RowText) {
        row.word(self.word());
    }
}

impl Tagged for (Day, u64) {
    ghost tag = { tag.Day };

    ghost said = { λ day. day };

    fn tag_word() -> &'static [u8] {
        Tag::Day.word()
    }

    fn put_fields(&self, row: &mut RowText) {
        row.number(self.1);
        row.date(self.0);
    }
}

impl Tagged for (Year, Year) {
    ghost tag = { tag.Period };

    ghost said = { λ period. period };

    fn tag_word() -> &'static [u8] {
        Tag::Period.word()
    }

    fn put_fields(&self, row: &mut RowText) {
        row.number(self.1.get().into());
        row.number(self.0.get().into());
    }
}

impl Tagged for Lags {
    ghost tag = { tag.Lags };

    ghost said = { λ lags. lags };

    fn tag_word() -> &'static [u8] {
        Tag::Lags.word()
    }

    fn put_fields(&self, row: &mut RowText) {
        row.number(self.reversal.into());
        row.number(self.list.into());
        row.number(self.other.into());
        row.number(self.trusted.into());
    }
}

impl Tagged for (AccountKind, AllowanceKind) {
    ghost tag = { tag.Surrender };

    ghost said = { λ pair. pair };

    fn tag_word() -> &'static [u8] {
        Tag::Surrender.word()
    }

    fn put_fields(&self, row: &mut RowText) {
        row.word(self.1.word());
        row.word(self.0.word());
    }
}

impl Tagged for UserNo {
    ghost tag = { tag.Admin };

    ghost said = { λ user. user };

    fn tag_word() -> &'static [u8] {
        Tag::Admin.word()
    }

    fn put_fields(&self, row: &mut RowText) {
        row.number(self.get().into());
    }
}

impl Tagged for Day {
    ghost tag = { tag.Work };

    ghost said = { λ day. day };

    fn tag_word() -> &'static [u8] {
        Tag::Work.word()
    }

    fn put_fields(&self, row: &mut RowText) {
        row.date(*self);
    }
}

// Adds the row of the current period, which the first version does not have.
fn put_current(
    text: &mut Text,
    row: &mut RowText,
    version: Version,
    current: u8,
) -> Result<(), NoMemory>
    ensures { OnOk result (text.new ≡ text.old ++ text_of (each_row tag.Current (current_rows version current))) }
{
    match version {
        Version::One => Ok(()),
        Version::Two => put_numbers(text, row, b"current", &[current.into()]),
    }
}

// The lags and the window of the rules.
fn lags_of(rules: &Rules) -> Lags
    ensures { result ≡ lags_in rules.now }
{
    Lags {
        trusted: rules.trusted_lag(),
        other: rules.other_lag(),
        list: rules.list_lag(),
        reversal: rules.reversal_window(),
    }
}

// Adds the heading of a day with this book.
fn put_heading(
    text: &mut Text,
    row: &mut RowText,
    version: Version,
    rules: &Rules,
    book: &Book,
    day: Day,
) -> Result<(), NoMemory>
    ensures { OnOk result (text.new ≡ text.old ++ heading_text version rules.now book.now day) }
{
    put_row(text, row, &version)?;
    put_row(text, row, &(day, book.next_record()))?;
    put_list(text, row, rules.periods())?;
    put_current(text, row, version, rules.current())?;
    put_row(text, row, &lags_of(rules))?;
    put_list(text, row, rules.surrender())?;
    put_list(text, row, rules.admins())?;
    put_list(text, row, rules.calendar().days())
}

/// The text of the settlement day `day` up to its instructions: its heading, and the accounts of its book. If version
/// and rules are those of a day text, and the book is the one that its day leaves, then this is a day text with the
/// rows of instructions and the row `end` behind it, by the law `each_next_text_is_read_on`. Nothing here tests this:
/// if the rules have several periods, version 1 makes no day text.
///
/// # Errors
/// `NoMemory` if memory ran out.
pub fn write_front(
    alloc: Global,
    version: Version,
    rules: &Rules,
    book: &Book,
    day: Day,
) -> Result<Vec<u8>, NoMemory>
    ensures { IfOk result (λ text. text.items ≡ front_text version rules.now book.now day) }
{
    let mut text = Text::new(alloc);
    let mut row = RowText::new();
    put_heading(&mut text, &mut row, version, rules, book, day)?;
    put_lists(&mut text, &mut row, book.lists())?;
    Ok(text.into_bytes())
}
