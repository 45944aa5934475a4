//! Writing the rows of an account's lists.

ghost use Rattle.std.specs.Prelude.{◌≡◌, ◌+◌, ◌≤◌, length};
ghost use Rattle.reg_account.specs.declared.rows.Fate.TheVariants as fate;
ghost use Rattle.reg_text.specs.declared.reading.tag.Tag.TheVariants as tag;
ghost use Rattle.reg_text.specs.declared.writing.row.TheConstants.{ROOM, MOST_FIELD};
ghost use Rattle.reg_text.specs.Plain.{with_commas};
ghost use Rattle.reg_text.specs.Scopes.{widest};
ghost use Rattle.reg_text.specs.Grammar.{period_said, retired_period};

use crate::fields::words::Word;
use crate::reading::tag::Tag;
use crate::writing::row::RowText;
use crate::writing::rows::Tagged;
use reg_account::{
    Correction, Emission, Fate, Figure, Representative, RetirementRow, TrustedEntry,
};

impl Tagged for Correction {
    ghost tag = { tag.Correction };

    ghost said = { λ correction. correction };

    fn tag_word() -> &'static [u8] {
        Tag::Correction.word()
    }

    fn put_fields(&self, row: &mut RowText) {
        row.signed(self.factor);
        row.number(self.period.into());
    }
}

impl Tagged for Representative {
    ghost tag = { tag.User };

    ghost said = { λ representative. representative };

    fn tag_word() -> &'static [u8] {
        Tag::User.word()
    }

    fn put_fields(&self, row: &mut RowText) {
        row.word(self.right.word());
        row.number(self.user.get().into());
    }
}

impl Tagged for TrustedEntry {
    ghost tag = { tag.Trusted };

    ghost said = { λ entry. entry };

    fn tag_word() -> &'static [u8] {
        Tag::Trusted.word()
    }

    fn put_fields(&self, row: &mut RowText) {
        row.date(self.effective);
        row.number(self.account.get().into());
    }
}

// The period, unless it is the first, which no row names.
fn named_period(period: u8) -> Option<u8>
    ensures { result ≡ period_said (fate.Surrendered period) }
{
    if period == 1 { None } else { Some(period) }
}

// The period that the row of a surrender or a deletion names.
fn period_said(fate: Fate) -> Option<u8>
    ensures { result ≡ period_said fate }
{
    match fate {
        Fate::Surrendered { period } => named_period(period),
        Fate::Deleted => None,
    }
}

// Adds the period that the row of a surrender or a deletion names, if it names one.
fn put_period(row: &mut RowText, fate: Fate)
    requires { length row.old + MOST_FIELD ≤ ROOM }
    ensures text { row.new ≡ with_commas ((retired_period widest).spell (period_said fate)) row.old }
    ensures short { length row.new ≤ length row.old + MOST_FIELD }
{
    if let Some(period) = period_said(fate) {
        row.number(period.into());
    }
}

impl Tagged for RetirementRow {
    ghost tag = { tag.Retired };

    ghost said = { λ row. row };

    fn tag_word() -> &'static [u8] {
        Tag::Retired.word()
    }

    fn put_fields(&self, row: &mut RowText) {
        put_period(row, self.fate);
        row.word(self.reversed.word());
        row.date(self.day);
        row.number(self.amount);
        row.word(self.kind.word());
        row.word(self.fate.retirement().word());
        row.number(self.number.get());
    }
}

impl Tagged for Emission {
    ghost tag = { tag.Emissions };

    ghost said = { λ emission. emission };

    fn tag_word() -> &'static [u8] {
        Tag::Emissions.word()
    }

    fn put_fields(&self, row: &mut RowText) {
        row.number(self.tonnes);
        row.number(self.year.get().into());
    }
}

impl Tagged for Figure {
    ghost tag = { tag.Figure };

    ghost said = { λ figure. figure };

    fn tag_word() -> &'static [u8] {
        Tag::Figure.word()
    }

    fn put_fields(&self, row: &mut RowText) {
        row.signed(self.tonnes);
        row.number(self.year.get().into());
    }
}
