//! What is wanted in a field of a day text, in a sentence, and whether a field is it.

ghost use Rattle.std.specs.Prelude.{◌≡◌};
ghost use Rattle.registry_c.specs.Columns.{wanted_sentence};

use reg_base::{
    AccountKind, AllowanceKind, FIRST_YEAR, LAST_YEAR, MOST_CORRECTION, MOST_EMISSIONS,
    MOST_FIGURE, MOST_HELD, MOST_LAG, MOST_NUMBER, MOST_RECORD, MOST_RETIRED, Retirement, Right,
    Status,
};
use reg_text::{Cause, read_date};
use std::str;

/// What is wanted in a field.
#[derive(Clone, Copy, Debug, PartialEq, Eq)]
pub enum Wanted {
    /// A tag that may stand here.
    Tag,
    /// The version of the format.
    Version,
    /// A date.
    Date,
    /// The next record number.
    NextRecord,
    /// A year.
    Year,
    /// One of the periods of the text.
    Period,
    /// One of them after the first.
    LaterPeriod,
    /// A lag in working days.
    Lag,
    /// The kind of an account that may surrender.
    SurrenderingKind,
    /// A kind of allowances.
    AllowanceKind,
    /// The number of an account, a user or a holder.
    Number,
    /// A kind of accounts.
    AccountKind,
    /// A status.
    Status,
    /// Yes or no.
    YesOrNo,
    /// A correction factor.
    Factor,
    /// A correction factor of a period after the first.
    LaterFactor,
    /// A holding.
    Holding,
    /// The right of a representative.
    Right,
    /// A record number.
    Record,
    /// A surrender or a deletion.
    Retirement,
    /// How many allowances were surrendered or deleted.
    RetiredAmount,
    /// The emissions of a year.
    Tonnes,
    /// A determined figure.
    Figure,
    /// A user, or nothing.
    Approver,
    /// An act.
    Act,
    /// Any number.
    AnyNumber,
}

impl Wanted {
    /// What is wanted, in a sentence.
    pub(crate) fn sentence(self) -> &'static str
        ensures { result.now ≡ wanted_sentence self }
    {
        match self {
            Wanted::Tag => "A row with another tag is wanted.",
            Wanted::Version => "The version of the format is 1 or 2.",
            Wanted::Date => {
                "A date YYYY-MM-DD is wanted that the calendar has, from 2021-01-01 to 2100-12-31."
            }
            Wanted::NextRecord => {
                "A number is wanted, in plain digits, from 1 to 1000000000000001."
            }
            Wanted::Year => "A year is wanted, from 2021 to 2100.",
            Wanted::Period => "The number of a period of this text is wanted, from 1 on.",
            Wanted::LaterPeriod => {
                "The number of a later period of this text is wanted, from 2 on. A deletion has none."
            }
            Wanted::Lag => "A number of working days is wanted, in plain digits, from 0 to 1000.",
            Wanted::SurrenderingKind => "One of these words is wanted: operator, aircraft.",
            Wanted::AllowanceKind => "One of these words is wanted: general, aviation.",
            Wanted::Number => "A number is wanted, in plain digits, from 1 to 999999999.",
            Wanted::AccountKind => {
                "One of these words is wanted: total, allocation, operator, aircraft, trading."
            }
            Wanted::Status => "One of these words is wanted: open, blocked, excluded, closed.",
            Wanted::YesOrNo => "One of these words is wanted: yes, no.",
            Wanted::Factor => {
                "A number of tonnes is wanted, in plain digits, from -1000000000000000 to 1000000000000000."
            }
            Wanted::LaterFactor => {
                "A number of tonnes is wanted, not 0, from -1000000000000000 to 1000000000000000."
            }
            Wanted::Holding => {
                "A number of allowances is wanted, in plain digits, from 0 to 1000000000000000."
            }
            Wanted::Right => "One of these words is wanted: propose, approve, both.",
            Wanted::Record => {
                "A record number is wanted, in plain digits, from 1 to 1000000000000000, below the next."
            }
            Wanted::Retirement => "One of these words is wanted: surrender, deletion.",
            Wanted::RetiredAmount => {
                "A number of allowances is wanted, from 1 on, all together at most 1000000000000000."
            }
            Wanted::Tonnes => {
                "A number of tonnes is wanted, in plain digits, from 0 to 1000000000000."
            }
            Wanted::Figure => {
                "A number of tonnes is wanted, in plain digits, from -4000000000000000 to 4000000000000000."
            }
            Wanted::Approver => {
                "Nothing is wanted, or a number in plain digits from 1 to 999999999."
            }
            Wanted::Act => "The word of an act is wanted, such as transfer.",
            Wanted::AnyNumber => {
                "A number is wanted, in plain digits, from 0 to 18446744073709551615."
            }
        }
    }

    // The lowest and the highest number, where a number without a sign is wanted. Of a period the highest is what the
    // text has.
    fn range(self, periods: u64) -> Option<(u64, u64)> {
        match self {
            Wanted::NextRecord => Some((1, MOST_RECORD + 1)),
            Wanted::Year => Some((u64::from(FIRST_YEAR), u64::from(LAST_YEAR))),
            Wanted::Period => Some((1, periods)),
            Wanted::LaterPeriod => Some((2, periods)),
            Wanted::Lag => Some((0, u64::from(MOST_LAG))),
            Wanted::Number | Wanted::Approver => Some((1, u64::from(MOST_NUMBER))),
            Wanted::Holding => Some((0, MOST_HELD)),
            Wanted::Record => Some((1, MOST_RECORD)),
            Wanted::RetiredAmount => Some((1, MOST_RETIRED)),
            Wanted::Tonnes => Some((0, MOST_EMISSIONS)),
            Wanted::AnyNumber => Some((0, u64::MAX)),
            _ => None,
        }
    }

    // The largest number with either sign, where a signed one is wanted.
    fn most_signed(self) -> Option<u64> {
        match self {
            Wanted::Factor | Wanted::LaterFactor => Some(MOST_CORRECTION as u64),
            Wanted::Figure => Some(MOST_FIGURE as u64),
            _ => None,
        }
    }

    // Whether a word is wanted, and the field is none of its list.
    fn lacks_word(self, field: &[u8]) -> bool {
        let Ok(word) = str::from_utf8(field) else {
            return self.is_word();
        };
        match self {
            Wanted::SurrenderingKind | Wanted::AccountKind => word.parse::<AccountKind>().is_err(),
            Wanted::AllowanceKind => word.parse::<AllowanceKind>().is_err(),
            Wanted::Status => word.parse::<Status>().is_err(),
            Wanted::Right => word.parse::<Right>().is_err(),
            Wanted::Retirement => word.parse::<Retirement>().is_err(),
            Wanted::YesOrNo => word != "yes" && word != "no",
            Wanted::Act => !crate::rows::is_act(word),
            _ => false,
        }
    }

    fn is_word(self) -> bool {
        matches!(
            self,
            Wanted::SurrenderingKind
                | Wanted::AccountKind
                | Wanted::AllowanceKind
                | Wanted::Status
                | Wanted::Right
                | Wanted::Retirement
                | Wanted::YesOrNo
                | Wanted::Act
        )
    }

    // Whether a number is wanted, and the field spells none.
    fn lacks_number(self, field: &[u8]) -> bool {
        if self == Wanted::Approver && field.is_empty() {
            return false;
        }
        if self.most_signed().is_some() {
            return signed_of(field).is_none();
        }
        self.range(0).is_some() && number_of(field).is_none()
    }

    // Whether the field spells what is wanted, and it is outside its limits.
    fn is_outside(self, field: &[u8], periods: u64) -> bool {
        if self == Wanted::Date {
            return read_date(field) == Err(Cause::Limit);
        }
        if let (Some(most), Some(number)) = (self.most_signed(), signed_of(field)) {
            return number > most || (number == 0 && self == Wanted::LaterFactor);
        }
        match (self.range(periods), number_of(field)) {
            (Some((low, high)), Some(number)) => number < low || high < number,
            _ => false,
        }
    }

    /// Whether a field has this cause, where so many periods stand in the text.
    pub(crate) fn is_faulty(self, cause: Cause, field: &[u8], periods: u64) -> bool {
        match cause {
            Cause::Version => self == Wanted::Version,
            Cause::Date => self == Wanted::Date && read_date(field) == Err(Cause::Date),
            Cause::Word => self.lacks_word(field),
            Cause::Number => self.lacks_number(field),
            Cause::Limit => self.is_outside(field, periods),
            Cause::End | Cause::Tag | Cause::Fields | Cause::Order => false,
        }
    }
}

/// The number that a field spells in its one spelling, if it is below 2^64.
pub(crate) fn number_of(field: &[u8]) -> Option<u64> {
    if field.is_empty() || (field.len() > 1 && field[0] == b'0') {
        return None;
    }
    let mut number: u64 = 0;
    for byte in field {
        if !byte.is_ascii_digit() {
            return None;
        }
        number = number
            .checked_mul(10)?
            .checked_add(u64::from(*byte - b'0'))?;
    }
    Some(number)
}

// The digits of a signed number that a field spells in its one spelling: a minus sign stands before no 0.
fn signed_of(field: &[u8]) -> Option<u64> {
    let Some((b'-', digits)) = field.split_first() else {
        return number_of(field);
    };
    match number_of(digits) {
        Some(number) if number > 0 => Some(number),
        _ => None,
    }
}
