//! The text of a row, written from its last byte to its first into one array that serves for all rows, and then
//! appended to the whole text in one piece. No field written here needs quotes, so these are the same bytes that the
//! writer of `csv` would give. It would copy each field once more and look at each byte.

ghost use Rattle.std.specs.Prelude.{◌≡◌, ◌+◌, ◌*◌, ◌≤◌, ◌<◌, ◌∷◌, [], ◌++◌, map, length, pos, unsigned_abs, OnOk};
ghost use Rattle.reg_text.specs.Numbers.{number};
ghost use Rattle.reg_text.specs.Signed.{signed};
ghost use Rattle.reg_text.specs.Dates.{date};
ghost use Rattle.reg_text.specs.Plain.{with_commas};
ghost use Rattle.reg_text.specs.declared.writing.row.TheConstants.{ROOM, MOST_FIELD};

use crate::writing::dates::spell_date;
use itoa::{Buffer, write_digits};
use reg_base::Day;
use std::marker::Model;

/// The bytes of the array: enough for every row except what the touched accounts hold.
pub(crate) const ROOM: usize = 2_048;

/// The bytes of a field with its comma, at most.
pub(crate) const MOST_FIELD: usize = 64;

/// The end of a row, to whose beginning fields are added. A contract sees its bytes.
#[derive(Debug, Drop)]
pub(crate) struct RowText {
    bytes: [u8; ROOM],
    first: usize,
}

impl Model for RowText {
    ghost use Rattle.std.specs.Prelude.{ℕ, List, drop, ◌≤◌};
    ghost use Rattle.reg_text.specs.declared.writing.row.TheConstants.{ROOM};

    ghost Value = { List ℕ };

    ghost view = { λ r. drop r.first r.bytes };

    ghost invariant = { λ r. r.first ≤ ROOM };
}

impl RowText {
    /// An empty row.
    pub(crate) fn new() -> Self
        ensures { result ≡ [] }
    {
        RowText {
            bytes: [0; ROOM],
            first: ROOM,
        }
    }

    /// Makes the row empty.
    pub(crate) fn clear(&mut self)
        ensures { self.new ≡ [] }
    {
        self.first = ROOM;
    }

    /// Begins a row at its line feed.
    pub(crate) fn begin(&mut self)
        ensures { self.new ≡ 10 ∷ [] }
    {
        self.clear();
        self.byte(b'\n');
    }

    /// The bytes of the row.
    pub(crate) fn as_slice(&self) -> &[u8]
        ensures { result.now ≡ self.now }
    {
        &self.bytes[self.first..]
    }

    /// Adds bytes, with no comma.
    pub(crate) fn put(&mut self, bytes: &[u8])
        requires { length bytes.now + length self.old ≤ ROOM }
        ensures { self.new ≡ bytes.now ++ self.old }
    {
        let first = self.first - bytes.len();
        self.bytes[first..self.first].copy_from_slice(bytes);
        self.first = first;
    }

    // Adds one byte.
    fn byte(&mut self, byte: u8)
        requires { length self.old < ROOM }
        ensures { self.new ≡ byte ∷ self.old }
    {
        self.first -= 1;
        self.bytes[self.first] = byte;
    }

    // Adds the digits of a number.
    fn digits(&mut self, n: u64)
        requires { length self.old + 20 ≤ ROOM }
        ensures text { self.new ≡ number n ++ self.old }
        ensures short { length self.new ≤ length self.old + 20 }
    {
        self.first = write_digits(n, &mut self.bytes, self.first);
    }

    /// Adds a word.
    pub(crate) fn word(&mut self, word: &[u8])
        requires short { length word.now < MOST_FIELD }
        requires room { length self.old + MOST_FIELD ≤ ROOM }
        ensures text { self.new ≡ 44 ∷ word.now ++ self.old }
        ensures short { length self.new ≤ length self.old + MOST_FIELD }
    {
        self.put(word);
        self.byte(b',');
    }

    /// Adds a number.
    pub(crate) fn number(&mut self, n: u64)
        requires { length self.old + MOST_FIELD ≤ ROOM }
        ensures text { self.new ≡ 44 ∷ number n ++ self.old }
        ensures short { length self.new ≤ length self.old + MOST_FIELD }
    {
        self.digits(n);
        self.byte(b',');
    }

    /// Adds numbers.
    pub(crate) fn numbers(&mut self, numbers: &[u64])
        requires { length self.old + length numbers.now * MOST_FIELD ≤ ROOM }
        ensures text { self.new ≡ with_commas (map number numbers.now) self.old }
        ensures short { length self.new ≤ length self.old + length numbers.now * MOST_FIELD }
    {
        if let [first, rest @ ..] = numbers {
            self.numbers(rest);
            self.number(*first);
        }
    }

    /// Adds a number of at most 128 bits.
    pub(crate) fn large_number(&mut self, n: u128)
        requires { length self.old + MOST_FIELD ≤ ROOM }
        ensures text { self.new ≡ 44 ∷ number n ++ self.old }
        ensures short { length self.new ≤ length self.old + MOST_FIELD }
    {
        let mut digits = Buffer::new();
        self.word(digits.format(n).as_bytes());
    }

    /// Adds a signed number.
    pub(crate) fn signed(&mut self, n: i64)
        requires { length self.old + MOST_FIELD ≤ ROOM }
        ensures text { self.new ≡ 44 ∷ signed n ++ self.old }
        ensures short { length self.new ≤ length self.old + MOST_FIELD }
    {
        self.digits(n.unsigned_abs());
        if n < 0 {
            self.byte(b'-');
        }
        self.byte(b',');
    }

    /// Adds a date.
    pub(crate) fn date(&mut self, day: Day)
        requires { length self.old + MOST_FIELD ≤ ROOM }
        ensures text { self.new ≡ 44 ∷ date day ++ self.old }
        ensures short { length self.new ≤ length self.old + MOST_FIELD }
    {
        self.word(&spell_date(day));
    }
}
