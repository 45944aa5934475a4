//! The versions of the format, and what earlier rows of a text decide of later ones.

use crate::fields::words::Word;

/// A version of the format.
#[derive(Clone, Copy, Debug, PartialEq, Eq)]
pub enum Version {
    /// The first: a text has one period, which is the current one.
    One,
    /// The second: a text has one period to eight, and names the current one.
    Two,
}

/// What earlier rows decide of a row.
#[derive(Clone, Copy, Debug, PartialEq, Eq)]
pub(crate) struct Scope {
    /// The version of the text.
    pub version: Version,
    /// How many periods there are.
    pub periods: u8,
}

impl Word for Version {
    ghost use Rattle.reg_text.specs.Scopes.{version_word, versions};

    ghost spelling = { version_word };

    ghost values = { versions };

    fn word(self) -> &'static [u8] {
        match self {
            Version::One => b"1",
            Version::Two => b"2",
        }
    }

    fn all() -> &'static [Version] {
        &[Version::One, Version::Two]
    }
}
