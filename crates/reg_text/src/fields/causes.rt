//! The causes by their names.

use crate::cause::Cause;
use crate::fields::words::{Word, read_word};
use std::str::FromStr;

impl Word for Cause {
    ghost use Rattle.reg_text.specs.Causes.{cause_name};
    ghost use Rattle.reg_text.specs.CauseNames.{causes};

    ghost spelling = { cause_name };

    ghost values = { causes };

    fn word(self) -> &'static [u8] {
        self.name().as_bytes()
    }

    fn all() -> &'static [Cause] {
        &[
            Cause::End,
            Cause::Tag,
            Cause::Fields,
            Cause::Number,
            Cause::Date,
            Cause::Word,
            Cause::Version,
            Cause::Limit,
            Cause::Order,
        ]
    }
}

/// The cause that has this name. A text that is no name of a cause is a wrong word, so that the error is `Cause::Word`.
impl FromStr for Cause {
    type Err = Cause;

    ghost use Rattle.std.specs.Prelude.{◌≡◌};
    ghost use Rattle.reg_text.specs.CauseNames.{cause_of};

    ghost from_str_gives = { λ name r. r ≡ cause_of name };

    fn from_str(name: &str) -> Result<Cause, Cause> {
        read_word(name.as_bytes())
    }
}
