//! Numbers as the texts spell them: decimal digits, without a sign and without superfluous leading zeros.

ghost use Rattle.std.specs.Fmt.{styled_decimal};
ghost use Rattle.std.specs.Prelude.{◌≡◌, ◌^◌, true, None, Some, cond, decimal, nat_lt};
ghost use Rattle.std.specs.Str.{all_ascii_digits};
ghost use Rattle.reg_base.specs.Digits.{ReadsNumber, is_number, spelled_number, number_read, starts_well};

use crate::limits::{FIRST_YEAR, LAST_YEAR, MOST_NUMBER, MOST_RECORD};
use crate::numbers::{AccountNo, HolderNo, RecordNo, UserNo, Year};
use std::fmt;
use std::str::FromStr;
use thiserror::Error;

/// Why a text is no number of the type that was asked for.
#[derive(Clone, Copy, Debug, PartialEq, Eq, Error)]
pub enum NumberFault {
    /// It is empty, or has something else than decimal digits, or begins with a 0 and goes on.
    #[error("not a number")]
    NotANumber,
    /// It is a number below the lowest or above the highest of the type.
    #[error("number out of range")]
    OutOfRange,
}

// Whether the text is not empty, and does not begin with a 0 and go on.
fn starts_well(text: &[u8]) -> bool
    ensures { result ≡ starts_well text.now }
{
    match text {
        [] => false,
        [_] => true,
        [first, ..] => *first != b'0',
    }
}

// Whether the text has nothing but decimal digits.
fn has_digits_alone(text: &[u8]) -> bool
    ensures { result ≡ all_ascii_digits text.now }
{
    for byte in text {
        if !byte.is_ascii_digit() {
            return false;
        }
    }
    true
}

// The number that the text spells, if it has 64 bits at most.
fn parsed(text: &str) -> Option<u64>
    requires { is_number text.now ≡ true }
    ensures { result ≡ cond (nat_lt (spelled_number text.now) (2 ^ 64)) (Some (spelled_number text.now)) None }
{
    text.parse::<u64>().ok()
}

// The number that the text spells, if it is within these limits.
#[tactic(auto, using(crate::proofs::Spelled::too_large))]
fn read_number(text: &str, lowest: u64, highest: u64) -> Result<u64, NumberFault>
    ensures { result ≡ number_read lowest highest text.now }
{
    if !starts_well(text.as_bytes()) || !has_digits_alone(text.as_bytes()) {
        return Err(NumberFault::NotANumber);
    }
    match parsed(text) {
        Some(number) if lowest <= number && number <= highest => Ok(number),
        _ => Err(NumberFault::OutOfRange),
    }
}

impl fmt::Display for AccountNo {
    ghost output = { λ number. Some (decimal number) };

    ghost styled_output = { λ number options. Some (styled_decimal options number) };

    fn fmt<W: fmt::Write>(&self, f: &mut fmt::Formatter<W>) -> fmt::Result {
        fmt::Display::fmt(&self.get(), f)
    }
}

/// Reads the digits that `Display` writes, 1 to [`MOST_NUMBER`]. Any other text is a [`NumberFault`].
impl FromStr for AccountNo {
    type Err = NumberFault;

    ghost use Rattle.reg_base.specs.declared.limits.TheConstants.{MOST_NUMBER};

    ghost from_str_gives = { ReadsNumber 1 MOST_NUMBER };

    #[tactic(auto, using(crate::proofs::Spelled::reads))]
    fn from_str(text: &str) -> Result<AccountNo, NumberFault> {
        let number = read_number(text, 1, u64::from(MOST_NUMBER))?;
        AccountNo::new(number as u32).ok_or(NumberFault::OutOfRange)
    }
}

impl fmt::Display for UserNo {
    ghost output = { λ number. Some (decimal number) };

    ghost styled_output = { λ number options. Some (styled_decimal options number) };

    fn fmt<W: fmt::Write>(&self, f: &mut fmt::Formatter<W>) -> fmt::Result {
        fmt::Display::fmt(&self.get(), f)
    }
}

/// Reads the digits that `Display` writes, 1 to [`MOST_NUMBER`]. Any other text is a [`NumberFault`].
impl FromStr for UserNo {
    type Err = NumberFault;

    ghost use Rattle.reg_base.specs.declared.limits.TheConstants.{MOST_NUMBER};

    ghost from_str_gives = { ReadsNumber 1 MOST_NUMBER };

    #[tactic(auto, using(crate::proofs::Spelled::reads))]
    fn from_str(text: &str) -> Result<UserNo, NumberFault> {
        let number = read_number(text, 1, u64::from(MOST_NUMBER))?;
        UserNo::new(number as u32).ok_or(NumberFault::OutOfRange)
    }
}

impl fmt::Display for HolderNo {
    ghost output = { λ number. Some (decimal number) };

    ghost styled_output = { λ number options. Some (styled_decimal options number) };

    fn fmt<W: fmt::Write>(&self, f: &mut fmt::Formatter<W>) -> fmt::Result {
        fmt::Display::fmt(&self.get(), f)
    }
}

/// Reads the digits that `Display` writes, 1 to [`MOST_NUMBER`]. Any other text is a [`NumberFault`].
impl FromStr for HolderNo {
    type Err = NumberFault;

    ghost use Rattle.reg_base.specs.declared.limits.TheConstants.{MOST_NUMBER};

    ghost from_str_gives = { ReadsNumber 1 MOST_NUMBER };

    #[tactic(auto, using(crate::proofs::Spelled::reads))]
    fn from_str(text: &str) -> Result<HolderNo, NumberFault> {
        let number = read_number(text, 1, u64::from(MOST_NUMBER))?;
        HolderNo::new(number as u32).ok_or(NumberFault::OutOfRange)
    }
}

impl fmt::Display for RecordNo {
    ghost output = { λ number. Some (decimal number) };

    ghost styled_output = { λ number options. Some (styled_decimal options number) };

    fn fmt<W: fmt::Write>(&self, f: &mut fmt::Formatter<W>) -> fmt::Result {
        fmt::Display::fmt(&self.get(), f)
    }
}

/// Reads the digits that `Display` writes, 1 to [`MOST_RECORD`]. Any other text is a [`NumberFault`].
impl FromStr for RecordNo {
    type Err = NumberFault;

    ghost use Rattle.reg_base.specs.declared.limits.TheConstants.{MOST_RECORD};

    ghost from_str_gives = { ReadsNumber 1 MOST_RECORD };

    #[tactic(auto, using(crate::proofs::Spelled::reads))]
    fn from_str(text: &str) -> Result<RecordNo, NumberFault> {
        let number = read_number(text, 1, MOST_RECORD)?;
        RecordNo::new(number).ok_or(NumberFault::OutOfRange)
    }
}

impl fmt::Display for Year {
    ghost output = { λ number. Some (decimal number) };

    ghost styled_output = { λ number options. Some (styled_decimal options number) };

    fn fmt<W: fmt::Write>(&self, f: &mut fmt::Formatter<W>) -> fmt::Result {
        fmt::Display::fmt(&self.get(), f)
    }
}

/// Reads the digits that `Display` writes, [`FIRST_YEAR`] to [`LAST_YEAR`]. Any other text is a [`NumberFault`].
impl FromStr for Year {
    type Err = NumberFault;

    ghost use Rattle.reg_base.specs.declared.limits.TheConstants.{FIRST_YEAR, LAST_YEAR};

    ghost from_str_gives = { ReadsNumber FIRST_YEAR LAST_YEAR };

    #[tactic(auto, using(crate::proofs::Spelled::reads))]
    fn from_str(text: &str) -> Result<Year, NumberFault> {
        let number = read_number(text, u64::from(FIRST_YEAR), u64::from(LAST_YEAR))?;
        Year::new(number as u16).ok_or(NumberFault::OutOfRange)
    }
}
