//! The words of the texts for kinds, statuses, rights and acts.

ghost use Rattle.std.specs.Fmt.{styled_text};
ghost use Rattle.std.specs.Prelude.{◌≡◌, Some};
ghost use Rattle.reg_base.specs.Words.{ReadsWord, account_kind_name, name_of_act, allowance_kind_name, retirement_name};
ghost use Rattle.reg_base.specs.Words.{right_name, status_name};

use crate::act::Act;
use crate::kinds::{AccountKind, AllowanceKind, Retirement, Right, Status};
use std::fmt;
use std::str::FromStr;
use thiserror::Error;

/// A text that is no word of the type that was asked for.
#[derive(Clone, Copy, Debug, PartialEq, Eq, Error)]
#[error("unknown word")]
pub struct UnknownWord;

impl AllowanceKind {
    /// The word for it in the texts.
    pub fn as_str(self) -> &'static str
        ensures { result.now ≡ allowance_kind_name self }
    {
        match self {
            AllowanceKind::General => "general",
            AllowanceKind::Aviation => "aviation",
        }
    }
}

impl fmt::Display for AllowanceKind {
    ghost output = { λ value. Some (allowance_kind_name value) };

    ghost styled_output = { λ value options. Some (styled_text options (allowance_kind_name value)) };

    fn fmt<W: fmt::Write>(&self, f: &mut fmt::Formatter<W>) -> fmt::Result {
        f.pad(self.as_str())
    }
}

/// Reads the word that `as_str` gives. Any other text is [`UnknownWord`].
impl FromStr for AllowanceKind {
    type Err = UnknownWord;

    ghost from_str_gives = { ReadsWord allowance_kind_name };

    fn from_str(text: &str) -> Result<AllowanceKind, UnknownWord> {
        match text {
            "general" => Ok(AllowanceKind::General),
            "aviation" => Ok(AllowanceKind::Aviation),
            _ => Err(UnknownWord),
        }
    }
}

impl AccountKind {
    /// The word for it in the texts.
    pub fn as_str(self) -> &'static str
        ensures { result.now ≡ account_kind_name self }
    {
        match self {
            AccountKind::Total => "total",
            AccountKind::Allocation => "allocation",
            AccountKind::Operator => "operator",
            AccountKind::Aircraft => "aircraft",
            AccountKind::Trading => "trading",
        }
    }
}

impl fmt::Display for AccountKind {
    ghost output = { λ value. Some (account_kind_name value) };

    ghost styled_output = { λ value options. Some (styled_text options (account_kind_name value)) };

    fn fmt<W: fmt::Write>(&self, f: &mut fmt::Formatter<W>) -> fmt::Result {
        f.pad(self.as_str())
    }
}

/// Reads the word that `as_str` gives. Any other text is [`UnknownWord`].
impl FromStr for AccountKind {
    type Err = UnknownWord;

    ghost from_str_gives = { ReadsWord account_kind_name };

    fn from_str(text: &str) -> Result<AccountKind, UnknownWord> {
        match text {
            "total" => Ok(AccountKind::Total),
            "allocation" => Ok(AccountKind::Allocation),
            "operator" => Ok(AccountKind::Operator),
            "aircraft" => Ok(AccountKind::Aircraft),
            "trading" => Ok(AccountKind::Trading),
            _ => Err(UnknownWord),
        }
    }
}

impl Status {
    /// The word for it in the texts.
    pub fn as_str(self) -> &'static str
        ensures { result.now ≡ status_name self }
    {
        match self {
            Status::Opened => "open",
            Status::Blocked => "blocked",
            Status::Excluded => "excluded",
            Status::Closed => "closed",
        }
    }
}

impl fmt::Display for Status {
    ghost output = { λ value. Some (status_name value) };

    ghost styled_output = { λ value options. Some (styled_text options (status_name value)) };

    fn fmt<W: fmt::Write>(&self, f: &mut fmt::Formatter<W>) -> fmt::Result {
        f.pad(self.as_str())
    }
}

/// Reads the word that `as_str` gives. Any other text is [`UnknownWord`].
impl FromStr for Status {
    type Err = UnknownWord;

    ghost from_str_gives = { ReadsWord status_name };

    fn from_str(text: &str) -> Result<Status, UnknownWord> {
        match text {
            "open" => Ok(Status::Opened),
            "blocked" => Ok(Status::Blocked),
            "excluded" => Ok(Status::Excluded),
            "closed" => Ok(Status::Closed),
            _ => Err(UnknownWord),
        }
    }
}

impl Retirement {
    /// The word for it in the texts.
    pub fn as_str(self) -> &'static str
        ensures { result.now ≡ retirement_name self }
    {
        match self {
            Retirement::Surrendered => "surrender",
            Retirement::Deleted => "deletion",
        }
    }
}

impl fmt::Display for Retirement {
    ghost output = { λ value. Some (retirement_name value) };

    ghost styled_output = { λ value options. Some (styled_text options (retirement_name value)) };

    fn fmt<W: fmt::Write>(&self, f: &mut fmt::Formatter<W>) -> fmt::Result {
        f.pad(self.as_str())
    }
}

/// Reads the word that `as_str` gives. Any other text is [`UnknownWord`].
impl FromStr for Retirement {
    type Err = UnknownWord;

    ghost from_str_gives = { ReadsWord retirement_name };

    fn from_str(text: &str) -> Result<Retirement, UnknownWord> {
        match text {
            "surrender" => Ok(Retirement::Surrendered),
            "deletion" => Ok(Retirement::Deleted),
            _ => Err(UnknownWord),
        }
    }
}

impl Right {
    /// The word for it in the texts.
    pub fn as_str(self) -> &'static str
        ensures { result.now ≡ right_name self }
    {
        match self {
            Right::Propose => "propose",
            Right::Approve => "approve",
            Right::Both => "both",
        }
    }
}

impl fmt::Display for Right {
    ghost output = { λ value. Some (right_name value) };

    ghost styled_output = { λ value options. Some (styled_text options (right_name value)) };

    fn fmt<W: fmt::Write>(&self, f: &mut fmt::Formatter<W>) -> fmt::Result {
        f.pad(self.as_str())
    }
}

/// Reads the word that `as_str` gives. Any other text is [`UnknownWord`].
impl FromStr for Right {
    type Err = UnknownWord;

    ghost from_str_gives = { ReadsWord right_name };

    fn from_str(text: &str) -> Result<Right, UnknownWord> {
        match text {
            "propose" => Ok(Right::Propose),
            "approve" => Ok(Right::Approve),
            "both" => Ok(Right::Both),
            _ => Err(UnknownWord),
        }
    }
}

impl Act {
    /// The word for it in the texts.
    pub fn as_str(&self) -> &'static str
        ensures { result.now ≡ name_of_act self.now }
    {
        match self {
            Act::Transfer { .. } => "transfer",
            Act::Surrender { .. } => "surrender",
            Act::Delete { .. } => "delete",
            Act::ReturnExcess { .. } => "return",
            Act::Reverse { .. } => "reverse",
            Act::Create { .. } => "create",
            Act::CentralMove { .. } => "central",
            Act::Distribute { .. } => "distribute",
            Act::Trust { .. } => "trust",
            Act::Untrust { .. } => "untrust",
            Act::SetStatus { .. } => "status",
            Act::EnterEmissions { .. } => "emissions",
            Act::Assess { .. } => "assess",
        }
    }
}

/// The word of an act says nothing of its accounts and amounts, so no act can be read from it alone.
impl fmt::Display for Act {
    ghost output = { λ value. Some (name_of_act value) };

    ghost styled_output = { λ value options. Some (styled_text options (name_of_act value)) };

    fn fmt<W: fmt::Write>(&self, f: &mut fmt::Formatter<W>) -> fmt::Result {
        f.pad(self.as_str())
    }
}
