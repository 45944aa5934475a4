//! Tags: the first field of each row, and which tag may follow which.

ghost use Rattle.std.specs.Prelude.{◌≡◌};
ghost use Rattle.reg_text.specs.declared.cause.Cause.TheVariants as cause;
ghost use Rattle.reg_text.specs.Words.{named};
ghost use Rattle.reg_text.specs.declared.reading.scope.Version.TheVariants.{One, Two};
ghost use Rattle.reg_text.specs.Grammar.{tag_word};
ghost use Rattle.reg_text.specs.Tags.{all_tags, tag_stage, stages, stage, may_follow, tag_after};

use crate::cause::Cause;
use crate::fields::words::{Word, is_word, read_named};
use crate::reading::scope::Version;

/// The kind of a row, which its first field names.
#[derive(Clone, Copy, Debug, PartialEq, Eq)]
pub enum Tag {
    /// The version of the format.
    Format,
    /// The settlement day, and the next record number.
    Day,
    /// The first and the last year of a period.
    Period,
    /// The current period.
    Current,
    /// The lags and the reversal window.
    Lags,
    /// A kind of accounts and a kind of allowances that may be surrendered from them.
    Surrender,
    /// An administrator.
    Admin,
    /// A working day.
    Work,
    /// An account.
    Account,
    /// The account's correction factor for a later period.
    Correction,
    /// A representative of the account.
    User,
    /// An entry of the account's trusted account list.
    Trusted,
    /// A surrender or a deletion of the account.
    Retired,
    /// The emissions of the account in a year.
    Emissions,
    /// The determined figure of the account for a year.
    Figure,
    /// An instruction.
    Do,
    /// The end of the text.
    End,
}

// The table of tags: of each its stage among the rows of a text, the lowest and the highest stage of the row before it
// in the first version and then in the second (101 and 0 if the version does not have the tag), and its word. `tags!`
// hands all tags to the macro that is named first, with what is named second: `tags!(words self)` is the word of
// `self`. Stages leave gaps for other tags. Those of an account's block are 80 to 89, and another block may begin
// behind each of its rows.
macro_rules! tags {
    ($make:ident $($of:tt)?) => {
        $make! { [$($of)?]
            Format 10 (0 0) (0 0) b"format",
            Day 20 (10 10) (10 10) b"day",
            Period 30 (20 20) (20 30) b"period",
            Current 35 (101 0) (30 30) b"current",
            Lags 40 (30 30) (35 35) b"lags",
            Surrender 50 (40 50) (40 50) b"surrender",
            Admin 60 (40 60) (40 60) b"admin",
            Work 70 (40 70) (40 70) b"work",
            Account 80 (40 89) (40 89) b"account",
            Correction 81 (101 0) (80 81) b"correction",
            User 82 (80 82) (80 82) b"user",
            Trusted 83 (80 83) (80 83) b"trusted",
            Retired 84 (80 84) (80 84) b"retired",
            Emissions 85 (80 85) (80 85) b"emissions",
            Figure 86 (80 86) (80 86) b"figure",
            Do 90 (40 90) (40 90) b"do",
            End 100 (40 90) (40 90) b"end",
        }
    };
}

macro_rules! words {
    ([$of:tt] $($tag:ident $stage:literal ($from:literal $to:literal)
    ($later_from:literal $later_to:literal) $word:literal,)*) => {
        match $of {
            $(Tag::$tag => $word,)*
        }
    };
}

macro_rules! list {
    ([] $($tag:ident $stage:literal ($from:literal $to:literal)
    ($later_from:literal $later_to:literal) $word:literal,)*) => {
        &[$(Tag::$tag),*]
    };
}

macro_rules! own_stages {
    ([$of:tt] $($tag:ident $stage:literal ($from:literal $to:literal)
    ($later_from:literal $later_to:literal) $word:literal,)*) => {
        match $of {
            $(Tag::$tag => $stage,)*
        }
    };
}

macro_rules! stages_in_first {
    ([$of:tt] $($tag:ident $stage:literal ($from:literal $to:literal)
    ($later_from:literal $later_to:literal) $word:literal,)*) => {
        match $of {
            $(Tag::$tag => Stages::new($stage, $from, $to),)*
        }
    };
}

macro_rules! stages_in_second {
    ([$of:tt] $($tag:ident $stage:literal ($from:literal $to:literal)
    ($later_from:literal $later_to:literal) $word:literal,)*) => {
        match $of {
            $(Tag::$tag => Stages::new($stage, $later_from, $later_to),)*
        }
    };
}

impl Word for Tag {
    ghost use Rattle.reg_text.specs.Grammar.{tag_word};
    ghost use Rattle.reg_text.specs.Tags.{all_tags};

    ghost spelling = { tag_word };

    ghost values = { all_tags };

    fn word(self) -> &'static [u8] {
        tags!(words self)
    }

    fn all() -> &'static [Tag] {
        tags!(list)
    }
}

/// Where a row with a tag is allowed.
#[derive(Clone, Copy, Debug, PartialEq, Eq)]
pub(crate) struct Stages {
    /// Its stage among the rows of a text.
    pub stage: u8,
    /// The lowest stage of the row before it.
    pub from: u8,
    /// The highest stage of the row before it.
    pub to: u8,
}

impl Stages {
    const fn new(stage: u8, from: u8, to: u8) -> Stages
        ensures { result ≡ record { stage = stage; from = from; to = to } }
    {
        Stages { stage, from, to }
    }
}

impl Tag {
    /// Where a row with the tag is allowed in a version.
    pub(crate) fn stages(self, version: Version) -> Stages
        ensures { result ≡ stages version self }
    {
        match version {
            Version::One => self.first_stages(),
            Version::Two => self.second_stages(),
        }
    }

    fn first_stages(self) -> Stages
        ensures { result ≡ stages One self }
    {
        tags!(stages_in_first self)
    }

    fn second_stages(self) -> Stages
        ensures { result ≡ stages Two self }
    {
        tags!(stages_in_second self)
    }

    fn stage(self) -> u8
        ensures { result ≡ tag_stage self }
    {
        tags!(own_stages self)
    }
}

// The stage before the first row, which is lower than that of each tag.
const BEFORE_ALL: u8 = 0;

// The stage of the last row.
fn stage_of(last: Option<Tag>) -> u8
    ensures { result ≡ stage last }
{
    match last {
        None => BEFORE_ALL,
        Some(tag) => tag.stage(),
    }
}

// The tag that a field with this first letter most likely names. Its word has to be compared.
fn likely_tag(field: &[u8]) -> Tag {
    match field.first().copied() {
        Some(b'a') => Tag::Account,
        Some(b'u') => Tag::User,
        Some(b't') => Tag::Trusted,
        Some(b'r') => Tag::Retired,
        Some(b'e') => Tag::Emissions,
        Some(b'f') => Tag::Figure,
        Some(b'w') => Tag::Work,
        Some(b'c') => Tag::Correction,
        _ => Tag::Do,
    }
}

// The tag that a field names. At most two words have the same first letter, so most fields are compared with one word.
#[inline(always)]
fn read_name(field: &[u8]) -> Result<Tag, Cause>
    ensures { result ≡ named cause.Tag tag_word all_tags field.now }
{
    let tag = likely_tag(field);
    if is_word(field, tag.word()) {
        return Ok(tag);
    }
    read_other_name(field)
}

// The tag that a field names, compared with each word. As a call of its own, it leaves the usual way short.
#[inline(never)]
fn read_other_name(field: &[u8]) -> Result<Tag, Cause>
    ensures { result ≡ named cause.Tag tag_word all_tags field.now }
{
    read_named(field, Cause::Tag)
}

/// Whether a row with this tag may stand behind the last row.
#[inline(always)]
pub(crate) fn may_follow(version: Version, last: Option<Tag>, tag: Tag) -> bool
    ensures { result ≡ may_follow version last tag }
{
    let stages = tag.stages(version);
    let at = stage_of(last);
    stages.from <= at && at <= stages.to
}

/// The tag that a field names, if it is allowed after the last row.
#[inline(always)]
pub(crate) fn read_tag(version: Version, last: Option<Tag>, field: &[u8]) -> Result<Tag, Cause>
    ensures { result ≡ tag_after version last field.now }
{
    let tag = read_name(field)?;
    if may_follow(version, last, tag) {
        Ok(tag)
    } else {
        Err(Cause::Tag)
    }
}
