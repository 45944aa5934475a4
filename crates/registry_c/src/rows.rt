//! Which columns the rows of a day text have.

use crate::columns::Column;
use std::str;

const MOVE: [Column; 4] = [
    Column::From,
    Column::To,
    Column::AllowanceKind,
    Column::Amount,
];

const RETIREMENT: [Column; 3] = [Column::From, Column::AllowanceKind, Column::Amount];

const CREATION: [Column; 3] = [Column::To, Column::AllowanceKind, Column::Amount];

const REVERSAL: [Column; 2] = [Column::Account, Column::RecordNumber];

const DISTRIBUTION: [Column; 2] = [Column::From, Column::AllowanceKind];

const SHARE: [Column; 2] = [Column::To, Column::Amount];

const OTHER: [Column; 2] = [Column::Account, Column::OtherAccount];

const STATUS: [Column; 2] = [Column::Account, Column::Status];

const EMISSIONS: [Column; 3] = [Column::Account, Column::Year, Column::EnteredTonnes];

const ASSESSMENT: [Column; 2] = [Column::Account, Column::Year];

const PROPOSAL: [Column; 4] = [
    Column::Proposed,
    Column::Proposer,
    Column::Approver,
    Column::Act,
];

const ACCOUNT: [Column; 9] = [
    Column::AccountNumber,
    Column::AccountKind,
    Column::Holder,
    Column::Status,
    Column::Outside,
    Column::Waiver,
    Column::FirstFactor,
    Column::HeldGeneral,
    Column::HeldAviation,
];

const RETIRED: [Column; 7] = [
    Column::RecordNumber,
    Column::Retirement,
    Column::AllowanceKind,
    Column::RetiredAmount,
    Column::Date,
    Column::Reversed,
    Column::LaterPeriod,
];

const LAGS: [Column; 4] = [
    Column::TrustedLag,
    Column::OtherLag,
    Column::ListLag,
    Column::ReversalWindow,
];

// The columns behind the word of an act; of a distribution those before its shares.
fn columns_of_act(word: &str) -> Option<&'static [Column]> {
    match word {
        "transfer" | "return" | "central" => Some(&MOVE),
        "surrender" | "delete" => Some(&RETIREMENT),
        "create" => Some(&CREATION),
        "reverse" => Some(&REVERSAL),
        "distribute" => Some(&DISTRIBUTION),
        "trust" | "untrust" => Some(&OTHER),
        "status" => Some(&STATUS),
        "emissions" => Some(&EMISSIONS),
        "assess" => Some(&ASSESSMENT),
        _ => None,
    }
}

/// Whether a field is this word.
pub(crate) fn is_word(field: &[u8], word: &[u8]) -> bool {
    field == word
}

/// Whether a word is that of an act.
pub(crate) fn is_act(word: &str) -> bool {
    columns_of_act(word).is_some()
}

// The columns behind a tag; of an instruction those before its act's.
fn columns_of_tag(tag: &str) -> &'static [Column] {
    match tag {
        "format" => &[Column::Version],
        "day" => &[Column::Date, Column::NextRecord],
        "period" => &[Column::FirstYear, Column::LastYear],
        "current" => &[Column::CurrentPeriod],
        "lags" => &LAGS,
        "surrender" => &[Column::SurrenderingKind, Column::AllowanceKind],
        "admin" => &[Column::User],
        "work" => &[Column::Date],
        "account" => &ACCOUNT,
        "correction" => &[Column::LaterPeriod, Column::LaterFactor],
        "user" => &[Column::User, Column::Right],
        "trusted" => &[Column::AccountNumber, Column::Date],
        "retired" => &RETIRED,
        "emissions" => &[Column::Year, Column::Tonnes],
        "figure" => &[Column::Year, Column::Figure],
        "do" => &PROPOSAL,
        _ => &[],
    }
}

// The column of a field behind the word of an act, counted from 0.
fn column_of_act(word: &[u8], index: usize) -> Option<Column> {
    let word = str::from_utf8(word).ok()?;
    let own = columns_of_act(word)?;
    if index >= own.len() && word == "distribute" {
        return Some(SHARE[(index - own.len()) % 2]);
    }
    own.get(index).copied()
}

/// The column of a field in a row with this tag, and with this word behind the approver if it is that of an
/// instruction. Fields are counted from 0, and the tag is the first.
pub(crate) fn column_at(tag: &[u8], act: &[u8], index: usize) -> Option<Column> {
    if index == 0 {
        return Some(Column::Tag);
    }
    let own = columns_of_tag(str::from_utf8(tag).ok()?);
    if index > PROPOSAL.len() && is_word(tag, b"do") {
        return column_of_act(act, index - 1 - PROPOSAL.len());
    }
    own.get(index - 1).copied()
}
