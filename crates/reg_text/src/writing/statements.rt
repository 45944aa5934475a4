//! Writing the statement of an account.

ghost use Rattle.std.specs.Prelude.{◌≡◌, ◌≤◌, ℕ, [], ◌∷◌, ◌++◌, true, find, option_map, ◌==◌, if◌then◌else◌, IfOk};
ghost use Rattle.std.specs.Prelude.{OnOk, MatchResult, length};
ghost use Rattle.csv.specs.Writing.{default_writer, row_text};
ghost use Rattle.reg_rules.specs.State.{account};
ghost use Rattle.reg_rules.specs.Step.{held_now};
ghost use Rattle.reg_text.specs.declared.writing.row.TheConstants.{MOST_FIELD};
ghost use Rattle.reg_text.specs.Plain.{IsPlain};
ghost use Rattle.reg_text.specs.Log.{holding_fields};
ghost use Rattle.reg_text.specs.Report.{text_of, log_rows};
ghost use Rattle.reg_text.specs.Statement.{concerns, rows_about, told_by, last_told, statement_rows, statement_of};
ghost use Rattle.reg_text.specs.Statement.{has_account, statements_of, lent_rows, noted_at, IsStatementFault};

use crate::writing::log::put_log_row;
use crate::writing::report::put_end;
use crate::writing::row::RowText;
use crate::writing::rows::put_numbers;
use crate::writing::text::Text;
use reg_base::laws::each_footprint_is_sound;
use reg_base::{AccountNo, AllowanceKind, Directory, NoMemory};
use reg_book::Book;
use reg_rules::{HeldNow, LogRow, Reply};
use std::alloc::Global;
use std::collections::BTreeMap;
use thiserror::Error;

/// Why there is no statement.
#[derive(Clone, Copy, Debug, PartialEq, Eq, Error)]
pub enum StatementFault {
    /// The account is not in the book.
    #[error("no such account")]
    UnknownAccount,
    /// Memory ran out.
    #[error("out of memory")]
    NoMemory,
}

// The log rows about accounts, in order, by the numbers of these.
type NotedRows<'rows> = BTreeMap<u32, Vec<&'rows LogRow>>;

// What the account holds, if it is in the book.
fn find_held_in(book: &Book, number: AccountNo) -> Option<HeldNow>
    ensures { result ≡ option_map (λ v. held_now book.now.accounts number) (account book.now.accounts number) }
{
    let account = book.get(number)?;
    Some(HeldNow {
        account: number,
        general: account.held(AllowanceKind::General),
        aviation: account.held(AllowanceKind::Aviation),
    })
}

// Whether the account is in the footprint of the row's instruction.
fn concerns(directory: &Directory, number: AccountNo, row: &LogRow) -> bool
    ensures { result ≡ concerns directory.now number row.now }
{
    let touched = row.instruction.touches(directory);
    touched.as_slice().iter().any(|known| *known == number)
}

// What a list of holdings says of the account.
fn find_held(closing: &[HeldNow], number: AccountNo) -> Option<HeldNow>
    ensures { result ≡ find (λ held. held.account == number) closing.now }
{
    closing.iter().copied().find(|held| held.account == number)
}

// What the account holds after a row, if the row's reply says it.
fn told_by(number: AccountNo, row: &LogRow) -> Option<HeldNow>
    ensures { result ≡ told_by number row.now }
{
    match &row.reply {
        Reply::Done { closing, .. } => find_held(closing.as_slice(), number),
        Reply::Refused(_) => None,
    }
}

// Adds the row with this tag of an account and what it holds.
fn put_held(text: &mut Text, row: &mut RowText, tag: &[u8], held: &HeldNow) -> Result<(), NoMemory>
    requires plain { IsPlain tag.now }
    requires short { length tag.now ≤ MOST_FIELD }
    ensures { OnOk result (text.new ≡ text.old ++ row_text default_writer (tag.now ∷ holding_fields held.now)) }
{
    let numbers = [held.account.get().into(), held.general, held.aviation];
    put_numbers(text, row, tag, &numbers)
}

// Adds log rows. Answers what the last of them that tells of the account says.
#[tactic(auto, using(crate::proofs::TextFacts::row_loop))]
fn put_rows_about(
    text: &mut Text,
    row: &mut RowText,
    number: AccountNo,
    about: &[&LogRow],
) -> Result<Option<HeldNow>, NoMemory>
    ensures text { OnOk result (text.new ≡ text.old ++ text_of (log_rows (lent_rows about.now))) }
    ensures told { IfOk result (λ told. told ≡ last_told number (lent_rows about.now)) }
{
    let mut told = None;
    for log in about {
        put_log_row(text, row, log)?;
        told = told_by(number, log).or(told);
    }
    Ok(told)
}

// Adds the statement of an account that held this before the day, with the log rows about it.
fn put_statement(
    text: &mut Text,
    row: &mut RowText,
    opening: &HeldNow,
    about: &[&LogRow],
) -> Result<(), NoMemory>
    ensures { OnOk result (text.new ≡ text.old ++ text_of (statement_rows opening.now (lent_rows about.now))) }
{
    put_held(text, row, b"opening", opening)?;
    let told = put_rows_about(text, row, opening.account, about)?;
    put_held(text, row, b"closing", &told.unwrap_or(*opening))?;
    put_end(text)
}

// The log rows in whose footprint the account is, in order.
fn rows_about<'rows>(
    alloc: Global,
    directory: &Directory,
    number: AccountNo,
    rows: &'rows [LogRow],
) -> Result<Vec<&'rows LogRow>, NoMemory>
    ensures { IfOk result (λ about. lent_rows about.items ≡ rows_about directory.now number rows.now) }
{
    let mut about = Vec::new(alloc);
    for log in rows {
        if concerns(directory, number, log) {
            about.push(log)?;
        }
    }
    Ok(about)
}

// The statement of an account that held this before the day.
fn make_statement(
    alloc: Global,
    directory: &Directory,
    opening: &HeldNow,
    rows: &[LogRow],
) -> Result<Vec<u8>, NoMemory>
    ensures { IfOk result
        (λ text. text.items
        ≡ text_of (statement_rows opening.now (rows_about directory.now opening.now.account rows.now))) }
{
    let about = rows_about(alloc, directory, opening.account, rows)?;
    let mut text = Text::new(alloc);
    let mut row = RowText::new();
    put_statement(&mut text, &mut row, opening, &about)?;
    Ok(text.into_bytes())
}

/// The statement of an account over a day: what it held before, the log rows in whose footprint it is, what it holds
/// after, and the row `end`. `book` is the book before the day, and `rows` are the day's log.
///
/// Holdings are in allowances. What the account holds after is told by the last of these rows that tells its holdings;
/// if none does, it is what the account held before.
///
/// # Errors
/// `UnknownAccount` if the account is not in the book. Otherwise `NoMemory` if memory ran out.
pub fn statement(
    alloc: Global,
    book: &Book,
    rows: &[LogRow],
    number: AccountNo,
) -> Result<Vec<u8>, StatementFault>
    ensures { MatchResult result
        (λ text. (has_account book.now number ≡ true) × (text.items ≡ text_of (statement_of book.now rows.now number)))
        (IsStatementFault book.now number) }
{
    let Some(opening) = find_held_in(book, number) else {
        return Err(StatementFault::UnknownAccount);
    };
    match make_statement(alloc, book.directory(), &opening, rows) {
        Ok(text) => Ok(text),
        Err(NoMemory) => Err(StatementFault::NoMemory),
    }
}

// Notes a log row at an account, behind those that are noted there.
fn note_row<'rows>(
    alloc: Global,
    noted: &mut NotedRows<'rows>,
    number: AccountNo,
    log: &'rows LogRow,
) -> Result<(), NoMemory>
    ensures { OnOk result ((a : ℕ) → noted_at noted.new a
        ≡ (if number == a then noted_at noted.old a ++ log.now ∷ [] else noted_at noted.old a)) }
{
    noted
        .entry(number.get())?
        .or_insert(Vec::new(alloc))
        .push(log)?;
    Ok(())
}

// Notes a log row at each account of its footprint.
fn note_touched<'rows>(
    alloc: Global,
    noted: &mut NotedRows<'rows>,
    directory: &Directory,
    log: &'rows LogRow,
) -> Result<(), NoMemory>
    ensures { OnOk result
        ((a : ℕ) → noted_at noted.new a ≡ noted_at noted.old a ++ rows_about directory.now a (log.now ∷ [])) }
{
    each_footprint_is_sound();
    let touched = log.instruction.touches(directory);
    let accounts = touched.as_slice();
    for number in accounts {
        note_row(alloc, noted, *number, log)?;
    }
    Ok(())
}

// The log rows about each account, by its number.
fn note_all<'rows>(
    alloc: Global,
    directory: &Directory,
    rows: &'rows [LogRow],
) -> Result<NotedRows<'rows>, NoMemory>
    ensures { IfOk result (λ noted. (a : ℕ) → noted_at noted a ≡ rows_about directory.now a rows.now) }
{
    let mut noted = BTreeMap::new(alloc);
    for log in rows {
        note_touched(alloc, &mut noted, directory, log)?;
    }
    Ok(noted)
}

// Adds the statement of an account of the book, with the log rows that are noted at it.
fn put_noted(
    text: &mut Text,
    row: &mut RowText,
    book: &Book,
    number: AccountNo,
    noted: &NotedRows<'_>,
) -> Result<(), NoMemory>
    requires { has_account book.now number ≡ true }
    ensures { OnOk result (text.new ≡ text.old
        ++ text_of (statement_rows (held_now book.now.accounts number) (noted_at noted.now number))) }
{
    let opening = find_held_in(book, number).unwrap();
    match noted.get(&number.get()) {
        Some(about) => put_statement(text, row, &opening, about.as_slice()),
        None => put_statement(text, row, &opening, &[]),
    }
}

/// The statements of all accounts over a day, in the order of the book, one behind another: each is what [`statement`]
/// answers, and ends with its row `end`. `book` is the book before the day, and `rows` are the day's log.
///
/// # Errors
/// `NoMemory` if memory ran out.
#[tactic(auto, using(crate::proofs::TextFacts::row_loop))]
pub fn all_statements(alloc: Global, book: &Book, rows: &[LogRow]) -> Result<Vec<u8>, NoMemory>
    ensures { IfOk result (λ text. text.items ≡ statements_of book.now rows.now) }
{
    let noted = note_all(alloc, book.directory(), rows)?;
    let mut text = Text::new(alloc);
    let mut row = RowText::new();
    let accounts = book.accounts();
    for account in accounts {
        put_noted(&mut text, &mut row, book, account.number(), &noted)?;
    }
    Ok(text.into_bytes())
}
