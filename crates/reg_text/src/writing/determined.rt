//! Writing the text of the determined compliance figures of all accounts.

ghost use Rattle.std.specs.Prelude.{◌≡◌, ◌++◌, map, IfOk, OnOk};
ghost use Rattle.std.specs.List.{flat_map};
ghost use Rattle.csv.specs.Writing.{default_writer, row_text};
ghost use Rattle.reg_facts.specs.Lists.{joined_lists};
ghost use Rattle.reg_text.specs.Report.{text_of};
ghost use Rattle.reg_text.specs.Spelling.{end_row};
ghost use Rattle.reg_text.specs.Determined.{determined_row, determined_rows, figures_rows};

use crate::writing::report::put_end;
use crate::writing::row::RowText;
use crate::writing::rows::Tagged;
use crate::writing::text::Text;
use reg_account::{Account, Figure};
use reg_base::{AccountNo, NoMemory};
use reg_book::{Book, Parts};
use std::alloc::Global;

// Adds the row of a determined figure of an account.
fn put_determined(
    text: &mut Text,
    row: &mut RowText,
    account: AccountNo,
    figure: &Figure,
) -> Result<(), NoMemory>
    ensures { OnOk result (text.new ≡ text.old ++ row_text default_writer (determined_row account figure.now)) }
{
    row.begin();
    figure.put_fields(row);
    row.number(account.get().into());
    row.put(b"determined");
    text.append(row.as_slice())
}

// Adds the rows of determined figures of an account, in order.
#[tactic(auto, using(crate::proofs::TextFacts::row_loop))]
fn put_years(
    text: &mut Text,
    row: &mut RowText,
    account: AccountNo,
    figures: &[Figure],
) -> Result<(), NoMemory>
    ensures { OnOk result (text.new ≡ text.old ++ text_of (map (determined_row account) figures.now)) }
{
    for figure in figures {
        put_determined(text, row, account, figure)?;
    }
    Ok(())
}

// Adds the rows of the determined figures of accounts, in order.
#[tactic(auto, using(crate::proofs::TextFacts::row_loop))]
fn put_accounts(text: &mut Text, row: &mut RowText, accounts: &[Account]) -> Result<(), NoMemory>
    ensures { OnOk result (text.new ≡ text.old ++ text_of (flat_map determined_rows accounts.now)) }
{
    for account in accounts {
        put_years(text, row, account.number(), account.all_figures())?;
    }
    Ok(())
}

// Adds the rows of the determined figures of the accounts of lists, one list after another.
#[tactic(auto, using(crate::proofs::TextFacts::row_loop))]
fn put_lists(text: &mut Text, row: &mut RowText, lists: &[Vec<Account>]) -> Result<(), NoMemory>
    ensures { OnOk result (text.new ≡ text.old ++ text_of (flat_map determined_rows (joined_lists lists.now))) }
{
    for list in lists {
        put_accounts(text, row, list.as_slice())?;
    }
    Ok(())
}

// Adds the figures of the accounts of lists, and the row `end`.
fn put_figures(text: &mut Text, lists: &[Vec<Account>]) -> Result<(), NoMemory>
    ensures { OnOk result (text.new
        ≡ text.old ++ text_of (flat_map determined_rows (joined_lists lists.now)) ++ row_text default_writer end_row) }
{
    let mut row = RowText::new();
    put_lists(text, &mut row, lists)?;
    put_end(text)
}

/// The determined compliance figures of a book: for each account, by rising number, a row for each year with a
/// determined figure, by rising year, and the row `end`. An account without a determined figure has no row.
///
/// A figure is -4 x 10^15 to 4 x 10^15 tonnes of carbon dioxide equivalent, and negative if allowances are missing. It
/// stands here as it was last determined, whatever the account's kind and status are now.
///
/// # Errors
/// `NoMemory` if memory ran out.
pub fn figures(alloc: Global, book: &Book) -> Result<Vec<u8>, NoMemory>
    ensures { IfOk result (λ text. text.items ≡ text_of (figures_rows book.now)) }
{
    let mut text = Text::new(alloc);
    put_figures(&mut text, book.lists())?;
    Ok(text.into_bytes())
}

/// The same text of a book whose accounts lie in lists, in the place of bytes that are no longer needed, so that their
/// memory is used again.
///
/// # Errors
/// `NoMemory` if memory ran out.
pub fn figures_of_parts(bytes: Vec<u8>, parts: &Parts) -> Result<Vec<u8>, NoMemory>
    ensures { IfOk result (λ text. text.items ≡ text_of (figures_rows parts.now)) }
{
    let mut text = Text::over(bytes, 0);
    put_figures(&mut text, parts.lists())?;
    Ok(text.into_bytes())
}
