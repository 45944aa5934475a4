//! The pieces of a report, whose bytes one after another are its text. The rows of the log and of the accounts are
//! spelled run by run, by several threads.

ghost use Rattle.std.specs.Prelude.{◌≡◌, ◌<◌, ◌≤◌, ◌+◌, ◌/◌, ◌%◌, ◌++◌, ◌∷◌, [], codes, min, IfOk, OnOk, vec_len};
ghost use Rattle.std.specs.Prelude.{All, length};
ghost use Rattle.std.specs.List.{flat_map};
ghost use Rattle.csv.specs.Writing.{default_writer, row_text};
ghost use Rattle.reg_base.specs.Chunks.{MadeOfChunks, UnlessOut};
ghost use Rattle.reg_base.specs.declared.limits.TheConstants.{MOST_ACCOUNTS};
ghost use Rattle.reg_account.specs.Account.{IsAccount};
ghost use Rattle.reg_book.specs.Day.{rows_replied};
ghost use Rattle.reg_book.specs.Totals.{totals_of};
ghost use Rattle.reg_text.specs.Numbers.{number};
ghost use Rattle.reg_text.specs.Sections.{account_block};
ghost use Rattle.reg_text.specs.Report.{text_of, log_rows};
ghost use Rattle.reg_text.specs.Totals.{rows_of_totals};
ghost use Rattle.reg_text.specs.Pieces.{text_of_pieces, IsLogOf, AreBlocksOf};

use crate::rooms::{room_for_accounts, room_for_log};
use crate::spare::Spare;
use crate::writing::entries::put_log_after;
use crate::writing::report::{put_next, put_totals};
use crate::writing::row::RowText;
use crate::writing::rows::put_each;
use crate::writing::text::Text;
use reg_account::Account;
use reg_base::{Batch, NoMemory};
use reg_book::{BothTotals, add_up};
use reg_rules::Reply;
use std::alloc::{AllocError, Global};
use std::thread;
use std::thread::Threads;

/// What was spelled of accounts.
#[derive(Drop)]
pub(crate) struct Blocks {
    /// Their blocks.
    pub text: Vec<u8>,
    /// Their totals.
    pub totals: BothTotals,
}

// The text of the log rows of instructions with these replies. The first of them has this index, counted from 0.
fn spell_log(
    alloc: Global,
    batch: &Batch,
    first: usize,
    replies: &[Reply],
) -> Result<Vec<u8>, NoMemory>
    ensures { IfOk result (IsLogOf batch.now first replies.now) }
{
    let mut text = Text::with_room(alloc, room_for_log(replies));
    let mut row = RowText::new();
    put_log_after(&mut text, &mut row, batch, first, replies)?;
    Ok(text.into_bytes())
}

// Spells the log rows of each run of so many replies, each in a thread of its own where one can be started.
fn spell_logs<R: Threads + Sync>(
    rt: &R,
    alloc: Global,
    batch: &Batch,
    replies: &[Reply],
    size: usize,
) -> Result<Vec<Result<Vec<u8>, NoMemory>>, AllocError>
    requires { 0 < size }
    ensures len { IfOk result (λ runs. vec_len runs ≡ length replies.now / size + min 1 (length replies.now % size)) }
    ensures each { IfOk result (λ runs. MadeOfChunks (UnlessOut (IsLogOf batch.now)) replies.now size runs.items) }
{
    thread::map_chunks(
        rt,
        alloc,
        replies,
        size,
        &|first, run| { spell_log(alloc, batch, first, run) },
    )
}

// The blocks of accounts in the place of these bytes, and their totals.
fn spell_blocks(bytes: Vec<u8>, accounts: &[Account]) -> Result<Blocks, NoMemory>
    ensures { IfOk result (AreBlocksOf 0 accounts.now) }
{
    let mut text = Text::over(bytes, room_for_accounts(accounts));
    let mut row = RowText::new();
    put_each(&mut text, &mut row, accounts)?;
    Ok(Blocks {
        text: text.into_bytes(),
        totals: add_up(accounts),
    })
}

// Spells the blocks of each run of so many accounts, each in a thread of its own where one can be started, in memory
// that is spare if there is some.
fn spell_all_blocks<R: Threads + Sync>(
    rt: &R,
    alloc: Global,
    spare: &Spare,
    accounts: &[Account],
    size: usize,
) -> Result<Vec<Result<Blocks, NoMemory>>, AllocError>
    requires { 0 < size }
    ensures len { IfOk result (λ runs. vec_len runs ≡ length accounts.now / size + min 1 (length accounts.now % size)) }
    ensures each { IfOk result (λ runs. MadeOfChunks (UnlessOut AreBlocksOf) accounts.now size runs.items) }
{
    thread::map_chunks(
        rt,
        alloc,
        accounts,
        size,
        &|_, run| { spell_blocks(spare.take(alloc), run) },
    )
}

// How many values a run has, if so many values are to lie in at most so many runs.
fn run_size(count: usize, workers: usize) -> usize
    requires { 1 ≤ workers }
    ensures { 0 < result }
{
    (count / workers).saturating_add(1)
}

/// Adds the log of a batch with these replies, in at most so many pieces.
pub(crate) fn add_log<R: Threads + Sync>(
    rt: &R,
    alloc: Global,
    pieces: &mut Vec<Vec<u8>>,
    batch: &Batch,
    replies: &[Reply],
    workers: usize,
) -> Result<(), NoMemory>
    requires { 1 ≤ workers }
    ensures { OnOk result (text_of_pieces pieces.new.items
        ≡ text_of_pieces pieces.old.items ++ text_of (log_rows (rows_replied batch.now replies.now))) }
{
    let size = run_size(replies.len(), workers);
    for run in spell_logs(rt, alloc, batch, replies, size)? {
        pieces.push(run?)?;
    }
    Ok(())
}

/// Adds the blocks of accounts, in at most so many pieces, in spare memory if there is some. Answers their totals.
pub(crate) fn add_accounts<R: Threads + Sync>(
    rt: &R,
    alloc: Global,
    pieces: &mut Vec<Vec<u8>>,
    spare: &Spare,
    accounts: &[Account],
    workers: usize,
) -> Result<BothTotals, NoMemory>
    requires workers { 1 ≤ workers }
    requires fit { All IsAccount accounts.now }
    requires few { length accounts.now ≤ MOST_ACCOUNTS }
    ensures text { OnOk result (text_of_pieces pieces.new.items
        ≡ text_of_pieces pieces.old.items ++ text_of (flat_map account_block accounts.now)) }
    ensures totals { IfOk result (λ totals. totals ≡ totals_of accounts.now) }
{
    let size = run_size(accounts.len(), workers);
    let mut totals = BothTotals::none();
    for run in spell_all_blocks(rt, alloc, spare, accounts, size)? {
        let blocks = run?;
        totals = totals.plus(&blocks.totals);
        pieces.push(blocks.text)?;
    }
    Ok(totals)
}

/// The first row of a book with this next record number.
pub(crate) fn spell_head(alloc: Global, next: u64) -> Result<Vec<u8>, NoMemory>
    ensures { IfOk result (λ text. text.items ≡ row_text default_writer (codes "book" ∷ number next ∷ [])) }
{
    let mut text = Text::new(alloc);
    let mut row = RowText::new();
    put_next(&mut text, &mut row, next)?;
    Ok(text.into_bytes())
}

/// The totals, and the row `end`.
pub(crate) fn spell_tail(alloc: Global, totals: &BothTotals) -> Result<Vec<u8>, NoMemory>
    ensures { IfOk result (λ text. text.items ≡ text_of (rows_of_totals totals.now)) }
{
    let mut text = Text::new(alloc);
    let mut row = RowText::new();
    put_totals(&mut text, &mut row, totals)?;
    Ok(text.into_bytes())
}
