//! The report of a day whose accounts lie in lists, in pieces. Threads spell runs of lists.

ghost use Rattle.std.specs.Prelude.{◌≡◌, ◌<◌, ◌≤◌, ◌+◌, ◌/◌, ◌%◌, ◌++◌, All, min, IfOk, OnOk, vec_len, length};
ghost use Rattle.std.specs.List.{flat_map};
ghost use Rattle.reg_base.specs.Chunks.{MadeOfChunks, UnlessOut};
ghost use Rattle.reg_base.specs.declared.limits.TheConstants.{MOST_ACCOUNTS};
ghost use Rattle.reg_account.specs.Account.{IsAccount};
ghost use Rattle.reg_book.specs.Day.{rows_replied};
ghost use Rattle.reg_facts.specs.Lists.{joined_lists};
ghost use Rattle.reg_book.specs.Totals.{totals_of};
ghost use Rattle.reg_text.specs.Sections.{account_block};
ghost use Rattle.reg_text.specs.Spelling.{book_rows};
ghost use Rattle.reg_text.specs.Report.{text_of, report_rows};
ghost use Rattle.reg_text.specs.Pieces.{text_of_pieces, AreBlocksOfLists};

use crate::rooms::room_for_lists;
use crate::spare::Spare;
use crate::writing::pieces::{Blocks, add_accounts, add_log, spell_head, spell_tail};
use crate::writing::report::{put_lists, spell_report};
use crate::writing::row::RowText;
use crate::writing::text::Text;
use reg_account::Account;
use reg_base::{Batch, FEW_ROWS, NoMemory};
use reg_book::{BothTotals, Parts, add_up_lists};
use reg_rules::Reply;
use std::alloc::{AllocError, Global};
use std::thread;
use std::thread::Threads;

// The blocks of the accounts of lists in the place of these bytes, and their totals.
fn spell_lists(bytes: Vec<u8>, lists: &[Vec<Account>]) -> Result<Blocks, NoMemory>
    requires fit { All IsAccount (joined_lists lists.now) }
    requires few { length (joined_lists lists.now) ≤ MOST_ACCOUNTS }
    ensures { IfOk result (AreBlocksOfLists 0 lists.now) }
{
    let mut text = Text::over(bytes, room_for_lists(lists));
    let mut row = RowText::new();
    put_lists(&mut text, &mut row, lists)?;
    Ok(Blocks {
        text: text.into_bytes(),
        totals: add_up_lists(lists),
    })
}

// Spells the blocks of each run of so many lists, each in a thread of its own where one can be started, in memory that
// is spare if there is some.
fn spell_all_lists<R: Threads + Sync>(
    rt: &R,
    alloc: Global,
    spare: &Spare,
    lists: &[Vec<Account>],
    size: usize,
) -> Result<Vec<Result<Blocks, NoMemory>>, AllocError>
    requires size { 0 < size }
    requires fit { All IsAccount (joined_lists lists.now) }
    requires few { length (joined_lists lists.now) ≤ MOST_ACCOUNTS }
    ensures len { IfOk result (λ runs. vec_len runs ≡ length lists.now / size + min 1 (length lists.now % size)) }
    ensures each { IfOk result (λ runs. MadeOfChunks (UnlessOut AreBlocksOfLists) lists.now size runs.items) }
{
    thread::map_chunks(
        rt,
        alloc,
        lists,
        size,
        &|_, run|
            requires fit { All IsAccount (joined_lists run.now) }
            requires few { length (joined_lists run.now) ≤ MOST_ACCOUNTS }
        { spell_lists(spare.take(alloc), run) },
    )
}

// How many lists a run has, if so many lists are to lie in at most so many runs, about equally many in each.
fn lists_of_run(count: usize, workers: usize) -> usize
    requires { 1 ≤ workers }
    ensures { 0 < result }
{
    (count.saturating_sub(1) / workers).saturating_add(1)
}

// Adds the blocks of the accounts of lists, in at most so many pieces, in spare memory if there is some. Answers their
// totals.
fn add_lists<R: Threads + Sync>(
    rt: &R,
    alloc: Global,
    pieces: &mut Vec<Vec<u8>>,
    spare: &Spare,
    lists: &[Vec<Account>],
    workers: usize,
) -> Result<BothTotals, NoMemory>
    requires workers { 1 ≤ workers }
    requires fit { All IsAccount (joined_lists lists.now) }
    requires few { length (joined_lists lists.now) ≤ MOST_ACCOUNTS }
    ensures text { OnOk result (text_of_pieces pieces.new.items
        ≡ text_of_pieces pieces.old.items ++ text_of (flat_map account_block (joined_lists lists.now))) }
    ensures totals { IfOk result (λ totals. totals ≡ totals_of (joined_lists lists.now)) }
{
    let size = lists_of_run(lists.len(), workers);
    let mut totals = BothTotals::none();
    for run in spell_all_lists(rt, alloc, spare, lists, size)? {
        let blocks = run?;
        totals = totals.plus(&blocks.totals);
        pieces.push(blocks.text)?;
    }
    Ok(totals)
}

// The same of a book. If it has a single list, threads spell runs of its accounts.
fn add_blocks<R: Threads + Sync>(
    rt: &R,
    alloc: Global,
    pieces: &mut Vec<Vec<u8>>,
    spare: &Spare,
    parts: &Parts,
    workers: usize,
) -> Result<BothTotals, NoMemory>
    requires { 1 ≤ workers }
    ensures text { OnOk result
        (text_of_pieces pieces.new.items ≡ text_of_pieces pieces.old.items ++ text_of (book_rows parts.now)) }
    ensures totals { IfOk result (λ totals. totals ≡ totals_of parts.now.accounts) }
{
    let lists = parts.lists();
    if lists.len() == 1 {
        return add_accounts(rt, alloc, pieces, spare, lists[0].as_slice(), workers);
    }
    add_lists(rt, alloc, pieces, spare, lists, workers)
}

// Whether there is little to spell: few replies, and few accounts in all lists.
fn is_short(lists: &[Vec<Account>], replies: &[Reply]) -> bool {
    let mut accounts: usize = 0;
    for list in lists {
        accounts = accounts.saturating_add(list.len());
    }
    replies.len() < FEW_ROWS as usize && accounts < FEW_ROWS as usize
}

/// The report of a batch with these replies in pieces, spelled by at most `workers` threads, which must be at least 1.
/// `parts` is the book after the day. The bytes of the pieces, one after another, are the text that
/// [`write_report_over`](crate::write_report_over) makes; they are never put together. Threads spell runs of the log,
/// and then runs of the lists in which the accounts lie, or of the accounts of a single list, and add these accounts up
/// for the totals. A short report, and one that a single thread spells, is one piece.
///
/// `spare` are texts that are no longer needed, as the pieces of an input: the blocks of accounts, or the one piece,
/// take their memory.
///
/// # Errors
/// `NoMemory` if memory ran out. It is no error if a thread can't be started.
pub fn write_report_pieces<R: Threads + Sync>(
    rt: &R,
    alloc: Global,
    parts: &Parts,
    batch: &Batch,
    replies: &[Reply],
    spare: Vec<Vec<u8>>,
    workers: usize,
) -> Result<Vec<Vec<u8>>, NoMemory>
    requires { 1 ≤ workers }
    ensures { IfOk result (λ pieces. text_of_pieces pieces.items
        ≡ text_of (report_rows parts.now (rows_replied batch.now replies.now))) }
{
    let mut pieces = Vec::new(alloc);
    let spare = Spare::of(alloc, spare);
    if workers == 1 || is_short(parts.lists(), replies) {
        pieces.push(spell_report(spare.take(alloc), parts, batch, replies)?)?;
        return Ok(pieces);
    }
    add_log(rt, alloc, &mut pieces, batch, replies, workers)?;
    pieces.push(spell_head(alloc, parts.next_record())?)?;
    let totals = add_blocks(rt, alloc, &mut pieces, &spare, parts, workers)?;
    pieces.push(spell_tail(alloc, &totals)?)?;
    Ok(pieces)
}
