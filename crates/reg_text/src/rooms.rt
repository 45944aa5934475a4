//! How much room is taken at once. Nothing is promised of these numbers: where memory for so much is refused, room is
//! taken as it is needed.

ghost use Rattle.std.specs.Prelude.{◌≡◌, []};

use reg_account::Account;
use reg_base::{MOST_ACCOUNTS, MOST_INSTRUCTIONS};
use reg_rules::Reply;
use std::alloc::Global;

// The bytes of a large page, as the system has them.
const LARGE_PAGE: usize = 2 * 1024 * 1024;

// In a block of whole large pages, the allocator keeps less than this for itself.
const KEPT: usize = 4 * 1024;

// The bytes of a block by which the heap of a thread grows: the system gives larger ones apart from the heap.
const BLOCK: usize = 100 * 1024;

// From so many bytes of a text it is told how many rows the text has.
const SAMPLE: usize = 16 * 1024;

// So often a text is halved to find where its instructions begin: a gigabyte, down to some kilobytes.
const HALVINGS: usize = 18;

// From so many accounts it is told how many bytes all of them take.
const SAMPLED_ACCOUNTS: usize = 64;

// A row of a log has no more bytes, mostly.
const BYTES_OF_LOG_ROW: usize = 128;

/// How many bytes of memory to ask for where so many are needed: as many as fill whole large pages, together with what
/// the allocator keeps for itself, if these are at most a seventh more; otherwise just those that are needed. The
/// system gives such a block in large pages, which takes a third of the time.
pub fn in_large_pages(bytes: usize) -> usize {
    let pages = (bytes / LARGE_PAGE).saturating_add(1);
    let whole = pages.saturating_mul(LARGE_PAGE).saturating_sub(KEPT);
    if whole / 8 * 7 > bytes {
        bytes
    } else {
        whole.max(bytes)
    }
}

/// An empty list with room for so many values, if there is memory.
pub(crate) fn with_room<T>(alloc: Global, room: usize) -> Vec<T>
    ensures { result.items ≡ [] }
{
    let mut list = Vec::new(alloc);
    let _ = list.reserve_exact(room);
    list
}

/// Has the heap of this thread grow at once by about so many bytes, in blocks that are given back: else it grows by a
/// page of 4 KB each time, and calls the system for each. The blocks lie one behind the other, so that none of them is
/// kept for a later list.
pub(crate) fn grow_heap(alloc: Global, bytes: usize) {
    let count = bytes / BLOCK;
    let mut blocks: Vec<Vec<u8>> = with_room(alloc, count);
    for _block in 0..count {
        if let Ok(block) = Vec::with_capacity(alloc, BLOCK) {
            let _ = blocks.push(block);
        }
    }
}

/// How much the rows of a part of a day text say, about.
#[derive(Clone, Copy)]
pub(crate) struct Extent {
    /// How many accounts.
    pub accounts: usize,
    /// How many instructions.
    pub instructions: usize,
    /// How many bytes the rows of the accounts have, if there seem to be lists among them; else 0.
    pub listed: usize,
}

/// How much the rows of a part of a day text say, about: those in the middle of its accounts and of its instructions
/// tell.
pub(crate) fn extent_of(part: &[u8]) -> Extent {
    let behind = bytes_of_instructions(part).min(part.len());
    let (of_accounts, of_instructions) = part.split_at(part.len() - behind);
    let accounts = count_about(of_accounts, b"account,").min(MOST_ACCOUNTS);
    Extent {
        accounts,
        instructions: count_about(of_instructions, b"do,").min(MOST_INSTRUCTIONS),
        listed: listed_bytes(of_accounts.len(), accounts),
    }
}

// How many bytes the rows of so many accounts have, if there seem to be lists among them; else 0. The row of an account
// without lists is mostly shorter than 80 bytes.
fn listed_bytes(bytes: usize, accounts: usize) -> usize {
    if bytes / 80 > accounts { bytes } else { 0 }
}

// About how many rows of a text begin so.
fn count_about(text: &[u8], start: &[u8]) -> usize {
    let (_, behind) = text.split_at(text.len() / 2);
    let sample = &behind[..behind.len().min(SAMPLE)];
    scaled(count_rows(sample, start), sample.len(), text.len())
}

// How often there is in the whole what is so often in a sample.
fn scaled(count: usize, sample: usize, whole: usize) -> usize {
    count.saturating_mul(whole) / sample.max(1)
}

/// A number that was told from a sample, and an eighth more, lest it is a little too small.
pub(crate) fn and_some(number: usize) -> usize {
    number.saturating_add(number / 8)
}

// How many rows of a text begin so.
fn count_rows(text: &[u8], start: &[u8]) -> usize {
    let mut count: usize = 0;
    for row in text.split(|byte| *byte == b'\n') {
        if row.starts_with(start) {
            count = count.saturating_add(1);
        }
    }
    count
}

// How many bytes at the end of a part are instructions. They stand behind the accounts, so halving finds the first one.
fn bytes_of_instructions(part: &[u8]) -> usize {
    let mut left = part;
    let mut found: usize = 0;
    for _halving in 0..HALVINGS {
        let (front, back) = left.split_at(left.len() / 2);
        if goes_on_with_instructions(back) {
            found = found.saturating_add(back.len());
            left = front;
        } else {
            left = back;
        }
    }
    found
}

// Whether the first row that begins in a text is an instruction.
fn goes_on_with_instructions(text: &[u8]) -> bool {
    let mut rows = text.split(|byte| *byte == b'\n');
    let _ = rows.next();
    match rows.next() {
        Some(row) => row.starts_with(b"do,"),
        None => false,
    }
}

/// Room for the rows of accounts.
pub(crate) fn room_for_accounts(accounts: &[Account]) -> usize {
    in_large_pages(bytes_of_accounts(accounts))
}

/// Room for the rows of the accounts of lists.
pub(crate) fn room_for_lists(lists: &[Vec<Account>]) -> usize {
    in_large_pages(bytes_of_lists(lists))
}

/// Room for the report of a day after which the accounts lie in these lists, and whose log has these replies.
pub(crate) fn room_for_report(lists: &[Vec<Account>], replies: &[Reply]) -> usize {
    in_large_pages(bytes_of_lists(lists).saturating_add(room_for_log(replies)))
}

/// Room for the rows of a log with these replies.
pub(crate) fn room_for_log(replies: &[Reply]) -> usize {
    replies.len().saturating_mul(BYTES_OF_LOG_ROW)
}

// About how many bytes the rows of the accounts of lists take.
fn bytes_of_lists(lists: &[Vec<Account>]) -> usize {
    let mut bytes: usize = 0;
    for list in lists {
        bytes = bytes.saturating_add(bytes_of_accounts(list));
    }
    bytes
}

// About how many bytes the rows of accounts take: those of the first ones tell.
fn bytes_of_accounts(accounts: &[Account]) -> usize {
    let first = &accounts[..accounts.len().min(SAMPLED_ACCOUNTS)];
    let mut bytes: usize = 0;
    for account in first {
        bytes = bytes.saturating_add(bytes_of_account(account));
    }
    scaled(bytes, first.len(), accounts.len())
}

// About how many bytes the rows of an account take. Those of a list are about equally long.
fn bytes_of_account(account: &Account) -> usize {
    let short = account
        .users()
        .len()
        .saturating_add(account.all_emissions().len());
    let longer = account
        .trusted_entries()
        .len()
        .saturating_add(account.all_figures().len());
    short
        .saturating_mul(20)
        .saturating_add(longer.saturating_mul(26))
        .saturating_add(account.rows().len().saturating_mul(51))
        .saturating_add(58)
}
