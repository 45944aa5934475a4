//! Parts of a day text, each read on its own behind the heading. Whatever is in the way, the answer is `None`, and the
//! whole text is read row by row, which names the first fault.

ghost use Rattle.std.specs.Prelude.{◌≡◌, [], Ok, IfSome, OnSome};
ghost use Rattle.reg_cuts.specs.Rows.{IsBetweenRows, rows_left};
ghost use Rattle.reg_text.specs.Drafts.{draft_of, read_behind};
ghost use Rattle.reg_text.specs.DraftLimits.{IsDraft};
ghost use Rattle.reg_text.specs.Faults.{drafted};
ghost use Rattle.reg_text.specs.Joining.{BeginsWith, IsHeading, IsReadSoFar};
ghost use Rattle.reg_text.specs.PartsRead.{IsReadPart};

use crate::reading::draft::{Body, Draft, Heading};
use crate::reading::tag::Tag;
use crate::reading::take::{take_row, take_row_behind};
use crate::rooms::{and_some, extent_of, grow_heap};
use csv::{ByteRecord, Reader};
use reg_base::AccountNo;
use reg_book::ListedAccounts;
use reg_cuts::{has_no_mark, is_cut, next_row, start_rows};
use std::alloc::Global;

/// A part of a day text that was read on its own.
#[derive(Drop)]
pub(crate) struct Part {
    /// The number of the account that it begins with. If there is none, it begins with an instruction.
    pub first: Option<AccountNo>,
    /// What its rows say, behind the heading.
    pub body: Body,
}

// The accounts of a part are put into so many lists, so that each can have an owner of its own.
const LISTS_OF_PART: usize = 4;

// No accounts yet. Those of a part of so many bytes, of which there are so many, about, are put into several lists, if
// for each of them there are `least` bytes or more.
fn no_accounts(alloc: Global, bytes: usize, accounts: usize, least: usize) -> ListedAccounts
    ensures { result ≡ [] }
{
    let lists = (bytes / least.max(1)).clamp(1, LISTS_OF_PART);
    ListedAccounts::in_lists(alloc, (accounts / lists).saturating_add(1), lists - 1)
}

// Takes all rows of a heading.
fn take_heading(reader: &mut Reader<&[u8]>, row: &mut ByteRecord, draft: &mut Draft) -> Option<()>
    requires ready { IsBetweenRows reader.old }
    requires fits { IsDraft (draft_of draft.old) }
    ensures taken { OnSome result (drafted (draft_of draft.old) (rows_left reader.old) ≡ Ok (draft_of draft.new)) }
    ensures fits { OnSome result (IsDraft (draft_of draft.new)) }
{
    'rows: while next_row(reader, row).ok()? {
        let Ok(()) = take_row(draft, row) else {
            return None;
        };
    }
    Some(())
}

// Takes all rows of a part that a reader has left.
fn take_rows(
    reader: &mut Reader<&[u8]>,
    row: &mut ByteRecord,
    heading: &Heading,
    body: &mut Body,
) -> Option<()>
    requires ready { IsBetweenRows reader.old }
    requires fits { IsDraft (read_behind heading.now body.old) }
    ensures { OnSome result (drafted (read_behind heading.now body.old) (rows_left reader.old)
        ≡ Ok (read_behind heading.now body.new)) }
{
    'rows: while next_row(reader, row).ok()? {
        let Ok(()) = take_row_behind(heading, body, row) else {
            return None;
        };
    }
    Some(())
}

/// What the rows before the first account say.
pub(crate) fn read_heading(alloc: Global, text: &[u8]) -> Option<Draft>
    ensures heading { IfSome result (λ h. IsHeading (draft_of h)) }
    ensures read { IfSome result (λ h. IsReadSoFar (draft_of h) text.now (draft_of h)) }
    ensures fits { IfSome result (λ h. IsDraft (draft_of h)) }
{
    if !is_cut(text) {
        return None;
    }
    let mut reader = start_rows(alloc, text);
    let mut row = ByteRecord::new(alloc);
    let mut draft = Draft::empty(alloc, ListedAccounts::empty(alloc), 0);
    take_heading(&mut reader, &mut row, &mut draft)?;
    if draft.is_heading() {
        Some(draft)
    } else {
        None
    }
}

/// What the rows of a part say, read on their own behind the heading, which is only lent. Each list of its accounts has
/// `least` bytes of the text or more, about.
pub(crate) fn read_part(alloc: Global, start: &Draft, text: &[u8], least: usize) -> Option<Part>
    requires heading { IsHeading (draft_of start.now) }
    requires fits { IsDraft (draft_of start.now) }
    ensures { IsReadPart (draft_of start.now) text.now result }
{
    if !is_cut(text) {
        return None;
    }
    if !has_no_mark(text) {
        return None;
    }
    let extent = extent_of(text);
    grow_heap(alloc, extent.listed);
    let accounts = no_accounts(alloc, text.len(), extent.accounts, least);
    let mut reader = start_rows(alloc, text);
    let mut row = ByteRecord::new(alloc);
    let mut body = Body::empty(
        alloc,
        start.body.last,
        accounts,
        and_some(extent.instructions),
    );
    let Ok(true) = next_row(&mut reader, &mut row) else {
        return None;
    };
    let Ok(()) = take_row_behind(&start.heading, &mut body, &row) else {
        return None;
    };
    let first = beginning_of(&body)?;
    take_rows(&mut reader, &mut row, &start.heading, &mut body)?;
    Some(Part { first, body })
}

// How a part begins of which one row was taken: with an account of this number, or with an instruction.
fn beginning_of(body: &Body) -> Option<Option<AccountNo>>
    ensures { IfSome result (BeginsWith body.now.last body.now.head) }
{
    if body.last == Some(Tag::Do) {
        return Some(None);
    }
    match body.head {
        Some(head) if body.last == Some(Tag::Account) => Some(Some(head.number)),
        _ => None,
    }
}
