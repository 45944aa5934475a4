//! Joining the parts of a day text, in their order, behind its heading. An answer `None` says that a part may not stand
//! behind those before it, or that memory ran out. Whole lists are moved, and nothing in them is looked at.

ghost use Rattle.std.specs.Prelude.{◌≡◌, ◌++◌, true, Some, None, IfSome, OnSome, drop};
ghost use Rattle.reg_cuts.specs.Parts.{text_of_parts};
ghost use Rattle.reg_text.specs.Lasts.{is_above};
ghost use Rattle.reg_text.specs.Drafts.{draft_of, read_behind};
ghost use Rattle.reg_text.specs.DraftLimits.{FitsSoFar};
ghost use Rattle.reg_text.specs.Joining.{number_in, AccountsMayFollow, InstructionsMayFollow, IsHeading, IsReadSoFar};
ghost use Rattle.reg_text.specs.Joining.{MayJoin, joined_drafts};
ghost use Rattle.reg_text.specs.PartsRead.{ReadsEach};

use crate::reading::account_row::AccountHead;
use crate::reading::draft::{Body, Draft, Heading};
use crate::reading::part::Part;
use crate::reading::tag::{Tag, may_follow};
use crate::reading::take::{end_block, has_number};
use reg_base::{AccountNo, Instruction, MOST_ACCOUNTS, MOST_INSTRUCTIONS};
use reg_cuts::{cuts_go_on, each_cut_splits};

// Whether an account comes after the begun one.
fn comes_after(head: Option<AccountHead>, first: AccountNo) -> bool
    ensures { result ≡ is_above (number_in head) first }
{
    match head {
        Some(head) => head.number < first,
        None => true,
    }
}

// Whether accounts of a part, whose first one has this number, may stand behind what was read before.
fn accounts_may_follow(heading: &Heading, before: &Body, first: AccountNo, part: &Body) -> bool
    ensures { result ≡ true
        → AccountsMayFollow first (read_behind heading.now before.now) (read_behind heading.now part.now) }
{
    may_follow(heading.scope().version, before.last, Tag::Account)
        && before.instructions.is_empty()
        && comes_after(before.head, first)
        && before.count <= MOST_ACCOUNTS
        && part.count <= MOST_ACCOUNTS - before.count
}

// Whether instructions of a part may stand behind what was read before.
fn instructions_may_follow(heading: &Heading, before: &Body, part: &Body) -> bool
    ensures { result ≡ true
        → InstructionsMayFollow (read_behind heading.now before.now) (read_behind heading.now part.now) }
{
    let count = before.instructions.len();
    let more = part.instructions.len();
    may_follow(heading.scope().version, before.last, Tag::Do)
        && count <= MOST_INSTRUCTIONS
        && more <= MOST_INSTRUCTIONS - count
        && 0 < count + more
        && has_number(heading.day, count + more - 1)
}

// What was read before, and behind it the accounts of a part and what comes behind them. Room is made for
// `awaited` accounts, which all parts have together.
fn join_accounts(
    heading: &Heading,
    before: Body,
    first: AccountNo,
    part: Body,
    awaited: usize,
) -> Option<Body>
    requires fits { FitsSoFar (read_behind heading.now before) }
    ensures may { OnSome result
        (AccountsMayFollow first (read_behind heading.now before) (read_behind heading.now part)) }
    ensures joins { IfSome result (λ both. read_behind heading.now both
        ≡ joined_drafts (Some first) (read_behind heading.now before) (read_behind heading.now part)) }
{
    if !accounts_may_follow(heading, &before, first, &part) {
        return None;
    }
    let mut over = before;
    let Ok(()) = end_block(heading, &mut over) else {
        return None;
    };
    let count = over.count + part.count;
    let mut accounts = over.accounts;
    let Ok(()) = accounts.append(part.accounts, awaited.saturating_sub(over.count)) else {
        return None;
    };
    Some(Body {
        last: part.last,
        accounts,
        head: part.head,
        lists: part.lists,
        count,
        instructions: part.instructions,
    })
}

// Instructions, and behind them more. Where there are none yet, the others are taken as they are.
fn join_lists(first: Vec<Instruction>, more: Vec<Instruction>) -> Option<Vec<Instruction>>
    ensures { IfSome result (λ both. both.items ≡ first.items ++ more.items) }
{
    if first.is_empty() {
        return Some(more);
    }
    let mut both = first;
    let mut others = more;
    let Ok(()) = both.append(&mut others) else {
        return None;
    };
    Some(both)
}

// What was read before, and behind it the instructions of a part.
fn join_instructions(heading: &Heading, before: Body, part: Body) -> Option<Body>
    ensures may { OnSome result
        (InstructionsMayFollow (read_behind heading.now before) (read_behind heading.now part)) }
    ensures joins { IfSome result (λ both. read_behind heading.now both
        ≡ joined_drafts None (read_behind heading.now before) (read_behind heading.now part)) }
{
    if !instructions_may_follow(heading, &before, &part) {
        return None;
    }
    let instructions = join_lists(before.instructions, part.instructions)?;
    Some(Body {
        last: part.last,
        accounts: before.accounts,
        head: before.head,
        lists: before.lists,
        count: before.count,
        instructions,
    })
}

// What was read before, and behind it a part.
fn join_part(heading: &Heading, before: Body, part: Part, awaited: usize) -> Option<Body>
    requires { FitsSoFar (read_behind heading.now before) }
    ensures may { OnSome result
        (MayJoin part.first (read_behind heading.now before) (read_behind heading.now part.body)) }
    ensures joins { IfSome result (λ both. read_behind heading.now both
        ≡ joined_drafts part.first (read_behind heading.now before) (read_behind heading.now part.body)) }
{
    match part.first {
        Some(first) => join_accounts(heading, before, first, part.body, awaited),
        None => join_instructions(heading, before, part.body),
    }
}

// How many accounts the parts have together. Nothing is promised of the number: room is made for so many.
fn count_accounts(read: &[Option<Part>]) -> usize {
    let mut count: usize = 0;
    for part in read {
        if let Some(part) = part {
            count = count.saturating_add(part.body.count);
        }
    }
    count
}

// The parts behind the first one.
fn behind_first<'p, 't>(parts: &'p [&'t [u8]]) -> &'p [&'t [u8]]
    ensures { result.now ≡ drop 1 parts.now }
{
    &parts[parts.len().min(1)..]
}

/// Joins the parts of a text behind its heading, in their order. What comes of it is what all rows say, read one after
/// another.
pub(crate) fn join_all(
    start: Draft,
    head: &[u8],
    parts: &[&[u8]],
    read: Vec<Option<Part>>,
) -> Option<Draft>
    requires heading { IsHeading (draft_of start) }
    requires begins { IsReadSoFar (draft_of start) head.now (draft_of start) }
    requires each { ReadsEach (draft_of start) parts.now read.items }
    ensures { IfSome result (λ draft. IsReadSoFar (draft_of start) (head.now ++ text_of_parts parts.now)
        (draft_of draft)) }
{
    each_cut_splits();
    cuts_go_on();
    let awaited = count_accounts(&read);
    let Draft { heading, body } = start;
    let mut joined = body;
    let mut rest = parts;
    for part in read {
        joined = join_part(&heading, joined, part?, awaited)?;
        rest = behind_first(rest);
    }
    Some(Draft {
        heading,
        body: joined,
    })
}
