//! Reading a day text that lies in pieces: each piece is read as a part, where it lies. A text in one piece is cut.

ghost use Rattle.std.specs.Prelude.{◌≡◌, ◌≤◌, ◌++◌, MatchResult, Some, IfOk, IfSome};
ghost use Rattle.reg_cuts.specs.Parts.{text_of_parts};
ghost use Rattle.reg_cuts.specs.Rows.{rows_in_text};
ghost use Rattle.reg_text.specs.declared.reading.tag.Tag.TheVariants as tag;
ghost use Rattle.reg_text.specs.Drafts.{draft_of};
ghost use Rattle.reg_text.specs.Day.{day_said};
ghost use Rattle.reg_text.specs.DraftLimits.{FitsSoFar};
ghost use Rattle.reg_text.specs.Faults.{AnswersFault, at_end, day_of_rows};
ghost use Rattle.reg_text.specs.Pieces.{text_of_pieces};

use crate::cause::DayFault;
use crate::reading::draft::Draft;
use crate::reading::text::read_rows;
use crate::reading::threads::{STARTS, count_parts, read_all_parts};
use crate::rooms::with_room;
use reg_base::NoMemory;
use reg_cuts::{cut_near, cut_parts};
use std::alloc::{AllocError, Global};
use std::thread::Threads;

/// The index in a part of a text at which a piece may begin: that of the first row of an account which begins behind a
/// line feed of the part, or of an instruction if no account follows. `None` if there is neither. Nothing is promised
/// of the index: what can't be read by pieces is put together.
pub fn find_row(part: &[u8]) -> Option<usize> {
    let (before, behind) = cut_near(part, &STARTS, 0);
    if behind.is_empty() {
        None
    } else {
        Some(before.len())
    }
}

// At most so many parts of the end of the first piece, which may be empty.
fn parts_of<'t>(alloc: Global, first: &'t [u8], count: usize) -> Result<Vec<&'t [u8]>, AllocError>
    requires { 1 ≤ count }
    ensures { IfOk result (λ parts. text_of_parts parts.items ≡ first.now) }
{
    if first.is_empty() {
        return Ok(Vec::new(alloc));
    }
    cut_parts(alloc, first, &STARTS, count)
}

// The parts of a text that lie in the end of its first piece, which may be empty, and is cut into at most so many, and
// in later pieces.
#[tactic(auto, using(crate::proofs::TextFacts::row_loop))]
fn parts_in<'t>(
    alloc: Global,
    first: &'t [u8],
    count: usize,
    later: &'t [Vec<u8>],
) -> Result<Vec<&'t [u8]>, AllocError>
    requires { 1 ≤ count }
    ensures { IfOk result (λ parts. text_of_parts parts.items ≡ first.now ++ text_of_pieces later.now) }
{
    let mut parts = parts_of(alloc, first, count)?;
    for piece in later {
        parts.push(piece.as_slice())?;
    }
    Ok(parts)
}

// What the rows of a text say, by at most so many parts, each of which is read in a thread of its own where one can be
// started. `None` also if there is only one part.
fn read_by_pieces<R: Threads + Sync>(
    rt: &R,
    alloc: Global,
    pieces: &[Vec<u8>],
    threads: usize,
    least: usize,
) -> Option<Draft>
    ensures { IfSome result (λ draft. FitsSoFar (draft_of draft) × (draft.body.last ≡ Some tag.End)
        × (day_of_rows (rows_in_text (text_of_pieces pieces.now)) ≡ at_end 0 (day_said (draft_of draft)))) }
{
    let (first, later) = pieces.split_first()?;
    let count = count_parts(first.len(), threads / pieces.len().max(1), least);
    if count < 2 && later.is_empty() {
        return None;
    }
    let (head, behind) = cut_near(first, &STARTS, 0);
    let Ok(parts) = parts_in(alloc, behind, count, later) else {
        return None;
    };
    read_all_parts(rt, alloc, head, &parts, least)
}

// The pieces put together.
#[tactic(auto, using(crate::proofs::TextFacts::row_loop))]
fn join_pieces(alloc: Global, pieces: &[Vec<u8>]) -> Result<Vec<u8>, NoMemory>
    ensures { IfOk result (λ text. text.items ≡ text_of_pieces pieces.now) }
{
    let bytes = pieces
        .iter()
        .fold(0, |sum: usize, piece| sum.saturating_add(piece.len()));
    let mut text = with_room(alloc, bytes);
    for piece in pieces {
        text.extend_from_slice(piece)?;
    }
    Ok(text)
}

// What the rows of a text say, read by one thread.
fn read_alone(alloc: Global, pieces: &[Vec<u8>]) -> Result<Draft, DayFault>
    ensures { MatchResult result
        (λ draft. FitsSoFar (draft_of draft) × (draft.body.last ≡ Some tag.End)
        × (day_of_rows (rows_in_text (text_of_pieces pieces.now)) ≡ at_end 0 (day_said (draft_of draft))))
        (λ e. AnswersFault e (day_of_rows (rows_in_text (text_of_pieces pieces.now)))) }
{
    if pieces.len() == 1 {
        return read_rows(alloc, &pieces[0]);
    }
    let text = join_pieces(alloc, pieces)?;
    read_rows(alloc, &text)
}

/// What the rows of a text in pieces say, up to its row `end`, read by at most so many threads: what one thread reads
/// in the pieces put together, which it does if anything is in the way. A part has so many bytes or more, about, and so
/// has the text of each list of accounts.
pub(crate) fn read_rows_of_pieces<R: Threads + Sync>(
    rt: &R,
    alloc: Global,
    pieces: &[Vec<u8>],
    threads: usize,
    least: usize,
) -> Result<Draft, DayFault>
    ensures { MatchResult result
        (λ draft. FitsSoFar (draft_of draft) × (draft.body.last ≡ Some tag.End)
        × (day_of_rows (rows_in_text (text_of_pieces pieces.now)) ≡ at_end 0 (day_said (draft_of draft))))
        (λ e. AnswersFault e (day_of_rows (rows_in_text (text_of_pieces pieces.now)))) }
{
    if let Some(draft) = read_by_pieces(rt, alloc, pieces, threads, least) {
        return Ok(draft);
    }
    read_alone(alloc, pieces)
}
