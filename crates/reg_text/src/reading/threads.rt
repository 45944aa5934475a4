//! Reading a day text by several threads. An answer `None` says that something is in the way: then one thread reads the
//! whole text row by row.

ghost use Rattle.std.specs.Prelude.{◌≡◌, ◌≤◌, ◌++◌, Some, IfOk, IfSome, vec_len, length};
ghost use Rattle.reg_cuts.specs.Parts.{text_of_parts};
ghost use Rattle.reg_cuts.specs.Rows.{rows_in_text};
ghost use Rattle.reg_text.specs.declared.reading.tag.Tag.TheVariants as tag;
ghost use Rattle.reg_text.specs.Drafts.{draft_of};
ghost use Rattle.reg_text.specs.Day.{day_said};
ghost use Rattle.reg_text.specs.DraftLimits.{FitsSoFar, IsDraft};
ghost use Rattle.reg_text.specs.Faults.{at_end, day_of_rows};
ghost use Rattle.reg_text.specs.Joining.{IsHeading};
ghost use Rattle.reg_text.specs.PartsRead.{ReadsAt};

use crate::reading::draft::Draft;
use crate::reading::joining::join_all;
use crate::reading::part::{Part, read_heading, read_part};
use crate::reading::tag::Tag;
use std::alloc::{AllocError, Global};
use std::thread;
use std::thread::Threads;

/// What a cut has in front and behind it: the end of a line, and the row of an account, or of an instruction where no
/// account follows.
pub(crate) const STARTS: [&[u8]; 2] = [b"\naccount,", b"\ndo,"];

/// The number of parts of a text of so many bytes, at most the wanted one: each part has `least` bytes or more, about.
pub(crate) fn count_parts(bytes: usize, wanted: usize, least: usize) -> usize
    ensures { 1 ≤ result }
{
    (bytes / least.max(1)).min(wanted).max(1)
}

// Reads each part on its own, each in a thread of its own where one can be started. A list of accounts has `least`
// bytes of the text or more, about.
fn read_parts<R: Threads + Sync>(
    rt: &R,
    alloc: Global,
    start: &Draft,
    parts: &[&[u8]],
    least: usize,
) -> Result<Vec<Option<Part>>, AllocError>
    requires heading { IsHeading (draft_of start.now) }
    requires fits { IsDraft (draft_of start.now) }
    ensures len { IfOk result (λ read. vec_len read ≡ length parts.now) }
    ensures each { IfOk result (λ read. ReadsAt (draft_of start.now) parts.now read.items) }
{
    thread::map_indices(
        rt,
        alloc,
        parts.len(),
        &|i| { read_part(alloc, start, parts[i], least) },
    )
}

/// What the rows of a heading say, and those of the parts behind it, each of which is read in a thread of its own where
/// one can be started. A list of accounts has `least` bytes of the text or more, about.
pub(crate) fn read_all_parts<R: Threads + Sync>(
    rt: &R,
    alloc: Global,
    head: &[u8],
    parts: &[&[u8]],
    least: usize,
) -> Option<Draft>
    ensures { IfSome result (λ draft. FitsSoFar (draft_of draft) × (draft.body.last ≡ Some tag.End)
        × (day_of_rows (rows_in_text (head.now ++ text_of_parts parts.now)) ≡ at_end 0 (day_said (draft_of draft)))) }
{
    let start = read_heading(alloc, head)?;
    let Ok(read) = read_parts(rt, alloc, &start, parts, least) else {
        return None;
    };
    let draft = join_all(start, head, parts, read)?;
    if draft.body.last == Some(Tag::End) {
        Some(draft)
    } else {
        None
    }
}
