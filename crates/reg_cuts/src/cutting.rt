//! Parts of a text: the tests that say where a text may be cut, and the cutting.

ghost use Rattle.std.specs.Prelude.{◌≡◌, ◌≤◌, ◌++◌, true, IfOk, length, vec_len};
ghost use Rattle.reg_cuts.specs.Parts.{IsCut, HasNoMark, has_quote, text_of_parts};

use memchr::{memchr, memmem};
use std::alloc::{AllocError, Global};

const QUOTE: u8 = b'"';

const LINE_FEED: u8 = b'\n';

/// The first byte of a byte order mark.
const MARK: u8 = 0xEF;

// Whether some byte is a quote.
fn has_quote(part: &[u8]) -> bool
    ensures { result ≡ has_quote part.now }
{
    memchr(QUOTE, part).is_some()
}

/// Whether the part has no quote, and ends with a line feed. If so, a text that begins with it may be cut behind it. A
/// text may also be cut behind quoted fields, but to know where, a thread has to read all bytes before.
#[tactic(auto, using(crate::proofs::lemmas::Splits::whole))]
pub fn is_cut(part: &[u8]) -> bool
    ensures { result ≡ true → IsCut part.now }
{
    part.last().copied() == Some(LINE_FEED) && !has_quote(part)
}

/// Whether the part does not begin as a byte order mark does. If so, a reader of this part alone skips none.
pub fn has_no_mark(part: &[u8]) -> bool
    ensures { result ≡ true → HasNoMark part.now }
{
    part.first().copied() != Some(MARK)
}

/// Cuts a text into at most `count` parts of about the same size, each by [`cut_near`] with these starts. `count` must
/// be at least 1. The parts, one after another, are the text.
///
/// # Errors
/// `AllocError` if memory ran out.
pub fn cut_parts<'t>(
    alloc: Global,
    text: &'t [u8],
    starts: &[&[u8]],
    count: usize,
) -> Result<Vec<&'t [u8]>, AllocError>
    requires { 1 ≤ count }
    ensures whole { IfOk result (λ parts. text_of_parts parts.items ≡ text.now) }
    ensures few { IfOk result (λ parts. vec_len parts ≤ count) }
{
    let mut parts = Vec::with_capacity(alloc, count)?;
    let mut rest = text;
    for left in 1..count {
        let (part, behind) = cut_near(rest, starts, rest.len() / (count - left + 1));
        if behind.is_empty() {
            break;
        }
        parts.push(part)?;
        rest = behind;
    }
    parts.push(rest)?;
    Ok(parts)
}

/// Cuts a text before the first line that begins behind the index `near` with the first of these starts; if there is
/// none, with the second one, and so on; if there is none at all, at its end. A start begins with a line feed, which
/// stays in front of the cut, so no text is cut before its first line. `near` must be at most the length of the text.
pub fn cut_near<'t>(text: &'t [u8], starts: &[&[u8]], near: usize) -> (&'t [u8], &'t [u8])
    requires { near ≤ length text.now }
    ensures { result.0.now ++ result.1.now ≡ text.now }
{
    for start in starts {
        match memmem::find(&text[near..], start) {
            Some(at) if at < text.len() - near => return text.split_at(near + at + 1),
            _ => {}
        }
    }
    text.split_at(text.len())
}
