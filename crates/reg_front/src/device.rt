//! Reading a whole input and writing a whole text.

ghost use Rattle.std.specs.Prelude.{◌≡◌, ◌<◌, ◌≤◌, ◌+◌, [], IfErr, IfOk, IfSome, OnOk, OnErr, drop, length, take};
ghost use Rattle.std.specs.Prelude.{vec_len};
ghost use Rattle.std.specs.Io.KnownBytes.{Consumes, IsAtEnd, Keeps};
ghost use Rattle.reg_front.specs.Streams.{CanFail, HasFailed, IsGood};
ghost use Rattle.reg_front.specs.Devices.{FailsToWrite, HandsOn, IsReadWhole, Writes, most_input};
ghost use Rattle.reg_front.specs.Faults.{IsReadFault};
ghost use Rattle.reg_text.specs.Pieces.{text_of_pieces};

use crate::stream::{CallFailed, Sink, Source};
use reg_text::in_large_pages;
use std::alloc::{AllocError, Global};

/// The most bytes of an input: 2^30.
pub(crate) const MOST_INPUT: usize = 1 << 30;

// The most calls of `read` for an input: 2^32, including the call that finds its end. Each other call brings a byte, so
// that an input has ended, or is too long, before these are used up.
const MOST_READS: u64 = 1 << 32;

// How much new room is made ready for a call of `read`, in bytes: little enough to be near the processor still when the
// call fills it.
const PIECE: usize = 64 * 1024;

/// Why an input could not be read to its end.
#[derive(Clone, Copy, Debug, PartialEq, Eq)]
pub(crate) enum ReadFault {
    /// A call of `read` failed.
    Failed,
    /// The input has more than [`MOST_INPUT`] bytes.
    TooLong,
    /// Memory ran out.
    NoMemory,
}

/// All bytes that the reader has left, up to its end.
///
/// # Errors
/// `Failed` if a call of `read` fails; there is no second try. `TooLong` if the input has more than [`MOST_INPUT`]
/// bytes. `NoMemory` if memory ran out. In each case the bytes read so far are lost.
pub(crate) fn read_all<R: Source>(alloc: Global, reader: &mut R) -> Result<Vec<u8>, ReadFault>
    requires { CanFail (R.stream reader.old) }
    ensures text { IfOk result (λ text. IfSome (R.stream reader.old).bytes (λ bytes. text.items ≡ bytes)) }
    ensures whole { OnOk result (IsReadWhole (R.stream reader.old) (R.stream reader.new)) }
    ensures limit { IfOk result (λ text. vec_len text ≤ most_input) }
    ensures fault { IfErr result (IsReadFault (R.stream reader.old) (R.stream reader.new)) }
{
    let mut text = begin_text(alloc, reader.expected());
    let mut filled = 0;
    for _call in 0..MOST_READS {
        if make_room(&mut text, filled).is_err() {
            return Err(ReadFault::NoMemory);
        }
        match read_behind(reader, text.as_mut_slice(), filled) {
            Ok(0) => {
                text.truncate(filled);
                return Ok(text);
            }
            Ok(count) => {
                if count > MOST_INPUT - filled {
                    return Err(ReadFault::TooLong);
                }
                filled += count;
            }
            Err(_) => return Err(ReadFault::Failed),
        }
    }
    unreachable!()
}

/// All bytes that the reader has left, up to its end, in pieces: those that it has read ahead, or else one.
///
/// # Errors
/// As [`read_all`].
pub(crate) fn read_pieces<R: Source>(
    alloc: Global,
    reader: &mut R,
) -> Result<Vec<Vec<u8>>, ReadFault>
    requires { CanFail (R.stream reader.old) }
    ensures text { IfOk result
        (λ pieces. IfSome (R.stream reader.old).bytes (λ bytes. text_of_pieces pieces.items ≡ bytes)) }
    ensures whole { OnOk result (IsReadWhole (R.stream reader.old) (R.stream reader.new)) }
    ensures fault { IfErr result (IsReadFault (R.stream reader.old) (R.stream reader.new)) }
{
    if let Some(pieces) = reader.take_pieces() {
        return Ok(pieces);
    }
    let text = read_all(alloc, reader)?;
    let mut pieces = Vec::new(alloc);
    if pieces.push(text).is_err() {
        return Err(ReadFault::NoMemory);
    }
    Ok(pieces)
}

// An empty text. It has room for the expected bytes, for one more, at which their end is found, and for an eighth more,
// since the report of a day is longer than its input. If so much memory is refused, it has no room for the eighth, or
// none at all, and gets room as the bytes come.
fn begin_text(alloc: Global, expected: usize) -> Vec<u8>
    ensures { result.items ≡ [] }
{
    let mut text = Vec::new(alloc);
    if expected > 0 {
        let wanted = expected.min(MOST_INPUT) + 1;
        if text
            .reserve_exact(in_large_pages(wanted + wanted / 8))
            .is_err()
        {
            let _ = text.reserve_exact(wanted);
        }
    }
    text
}

// Makes room for a call of `read` behind the first `filled` bytes. Each byte of the room is written once, with 0. If
// the room is used up, the text gets as much again.
fn make_room(text: &mut Vec<u8>, filled: usize) -> Result<(), AllocError>
    requires within { filled ≤ vec_len text.old }
    requires limit { filled ≤ most_input }
    ensures within { filled ≤ vec_len text.new }
    ensures front { take filled text.new.items ≡ take filled text.old.items }
    ensures room { OnOk result (filled < vec_len text.new) }
{
    if filled == text.capacity() {
        text.reserve_exact(filled.min(MOST_INPUT - filled).max(PIECE))?;
    }
    let end = filled + (text.capacity() - filled).min(PIECE);
    if text.len() < end {
        text.resize(end, 0)?;
    }
    Ok(())
}

// Calls `read` for the room behind the first `filled` bytes, which stay.
fn read_behind<R: Source>(
    reader: &mut R,
    text: &mut [u8],
    filled: usize,
) -> Result<usize, CallFailed>
    requires stream { CanFail (R.stream reader.old) }
    requires room { filled < length text.old }
    ensures front { take filled text.new ≡ take filled text.old }
    ensures fits { IfOk result (λ count. filled + count ≤ length text.new) }
    ensures given { IfOk result
        (λ count. Consumes (R.stream reader.old).bytes (R.stream reader.new).bytes
        (take count (drop filled text.new))) }
    ensures kept { OnErr result (Keeps (R.stream reader.old).bytes (R.stream reader.new).bytes) }
    ensures end { IfOk result (λ count. count ≡ 0 → IsAtEnd (R.stream reader.new).bytes) }
    ensures good { OnOk result (IsGood (R.stream reader.old) (R.stream reader.new)) }
    ensures failed { OnErr result (HasFailed (R.stream reader.old) (R.stream reader.new)) }
{
    reader.read(&mut text[filled..])
}

/// Writes the whole text, and does not flush the writer.
///
/// # Errors
/// [`CallFailed`] if a call of `write` fails; there is no second try. The writer has then taken a prefix of the text.
pub(crate) fn put_all<W: Sink>(writer: &mut W, text: &[u8]) -> Result<(), CallFailed>
    requires { CanFail (W.stream writer.old) }
    ensures ok { OnOk result (Writes text.now (W.stream writer.old) (W.stream writer.new)) }
    ensures err { OnErr result (FailsToWrite text.now (W.stream writer.old) (W.stream writer.new)) }
{
    let mut rest = text;
    while !rest.is_empty() {
        let count = writer.write(rest)?;
        rest = &rest[count..];
    }
    Ok(())
}

/// Writes the whole text and flushes the writer.
///
/// # Errors
/// [`CallFailed`] if a call of `write` or `flush` fails; there is no second try. The writer has then taken a prefix of
/// the text, possibly all of it.
pub(crate) fn write_all<W: Sink>(writer: &mut W, text: &[u8]) -> Result<(), CallFailed>
    requires { CanFail (W.stream writer.old) }
    ensures ok { OnOk result (HandsOn text.now (W.stream writer.old) (W.stream writer.new)) }
    ensures err { OnErr result (FailsToWrite text.now (W.stream writer.old) (W.stream writer.new)) }
{
    let Ok(()) = put_all(writer, text) else {
        return Err(CallFailed);
    };
    writer.flush()
}
