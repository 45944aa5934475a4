//! A call that takes memory, and how it is tried.

use crate::digest::{Digest, digest_of};
use crate::endings::Ended;
use crate::stop::Stop;
use std::alloc::Global;
use std::fmt::{Debug, Display};
use std::io::Write;

/// A call that takes memory, with all that it is lent.
pub(crate) trait Call {
    /// Makes the call. Nothing else in here takes memory.
    fn make(&mut self, alloc: Global) -> Ended;

    /// The digest of what the call is lent and could change: a refused call changes nothing of it.
    fn lent(&self) -> Digest {
        Digest::new()
    }

    /// How the call ended, with what is looked at only after it, since that takes memory. Afterwards it is gone.
    fn look_after(&mut self, ended: Ended) -> Ended {
        ended
    }
}

/// Writes a line, in one piece.
pub fn tell<W: Write>(writer: &mut W, line: &impl Display) -> Result<(), Stop> {
    if writeln!(writer, "{line}").is_err() {
        return Err(Stop::Output);
    }
    if writer.flush().is_err() {
        return Err(Stop::Output);
    }
    Ok(())
}

// Writes the first word if something is so, and else the second.
fn tell_whether<W: Write>(
    writer: &mut W,
    is_so: bool,
    words: (&'static str, &'static str),
) -> Result<(), Stop> {
    tell(writer, &if is_so { words.0 } else { words.1 })
}

// Writes `end`, and how the call ended.
fn tell_end<W: Write>(writer: &mut W, ended: Ended) -> Result<(), Stop> {
    tell(writer, &"end")?;
    tell(writer, &ended.word())
}

// Writes whether what a refused call was lent is as before.
fn tell_unchanged<W: Write>(writer: &mut W, is_so: bool) -> Result<(), Stop> {
    tell_whether(writer, is_so, ("unchanged", "changed"))
}

// Writes whether a call left what is wanted.
fn tell_right<W: Write>(writer: &mut W, is_so: bool) -> Result<(), Stop> {
    tell_whether(writer, is_so, ("right", "wrong"))
}

/// Makes a call between the lines `begin` and `end`, and makes it again if it was refused something. Writes how each
/// ended, whether a refused call left what it was lent as it was, and whether at last it ended as is wanted.
///
/// `ground` is what the call is lent by `&`.
pub(crate) fn try_call<G: Debug, C: Call, W: Write>(
    alloc: Global,
    ground: &G,
    call: &mut C,
    wanted: Ended,
    writer: &mut W,
) -> Result<(), Stop> {
    let before = digest_of(ground);
    let lent = call.lent();
    tell(writer, &"begin")?;
    let mut ended = call.make(alloc);
    tell_end(writer, ended)?;
    if ended.is_refused() {
        tell_unchanged(writer, digest_of(ground) == before && call.lent() == lent)?;
        ended = call.make(alloc);
        tell(writer, &ended.word())?;
    }
    tell_right(writer, call.look_after(ended) == wanted)
}

/// How a call ends that is refused nothing.
pub(crate) fn rehearse<C: Call>(alloc: Global, call: &mut C) -> Ended {
    let ended = call.make(alloc);
    call.look_after(ended)
}

/// Tries a call that is lent all by `&` and keeps nothing: it is to end as it ends where nothing is refused.
pub(crate) fn try_rehearsed<G: Debug, C: Call, W: Write>(
    alloc: Global,
    ground: &G,
    call: &mut C,
    writer: &mut W,
) -> Result<(), Stop> {
    let wanted = call.make(alloc);
    try_call(alloc, ground, call, wanted, writer)
}

/// Tries a call that starts threads. It is no [`Call`], since a method of a trait does not know that the threads may
/// share what starts them.
pub fn try_threads<G: Debug, F: Fn() -> Ended, W: Write>(
    ground: &G,
    call: F,
    wanted: Ended,
    writer: &mut W,
) -> Result<(), Stop>
    requires { F.IsAlwaysCallable call }
{
    let before = digest_of(ground);
    tell(writer, &"begin")?;
    let mut ended = call();
    tell_end(writer, ended)?;
    if ended.is_refused() {
        tell_unchanged(writer, digest_of(ground) == before)?;
        ended = call();
        tell(writer, &ended.word())?;
    }
    tell_right(writer, ended == wanted)
}

/// Tries a call that starts threads and uses up what it is given: the first of two like things, and if it was refused
/// something the second. It is lent nothing that it could change.
pub(crate) fn try_using_up<T: Drop, F: Fn(T) -> Ended, W: Write>(
    first: T,
    second: T,
    call: F,
    wanted: Ended,
    writer: &mut W,
) -> Result<(), Stop>
    requires { F.IsAlwaysCallable call }
{
    tell(writer, &"begin")?;
    let mut ended = call(first);
    tell_end(writer, ended)?;
    if ended.is_refused() {
        tell_unchanged(writer, true)?;
        ended = call(second);
        tell(writer, &ended.word())?;
    }
    tell_right(writer, ended == wanted)
}
