//! A file that is read in pieces, each a range of its bytes, by several threads at once.

ghost use Rattle.std.specs.Prelude.{◌≡◌, ◌≤◌, ◌<◌, ◌+◌, ◌++◌, ◌∷◌, [], ℕ, List, Option, Some, IfOk, IfSome, IsTrue};
ghost use Rattle.std.specs.Prelude.{drop, length, map, slice_range, take, vec_len};
ghost use Rattle.reg_text.specs.Pieces.{text_of_pieces};
ghost use Rattle.reg_front.specs.Devices.{most_input};
ghost use Rattle.reg_front.specs.Ranges.{AreRanges, IsRange};

use crate::cuts::find_cuts;
use crate::device::MOST_INPUT;
use reg_text::in_large_pages;
use std::alloc::{AllocError, Global};
use std::thread;
use std::thread::Threads;

/// A file whose bytes can be read from any offset, by several threads at once.
pub trait ReadAt {
    // Its bytes, if they are known.
    ghost contents: { Self → Option (List ℕ) };

    /// Puts the bytes from an offset on, counted from 0, into the front of `room`, and answers how many; `None` if the
    /// call failed. It gives 0 bytes only at the end of the file or behind it, or if there is no room.
    fn read_at(&self, offset: u64, room: &mut [u8]) -> Option<usize>
        ensures bound { IfSome result (λ count. count ≤ length room.new) }
        ensures bytes { IfSome result (λ count. IfSome (contents self.now)
            (λ bytes. take count room.new ≡ take count (drop offset bytes))) }
        ensures end { IfSome result (λ count. count ≡ 0 → 0 < length room.new
            → IfSome (contents self.now) (λ bytes. length bytes ≤ offset)) };
}

// The bytes of a piece, at least, about: fewer take less time than to start a thread.
const LEAST_PIECE: u64 = 64 * 1024;

// The file does not fill the room: the call failed, or gave fewer bytes.
#[derive(Drop)]
struct NotFilled;

// Fills the room with the bytes from an offset on.
fn fill<F: ReadAt>(file: &F, offset: u64, room: &mut [u8]) -> Result<(), NotFilled>
    ensures { IfOk result (λ done. IfSome (F.contents file.now)
        (λ bytes. room.new ≡ take (length room.new) (drop offset bytes))) }
{
    let length = room.len();
    if file.read_at(offset, room) == Some(length) {
        Ok(())
    } else {
        Err(NotFilled)
    }
}

// The bytes from one offset up to another.
fn read_range<F: ReadAt>(alloc: Global, file: &F, from: u64, to: u64) -> Option<Vec<u8>>
    ensures { IsRange (F.contents file.now) from to result }
{
    let length = usize::try_from(to.checked_sub(from)?).ok()?;
    let mut piece = Vec::new(alloc);
    let _ = piece.reserve_exact(in_large_pages(length));
    piece.resize(length, 0).ok()?;
    let Ok(()) = fill(file, from, piece.as_mut_slice()) else {
        return None;
    };
    Some(piece)
}

// Where pieces begin, and where the last one ends.
fn all_offsets(alloc: Global, from: u64, cuts: &[u64], to: u64) -> Result<Vec<u64>, AllocError>
    ensures { IfOk result (λ offsets. offsets.items ≡ from ∷ cuts.now ++ to ∷ []) }
{
    let mut offsets = Vec::new(alloc);
    offsets.push(from)?;
    offsets.extend_from_slice(cuts)?;
    offsets.push(to)?;
    Ok(offsets)
}

// The bytes from each of these offsets up to the next one, each range by a thread of its own where one can be started.
fn read_ranges<T: Threads + Sync, F: ReadAt + Sync>(
    rt: &T,
    alloc: Global,
    file: &F,
    offsets: &[u64],
) -> Result<Vec<Option<Vec<u8>>>, AllocError>
    requires { 1 ≤ length offsets.now }
    ensures len { IfOk result (λ read. vec_len read + 1 ≡ length offsets.now) }
    ensures each { IfOk result (λ read. AreRanges (F.contents file.now) offsets.now read.items) }
{
    thread::map_indices(
        rt,
        alloc,
        offsets.len() - 1,
        &|i| { read_range(alloc, file, offsets[i], offsets[i + 1]) },
    )
}

// These pieces, if each was read.
fn all_read(alloc: Global, read: Vec<Option<Vec<u8>>>) -> Option<Vec<Vec<u8>>>
    ensures { IfSome result (λ pieces. map Some pieces.items ≡ read.items) }
{
    let mut pieces = Vec::new(alloc);
    for piece in read {
        pieces.push(piece?).ok()?;
    }
    Some(pieces)
}

// The bytes from one offset up to another, in pieces that begin at these offsets.
fn read_cut<T: Threads + Sync, F: ReadAt + Sync>(
    rt: &T,
    alloc: Global,
    file: &F,
    from: u64,
    cuts: &[u64],
    to: u64,
) -> Option<Vec<Vec<u8>>>
    ensures order { IfSome result (λ pieces. from ≤ to) }
    ensures bytes { IfSome result (λ pieces. IfSome (F.contents file.now)
        (λ bytes. text_of_pieces pieces.items ≡ slice_range bytes from to)) }
{
    let offsets = all_offsets(alloc, from, cuts, to).ok()?;
    let Ok(read) = read_ranges(rt, alloc, file, &offsets) else {
        return None;
    };
    let pieces = all_read(alloc, read)?;
    Some(pieces)
}

// Whether the file ends at this offset, or before it.
fn ends_at<F: ReadAt>(file: &F, offset: u64) -> bool
    ensures { IsTrue result → IfSome (F.contents file.now) (λ bytes. length bytes ≤ offset) }
{
    let mut room = [0; 1];
    file.read_at(offset, &mut room) == Some(0)
}

/// All bytes of a file from an offset on, in pieces that begin with rows, read by at most so many threads. `to` is
/// where the file ended when it was asked. `None` if that is not right any more, if there is only one thread, if the
/// bytes are fewer than 2^17 or more than 2^30, if no row is near where a piece should begin, or if a call failed or
/// memory ran out.
pub fn read_in_pieces<T: Threads + Sync, F: ReadAt + Sync>(
    rt: &T,
    alloc: Global,
    file: &F,
    from: u64,
    to: u64,
    threads: usize,
) -> Option<Vec<Vec<u8>>>
    ensures text { IfSome result (λ pieces. IfSome (F.contents file.now)
        (λ bytes. text_of_pieces pieces.items ≡ drop from bytes)) }
    ensures limit { IfSome result (λ pieces. IfSome (F.contents file.now)
        (λ bytes. length (drop from bytes) ≤ most_input)) }
{
    let length = to.checked_sub(from)?;
    let count = (length / LEAST_PIECE).min(threads as u64);
    if count < 2 || length > MOST_INPUT as u64 {
        return None;
    }
    let cuts = find_cuts(alloc, file, from, length, count)?;
    let pieces = read_cut(rt, alloc, file, from, &cuts, to)?;
    if ends_at(file, to) {
        Some(pieces)
    } else {
        None
    }
}
