//! A source that is a file: its bytes may be read ahead in pieces, else they come by one call after another.

ghost use Rattle.std.specs.Prelude.{◌≡◌, List, Option, ℕ, IfSome};
ghost use Rattle.std.proofs.Props.{props};
ghost use Rattle.reg_front.specs.Ranges.{Agrees, AreAhead, ended_if};

use crate::offset::read_offset;
use crate::ranges::{ReadAt, read_in_pieces};
use crate::stream::{CallFailed, Source};
use std::alloc::Global;
use std::io::Read;
use std::thread::Threads;

// How many bytes of its state are read.
const STATE_ROOM: usize = 64;

/// A source, and the file that it reads, as long as nothing of it has been read.
#[derive(Drop)]
pub struct Ranged<R: Source, F: ReadAt, S: Read> {
    source: R,
    // The file, and the text that tells from where the source reads it.
    file: Option<(F, S)>,
    to: u64,
    // All that the source has left.
    pieces: Option<Vec<Vec<u8>>>,
    is_at_end: bool,
    ghost agrees: { IfSome file
        (λ f. Agrees (R.stream source).bytes (F.contents f.0) (S.remaining f.1)) } by { Prim.hlevel props },
    ghost ahead: { IfSome pieces (λ p. AreAhead (R.stream source).bytes p.items) } by { Prim.hlevel props },
}

// All bytes of the file from the offset on that the state tells, in pieces.
fn read_rest<T: Threads + Sync, F: ReadAt + Sync, S: Read>(
    rt: &T,
    alloc: Global,
    file: &F,
    state: &mut S,
    to: u64,
    threads: usize,
) -> Option<Vec<Vec<u8>>>
    ensures { IfSome result (λ pieces. (left : Option (List ℕ))
        → Agrees left (F.contents file.now) (S.remaining state.old) → AreAhead left pieces.items) }
{
    let from = read_offset(state, &mut [0; STATE_ROOM])?;
    let pieces = read_in_pieces(rt, alloc, file, from, to, threads)?;
    Some(pieces)
}

impl<R: Source, F: ReadAt + Sync + Drop, S: Read + Drop> Ranged<R, F, S> {
    ghost use Rattle.reg_front.specs.Ranging.{ranged_stream};

    /// The source as it is, and the file that it reads, with the text that tells the source's offset in it. Where the
    /// source's bytes are known, they are those of the file from that offset on. `to` is how many bytes the file had
    /// when it was asked; nothing is promised of it.
    pub fn new(source: R, file: Option<(F, S)>, to: u64) -> Ranged<R, F, S>
        requires { IfSome file (λ f. Agrees (R.stream source).bytes (F.contents f.0) (S.remaining f.1)) }
        ensures { ranged_stream R.stream result ≡ R.stream source }
    {
        Ranged {
            source,
            file,
            to,
            pieces: None,
            is_at_end: false,
        }
    }

    /// Reads its file in pieces by at most so many threads, if it is long and nothing of it was read. If that fails,
    /// its bytes come by calls of `read`.
    pub fn read_ahead<T: Threads + Sync>(&mut self, rt: &T, alloc: Global, threads: usize)
        ensures { ranged_stream R.stream self.new ≡ ranged_stream R.stream self.old }
    {
        if let Some(mut file) = self.file.take() {
            self.pieces = read_rest(rt, alloc, &file.0, &mut file.1, self.to, threads);
        }
    }
}

impl<R: Source, F: ReadAt + Drop, S: Read + Drop> Source for Ranged<R, F, S> {
    ghost stream = { λ ranged. ended_if ranged.is_at_end (R.stream ranged.source) };

    fn read(&mut self, buf: &mut [u8]) -> Result<usize, CallFailed> {
        if self.is_at_end {
            return Ok(0);
        }
        self.file = None;
        self.pieces = None;
        self.source.read(buf)
    }

    fn expected(&self) -> usize {
        self.source.expected()
    }

    fn take_pieces(&mut self) -> Option<Vec<Vec<u8>>> {
        if self.is_at_end {
            return None;
        }
        let pieces = self.pieces.take()?;
        self.is_at_end = true;
        Some(pieces)
    }
}
