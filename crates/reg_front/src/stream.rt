//! What a command reads from and writes to.

ghost use Rattle.std.specs.Prelude.{◌≡◌, ◌<◌, false, length, IfOk, IfSome, IsNone, OnErr, OnOk};
ghost use Rattle.std.specs.Io.{ReadsAtMost, WritesAtMost};
ghost use Rattle.std.specs.Io.KnownBytes.{Keeps, ReadConsumes, WriteAppends};
ghost use Rattle.reg_text.specs.Pieces.{text_of_pieces};
ghost use Rattle.reg_front.specs.Streams.{CanFail, HasFailed, IsFlushed, IsGood, Stream};
ghost use Rattle.reg_front.specs.Devices.{IsReadWhole};

use thiserror::Error;

/// A call of a [`Source`] or a [`Sink`] failed, and was counted.
#[derive(Clone, Copy, Debug, PartialEq, Eq, Error)]
#[error("the call failed")]
pub struct CallFailed;

/// A reader that tells its bytes and counts its failed calls. Both are for proofs alone. `read` may be called only
/// while fewer than 2^64 - 1 calls have failed.
pub trait Source {
    // The bytes that it has left, if they are known, and how many of its calls have failed.
    ghost stream: { Self → Stream };

    /// Puts bytes into the front of `buf`, and answers how many. It gives none only at its end, or if `buf` is empty.
    ///
    /// # Errors
    /// [`CallFailed`] if the call failed. It has given no byte then.
    fn read(&mut self, buf: &mut [u8]) -> Result<usize, CallFailed>
        requires { CanFail (stream self.old) }
        ensures bound { ReadsAtMost result buf.new }
        ensures bytes { ReadConsumes (stream self.old).bytes (stream self.new).bytes result buf.new }
        ensures good { OnOk result (IsGood (stream self.old) (stream self.new)) }
        ensures failed { OnErr result (HasFailed (stream self.old) (stream self.new)) };

    /// How many bytes are likely left, so that room for them can be made at once: 0 if that is not known. Nothing is
    /// promised of it.
    fn expected(&self) -> usize {
        0
    }

    /// All bytes that it has left, in pieces, one behind the other, if it has read ahead. If not, it is as it was, and
    /// its bytes come by calls of `read`.
    fn take_pieces(&mut self) -> Option<Vec<Vec<u8>>>
        ensures text { IfSome result (λ pieces. IfSome (stream self.old).bytes
            (λ bytes. text_of_pieces pieces.items ≡ bytes)) }
        ensures whole { IfSome result (λ pieces. IsReadWhole (stream self.old) (stream self.new)) }
        ensures kept { IsNone result → stream self.new ≡ stream self.old }
    {
        None
    }
}

/// A writer that tells its bytes, counts its failed calls, and tells whether it is flushed. All this is for proofs
/// alone. A call may be made only while fewer than 2^64 - 1 calls have failed.
pub trait Sink {
    // The bytes that it holds, if they are known, how many of its calls have failed, and whether it has accepted a
    // flush since the last call of `write`.
    ghost stream: { Self → Stream };

    /// Takes bytes from the front of `buf`, and answers how many. To take none of some is a failed call.
    ///
    /// # Errors
    /// [`CallFailed`] if the call failed. It has taken no byte then.
    fn write(&mut self, buf: &[u8]) -> Result<usize, CallFailed>
        requires { CanFail (stream self.old) }
        ensures bound { WritesAtMost result buf.now }
        ensures some { 0 < length buf.now → IfOk result (λ count. 0 < count) }
        ensures bytes { WriteAppends (stream self.old).bytes (stream self.new).bytes result buf.now }
        ensures unflushed { (stream self.new).flushed ≡ false }
        ensures good { OnOk result (IsGood (stream self.old) (stream self.new)) }
        ensures failed { OnErr result (HasFailed (stream self.old) (stream self.new)) };

    /// Hands on what it holds.
    ///
    /// # Errors
    /// [`CallFailed`] if the call failed.
    fn flush(&mut self) -> Result<(), CallFailed>
        requires { CanFail (stream self.old) }
        ensures bytes { Keeps (stream self.old).bytes (stream self.new).bytes }
        ensures flushed { OnOk result (IsFlushed (stream self.new)) }
        ensures good { OnOk result (IsGood (stream self.old) (stream self.new)) }
        ensures failed { OnErr result (HasFailed (stream self.old) (stream self.new)) };
}
