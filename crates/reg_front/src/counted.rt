//! A reader or a writer of the standard library whose failed calls are counted.

ghost use Rattle.std.specs.Prelude.{◌≡◌, ◌<◌, ◌+◌, ◌-◌, ◌^◌};
ghost use Rattle.reg_front.specs.Counting.{counted_inner, counted_failures, counted_flushed, counted_stream};

use crate::stream::{CallFailed, Sink, Source};
use std::io;
use std::io::{Read, Write};

/// Any reader or writer, with the number of its calls that have failed, and whether it has accepted a flush since the
/// last call of `write`.
#[derive(Drop)]
pub struct Counted<T> {
    inner: T,
    failures: u64,
    flushed: bool,
    expected: usize,
}

impl<T> Counted<T> {
    /// No call has failed so far.
    pub fn new(inner: T) -> Counted<T>
        ensures inner { counted_inner result ≡ inner }
        ensures failures { counted_failures result ≡ 0 }
    {
        Counted {
            inner,
            failures: 0,
            flushed: false,
            expected: 0,
        }
    }

    /// The same, as a reader of which so many bytes are expected ([`Source::expected`]).
    pub fn expecting(self, expected: usize) -> Counted<T>
        ensures inner { counted_inner result ≡ counted_inner self }
        ensures failures { counted_failures result ≡ counted_failures self }
        ensures flushed { counted_flushed result ≡ counted_flushed self }
    {
        Counted {
            inner: self.inner,
            failures: self.failures,
            flushed: self.flushed,
            expected,
        }
    }

    // Counts a failed call.
    fn fail(&mut self) -> CallFailed
        requires { counted_failures self.old < 2 ^ 64 - 1 }
        ensures inner { counted_inner self.new ≡ counted_inner self.old }
        ensures failures { counted_failures self.new ≡ counted_failures self.old + 1 }
        ensures flushed { counted_flushed self.new ≡ counted_flushed self.old }
    {
        self.failures += 1;
        CallFailed
    }
}

impl<R: Read> Source for Counted<R> {
    ghost stream = { counted_stream R.remaining };

    fn read(&mut self, buf: &mut [u8]) -> Result<usize, CallFailed> {
        match self.inner.read(buf) {
            Ok(count) => Ok(count),
            Err(_) => Err(self.fail()),
        }
    }

    fn expected(&self) -> usize {
        self.expected
    }
}

impl<W: Write> Sink for Counted<W> {
    ghost stream = { counted_stream W.contents };

    fn write(&mut self, buf: &[u8]) -> Result<usize, CallFailed> {
        self.flushed = false;
        match self.inner.write(buf) {
            Ok(count) if count > 0 || buf.is_empty() => Ok(count),
            Ok(_) | Err(_) => Err(self.fail()),
        }
    }

    fn flush(&mut self) -> Result<(), CallFailed> {
        match self.inner.flush() {
            Ok(()) => {
                self.flushed = true;
                Ok(())
            }
            Err(_) => Err(self.fail()),
        }
    }
}

// For text whose failed calls need no count, as a help text.
impl<W: Write> Write for Counted<W> {
    ghost contents = { λ counted. W.contents counted.inner };

    fn write(&mut self, buf: &[u8]) -> io::Result<usize> {
        self.flushed = false;
        self.inner.write(buf)
    }

    fn flush(&mut self) -> io::Result<()> {
        self.inner.flush()
    }
}
