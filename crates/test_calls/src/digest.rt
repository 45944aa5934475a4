//! A digest of values, which takes no memory.

use std::fmt::{Debug, Write};
use std::{fmt, io};

/// A number that tells values and texts apart: the 64-bit FNV-1a hash of the bytes of a text, or of what `{:?}` writes
/// of values.
#[derive(Clone, Copy, PartialEq, Eq)]
pub struct Digest {
    hash: u64,
}

impl Digest {
    /// The digest of nothing.
    pub fn new() -> Digest {
        Digest {
            hash: 0xcbf2_9ce4_8422_2325,
        }
    }

    /// Adds bytes.
    pub(crate) fn add_bytes(&mut self, bytes: &[u8]) {
        for byte in bytes {
            self.hash = (self.hash ^ u64::from(*byte)).wrapping_mul(0x0000_0100_0000_01b3);
        }
    }

    /// Adds a value.
    pub(crate) fn add<T: Debug>(&mut self, value: &T) {
        // A digest takes every text.
        let _ = write!(self, "{value:?};");
    }
}

impl Write for Digest {
    fn write_str(&mut self, text: &str) -> fmt::Result {
        self.add_bytes(text.as_bytes());
        Ok(())
    }
}

impl io::Write for Digest {
    fn write(&mut self, bytes: &[u8]) -> io::Result<usize> {
        self.add_bytes(bytes);
        Ok(bytes.len())
    }

    fn flush(&mut self) -> io::Result<()> {
        Ok(())
    }
}

/// The digest of one value.
pub(crate) fn digest_of<T: Debug>(value: &T) -> Digest {
    let mut digest = Digest::new();
    digest.add(value);
    digest
}
