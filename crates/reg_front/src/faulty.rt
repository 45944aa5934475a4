//! A reader and a writer in memory that fails at one of its calls.

ghost use Rattle.std.specs.Prelude.{◌≡◌, ◌≢◌, ◌<◌, ◌≤◌, [], Some, false, length, IfOk, OnErr, OnOk};
ghost use Rattle.std.specs.Io.{ReadsAtMost, WritesAtMost};
ghost use Rattle.std.specs.Io.KnownBytes.{Keeps, ReadConsumes, WriteAppends};
ghost use Rattle.reg_front.specs.Streams.{CanFail, HasFailed, IsFlushed, IsGood};
ghost use Rattle.reg_front.specs.Faulting.{IsCalled, failing_call, most_of, sink_of, source_of};

use crate::calls::Calls;
use crate::stream::{CallFailed, Sink, Source};
use std::alloc::Global;
use std::io::{Cursor, Read};

/// A reader and a writer in memory, to try what a command does on streams that fail: each call moves few bytes, and one
/// call fails.
#[derive(Drop)]
pub struct Faulty {
    left: Cursor<Vec<u8>>,
    written: Vec<u8>,
    flushed: bool,
    calls: Calls,
}

impl Faulty {
    /// A device that has these bytes to read, moves at most `most` bytes in a call, and fails at its call number
    /// `call`, counted from 1 over all reads, writes and flushes, or at none if that is 0. `most` must be 1 or more. A
    /// write fails also if memory runs out.
    pub fn new(alloc: Global, bytes: Vec<u8>, most: usize, call: usize) -> Faulty
        requires { 0 < most }
        ensures source { source_of result ≡ record { bytes = Some bytes.items; failures = 0; flushed = false } }
        ensures sink { sink_of result ≡ record { bytes = Some []; failures = 0; flushed = false } }
        ensures most { most_of result ≡ most }
        ensures call { failing_call result ≡ call }
    {
        Faulty {
            left: Cursor::new(bytes),
            written: Vec::new(alloc),
            flushed: false,
            calls: Calls {
                most,
                until_failure: call,
                failures: 0,
            },
        }
    }

    /// What was written so far.
    pub fn written(&self) -> &[u8]
        ensures { Some result.now ≡ (sink_of self.now).bytes }
    {
        &self.written
    }
}

impl Source for Faulty {
    ghost stream = { source_of };

    fn read(&mut self, buf: &mut [u8]) -> Result<usize, CallFailed>
        requires { CanFail (source_of self.old) }
        ensures bound { ReadsAtMost result buf.new }
        ensures bytes { ReadConsumes (source_of self.old).bytes (source_of self.new).bytes result buf.new }
        ensures good { OnOk result (IsGood (source_of self.old) (source_of self.new)) }
        ensures failed { OnErr result (HasFailed (source_of self.old) (source_of self.new)) }
        ensures called { IsCalled self.old self.new }
        ensures most { IfOk result (λ count. count ≤ most_of self.old) }
        ensures due { OnErr result (failing_call self.old ≡ 1) }
        ensures not_due { OnOk result (failing_call self.old ≢ 1) }
    {
        self.calls.begin()?;
        let most = buf.len().min(self.calls.most);
        match self.left.read(&mut buf[..most]) {
            Ok(count) => Ok(count),
            Err(_) => unreachable!(),
        }
    }
}

impl Sink for Faulty {
    ghost stream = { sink_of };

    fn write(&mut self, buf: &[u8]) -> Result<usize, CallFailed>
        requires { CanFail (sink_of self.old) }
        ensures bound { WritesAtMost result buf.now }
        ensures some { 0 < length buf.now → IfOk result (λ count. 0 < count) }
        ensures bytes { WriteAppends (sink_of self.old).bytes (sink_of self.new).bytes result buf.now }
        ensures unflushed { (sink_of self.new).flushed ≡ false }
        ensures good { OnOk result (IsGood (sink_of self.old) (sink_of self.new)) }
        ensures failed { OnErr result (HasFailed (sink_of self.old) (sink_of self.new)) }
        ensures called { IsCalled self.old self.new }
        ensures most { IfOk result (λ count. count ≤ most_of self.old) }
        ensures not_due { OnOk result (failing_call self.old ≢ 1) }
    {
        self.flushed = false;
        self.calls.begin()?;
        let most = buf.len().min(self.calls.most);
        match self.written.extend_from_slice(&buf[..most]) {
            Ok(()) => Ok(most),
            Err(_) => Err(self.calls.fail()),
        }
    }

    fn flush(&mut self) -> Result<(), CallFailed>
        requires { CanFail (sink_of self.old) }
        ensures bytes { Keeps (sink_of self.old).bytes (sink_of self.new).bytes }
        ensures flushed { OnOk result (IsFlushed (sink_of self.new)) }
        ensures good { OnOk result (IsGood (sink_of self.old) (sink_of self.new)) }
        ensures failed { OnErr result (HasFailed (sink_of self.old) (sink_of self.new)) }
        ensures called { IsCalled self.old self.new }
        ensures due { OnErr result (failing_call self.old ≡ 1) }
        ensures not_due { OnOk result (failing_call self.old ≢ 1) }
    {
        self.calls.begin()?;
        self.flushed = true;
        Ok(())
    }
}
