//! Streams that count their calls and their failures.
ghost use Rattle.std.specs.Prelude.{◌≡◌, ◌≤◌};
ghost use Rattle.std.specs.Io.{ReadsAtMost, WritesAtMost};
ghost use Rattle.std.specs.Io.KnownBytes.{ReadConsumes, WriteAppends};
ghost use Rattle.game_core.specs.Counting.{after_read, after_write, one_more};

use std::io;
use std::io::{Read, Write};
use std::marker::Model;

/// The largest number of reads of one input, or of writes to one output. After this many calls, callers give up on a stream
/// that has not ended.
pub const MAX_STREAM_CALLS: u32 = 200_000;

/// A stream that counts its failed reads and writes. A call fails if it returns `Err`, even for an interruption. A
/// write of at least one byte also fails if it writes none. The count stops at 2^64 - 1.
///
/// Contracts also see the number of all calls, for clauses that limit reads or writes.
///
/// `Counted` does not implement `Read` or `Write`, because their provided methods would not keep the count.
#[derive(Drop)]
pub struct Counted<S> {
    inner: S,
    called: u64,
    failed: u64,
}

impl<S> Model for Counted<S> {
    ghost use Rattle.game_core.specs.Counting.{Counting};

    ghost Value = { Counting S };

    ghost view = { λ c. record { stream = c.inner; calls = c.called; faults = c.failed } };
}

impl<S> Counted<S> {
    /// Wraps a stream. No failure is counted yet.
    pub fn new(stream: S) -> Counted<S>
        ensures stream { result.stream ≡ stream }
        ensures none_yet { result.faults ≡ 0 }
        ensures not_called { result.calls ≡ 0 }
    {
        Counted {
            inner: stream,
            called: 0,
            failed: 0,
        }
    }

    /// The number of failures since `new`.
    pub fn faults(&self) -> u64
        ensures { result ≡ self.now.faults }
    {
        self.failed
    }

    /// Returns the wrapped stream.
    pub fn end(self) -> S
        ensures { result ≡ self.stream }
    {
        let Counted {
            inner,
            called: _,
            failed: _,
        } = self;
        inner
    }
}

impl<S: Read> Counted<S> {
    /// Calls the stream's `read` once and returns its result.
    pub fn read(&mut self, buffer: &mut [u8]) -> io::Result<usize>
        ensures bound { ReadsAtMost result buffer.new }
        ensures bytes { ReadConsumes (S.remaining self.old.stream) (S.remaining self.new.stream) result buffer.new }
        ensures counted { self.new.faults ≡ after_read result self.old.faults }
        ensures kept { self.old.faults ≤ self.new.faults }
        ensures called { self.new.calls ≡ one_more self.old.calls }
    {
        self.called = self.called.saturating_add(1);
        let given = self.inner.read(buffer);
        if given.is_err() {
            self.failed = self.failed.saturating_add(1);
        }
        given
    }
}

impl<S: Write> Counted<S> {
    /// Calls the stream's `write` once and returns its result.
    pub fn write(&mut self, bytes: &[u8]) -> io::Result<usize>
        ensures bound { WritesAtMost result bytes.now }
        ensures bytes { WriteAppends (S.contents self.old.stream) (S.contents self.new.stream) result bytes.now }
        ensures counted { self.new.faults ≡ after_write result bytes.now self.old.faults }
        ensures kept { self.old.faults ≤ self.new.faults }
        ensures called { self.new.calls ≡ one_more self.old.calls }
    {
        self.called = self.called.saturating_add(1);
        let taken = self.inner.write(bytes);
        let failed = match &taken {
            Ok(count) => *count == 0 && !bytes.is_empty(),
            Err(_) => true,
        };
        if failed {
            self.failed = self.failed.saturating_add(1);
        }
        taken
    }
}
