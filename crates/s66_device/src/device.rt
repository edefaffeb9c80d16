//! Where bytes come from (`Feed`) and where they go to (`Sink`), over the readers and writers of `std`, and writing all of a text.

ghost use Rattle.std.specs.Prelude.{◌≡◌, ◌+◌, ◌-◌, ◌^◌, ◌<◌, ◌≤◌, length, IfOk, OnOk, OnErr};
ghost use Rattle.std.specs.Io.KnownBytes.{ReadConsumes, WriteAppends};
ghost use Rattle.s66_device.specs.Devices.{Reader, Writer, Feeds, FeedFails, Written};

use std::io::{Read, Write};
use thiserror::Error;

/// A call of a device failed, and moved no byte.
#[derive(Clone, Copy, Debug, Error)]
#[error("device failed")]
pub struct Failed;

/// The sink failed.
#[derive(Clone, Copy, Debug, Error)]
#[error("write failed")]
pub struct WriteError;

/// Where bytes come from.
pub trait Feed {
    /// What is seen of it.
    ghost seen: { Self → Reader };

    /// Reads into the buffer, and returns how many bytes came: 0 for a non-empty buffer is the end.
    fn feed(&mut self, buffer: &mut [u8]) -> Result<usize, Failed>
        requires { (seen self.old).failures < 2 ^ 64 - 1 }
        ensures bound { IfOk result (λ n. n ≤ length buffer.new) }
        ensures bytes { ReadConsumes (seen self.old).bytes (seen self.new).bytes result buffer.new }
        ensures ok { IfOk result (λ n. Feeds (length buffer.new) n (seen self.old) (seen self.new)) }
        ensures err { OnErr result (FeedFails (seen self.old) (seen self.new)) };
}

/// Where bytes go to.
pub trait Sink {
    /// What is seen of it.
    ghost seen: { Self → Writer };

    /// Takes bytes from the front, at least one if there is one, and returns how many.
    fn sink(&mut self, text: &[u8]) -> Result<usize, Failed>
        requires { (seen self.old).failures < 2 ^ 64 - 1 }
        ensures bound { IfOk result (λ n. n ≤ length text.now) }
        ensures some { IfOk result (λ n. 0 < length text.now → 0 < n) }
        ensures bytes { WriteAppends (seen self.old).bytes (seen self.new).bytes result text.now }
        ensures ok { OnOk result ((seen self.new).failures ≡ (seen self.old).failures) }
        ensures err { OnErr result ((seen self.new).failures ≡ (seen self.old).failures + 1) };
}

/// A reader of std as a feed.
#[derive(Drop)]
pub struct OverRead<R> {
    inner: R,
    reads: u64,
    ends: u64,
    failed: u64,
    least_room: usize,
    most_room: usize,
}

impl<R: Read> OverRead<R> {
    pub fn new(inner: R) -> OverRead<R>
        ensures { result ≡
            record { inner = inner; reads = 0; ends = 0; failed = 0; least_room = 2 ^ 64 - 1; most_room = 0 } }
    {
        OverRead {
            inner,
            reads: 0,
            ends: 0,
            failed: 0,
            least_room: usize::MAX,
            most_room: 0,
        }
    }
}

impl<R: Read> Feed for OverRead<R> {
    ghost seen = { λ s. record {
      bytes = R.remaining s.inner;
      reads = s.reads;
      ends = s.ends;
      failures = s.failed;
      least_room = s.least_room;
      most_room = s.most_room;
    } };

    fn feed(&mut self, buffer: &mut [u8]) -> Result<usize, Failed> {
        match self.inner.read(buffer) {
            Ok(count) => {
                if count > 0 {
                    self.reads = self.reads.saturating_add(1);
                } else {
                    self.ends = self.ends.saturating_add(1);
                }
                self.least_room = self.least_room.min(buffer.len());
                self.most_room = self.most_room.max(buffer.len());
                Ok(count)
            }
            Err(_) => {
                self.failed += 1;
                Err(Failed)
            }
        }
    }
}

/// A writer of std as a sink: a write that takes no byte of some has failed.
#[derive(Drop)]
pub struct OverWrite<W> {
    inner: W,
    failed: u64,
}

impl<W: Write> OverWrite<W> {
    pub fn new(inner: W) -> OverWrite<W>
        ensures { result ≡ record { inner = inner; failed = 0 } }
    {
        OverWrite { inner, failed: 0 }
    }

    /// The writer, with what it took.
    pub fn into_inner(self) -> W
        ensures { ⟦<W as Write>⟧.contents result ≡ (⟦<OverWrite<W> as Sink>⟧.seen self).bytes }
    {
        let OverWrite { inner, failed: _ } = self;
        inner
    }
}

impl<W: Write> Sink for OverWrite<W> {
    ghost seen = { λ s. record { bytes = W.contents s.inner; failures = s.failed } };

    fn sink(&mut self, text: &[u8]) -> Result<usize, Failed> {
        match self.inner.write(text) {
            Ok(count) => {
                if count > 0 || text.is_empty() {
                    Ok(count)
                } else {
                    self.failed += 1;
                    Err(Failed)
                }
            }
            Err(_) => {
                self.failed += 1;
                Err(Failed)
            }
        }
    }
}

/// Writes all of a text.
pub fn write_all<S: Sink>(writer: &mut S, text: &[u8]) -> Result<(), WriteError>
    requires { (S.seen writer.old).failures < 2 ^ 64 - 1 }
    ensures { Written (S.seen writer.old) (S.seen writer.new) text.now result }
{
    let mut at = 0;
    while at < text.len() {
        match writer.sink(&text[at..]) {
            Ok(count) => at += count,
            Err(_) => return Err(WriteError),
        }
    }
    Ok(())
}
