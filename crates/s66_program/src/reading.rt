//! Reads an input to its end (`read_all`); of a text that is too long for a source a front is kept, which shows why.

ghost use Rattle.std.specs.Prelude.{ℕ, List, ◌≡◌, ◌-◌, ◌^◌, ◌<◌, ◌↔◌, length, vec_len, IfOk, IfErr, IsTrue, OnOk};
ghost use Rattle.s66_program.specs.{ReadsAll, IsFull, IsKeptInput, Puts, IsReadFault};

use crate::fault::Fault;
use crate::limits::{FEED_CALLS, FEED_ROOM};
use s66_device::Feed;
use std::alloc::{AllocError, Global};

/// Room for what a call reads.
fn room(alloc: Global) -> Result<Vec<u8>, AllocError>
    ensures { IfOk result (λ buffer. vec_len buffer ≡ FEED_ROOM) }
{
    vec![in alloc; 0u8; FEED_ROOM]
}

/// Whether no more need be kept.
fn is_full(held: &[u8], most: Option<usize>) -> bool
    ensures { IsTrue result ↔ IsFull most held.now }
{
    match most {
        Some(most) => most <= held.len(),
        None => false,
    }
}

/// Appends bytes to what is kept, unless that is full.
fn put(held: &mut Vec<u8>, bytes: &[u8], most: Option<usize>) -> Result<(), AllocError>
    ensures { OnOk result (Puts most bytes.now held.old.items held.new.items) }
{
    if is_full(held.as_slice(), most) {
        return Ok(());
    }
    held.extend_from_slice(bytes)
}

/// Reads to the end, by `FEED_CALLS` calls at most, each with the whole buffer for room, and keeps the input, or a front of it that is
/// full.
fn read_through<F: Feed>(
    alloc: Global,
    reader: &mut F,
    buffer: &mut [u8],
    most: Option<usize>,
) -> Result<Vec<u8>, Fault>
    requires calls { (F.seen reader.old).failures < 2 ^ 64 - 1 }
    requires room { length buffer.old ≡ FEED_ROOM }
    ensures ok { IfOk result (λ held. (input : List ℕ) × ReadsAll (F.seen reader.old) (F.seen reader.new) input ×
        IsKeptInput most input held.items) }
    ensures err { IfErr result (IsReadFault (F.seen reader.old) (F.seen reader.new)) }
{
    let mut held = Vec::new(alloc);
    'calls: for _ in 0..FEED_CALLS {
        match reader.feed(buffer) {
            Ok(count) => {
                if count == 0 {
                    return Ok(held);
                }
                put(&mut held, &buffer[..count], most)?;
            }
            Err(_) => return Err(Fault::Read),
        }
    }
    Err(Fault::Read)
}

/// Reads to the end, and keeps the input, or a front of it that has `most` bytes at least.
///
/// Errors: `Memory` if memory ran out; `Read` if the reader failed or none of `FEED_CALLS` calls gave the end.
pub(crate) fn read_all<F: Feed>(
    alloc: Global,
    reader: &mut F,
    most: Option<usize>,
) -> Result<Vec<u8>, Fault>
    requires { (F.seen reader.old).failures < 2 ^ 64 - 1 }
    ensures ok { IfOk result (λ held. (input : List ℕ) × ReadsAll (F.seen reader.old) (F.seen reader.new) input ×
        IsKeptInput most input held.items) }
    ensures err { IfErr result (IsReadFault (F.seen reader.old) (F.seen reader.new)) }
{
    let mut buffer = room(alloc)?;
    read_through(alloc, reader, &mut buffer, most)
}
