//! The name by which a block is entered: its label, or that of the line before it.

ghost use Rattle.std.specs.Prelude.{◌≡◌, [], IfOk, ℕ, List};
ghost use Rattle.s66_program.specs.{entries_from, entries_of, entry_at, last_name, or_last};

use crate::statement::{has_operation, name_in};
use s66_line::fields_of;
use s66_source::{FramePart, Source, frame_of};
use std::alloc::{AllocError, Global};
use std::marker::Model;

/// The name by which a block is entered; empty if there is none.
#[derive(Drop)]
pub(crate) struct EntryPoint<'a> {
    pub(crate) name: &'a [u8],
}

impl<'a> Model for EntryPoint<'a> {
    ghost Value = { List ℕ };

    ghost view = { λ e. e.name.now };
}

/// The name of the last line that is neither a comment nor a continuation, after one line more.
fn last_name<'a>(last: &'a [u8], line: &'a [u8]) -> &'a [u8]
    ensures { result.now ≡ last_name last.now line.now }
{
    if has_operation(line) {
        name_in(fields_of(line).location)
    } else {
        last
    }
}

/// The name of a block, by its label or by the line before it.
fn or_last<'a>(name: &'a [u8], last: &'a [u8]) -> &'a [u8]
    ensures { result.now ≡ or_last name.now last.now }
{
    match name {
        [] => last,
        _ => name,
    }
}

/// By what name each block among these parts is entered.
fn entries_among<'a>(
    alloc: Global,
    parts: &[FramePart<'a>],
) -> Result<Vec<EntryPoint<'a>>, AllocError>
    ensures { IfOk result (λ entries. entries.items ≡ entries_from [] parts.now) }
{
    let mut entries = Vec::new(alloc);
    let mut last: &'a [u8] = &[];
    for part in parts {
        if part.is_block {
            let name = or_last(name_in(part.bytes), last);
            entries.push(EntryPoint { name })?;
            last = &[];
        } else {
            last = last_name(last, part.bytes);
        }
    }
    Ok(entries)
}

/// By what name each block of a source is entered. `Err` is out of memory.
pub(crate) fn entries_of<'a>(
    alloc: Global,
    source: &Source<'a>,
) -> Result<Vec<EntryPoint<'a>>, AllocError>
    ensures { IfOk result (λ entries. entries.items ≡ entries_of source.now) }
{
    let parts = frame_of(alloc, source)?;
    let entries = entries_among(alloc, parts.as_slice())?;
    Ok(entries)
}

/// The name of the n-th block, from 1.
pub(crate) fn entry_at<'a>(entries: &[EntryPoint<'a>], number: usize) -> &'a [u8]
    ensures { result.now ≡ entry_at entries.now number }
{
    match entries.get(number.saturating_sub(1)) {
        Some(entry) => entry.name,
        None => &[],
    }
}
