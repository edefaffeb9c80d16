//! The loops that branches behind blocks close, and how many words of 60 bits each takes before and after, for `sum --words`.

ghost use Rattle.std.specs.Prelude.{◌≡◌, ◌≤◌, ◌<◌, ◌+◌, ◌^◌, IfOk, IfSome, None, drop, length, reverse};
ghost use Rattle.s66_source.specs.{ArePlaced};
ghost use Rattle.s66_program.specs.{begin_at, counted, loop_at, loops_of, loop_or_else, loop_start_before, loop_start_of, step_after, word_from, Branch, LOOP_LIMIT};

use crate::limits::LOOP_LIMIT;
use crate::statement::{Step, begins_word, is_same, name_of, passes, step_of, target_of};
use crate::words::{WORD, parcel_after, words_for};
use s66_line::Block;
use s66_source::{FramePart, Placed, Source, frame_of};
use s66_time::Order;
use std::alloc::{AllocError, Global};
use std::marker::Model;

/// How many words a loop takes as it is written, and with its blocks in the orders that were found for them.
#[derive(Clone, Copy)]
pub(crate) struct Loop {
    pub(crate) source_words: u32,
    pub(crate) words: u32,
}

/// Where a loop begins.
#[derive(Clone, Copy)]
pub(crate) struct Start {
    /// How many blocks and lines it has before the branch.
    parts: usize,
    /// How many blocks are among them.
    blocks: usize,
}

/// Some blocks of a source, and the order that was found for each.
#[derive(Drop)]
struct Orders<'s, 'a> {
    /// How many blocks come before these.
    before: usize,
    blocks: &'s [Block<'a>],
    found: &'s [Placed],
}

impl<'s, 'a> Model for Orders<'s, 'a> {
    ghost use Rattle.s66_program.specs.Loops.{Orders};

    ghost Value = { Orders };

    ghost view = { λ o. record { before = o.before; blocks = o.blocks.now; found = o.found.now } };
}

/// The first parcel of the next word, or this one if it is that.
fn word_from(parcel: u32) -> u32
    requires { parcel ≤ 1000000 }
    ensures value { result ≡ word_from parcel }
    ensures near { result ≤ parcel + 3 }
{
    WORD * words_for(parcel)
}

/// Where a block or a line begins that would begin with this parcel.
fn begin_at(parcel: u32, part: &FramePart) -> u32
    requires { parcel ≤ 1000000 }
    ensures value { result ≡ begin_at parcel part.now }
    ensures near { result ≤ parcel + 3 }
{
    if begins_word(part) {
        word_from(parcel)
    } else {
        parcel
    }
}

/// The parcel behind a branch, which takes two.
fn branch_after(parcel: u32) -> u32
    requires { parcel ≤ 1000000 }
    ensures value { result ≡ step_after Branch parcel }
    ensures near { result ≤ parcel + 3 }
{
    if parcel % WORD == 3 {
        parcel + 3
    } else {
        parcel + 2
    }
}

/// The parcel behind a line that begins with this one.
fn step_after(step: Step, parcel: u32) -> u32
    requires { parcel ≤ 900000 }
    ensures value { result ≡ step_after step parcel }
    ensures near { result ≤ parcel + 6 }
{
    match step {
        Step::Word => word_from(parcel),
        Step::Branch => branch_after(parcel),
        Step::Jump => word_from(branch_after(parcel)),
        Step::Nothing | Step::End => parcel,
    }
}

/// So many blocks, and one more if this is one.
fn counted(blocks: usize, part: &FramePart) -> usize
    requires { blocks < 2 ^ 63 }
    ensures value { result ≡ counted blocks part.now }
    ensures near { result ≤ blocks + 1 }
{
    if part.is_block { blocks + 1 } else { blocks }
}

/// Of the parts before a branch those from the last with this name on, if a loop may go through all of them.
fn start_before(earlier: &[FramePart], name: &[u8]) -> Option<Start>
    requires { length earlier.now ≤ LOOP_LIMIT }
    ensures value { result ≡ loop_start_before name.now 0 0 (reverse earlier.now) }
    ensures within { IfSome result (λ s. s.parts ≤ length earlier.now) }
    ensures few { IfSome result (λ s. s.blocks ≤ LOOP_LIMIT) }
{
    let mut rest = earlier;
    let mut parts = 0;
    let mut blocks = 0;
    while let [before @ .., part] = rest {
        if !passes(part) {
            return None;
        }
        parts += 1;
        blocks = counted(blocks, part);
        if is_same(name_of(part), name) {
            return Some(Start { parts, blocks });
        }
        rest = before;
    }
    None
}

/// Where the loop begins that the line at a place closes, if it goes back to a name.
fn start_of(parts: &[FramePart], at: usize, target: &[u8]) -> Option<Start>
    requires { at ≤ length parts.now }
    ensures value { result ≡ loop_start_of parts.now at target.now }
    ensures within { IfSome result (λ s. s.parts ≤ at) }
    ensures few { IfSome result (λ s. (s.parts ≤ LOOP_LIMIT) × (s.blocks ≤ LOOP_LIMIT)) }
{
    if target.is_empty() {
        return None;
    }
    start_before(&parts[at.saturating_sub(LOOP_LIMIT)..at], target)
}

/// The first loop, or the second one if there is none.
fn or_else(closed: Option<Loop>, other: Option<Loop>) -> Option<Loop>
    ensures { result ≡ loop_or_else closed other }
{
    match closed {
        Some(closed) => Some(closed),
        None => other,
    }
}

impl<'s, 'a> Orders<'s, 'a> {
    ghost use Rattle.std.specs.Prelude.{◌≡◌, ◌≤◌, ◌<◌, ◌+◌, ◌*◌, ◌^◌, IfOk, None, drop, length, slice_get};
    ghost use Rattle.s66_source.specs.{ArePlaced};
    ghost use Rattle.s66_program.specs.{block_after, loop_behind, loop_closed, loop_through, loops_from, parcels_through, part_after, Branch, LOOP_LIMIT};

    /// The parcel behind the block at a place that begins with this one.
    fn block_after(&self, as_found: bool, parcel: u32, place: usize) -> u32
        requires small { parcel ≤ 900000 }
        requires placed { ArePlaced self.now.blocks self.now.found }
        ensures value { result ≡ block_after as_found parcel (slice_get self.now.blocks place) (slice_get self.now.found place) }
        ensures near { result ≤ parcel + 384 }
    {
        let Some(block) = self.blocks.get(place) else {
            return parcel;
        };
        let Some(found) = self.found.get(place) else {
            return parcel;
        };
        if as_found {
            parcel_after(block, found.order.as_slice(), parcel)
        } else {
            parcel_after(block, Order::source(block).numbers(), parcel)
        }
    }

    /// The parcel behind a part that would begin with this one.
    fn part_after(&self, as_found: bool, place: usize, parcel: u32, part: &FramePart) -> u32
        requires small { parcel ≤ 800000 }
        requires placed { ArePlaced self.now.blocks self.now.found }
        ensures value { result ≡ part_after self.now as_found place parcel part.now }
        ensures near { result ≤ parcel + 400 }
    {
        let begin = begin_at(parcel, part);
        if part.is_block {
            self.block_after(as_found, begin, place)
        } else {
            step_after(step_of(part.bytes), begin)
        }
    }

    /// The parcel behind these parts, of whose blocks the first is at this place.
    fn parcels_through(&self, as_found: bool, place: usize, parts: &[FramePart]) -> u32
        requires few { length parts.now ≤ LOOP_LIMIT + 1 }
        requires place { place < 2 ^ 62 }
        requires placed { ArePlaced self.now.blocks self.now.found }
        ensures { result ≡ parcels_through self.now as_found place 0 parts.now }
    {
        let mut parcel = 0;
        let mut place = place;
        for part in parts {
            parcel = self.part_after(as_found, place, parcel, part);
            place = counted(place, part);
        }
        parcel
    }

    /// The words of these parts, of whose blocks the first is at this place.
    fn loop_through(&self, place: usize, parts: &[FramePart]) -> Loop
        requires few { length parts.now ≤ LOOP_LIMIT + 1 }
        requires place { place < 2 ^ 62 }
        requires placed { ArePlaced self.now.blocks self.now.found }
        ensures { result ≡ loop_through self.now place parts.now }
    {
        Loop {
            source_words: words_for(self.parcels_through(false, place, parts)),
            words: words_for(self.parcels_through(true, place, parts)),
        }
    }

    /// The loop that the line at a place closes, before which so many blocks come.
    fn loop_closed(
        &self,
        parts: &[FramePart],
        at: usize,
        blocks: usize,
        line: &FramePart,
    ) -> Option<Loop>
        requires at { at < length parts.now }
        requires before { self.now.before < 2 ^ 32 }
        requires blocks { blocks < 2 ^ 62 }
        requires placed { ArePlaced self.now.blocks self.now.found }
        ensures { result ≡ loop_closed self.now parts.now at blocks line.now }
    {
        let start = start_of(parts, at, target_of(line))?;
        let known = self.before + start.blocks;
        if start.blocks == 0 || blocks < known {
            return None;
        }
        let through = &parts[at - start.parts..at + 1];
        Some(self.loop_through(blocks - known, through))
    }

    /// The last loop that a line behind a block closes, of those from a place on, before which so many blocks come.
    fn loop_behind(&self, parts: &[FramePart], blocks: usize, place: usize) -> Option<Loop>
        requires place { place ≤ length parts.now }
        requires before { self.now.before < 2 ^ 32 }
        requires blocks { blocks < 2 ^ 62 }
        requires placed { ArePlaced self.now.blocks self.now.found }
        ensures { result ≡ loop_behind self.now parts.now blocks place None (drop place parts.now) }
    {
        let mut closed = None;
        for at in place..parts.len() {
            let part = &parts[at];
            if part.is_block || step_of(part.bytes).is_end() {
                return closed;
            }
            closed = or_else(self.loop_closed(parts, at, blocks, part), closed);
        }
        closed
    }

    /// The loop that is closed behind each block.
    fn loops(&self, alloc: Global, parts: &[FramePart]) -> Result<Vec<Option<Loop>>, AllocError>
        requires before { self.now.before < 2 ^ 32 }
        requires placed { ArePlaced self.now.blocks self.now.found }
        ensures { IfOk result (λ loops. loops.items ≡ loops_from self.now parts.now 0 0 parts.now) }
    {
        let mut loops = Vec::new(alloc);
        let mut blocks = 0;
        for (at, part) in parts.iter().enumerate() {
            if part.is_block {
                blocks += 1;
                loops.push(self.loop_behind(parts, blocks, at + 1))?;
            }
        }
        Ok(loops)
    }
}

/// The loop that a branch closes behind each block of a source. These orders were found for some of its blocks, before which so many
/// come; what goes through another block is no loop. `Err` is out of memory.
pub(crate) fn loops_of(
    alloc: Global,
    source: &Source,
    before: usize,
    blocks: &[Block],
    found: &[Placed],
) -> Result<Vec<Option<Loop>>, AllocError>
    requires before { before < 2 ^ 32 }
    requires placed { ArePlaced blocks.now found.now }
    ensures { IfOk result (λ loops. loops.items ≡
        loops_of (record { before = before; blocks = blocks.now; found = found.now }) source.now) }
{
    let parts = frame_of(alloc, source)?;
    let orders = Orders {
        before,
        blocks,
        found,
    };
    let loops = orders.loops(alloc, parts.as_slice())?;
    Ok(loops)
}

/// The loop behind the n-th block, from 1.
pub(crate) fn loop_at(loops: &[Option<Loop>], number: usize) -> Option<Loop>
    ensures { result ≡ loop_at loops.now number }
{
    match loops.get(number.saturating_sub(1)) {
        Some(closed) => *closed,
        None => None,
    }
}
