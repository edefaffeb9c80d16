//! The frame of a source: the places of its blocks, and all lines that stand beside them, for `compare`.

ghost use Rattle.std.specs.Prelude.{◌≡◌, ◌<◌, ◌++◌, suc, if◌then◌else◌, option_map, slice_get, IfOk, OnOk, option_to_list};
ghost use Rattle.s66_line.specs.{from_location};
ghost use Rattle.s66_source.specs.{block_part, frame_of, begins_at, is_beside_by, part_by, SOURCE_LINES_LIMIT};

use crate::kept::{KeptLine, LineKind, begins_at, count_after, first_line, has_block};
use crate::source::Source;
use s66_line::{Block, without_trailing};
use std::alloc::{AllocError, Global};
use std::marker::Model;

/// What stands in a source beside the instructions of its blocks: the place of a block, or another line.
#[derive(Drop)]
pub struct FramePart<'a> {
    /// The number of the line, or of that of the block's first instruction.
    pub line: u32,
    /// Whether a block stands here.
    pub is_block: bool,
    /// The label of the block, or the line without the blanks and carriage returns at its end.
    pub bytes: &'a [u8],
}

impl<'a> Model for FramePart<'a> {
    ghost use Rattle.s66_source.specs.Frame.{FramePart};

    ghost Value = { FramePart };

    ghost view = { λ p. record { line = p.line; is_block = p.is_block; bytes = p.bytes.now } };
}

/// A label without the blank before it.
fn without_first_blank(label: &[u8]) -> &[u8]
    ensures { result.now ≡ from_location label.now }
{
    match label {
        [b' ', rest @ ..] => rest,
        _ => label,
    }
}

/// The place of a block.
fn block_part<'a>(block: &Block<'a>) -> FramePart<'a>
    ensures { result ≡ block_part block.now }
{
    FramePart {
        line: first_line(block),
        is_block: true,
        bytes: without_first_blank(block.label()),
    }
}

/// Whether a line stands beside the blocks, by the lines of its source and the block that begins next.
fn is_beside(lines: &[KeptLine], next: Option<&Block>, line: &KeptLine) -> bool
    ensures { result ≡ is_beside_by lines.now (option_map (λ block. block.now) next.entry) line.now }
{
    match line.kind {
        LineKind::Other => true,
        LineKind::Pad => !has_block(lines, next, line),
        _ => false,
    }
}

/// What a line is of the frame, by its number, the lines of its source, and the block that begins next.
fn part_at<'a>(
    lines: &[KeptLine],
    next: Option<&Block<'a>>,
    number: u32,
    line: &KeptLine<'a>,
) -> Option<FramePart<'a>>
    ensures { option_to_list result ≡ part_by lines.now (option_map (λ block. block.now) next.entry) number line.now }
{
    if let Some(block) = next {
        let part = block_part(block);
        if part.line == number {
            return Some(part);
        }
    }
    if is_beside(lines, next, line) {
        return Some(FramePart {
            line: number,
            is_block: false,
            bytes: without_trailing(line.bytes),
        });
    }
    None
}

/// Appends what a line is of the frame, by its number, the lines of its source, and the block that begins next.
fn push_part<'a>(
    parts: &mut Vec<FramePart<'a>>,
    lines: &[KeptLine],
    next: Option<&Block<'a>>,
    number: u32,
    line: &KeptLine<'a>,
) -> Result<(), AllocError>
    ensures { OnOk result (parts.new.items ≡ parts.old.items ++
        part_by lines.now (option_map (λ block. block.now) next.entry) number line.now) }
{
    match part_at(lines, next, number, line) {
        Some(part) => {
            parts.push(part)?;
            Ok(())
        }
        None => Ok(()),
    }
}

/// Passes a line, before which so many blocks begin, and appends what it is of the frame. Returns how many begin up to it.
fn pass_line<'a>(
    parts: &mut Vec<FramePart<'a>>,
    lines: &[KeptLine],
    blocks: &[Block<'a>],
    begun: usize,
    number: u32,
    line: &KeptLine<'a>,
) -> Result<usize, AllocError>
    requires { begun < SOURCE_LINES_LIMIT }
    ensures parts { OnOk result (parts.new.items ≡ parts.old.items ++
        part_by lines.now (slice_get blocks.now begun) number line.now) }
    ensures begun { IfOk result (λ after. after ≡
        (if begins_at (slice_get blocks.now begun) number then suc begun else begun)) }
{
    let next = blocks.get(begun);
    push_part(parts, lines, next, number, line)?;
    Ok(count_after(begun, begins_at(next, number)))
}

/// What stands in a source beside the instructions of its blocks, in the order of its lines, in one pass over these. `Err` is out of
/// memory.
pub fn frame_of<'a>(alloc: Global, source: &Source<'a>) -> Result<Vec<FramePart<'a>>, AllocError>
    ensures { IfOk result (λ parts. parts.items ≡ frame_of source.now) }
{
    let lines = source.lines();
    let blocks = source.blocks();
    let mut parts = Vec::new(alloc);
    let mut number = 0;
    let mut begun = 0;
    for line in lines {
        number += 1;
        begun = pass_line(&mut parts, lines, blocks, begun, number, line)?;
    }
    Ok(parts)
}
