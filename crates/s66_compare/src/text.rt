//! The text of `compare`: a line for each row, which is a pair of blocks or a block that one source alone has, where what stands beside
//! the blocks differs, and the sums.

ghost use Rattle.std.specs.Prelude.{◌≡◌, ◌≤◌, ◌*◌, ◌^◌, ◌<◌, ◌++◌, codes, decimal, length, slice_get, IfOk, OnOk};
ghost use Rattle.s66_isa.specs.{after_blanks, tally, weigh};
ghost use Rattle.s66_source.specs.{SOURCE_LINES_LIMIT};
ghost use Rattle.s66_compare.specs.{compared_text, difference_line, ending_text, source_line_text, row_line, row_lines, not_legal_text, compared_row_text, side_text, sums_text, total_text, block_verdict_text, has_new};
ghost use Rattle.s66_compare.specs.{has_old, is_legal, new_time, old_time};

use crate::broken::push_broken;
use crate::difference::Difference;
use crate::rows::{Row, Side};
use crate::verdict::{BlockVerdict, Judged};
use s66_device::push_field;
use s66_line::Block;
use std::alloc::{AllocError, Global};

/// These numbers, each after a blank.
fn push_numbers(out: &mut Vec<u8>, numbers: &[u8]) -> Result<(), AllocError>
    ensures { OnOk result (out.new.items ≡ out.old.items ++ after_blanks numbers.now) }
{
    for number in numbers {
        push_field(out, b" ", *number as usize)?;
    }
    Ok(())
}

fn push_order(out: &mut Vec<u8>, order: &[u8]) -> Result<(), AllocError>
    ensures { OnOk result (out.new.items ≡ out.old.items ++ (codes " ORDER" ++ after_blanks order.now)) }
{
    out.extend_from_slice(b" ORDER")?;
    push_numbers(out, order)
}

/// By numbers of the old block's instructions.
fn push_numbers_broken(out: &mut Vec<u8>, number: u8, missing: u8) -> Result<(), AllocError>
    ensures { OnOk result (out.new.items ≡ out.old.items ++
        (codes " NOT LEGAL " ++ decimal number ++ codes " AFTER " ++ decimal missing)) }
{
    push_field(out, b" NOT LEGAL ", number as usize)?;
    push_field(out, b" AFTER ", missing as usize)
}

/// That an order of the new block at a place, from 0, isn't legal: with `text` by lines and instructions.
#[tactic(auto, using(crate::proofs::BlockPlaces::told_by_number, crate::proofs::BlockPlaces::told_past, crate::proofs::BlockPlaces::told_by_text))]
fn push_not_legal(
    out: &mut Vec<u8>,
    text: bool,
    new: &[Block],
    place: usize,
    order: &[u8],
    number: u8,
    missing: u8,
) -> Result<(), AllocError>
    ensures { OnOk result (out.new.items ≡ out.old.items ++
        not_legal_text text (slice_get new.now place) order.now number missing) }
{
    if !text {
        return push_numbers_broken(out, number, missing);
    }
    if place >= new.len() {
        return push_numbers_broken(out, number, missing);
    }
    push_broken(out, &new[place], order, number, missing)
}

/// What is said of the new block at a place, from 0.
fn push_verdict(
    out: &mut Vec<u8>,
    text: bool,
    new: &[Block],
    place: usize,
    judged: &Judged,
) -> Result<(), AllocError>
    ensures { OnOk result (out.new.items ≡ out.old.items ++
        block_verdict_text text (slice_get new.now place) judged.now.verdict judged.now.order) }
{
    match judged.verdict {
        BlockVerdict::Same => out.extend_from_slice(b" SAME"),
        BlockVerdict::Reordered => push_order(out, judged.order.as_slice()),
        BlockVerdict::NotLegal { number, missing } => {
            let order = judged.order.as_slice();
            push_not_legal(out, text, new, place, order, number, missing)
        }
        BlockVerdict::OtherNew { line } => push_field(out, b" OTHER CODE NEW LINE ", line as usize),
        BlockVerdict::OtherOld { line } => push_field(out, b" OTHER CODE LINE ", line as usize),
    }
}

fn push_side(out: &mut Vec<u8>, side: &Side) -> Result<(), AllocError>
    ensures { OnOk result (out.new.items ≡ out.old.items ++ side_text side.now) }
{
    push_field(out, b" LINE ", side.line as usize)?;
    push_field(out, b" COUNT ", side.count)?;
    push_field(out, b" TIME ", side.time as usize)
}

fn push_new_side(out: &mut Vec<u8>, side: &Side) -> Result<(), AllocError>
    ensures { OnOk result (out.new.items ≡ out.old.items ++ codes " NEW" ++ side_text side.now) }
{
    out.extend_from_slice(b" NEW")?;
    push_side(out, side)
}

/// What a row says; its new block has this place, from 0.
fn push_row_text(
    out: &mut Vec<u8>,
    text: bool,
    new: &[Block],
    place: usize,
    row: &Row,
) -> Result<(), AllocError>
    ensures { OnOk result (out.new.items ≡ out.old.items ++ compared_row_text text (slice_get new.now place) row.now) }
{
    match row {
        Row::Both {
            old,
            new: side,
            judged,
        } => {
            push_side(out, old)?;
            push_new_side(out, side)?;
            push_verdict(out, text, new, place, judged)
        }
        Row::OldAlone { old } => {
            push_side(out, old)?;
            out.extend_from_slice(b" GONE")
        }
        Row::NewAlone { new } => {
            push_new_side(out, new)?;
            out.extend_from_slice(b" ADDED")
        }
    }
}

/// Appends the line of a row without its end. So many blocks of each source come before it. `Err` is out of memory.
pub fn push_row(
    out: &mut Vec<u8>,
    text: bool,
    new: &[Block],
    old_count: usize,
    new_count: usize,
    row: &Row,
) -> Result<(), AllocError>
    requires old { old_count < 2 ^ 63 }
    requires new { new_count < 2 ^ 63 }
    ensures { OnOk result (out.new.items ≡ out.old.items ++ row_line text new.now old_count new_count row.now) }
{
    let number = if row.has_old() {
        old_count + 1
    } else {
        new_count + 1
    };
    push_field(out, b"BLOCK ", number)?;
    push_row_text(out, text, new, new_count, row)
}

/// A line for each row.
fn push_rows(out: &mut Vec<u8>, text: bool, new: &[Block], rows: &[Row]) -> Result<(), AllocError>
    ensures { OnOk result (out.new.items ≡ out.old.items ++ row_lines text new.now 0 0 rows.now) }
{
    let mut old_count = 0;
    let mut new_count = 0;
    for row in rows {
        push_row(out, text, new, old_count, new_count, row)?;
        out.extend_from_slice(b"\n")?;
        old_count = if row.has_old() {
            old_count + 1
        } else {
            old_count
        };
        new_count = if row.has_new() {
            new_count + 1
        } else {
            new_count
        };
    }
    Ok(())
}

/// A line after this name, if there is one.
fn push_line(out: &mut Vec<u8>, name: &[u8], line: Option<u32>) -> Result<(), AllocError>
    ensures { OnOk result (out.new.items ≡ out.old.items ++ source_line_text name.now line) }
{
    match line {
        Some(line) => push_field(out, name, line as usize),
        None => Ok(()),
    }
}

/// Where what stands beside the blocks first differs, if it does.
fn push_difference(out: &mut Vec<u8>, difference: Option<Difference>) -> Result<(), AllocError>
    ensures { OnOk result (out.new.items ≡ out.old.items ++ difference_line difference) }
{
    let Some(difference) = difference else {
        return Ok(());
    };
    out.extend_from_slice(b"DIFFERS")?;
    push_line(out, b" LINE ", difference.old)?;
    push_line(out, b" NEW LINE ", difference.new)?;
    out.extend_from_slice(b"\n")
}

/// The sums of all rows.
#[derive(Clone, Copy)]
struct Total {
    blocks: usize,
    time: usize,
    new_blocks: usize,
    new_time: usize,
    legal: usize,
}

impl Row {
    ghost use Rattle.std.specs.Prelude.{◌≡◌};
    ghost use Rattle.s66_compare.specs.{has_new, has_old, is_legal, new_time, old_time};

    /// Whether the old source has a block.
    pub fn has_old(&self) -> bool
        ensures { result ≡ has_old self.now }
    {
        !matches!(self, Row::NewAlone { .. })
    }

    /// Whether the new source has a block.
    pub fn has_new(&self) -> bool
        ensures { result ≡ has_new self.now }
    {
        !matches!(self, Row::OldAlone { .. })
    }

    fn old_time(&self) -> u32
        ensures { result ≡ old_time self.now }
    {
        match self {
            Row::Both { old, .. } | Row::OldAlone { old } => old.time,
            Row::NewAlone { .. } => 0,
        }
    }

    fn new_time(&self) -> u32
        ensures { result ≡ new_time self.now }
    {
        match self {
            Row::Both { new, .. } | Row::NewAlone { new } => new.time,
            Row::OldAlone { .. } => 0,
        }
    }

    /// Whether the new block is the old one in a legal order.
    pub(crate) fn is_legal(&self) -> bool
        ensures { result ≡ is_legal self.now }
    {
        match self {
            Row::Both { judged, .. } => judged.verdict.is_kept(),
            Row::OldAlone { .. } | Row::NewAlone { .. } => false,
        }
    }
}

fn total_of(rows: &[Row]) -> Total
    requires { length rows.now ≤ 2 * SOURCE_LINES_LIMIT }
    ensures blocks { result.blocks ≡ tally has_old rows.now }
    ensures time { result.time ≡ weigh old_time rows.now }
    ensures new_blocks { result.new_blocks ≡ tally has_new rows.now }
    ensures new_time { result.new_time ≡ weigh new_time rows.now }
    ensures legal { result.legal ≡ tally is_legal rows.now }
{
    let mut blocks = 0;
    let mut time = 0;
    let mut new_blocks = 0;
    let mut new_time = 0;
    let mut legal = 0;
    for row in rows {
        if row.has_old() {
            blocks += 1;
        }
        time += row.old_time() as usize;
        if row.has_new() {
            new_blocks += 1;
        }
        new_time += row.new_time() as usize;
        if row.is_legal() {
            legal += 1;
        }
    }
    Total {
        blocks,
        time,
        new_blocks,
        new_time,
        legal,
    }
}

/// How many blocks a source has, and what they take.
fn push_sums(out: &mut Vec<u8>, name: &[u8], blocks: usize, time: usize) -> Result<(), AllocError>
    ensures { OnOk result (out.new.items ≡ out.old.items ++ sums_text name.now blocks time) }
{
    push_field(out, name, blocks)?;
    push_field(out, b" TIME ", time)
}

fn push_total(out: &mut Vec<u8>, total: &Total) -> Result<(), AllocError>
    ensures { OnOk result (out.new.items ≡ out.old.items ++
        total_text total.now.blocks total.now.time total.now.new_blocks total.now.new_time total.now.legal) }
{
    push_sums(out, b"TOTAL BLOCKS ", total.blocks, total.time)?;
    push_sums(out, b" NEW BLOCKS ", total.new_blocks, total.new_time)?;
    push_field(out, b" LEGAL ", total.legal)?;
    out.extend_from_slice(b"\n")
}

/// Appends the lines beside these rows: where what stands beside the blocks first differs, if it does, and the sums. `Err` is out of
/// memory.
pub fn push_ending(
    out: &mut Vec<u8>,
    rows: &[Row],
    difference: Option<Difference>,
) -> Result<(), AllocError>
    requires { length rows.now ≤ 2 * SOURCE_LINES_LIMIT }
    ensures { OnOk result (out.new.items ≡ out.old.items ++ ending_text rows.now difference) }
{
    push_difference(out, difference)?;
    push_total(out, &total_of(rows))
}

/// What is written of these rows, with `text` by lines and instructions of the new source's blocks, and of where what stands beside the
/// blocks first differs. `Err` is out of memory.
pub(crate) fn compared_text(
    alloc: Global,
    text: bool,
    new: &[Block],
    rows: &[Row],
    difference: Option<Difference>,
) -> Result<Vec<u8>, AllocError>
    requires { length rows.now ≤ 2 * SOURCE_LINES_LIMIT }
    ensures { IfOk result (λ out. out.items ≡ compared_text text new.now rows.now difference) }
{
    let mut out = Vec::new(alloc);
    push_rows(&mut out, text, new, rows)?;
    push_ending(&mut out, rows, difference)?;
    Ok(out)
}
