//! The page that shows two sources, their blocks in pairs.

ghost use Rattle.std.specs.Prelude.{◌≡◌, ◌≤◌, ◌<◌, ◌+◌, ◌*◌, ◌^◌, ◌++◌, IfOk, OnOk, codes, length, slice_get};
ghost use Rattle.s66_line.specs.{instrs_of};
ghost use Rattle.s66_source.specs.{SOURCE_LINES_LIMIT};
ghost use Rattle.s66_compare.specs.{AreOfBlocks, IsRowOf, counted, judged};
ghost use Rattle.s66_views.specs.{as_written, page_order_text, IsPairsPage, all_pairs, both_orders, in_new, in_old, in_order, pair_part, pairs_head, pairs_list, pairs_text, row_orders, row_said};

use crate::page::block::push_block_anchor;
use crate::page::escape::push_escaped;
use crate::page::order::push_order;
use crate::page::page::{Part, push_profile_line};
use crate::page::start::{PAGE_HEAD, PAGE_PAIRS, PAGE_START};
use crate::page::text::push_text;
use s66_command::changes_of;
use s66_compare::{
    BlockVerdict, Compared, Difference, Judged, Row, aligned_rows, difference_of, is_accepted,
    push_ending, push_row,
};
use s66_device::push_between;
use s66_isa::Profile;
use s66_line::Block;
use s66_source::Source;
use s66_time::{Order, Timer};
use std::alloc::{AllocError, Global};

/// How many rows come before a row, and how many blocks of each source.
#[derive(Clone, Copy)]
struct Place {
    row: usize,
    old: usize,
    new: usize,
}

/// A place more, if a source has a block there.
fn counted(is: bool, place: usize) -> usize
    requires { place < 2 ^ 63 }
    ensures { result ≡ counted is place }
{
    if is { place + 1 } else { place }
}

impl Place {
    ghost use Rattle.std.specs.Prelude.{◌≡◌, ◌<◌, ◌^◌};
    ghost use Rattle.s66_views.specs.{behind};

    /// The place behind a row.
    fn behind(self, row: &Row) -> Place
        requires row { self.row < 2 ^ 63 }
        requires old { self.old < 2 ^ 63 }
        requires new { self.new < 2 ^ 63 }
        ensures { result ≡ behind self row.now }
    {
        Place {
            row: self.row + 1,
            old: counted(row.has_old(), self.old),
            new: counted(row.has_new(), self.new),
        }
    }
}

/// A block as it is written, under a heading.
fn push_written(
    out: &mut Vec<u8>,
    timer: &mut Timer,
    block: &Block,
    title: &[u8],
) -> Result<(), AllocError>
    ensures profile { timer.new ≡ timer.old }
    ensures text { OnOk result (out.new.items ≡ out.old.items ++
        page_order_text block.now title.now (as_written timer.old block.now)) }
{
    let timed = timer.time(block, &Order::source(block));
    push_order(out, block, title, &timed)
}

/// A block as it is written in the old source.
fn push_old(out: &mut Vec<u8>, timer: &mut Timer, old: &Block) -> Result<(), AllocError>
    ensures profile { timer.new ≡ timer.old }
    ensures text { OnOk result (out.new.items ≡ out.old.items ++ in_old timer.old old.now) }
{
    push_written(out, timer, old, b"In the old source")
}

/// A block as it is written in the new source.
fn push_new(out: &mut Vec<u8>, timer: &mut Timer, new: &Block) -> Result<(), AllocError>
    ensures profile { timer.new ≡ timer.old }
    ensures text { OnOk result (out.new.items ≡ out.old.items ++ in_new timer.old new.now) }
{
    push_written(out, timer, new, b"In the new source")
}

/// An old block, and the order in which the new source has its instructions.
fn push_reordered(
    out: &mut Vec<u8>,
    timer: &mut Timer,
    old: &Block,
    order: &Order,
) -> Result<(), AllocError>
    requires { order.now.block ≡ instrs_of old.now }
    ensures profile { timer.new ≡ timer.old }
    ensures text { OnOk result (out.new.items ≡ out.old.items ++
        (in_old timer.old old.now ++
        page_order_text old.now (codes "In the new source") (in_order timer.old old.now order.now.numbers))) }
{
    push_old(out, timer, old)?;
    let timed = timer.time(old, order);
    push_order(out, old, b"In the new source", &timed)
}

/// Two blocks, of which this is said.
fn push_both(
    out: &mut Vec<u8>,
    timer: &mut Timer,
    old: &Block,
    new: &Block,
    said: &Judged,
) -> Result<(), AllocError>
    requires { said.now ≡ judged old.now new.now }
    ensures profile { timer.new ≡ timer.old }
    ensures text { OnOk result (out.new.items ≡ out.old.items ++
        both_orders timer.old old.now new.now said.now.verdict said.now.order) }
{
    match said.verdict {
        BlockVerdict::Same => push_written(out, timer, old, b"In both sources"),
        BlockVerdict::Reordered => {
            let Some(order) = said.kept_order(old) else {
                unreachable!()
            };
            push_reordered(out, timer, old, &order)
        }
        _ => {
            push_old(out, timer, old)?;
            push_new(out, timer, new)
        }
    }
}

/// The blocks of a row at a place.
fn push_row_orders(
    out: &mut Vec<u8>,
    timer: &mut Timer,
    old: &[Block],
    new: &[Block],
    at: Place,
    row: &Row,
) -> Result<(), AllocError>
    requires { IsRowOf row.now (slice_get old.now at.old) (slice_get new.now at.new) }
    ensures profile { timer.new ≡ timer.old }
    ensures text { OnOk result (out.new.items ≡ out.old.items ++
        row_orders timer.old row.now (slice_get old.now at.old) (slice_get new.now at.new)) }
{
    match row {
        Row::Both { judged, .. } => match (old.get(at.old), new.get(at.new)) {
            (Some(old), Some(new)) => push_both(out, timer, old, new, judged),
            _ => Ok(()),
        },
        Row::OldAlone { .. } => match old.get(at.old) {
            Some(old) => push_old(out, timer, old),
            None => Ok(()),
        },
        Row::NewAlone { .. } => match new.get(at.new) {
            Some(new) => push_new(out, timer, new),
            None => Ok(()),
        },
    }
}

/// What `compare --text` says of a row at a place, and what stands behind that.
fn push_said(
    out: &mut Vec<u8>,
    alloc: Global,
    new: &[Block],
    at: Place,
    row: &Row,
    behind: &[u8],
) -> Result<(), AllocError>
    requires old { at.old < 2 ^ 63 }
    requires new { at.new < 2 ^ 63 }
    ensures { OnOk result (out.new.items ≡ out.old.items ++ (row_said new.now at row.now ++ behind.now)) }
{
    let mut said = Vec::new(alloc);
    push_row(&mut said, true, new, at.old, at.new, row)?;
    push_escaped(out, said.as_slice())?;
    push_text(out, behind)
}

/// A part of a row at a place.
fn push_part(
    out: &mut Vec<u8>,
    alloc: Global,
    timer: &mut Timer,
    part: Part,
    old: &[Block],
    new: &[Block],
    at: Place,
    row: &Row,
) -> Result<(), AllocError>
    requires row { at.row < 2 ^ 63 }
    requires old { at.old < 2 ^ 63 }
    requires new { at.new < 2 ^ 63 }
    requires blocks { IsRowOf row.now (slice_get old.now at.old) (slice_get new.now at.new) }
    ensures profile { timer.new ≡ timer.old }
    ensures text { OnOk result (out.new.items ≡ out.old.items ++
        pair_part timer.old old.now new.now part at row.now) }
{
    match part {
        Part::Row => {
            push_between(out, b"<a href='#b", at.row + 1, b"'>")?;
            push_said(out, alloc, new, at, row, b"</a>\n")
        }
        Part::Orders => {
            push_block_anchor(out, at.row + 1)?;
            let behind = b" <a href='#top'>&#8593;</a></h2>\n";
            push_said(out, alloc, new, at, row, behind)?;
            push_row_orders(out, timer, old, new, at, row)
        }
    }
}

/// A part of each row.
fn push_parts(
    out: &mut Vec<u8>,
    alloc: Global,
    timer: &mut Timer,
    part: Part,
    old: &[Block],
    new: &[Block],
    rows: &[Row],
) -> Result<(), AllocError>
    requires { AreOfBlocks old.now new.now 0 0 rows.now }
    ensures profile { timer.new ≡ timer.old }
    ensures text { OnOk result (out.new.items ≡ out.old.items ++ all_pairs timer.old old.now new.now part rows.now) }
{
    let mut at = Place {
        row: 0,
        old: 0,
        new: 0,
    };
    for row in rows {
        push_part(out, alloc, timer, part, old, new, at, row)?;
        at = at.behind(row);
    }
    Ok(())
}

/// All that stands before the list of rows.
fn push_head(out: &mut Vec<u8>, profile: &Profile) -> Result<(), AllocError>
    ensures { OnOk result (out.new.items ≡ out.old.items ++ pairs_head profile.now) }
{
    push_text(out, PAGE_START)?;
    push_text(out, b"s66 compare")?;
    push_text(out, PAGE_HEAD)?;
    push_profile_line(out, changes_of(profile).as_slice())?;
    push_text(out, PAGE_PAIRS)
}

/// The list of rows, and what `compare` writes below it.
fn push_list(
    out: &mut Vec<u8>,
    alloc: Global,
    timer: &mut Timer,
    old: &[Block],
    new: &[Block],
    rows: &[Row],
    difference: Option<Difference>,
) -> Result<(), AllocError>
    requires few { length rows.now ≤ 2 * SOURCE_LINES_LIMIT }
    requires blocks { AreOfBlocks old.now new.now 0 0 rows.now }
    ensures profile { timer.new ≡ timer.old }
    ensures text { OnOk result (out.new.items ≡ out.old.items ++ pairs_list timer.old old.now new.now rows.now difference) }
{
    push_parts(out, alloc, timer, Part::Row, old, new, rows)?;
    push_ending(out, rows, difference)?;
    push_text(out, b"</pre>\n")
}

/// The page of these rows.
fn pairs_text(
    alloc: Global,
    profile: &Profile,
    old: &[Block],
    new: &[Block],
    rows: &[Row],
    difference: Option<Difference>,
) -> Result<Vec<u8>, AllocError>
    requires few { length rows.now ≤ 2 * SOURCE_LINES_LIMIT }
    requires blocks { AreOfBlocks old.now new.now 0 0 rows.now }
    ensures { IfOk result (λ text. text.items ≡ pairs_text profile.now old.now new.now rows.now difference) }
{
    let mut text = Vec::new(alloc);
    let mut timer = Timer::new(profile);
    push_head(&mut text, profile)?;
    push_list(&mut text, alloc, &mut timer, old, new, rows, difference)?;
    push_parts(&mut text, alloc, &mut timer, Part::Orders, old, new, rows)?;
    Ok(text)
}

/// A page that shows the blocks of an old source and a new one under a profile, in pairs as `compare` aligns them: each in its order in
/// the old source and in the new one. Above them is a list of what `compare` says of each pair, which links to it. It takes time and room
/// linear in the number of blocks and quadratic in the length of each, beside what `compare` takes. `Err` is out of memory.
pub fn pairs_page(
    alloc: Global,
    profile: &Profile,
    old: &Source,
    new: &Source,
) -> Result<Compared, AllocError>
    ensures { IfOk result (λ page. IsPairsPage profile.now old.now new.now page.text.items page.is_accepted) }
{
    let old_blocks = old.blocks();
    let new_blocks = new.blocks();
    let rows = aligned_rows(alloc, profile, old_blocks, new_blocks)?;
    let rows = rows.as_slice();
    let difference = difference_of(alloc, old, new)?;
    let text = pairs_text(alloc, profile, old_blocks, new_blocks, rows, difference)?;
    Ok(Compared {
        text,
        is_accepted: is_accepted(rows, difference),
    })
}
