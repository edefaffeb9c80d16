//! A block on the page: its row in the list of blocks, and its section with heading, orders and reasons.

ghost use Rattle.std.specs.Prelude.{◌≡◌, ◌<◌, ◌^◌, ◌++◌, OnOk};
ghost use Rattle.s66_line.specs.{instrs_of};
ghost use Rattle.s66_views.specs.{best_cell, best_text, block_anchor, page_block_head, block_place, block_text, block_times, block_title, block_verdict, bound_cell, table_cell, entry_cell, index_link, index_row};
ghost use Rattle.s66_views.specs.{page_listing, reasons_below, summary, time_cells, total_row};
ghost use Rattle.s66_views.specs.Page.{page_bound_text};

use crate::page::escape::{push_escaped, push_escaped_lines};
use crate::page::order::push_order;
use crate::page::summary::{Summary, Total};
use crate::page::text::{push_text, push_two};
use s66_device::{push_between, push_field};
use s66_line::Block;
use s66_time::Timed;
use std::alloc::AllocError;

/// The summary of a block, whose number is from 1.
pub(crate) fn summary_of(
    number: usize,
    block: &Block,
    source: &Timed,
    best: &Timed,
    bound: u32,
) -> Summary
    ensures value { result ≡ summary number block.now source.now best.now bound }
    ensures few { result.count < 2 ^ 32 }
{
    // so there is a first instruction
    prove!(block.count() >= 1);
    Summary {
        number,
        line: block.line(1),
        count: block.count(),
        source: source.total(),
        time: best.total(),
        bound,
    }
}

/// That a time is best, or what every order takes at least.
#[tactic(auto, unfolding(crate::specs::Page::page_bound_text))]
fn push_bound(out: &mut Vec<u8>, time: u32, bound: u32) -> Result<(), AllocError>
    ensures { OnOk result (out.new.items ≡ out.old.items ++ page_bound_text time bound) }
{
    if bound == time {
        push_text(out, b"BEST")
    } else {
        push_field(out, b"AT LEAST ", bound as usize)
    }
}

/// The beginning of a block, to which its number links.
#[tactic(auto, unfolding(crate::specs::Page::block_anchor))]
pub(crate) fn push_block_anchor(out: &mut Vec<u8>, number: usize) -> Result<(), AllocError>
    ensures { OnOk result (out.new.items ≡ out.old.items ++ block_anchor number) }
{
    push_between(out, b"<h2 id='b", number, b"'>")
}

/// Where a block is.
#[tactic(auto, unfolding(crate::specs::Page::block_place))]
fn push_block_place(
    out: &mut Vec<u8>,
    number: usize,
    line: u32,
    count: usize,
) -> Result<(), AllocError>
    ensures { OnOk result (out.new.items ≡ out.old.items ++ block_place number line count) }
{
    push_field(out, b" BLOCK ", number)?;
    push_field(out, b" LINE ", line as usize)?;
    push_field(out, b" COUNT ", count)
}

/// How long a block takes.
#[tactic(auto, unfolding(crate::specs::Page::block_times))]
fn push_block_times(out: &mut Vec<u8>, source: u32, time: u32) -> Result<(), AllocError>
    ensures { OnOk result (out.new.items ≡ out.old.items ++ block_times source time) }
{
    push_two(
        out,
        b" SOURCE ",
        source as usize,
        b" TIME ",
        time as usize,
        b" ",
    )
}

/// The first half of the heading of a block.
#[tactic(auto, unfolding(crate::specs::Page::block_title))]
fn push_block_title(out: &mut Vec<u8>, entry: &[u8], summary: &Summary) -> Result<(), AllocError>
    ensures { OnOk result (out.new.items ≡ out.old.items ++ block_title entry.now summary.now) }
{
    push_block_anchor(out, summary.number)?;
    push_escaped(out, entry)?;
    push_block_place(out, summary.number, summary.line, summary.count)
}

/// The second half.
#[tactic(auto, unfolding(crate::specs::Page::block_verdict))]
fn push_block_verdict(out: &mut Vec<u8>, summary: &Summary) -> Result<(), AllocError>
    ensures { OnOk result (out.new.items ≡ out.old.items ++ block_verdict summary.now) }
{
    push_block_times(out, summary.source, summary.time)?;
    push_bound(out, summary.time, summary.bound)?;
    push_text(out, b" <a href='#top'>&#8593;</a></h2>\n")
}

/// The heading of a block.
#[tactic(auto, unfolding(crate::specs::Page::page_block_head))]
fn push_block_head(out: &mut Vec<u8>, entry: &[u8], summary: &Summary) -> Result<(), AllocError>
    ensures { OnOk result (out.new.items ≡ out.old.items ++ page_block_head entry.now summary.now) }
{
    push_block_title(out, entry, summary)?;
    push_block_verdict(out, summary)
}

/// The best order of a block, if it takes less than the source order.
fn push_best(
    out: &mut Vec<u8>,
    block: &Block,
    source: &Timed,
    best: &Timed,
) -> Result<(), AllocError>
    requires { best.now.problem.block ≡ instrs_of block.now }
    ensures { OnOk result (out.new.items ≡ out.old.items ++ best_text block.now source.now best.now) }
{
    if best.total() < source.total() {
        push_order(out, block, b"In the best order found", best)
    } else {
        Ok(())
    }
}

/// Lines below each other.
#[tactic(auto, unfolding(crate::specs::Page::page_listing))]
fn push_listing(out: &mut Vec<u8>, text: &[u8]) -> Result<(), AllocError>
    ensures { OnOk result (out.new.items ≡ out.old.items ++ page_listing text.now) }
{
    push_text(out, b"<pre style='columns:auto'>")?;
    push_escaped_lines(out, text)?;
    push_text(out, b"</pre>\n")
}

/// Sentences that say why no order is faster, if there are some.
fn push_reasons_below(out: &mut Vec<u8>, reasons: &[u8]) -> Result<(), AllocError>
    ensures { OnOk result (out.new.items ≡ out.old.items ++ reasons_below reasons.now) }
{
    if reasons.is_empty() {
        Ok(())
    } else {
        push_listing(out, reasons)
    }
}

/// Appends a block, whose number is from 1, and which is entered by this name: its heading, its source order, the best order found if that takes less, and the sentences
/// that say why no order is faster, if there are some. No order takes less than the bound. It takes time quadratic in the length of the block, which is at most `BLOCK_LIMIT`, and allocates
/// nothing but room in `out`. `Err` is out of memory.
#[tactic(auto, unfolding(crate::specs::Page::block_text))]
pub(crate) fn push_block(
    out: &mut Vec<u8>,
    number: usize,
    entry: &[u8],
    block: &Block,
    source: &Timed,
    best: &Timed,
    bound: u32,
    reasons: &[u8],
) -> Result<(), AllocError>
    requires source { source.now.problem.block ≡ instrs_of block.now }
    requires best { best.now.problem.block ≡ instrs_of block.now }
    ensures { OnOk result (out.new.items ≡ out.old.items ++
        block_text number entry.now block.now source.now best.now bound reasons.now) }
{
    let summary = summary_of(number, block, source, best, bound);
    push_block_head(out, entry, &summary)?;
    push_order(out, block, b"As it is written", source)?;
    push_best(out, block, source, best)?;
    push_reasons_below(out, reasons)
}

/// The link to a block.
#[tactic(auto, unfolding(crate::specs::Page::index_link))]
fn push_index_link(out: &mut Vec<u8>, number: usize) -> Result<(), AllocError>
    ensures { OnOk result (out.new.items ≡ out.old.items ++ index_link number) }
{
    push_two(out, b"<tr><td><a href='#b", number, b"'>", number, b"</a>")
}

/// A number of a row.
#[tactic(auto, unfolding(crate::specs::Page::table_cell))]
fn push_cell(out: &mut Vec<u8>, number: usize) -> Result<(), AllocError>
    ensures { OnOk result (out.new.items ≡ out.old.items ++ table_cell number) }
{
    push_field(out, b"<td>", number)
}

/// The name by which a block is entered.
#[tactic(auto, unfolding(crate::specs::Page::entry_cell))]
fn push_entry_cell(out: &mut Vec<u8>, entry: &[u8]) -> Result<(), AllocError>
    ensures { OnOk result (out.new.items ≡ out.old.items ++ entry_cell entry.now) }
{
    push_text(out, b"<td>")?;
    push_escaped(out, entry)
}

/// The times of a row, and how much less the second is.
#[tactic(auto, unfolding(crate::specs::Page::time_cells))]
fn push_time_cells(out: &mut Vec<u8>, source: usize, time: usize) -> Result<(), AllocError>
    ensures { OnOk result (out.new.items ≡ out.old.items ++ time_cells source time) }
{
    push_cell(out, source)?;
    push_cell(out, time)?;
    push_cell(out, source.saturating_sub(time))
}

/// The end of a row.
#[tactic(auto, unfolding(crate::specs::Page::bound_cell))]
fn push_bound_cell(out: &mut Vec<u8>, time: u32, bound: u32) -> Result<(), AllocError>
    ensures { OnOk result (out.new.items ≡ out.old.items ++ bound_cell time bound) }
{
    push_text(out, b"<td>")?;
    push_bound(out, time, bound)?;
    push_text(out, b"\n")
}

/// Appends the row of a block, which is entered by this name, in the list of all blocks. It links to the block. `Err` is out of memory.
#[tactic(auto, unfolding(crate::specs::Page::index_row))]
pub(crate) fn push_index_row(
    out: &mut Vec<u8>,
    entry: &[u8],
    summary: &Summary,
) -> Result<(), AllocError>
    ensures { OnOk result (out.new.items ≡ out.old.items ++ index_row entry.now summary.now) }
{
    push_index_link(out, summary.number)?;
    push_entry_cell(out, entry)?;
    push_cell(out, summary.line as usize)?;
    push_cell(out, summary.count)?;
    push_time_cells(out, summary.source as usize, summary.time as usize)?;
    push_bound_cell(out, summary.time, summary.bound)
}

/// The end of the row of all blocks.
#[tactic(auto, unfolding(crate::specs::Page::best_cell))]
fn push_best_cell(out: &mut Vec<u8>, best: usize) -> Result<(), AllocError>
    ensures { OnOk result (out.new.items ≡ out.old.items ++ best_cell best) }
{
    push_between(out, b"<td>BEST ", best, b"\n")
}

/// Appends the row of all blocks, below theirs. `Err` is out of memory.
#[tactic(auto, unfolding(crate::specs::Page::total_row))]
pub(crate) fn push_total_row(out: &mut Vec<u8>, total: &Total) -> Result<(), AllocError>
    ensures { OnOk result (out.new.items ≡ out.old.items ++
        total_row total.now.count total.now.source total.now.time total.now.best) }
{
    push_text(out, b"<tr><td>TOTAL<td><td>")?;
    push_cell(out, total.count)?;
    push_time_cells(out, total.source, total.time)?;
    push_best_cell(out, total.best)
}
