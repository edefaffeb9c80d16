//! The page of one source (`push_page`): its head, the list of blocks with a total, and each block.

ghost use Rattle.std.specs.Prelude.{◌≡◌, ◌<◌, ◌^◌, ◌++◌, OnOk, length};
ghost use Rattle.s66_isa.specs.{tally, weigh};
ghost use Rattle.s66_line.specs.{instrs_of};
ghost use Rattle.s66_views.specs.{AreOf, as_found, as_written, page_entries, entry, index, is_best, page_head, page_text, page_title, profile_line, summaries, summary, Summary as SummaryOf};

use crate::page::block::{push_block, push_index_row, push_total_row, summary_of};
use crate::page::escape::push_escaped;
use crate::page::found_order::FoundOrder;
use crate::page::start::{PAGE_HEAD, PAGE_LIST, PAGE_START};
use crate::page::summary::{Summary, Total};
use crate::page::text::push_text;
use s66_command::{Change, changes_of, push_changes};
use s66_device::push_field;
use s66_isa::Profile;
use s66_line::Block;
use s66_time::{Order, Timer};
use std::alloc::AllocError;

/// What a page has of each block: its row in the list of blocks, or its orders.
#[derive(Clone, Copy)]
pub(crate) enum Part {
    Row,
    Orders,
}

/// A part of the n-th block, from 1.
#[tactic(auto, unfolding(crate::specs::Page::index_entry, crate::specs::Page::block_entry))]
fn push_entry(
    out: &mut Vec<u8>,
    timer: &mut Timer,
    part: Part,
    number: usize,
    block: &Block,
    found: &FoundOrder,
) -> Result<(), AllocError>
    requires { found.now.order.block ≡ instrs_of block.now }
    ensures profile { timer.new ≡ timer.old }
    ensures text { OnOk result (out.new.items ≡ out.old.items ++ entry part timer.old number block.now found.now) }
{
    let source = timer.time(block, &Order::source(block));
    let best = timer.time(block, &found.order);
    let entry = found.entry.as_slice();
    match part {
        Part::Row => {
            let summary = summary_of(number, block, &source, &best, found.bound);
            push_index_row(out, entry, &summary)
        }
        Part::Orders => {
            let reasons = found.reasons.as_slice();
            push_block(
                out,
                number,
                entry,
                block,
                &source,
                &best,
                found.bound,
                reasons,
            )
        }
    }
}

/// A part of each block, before which so many come.
fn push_entries(
    out: &mut Vec<u8>,
    timer: &mut Timer,
    part: Part,
    before: usize,
    blocks: &[Block],
    found: &[FoundOrder],
) -> Result<(), AllocError>
    requires before { before < 2 ^ 32 }
    requires found { AreOf blocks.now found.now }
    ensures profile { timer.new ≡ timer.old }
    ensures text { OnOk result (out.new.items ≡ out.old.items ++
        page_entries (entry part timer.old) before blocks.now found.now) }
{
    let mut blocks = blocks;
    let mut found = found;
    let mut number = before;
    while let [block, more @ ..] = blocks {
        let [one, others @ ..] = found else {
            return Ok(());
        };
        number += 1;
        push_entry(out, timer, part, number, block, one)?;
        blocks = more;
        found = others;
    }
    Ok(())
}

/// The summary of the n-th block, from 1.
fn summary_at(timer: &mut Timer, number: usize, block: &Block, found: &FoundOrder) -> Summary
    requires { found.now.order.block ≡ instrs_of block.now }
    ensures profile { timer.new ≡ timer.old }
    ensures summary { result ≡ summary number block.now (as_written timer.old block.now)
        (as_found timer.old block.now found.now) found.now.bound }
    ensures few { result.count < 2 ^ 32 }
{
    let source = timer.time(block, &Order::source(block));
    let best = timer.time(block, &found.order);
    summary_of(number, block, &source, &best, found.bound)
}

/// The total of these blocks, before which so many come.
fn total_of(timer: &mut Timer, before: usize, blocks: &[Block], found: &[FoundOrder]) -> Total
    requires before { before < 2 ^ 32 }
    requires few { length blocks.now < 2 ^ 31 }
    requires found { AreOf blocks.now found.now }
    ensures profile { timer.new ≡ timer.old }
    ensures count { result.count ≡
        weigh (λ (b : SummaryOf). b.count) (summaries timer.old before blocks.now found.now) }
    ensures source { result.source ≡
        weigh (λ (b : SummaryOf). b.source) (summaries timer.old before blocks.now found.now) }
    ensures time { result.time ≡ weigh (λ (b : SummaryOf). b.time) (summaries timer.old before blocks.now found.now) }
    ensures best { result.best ≡ tally is_best (summaries timer.old before blocks.now found.now) }
{
    let mut count = 0;
    let mut source = 0;
    let mut time = 0;
    let mut best = 0;
    let mut blocks = blocks;
    let mut found = found;
    let mut number = before;
    while let [block, more @ ..] = blocks {
        // there is one for each block
        let [one, others @ ..] = found else {
            unreachable!()
        };
        number += 1;
        let row = summary_at(timer, number, block, one);
        count += row.count;
        source += row.source as usize;
        time += row.time as usize;
        if row.is_best() {
            best += 1;
        }
        blocks = more;
        found = others;
    }
    Total {
        count,
        source,
        time,
        best,
    }
}

/// The title of a page of these blocks, before which so many come.
fn push_title(out: &mut Vec<u8>, before: usize, found: &[FoundOrder]) -> Result<(), AllocError>
    requires { before < 2 ^ 32 }
    ensures { OnOk result (out.new.items ≡ out.old.items ++ page_title before found.now) }
{
    match found {
        [] => push_text(out, b"s66"),
        [first, ..] => {
            push_escaped(out, first.entry.as_slice())?;
            push_field(out, b" BLOCK ", before + 1)
        }
    }
}

/// The numbers of a profile that aren't the standard profile's, if there are any.
pub(crate) fn push_profile_line(out: &mut Vec<u8>, changes: &[Change]) -> Result<(), AllocError>
    ensures { OnOk result (out.new.items ≡ out.old.items ++ profile_line changes.now) }
{
    match changes {
        [] => Ok(()),
        _ => {
            push_text(out, b"<p>Profile:")?;
            push_changes(out, changes)?;
            push_text(out, b"</p>\n")
        }
    }
}

/// All that stands before the list of blocks.
fn push_head(
    out: &mut Vec<u8>,
    profile: &Profile,
    before: usize,
    found: &[FoundOrder],
) -> Result<(), AllocError>
    requires { before < 2 ^ 32 }
    ensures { OnOk result (out.new.items ≡ out.old.items ++ page_head profile.now before found.now) }
{
    push_text(out, PAGE_START)?;
    push_title(out, before, found)?;
    push_text(out, PAGE_HEAD)?;
    push_profile_line(out, changes_of(profile).as_slice())?;
    push_text(out, PAGE_LIST)
}

/// The list of blocks.
fn push_index(
    out: &mut Vec<u8>,
    timer: &mut Timer,
    before: usize,
    blocks: &[Block],
    found: &[FoundOrder],
) -> Result<(), AllocError>
    requires before { before < 2 ^ 32 }
    requires few { length blocks.now < 2 ^ 31 }
    requires found { AreOf blocks.now found.now }
    ensures profile { timer.new ≡ timer.old }
    ensures text { OnOk result (out.new.items ≡ out.old.items ++ index timer.old before blocks.now found.now) }
{
    push_entries(out, timer, Part::Row, before, blocks, found)?;
    push_total_row(out, &total_of(timer, before, blocks, found))?;
    push_text(out, b"</table>\n")
}

/// Appends a page that shows blocks of a source, before which `before` blocks come, under a profile: each in its source order, in the
/// order that was found for it if that takes less, and with the sentences that say why no order is faster. Above them is a list of all
/// with a total, which links to each, and, unless the profile is the standard one, what is otherwise in it. The page is a file that
/// stands alone: no script, and nothing to be fetched. It takes time and room linear in the number of blocks and quadratic in the
/// length of each, which is at most `BLOCK_LIMIT`, and allocates nothing but room in `out`. `Err` is out of memory.
pub fn push_page(
    out: &mut Vec<u8>,
    profile: &Profile,
    before: usize,
    blocks: &[Block],
    found: &[FoundOrder],
) -> Result<(), AllocError>
    requires before { before < 2 ^ 32 }
    requires few { length blocks.now < 2 ^ 31 }
    requires found { AreOf blocks.now found.now }
    ensures { OnOk result (out.new.items ≡ out.old.items ++ page_text profile.now before blocks.now found.now) }
{
    let mut timer = Timer::new(profile);
    push_head(out, profile, before, found)?;
    push_index(out, &mut timer, before, blocks, found)?;
    push_entries(out, &mut timer, Part::Orders, before, blocks, found)
}
