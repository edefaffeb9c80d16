//! An order on the page: its heading, its ruler, its rows, and below them what `why` says.

ghost use Rattle.std.specs.Prelude.{◌≡◌, ◌+◌, ◌*◌, ◌/◌, ◌<◌, ◌^◌, ◌++◌, OnOk};
ghost use Rattle.s66_model.specs.{points_of};
ghost use Rattle.s66_line.specs.{instrs_of};
ghost use Rattle.s66_why.specs.{works};
ghost use Rattle.s66_views.specs.{all_rows, on_path, heading, heading_end, order_head, page_order_text, table_start, why_below, tick, ticks};

use crate::page::register::push_register_rows;
use crate::page::row::push_rows;
use crate::page::text::{push_number_at, push_text};
use crate::page::unit::push_all_kind_rows;
use s66_device::push_between;
use s66_line::Block;
use s66_time::Timed;
use s66_why::{path_of, points_of, push_why, steps_of, works_of};
use std::alloc::AllocError;

/// The number above a tenth minor cycle.
fn push_tick(out: &mut Vec<u8>, ten: usize) -> Result<(), AllocError>
    requires { ten < 2 ^ 32 }
    ensures { OnOk result (out.new.items ≡ out.old.items ++ tick ten) }
{
    push_number_at(out, 10 * ten, 10 * ten)
}

/// The numbers above the minor cycles of an order.
fn push_ticks(out: &mut Vec<u8>, total: u32) -> Result<(), AllocError>
    ensures { OnOk result (out.new.items ≡ out.old.items ++ ticks total) }
{
    let count = total as usize / 10 + 1;
    for ten in 0..count {
        push_tick(out, ten)?;
    }
    Ok(())
}

/// The time in the heading of an order.
#[tactic(auto, unfolding(crate::specs::Page::heading_end))]
fn push_heading_end(out: &mut Vec<u8>, total: u32) -> Result<(), AllocError>
    ensures { OnOk result (out.new.items ≡ out.old.items ++ heading_end total) }
{
    push_between(out, b": ", total as usize, b" minor cycles</h3>\n")
}

/// The heading of an order.
#[tactic(auto, unfolding(crate::specs::Page::heading))]
fn push_heading(out: &mut Vec<u8>, title: &[u8], total: u32) -> Result<(), AllocError>
    ensures { OnOk result (out.new.items ≡ out.old.items ++ heading title.now total) }
{
    push_text(out, b"<h3>")?;
    push_text(out, title)?;
    push_heading_end(out, total)
}

/// How the table of an order begins.
#[tactic(auto, unfolding(crate::specs::Page::table_start))]
fn push_table_start(out: &mut Vec<u8>, total: u32) -> Result<(), AllocError>
    ensures { OnOk result (out.new.items ≡ out.old.items ++ table_start total) }
{
    push_between(
        out,
        b"<table class='order' style='--n:",
        total as usize,
        b"'>\n<thead><tr class='ruler'><th><td><svg>",
    )
}

/// The heading of an order, and the first row of its table.
#[tactic(auto, unfolding(crate::specs::Page::order_head))]
fn push_order_head(out: &mut Vec<u8>, title: &[u8], total: u32) -> Result<(), AllocError>
    ensures { OnOk result (out.new.items ≡ out.old.items ++ order_head title.now total) }
{
    push_heading(out, title, total)?;
    push_table_start(out, total)?;
    push_ticks(out, total)?;
    push_text(out, b"</svg>\n<tbody>\n")
}

/// The rows of the units and the registers that an order takes, and those of its instructions.
fn push_all_rows(out: &mut Vec<u8>, block: &Block, timed: &Timed) -> Result<(), AllocError>
    requires { timed.now.problem.block ≡ instrs_of block.now }
    ensures { OnOk result (out.new.items ≡ out.old.items ++ all_rows block.now timed.now) }
{
    let points = points_of(timed);
    let points = points.as_slice();
    let works = works_of(timed, points);
    let works = works.as_slice();
    let steps = steps_of(points, timed.total());
    let on_path = path_of(steps.as_slice());
    push_all_kind_rows(out, timed.total(), works)?;
    push_register_rows(out, points)?;
    push_rows(out, block, timed, on_path.as_slice(), points, works)
}

/// What `why` says of an order, below its table.
#[tactic(auto, unfolding(crate::specs::Page::why_below))]
fn push_why_below(out: &mut Vec<u8>, block: &Block, timed: &Timed) -> Result<(), AllocError>
    requires { timed.now.problem.block ≡ instrs_of block.now }
    ensures { OnOk result (out.new.items ≡ out.old.items ++ why_below block.now timed.now) }
{
    push_text(out, b"</table>\n<pre>")?;
    push_why(out, false, block, timed)?;
    push_text(out, b"</pre>\n")
}

/// Appends an order of a block under a heading: a row for each unit that is taken, for each register that is written and for each
/// instruction, and what `why` says.
/// Coordinates are minor cycles of 100 ns. It takes time quadratic in the length of the order, which is at most `BLOCK_LIMIT`, and
/// allocates nothing but room in `out`. `Err` is out of memory.
#[tactic(auto, unfolding(crate::specs::Page::page_order_text))]
pub(crate) fn push_order(
    out: &mut Vec<u8>,
    block: &Block,
    title: &[u8],
    timed: &Timed,
) -> Result<(), AllocError>
    requires { timed.now.problem.block ≡ instrs_of block.now }
    ensures { OnOk result (out.new.items ≡ out.old.items ++ page_order_text block.now title.now timed.now) }
{
    push_order_head(out, title, timed.total())?;
    push_all_rows(out, block, timed)?;
    push_why_below(out, block, timed)
}
