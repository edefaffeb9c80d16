//! What `chart` writes: the chart of each block, with texts and with units if asked for.

ghost use Rattle.std.specs.Prelude.{◌≡◌, ◌++◌, IfOk, OnOk};
ghost use Rattle.s66_program.specs.ChartText.{IsChartOutput, chart_lines};

use crate::block_head::push_timed_line;
use crate::listing::{Listing, listing_output};
use s66_answer::Output;
use s66_isa::Profile;
use s66_line::Block;
use s66_source::Source;
use s66_time::{Order, Timer};
use s66_why::{push_chart, push_text_chart, push_units_chart};
use std::alloc::{AllocError, Global};

/// The charts of blocks as they were written.
#[derive(Drop)]
struct Charts {
    /// Whether each row comes after the text of its instruction.
    text: bool,
    /// Whether rows of units and registers stand below these.
    units: bool,
}

/// The lines of a block, whose number is from 1, under the timer's profile.
fn push_chart_lines(
    out: &mut Vec<u8>,
    timer: &mut Timer,
    charts: &Charts,
    number: usize,
    block: &Block,
) -> Result<(), AllocError>
    ensures profile { timer.new ≡ timer.old }
    ensures lines { OnOk result (out.new.items ≡ out.old.items ++ chart_lines timer.old charts.now.text charts.now.units number block.now) }
{
    let timed = timer.time(block, &Order::source(block));
    push_timed_line(out, number, block, &timed)?;
    if charts.units {
        push_units_chart(out, block, &timed)
    } else if charts.text {
        push_text_chart(out, block, &timed)
    } else {
        push_chart(out, block, &timed)
    }
}

impl Listing for Charts {
    ghost lines = { λ charts p. chart_lines p charts.text charts.units };

    fn push_lines(
        &self,
        _alloc: Global,
        out: &mut Vec<u8>,
        timer: &mut Timer,
        number: usize,
        block: &Block,
    ) -> Result<(), AllocError> {
        push_chart_lines(out, timer, self, number, block)
    }
}

/// A chart of each block of a source, or of the only one that is printed: with its texts or without, and with rows of its units and
/// registers below them. `Err` is out of memory.
pub(crate) fn chart_output(
    alloc: Global,
    profile: &Profile,
    text: bool,
    units: bool,
    only: Option<u32>,
    source: &Source,
) -> Result<Output, AllocError>
    ensures { IfOk result (λ output.
        IsChartOutput profile.now text units only source.now output.text.items output.status) }
{
    listing_output(alloc, profile, &Charts { text, units }, only, source)
}
