//! What `time` writes: the time of each block, and with `--trace` of each instruction.

ghost use Rattle.std.specs.Prelude.{◌≡◌, ◌<◌, ◌++◌, length, IfOk, OnOk};
ghost use Rattle.s66_line.specs.{instrs_of};
ghost use Rattle.s66_program.specs.AsWritten.{as_written};
ghost use Rattle.s66_program.specs.TimeText.{IsTimeOutput, time_line, trace_line, trace_lines, time_lines};

use crate::block_head::push_block_head;
use crate::listing::{Listing, listing_output};
use s66_answer::Output;
use s66_device::push_field;
use s66_isa::Profile;
use s66_line::Block;
use s66_source::Source;
use s66_time::{Order, Timed, Timer};
use std::alloc::{AllocError, Global};

/// The line of a block, whose number is from 1, and which is timed as it was written.
fn push_time_line(
    out: &mut Vec<u8>,
    number: usize,
    block: &Block,
    timed: &Timed,
) -> Result<(), AllocError>
    requires { timed.now ≡ as_written timed.now.problem.profile (instrs_of block.now) }
    ensures { OnOk result (out.new.items ≡ out.old.items ++ time_line timed.now.problem.profile number block.now) }
{
    let count = block.count();
    push_block_head(out, number, block)?;
    push_field(out, b" COUNT ", count)?;
    push_field(out, b" PARCELS ", block.parcels() as usize)?;
    push_field(out, b" NO ", timed.fillers() as usize)?;
    push_field(out, b" TIME ", timed.total() as usize)?;
    out.extend_from_slice(b"\n")
}

/// The line of the instruction of this number, at a position.
fn push_trace_line(
    out: &mut Vec<u8>,
    timed: &Timed,
    position: usize,
    number: u8,
) -> Result<(), AllocError>
    requires { position < length timed.now.numbers }
    ensures { OnOk result (out.new.items ≡ out.old.items ++ trace_line timed.now position number) }
{
    let place = timed.at(position);
    push_field(out, b"I ", number as usize)?;
    push_field(out, b" PARCEL ", place.parcel as usize)?;
    push_field(out, b" ISSUE ", place.issue as usize)?;
    push_field(out, b" START ", place.start as usize)?;
    push_field(out, b" DONE ", place.done as usize)?;
    push_field(out, b" FREE ", place.free as usize)?;
    out.extend_from_slice(b"\n")
}

/// A line for each instruction of an order.
fn push_trace(out: &mut Vec<u8>, timed: &Timed) -> Result<(), AllocError>
    ensures { OnOk result (out.new.items ≡ out.old.items ++ trace_lines timed.now 0 timed.now.numbers) }
{
    for (position, number) in timed.order().numbers().iter().enumerate() {
        push_trace_line(out, timed, position, *number)?;
    }
    Ok(())
}

/// The lines of a block, whose number is from 1, under the timer's profile.
fn push_time_lines(
    out: &mut Vec<u8>,
    timer: &mut Timer,
    trace: bool,
    number: usize,
    block: &Block,
) -> Result<(), AllocError>
    ensures profile { timer.new ≡ timer.old }
    ensures lines { OnOk result (out.new.items ≡ out.old.items ++ time_lines timer.old trace number block.now) }
{
    let timed = timer.time(block, &Order::source(block));
    push_time_line(out, number, block, &timed)?;
    if trace {
        push_trace(out, &timed)?;
    }
    Ok(())
}

/// The times of blocks as they were written.
#[derive(Drop)]
struct Times {
    /// Whether each instruction is printed.
    trace: bool,
}

impl Listing for Times {
    ghost lines = { λ times p. time_lines p times.trace };

    fn push_lines(
        &self,
        _alloc: Global,
        out: &mut Vec<u8>,
        timer: &mut Timer,
        number: usize,
        block: &Block,
    ) -> Result<(), AllocError> {
        push_time_lines(out, timer, self.trace, number, block)
    }
}

/// The times of each block of a source, or of the only one that is printed, with its instructions or without. `Err` is out of memory.
pub(crate) fn time_output(
    alloc: Global,
    profile: &Profile,
    trace: bool,
    only: Option<u32>,
    source: &Source,
) -> Result<Output, AllocError>
    ensures { IfOk result (λ output.
        IsTimeOutput profile.now trace only source.now output.text.items output.status) }
{
    listing_output(alloc, profile, &Times { trace }, only, source)
}
