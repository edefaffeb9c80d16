//! How the first line of a block begins, in whatever subcommand.

ghost use Rattle.std.specs.Prelude.{◌≡◌, ◌++◌, OnOk};
ghost use Rattle.s66_program.specs.{block_head, timed_line};

use s66_device::push_field;
use s66_line::Block;
use s66_time::Timed;
use std::alloc::AllocError;

/// How the first line of a block begins, whose number is from 1.
pub(crate) fn push_block_head(
    out: &mut Vec<u8>,
    number: usize,
    block: &Block,
) -> Result<(), AllocError>
    ensures { OnOk result (out.new.items ≡ out.old.items ++ block_head number block.now) }
{
    // so there is a first instruction
    prove!(block.count() >= 1);
    push_field(out, b"BLOCK ", number)?;
    push_field(out, b" LINE ", block.line(1) as usize)
}

/// The line of a block, whose number is from 1, in a timed order.
pub(crate) fn push_timed_line(
    out: &mut Vec<u8>,
    number: usize,
    block: &Block,
    timed: &Timed,
) -> Result<(), AllocError>
    ensures { OnOk result (out.new.items ≡ out.old.items ++ timed_line number block.now timed.now) }
{
    push_block_head(out, number, block)?;
    push_field(out, b" TIME ", timed.total() as usize)?;
    out.extend_from_slice(b"\n")
}
