//! The line of a block (`push_written_line`, `push_found_line`): one JSON object without spaces.

ghost use Rattle.std.specs.Prelude.{◌≡◌, ◌++◌, OnOk};
ghost use Rattle.serde_json.specs.Data.{null};
ghost use Rattle.s66_views.specs.{found_data, json_line};

use crate::json_lines::block::push_start;
use crate::json_lines::order::{push_bound, push_timed};
use crate::json_lines::text::push_text;
use s66_line::Block;
use s66_time::Timed;
use std::alloc::AllocError;

/// Appends the line of a block, whose number is from 1, in its source order: what each instruction is and when it does what. The block
/// is entered by this name, which is empty if there is none. `Err` is out of memory.
///
/// The line is one JSON object without spaces. It takes time quadratic in the length of the block, which is at most `BLOCK_LIMIT`, and
/// allocates nothing but room in `out`.
pub fn push_written_line(
    out: &mut Vec<u8>,
    number: usize,
    entry: &[u8],
    block: &Block,
    written: &Timed,
) -> Result<(), AllocError>
    ensures { OnOk result (out.new.items ≡ out.old.items ++ json_line number entry.now block.now written.now null) }
{
    push_start(out, number, entry, block, written)?;
    push_text(out, b"null}\n")
}

/// Appends the line of a block as `push_written_line` does, and also in an order that was found by so many splits, when every order
/// takes the bound at least. `Err` is out of memory.
pub fn push_found_line(
    out: &mut Vec<u8>,
    number: usize,
    entry: &[u8],
    block: &Block,
    written: &Timed,
    found: &Timed,
    bound: u32,
    splits: u32,
) -> Result<(), AllocError>
    ensures { OnOk result (out.new.items ≡ out.old.items ++
        json_line number entry.now block.now written.now (found_data found.now bound splits)) }
{
    push_start(out, number, entry, block, written)?;
    push_timed(out, found)?;
    push_bound(out, bound, splits, bound == found.total())?;
    push_text(out, b"}}\n")
}
