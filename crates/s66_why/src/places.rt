//! Texts in places of a width: blanks fill what is left.

ghost use Rattle.std.specs.Prelude.{◌≡◌, ◌≤◌, ◌++◌, OnOk, replicate};
ghost use Rattle.s66_line.specs.{TEXT_LIMIT};
ghost use Rattle.s66_why.specs.{in_places, text_width};

use s66_line::Block;
use std::alloc::AllocError;

/// Appends blanks. `Err` is out of memory.
pub fn push_blanks(out: &mut Vec<u8>, count: usize) -> Result<(), AllocError>
    ensures { OnOk result (out.new.items ≡ out.old.items ++ replicate count 32) }
{
    for done in 0..count {
        out.push(b' ')?;
    }
    Ok(())
}

/// How many places the texts of a block need.
pub fn text_width(block: &Block) -> usize
    ensures value { result ≡ text_width block.now }
    ensures few { result ≤ TEXT_LIMIT }
{
    let mut width = 0usize;
    for position in 0..block.count() {
        width = width.max(block.text(position + 1).len());
    }
    width
}

/// Appends a text on the left of this many places, and a blank. `Err` is out of memory.
pub fn push_in_places(out: &mut Vec<u8>, text: &[u8], width: usize) -> Result<(), AllocError>
    ensures { OnOk result (out.new.items ≡ out.old.items ++ in_places width text.now) }
{
    out.extend_from_slice(text)?;
    push_blanks(out, width.saturating_sub(text.len()))?;
    out.extend_from_slice(b" ")
}
