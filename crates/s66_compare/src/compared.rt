//! The comparison of two sources (`compare`): rows of blocks, what stands beside them, the text, and whether the new source is
//! accepted.

ghost use Rattle.std.specs.Prelude.{◌≡◌, IfOk};
ghost use Rattle.s66_compare.specs.{IsCompared, is_accepted};

use crate::difference::{Difference, difference_of};
use crate::rows::{Row, aligned_rows, are_legal};
use crate::text::compared_text;
use s66_isa::Profile;
use s66_source::Source;
use std::alloc::{AllocError, Global};

/// What is written of an old source and a new one.
#[derive(Drop)]
pub struct Compared {
    pub text: Vec<u8>,
    /// Whether the new source is the old one, but for comments, remarks, `NO`s and the order of instructions in blocks, each of which
    /// keeps every dependence.
    pub is_accepted: bool,
}

/// Whether each block is the old one in a legal order, and nothing else differs.
pub fn is_accepted(rows: &[Row], difference: Option<Difference>) -> bool
    ensures { result ≡ is_accepted rows.now difference }
{
    are_legal(rows) && difference.is_none()
}

/// Compares a new source with an old one, block by block as they are aligned, and what stands beside the blocks, under a profile; with
/// `text` by lines and instructions where it isn't legal. `Err` is out of memory.
pub fn compare(
    alloc: Global,
    profile: &Profile,
    text: bool,
    old: &Source,
    new: &Source,
) -> Result<Compared, AllocError>
    ensures { IfOk result (λ compared.
        IsCompared profile.now text old.now new.now compared.text.items compared.is_accepted) }
{
    let old_blocks = old.blocks();
    let new_blocks = new.blocks();
    let rows = aligned_rows(alloc, profile, old_blocks, new_blocks)?;
    let difference = difference_of(alloc, old, new)?;
    let written = compared_text(alloc, text, new_blocks, rows.as_slice(), difference)?;
    Ok(Compared {
        text: written,
        is_accepted: is_accepted(rows.as_slice(), difference),
    })
}
