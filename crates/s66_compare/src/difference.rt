//! Where what stands beside the blocks of two sources first differs.

ghost use Rattle.std.specs.Prelude.{◌≡◌, IfOk};
ghost use Rattle.s66_source.specs.{frame_of};
ghost use Rattle.s66_compare.specs.{first_difference, is_alike};

use s66_source::{FramePart, Source, frame_of};
use std::alloc::{AllocError, Global};

/// The lines in which what stands beside the blocks of two sources first differs; None if a source has ended there.
#[derive(Clone, Copy)]
pub struct Difference {
    pub old: Option<u32>,
    pub new: Option<u32>,
}

/// Whether two parts are the same but for their lines.
fn is_alike(old: &FramePart, new: &FramePart) -> bool
    ensures { result ≡ is_alike old.now new.now }
{
    let same_sort = if old.is_block {
        new.is_block
    } else {
        !new.is_block
    };
    same_sort && old.bytes == new.bytes
}

/// Where two frames first differ.
#[tactic(auto, using(crate::proofs::Differences::alike_next, crate::proofs::Differences::alike_not, crate::proofs::Differences::old_more, crate::proofs::Differences::new_more, crate::proofs::Differences::no_more))]
fn first_difference(old: &[FramePart], new: &[FramePart]) -> Option<Difference>
    ensures { result ≡ first_difference old.now new.now }
{
    for (place, part) in old.iter().enumerate() {
        if place >= new.len() {
            return Some(Difference {
                old: Some(part.line),
                new: None,
            });
        }
        let other = &new[place];
        if !is_alike(part, other) {
            return Some(Difference {
                old: Some(part.line),
                new: Some(other.line),
            });
        }
    }
    if old.len() < new.len() {
        let other = &new[old.len()];
        return Some(Difference {
            old: None,
            new: Some(other.line),
        });
    }
    None
}

/// Where what stands beside the blocks of two sources first differs. `Err` is out of memory.
pub fn difference_of(
    alloc: Global,
    old: &Source,
    new: &Source,
) -> Result<Option<Difference>, AllocError>
    ensures { IfOk result (λ difference. difference ≡ first_difference (frame_of old.now) (frame_of new.now)) }
{
    let old = frame_of(alloc, old)?;
    let new = frame_of(alloc, new)?;
    Ok(first_difference(old.as_slice(), new.as_slice()))
}
