//! Which copy of its unit each instruction takes, where a kind has several.

ghost use Rattle.std.specs.Prelude.{◌≡◌, ◌≤◌, length};
ghost use Rattle.s66_isa.specs.{BLOCK_LIMIT};
ghost use Rattle.s66_why.specs.{left_from, taken_from, works_of_kind};

use crate::work::Work;
use arrayvec::ArrayVec;
use s66_isa::{BLOCK_LIMIT, Kind, is_same_kind};

/// The instructions whose units are of a kind.
pub fn works_of_kind(works: &[Work], kind: Kind) -> ArrayVec<Work, BLOCK_LIMIT>
    requires { length works.now ≤ BLOCK_LIMIT }
    ensures { result.items ≡ works_of_kind kind works.now }
{
    let mut same = ArrayVec::new();
    for work in works {
        if is_same_kind(work.kind, kind) {
            same.push(*work);
        }
    }
    same
}

/// What a unit does that takes the first of these instructions, then the next that issues when it is free, and so on.
pub fn taken(works: &[Work]) -> ArrayVec<Work, BLOCK_LIMIT>
    requires { length works.now ≤ BLOCK_LIMIT }
    ensures { result.items ≡ taken_from 0 works.now }
{
    let mut taken = ArrayVec::new();
    let mut free = 0;
    for work in works {
        if free <= work.issue {
            taken.push(*work);
            free = work.free;
        }
    }
    taken
}

/// What that unit leaves to others.
pub fn left(works: &[Work]) -> ArrayVec<Work, BLOCK_LIMIT>
    requires { length works.now ≤ BLOCK_LIMIT }
    ensures { result.items ≡ left_from 0 works.now }
{
    let mut left = ArrayVec::new();
    let mut free = 0;
    for work in works {
        if free <= work.issue {
            free = work.free;
        } else {
            left.push(*work);
        }
    }
    left
}
