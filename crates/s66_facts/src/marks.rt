//! Sets of a block's numbers, one for each of its instructions: copies, and empty ones.

ghost use Rattle.std.specs.Prelude.{ℕ, ◌-◌, ◌≡◌, ◌≤◌, false, length, get_or};
ghost use Rattle.s66_isa.specs.{BLOCK_LIMIT, has, numbers_in, no_set};

use arrayvec::ArrayVec;
use s66_isa::{BLOCK_LIMIT, Set};

/// The same.
pub(crate) fn copy_of(marks: &[Set]) -> ArrayVec<Set, BLOCK_LIMIT>
    requires { length marks.now ≤ BLOCK_LIMIT }
    ensures { result.items ≡ marks.now }
{
    let Ok(copy) = ArrayVec::try_from(marks) else {
        unreachable!()
    };
    copy
}

/// None is marked, so many times.
pub(crate) fn none_each(count: u8) -> ArrayVec<Set, BLOCK_LIMIT>
    requires { count ≤ BLOCK_LIMIT }
    ensures count { length result.items ≡ count }
    ensures none { (m n : ℕ) → 1 ≤ n → n ≤ count → has m (numbers_in (get_or result.items (n - 1) no_set)) ≡ false }
{
    let mut all: ArrayVec<Set, BLOCK_LIMIT> = ArrayVec::new();
    for _position in 0..count {
        all.push(Set::empty());
    }
    all
}
