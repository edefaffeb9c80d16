//! A whole order with its total, and the least of several.

ghost use Rattle.std.specs.Prelude.{◌≡◌, ◌≤◌, ◌++◌, [], ◌∷◌, List, ℕ, length};
ghost use Rattle.s66_isa.specs.{BLOCK_LIMIT};
ghost use Rattle.s66_model.specs.{Problem, total_of, IsLegal};
ghost use Rattle.s66_node.specs.{IsLeast};

use arrayvec::ArrayVec;
use s66_isa::BLOCK_LIMIT;

/// A whole order and its total in minor cycles.
#[derive(Drop)]
pub(crate) struct WholeOrder {
    pub(crate) numbers: ArrayVec<u8, BLOCK_LIMIT>,
    pub(crate) total: u32,
}

/// The same numbers, copied all at once.
pub(crate) fn copy_of(numbers: &[u8]) -> ArrayVec<u8, BLOCK_LIMIT>
    requires { length numbers.now ≤ BLOCK_LIMIT }
    ensures { result.items ≡ numbers.now }
{
    let mut copy = ArrayVec::new();
    // there is room for all
    let _ = copy.try_extend_from_slice(numbers);
    copy
}

/// Keeps the lesser of the least order so far and this one; of equal ones the first stays.
pub(crate) fn keep_lesser(least: &mut Option<WholeOrder>, numbers: &[u8], total: u32)
    requires { length numbers.now ≤ BLOCK_LIMIT }
    ensures { (b : Problem) (orders : List (List ℕ)) → IsLegal b.block numbers.now → total ≡ total_of b numbers.now →
        IsLeast b orders least.old → IsLeast b (orders ++ numbers.now ∷ []) least.new }
{
    if let Some(found) = least {
        if found.total <= total {
            return;
        }
    }
    *least = Some(WholeOrder {
        numbers: copy_of(numbers),
        total,
    });
}
