//! Examples of dependence: which instruction must stay after which, by registers or by memory.

ghost use Rattle.std.specs.Prelude.{◌≡◌, [], ◌∷◌};
ghost use Rattle.s66_model.specs.{all_needs};
ghost use Rattle.s66_model.specs.Examples as examples;

/// The numbers on which instructions 1, 2, .. depend.
pub fn dependence_examples()
    ensures one_load { all_needs examples.one_load ≡ [] ∷ (1 ∷ []) ∷ [] ∷ [] }
    ensures three_multiplies { all_needs examples.three_multiplies ≡ [] ∷ [] ∷ [] ∷ [] }
    ensures first_order { all_needs examples.first_order ≡ [] ∷ (1 ∷ []) ∷ [] }
    ensures third_order { all_needs examples.third_order ≡ [] ∷ (1 ∷ []) ∷ (2 ∷ []) ∷ [] }
    ensures store_then_load { all_needs examples.store_then_load ≡ [] ∷ (1 ∷ []) ∷ [] }
    ensures load_then_store { all_needs examples.load_then_store ≡ [] ∷ (1 ∷ []) ∷ [] }
    ensures two_stores { all_needs examples.two_stores ≡ [] ∷ (1 ∷ []) ∷ [] }
    ensures two_loads { all_needs examples.two_loads ≡ [] ∷ (1 ∷ []) ∷ [] ∷ [] }
    ensures zero_register { all_needs examples.zero_register ≡ [] ∷ [] ∷ [] ∷ [] }
    ensures load_twice { all_needs examples.load_twice ≡ [] ∷ (1 ∷ []) ∷ [] }
    ensures unpack_then_shift { all_needs examples.unpack_then_shift ≡ [] ∷ (1 ∷ []) ∷ [] }
    ensures two_readers { all_needs examples.two_readers ≡ [] ∷ (1 ∷ []) ∷ [] ∷ (2 ∷ 3 ∷ []) ∷ [] }
    ensures one_divide_unit { all_needs examples.one_divide_unit ≡ [] ∷ [] ∷ [] }
{}
