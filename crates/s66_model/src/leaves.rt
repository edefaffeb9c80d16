//! Laws and examples of leaves: lower bounds of all orders that begin with a prefix, and the floor, which is the greatest of them
//! (`leaf_law`, `floor_law`).

ghost use Rattle.std.specs.Prelude.{ℕ, List, ◌≡◌, ◌≤◌, ◌↔◌, [], ◌∷◌, ◌++◌};
ghost use Rattle.s66_isa.specs.{Boolean, Shift, Multiply, Divide};
ghost use Rattle.s66_model.specs.{Problem, total_of, IsLegal, IsBeginning, Leaf, MayStand, value, floor, Whole, Chain, Load, Parcels, parcels, chain_value, IsFloor, standard_problem, floor_in};
ghost use Rattle.s66_model.specs.{chain_in, loads_in, link_in, load_problem, multiply_problem};
ghost use Rattle.s66_model.specs.Examples as examples;

/// A leaf that may stand at a beginning is at most the total of every legal order that begins so.
pub fn leaf_law()
    ensures { (b : Problem) (prefix rest : List ℕ) (leaf : Leaf) → IsLegal b.block (prefix ++ rest) →
        MayStand b prefix leaf → value b prefix leaf ≤ total_of b (prefix ++ rest) }
{}

/// The floor of a beginning may stand there, is the greatest leaf that may, and of equal ones goes first: no other leaf is so.
pub fn floor_law()
    ensures { (b : Problem) (prefix : List ℕ) (leaf : Leaf) → IsBeginning b.block prefix →
        IsFloor b prefix leaf ↔ (leaf ≡ floor b prefix) }
{}

/// What chains, loads, parcels and links give.
pub fn leaf_examples()
    ensures three_multiplies_loads { loads_in examples.three_multiplies (1 ∷ 2 ∷ []) ≡ 2 ∷ 2 ∷ 2 ∷ 2 ∷ 17 ∷ 2 ∷ 2 ∷ [] }
    ensures zero_register_chain { chain_in examples.zero_register [] ≡ (1 ∷ [], 5) }
    ensures zero_register_loads { loads_in examples.zero_register [] ≡ 0 ∷ 5 ∷ 0 ∷ 0 ∷ 0 ∷ 0 ∷ 4 ∷ [] }
    ensures chain_and_load_alike { loads_in examples.load_and_booleans [] ≡ 8 ∷ 0 ∷ 0 ∷ 0 ∷ 0 ∷ 0 ∷ 2 ∷ [] }
    ensures load_and_parcels_alike { parcels (standard_problem examples.booleans_and_sets) [] ≡ 8 }
    ensures kinds_alike { loads_in examples.shifts_and_booleans [] ≡ 8 ∷ 8 ∷ 0 ∷ 0 ∷ 0 ∷ 0 ∷ 0 ∷ [] }
    ensures rounded_after_the_sum { loads_in examples.boolean_between (1 ∷ 2 ∷ []) ≡ 5 ∷ 2 ∷ 2 ∷ 2 ∷ 12 ∷ 2 ∷ 2 ∷ [] }
    ensures two_copies { loads_in examples.boolean_between [] ≡ 4 ∷ 0 ∷ 0 ∷ 0 ∷ 11 ∷ 0 ∷ 0 ∷ [] }
    ensures last_that_is_not_ready { parcels (standard_problem examples.load_of_both) [] ≡ 6 }
    ensures parcels_after_1_2_3 { parcels (standard_problem examples.packing_gap) (1 ∷ 2 ∷ 3 ∷ []) ≡ 11 }
    ensures no_link_to_a_write_behind { link_in examples.write_behind 1 2 ≡ 0 }
    ensures readers_keep_no_head { chain_in examples.third_order (1 ∷ 2 ∷ []) ≡ (3 ∷ [], 6) }
    ensures link_to_a_reader_of_a { link_in examples.load_of_both 1 2 ≡ 3 }
    ensures link_to_a_reader_of_x { link_in examples.load_of_both 1 3 ≡ 8 }
    ensures link_to_both { link_in examples.load_twice 1 2 ≡ 8 }
    ensures link_of_one_writer_to_another { link_in examples.first_order 1 2 ≡ 10 }
    ensures link_of_store_and_load { link_in examples.store_then_load 1 2 ≡ 1 }
    ensures link_of_load_and_store { link_in examples.load_then_store 1 2 ≡ 1 }
    ensures no_link_of_two_loads { link_in examples.two_loads 2 3 ≡ 0 }
    ensures greater_link { link_in examples.store_and_its_address 1 2 ≡ 3 }
    ensures longer_of_the_same_value { chain_value (standard_problem examples.early_end) [] (1 ∷ 2 ∷ 3 ∷ []) ≡ 8 }
{}

/// Which leaf is the floor of a prefix, and what its value is.
pub fn floor_examples()
    ensures one_boolean { floor_in examples.one_boolean [] ≡ (Chain (1 ∷ []), 4) }
    ensures one_boolean_placed { floor_in examples.one_boolean (1 ∷ []) ≡ (Whole, 4) }
    ensures two_booleans { floor_in examples.two_booleans [] ≡ (Load Boolean, 8) }
    ensures one_load { floor_in examples.one_load [] ≡ (Chain (1 ∷ 2 ∷ []), 12) }
    ensures one_load_after_1 { floor_in examples.one_load (1 ∷ []) ≡ (Chain (2 ∷ []), 12) }
    ensures one_load_after_3 { floor_in examples.one_load (3 ∷ []) ≡ (Chain (1 ∷ 2 ∷ []), 13) }
    ensures one_load_after_1_2 { floor_in examples.one_load (1 ∷ 2 ∷ []) ≡ (Load Boolean, 16) }
    ensures one_load_after_1_3 { floor_in examples.one_load (1 ∷ 3 ∷ []) ≡ (Chain (2 ∷ []), 12) }
    ensures three_multiplies { floor_in examples.three_multiplies [] ≡ (Load Multiply, 17) }
    ensures three_multiplies_after_1 { floor_in examples.three_multiplies (1 ∷ []) ≡ (Load Multiply, 17) }
    ensures three_multiplies_after_1_2 { floor_in examples.three_multiplies (1 ∷ 2 ∷ []) ≡ (Load Multiply, 17) }
    ensures three_multiplies_after_2_1 { floor_in examples.three_multiplies (2 ∷ 1 ∷ []) ≡ (Load Multiply, 17) }
    ensures three_multiplies_placed { floor_in examples.three_multiplies (1 ∷ 2 ∷ 3 ∷ []) ≡ (Whole, 22) }
    ensures zero_register { floor_in examples.zero_register [] ≡ (Parcels, 6) }
    ensures store_then_load { floor_in examples.store_then_load [] ≡ (Chain (1 ∷ 2 ∷ []), 9) }
    ensures late_store { floor_in examples.late_store [] ≡ (Chain (1 ∷ 2 ∷ 3 ∷ []), 19) }
    ensures first_order { floor_in examples.first_order [] ≡ (Chain (1 ∷ 2 ∷ []), 14) }
    ensures first_order_after_1 { floor_in examples.first_order (1 ∷ []) ≡ (Chain (2 ∷ []), 14) }
    ensures chain_before_load { floor_in examples.load_and_booleans [] ≡ (Chain (1 ∷ []), 8) }
    ensures load_before_parcels { floor_in examples.booleans_and_sets [] ≡ (Load Boolean, 8) }
    ensures first_kind { floor_in examples.shifts_and_booleans [] ≡ (Load Boolean, 8) }
    ensures none_of_the_kind_remains { floor_in examples.divide_and_boolean (1 ∷ []) ≡ (Load Divide, 30) }
    ensures least_of_the_last { floor_in examples.boolean_and_set [] ≡ (Parcels, 5) }
    ensures no_chain_to_a_write_behind { floor_in examples.write_behind [] ≡ (Chain (2 ∷ []), 11) }
    ensures lowest_head { floor_in examples.crossed_chains [] ≡ (Chain (1 ∷ 4 ∷ []), 12) }
    ensures lowest_next { floor_in examples.forked_chain [] ≡ (Chain (1 ∷ 2 ∷ []), 12) }
    ensures next_by_the_greater_link { floor_in examples.load_of_both [] ≡ (Chain (1 ∷ 3 ∷ []), 12) }
    ensures ends_with_the_tail { floor_in examples.early_end [] ≡ (Chain (1 ∷ []), 8) }
    ensures is_floor { IsFloor load_problem [] (Chain (1 ∷ 2 ∷ [])) }
    ensures is_floor_of_a_whole_order { IsFloor load_problem (1 ∷ 3 ∷ 2 ∷ []) Whole }
    ensures not_the_greatest { ¬ IsFloor multiply_problem [] Parcels }
    ensures may_not_stand { ¬ IsFloor load_problem [] Whole }
    ensures load_after_chain { ¬ IsFloor (standard_problem examples.load_and_booleans) [] (Load Boolean) }
    ensures parcels_after_load { ¬ IsFloor (standard_problem examples.booleans_and_sets) [] Parcels }
    ensures later_kind { ¬ IsFloor (standard_problem examples.shifts_and_booleans) [] (Load Shift) }
    ensures later_head { ¬ IsFloor (standard_problem examples.crossed_chains) [] (Chain (2 ∷ 3 ∷ [])) }
    ensures longer_chain { ¬ IsFloor (standard_problem examples.early_end) [] (Chain (1 ∷ 2 ∷ 3 ∷ [])) }
{}
