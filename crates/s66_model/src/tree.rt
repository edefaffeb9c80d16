//! Laws and examples of trees over a prefix: the lower bound that a tree shows (`tree_law`), and its lines. Trees with dominated leaves
//! are in `dominated_leaves.rt`.

ghost use Rattle.std.specs.Prelude.{ℕ, List, ◌≡◌, ◌≤◌, [], ◌∷◌, ◌++◌};
ghost use Rattle.s66_isa.specs.{Boolean, Multiply};
ghost use Rattle.s66_model.specs.{Problem, total_of, IsLegal, IsBound, Leaf, leaf_values, Whole, Chain, Load, Parcels, Tree, Shows, Alone, Parted, NoMore, Unsplit, Split, splits, split_at};
ghost use Rattle.s66_model.specs.{tree_values, AtTerminal, AtSplit, flat_siblings, flat, load_problem, multiply_problem, both_orders, every_order, all_but_one, one_omitted, load_tree, load_orders};
ghost use Rattle.s66_model.specs.{one_split, child_omitted};
ghost use Rattle.s66_model.specs.Examples.{children};

/// What a tree shows over a prefix is at most the total of every legal order that begins with it; over the empty prefix it is
/// a bound.
pub fn tree_law()
    ensures below { (b : Problem) (low : ℕ) (prefix rest : List ℕ) (tree : Tree Leaf) → Shows b low prefix tree →
        IsLegal b.block (prefix ++ rest) → low ≤ total_of b (prefix ++ rest) }
    ensures bound { (b : Problem) (low : ℕ) (tree : Tree Leaf) → Shows b low [] tree → IsBound b low }
{}

/// What trees show of which prefix; their splits, lines and values.
pub fn tree_examples()
    ensures chain_shows_12 { Shows load_problem 12 [] (Alone (Chain (1 ∷ 2 ∷ []))) }
    ensures load_shows_17 { Shows multiply_problem 17 [] (Alone (Load Multiply)) }
    ensures split_shows_17 { Shows multiply_problem 17 [] (one_split (Load Multiply)) }
    ensures whole_orders_show_22 { Shows multiply_problem 22 [] (every_order Whole) }
    ensures whole_order_shows_12 { Shows load_problem 12 (1 ∷ 3 ∷ 2 ∷ []) (Alone Whole) }
    ensures no_more_than_the_leaf { ¬ Shows multiply_problem 18 [] (Alone (Load Multiply)) }
    ensures no_more_than_the_least_leaf { ¬ Shows multiply_problem 18 [] all_but_one }
    ensures no_link { ¬ Shows load_problem 0 [] (Alone (Chain (1 ∷ 3 ∷ []))) }
    ensures no_link_back { ¬ Shows load_problem 0 [] (Alone (Chain (2 ∷ 1 ∷ []))) }
    ensures chain_below_12 { ¬ Shows load_problem 12 [] (Alone (Chain (2 ∷ []))) }
    ensures chain_of_nothing { ¬ Shows load_problem 0 [] (Alone (Chain [])) }
    ensures chain_from_what_is_placed { ¬ Shows load_problem 0 (1 ∷ []) (Alone (Chain (1 ∷ 2 ∷ []))) }
    ensures chain_of_what_is_placed { ¬ Shows load_problem 0 (1 ∷ 2 ∷ []) (Alone (Chain (2 ∷ []))) }
    ensures whole_order_too_soon { ¬ Shows load_problem 0 (1 ∷ 3 ∷ []) (Alone Whole) }
    ensures chain_too_late { ¬ Shows load_problem 0 (1 ∷ 3 ∷ 2 ∷ []) (Alone (Chain (2 ∷ []))) }
    ensures load_too_late { ¬ Shows load_problem 0 (1 ∷ 3 ∷ 2 ∷ []) (Alone (Load Boolean)) }
    ensures parcels_too_late { ¬ Shows load_problem 0 (1 ∷ 3 ∷ 2 ∷ []) (Alone Parcels) }
    ensures split_too_late { ¬ Shows load_problem 0 (1 ∷ 3 ∷ 2 ∷ []) (Parted [] NoMore) }
    ensures split_below_too_late { ¬ Shows load_problem 0 (1 ∷ 3 ∷ []) (Parted (2 ∷ []) (Split [] NoMore NoMore)) }
    ensures child_not_named { ¬ Shows multiply_problem 0 [] (child_omitted (Load Multiply)) }
    ensures child_not_there { ¬ Shows multiply_problem 0 [] (Parted (1 ∷ 2 ∷ 3 ∷ []) (children 2 (Load Multiply))) }
    ensures child_too_many { ¬ Shows multiply_problem 0 [] (Parted (1 ∷ 2 ∷ 3 ∷ []) (children 4 (Load Multiply))) }
    ensures split_too_many { ¬ Shows load_problem 0 (1 ∷ 3 ∷ [])
        (Parted (2 ∷ []) (Unsplit Whole (Split [] NoMore NoMore))) }
    ensures children_not_rising { ¬ Shows multiply_problem 0 [] (Parted (2 ∷ 1 ∷ 3 ∷ []) (children 3 (Load Multiply))) }
    ensures child_below_not_named { ¬ Shows multiply_problem 0 [] one_omitted }
    ensures lines_below_a_split { flat_siblings (both_orders Whole 2 3) ≡ AtSplit (3 ∷ []) ∷ AtTerminal Whole ∷
        AtSplit (2 ∷ []) ∷ AtTerminal Whole ∷ [] }
    ensures lines_of_a_tree { flat load_tree ≡ AtSplit (1 ∷ 3 ∷ []) ∷ AtSplit (2 ∷ 3 ∷ []) ∷ AtTerminal (Load Boolean) ∷
        AtSplit (2 ∷ []) ∷ AtTerminal Whole ∷ AtTerminal (Chain (1 ∷ 2 ∷ [])) ∷ [] }
    ensures ten_splits { splits (every_order Whole) ≡ 10 }
    ensures no_splits { splits (Alone Whole) ≡ 0 }
    ensures prefixes_that_are_split { split_at [] load_tree ≡ [] ∷ (1 ∷ []) ∷ (1 ∷ 3 ∷ []) ∷ [] }
    ensures values_of_whole_orders { tree_values (leaf_values load_problem) [] (load_orders Whole) ≡ 16 ∷ 12 ∷ 13 ∷ [] }
    ensures values_of_leaves { tree_values (leaf_values load_problem) [] load_tree ≡ 16 ∷ 12 ∷ 13 ∷ [] }
    ensures prefixes_of_leaves { tree_values (λ prefix leaf. prefix) [] load_tree ≡ 1 ∷ 2 ∷ 1 ∷ 3 ∷ 2 ∷ 3 ∷ [] }
    ensures leaves_without_values { tree_values {V = ℕ} (λ prefix leaf. []) [] load_tree ≡ [] }
{}
