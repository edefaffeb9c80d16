//! Examples of the nodes of a tree by their names, the numbers of their prefixes.

ghost use Rattle.std.specs.Prelude.{◌≡◌, [], ◌∷◌, Some, None, true, false};
ghost use Rattle.s66_isa.specs.{Boolean};
ghost use Rattle.s66_model.specs.{Whole, Chain, Load, Parcels, Alone, Parted, NoMore, Unsplit, AtTerminal, AtSplit, node_named, is_node, load_tree};

/// Which node a name leads to.
pub fn node_name_examples()
    ensures root { node_named [] load_tree [] ≡ Some (AtSplit (1 ∷ 3 ∷ [])) }
    ensures split { node_named [] load_tree (1 ∷ 3 ∷ []) ≡ Some (AtSplit (2 ∷ [])) }
    ensures leaf { node_named [] load_tree (1 ∷ 2 ∷ []) ≡ Some (AtTerminal (Load Boolean)) }
    ensures leaf_further_down { node_named [] load_tree (1 ∷ 3 ∷ 2 ∷ []) ≡ Some (AtTerminal Whole) }
    ensures later_child { node_named [] load_tree (3 ∷ []) ≡ Some (AtTerminal (Chain (1 ∷ 2 ∷ []))) }
    ensures below_a_leaf { is_node (node_named [] load_tree (1 ∷ 2 ∷ 3 ∷ [])) ≡ false }
    ensures no_such_child { is_node (node_named [] load_tree (2 ∷ [])) ≡ false }
    ensures first_of_two { node_named [] (Parted (2 ∷ 2 ∷ []) (Unsplit Whole (Unsplit Parcels NoMore))) (2 ∷ []) ≡
        Some (AtTerminal Whole) }
    ensures more_numbers_than_children { node_named [] (Parted (1 ∷ 2 ∷ []) (Unsplit Whole NoMore)) (2 ∷ []) ≡ None }
    ensures over_a_prefix { node_named (1 ∷ []) (Parted (2 ∷ 3 ∷ []) (Unsplit Whole (Unsplit Parcels NoMore)))
        (1 ∷ 3 ∷ []) ≡ Some (AtTerminal Parcels) }
    ensures above_the_prefix { is_node (node_named (1 ∷ []) (Alone Whole) []) ≡ false }
    ensures beside_the_prefix { is_node (node_named (1 ∷ []) (Alone Whole) (2 ∷ [])) ≡ false }
    ensures the_prefix { is_node (node_named (1 ∷ []) (Alone Whole) (1 ∷ [])) ≡ true }
{}
