//! Laws and examples of how the search of a ledger ends: no open floor is below the best time, or the budget is spent; and the answer
//! that it then is.

ghost use Rattle.std.specs.Prelude.{ℕ, List, ◌≡◌, [], ◌∷◌, true, false};
ghost use Rattle.s66_isa.specs.{Multiply};
ghost use Rattle.s66_model.specs.{Rule, Problem, Whole, Chain, Load, Alone, Parted, NoMore, Unsplit, Split, Carries, Bounding, tree_bounding, Ledger, Event, Reply, Run, opening, Open, Out, Cut};
ghost use Rattle.s66_model.specs.{Closed, after_graft, IsFinished, IsReached, is_split_at, node_tree, IsEnded, ended_answer, boolean_problem, load_problem, multiply_problem, answer, every_order};
ghost use Rattle.s66_model.specs.{load_tree, one_split, node, ledger, first_node, root_split, second_split, without_grants, load_grafted, loose_split};
ghost use Rattle.s66_model.specs.Examples.{children};

/// However a ledger was reached, and whatever steps went on from it: if these have ended, the answer that the last state is
/// finishes the ledger with which they began.
pub fn ended_law()
    ensures { (rule : Rule) (b : Problem) (budget workers : ℕ) (l new : Ledger) (events : List (Event × Reply)) →
        IsReached rule b budget workers l → Run rule b l events new → IsEnded b budget new →
        IsFinished rule b budget l (ended_answer b new) }
{}

/// Where nodes are split and which trees they have; which ledgers have ended, and the answers that they are.
pub fn ended_examples()
    ensures split_root { is_split_at second_split.nodes [] ≡ true }
    ensures split_child { is_split_at second_split.nodes (2 ∷ []) ≡ true }
    ensures open_child { is_split_at second_split.nodes (1 ∷ []) ≡ false }
    ensures open_below_a_split { is_split_at second_split.nodes (2 ∷ 1 ∷ []) ≡ false }
    ensures no_node { is_split_at second_split.nodes (1 ∷ 2 ∷ []) ≡ false }
    ensures tree_of_one_node { node_tree multiply_problem (first_node Out).nodes ≡
        tree_bounding (Alone (Load Multiply)) }
    ensures tree_of_one_split { node_tree multiply_problem (root_split Open Out Open).nodes ≡
        tree_bounding (one_split (Load Multiply)) }
    ensures tree_of_two_splits { node_tree multiply_problem second_split.nodes ≡
        tree_bounding (Parted (1 ∷ 2 ∷ 3 ∷ [])
        (Unsplit (Load Multiply) (Split (1 ∷ 3 ∷ []) (children 2 (Load Multiply)) (Unsplit (Load Multiply) NoMore)))) }
    ensures tree_of_three_splits { node_tree load_problem (load_grafted (1 ∷ 2 ∷ 3 ∷ []) Open).nodes ≡
        tree_bounding load_tree }
    ensures tree_of_nodes_in_another_order { node_tree load_problem (node (3 ∷ []) Out ∷ node (1 ∷ []) Open ∷
        node [] Cut ∷ []) ≡ tree_bounding
        (Parted (1 ∷ 3 ∷ []) (Unsplit (Chain (2 ∷ [])) (Unsplit (Chain (1 ∷ 2 ∷ [])) NoMore))) }
    ensures tree_without_a_loose_split { node_tree load_problem loose_split.nodes ≡
        tree_bounding (Alone (Chain (1 ∷ 2 ∷ []))) }
    ensures ended_at_the_opening { IsEnded multiply_problem 0 (opening multiply_problem 0 1) }
    ensures ended_with_a_budget_of_1 { IsEnded multiply_problem 1 (ledger (root_split Open Out Open).nodes
        (1 ∷ 2 ∷ 3 ∷ []) 0 (0 ∷ []) 1) }
    ensures ended_by_a_floor_as_high_as_the_best { IsEnded boolean_problem 10 (without_grants (node [] Open ∷ [])
        (1 ∷ 2 ∷ [])) }
    ensures ended_with_splits_left { IsEnded load_problem 10 (load_grafted (1 ∷ 3 ∷ 2 ∷ []) (Closed (Bounding Whole))) }
    ensures ended_by_every_order { IsEnded multiply_problem 11 (ledger
        (after_graft multiply_problem (first_node Out) 1 0 [] (every_order (Carries Whole))).nodes (1 ∷ 2 ∷ 3 ∷ []) 1
        (0 ∷ []) 10) }
    ensures not_ended_with_a_budget_of_2 { ¬ IsEnded multiply_problem 2 (ledger (root_split Open Out Open).nodes
        (1 ∷ 2 ∷ 3 ∷ []) 1 (0 ∷ []) 1) }
    ensures not_ended_while_one_is_out { ¬ IsEnded multiply_problem 10 (first_node Out) }
    ensures not_ended_by_a_whole_order_below_the_best { ¬ IsEnded load_problem 3 (load_grafted (1 ∷ 2 ∷ 3 ∷ []) Open) }
    ensures answer_of_the_opening { ended_answer multiply_problem (opening multiply_problem 0 1) ≡
        answer (1 ∷ 2 ∷ 3 ∷ []) 22 17 0 (Alone (Load Multiply)) }
    ensures answer_of_one_split { ended_answer multiply_problem (ledger (root_split Open Out Open).nodes
        (1 ∷ 2 ∷ 3 ∷ []) 0 (0 ∷ []) 1) ≡ answer (1 ∷ 2 ∷ 3 ∷ []) 22 17 1 (one_split (Load Multiply)) }
    ensures answer_of_three_splits { ended_answer load_problem (load_grafted (1 ∷ 3 ∷ 2 ∷ [])
        (Closed (Bounding Whole))) ≡ answer (1 ∷ 3 ∷ 2 ∷ []) 12 12 3 load_tree }
    ensures answer_of_every_order { ended_answer multiply_problem (after_graft multiply_problem
        (first_node Out) 1 0 [] (every_order (Carries Whole))) ≡ answer (1 ∷ 2 ∷ 3 ∷ []) 22 22 10 (every_order Whole) }
{}
