//! Laws and examples of expansions: pieces that are grown while a best time is in hand, which may fall.

ghost use Rattle.std.specs.Prelude.{ℕ, List, ◌≡◌, ◌≤◌, ◌<◌, [], ◌∷◌, Some, None};
ghost use Rattle.s66_isa.specs.{Multiply};
ghost use Rattle.s66_model.specs.{Rule, NoneNamed, Problem, IsIncomplete, Whole, Chain, Load, Parcels, floor_value, Tree, Alone, Parted, NoMore, Unsplit, splits, Terminal, Carries, Frontier, IsPiece};
ghost use Rattle.s66_model.specs.{IsExpansion, IsBestWhole, whole_orders, load_problem, multiply_problem, load_piece, one_split, child_omitted, every_order, load_orders};

/// An expansion is a piece, whatever the best time does meanwhile. Its prefix is split if one split is allowed, it is incomplete and
/// its floor is below the last best time.
pub fn expansion_law()
    ensures piece { (rule : Rule) (b : Problem) (high low allowance : ℕ) (prefix : List ℕ) (tree : Tree Terminal) →
        IsExpansion rule b high low allowance prefix tree → IsPiece rule b prefix tree }
    ensures due { (rule : Rule) (b : Problem) (high low allowance : ℕ) (prefix : List ℕ) (tree : Tree Terminal) →
        IsExpansion rule b high low allowance prefix tree → 1 ≤ allowance → IsIncomplete b.block prefix →
        floor_value b prefix < low → 1 ≤ splits tree }
{}

/// What expansions of a prefix are: by best times before and after, and by the number of splits.
pub fn expansion_examples()
    ensures one_split_below_22 { IsExpansion NoneNamed multiply_problem 22 22 1 [] (one_split Frontier) }
    ensures nothing_else_below_22 { (tree : Tree Terminal) → IsExpansion NoneNamed multiply_problem 22 22 1 [] tree →
        tree ≡ one_split Frontier }
    ensures floor_at_17 { IsExpansion NoneNamed multiply_problem 17 17 1 [] (Alone (Carries (Load Multiply))) }
    ensures nothing_else_at_17 { (tree : Tree Terminal) → IsExpansion NoneNamed multiply_problem 17 17 1 [] tree →
        tree ≡ Alone (Carries (Load Multiply)) }
    ensures whole_order { IsExpansion NoneNamed multiply_problem 22 22 0 (1 ∷ 2 ∷ 3 ∷ []) (Alone (Carries Whole)) }
    ensures nothing_else_of_a_whole_order { (tree : Tree Terminal) →
        IsExpansion NoneNamed multiply_problem 22 22 0 (1 ∷ 2 ∷ 3 ∷ []) tree → tree ≡ Alone (Carries Whole) }
    ensures whole_order_below_the_best { IsExpansion NoneNamed load_problem 16 16 0 (1 ∷ 3 ∷ 2 ∷ [])
        (Alone (Carries Whole)) }
    ensures three_splits { IsExpansion NoneNamed load_problem 16 16 3 [] load_piece }
    ensures no_allowance { IsExpansion NoneNamed multiply_problem 22 22 0 [] (Alone Frontier) }
    ensures fell_to_the_floor { IsExpansion NoneNamed multiply_problem 22 17 1 [] (Alone (Carries (Load Multiply))) }
    ensures not_seen_to_fall { IsExpansion NoneNamed multiply_problem 22 17 1 [] (one_split Frontier) }
    ensures no_split_where_one_is_due { ¬ IsExpansion NoneNamed multiply_problem 22 22 1 [] (Alone Frontier) }
    ensures one_split_of_64 { ¬ IsExpansion NoneNamed multiply_problem 22 22 64 [] (one_split Frontier) }
    ensures open_without_a_split { ¬ IsExpansion NoneNamed multiply_problem 22 17 1 [] (Alone Frontier) }
    ensures one_split_too_many { ¬ IsExpansion NoneNamed load_problem 16 16 2 [] load_piece }
    ensures split_at_the_best { ¬ IsExpansion NoneNamed multiply_problem 17 17
        1 [] (one_split (Carries (Load Multiply))) }
    ensures frontier_at_the_best { ¬ IsExpansion NoneNamed load_problem 13 13 3 [] load_piece }
    ensures leaf_below_the_best { ¬ IsExpansion NoneNamed load_problem 17 17 3 [] load_piece }
    ensures leaf_below_both { ¬ IsExpansion NoneNamed load_problem 20 17 3 [] load_piece }
    ensures leaf_that_is_no_floor { ¬ IsExpansion NoneNamed multiply_problem 13 13 1 [] (Alone (Carries Parcels)) }
    ensures child_left_out { ¬ IsExpansion NoneNamed multiply_problem 22 22 1 [] (child_omitted Frontier) }
    ensures whole_order_to_go_on { ¬ IsExpansion NoneNamed load_problem 16 16 0 (1 ∷ 3 ∷ 2 ∷ []) (Alone Frontier) }
{}

/// Which whole order comes with a tree.
pub fn best_whole_examples()
    ensures orders_in_preorder { whole_orders [] (load_orders (Carries Whole)) ≡ (1 ∷ 2 ∷ 3 ∷ []) ∷ (1 ∷ 3 ∷ 2 ∷ []) ∷
        (3 ∷ 1 ∷ 2 ∷ []) ∷ [] }
    ensures no_order_of_other_terminals { whole_orders [] (Parted (1 ∷ 2 ∷ 3 ∷ 4 ∷ [])
        (Unsplit (Carries (Chain (1 ∷ [])))
        (Unsplit (Carries (Load Multiply)) (Unsplit (Carries Parcels) (Unsplit Frontier NoMore))))) ≡ [] }
    ensures one_of_12 { IsBestWhole load_problem [] (load_orders (Carries Whole)) (Some (1 ∷ 3 ∷ 2 ∷ [])) }
    ensures not_one_of_13 { ¬ IsBestWhole load_problem [] (load_orders (Carries Whole)) (Some (3 ∷ 1 ∷ 2 ∷ [])) }
    ensures one_at_least { ¬ IsBestWhole load_problem [] (load_orders (Carries Whole)) None }
    ensures the_only_one { IsBestWhole load_problem [] load_piece (Some (1 ∷ 3 ∷ 2 ∷ [])) }
    ensures any_of_22 { IsBestWhole multiply_problem [] (every_order (Carries Whole)) (Some (2 ∷ 3 ∷ 1 ∷ [])) }
    ensures itself { IsBestWhole multiply_problem (1 ∷ 2 ∷ 3 ∷ []) (Alone (Carries Whole)) (Some (1 ∷ 2 ∷ 3 ∷ [])) }
    ensures none_in_the_frontier { IsBestWhole multiply_problem [] (one_split Frontier) None }
    ensures none_that_is_no_leaf { ¬ IsBestWhole load_problem [] load_piece (Some (3 ∷ 1 ∷ 2 ∷ [])) }
{}
