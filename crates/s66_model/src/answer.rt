//! Laws and examples of answers to a problem: an order, its time, a bound, and a tree that shows the bound (`answer_law`).

ghost use Rattle.std.specs.Prelude.{ℕ, ◌≡◌, [], ◌∷◌};
ghost use Rattle.s66_isa.specs.{Boolean, Multiply};
ghost use Rattle.s66_model.specs.{Rule, NoneNamed, Problem, IsBound, IsBest, Whole, Chain, Load, Parcels, Alone, ShowsBy, IsAnswer, IsBestAnswer, source_time, standard_problem, zero_register};
ghost use Rattle.s66_model.specs.{boolean_problem, load_problem, multiply_problem, answer, every_order, all_but_one, one_omitted, load_tree, load_orders};
ghost use Rattle.s66_model.specs.Answer.{Answer};

/// The tree of an answer shows its bound, so the bound is one. If it is the time, none is faster.
pub fn answer_law()
    ensures shown { (rule : Rule) (b : Problem) (budget : ℕ) (a : Answer) → IsAnswer rule b budget a →
        ShowsBy rule b a.bound [] a.tree }
    ensures bound { (rule : Rule) (b : Problem) (budget : ℕ) (a : Answer) → IsAnswer rule b budget a →
        IsBound b a.bound }
    ensures best { (rule : Rule) (b : Problem) (budget : ℕ) (a : Answer) → IsAnswer rule b budget a → IsBestAnswer a →
        IsBest b a.time }
{}

/// What answers a problem has, and which of them are best.
pub fn answer_examples()
    ensures one_load { IsAnswer NoneNamed load_problem 100000
        (answer (1 ∷ 3 ∷ 2 ∷ []) 12 12 0 (Alone (Chain (1 ∷ 2 ∷ [])))) }
    ensures one_load_cut { IsAnswer NoneNamed load_problem 0
        (answer (1 ∷ 2 ∷ 3 ∷ []) 16 12 0 (Alone (Chain (1 ∷ 2 ∷ [])))) }
    ensures one_load_split { IsAnswer NoneNamed load_problem 100000 (answer (1 ∷ 3 ∷ 2 ∷ []) 12 12 3 load_tree) }
    ensures one_load_split_down { IsAnswer NoneNamed load_problem 6
        (answer (1 ∷ 3 ∷ 2 ∷ []) 12 12 6 (load_orders Whole)) }
    ensures two_booleans { IsAnswer NoneNamed boolean_problem 0 (answer (1 ∷ 2 ∷ []) 8 8 0 (Alone (Load Boolean))) }
    ensures three_multiplies { IsAnswer NoneNamed multiply_problem 10
        (answer (1 ∷ 2 ∷ 3 ∷ []) 22 22 10 (every_order Whole)) }
    ensures three_multiplies_cut { IsAnswer NoneNamed multiply_problem 9 (answer (1 ∷ 2 ∷ 3 ∷ []) 22 17 9 all_but_one) }
    ensures three_multiplies_no_splits { IsAnswer NoneNamed multiply_problem 0
        (answer (1 ∷ 2 ∷ 3 ∷ []) 22 17 0 (Alone (Load Multiply))) }
    ensures no_legal_order { ¬ IsAnswer NoneNamed load_problem 100000
        (answer (2 ∷ 1 ∷ 3 ∷ []) 9 9 0 (Alone (Chain (1 ∷ 2 ∷ [])))) }
    ensures another_time { ¬ IsAnswer NoneNamed load_problem 100000
        (answer (1 ∷ 3 ∷ 2 ∷ []) 11 11 0 (Alone (Chain (1 ∷ 2 ∷ [])))) }
    ensures slower_than_the_source { ¬ IsAnswer NoneNamed (standard_problem zero_register) 0
        (answer (3 ∷ 2 ∷ 1 ∷ []) 8 6 0 (Alone Parcels)) }
    ensures slower_than_a_whole_order { ¬ IsAnswer NoneNamed load_problem 3
        (answer (3 ∷ 1 ∷ 2 ∷ []) 13 12 3 load_tree) }
    ensures leaf_below_the_floor { ¬ IsAnswer NoneNamed multiply_problem 0
        (answer (1 ∷ 2 ∷ 3 ∷ []) 22 13 0 (Alone Parcels)) }
    ensures child_omitted_in_the_tree { ¬ IsAnswer NoneNamed multiply_problem 9
        (answer (1 ∷ 2 ∷ 3 ∷ []) 22 22 9 one_omitted) }
    ensures best_above_a_floor { ¬ IsAnswer NoneNamed multiply_problem 9 (answer (1 ∷ 2 ∷ 3 ∷ []) 22 22 9 all_but_one) }
    ensures bound_of_0 { ¬ IsAnswer NoneNamed multiply_problem 9 (answer (1 ∷ 2 ∷ 3 ∷ []) 22 0 9 all_but_one) }
    ensures another_number_of_splits { ¬ IsAnswer NoneNamed multiply_problem 10
        (answer (1 ∷ 2 ∷ 3 ∷ []) 22 22 9 (every_order Whole)) }
    ensures over_the_budget { ¬ IsAnswer NoneNamed multiply_problem 9
        (answer (1 ∷ 2 ∷ 3 ∷ []) 22 22 10 (every_order Whole)) }
    ensures one_split_unspent { ¬ IsAnswer NoneNamed multiply_problem 10 (answer (1 ∷ 2 ∷ 3 ∷ []) 22 17 9 all_but_one) }
    ensures nothing_spent { ¬ IsAnswer NoneNamed multiply_problem 1
        (answer (1 ∷ 2 ∷ 3 ∷ []) 22 17 0 (Alone (Load Multiply))) }
    ensures another_order_of_the_same_time { ¬ IsAnswer NoneNamed multiply_problem 10
        (answer (2 ∷ 1 ∷ 3 ∷ []) 22 22 10 (every_order Whole)) }
    ensures best_answer { IsBestAnswer (answer (1 ∷ 2 ∷ 3 ∷ []) 22 22 10 (every_order Whole)) }
    ensures bounded_answer { ¬ IsBestAnswer (answer (1 ∷ 2 ∷ 3 ∷ []) 22 17 9 all_but_one) }
    ensures source_time_of_one_load { source_time load_problem ≡ 16 }
{}
