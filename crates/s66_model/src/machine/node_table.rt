//! Laws and examples of the nodes of the ledger as those of one tree.

ghost use Rattle.std.specs.Prelude.{ℕ, List, [], ◌∷◌};
ghost use Rattle.s66_model.specs.{Rule, NoneNamed, Problem, Ledger, Event, Reply, Run, opening, Open, Out, Cut, Covers, IsFinished, IsTable, standard_problem, one_boolean, zero_register, load_problem};
ghost use Rattle.s66_model.specs.{multiply_problem, node, without_grants, loose_split};
ghost use Rattle.s66_model.specs.Answer.{Answer};

/// However the steps of the workers fall, the nodes are those of one tree, and the best order is the source order or faster.
pub fn node_table_law()
    ensures { (rule : Rule) (b : Problem) (budget workers : ℕ) (history : List (Event × Reply)) (new : Ledger) →
        Run rule b (opening b budget workers) history new → IsTable b new }
{}

/// A ledger that covers every legal order and that no answer ends, since its nodes aren't those of one tree.
pub fn loose_split_law()
    ensures covers { Covers NoneNamed load_problem 1 loose_split }
    ensures never_finished { (a : Answer) → ¬ IsFinished NoneNamed load_problem 1 loose_split a }
    ensures no_table { ¬ IsTable load_problem loose_split }
{}

/// What nodes aren't those of one tree, and which best orders no history leads to.
pub fn node_table_examples()
    ensures no_root { ¬ IsTable multiply_problem (without_grants [] (1 ∷ 2 ∷ 3 ∷ [])) }
    ensures two_roots { ¬ IsTable multiply_problem (without_grants (node [] Open ∷ node [] Open ∷ [])
        (1 ∷ 2 ∷ 3 ∷ [])) }
    ensures child_missing { ¬ IsTable load_problem (without_grants (node [] Cut ∷ node (1 ∷ []) Open ∷ [])
        (1 ∷ 2 ∷ 3 ∷ [])) }
    ensures child_twice { ¬ IsTable load_problem (without_grants
        (node [] Cut ∷ node (1 ∷ []) Open ∷ node (3 ∷ []) Open ∷ node (3 ∷ []) Out ∷ []) (1 ∷ 2 ∷ 3 ∷ [])) }
    ensures child_of_no_split { ¬ IsTable load_problem (without_grants
        (node [] Open ∷ node (1 ∷ []) Open ∷ node (3 ∷ []) Open ∷ []) (1 ∷ 2 ∷ 3 ∷ [])) }
    ensures child_that_is_not_ready { ¬ IsTable load_problem (without_grants
        (node [] Cut ∷ node (1 ∷ []) Open ∷ node (2 ∷ []) Open ∷ node (3 ∷ []) Open ∷ []) (1 ∷ 2 ∷ 3 ∷ [])) }
    ensures split_of_a_whole_order { ¬ IsTable (standard_problem one_boolean)
        (without_grants (node [] Cut ∷ node (1 ∷ []) Cut ∷ []) (1 ∷ [])) }
    ensures slower_best { ¬ IsTable (standard_problem zero_register)
        (without_grants (node [] Open ∷ []) (3 ∷ 2 ∷ 1 ∷ [])) }
    ensures other_best_of_the_same_time { ¬ IsTable multiply_problem (without_grants (node [] Open ∷ [])
        (2 ∷ 1 ∷ 3 ∷ [])) }
{}
