//! Laws and examples of coverage: every state of the ledger covers each legal order, shows a bound, and ends with an answer
//! (`coverage_law`).

ghost use Rattle.std.specs.Prelude.{ℕ, List, ◌≡◌, [], ◌∷◌, ◌++◌, true, false};
ghost use Rattle.s66_isa.specs.{Boolean, Multiply, tally};
ghost use Rattle.s66_model.specs.{Rule, NoneNamed, Problem, IsBound, Whole, Chain, Load, Alone, Carries, Bounding, Ledger, Event, Reply, Step, Run, opening, Open, Out, Cut, Closed, after_graft};
ghost use Rattle.s66_model.specs.{IsTable, Covers, NeverRises, bound_of, begins, covers, live_floors, IsFinished, standard_problem, one_boolean, load_problem, multiply_problem, answer, every_order};
ghost use Rattle.s66_model.specs.{node, ledger, first_node, root_split, without_grants, load_out, load_grafted};

/// A ledger that was only opened covers every legal order.
pub fn opening_law()
    ensures { (rule : Rule) (b : Problem) (budget workers : ℕ) → Covers rule b budget (opening b budget workers) }
{}

/// A step keeps every legal order covered, and the best time never rises.
pub fn step_law()
    ensures covers { (rule : Rule) (b : Problem) (budget : ℕ) (old new : Ledger) (event : Event) (reply : Reply) →
        Covers rule b budget old → Step rule b old event reply new → Covers rule b budget new }
    ensures never_rises { (rule : Rule) (b : Problem) (old new : Ledger) (event : Event) (reply : Reply) →
        Step rule b old event reply new → NeverRises b old new }
{}

/// However the steps of the workers fall, every legal order is covered after each of them, and the best time never rises.
pub fn coverage_law()
    ensures covers { (rule : Rule) (b : Problem) (budget workers : ℕ) (history : List (Event × Reply)) (new : Ledger) →
        Run rule b (opening b budget workers) history new → Covers rule b budget new }
    ensures after_each { (rule : Rule) (b : Problem) (budget workers : ℕ) (front rest : List (Event × Reply))
        (new : Ledger) → Run rule b (opening b budget workers) (front ++ rest) new →
        (mid : Ledger) × Run rule b (opening b budget workers) front mid × Covers rule b budget mid ×
        NeverRises b mid new }
    ensures never_rises { (rule : Rule) (b : Problem) (history : List (Event × Reply)) (old new : Ledger) →
        Run rule b old history new → NeverRises b old new }
{}

/// If the nodes are those of one tree, the least of the best time and of the floors of the open nodes and of those handed out is
/// a bound. Closed leaves take at least the best time, and dominated nodes are passed over.
pub fn ledger_bound_law()
    ensures { (rule : Rule) (b : Problem) (budget : ℕ) (l : Ledger) → Covers rule b budget l → IsTable b l →
        IsBound b (bound_of b l) }
{}

/// What covers every legal order, which bound a ledger shows, and how it ends.
pub fn coverage_examples()
    ensures bound_of_the_events { bound_of multiply_problem (root_split Open Out Open) ≡ 17 }
    ensures bound_while_all_are_out { bound_of multiply_problem (first_node Out) ≡ 17 }
    ensures bound_while_one_is_open { bound_of multiply_problem (first_node Open) ≡ 17 }
    ensures bound_of_every_order { bound_of multiply_problem (after_graft multiply_problem
        (first_node Out) 1 0 [] (every_order (Carries Whole))) ≡ 22 }
    ensures live_nodes { live_floors load_problem (load_grafted (1 ∷ 2 ∷ 3 ∷ []) Open).nodes ≡ 12 ∷ 13 ∷ [] }
    ensures covered_once { tally (covers (2 ∷ 1 ∷ 3 ∷ [])) (root_split Open Out Open).nodes ≡ 1 }
    ensures covered_by_a_closed_node { tally (covers (1 ∷ 2 ∷ 3 ∷ [])) (load_grafted (1 ∷ 2 ∷ 3 ∷ []) Open).nodes ≡ 1 }
    ensures covered_by_a_whole_order { tally (covers (1 ∷ 3 ∷ 2 ∷ [])) (load_grafted (1 ∷ 2 ∷ 3 ∷ []) Open).nodes ≡ 1 }
    ensures begins_with_two { begins (1 ∷ 3 ∷ []) (1 ∷ 3 ∷ 2 ∷ []) ≡ true }
    ensures begins_otherwise { begins (1 ∷ 3 ∷ []) (1 ∷ 2 ∷ 3 ∷ []) ≡ false }
    ensures begins_and_ends { begins (1 ∷ 3 ∷ []) (1 ∷ []) ≡ false }
    ensures opening_covers { Covers NoneNamed multiply_problem 10 (opening multiply_problem 10 2) }
    ensures child_not_covered { ¬ Covers NoneNamed multiply_problem 10
        (ledger (node [] Cut ∷ node (1 ∷ []) Open ∷ node (2 ∷ []) Open ∷ []) (1 ∷ 2 ∷ 3 ∷ []) 9 (0 ∷ []) 1) }
    ensures covered_twice { ¬ Covers NoneNamed multiply_problem 10
        (without_grants (node [] Open ∷ node (1 ∷ []) Open ∷ []) (1 ∷ 2 ∷ 3 ∷ [])) }
    ensures closed_below_the_best { ¬ Covers NoneNamed multiply_problem 10
        (without_grants (node [] (Closed (Bounding (Load Multiply))) ∷ []) (1 ∷ 2 ∷ 3 ∷ [])) }
    ensures closed_by_another_leaf { ¬ Covers NoneNamed (standard_problem one_boolean) 10
        (without_grants (node [] (Closed (Bounding (Load Boolean))) ∷ []) (1 ∷ [])) }
    ensures node_that_no_order_has { ¬ Covers NoneNamed load_problem 10
        (without_grants (node [] Open ∷ node (2 ∷ []) Open ∷ []) (1 ∷ 2 ∷ 3 ∷ [])) }
    ensures best_not_legal { ¬ Covers NoneNamed load_problem 10 (without_grants (node [] Open ∷ []) (2 ∷ 1 ∷ 3 ∷ [])) }
    ensures spent_without_a_split { ¬ Covers NoneNamed multiply_problem 10
        (ledger (node [] Open ∷ []) (1 ∷ 2 ∷ 3 ∷ []) 9 (0 ∷ []) 1) }
    ensures budget_lost { ¬ Covers NoneNamed multiply_problem 11 (without_grants (node [] Open ∷ []) (1 ∷ 2 ∷ 3 ∷ [])) }
    ensures fell { NeverRises load_problem (load_out (1 ∷ 2 ∷ 3 ∷ [])) (load_out (1 ∷ 3 ∷ 2 ∷ [])) }
    ensures rose { ¬ NeverRises load_problem (load_out (1 ∷ 3 ∷ 2 ∷ [])) (load_out (1 ∷ 2 ∷ 3 ∷ [])) }
    ensures finished { IsFinished NoneNamed multiply_problem 10 (root_split Open Out Open)
        (answer (1 ∷ 2 ∷ 3 ∷ []) 22 22 10 (every_order Whole)) }
    ensures finished_over_the_budget { ¬ IsFinished NoneNamed multiply_problem 9 (root_split Open Out Open)
        (answer (1 ∷ 2 ∷ 3 ∷ []) 22 22 10 (every_order Whole)) }
    ensures finished_above_the_best { ¬ IsFinished NoneNamed load_problem 0
        (without_grants (node [] Open ∷ []) (1 ∷ 3 ∷ 2 ∷ []))
        (answer (3 ∷ 1 ∷ 2 ∷ []) 13 12 0 (Alone (Chain (1 ∷ 2 ∷ [])))) }
    ensures finished_without_a_split { ¬ IsFinished NoneNamed load_problem 10
        (load_grafted (1 ∷ 3 ∷ 2 ∷ []) (Closed (Bounding Whole)))
        (answer (1 ∷ 3 ∷ 2 ∷ []) 12 12 0 (Alone (Chain (1 ∷ 2 ∷ [])))) }
{}
