//! Laws and examples of histories of the ledger: their fronts, the states to which they lead, and what their entries record and spend.

ghost use Rattle.std.specs.Prelude.{ℕ, List, ◌≡◌, ◌≤◌, [], ◌∷◌, ◌++◌, true, false, Some, None};
ghost use Rattle.s66_isa.specs.{weigh, rising};
ghost use Rattle.s66_model.specs.{Rule, NoneNamed, WrittenEarlier, Problem, Tree, splits, Terminal, Frontier, source_time, Ledger, Event, Reply, Step, Run, opening, best_time, Graft, Offer, Taken};
ghost use Rattle.s66_model.specs.{NotOut, OtherPrefix, OverAllowance, Covers, IsTable, IsReached, Grafts, brief, IsGraftOf, IsOfferOf, spends, spent_by, load_problem, multiply_problem, one_split};
ghost use Rattle.s66_model.specs.{ledger_events};

/// The front of a history is one, histories that follow each other are one, and a history leads to one state. What the workers'
/// entries spend adds up to what was spent.
pub fn history_law()
    ensures front { (rule : Rule) (b : Problem) (front rest : List (Event × Reply)) (old new : Ledger) →
        Run rule b old (front ++ rest) new → (mid : Ledger) × Run rule b old front mid × Run rule b mid rest new }
    ensures joined { (rule : Rule) (b : Problem) (front rest : List (Event × Reply)) (old mid new : Ledger) →
        Run rule b old front mid → Run rule b mid rest new → Run rule b old (front ++ rest) new }
    ensures one_state { (rule : Rule) (b : Problem) (history : List (Event × Reply)) (old new other : Ledger) →
        Run rule b old history new → Run rule b old history other → new ≡ other }
    ensures spent { (rule : Rule) (b : Problem) (budget workers : ℕ) (history : List (Event × Reply)) (l : Ledger) →
        Run rule b (opening b budget workers) history l → weigh (λ w. spent_by w history) (rising workers 1) ≡ l.spent }
{}

/// A ledger that was only opened is reached, and so is what a step makes of one that is. Whatever is reached covers every
/// legal order, has the nodes of one tree, and is no slower than the source order.
pub fn reached_law()
    ensures opening { (rule : Rule) (b : Problem) (budget workers : ℕ) →
        IsReached rule b budget workers (opening b budget workers) }
    ensures step { (rule : Rule) (b : Problem) (budget workers : ℕ) (old new : Ledger) (event : Event) (reply : Reply) →
        IsReached rule b budget workers old → Step rule b old event reply new → IsReached rule b budget workers new }
    ensures covers { (rule : Rule) (b : Problem) (budget workers : ℕ) (l : Ledger) → IsReached rule b budget workers l →
        Covers rule b budget l }
    ensures table { (rule : Rule) (b : Problem) (budget workers : ℕ) (l : Ledger) → IsReached rule b budget workers l →
        IsTable b l }
    ensures source { (rule : Rule) (b : Problem) (budget workers : ℕ) (l : Ledger) → IsReached rule b budget workers l →
        best_time b l ≤ source_time b }
{}

/// The event of a graft has its node and its piece's splits, also if it is refused, and spends these splits if it is taken; an
/// offer has one event.
pub fn recorded_law()
    ensures graft { (rule : Rule) (b : Problem) (w node : ℕ) (r : Rule) (p : Problem) (prefix : List ℕ)
        (tree : Tree Terminal) (reply : Reply) (event : Event) → IsGraftOf rule b w node r p prefix tree reply event →
        brief event ≡ Grafts node (splits tree) }
    ensures spends { (rule : Rule) (b : Problem) (w node : ℕ) (r : Rule) (p : Problem) (prefix : List ℕ)
        (tree : Tree Terminal) (event : Event) → IsGraftOf rule b w node r p prefix tree Taken event →
        spends event Taken ≡ splits tree }
    ensures offer { (b : Problem) (w : ℕ) (p : Problem) (order : List ℕ) (event other : Event) →
        IsOfferOf b w p order event → IsOfferOf b w p order other → event ≡ other }
{}

/// What is recorded of pieces and orders, and what it spends.
pub fn recorded_examples()
    ensures taken { IsGraftOf NoneNamed multiply_problem 1 0 NoneNamed multiply_problem [] (one_split Frontier) Taken
        (Graft 1 0 true [] 1 (Some (one_split Frontier))) }
    ensures refused { IsGraftOf NoneNamed multiply_problem 1 0 NoneNamed multiply_problem [] (one_split Frontier) NotOut
        (Graft 1 0 true [] 1 None) }
    ensures refused_at_another_prefix { IsGraftOf NoneNamed multiply_problem 1 0 NoneNamed multiply_problem (2 ∷ [])
        (one_split Frontier) OtherPrefix (Graft 1 0 true (2 ∷ []) 1 None) }
    ensures refused_for_another_block { IsGraftOf NoneNamed multiply_problem 1 0 NoneNamed
        load_problem [] (one_split Frontier) OtherPrefix (Graft 1 0 false [] 1 None) }
    ensures refused_without_its_splits { ¬ IsGraftOf NoneNamed multiply_problem 1 0 NoneNamed
        multiply_problem [] (one_split Frontier) OverAllowance (Graft 1 0 true [] 0 None) }
    ensures refused_with_another_prefix { ¬ IsGraftOf NoneNamed multiply_problem 1 0 NoneNamed
        multiply_problem [] (one_split Frontier) OtherPrefix (Graft 1 0 true (2 ∷ []) 1 None) }
    ensures refused_for_another_rule { IsGraftOf WrittenEarlier multiply_problem 1 0 NoneNamed
        multiply_problem [] (one_split Frontier) OtherPrefix (Graft 1 0 false [] 1 None) }
    ensures refused_as_of_this_rule { ¬ IsGraftOf WrittenEarlier multiply_problem 1 0 NoneNamed
        multiply_problem [] (one_split Frontier) OtherPrefix (Graft 1 0 true [] 1 None) }
    ensures refused_as_of_another_block { ¬ IsGraftOf NoneNamed multiply_problem 1 0 NoneNamed
        multiply_problem [] (one_split Frontier) OtherPrefix (Graft 1 0 false [] 1 None) }
    ensures refused_as_of_this_block { ¬ IsGraftOf NoneNamed multiply_problem 1 0 NoneNamed
        load_problem [] (one_split Frontier) OtherPrefix (Graft 1 0 true [] 1 None) }
    ensures refused_with_its_tree { ¬ IsGraftOf NoneNamed multiply_problem 1 0 NoneNamed
        multiply_problem [] (one_split Frontier) NotOut (Graft 1 0 true [] 1 (Some (one_split Frontier))) }
    ensures taken_without_its_tree { ¬ IsGraftOf NoneNamed multiply_problem 1 0 NoneNamed
        multiply_problem [] (one_split Frontier) Taken (Graft 1 0 true [] 1 None) }
    ensures graft_of_another_worker { ¬ IsGraftOf NoneNamed multiply_problem 1 0 NoneNamed
        multiply_problem [] (one_split Frontier) NotOut (Graft 2 0 true [] 1 None) }
    ensures offered { IsOfferOf load_problem 1 load_problem (1 ∷ 3 ∷ 2 ∷ []) (Offer 1 true (1 ∷ 3 ∷ 2 ∷ []) 12) }
    ensures offered_of_another_block { IsOfferOf load_problem 1 multiply_problem (2 ∷ 1 ∷ 3 ∷ [])
        (Offer 1 false (2 ∷ 1 ∷ 3 ∷ []) 22) }
    ensures offered_with_another_time { ¬ IsOfferOf load_problem 1 load_problem (1 ∷ 3 ∷ 2 ∷ [])
        (Offer 1 true (1 ∷ 3 ∷ 2 ∷ []) 11) }
    ensures offered_as_of_another_block { ¬ IsOfferOf load_problem 1 load_problem (1 ∷ 3 ∷ 2 ∷ [])
        (Offer 1 false (1 ∷ 3 ∷ 2 ∷ []) 12) }
    ensures offered_as_of_this_block { ¬ IsOfferOf load_problem 1 multiply_problem (2 ∷ 1 ∷ 3 ∷ [])
        (Offer 1 true (2 ∷ 1 ∷ 3 ∷ []) 22) }
    ensures spent_by_1 { spent_by 1 ledger_events ≡ 1 }
    ensures spent_by_2 { spent_by 2 ledger_events ≡ 0 }
{}
