//! Laws and examples of dominance: what a beginning that is no later than another of the same numbers is worth (`dominance_law`).

ghost use Rattle.std.specs.Prelude.{ℕ, List, ◌≡◌, ◌≤◌, true, [], ◌∷◌, ◌++◌};
ghost use Rattle.s66_isa.specs.{instr};
ghost use Rattle.s66_model.specs.{Problem, total_of, is_ready, Dominates, DominatesClamped, IsNoWorse, standard_problem, packing_gap, two_gaps, booleans_and_sets, late_reader, late_result, later_gap};

/// A beginning that dominates another still does after both go on with the same number. So whatever completes the other completes
/// it too, with no greater total. All this also holds clamped at the next slot, which requires less: that its own total is no
/// greater follows. What dominates a dominating beginning dominates what this one does.
pub fn dominance_law()
    ensures pushed { (b : Problem) (other prefix : List ℕ) (n : ℕ) → Dominates b other prefix →
        is_ready b.block prefix n ≡ true → Dominates b (other ++ n ∷ []) (prefix ++ n ∷ []) }
    ensures pushed_clamped { (b : Problem) (other prefix : List ℕ) (n : ℕ) → DominatesClamped b other prefix →
        is_ready b.block prefix n ≡ true → DominatesClamped b (other ++ n ∷ []) (prefix ++ n ∷ []) }
    ensures no_worse { (b : Problem) (other prefix : List ℕ) → Dominates b other prefix → IsNoWorse b other prefix }
    ensures no_worse_clamped { (b : Problem) (other prefix : List ℕ) → DominatesClamped b other prefix →
        IsNoWorse b other prefix }
    ensures total { (b : Problem) (other prefix : List ℕ) → DominatesClamped b other prefix →
        total_of b other ≤ total_of b prefix }
    ensures weaker { (b : Problem) (other prefix : List ℕ) → Dominates b other prefix →
        DominatesClamped b other prefix }
    ensures transitive { (b : Problem) (third other prefix : List ℕ) → DominatesClamped b third other →
        DominatesClamped b other prefix → DominatesClamped b third prefix }
{}

/// Which beginnings dominate which.
pub fn dominance_examples()
    ensures waits_in_either_order { Dominates (standard_problem late_reader) (1 ∷ 2 ∷ 3 ∷ []) (1 ∷ 3 ∷ 2 ∷ []) }
    ensures waits_clamped { DominatesClamped (standard_problem late_reader) (1 ∷ 2 ∷ 3 ∷ []) (1 ∷ 3 ∷ 2 ∷ []) }
    ensures waits_the_other_way { ¬ DominatesClamped (standard_problem late_reader) (1 ∷ 3 ∷ 2 ∷ []) (1 ∷ 2 ∷ 3 ∷ []) }
    ensures result_later { ¬ Dominates (standard_problem late_reader) (1 ∷ 2 ∷ 4 ∷ []) (1 ∷ 4 ∷ 2 ∷ []) }
    ensures result_later_clamped { ¬ DominatesClamped (standard_problem late_reader) (1 ∷ 2 ∷ 4 ∷ []) (1 ∷ 4 ∷ 2 ∷ []) }
    ensures another_set { ¬ DominatesClamped (standard_problem late_reader) (1 ∷ 2 ∷ 3 ∷ []) (1 ∷ 2 ∷ 4 ∷ []) }
    ensures itself { Dominates (standard_problem late_reader) (1 ∷ 2 ∷ []) (1 ∷ 2 ∷ []) }
    ensures free_by_the_slot { DominatesClamped (standard_problem packing_gap) (1 ∷ 3 ∷ 2 ∷ 4 ∷ [])
        (1 ∷ 2 ∷ 3 ∷ 4 ∷ []) }
    ensures free_later_as_written { ¬ Dominates (standard_problem packing_gap) (1 ∷ 3 ∷ 2 ∷ 4 ∷ [])
        (1 ∷ 2 ∷ 3 ∷ 4 ∷ []) }
    ensures done_by_the_slot { DominatesClamped (standard_problem booleans_and_sets) (2 ∷ 1 ∷ 3 ∷ []) (1 ∷ 2 ∷ 3 ∷ []) }
    ensures done_later_as_written { ¬ Dominates (standard_problem booleans_and_sets) (2 ∷ 1 ∷ 3 ∷ []) (1 ∷ 2 ∷ 3 ∷ []) }
    ensures done_after_the_slot { ¬ DominatesClamped (standard_problem late_result) (2 ∷ 1 ∷ []) (1 ∷ 2 ∷ []) }
    ensures total_after_it { total_of (standard_problem late_result) (2 ∷ 1 ∷ 3 ∷ []) ≡ 8 }
    ensures total_of_the_other { total_of (standard_problem late_result) (1 ∷ 2 ∷ 3 ∷ []) ≡ 7 }
    // SA1 X1+B1, SA3 B1+5, BX1 X2: the next slots are 9 and 11
    ensures sooner_slot { Dominates (standard_problem (instr 0o53 1 1 1 ∷ instr 0o51 3 1 0 ∷ instr 0o10 1 2 0 ∷ []))
        (1 ∷ 2 ∷ 3 ∷ []) (1 ∷ 3 ∷ 2 ∷ []) }
    // SX1 B2, SA7 A7+B1, SX3 A1+5: the store starts at 1 and at 0, and the next slot is 6
    ensures store_by_the_slot { DominatesClamped (standard_problem
        (instr 0o76 1 2 0 ∷ instr 0o54 7 7 1 ∷ instr 0o70 3 1 0 ∷ [])) (1 ∷ 2 ∷ 3 ∷ []) (2 ∷ 1 ∷ 3 ∷ []) }
    // BX1 X3, BX2 X3, SB0 X2+B0, SB0 X1+B1: X2 is read at the next slot itself, 7
    ensures read_at_the_slot { DominatesClamped (standard_problem
        (instr 0o10 1 3 0 ∷ instr 0o10 2 3 0 ∷ instr 0o63 0 2 0 ∷ instr 0o63 0 1 1 ∷ [])) (1 ∷ 2 ∷ 3 ∷ 4 ∷ [])
        (2 ∷ 1 ∷ 4 ∷ 3 ∷ []) }
    ensures half_a_word_apart { ¬ DominatesClamped (standard_problem two_gaps) (1 ∷ 2 ∷ 4 ∷ 3 ∷ 5 ∷ 6 ∷ [])
        (1 ∷ 2 ∷ 3 ∷ 4 ∷ 5 ∷ 6 ∷ []) }
    ensures a_parcel_apart { ¬ DominatesClamped (standard_problem later_gap) (1 ∷ 3 ∷ 2 ∷ 4 ∷ []) (1 ∷ 2 ∷ 3 ∷ 4 ∷ []) }
    ensures total_with_a_gap { total_of (standard_problem later_gap) (1 ∷ 3 ∷ 2 ∷ 4 ∷ 5 ∷ []) ≡ 13 }
    ensures total_without_one { total_of (standard_problem later_gap) (1 ∷ 2 ∷ 3 ∷ 4 ∷ 5 ∷ []) ≡ 12 }
{}
