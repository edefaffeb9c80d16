//! Fact lines with suppositions among them: what is known after those that are taken, and what they show of all orders.

ghost use Rattle.std.specs.Prelude.{ℕ, List, [], ◌∷◌, ◌≡◌, ◌≤◌, true, map, Some, None};
ghost use Rattle.s66_model.specs.{Problem, is_remaining};
ghost use Rattle.s66_moments.specs.{Moment, End, FactLine, FactStep, is_moment, Begins, IsKnown, AreSteps, IsRising, HasOwnArcs, IsTransitive, HasNoRing, tail, IsTooLate, AreFounded, facts_after};
ghost use Rattle.s66_moments.specs.{ComesNoSooner, IsClosedByLines, Known, line_of, span, known_after, arcs_of, are_taken, next_value, is_turned, is_loaded, load_of, issue_at_least, start_at_least};
ghost use Rattle.s66_moments.specs.{premises_by, premises_first, premises_after, are_steps_taken, shown_by_all};
ghost use Rattle.s66_moments.specs.declared.fact_line.FactStep.TheVariants.{Fact};

/// If each of these steps is taken, what they show is founded. The arcs of what is known after them form no ring, and lack none of an
/// instruction. Where no supposition is open, all that is known follows from what is shown, and leaves that are right by it close their
/// prefix.
pub fn supposition_law()
    ensures founded { (b : Problem) (bound : ℕ) (steps : List FactStep) → are_steps_taken b bound (premises_first b)
        steps ≡ true → AreFounded b bound [] (shown_by_all b (premises_first b) steps) }
    ensures transitive { (b : Problem) (bound : ℕ) (steps : List FactStep) → are_steps_taken b bound (premises_first b)
        steps ≡ true → IsTransitive b (premises_after (premises_first b) steps).known.before }
    ensures no_ring { (b : Problem) (bound : ℕ) (steps : List FactStep) → are_steps_taken b bound (premises_first b)
        steps ≡ true → HasNoRing b (premises_after (premises_first b) steps).known.before }
    ensures rising { (b : Problem) (bound : ℕ) (steps : List FactStep) → are_steps_taken b bound (premises_first b)
        steps ≡ true → IsRising b (arcs_of b (premises_after (premises_first b) steps).known) }
    ensures own { (b : Problem) (bound : ℕ) (steps : List FactStep) → are_steps_taken b bound (premises_first b)
        steps ≡ true → HasOwnArcs b (arcs_of b (premises_after (premises_first b) steps).known) }
    ensures tails { (b : Problem) (bound : ℕ) (steps : List FactStep) (e : Moment) → are_steps_taken b bound
        (premises_first b) steps ≡ true → is_moment b e ≡ true →
        span b (arcs_of b (premises_after (premises_first b) steps).known) e End ≡
        Some (tail b (arcs_of b (premises_after (premises_first b) steps).known) e) }
    ensures known { (b : Problem) (bound : ℕ) (steps : List FactStep) → are_steps_taken b bound (premises_first b)
        steps ≡ true → (premises_after (premises_first b) steps).supposed ≡ None → IsKnown b (facts_after [] (shown_by_all b
        (premises_first b) steps)) (premises_after (premises_first b) steps).known.before }
    ensures steps { (b : Problem) (bound : ℕ) (steps : List FactStep) → are_steps_taken b bound (premises_first b)
        steps ≡ true → (premises_after (premises_first b) steps).supposed ≡ None → AreSteps b (facts_after [] (shown_by_all b
        (premises_first b) steps)) (arcs_of b (premises_after (premises_first b) steps).known) }
    ensures next { (b : Problem) (bound : ℕ) (steps : List FactStep) (prefix : List ℕ) (n : ℕ) → are_steps_taken b bound
        (premises_first b) steps ≡ true → (premises_after (premises_first b) steps).supposed ≡ None →
        is_remaining b.block prefix n ≡ true →
        bound ≤ next_value b (premises_after (premises_first b) steps).known prefix n →
        IsTooLate b bound (Begins prefix ∷ facts_after [] (shown_by_all b (premises_first b) steps)) }
    ensures turned { (b : Problem) (bound : ℕ) (steps : List FactStep) (prefix : List ℕ) (m n : ℕ) →
        are_steps_taken b bound (premises_first b) steps ≡ true →
        (premises_after (premises_first b) steps).supposed ≡ None →
        is_turned b (premises_after (premises_first b) steps).known prefix m n ≡ true →
        IsTooLate b bound (Begins prefix ∷ facts_after [] (shown_by_all b (premises_first b) steps)) }
    ensures loaded { (b : Problem) (bound : ℕ) (steps : List FactStep) (prefix : List ℕ) (after : ℕ)
        (numbers : List ℕ) → are_steps_taken b bound (premises_first b) steps ≡ true →
        (premises_after (premises_first b) steps).supposed ≡ None →
        is_loaded b (premises_after (premises_first b) steps).known prefix bound after numbers ≡ true →
        IsClosedByLines b bound (facts_after [] (shown_by_all b (premises_first b) steps)) prefix
        (load_of b bound after numbers ∷ []) }
    ensures no_sooner { (b : Problem) (bound : ℕ) (steps : List FactStep) (prefix : List ℕ) (n : ℕ) →
        are_steps_taken b bound (premises_first b) steps ≡ true →
        (premises_after (premises_first b) steps).supposed ≡ None → is_remaining b.block prefix n ≡ true →
        ComesNoSooner b bound (facts_after [] (shown_by_all b (premises_first b) steps)) prefix n (issue_at_least b
        (premises_after (premises_first b) steps).known prefix n) (start_at_least b
        (premises_after (premises_first b) steps).known prefix n) }
{}

/// Fact lines alone are taken as without suppositions, and show the same.
pub fn plain_steps_law()
    ensures taken { (b : Problem) (bound : ℕ) (known : Known) (lines : List FactLine) → are_steps_taken b bound
        (premises_by known) (map Fact lines) ≡ are_taken b bound known lines }
    ensures known { (known : Known) (lines : List FactLine) →
        premises_after (premises_by known) (map Fact lines) ≡
        premises_by (known_after known lines) }
    ensures shown { (b : Problem) (known : Known) (lines : List FactLine) →
        shown_by_all b (premises_by known) (map Fact lines) ≡ map (line_of b) lines }
{}
