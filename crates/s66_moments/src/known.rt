//! Fact lines as a certificate has them: what is known after those that are taken, and the longest paths by it.
//! Laws for a checker: a tree whose leaves are right by what is known shows its bound.

ghost use Rattle.std.specs.Prelude.{ℕ, List, [], ◌∷◌, ◌≡◌, ◌≤◌, true, map, Some};
ghost use Rattle.s66_model.specs.{Problem, is_remaining};
ghost use Rattle.s66_moments.specs.{Moment, End, FactLine, is_moment, only_if, Begins, Hop, waits, Network, IsKnown, AreSteps, IsRising, HasOwnArcs, IsTransitive, HasNoRing, targets, IsNetworkPath};
ghost use Rattle.s66_moments.specs.{same_moment, tail, IsTooLate, AreFounded, facts_after, ComesNoSooner, IsClosedByLines, line_of, later, latest, plus, span, known_first, known_after, arcs_of};
ghost use Rattle.s66_moments.specs.{are_taken, next_value, is_turned, is_loaded, load_of, issue_at_least, start_at_least};

/// A span is how long some path takes, and if no arcs form a ring none takes longer. So it is the latest of the arcs from its first
/// moment, each with the span from where it leads, and of the arcs to its last one, each with the span to where it comes from.
pub fn span_law()
    ensures path { (b : Problem) (arcs : Network) (e f : Moment) (w : ℕ) → span b arcs e f ≡ Some w →
        (hops : List Hop) × IsNetworkPath arcs e hops f × (waits hops ≡ w) }
    ensures longest { (b : Problem) (arcs : Network) (e f : Moment) (hops : List Hop) →
        IsRising b arcs → IsNetworkPath arcs e hops f → (w : ℕ) × (span b arcs e f ≡ Some w) × (waits hops ≤ w) }
    ensures from_the_front { (b : Problem) (arcs : Network) (e f : Moment) → IsRising b arcs → span b arcs e f ≡
        later (only_if (same_moment e f) 0) (latest (λ m. plus (arcs e m) (span b arcs m f)) (targets b)) }
    ensures from_the_back { (b : Problem) (arcs : Network) (e f : Moment) → IsRising b arcs → span b arcs e f ≡
        later (only_if (same_moment e f) 0) (latest (λ m. plus (span b arcs e m) (arcs m f)) (e ∷ targets b)) }
{}

/// If each of these lines is taken, they are founded: so their facts follow, and all that is known after them does. The arcs of that
/// form no ring, and lack none of an instruction; a leaf that is right by them closes its prefix, and no number that remains comes
/// sooner than they say.
pub fn fact_lines_law()
    ensures founded { (b : Problem) (bound : ℕ) (lines : List FactLine) →
        are_taken b bound (known_first b) lines ≡ true → AreFounded b bound [] (map (line_of b) lines) }
    ensures known { (b : Problem) (bound : ℕ) (lines : List FactLine) → are_taken b bound (known_first b) lines ≡ true →
        IsKnown b (facts_after [] (map (line_of b) lines)) (known_after (known_first b) lines).before }
    ensures transitive { (b : Problem) (bound : ℕ) (lines : List FactLine) →
        are_taken b bound (known_first b) lines ≡ true → IsTransitive b (known_after (known_first b) lines).before }
    ensures no_ring { (b : Problem) (bound : ℕ) (lines : List FactLine) →
        are_taken b bound (known_first b) lines ≡ true → HasNoRing b (known_after (known_first b) lines).before }
    ensures steps { (b : Problem) (bound : ℕ) (lines : List FactLine) → are_taken b bound (known_first b) lines ≡ true →
        AreSteps b (facts_after [] (map (line_of b) lines)) (arcs_of b (known_after (known_first b) lines)) }
    ensures rising { (b : Problem) (bound : ℕ) (lines : List FactLine) →
        are_taken b bound (known_first b) lines ≡ true → IsRising b (arcs_of b (known_after (known_first b) lines)) }
    ensures own { (b : Problem) (bound : ℕ) (lines : List FactLine) → are_taken b bound (known_first b) lines ≡ true →
        HasOwnArcs b (arcs_of b (known_after (known_first b) lines)) }
    ensures tails { (b : Problem) (bound : ℕ) (lines : List FactLine) (e : Moment) →
        are_taken b bound (known_first b) lines ≡ true →
        is_moment b e ≡ true → span b (arcs_of b (known_after (known_first b) lines)) e End ≡
        Some (tail b (arcs_of b (known_after (known_first b) lines)) e) }
    ensures next { (b : Problem) (bound : ℕ) (lines : List FactLine) (prefix : List ℕ) (n : ℕ) →
        are_taken b bound (known_first b) lines ≡ true → is_remaining b.block prefix n ≡ true →
        bound ≤ next_value b (known_after (known_first b) lines) prefix n →
        IsTooLate b bound (Begins prefix ∷ facts_after [] (map (line_of b) lines)) }
    ensures turned { (b : Problem) (bound : ℕ) (lines : List FactLine) (prefix : List ℕ) (m n : ℕ) →
        are_taken b bound (known_first b) lines ≡ true → is_turned b (known_after (known_first b) lines) prefix m n ≡
        true → IsTooLate b bound (Begins prefix ∷ facts_after [] (map (line_of b) lines)) }
    ensures loaded { (b : Problem) (bound : ℕ) (lines : List FactLine)
        (prefix : List ℕ) (after : ℕ) (numbers : List ℕ) → are_taken b bound (known_first b) lines ≡ true →
        is_loaded b (known_after (known_first b) lines) prefix bound after numbers ≡ true →
        IsClosedByLines b bound (facts_after [] (map (line_of b) lines)) prefix (load_of b bound after numbers ∷ []) }
    ensures no_sooner { (b : Problem) (bound : ℕ) (lines : List FactLine) (prefix : List ℕ) (n : ℕ) →
        are_taken b bound (known_first b) lines ≡ true → is_remaining b.block prefix n ≡ true →
        ComesNoSooner b bound (facts_after [] (map (line_of b) lines)) prefix n (issue_at_least b
        (known_after (known_first b) lines) prefix n) (start_at_least b (known_after (known_first b) lines) prefix n) }
{}
