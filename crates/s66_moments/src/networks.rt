//! Networks of arcs, what follows each moment in them, and the greatest path of what remains after a prefix.
//! Floors by longest paths rest on them.

ghost use Rattle.std.specs.Prelude.{ℕ, List, Bool, ◌∷◌, ◌++◌, ◌+◌, ◌≡◌, ◌≢◌, ◌≤◌, ◌<◌, ◌⊎◌, true, false, length, max, Some, unwrap_or};
ghost use Rattle.s66_isa.specs.{Instr, Among};
ghost use Rattle.s66_model.specs.{Problem, total_of, depends, IsLegal, is_remaining};
ghost use Rattle.s66_moments.specs.{Stage, Moment, Origin, At, End, soonest, Fact, Arc, Before, Begins, Follows, IsNumber, Hop, waits, Network, network, precedes, IsKnown, AreArcs, IsRising, IsPlaced};
ghost use Rattle.s66_moments.specs.{HasOwnArcs, targets, tail, IsRemaining, IsNetworkPath, greatest_path, RisesBy, with_arc, with_pair, most_arcs, rank_by, AreSteps, IsTransitive, HasNoRing, place_by};

/// What a number precedes by dependence: what depends on it, and what depends on what it precedes. This is so whatever is known,
/// transitive, and without a ring.
pub fn precedes_law()
    ensures near { (block : List Instr) (m n : ℕ) → depends block m n ≡ true → precedes block m n ≡ true }
    ensures far { (block : List Instr) (m k n : ℕ) →
        n ≤ length block → precedes block m k ≡ true → depends block k n ≡ true → precedes block m n ≡ true }
    ensures cases { (block : List Instr) (m n : ℕ) → 1 ≤ n → n ≤ length block → precedes block m n ≡ true →
        (depends block m n ≡ true)
        ⊎ ((k : ℕ) × (1 ≤ k) × (k < n) × (precedes block m k ≡ true) × (depends block k n ≡ true)) }
    ensures known { (b : Problem) (known : List Fact) → IsKnown b known (precedes b.block) }
    ensures transitive { (b : Problem) → IsTransitive b (precedes b.block) }
    ensures no_ring { (b : Problem) → HasNoRing b (precedes b.block) }
    ensures places { (b : Problem) → IsPlaced b (precedes b.block) (λ n. n) }
{}

/// The arcs of the table, by a test which number stands first, follow from what is known if the test does. They have no ring if the
/// numbers have places by which the test rises, and lack no arc of an instruction.
pub fn network_law()
    ensures steps { (b : Problem) (known : List Fact) (before : ℕ → ℕ → Bool) →
        IsKnown b known before → AreSteps b known (network b before) }
    ensures arcs { (b : Problem) (low : ℕ) (known : List Fact) (before : ℕ → ℕ → Bool) →
        IsKnown b known before → AreArcs b low known (network b before) }
    ensures rising { (b : Problem) (before : ℕ → ℕ → Bool) (place : ℕ → ℕ) →
        IsPlaced b before place → RisesBy b (network b before) (rank_by b place) }
    ensures own { (b : Problem) (before : ℕ → ℕ → Bool) → HasOwnArcs b (network b before) }
{}

/// A network with an arc more has it, and no arc or tail that is shorter. What follows still follows if the arc does, and no arcs form a
/// ring still if it leads up.
pub fn more_arcs_law()
    ensures there { (arcs : Network) (e f : Moment) (w : ℕ) →
        with_arc arcs e w f e f ≡ Some (max w (unwrap_or (arcs e f) 0)) }
    ensures steps { (b : Problem) (known : List Fact) (arcs : Network) (e f : Moment) (w : ℕ) →
        AreSteps b known arcs → Among (Arc e w f 0) known → AreSteps b known (with_arc arcs e w f) }
    ensures arcs { (b : Problem) (low : ℕ) (known : List Fact) (arcs : Network) (e f : Moment) (w : ℕ) →
        AreArcs b low known arcs → Follows b low known (Arc e w f 0) → AreArcs b low known (with_arc arcs e w f) }
    ensures rising { (b : Problem) (arcs : Network) (e f : Moment) (w : ℕ) (rank : Moment → ℕ) → RisesBy b arcs rank →
        Among f (targets b) → rank e < rank f → rank f ≤ most_arcs b → RisesBy b (with_arc arcs e w f) rank }
    ensures own { (b : Problem) (arcs : Network) (e f : Moment) (w : ℕ) → HasOwnArcs b arcs →
        HasOwnArcs b (with_arc arcs e w f) }
    ensures longer { (b : Problem) (arcs : Network) (e f m : Moment) (w : ℕ) →
        tail b arcs m ≤ tail b (with_arc arcs e w f) m }
{}

/// A test with a known pair more, closed again, is still known and transitive. It has no ring if the pair wasn't known the other way
/// round, and if there is none, the numbers have places.
pub fn more_pairs_law()
    ensures known { (b : Problem) (known : List Fact) (before : ℕ → ℕ → Bool) (j k : ℕ) → IsKnown b known before →
        IsNumber b j → IsNumber b k → Among (Before j k) known → IsKnown b known (with_pair before j k) }
    ensures transitive { (b : Problem) (before : ℕ → ℕ → Bool) (j k : ℕ) → IsNumber b j → IsNumber b k →
        IsTransitive b before → IsTransitive b (with_pair before j k) }
    ensures no_ring { (b : Problem) (before : ℕ → ℕ → Bool) (j k : ℕ) → IsNumber b j → IsNumber b k →
        IsTransitive b before → HasNoRing b before → j ≢ k → before k j ≡ false → HasNoRing b (with_pair before j k) }
    ensures places { (b : Problem) (before : ℕ → ℕ → Bool) →
        IsTransitive b before → HasNoRing b before → IsPlaced b before (place_by b before) }
{}

/// The greatest path of what remains is a lower bound of all orders that begin so, if its arcs follow, as those by dependence do. While
/// a number remains some path takes it, and if no arcs form a ring none is greater.
pub fn greatest_path_law()
    ensures below { (b : Problem) (low : ℕ) (known : List Fact) (arcs : Network) (prefix : List ℕ) →
        AreArcs b low known arcs →
        Follows b low (Begins prefix ∷ known) (Arc Origin (greatest_path b arcs prefix) End 0) }
    ensures by_dependence { (b : Problem) (prefix rest : List ℕ) → IsLegal b.block (prefix ++ rest) →
        greatest_path b (network b (precedes b.block)) prefix ≤ total_of b (prefix ++ rest) }
    ensures greatest { (b : Problem) (arcs : Network) (prefix : List ℕ)
        (n : ℕ) (stage : Stage) (hops : List Hop) (f : Moment) → IsRising b arcs → IsRemaining b prefix n stage →
        IsNetworkPath arcs (At n stage) hops f → soonest b prefix n stage + waits hops ≤ greatest_path b arcs prefix }
    ensures reached { (b : Problem) (arcs : Network) (prefix : List ℕ) (m : ℕ) → is_remaining b.block prefix m ≡ true →
        (n : ℕ) × (stage : Stage) × (hops : List Hop) × (f : Moment) × IsRemaining b prefix n stage ×
        IsNetworkPath arcs (At n stage) hops f × (soonest b prefix n stage + waits hops ≡ greatest_path b arcs prefix) }
{}
