//! Lines that each give a fact, and trees that show a bound by them.
//! Laws say on what a fact line may be founded, and what a tree shows by lines.

ghost use Rattle.std.specs.Prelude.{ℕ, List, [], ◌∷◌, ◌++◌, ◌+◌, ◌≡◌, ◌≤◌, true};
ghost use Rattle.s66_model.specs.{Rule, Problem, total_of, IsLegal, is_remaining, IsBound, Tree, DominatesClamped};
ghost use Rattle.s66_moments.specs.{Stage, Issue, Start, At, soonest, Fact, Begins, Follows, IsNumber, Precedes, IsPlacedFirst, Network, AreSteps, IsRemaining, tail, ComesNoSooner, DominatesInUse};
ghost use Rattle.s66_moments.specs.{IsNoWorseBelow, Line, fact_of, IsTooLate, IsFounded, AreFounded, facts_after, LineEnding, ShowsByLines};

/// A line's fact follows from what is known before it, if it is founded on that. So what follows from all lines follows from what was
/// known before them, and lines that are founded for a time are founded for each that is less.
pub fn line_law()
    ensures line { (b : Problem) (low : ℕ) (known : List Fact) (line : Line) →
        IsFounded b low known line → Follows b low known (fact_of line) }
    ensures derived { (b : Problem) (low : ℕ) (known : List Fact) (lines : List Line) (fact : Fact) →
        AreFounded b low known lines → Follows b low (facts_after known lines) fact → Follows b low known fact }
    ensures lower { (b : Problem) (low other : ℕ) (known : List Fact) (lines : List Line) →
        other ≤ low → AreFounded b low known lines → AreFounded b other known lines }
{}

/// An unsplit prefix is closed if a moment of what remains, as if its instruction came next, and its tail reach low by known arcs. So it
/// is if it has a number and not one that is known to precede it.
pub fn next_leaf_law()
    ensures next { (b : Problem) (low : ℕ) (known : List Fact) (prefix : List ℕ)
        (arcs : Network) (n : ℕ) (stage : Stage) → AreSteps b known arcs → IsRemaining b prefix n stage →
        low ≤ soonest b prefix n stage + tail b arcs (At n stage) → IsTooLate b low (Begins prefix ∷ known) }
    ensures turned { (b : Problem) (low : ℕ) (known : List Fact) (prefix : List ℕ) (m n : ℕ) → IsNumber b m →
        IsNumber b n → Precedes b known m n → IsPlacedFirst prefix n m → IsTooLate b low (Begins prefix ∷ known) }
{}

/// Whatever completes a beginning with a total below a time, and has the known facts, completes one that dominates it in use below that
/// time, and with a total below it. No number that remains comes sooner than if it came next. So a beginning that dominates another
/// clamped at the next slot does so in use, below each time and whatever is known.
pub fn in_use_law()
    ensures no_worse { (b : Problem) (low : ℕ) (known : List Fact) (other prefix : List ℕ) →
        DominatesInUse b low known other prefix → IsNoWorseBelow b low known other prefix }
    ensures next { (b : Problem) (low : ℕ) (known : List Fact) (prefix : List ℕ) (n : ℕ) →
        is_remaining b.block prefix n ≡ true →
        ComesNoSooner b low known prefix n (soonest b prefix n Issue) (soonest b prefix n Start) }
    ensures clamped { (b : Problem) (low : ℕ) (known : List Fact) (other prefix : List ℕ) →
        DominatesClamped b other prefix → DominatesInUse b low known other prefix }
{}

/// What a tree shows by lines, by leaves and by dominated leaves of one rule is at most the total of every legal order that begins
/// with its prefix: over the empty prefix it is a bound. What it shows of a time it shows of each that is less.
pub fn line_tree_law()
    ensures below { (rule : Rule) (b : Problem) (low : ℕ) (lines : List Line)
        (prefix rest : List ℕ) (tree : Tree LineEnding) → ShowsByLines rule b low lines prefix tree →
        IsLegal b.block (prefix ++ rest) → low ≤ total_of b (prefix ++ rest) }
    ensures bound { (rule : Rule) (b : Problem) (low : ℕ) (lines : List Line) (tree : Tree LineEnding) →
        ShowsByLines rule b low lines [] tree → IsBound b low }
    ensures lower { (rule : Rule) (b : Problem) (low other : ℕ) (lines : List Line) (prefix : List ℕ) (tree : Tree LineEnding) →
        other ≤ low → ShowsByLines rule b low lines prefix tree → ShowsByLines rule b other lines prefix tree }
{}
