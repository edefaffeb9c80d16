//! Paths of moments, each some time after the one before it.

ghost use Rattle.std.specs.Prelude.{ℕ, List, Bool, ◌+◌, ◌≡◌, ◌≤◌, true};
ghost use Rattle.s66_model.specs.{Problem};
ghost use Rattle.s66_moments.specs.{Moment, Fact, Arc, Follows, IsStep, AreKept, Leads};

/// In each legal order that has what is known, a step takes as long at least as it says: by an arc of the table, by a known fact, or
/// by what a known prefix decides. So does a path of steps.
pub fn path_law()
    ensures step { (b : Problem) (low : ℕ) (known : List Fact) (e f : Moment) (w : ℕ) →
        IsStep b known e w f → Follows b low known (Arc e w f 0) }
    ensures path { (b : Problem) (low : ℕ) (known : List Fact) (e f : Moment) (w : ℕ) →
        Leads b known e w f → Follows b low known (Arc e w f 0) }
{}

/// Times from a moment on that keep each step from what they reach are no less than any path from it, and where they reach nothing no
/// path leads. The same is so of times before a moment, as tails are.
pub fn table_law()
    ensures heads { (b : Problem) (known : List Fact) (reached : Moment → Bool) (times : Moment → ℕ) →
        AreKept (IsStep b known) reached times → (e f : Moment) (w : ℕ) → reached e ≡ true → Leads b known e w f →
        (reached f ≡ true) × (times e + w ≤ times f) }
    ensures tails { (b : Problem) (known : List Fact) (reached : Moment → Bool) (times : Moment → ℕ) →
        AreKept (λ f w e. IsStep b known e w f) reached times →
        (e f : Moment) (w : ℕ) → reached f ≡ true → Leads b known e w f → (reached e ≡ true) × (times f + w ≤ times e) }
{}
