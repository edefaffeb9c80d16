//! What a verdict and the test of dominance say, each the contract of a function that does nothing.

ghost use Rattle.std.specs.Prelude.{ℕ, List, [], ◌≡◌, ◌↔◌, true, false, None};
ghost use Rattle.s66_model.specs.{NoneNamed, WrittenEarlier, ClampedStanding, Problem, HaveDigits, Dominates, DominatesClamped, IsBound};
ghost use Rattle.s66_moments.specs.{FactStep, facts_after, DominatesInUse, Known, premises_first, premises_after, are_steps_taken, shown_by_all};
ghost use Rattle.s66_cert.specs.{Document, IsDocument};
ghost use Rattle.s66_checker.specs.{Yes, verdict, problem_of, dominates_by, dominates_in_use, IsTrueClaim};

/// If the verdict on a document is yes, with its time and its bound, what it claims is true; without fact lines it is yes exactly
/// then. No legal order then takes less than the bound.
pub fn yes_law()
    ensures stated { (limit : ℕ) (d : Document) (time bound : ℕ) → IsDocument limit d → verdict d ≡ Yes time bound →
        (time ≡ d.time) × (bound ≡ d.bound) × IsTrueClaim d }
    ensures yes { (limit : ℕ) (d : Document) → IsDocument limit d → d.facts ≡ None → IsTrueClaim d →
        verdict d ≡ Yes d.time d.bound }
    ensures bound { (d : Document) → IsTrueClaim d → IsBound (problem_of d) d.bound }
{}

/// The test of dominance says yes exactly when one beginning dominates another by the rule, if the digits of the block's
/// instructions are 0 to 7. Those of each document's block are. That of dominance in use says yes only when there is, by fact lines that
/// are taken and leave no supposition open, and of all that dominates clamped.
pub fn dominating_law()
    ensures written { (b : Problem) (name at : List ℕ) → HaveDigits b.block →
        (dominates_by WrittenEarlier b name at ≡ true) ↔ Dominates b name at }
    ensures clamped { (b : Problem) (name at : List ℕ) → HaveDigits b.block →
        (dominates_by ClampedStanding b name at ≡ true) ↔ DominatesClamped b name at }
    ensures in_use { (b : Problem) (bound : ℕ) (steps : List FactStep) (name at : List ℕ) →
        are_steps_taken b bound (premises_first b) steps ≡ true →
        (premises_after (premises_first b) steps).supposed ≡ None →
        dominates_in_use b bound (premises_after (premises_first b) steps).known name at ≡ true →
        DominatesInUse b bound (facts_after [] (shown_by_all b (premises_first b) steps)) name at }
    ensures clamped_in_use { (b : Problem) (bound : ℕ) (known : Known) (name at : List ℕ) → DominatesClamped b name at →
        dominates_in_use b bound known name at ≡ true }
    ensures none_named { (b : Problem) (name at : List ℕ) → dominates_by NoneNamed b name at ≡ false }
    ensures digits { (d : Document) → HaveDigits (problem_of d).block }
{}
