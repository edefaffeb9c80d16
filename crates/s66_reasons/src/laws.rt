//! What reasons say, the contract of a function that does nothing.

ghost use Rattle.std.specs.Prelude.{ℕ, List, ◌∷◌, ◌≡◌, ◌≤◌, true, None, Some};
ghost use Rattle.s66_isa.specs.{numbers};
ghost use Rattle.s66_model.specs.{Leaf, Alone, Bounding, Factual, Next, Turned, LoadFrom};
ghost use Rattle.s66_moments.specs.{IsNumber, Pair, Premises, arcs_of, is_turned, FactStep, are_steps_taken, is_step_taken, premises_after, premises_first};
ghost use Rattle.s66_moments.specs.declared.fact_line.FactStep.TheVariants.{Fact, Refuted};
ghost use Rattle.s66_cert.specs.{Document, IsDocument};
ghost use Rattle.s66_checker.specs.{Yes, AreTaken, known_of, problem_of, verdict};
ghost use Rattle.s66_reasons.specs.{leaf_rows, end_by, end_line, late_number, step_sentence, to_show, HasNoneSooner, HoldsIn, IsLeafAt, IsLoadShown, IsPairShown, IsPathShown, IsReachedAfter, IsRefutedIn, IsThroughShown};

/// If the verdict on a document is yes, the rows of each leaf of its tree reach the bound. If it is a chain, all units of a kind, all
/// parcels or a whole order, no legal order that begins with the leaf's prefix takes less than they say. By facts they say what holds in
/// legal orders that take less than the bound: so there are none. Those of a longest path add up to what it takes, and in such an order no
/// moment of it is sooner than its row says; those of a load are of instructions that need their units so late and so long; and a pair that
/// is turned is known to stand the other way round. After fact lines that are taken each such order has what is known; within a supposition,
/// if it has what is supposed; and where that ends, none has it. The numbers of the sentence of a pair are those of longest paths by what is
/// known there, and of the wait between them; so are those of a supposition's last sentence, if it names an instruction: and the last number
/// is their sum, which reaches the bound. If it names none, it names a load line, by which the end comes at the bound or later.
pub fn reasons_law()
    ensures bounding { (limit : ℕ) (d : Document) (time bound : ℕ) (at : List ℕ) (leaf : Leaf) →
        IsDocument limit d → verdict d ≡ Yes time bound → IsLeafAt d at (Bounding leaf) →
        IsReachedAfter (problem_of d) at bound (end_by leaf (leaf_rows d at (Bounding leaf))) }
    ensures next { (limit : ℕ) (d : Document) (time bound n : ℕ) → IsDocument limit d → verdict d ≡ Yes time bound →
        d.tree ≡ Alone (Factual (Next n)) → IsPathShown d bound n }
    ensures supposed { (d : Document) (front : List FactStep) → are_steps_taken (problem_of d) d.bound
        (premises_first (problem_of d)) front ≡ true → HoldsIn d (premises_after (premises_first (problem_of d)) front) }
    ensures refuted { (d : Document) (front : List FactStep) → are_steps_taken (problem_of d) d.bound
        (premises_first (problem_of d)) front ≡ true → is_step_taken (problem_of d) d.bound
        (premises_after (premises_first (problem_of d)) front) Refuted ≡ true →
        IsRefutedIn d (premises_after (premises_first (problem_of d)) front) }
    ensures pair { (d : Document) (premises : Premises) (number m n : ℕ) →
        is_step_taken (problem_of d) d.bound premises (Fact (Pair m n)) ≡ true →
        IsPairShown d (arcs_of (problem_of d) premises.known) m n (step_sentence d premises number (Fact (Pair m n))) }
    ensures through { (d : Document) (premises : Premises) (number m n k : ℕ) → to_show premises ≡ Some (m, n) →
        late_number (problem_of d) (arcs_of (problem_of d) premises.known) d.bound (m ∷ numbers (problem_of d).block) ≡ Some k →
        IsThroughShown d (arcs_of (problem_of d) premises.known) m n k (step_sentence d premises number Refuted) }
    ensures ended { (d : Document) (front : List FactStep) (m : ℕ) → are_steps_taken (problem_of d) d.bound
        (premises_first (problem_of d)) front ≡ true → is_step_taken (problem_of d) d.bound
        (premises_after (premises_first (problem_of d)) front) Refuted ≡ true →
        late_number (problem_of d) (arcs_of (problem_of d) (premises_after (premises_first (problem_of d)) front).known) d.bound
        (m ∷ numbers (problem_of d).block) ≡ None →
        (line : ℕ × ℕ) × (end_line d.bound 1 front ≡ Some line) × (d.bound ≤ line.1) }
    ensures no_sooner { (d : Document) (n : ℕ) → AreTaken d → IsNumber (problem_of d) n → HasNoneSooner d n }
    ensures left { (limit : ℕ) (d : Document) (time bound : ℕ) (at : List ℕ) (after : ℕ) (ns : List ℕ) →
        IsDocument limit d → verdict d ≡ Yes time bound → IsLeafAt d at (Factual (LoadFrom after ns)) →
        IsLoadShown d at bound after ns }
    ensures turned { (limit : ℕ) (d : Document) (time bound : ℕ) (at : List ℕ) (m n : ℕ) →
        IsDocument limit d → verdict d ≡ Yes time bound → IsLeafAt d at (Factual (Turned m n)) →
        is_turned (problem_of d) (known_of d) at m n ≡ true }
{}
