//! Laws and examples of legal orders: as permutations that keep each dependence, and number by number by what is ready (`order_law`).

ghost use Rattle.std.specs.Prelude.{ℕ, List, ◌≡◌, ◌↔◌, [], ◌∷◌};
ghost use Rattle.s66_isa.specs.{Instr, has, numbers};
ghost use Rattle.s66_model.specs.{IsLegal, IsOrder, IsFront, IsBeginning, ready, remaining, sum_remaining, one_load};

/// A permutation that keeps each dependent pair in order is a list of numbers each of which is ready when it comes.
pub fn order_law()
    ensures { (block : List Instr) (order : List ℕ) → IsLegal block order ↔ IsOrder block order }
{}

/// A list of numbers each of which is ready when it comes is the front of a legal order, and each front is one.
pub fn beginning_law()
    ensures { (block : List Instr) (prefix : List ℕ) → IsFront block prefix ↔ IsBeginning block prefix }
{}

/// The source order of every block is legal.
pub fn source_law()
    ensures { (block : List Instr) → IsLegal block (numbers block) }
{}

/// What is ready, what remains and sums over it depend on which numbers are placed, and not on their order.
pub fn same_set_law()
    ensures ready { (block : List Instr) (placed others : List ℕ) → ((m : ℕ) → has m placed ≡ has m others) →
        ready block placed ≡ ready block others }
    ensures remaining { (block : List Instr) (placed others : List ℕ) → ((m : ℕ) → has m placed ≡ has m others) →
        remaining block placed ≡ remaining block others }
    ensures sum { (block : List Instr) (placed others : List ℕ) (w : ℕ → ℕ) → ((m : ℕ) → has m placed ≡ has m others) →
        sum_remaining block placed w ≡ sum_remaining block others w }
{}

/// Which orders of a block are legal, and what is ready after a beginning.
pub fn order_examples()
    ensures source_order { IsLegal one_load (1 ∷ 2 ∷ 3 ∷ []) }
    ensures other_first { IsLegal one_load (3 ∷ 1 ∷ 2 ∷ []) }
    ensures other_between { IsLegal one_load (1 ∷ 3 ∷ 2 ∷ []) }
    ensures before_its_need { ¬ IsLegal one_load (2 ∷ 1 ∷ 3 ∷ []) }
    ensures one_missing { ¬ IsLegal one_load (1 ∷ 3 ∷ []) }
    ensures one_replaced { ¬ IsLegal one_load (1 ∷ 3 ∷ 4 ∷ []) }
    ensures one_twice { ¬ IsLegal one_load (1 ∷ 3 ∷ 3 ∷ []) }
    ensures again_at_the_end { ¬ IsLegal one_load (1 ∷ 2 ∷ 3 ∷ 1 ∷ []) }
    ensures no_such_number { ¬ IsLegal one_load (1 ∷ 2 ∷ 3 ∷ 4 ∷ []) }
    ensures ready_at_first { ready one_load [] ≡ 1 ∷ 3 ∷ [] }
    ensures ready_after_1 { ready one_load (1 ∷ []) ≡ 2 ∷ 3 ∷ [] }
    ensures ready_after_3 { ready one_load (3 ∷ []) ≡ 1 ∷ [] }
    ensures ready_after_all { ready one_load (1 ∷ 3 ∷ 2 ∷ []) ≡ [] }
    ensures remaining_after_1 { remaining one_load (1 ∷ []) ≡ 2 ∷ 3 ∷ [] }
    ensures sum_remaining_after_1 { sum_remaining one_load (1 ∷ []) (λ n. n) ≡ 5 }
{}
