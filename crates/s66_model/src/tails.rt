//! Laws and examples of static tails: a floor by what is known of each number before anything is placed, and the chain that is printed.

ghost use Rattle.std.specs.Prelude.{ℕ, List, length, get_or, max, true, ◌+◌, ◌-◌, ◌*◌, ◌≡◌, ◌≤◌, [], ◌∷◌, filter};
ghost use Rattle.s66_isa.specs.{Kind, Reg, greatest, least, weigh, numbers, a_reg, x_reg};
ghost use Rattle.s66_model.specs.{Problem, row_at, copies, points_of, next, is_remaining, remaining, sum_remaining, IsBeginning, IsIncomplete, Leaf, MayStand, tail, is_linked, head, links_from};
ghost use Rattle.s66_model.specs.{longest, longest_walk, longest_chain, chain, rest_busy, work_of, over, load, parcels, value, after_chain, floor_value, longest_tail, walk_to, tail_remaining};
ghost use Rattle.s66_model.specs.{chain_by, HasLate, HasWritten, walk_next, walk_after, chain_front, spare, HasWords, standard_problem, load_problem, tails_in};
ghost use Rattle.s66_model.specs.Examples as examples;

/// The longest tail of a number that remains is the same after every beginning: the greatest chain is the greatest head with
/// the static tail of its number. It starts at the next slot, or when a register is done that is late.
pub fn tail_law()
    ensures same { (b : Problem) (prefix : List ℕ) (n : ℕ) → IsBeginning b.block prefix →
        is_remaining b.block prefix n ≡ true → longest b prefix (length b.block) n ≡ longest_tail b n }
    ensures step { (b : Problem) (n : ℕ) → 1 ≤ n → n ≤ length b.block →
        longest_tail b n ≡ max (tail (row_at b n)) (greatest (walk_to b n) (numbers b.block)) }
    ensures heads { (b : Problem) (prefix : List ℕ) → IsBeginning b.block prefix → chain b prefix ≡
        greatest (λ n. head (points_of b prefix) (row_at b n) + longest_tail b n) (remaining b.block prefix) }
    ensures registers { (b : Problem) (prefix : List ℕ) (xs : List Reg) → IsBeginning b.block prefix →
        IsIncomplete b.block prefix → HasLate b prefix xs →
        chain b prefix ≡ max (next (points_of b prefix) + tail_remaining b prefix) (greatest (chain_by b prefix) xs) }
    ensures late { (b : Problem) (prefix : List ℕ) (xs : List Reg) → HasWritten b xs → IsBeginning b.block prefix →
        HasLate b prefix xs }
{}

/// What the printed chain needs of a number that remains is known before anything is placed: its longest walk, its links, and the
/// number after it. So from its front on, the printed chain is the same after every beginning.
pub fn printed_chain_law()
    ensures tails { (b : Problem) (prefix : List ℕ) (links n : ℕ) → IsBeginning b.block prefix →
        is_remaining b.block prefix n ≡ true → length b.block ≤ n + links →
        longest b prefix links n ≡ longest_tail b n }
    ensures links { (b : Problem) (prefix : List ℕ) (n : ℕ) → IsBeginning b.block prefix →
        is_remaining b.block prefix n ≡ true → links_from b prefix n ≡ filter (is_linked b n) (numbers b.block) }
    ensures walk { (b : Problem) (prefix : List ℕ) (links n : ℕ) → IsBeginning b.block prefix →
        is_remaining b.block prefix n ≡ true → length b.block ≤ n + links →
        longest_walk b prefix links n (longest_tail b n) ≡ walk_after b links n }
    ensures chain { (b : Problem) (prefix : List ℕ) → IsBeginning b.block prefix → IsIncomplete b.block prefix →
        longest_chain b prefix ≡ chain_front b prefix ∷ walk_after b (length b.block) (chain_front b prefix) }
{}

/// The value of an incomplete floor is the greatest of its chains, the load of each kind of unit, and its parcels: those of all
/// that remains, and the least that a tail is longer than its own. A table with a word for each number gives the sums over what
/// remains, and so the loads. No leaf of a block is above 104 minor cycles for each of its instructions.
pub fn floor_parts_law()
    ensures greatest { (b : Problem) (prefix : List ℕ) → IsBeginning b.block prefix → IsIncomplete b.block prefix →
        floor_value b prefix ≡ max (chain b prefix) (greatest (value b prefix) after_chain) }
    ensures parcels { (b : Problem) (prefix : List ℕ) → IsBeginning b.block prefix → IsIncomplete b.block prefix →
        parcels b prefix ≡ (next (points_of b prefix) + sum_remaining b.block prefix (λ n. (row_at b n).parcels)) +
        least (spare b) (remaining b.block prefix) }
    ensures loads { (b : Problem) (prefix words : List ℕ) (kind : Kind) →
        HasWords b (λ n. work_of kind (row_at b n)) words →
        load b prefix kind ≡ over (weigh (λ n. get_or words (n - 1) 0) (remaining b.block prefix) + weigh
        (rest_busy kind (next (points_of b prefix))) (points_of b prefix)) (copies b kind) + next (points_of b prefix) }
    ensures sums { (b : Problem) (prefix words : List ℕ) (f : ℕ → ℕ) → HasWords b f words →
        weigh (λ n. get_or words (n - 1) 0) (remaining b.block prefix) ≡ sum_remaining b.block prefix f }
    ensures fits { (b : Problem) (prefix : List ℕ) (leaf : Leaf) → IsBeginning b.block prefix → MayStand b prefix leaf →
        value b prefix leaf ≤ 104 * length b.block }
{}

/// The longest tail of each number of a block, the walk that takes it, and what heads, registers and parcels make of them.
pub fn tail_examples()
    ensures one_load { tails_in examples.one_load ≡ 12 ∷ 4 ∷ 4 ∷ [] }
    ensures late_store { tails_in examples.late_store ≡ 19 ∷ 9 ∷ 8 ∷ [] }
    ensures walk_to_the_reader { walk_to load_problem 1 2 ≡ 12 }
    ensures no_walk_without_a_link { walk_to load_problem 1 3 ≡ 0 }
    ensures no_walk_to_an_earlier_number { walk_to load_problem 2 1 ≡ 0 }
    ensures remaining_after_1 { tail_remaining load_problem (1 ∷ []) ≡ 4 }
    ensures by_the_loaded_register { chain_by load_problem (1 ∷ []) (x_reg 1) ≡ 12 }
    ensures by_a_register_that_none_uses { chain_by load_problem (1 ∷ []) (a_reg 1) ≡ 0 }
    ensures walk_of_three { walk_after (standard_problem examples.late_store) 3 1 ≡ 2 ∷ 3 ∷ [] }
    ensures lowest_of_two { walk_next (standard_problem examples.forked_chain) 1 ≡ 2 }
    ensures ends_with_the_tail { walk_next (standard_problem examples.early_end) 1 ≡ 0 }
    ensures front_after_1 { chain_front load_problem (1 ∷ []) ≡ 2 }
    ensures spare_of_a_load { spare load_problem 1 ≡ 7 }
    ensures spare_of_two_parcels { spare (standard_problem examples.zero_register) 2 ≡ 2 }
{}
