//! Laws and examples of trees with dominated leaves: what they show, by each rule of which nodes such leaves may name.

ghost use Rattle.std.specs.Prelude.{ℕ, List, ◌≤◌, ◌↔◌, [], ◌∷◌, ◌++◌};
ghost use Rattle.s66_model.specs.{Rule, NoneNamed, WrittenEarlier, ClampedStanding, Problem, total_of, IsLegal, IsBound, Leaf, Tree, Shows, Ending, Dominated, ShowsBy, tree_bounding, standard_problem};
ghost use Rattle.s66_model.specs.{ByBoth, late_reader, three_increments, late_reader_tree, fourth_bounding, fourth_split, increments_load, increments_tree, first_unsplit, order_ending};

/// What a tree shows over a prefix, by any rule, is at most the total of every legal order that begins with it; over the
/// empty prefix it is a bound. A tree of leaves shows the same by each rule as without any.
pub fn dominated_law()
    ensures below { (rule : Rule) (b : Problem) (low : ℕ) (prefix rest : List ℕ) (tree : Tree Ending) →
        ShowsBy rule b low prefix tree → IsLegal b.block (prefix ++ rest) → low ≤ total_of b (prefix ++ rest) }
    ensures bound { (rule : Rule) (b : Problem) (low : ℕ) (tree : Tree Ending) → ShowsBy rule b low [] tree →
        IsBound b low }
    ensures leaves { (rule : Rule) (b : Problem) (low : ℕ) (prefix : List ℕ) (tree : Tree Leaf) →
        Shows b low prefix tree ↔ ShowsBy rule b low prefix (tree_bounding tree) }
{}

/// What trees with dominated leaves show, by which rule.
pub fn dominated_examples()
    ensures one_order_for_two { ByBoth (λ rule.
        ShowsBy rule (standard_problem late_reader) 33 [] (late_reader_tree (1 ∷ 2 ∷ 3 ∷ []) fourth_bounding)) }
    ensures none_named { ¬ ShowsBy NoneNamed (standard_problem late_reader)
        0 [] (late_reader_tree (1 ∷ 2 ∷ 3 ∷ []) fourth_bounding) }
    ensures no_more_than_the_least_leaf { (rule : Rule) →
        ¬ ShowsBy rule (standard_problem late_reader) 34 [] (late_reader_tree (1 ∷ 2 ∷ 3 ∷ []) fourth_bounding) }
    ensures another_set { (rule : Rule) →
        ¬ ShowsBy rule (standard_problem late_reader) 0 [] (late_reader_tree (1 ∷ 2 ∷ 4 ∷ []) fourth_bounding) }
    ensures not_dominated { (rule : Rule) →
        ¬ ShowsBy rule (standard_problem late_reader) 0 [] (late_reader_tree (1 ∷ 2 ∷ 3 ∷ []) fourth_split) }
    ensures named_before { ByBoth (λ rule. ShowsBy rule (standard_problem three_increments)
        7 [] (increments_tree increments_load (Dominated (1 ∷ 2 ∷ [])))) }
    ensures named_after { ShowsBy ClampedStanding (standard_problem three_increments)
        7 [] (increments_tree (Dominated (2 ∷ 1 ∷ [])) increments_load) }
    ensures not_named_after { ¬ ShowsBy WrittenEarlier (standard_problem three_increments)
        0 [] (increments_tree (Dominated (2 ∷ 1 ∷ [])) increments_load) }
    ensures each_by_the_other { (rule : Rule) → ¬ ShowsBy rule
        (standard_problem three_increments) 0 [] (increments_tree (Dominated (2 ∷ 1 ∷ [])) (Dominated (1 ∷ 2 ∷ []))) }
    ensures by_itself { (rule : Rule) → ¬ ShowsBy rule
        (standard_problem three_increments) 0 [] (increments_tree (Dominated (1 ∷ 2 ∷ [])) increments_load) }
    ensures no_such_node { (rule : Rule) →
        ¬ ShowsBy rule (standard_problem three_increments) 0 [] (first_unsplit (Dominated (1 ∷ 2 ∷ []))) }
    ensures whole_order { (rule : Rule) →
        ¬ ShowsBy rule (standard_problem three_increments) 0 [] (order_ending (Dominated (1 ∷ 2 ∷ 3 ∷ []))) }
{}
