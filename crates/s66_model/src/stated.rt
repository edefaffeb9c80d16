//! Laws and examples of trees that have of each leaf only the value or the name.

ghost use Rattle.std.specs.Prelude.{ℕ, List, ◌≡◌, [], ◌∷◌};
ghost use Rattle.s66_model.specs.{Rule, NoneNamed, Problem, Tree, Alone, Parted, NoMore, Unsplit, Split, TreeHolds, splits, split_at, tree_values, TreeMatches, TerminalHolds, IsPiece, StatedLeaf};
ghost use Rattle.s66_model.specs.{StatedFrontier, IsStatedTree, stated_values, terminal_floors, terminal_of, tree_stated, load_problem, load_piece};
ghost use Rattle.s66_model.specs.Stated.{Stated};

/// A tree of true values over a prefix stands for a piece, with the same splits at the same prefixes, and its values are those
/// of the floors.
pub fn stated_law()
    ensures piece { (rule : Rule) (b : Problem) (prefix : List ℕ) (stated : Tree Stated) →
        IsStatedTree rule b prefix stated → IsPiece rule b prefix (tree_stated b prefix stated) }
    ensures terminals { (rule : Rule) (b : Problem) (prefix : List ℕ) (stated : Tree Stated) → TreeMatches stated →
        IsPiece rule b prefix (tree_stated b prefix stated) →
        TreeHolds b.block (λ at terminal. TerminalHolds rule b prefix (tree_stated b prefix stated) at
        (terminal_of b at terminal)) prefix stated }
    ensures matches { (b : Problem) (prefix : List ℕ) (stated : Tree Stated) → TreeMatches stated →
        TreeMatches (tree_stated b prefix stated) }
    ensures splits { (b : Problem) (prefix : List ℕ) (stated : Tree Stated) → TreeMatches stated →
        splits (tree_stated b prefix stated) ≡ splits stated }
    ensures split_at { (b : Problem) (prefix : List ℕ) (stated : Tree Stated) →
        split_at prefix (tree_stated b prefix stated) ≡ split_at prefix stated }
    ensures values { (rule : Rule) (b : Problem) (prefix : List ℕ) (stated : Tree Stated) →
        IsStatedTree rule b prefix stated →
        tree_values (λ at terminal. stated_values terminal) prefix stated ≡
        tree_values (terminal_floors b) prefix (tree_stated b prefix stated) }
{}

/// What a tree of values stands for.
pub fn stated_examples()
    ensures load_piece_stated { tree_stated load_problem [] (Parted (1 ∷ 3 ∷ [])
        (Split (2 ∷ 3 ∷ []) (Unsplit (StatedLeaf 16) (Split (2 ∷ []) (Unsplit (StatedLeaf 12) NoMore) NoMore))
        (Unsplit (StatedFrontier 13) NoMore))) ≡ load_piece }
    ensures true_value { IsStatedTree NoneNamed load_problem (3 ∷ []) (Alone (StatedFrontier 13)) }
    ensures another_value { ¬ IsStatedTree NoneNamed load_problem (3 ∷ []) (Alone (StatedFrontier 12)) }
    ensures another_value_of_a_leaf { ¬ IsStatedTree NoneNamed load_problem (1 ∷ 3 ∷ 2 ∷ []) (Alone (StatedLeaf 13)) }
    ensures whole_order_in_the_frontier { ¬ IsStatedTree NoneNamed load_problem (1 ∷ 3 ∷ 2 ∷ [])
        (Alone (StatedFrontier 12)) }
{}
