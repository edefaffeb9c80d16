//! Laws and examples of trees by their vertices in preorder, as a certificate lists them.

ghost use Rattle.std.specs.Prelude.{ℕ, List, ◌≡◌, [], ◌∷◌};
ghost use Rattle.s66_isa.specs.{Boolean};
ghost use Rattle.s66_model.specs.{Rule, Problem, Whole, Chain, Load, Tree, Alone, Parted, NoMore, Unsplit, Split, Vertex, AtTerminal, AtSplit, flat_siblings, flat, Ending, ShowsBy, Terminal, IsPiece};
ghost use Rattle.s66_model.specs.{IsAnswer, forest, read_tree, TreeMatches, load_tree};
ghost use Rattle.s66_model.specs.Answer.{Answer};

/// Every list of vertices is that of the trees that it is read as. A tree whose splits have a child for each number is read again
/// from its vertices, and no other such tree has them. Trees of pieces and answers, and trees that show a bound, are such.
pub fn preorder_law()
    ensures vertices { (vertices : List (Vertex Ending)) → flat_siblings (forest vertices) ≡ vertices }
    ensures tree { (other : Ending) (tree : Tree Ending) → TreeMatches tree → read_tree other (flat tree) ≡ tree }
    ensures once { (tree other : Tree Ending) → TreeMatches tree → TreeMatches other → flat tree ≡ flat other →
        tree ≡ other }
    ensures piece { (rule : Rule) (b : Problem) (prefix : List ℕ) (tree : Tree Terminal) → IsPiece rule b prefix tree →
        TreeMatches tree }
    ensures answer { (rule : Rule) (b : Problem) (budget : ℕ) (a : Answer) → IsAnswer rule b budget a →
        TreeMatches a.tree }
    ensures shows { (rule : Rule) (b : Problem) (low : ℕ) (prefix : List ℕ) (tree : Tree Ending) →
        ShowsBy rule b low prefix tree → TreeMatches tree }
{}

/// Which trees some lists of vertices are.
pub fn preorder_examples()
    ensures a_terminal { read_tree Whole (AtTerminal (Load Boolean) ∷ []) ≡ Alone (Load Boolean) }
    ensures load_tree_again { read_tree Whole (AtSplit (1 ∷ 3 ∷ []) ∷ AtSplit (2 ∷ 3 ∷ []) ∷ AtTerminal (Load Boolean) ∷
        AtSplit (2 ∷ []) ∷ AtTerminal Whole ∷ AtTerminal (Chain (1 ∷ 2 ∷ [])) ∷ []) ≡ load_tree }
    ensures no_vertices { read_tree {M = ℕ} 7 [] ≡ Alone 7 }
    ensures vertices_left_over { read_tree {M = ℕ} 7 (AtTerminal 1 ∷ AtTerminal 2 ∷ []) ≡ Alone 1 }
    ensures vertices_missing { read_tree {M = ℕ} 7 (AtSplit (1 ∷ 2 ∷ []) ∷ AtTerminal 5 ∷ []) ≡
        Parted (1 ∷ 2 ∷ []) (Unsplit 5 NoMore) }
    ensures child_missing { ¬ TreeMatches {M = ℕ} (Parted (1 ∷ 2 ∷ []) (Unsplit 5 NoMore)) }
    ensures child_too_many { ¬ TreeMatches {M = ℕ} (Parted (1 ∷ []) (Unsplit 5 (Unsplit 6 NoMore))) }
    ensures same_vertices_where_one_is_missing { flat {M = ℕ} (Parted (1 ∷ []) (Split (2 ∷ []) NoMore
        (Unsplit 7 NoMore))) ≡ flat (Parted (1 ∷ []) (Split (2 ∷ []) (Unsplit 7 NoMore) NoMore)) }
{}
