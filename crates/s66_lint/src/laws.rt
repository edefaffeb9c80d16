//! Laws and examples of the lines that `--cut` leaves alone: two switches around each do the same.

ghost use Rattle.std.specs.Prelude.{◌≡◌, ℕ, List, [], ◌∷◌, Ok, true, false, codes, map, not};
ghost use Rattle.s66_isa.specs.{every};
ghost use Rattle.s66_line.specs.{Block};
ghost use Rattle.s66_source.specs.{flagged_lines, plain, Line, classed_lines, source_of};
ghost use Rattle.s66_lint.specs.{alone_lines, is_refused, switched, switched_lines, unnumbered};

/// The two comments around each line that `--cut` leaves alone do without `--cut` what it does: the same lines are left alone, no line
/// is refused for its operand, and if neither source is refused, the blocks are the same but for the numbers of their lines.
pub fn switched_law()
    ensures alone { (text : List ℕ) → flagged_lines (plain (switched text)) ≡
        switched_lines (flagged_lines (record { cut = true; text = text })) }
    ensures taken { (text : List ℕ) →
        every (λ (line : Line). not (is_refused line.class)) (classed_lines (plain (switched text))) ≡ true }
    ensures blocks { (text : List ℕ) (blocks again : List Block) →
        source_of (record { cut = true; text = text }) ≡ Ok blocks → source_of (plain (switched text)) ≡ Ok again →
        map unnumbered again ≡ map unnumbered blocks }
{}

/// Small sources: with the two comments around what `--cut` leaves alone, also where a switch stands there; and whether it leaves each
/// line alone.
pub fn switched_examples()
    ensures counted { switched (codes "  DUP 3,1\n  BX6 X1\n  BX7 X1\n") ≡
        codes "  DUP 3,1\n*S66 OFF\n  BX6 X1\n*S66 ON\n  BX7 X1\n" }
    ensures switches { switched (codes "*S66 OFF\n*S66 ON\n") ≡
        codes "*S66 OFF\n*S66 OFF\n*S66 ON\n*S66 OFF\n*S66 ON\n*S66 ON\n" }
    ensures alone { alone_lines (codes "  SX6 *\n* C\n  DUP 3,1\n  BX6 X1\n  BX7 X1") ≡ true ∷ false ∷ false ∷ true ∷
        false ∷ [] }
{}
