//! What an accepted comparison means: contracts of functions that do nothing.

ghost use Rattle.std.specs.Prelude.{ℕ, Bool, List, [], ◌∷◌, ◌≡◌, true, false, None, Some, codes};
ghost use Rattle.s66_isa.specs.{Profile};
ghost use Rattle.s66_line.specs.{block_of_texts};
ghost use Rattle.s66_source.specs.{FramePart, frame_of, halves_of, Reading, plain};
ghost use Rattle.s66_compare.specs.{IsCompared, DifferFirst, first_difference, shapes, KeepsSource, judged, NotLegal, OtherNew, OtherOld, Reordered, Same};
ghost use Rattle.s66_compare.specs.declared.difference.Difference.{Difference};

/// If the new source is accepted, each of its blocks has the instructions of the old one, with all characters of their operands, in a
/// legal order, and so leaves the same in all registers and in memory; and what stands beside the blocks is the same. Comments and
/// remarks are no part of that, whatever reads them.
pub fn same_meaning_law()
    ensures { (p : Profile) (texts : Bool) (old new : Reading) (text : List ℕ) → IsCompared p texts old new text true →
        KeepsSource old new }
{}

/// The first difference of two frames is none if these are the same but for their lines, and else the first place at which they aren't.
pub fn difference_law()
    ensures none { (old new : List FramePart) → first_difference old new ≡ None → shapes new ≡ shapes old }
    ensures some { (old new : List FramePart) (d : Difference) → first_difference old new ≡ Some d →
        DifferFirst old new d }
{}

/// What is said of blocks of three instructions, of which the second reads what the first loads; of equal instructions, of which each
/// depends on the one before it; and of characters that go on behind an operand's blank, and a remark behind these.
#[tactic(auto, unfolding(s66_model::specs::Dependence::conflict))]
pub fn verdict_examples()
    ensures same { judged (block_of_texts (codes "SA1 A1+B1" ∷ codes "BX6 X1" ∷ codes "BX7 X2" ∷ []))
        (block_of_texts (codes "SA1 A1+B1" ∷ codes "BX6 X1" ∷ codes "BX7 X2" ∷ [])) ≡
        record { verdict = Same; order = 1 ∷ 2 ∷ 3 ∷ [] } }
    ensures legal { judged (block_of_texts (codes "SA1 A1+B1" ∷ codes "BX6 X1" ∷ codes "BX7 X2" ∷ []))
        (block_of_texts (codes "SA1 A1+B1" ∷ codes "BX7 X2" ∷ codes "BX6 X1" ∷ [])) ≡
        record { verdict = Reordered; order = 1 ∷ 3 ∷ 2 ∷ [] } }
    ensures not_legal { judged (block_of_texts (codes "SA1 A1+B1" ∷ codes "BX6 X1" ∷ codes "BX7 X2" ∷ []))
        (block_of_texts (codes "BX6 X1" ∷ codes "SA1 A1+B1" ∷ codes "BX7 X2" ∷ [])) ≡
        record { verdict = NotLegal 2 1; order = 2 ∷ 1 ∷ 3 ∷ [] } }
    ensures other_operand { judged (block_of_texts (codes "SA1 A1+B1" ∷ codes "BX6 X1" ∷ codes "BX7 X2" ∷ []))
        (block_of_texts (codes "SA1 A1+B1" ∷ codes "BX7 X3" ∷ codes "BX6 X1" ∷ [])) ≡
        record { verdict = OtherNew 2; order = 1 ∷ [] } }
    ensures lost { judged (block_of_texts (codes "SA1 A1+B1" ∷ codes "BX6 X1" ∷ codes "BX7 X2" ∷ []))
        (block_of_texts (codes "SA1 A1+B1" ∷ codes "BX7 X2" ∷ [])) ≡
        record { verdict = OtherOld 2; order = 1 ∷ 3 ∷ [] } }
    ensures equal_texts { judged (block_of_texts (codes "LX1 1" ∷ codes "LX1 1" ∷ codes "BX2 X1" ∷ []))
        (block_of_texts (codes "LX1 1" ∷ codes "BX2 X1" ∷ codes "LX1 1" ∷ [])) ≡
        record { verdict = NotLegal 3 2; order = 1 ∷ 3 ∷ 2 ∷ [] } }
    ensures other_characters { judged (block_of_texts (codes "SA1 =10HREAD ERROR" ∷ []))
        (block_of_texts (codes "SA1 =10HREAD OK" ∷ [])) ≡
        record { verdict = OtherNew 1; order = [] } }
    ensures other_remark { judged (block_of_texts (codes "SA1 =10HREAD ERROR" ∷ []))
        (block_of_texts (codes "SA1 =10HREAD ERROR  OK" ∷ [])) ≡
        record { verdict = Same; order = 1 ∷ [] } }
{}

/// What stands beside the blocks of a small source: a label on a `NO`, a comment, a branch, a `NO` that stands alone, and a switch; and
/// a text that is the marking line alone.
pub fn frame_examples()
    ensures frame { frame_of (plain (codes "L NO\n  BX1 X2\n* C\n  BX2 X3\n  EQ L \r\nM NO\n*S66 OFF\n")) ≡
        record { line = 2; is_block = true; bytes = codes "L" } ∷ record { line = 5; is_block = false; bytes = codes "  EQ L" }
        ∷ record { line = 6; is_block = false; bytes = codes "M NO" } ∷ record { line = 7; is_block = false; bytes = codes "*S66 OFF" } ∷ [] }
    ensures last_line { halves_of (codes "*S66 NEW") ≡ Some (record { old = []; new = [] }) }
{}
