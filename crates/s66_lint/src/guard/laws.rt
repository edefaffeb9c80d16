//! A source with switches around the lines that are marked, read again: contracts of functions that do nothing.

ghost use Rattle.std.specs.Prelude.{◌≡◌, ℕ, Bool, Option, Some, List, [], ◌∷◌, ◌++◌, true, false, codes, length, map, replicate, slice_get};
ghost use Rattle.s66_line.specs.{lines_of};
ghost use Rattle.s66_source.specs.{Flagged, flagged_lines, plain, owner, Line, classed_lines, begins, copied_line, line_text, text_for};
ghost use Rattle.s66_lint.specs.{Begins, Mark, GuardedLine, flag_of, guarded_bytes, guarded, guarded_flags, guarded_lines, is_left_alone, source_lines, unmarked};

/// The lines of what is printed are those of the source, in order and each once, and lines that were added.
pub fn unguarded_law()
    ensures lines { (marks : List Mark) (text : List ℕ) →
        lines_of (guarded marks text) ≡ map guarded_bytes (guarded_lines marks text) }
    ensures kept { (marks : List Mark) (text : List ℕ) →
        map (λ (m : Flagged). m.bytes) (source_lines (guarded_lines marks text)) ≡ lines_of text }
    ensures flagged { (marks : List Mark) (text : List ℕ) →
        source_lines (guarded_lines marks text) ≡ flagged_lines (plain text) }
{}

/// Read with `--cut` or without it, a line of what is printed is left alone just if it was added, or is left alone in the source, read in the
/// same way, or is guarded. Without `--cut` that is `is_left_alone` of each line.
pub fn guarded_law()
    ensures flags { (marks : List Mark) (text : List ℕ) (cut : Bool) →
        flagged_lines (record { cut = cut; text = guarded marks text }) ≡ guarded_flags cut marks text }
    ensures plainly { (marks : List Mark) (text : List ℕ) →
        flagged_lines (plain (guarded marks text)) ≡ map flag_of (guarded_lines marks text) }
{}

/// A line of what is printed that is left alone without `--cut` is of no block, with `--cut` or without it: so `order` copies it, without
/// the carriage returns at its end.
pub fn guard_kept_law()
    ensures { (marks : List Mark) (text : List ℕ) (cut : Bool) (k : ℕ) (written : GuardedLine) →
        slice_get (guarded_lines marks text) k ≡ Some written → is_left_alone written ≡ true → (line : Line) ×
        (slice_get (classed_lines (record { cut = cut; text = guarded marks text })) k ≡ Some line) ×
        (line.bytes ≡ guarded_bytes written) ×
        (owner (classed_lines (record { cut = cut; text = guarded marks text })) line ≡ 0) ×
        ((texts : List (Option (List ℕ))) → line_text (begins (classed_lines (record { cut = cut; text = guarded marks text })) line)
        (text_for texts (owner (classed_lines (record { cut = cut; text = guarded marks text })) line)) line ≡ copied_line line) }
{}

/// Small sources. Regions with two reasons, with one, and with none, of which the last is at the end; one that a switch ON parts; one that
/// ends where switches of the source begin; and no region. A reason is one line, without blanks at its end and no longer than it may be. A
/// region and a definition, read with `--cut` and without it.
pub fn guarded_examples()
    ensures regions { guarded (record { is_harmed = true; reasons = codes "COUNTS WORDS NZ X1,*-1" ∷ codes "ROW OF NO" ∷ [] } ∷ record { is_harmed = true; reasons = [] } ∷ unmarked ∷ record { is_harmed = true; reasons = codes "LOADS CODE SA2 PLUG" ∷ [] } ∷ unmarked ∷ record { is_harmed = true; reasons = [] } ∷ []) (codes "  SX1 B1\n  SX2 B2\n  EQ X\nPLUG SX7 0\n  EQ Y\n  SX6 B1") ≡
        codes "*S66 OFF GUARD COUNTS WORDS NZ X1,*-1\n" ++
        codes "*S66 OFF GUARD ROW OF NO\n" ++
        codes "  SX1 B1\n" ++
        codes "  SX2 B2\n" ++
        codes "*S66 ON GUARD\n" ++
        codes "  EQ X\n" ++
        codes "*S66 OFF GUARD LOADS CODE SA2 PLUG\n" ++
        codes "PLUG SX7 0\n" ++
        codes "*S66 ON GUARD\n" ++
        codes "  EQ Y\n" ++
        codes "*S66 OFF GUARD\n" ++
        codes "  SX6 B1\n" ++
        codes "*S66 ON GUARD\n" }
    ensures parted { guarded (replicate 3 (record { is_harmed = true; reasons = codes "ROW OF NO" ∷ [] })) (codes "  SX1 B1\n*S66 ON\r\n  SX2 B2\n") ≡
        codes "*S66 OFF GUARD ROW OF NO\n" ++
        codes "  SX1 B1\n" ++
        codes "*S66 ON GUARD\n" ++
        codes "*S66 ON\r\n" ++
        codes "*S66 OFF GUARD ROW OF NO\n" ++
        codes "  SX2 B2\n" ++
        codes "*S66 ON GUARD\n" }
    ensures switches { guarded (replicate 4 (record { is_harmed = true; reasons = [] })) (codes "  SX1 B1\n*S66 OFF\n  SX2 B2\n*S66 ON\n") ≡
        codes "*S66 OFF GUARD\n" ++
        codes "  SX1 B1\n" ++
        codes "*S66 ON GUARD\n" ++
        codes "*S66 OFF\n" ++
        codes "  SX2 B2\n" ++
        codes "*S66 ON\n" }
    ensures none { guarded [] (codes "  SX1 B1\n  SX2 B2") ≡ codes "  SX1 B1\n  SX2 B2\n" }
    ensures reason { guarded_bytes (Begins (codes "ROW OF NO  \n*S66 ON")) ≡ codes "*S66 OFF GUARD ROW OF NO" }
    ensures cut { guarded_bytes (Begins (codes "TAKES CODE SX1 " ++ replicate 41 65 ++ codes " BC")) ≡
        codes "*S66 OFF GUARD TAKES CODE SX1 " ++ replicate 41 65 }
    ensures few { length (guarded_bytes (Begins (replicate 99 65))) ≡ 72 }
    ensures cut_flags { map (λ (m : Flagged). m.alone) (guarded_flags true (record { is_harmed = true; reasons = [] } ∷ []) (codes "  SX1 B1\nM MACRO\n  SX2 B2\nM ENDM\n  SX6 B1")) ≡
        true ∷ true ∷ true ∷ false ∷ true ∷ true ∷ false ∷ [] }
    ensures plain_flags { map (λ (m : Flagged). m.alone) (guarded_flags false (record { is_harmed = true; reasons = [] } ∷ []) (codes "  SX1 B1\nM MACRO\n  SX2 B2\nM ENDM\n  SX6 B1")) ≡
        true ∷ true ∷ true ∷ false ∷ false ∷ false ∷ false ∷ [] }
{}
