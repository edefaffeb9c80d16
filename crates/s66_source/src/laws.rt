//! Laws and worked examples of reading, of lines that are left alone, of printing, and of reading again what was printed.

ghost use Rattle.std.specs.Prelude.{◌≡◌, ◌≤◌, ℕ, List, Option, ◌∷◌, ◌++◌, Some, None, Ok, Err, ◌≢◌, Bool, true, false, map, length, codes, [], not, replicate, slice_get};
ghost use Rattle.s66_isa.specs.{instr, instr_at, Among, tally, every, Instr, BLOCK_LIMIT};
ghost use Rattle.s66_line.specs.{is_newline, upper, body, from_operation, lines_of, trim, is_trailing, IsTextOf, Spells, Instruction, Block, instrs_of, text_of, constants_in, runs_on, class_of};
ghost use Rattle.s66_line.specs.{is_instruction};
ghost use Rattle.s66_source.specs.{indent, indented_lines, indents, Own, Usual, upper_read, cover_of, Flagged, Reading, flagged_lines, is_directive, is_off_switch, plain, BadOperand, Nothing, Lines};
ghost use Rattle.s66_source.specs.{ToItsEnd, Line, classed_lines, instructions, parts_of, blocks_of, source_of, AreParts, Placed, instruction_lines, label_field, AreComplete, AreGivenAgain, AreGiven};
ghost use Rattle.s66_source.specs.{begins, copied_line, line_text, owner, text_for, printed_in, is_note, is_note_of, is_dropped, is_copied, roles, lines_that, mixed_source, outside_source};
ghost use Rattle.s66_source.specs.declared.columns.Columns.{Columns};

/// Lower case reads as upper case. Texts that differ only in the case of letters have the same blocks but for the case of letters
/// in what is stored of their lines, or the same refusal.
pub fn case_law()
    ensures { (source other : Reading) → source.cut ≡ other.cut → upper source.text ≡ upper other.text →
        upper_read (source_of source) ≡ upper_read (source_of other) }
{}

/// The blocks of a source are its instruction lines, cut into runs, and these into blocks of `BLOCK_LIMIT` lines and what is left.
pub fn parts_law()
    ensures { (source : Reading) → AreParts (classed_lines source) (parts_of (instructions (classed_lines source))) }
{}

/// Each block of an accepted source has 1 to `BLOCK_LIMIT` instructions, each of which its text spells.
pub fn spelled_law()
    ensures some { (source : Reading) (blocks : List Block) (block : Block) → source_of source ≡ Ok blocks →
        Among block blocks → 1 ≤ length (instrs_of block) }
    ensures few { (source : Reading) (blocks : List Block) (block : Block) → source_of source ≡ Ok blocks →
        Among block blocks → length (instrs_of block) ≤ BLOCK_LIMIT }
    ensures spelled { (source : Reading) (blocks : List Block) (block : Block) → source_of source ≡ Ok blocks →
        Among block blocks → (n : ℕ) → 1 ≤ n → n ≤ length (instrs_of block) →
        IsTextOf (text_of block n) (instr_at (instrs_of block) n) }
{}

/// Each line of an accepted source is exactly one of these: an instruction, a note, a `NO` that is left out, or copied. A note is
/// one of exactly one block.
pub fn line_law()
    ensures one { (source : Reading) (blocks : List Block) (line : Line) → source_of source ≡ Ok blocks →
        Among line (classed_lines source) → tally (λ is. is) (roles (classed_lines source) line) ≡ 1 }
    ensures note { (source : Reading) (line : Line) → Among line (classed_lines source) →
        is_note (classed_lines source) line ≡ true → tally (is_note_of line) (blocks_of (classed_lines source)) ≡ 1 }
{}

/// A line that is printed in its place is cut out again at its newline, and is of the same class as before, after code or not.
pub fn copied_law()
    ensures cut { (line text : List ℕ) → every (λ b. not (is_newline b)) line ≡ true →
        lines_of (line ++ codes "\n" ++ text) ≡ line ∷ lines_of text }
    ensures class { (after : Bool) (line : List ℕ) → class_of after (body line) ≡ class_of after line }
{}

/// If a source that was printed in any way is accepted when it is read again, its blocks are those of the source: one that stands is the
/// same, and any other is in its order. It is refused if a line or the source has grown too long.
pub fn read_again_law()
    ensures { (quiet : Bool) (columns : Columns) (source : Reading) (blocks again : List Block)
        (given : List (Option Placed)) → source_of source ≡ Ok blocks → AreGiven blocks given →
        AreComplete blocks given →
        source_of (record { cut = source.cut; text = printed_in quiet columns source given }) ≡ Ok again →
        AreGivenAgain blocks given again }
{}

/// A line that is left alone is of no block: whatever stands in the places of blocks, it is printed as it was read, without the carriage
/// returns at its end.
pub fn alone_law()
    ensures { (source : Reading) (k : ℕ) (m : Flagged) → slice_get (flagged_lines source) k ≡ Some m → m.alone ≡ true →
        (line : Line) × (slice_get (classed_lines source) k ≡ Some line) × (line.bytes ≡ m.bytes) ×
        (owner (classed_lines source) line ≡ 0) × ((texts : List (Option (List ℕ))) →
        line_text (begins (classed_lines source) line) (text_for texts (owner (classed_lines source) line)) line ≡ copied_line line) }
{}

/// An operation in the usual column is printed as without the option. A line whose operation keeps its column is read as the
/// instruction that it spells, unless its operand goes on behind characters with a blank.
pub fn columns_law()
    ensures usual { (all : List Line) (block : Block) (order : List ℕ) →
        ((n : ℕ) → Among n order → (1 ≤ n) × (n ≤ length block.entries)) →
        indented_lines (indents Usual all block) block block.label order ≡ instruction_lines block block.label order }
    ensures class { (after : Bool) (line bytes : List ℕ) (n : Instr) → Spells bytes n → runs_on bytes ≡ false →
        class_of after (replicate (indent Own line) 32 ++ trim is_trailing bytes) ≡ Instruction false n }
    ensures bytes { (line bytes : List ℕ) (n : Instr) → Spells bytes n → runs_on bytes ≡ false →
        from_operation (body (replicate (indent Own line) 32 ++ trim is_trailing bytes)) ≡ trim is_trailing bytes }
{}

/// With `--cut` no operand is refused.
pub fn cut_law()
    ensures { (text : List ℕ) (line : ℕ) → source_of (record { cut = true; text = text }) ≢ Err (BadOperand line) }
{}

/// Without `--cut`, no line of a source that has no switch `OFF` is left alone.
pub fn plain_law()
    ensures { (text : List ℕ) → every (λ line. not (is_off_switch (body line))) (lines_of text) ≡ true →
        every (λ (line : Flagged). not line.alone) (flagged_lines (plain text)) ≡ true }
{}

/// What becomes of the lines of a small source, and of comments and a `NO` outside of blocks.
pub fn line_examples()
    ensures instructions { lines_that (λ lines line. is_instruction line.class) (plain mixed_source) ≡ 2 ∷ 5 ∷ 6 ∷ 8 ∷
        [] }
    ensures notes { lines_that is_note (plain mixed_source) ≡ 4 ∷ [] }
    ensures dropped { lines_that is_dropped (plain mixed_source) ≡ 3 ∷ [] }
    ensures copied { lines_that is_copied (plain mixed_source) ≡ 1 ∷ 7 ∷ 9 ∷ [] }
    ensures dropped_outside { lines_that is_dropped (plain outside_source) ≡ 4 ∷ 7 ∷ [] }
    ensures copied_outside { lines_that is_copied (plain outside_source) ≡ 1 ∷ 2 ∷ 3 ∷ 5 ∷ 8 ∷ [] }
{}

/// What operations cover, by the text from their operands on.
pub fn count_examples()
    ensures alone { map (λ name. cover_of name (codes "1"))
        (codes "SKIP" ∷ codes "ELSE" ∷ codes "IFCP" ∷ codes "IFCP6" ∷ codes "IFCP7" ∷ codes "IFPP" ∷ codes "IFPP6" ∷
        codes "IFPP7" ∷ []) ≡ replicate 8 (Lines 1) }
    ensures after_one { map (λ name. cover_of name (codes "N,1")) (codes "DUP" ∷ codes "IFPL" ∷ codes "IFMI" ∷ []) ≡
        replicate 3 (Lines 1) }
    ensures after_two { map (λ name. cover_of name (codes "A,B,1"))
        (codes "IF" ∷ codes "IFEQ" ∷ codes "IFNE" ∷ codes "IFGT" ∷ codes "IFGE" ∷ codes "IFLT" ∷ codes "IFLE" ∷ []) ≡
        replicate 7 (Lines 1) }
    ensures dup { map (cover_of (codes "DUP")) (codes "3,2" ∷ codes "N" ∷ codes "N,0" ∷ []) ≡ Lines 2 ∷ Nothing ∷
        Nothing ∷ [] }
    ensures echo { map (cover_of (codes "ECHO")) (codes "2,P=(A,B)" ∷ codes ",P=(A,B)" ∷ []) ≡ Lines 2 ∷ Nothing ∷ [] }
    ensures compared { map (cover_of (codes "IFEQ")) (codes "A,B,2" ∷ codes "A,1" ∷ codes "A,B,N" ∷ []) ≡ Lines 2 ∷
        Nothing ∷ ToItsEnd ∷ [] }
    ensures attribute { cover_of (codes "IF") (codes "DEF,A,4") ≡ Lines 4 }
    ensures strings { map (cover_of (codes "IFC")) (codes "EQ,/A,B/C/,3" ∷ codes "EQ,/A/B/" ∷ codes "EQ,AB" ∷ []) ≡
        Lines 3 ∷ Nothing ∷ ToItsEnd ∷ [] }
    ensures blanks { map (cover_of (codes "IFC")) (codes "EQ,* *A*,1" ∷ codes "EQ,*A B* *,0" ∷ codes "EQ,*A*B* ,1" ∷
        codes "EQ,*A B*C,1" ∷ codes "EQ, *A*B*,1" ∷ codes "EQ *,A*B*" ∷ []) ≡ Lines 1 ∷ Nothing ∷ Nothing ∷ ToItsEnd ∷
        ToItsEnd ∷ ToItsEnd ∷ [] }
    ensures positive { cover_of (codes "IFPL") (codes "N") ≡ Nothing }
    ensures negative { cover_of (codes "IFMI") (codes "N,10") ≡ Lines 10 }
    ensures otherwise { cover_of (codes "ELSE") (codes "2") ≡ Lines 2 }
    ensures skip { map (cover_of (codes "SKIP")) (codes "99999999999999999999" ∷ codes "0" ∷ []) ≡ Lines 20000 ∷
        Nothing ∷ [] }
    ensures no_number { map (cover_of (codes "SKIP")) (codes "1,2" ∷ codes "1  REMARK" ∷ []) ≡ ToItsEnd ∷ Lines 1 ∷ [] }
    ensures other { cover_of (codes "VFD") (codes "60/0") ≡ Nothing }
{}

/// Which lines of small sources are left alone: by switches, of which the last is to the end if no switch ends it; and with `--cut` in
/// definitions, one in the other, under counts, of which a comment is none and each has its own end, in repetitions by `ECHO`,
/// directives, lines with an operand that is not taken or not seen, uses of what the source redefines, and what is continued, behind comments
/// too. An operand in column 30 or later is a remark.
pub fn left_alone_examples()
    ensures switches { map (λ (m : Flagged). m.alone)
        (flagged_lines (plain (codes "*S66 OFF  BY HAND\n  BX6 X1\n*s66 on\n  BX6 X1\n"))) ≡ true ∷ true ∷ true ∷
        false ∷ [] }
    ensures switches_cut { map (λ (m : Flagged). m.alone)
        (flagged_lines (record { cut = true; text = codes "*S66 OFF  BY HAND\n  BX6 X1\n*s66 on\n  BX6 X1\n" })) ≡
        true ∷ true ∷ true ∷ false ∷ [] }
    ensures to_the_end { map (λ (m : Flagged). m.alone)
        (flagged_lines (plain (codes "  BX6 X1\n*S66 OFF\n  BX6 X1\n  ZR X1,L\n"))) ≡ false ∷ true ∷ true ∷ true ∷ [] }
    ensures no_switch { map (λ (m : Flagged). m.alone)
        (flagged_lines (plain (codes "*S66 OFF\n*S66 ONE\n  BX6 X1\n"))) ≡ true ∷ true ∷ true ∷ [] }
    ensures nested { map (λ (m : Flagged). m.alone)
        (flagged_lines
        (record { cut = true; text = codes "M MACRO A\n  BX6 X1\nN MACRO B\n  ENDM\n  BX6 X1\n  ENDM\n  BX6 X1\n" })) ≡
        false ∷ true ∷ true ∷ true ∷ true ∷ true ∷ false ∷ [] }
    ensures no_end { map (λ (m : Flagged). m.alone)
        (flagged_lines (record { cut = true; text = codes "M MACRO\n  BX6 X1\n  BX6 X1\n" })) ≡ false ∷ true ∷ true ∷
        [] }
    ensures counted { map (λ (m : Flagged). m.alone)
        (flagged_lines (record { cut = true; text = codes "  DUP 2,2\n  BX6 X1\n* NOTE\n  BX6 X1\n  BX6 X1\n" })) ≡
        false ∷ true ∷ true ∷ true ∷ false ∷ [] }
    ensures to_its_end { map (λ (m : Flagged). m.alone)
        (flagged_lines
        (record { cut = true; text = codes "  IFEQ A,B,N\n  BX6 X1\n  SA1 A1\n  ENDIF\n  BX6 X1\n" })) ≡ false ∷
        true ∷ true ∷ true ∷ false ∷ [] }
    ensures counted_around { map (λ (m : Flagged). m.alone)
        (flagged_lines
        (record { cut = true; text = codes "  DUP 2,5\n  IFEQ A,B,N\n  BX0 X1\n  ENDIF\n  SA1 A1\n  BX6 X1\n  BX7 X2\n" })) ≡
        false ∷ true ∷ true ∷ true ∷ true ∷ true ∷ false ∷ [] }
    ensures counted_within { map (λ (m : Flagged). m.alone)
        (flagged_lines
        (record { cut = true; text = codes "  SKIP N\n  IFCP 3\n  ENDIF\n  SA1 A1\n  BX6 X1\n  BX7 X2\n" })) ≡ false ∷
        true ∷ true ∷ true ∷ true ∷ false ∷ [] }
    ensures repeated { map (λ (m : Flagged). m.alone)
        (flagged_lines
        (record { cut = true; text = codes "  ECHO ,R=(B2,B3)\n  DUP 2\n  SX7 R\n  ENDD\n  SB3 B1\n  ENDD\n  SB1 1\n" })) ≡
        false ∷ true ∷ true ∷ true ∷ true ∷ true ∷ false ∷ [] }
    ensures repeated_alike { map (λ (m : Flagged). m.alone)
        (flagged_lines (record { cut = true; text = codes "  DUP 3\n  SX7 B1\n  ENDD\n  ENDD\n  SB1 1\n" })) ≡ false ∷
        false ∷ false ∷ false ∷ false ∷ [] }
    ensures directives { map (λ (m : Flagged). m.alone)
        (flagged_lines
        (record { cut = true; text = codes "*call COMX\n*IF,DEF,A\n*ENDIF\r\n*CALLS X\n*THE NEXT\n* IF A\n*\n" })) ≡
        true ∷ true ∷ true ∷ true ∷ true ∷ false ∷ false ∷ [] }
    ensures directive_forms { map is_directive (codes "*I 83" ∷ codes "*D COMCRDW.41,COMCRDW.43" ∷ codes "*CA COMCX READ A WORD" ∷ codes "*EI" ∷
        codes "*D 90,COMCX.5 OLD CODE GOES" ∷ codes "*PLUGIN COMCX" ∷ codes "*NEXT WORD" ∷ codes "*d,x.1 OLD CODE" ∷ []) ≡ replicate 8 true }
    ensures prose { map is_directive (codes "*I AM THE NEXT" ∷ codes "*THE NEXT WORD" ∷ codes "* I 83" ∷ codes "*/ NOTE" ∷ codes "** A" ∷
        codes "*-A" ∷ codes "*S66 HALLO" ∷ codes "*I83 A B" ∷ codes "*D 8X A B" ∷ codes "*D A.1, B C" ∷ []) ≡ replicate 10 false }
    ensures counting_directive { map (λ (m : Flagged). m.alone)
        (flagged_lines (record { cut = true; text = codes "*IF DEF,TRACE,1\n* NOTE\n  BX6 X1\n  BX7 X1\n*ELSE 1\n  BX6 X1\n*IF DEF,A\n  BX7 X1\n" })) ≡
        true ∷ true ∷ true ∷ false ∷ true ∷ true ∷ true ∷ false ∷ [] }
    ensures directive { map (λ (m : Flagged). m.alone)
        (flagged_lines (record { cut = true; text = codes "  BX6 X1\n*IF DEF,A\n  BX6 X2\n" })) ≡ false ∷ true ∷
        false ∷ [] }
    ensures bad_operand { map (λ (m : Flagged). m.alone)
        (flagged_lines (record { cut = true; text = codes "  BX6 X1\n  BX6 Q1\n" })) ≡ false ∷ true ∷ [] }
    ensures continued { map (λ (m : Flagged). m.alone)
        (flagged_lines (record { cut = true; text = codes "  BX6 X1\n, X2\n  BX6 X3\n" })) ≡ true ∷ true ∷ false ∷ [] }
    ensures continued_behind { map (λ (m : Flagged). m.alone)
        (flagged_lines
        (record { cut = true; text = codes "  SX1 B1\n  BX6 X1\n  BX7 X2\n* C\n\n,  +1\n* C\n  SX3 B1\n" })) ≡ false ∷ false ∷ true ∷ true ∷
        true ∷ true ∷ false ∷ false ∷ [] }
    ensures not_seen { map (λ (m : Flagged). m.alone)
        (flagged_lines
        (record { cut = true; text = codes "  SX6                     B1\n  SX6               B1\n             SX6             B1\n             SX6            B1\n" })) ≡
        true ∷ false ∷ true ∷ false ∷ [] }
    ensures not_seen_behind_label { map (λ (m : Flagged). m.alone)
        (flagged_lines (record { cut = true; text = codes "LABELLED  SX6                B1\nLABELLEDTEN SX6              B1\n" })) ≡ true ∷ false ∷ [] }
    ensures redefined { map (λ (m : Flagged). m.alone)
        (flagged_lines
        (record { cut = true; text = codes "  SX2 B2\n  CX3 X5\n  SB6 60\n  NO\nCXX OPDEF I,K\n  ENDM\nSB6 CPSYN SX6\n  SX3 X5\nno opsyn nil\n" })) ≡
        false ∷ true ∷ true ∷ true ∷ false ∷ true ∷ false ∷ false ∷ false ∷ [] }
    ensures plain_redefined { map (λ (m : Flagged). m.alone)
        (flagged_lines (plain (codes "  CX3 X5\n  SX6                     B1\nCXX OPDEF I,K\n"))) ≡ false ∷ false ∷ false ∷ [] }
    ensures remark { map (λ (m : Flagged). m.alone)
        (flagged_lines (record { cut = true; text = codes "  ELSE                       2 LINES\n  BX6 X1\n" })) ≡
        false ∷ false ∷ [] }
    ensures last_column { map (λ (m : Flagged). m.alone)
        (flagged_lines (record { cut = true; text = codes "  ELSE                      2 LINES\n  BX6 X1\n" })) ≡
        false ∷ true ∷ [] }
    ensures plain_macro { map (λ (m : Flagged). m.alone) (flagged_lines (plain (codes "M MACRO\n  BX6 X1\n  ENDM\n"))) ≡
        false ∷ false ∷ false ∷ [] }
    ensures plain_operand { map (λ (m : Flagged). m.alone)
        (flagged_lines (plain (codes "*IF DEF,A\n  BX6 Q1\n, X2\n"))) ≡ false ∷ false ∷ false ∷ [] }
{}

/// The texts of the constants in the instructions of a block.
pub fn block_examples()
    ensures { map (λ block. map (constants_in block) (1 ∷ 2 ∷ 3 ∷ []))
        (blocks_of (classed_lines (plain (codes "  SA1 A1+n\n  BX6 X1\n  LX6 6\n")))) ≡
        (codes "+N" ∷ [] ∷ codes "6" ∷ []) ∷ [] }
{}

/// Sources printed: one with lines of each sort; one with comments and `NO`s around a block; one with a label on a `NO`; and one
/// with two instructions exchanged, a label in column 2, a tab, carriage returns, and a bound alone.
#[tactic(auto, unfolding(crate::specs::Replaced::digits))]
pub fn printed_examples()
    ensures mixed { printed_in false Usual (plain mixed_source) (Some (record { order = 1 ∷ 2 ∷ []; source = 12; time = 12; bound = 12; splits = None }) ∷ Some (record { order = 1 ∷ []; source = 4; time = 4; bound = 4; splits = None }) ∷ Some (record { order = 1 ∷ []; source = 4; time = 4; bound = 4; splits = None }) ∷ []) ≡
        codes "* TEST\n" ++
        codes "* BLOCK 1 COUNT 2 SOURCE 12 TIME 12 BEST\n" ++
        codes "* NOTE\n" ++
        codes "LOOP      SA1 A1+1     LOAD\n" ++
        codes "          BX6 X1\n" ++
        codes "* BLOCK 2 COUNT 1 SOURCE 4 TIME 4 BEST\n" ++
        codes "+         SA6 A6+B1    STORE\n" ++
        codes "          ZR X1,LOOP\n" ++
        codes "* BLOCK 3 COUNT 1 SOURCE 4 TIME 4 BEST\n" ++
        codes "          BX1 X2\n" ++
        codes "          VFD 60/0\n" }
    ensures outside { printed_in false Usual (plain outside_source) (Some (record { order = 1 ∷ []; source = 4; time = 4; bound = 4; splits = None }) ∷ []) ≡
        codes "* BEFORE\n" ++
        codes "  NO\n" ++
        codes "  ZR X1,L\n" ++
        codes "* BETWEEN\n" ++
        codes "* BLOCK 1 COUNT 1 SOURCE 4 TIME 4 BEST\n" ++
        codes "          BX1 X2\n" ++
        codes "* AFTER\n" }
    ensures label_on_a_pad { printed_in false Usual (plain (codes "LOOP NO  WAIT\n* LOADED\n  BX1 X2\n")) (Some (record { order = 1 ∷ []; source = 4; time = 4; bound = 4; splits = None }) ∷ []) ≡
        codes "* LOADED\n" ++
        codes "* BLOCK 1 COUNT 1 SOURCE 4 TIME 4 BEST\n" ++
        codes "LOOP      BX1 X2\n" }
    ensures exchanged { printed_in false Usual (plain (codes " LP       SA1    A1+B1   NEXT WORD\r\n\tBX6 X2 \r\r\n")) (Some (record { order = 2 ∷ 1 ∷ []; source = 9; time = 8; bound = 7; splits = Some 3 }) ∷ []) ≡
        codes "* BLOCK 1 COUNT 2 SOURCE 9 TIME 8 AT LEAST 7\n" ++
        codes "* SPLITS 3\n" ++
        codes " LP       BX6 X2\n" ++
        codes "          SA1    A1+B1   NEXT WORD\n" }
    ensures long_label { label_field (codes " ABCDEFGHI") ≡ codes " ABCDEFGHI " }
    ensures short_label { label_field (codes "ABCDEFGHI") ≡ codes "ABCDEFGHI " }
{}

/// A source of which some blocks stand, and one without a block. The `NO`s of a block that stands are as they were read.
#[tactic(auto, unfolding(crate::specs::Replaced::digits))]
pub(crate) fn printed_in_examples()
    ensures some { printed_in false Usual (plain mixed_source) (None ∷ Some (record { order = 1 ∷ []; source = 4; time = 4; bound = 4; splits = None }) ∷ []) ≡
        codes "* TEST\n" ++
        codes "LOOP      SA1 A1+1     LOAD\n" ++
        codes "          NO\n" ++
        codes "* NOTE\n" ++
        codes "          BX6 X1\n" ++
        codes "* BLOCK 2 COUNT 1 SOURCE 4 TIME 4 BEST\n" ++
        codes "+         SA6 A6+B1    STORE\n" ++
        codes "          ZR X1,LOOP\n" ++
        codes "          BX1 X2\n" ++
        codes "          VFD 60/0\n" }
    ensures none { printed_in true Own (plain outside_source) [] ≡ outside_source }
{}

/// How many blanks come before an operation that keeps its column: after a label, after a tab alone, far behind a label, and in a line with
/// a long one. And a source printed so, of which one block stands.
pub fn columns_examples()
    ensures label { indent Own (codes "LOOP  SA1 A1") ≡ 6 }
    ensures tab { indent Own (codes "\tBX6 X1") ≡ 2 }
    ensures far { indent Own (codes "LOOP                              BX6 X1\r") ≡ 28 }
    ensures long { indent Own (codes "LABELLEDTEN SX6              B1") ≡ 10 }
    ensures kept { printed_in true Own (plain (codes "LOOP  SA1 A1+B1\n    BX6 X1\n* NOTE\n      BX7 X2     COPY \r\n ZR X1,L\n   BX1 X2\n")) (Some (record { order = 3 ∷ 1 ∷ 2 ∷ []; source = 16; time = 12; bound = 12; splits = None }) ∷ None ∷ []) ≡
        codes "* NOTE\n" ++
        codes "LOOP      BX7 X2     COPY\n" ++
        codes "      SA1 A1+B1\n" ++
        codes "    BX6 X1\n" ++
        codes " ZR X1,L\n" ++
        codes "   BX1 X2\n" }
{}

/// A source printed with the instructions of its first block exchanged, and read again; and one without reports, where operations keep their
/// columns and the second block stands. The label of a `NO` that was left out is that of the block, and the bytes are those of the lines,
/// with their remarks, but for what ends them; those of a block that stands are as they were.
#[tactic(auto, unfolding(crate::specs::Replaced::digits))]
pub fn read_again_examples()
    ensures anew { source_of (plain (printed_in false Usual (plain (codes " LP NO\n  SA1 A1+B1  NEXT\r\n* NOTE\n  bx6 x2 \r\r\n  ZR X1,LP\n\tFX0 X1*X2\n")) (Some (record { order = 2 ∷ 1 ∷ []; source = 9; time = 8; bound = 7; splits = Some 3 }) ∷ Some (record { order = 1 ∷ []; source = 4; time = 4; bound = 4; splits = None }) ∷ []))) ≡
        Ok (record { label = codes " LP"; entries = record { instr = instr 0o10 6 2 0; line = 4; bytes = codes "bx6 x2" } ∷ record { instr = instr 0o54 1 1 1; line = 5; bytes = codes "SA1 A1+B1  NEXT" } ∷ [] }
        ∷ record { label = []; entries = record { instr = instr 0o40 0 1 2; line = 8; bytes = codes "FX0 X1*X2" } ∷ [] } ∷ []) }
    ensures stands { source_of (plain (printed_in true Own (plain (codes "  SA1 A1+B1  NEXT\r\n* NOTE\n  bx6 x2 \r\r\n  ZR X1,LP\n LP NO\n\tFX0 X1*X2 \r\n")) (Some (record { order = 2 ∷ 1 ∷ []; source = 9; time = 8; bound = 7; splits = None }) ∷ None ∷ []))) ≡
        Ok (record { label = []; entries = record { instr = instr 0o10 6 2 0; line = 2; bytes = codes "bx6 x2" } ∷ record { instr = instr 0o54 1 1 1; line = 3; bytes = codes "SA1 A1+B1  NEXT" } ∷ [] }
        ∷ record { label = codes " LP"; entries = record { instr = instr 0o40 0 1 2; line = 6; bytes = codes "FX0 X1*X2 " } ∷ [] } ∷ []) }
{}
