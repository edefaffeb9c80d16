//! Laws and worked examples of fields, spellings, constants and characters of operands.

ghost use Rattle.std.specs.Prelude.{◌≡◌, ◌≤◌, ℕ, List, ◌∷◌, ◌++◌, Some, Bool, true, false, map, codes, [], not, ◌==◌, replicate, filter};
ghost use Rattle.s66_isa.specs.{Instr, Bank, Among, rising};
ghost use Rattle.s66_line.specs.{characters_in, runs_on, is_blank, upper_byte, upper, body, lines_of, AreLines, HasFields, IsInstruction, register_of, is_constant, constant_of, instr_of, set_form_of};
ghost use Rattle.s66_line.specs.{CanMean, spellings, all_codes};

/// A text is its lines with their newlines, and a line its fields with blanks between, and a remark: nothing is lost.
pub fn whole_law()
    ensures lines { (text : List ℕ) → AreLines text (lines_of text) }
    ensures fields { (line : List ℕ) → HasFields (body line) }
{}

/// Of all bytes only space and tab are blanks, and only the letters from a to z have an upper case.
pub fn byte_examples()
    ensures blanks { filter is_blank (rising 256 0) ≡ 9 ∷ 32 ∷ [] }
    ensures upper_case { upper (codes "abcdefghijklmnopqrstuvwxyz") ≡ codes "ABCDEFGHIJKLMNOPQRSTUVWXYZ" }
    ensures other_bytes { filter (λ b. not (upper_byte b == b)) (rising 256 0) ≡ codes "abcdefghijklmnopqrstuvwxyz" }
{}

/// What is spelled is in the table: the letters of the operation can mean the instruction's code, its digit is i, and i,
/// j and k are 0 to 7.
pub fn operation_law()
    ensures { (operation operand : List ℕ) (n : Instr) → instr_of operation operand ≡ Some n → CanMean operation n }
{}

/// Each of the 55 codes is spelled, with all digits that it has.
pub fn code_law()
    ensures codes { (i j k : ℕ) → map (λ spelling. spelling.2.op.code) (spellings i j k) ≡ all_codes }
    ensures read { (i j k : ℕ) → i ≤ 7 → j ≤ 7 → k ≤ 7 →
        map (λ spelling. instr_of spelling.0 spelling.1) (spellings i j k) ≡
        map (λ spelling. Some spelling.2) (spellings i j k) }
{}

/// The forms of a set instruction are 0 to 7.
pub fn set_form_law()
    ensures { (terms : List (Bool × List ℕ)) (f : ℕ × ℕ × ℕ) → set_form_of terms ≡ Some f → f.0 ≤ 7 }
{}

/// No register is a constant, and nothing is that begins with `A.`, `B.` or `X.`.
pub fn term_law()
    ensures register { (term : List ℕ) (r : Bank × ℕ) → register_of term ≡ Some r → is_constant term ≡ false }
    ensures symbol { (letter : ℕ) (rest : List ℕ) → Among letter (codes "ABX") →
        is_constant (letter ∷ codes "." ++ rest) ≡ false }
{}

/// The texts of constants, by octal code and operand.
pub fn constant_examples()
    ensures in_front { constant_of 0o50 (codes "0+A1") ≡ codes "+0" }
    ensures behind { constant_of 0o50 (codes "A1+0") ≡ codes "+0" }
    ensures several { constant_of 0o50 (codes "A1+2*N-3") ≡ codes "+2*N-3" }
    ensures mask { constant_of 0o43 (codes "2*N") ≡ codes "2*N" }
    ensures right_shift { constant_of 0o21 (codes "N-5") ≡ codes "N-5" }
    ensures shift_count { constant_of 0o20 (codes "-N") ≡ codes "-N" }
    ensures registers { constant_of 0o54 (codes "A1+B1") ≡ [] }
    ensures boolean { constant_of 0o11 (codes "X2*X3") ≡ [] }
{}

/// Characters of operands: which go on behind the operand's blank, by the bytes from the operation on, and where the operand goes on
/// behind these, so that a register would be lost.
pub fn character_examples()
    ensures taken { map characters_in (codes "SA1 =10HREAD ERROR" ∷ codes "SA1 =10HLONGNAM     GET NAME" ∷
        codes "SA2 =C/A B/" ∷ codes "SX4 3R X1" ∷ codes "SX5 3R A  +" ∷ codes "SA1 =10Hread ok" ∷ []) ≡
        codes " ERROR" ∷ [] ∷ codes " B/" ∷ codes " X1" ∷ codes " A" ∷ codes " OK" ∷ [] }
    ensures none { map characters_in (codes "SX3 X1-1R    CHECK" ∷ codes "SX3 0R X" ∷ codes "SX3 N1R X" ∷ codes "SX3 10B X" ∷
        codes "SX3 1RA X" ∷ codes "SX3 =C X/" ∷ codes "NX1" ∷ []) ≡ replicate 7 [] }
    ensures ended { map runs_on (codes "SX3 X1-1R " ∷ codes "SX3 X1-1R    CHECK" ∷ codes "SX5 3R A  +" ∷
        codes "SA1 =10HREAD ERROR" ∷ codes "SA1 =10HLONGNAM     GET NAME" ∷ codes "SA2 =C/A B/" ∷ codes "SX4 3R X1" ∷
        codes "SX4 =C/A/+X1 B/" ∷ []) ≡ replicate 8 false }
    ensures cut { map runs_on (codes "SX3 1R +X1" ∷ codes "SX3 1r +X1" ∷ codes "SA1 =C/A B/+X1" ∷ codes "SA1 =L*A B C" ∷
        codes "SA1 =10H   X1+B1 IS" ∷ codes "SX1 2RAB+1R +X1" ∷ []) ≡ replicate 6 true }
{}

/// Texts of instructions, and texts that are none.
pub fn instruction_examples()
    ensures no_operand { IsInstruction (codes "NX1") }
    ensures both_registers { IsInstruction (codes "NX1 B0,X1") }
    ensures product_of_constants { IsInstruction (codes "SA1 A1+2*N") }
    ensures minus_in_front { IsInstruction (codes "BX1 -X2*X3") }
    ensures plus_in_front { IsInstruction (codes "SA1 +A1") }
    ensures lower_case_operation { ¬ IsInstruction (codes "fx1 X2*X3") }
    ensures lower_case_operand { ¬ IsInstruction (codes "FX1 x2*X3") }
    ensures lower_case_constant { ¬ IsInstruction (codes "SA1 A1+n") }
    ensures pad { ¬ IsInstruction (codes "NO") }
    ensures jump { ¬ IsInstruction (codes "ZR X1,L") }
    ensures empty_text { ¬ IsInstruction [] }
    ensures operand_missing { ¬ IsInstruction (codes "BX1") }
    ensures bad_operand { ¬ IsInstruction (codes "SA1 A1+B1+5") }
    ensures digit_8 { ¬ IsInstruction (codes "BX8 X1") }
    ensures blank_in_front { ¬ IsInstruction (codes " BX1 X2") }
    ensures return_at_the_end { ¬ IsInstruction (codes "BX1 X2" ++ 13 ∷ []) }
    ensures newline_in_a_constant { ¬ IsInstruction (codes "SA1 A1+N" ++ 10 ∷ codes "T") }
    ensures blank_at_the_end { ¬ IsInstruction (codes "NX1 ") }
    ensures blank_after_operand { ¬ IsInstruction (codes "BX1 X2 ") }
    ensures two_blanks { ¬ IsInstruction (codes "BX1  X2") }
    ensures tab { ¬ IsInstruction (codes "BX1" ++ 9 ∷ codes "X2") }
    ensures comment { ¬ IsInstruction (codes "BX1 X2 COPY") }
{}
