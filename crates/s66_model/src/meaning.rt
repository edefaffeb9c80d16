//! Laws and examples of the meaning of an order: what it leaves in registers and memory, which is the same for every legal order
//! (`meaning_law`).

ghost use Rattle.std.specs.Prelude.{ℕ, List, ◌≡◌, [], ◌∷◌, true, false, ◌≢◌};
ghost use Rattle.s66_isa.specs.{Instr, instr, a_reg, b_reg, x_reg};
ghost use Rattle.s66_model.specs.{IsLegal, KeepsMeaning, Zero, Initial, Loaded, InitialStorage, Stored, meaning, parts, Differs, no_constants, register_at_end, storage_at_end, first_result};
ghost use Rattle.s66_model.specs.{second_result, a_plus_b};
ghost use Rattle.s66_model.specs.Examples as examples;

/// Every legal order of a block leaves in all registers and in memory what the source order leaves, whatever the texts of
/// the constants.
pub fn meaning_law()
    ensures { (block : List Instr) (order : List ℕ) → IsLegal block order → KeepsMeaning block order }
{}

/// Each part of a dependence is needed: of these pairs the later has one part alone, and exchanged they mean something else.
pub fn needed_law()
    ensures read_alone { parts (instr 0o10 1 2 0) (instr 0o10 3 1 0) ≡ true ∷ false ∷ false ∷ false ∷ [] }
    ensures read { Differs (instr 0o10 1 2 0) (instr 0o10 3 1 0) }
    ensures overwritten_alone { parts (instr 0o10 3 1 0) (instr 0o10 1 2 0) ≡ false ∷ true ∷ false ∷ false ∷ [] }
    ensures overwritten { Differs (instr 0o10 3 1 0) (instr 0o10 1 2 0) }
    ensures written_twice_alone { parts (instr 0o10 1 2 0) (instr 0o43 1 0 0) ≡ false ∷ false ∷ true ∷ false ∷ [] }
    ensures written_twice { Differs (instr 0o10 1 2 0) (instr 0o43 1 0 0) }
    ensures load_after_store_alone { parts (instr 0o54 6 6 1) (instr 0o54 1 2 2) ≡ false ∷ false ∷ false ∷ true ∷ [] }
    ensures load_after_store { Differs (instr 0o54 6 6 1) (instr 0o54 1 2 2) }
    ensures store_after_load_alone { parts (instr 0o54 1 2 2) (instr 0o54 6 6 1) ≡ false ∷ false ∷ false ∷ true ∷ [] }
    ensures store_after_load { Differs (instr 0o54 1 2 2) (instr 0o54 6 6 1) }
    ensures two_stores_alone { parts (instr 0o54 6 6 1) (instr 0o54 7 2 2) ≡ false ∷ false ∷ false ∷ true ∷ [] }
    ensures two_stores { Differs (instr 0o54 6 6 1) (instr 0o54 7 2 2) }
{}

/// What registers and memory hold at the end of an order, as terms over what they held at first.
pub fn meaning_examples()
    ensures one_load_a1 { register_at_end examples.one_load (1 ∷ 2 ∷ 3 ∷ []) (a_reg 1) ≡ a_plus_b 1 1 }
    ensures one_load_x1 { register_at_end examples.one_load (1 ∷ 2 ∷ 3 ∷ []) (x_reg 1) ≡
        Loaded InitialStorage (a_plus_b 1 1) }
    ensures one_load_x6 { register_at_end examples.one_load (1 ∷ 2 ∷ 3 ∷ []) (x_reg 6) ≡
        first_result 0o10 (Loaded InitialStorage (a_plus_b 1 1) ∷ []) }
    ensures one_load_b0 { register_at_end examples.one_load (1 ∷ 2 ∷ 3 ∷ []) (b_reg 0) ≡ Zero }
    ensures one_load_3_1_2 { meaning examples.one_load no_constants (3 ∷ 1 ∷ 2 ∷ []) ≡
        meaning examples.one_load no_constants (1 ∷ 2 ∷ 3 ∷ []) }
    ensures one_load_2_1_3 { register_at_end examples.one_load (2 ∷ 1 ∷ 3 ∷ []) (x_reg 6) ≢
        register_at_end examples.one_load (1 ∷ 2 ∷ 3 ∷ []) (x_reg 6) }
    ensures one_unpack_x1 { register_at_end examples.one_unpack (1 ∷ []) (x_reg 1) ≡
        first_result 0o26 (Initial (x_reg 1) ∷ []) }
    ensures one_unpack_b2 { register_at_end examples.one_unpack (1 ∷ []) (b_reg 2) ≡
        second_result 0o26 (Initial (x_reg 1) ∷ []) }
    ensures one_store { storage_at_end examples.one_store (1 ∷ []) ≡
        Stored InitialStorage (a_plus_b 6 1) (Initial (x_reg 6)) }
    ensures zero_register_x3 { register_at_end examples.zero_register (1 ∷ 2 ∷ 3 ∷ []) (x_reg 3) ≡
        first_result 0o76 (Zero ∷ Zero ∷ []) }
    ensures zero_register_b0 { register_at_end examples.zero_register (1 ∷ 2 ∷ 3 ∷ []) (b_reg 0) ≡ Zero }
{}
