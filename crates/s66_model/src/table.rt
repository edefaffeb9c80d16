//! Laws and examples of the instruction table: what timing sees of each operation, and the standard profile.

ghost use Rattle.std.specs.Prelude.{[], ◌∷◌, ◌≡◌, map, replicate};
ghost use Rattle.s66_isa.specs.{Instr, Kind, Memory, Profile, rising, IsInRange, instr, row, register_latency, writes_of, hold_of, standard, copies_of, all_kinds, a_reg, b_reg, x_reg};
ghost use Rattle.s66_model.specs.{uneven_profile, held_write, loaded_write, table_row};

/// Every instruction under every profile has 1 or 2 parcels, times of 1 to 100, and a unit that holds a result for its whole
/// hold. What timing sees of its results are those of the table.
pub fn row_law()
    ensures good { (p : Profile) (n : Instr) → IsInRange (row p n) }
    ensures writes { (p : Profile) (n : Instr) → map register_latency (row p n).writes ≡ writes_of p n }
{}

/// Rows of the table of instructions: kind of unit, parcels, registers read, results with their latencies, hold, memory.
pub fn table_examples()
    ensures sa1_a1_plus_b1 { row standard (instr 0o54 1 1 1) ≡
        table_row Kind.Increment 1 (a_reg 1 ∷ b_reg 1 ∷ [])
        (held_write (a_reg 1) 3 ∷ loaded_write (x_reg 1) 8 ∷ []) 3 Memory.Load }
    ensures sa6_a6_plus_b1 { row standard (instr 0o54 6 6 1) ≡
        table_row Kind.Increment 1 (a_reg 6 ∷ b_reg 1 ∷ x_reg 6 ∷ []) (held_write (a_reg 6) 3 ∷ []) 3 Memory.Store }
    ensures sa0_a1_plus_b1 { row standard (instr 0o54 0 1 1) ≡
        table_row Kind.Increment 1 (a_reg 1 ∷ b_reg 1 ∷ []) (held_write (a_reg 0) 3 ∷ []) 3 Memory.None }
    ensures sa1_a1_plus_100 { row standard (instr 0o50 1 1 0) ≡
        table_row Kind.Increment 2 (a_reg 1 ∷ [])
        (held_write (a_reg 1) 3 ∷ loaded_write (x_reg 1) 8 ∷ []) 3 Memory.Load }
    ensures sb0_5 { row standard (instr 0o61 0 0 0) ≡ table_row Kind.Increment 2 [] [] 3 Memory.None }
    ensures sb0_b1 { row standard (instr 0o66 0 1 0) ≡ table_row Kind.Increment 1 (b_reg 1 ∷ []) [] 3 Memory.None }
    ensures nx1_b0_x2 { row standard (instr 0o24 1 0 2) ≡
        table_row Kind.Shift 1 (x_reg 2 ∷ []) (held_write (x_reg 1) 4 ∷ []) 4 Memory.None }
    ensures nx1_b2_x3 { row standard (instr 0o24 1 2 3) ≡
        table_row Kind.Shift 1 (x_reg 3 ∷ []) (held_write (x_reg 1) 4 ∷ held_write (b_reg 2) 4 ∷ []) 4 Memory.None }
    ensures ux1_b1_x1 { row standard (instr 0o26 1 1 1) ≡
        table_row Kind.Shift 1 (x_reg 1 ∷ []) (held_write (x_reg 1) 3 ∷ held_write (b_reg 1) 3 ∷ []) 3 Memory.None }
    ensures lx1_b1 { row standard (instr 0o22 1 1 1) ≡
        table_row Kind.Shift 1 (b_reg 1 ∷ x_reg 1 ∷ []) (held_write (x_reg 1) 3 ∷ []) 3 Memory.None }
    ensures lx3_1 { row standard (instr 0o20 3 0 0) ≡
        table_row Kind.Shift 1 (x_reg 3 ∷ []) (held_write (x_reg 3) 3 ∷ []) 3 Memory.None }
    ensures bx1_x2 { row standard (instr 0o10 1 2 0) ≡
        table_row Kind.Boolean 1 (x_reg 2 ∷ []) (held_write (x_reg 1) 3 ∷ []) 3 Memory.None }
    ensures fx5_x6_plus_x7 { row standard (instr 0o30 5 6 7) ≡
        table_row Kind.Add 1 (x_reg 6 ∷ x_reg 7 ∷ []) (held_write (x_reg 5) 4 ∷ []) 4 Memory.None }
    ensures ix4_x5_plus_x6 { row standard (instr 0o36 4 5 6) ≡
        table_row Kind.LongAdd 1 (x_reg 5 ∷ x_reg 6 ∷ []) (held_write (x_reg 4) 3 ∷ []) 3 Memory.None }
    ensures fx0_x7_times_x7 { row standard (instr 0o40 0 7 7) ≡
        table_row Kind.Multiply 1 (x_reg 7 ∷ []) (held_write (x_reg 0) 10 ∷ []) 10 Memory.None }
    ensures fx3_x4_over_x5 { row standard (instr 0o44 3 4 5) ≡
        table_row Kind.Divide 1 (x_reg 4 ∷ x_reg 5 ∷ []) (held_write (x_reg 3) 29 ∷ []) 29 Memory.None }
    ensures sa1_a1_plus_b1_writes { writes_of standard (instr 0o54 1 1 1) ≡ (a_reg 1, 3) ∷ (x_reg 1, 8) ∷ [] }
    ensures nx1_b2_x3_writes { writes_of standard (instr 0o24 1 2 3) ≡ (x_reg 1, 4) ∷ (b_reg 2, 4) ∷ [] }
    ensures sb0_b1_writes { writes_of standard (instr 0o66 0 1 0) ≡ [] }
    ensures code_11 { row standard (instr 0o11 1 2 3) ≡
        table_row Kind.Boolean 1 (x_reg 2 ∷ x_reg 3 ∷ []) (held_write (x_reg 1) 3 ∷ []) 3 Memory.None }
    ensures code_12 { row standard (instr 0o12 1 2 3) ≡
        table_row Kind.Boolean 1 (x_reg 2 ∷ x_reg 3 ∷ []) (held_write (x_reg 1) 3 ∷ []) 3 Memory.None }
    ensures code_13 { row standard (instr 0o13 1 2 3) ≡
        table_row Kind.Boolean 1 (x_reg 2 ∷ x_reg 3 ∷ []) (held_write (x_reg 1) 3 ∷ []) 3 Memory.None }
    ensures code_14 { row standard (instr 0o14 1 0 3) ≡
        table_row Kind.Boolean 1 (x_reg 3 ∷ []) (held_write (x_reg 1) 3 ∷ []) 3 Memory.None }
    ensures code_15 { row standard (instr 0o15 1 2 3) ≡
        table_row Kind.Boolean 1 (x_reg 2 ∷ x_reg 3 ∷ []) (held_write (x_reg 1) 3 ∷ []) 3 Memory.None }
    ensures code_16 { row standard (instr 0o16 1 2 3) ≡
        table_row Kind.Boolean 1 (x_reg 2 ∷ x_reg 3 ∷ []) (held_write (x_reg 1) 3 ∷ []) 3 Memory.None }
    ensures code_17 { row standard (instr 0o17 1 2 3) ≡
        table_row Kind.Boolean 1 (x_reg 2 ∷ x_reg 3 ∷ []) (held_write (x_reg 1) 3 ∷ []) 3 Memory.None }
    ensures code_21 { row standard (instr 0o21 1 0 0) ≡
        table_row Kind.Shift 1 (x_reg 1 ∷ []) (held_write (x_reg 1) 3 ∷ []) 3 Memory.None }
    ensures code_23 { row standard (instr 0o23 1 2 3) ≡
        table_row Kind.Shift 1 (b_reg 2 ∷ x_reg 3 ∷ []) (held_write (x_reg 1) 3 ∷ []) 3 Memory.None }
    ensures code_25 { row standard (instr 0o25 1 2 3) ≡
        table_row Kind.Shift 1 (x_reg 3 ∷ []) (held_write (x_reg 1) 4 ∷ held_write (b_reg 2) 4 ∷ []) 4 Memory.None }
    ensures code_27 { row standard (instr 0o27 1 2 3) ≡
        table_row Kind.Shift 1 (b_reg 2 ∷ x_reg 3 ∷ []) (held_write (x_reg 1) 3 ∷ []) 3 Memory.None }
    ensures code_31 { row standard (instr 0o31 1 2 3) ≡
        table_row Kind.Add 1 (x_reg 2 ∷ x_reg 3 ∷ []) (held_write (x_reg 1) 4 ∷ []) 4 Memory.None }
    ensures code_32 { row standard (instr 0o32 1 2 3) ≡
        table_row Kind.Add 1 (x_reg 2 ∷ x_reg 3 ∷ []) (held_write (x_reg 1) 4 ∷ []) 4 Memory.None }
    ensures code_33 { row standard (instr 0o33 1 2 3) ≡
        table_row Kind.Add 1 (x_reg 2 ∷ x_reg 3 ∷ []) (held_write (x_reg 1) 4 ∷ []) 4 Memory.None }
    ensures code_34 { row standard (instr 0o34 1 2 3) ≡
        table_row Kind.Add 1 (x_reg 2 ∷ x_reg 3 ∷ []) (held_write (x_reg 1) 4 ∷ []) 4 Memory.None }
    ensures code_35 { row standard (instr 0o35 1 2 3) ≡
        table_row Kind.Add 1 (x_reg 2 ∷ x_reg 3 ∷ []) (held_write (x_reg 1) 4 ∷ []) 4 Memory.None }
    ensures code_37 { row standard (instr 0o37 1 2 3) ≡
        table_row Kind.LongAdd 1 (x_reg 2 ∷ x_reg 3 ∷ []) (held_write (x_reg 1) 3 ∷ []) 3 Memory.None }
    ensures code_41 { row standard (instr 0o41 1 2 3) ≡
        table_row Kind.Multiply 1 (x_reg 2 ∷ x_reg 3 ∷ []) (held_write (x_reg 1) 10 ∷ []) 10 Memory.None }
    ensures code_42 { row standard (instr 0o42 1 2 3) ≡
        table_row Kind.Multiply 1 (x_reg 2 ∷ x_reg 3 ∷ []) (held_write (x_reg 1) 10 ∷ []) 10 Memory.None }
    ensures code_43 { row standard (instr 0o43 1 0 0) ≡
        table_row Kind.Shift 1 [] (held_write (x_reg 1) 3 ∷ []) 3 Memory.None }
    ensures code_45 { row standard (instr 0o45 1 2 3) ≡
        table_row Kind.Divide 1 (x_reg 2 ∷ x_reg 3 ∷ []) (held_write (x_reg 1) 29 ∷ []) 29 Memory.None }
    ensures code_51 { row standard (instr 0o51 1 2 0) ≡
        table_row Kind.Increment 2 (b_reg 2 ∷ [])
        (held_write (a_reg 1) 3 ∷ loaded_write (x_reg 1) 8 ∷ []) 3 Memory.Load }
    ensures code_52 { row standard (instr 0o52 1 2 0) ≡
        table_row Kind.Increment 2 (x_reg 2 ∷ [])
        (held_write (a_reg 1) 3 ∷ loaded_write (x_reg 1) 8 ∷ []) 3 Memory.Load }
    ensures code_53 { row standard (instr 0o53 1 2 3) ≡
        table_row Kind.Increment 1 (x_reg 2 ∷ b_reg 3 ∷ [])
        (held_write (a_reg 1) 3 ∷ loaded_write (x_reg 1) 8 ∷ []) 3 Memory.Load }
    ensures code_55 { row standard (instr 0o55 1 2 3) ≡
        table_row Kind.Increment 1 (a_reg 2 ∷ b_reg 3 ∷ [])
        (held_write (a_reg 1) 3 ∷ loaded_write (x_reg 1) 8 ∷ []) 3 Memory.Load }
    ensures code_56 { row standard (instr 0o56 1 2 3) ≡
        table_row Kind.Increment 1 (b_reg 2 ∷ b_reg 3 ∷ [])
        (held_write (a_reg 1) 3 ∷ loaded_write (x_reg 1) 8 ∷ []) 3 Memory.Load }
    ensures code_57 { row standard (instr 0o57 1 2 3) ≡
        table_row Kind.Increment 1 (b_reg 2 ∷ b_reg 3 ∷ [])
        (held_write (a_reg 1) 3 ∷ loaded_write (x_reg 1) 8 ∷ []) 3 Memory.Load }
    ensures code_60 { row standard (instr 0o60 1 2 0) ≡
        table_row Kind.Increment 2 (a_reg 2 ∷ []) (held_write (b_reg 1) 3 ∷ []) 3 Memory.None }
    ensures code_62 { row standard (instr 0o62 1 2 0) ≡
        table_row Kind.Increment 2 (x_reg 2 ∷ []) (held_write (b_reg 1) 3 ∷ []) 3 Memory.None }
    ensures code_63 { row standard (instr 0o63 1 2 3) ≡
        table_row Kind.Increment 1 (x_reg 2 ∷ b_reg 3 ∷ []) (held_write (b_reg 1) 3 ∷ []) 3 Memory.None }
    ensures code_64 { row standard (instr 0o64 1 2 3) ≡
        table_row Kind.Increment 1 (a_reg 2 ∷ b_reg 3 ∷ []) (held_write (b_reg 1) 3 ∷ []) 3 Memory.None }
    ensures code_65 { row standard (instr 0o65 1 2 3) ≡
        table_row Kind.Increment 1 (a_reg 2 ∷ b_reg 3 ∷ []) (held_write (b_reg 1) 3 ∷ []) 3 Memory.None }
    ensures code_67 { row standard (instr 0o67 1 2 3) ≡
        table_row Kind.Increment 1 (b_reg 2 ∷ b_reg 3 ∷ []) (held_write (b_reg 1) 3 ∷ []) 3 Memory.None }
    ensures code_70 { row standard (instr 0o70 1 2 0) ≡
        table_row Kind.Increment 2 (a_reg 2 ∷ []) (held_write (x_reg 1) 3 ∷ []) 3 Memory.None }
    ensures code_71 { row standard (instr 0o71 1 2 0) ≡
        table_row Kind.Increment 2 (b_reg 2 ∷ []) (held_write (x_reg 1) 3 ∷ []) 3 Memory.None }
    ensures code_72 { row standard (instr 0o72 1 2 0) ≡
        table_row Kind.Increment 2 (x_reg 2 ∷ []) (held_write (x_reg 1) 3 ∷ []) 3 Memory.None }
    ensures code_73 { row standard (instr 0o73 1 2 3) ≡
        table_row Kind.Increment 1 (x_reg 2 ∷ b_reg 3 ∷ []) (held_write (x_reg 1) 3 ∷ []) 3 Memory.None }
    ensures code_74 { row standard (instr 0o74 1 2 3) ≡
        table_row Kind.Increment 1 (a_reg 2 ∷ b_reg 3 ∷ []) (held_write (x_reg 1) 3 ∷ []) 3 Memory.None }
    ensures code_75 { row standard (instr 0o75 1 2 3) ≡
        table_row Kind.Increment 1 (a_reg 2 ∷ b_reg 3 ∷ []) (held_write (x_reg 1) 3 ∷ []) 3 Memory.None }
    ensures code_76 { row standard (instr 0o76 1 2 3) ≡
        table_row Kind.Increment 1 (b_reg 2 ∷ b_reg 3 ∷ []) (held_write (x_reg 1) 3 ∷ []) 3 Memory.None }
    ensures code_77 { row standard (instr 0o77 1 2 3) ≡
        table_row Kind.Increment 1 (b_reg 2 ∷ b_reg 3 ∷ []) (held_write (x_reg 1) 3 ∷ []) 3 Memory.None }
    ensures copies { map (copies_of standard) all_kinds ≡ 1 ∷ 1 ∷ 1 ∷ 1 ∷ 2 ∷ 1 ∷ 2 ∷ [] }
    ensures cx1_x2 { row standard (instr 0o47 1 0 2) ≡
        table_row Kind.Divide 1 (x_reg 2 ∷ []) (held_write (x_reg 1) 8 ∷ []) 8 Memory.None }
{}

/// How long units work, when loads come and how many units there are, under a profile in which no two entries are alike.
pub fn profile_examples()
    ensures holds_of_10_to_17 { map (hold_of uneven_profile) (rising 8 0o10) ≡ replicate 8 11 }
    ensures holds_of_20_to_27 { map (hold_of uneven_profile) (rising 8 0o20) ≡ 12 ∷ 12 ∷ 12 ∷ 12 ∷ 13 ∷ 13 ∷ 12 ∷ 12 ∷
        [] }
    ensures holds_of_30_to_37 { map (hold_of uneven_profile) (rising 8 0o30) ≡ 14 ∷ 14 ∷ 14 ∷ 14 ∷ 14 ∷ 14 ∷ 15 ∷ 15 ∷
        [] }
    ensures holds_of_40_to_45 { map (hold_of uneven_profile) (rising 6 0o40) ≡ 16 ∷ 16 ∷ 16 ∷ 12 ∷ 17 ∷ 17 ∷ [] }
    ensures hold_of_47 { hold_of uneven_profile 0o47 ≡ 18 }
    ensures holds_of_50_to_77 { map (hold_of uneven_profile) (rising 24 0o50) ≡ replicate 24 20 }
    ensures load_before_the_unit_is_done { row uneven_profile (instr 0o54 1 1 1) ≡
        table_row Kind.Increment 1 (a_reg 1 ∷ b_reg 1 ∷ [])
        (held_write (a_reg 1) 20 ∷ loaded_write (x_reg 1) 19 ∷ []) 20 Memory.Load }
    ensures writes_of_a_load { writes_of uneven_profile (instr 0o54 1 1 1) ≡ (a_reg 1, 20) ∷ (x_reg 1, 19) ∷ [] }
    ensures copies_of_each_kind { map (copies_of uneven_profile) all_kinds ≡ 1 ∷ 2 ∷ 3 ∷ 4 ∷ 5 ∷ 6 ∷ 7 ∷ [] }
{}
