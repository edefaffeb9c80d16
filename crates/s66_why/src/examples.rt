//! Worked examples: what the definitions draw and write of small orders under the standard profile. Each clause is a chart or a text,
//! and the functions do nothing.

ghost use Rattle.std.specs.Prelude.{[], ◌∷◌, ◌≡◌, ◌++◌, false, true, codes};
ghost use Rattle.s66_isa.specs.{instr};
ghost use Rattle.s66_model.specs.{standard_problem, first_order, one_load, latest_writer, loads_then_store, third_order, two_readers, held_load, packing_gap, three_multiplies};
ghost use Rattle.s66_line.specs.{Block as BlockOf};
ghost use Rattle.s66_why.specs.{chart_text, one_load_lines, packing_gap_lines, hazards, hazards_text, units_chart, text_chart, why_text};

/// Each block in the order in which it is written: an instruction that waits for a load; a `NO`, also after an instruction of two
/// parcels; a result that waits for readers and holds its unit; a loaded one that waits and holds no unit; and an instruction
/// that writes only B0.
#[tactic(auto, unfolding(s66_isa::specs::Table::row, s66_model::specs::Timing::issue_of, s66_model::specs::Timing::start_of, s66_model::specs::Timing::point, crate::specs::Chart::digits))]
pub fn chart_examples()
    ensures one_load { chart_text (record { problem = standard_problem one_load; numbers = 1 ∷ 2 ∷ 3 ∷ [] }) ≡
        codes "  1 I=======........\n" ++
        codes "  2 .IWWWWWW===.....\n" ++
        codes "  3 ............I==.\n" }
    ensures packing_gap { chart_text (record { problem = standard_problem packing_gap; numbers = 1 ∷ 2 ∷ 3 ∷ 4 ∷ [] }) ≡
        codes "  1 I==.........\n" ++
        codes "  2 .I==........\n" ++
        codes "  3 ..I==.......\n" ++
        codes " NO ...I........\n" ++
        codes "  4 ....I=======\n" }
    ensures gap_after_two_parcels { chart_text (record { problem = standard_problem (instr 0o10 7 2 0 ∷ instr 0o50 1 1 0 ∷ instr 0o50 2 2 0 ∷ []); numbers = 1 ∷ 2 ∷ 3 ∷ [] }) ≡
        codes "  1 I==.........\n" ++
        codes "  2 .I=======...\n" ++
        codes " NO ...I........\n" ++
        codes "  3 ....I=======\n" }
    ensures third_order { chart_text (record { problem = standard_problem third_order; numbers = 1 ∷ 2 ∷ 3 ∷ [] }) ≡
        codes "  1 I============================....\n" ++
        codes "  2 .IWWWWWWWWWWWWWWWWWWWWWWWWWWW===.\n" ++
        codes "  3 ..I==HHHHHHHHHHHHHHHHHHHHHHHHH...\n" }
    ensures held_load { chart_text (record { problem = standard_problem held_load; numbers = 1 ∷ 2 ∷ 3 ∷ [] }) ≡
        codes "  1 I============================....\n" ++
        codes "  2 .IWWWWWWWWWWWWWWWWWWWWWWWWWWW===.\n" ++
        codes "  3 ..I=======HHHHHHHHHHHHHHHHHHHH...\n" }
    ensures only_b0 { chart_text (record { problem = standard_problem (instr 0o61 0 0 0 ∷ []); numbers = 1 ∷ [] }) ≡
        codes "  1 I==.\n" }
{}

/// A block of five parcels with its texts: in upper case and without the remark, as wide as the widest; and a ruler to its end.
#[tactic(auto, unfolding(s66_isa::specs::Table::row, s66_model::specs::Timing::issue_of, s66_model::specs::Timing::start_of, s66_model::specs::Timing::point, crate::specs::Chart::digits))]
pub fn text_chart_example()
    ensures { text_chart packing_gap_lines (record { problem = standard_problem packing_gap; numbers = 1 ∷ 2 ∷ 3 ∷ 4 ∷ [] }) ≡
        codes "               0         10\n" ++
        codes "BX7 X2       1 I==.........\n" ++
        codes "LX3 1        2 .I==........\n" ++
        codes "IX4 X5+X6    3 ..I==.......\n" ++
        codes "            NO ...I........\n" ++
        codes "SA1 A1+100   4 ....I=======\n" }
{}

/// A block whose texts are shorter than the names of units: a unit that is taken again when it is free, while a register that is loaded
/// is reserved for longer than its unit.
#[tactic(auto, unfolding(s66_isa::specs::Table::row, s66_model::specs::Timing::issue_of, s66_model::specs::Timing::start_of, s66_model::specs::Timing::point, crate::specs::Chart::digits))]
pub fn units_chart_example()
    ensures { units_chart one_load_lines (record { problem = standard_problem one_load; numbers = 1 ∷ 2 ∷ 3 ∷ [] }) ≡
        codes "                  0         10\n" ++
        codes "SA1 A1+B1       1 I=======........\n" ++
        codes "BX6 X1          2 .IWWWWWW===.....\n" ++
        codes "BX7 X2          3 ............I==.\n" ++
        codes "BOOLEAN   1       .2----------3---\n" ++
        codes "INCREMENT 1       1---............\n" ++
        codes "A1                1--.............\n" ++
        codes "X1                1-------........\n" ++
        codes "X6                .2---------.....\n" ++
        codes "X7                ............3--.\n" }
{}

/// Hazards of each kind in one register, `FX1 X1*X2` and `FX1 X1+X3`; in memory, `SA6 A6+B1` and `SA1 A2+B2`; and none, of two loads.
#[tactic(auto, unfolding(crate::specs::Why::digits))]
pub fn hazard_examples()
    ensures registers { hazards_text (hazards (instr 0o40 1 1 2) (instr 0o30 1 1 3)) ≡ codes "X1 RAW, X1 WAR, X1 WAW" }
    ensures memory { hazards_text (hazards (instr 0o54 6 6 1) (instr 0o54 1 2 2)) ≡ codes "MEMORY RAW" }
    ensures none { hazards_text (hazards (instr 0o54 1 3 1) (instr 0o54 2 4 2)) ≡ [] }
{}

/// Each cause: a unit, a result that is written or read, memory, and a reader of a register, also of one that is loaded; an order
/// that isn't the source's; a `NO` alone, which is no line; and an instruction that writes only B0.
#[tactic(auto, unfolding(s66_isa::specs::Table::row, s66_model::specs::Timing::issue_of, s66_model::specs::Timing::start_of, s66_model::specs::Timing::point, crate::specs::Why::digits))]
pub fn cause_examples()
    ensures unit { (block : BlockOf) → why_text false block (record { problem = standard_problem (instr 0o30 1 2 3 ∷ instr 0o30 4 5 6 ∷ instr 0o10 7 0 0 ∷ []); numbers = 1 ∷ 2 ∷ 3 ∷ [] }) ≡
        codes "  2 FIRST 1 TO 5 UNIT ADD BY 1\n" ++
        codes "PATH 1 2\n" ++
        codes "STEPS 5 5 TIME 10\n" ++
        codes "LOST FIRST 4 SECOND 0 THIRD 0\n" }
    ensures first_order { (block : BlockOf) → why_text false block (record { problem = standard_problem first_order; numbers = 1 ∷ 2 ∷ [] }) ≡
        codes "  2 FIRST 1 TO 10 REGISTER X1 BY 1\n" ++
        codes "PATH 1 2\n" ++
        codes "STEPS 10 4 TIME 14\n" ++
        codes "LOST FIRST 9 SECOND 0 THIRD 0\n" }
    ensures one_load { (block : BlockOf) → why_text false block (record { problem = standard_problem one_load; numbers = 1 ∷ 2 ∷ 3 ∷ [] }) ≡
        codes "  2 SECOND 1 TO 8 REGISTER X1 BY 1\n" ++
        codes "  3 FIRST 2 TO 12 UNIT BOOLEAN BY 2\n" ++
        codes "PATH 1 2 3\n" ++
        codes "STEPS 8 4 4 TIME 16\n" ++
        codes "LOST FIRST 10 SECOND 7 THIRD 0\n" }
    ensures latest_writer { (block : BlockOf) → why_text false block (record { problem = standard_problem latest_writer; numbers = 1 ∷ 2 ∷ 3 ∷ 4 ∷ [] }) ≡
        codes "  2 FIRST 1 TO 3 REGISTER X1 BY 1\n" ++
        codes "  3 SECOND 4 TO 13 REGISTER X1 BY 2\n" ++
        codes "  4 FIRST 5 TO 13 REGISTER X1 BY 2\n" ++
        codes "PATH 1 2 3\n" ++
        codes "STEPS 3 10 4 TIME 17\n" ++
        codes "LOST FIRST 10 SECOND 9 THIRD 0\n" }
    ensures loads_then_store { (block : BlockOf) → why_text false block (record { problem = standard_problem loads_then_store; numbers = 1 ∷ 2 ∷ 3 ∷ 4 ∷ [] }) ≡
        codes "  2 SECOND 1 TO 29 REGISTER X1 BY 1\n" ++
        codes "  4 FIRST 3 TO 6 UNIT INCREMENT BY 3\n" ++
        codes "  4 SECOND 6 TO 30 MEMORY BY 2\n" ++
        codes "PATH 1 2\n" ++
        codes "STEPS 29 8 TIME 37\n" ++
        codes "LOST FIRST 3 SECOND 52 THIRD 0\n" }
    ensures two_readers { (block : BlockOf) → why_text false block (record { problem = standard_problem two_readers; numbers = 1 ∷ 2 ∷ 3 ∷ 4 ∷ [] }) ≡
        codes "  2 SECOND 1 TO 29 REGISTER X1 BY 1\n" ++
        codes "  4 THIRD 6 TO 30 REGISTER X5 BY 2\n" ++
        codes "PATH 1 2\n" ++
        codes "STEPS 29 4 TIME 33\n" ++
        codes "LOST FIRST 0 SECOND 28 THIRD 24\n" }
    ensures held_load { (block : BlockOf) → why_text false block (record { problem = standard_problem held_load; numbers = 1 ∷ 2 ∷ 3 ∷ [] }) ≡
        codes "  2 SECOND 1 TO 29 REGISTER X2 BY 1\n" ++
        codes "  3 THIRD 10 TO 30 REGISTER X1 BY 2\n" ++
        codes "PATH 1 2\n" ++
        codes "STEPS 29 4 TIME 33\n" ++
        codes "LOST FIRST 0 SECOND 28 THIRD 20\n" }
    ensures three_multiplies { (block : BlockOf) → why_text false block (record { problem = standard_problem three_multiplies; numbers = 3 ∷ 1 ∷ 2 ∷ [] }) ≡
        codes "  2 FIRST 2 TO 11 UNIT MULTIPLY BY 3\n" ++
        codes "PATH 3 2\n" ++
        codes "STEPS 11 11 TIME 22\n" ++
        codes "LOST FIRST 9 SECOND 0 THIRD 0\n" }
    ensures packing_gap { (block : BlockOf) → why_text false block (record { problem = standard_problem packing_gap; numbers = 1 ∷ 2 ∷ 3 ∷ 4 ∷ [] }) ≡
        codes "PATH 4\n" ++
        codes "STEPS 12 TIME 12\n" ++
        codes "LOST FIRST 0 SECOND 0 THIRD 0\n" }
    ensures only_b0 { (block : BlockOf) → why_text false block (record { problem = standard_problem (instr 0o61 0 0 0 ∷ []); numbers = 1 ∷ [] }) ≡
        codes "PATH 1\n" ++
        codes "STEPS 4 TIME 4\n" ++
        codes "LOST FIRST 0 SECOND 0 THIRD 0\n" }
{}

/// Causes that end in the same minor cycle: a result before a unit, the lower number of two operands, a result before memory, the
/// lower number of two readers, and of two units, after a `NO`; and a unit that is taken by a result that is held.
#[tactic(auto, unfolding(s66_isa::specs::Table::row, s66_model::specs::Timing::issue_of, s66_model::specs::Timing::start_of, s66_model::specs::Timing::point, crate::specs::Why::digits))]
pub fn equal_cause_examples()
    ensures result_before_unit { (block : BlockOf) → why_text false block (record { problem = standard_problem (instr 0o30 1 2 3 ∷ instr 0o20 6 0 3 ∷ instr 0o10 4 5 0 ∷ instr 0o30 4 2 3 ∷ []); numbers = 1 ∷ 2 ∷ 3 ∷ 4 ∷ [] }) ≡
        codes "  4 FIRST 3 TO 5 REGISTER X4 BY 3\n" ++
        codes "PATH 3 4\n" ++
        codes "STEPS 5 5 TIME 10\n" ++
        codes "LOST FIRST 2 SECOND 0 THIRD 0\n" }
    ensures two_operands { (block : BlockOf) → why_text false block (record { problem = standard_problem (instr 0o30 1 2 3 ∷ instr 0o10 4 5 0 ∷ instr 0o36 6 4 1 ∷ []); numbers = 1 ∷ 2 ∷ 3 ∷ [] }) ≡
        codes "  3 SECOND 2 TO 4 REGISTER X1 BY 1\n" ++
        codes "PATH 1 3\n" ++
        codes "STEPS 4 4 TIME 8\n" ++
        codes "LOST FIRST 0 SECOND 2 THIRD 0\n" }
    ensures result_before_memory { (block : BlockOf) → why_text false block (record { problem = standard_problem (instr 0o30 6 5 0 ∷ instr 0o54 6 6 1 ∷ instr 0o36 2 1 0 ∷ instr 0o53 3 2 1 ∷ []); numbers = 1 ∷ 2 ∷ 3 ∷ 4 ∷ [] }) ≡
        codes "  2 SECOND 1 TO 4 REGISTER X6 BY 1\n" ++
        codes "  4 SECOND 3 TO 5 REGISTER X2 BY 3\n" ++
        codes "PATH 3 4\n" ++
        codes "STEPS 5 8 TIME 13\n" ++
        codes "LOST FIRST 0 SECOND 5 THIRD 0\n" }
    ensures readers { (block : BlockOf) → why_text false block (record { problem = standard_problem (instr 0o44 1 2 3 ∷ instr 0o11 4 1 5 ∷ instr 0o36 6 1 5 ∷ instr 0o76 5 1 0 ∷ []); numbers = 1 ∷ 2 ∷ 3 ∷ 4 ∷ [] }) ≡
        codes "  2 SECOND 1 TO 29 REGISTER X1 BY 1\n" ++
        codes "  3 SECOND 2 TO 29 REGISTER X1 BY 1\n" ++
        codes "  4 THIRD 6 TO 30 REGISTER X5 BY 2\n" ++
        codes "PATH 1 2\n" ++
        codes "STEPS 29 4 TIME 33\n" ++
        codes "LOST FIRST 0 SECOND 55 THIRD 24\n" }
    ensures units { (block : BlockOf) → why_text false block (record { problem = standard_problem (instr 0o40 1 2 3 ∷ instr 0o53 2 1 1 ∷ instr 0o63 3 1 2 ∷ instr 0o50 4 4 0 ∷ []); numbers = 1 ∷ 2 ∷ 3 ∷ 4 ∷ [] }) ≡
        codes "  2 SECOND 1 TO 10 REGISTER X1 BY 1\n" ++
        codes "  3 SECOND 2 TO 10 REGISTER X1 BY 1\n" ++
        codes "  4 FIRST 4 TO 14 UNIT INCREMENT BY 2\n" ++
        codes "PATH 1 2 4\n" ++
        codes "STEPS 10 4 8 TIME 22\n" ++
        codes "LOST FIRST 10 SECOND 17 THIRD 0\n" }
    ensures held_unit { (block : BlockOf) → why_text false block (record { problem = standard_problem (instr 0o44 1 2 3 ∷ instr 0o11 4 1 5 ∷ instr 0o30 5 6 7 ∷ instr 0o30 0 6 7 ∷ []); numbers = 1 ∷ 2 ∷ 3 ∷ 4 ∷ [] }) ≡
        codes "  2 SECOND 1 TO 29 REGISTER X1 BY 1\n" ++
        codes "  3 THIRD 6 TO 30 REGISTER X5 BY 2\n" ++
        codes "  4 FIRST 3 TO 31 UNIT ADD BY 3\n" ++
        codes "PATH 1 2 3 4\n" ++
        codes "STEPS 29 1 1 5 TIME 36\n" ++
        codes "LOST FIRST 28 SECOND 28 THIRD 24\n" }
{}

/// A linear interpolation, whose path goes on in line: the eighth instruction issues in its slot, and so waits for what the
/// seventh waited for. It is
///
/// `SA1 B2`, `SA2 B3`, `SA3 A2+B1`, `FX0 X1-X2`, `NX0 X0`, `SA4 A3+B1`, `FX0 X0*X4`, `SA5 B5`, `FX7 X5-X3`, `NX7 X7`, `FX7 X7*X0`,
/// `FX6 X3+X7`, `NX6 X6` and `SA6 B4`.
#[tactic(auto, unfolding(s66_isa::specs::Table::row, s66_model::specs::Timing::issue_of, s66_model::specs::Timing::start_of, s66_model::specs::Timing::point, crate::specs::Why::digits))]
pub fn path_example()
    ensures { (block : BlockOf) → why_text false block (record { problem = standard_problem (instr 0o56 1 2 0 ∷ instr 0o56 2 3 0 ∷ instr 0o54 3 2 1 ∷ instr 0o31 0 1 2 ∷ instr 0o24 0 0 0 ∷ instr 0o54 4 3 1 ∷ instr 0o40 0 0 4 ∷ instr 0o56 5 5 0 ∷ instr 0o31 7 5 3 ∷ instr 0o24 7 0 7 ∷ instr 0o40 7 7 0 ∷ instr 0o30 6 3 7 ∷ instr 0o24 6 0 6 ∷ instr 0o56 6 4 0 ∷ []); numbers = 1 ∷ 2 ∷ 3 ∷ 4 ∷ 5 ∷ 6 ∷ 7 ∷ 8 ∷ 9 ∷ 10 ∷ 11 ∷ 12 ∷ 13 ∷ 14 ∷ [] }) ≡
        codes "  3 FIRST 2 TO 4 UNIT INCREMENT BY 1\n" ++
        codes "  4 SECOND 5 TO 9 REGISTER X2 BY 2\n" ++
        codes "  5 FIRST 6 TO 13 REGISTER X0 BY 4\n" ++
        codes "  7 FIRST 15 TO 17 REGISTER X0 BY 5\n" ++
        codes "  7 SECOND 17 TO 22 REGISTER X4 BY 6\n" ++
        codes "  9 SECOND 19 TO 26 REGISTER X5 BY 8\n" ++
        codes " 10 FIRST 20 TO 30 REGISTER X7 BY 9\n" ++
        codes " 11 FIRST 31 TO 34 REGISTER X7 BY 10\n" ++
        codes " 12 SECOND 35 TO 44 REGISTER X7 BY 11\n" ++
        codes " 13 FIRST 36 TO 48 REGISTER X6 BY 12\n" ++
        codes " 14 SECOND 49 TO 52 REGISTER X6 BY 13\n" ++
        codes "PATH 2 4 5 7 8 9 10 11 12 13 14\n" ++
        codes "STEPS 9 4 4 0 9 4 4 10 4 4 4 TIME 56\n" ++
        codes "LOST FIRST 36 SECOND 28 THIRD 0\n" }
{}

/// A block with its texts, in upper case and without the remark: after the number in as many places as the widest takes, and at
/// the end of a line; the steps of the path in rows, and the time below what they add.
#[tactic(auto, unfolding(s66_isa::specs::Table::row, s66_model::specs::Timing::issue_of, s66_model::specs::Timing::start_of, s66_model::specs::Timing::point, crate::specs::Why::digits))]
pub fn text_example()
    ensures { why_text true one_load_lines (record { problem = standard_problem one_load; numbers = 1 ∷ 2 ∷ 3 ∷ [] }) ≡
        codes "  2 BX6 X1    SECOND 1 TO 8 REGISTER X1 BY 1 SA1 A1+B1\n" ++
        codes "  3 BX7 X2    FIRST 2 TO 12 UNIT BOOLEAN BY 2 BX6 X1\n" ++
        codes "PATH\n" ++
        codes "  1 SA1 A1+B1    8\n" ++
        codes "  2 BX6 X1       4\n" ++
        codes "  3 BX7 X2       4\n" ++
        codes "TIME            16\n" ++
        codes "LOST FIRST 10 SECOND 7 THIRD 0\n" }
{}
