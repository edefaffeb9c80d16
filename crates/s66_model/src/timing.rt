//! Laws and examples of timing: when each instruction of an order issues, starts and is done, and what the order takes.

ghost use Rattle.std.specs.Prelude.{ℕ, List, length, ◌*◌, ◌≡◌, ◌≤◌, ◌↔◌, [], ◌∷◌};
ghost use Rattle.s66_isa.specs.{Row, instr};
ghost use Rattle.s66_model.specs.{Problem, Point, IsIssue, issue_of, points_of, total_of, next, source_time, written_in, standard_problem, times_of};
ghost use Rattle.s66_model.specs.Examples as examples;

/// The issue of an instruction is the least time, at least its slot, at which a unit is free and no result is to come.
pub fn issue_law()
    ensures { (b : Problem) (s : List Point) (r : Row) (t : ℕ) → IsIssue b s r t ↔ (t ≡ issue_of b s r) }
{}

/// An order takes at most 104 minor cycles for each of its numbers.
pub fn total_law()
    ensures { (b : Problem) (order : List ℕ) → total_of b order ≤ 104 * length order }
{}

/// A block that is written in an order, whatever the numbers of this are, takes as written what the order takes.
pub fn written_order_law()
    ensures { (b : Problem) (order : List ℕ) → source_time (written_in order b) ≡ total_of b order }
{}

/// When the instructions of an order issue, start and are done, and their units are free.
pub fn timing_examples()
    ensures one_boolean_total { total_of (standard_problem examples.one_boolean) (1 ∷ []) ≡ 4 }
    ensures one_boolean_times { times_of examples.one_boolean (1 ∷ []) ≡ (0, 0, 3, 4) ∷ [] }
    ensures two_booleans_total { total_of (standard_problem examples.two_booleans) (1 ∷ 2 ∷ []) ≡ 8 }
    ensures two_booleans_times { times_of examples.two_booleans (1 ∷ 2 ∷ []) ≡ (0, 0, 3, 4) ∷ (4, 4, 7, 8) ∷ [] }
    ensures one_load_total_1_2_3 { total_of (standard_problem examples.one_load) (1 ∷ 2 ∷ 3 ∷ []) ≡ 16 }
    ensures one_load_total_1_3_2 { total_of (standard_problem examples.one_load) (1 ∷ 3 ∷ 2 ∷ []) ≡ 12 }
    ensures one_load_written_1_3_2 { (written_in (1 ∷ 3 ∷ 2 ∷ []) (standard_problem examples.one_load)).block ≡
        instr 0o54 1 1 1 ∷ instr 0o10 7 2 0 ∷ instr 0o10 6 1 0 ∷ [] }
    ensures one_load_source_1_3_2 { source_time (written_in (1 ∷ 3 ∷ 2 ∷ []) (standard_problem examples.one_load)) ≡
        12 }
    ensures one_load_total_3_1_2 { total_of (standard_problem examples.one_load) (3 ∷ 1 ∷ 2 ∷ []) ≡ 13 }
    ensures one_load_times { times_of examples.one_load (1 ∷ 2 ∷ 3 ∷ []) ≡ (0, 0, 8, 4) ∷ (1, 8, 11, 12) ∷
        (12, 12, 15, 16) ∷ [] }
    ensures one_load_next { next (points_of (standard_problem examples.one_load) (1 ∷ 2 ∷ [])) ≡ 2 }
    ensures three_multiplies_total_1_2_3 { total_of (standard_problem examples.three_multiplies) (1 ∷ 2 ∷ 3 ∷ []) ≡ 22 }
    ensures three_multiplies_total_3_1_2 { total_of (standard_problem examples.three_multiplies) (3 ∷ 1 ∷ 2 ∷ []) ≡ 22 }
    ensures three_multiplies_times { times_of examples.three_multiplies (1 ∷ 2 ∷ 3 ∷ []) ≡ (0, 0, 10, 11) ∷
        (1, 1, 11, 12) ∷ (11, 11, 21, 22) ∷ [] }
    ensures first_order_total { total_of (standard_problem examples.first_order) (1 ∷ 2 ∷ []) ≡ 14 }
    ensures first_order_times { times_of examples.first_order (1 ∷ 2 ∷ []) ≡ (0, 0, 10, 11) ∷ (10, 10, 13, 14) ∷ [] }
    ensures third_order_total { total_of (standard_problem examples.third_order) (1 ∷ 2 ∷ 3 ∷ []) ≡ 33 }
    ensures third_order_times { times_of examples.third_order (1 ∷ 2 ∷ 3 ∷ []) ≡ (0, 0, 29, 30) ∷ (1, 29, 32, 33) ∷
        (2, 2, 30, 31) ∷ [] }
    ensures held_result_total { total_of (standard_problem examples.held_result) (1 ∷ 2 ∷ 3 ∷ []) ≡ 33 }
    ensures held_result_times { times_of examples.held_result (1 ∷ 2 ∷ 3 ∷ []) ≡ (0, 0, 29, 30) ∷ (1, 29, 32, 33) ∷
        (2, 2, 30, 31) ∷ [] }
    ensures two_readers_times { times_of examples.two_readers (1 ∷ 2 ∷ 3 ∷ 4 ∷ []) ≡ (0, 0, 29, 30) ∷ (1, 29, 32, 33) ∷
        (2, 2, 5, 6) ∷ (3, 3, 30, 31) ∷ [] }
    ensures held_load_times { times_of examples.held_load (1 ∷ 2 ∷ 3 ∷ []) ≡ (0, 0, 29, 30) ∷ (1, 29, 32, 33) ∷
        (2, 2, 30, 6) ∷ [] }
    ensures held_x_times { times_of examples.held_x (1 ∷ 2 ∷ 3 ∷ []) ≡ (0, 0, 29, 30) ∷ (1, 29, 32, 33) ∷
        (2, 2, 30, 31) ∷ [] }
    ensures held_b_times { times_of examples.held_b (1 ∷ 2 ∷ 3 ∷ []) ≡ (0, 0, 29, 30) ∷ (1, 29, 32, 33) ∷
        (2, 2, 30, 31) ∷ [] }
    ensures latest_writer_times { times_of examples.latest_writer (1 ∷ 2 ∷ 3 ∷ 4 ∷ []) ≡ (0, 0, 3, 4) ∷ (3, 3, 13, 14) ∷
        (4, 13, 16, 17) ∷ (13, 13, 16, 17) ∷ [] }
    ensures store_then_load_total { total_of (standard_problem examples.store_then_load) (1 ∷ 2 ∷ []) ≡ 9 }
    ensures late_store_times { times_of examples.late_store (1 ∷ 2 ∷ 3 ∷ []) ≡ (0, 0, 10, 11) ∷ (1, 10, 13, 14) ∷
        (2, 11, 19, 15) ∷ [] }
    ensures late_load_times { times_of examples.late_load (1 ∷ 2 ∷ 3 ∷ []) ≡ (0, 0, 3, 4) ∷ (1, 3, 11, 7) ∷
        (2, 4, 7, 8) ∷ [] }
    ensures loads_then_store_times { times_of examples.loads_then_store (1 ∷ 2 ∷ 3 ∷ 4 ∷ []) ≡ (0, 0, 29, 30) ∷
        (1, 29, 37, 33) ∷ (2, 2, 10, 6) ∷ (6, 30, 33, 34) ∷ [] }
    ensures two_loads_times { times_of examples.two_loads (1 ∷ 2 ∷ 3 ∷ []) ≡ (0, 0, 3, 4) ∷ (1, 3, 11, 7) ∷
        (2, 2, 10, 6) ∷ [] }
    ensures zero_register_total_1_2_3 { total_of (standard_problem examples.zero_register) (1 ∷ 2 ∷ 3 ∷ []) ≡ 7 }
    ensures zero_register_total_1_3_2 { total_of (standard_problem examples.zero_register) (1 ∷ 3 ∷ 2 ∷ []) ≡ 6 }
    ensures zero_register_times { times_of examples.zero_register (1 ∷ 2 ∷ 3 ∷ []) ≡ (0, 0, 4, 5) ∷ (1, 1, 4, 5) ∷
        (3, 3, 6, 7) ∷ [] }
    ensures load_twice_total { total_of (standard_problem examples.load_twice) (1 ∷ 2 ∷ []) ≡ 16 }
    ensures load_twice_times { times_of examples.load_twice (1 ∷ 2 ∷ []) ≡ (0, 0, 8, 4) ∷ (8, 8, 16, 12) ∷ [] }
    ensures unpack_then_shift_total { total_of (standard_problem examples.unpack_then_shift) (1 ∷ 2 ∷ []) ≡ 8 }
    ensures one_divide_unit_total_1_2 { total_of (standard_problem examples.one_divide_unit) (1 ∷ 2 ∷ []) ≡ 39 }
    ensures one_divide_unit_total_2_1 { total_of (standard_problem examples.one_divide_unit) (2 ∷ 1 ∷ []) ≡ 39 }
    ensures uneven_total_1_2_3 { total_of (record { block = examples.one_load; profile = examples.uneven_profile })
        (1 ∷ 2 ∷ 3 ∷ []) ≡ 43 }
    ensures uneven_total_1_3_2 { total_of (record { block = examples.one_load; profile = examples.uneven_profile })
        (1 ∷ 3 ∷ 2 ∷ []) ≡ 31 }
{}
