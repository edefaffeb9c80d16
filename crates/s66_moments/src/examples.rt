//! Worked examples of arcs, paths, lines and trees.
//! The functions do nothing.

ghost use Rattle.std.specs.Prelude.{ℕ, [], ◌∷◌, ◌++◌, ◌+◌, ◌≡◌, ◌≤◌, true, false, Some, None};
ghost use Rattle.s66_isa.specs.{Boolean, a_reg, x_reg};
ghost use Rattle.s66_model.specs.{NoneNamed, WrittenEarlier, ClampedStanding, total_of, IsBound, Load, chain, Alone, DominatesClamped, standard_problem, floor_in, load_problem, multiply_problem};
ghost use Rattle.s66_model.specs.{one_load, first_order, third_order, store_then_load, two_loads, three_increments, late_result};
ghost use Rattle.s66_moments.specs.{Issue, Start, Done, Free, Origin, At, End, time_of, soonest, Before, Begins, waits, IsRemaining, IsNetworkPath, precedes, tail, greatest_path, ForcedPair, Supposed};
ghost use Rattle.s66_moments.specs.{IsTooLate, IsFounded, DominatesInUse, AtLines, DominatedBy, ShowsByLines, arc_in, two_adds, unit_path, boolean_between_adds, two_multiplies, booleans_between};
ghost use Rattle.s66_moments.specs.{load_line, inner_line, two_copies_line, until_free_line, two_free_adds, still_line, first_of_two, two_sums, waits_for_the_unit, waits_for_x1, waits_for_two_parcels};
ghost use Rattle.s66_moments.specs.{product_and_booleans, split_once, increments_load, increments_tree, load_fact, span_after, is_taken_after, next_after, is_loaded_after, two_copies_of_a_quotient};
ghost use Rattle.s66_moments.specs.{is_turned_after, start_after, three_free_adds, are_steps_taken_of, known_after_steps, lines_shown, second_by_lines, Pair};
ghost use Rattle.s66_moments.specs.Examples.{arcs_of};
ghost use Rattle.s66_moments.specs.declared.fact_line.FactStep.TheVariants.{Fact, Suppose, Refuted};

/// Which moments have an arc, and of how long.
pub fn arc_examples()
    ensures issue_to_start { arc_in one_load 1 Issue 1 Start ≡ Some 0 }
    ensures start_to_a_load { arc_in one_load 1 Start 1 (Done (x_reg 1)) ≡ Some 8 }
    ensures start_to_its_address { arc_in one_load 1 Start 1 (Done (a_reg 1)) ≡ Some 3 }
    ensures start_to_no_result { arc_in one_load 1 Start 1 (Done (x_reg 7)) ≡ None }
    ensures start_to_free { arc_in one_load 1 Start 1 Free ≡ Some 4 }
    ensures held_result_to_free { arc_in one_load 1 (Done (a_reg 1)) 1 Free ≡ Some 1 }
    ensures fetched_result_to_free { arc_in one_load 1 (Done (x_reg 1)) 1 Free ≡ None }
    ensures issues_in_order { arc_in two_adds 1 Issue 2 Issue ≡ Some 1 }
    ensures issue_after_two_parcels { arc_in late_result 1 Issue 3 Issue ≡ Some 2 }
    ensures no_issues_of_two_that_may_change_places { arc_in one_load 1 Issue 3 Issue ≡ None }
    ensures no_issues_back { arc_in two_adds 2 Issue 1 Issue ≡ None }
    ensures first_order { arc_in first_order 1 (Done (x_reg 1)) 2 Issue ≡ Some 0 }
    ensures only_unit { arc_in two_adds 1 Free 2 Issue ≡ Some 0 }
    ensures only_unit_of_the_next_but_one { arc_in boolean_between_adds 1 Free 3 Issue ≡ Some 0 }
    ensures only_unit_to_a_start { arc_in two_adds 1 Free 2 Start ≡ None }
    ensures only_unit_back { arc_in two_adds 2 Free 1 Issue ≡ None }
    ensures unit_of_another_kind { arc_in boolean_between_adds 1 Free 2 Issue ≡ None }
    ensures one_unit_of_two { arc_in two_multiplies 1 Free 2 Issue ≡ None }
    ensures second_order { arc_in one_load 1 (Done (x_reg 1)) 2 Start ≡ Some 0 }
    ensures operand_is_no_result { arc_in one_load 1 (Done (x_reg 1)) 2 Issue ≡ None }
    ensures store_then_load { arc_in store_then_load 1 Start 2 Start ≡ Some 1 }
    ensures two_loads { arc_in two_loads 2 Start 3 Start ≡ None }
    ensures third_order { arc_in third_order 2 Start 3 (Done (x_reg 5)) ≡ Some 1 }
    ensures origin { arcs_of two_adds Origin (At 2 Issue) ≡ Some 0 }
    ensures free_to_the_end { arcs_of two_adds (At 2 Free) End ≡ Some 0 }
    ensures result_to_the_end { arcs_of two_adds (At 2 (Done (x_reg 4))) End ≡ Some 0 }
    ensures precedes_through_the_second { precedes boolean_between_adds 1 3 ≡ true }
    ensures precedes_nothing { precedes one_load 1 3 ≡ false }
{}

/// When moments are, at the soonest too, and what paths take: a chain shows 9 of two additions, a path all their 10.
pub fn path_examples()
    ensures issue_time { time_of (standard_problem two_adds) (1 ∷ 2 ∷ []) (At 2 Issue) ≡ 5 }
    ensures result_time { time_of (standard_problem two_adds) (1 ∷ 2 ∷ []) (At 2 (Done (x_reg 4))) ≡ 9 }
    ensures end_time { time_of (standard_problem two_adds) (1 ∷ 2 ∷ []) End ≡ 10 }
    ensures soonest_start { soonest load_problem (1 ∷ []) 2 Start ≡ 8 }
    ensures soonest_issue { soonest load_problem (1 ∷ []) 2 Issue ≡ 1 }
    ensures soonest_free { soonest load_problem [] 2 Free ≡ 4 }
    ensures longest_chain { chain (standard_problem two_adds) [] ≡ 9 }
    ensures path { IsNetworkPath (arcs_of two_adds) (At 1 Start) unit_path End }
    ensures path_takes { soonest (standard_problem two_adds) [] 1 Start + waits unit_path ≡ 10 }
    ensures path_is_of_what_remains { IsRemaining (standard_problem two_adds) [] 1 Start }
    ensures not_of_what_is_placed { ¬ IsRemaining (standard_problem two_adds) (1 ∷ []) 1 Start }
    ensures not_of_what_is_no_result { ¬ IsRemaining (standard_problem two_adds) [] 1 (Done (x_reg 7)) }
    ensures no_path_of_another_time { ¬ IsNetworkPath (arcs_of two_adds) (At 2 Start) unit_path End }
    ensures tail_of_the_first { tail (standard_problem two_adds) (arcs_of two_adds) (At 1 Start) ≡ 10 }
    ensures tail_of_the_second { tail (standard_problem two_adds) (arcs_of two_adds) (At 2 Issue) ≡ 5 }
    ensures greatest { greatest_path (standard_problem two_adds) (arcs_of two_adds) [] ≡ 10 }
    ensures greatest_after_1 { greatest_path (standard_problem two_adds) (arcs_of two_adds) (1 ∷ []) ≡ 10 }
{}

/// Which lines are founded: load arcs over uses from the issue, from the start, until the unit is free, and over what is left of one;
/// pairs that are forced by parcels and by the only unit.
pub fn line_examples()
    ensures from_the_start { IsFounded (standard_problem booleans_between) 16 [] load_line }
    ensures between_two_moments { IsFounded (standard_problem booleans_between) 16 [] inner_line }
    ensures until_free { IsFounded (standard_problem booleans_between) 16 [] until_free_line }
    ensures from_the_issue_by_two_copies { IsFounded multiply_problem 22 [] two_copies_line }
    ensures still_used { IsFounded (standard_problem two_free_adds) 10 (Begins (1 ∷ []) ∷ []) still_line }
    ensures late_by_parcels { IsFounded (standard_problem first_of_two) 15 [] (ForcedPair 1 2) }
    ensures late_by_the_unit { IsFounded (standard_problem two_sums) 11 [] (ForcedPair 3 2) }
    ensures late_the_other_way { IsFounded (standard_problem two_sums) 11 (Before 3 2 ∷ []) (ForcedPair 2 3) }
    ensures ring { IsTooLate (standard_problem two_sums) 11 (Before 2 3 ∷ Before 3 2 ∷ []) }
    ensures total_of_a_prefix { IsTooLate (standard_problem two_adds) 5 (Begins (1 ∷ []) ∷ []) }
    ensures over_what_is_placed { IsTooLate (standard_problem two_adds) 10 (Begins (1 ∷ []) ∷ []) }
    ensures turned_by_a_prefix { IsTooLate (standard_problem first_of_two) 15 (Begins (2 ∷ []) ∷ Before 1 2 ∷ []) }
{}

/// What lines show of blocks with no split, and what their floors are; what a tree shows whose children's moments come too late.
pub fn line_tree_examples()
    ensures one_load_line { ShowsByLines NoneNamed (standard_problem booleans_between) 16
        (load_line ∷ []) [] (Alone (AtLines [])) }
    ensures one_inner_line { ShowsByLines NoneNamed (standard_problem booleans_between) 16
        (inner_line ∷ []) [] (Alone (AtLines [])) }
    ensures bound_16 { IsBound (standard_problem booleans_between) 16 }
    ensures its_floor { floor_in booleans_between [] ≡ (Load Boolean, 12) }
    ensures it_takes_16 { total_of (standard_problem booleans_between) (1 ∷ 2 ∷ 3 ∷ 4 ∷ []) ≡ 16 }
    ensures one_pair { ShowsByLines NoneNamed (standard_problem first_of_two) 15
        (ForcedPair 1 2 ∷ []) [] (Alone (AtLines [])) }
    ensures it_takes_15 { total_of (standard_problem first_of_two) (1 ∷ 2 ∷ 3 ∷ []) ≡ 15 }
    ensures ring_of_pairs { ShowsByLines NoneNamed (standard_problem two_sums) 11
        (ForcedPair 3 2 ∷ ForcedPair 2 3 ∷ []) [] (Alone (AtLines [])) }
    ensures it_takes_11 { total_of (standard_problem two_sums) (1 ∷ 2 ∷ 3 ∷ []) ≡ 11 }
    ensures by_what_comes_next { ShowsByLines NoneNamed (standard_problem two_free_adds)
        10 [] [] (split_once (AtLines []) (AtLines [])) }
    ensures dominated_earlier { ShowsByLines WrittenEarlier (standard_problem three_increments) 7 [] []
        (increments_tree increments_load (DominatedBy (1 ∷ 2 ∷ []))) }
    ensures dominated_standing { ShowsByLines ClampedStanding (standard_problem three_increments) 7 [] []
        (increments_tree (DominatedBy (2 ∷ 1 ∷ [])) increments_load) }
{}

/// Which beginnings dominate others in use, and what each takes with the numbers that remain: it may be that one of these looks at a late
/// result only after its unit is free, or after the parcels of what stands before it, or sooner. A total that is greater has to be below
/// the time.
pub fn in_use_examples()
    ensures read_after_the_unit { (low : ℕ) →
        DominatesInUse (standard_problem waits_for_the_unit) low [] (2 ∷ 1 ∷ []) (1 ∷ 2 ∷ []) }
    ensures not_clamped { ¬ DominatesClamped (standard_problem waits_for_the_unit) (2 ∷ 1 ∷ []) (1 ∷ 2 ∷ []) }
    ensures it_takes_12 { total_of (standard_problem waits_for_the_unit) (2 ∷ 1 ∷ 3 ∷ []) ≡ 12 }
    ensures the_other_takes_12 { total_of (standard_problem waits_for_the_unit) (1 ∷ 2 ∷ 3 ∷ []) ≡ 12 }
    ensures read_after_two_parcels { (low : ℕ) →
        DominatesInUse (standard_problem waits_for_two_parcels) low [] (2 ∷ 1 ∷ []) (1 ∷ 2 ∷ []) }
    ensures after_two_parcels_it_takes_12 { total_of (standard_problem waits_for_two_parcels) (2 ∷ 1 ∷ 3 ∷ 4 ∷ []) ≡
        12 }
    ensures after_two_parcels_the_other_takes_12 { total_of (standard_problem waits_for_two_parcels)
        (1 ∷ 2 ∷ 3 ∷ 4 ∷ []) ≡ 12 }
    ensures read_at_once { (low : ℕ) →
        10 ≤ low → ¬ DominatesInUse (standard_problem waits_for_x1) low [] (2 ∷ 1 ∷ []) (1 ∷ 2 ∷ []) }
    ensures it_takes_11 { total_of (standard_problem waits_for_x1) (2 ∷ 1 ∷ 3 ∷ []) ≡ 11 }
    ensures the_other_takes_9 { total_of (standard_problem waits_for_x1) (1 ∷ 2 ∷ 3 ∷ []) ≡ 9 }
    ensures by_its_total { DominatesInUse (standard_problem product_and_booleans) 13 [] (1 ∷ 2 ∷ []) (2 ∷ 1 ∷ []) }
    ensures not_below_its_total { ¬ DominatesInUse (standard_problem product_and_booleans) 12 [] (1 ∷ 2 ∷ [])
        (2 ∷ 1 ∷ []) }
    ensures its_total { total_of (standard_problem product_and_booleans) (1 ∷ 2 ∷ 3 ∷ []) ≡ 12 }
    ensures total_of_the_other { total_of (standard_problem product_and_booleans) (2 ∷ 1 ∷ 3 ∷ []) ≡ 11 }
{}

/// The longest paths through a block by what is known, before any line and after some.
pub fn span_examples()
    ensures of_the_table { span_after two_adds [] (At 1 Start) End ≡ Some 10 }
    ensures of_a_moment { span_after two_adds [] (At 1 Start) (At 1 Start) ≡ Some 0 }
    ensures no_path_back { span_after two_adds [] (At 2 Issue) (At 1 Issue) ≡ None }
    ensures no_path_between_two_that_may_change_places { span_after two_free_adds [] (At 1 Issue) (At 2 Issue) ≡ None }
    ensures by_a_pair { span_after two_free_adds (Pair 2 1 ∷ []) (At 2 Issue) End ≡ Some 10 }
    ensures by_a_load { span_after two_free_adds (load_fact Origin End 0 10 (1 ∷ 2 ∷ []) ∷ []) Origin End ≡ Some 10 }
{}

/// Which fact lines are taken, and which leaves are right by them, and when a number starts at the soonest.
pub fn fact_line_examples()
    ensures by_parcels { is_taken_after first_of_two 15 [] (Pair 1 2) ≡ true }
    ensures not_for_another_bound { is_taken_after first_of_two 16 [] (Pair 1 2) ≡ false }
    ensures by_the_unit { is_taken_after two_sums 11 [] (Pair 3 2) ≡ true }
    ensures no_ring { is_taken_after two_sums 11 (Pair 3 2 ∷ []) (Pair 2 3) ≡ false }
    ensures not_itself { is_taken_after two_sums 1 [] (Pair 2 2) ≡ false }
    ensures no_number { is_taken_after two_sums 1 [] (Pair 4 2) ≡ false }
    ensures load { is_taken_after two_free_adds 0 [] (load_fact Origin End 0 10 (1 ∷ 2 ∷ [])) ≡ true }
    ensures too_long_a_wait { is_taken_after two_free_adds 0 [] (load_fact Origin End 0 11 (1 ∷ 2 ∷ [])) ≡ false }
    ensures not_so_late { is_taken_after two_free_adds 0 [] (load_fact Origin End 1 10 (1 ∷ 2 ∷ [])) ≡ false }
    ensures load_of_nothing { is_taken_after two_free_adds 0 [] (load_fact Origin End 0 0 []) ≡ false }
    ensures number_twice { is_taken_after two_free_adds 0 [] (load_fact Origin End 0 15 (1 ∷ 2 ∷ 2 ∷ [])) ≡ false }
    ensures of_two_kinds { is_taken_after two_sums 0 [] (load_fact Origin End 0 8 (1 ∷ 2 ∷ [])) ≡ false }
    ensures load_back { is_taken_after two_adds 0 [] (load_fact (At 2 Issue) (At 1 Issue) 0 0 (1 ∷ [])) ≡ false }
    ensures next { next_after two_sums (Pair 3 2 ∷ []) [] 1 ≡ 13 }
    ensures next_without_the_line { next_after two_sums [] [] 1 ≡ 8 }
    ensures turned { is_turned_after first_of_two (Pair 1 2 ∷ []) (2 ∷ []) 1 2 ≡ true }
    ensures turned_without_the_line { is_turned_after first_of_two [] (2 ∷ []) 1 2 ≡ false }
    ensures loaded_from_the_issue { is_loaded_after booleans_between 16 [] (1 ∷ []) 4 (2 ∷ 3 ∷ []) ≡ true }
    ensures not_for_17 { is_loaded_after booleans_between 17 [] (1 ∷ []) 4 (2 ∷ 3 ∷ []) ≡ false }
    ensures not_from_5 { is_loaded_after booleans_between 16 [] (1 ∷ []) 5 (2 ∷ 3 ∷ []) ≡ false }
    ensures not_in_this_order { is_loaded_after booleans_between 16 [] (1 ∷ []) 4 (3 ∷ 2 ∷ []) ≡ false }
    ensures not_one_twice { is_loaded_after booleans_between 16 [] (1 ∷ []) 4 (2 ∷ 2 ∷ []) ≡ false }
    ensures not_what_is_placed { is_loaded_after booleans_between 16 [] (1 ∷ []) 0 (1 ∷ 2 ∷ 3 ∷ []) ≡ false }
    ensures not_of_another_kind { is_loaded_after booleans_between 0 [] (1 ∷ []) 4 (2 ∷ 3 ∷ 4 ∷ []) ≡ false }
    ensures not_of_none { is_loaded_after booleans_between 0 [] (1 ∷ []) 0 [] ≡ false }
    ensures loaded_from_the_start { is_loaded_after two_copies_of_a_quotient 37 [] (1 ∷ []) 29 (2 ∷ 3 ∷ []) ≡ true }
    ensures it_takes_37 { total_of (standard_problem two_copies_of_a_quotient) (1 ∷ 2 ∷ 3 ∷ []) ≡ 37 }
    ensures one_of_two_units_has_two { is_loaded_after three_increments 8 [] [] 0 (1 ∷ 2 ∷ 3 ∷ []) ≡ true }
    ensures and_no_more { is_loaded_after three_increments 9 [] [] 0 (1 ∷ 2 ∷ 3 ∷ []) ≡ false }
    ensures each_unit_has_one { is_loaded_after three_increments 5 [] [] 0 (1 ∷ 2 ∷ []) ≡ false }
    ensures loaded_by_a_pair { is_loaded_after two_free_adds 10 (Pair 1 2 ∷ []) [] 0 (1 ∷ []) ≡ true }
    ensures not_without_the_pair { is_loaded_after two_free_adds 10 [] [] 0 (1 ∷ []) ≡ false }
    ensures start_by_what_stands_before { start_after waits_for_two_parcels [] (1 ∷ 2 ∷ []) 4 ≡ 7 }
    ensures start_by_a_pair { start_after two_free_adds (Pair 2 1 ∷ []) [] 1 ≡ 1 }
    ensures start_without_the_pair { start_after two_free_adds [] [] 1 ≡ 0 }
    ensures not_turned { is_turned_after first_of_two (Pair 1 2 ∷ []) (1 ∷ []) 1 2 ≡ false }
{}

/// Which suppositions are taken, what is known after them, and what they show.
pub fn supposition_examples()
    ensures at_once { are_steps_taken_of first_of_two 15 (Suppose 1 2 ∷ Refuted ∷ []) ≡ true }
    ensures not_for_another_bound { are_steps_taken_of first_of_two 16 (Suppose 1 2 ∷ Refuted ∷ []) ≡ false }
    ensures not_what_depends { are_steps_taken_of first_of_two 1 (Suppose 1 3 ∷ []) ≡ false }
    ensures nor_the_other_way { are_steps_taken_of first_of_two 1 (Suppose 3 1 ∷ []) ≡ false }
    ensures not_itself { are_steps_taken_of first_of_two 1 (Suppose 2 2 ∷ []) ≡ false }
    ensures no_number { are_steps_taken_of first_of_two 1 (Suppose 2 4 ∷ []) ≡ false }
    ensures no_end_without_begin { are_steps_taken_of first_of_two 0 (Refuted ∷ []) ≡ false }
    ensures by_lines { are_steps_taken_of three_free_adds 15 second_by_lines ≡ true }
    ensures not_without_them { are_steps_taken_of three_free_adds 15 (Suppose 2 1 ∷ Refuted ∷ []) ≡ false }
    ensures by_a_load { are_steps_taken_of three_free_adds 15
        (Suppose 2 1 ∷ Fact (load_fact Origin End 0 15 (1 ∷ 2 ∷ 3 ∷ [])) ∷ Refuted ∷ []) ≡ true }
    ensures not_by_a_pair { are_steps_taken_of three_free_adds 15 (Fact (Pair 2 1) ∷ []) ≡ false }
    ensures one { are_steps_taken_of three_free_adds 15 (Suppose 2 1 ∷ []) ≡ true }
    ensures none_within { are_steps_taken_of three_free_adds 15 (Suppose 2 1 ∷ Suppose 3 2 ∷ []) ≡ false }
    ensures one_after_another { are_steps_taken_of three_free_adds 15 (second_by_lines ++ Suppose 3 2 ∷ []) ≡ true }
    ensures shown { lines_shown three_free_adds second_by_lines ≡ Supposed 2 1 ∷ [] }
    ensures known { (known_after_steps three_free_adds second_by_lines).before 2 1 ≡ true }
    ensures no_more_known { (known_after_steps three_free_adds second_by_lines).before 3 2 ≡ false }
    ensures nothing_shown_within { lines_shown three_free_adds (Suppose 2 1 ∷ Fact (Pair 3 2) ∷ []) ≡ [] }
    ensures founded { IsFounded (standard_problem three_free_adds) 15 [] (Supposed 2 1) }
{}
