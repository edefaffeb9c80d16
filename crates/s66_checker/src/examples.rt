//! Worked verdicts, and which beginnings dominate which.
//! The functions do nothing.
#![tactic(auto, unfolding(s66_isa::specs::Table::row, s66_isa::specs::Profiles::profile_of, s66_model::specs::Dependence::conflict, s66_model::specs::Timing::issue_of, s66_model::specs::Timing::start_of, s66_model::specs::Timing::point))]

ghost use Rattle.std.specs.Prelude.{[], ◌∷◌, ◌++◌, ◌≡◌, true, false};
ghost use Rattle.s66_isa.specs.{Boolean, Multiply};
ghost use Rattle.s66_model.specs.{NoneNamed, WrittenEarlier, ClampedStanding, standard_problem, late_reader, three_increments, packing_gap, two_gaps, booleans_and_sets, late_result, later_gap};
ghost use Rattle.s66_model.specs.{fourth_bounding, fourth_split, increments_tree, increments_load, Whole, Chain, Load, Parcels, Alone, Parted, NoMore, Unsplit, Split, Bounding, Dominated, Factual};
ghost use Rattle.s66_model.specs.{Next, Turned, AtLine, LoadFrom};
ghost use Rattle.s66_moments.specs.{Pair, is_loaded, known_of};
ghost use Rattle.s66_moments.specs.declared.fact_line.FactStep.TheVariants.{Fact, Suppose, Refuted};
ghost use Rattle.s66_moments.specs.Examples as in_use;
ghost use Rattle.s66_cert.specs.Examples as examples;
ghost use Rattle.s66_cert.specs.{after_one, with_times, with_order, with_chain, with_tree, with_name};
ghost use Rattle.s66_checker.specs.{Yes, No, verdict, dominates_by, dominates_in_use, refused_order, slow_one_load, multiplies_at_once, load_and_multiplies, multiplies_split, second_line, third_line};
ghost use Rattle.s66_checker.specs.{last_leaf, late_naming, late_order, late_misplaced, increments, four_increments, three_sums, two_sums, first_of_two, after_pair, at_the_end, booleans_between};
ghost use Rattle.s66_checker.specs.{increments_named, booleans_left, one_is_added, waits_for_the_product, before_their_writers, multiplies_left, booleans_named, waits_for_the_unit, waits_for_x1};
ghost use Rattle.s66_checker.specs.{two_parcels_beside, three_adds};
ghost use Rattle.s66_checker.specs.declared.verdict.Reason.TheVariants as fault;

/// Verdicts on the worked documents: a leaf of each kind, and whole orders alone.
pub fn verdict_examples()
    ensures three_multiplies { verdict examples.three_multiplies ≡ Yes 22 22 }
    ensures store_then_load { verdict examples.store_then_load ≡ Yes 9 9 }
    ensures one_load { verdict examples.one_load ≡ Yes 12 12 }
    ensures two_booleans { verdict examples.two_booleans ≡ Yes 8 8 }
    ensures zero_register { verdict examples.zero_register ≡ Yes 6 6 }
    ensures bound_11 { verdict (with_times 12 11) ≡ Yes 12 11 }
{}

/// Verdicts on documents of one load, a part of which is changed. The first fault counts: of the order, the time, the bound and
/// the tree, in turn.
pub fn fault_examples()
    ensures bound_13 { verdict (with_times 12 13) ≡ No 8 fault.Bound }
    ensures source_order { verdict (with_order (1 ∷ 2 ∷ 3 ∷ [])) ≡ No 7 fault.Time }
    ensures dependence_broken { verdict (with_order (2 ∷ 1 ∷ 3 ∷ [])) ≡ No 9 fault.Order }
    ensures number_twice { verdict (with_order (1 ∷ 3 ∷ 3 ∷ [])) ≡ No 9 fault.Order }
    ensures order_too_short { verdict (with_order (1 ∷ 3 ∷ [])) ≡ No 9 fault.Order }
    ensures order_too_long { verdict (with_order (1 ∷ 3 ∷ 2 ∷ 2 ∷ [])) ≡ No 9 fault.Order }
    ensures wrong_order_hides_the_time { verdict refused_order ≡ No 9 fault.Order }
    ensures wrong_time_hides_the_bound { verdict (with_times 11 13) ≡ No 7 fault.Time }
{}

/// Verdicts on documents under another profile than the standard one, by which they are timed.
pub fn profile_examples()
    ensures slower_boolean { verdict (slow_one_load 13) ≡ Yes 13 12 }
    ensures time_of_the_standard_profile { verdict (slow_one_load 12) ≡ No 7 fault.Time }
    ensures three_multiply_units { verdict (multiplies_at_once 13) ≡ Yes 13 13 }
    ensures bound_above_the_time { verdict (multiplies_at_once 14) ≡ No 8 fault.Bound }
{}

/// Verdicts on documents of one load with another tree.
pub fn leaf_examples()
    ensures chain_without_a_link { verdict (with_chain (1 ∷ 3 ∷ [])) ≡ No 10 fault.Chain }
    ensures chain_falls { verdict (with_chain (2 ∷ 1 ∷ [])) ≡ No 10 fault.Chain }
    ensures chain_of_a_number_too_great { verdict (with_chain (4 ∷ [])) ≡ No 10 fault.Chain }
    ensures chain_of_nothing { verdict (with_chain []) ≡ No 10 fault.Chain }
    ensures chain_below_the_bound { verdict (with_chain (2 ∷ [])) ≡ No 10 fault.Value }
    ensures load_below_the_bound { verdict (with_tree (Alone (Bounding (Load Boolean)))) ≡ No 10 fault.Value }
    ensures parcels_below_the_bound { verdict (with_tree (Alone (Bounding Parcels))) ≡ No 10 fault.Value }
    ensures whole_order_too_soon { verdict (with_tree (Alone (Bounding Whole))) ≡ No 10 fault.Place }
    ensures child_not_ready { verdict (with_tree (Parted (1 ∷ 2 ∷ 3 ∷ [])
        (Unsplit (Bounding Parcels) (Unsplit (Bounding Parcels) (Unsplit (Bounding Parcels) NoMore))))) ≡
        No 10 fault.Children }
{}

/// Verdicts on documents of three multiplies with another tree.
pub fn split_examples()
    ensures child_omitted { verdict (multiplies_split (1 ∷ 2 ∷ []) (after_one 2 3 (after_one 1 3 NoMore))) ≡
        No 10 fault.Children }
    ensures children_not_rising { verdict (multiplies_split (1 ∷ 3 ∷ 2 ∷ [])
        (after_one 2 3 (after_one 1 3 (after_one 1 2 NoMore)))) ≡ No 10 fault.Children }
    ensures child_below_omitted { verdict (second_line (Split (2 ∷ []) (Unsplit (Bounding Whole) NoMore))) ≡
        No 11 fault.Children }
    ensures chain_of_a_placed_number { verdict (third_line (Unsplit (Bounding (Chain (1 ∷ []))))) ≡ No 12 fault.Chain }
    ensures chain_below_the_bound { verdict (third_line (Unsplit (Bounding (Chain (3 ∷ []))))) ≡ No 12 fault.Value }
    ensures load_below_the_bound { verdict (third_line (Unsplit (Bounding (Load Multiply)))) ≡ No 12 fault.Value }
    ensures whole_order_too_soon { verdict (third_line (Unsplit (Bounding Whole))) ≡ No 12 fault.Place }
    ensures parcels_at_a_whole_order { verdict (third_line (Split (3 ∷ []) (Unsplit (Bounding Parcels) NoMore))) ≡
        No 13 fault.Place }
    ensures load_at_a_whole_order { verdict (third_line (Split (3 ∷ []) (Unsplit (Bounding (Load Multiply)) NoMore))) ≡
        No 13 fault.Place }
    ensures chain_at_a_whole_order { verdict (third_line (Split (3 ∷ [])
        (Unsplit (Bounding (Chain (3 ∷ []))) NoMore))) ≡ No 13 fault.Place }
    ensures split_of_a_whole_order { verdict (third_line (Split (3 ∷ [])
        (Split (1 ∷ []) (Unsplit (Bounding Whole) NoMore) NoMore))) ≡ No 13 fault.Children }
    ensures last_line { verdict (last_leaf Parcels) ≡ No 25 fault.Place }
{}

/// Verdicts on documents with dominated leaves: which names are taken, and whether the node dominates.
pub fn dominated_examples()
    ensures late_reader { verdict (examples.late_reader WrittenEarlier) ≡ Yes 33 33 }
    ensures late_reader_clamped { verdict (examples.late_reader ClampedStanding) ≡ Yes 33 33 }
    ensures none_named { verdict (examples.late_reader NoneNamed) ≡ No 18 fault.Name }
    ensures itself { verdict (late_naming WrittenEarlier (1 ∷ 3 ∷ 2 ∷ []) fourth_bounding) ≡ No 18 fault.Name }
    ensures itself_clamped { verdict (late_naming ClampedStanding (1 ∷ 3 ∷ 2 ∷ []) fourth_bounding) ≡ No 18 fault.Name }
    ensures another_set { verdict (late_naming WrittenEarlier (1 ∷ 2 ∷ 4 ∷ []) fourth_bounding) ≡ No 18 fault.Name }
    ensures another_set_clamped { verdict (late_naming ClampedStanding (1 ∷ 2 ∷ 4 ∷ []) fourth_bounding) ≡
        No 18 fault.Name }
    ensures a_part_of_the_set { verdict (late_naming ClampedStanding (1 ∷ 2 ∷ []) fourth_bounding) ≡ No 18 fault.Name }
    ensures no_node { verdict (late_naming ClampedStanding (2 ∷ 1 ∷ 3 ∷ []) fourth_bounding) ≡ No 18 fault.Name }
    ensures no_number_of_the_block { verdict (with_name ClampedStanding (128 ∷ [])) ≡ No 10 fault.Name }
    ensures node_is_no_beginning { verdict (late_misplaced ClampedStanding) ≡ No 15 fault.Name }
    ensures whole_order { verdict (late_order WrittenEarlier) ≡ No 15 fault.Place }
    ensures whole_order_clamped { verdict (late_order ClampedStanding) ≡ No 15 fault.Place }
    ensures not_dominated { verdict (late_naming WrittenEarlier (1 ∷ 2 ∷ 3 ∷ []) fourth_split) ≡ No 22 fault.Dominance }
    ensures not_dominated_clamped { verdict (late_naming ClampedStanding (1 ∷ 2 ∷ 3 ∷ []) fourth_split) ≡
        No 22 fault.Dominance }
    ensures named_before { verdict (increments WrittenEarlier
        (increments_tree increments_load (Dominated (1 ∷ 2 ∷ [])))) ≡ Yes 8 7 }
    ensures named_behind { verdict (increments ClampedStanding
        (increments_tree (Dominated (2 ∷ 1 ∷ [])) increments_load)) ≡ Yes 8 7 }
    ensures not_named_behind { verdict (increments WrittenEarlier
        (increments_tree (Dominated (2 ∷ 1 ∷ [])) increments_load)) ≡ No 12 fault.Name }
    ensures each_by_the_other { verdict (increments ClampedStanding
        (increments_tree (Dominated (2 ∷ 1 ∷ [])) (Dominated (1 ∷ 2 ∷ [])))) ≡ No 12 fault.Name }
    ensures dominated_is_named { verdict (four_increments WrittenEarlier) ≡ Yes 9 9 }
    ensures dominated_is_not_named { verdict (four_increments ClampedStanding) ≡ No 22 fault.Name }
{}

/// Verdicts on documents with fact lines, each of which is checked by those before it.
pub fn fact_examples()
    ensures each_by_those_before_it { verdict (three_sums (Pair 1 3 ∷ Pair 2 3 ∷ []) (Alone (Factual (Next 1)))) ≡ Yes 15 15 }
    ensures by_a_later_line { verdict (three_sums (Pair 2 3 ∷ Pair 1 3 ∷ []) (Alone (Factual (Next 1)))) ≡ No 10 fault.Fact }
    ensures tree_after_two_lines { verdict (three_sums (Pair 1 3 ∷ Pair 2 3 ∷ []) (Alone (Bounding Parcels))) ≡
        No 12 fault.Value }
    ensures bound_below_the_time { verdict (two_sums 11) ≡ Yes 13 11 }
    ensures not_for_the_time { verdict (two_sums 13) ≡ No 10 fault.Fact }
    ensures bound_above_the_time { verdict (two_sums 14) ≡ No 8 fault.Bound }
    ensures ring { verdict (first_of_two (Pair 1 2 ∷ Pair 2 1 ∷ []) (Unsplit (Factual (Next 2)) (Unsplit (Factual (Turned 1 2)) NoMore))) ≡
        No 11 fault.Fact }
    ensures by_a_load { verdict (booleans_between 4 16) ≡ Yes 16 16 }
    ensures load_too_long { verdict (booleans_between 4 17) ≡ No 11 fault.Fact }
    ensures load_too_late { verdict (booleans_between 5 16) ≡ No 11 fault.Fact }
{}

/// Verdicts on documents with suppositions, which begin on line 10.
pub fn supposition_examples()
    ensures by_what_it_shows { verdict (three_adds in_use.second_by_lines) ≡ Yes 15 15 }
    ensures not_without_it { verdict (three_adds []) ≡ No 11 fault.Pair }
    ensures not_refuted { verdict (three_adds (Suppose 2 1 ∷ Fact (Pair 3 2) ∷ Refuted ∷ [])) ≡ No 12 fault.Fact }
    ensures the_other_way { verdict (three_adds (Suppose 1 2 ∷ Fact (Pair 3 2) ∷ Fact (Pair 1 3) ∷ Refuted ∷ [])) ≡
        No 11 fault.Fact }
    ensures supposed_no_more { verdict (three_adds (in_use.second_by_lines ++ Fact (Pair 1 3) ∷ [])) ≡
        No 14 fault.Fact }
    ensures of_a_known_pair { verdict (three_adds (in_use.second_by_lines ++ Suppose 2 1 ∷ [])) ≡ No 14 fault.Fact }
    ensures within_another { verdict (three_adds (Suppose 2 1 ∷ Suppose 3 2 ∷ [])) ≡ No 11 fault.Fact }
    ensures ended_twice { verdict (three_adds (in_use.second_by_lines ++ Refuted ∷ [])) ≡ No 14 fault.Fact }
    ensures left_open { verdict (three_adds (Suppose 2 1 ∷ Fact (Pair 3 2) ∷ [])) ≡ No 10 fault.Fact }
    ensures second_left_open { verdict (three_adds (in_use.second_by_lines ++ Suppose 3 2 ∷ Fact (Pair 2 3) ∷ [])) ≡
        No 14 fault.Fact }
{}

/// Verdicts on leaves by facts.
pub fn fact_leaf_examples()
    ensures next_and_turned { verdict (after_pair (Next 2) (Turned 1 2)) ≡ Yes 15 15 }
    ensures next_below_the_bound { verdict (after_pair (Next 3) (Turned 1 2)) ≡ No 12 fault.Event }
    ensures next_is_placed { verdict (after_pair (Next 1) (Turned 1 2)) ≡ No 12 fault.Event }
    ensures next_is_no_number { verdict (after_pair (Next 4) (Turned 1 2)) ≡ No 12 fault.Event }
    ensures next_without_the_last_line { verdict (three_sums (Pair 1 3 ∷ []) (Alone (Factual (Next 1)))) ≡ No 11 fault.Event }
    ensures turned_at_the_first { verdict (after_pair (Turned 1 2) (Turned 1 2)) ≡ No 12 fault.Pair }
    ensures turned_the_other_way { verdict (after_pair (Next 2) (Turned 2 1)) ≡ No 13 fault.Pair }
    ensures turned_without_a_line { verdict (first_of_two [] (Unsplit (Factual (Next 2)) (Unsplit (Factual (Turned 1 2)) NoMore))) ≡
        No 12 fault.Pair }
    ensures next_at_a_whole_order { verdict (at_the_end (Factual (Next 3))) ≡ No 14 fault.Place }
    ensures turned_at_a_whole_order { verdict (at_the_end (Factual (Turned 1 2))) ≡ No 14 fault.Place }
    ensures line_at_a_whole_order { verdict (at_the_end (Factual (AtLine 11))) ≡ No 14 fault.Place }
    ensures whole_order { verdict (at_the_end (Bounding Whole)) ≡ Yes 15 15 }
{}

/// Verdicts on leaves by what units do for some numbers that remain, from a minor cycle on.
pub fn load_leaf_examples()
    ensures two_booleans { verdict (booleans_left 16 4 (2 ∷ 3 ∷ [])) ≡ Yes 16 16 }
    ensures no_more { is_loaded (standard_problem in_use.booleans_between) (known_of in_use.booleans_between [])
        (1 ∷ []) 17 4 (2 ∷ 3 ∷ []) ≡ false }
    ensures may_begin_sooner { verdict (booleans_left 16 5 (2 ∷ 3 ∷ [])) ≡ No 12 fault.Loaded }
    ensures from_sooner_on { verdict (booleans_left 16 3 (2 ∷ 3 ∷ [])) ≡ No 12 fault.Loaded }
    ensures below_the_time { verdict (booleans_left 15 3 (2 ∷ 3 ∷ [])) ≡ Yes 16 15 }
    ensures nothing { verdict (booleans_left 16 4 []) ≡ No 12 fault.Loaded }
    ensures not_rising { verdict (booleans_left 16 4 (3 ∷ 2 ∷ [])) ≡ No 12 fault.Loaded }
    ensures number_twice { verdict (booleans_left 16 4 (2 ∷ 2 ∷ [])) ≡ No 12 fault.Loaded }
    ensures placed_number { verdict (booleans_left 16 4 (1 ∷ 2 ∷ [])) ≡ No 12 fault.Loaded }
    ensures another_kind { verdict (booleans_left 10 1 (2 ∷ 4 ∷ [])) ≡ No 12 fault.Loaded }
    ensures nothing_after_the_first { verdict (one_is_added 13) ≡ No 12 fault.Loaded }
    ensures as_long_as_after_the_first { verdict (one_is_added 12) ≡ Yes 16 12 }
    ensures from_the_start { verdict waits_for_the_product ≡ Yes 22 22 }
    ensures from_the_issue { verdict before_their_writers ≡ Yes 16 16 }
    ensures two_units_share { verdict (multiplies_left 17 (1 ∷ 2 ∷ 3 ∷ [])) ≡ Yes 22 17 }
    ensures one_of_two_units_has_two { verdict (multiplies_left 22 (1 ∷ 2 ∷ 3 ∷ [])) ≡ Yes 22 22 }
    ensures each_of_two_has_one { verdict (multiplies_left 12 (1 ∷ 2 ∷ [])) ≡ No 10 fault.Loaded }
    ensures at_a_whole_order { verdict (at_the_end (Factual (LoadFrom 0 (3 ∷ [])))) ≡ No 14 fault.Place }
    ensures named { verdict booleans_named ≡ Yes 16 16 }
{}

/// Verdicts on dominated leaves that name the line of a node.
pub fn line_name_examples()
    ensures line_behind { verdict (increments_named (Factual (AtLine 15)) increments_load) ≡ Yes 8 7 }
    ensures line_before { verdict (increments_named increments_load (Factual (AtLine 12))) ≡ Yes 8 7 }
    ensures line_after_it { verdict (increments_named (Factual (AtLine 16)) increments_load) ≡ No 12 fault.Name }
    ensures line_before_it { verdict (increments_named (Factual (AtLine 14)) increments_load) ≡ No 12 fault.Name }
    ensures itself { verdict (increments_named (Factual (AtLine 12)) increments_load) ≡ No 12 fault.Name }
    ensures each_by_the_other { verdict (increments_named (Factual (AtLine 15)) (Factual (AtLine 12))) ≡ No 12 fault.Name }
    ensures no_line_of_the_tree { verdict (increments_named (Factual (AtLine 9)) increments_load) ≡ No 12 fault.Name }
    ensures no_line { verdict (increments_named (Factual (AtLine 18)) increments_load) ≡ No 12 fault.Name }
    ensures in_use_alone { verdict waits_for_the_unit ≡ Yes 12 12 }
    ensures not_in_use { verdict waits_for_x1 ≡ No 12 fault.Dominance }
{}

/// Which beginnings dominate which in use, by the test.
pub fn in_use_examples()
    ensures after_the_unit { dominates_in_use (standard_problem in_use.waits_for_the_unit) 0
        (known_of in_use.waits_for_the_unit []) (2 ∷ 1 ∷ []) (1 ∷ 2 ∷ []) ≡ true }
    ensures at_once { dominates_in_use (standard_problem in_use.waits_for_x1) 0 (known_of in_use.waits_for_x1 [])
        (2 ∷ 1 ∷ []) (1 ∷ 2 ∷ []) ≡ false }
    ensures after_two_parcels { dominates_in_use (standard_problem in_use.waits_for_two_parcels) 0
        (known_of in_use.waits_for_two_parcels []) (2 ∷ 1 ∷ []) (1 ∷ 2 ∷ []) ≡ true }
    ensures after_two_parcels_by_a_pair { dominates_in_use (standard_problem two_parcels_beside) 0
        (known_of two_parcels_beside (Pair 4 3 ∷ [])) (2 ∷ 1 ∷ []) (1 ∷ 2 ∷ []) ≡ true }
    ensures without_the_pair { dominates_in_use (standard_problem two_parcels_beside) 0 (known_of two_parcels_beside [])
        (2 ∷ 1 ∷ []) (1 ∷ 2 ∷ []) ≡ false }
    ensures below_the_time { dominates_in_use (standard_problem in_use.product_and_booleans) 13
        (known_of in_use.product_and_booleans []) (1 ∷ 2 ∷ []) (2 ∷ 1 ∷ []) ≡ true }
    ensures not_below_the_time { dominates_in_use (standard_problem in_use.product_and_booleans) 12
        (known_of in_use.product_and_booleans []) (1 ∷ 2 ∷ []) (2 ∷ 1 ∷ []) ≡ false }
{}

/// Which beginnings dominate which, by the tests.
pub fn dominating_examples()
    ensures waits_in_either_order { dominates_by WrittenEarlier (standard_problem late_reader) (1 ∷ 2 ∷ 3 ∷ [])
        (1 ∷ 3 ∷ 2 ∷ []) ≡ true }
    ensures waits_clamped { dominates_by ClampedStanding (standard_problem late_reader) (1 ∷ 2 ∷ 3 ∷ [])
        (1 ∷ 3 ∷ 2 ∷ []) ≡ true }
    ensures waits_the_other_way { dominates_by ClampedStanding (standard_problem late_reader) (1 ∷ 3 ∷ 2 ∷ [])
        (1 ∷ 2 ∷ 3 ∷ []) ≡ false }
    ensures result_later { dominates_by ClampedStanding (standard_problem late_reader) (1 ∷ 2 ∷ 4 ∷ [])
        (1 ∷ 4 ∷ 2 ∷ []) ≡ false }
    ensures another_set { dominates_by ClampedStanding (standard_problem late_reader) (1 ∷ 2 ∷ 3 ∷ [])
        (1 ∷ 2 ∷ 4 ∷ []) ≡ false }
    ensures no_beginning { dominates_by ClampedStanding (standard_problem late_reader) (3 ∷ 1 ∷ []) (3 ∷ 1 ∷ []) ≡
        false }
    ensures itself { dominates_by WrittenEarlier (standard_problem late_reader) (1 ∷ 2 ∷ []) (1 ∷ 2 ∷ []) ≡ true }
    ensures none_named { dominates_by NoneNamed (standard_problem late_reader) (1 ∷ 2 ∷ []) (1 ∷ 2 ∷ []) ≡ false }
    ensures one_for_another { dominates_by WrittenEarlier (standard_problem three_increments) (1 ∷ 2 ∷ [])
        (2 ∷ 1 ∷ []) ≡ true }
    ensures and_back { dominates_by WrittenEarlier (standard_problem three_increments) (2 ∷ 1 ∷ []) (1 ∷ 2 ∷ []) ≡
        true }
    ensures one_of_another_number { dominates_by ClampedStanding (standard_problem three_increments) (1 ∷ []) (2 ∷ []) ≡
        false }
    ensures free_by_the_slot { dominates_by ClampedStanding (standard_problem packing_gap) (1 ∷ 3 ∷ 2 ∷ 4 ∷ [])
        (1 ∷ 2 ∷ 3 ∷ 4 ∷ []) ≡ true }
    ensures free_later_as_written { dominates_by WrittenEarlier (standard_problem packing_gap) (1 ∷ 3 ∷ 2 ∷ 4 ∷ [])
        (1 ∷ 2 ∷ 3 ∷ 4 ∷ []) ≡ false }
    ensures done_by_the_slot { dominates_by ClampedStanding (standard_problem booleans_and_sets) (2 ∷ 1 ∷ 3 ∷ [])
        (1 ∷ 2 ∷ 3 ∷ []) ≡ true }
    ensures done_later_as_written { dominates_by WrittenEarlier (standard_problem booleans_and_sets) (2 ∷ 1 ∷ 3 ∷ [])
        (1 ∷ 2 ∷ 3 ∷ []) ≡ false }
    ensures done_after_the_slot { dominates_by ClampedStanding (standard_problem late_result) (2 ∷ 1 ∷ [])
        (1 ∷ 2 ∷ []) ≡ false }
    ensures half_a_word_apart { dominates_by ClampedStanding (standard_problem two_gaps) (1 ∷ 2 ∷ 4 ∷ 3 ∷ 5 ∷ 6 ∷ [])
        (1 ∷ 2 ∷ 3 ∷ 4 ∷ 5 ∷ 6 ∷ []) ≡ false }
    ensures a_parcel_apart { dominates_by ClampedStanding (standard_problem later_gap) (1 ∷ 3 ∷ 2 ∷ 4 ∷ [])
        (1 ∷ 2 ∷ 3 ∷ 4 ∷ []) ≡ false }
    ensures three_units_by_the_slot { dominates_by ClampedStanding load_and_multiplies (2 ∷ 3 ∷ 1 ∷ 4 ∷ [])
        (3 ∷ 2 ∷ 1 ∷ 4 ∷ []) ≡ true }
    ensures three_units_as_written { dominates_by WrittenEarlier load_and_multiplies (2 ∷ 3 ∷ 1 ∷ 4 ∷ [])
        (3 ∷ 2 ∷ 1 ∷ 4 ∷ []) ≡ false }
    ensures third_unit_later { dominates_by ClampedStanding load_and_multiplies (1 ∷ 2 ∷ 3 ∷ 4 ∷ [])
        (2 ∷ 1 ∷ 4 ∷ 3 ∷ []) ≡ false }
{}
