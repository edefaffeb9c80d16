//! What texts are read as.
//! Worked examples of reading: texts, and the documents or the faults that they give.

ghost use Rattle.std.specs.Prelude.{false, List, Some, [], ◌∷◌, ◌++◌, ◌-◌, ◌≡◌, codes, Ok, Err, take, replicate, true, length};
ghost use Rattle.s66_isa.specs.{rising, Multiply, BLOCK_LIMIT};
ghost use Rattle.s66_model.specs.{WrittenEarlier, ClampedStanding, Chain, Load, Parcels, Alone, Parted, Bounding, Dominated, AtLine, LoadFrom};
ghost use Rattle.s66_moments.specs.{Issue, Start, Origin, At, End, FactStep};
ghost use Rattle.s66_moments.specs.declared.fact_line.FactStep.TheVariants.{Suppose, Refuted};
ghost use Rattle.s66_cert.specs.{BadLine, Truncated, TooManyNodes, SPLIT_LIMIT, nothing, takes_fact, read_of, read_within, replaced, with_line, with_late_line, with_factual_line, with_fact_line};
ghost use Rattle.s66_cert.specs.{with_step_lines, with_split_of, are_truncated, three_multiplies, three_multiplies_text, one_load, one_load_text, late_reader, late_reader_text};
ghost use Rattle.s66_cert.specs.Examples as examples;

/// Texts that are read as documents.
#[tactic(auto, unfolding(crate::specs::Examples::digits))]
pub fn reading_examples()
    ensures nothing { read_of [] ≡ Ok [] }
    ensures three_multiplies_is_read { read_of three_multiplies_text ≡ Ok (three_multiplies ∷ []) }
    ensures two_documents { read_of (three_multiplies_text ++ one_load_text) ≡ Ok (three_multiplies ∷ one_load ∷ []) }
    ensures zero_register_is_read { read_of examples.zero_register_text ≡ Ok (examples.zero_register ∷ []) }
    ensures extremes_are_read { read_of examples.extremes_text ≡ Ok (examples.extremes ∷ []) }
    ensures other_profile { read_of (with_line 2 (codes "PROFILE 4 3 4 4 3 10 29 8 3 8 1 1 1 1 2 1 2")) ≡
        Ok (record
        three_multiplies { profile = 4 ∷ 3 ∷ 4 ∷ 4 ∷ 3 ∷ 10 ∷ 29 ∷ 8 ∷ 3 ∷ 8 ∷ 1 ∷ 1 ∷ 1 ∷ 1 ∷ 2 ∷ 1 ∷ 2 ∷ [] } ∷ []) }
    ensures order_of_two { read_of (with_line 9 (codes "ORDER 1 2")) ≡
        Ok (record three_multiplies { numbers = 1 ∷ 2 ∷ [] } ∷ []) }
    ensures load_alone { read_of (replaced 10 16 (codes "U MULTIPLY" ∷ []) three_multiplies_text) ≡
        Ok (record three_multiplies { tree = Alone (Bounding (Load Multiply)) } ∷ []) }
    ensures chain_alone { read_of (replaced 10 16 (codes "C 3" ∷ []) three_multiplies_text) ≡
        Ok (record three_multiplies { tree = Alone (Bounding (Chain (3 ∷ []))) } ∷ []) }
    ensures split_of_128 { read_of (with_split_of 128 128) ≡
        Ok (record three_multiplies { tree = Parted (replicate 128 1) (examples.wholes 128) } ∷ []) }
    ensures version_2 { read_of (late_reader_text (codes "S66 CERTIFICATE 2")) ≡ Ok (late_reader WrittenEarlier ∷ []) }
    ensures version_3 { read_of (late_reader_text (codes "S66 CERTIFICATE 3")) ≡ Ok (late_reader ClampedStanding ∷ []) }
    ensures version_4 { read_of examples.by_facts_text ≡ Ok (examples.by_facts ∷ []) }
    ensures version_5 { read_of examples.by_supposition_text ≡ Ok (examples.by_supposition ∷ []) }
    ensures begin_alone { read_of (with_step_lines (codes "B 128 1\n")) ≡ Ok (examples.with_steps (Suppose 128 1 ∷ []) ∷ []) }
    ensures end_alone { read_of (with_step_lines (codes "Q\n")) ≡ Ok (examples.with_steps (Refuted ∷ []) ∷ []) }
    ensures begin_within { read_of (with_step_lines (codes "B 2 1\nB 1 2\nQ\n")) ≡
        Ok (examples.with_steps (Suppose 2 1 ∷ Suppose 1 2 ∷ Refuted ∷ []) ∷ []) }
    ensures fact_line_4096 { (steps : List FactStep) → length steps ≡ 4095 →
        takes_fact (record nothing { facts = Some steps }) ≡ true }
    ensures no_fact_lines { read_of (replaced 12 3 [] examples.by_facts_text) ≡ Ok (examples.with_facts [] ∷ []) }
    ensures load_from_the_origin { read_of (with_fact_line (codes "A 0 END 0 100000 3 4")) ≡
        Ok (record (examples.with_load Origin End 0 100000 (3 ∷ 4 ∷ [])) { tree = Alone (Bounding Parcels) } ∷ []) }
    ensures load_between { read_of (with_fact_line (codes "A I12 S128 7 9 3")) ≡
        Ok (record (examples.with_load (At 12 Issue) (At 128 Start) 7 9
        (3 ∷ [])) { tree = Alone (Bounding Parcels) } ∷ []) }
    ensures line_that_dominates { read_of (replaced 15 5 (codes "N 200000000" ∷ []) examples.by_facts_text) ≡
        Ok (examples.with_leaf (AtLine 200000000) ∷ []) }
    ensures load_leaf { read_of (replaced 15 5 (codes "L 4 2 3" ∷ []) examples.by_facts_text) ≡
        Ok (examples.with_leaf (LoadFrom 4 (2 ∷ 3 ∷ [])) ∷ []) }
    ensures dominated_alone { read_of (replaced 11 13 (codes "D 4 4 128" ∷ [])
        (late_reader_text (codes "S66 CERTIFICATE 2"))) ≡
        Ok (record (late_reader WrittenEarlier) { tree = Alone (Dominated (4 ∷ 4 ∷ 128 ∷ [])) } ∷ []) }
    ensures two_versions { read_of (late_reader_text (codes "S66 CERTIFICATE 3") ++ one_load_text) ≡
        Ok (late_reader ClampedStanding ∷ one_load ∷ []) }
    ensures ten_splits { read_within BLOCK_LIMIT 10 three_multiplies_text ≡ Ok (three_multiplies ∷ []) }
    ensures splits_are_counted_anew { read_within BLOCK_LIMIT 10 (three_multiplies_text ++ three_multiplies_text) ≡
        Ok (three_multiplies ∷ three_multiplies ∷ []) }
    ensures order_with_128 { read_of (with_line 9 (codes "ORDER 128")) ≡
        Ok (record three_multiplies { numbers = 128 ∷ [] } ∷ []) }
{}

/// Texts that have a fault.
#[tactic(auto, unfolding(crate::specs::Examples::digits))]
pub fn fault_examples()
    ensures every_front { are_truncated (rising (length three_multiplies_text - 1) 1) three_multiplies_text ≡ true }
    ensures no_last_line { read_of (replaced 26 1 [] three_multiplies_text) ≡ Err Truncated }
    ensures no_last_newline { read_of (take (length three_multiplies_text - 1) three_multiplies_text) ≡ Err Truncated }
    ensures unfinished_second { read_of (three_multiplies_text ++ codes "S66 CERTIFICATE 1\n") ≡ Err Truncated }
    ensures unfinished_bad_bound { read_of (take 100 one_load_text ++ codes "BOUND 012") ≡ Err Truncated }
    ensures unfinished_line_after_the_end { read_of (three_multiplies_text ++ codes "T") ≡ Err Truncated }
    ensures bad_bound { read_of (replaced 8 1 (codes "BOUND 012" ∷ []) one_load_text) ≡ Err (BadLine 8) }
    ensures bad_bound_in_the_second { read_of (three_multiplies_text ++
        replaced 8 1 (codes "BOUND 012" ∷ []) one_load_text) ≡ Err (BadLine 34) }
    ensures version_0 { read_of (with_line 1 (codes "S66 CERTIFICATE 0")) ≡ Err (BadLine 1) }
    ensures version_6 { read_of (with_line 1 (codes "S66 CERTIFICATE 6")) ≡ Err (BadLine 1) }
    ensures version_of_two_digits { read_of (with_line 1 (codes "S66 CERTIFICATE 02")) ≡ Err (BadLine 1) }
    ensures blank_after_version { read_of (with_line 1 (codes "S66 CERTIFICATE 2 ")) ≡ Err (BadLine 1) }
    ensures none_dominated_in_version_2 { read_of (with_line 1 (codes "S66 CERTIFICATE 2")) ≡ Err (BadLine 26) }
    ensures none_dominated_in_version_3 { read_of (with_line 1 (codes "S66 CERTIFICATE 3")) ≡ Err (BadLine 26) }
    ensures none_supposed_in_version_5 { read_of (examples.by_supposition_with (codes "S66 CERTIFICATE 5")
        (codes "F 3 2\nU ADD\n")) ≡ Err (BadLine 12) }
    ensures no_fact_line_in_version_5 { read_of (with_line 1 (codes "S66 CERTIFICATE 5")) ≡ Err (BadLine 26) }
    ensures none_supposed_and_no_last_line { read_of (take (length three_multiplies_text - 4)
        (with_line 1 (codes "S66 CERTIFICATE 5"))) ≡ Err Truncated }
    ensures dominated_in_version_5 { read_of (late_reader_text (codes "S66 CERTIFICATE 5")) ≡ Err (BadLine 18) }
    ensures none_dominated_and_no_last_line { read_of (take (length three_multiplies_text - 4)
        (with_line 1 (codes "S66 CERTIFICATE 2"))) ≡ Err Truncated }
    ensures dominated_in_version_1 { read_of (late_reader_text (codes "S66 CERTIFICATE 1")) ≡ Err (BadLine 18) }
    ensures dominated_in_version_1_behind_version_2 { read_of (late_reader_text (codes "S66 CERTIFICATE 2") ++
        late_reader_text (codes "S66 CERTIFICATE 1")) ≡ Err (BadLine 42) }
    ensures dominated_by_no_numbers { read_of (with_late_line 18 (codes "D")) ≡ Err (BadLine 18) }
    ensures dominated_by_0 { read_of (with_late_line 18 (codes "D 0")) ≡ Err (BadLine 18) }
    ensures dominated_by_129 { read_of (with_late_line 18 (codes "D 1 129")) ≡ Err (BadLine 18) }
    ensures dominated_by_65_at_64 { read_within 64 SPLIT_LIMIT (with_late_line 18 (codes "D 1 65")) ≡ Err (BadLine 18) }
    ensures blank_after_a_name { read_of (with_late_line 18 (codes "D 1 2 3 ")) ≡ Err (BadLine 18) }
    ensures tree_below_a_dominated_leaf { read_of (replaced 18 1 (codes "D 1 2 3" ∷ codes "T" ∷ [])
        (late_reader_text (codes "S66 CERTIFICATE 2"))) ≡ Err (BadLine 24) }
    ensures dominated_after_the_tree { read_of (with_late_line 24 (codes "D 1")) ≡ Err (BadLine 24) }
    ensures fact_line_4097 { (steps : List FactStep) → length steps ≡ 4096 →
        takes_fact (record nothing { facts = Some steps }) ≡ false }
    ensures pair_in_version_3 { read_of (with_factual_line 1 (codes "S66 CERTIFICATE 3")) ≡ Err (BadLine 12) }
    ensures pair_after_a_tree_line { read_of (with_factual_line 16 (codes "F 2 1")) ≡ Err (BadLine 16) }
    ensures pair_with_0 { read_of (with_factual_line 13 (codes "F 0 1")) ≡ Err (BadLine 13) }
    ensures pair_with_129 { read_of (with_factual_line 13 (codes "F 2 129")) ≡ Err (BadLine 13) }
    ensures pair_of_one { read_of (with_factual_line 13 (codes "F 2")) ≡ Err (BadLine 13) }
    ensures pair_of_three { read_of (with_factual_line 13 (codes "F 2 1 3")) ≡ Err (BadLine 13) }
    ensures load_to_the_origin { read_of (with_fact_line (codes "A 0 0 0 5 3")) ≡ Err (BadLine 12) }
    ensures load_from_the_end { read_of (with_fact_line (codes "A END END 0 5 3")) ≡ Err (BadLine 12) }
    ensures load_from_a_free_unit { read_of (with_fact_line (codes "A F1 END 0 5 3")) ≡ Err (BadLine 12) }
    ensures load_from_issue_0 { read_of (with_fact_line (codes "A I0 END 0 5 3")) ≡ Err (BadLine 12) }
    ensures load_to_start_129 { read_of (with_fact_line (codes "A 0 S129 0 5 3")) ≡ Err (BadLine 12) }
    ensures wait_100001 { read_of (with_fact_line (codes "A 0 END 0 100001 3")) ≡ Err (BadLine 12) }
    ensures load_of_none { read_of (with_fact_line (codes "A 0 END 0 5")) ≡ Err (BadLine 12) }
    ensures load_without_wait { read_of (with_fact_line (codes "A 0 END 0")) ≡ Err (BadLine 12) }
    ensures blank_after_a_load { read_of (with_fact_line (codes "A 0 END 0 5 3 ")) ≡ Err (BadLine 12) }
    ensures begin_in_version_3 { read_of (examples.by_supposition_with (codes "S66 CERTIFICATE 3")
        (codes "B 2 1\nQ\nU ADD\n")) ≡ Err (BadLine 10) }
    ensures begin_in_version_4 { read_of (examples.by_supposition_with (codes "S66 CERTIFICATE 4")
        (codes "F 3 2\nB 2 1\nQ\nU ADD\n")) ≡ Err (BadLine 11) }
    ensures end_in_version_4 { read_of (examples.by_supposition_with (codes "S66 CERTIFICATE 4")
        (codes "Q\nU ADD\n")) ≡ Err (BadLine 10) }
    ensures end_in_version_1 { read_of (examples.by_supposition_with (codes "S66 CERTIFICATE 1")
        (codes "Q\nU ADD\n")) ≡ Err (BadLine 10) }
    ensures begin_after_a_tree_line { read_of (examples.by_supposition_with (codes "S66 CERTIFICATE 5")
        (codes "Q\nU ADD\nB 2 1\n")) ≡ Err (BadLine 12) }
    ensures begin_of_none { read_of (with_step_lines (codes "B\n")) ≡ Err (BadLine 10) }
    ensures begin_of_one { read_of (with_step_lines (codes "B 1\n")) ≡ Err (BadLine 10) }
    ensures begin_of_three { read_of (with_step_lines (codes "B 2 1 3\n")) ≡ Err (BadLine 10) }
    ensures begin_with_0 { read_of (with_step_lines (codes "B 0 1\n")) ≡ Err (BadLine 10) }
    ensures begin_with_129 { read_of (with_step_lines (codes "B 1 129\n")) ≡ Err (BadLine 10) }
    ensures begin_with_65_at_64 { read_within 64 SPLIT_LIMIT (with_step_lines (codes "B 1 65\n")) ≡ Err (BadLine 10) }
    ensures end_of_one { read_of (with_step_lines (codes "B 2 1\nQ 1\n")) ≡ Err (BadLine 11) }
    ensures blank_after_an_end { read_of (with_step_lines (codes "Q \n")) ≡ Err (BadLine 10) }
    ensures next_of_none { read_of (with_factual_line 18 (codes "E")) ≡ Err (BadLine 18) }
    ensures next_of_two { read_of (with_factual_line 18 (codes "E 3 4")) ≡ Err (BadLine 18) }
    ensures turned_of_one { read_of (with_factual_line 16 (codes "R 2")) ≡ Err (BadLine 16) }
    ensures line_0 { read_of (with_factual_line 16 (codes "N 0")) ≡ Err (BadLine 16) }
    ensures line_200000001 { read_of (with_factual_line 16 (codes "N 200000001")) ≡ Err (BadLine 16) }
    ensures load_leaf_from_100001 { read_of (with_factual_line 16 (codes "L 100001 2 3")) ≡ Err (BadLine 16) }
    ensures load_leaf_of_none { read_of (with_factual_line 16 (codes "L 4")) ≡ Err (BadLine 16) }
    ensures dominated_in_version_4 { read_of (with_factual_line 16 (codes "D 2 1")) ≡ Err (BadLine 16) }
    ensures next_in_version_1 { read_of (with_line 13 (codes "E 3")) ≡ Err (BadLine 13) }
    ensures turned_in_version_2 { read_of (with_late_line 18 (codes "R 1 2")) ≡ Err (BadLine 18) }
    ensures line_in_version_1 { read_of (with_line 13 (codes "N 12")) ≡ Err (BadLine 13) }
    ensures load_leaf_in_version_1 { read_of (with_line 13 (codes "L 4 2 3")) ≡ Err (BadLine 13) }
    ensures unfinished_facts { read_of (take (length examples.by_facts_text - 4) examples.by_facts_text) ≡
        Err Truncated }
    ensures profile_of_16 { read_of (with_line 2 (codes "PROFILE 3 3 4 4 3 10 29 8 3 8 1 1 1 1 2 1")) ≡
        Err (BadLine 2) }
    ensures profile_of_18 { read_of (with_line 2 (codes "PROFILE 3 3 4 4 3 10 29 8 3 8 1 1 1 1 2 1 2 2")) ≡
        Err (BadLine 2) }
    ensures profile_with_0 { read_of (with_line 2 (codes "PROFILE 0 3 4 4 3 10 29 8 3 8 1 1 1 1 2 1 2")) ≡
        Err (BadLine 2) }
    ensures profile_with_101 { read_of (with_line 2 (codes "PROFILE 101 3 4 4 3 10 29 8 3 8 1 1 1 1 2 1 2")) ≡
        Err (BadLine 2) }
    ensures block_of_0 { read_of (with_line 3 (codes "BLOCK 0")) ≡ Err (BadLine 3) }
    ensures block_of_129 { read_of (with_line 3 (codes "BLOCK 129")) ≡ Err (BadLine 3) }
    ensures block_of_65_at_64 { read_within 64 SPLIT_LIMIT (with_line 3 (codes "BLOCK 65")) ≡ Err (BadLine 3) }
    ensures instruction_too_many { read_of (with_line 3 (codes "BLOCK 2")) ≡ Err (BadLine 6) }
    ensures instruction_missing { read_of (with_line 3 (codes "BLOCK 4")) ≡ Err (BadLine 7) }
    ensures lower_case { read_of (with_line 4 (codes "I fx1 X2*X3")) ≡ Err (BadLine 4) }
    ensures jump { read_of (with_line 4 (codes "I ZR X1,L")) ≡ Err (BadLine 4) }
    ensures pad { read_of (with_line 4 (codes "I NO")) ≡ Err (BadLine 4) }
    ensures comment { read_of (with_line 4 (codes "I FX1 X2*X3 PRODUCT")) ≡ Err (BadLine 4) }
    ensures blank_at_the_end { read_of (with_line 4 (codes "I NX1 ")) ≡ Err (BadLine 4) }
    ensures text_of_200 { read_of (with_line 4 (codes "I " ++ examples.long_text 196)) ≡ Err (BadLine 4) }
    ensures time_100001 { read_of (with_line 7 (codes "TIME 100001")) ≡ Err (BadLine 7) }
    ensures time_of_30_digits { read_of (with_line 7 (codes "TIME 123456789012345678901234567890")) ≡ Err (BadLine 7) }
    ensures time_of_2_to_the_64_and_22 { read_of (with_line 7 (codes "TIME 18446744073709551638")) ≡ Err (BadLine 7) }
    ensures time_of_2_to_the_32_and_22 { read_of (with_line 7 (codes "TIME 4294967318")) ≡ Err (BadLine 7) }
    ensures leading_zero { read_of (with_line 7 (codes "TIME 022")) ≡ Err (BadLine 7) }
    ensures time_with_sign { read_of (with_line 7 (codes "TIME +22")) ≡ Err (BadLine 7) }
    ensures time_missing { read_of (with_line 7 (codes "TIME ")) ≡ Err (BadLine 7) }
    ensures time_and_more { read_of (with_line 7 (codes "TIME 22 1")) ≡ Err (BadLine 7) }
    ensures blank_after_time { read_of (with_line 7 (codes "TIME 22 ")) ≡ Err (BadLine 7) }
    ensures two_blanks { read_of (with_line 9 (codes "ORDER 1  2 3")) ≡ Err (BadLine 9) }
    ensures tab { read_of (with_line 9 (codes "ORDER 1\t2 3")) ≡ Err (BadLine 9) }
    ensures empty_order { read_of (with_line 9 (codes "ORDER")) ≡ Err (BadLine 9) }
    ensures order_with_129 { read_of (with_line 9 (codes "ORDER 129")) ≡ Err (BadLine 9) }
    ensures split_without_numbers { read_of (with_line 10 (codes "S")) ≡ Err (BadLine 10) }
    ensures split_with_0 { read_of (with_line 10 (codes "S 1 0")) ≡ Err (BadLine 10) }
    ensures split_of_129 { read_of (with_split_of 129 129) ≡ Err (BadLine 10) }
    ensures split_with_129 { read_of (with_line 10 (codes "S 129")) ≡ Err (BadLine 10) }
    ensures split_with_65_at_64 { read_within 64 SPLIT_LIMIT (with_line 10 (codes "S 65")) ≡ Err (BadLine 10) }
    ensures chain_without_numbers { read_of (with_line 13 (codes "C")) ≡ Err (BadLine 13) }
    ensures no_kind_of_unit { read_of (with_line 13 (codes "U BRANCH")) ≡ Err (BadLine 13) }
    ensures blank_after_whole { read_of (with_line 13 (codes "T ")) ≡ Err (BadLine 13) }
    ensures blank_in_front { read_of (with_line 13 (codes " T")) ≡ Err (BadLine 13) }
    ensures return_at_the_end { read_of (with_line 13 (codes "T" ++ 13 ∷ [])) ≡ Err (BadLine 13) }
    ensures empty_line { read_of (with_line 13 []) ≡ Err (BadLine 13) }
    ensures whole_twice { read_of (replaced 25 1 (codes "T" ∷ codes "T" ∷ []) three_multiplies_text) ≡
        Err (BadLine 26) }
    ensures split_after_the_tree { read_of (with_line 26 (codes "S 1")) ≡ Err (BadLine 26) }
    ensures end_before_the_tree { read_of (with_line 25 (codes "END")) ≡ Err (BadLine 25) }
    ensures line_after_the_end { read_of (three_multiplies_text ++ codes "T\n") ≡ Err (BadLine 27) }
    ensures tenth_split_too_many { read_within BLOCK_LIMIT 9 three_multiplies_text ≡ Err TooManyNodes }
    ensures bad_line_before_it { read_within BLOCK_LIMIT 9 (with_line 12 (codes "S")) ≡ Err (BadLine 12) }
    ensures bad_split_is_a_bad_line { read_within BLOCK_LIMIT 9 (with_line 23 (codes "S 0")) ≡ Err (BadLine 23) }
    ensures split_too_many_before_the_end { read_within BLOCK_LIMIT 9 (take
        (length three_multiplies_text - 1) three_multiplies_text) ≡ Err TooManyNodes }
{}
