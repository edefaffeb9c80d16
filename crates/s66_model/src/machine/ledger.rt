//! Examples of the ledger of a search: which reply an event may have, and to which state it leads.

ghost use Rattle.std.specs.Prelude.{[], ◌∷◌, true, false, Some, None};
ghost use Rattle.s66_isa.specs.{Boolean, Multiply};
ghost use Rattle.s66_model.specs.{NoneNamed, Whole, Load, Alone, Parted, Carries, Frontier, Bounding, Step, Run, opening, Open, Out, Closed, Grant, Claim, Graft, Offer, Back, Retire, Granted, Claimed};
ghost use Rattle.s66_model.specs.{Taken, NotOut, OtherPrefix, OverAllowance, Lower, NotLower, OtherBlock, Returned, Retired, boolean_problem, load_problem, multiply_problem, load_piece, one_split};
ghost use Rattle.s66_model.specs.{child_omitted, node, first_node, root_split, second_split, granted_to_2, without_grants, ledger_events, load_out, load_grafted, NeverAnswers, NeverRuns};
ghost use Rattle.s66_model.specs.Examples.{children};

/// Grants, retirements, and what no worker and no event gets.
pub fn grant_examples()
    ensures all_that_is_left { Step NoneNamed multiply_problem (opening multiply_problem 10 2) (Grant 1) (Granted 10)
        (first_node Open) }
    ensures grant_of_64 { Step NoneNamed multiply_problem (opening multiply_problem 100 2) (Grant 2) (Granted 64)
        (granted_to_2 36 64) }
    ensures another_grant { Step NoneNamed multiply_problem (granted_to_2 36 64) (Grant 2) (Granted 36)
        (granted_to_2 0 100) }
    ensures after_retire { Step NoneNamed multiply_problem (first_node Open) (Retire 1) Retired
        (opening multiply_problem 10 2) }
    ensures retired_beside_what_is_left { Step NoneNamed multiply_problem (granted_to_2 36 64) (Retire 2) Retired
        (opening multiply_problem 100 2) }
    ensures grant_of_more_than_is_left { NeverAnswers multiply_problem (opening multiply_problem 10 2) (Grant 1)
        (Granted 64) }
    ensures grant_of_less_than_is_left { NeverAnswers multiply_problem (opening multiply_problem 10 2) (Grant 1)
        (Granted 0) }
    ensures grant_that_stays_left { ¬ Step NoneNamed multiply_problem (opening multiply_problem 10 2) (Grant 2)
        (Granted 10) (granted_to_2 10 10) }
    ensures retired_to_another_worker { ¬ Step NoneNamed multiply_problem (first_node Open) (Retire 1) Retired
        (granted_to_2 0 10) }
    ensures worker_0 { NeverAnswers multiply_problem (opening multiply_problem 10 2) (Grant 0) (Granted 10) }
    ensures worker_3 { NeverAnswers multiply_problem (opening multiply_problem 10 2) (Grant 3) (Granted 10) }
    ensures reply_to_another_event { NeverAnswers multiply_problem (opening multiply_problem 10 2) (Claim 1)
        (Granted 10) }
{}

/// Claims, and nodes that are given back.
pub fn claim_examples()
    ensures claim_while_all_are_out { Step NoneNamed multiply_problem (first_node Out) (Claim 2) (Claimed None)
        (first_node Out) }
    ensures claim_of_any_child { Step NoneNamed multiply_problem (root_split Open Open Open) (Claim 1)
        (Claimed (Some 3)) (root_split Open Open Out) }
    ensures given_back { Step NoneNamed multiply_problem (first_node Out) (Back 2 0) Returned (first_node Open) }
    ensures given_back_again { Step NoneNamed multiply_problem (first_node Open) (Back 1 0) NotOut (first_node Open) }
    ensures none_while_one_is_open { NeverAnswers multiply_problem (opening multiply_problem 10 2) (Claim 1)
        (Claimed None) }
    ensures none_while_children_are_open { NeverAnswers multiply_problem (root_split Out Out Open) (Claim 1)
        (Claimed None) }
    ensures claim_of_what_is_out { NeverAnswers multiply_problem (first_node Out) (Claim 2) (Claimed (Some 0)) }
    ensures claim_of_what_is_split { NeverAnswers multiply_problem (root_split Open Open Open) (Claim 2)
        (Claimed (Some 0)) }
    ensures claim_of_no_node { NeverAnswers multiply_problem (first_node Open) (Claim 2) (Claimed (Some 1)) }
    ensures returned_where_it_is_open { NeverAnswers multiply_problem (first_node Open) (Back 1 0) Returned }
    ensures not_out_where_it_is_out { NeverAnswers multiply_problem (first_node Out) (Back 1 0) NotOut }
    ensures claim_of_two { ¬ Step NoneNamed multiply_problem (root_split Open Open Open) (Claim 1) (Claimed (Some 3))
        (root_split Open Out Out) }
    ensures none_that_opens_one { ¬ Step NoneNamed multiply_problem (first_node Out) (Claim 2) (Claimed None)
        (first_node Open) }
    ensures two_given_back { ¬ Step NoneNamed multiply_problem (root_split Open Out Out) (Back 1 2) Returned
        (root_split Open Open Open) }
    ensures given_back_that_claims { ¬ Step NoneNamed multiply_problem (first_node Open) (Back 1 0) NotOut
        (first_node Out) }
{}

/// Grafts of pieces.
pub fn graft_examples()
    ensures leaf_below_the_best_is_open { Step NoneNamed multiply_problem (first_node Out)
        (Graft 1 0 true [] 0 (Some (Alone (Carries (Load Multiply))))) Taken (first_node Open) }
    ensures leaf_at_the_best_is_closed { Step NoneNamed boolean_problem (without_grants (node [] Out ∷ []) (1 ∷ 2 ∷ []))
        (Graft 1 0 true [] 0 (Some (Alone (Carries (Load Boolean))))) Taken
        (without_grants (node [] (Closed (Bounding (Load Boolean))) ∷ []) (1 ∷ 2 ∷ [])) }
    ensures graft_while_16_is_the_best { Step NoneNamed load_problem (load_out (1 ∷ 2 ∷ 3 ∷ []))
        (Graft 2 0 true [] 3 (Some load_piece)) Taken (load_grafted (1 ∷ 2 ∷ 3 ∷ []) Open) }
    ensures graft_while_12_is_the_best { Step NoneNamed load_problem (load_out (1 ∷ 3 ∷ 2 ∷ []))
        (Graft 2 0 true [] 3 (Some load_piece)) Taken (load_grafted (1 ∷ 3 ∷ 2 ∷ []) (Closed (Bounding Whole))) }
    ensures graft_behind_other_nodes { Step NoneNamed multiply_problem (root_split Open Out Open)
        (Graft 1 2 true (2 ∷ []) 1 (Some (Parted (1 ∷ 3 ∷ []) (children 2 Frontier)))) Taken second_split }
    ensures graft_of_what_is_open { Step NoneNamed multiply_problem (first_node Open) (Graft 1 0 true [] 1 None) NotOut
        (first_node Open) }
    ensures graft_at_another_prefix { Step NoneNamed multiply_problem (first_node Out)
        (Graft 1 0 true (1 ∷ []) 1 None) OtherPrefix (first_node Out) }
    ensures graft_of_another_block { Step NoneNamed multiply_problem (first_node Out)
        (Graft 1 0 false [] 1 None) OtherPrefix (first_node Out) }
    ensures graft_over_the_allowance { Step NoneNamed multiply_problem (first_node Out)
        (Graft 2 0 true [] 1 None) OverAllowance (first_node Out) }
    ensures more_splits_than_allowed { NeverAnswers multiply_problem (first_node Out)
        (Graft 2 0 true [] 1 (Some (one_split Frontier))) Taken }
    ensures another_count_of_splits { NeverAnswers multiply_problem (first_node Out)
        (Graft 1 0 true [] 0 (Some (one_split Frontier))) Taken }
    ensures taken_at_another_prefix { NeverAnswers multiply_problem (first_node Out)
        (Graft 1 0 true (1 ∷ []) 0 (Some (Alone Frontier))) Taken }
    ensures taken_from_another_block { NeverAnswers multiply_problem (first_node Out)
        (Graft 1 0 false [] 1 (Some (one_split Frontier))) Taken }
    ensures taken_where_it_is_open { NeverAnswers multiply_problem (first_node Open)
        (Graft 1 0 true [] 1 (Some (one_split Frontier))) Taken }
    ensures taken_without_a_child { NeverAnswers multiply_problem (first_node Out)
        (Graft 1 0 true [] 1 (Some (child_omitted Frontier))) Taken }
    ensures graft_refused_for_nothing { NeverAnswers multiply_problem (first_node Out)
        (Graft 1 0 true [] 10 None) OverAllowance }
    ensures graft_at_this_prefix { NeverAnswers multiply_problem (first_node Out)
        (Graft 1 0 true [] 1 None) OtherPrefix }
    ensures graft_of_what_is_out { NeverAnswers multiply_problem (first_node Out) (Graft 1 0 true [] 1 None) NotOut }
    ensures other_prefix_before_not_out { NeverAnswers multiply_problem (first_node Open)
        (Graft 1 0 true (1 ∷ []) 1 None) OtherPrefix }
    ensures over_allowance_before_other_prefix { NeverAnswers multiply_problem (first_node Out)
        (Graft 2 0 true (1 ∷ []) 1 None) OverAllowance }
    ensures graft_that_claims_a_child { ¬ Step NoneNamed multiply_problem (first_node Out)
        (Graft 1 0 true [] 1 (Some (one_split Frontier))) Taken (root_split Open Open Out) }
    ensures not_out_that_claims { ¬ Step NoneNamed multiply_problem (first_node Open) (Graft 1 0 true [] 1 None) NotOut
        (first_node Out) }
    ensures other_prefix_that_gives_back { ¬ Step NoneNamed multiply_problem (first_node Out)
        (Graft 1 0 true (1 ∷ []) 1 None) OtherPrefix (first_node Open) }
    ensures over_allowance_that_gives_back { ¬ Step NoneNamed multiply_problem (first_node Out)
        (Graft 2 0 true [] 1 None) OverAllowance (first_node Open) }
    ensures taken_without_a_tree { NeverAnswers multiply_problem (first_node Out) (Graft 1 0 true [] 1 None) Taken }
    ensures not_out_with_a_tree { NeverAnswers multiply_problem (first_node Open)
        (Graft 1 0 true [] 1 (Some (one_split Frontier))) NotOut }
{}

/// Offers of orders.
pub fn offer_examples()
    ensures offer_of_12 { Step NoneNamed load_problem (load_out (1 ∷ 2 ∷ 3 ∷ []))
        (Offer 1 true (1 ∷ 3 ∷ 2 ∷ []) 12) Lower (load_out (1 ∷ 3 ∷ 2 ∷ [])) }
    ensures offer_above_12 { Step NoneNamed load_problem (load_out (1 ∷ 3 ∷ 2 ∷ [])) (Offer 2 true (1 ∷ 2 ∷ 3 ∷ []) 16)
        (NotLower 12) (load_out (1 ∷ 3 ∷ 2 ∷ [])) }
    ensures offer_of_another_block { Step NoneNamed load_problem (load_out (1 ∷ 2 ∷ 3 ∷ []))
        (Offer 1 false (1 ∷ []) 4) OtherBlock (load_out (1 ∷ 2 ∷ 3 ∷ [])) }
    ensures not_lower_of_another_time { NeverAnswers multiply_problem (opening multiply_problem 10 2)
        (Offer 2 true (1 ∷ 2 ∷ 3 ∷ []) 22) (NotLower 21) }
    ensures lower_of_the_same_time { NeverAnswers multiply_problem (opening multiply_problem 10 2)
        (Offer 2 true (2 ∷ 1 ∷ 3 ∷ []) 22) Lower }
    ensures not_lower_of_12 { NeverAnswers load_problem (load_out (1 ∷ 2 ∷ 3 ∷ [])) (Offer 1 true (1 ∷ 3 ∷ 2 ∷ []) 12)
        (NotLower 16) }
    ensures lower_by_another_total { NeverAnswers load_problem (load_out (1 ∷ 2 ∷ 3 ∷ []))
        (Offer 1 true (1 ∷ 3 ∷ 2 ∷ []) 11) Lower }
    ensures lower_by_no_legal_order { NeverAnswers load_problem (load_out (1 ∷ 2 ∷ 3 ∷ []))
        (Offer 1 true (2 ∷ 1 ∷ 3 ∷ []) 9) Lower }
    ensures lower_by_another_block { NeverAnswers load_problem (load_out (1 ∷ 2 ∷ 3 ∷ []))
        (Offer 1 false (1 ∷ 3 ∷ 2 ∷ []) 12) Lower }
    ensures offer_of_this_block { NeverAnswers load_problem (load_out (1 ∷ 2 ∷ 3 ∷ []))
        (Offer 1 true (1 ∷ 3 ∷ 2 ∷ []) 12) OtherBlock }
    ensures lower_to_another_order { ¬ Step NoneNamed load_problem (load_out (1 ∷ 2 ∷ 3 ∷ []))
        (Offer 1 true (1 ∷ 3 ∷ 2 ∷ []) 12) Lower (load_out (3 ∷ 1 ∷ 2 ∷ [])) }
    ensures not_lower_that_lowers { ¬ Step NoneNamed load_problem (load_out (3 ∷ 1 ∷ 2 ∷ []))
        (Offer 2 true (1 ∷ 2 ∷ 3 ∷ []) 16) (NotLower 13) (load_out (1 ∷ 3 ∷ 2 ∷ [])) }
    ensures other_block_that_lowers { ¬ Step NoneNamed load_problem (load_out (3 ∷ 1 ∷ 2 ∷ []))
        (Offer 1 false (1 ∷ []) 4) OtherBlock (load_out (1 ∷ 3 ∷ 2 ∷ [])) }
{}

/// Runs of several events.
pub fn run_examples()
    ensures events { Run NoneNamed multiply_problem (opening multiply_problem 10 2) ledger_events
        (root_split Open Out Open) }
    ensures grant_left_out { NeverRuns multiply_problem (opening multiply_problem 10 2)
        ((Claim 1, Claimed (Some 0)) ∷ (Graft 1 0 true [] 1 (Some (one_split Frontier)), Taken) ∷ []) }
    ensures claim_left_out { NeverRuns multiply_problem (opening multiply_problem 10 2)
        ((Grant 1, Granted 10) ∷ (Graft 1 0 true [] 1 (Some (one_split Frontier)), Taken) ∷ []) }
    ensures replies_exchanged { NeverRuns multiply_problem (opening multiply_problem 10 2)
        ((Grant 1, Granted 0) ∷ (Grant 2, Granted 10) ∷ []) }
    ensures granted_twice { NeverRuns multiply_problem (opening multiply_problem 10 2)
        ((Grant 1, Granted 10) ∷ (Grant 2, Granted 10) ∷ []) }
    ensures no_event_no_change { ¬ Run NoneNamed multiply_problem (opening multiply_problem 10 2) [] (first_node Open) }
{}
