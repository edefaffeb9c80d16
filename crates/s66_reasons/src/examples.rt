//! Worked examples: what is said of small documents. Each clause is a text, and the function does nothing.

ghost use Rattle.std.specs.Prelude.{[], ◌∷◌, ◌≡◌, ◌++◌, codes, None, Some};
ghost use Rattle.s66_isa.specs.{Divide, Multiply};
ghost use Rattle.s66_model.specs.{Load, Alone, Parted, NoMore, Unsplit, Bounding};
ghost use Rattle.s66_moments.specs.{second_by_lines};
ghost use Rattle.s66_moments.specs.declared.fact_line.FactStep.TheVariants.{Refuted, Suppose};
ghost use Rattle.s66_cert.specs.{one_load, three_multiplies};
ghost use Rattle.s66_checker.specs.{before_their_writers, multiplies_at_once, three_adds};
ghost use Rattle.s66_reasons.specs.{shifts_in_turn, by_parcels, by_unit, by_words, end_at_16, end_comes_words, end_line, pairs_of, fact_reasons_text, reasons_text};

/// Which fact lines together put a number before another, and how they are named.
#[tactic(auto, unfolding(s66_isa::specs::Table::row, s66_isa::specs::Profiles::profile_of, s66_model::specs::Dependence::conflict, crate::specs::Words::digits))]
pub fn by_examples()
    ensures alone { pairs_of shifts_in_turn 1 2 ≡ 1 ∷ [] }
    ensures together { pairs_of shifts_in_turn 1 3 ≡ 1 ∷ 2 ∷ [] }
    ensures none { by_words [] ≡ [] }
    ensures one { by_words (1 ∷ []) ≡ codes " (by 1.)" }
    ensures two { by_words (1 ∷ 2 ∷ []) ≡ codes " (by 1. and 2.)" }
    ensures three { by_words (1 ∷ 2 ∷ 4 ∷ []) ≡ codes " (by 1., 2. and 4.)" }
{}

/// What is said of a pair: the last number is the sum of those before it, whatever the bound is.
#[tactic(auto, unfolding(crate::specs::Words::digits))]
pub fn above_examples()
    ensures parcels { by_parcels 8 1 4 3 2 ≡
        codes "2 issues at 8 or later; behind it 3 could issue 1 later, and from there to the end it is 4 or more: 13" }
    ensures unit { by_unit Divide 30 4 2 1 ≡
        codes "1 has the Divide unit until 30 or later; behind it 2 could issue then, and from there to the end it is 4 or more: 34" }
{}

/// By which load line the end comes: by none within a supposition that has ended, and by the first of several.
#[tactic(auto, unfolding(crate::specs::Words::digits))]
pub fn end_examples()
    ensures ended { end_line 15 1 (Suppose 1 2 ∷ end_at_16 ∷ Refuted ∷ []) ≡ None }
    ensures within { end_line 15 1 (Suppose 1 2 ∷ end_at_16 ∷ end_at_16 ∷ []) ≡ Some (2, 16) }
    ensures outside { end_line 15 1 (end_at_16 ∷ Suppose 1 2 ∷ []) ≡ Some (1, 16) }
    ensures short { end_line 17 1 (end_at_16 ∷ []) ≡ None }
    ensures said { end_comes_words (Some (2, 16)) ≡ codes "the end comes at 16 or later, by 2." }
{}

/// What is said of a supposition, and that the number of its last line stands for what it shows, and no line within it for anything.
#[tactic(auto, unfolding(s66_isa::specs::Table::row, s66_isa::specs::Profiles::profile_of, s66_model::specs::Dependence::conflict, crate::specs::Words::digits))]
pub fn supposition_examples()
    ensures said { fact_reasons_text (three_adds second_by_lines) ≡
        codes "  1. If 1 FX1 X2+X3 stood before 2 FX4 X2+X5 in a faster order:\n" ++
        codes "    2. 3 FX6 X2+X7 stands before 2 FX4 X2+X5 in a faster order: 2 has the Add unit until 10 or later; behind it 3 could issue then, and from there to the end it is 5 or more: 15\n" ++
        codes "    3. 1 FX1 X2+X3 stands before 3 FX6 X2+X7 in a faster order: 3 has the Add unit until 5 or later; behind it 1 could issue then, and from there to the end it is 10 or more: 15\n" ++
        codes "  4. 2 FX4 X2+X5 stands before 1 FX1 X2+X3 in a faster order: if not, 2 issues at 10 or later, and from there to the end it is 5 or more: 15\n" ++
        codes "If an order took less than 15:\n" }
    ensures shown { pairs_of (three_adds second_by_lines) 2 1 ≡ 4 ∷ [] }
    ensures within { pairs_of (three_adds second_by_lines) 3 2 ≡ [] }
{}

/// Leaves of each kind that may close a tree, a tree that is said, and one that is counted.
#[tactic(auto, unfolding(s66_isa::specs::Table::row, s66_isa::specs::Profiles::profile_of, s66_model::specs::Timing::issue_of, s66_model::specs::Timing::start_of, s66_model::specs::Timing::point, crate::specs::Words::digits))]
pub fn reasons_examples()
    ensures chain { reasons_text one_load ≡
        codes "Every order takes 12 or more:\n" ++
        codes "   8  X1 of 1 SA1 A1+B1 is there, which 2 BX6 X1 reads\n" ++
        codes "  12  the unit of 2 BX6 X1 is free, and that is the end\n" ++
        codes "So the order of 12 is best.\n" }
    ensures load { reasons_text (record three_multiplies { bound = 17; tree = Alone (Bounding (Load Multiply)) }) ≡
        codes "Every order takes 17 or more:\n" ++
        codes "  17  1 FX1 X2*X3, 2 FX4 X5*X6 and 3 FX0 X7*X7 need the Multiply units for 11 each: 33, shared by 2\n" ++
        codes "The order found takes 22.\n" }
    ensures parcels { reasons_text (multiplies_at_once 13) ≡
        codes "Every order takes 13 or more:\n" ++
        codes "  13  if 1 FX1 X2*X3 issues last: at 2 or later, and 11 to the end\n" ++
        codes "  13  if 2 FX4 X5*X6 issues last: at 2 or later, and 11 to the end\n" ++
        codes "  13  if 3 FX0 X7*X7 issues last: at 2 or later, and 11 to the end\n" ++
        codes "So the order of 13 is best.\n" }
    ensures left { reasons_text before_their_writers ≡
        codes "Every order takes 16 or more:\n" ++
        codes "If an order took less than 16:\n" ++
        codes "  16  From the beginning it is 0 or more until one of 1 and 2 has its Boolean unit; these need it for 4 each, 8 in all; so the last of them begins at 4 or later, and from there to the end it is 12 or more: 16\n" ++
        codes "So the order of 16 is best.\n" }
    ensures tree { reasons_text (record three_multiplies { bound = 17; tree = Parted (1 ∷ 2 ∷ 3 ∷ []) (Unsplit (Bounding (Load Multiply)) (Unsplit (Bounding (Load Multiply)) (Unsplit (Bounding (Load Multiply)) NoMore))) }) ≡
        codes "Every order takes 17 or more, by 1 split:\n" ++
        codes "If 1 comes first:\n" ++
        codes "  17  2 FX4 X5*X6 and 3 FX0 X7*X7 need the Multiply units for 11 each: 22, shared by 2; with 10 for those before: 32; from 1 on\n" ++
        codes "If 2 comes first:\n" ++
        codes "  17  1 FX1 X2*X3 and 3 FX0 X7*X7 need the Multiply units for 11 each: 22, shared by 2; with 10 for those before: 32; from 1 on\n" ++
        codes "If 3 comes first:\n" ++
        codes "  17  1 FX1 X2*X3 and 2 FX4 X5*X6 need the Multiply units for 11 each: 22, shared by 2; with 10 for those before: 32; from 1 on\n" ++
        codes "The order found takes 22.\n" }
    ensures splits { reasons_text three_multiplies ≡
        codes "Every order takes 22 or more, by 10 splits.\n" ++
        codes "So the order of 22 is best.\n" }
{}
