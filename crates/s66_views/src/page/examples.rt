//! Worked examples: what the definition writes of small blocks under the standard profile. Each clause is a text, which was computed
//! from outside, and the functions do nothing.

ghost use Rattle.std.specs.Prelude.{[], ◌∷◌, ◌≡◌, ◌++◌, codes};
ghost use Rattle.s66_model.specs.{third_order, three_multiplies, points_of};
ghost use Rattle.s66_why.specs.{works};
ghost use Rattle.s66_views.specs.{found_for, labelled, one_boolean, third_order_lines, all_kind_rows, block_text, index_row, instruction_rows, page_title, profile_line, total_of_all};
ghost use Rattle.s66_views.specs.PageExamples.{in_order};

/// A block of one instruction, whose unit is taken for four minor cycles and works for three, and whose register for three; its name and its remark are escaped.
#[tactic(auto, unfolding(s66_isa::specs::Table::row, s66_model::specs::Timing::issue_of, s66_model::specs::Timing::start_of, s66_model::specs::Timing::point, crate::specs::Escape::digits, crate::specs::Page::span, crate::specs::Page::bar_start, crate::specs::Page::stretch_title, crate::specs::Page::stretch_bar, crate::specs::Page::stretch_words, crate::specs::Page::work_title, crate::specs::Page::work_bar, crate::specs::Page::row_head, crate::specs::Page::row_words, crate::specs::Page::row_marks, crate::specs::Page::numbered_bar, crate::specs::Page::number_at, crate::specs::Page::unit_bars, crate::specs::Page::unit_shares, crate::specs::Page::page_unit_head, crate::specs::Page::page_unit_row, crate::specs::Page::page_kind_rows, crate::specs::Page::all_kind_rows, crate::specs::Page::register_bar, crate::specs::Page::page_register_head, crate::specs::Page::page_register_row, crate::specs::Page::heading, crate::specs::Page::heading_end, crate::specs::Page::table_start, crate::specs::Page::order_head, crate::specs::Page::why_below, crate::specs::Page::page_order_text, crate::specs::Page::page_bound_text, crate::specs::Page::block_place, crate::specs::Page::block_times, crate::specs::Page::block_anchor, crate::specs::Page::block_title, crate::specs::Page::block_verdict, crate::specs::Page::page_block_head, crate::specs::Page::page_listing, crate::specs::Page::block_text))]
pub fn block_example()
    ensures { block_text 1 (codes "A&B") labelled (in_order one_boolean (1 ∷ [])) (in_order one_boolean (1 ∷ [])) 4 (codes "X1 < X2\n") ≡
        codes "<h2 id='b1'>A&amp;B BLOCK 1 LINE 1 COUNT 1 SOURCE 4 TIME 4 BEST <a href='#top'>&#8593;</a></h2>\n" ++
        codes "<h3>As it is written: 4 minor cycles</h3>\n" ++
        codes "<table class='order' style='--n:4'>\n" ++
        codes "<thead><tr class='ruler'><th><td><svg><text x='0em' y='12'><tspan>0</tspan></text></svg>\n" ++
        codes "<tbody>\n" ++
        codes "<tr class='unit'><th>     BOOLEAN TAKEN 100 % WORKS 75 %<td><svg><rect class='taken' x='0em' width='4em'><title>1</title></rect><rect class='BOOLEAN' x='0em' width='3em'><title>1</title></rect><text x='0em' y='12'><tspan>1</tspan></text></svg>\n" ++
        codes "<tr class='register'><th>     X6<td><svg><rect class='taken' x='0em' width='3em'><title>1</title></rect><text x='0em' y='12'><tspan>1</tspan></text></svg>\n" ++
        codes "<tr class='path'><th>  1  BX6 X1    &lt;2<td><svg><rect class='BOOLEAN' x='0em' width='3em'><title>ISSUE 0 START 0 DONE 3 FREE 4</title></rect><text x='3em' y='12' dx='2'></text></svg>\n" ++
        codes "</table>\n" ++
        codes "<pre>PATH 1\n" ++
        codes "STEPS 4 TIME 4\n" ++
        codes "LOST FIRST 0 SECOND 0 THIRD 0\n" ++
        codes "</pre>\n" ++
        codes "<pre style='columns:auto'>X1 &lt; X2\n" ++
        codes "</pre>\n" }
{}

/// An instruction that waits for an operand, and one whose result is held until that has read its register.
#[tactic(auto, unfolding(s66_isa::specs::Table::row, s66_model::specs::Timing::issue_of, s66_model::specs::Timing::start_of, s66_model::specs::Timing::point, crate::specs::Escape::digits, crate::specs::Page::span, crate::specs::Page::bar_start, crate::specs::Page::stretch_title, crate::specs::Page::stretch_bar, crate::specs::Page::stretch_words, crate::specs::Page::work_title, crate::specs::Page::work_bar, crate::specs::Page::row_head, crate::specs::Page::row_words, crate::specs::Page::row_marks))]
pub fn row_example()
    ensures { instruction_rows third_order_lines (2 ∷ 1 ∷ []) (points_of (in_order third_order (1 ∷ 2 ∷ 3 ∷ [])).problem (1 ∷ 2 ∷ 3 ∷ [])) ≡
        codes "<tr class='path'><th>  1  FX1 X2/X3<td><svg><rect class='DIVIDE' x='0em' width='29em'><title>ISSUE 0 START 0 DONE 29 FREE 30</title></rect><text x='29em' y='12' dx='2'></text></svg>\n" ++
        codes "<tr class='path'><th>  2  BX4 X1*X5<td><svg><rect class='SECOND' x='1em' width='28em'><title>SECOND 1 TO 29: X1 still to come from 1</title></rect><rect class='BOOLEAN' x='29em' width='3em'><title>ISSUE 1 START 29 DONE 32 FREE 33</title></rect><text x='32em' y='12' dx='2'> <tspan class='SECOND'>X1 still to come from 1</tspan></text></svg>\n" ++
        codes "<tr><th>  3  SX5 B1<td><svg><rect class='THIRD' x='5em' width='25em'><title>THIRD 5 TO 30: X5 still to be read by 2</title></rect><rect class='INCREMENT' x='2em' width='3em'><title>ISSUE 2 START 2 DONE 30 FREE 31</title></rect><text x='30em' y='12' dx='2'> <tspan class='THIRD'>X5 still to be read by 2</tspan></text></svg>\n" }
{}

/// Two Multiply units: the first takes the first instruction, and the third when it is free.
#[tactic(auto, unfolding(s66_isa::specs::Table::row, s66_model::specs::Timing::issue_of, s66_model::specs::Timing::start_of, s66_model::specs::Timing::point, crate::specs::Escape::digits, crate::specs::Page::span, crate::specs::Page::bar_start, crate::specs::Page::numbered_bar, crate::specs::Page::number_at, crate::specs::Page::unit_bars, crate::specs::Page::unit_shares, crate::specs::Page::page_unit_head, crate::specs::Page::page_unit_row, crate::specs::Page::page_kind_rows, crate::specs::Page::all_kind_rows))]
pub fn unit_example()
    ensures { all_kind_rows 22 (works (in_order three_multiplies (1 ∷ 2 ∷ 3 ∷ []))) ≡
        codes "<tr class='unit'><th>     MULTIPLY TAKEN 100 % WORKS 90 %<td><svg><rect class='taken' x='0em' width='11em'><title>1</title></rect><rect class='MULTIPLY' x='0em' width='10em'><title>1</title></rect><text x='0em' y='12'><tspan>1</tspan></text><rect class='taken' x='11em' width='11em'><title>3</title></rect><rect class='MULTIPLY' x='11em' width='10em'><title>3</title></rect><text x='11em' y='12'><tspan>3</tspan></text></svg>\n" ++
        codes "<tr class='unit'><th>     MULTIPLY TAKEN 50 % WORKS 45 %<td><svg><rect class='taken' x='1em' width='11em'><title>2</title></rect><rect class='MULTIPLY' x='1em' width='10em'><title>2</title></rect><text x='1em' y='12'><tspan>2</tspan></text></svg>\n" }
{}

/// A block with a name and with a bound that isn't its time, and the total of two such rows, one of them best.
#[tactic(auto, unfolding(crate::specs::Escape::digits, crate::specs::Page::index_link, crate::specs::Page::entry_cell, crate::specs::Page::table_cell, crate::specs::Page::time_cells, crate::specs::Page::bound_cell, crate::specs::Page::index_row, crate::specs::Page::page_bound_text, crate::specs::Page::best_cell, crate::specs::Page::total_row))]
pub fn index_example()
    ensures row { index_row (codes "A&B")
        (record { number = 12; line = 34; count = 5; source = 60; time = 50; bound = 48 }) ≡
        codes "<tr><td><a href='#b12'>12</a><td>A&amp;B<td>34<td>5<td>60<td>50<td>10<td>AT LEAST 48\n" }
    ensures total { total_of_all (record { number = 12; line = 34; count = 5; source = 60; time = 50; bound = 48 } ∷
        record { number = 13; line = 40; count = 2; source = 7; time = 7; bound = 7 } ∷ []) ≡
        codes "<tr><td>TOTAL<td><td><td>7<td>67<td>57<td>10<td>BEST 1\n" }
{}

/// The title names the first block, if it has a name; a page without a block has the program's name.
#[tactic(auto, unfolding(crate::specs::Escape::digits))]
pub fn title_example()
    ensures first { page_title 0 (found_for (codes "A&B") ∷ found_for [] ∷ []) ≡ codes "A&amp;B BLOCK 1" }
    ensures seventh { page_title 6 (found_for [] ∷ []) ≡ codes " BLOCK 7" }
    ensures none { page_title 0 [] ≡ codes "s66" }
{}

/// Under the standard profile nothing is said of it.
#[tactic(auto, unfolding(crate::specs::Escape::digits))]
pub fn profile_line_example()
    ensures some { profile_line (record { place = 9; value = 5 } ∷ record { place = 12; value = 2 } ∷ []) ≡
        codes "<p>Profile: load 5 units_add 2</p>\n" }
    ensures none { profile_line [] ≡ [] }
{}
