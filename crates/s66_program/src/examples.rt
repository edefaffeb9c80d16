//! What is told after a success, worked: contracts of a function that does nothing.

ghost use Rattle.std.specs.Prelude.{true, false, [], ◌≡◌, ◌++◌, codes};
ghost use Rattle.s66_answer.specs.{Bounded, Done};
ghost use Rattle.s66_program.specs.{bounded_line, remark_text};
ghost use Rattle.s66_program.specs.declared.remark.Missing.TheVariants as missing;

/// What is told of an input that lacks something or nothing, by how many lines `lint` lists, and of one with switches around regions.
#[tactic(auto, unfolding(crate::specs::Examples::digits))]
pub fn remark_examples()
    ensures none { remark_text (record { missing = missing.Nothing; cut = true; listed = 0; regions = 0; lines = 0 }) ≡ [] }
    ensures one { remark_text (record { missing = missing.Nothing; cut = false; listed = 1; regions = 0; lines = 0 }) ≡
        codes "s66 lint lists 1 line that order may harm\n" }
    ensures several { remark_text (record { missing = missing.Nothing; cut = true; listed = 3; regions = 0; lines = 0 }) ≡
        codes "s66 lint --cut lists 3 findings; s66 guard puts switches around the code\n" }
    ensures both { remark_text (record { missing = missing.Blocks; cut = false; listed = 12; regions = 0; lines = 0 }) ≡
        codes "no block: an instruction's operation begins in column 3 or later\n" ++
        codes "s66 lint lists 12 lines that order may harm\n" }
    ensures no_line { remark_text (record { missing = missing.Lines; cut = false; listed = 0; regions = 0; lines = 0 }) ≡
        codes "no block: the source is empty\n" }
    ensures no_such_block { remark_text (record { missing = missing.Block 99 14; cut = false; listed = 1; regions = 0; lines = 0 }) ≡
        codes "no block 99: the last is 14\n" ++ codes "s66 lint lists 1 line that order may harm\n" }
    ensures no_document { remark_text (record { missing = missing.Documents; cut = false; listed = 0; regions = 0; lines = 0 }) ≡
        codes "no document: s66 check reads what s66 prove prints\n" }
    ensures one_finding { remark_text (record { missing = missing.Nothing; cut = true; listed = 1; regions = 0; lines = 0 }) ≡
        codes "s66 lint --cut lists 1 finding; s66 guard puts switches around the code\n" }
    ensures regions { remark_text (record { missing = missing.Nothing; cut = true; listed = 0; regions = 3; lines = 41 }) ≡
        codes "3 places with 41 lines are left alone\n" }
    ensures one_region { remark_text (record { missing = missing.Nothing; cut = true; listed = 0; regions = 1; lines = 1 }) ≡
        codes "1 place with 1 line is left alone\n" }
    ensures one_region_of_several { remark_text (record { missing = missing.Nothing; cut = true; listed = 0; regions = 1; lines = 2 }) ≡
        codes "1 place with 2 lines is left alone\n" }
    ensures none_bounded { bounded_line Done ≡ [] }
    ensures one_bounded { bounded_line (Bounded 1 1) ≡ codes "1 of 1 block is only bounded; --deep may decide it\n" }
    ensures one_of_several { bounded_line (Bounded 1 12) ≡ codes "1 of 12 blocks is only bounded; --deep may decide it\n" }
    ensures several_bounded { bounded_line (Bounded 112 1243) ≡
        codes "112 of 1243 blocks are only bounded; --deep decides most of these\n" }
{}
