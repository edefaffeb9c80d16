//! Worked examples: what the definition writes of small blocks under the standard profile. Each clause is a line, which was computed
//! from outside, and the functions do nothing.

ghost use Rattle.std.specs.Prelude.{[], ◌∷◌, ◌≡◌, ◌++◌, codes};
ghost use Rattle.serde_json.specs.Data.{no_members, null, object};
ghost use Rattle.serde_json.specs.Written.{compact_text};
ghost use Rattle.s66_isa.specs.{standard};
ghost use Rattle.s66_views.specs.JsonExamples.{in_order, labelled};
ghost use Rattle.s66_views.specs.{loads_and_two, found_data, instruction_data, json_line, profile_members, written_data};

/// A block of one store: its label has a quote and a byte that is no ASCII, its text is in upper case, and it writes a register alone.
#[tactic(auto, unfolding(s66_isa::specs::Table::row, s66_model::specs::Timing::issue_of, s66_model::specs::Timing::start_of, s66_model::specs::Timing::point, s66_why::specs::Why::digits, json::specs::Print::escape_byte))]
pub fn label_example()
    ensures { json_line 7 (codes "A\"" ++ 233 ∷ []) labelled (in_order labelled (1 ∷ [])) null ≡
        codes "{\"schema\":1,\"block\":7,\"label\":\"A\\\"" ++ 195 ∷ 169 ∷ codes "\",\"entry\":\"A\\\"" ++ 195 ∷ 169 ∷ codes "\",\"line\":3,\"last_line\":3,\"count\":1,\"parcels\":1,\"instructions\":[{\"n\":1,\"line\":3,\"text\":\"SA6 B1\",\"unit\":\"increment\",\"parcels\":1,\"works\":3,\"reads\":[\"B1\",\"X6\"],\"writes\":[\"A6\"],\"memory\":\"store\",\"after\":[]}],\"written\":{\"time\":4,\"no\":0,\"order\":[1],\"at\":[{\"n\":1,\"parcel\":0,\"issue\":0,\"start\":0,\"done\":3,\"free\":4,\"results\":[{\"register\":\"A6\",\"done\":3}],\"waits\":[]}],\"path\":[1],\"steps\":[4],\"lost\":{\"first\":0,\"second\":0,\"third\":0}},\"found\":null}\n" }
{}

/// Two numbers that aren't the standard profile's.
#[tactic(auto, unfolding(s66_why::specs::Why::digits, json::specs::Print::escape_byte))]
pub fn profile_example()
    ensures { compact_text (object (profile_members (record { place = 9; value = 5 } ∷ record { place = 12; value = 2 } ∷ []) no_members)) ≡
        codes "{\"profile\":{\"load\":5,\"units_add\":2}}" }
{}

/// A load.
#[tactic(auto, unfolding(s66_isa::specs::Table::row, s66_model::specs::Timing::issue_of, s66_model::specs::Timing::start_of, s66_model::specs::Timing::point, s66_why::specs::Why::digits, json::specs::Print::escape_byte))]
pub fn instruction_example()
    ensures { compact_text (instruction_data standard loads_and_two 1) ≡
        codes "{\"n\":1,\"line\":1,\"text\":\"SA1 A1+B1\",\"unit\":\"increment\",\"parcels\":1,\"works\":3,\"reads\":[\"A1\",\"B1\"],\"writes\":[\"A1\",\"X1\"],\"memory\":\"load\",\"after\":[]}" }
{}

/// Three instructions as they are written.
#[tactic(auto, unfolding(s66_isa::specs::Table::row, s66_model::specs::Timing::issue_of, s66_model::specs::Timing::start_of, s66_model::specs::Timing::point, s66_why::specs::Why::digits, json::specs::Print::escape_byte))]
pub fn written_example()
    ensures { compact_text (written_data (in_order loads_and_two (1 ∷ 2 ∷ 3 ∷ []))) ≡
        codes "{\"time\":16,\"no\":0,\"order\":[1,2,3],\"at\":[" ++
        codes "{\"n\":1,\"parcel\":0,\"issue\":0,\"start\":0,\"done\":8,\"free\":4,\"results\":[{\"register\":\"A1\",\"done\":3},{\"register\":\"X1\",\"done\":8}],\"waits\":[]}," ++
        codes "{\"n\":2,\"parcel\":1,\"issue\":1,\"start\":8,\"done\":11,\"free\":12,\"results\":[{\"register\":\"X6\",\"done\":11}],\"waits\":[{\"conflict\":\"second\",\"from\":1,\"to\":8,\"for\":\"register\",\"name\":\"X1\",\"by\":1}]}," ++
        codes "{\"n\":3,\"parcel\":2,\"issue\":12,\"start\":12,\"done\":15,\"free\":16,\"results\":[{\"register\":\"X7\",\"done\":15}],\"waits\":[{\"conflict\":\"first\",\"from\":2,\"to\":12,\"for\":\"unit\",\"name\":\"boolean\",\"by\":2}]}],\"path\":[1,2,3],\"steps\":[8,4,4],\"lost\":{\"first\":10,\"second\":7,\"third\":0}}" }
{}

/// And in an order that takes four minor cycles less.
#[tactic(auto, unfolding(s66_isa::specs::Table::row, s66_model::specs::Timing::issue_of, s66_model::specs::Timing::start_of, s66_model::specs::Timing::point, s66_why::specs::Why::digits, json::specs::Print::escape_byte))]
pub fn found_example()
    ensures { compact_text (found_data (in_order loads_and_two (1 ∷ 3 ∷ 2 ∷ [])) 12 0) ≡
        codes "{\"time\":12,\"no\":0,\"order\":[1,3,2],\"at\":[" ++
        codes "{\"n\":1,\"parcel\":0,\"issue\":0,\"start\":0,\"done\":8,\"free\":4,\"results\":[{\"register\":\"A1\",\"done\":3},{\"register\":\"X1\",\"done\":8}],\"waits\":[]}," ++
        codes "{\"n\":3,\"parcel\":1,\"issue\":1,\"start\":1,\"done\":4,\"free\":5,\"results\":[{\"register\":\"X7\",\"done\":4}],\"waits\":[]}," ++
        codes "{\"n\":2,\"parcel\":2,\"issue\":5,\"start\":8,\"done\":11,\"free\":12,\"results\":[{\"register\":\"X6\",\"done\":11}],\"waits\":[{\"conflict\":\"first\",\"from\":2,\"to\":5,\"for\":\"unit\",\"name\":\"boolean\",\"by\":3},{\"conflict\":\"second\",\"from\":5,\"to\":8,\"for\":\"register\",\"name\":\"X1\",\"by\":1}]}],\"path\":[1,2],\"steps\":[8,4],\"lost\":{\"first\":3,\"second\":3,\"third\":0},\"bound\":12,\"best\":true,\"splits\":0}" }
{}
