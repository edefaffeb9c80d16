//! The text of documents.
//! Worked examples of printing: documents, and their texts.

ghost use Rattle.std.specs.Prelude.{ℕ, List, [], ◌∷◌, ◌++◌, ◌≡◌, codes};
ghost use Rattle.s66_isa.specs.{entries, standard, BLOCK_LIMIT};
ghost use Rattle.s66_model.specs.{WrittenEarlier, ClampedStanding, Parcels, Alone, flat, Bounding, uneven_profile};
ghost use Rattle.s66_moments.specs.{Issue, At, End};
ghost use Rattle.s66_cert.specs.{with_fact_line, Document, IsText, document_text, tree_lines};
ghost use Rattle.s66_cert.specs.Examples as examples;

/// The text of each worked document, what is read of a text, and texts of which nothing is read.
#[tactic(auto, unfolding(crate::specs::Examples::digits))]
pub fn text_examples()
    ensures three_multiplies_text { document_text examples.three_multiplies ≡ examples.three_multiplies_text }
    ensures three_multiplies_is_read { IsText BLOCK_LIMIT examples.three_multiplies_text
        (examples.three_multiplies ∷ []) }
    ensures store_then_load_text { document_text examples.store_then_load ≡ examples.store_then_load_text }
    ensures store_then_load_is_read { IsText BLOCK_LIMIT examples.store_then_load_text (examples.store_then_load ∷ []) }
    ensures one_load_text { document_text examples.one_load ≡ examples.one_load_text }
    ensures one_load_is_read { IsText BLOCK_LIMIT examples.one_load_text (examples.one_load ∷ []) }
    ensures two_booleans_text { document_text examples.two_booleans ≡ examples.two_booleans_text }
    ensures two_booleans_is_read { IsText BLOCK_LIMIT examples.two_booleans_text (examples.two_booleans ∷ []) }
    ensures zero_register_text { document_text examples.zero_register ≡ examples.zero_register_text }
    ensures zero_register_is_read { IsText BLOCK_LIMIT examples.zero_register_text (examples.zero_register ∷ []) }
    ensures extremes_text { document_text examples.extremes ≡ examples.extremes_text }
    ensures extremes_is_read { IsText BLOCK_LIMIT examples.extremes_text (examples.extremes ∷ []) }
    ensures late_reader_text { document_text (examples.late_reader WrittenEarlier) ≡
        examples.late_reader_text (codes "S66 CERTIFICATE 2") }
    ensures late_reader_is_read { IsText BLOCK_LIMIT (examples.late_reader_text (codes "S66 CERTIFICATE 2"))
        (examples.late_reader WrittenEarlier ∷ []) }
    ensures standing_nodes_text { document_text (examples.late_reader ClampedStanding) ≡
        examples.late_reader_text (codes "S66 CERTIFICATE 3") }
    ensures standing_nodes_are_read { IsText BLOCK_LIMIT (examples.late_reader_text (codes "S66 CERTIFICATE 3"))
        (examples.late_reader ClampedStanding ∷ []) }
    ensures by_facts_text { document_text examples.by_facts ≡ examples.by_facts_text }
    ensures by_facts_is_read { IsText BLOCK_LIMIT examples.by_facts_text (examples.by_facts ∷ []) }
    ensures by_supposition_text { document_text examples.by_supposition ≡ examples.by_supposition_text }
    ensures by_supposition_is_read { IsText BLOCK_LIMIT examples.by_supposition_text (examples.by_supposition ∷ []) }
    ensures load_text { document_text (record (examples.with_load (At 1 Issue) End 2 10
        (3 ∷ 4 ∷ [])) { tree = Alone (Bounding Parcels) }) ≡ with_fact_line (codes "A I1 END 2 10 3 4") }
    ensures each_unit_load { tree_lines (flat examples.unit_loads) ≡ examples.unit_loads_lines }
    ensures standard_profile { entries standard ≡ examples.standard_numbers }
    ensures uneven_profile { entries uneven_profile ≡ 11 ∷ 12 ∷ 13 ∷ 14 ∷ 15 ∷ 16 ∷ 17 ∷ 18 ∷ 20 ∷ 19 ∷ 1 ∷ 2 ∷ 3 ∷ 4 ∷
        5 ∷ 6 ∷ 7 ∷ [] }
    ensures two_documents { IsText BLOCK_LIMIT (examples.three_multiplies_text ++ examples.one_load_text)
        (examples.three_multiplies ∷ examples.one_load ∷ []) }
    ensures no_document { IsText BLOCK_LIMIT [] [] }
    ensures nothing_is_read_of_no_text { (limit : ℕ) (ds : List Document) → IsText limit [] ds → ds ≡ [] }
    ensures other_version { (limit : ℕ) (more : List ℕ) (ds : List Document) →
        ¬ IsText limit (codes "S66 CERTIFICATE 6\n" ++ more) ds }
    ensures unfinished_line { (limit : ℕ) (text : List ℕ) (ds : List Document) →
        ¬ IsText limit (text ++ codes "END") ds }
    ensures text_goes_on { ¬ IsText BLOCK_LIMIT (examples.one_load_text ++ codes "\n") (examples.one_load ∷ []) }
    ensures no_document_alone { ¬ IsText BLOCK_LIMIT (document_text (examples.with_order (129 ∷ [])))
        (examples.with_order (129 ∷ []) ∷ []) }
    ensures no_document_behind_one { ¬ IsText BLOCK_LIMIT (examples.one_load_text ++
        document_text (examples.with_order (129 ∷ []))) (examples.one_load ∷ examples.with_order (129 ∷ []) ∷ []) }
{}
