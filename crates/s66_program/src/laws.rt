//! What becomes of the output of `order` and `prove` that is read again: contracts of functions that do nothing.

ghost use Rattle.std.specs.Prelude.{ℕ, Bool, false, List, [], ◌∷◌, ◌++◌, length, map, Ok, Err, Option, ◌*◌, ◌≡◌, ◌≤◌, ◌<◌, codes, Some};
ghost use Rattle.s66_isa.specs.{Profile, Among, standard, BLOCK_LIMIT};
ghost use Rattle.s66_model.specs.{NoneNamed, IsBound, IsLegal, Problem, total_of};
ghost use Rattle.s66_command.specs.{OrderStyle, Strategy};
ghost use Rattle.s66_line.specs.{Block, instrs_of};
ghost use Rattle.s66_source.specs.{Reading, plain, printed_in, Placed, Usual, source_of, SourceError};
ghost use Rattle.s66_cert.specs.{Document, IsDocument, IsText, TIME_LIMIT, one_load, with_times};
ghost use Rattle.s66_checker.specs.{Yes, IsTrueClaim, verdict};
ghost use Rattle.s66_checker.specs.Verdict as checker;
ghost use Rattle.s66_answer.specs.{Status, Done, Denied, Answer, IsAnswer, document_under, problem_of};
ghost use Rattle.s66_program.specs.{SOURCE_FRONT, IsCheckOutput, verdict_lines, verdicts_status, AreYesLines, yes_lines, blocks_in, one_load_answer, one_load_ordered, one_load_source, IsOrdered};
ghost use Rattle.s66_program.specs.{all_placed, TakePrintedTimes, written_time, IsProveOutput, all_documents};

/// A text of at least `SOURCE_FRONT` bytes is refused as a source, for the same whatever follows.
pub fn front_law()
    ensures { (cut : Bool) (front rest : List ℕ) → SOURCE_FRONT ≤ length front →
        (e : SourceError) × (source_of (record { cut = cut; text = front ++ rest }) ≡ Err e) ×
        (source_of (record { cut = cut; text = front }) ≡ Err e) }
{}

/// No order of a block takes more minor cycles than a certificate may claim, whatever the profile.
pub fn total_limit_law()
    ensures { (b : Problem) (order : List ℕ) → length order ≤ BLOCK_LIMIT → total_of b order ≤ TIME_LIMIT }
{}

/// If what `order` wrote for a source, with whichever options, is accepted again, each of its blocks that is shown takes as written, under
/// the same profile, the time that was printed of it, and any other as long as it did in the source.
pub fn ordered_again_law()
    ensures { (strategy : Strategy) (p : Profile) (style : OrderStyle) (only : Option ℕ) (source : Reading) (text : List ℕ)
        (status : Status) (again : List Block) → IsOrdered strategy p style only source text status →
        source_of (record { cut = source.cut; text = text }) ≡ Ok again →
        TakePrintedTimes strategy p style only source text again }
{}

/// What is answered for a block of an accepted source, under any profile: a legal order with its exact total, a bound of the totals of all
/// legal orders, and a number of splits: at most three and a half times as many as a search may make, without `--deep` no more than these,
/// and no fewer if the bound is below the total.
pub fn answered_law()
    ensures legal { (strategy : Strategy) (p : Profile) (block : Block) (a : Answer) → IsAnswer strategy p block a →
        IsLegal (instrs_of block) a.order }
    ensures time { (strategy : Strategy) (p : Profile) (block : Block) (a : Answer) → IsAnswer strategy p block a →
        a.time ≡ total_of (problem_of p block) a.order }
    ensures bound { (strategy : Strategy) (p : Profile) (source : Reading) (blocks : List Block) (block : Block)
        (a : Answer) → source_of source ≡ Ok blocks → Among block blocks →
        IsAnswer strategy p block a → IsBound (problem_of p block) a.bound }
    ensures spent { (strategy : Strategy) (p : Profile) (block : Block) (a : Answer) → IsAnswer strategy p block a →
        a.bound < a.time → strategy.search.nodes ≤ a.splits }
    ensures few { (strategy : Strategy) (p : Profile) (block : Block) (a : Answer) → IsAnswer strategy p block a →
        2 * a.splits ≤ 7 * strategy.search.nodes }
    ensures alone { (strategy : Strategy) (p : Profile) (block : Block) (a : Answer) → strategy.deep ≡ false →
        IsAnswer strategy p block a → a.splits ≤ strategy.search.nodes }
{}

/// What is answered for a block of an accepted source, under any profile, makes a document of the block's own problem. The verdict on
/// it is yes, with the answer's time and bound.
pub fn proved_law()
    ensures same { (strategy : Strategy) (p : Profile) (source : Reading) (blocks : List Block) (block : Block)
        (a : Answer) → source_of source ≡ Ok blocks → Among block blocks →
        checker.problem_of (document_under strategy.search.rule p block a) ≡ problem_of p block }
    ensures document { (strategy : Strategy) (p : Profile) (source : Reading) (blocks : List Block) (block : Block)
        (a : Answer) → source_of source ≡ Ok blocks → Among block blocks →
        IsAnswer strategy p block a → IsDocument BLOCK_LIMIT (document_under strategy.search.rule p block a) }
    ensures yes { (strategy : Strategy) (p : Profile) (source : Reading) (blocks : List Block) (block : Block)
        (a : Answer) → source_of source ≡ Ok blocks → Among block blocks →
        IsAnswer strategy p block a → verdict (document_under strategy.search.rule p block a) ≡ Yes a.time a.bound }
{}

/// What `prove` wrote for a source, under any profile, is a text of documents. For each of them `check` writes YES, with the
/// answer's time and bound, and with `--text` the sentences below it; it writes nothing else, and is done.
pub fn checked_law()
    ensures yes { (texts : Bool) (strategy : Strategy) (p : Profile) (only : Option ℕ) (source : Reading)
        (text : List ℕ) (status : Status) →
        IsProveOutput strategy p only source text status →
        (lines : List ℕ) × AreYesLines texts strategy p only source text lines × IsCheckOutput texts text lines Done }
    ensures alone { (texts : Bool) (strategy : Strategy) (p : Profile) (only : Option ℕ) (source : Reading)
        (text lines : List ℕ) (status checked : Status) →
        IsProveOutput strategy p only source text status → IsCheckOutput texts text lines checked →
        AreYesLines texts strategy p only source text lines × (checked ≡ Done) }
{}

/// If `check` is done, each document of its input claims what is true: under its own profile its order is legal and takes its
/// time, and no legal order takes less than its bound. However it ends, each YES is true, whatever the other verdicts are.
pub fn done_law()
    ensures done { (texts : Bool) (input text : List ℕ) → IsCheckOutput texts input text Done →
        (ds : List Document) × IsText BLOCK_LIMIT input ds ×
        ((d : Document) → Among d ds → IsTrueClaim d × IsBound (checker.problem_of d) d.bound) }
    ensures each { (texts : Bool) (input text : List ℕ) (status : Status) → IsCheckOutput texts input text status →
        (ds : List Document) × IsText BLOCK_LIMIT input ds × (text ≡ verdict_lines texts 0 ds) ×
        ((d : Document) (time bound : ℕ) → Among d ds → verdict d ≡ Yes time bound →
        IsTrueClaim d × (time ≡ d.time) × IsBound (checker.problem_of d) bound) }
{}

/// The worked block of one load, as `order` and `prove` write it, and what `time` and `check` then write; and other documents of it.
#[tactic(auto, unfolding(s66_isa::specs::Profiles::profile_of, s66_isa::specs::Table::row, s66_model::specs::Dependence::conflict, s66_model::specs::Timing::issue_of, s66_model::specs::Timing::start_of, s66_model::specs::Timing::point, crate::specs::Examples::digits))]
pub fn again_examples()
    ensures ordered { printed_in false Usual (plain one_load_source)
        (map (λ (p : Placed). Some p) (all_placed standard false (blocks_in one_load_source) (one_load_answer ∷ []))) ≡ one_load_ordered }
    ensures time_again { map (written_time standard) (blocks_in one_load_ordered) ≡ 12 ∷ [] }
    ensures proved { all_documents NoneNamed standard (blocks_in one_load_source) (one_load_answer ∷ []) ≡ one_load ∷
        [] }
    ensures yes { yes_lines false 0 (one_load_answer ∷ []) (one_load ∷ []) ≡ codes "DOCUMENT 1 YES TIME 12 BOUND 12\n" }
    ensures checked { verdict_lines false 0 (one_load ∷ with_times 12 11 ∷ with_times 12 13 ∷ []) ≡
        codes "DOCUMENT 1 YES TIME 12 BOUND 12\n" ++ codes "DOCUMENT 2 YES TIME 12 BOUND 11\n" ++
        codes "DOCUMENT 3 NO LINE 8 REASON 8\n" }
    ensures done { verdicts_status (one_load ∷ with_times 12 11 ∷ []) ≡ Done }
    ensures denied { verdicts_status (one_load ∷ with_times 12 13 ∷ []) ≡ Denied }
{}
