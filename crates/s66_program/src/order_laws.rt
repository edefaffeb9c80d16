//! What one reads in the bytes of what `order` wrote: contracts of functions that do nothing.

ghost use Rattle.std.specs.Prelude.{ℕ, Bool, true, List, Ok, Option, Some, codes, decimal, ◌++◌, ◌^◌, ◌<◌, ◌≡◌};
ghost use Rattle.s66_isa.specs.{Profile};
ghost use Rattle.s66_model.specs.{IsBound, total_of};
ghost use Rattle.s66_command.specs.{OrderStyle, Strategy};
ghost use Rattle.s66_line.specs.{Block};
ghost use Rattle.s66_source.specs.Halves.{Halves};
ghost use Rattle.s66_source.specs.{halves_of, Line, Reading, source_of};
ghost use Rattle.s66_compare.specs.{IsCompared};
ghost use Rattle.s66_answer.specs.{Status, Done, problem_of};
ghost use Rattle.s66_program.specs.{IsCompareOutput, IsOrdered, EndsIn, IsReported, ReportsBlocks};

/// What `order` wrote for a source has in the place of each block that is asked for and doesn't stand its instructions in a legal order,
/// after a line that tells what this order takes, unless it is quiet; each other line is as it was read, without the carriage returns at
/// its end. If the line ends in BEST, no legal order of the block takes less; if in AT LEAST and a number, none takes less than that.
pub fn reported_law()
    ensures blocks { (strategy : Strategy) (p : Profile) (style : OrderStyle) (only : Option ℕ) (source : Reading) (text : List ℕ)
        (status : Status) → IsOrdered strategy p style only source text status →
        ReportsBlocks p style only source text }
    ensures best { (p : Profile) (style : OrderStyle) (all : List Line) (n : ℕ) (block : Block) (text : List ℕ)
        (r : IsReported p style all n block text) → EndsIn r.line (codes " BEST") →
        IsBound (problem_of p block) (total_of (problem_of p block) r.order) }
    ensures least { (p : Profile) (style : OrderStyle) (all : List Line) (n : ℕ) (block : Block) (text : List ℕ)
        (r : IsReported p style all n block text) (bound : ℕ) → bound < 2 ^ 64 →
        EndsIn r.line (codes " AT LEAST " ++ decimal bound) → IsBound (problem_of p block) bound }
{}

/// If what `order` wrote for a source, with whichever options, is accepted again, `compare` accepts it: each block is the source's in a
/// legal order, or as it stands, and nothing that stands beside the blocks differs. So `compare` of the two ends with status 0.
pub fn compared_law()
    ensures compared { (strategy : Strategy) (p q : Profile) (style : OrderStyle) (only : Option ℕ) (source : Reading)
        (texts : Bool) (text : List ℕ) (status : Status) (again : List Block) → IsOrdered strategy p style only source text status →
        source_of (record { cut = source.cut; text = text }) ≡ Ok again →
        (compared : List ℕ) × IsCompared q texts source (record { cut = source.cut; text = text }) compared true }
    ensures accepted { (strategy : Strategy) (p q : Profile) (style : OrderStyle) (only : Option ℕ) (source : Reading)
        (texts : Bool) (text compared : List ℕ) (status : Status) (accepted : Bool) → IsOrdered strategy p style only source text status →
        IsCompared q texts source (record { cut = source.cut; text = text }) compared accepted → accepted ≡ true }
    ensures done { (strategy : Strategy) (p q : Profile) (style : OrderStyle) (only : Option ℕ) (texts cut : Bool)
        (halves : Halves) (input compared : List ℕ) (status ended : Status) → halves_of input ≡ Some halves →
        IsOrdered strategy p style only (record { cut = cut; text = halves.old }) halves.new status →
        IsCompareOutput q texts cut input compared ended → ended ≡ Done }
{}
