//! Laws of the page: escaped texts are text alone, it has no script and fetches nothing, and each row tells the times of its
//! instruction.

ghost use Rattle.std.specs.Prelude.{ℕ, List, ◌≡◌, ◌<◌, ◌-◌, ◌^◌, false, true, codes, length, take};
ghost use Rattle.s66_isa.specs.{Among, every, latency_of};
ghost use Rattle.s66_model.specs.{Point as PointOf, points_of};
ghost use Rattle.s66_line.specs.{Block as BlockOf};
ghost use Rattle.s66_time.specs.TimedOrder.{TimedOrder};
ghost use Rattle.s66_time.specs.{point_at};
ghost use Rattle.s66_why.specs.{stretches_at, Stretch as StretchOf};
ghost use Rattle.s66_views.specs.{escaped_byte, escaped, escaped_lines, is_harmless, is_harmless_or_newline, is_reference_or, page_instruction_row, on_path, page_order_text, Holds, place_of_bar, title_of_times};
ghost use Rattle.s66_views.specs.{is_still, PAGE_START, PAGE_HEAD, PAGE_LIST, PAGE_PAIRS};

/// A source can't break out of its text. Whatever its bytes are, an escaped text has printed bytes of ASCII and tabs alone, and no
/// bracket or quote, so that no element or attribute begins or ends in it; of several lines, newlines too. Each byte is itself, or a reference to one character.
pub fn escape_law()
    ensures harmless { (text : List ℕ) → ((b : ℕ) → Among b text → b < 2 ^ 8) →
        every is_harmless (escaped text) ≡ true }
    ensures lines { (text : List ℕ) → ((b : ℕ) → Among b text → b < 2 ^ 8) →
        every is_harmless_or_newline (escaped_lines text) ≡ true }
    ensures references { (b : ℕ) → b < 2 ^ 8 → is_reference_or b (escaped_byte b) ≡ true }
{}

/// What stands before the list of blocks has no script, and names nothing that is fetched.
pub fn head_law()
    ensures start { is_still PAGE_START.now ≡ true }
    ensures head { is_still PAGE_HEAD.now ≡ true }
    ensures list { is_still PAGE_LIST.now ≡ true }
    ensures pairs { is_still PAGE_PAIRS.now ≡ true }
{}

/// What is shown of an order holds a row for each instruction. The row tells the times that `time --trace` prints, and has a bar
/// from the start for the latency of the last result, and one for each stretch in which the instruction is kept back.
pub fn row_law()
    ensures rows { (block : BlockOf) (title : List ℕ) (t : TimedOrder) (i : ℕ) → i < length t.numbers →
        Holds (page_order_text block title t)
        (page_instruction_row block (on_path t) (points_of t.problem (take i t.numbers)) (point_at t i)) }
    ensures times { (block : BlockOf) (on_path : List ℕ) (s : List PointOf) (p : PointOf) →
        Holds (page_instruction_row block on_path s p) (title_of_times p) }
    ensures work { (block : BlockOf) (on_path : List ℕ) (s : List PointOf) (p : PointOf) →
        Holds (page_instruction_row block on_path s p) (place_of_bar p.start (latency_of p.row)) }
    ensures waits { (block : BlockOf) (on_path : List ℕ) (s : List PointOf) (p : PointOf) (x : StretchOf) →
        Among x (stretches_at s p) → Holds (page_instruction_row block on_path s p) (place_of_bar x.from (x.to - x.from)) }
{}

/// Texts that are not still, each for another word.
pub fn still_examples()
    ensures script { is_still (codes "a<script>") ≡ false }
    ensures address { is_still (codes "'http://a'") ≡ false }
    ensures source { is_still (codes "<img src=a>") ≡ false }
    ensures url { is_still (codes "b{background:url(a)}") ≡ false }
    ensures import { is_still (codes "@import 'a'") ≡ false }
{}
