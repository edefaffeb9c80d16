//! What is true of all lines: contracts of functions that do nothing.

ghost use Rattle.std.specs.Prelude.{ℕ, List, ◌≡◌, ◌<◌, ◌^◌, Some, codes, option_and_then};
ghost use Rattle.serde_json.specs.Data.{null};
ghost use Rattle.serde_json.specs.Find.{get};
ghost use Rattle.s66_isa.specs.{Among};
ghost use Rattle.s66_line.specs.{Block as BlockOf};
ghost use Rattle.s66_time.specs.TimedOrder.{TimedOrder};
ghost use Rattle.s66_views.specs.{block_data, characters, found_data, list_of, num, bytes_in};

/// Who reads a line finds in it the numbers of the order that it is of, and nothing found where nothing was.
pub fn order_law()
    ensures written { (n : ℕ) (entry : List ℕ) (block : BlockOf) (t : TimedOrder) →
        option_and_then (get (codes "order"))
        (option_and_then (get (codes "written")) (Some (block_data n entry block t null))) ≡ Some (list_of num t.numbers) }
    ensures found { (n : ℕ) (entry : List ℕ) (block : BlockOf) (t f : TimedOrder) (bound splits : ℕ) →
        option_and_then (get (codes "order"))
        (option_and_then (get (codes "found")) (Some (block_data n entry block t (found_data f bound splits)))) ≡
        Some (list_of num f.numbers) }
    ensures nothing { (n : ℕ) (entry : List ℕ) (block : BlockOf) (t : TimedOrder) →
        option_and_then (get (codes "found")) (Some (block_data n entry block t null)) ≡ Some null }
{}

/// The bytes of any text can be got back from its characters.
pub fn bytes_law()
    ensures { (text : List ℕ) → ((b : ℕ) → Among b text → b < 2 ^ 8) → bytes_in (characters text) ≡ text }
{}
