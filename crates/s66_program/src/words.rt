//! How many words of 60 bits an order takes, with the `NO`s that packing fills in.

ghost use Rattle.std.specs.Prelude.{ℕ, ◌≡◌, ◌≤◌, ◌+◌, ◌*◌, length};
ghost use Rattle.s66_isa.specs.{Among, BLOCK_LIMIT};
ghost use Rattle.s66_line.specs.{instrs_of};
ghost use Rattle.s66_program.specs.{parcel_after, words_for, words_of};

use s66_line::Block;

/// How many parcels a word has.
pub(crate) const WORD: u32 = 4;

/// The parcel behind an order of a block that begins with this parcel, with the NOs that fill up words.
pub(crate) fn parcel_after(block: &Block, order: &[u8], parcel: u32) -> u32
    requires numbers { (n : ℕ) → Among n order.now → (1 ≤ n) × (n ≤ length block.now.entries) }
    requires few { length order.now ≤ BLOCK_LIMIT }
    requires small { parcel ≤ 1000000 }
    ensures value { result ≡ parcel_after (instrs_of block.now) parcel order.now }
    ensures near { result ≤ parcel + 3 * BLOCK_LIMIT }
{
    let mut parcel = parcel;
    for number in order {
        let taken = block.instr(*number as usize).parcels();
        if taken == 2 && parcel % WORD == 3 {
            parcel += 1;
        }
        parcel += taken;
    }
    parcel
}

/// How many words this many parcels take.
pub(crate) fn words_for(parcels: u32) -> u32
    ensures { result ≡ words_for parcels }
{
    parcels.div_ceil(WORD)
}

/// How many words an order of a block takes, from the block's first parcel on, with the NOs that fill up words.
pub(crate) fn words_of(block: &Block, order: &[u8]) -> u32
    requires numbers { (n : ℕ) → Among n order.now → (1 ≤ n) × (n ≤ length block.now.entries) }
    requires few { length order.now ≤ BLOCK_LIMIT }
    ensures { result ≡ words_of (instrs_of block.now) order.now }
{
    words_for(parcel_after(block, order, 0))
}
