//! Which blocks of a source are shown: all, or the one of `--block`.

ghost use Rattle.std.specs.Prelude.{◌≡◌, ◌<◌, ◌^◌, drop, take};
ghost use Rattle.s66_answer.specs.{before, shown};

use s66_line::Block;

/// How many blocks come before those that are printed: all, or the one of this number, from 1.
pub fn blocks_before(only: Option<u32>) -> usize
    ensures value { result ≡ before only }
    ensures few { result < 2 ^ 32 }
{
    match only {
        None => 0,
        Some(number) => number.saturating_sub(1) as usize,
    }
}

/// The block at a position, if there is one.
fn block_at<'a, 'b>(blocks: &'a [Block<'b>], position: usize) -> &'a [Block<'b>]
    ensures { result.now ≡ take 1 (drop position blocks.now) }
{
    if position < blocks.len() {
        &blocks[position..position + 1]
    } else {
        &[]
    }
}

/// The blocks that are printed: all, or the one of this number, from 1, if there is one.
pub fn shown<'a, 'b>(blocks: &'a [Block<'b>], only: Option<u32>) -> &'a [Block<'b>]
    ensures { result.now ≡ shown only blocks.now }
{
    match only {
        None => blocks,
        Some(_) => block_at(blocks, blocks_before(only)),
    }
}
