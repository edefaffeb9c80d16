//! A hash of a block's instructions that doesn't depend on their order, by which blocks are aligned.

use s66_line::Block;
use std::alloc::{AllocError, Global};

/// A hash of a text: FNV-1a, and then a mixing of its bits, so that sums of hashes differ where the sets of texts do.
fn text_hash(text: &[u8]) -> u64 {
    let mut hash: u64 = 0xCBF2_9CE4_8422_2325;
    for byte in text {
        hash = (hash ^ *byte as u64).wrapping_mul(0x0100_0000_01B3);
    }
    hash = (hash ^ (hash >> 33)).wrapping_mul(0xFF51_AFD7_ED55_8CCD);
    hash = (hash ^ (hash >> 33)).wrapping_mul(0xC4CE_B9FE_1A85_EC53);
    hash ^ (hash >> 33)
}

/// A number of a block's instructions, in any order: blocks of the same instructions have the same, and others nearly always differ.
fn fingerprint(block: &Block) -> u64 {
    let mut sum: u64 = 0;
    for position in 0..block.count() {
        sum = sum.wrapping_add(text_hash(block.whole_text(position + 1).as_slice()));
    }
    sum
}

/// The fingerprint of each block. `Err` is out of memory.
pub(crate) fn fingerprints(alloc: Global, blocks: &[Block]) -> Result<Vec<u64>, AllocError> {
    let mut prints = Vec::new(alloc);
    for block in blocks {
        prints.push(fingerprint(block))?;
    }
    Ok(prints)
}
