//! Copies of what is found.
//! Finders that go on from another one's lines make them.

use arrayvec::ArrayVec;
use s66_isa::BLOCK_LIMIT;
use s66_moments::{FactLine, LoadLine};
use std::alloc::{AllocError, Global};

/// The same items, of which there are no more than a block's instructions.
pub(crate) fn copy_of<T: Copy + Default>(items: &[T]) -> ArrayVec<T, BLOCK_LIMIT> {
    let mut copy = ArrayVec::new();
    let _ = copy.try_extend_from_slice(items);
    copy
}

/// The same load line.
fn copy_of_load(load: &LoadLine) -> LoadLine {
    LoadLine {
        from: load.from,
        to: load.to,
        after: load.after,
        wait: load.wait,
        numbers: copy_of(load.numbers.as_slice()),
    }
}

/// The same line.
pub(crate) fn copy_of_line(line: &FactLine) -> FactLine {
    match line {
        FactLine::Pair(m, n) => FactLine::Pair(*m, *n),
        FactLine::Load(load) => FactLine::Load(copy_of_load(load)),
    }
}

/// The same lines.
pub(crate) fn copies_of(alloc: Global, lines: &[FactLine]) -> Result<Vec<FactLine>, AllocError> {
    let mut copies = Vec::new(alloc);
    for line in lines {
        copies.push(copy_of_line(line))?;
    }
    Ok(copies)
}
