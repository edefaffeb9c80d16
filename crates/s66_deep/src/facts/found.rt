//! What is found of a block, one after the other: fact lines, and pairs by suppositions.

use crate::facts::copies::{copies_of, copy_of_line};
use s66_moments::{FactLine, FactStep};
use std::alloc::{AllocError, Global};

/// The first number stands before the second: if the second stands before the first, the lines follow, and by them no order takes less
/// than the bound.
#[derive(Drop)]
pub(crate) struct Supposition {
    pub(crate) first: u8,
    pub(crate) second: u8,
    pub(crate) lines: Vec<FactLine>,
}

/// What is found.
#[derive(Drop)]
pub(crate) enum Found {
    ByLine(FactLine),
    BySupposition(Supposition),
}

impl Found {
    /// The same. `Err` is out of memory.
    pub(crate) fn duplicate(&self, alloc: Global) -> Result<Found, AllocError> {
        match self {
            Found::ByLine(line) => Ok(Found::ByLine(copy_of_line(line))),
            Found::BySupposition(supposition) => Ok(Found::BySupposition(Supposition {
                first: supposition.first,
                second: supposition.second,
                lines: copies_of(alloc, supposition.lines.as_slice())?,
            })),
        }
    }

    /// How many lines a document has for it.
    pub(crate) fn line_count(&self) -> usize {
        match self {
            Found::ByLine(_) => 1,
            Found::BySupposition(supposition) => supposition.lines.len().saturating_add(2),
        }
    }
}

/// How many lines a document has for all of these.
pub(crate) fn line_count(all: &[Found]) -> usize {
    let mut count = 0usize;
    for one in all {
        count = count.saturating_add(one.line_count());
    }
    count
}

/// The same, all of them. `Err` is out of memory.
pub(crate) fn duplicates_of(alloc: Global, all: &[Found]) -> Result<Vec<Found>, AllocError> {
    let mut copies = Vec::new(alloc);
    for one in all {
        copies.push(one.duplicate(alloc)?)?;
    }
    Ok(copies)
}

/// Appends the steps of a supposition.
fn push_supposition(
    steps: &mut Vec<FactStep>,
    supposition: &Supposition,
) -> Result<(), AllocError> {
    steps.push(FactStep::Suppose(supposition.first, supposition.second))?;
    for line in supposition.lines.as_slice() {
        steps.push(FactStep::Fact(copy_of_line(line)))?;
    }
    steps.push(FactStep::Refuted)?;
    Ok(())
}

/// These as the steps of a document. `Err` is out of memory.
pub(crate) fn steps_of(alloc: Global, all: &[Found]) -> Result<Vec<FactStep>, AllocError> {
    let mut steps = Vec::new(alloc);
    for one in all {
        match one {
            Found::ByLine(line) => steps.push(FactStep::Fact(copy_of_line(line)))?,
            Found::BySupposition(supposition) => push_supposition(&mut steps, supposition)?,
        }
    }
    Ok(steps)
}
