//! The regions that `guard` puts between switches: lines in danger, and what may stand between them.

use crate::guard::source_harm::SourceHarm;
use std::alloc::{AllocError, Global};

/// The first and the last line of a region, each in danger, by their indices.
#[derive(Clone, Copy)]
pub(crate) struct Region {
    pub(crate) first: usize,
    pub(crate) last: usize,
}

/// A region with the line at this index, which begins one if none is open.
fn with_line(open: Option<Region>, at: usize) -> Region {
    match open {
        Some(region) => Region { last: at, ..region },
        None => Region {
            first: at,
            last: at,
        },
    }
}

/// The regions of a source of so many lines, in order: lines in danger, and what may stand between them.
pub(crate) fn regions_of(
    alloc: Global,
    count: usize,
    harms: &SourceHarm,
) -> Result<Vec<Region>, AllocError> {
    let mut regions = Vec::new(alloc);
    let mut open = None;
    for at in 0..count {
        if harms.is_harmed(at) {
            open = Some(with_line(open, at));
        } else if !harms.may_stand_between(at) {
            push_region(&mut regions, open)?;
            open = None;
        }
    }
    push_region(&mut regions, open)?;
    Ok(regions)
}

fn push_region(regions: &mut Vec<Region>, region: Option<Region>) -> Result<(), AllocError> {
    if let Some(region) = region {
        regions.push(region)?;
    }
    Ok(())
}
