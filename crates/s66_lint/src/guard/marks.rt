//! The marks of lines for `guard`: which lines are in danger, and the reasons above each region.

ghost use Rattle.std.specs.Prelude.{◌≡◌, length, IfOk};
ghost use Rattle.s66_line.specs.{lines_of};

use crate::guard::regions::{Region, regions_of};
use crate::guard::source_harm::{SourceHarm, source_harm};
use s66_source::cut_line;
use std::alloc::{AllocError, Global};

/// What `guard` knows of a line of a source.
#[derive(Drop)]
pub(crate) struct LineMark {
    /// It is in danger, or stands between such lines of one region.
    pub(crate) is_harmed: bool,
    /// Why a region that it begins is in danger.
    pub(crate) reasons: Vec<Vec<u8>>,
}

/// A mark for each line of a text: none is in danger.
fn unmarked_lines(alloc: Global, text: &[u8]) -> Result<Vec<LineMark>, AllocError>
    ensures { IfOk result (λ marks. length marks.items ≡ length (lines_of text.now)) }
{
    let mut marks = Vec::new(alloc);
    let mut rest = text;
    while let Some((_, more)) = cut_line(rest) {
        marks.push(LineMark {
            is_harmed: false,
            reasons: Vec::new(alloc),
        })?;
        rest = more;
    }
    Ok(marks)
}

/// Why a region is in danger: the texts of the findings that harm one of its lines.
fn reasons_of(
    alloc: Global,
    harms: &SourceHarm,
    region: Region,
) -> Result<Vec<Vec<u8>>, AllocError> {
    let mut reasons = Vec::new(alloc);
    for text in harms.texts_in(alloc, region.first, region.last)? {
        let mut reason = Vec::new(alloc);
        reason.extend_from_slice(text)?;
        reasons.push(reason)?;
    }
    Ok(reasons)
}

/// Marks the lines of a region, the first of them with the reasons.
fn mark_region(marks: &mut [LineMark], region: Region, reasons: Vec<Vec<u8>>) {
    for at in region.first..region.last.saturating_add(1) {
        if let Some(mark) = marks.get_mut(at) {
            mark.is_harmed = true;
        }
    }
    if let Some(mark) = marks.get_mut(region.first) {
        mark.reasons = reasons;
    }
}

/// A mark for each line of a text, which may be any.
pub(crate) fn marks_of(alloc: Global, text: &[u8]) -> Result<Vec<LineMark>, AllocError>
    ensures { IfOk result (λ marks. length marks.items ≡ length (lines_of text.now)) }
{
    let harms = source_harm(alloc, text)?;
    let mut marks = unmarked_lines(alloc, text)?;
    let regions = regions_of(alloc, marks.len(), &harms)?;
    for region in &regions {
        let reasons = reasons_of(alloc, &harms, *region)?;
        mark_region(marks.as_mut_slice(), *region, reasons);
    }
    Ok(marks)
}
