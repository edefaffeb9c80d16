//! Whether a line counts lines after it of which one is an instruction, kept on the pass from the last line on.

use crate::line::{Line, ends_range};
use s66_line::LINE_BYTES_LIMIT;
use s66_source::{Cover, counting_text, cover_of, directive_cover};

/// The lines that a directive counts.
fn cover_by_directive(line: &Line) -> Cover {
    match line.letters {
        [b'*', text @ ..] if text.len() < LINE_BYTES_LIMIT => directive_cover(text),
        _ => Cover::Nothing,
    }
}

/// The lines that the operation of a line counts, or the directive that it is.
pub(crate) fn cover_by(line: &Line) -> Cover {
    if line.is_comment() {
        return cover_by_directive(line);
    }
    if line.is_instruction_or_pad() || line.operation().is_empty() {
        return Cover::Nothing;
    }
    cover_of(line.operation(), counting_text(line.letters))
}

/// How far it is from a line to what an operation there may cover, in statements.
#[derive(Clone, Copy, Default)]
pub(crate) struct CoverReach {
    /// To the next instruction or pad.
    code: Option<usize>,
    /// To the next operation that ends what is covered without a known count.
    end: Option<usize>,
}

impl CoverReach {
    /// Whether an instruction or a pad is covered.
    pub(crate) fn is_covered(&self, cover: Cover) -> bool {
        let Some(code) = self.code else {
            return false;
        };
        match cover {
            Cover::Nothing => false,
            Cover::Lines { count } => code <= count as usize,
            Cover::ToItsEnd => self.end.is_none_or(|end| code < end),
        }
    }

    /// From the statement before.
    pub(crate) fn before(&self, line: &Line) -> CoverReach {
        CoverReach {
            code: next(line.is_instruction_or_pad() && !line.is_off, self.code),
            end: next(ends_range(line.operation()), self.end),
        }
    }
}

/// How far it is from the statement before to what is this far, or one further if it is no such statement.
fn next(is_here: bool, distance: Option<usize>) -> Option<usize> {
    if is_here {
        return Some(1);
    }
    Some(distance?.saturating_add(1))
}
