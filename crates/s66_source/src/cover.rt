//! What is still covered by counts and repetitions, from one line to the next. What one operation covers is in `counts.rt`.

ghost use Rattle.std.specs.Prelude.{◌≡◌};
ghost use Rattle.s66_source.specs.{repetitions_after};

use crate::counts::{RANGE_ENDS, is_one_of};
use crate::limits::SOURCE_LINES_LIMIT;

/// What an operation of the assembler covers that counts the lines after it.
#[derive(Clone, Copy)]
pub enum Cover {
    Nothing,
    /// This many lines, one at least; comments and continuations aren't counted.
    Lines { count: u32 },
    /// All lines to the next `ENDD`, `ENDIF`, `END` or `IDENT`, since their number isn't known.
    ToItsEnd,
}

impl Cover {
    ghost use Rattle.std.specs.Prelude.{◌≡◌};
    ghost use Rattle.s66_source.specs.{is_counting, lines_covered};

    /// This many lines.
    pub(crate) fn of_lines(count: u32) -> Cover
        ensures { result ≡ lines_covered count }
    {
        if count == 0 {
            Cover::Nothing
        } else {
            Cover::Lines { count }
        }
    }

    /// Whether there are such lines.
    pub fn is_counting(&self) -> bool
        ensures { result ≡ is_counting self.now }
    {
        !matches!(self, Cover::Nothing)
    }
}

/// What is still covered by the operations before a line.
#[derive(Clone, Copy)]
pub struct Covered {
    /// This many lines more; comments and continuations aren't counted.
    pub lines: u32,
    /// All lines to the next `ENDD`, `ENDIF`, `END` or `IDENT`.
    pub to_end: bool,
    /// All lines to the end of an `ECHO` without a count; this many repetitions without one have to end till then.
    pub repetitions: u32,
}

impl Covered {
    ghost use Rattle.std.specs.Prelude.{◌≡◌};
    ghost use Rattle.s66_source.specs.{count_down, covered_after, is_covering, nothing_covered, with_cover};

    /// Nothing.
    pub(crate) fn nothing() -> Covered
        ensures { result ≡ nothing_covered }
    {
        Covered {
            lines: 0,
            to_end: false,
            repetitions: 0,
        }
    }

    /// Whether the next line is covered.
    pub(crate) fn is_covering(&self) -> bool
        ensures { result ≡ is_covering self.now }
    {
        self.lines > 0 || self.to_end || self.repetitions > 0
    }

    /// After a line, by whether its operation ends a part.
    pub(crate) fn count_down(&self, ends_range: bool) -> Covered
        ensures { result ≡ count_down self.now ends_range }
    {
        Covered {
            lines: self.lines.saturating_sub(1),
            to_end: self.to_end && !ends_range,
            repetitions: self.repetitions,
        }
    }

    /// With what an operation covers.
    pub(crate) fn with(&self, cover: &Cover) -> Covered
        ensures { result ≡ with_cover self.now cover.now }
    {
        match cover {
            Cover::Nothing => *self,
            Cover::Lines { count } => Covered {
                lines: self.lines.max(*count),
                to_end: self.to_end,
                repetitions: self.repetitions,
            },
            Cover::ToItsEnd => Covered {
                lines: self.lines,
                to_end: true,
                repetitions: self.repetitions,
            },
        }
    }

    /// After an operation outside of definitions, with its name in upper case, which covers this.
    pub(crate) fn after(&self, name: &[u8], cover: &Cover) -> Covered
        ensures { result ≡ covered_after self.now name.now cover.now }
    {
        let counted = self.count_down(is_one_of(&RANGE_ENDS, name)).with(cover);
        Covered {
            lines: counted.lines,
            to_end: counted.to_end,
            repetitions: repetitions_after(self.repetitions, name, cover.is_counting()),
        }
    }
}

/// How many repetitions without a count are open after an operation, from the outermost `ECHO` on, if `begun` were before it; by
/// whether it has a count.
fn repetitions_after(begun: u32, name: &[u8], counts: bool) -> u32
    ensures { result ≡ repetitions_after begun name.now counts }
{
    let echoes = name == b"ECHO".as_slice();
    if begun == 0 {
        return if echoes && !counts { 1 } else { 0 };
    }
    if (echoes || name == b"DUP".as_slice()) && !counts {
        begun.saturating_add(1).min(SOURCE_LINES_LIMIT)
    } else if name == b"ENDD".as_slice() {
        begun - 1
    } else {
        begun
    }
}
