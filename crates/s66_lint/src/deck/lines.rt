//! The lines of a source, read in one pass: each by itself, whether it stands between switches or is refused, and whether `--cut`
//! leaves it alone.

ghost use Rattle.std.specs.Prelude.{◌≡◌, ◌≤◌, ◌<◌, ◌++◌, ◌∷◌, true, [], length, OnOk};
ghost use Rattle.s66_line.specs.{LINE_BYTES_LIMIT};
ghost use Rattle.s66_source.specs.{after_line, is_alone, SOURCE_LINES_LIMIT};
ghost use Rattle.s66_lint.specs.{as_read};

use crate::line::Line;
use s66_line::{LINE_BYTES_LIMIT, body_of};
use s66_source::{
    Redefined, SOURCE_LINES_LIMIT, Standing, cut_line, is_continued, is_continued_at_first,
    is_switch,
};
use std::alloc::{AllocError, Global};

/// The lines of a source up to the limit.
#[derive(Drop)]
pub(crate) struct Lines<'a> {
    pub(crate) lines: Vec<Line<'a>>,
    /// Whether `--cut` leaves each of them alone.
    pub(crate) alone: Vec<bool>,
    /// How long the first line past them is, if there is one.
    pub(crate) past: Option<usize>,
}

/// A line as `--cut` reads it: one that is too long as an empty one.
fn as_read(line: &[u8]) -> &[u8]
    ensures { result.now ≡ as_read line.now }
{
    if line.len() > LINE_BYTES_LIMIT {
        return &[];
    }
    line
}

/// Passes a line: whether `--cut` leaves it alone.
fn push_alone(
    alone: &mut Vec<bool>,
    standing: &mut Standing,
    line: &[u8],
    continued: bool,
) -> Result<(), AllocError>
    requires few { length alone.old.items < SOURCE_LINES_LIMIT }
    requires bodies { standing.old.bodies ≤ length alone.old.items }
    ensures alone { OnOk result (alone.new.items ≡ alone.old.items ++
        is_alone true standing.old (as_read line.now) continued ∷ []) }
    ensures standing { OnOk result (standing.new ≡ after_line true standing.old (as_read line.now)) }
    ensures bodies { OnOk result (standing.new.bodies ≤ length alone.new.items) }
{
    let line = as_read(line);
    alone.push(standing.is_alone(true, line, continued))?;
    standing.pass(true, line);
    Ok(())
}

/// What a line is by those before it: whether it stands between switches, and whether a comma in its column 1 continues another.
#[derive(Clone, Copy)]
struct Passed {
    is_off: bool,
    may_continue: bool,
}

impl Passed {
    /// The next line, as it is written and in upper case.
    fn take<'a>(&mut self, row: &'a [u8], upper: &'a [u8]) -> Line<'a> {
        let is_off = self.is_off || is_switch(body_of(row), b"OFF");
        let mut line = Line::new(is_off, row, upper);
        line.is_refused = line.is_refused_after(self.may_continue, row);
        self.may_continue = line.may_continue();
        self.is_off = is_off && !line.is_on_switch();
        line
    }
}

impl<'a> Lines<'a> {
    ghost use Rattle.std.specs.Prelude.{◌≡◌, ◌≤◌, length, min, is_some, vec_len, IfOk};
    ghost use Rattle.s66_line.specs.{lines_of};
    ghost use Rattle.s66_source.specs.{redefined_in, SOURCE_LINES_LIMIT};
    ghost use Rattle.s66_lint.specs.{has_more, alone_lines};

    /// Reads a text, of which `letters` is the same in upper case, and which redefines this; some lines may be refused.
    pub(crate) fn of(
        alloc: Global,
        text: &'a [u8],
        letters: &'a [u8],
        redefined: &Redefined,
    ) -> Result<Lines<'a>, AllocError>
        requires { redefined.now ≡ redefined_in (lines_of text.now) }
        ensures lines { IfOk result (λ lines. vec_len lines.lines ≤ min SOURCE_LINES_LIMIT (length (lines_of text.now))) }
        ensures alone { IfOk result (λ lines. lines.alone.items ≡ alone_lines text.now) }
        ensures past { IfOk result (λ lines. is_some lines.past ≡ has_more text.now) }
    {
        let mut lines = Vec::new(alloc);
        let mut alone = Vec::new(alloc);
        let mut standing = Standing::at_first(redefined);
        let mut continued = is_continued_at_first(true, text);
        let mut passed = Passed {
            is_off: false,
            may_continue: false,
        };
        let mut rest = text;
        while let Some((row, more)) = cut_line(rest) {
            if alone.len() >= SOURCE_LINES_LIMIT as usize {
                return Ok(Lines {
                    lines,
                    alone,
                    past: Some(row.len()),
                });
            }
            continued = is_continued(true, continued, row, more);
            push_alone(&mut alone, &mut standing, row, continued)?;
            let at = text.len().saturating_sub(rest.len());
            let upper = letters.get(at..at.saturating_add(row.len())).unwrap_or(row);
            lines.push(passed.take(row, upper))?;
            rest = more;
        }
        Ok(Lines {
            lines,
            alone,
            past: None,
        })
    }
}
