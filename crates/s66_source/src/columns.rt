//! In which column an operation is printed: column 11, or that of its line in the source.

ghost use Rattle.std.specs.Prelude.{◌≡◌, length, nat_lt, not};
ghost use Rattle.s66_line.specs.{body, label_bytes};
ghost use Rattle.s66_source.specs.{before_operation};

use s66_line::{body_of, fields_of};

/// The blanks before an operation in column 11.
pub(crate) const USUAL_INDENT: u8 = 10;

/// The fewest blanks before an operation: after one alone a location would begin.
const LEAST_INDENT: usize = 2;

/// The most: 29 make a comment.
const GREATEST_INDENT: usize = 28;

/// How many bytes come before the operation of an instruction's line.
fn before_operation(line: &[u8]) -> usize
    ensures { result ≡ before_operation line.now }
{
    let body = body_of(line);
    body.len() - fields_of(body).from_operation.len()
}

/// Whether the label of a line takes all columns before the usual one.
fn has_long_label(line: &[u8]) -> bool
    ensures { result ≡ not (nat_lt (length (label_bytes (body line.now))) 10) }
{
    fields_of(body_of(line)).label.len() >= USUAL_INDENT as usize
}

/// In which column an operation begins that is printed without a label.
#[derive(Clone, Copy)]
pub enum Columns {
    /// In column 11.
    Usual,
    /// In that of its line in the source, but in column 3 at least and in column 29 at most; behind a label of ten bytes or more in
    /// column 11.
    Own,
}

impl Columns {
    ghost use Rattle.std.specs.Prelude.{◌≡◌};
    ghost use Rattle.s66_source.specs.{indent};

    /// How many blanks come before the operation of an instruction, by its line in the source.
    pub(crate) fn indent(&self, line: &[u8]) -> u8
        ensures { result ≡ indent self.now line.now }
    {
        match self {
            Columns::Usual => USUAL_INDENT,
            Columns::Own if has_long_label(line) => USUAL_INDENT,
            Columns::Own => before_operation(line)
                .min(GREATEST_INDENT)
                .max(LEAST_INDENT) as u8,
        }
    }
}
