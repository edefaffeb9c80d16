//! Which lines stand in one word of 60 bits with the line before them, by their location fields or for their places, and may come into
//! another half of it.

use crate::line::{Kind, Line};

/// Which sizes the lines of the open word have that may change.
#[derive(Clone, Copy, Default)]
struct Sizes {
    pad: bool,
    one_parcel: bool,
    two_parcels: bool,
}

impl Sizes {
    /// With a line of code that may change.
    fn with(&self, line: &Line) -> Sizes {
        let is_pad = matches!(line.kind, Kind::Pad);
        let is_wide = !is_pad && line.has_two_parcels();
        Sizes {
            pad: self.pad || is_pad,
            one_parcel: self.one_parcel || !is_pad && !is_wide,
            two_parcels: self.two_parcels || is_wide,
        }
    }

    fn are_several(&self) -> bool {
        self.pad && (self.one_parcel || self.two_parcels) || self.one_parcel && self.two_parcels
    }
}

/// The last statement that makes a word, as one after it sees it.
#[derive(Clone, Copy, Default)]
struct LastStatement {
    is_other: bool,
    /// A transfer of central memory: the half word behind it is its exit for a fault.
    is_transfer: bool,
    /// It fills one parcel of a half word that it stands in for its place.
    is_half_filled: bool,
}

/// How a line may stand in a word with another.
#[derive(Clone, Copy, Default)]
pub(crate) struct Joining {
    /// It stands for its place in the word of the line before it.
    pub(crate) joins: bool,
    /// If the next line is in its word, and what comes before it may move it in that, the first of that, by the index of its line.
    pub(crate) slides_from: Option<usize>,
}

/// The open word.
#[derive(Clone, Copy, Default)]
pub(crate) struct OpenWord {
    last: LastStatement,
    sizes: Sizes,
    /// The first line of code in it, by index.
    begin: Option<usize>,
}

impl OpenWord {
    /// How the next line, which has this index, stands in a word, by the next statement after it that makes one.
    pub(crate) fn take(
        &mut self,
        at: usize,
        line: &Line,
        next: Option<&Line>,
        may_change: bool,
    ) -> Joining {
        if !line.is_statement() {
            return Joining::default();
        }
        let follows = line.may_join() && self.last.is_half_filled;
        let joins = follows || self.is_joined_by(line);
        let stands = line.is_instruction_or_pad();
        let joining = Joining {
            joins: stands && may_change && (joins || line.operation() == b"SB0".as_slice()),
            slides_from: if self.sizes.are_several() && shares_word(line, next) {
                self.begin
            } else {
                None
            },
        };
        if !line.is_wordless() {
            self.last = LastStatement {
                is_other: matches!(line.kind, Kind::Other),
                is_transfer: is_transfer(line),
                is_half_filled: stands && joins && !follows && !line.has_two_parcels(),
            };
            self.pass_word(at, line, may_change);
        }
        joining
    }

    fn is_joined_by(&self, line: &Line) -> bool {
        line.joins() && self.last.is_other || line.may_join() && self.last.is_transfer
    }

    fn pass_word(&mut self, at: usize, line: &Line, may_change: bool) {
        if !line.is_code() || line.begins_word() {
            self.sizes = Sizes::default();
            self.begin = None;
        }
        if line.is_code() && self.begin.is_none() {
            self.begin = Some(at);
        }
        if may_change {
            self.sizes = self.sizes.with(line);
        }
    }
}

fn is_transfer(line: &Line) -> bool {
    crate::line::is_transfer(line.operation())
}

/// Whether a line leaves the second half of its word to the next.
fn shares_word(line: &Line, next: Option<&Line>) -> bool {
    let Some(next) = next else {
        return false;
    };
    line.may_join()
        && (is_transfer(line) && next.may_join()
            || line.operation() == b"RJ".as_slice() && next.joins())
}
