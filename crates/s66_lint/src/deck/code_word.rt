//! Whether a word of code can't change: it holds one instruction at most; kept on the pass from the last line on.

use crate::line::{Kind, Line, closes_word};

/// How a word of code ends.
#[derive(Clone, Copy)]
enum WordEnd {
    /// With the source, or before a line that begins a word.
    Forced,
    /// Before an operation after which nothing more comes into it.
    Closed,
    /// Before anything else.
    Open,
}

/// The lines of code from one on that may come into one word.
#[derive(Clone, Copy)]
pub(crate) struct CodeWord {
    instructions: usize,
    has_pads: bool,
    /// A pad comes before the first of them.
    begins_with_pad: bool,
    end: WordEnd,
}

fn empty(end: WordEnd) -> CodeWord {
    CodeWord {
        instructions: 0,
        has_pads: false,
        begins_with_pad: false,
        end,
    }
}

impl CodeWord {
    /// After the last line.
    pub(crate) fn at_end() -> CodeWord {
        empty(WordEnd::Forced)
    }

    /// Whether their order can't change what the word holds: there is one of them at most, and pads only behind it, where they are
    /// filled in again.
    pub(crate) fn is_held(&self) -> bool {
        if self.begins_with_pad && self.instructions > 0 {
            return false;
        }
        match self.end {
            WordEnd::Forced => self.instructions <= 1,
            WordEnd::Closed => self.instructions == 0 || self.instructions == 1 && !self.has_pads,
            WordEnd::Open => false,
        }
    }

    /// With the statement before them; one between switches can't change.
    pub(crate) fn with(&self, line: &Line) -> CodeWord {
        if matches!(line.kind, Kind::Pad) {
            CodeWord {
                instructions: self.instructions,
                has_pads: true,
                begins_with_pad: true,
                end: self.end,
            }
        } else if line.is_code() {
            CodeWord {
                instructions: self.instructions.saturating_add(1),
                has_pads: self.has_pads,
                begins_with_pad: self.begins_with_pad && self.instructions > 0,
                end: self.end,
            }
        } else if closes_word(line.operation()) {
            empty(WordEnd::Closed)
        } else {
            empty(WordEnd::Open)
        }
    }

    /// What the lines before a statement see of the word that begins with it.
    pub(crate) fn before(&self, line: &Line) -> CodeWord {
        if line.begins_word() {
            empty(WordEnd::Forced)
        } else {
            *self
        }
    }
}
