//! The pass from the last line of a source to the first: what is known of each line by those after it.

use crate::deck::before::Before;
use crate::deck::bodies::Bodies;
use crate::deck::code_word::CodeWord;
use crate::deck::cover_reach::{CoverReach, cover_by};
use crate::line::{Line, begins_definition};

/// What is known of a line by those after it.
#[derive(Clone, Copy, Default)]
pub(crate) struct After {
    /// The next statement that makes a word.
    pub(crate) next: Option<usize>,
    /// The next statement.
    pub(crate) next_statement: Option<usize>,
    /// It begins a definition, or an `ECHO` without a count, that holds an instruction.
    pub(crate) has_body: bool,
    /// It counts lines, of which one is an instruction or a pad.
    pub(crate) covers_code: bool,
    /// The word of code that begins with it can't change.
    pub(crate) is_held: bool,
}

/// What is known of the lines from one on.
#[derive(Drop)]
pub(crate) struct LinesAfter {
    next: Option<usize>,
    next_statement: Option<usize>,
    definitions: Bodies,
    repetitions: Bodies,
    reach: CoverReach,
    word: CodeWord,
}

impl LinesAfter {
    /// After the last line.
    pub(crate) fn at_end() -> LinesAfter {
        LinesAfter {
            next: None,
            next_statement: None,
            definitions: Bodies::default(),
            repetitions: Bodies::default(),
            reach: CoverReach::default(),
            word: CodeWord::at_end(),
        }
    }

    /// What is known of the line before, which has this index.
    pub(crate) fn take(&mut self, at: usize, line: &Line, before: &Before) -> After {
        let cover = cover_by(line);
        let word = self.word.with(line);
        let after = After {
            next: self.next,
            next_statement: self.next_statement,
            has_body: self.has_body(line, before.in_definition, cover.is_counting()),
            covers_code: !before.in_definition && self.reach.is_covered(cover),
            is_held: word.is_held(),
        };
        self.pass_bodies(line, before.in_definition, cover.is_counting());
        if line.is_statement() {
            self.word = word.before(line);
            self.reach = self.reach.before(line);
            self.next_statement = Some(at);
            if !line.is_wordless() {
                self.next = Some(at);
            }
        }
        after
    }

    fn has_body(&self, line: &Line, in_definition: bool, is_counted: bool) -> bool {
        let operation = line.operation();
        if begins_definition(operation) {
            return self.definitions.has_body();
        }
        operation == b"ECHO".as_slice()
            && !in_definition
            && !is_counted
            && self.repetitions.has_body()
    }

    fn pass_bodies(&mut self, line: &Line, in_definition: bool, is_counted: bool) {
        if line.is_instruction() {
            self.definitions = self.definitions.after_instruction();
            self.repetitions = self.repetitions.after_instruction();
            return;
        }
        let operation = line.operation();
        if begins_definition(operation) {
            self.definitions = self.definitions.after_beginning();
        } else if operation == b"ENDM".as_slice() {
            self.definitions = self.definitions.after_end();
        } else if !in_definition {
            self.pass_repetition(operation, is_counted);
        }
    }

    fn pass_repetition(&mut self, operation: &[u8], is_counted: bool) {
        match operation {
            b"ENDD" => self.repetitions = self.repetitions.after_end(),
            b"DUP" | b"ECHO" if !is_counted => {
                self.repetitions = self.repetitions.after_beginning();
            }
            _ => {}
        }
    }
}
