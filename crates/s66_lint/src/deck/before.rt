//! The pass from the first line on: what is known of each line by those before it, as whether it is in a definition.

use crate::line::{Kind, Line, begins_definition};

/// What is known of a line by those before it.
#[derive(Clone, Copy, Default)]
pub(crate) struct Before {
    /// It is in a definition, or begins or ends one.
    pub(crate) in_definition: bool,
    /// It is in a program for a peripheral processor.
    pub(crate) in_peripheral: bool,
    /// How many programs have begun, with it.
    pub(crate) program: usize,
    /// The last statement that makes a word.
    pub(crate) last: Option<usize>,
    /// The last statement is an instruction whose location field forces a word.
    pub(crate) follows_forced: bool,
}

/// What is known of the lines up to one.
#[derive(Clone, Copy, Default)]
pub(crate) struct LinesBefore {
    /// How many definitions are open.
    definitions: usize,
    /// What is known of the next line, if it changes nothing.
    next: Before,
}

impl LinesBefore {
    /// What is known of the next line, which has this index.
    pub(crate) fn take(&mut self, at: usize, line: &Line) -> Before {
        let operation = line.operation();
        let begins = begins_definition(operation);
        self.next.in_definition = begins || self.definitions > 0;
        self.pass_operation(operation, begins);
        let before = self.next;
        self.pass_statement(at, line);
        before
    }

    fn pass_operation(&mut self, operation: &[u8], begins: bool) {
        if begins {
            self.definitions = self.definitions.saturating_add(1);
        }
        match operation {
            b"ENDM" => self.definitions = self.definitions.saturating_sub(1),
            b"IDENT" => {
                self.next.in_peripheral = false;
                self.next.program = self.next.program.saturating_add(1);
            }
            b"END" => self.next.in_peripheral = false,
            b"PERIPH" | b"PPU" => self.next.in_peripheral = true,
            _ => {}
        }
    }

    fn pass_statement(&mut self, at: usize, line: &Line) {
        if !line.is_statement() {
            return;
        }
        self.next.follows_forced = matches!(line.kind, Kind::Instruction) && line.is_forced();
        if !line.is_wordless() {
            self.next.last = Some(at);
        }
    }
}
