//! A line by itself as `lint` sees it: its fields, and what kind of statement it is. What lines around it say is in `deck/`.

use crate::line::operand::{decimal, has_registers_alone};
use crate::line::operations::{
    equates, falls_through, has_address, is_constant, is_wordless, leaves_word, makes_words,
    renames, reserves,
};
use crate::line::spelling::{is_instruction_name, is_register};
use s66_line::{
    Class, LINE_BYTES_LIMIT, TEXT_LIMIT, body_of, classify, fields_of, is_comment_line,
    is_continuation, operation_and_operand,
};
use s66_source::{Redefined, is_directive, is_far, is_switch};

/// What a line is by its operation, refused or not.
#[derive(Clone, Copy)]
pub(crate) enum Kind {
    Comment,
    Instruction,
    Pad,
    Other,
}

/// The fields of a line; a comment has none.
#[derive(Clone, Copy)]
pub(crate) struct Fields<'a> {
    pub(crate) location: &'a [u8],
    pub(crate) operation: &'a [u8],
    pub(crate) operand: &'a [u8],
}

impl<'a> Fields<'a> {
    /// As they are written: what follows a pad stands as its operand.
    fn of(body: &'a [u8]) -> Fields<'a> {
        let fields = fields_of(body);
        let (operation, operand) = operation_and_operand(fields.from_operation);
        Fields {
            location: fields.location,
            operation,
            operand,
        }
    }
}

/// A line of a source.
#[derive(Clone, Copy)]
pub(crate) struct Line<'a> {
    /// As it is written, and in upper case, without the carriage returns at its end.
    pub(crate) body: &'a [u8],
    pub(crate) letters: &'a [u8],
    /// Its fields in upper case. What follows a pad is a remark, and so no operand.
    pub(crate) fields: Fields<'a>,
    pub(crate) kind: Kind,
    /// It has a comma in column 1, and so no operation of its own.
    pub(crate) continues: bool,
    pub(crate) is_long: bool,
    /// It stands between two switches.
    pub(crate) is_off: bool,
    pub(crate) is_refused: bool,
}

/// The fields of a line of this kind, which are written so in upper case.
fn fields_by(kind: Kind, written: Fields<'_>) -> Fields<'_> {
    let operand: &[u8] = match kind {
        Kind::Pad => &[],
        _ => written.operand,
    };
    Fields { operand, ..written }
}

fn kind_of(letters: &[u8], fields: &Fields) -> Kind {
    if is_comment_line(letters) {
        Kind::Comment
    } else if is_continuation(letters) {
        Kind::Other
    } else if is_instruction_name(fields.operation) {
        Kind::Instruction
    } else if fields.operation == b"NO".as_slice() {
        Kind::Pad
    } else {
        Kind::Other
    }
}

/// Whether a line that is not too long is refused, by whether a comma in column 1 would continue the line directly before.
fn is_refused(after: bool, line: &[u8]) -> bool {
    line.len() <= LINE_BYTES_LIMIT && matches!(classify(after, line).class, Class::Refused)
}

impl<'a> Line<'a> {
    /// A line as it is written and in upper case, by whether it stands between two switches. It is not refused.
    pub(crate) fn new(is_off: bool, line: &'a [u8], letters: &'a [u8]) -> Line<'a> {
        let letters = body_of(letters);
        let written = Fields::of(letters);
        let kind = kind_of(letters, &written);
        Line {
            body: body_of(line),
            letters,
            fields: fields_by(kind, written),
            kind,
            continues: is_continuation(letters),
            is_long: line.len() > LINE_BYTES_LIMIT,
            is_off,
            is_refused: false,
        }
    }

    /// Whether its operand isn't seen, though it is accepted.
    pub(crate) fn is_far(&self) -> bool {
        self.is_instruction() && is_far(self.body)
    }

    /// Whether it is one of the operations or instructions that a source redefines. The form of a refused operand isn't known.
    pub(crate) fn is_one_of(&self, redefined: &Redefined) -> bool {
        let bytes = fields_of(self.body).from_operation;
        if self.is_long || bytes.len() > TEXT_LIMIT {
            return false;
        }
        if self.is_refused {
            redefined.has_operation(bytes)
        } else {
            redefined.has(bytes)
        }
    }

    /// Whether it is refused, as it is written, by whether a comma in column 1 would continue the line directly before.
    pub(crate) fn is_refused_after(&self, after: bool, line: &[u8]) -> bool {
        !self.is_off
            && (self.continues || matches!(self.kind, Kind::Instruction))
            && is_refused(after, line)
    }

    /// Its fields as they are written.
    pub(crate) fn written(&self) -> Fields<'a> {
        Fields::of(self.body)
    }

    pub(crate) fn is_comment(&self) -> bool {
        matches!(self.kind, Kind::Comment)
    }

    /// Whether it is a directive.
    pub(crate) fn is_directive(&self) -> bool {
        self.body.len() <= LINE_BYTES_LIMIT && is_directive(self.body)
    }

    /// Whether it is the switch after which lines aren't left alone any more.
    pub(crate) fn is_on_switch(&self) -> bool {
        is_switch(self.body, b"ON")
    }

    /// Whether it is neither a comment nor a continuation.
    pub(crate) fn is_statement(&self) -> bool {
        !self.is_comment() && !self.continues
    }

    /// Its operation in upper case; none of a comment, a continuation, or a line that is too long.
    pub(crate) fn operation(&self) -> &'a [u8] {
        if self.is_statement() && !self.is_long {
            self.fields.operation
        } else {
            &[]
        }
    }

    /// Whether it is an instruction or a pad, also one that is refused or too long.
    pub(crate) fn is_instruction_or_pad(&self) -> bool {
        matches!(self.kind, Kind::Instruction | Kind::Pad)
    }

    /// Whether it is an instruction or a pad of a run.
    pub(crate) fn is_in_run(&self) -> bool {
        self.is_instruction_or_pad() && !(self.is_off || self.is_refused || self.is_long)
    }

    /// Whether it may be the call of a macro.
    pub(crate) fn may_call(&self) -> bool {
        matches!(self.kind, Kind::Other) && !self.operation().is_empty()
    }

    /// Whether it is a set instruction, refused or not.
    pub(crate) fn is_set(&self) -> bool {
        matches!(self.kind, Kind::Instruction) && matches!(self.operation(), [b'S', ..])
    }

    /// Whether it is an instruction of a run.
    pub(crate) fn is_instruction(&self) -> bool {
        matches!(self.kind, Kind::Instruction) && self.is_in_run()
    }

    /// Whether a comma in column 1 of the next line would continue it.
    pub(crate) fn may_continue(&self) -> bool {
        !self.is_off && !self.is_long && (self.is_instruction_or_pad() || self.is_refused)
    }

    fn has_comma(&self) -> bool {
        self.fields.operand.contains(&b',')
    }

    /// Whether it is a conditional branch by `EQ`.
    fn is_comparison(&self) -> bool {
        self.operation() == b"EQ".as_slice() && self.has_comma()
    }

    /// Whether it is code, be it between switches: an instruction, also a refused one, a pad, a conditional branch, or a transfer of
    /// central memory.
    pub(crate) fn is_code(&self) -> bool {
        !self.is_long
            && !self.continues
            && (self.is_instruction_or_pad()
                || falls_through(self.operation())
                || self.is_comparison())
    }

    /// Whether it makes words of code, be it between switches: code, another branch, or the entry of a subroutine.
    pub(crate) fn has_words(&self) -> bool {
        !self.is_long
            && !self.continues
            && (self.is_instruction_or_pad() || makes_words(self.operation()))
    }

    /// Whether it is a statement that makes no word, be it between switches.
    pub(crate) fn is_wordless(&self) -> bool {
        matches!(self.kind, Kind::Other)
            && !self.is_long
            && (self.is_mark() || is_wordless(self.operation()))
    }

    /// Whether it is there for its name alone.
    pub(crate) fn is_mark(&self) -> bool {
        self.operation().is_empty()
            || self.operation() == b"BSS".as_slice() && self.fields.operand == b"0".as_slice()
    }

    /// Whether a name in its location field is an address.
    pub(crate) fn has_address(&self) -> bool {
        has_address(self.operation())
    }

    /// Whether it begins a word: it is code or has an address and an operation, and its location field forces a word.
    pub(crate) fn begins_word(&self) -> bool {
        self.is_forced() && (self.is_code() || !self.operation().is_empty() && self.has_address())
    }

    /// Whether it is an unconditional jump, or the entry of a subroutine, behind which the next word begins.
    pub(crate) fn is_jump(&self) -> bool {
        let operation = self.operation();
        leaves_word(operation) || operation == b"EQ".as_slice() && !self.has_comma()
    }

    /// Whether it is data of one word.
    pub(crate) fn is_data_word(&self) -> bool {
        let operation = self.operation();
        reserves(operation) && self.fields.operand == b"1".as_slice()
            || is_constant(operation) && !self.has_comma()
    }

    /// Whether it is data that may stand in line with code.
    pub(crate) fn is_data_part(&self) -> bool {
        let operation = self.operation();
        self.may_join() && (operation == b"VFD".as_slice() || is_constant(operation))
    }

    /// Whether it makes one word, in which nothing else stands.
    pub(crate) fn is_one_word(&self) -> bool {
        self.is_jump() || self.is_data_word()
    }

    /// Whether a word begins behind it.
    pub(crate) fn halts(&self) -> bool {
        self.is_one_word() || self.operation() == b"XJ".as_slice()
    }

    /// How many parcels its code has.
    pub(crate) fn parcels(&self) -> usize {
        match self.kind {
            Kind::Pad => 1,
            Kind::Instruction if !self.has_two_parcels() => 1,
            _ => 2,
        }
    }

    /// Whether it gives another name to an address.
    pub(crate) fn renames(&self) -> bool {
        renames(self.operation())
    }

    /// How many words further than the line itself the address is that its operand gives its name.
    pub(crate) fn words_from_here(&self) -> i64 {
        if !equates(self.operation()) {
            return 0;
        }
        match self.fields.operand {
            [b'*', b'+', digits @ ..] => decimal(digits),
            [b'*', b'-', digits @ ..] => 0i64.saturating_sub(decimal(digits)),
            _ => 0,
        }
    }

    /// Whether it has a location field.
    pub(crate) fn is_located(&self) -> bool {
        !self.fields.location.is_empty()
    }

    /// Whether its location field forces a word.
    pub(crate) fn is_forced(&self) -> bool {
        !self.may_join()
    }

    /// Whether its location field lets it come into the word of the line before it.
    pub(crate) fn may_join(&self) -> bool {
        self.fields.location.is_empty() || self.joins()
    }

    /// Whether its location field puts it into the word of the line before it.
    pub(crate) fn joins(&self) -> bool {
        self.fields.location == b"-".as_slice()
    }

    /// The name in its location field, in upper case; none if there is none.
    pub(crate) fn name(&self) -> &'a [u8] {
        let name = self.fields.location;
        if !self.is_statement()
            || self.is_long
            || name == b"+".as_slice()
            || self.joins()
            || is_register(name)
        {
            return &[];
        }
        name
    }

    /// Whether it is an instruction of two parcels.
    pub(crate) fn has_two_parcels(&self) -> bool {
        matches!(self.operation(), [b'S', ..]) && !has_registers_alone(self.fields.operand)
    }
}
