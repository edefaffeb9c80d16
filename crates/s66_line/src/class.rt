//! The class of one line by itself: comment, other, refused, `NO` or instruction. Which lines are left alone by those around them is in
//! `s66_source`.

ghost use Rattle.std.specs.Prelude.{◌≡◌, ◌≤◌, true, length};
ghost use Rattle.s66_line.specs.{upper, body, from_operation, label_bytes, IsSpelled, class_of, by_operation, is_code, is_located, is_pad, LINE_BYTES_LIMIT, TEXT_LIMIT};

use crate::characters::runs_on;
use crate::fields::{
    body_of, fields_of, is_comment_line, is_continuation, next_word, split_word, upper_case_byte,
};
use crate::instruction_text::upper_case;
use crate::operand::{decode, operation_of};
use s66_isa::Instr;

/// What a line is.
#[derive(Clone, Copy)]
pub enum Class {
    Comment,
    /// A line that is copied as it stands, and ends a run.
    Other,
    /// An operation of the table with an operand that it does not take, or that goes on behind characters with a blank; or a line
    /// with a comma in column 1 directly after an instruction or a `NO`.
    Refused,
    /// A `NO`.
    Pad { located: bool },
    /// An operation of the table with its operand; located if the line has a location field.
    Instruction { located: bool, instr: Instr },
}

impl Class {
    ghost use Rattle.std.specs.Prelude.{◌≡◌};
    ghost use Rattle.s66_line.specs.{is_code};

    /// Whether it is an instruction or a `NO`.
    pub fn is_code(&self) -> bool
        ensures { result ≡ is_code self.now }
    {
        matches!(self, Class::Instruction { .. } | Class::Pad { .. })
    }
}

#[tactic(auto, using(crate::proofs::Names::is_pad_short, crate::proofs::Names::is_pad_long))]
fn is_pad_name(word: &[u8]) -> bool
    ensures { result ≡ is_pad (upper word.now) }
{
    match word {
        [n, o] => upper_case_byte(*n) == b'N' && upper_case_byte(*o) == b'O',
        _ => false,
    }
}

/// The class of a line of which these are the bytes from its operation on.
fn class_by_operation(located: bool, bytes: &[u8]) -> Class
    requires { length bytes.now ≤ TEXT_LIMIT }
    ensures class { result ≡ by_operation located bytes.now }
    ensures spelled { IsSpelled result bytes.now }
{
    let (operation, rest) = split_word(bytes);
    if is_pad_name(operation) {
        return Class::Pad { located };
    }
    let Some((syntax, digit)) = operation_of(operation) else {
        return Class::Other;
    };
    if runs_on(bytes) {
        return Class::Refused;
    }
    match decode(syntax, digit, upper_case(next_word(rest)).as_slice()) {
        Some(instr) => Class::Instruction { located, instr },
        None => Class::Refused,
    }
}

/// A line with its class; if that is Instruction or Pad, its label and its bytes from the operation on.
#[derive(Clone, Copy)]
pub struct Classified<'a> {
    pub class: Class,
    pub label: &'a [u8],
    pub bytes: &'a [u8],
}

/// A body that is neither a comment nor a continuation, with its class.
fn class_by_fields(line: &[u8]) -> Classified<'_>
    requires { length line.now ≤ LINE_BYTES_LIMIT }
    ensures class { result.class ≡ by_operation (is_located line.now) (from_operation line.now) }
    ensures label { result.label.now ≡ label_bytes line.now }
    ensures bytes { result.bytes.now ≡ from_operation line.now }
    ensures spelled { IsSpelled result.class result.bytes.now }
    ensures few { length result.bytes.now ≤ TEXT_LIMIT }
{
    let fields = fields_of(line);
    Classified {
        class: class_by_operation(!fields.location.is_empty(), fields.from_operation),
        label: fields.label,
        bytes: fields.from_operation,
    }
}

/// A line with its class, by whether the line directly before it is code.
pub fn classify(after_code: bool, line: &[u8]) -> Classified<'_>
    requires { length line.now ≤ LINE_BYTES_LIMIT }
    ensures class { result.class ≡ class_of after_code line.now }
    ensures label { is_code result.class ≡ true → result.label.now ≡ label_bytes (body line.now) }
    ensures bytes { is_code result.class ≡ true → result.bytes.now ≡ from_operation (body line.now) }
    ensures spelled { IsSpelled result.class result.bytes.now }
    ensures few { length result.bytes.now ≤ TEXT_LIMIT }
{
    let body = body_of(line);
    let class = if is_comment_line(body) {
        Class::Comment
    } else if !is_continuation(body) {
        return class_by_fields(body);
    } else if after_code {
        Class::Refused
    } else {
        Class::Other
    };
    Classified {
        class,
        label: &[],
        bytes: &[],
    }
}
