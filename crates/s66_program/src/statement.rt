//! What a line beside the blocks is for a loop: a branch and where it goes, a word, or the end of the way.

ghost use Rattle.std.specs.Prelude.{ℕ, List, ◌≡◌, map};
ghost use Rattle.std.specs.Borrow.{Bor};
ghost use Rattle.s66_source.specs.{has_operation};
ghost use Rattle.s66_program.specs.{begins_word, is_conditional, is_named_among, is_same, location_of, name_in, name_of_part, is_passed_by_loops, step_by, step_of, target_in, target_of};

use s66_line::{fields_of, is_comment_line, is_continuation, operation_and_operand};
use s66_source::FramePart;

/// The branches after which the next instruction may be executed, but for an `EQ`, which its operand tells.
const CONDITIONAL: [&[u8]; 14] = [
    b"ZR", b"NZ", b"PL", b"NG", b"MI", b"IR", b"OR", b"DF", b"ID", b"NE", b"GE", b"GT", b"LT",
    b"LE",
];

/// What a line beside the blocks is.
#[derive(Clone, Copy)]
pub(crate) enum Step {
    /// A comment or a continuation.
    Nothing,
    /// A word begins, and nothing is in it.
    Word,
    /// A conditional branch.
    Branch,
    /// A branch behind which the next word begins.
    Jump,
    /// A loop doesn't go through it.
    End,
}

impl Step {
    ghost use Rattle.std.specs.Prelude.{◌≡◌};
    ghost use Rattle.s66_program.specs.{branches, is_end_step};

    pub(crate) fn is_end(&self) -> bool
        ensures { result ≡ is_end_step self.now }
    {
        matches!(self, Step::End)
    }

    fn branches(&self) -> bool
        ensures { result ≡ branches self.now }
    {
        matches!(self, Step::Branch | Step::Jump)
    }
}

/// Whether two names are the same, in upper or in lower case.
pub(crate) fn is_same(a: &[u8], b: &[u8]) -> bool
    ensures { result ≡ is_same a.now b.now }
{
    a.eq_ignore_ascii_case(b)
}

/// What a location field names.
pub(crate) fn name_in(location: &[u8]) -> &[u8]
    ensures { result.now ≡ name_in location.now }
{
    match location {
        [sign] if *sign == b'+' || *sign == b'-' => &[],
        _ => location,
    }
}

/// Whether a line is neither a comment nor a continuation.
pub(crate) fn has_operation(line: &[u8]) -> bool
    ensures { result ≡ has_operation line.now }
{
    !is_comment_line(line) && !is_continuation(line)
}

/// The location field of a block or of a line.
fn location_of<'a>(part: &FramePart<'a>) -> &'a [u8]
    ensures { result.now ≡ location_of part.now }
{
    if part.is_block {
        part.bytes
    } else if has_operation(part.bytes) {
        fields_of(part.bytes).location
    } else {
        &[]
    }
}

/// What a block or a line is called.
pub(crate) fn name_of<'a>(part: &FramePart<'a>) -> &'a [u8]
    ensures { result.now ≡ name_of_part part.now }
{
    name_in(location_of(part))
}

/// Whether a block or a line begins a word by its location.
pub(crate) fn begins_word(part: &FramePart) -> bool
    ensures { result ≡ begins_word part.now }
{
    let location = location_of(part);
    !location.is_empty() && location != b"-".as_slice()
}

/// Where a branch with this operand goes.
fn target_in(operand: &[u8]) -> &[u8]
    ensures { result.now ≡ target_in operand.now }
{
    let mut target = operand;
    let mut rest = operand;
    while let [byte, more @ ..] = rest {
        if *byte == b',' {
            target = more;
        }
        rest = more;
    }
    target
}

/// Whether a name is one of these, in upper or in lower case.
fn is_one_of(names: &[&[u8]], name: &[u8]) -> bool
    ensures { result ≡ is_named_among (map (λ (known : Bor (List ℕ)). known.now) names.now) name.now }
{
    for known in names {
        if is_same(known, name) {
            return true;
        }
    }
    false
}

/// Whether an operation with this operand is a conditional branch.
fn is_conditional(operation: &[u8], operand: &[u8]) -> bool
    ensures { result ≡ is_conditional operation.now operand.now }
{
    is_one_of(&CONDITIONAL, operation)
        || is_same(b"EQ", operation) && target_in(operand).len() < operand.len()
}

/// What a line is by its operation.
fn step_by(operation: &[u8], operand: &[u8]) -> Step
    ensures { result ≡ step_by operation.now operand.now }
{
    if operation.is_empty() || is_same(b"BSS", operation) && operand == b"0".as_slice() {
        Step::Word
    } else if is_conditional(operation, operand) {
        Step::Branch
    } else if is_same(b"EQ", operation) || is_same(b"JP", operation) {
        Step::Jump
    } else {
        Step::End
    }
}

/// What a line is.
pub(crate) fn step_of(line: &[u8]) -> Step
    ensures { result ≡ step_of line.now }
{
    if has_operation(line) {
        let (operation, operand) = operation_and_operand(fields_of(line).from_operation);
        step_by(operation, operand)
    } else {
        Step::Nothing
    }
}

/// Whether a loop may go through a block or a line.
pub(crate) fn passes(part: &FramePart) -> bool
    ensures { result ≡ is_passed_by_loops part.now }
{
    part.is_block || !step_of(part.bytes).is_end()
}

/// Where a line goes to; empty if it is no branch.
pub(crate) fn target_of<'a>(part: &FramePart<'a>) -> &'a [u8]
    ensures { result.now ≡ target_of part.now }
{
    if step_of(part.bytes).branches() {
        let (_, operand) = operation_and_operand(fields_of(part.bytes).from_operation);
        target_in(operand)
    } else {
        &[]
    }
}
