//! The text of an instruction, in upper case with one blank: made of a line, and read back.

ghost use Rattle.std.specs.Prelude.{◌≡◌, ◌≤◌, ◌+◌, ◌++◌, ◌↔◌, true, length, IfSome, IfNone};
ghost use Rattle.s66_line.specs.{characters_in, upper, instr_of, spelling, operation_in, operand_in, IsTextOf, IsInstruction, TEXT_LIMIT};

use crate::characters::characters_in;
use crate::fields::{operation_and_operand, upper_case_byte};
use crate::limits::TEXT_LIMIT;
use crate::operand::{decode, operation_of};
use arrayvec::ArrayVec;
use s66_isa::Instr;

/// Appends the bytes, each letter in upper case.
fn push_upper_case(letters: &mut ArrayVec<u8, TEXT_LIMIT>, bytes: &[u8])
    requires { length letters.old.items + length bytes.now ≤ TEXT_LIMIT }
    ensures value { letters.new.items ≡ letters.old.items ++ upper bytes.now }
    ensures count { length letters.new.items ≡ length letters.old.items + length bytes.now }
{
    for byte in bytes {
        letters.push(upper_case_byte(*byte));
    }
}

/// The bytes, each letter in upper case.
pub fn upper_case(bytes: &[u8]) -> ArrayVec<u8, TEXT_LIMIT>
    requires { length bytes.now ≤ TEXT_LIMIT }
    ensures value { result.items ≡ upper bytes.now }
    ensures count { length result.items ≡ length bytes.now }
{
    let mut letters = ArrayVec::new();
    push_upper_case(&mut letters, bytes);
    letters
}

/// The operation and the operand in front of these bytes in upper case, one blank between them if there is an operand.
pub(crate) fn spell(bytes: &[u8]) -> ArrayVec<u8, TEXT_LIMIT>
    requires { length bytes.now ≤ TEXT_LIMIT }
    ensures { result.items ≡ spelling (operation_in bytes.now) (operand_in bytes.now) }
{
    let (operation, operand) = operation_and_operand(bytes);
    let mut letters = upper_case(operation);
    if !operand.is_empty() {
        letters.push(b' ');
        push_upper_case(&mut letters, operand);
    }
    letters
}

/// What `spell` gives, and the characters of the operand that go on behind its blank.
pub(crate) fn spell_whole(bytes: &[u8]) -> ArrayVec<u8, TEXT_LIMIT>
    requires { length bytes.now ≤ TEXT_LIMIT }
    ensures { result.items ≡ spelling (operation_in bytes.now) (operand_in bytes.now) ++ characters_in bytes.now }
{
    let mut letters = spell(bytes);
    push_upper_case(&mut letters, characters_in(bytes));
    letters
}

/// The instruction that the operation and the operand in front of these bytes spell, in upper or in lower case and whatever
/// follows them; None if they spell none.
pub(crate) fn instruction_in(bytes: &[u8]) -> Option<Instr>
    requires { length bytes.now ≤ TEXT_LIMIT }
    ensures { result ≡ instr_of (operation_in bytes.now) (operand_in bytes.now) }
{
    let (operation, operand) = operation_and_operand(bytes);
    let (syntax, digit) = operation_of(operation)?;
    decode(syntax, digit, upper_case(operand).as_slice())
}

/// The instruction whose text this is, as `Block::text` gives it; None if it is the text of none.
pub fn instruction_of_text(text: &[u8]) -> Option<Instr>
    ensures some { IfSome result (λ instr. IsTextOf text.now instr) }
    ensures none { IfNone result (¬ IsInstruction text.now) }
{
    if text.len() > TEXT_LIMIT {
        return None;
    }
    let instr = instruction_in(text)?;
    if spell(text).as_slice() == text {
        Some(instr)
    } else {
        None
    }
}

/// Whether this is the text of an instruction, as `Block::text` gives it.
pub fn is_instruction(text: &[u8]) -> bool
    ensures { result ≡ true ↔ IsInstruction text.now }
{
    instruction_of_text(text).is_some()
}
