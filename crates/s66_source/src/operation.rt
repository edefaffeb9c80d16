//! A quick look at an operation's name: whether it may cover, begin or end something, which most don't.

ghost use Rattle.std.specs.Prelude.{ℕ, List, [], ◌∷◌, ◌≡◌, ◌≤◌, ◌==◌, ◌||◌, true, false, bytes_eq, codes};
ghost use Rattle.s66_isa.specs.{every};
ghost use Rattle.s66_line.specs.{upper, upper_byte, word};
ghost use Rattle.s66_source.specs.{count_down, is_one_of, after_operation, has_operation, Standing};

use s66_line::{is_comment_line, is_continuation};

/// Whether a byte is this letter, in upper or in lower case.
#[inline(always)]
fn is_letter(byte: u8, letter: u8) -> bool
    requires from { 65 ≤ letter }
    requires to { letter ≤ 90 }
    ensures { result ≡ (upper_byte byte == letter) }
{
    byte == letter || byte == letter + 32
}

fn is_upper_case_byte(byte: u8) -> bool
    ensures { result ≡ (upper_byte byte == byte) }
{
    byte < b'a' || byte > b'z'
}

/// Whether none of these bytes is a letter in lower case.
pub(crate) fn is_upper_case(bytes: &[u8]) -> bool
    ensures { result ≡ every (λ byte. upper_byte byte == byte) bytes.now }
{
    for byte in bytes {
        if !is_upper_case_byte(*byte) {
            return false;
        }
    }
    true
}

/// Whether these three bytes, of which the first is in upper case, may begin the name of an operation that covers lines, or begins
/// or ends something.
#[inline(always)]
fn begins_name(first: u8, second: u8, third: u8) -> bool
    ensures { result ≡ (bytes_eq (first ∷ upper_byte second ∷ []) (codes "IF") || is_one_of
        (codes "IDE" ∷ codes "END" ∷ codes "ELS" ∷ codes "ECH" ∷ codes "MAC" ∷ codes "OPD" ∷ codes "SKI" ∷
        codes "DUP" ∷ []) (first ∷ upper_byte second ∷ upper_byte third ∷ [])) }
{
    match first {
        b'I' => is_letter(second, b'F') || is_letter(second, b'D') && is_letter(third, b'E'),
        b'E' => {
            is_letter(second, b'N') && is_letter(third, b'D')
                || is_letter(second, b'L') && is_letter(third, b'S')
                || is_letter(second, b'C') && is_letter(third, b'H')
        }
        b'M' => is_letter(second, b'A') && is_letter(third, b'C'),
        b'O' => is_letter(second, b'P') && is_letter(third, b'D'),
        b'S' => is_letter(second, b'K') && is_letter(third, b'I'),
        b'D' => is_letter(second, b'U') && is_letter(third, b'P'),
        _ => false,
    }
}

/// Whether the operation in front of these bytes shows by its first letters that it covers, begins and ends nothing, as most do.
pub(crate) fn is_ordinary(bytes: &[u8]) -> bool
    ensures { result ≡ true → (s : Standing) (operand : List ℕ) →
        after_operation s (upper (word bytes.now)) operand ≡ record s { cover = count_down s.cover false } }
{
    match bytes {
        [first, second, third, ..] => !begins_name(first.to_ascii_uppercase(), *second, *third),
        _ => false,
    }
}

/// Whether a body is neither a comment nor a continuation.
pub(crate) fn has_operation(body: &[u8]) -> bool
    ensures { result ≡ has_operation body.now }
{
    !is_comment_line(body) && !is_continuation(body)
}
