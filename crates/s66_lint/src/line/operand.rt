//! The parts of an operand: terms of a sum, numbers, names and registers.

use crate::line::spelling::{is_index, is_register};
use s66_line::is_decimal_digit;
use s66_source::{are_digits, is_one_of};
use std::alloc::{AllocError, Global};

pub(crate) fn is_sign(byte: &u8) -> bool {
    matches!(byte, b'+' | b'-')
}

pub(crate) fn is_comma(byte: &u8) -> bool {
    *byte == b','
}

/// Whether a byte ends a name in an operand.
pub(crate) fn ends_name(byte: &u8) -> bool {
    is_sign(byte) || *byte == b'*' || ends_sum(byte)
}

/// Whether a byte ends a sum in an operand.
pub(crate) fn ends_sum(byte: &u8) -> bool {
    matches!(byte, b',' | b'/' | b'(' | b')')
}

/// The address of the line itself.
const HERE: [&[u8]; 5] = [b"*", b"*L", b"*O", b"*P", b"$"];

/// What makes an address no address of code.
const HIGH: [&[u8]; 2] = [b"1S17", b"400000B"];

/// A term of a sum, in upper case.
#[derive(Clone, Copy)]
pub(crate) struct Term<'a> {
    pub(crate) is_subtracted: bool,
    pub(crate) bytes: &'a [u8],
}

impl<'a> Term<'a> {
    pub(crate) fn is_register(&self) -> bool {
        is_register(self.bytes)
    }

    /// Whether it may add words to an address: it is neither a register nor an address of its own, as `*` and the literal `=1` are.
    pub(crate) fn counts(&self) -> bool {
        !matches!(self.bytes, [] | [b'=' | b'*' | b'$', ..]) && !self.is_register()
    }

    /// Whether it is the address of the line itself.
    pub(crate) fn is_here(&self) -> bool {
        is_one_of(&HERE, self.bytes)
    }

    /// Whether it makes an address no address of code.
    pub(crate) fn is_high(&self) -> bool {
        is_one_of(&HIGH, self.bytes)
    }

    /// A number with its sign.
    pub(crate) fn signed(&self, number: i64) -> i64 {
        if self.is_subtracted {
            0i64.saturating_sub(number)
        } else {
            number
        }
    }
}

fn is_octal_digit(digit: &u8) -> bool {
    *digit != b'8' && *digit != b'9'
}

/// The number that digits spell to a base, or as much as fits.
fn number_to_base(base: i64, digits: &[u8]) -> i64 {
    let mut number: i64 = 0;
    for digit in digits {
        number = number
            .saturating_mul(base)
            .saturating_add(digit.saturating_sub(b'0') as i64);
    }
    number
}

/// The number that decimal digits spell.
pub(crate) fn decimal(digits: &[u8]) -> i64 {
    number_to_base(10, digits)
}

/// The number that a term is: digits, which the letter of their base may follow.
pub(crate) fn number_of(term: &[u8]) -> Option<i64> {
    let (base, digits) = match term {
        [digits @ .., b'B' | b'O'] if digits.iter().all(is_octal_digit) => (8, digits),
        [digits @ .., b'B' | b'D' | b'O'] => (10, digits),
        _ => (10, term),
    };
    if is_numeral(digits) {
        Some(number_to_base(base, digits))
    } else {
        None
    }
}

/// The terms of a sum; none of what is no sum.
pub(crate) fn terms_of<'a>(alloc: Global, sum: &'a [u8]) -> Result<Vec<Term<'a>>, AllocError> {
    let (mut is_subtracted, unsigned) = match sum {
        [b'+', rest @ ..] => (false, rest),
        [b'-', rest @ ..] => (true, rest),
        _ => (false, sum),
    };
    let mut terms = Vec::new(alloc);
    let mut end: usize = 0;
    for bytes in unsigned.split(is_sign) {
        if bytes.is_empty() {
            return Ok(Vec::new(alloc));
        }
        terms.push(Term {
            is_subtracted,
            bytes,
        })?;
        end = end.saturating_add(bytes.len());
        is_subtracted = matches!(unsigned.get(end), Some(b'-'));
        end = end.saturating_add(1);
    }
    Ok(terms)
}

/// Whether an operand in upper case is a list of registers with at most a sign before each, a product of two, or none. It names
/// nothing then, as most operands.
pub(crate) fn names_nothing(operand: &[u8]) -> bool {
    let unsigned = match operand {
        [] => return true,
        [b'+' | b'-', rest @ ..] => rest,
        _ => operand,
    };
    if let [x, j, b'*', y, k] = unsigned {
        return is_register(&[*x, *j]) && is_register(&[*y, *k]);
    }
    let mut names = unsigned.split(|byte| is_sign(byte) || *byte == b',');
    names.all(is_register)
}

/// Whether an operand in upper case is a sum of registers, or none: an instruction with it has one parcel.
pub(crate) fn has_registers_alone(operand: &[u8]) -> bool {
    let unsigned = match operand {
        [b'+' | b'-', rest @ ..] => rest,
        _ => operand,
    };
    let mut is_sum = true;
    let mut has_constant = false;
    for term in unsigned.split(is_sign) {
        is_sum = is_sum && !term.is_empty();
        has_constant = has_constant || !is_register(term);
    }
    !is_sum || !has_constant
}

/// Whether a line of `EQU` with this operand gives its name to a word near it: after it, or `Some(true)` before it.
pub(crate) fn is_before(operand: &[u8]) -> Option<bool> {
    match operand {
        b"*" => Some(false),
        [b'*', b'+', digits @ ..] if is_numeral(digits) => Some(false),
        [b'*', b'-', digits @ ..] if is_numeral(digits) => Some(true),
        _ => None,
    }
}

fn is_numeral(bytes: &[u8]) -> bool {
    match bytes {
        [first, ..] => is_decimal_digit(*first) && are_digits(bytes),
        [] => false,
    }
}

/// Whether these bytes of an operand are a name, and no literal.
pub(crate) fn is_name(bytes: &[u8]) -> bool {
    !matches!(bytes, [] | [b'=', ..])
}

/// Whether an operand has another term than the first: a sign that isn't in front.
pub(crate) fn has_other_term(operand: &[u8]) -> bool {
    match operand.iter().position(|byte| !is_sign(byte)) {
        Some(first) => operand.iter().skip(first).any(is_sign),
        None => false,
    }
}

/// Whether an operand in upper case names a B register.
pub(crate) fn names_index(operand: &[u8]) -> bool {
    let mut names = operand.split(ends_name);
    names.any(is_index)
}

/// An operand without the plus signs in front.
pub(crate) fn without_plus(operand: &[u8]) -> &[u8] {
    match operand.iter().position(|byte| *byte != b'+') {
        Some(first) => &operand[first..],
        None => &[],
    }
}
