//! The operands of shift, mask, Boolean, arithmetic, normalise and population operations.

ghost use Rattle.std.specs.Prelude.{◌≡◌, ◌≤◌, IfSome};
ghost use Rattle.s66_line.specs.{is_octal, x_digit, b_digit, two_x, boolean_operator, boolean, b_and_x, shift, normalise, mask, arithmetic_code, arithmetic, population};

use crate::operand::encoding::Encoding;
use crate::operand::terms::is_expression;

pub fn is_octal_digit(byte: u8) -> bool
    ensures { result ≡ is_octal byte }
{
    byte >= b'0' && byte <= b'7'
}

/// The digit of an X register.
fn x_digit(letter: u8, digit: u8) -> Option<u8>
    ensures { result ≡ x_digit letter digit }
{
    if letter == b'X' && is_octal_digit(digit) {
        Some(digit - b'0')
    } else {
        None
    }
}

/// The digit of a B register.
fn b_digit(letter: u8, digit: u8) -> Option<u8>
    ensures { result ≡ b_digit letter digit }
{
    if letter == b'B' && is_octal_digit(digit) {
        Some(digit - b'0')
    } else {
        None
    }
}

/// The digits of two X registers.
fn two_x(first: u8, j: u8, second: u8, k: u8) -> Option<(u8, u8)>
    ensures { result ≡ two_x first j second k }
{
    Some((x_digit(first, j)?, x_digit(second, k)?))
}

/// How far the code of a Boolean operator is above that of no operator.
fn boolean_operator(operator: u8) -> Option<u8>
    ensures value { result ≡ boolean_operator operator }
    ensures few { IfSome result (λ f. f ≤ 3) }
{
    match operator {
        b'*' => Some(1),
        b'+' => Some(2),
        b'-' => Some(3),
        _ => None,
    }
}

/// `Xj`, `-Xk`, or two X registers round an operator, the first with or without a minus.
pub(crate) fn boolean(i: u8, operand: &[u8]) -> Option<Encoding>
    ensures { result ≡ boolean i operand.now }
{
    match operand {
        [letter, j] => Some(Encoding::new(0o10, i, x_digit(*letter, *j)?, 0)),
        [b'-', letter, k] => Some(Encoding::new(0o14, i, 0, x_digit(*letter, *k)?)),
        [first, j, operator, second, k] => {
            let further = boolean_operator(*operator)?;
            let (j, k) = two_x(*first, *j, *second, *k)?;
            Some(Encoding::new(0o10 + further, i, j, k))
        }
        [b'-', first, k, operator, second, j] => {
            let further = boolean_operator(*operator)?;
            let (k, j) = two_x(*first, *k, *second, *j)?;
            Some(Encoding::new(0o14 + further, i, j, k))
        }
        _ => None,
    }
}

/// The digits of one B and one X register in either order, joined by a comma, or of one of them alone. A missing B is B0, a
/// missing X is Xi.
fn b_and_x(i: u8, operand: &[u8]) -> Option<(u8, u8)>
    ensures { result ≡ b_and_x i operand.now }
{
    match operand {
        [letter, digit] => match b_digit(*letter, *digit) {
            Some(j) => Some((j, i)),
            None => Some((0, x_digit(*letter, *digit)?)),
        },
        [first, digit, b',', second, second_digit] => match b_digit(*first, *digit) {
            Some(j) => Some((j, x_digit(*second, *second_digit)?)),
            None => {
                let j = b_digit(*second, *second_digit)?;
                Some((j, x_digit(*first, *digit)?))
            }
        },
        _ => None,
    }
}

/// By a constant, or by a B register.
pub(crate) fn shift(by_constant: u8, by_register: u8, i: u8, operand: &[u8]) -> Option<Encoding>
    ensures { result ≡ shift by_constant by_register i operand.now }
{
    if is_expression(operand) {
        return Some(Encoding::new(by_constant, i, 0, 0));
    }
    let (j, k) = b_and_x(i, operand)?;
    Some(Encoding::new(by_register, i, j, k))
}

/// A B and an X register, or B0 and Xi if the operand is absent.
pub(crate) fn normalise(code: u8, i: u8, operand: &[u8]) -> Option<Encoding>
    ensures { result ≡ normalise code i operand.now }
{
    match operand {
        [] => Some(Encoding::new(code, i, 0, i)),
        _ => {
            let (j, k) = b_and_x(i, operand)?;
            Some(Encoding::new(code, i, j, k))
        }
    }
}

/// An expression without registers.
pub(crate) fn mask(i: u8, operand: &[u8]) -> Option<Encoding>
    ensures { result ≡ mask i operand.now }
{
    if is_expression(operand) {
        Some(Encoding::new(0o43, i, 0, 0))
    } else {
        None
    }
}

/// The code that an operator chooses.
fn arithmetic_code(
    sum: u8,
    difference: u8,
    product: Option<u8>,
    quotient: Option<u8>,
    operator: u8,
) -> Option<u8>
    ensures { result ≡ arithmetic_code sum difference product quotient operator }
{
    match operator {
        b'+' => Some(sum),
        b'-' => Some(difference),
        b'*' => product,
        b'/' => quotient,
        _ => None,
    }
}

/// Two X registers round an operator; `-Xk+Xj` is `Xj-Xk`.
pub(crate) fn arithmetic(
    sum: u8,
    difference: u8,
    product: Option<u8>,
    quotient: Option<u8>,
    i: u8,
    operand: &[u8],
) -> Option<Encoding>
    ensures { result ≡ arithmetic sum difference product quotient i operand.now }
{
    match operand {
        [first, j, operator, second, k] => {
            let code = arithmetic_code(sum, difference, product, quotient, *operator)?;
            let (j, k) = two_x(*first, *j, *second, *k)?;
            Some(Encoding::new(code, i, j, k))
        }
        [b'-', first, k, b'+', second, j] => {
            let (k, j) = two_x(*first, *k, *second, *j)?;
            Some(Encoding::new(difference, i, j, k))
        }
        _ => None,
    }
}

/// `Xk`.
pub(crate) fn population(i: u8, operand: &[u8]) -> Option<Encoding>
    ensures { result ≡ population i operand.now }
{
    match operand {
        [letter, k] => Some(Encoding::new(0o47, i, 0, x_digit(*letter, *k)?)),
        _ => None,
    }
}
