//! The operands of the set operations `SA`, `SB` and `SX`: a sum of registers and constants, which chooses one of the eight forms.

ghost use Rattle.std.specs.Prelude.{◌≡◌, ◌≤◌, IfSome};
ghost use Rattle.s66_line.specs.{with_constant, without_constant, set_code, set};

use crate::operand::encoding::Encoding;
use crate::operand::terms::terms_of;
use s66_isa::Bank;

/// The form and the digits j and k, if a constant is among the terms.
fn with_constant(registers: &[(bool, Bank, u8)]) -> Option<(u8, u8, u8)>
    ensures value { result ≡ with_constant registers.now }
    ensures form { IfSome result (λ f. f.0 ≤ 7) }
{
    match registers {
        [] => Some((1, 0, 0)),
        [(false, Bank::A, j)] => Some((0, *j, 0)),
        [(false, Bank::B, j)] => Some((1, *j, 0)),
        [(false, Bank::X, j)] => Some((2, *j, 0)),
        _ => None,
    }
}

/// The form and the digits j and k, if all terms are registers.
fn without_constant(registers: &[(bool, Bank, u8)]) -> Option<(u8, u8, u8)>
    ensures value { result ≡ without_constant registers.now }
    ensures form { IfSome result (λ f. f.0 ≤ 7) }
{
    match registers {
        [(false, Bank::X, j)] => Some((3, *j, 0)),
        [(false, Bank::A, j)] => Some((4, *j, 0)),
        [(false, Bank::B, j)] => Some((6, *j, 0)),
        [(true, Bank::B, k)] => Some((7, 0, *k)),
        [(false, Bank::X, j), (false, Bank::B, k)] => Some((3, *j, *k)),
        [(false, Bank::B, k), (false, Bank::X, j)] => Some((3, *j, *k)),
        [(false, Bank::A, j), (false, Bank::B, k)] => Some((4, *j, *k)),
        [(false, Bank::B, k), (false, Bank::A, j)] => Some((4, *j, *k)),
        [(false, Bank::A, j), (true, Bank::B, k)] => Some((5, *j, *k)),
        [(true, Bank::B, k), (false, Bank::A, j)] => Some((5, *j, *k)),
        [(false, Bank::B, j), (false, Bank::B, k)] => Some((6, *j, *k)),
        [(false, Bank::B, j), (true, Bank::B, k)] => Some((7, *j, *k)),
        [(true, Bank::B, k), (false, Bank::B, j)] => Some((7, *j, *k)),
        _ => None,
    }
}

/// The code of form 0, by the bank that is set.
fn set_code(bank: Bank) -> u8
    ensures value { result ≡ set_code bank }
    ensures bound { result ≤ 0o70 }
{
    match bank {
        Bank::A => 0o50,
        Bank::B => 0o60,
        Bank::X => 0o70,
    }
}

/// Register names and constants joined by `+` or `-`.
pub(crate) fn set(bank: Bank, i: u8, operand: &[u8]) -> Option<Encoding>
    ensures { result ≡ set bank i operand.now }
{
    let terms = terms_of(operand)?;
    let registers = terms.registers.as_slice();
    let (form, j, k) = if terms.has_constant {
        with_constant(registers)?
    } else {
        without_constant(registers)?
    };
    Some(Encoding::new(set_code(bank) + form, i, j, k))
}
