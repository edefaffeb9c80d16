//! Which operands an operation takes, by its two letters and its digit, and the instruction of an operation with its operand
//! (`decode`).

ghost use Rattle.std.specs.Prelude.{◌≡◌, ◌≤◌, IfSome, is_some};
ghost use Rattle.s66_line.specs.{IsOfTheTable, upper, syntax_of, decode, operation_of};

use crate::fields::upper_case_byte;
use crate::operand::computing::{
    arithmetic, boolean, is_octal_digit, mask, normalise, population, shift,
};
use crate::operand::encoding::Encoding;
use crate::operand::set::set;
use s66_isa::{Bank, Instr};

/// Which operands an operation takes, with the octal codes that they choose from.
#[derive(Clone, Copy)]
pub(crate) enum Syntax {
    Boolean,
    /// Shifted by a constant, or by a B register.
    Shift {
        by_constant: u8,
        by_register: u8,
    },
    /// An X register with a B register: normalise, unpack, pack.
    Normalise {
        code: u8,
    },
    /// Two X registers round an operator; not all have a product and a quotient.
    Arithmetic {
        sum: u8,
        difference: u8,
        product: Option<u8>,
        quotient: Option<u8>,
    },
    Mask,
    Population,
    /// Sets a register of this bank.
    Set {
        bank: Bank,
    },
}

/// The syntax of an operation by its two letters.
fn syntax_of(first: u8, second: u8) -> Option<Syntax>
    ensures { result ≡ syntax_of first second }
{
    match (first, second) {
        (b'B', b'X') => Some(Syntax::Boolean),
        (b'L', b'X') => Some(Syntax::Shift {
            by_constant: 0o20,
            by_register: 0o22,
        }),
        (b'A', b'X') => Some(Syntax::Shift {
            by_constant: 0o21,
            by_register: 0o23,
        }),
        (b'N', b'X') => Some(Syntax::Normalise { code: 0o24 }),
        (b'Z', b'X') => Some(Syntax::Normalise { code: 0o25 }),
        (b'U', b'X') => Some(Syntax::Normalise { code: 0o26 }),
        (b'P', b'X') => Some(Syntax::Normalise { code: 0o27 }),
        (b'F', b'X') => Some(Syntax::Arithmetic {
            sum: 0o30,
            difference: 0o31,
            product: Some(0o40),
            quotient: Some(0o44),
        }),
        (b'D', b'X') => Some(Syntax::Arithmetic {
            sum: 0o32,
            difference: 0o33,
            product: Some(0o42),
            quotient: None,
        }),
        (b'R', b'X') => Some(Syntax::Arithmetic {
            sum: 0o34,
            difference: 0o35,
            product: Some(0o41),
            quotient: Some(0o45),
        }),
        (b'I', b'X') => Some(Syntax::Arithmetic {
            sum: 0o36,
            difference: 0o37,
            product: None,
            quotient: None,
        }),
        (b'M', b'X') => Some(Syntax::Mask),
        (b'C', b'X') => Some(Syntax::Population),
        (b'S', b'X') => Some(Syntax::Set { bank: Bank::X }),
        (b'S', b'A') => Some(Syntax::Set { bank: Bank::A }),
        (b'S', b'B') => Some(Syntax::Set { bank: Bank::B }),
        _ => None,
    }
}

/// Whether the operations of the table that begin with these letters have a digit after them.
pub fn is_table_name(first: u8, second: u8) -> bool
    ensures { result ≡ is_some (syntax_of first second) }
{
    syntax_of(first, second).is_some()
}

/// What an operation of the table takes, and its digit: two letters, in upper or in lower case, and a digit 0 to 7.
#[tactic(auto, using(crate::proofs::Names::operation_of_short, crate::proofs::Names::operation_of_long))]
pub(crate) fn operation_of(word: &[u8]) -> Option<(Syntax, u8)>
    ensures value { result ≡ operation_of (upper word.now) }
    ensures of_the_table { IfSome result (λ o. IsOfTheTable o.0 × (o.1 ≤ 7)) }
{
    match word {
        [first, second, digit] if is_octal_digit(*digit) => {
            let syntax = syntax_of(upper_case_byte(*first), upper_case_byte(*second))?;
            Some((syntax, *digit - b'0'))
        }
        _ => None,
    }
}

/// What an operand chooses of this syntax, with this digit i.
fn encoding_of(syntax: Syntax, i: u8, operand: &[u8]) -> Option<Encoding>
    ensures { result ≡ decode syntax i operand.now }
{
    match syntax {
        Syntax::Boolean => boolean(i, operand),
        Syntax::Shift {
            by_constant,
            by_register,
        } => shift(by_constant, by_register, i, operand),
        Syntax::Normalise { code } => normalise(code, i, operand),
        Syntax::Arithmetic {
            sum,
            difference,
            product,
            quotient,
        } => arithmetic(sum, difference, product, quotient, i, operand),
        Syntax::Mask => mask(i, operand),
        Syntax::Population => population(i, operand),
        Syntax::Set { bank } => set(bank, i, operand),
    }
}

/// The instruction of an operation of this syntax and digit and of an operand, if they spell one.
pub(crate) fn decode(syntax: Syntax, i: u8, operand: &[u8]) -> Option<Instr>
    requires syntax { IsOfTheTable syntax }
    requires digit { i ≤ 7 }
    ensures { result ≡ decode syntax i operand.now }
{
    let encoding = encoding_of(syntax, i, operand)?;
    Some(encoding.instr())
}
