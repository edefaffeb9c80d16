//! The terms of such a sum: which are registers, and which are constants.

ghost use Rattle.std.specs.Prelude.{◌≡◌, ◌≤◌, [], IfSome, option_map};
ghost use Rattle.arrayvec.specs.ArrayVec.{array_vec_len};
ghost use Rattle.s66_line.specs.{is_near, near_front, may_stand, is_constant_from, register_of, is_symbol, is_constant, is_expression, is_sign, terms_from, terms_of, gather, terms_in, with_term};

use arrayvec::ArrayVec;
use s66_isa::Bank;

/// A letter, a digit or a point: what may be beside `*` and `/`.
fn is_near(byte: u8) -> bool
    ensures { result ≡ is_near byte }
{
    byte >= b'A' && byte <= b'Z' || byte >= b'0' && byte <= b'9' || byte == b'.'
}

fn near_front(bytes: &[u8]) -> bool
    ensures { result ≡ near_front bytes.now }
{
    match bytes {
        [byte, ..] => is_near(*byte),
        [] => false,
    }
}

/// Whether a byte may be in a constant between these bytes; 0 if none is before it.
fn may_stand(last: u8, byte: u8, after: &[u8]) -> bool
    ensures { result ≡ may_stand last byte after.now }
{
    let is_operator = byte == b'*' || byte == b'/';
    is_near(byte) || byte == b'=' || is_operator && is_near(last) && near_front(after)
}

fn has_constant_bytes(term: &[u8]) -> bool
    ensures { result ≡ is_constant_from 0 term.now }
{
    let mut last = 0;
    for at in 0..term.len() {
        if !may_stand(last, term[at], &term[at + 1..]) {
            return false;
        }
        last = term[at];
    }
    true
}

/// The register that a term names: its bank and its digit.
fn register_of(term: &[u8]) -> Option<(Bank, u8)>
    ensures { result ≡ register_of term.now }
{
    match term {
        [b'A', digit @ b'0'..=b'7'] => Some((Bank::A, *digit - b'0')),
        [b'B', digit @ b'0'..=b'7'] => Some((Bank::B, *digit - b'0')),
        [b'X', digit @ b'0'..=b'7'] => Some((Bank::X, *digit - b'0')),
        _ => None,
    }
}

/// Whether it begins with `A.`, `B.` or `X.`, as a register named by a symbol does.
fn is_symbol(term: &[u8]) -> bool
    ensures { result ≡ is_symbol term.now }
{
    match term {
        [b'A' | b'B' | b'X', b'.', ..] => true,
        _ => false,
    }
}

fn is_constant(term: &[u8]) -> bool
    ensures { result ≡ is_constant term.now }
{
    !term.is_empty() && has_constant_bytes(term) && register_of(term).is_none() && !is_symbol(term)
}

fn is_sign(byte: u8) -> bool
    ensures { result ≡ is_sign byte }
{
    byte == b'+' || byte == b'-'
}

/// What is among the terms of an operand.
#[derive(Drop)]
pub(crate) struct Terms {
    pub(crate) has_constant: bool,
    /// The registers in order, each with whether a minus comes before it.
    pub(crate) registers: ArrayVec<(bool, Bank, u8), 2>,
}

/// One term more, if it is a constant or a register that is no third one.
fn with_term(mut terms: Terms, minus: bool, term: &[u8]) -> Option<Terms>
    requires { array_vec_len terms.registers ≤ 2 }
    ensures value { option_map terms_in result ≡ with_term (terms_in terms) minus term.now }
    ensures few { IfSome result (λ t. array_vec_len t.registers ≤ 2) }
{
    match register_of(term) {
        Some((bank, digit)) => {
            if terms.registers.is_full() {
                return None;
            }
            terms.registers.push((minus, bank, digit));
        }
        None => {
            if !is_constant(term) {
                return None;
            }
            terms.has_constant = true;
        }
    }
    Some(terms)
}

/// The terms after a sign, or after none.
fn terms_after(first_minus: bool, text: &[u8]) -> Option<Terms>
    ensures { option_map terms_in result ≡ gather (terms_from first_minus [] text.now) }
{
    let mut terms = Terms {
        has_constant: false,
        registers: ArrayVec::new(),
    };
    let mut minus = first_minus;
    let mut start = 0;
    for end in 0..text.len() {
        if is_sign(text[end]) {
            terms = with_term(terms, minus, &text[start..end])?;
            minus = text[end] == b'-';
            start = end + 1;
        }
    }
    with_term(terms, minus, &text[start..])
}

/// The terms that `+` or `-` joins, with or without a first sign.
pub(crate) fn terms_of(text: &[u8]) -> Option<Terms>
    ensures { option_map terms_in result ≡ gather (terms_of text.now) }
{
    match text {
        [] => Some(Terms {
            has_constant: false,
            registers: ArrayVec::new(),
        }),
        [first, rest @ ..] => {
            if is_sign(*first) {
                terms_after(*first == b'-', rest)
            } else {
                terms_after(false, text)
            }
        }
    }
}

/// Whether it is constants alone, one at least.
pub(crate) fn is_expression(text: &[u8]) -> bool
    ensures { result ≡ is_expression text.now }
{
    match terms_of(text) {
        Some(terms) => !text.is_empty() && terms.registers.is_empty(),
        None => false,
    }
}
