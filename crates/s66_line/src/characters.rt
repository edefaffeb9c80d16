//! Character constants in an operand, as in `=10HREAD ERROR`, which may have blanks, so that the operand goes on behind its blank:
//! where they end, and where an operand goes on behind them.

ghost use Rattle.std.specs.Prelude.{◌≡◌, ◌≤◌, ◌+◌, ◌*◌, ◌==◌, length, min, not};
ghost use Rattle.std.specs.List.{prefix_len};
ghost use Rattle.s66_line.specs.{after_at_term, after_in_count, after_in_term, begins_blank, characters_in, ends_term, is_decimal, justifies, place_after, runs_on, still_taken, through, upper, AtTerm};
ghost use Rattle.s66_line.specs.{TEXT_LIMIT};

use crate::fields::{is_blank_byte, operand_and_rest, without_trailing};
use crate::instruction_text::upper_case;
use crate::limits::TEXT_LIMIT;

/// Where in an operand a byte stands, by the bytes before it. The assembler counts characters, as in `10HREAD ERROR`, or reads them
/// up to a mark, as in `=C/A B/`.
#[derive(Clone, Copy)]
pub enum Place {
    /// At the beginning of a term.
    AtTerm,
    /// Within a term.
    InTerm,
    /// Behind these digits, with which a term begins; no more than `TEXT_LIMIT`.
    InCount { count: u8 },
    /// Behind an `=`.
    AtEquals,
    /// Behind an `=` and a letter that may stand before a string.
    AtLetter,
    /// Before so many characters.
    InCharacters { count: u8 },
    /// Within a string that a slash ends.
    InSlashes,
    /// Within a string that a star ends.
    InStars,
}

pub fn is_decimal_digit(byte: u8) -> bool
    ensures { result ≡ is_decimal byte }
{
    byte >= b'0' && byte <= b'9'
}

/// Whether a letter says how characters stand in a word.
fn justifies(byte: u8) -> bool
    ensures { result ≡ justifies byte }
{
    matches!(byte, b'A' | b'C' | b'H' | b'L' | b'R' | b'Z')
}

fn ends_term(byte: u8) -> bool
    ensures { result ≡ ends_term byte }
{
    matches!(byte, b'+' | b'-' | b'*' | b'/' | b',')
}

fn after_in_term(byte: u8) -> Place
    ensures { result ≡ after_in_term byte }
{
    if byte == b'=' {
        Place::AtEquals
    } else if ends_term(byte) {
        Place::AtTerm
    } else {
        Place::InTerm
    }
}

fn after_at_term(byte: u8) -> Place
    ensures { result ≡ after_at_term byte }
{
    if is_decimal_digit(byte) {
        Place::InCount { count: byte - b'0' }
    } else {
        after_in_term(byte)
    }
}

/// A count with one digit more, but no more than `TEXT_LIMIT`.
fn with_digit(count: u8, digit: u8) -> u8
    requires { digit ≤ 9 }
    ensures { result ≡ min (10 * count + digit) TEXT_LIMIT }
{
    (10 * usize::from(count) + usize::from(digit)).min(TEXT_LIMIT) as u8
}

fn after_in_count(count: u8, byte: u8) -> Place
    ensures { result ≡ after_in_count count byte }
{
    if is_decimal_digit(byte) {
        Place::InCount {
            count: with_digit(count, byte - b'0'),
        }
    } else if count > 0 && justifies(byte) {
        Place::InCharacters { count }
    } else {
        after_in_term(byte)
    }
}

impl Place {
    ghost use Rattle.std.specs.Prelude.{◌≡◌};
    ghost use Rattle.s66_line.specs.{after_byte_at};

    /// The place after a byte in upper case.
    fn after(&self, byte: u8) -> Place
        ensures { result ≡ after_byte_at self.now byte }
    {
        match self {
            Place::AtTerm => after_at_term(byte),
            Place::InTerm => after_in_term(byte),
            Place::InCount { count } => after_in_count(*count, byte),
            Place::AtEquals if justifies(byte) => Place::AtLetter,
            Place::AtEquals => after_at_term(byte),
            Place::AtLetter if byte == b'/' => Place::InSlashes,
            Place::AtLetter if byte == b'*' => Place::InStars,
            Place::AtLetter => after_in_term(byte),
            Place::InCharacters { count } if *count > 1 => Place::InCharacters {
                count: *count - 1,
            },
            Place::InCharacters { .. } => Place::AtTerm,
            Place::InSlashes if byte == b'/' => Place::AtTerm,
            Place::InSlashes => Place::InSlashes,
            Place::InStars if byte == b'*' => Place::AtTerm,
            Place::InStars => Place::InStars,
        }
    }
}

/// The place after an operand in upper case.
fn place_after(operand: &[u8]) -> Place
    ensures { result ≡ place_after AtTerm operand.now }
{
    let mut place = Place::AtTerm;
    for byte in operand {
        place = place.after(*byte);
    }
    place
}

/// How many bytes come before the first of these.
fn length_before(byte: u8, bytes: &[u8]) -> usize
    ensures { result ≡ prefix_len (λ b. not (b == byte)) bytes.now }
{
    bytes.iter().take_while(|b| **b != byte).count()
}

/// How many bytes a string still has, with the mark that ends it, if there is one.
#[tactic(auto, using(crate::proofs::Strings::through_before))]
fn through(mark: u8, rest: &[u8]) -> Option<usize>
    ensures { result ≡ through mark rest.now }
{
    let before = length_before(mark, rest);
    if before < rest.len() {
        Some(before + 1)
    } else {
        None
    }
}

/// How many bytes of what follows an operand its characters still take, if they end.
fn still_taken(place: &Place, rest: &[u8]) -> Option<usize>
    ensures { result ≡ still_taken place.now rest.now }
{
    match place {
        Place::InCharacters { count } => Some(usize::from(*count)),
        Place::InSlashes => through(b'/', rest),
        Place::InStars => through(b'*', rest),
        _ => Some(0),
    }
}

fn begins_blank(bytes: &[u8]) -> bool
    ensures { result ≡ begins_blank bytes.now }
{
    match bytes {
        [first, ..] => is_blank_byte(*first),
        [] => true,
    }
}

/// How many bytes of what follows the operand its characters still take, if they end.
fn taken_in(operand: &[u8], rest: &[u8]) -> Option<usize>
    requires { length operand.now ≤ TEXT_LIMIT }
    ensures { result ≡ still_taken (place_after AtTerm (upper operand.now)) rest.now }
{
    still_taken(&place_after(upper_case(operand).as_slice()), rest)
}

/// Whether an operand goes on behind characters that go on behind its blank, or their mark is missing. These are the bytes from the
/// operation on.
pub(crate) fn runs_on(bytes: &[u8]) -> bool
    requires { length bytes.now ≤ TEXT_LIMIT }
    ensures { result ≡ runs_on bytes.now }
{
    let (operand, rest) = operand_and_rest(bytes);
    match taken_in(operand, rest) {
        Some(taken) => !begins_blank(&rest[taken.min(rest.len())..]),
        None => true,
    }
}

/// The characters of an operand behind its blank, as they are written, without the blanks at their end. These are the bytes from the
/// operation on.
pub(crate) fn characters_in(bytes: &[u8]) -> &[u8]
    requires { length bytes.now ≤ TEXT_LIMIT }
    ensures { upper result.now ≡ characters_in bytes.now }
{
    let (operand, rest) = operand_and_rest(bytes);
    match taken_in(operand, rest) {
        Some(taken) => without_trailing(&rest[..taken.min(rest.len())]),
        None => &[],
    }
}
