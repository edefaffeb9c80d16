//! How many lines an operation such as `IF`, `SKIP` or `DUP` covers, by the count in its operand.

ghost use Rattle.std.specs.Prelude.{ℕ, List, ◌≡◌, ◌≤◌, map, min, true, Some, None, option_map, length};
ghost use Rattle.std.specs.Borrow.{Bor};
ghost use Rattle.s66_isa.specs.{every};
ghost use Rattle.s66_line.specs.{is_decimal, is_blank};
ghost use Rattle.s66_source.specs.{after_byte, after_comma, before_byte, counting_text, cover_after_strings, cover_after_third, cover_by_count, cover_by_numeral, cover_by_strings, cover_of};
ghost use Rattle.s66_source.specs.{is_numeral, is_one_of, spelled_after, strings_in, SOURCE_LINES_LIMIT};

use crate::cover::Cover;
use crate::limits::SOURCE_LINES_LIMIT;
use memchr::memchr;
use s66_line::{from_operand, is_decimal_digit, split_word};

/// The operations that end a part which an `IF`, a `SKIP`, an `ELSE`, a `DUP` or an `ECHO` covers.
pub(crate) const RANGE_ENDS: [&[u8]; 4] = [b"ENDD", b"ENDIF", b"END", b"IDENT"];

/// The operations whose operand is a count.
const COUNTED_ALONE: [&[u8]; 8] = [
    b"SKIP", b"ELSE", b"IFCP", b"IFCP6", b"IFCP7", b"IFPP", b"IFPP6", b"IFPP7",
];

/// Those of which the count comes after one comma.
const COUNTED_AFTER_ONE: [&[u8]; 3] = [b"DUP", b"IFPL", b"IFMI"];

/// Those of which it comes after two.
const COUNTED_AFTER_TWO: [&[u8]; 7] = [b"IF", b"IFEQ", b"IFNE", b"IFGT", b"IFGE", b"IFLT", b"IFLE"];

/// Column 30, from 0: a remark may begin there if there is no operand.
const REMARK_COLUMN: usize = 29;

/// Whether a word is one of these.
#[inline(always)]
pub fn is_one_of(names: &[&[u8]], word: &[u8]) -> bool
    ensures { result ≡ is_one_of (map (λ (name : Bor (List ℕ)). name.now) names.now) word.now }
{
    for name in names {
        if word.len() == name.len() && word == *name {
            return true;
        }
    }
    false
}

/// Whether all bytes are digits.
pub fn are_digits(bytes: &[u8]) -> bool
    ensures { result ≡ every is_decimal bytes.now }
{
    for byte in bytes {
        if !is_decimal_digit(*byte) {
            return false;
        }
    }
    true
}

pub(crate) fn is_numeral(bytes: &[u8]) -> bool
    ensures { result ≡ is_numeral bytes.now }
{
    !bytes.is_empty() && are_digits(bytes)
}

/// The number that these digits spell, or `SOURCE_LINES_LIMIT` if that is less.
fn capped_number(digits: &[u8]) -> u32
    requires { every is_decimal digits.now ≡ true }
    ensures { result ≡ min (spelled_after 0 digits.now) SOURCE_LINES_LIMIT }
{
    let mut number: u32 = 0;
    for digit in digits {
        number = (10 * number + (*digit - b'0') as u32).min(SOURCE_LINES_LIMIT);
    }
    number
}

pub(crate) fn is_blank(byte: u8) -> bool
    ensures { result ≡ is_blank byte }
{
    byte == b' ' || byte == b'\t'
}

fn cover_by_count(count: &[u8]) -> Cover
    ensures { result ≡ cover_by_count count.now }
{
    if count.is_empty() {
        Cover::Nothing
    } else if is_numeral(count) {
        Cover::of_lines(capped_number(count))
    } else {
        Cover::ToItsEnd
    }
}

/// What is no numeral covers nothing.
pub(crate) fn cover_by_numeral(count: &[u8]) -> Cover
    ensures { result ≡ cover_by_numeral count.now }
{
    if is_numeral(count) {
        cover_by_count(count)
    } else {
        Cover::Nothing
    }
}

/// The bytes after the first such byte, if there is one.
pub(crate) fn after_byte(delimiter: u8, bytes: &[u8]) -> Option<&[u8]>
    ensures { option_map (λ rest. rest.now) result ≡ after_byte delimiter bytes.now }
{
    let at = memchr(delimiter, bytes)?;
    Some(&bytes[at + 1..])
}

/// The bytes after the first comma; none if there is no comma.
pub(crate) fn after_comma(bytes: &[u8]) -> &[u8]
    ensures { result.now ≡ after_comma bytes.now }
{
    match after_byte(b',', bytes) {
        Some(rest) => rest,
        None => &[],
    }
}

/// The bytes before the first such byte, or all.
pub(crate) fn before_byte(delimiter: u8, bytes: &[u8]) -> &[u8]
    ensures value { result.now ≡ before_byte delimiter bytes.now }
    ensures within { length result.now ≤ length bytes.now }
{
    match memchr(delimiter, bytes) {
        Some(at) => &bytes[..at],
        None => bytes,
    }
}

/// What an `IFC` covers, by the word that follows its second string.
fn cover_after_third(word: &[u8]) -> Cover
    ensures { result ≡ cover_after_third word.now }
{
    match word {
        [] => Cover::Nothing,
        [b',', count @ ..] => cover_by_count(count),
        _ => Cover::ToItsEnd,
    }
}

/// What an `IFC` covers, by what comes after its second string, if that is found.
fn cover_after_strings(rest: Option<&[u8]>) -> Cover
    ensures { result ≡ cover_after_strings (option_map (λ rest. rest.now) rest.entry) }
{
    match rest {
        None => Cover::ToItsEnd,
        Some(rest) => {
            let (word, _) = split_word(rest);
            cover_after_third(word)
        }
    }
}

/// What an `IFC` covers, by its two strings, which begin and end in one byte, and its count.
fn cover_by_strings(strings: &[u8]) -> Cover
    ensures { result ≡ cover_by_strings strings.now }
{
    let [delimiter, rest @ ..] = strings else {
        return Cover::ToItsEnd;
    };
    if is_blank(*delimiter) {
        return Cover::ToItsEnd;
    }
    match after_byte(*delimiter, rest) {
        None => Cover::ToItsEnd,
        Some(second) => cover_after_strings(after_byte(*delimiter, second)),
    }
}

/// The strings of an `IFC`, of which this is the text from its operand on: what follows the first comma of the word in front.
fn strings_in(text: &[u8]) -> &[u8]
    ensures { result.now ≡ strings_in text.now }
{
    let (word, _) = split_word(text);
    match after_byte(b',', word) {
        Some(_) => after_comma(text),
        None => &[],
    }
}

/// A line that is no comment from its operand on, if that begins before column 30.
pub fn counting_text(line: &[u8]) -> &[u8]
    ensures { result.now ≡ counting_text line.now }
{
    let text = from_operand(line);
    if line.len() - text.len() >= REMARK_COLUMN {
        &[]
    } else {
        text
    }
}

/// What an operation covers, by its name in upper case and the text from its operand on.
pub fn cover_of(name: &[u8], text: &[u8]) -> Cover
    ensures { result ≡ cover_of name.now text.now }
{
    let (operand, _) = split_word(text);
    if is_one_of(&COUNTED_ALONE, name) {
        cover_by_count(operand)
    } else if is_one_of(&COUNTED_AFTER_ONE, name) {
        cover_by_count(after_comma(operand))
    } else if is_one_of(&COUNTED_AFTER_TWO, name) {
        cover_by_count(after_comma(after_comma(operand)))
    } else if name == b"ECHO".as_slice() {
        cover_by_count(before_byte(b',', operand))
    } else if name == b"IFC".as_slice() {
        cover_by_strings(strings_in(text))
    } else {
        Cover::Nothing
    }
}
