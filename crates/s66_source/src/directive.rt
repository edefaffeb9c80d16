//! Directives to programs that keep libraries of sources, as UPDATE and MODIFY. They are comments with a star in column 1.

ghost use Rattle.std.specs.Prelude.{◌≡◌, ◌≤◌, ◌-◌, ◌==◌, ◌||◌, length, take};
ghost use Rattle.s66_isa.specs.{every};
ghost use Rattle.s66_line.specs.{is_decimal, upper, upper_byte, word, LINE_BYTES_LIMIT};
ghost use Rattle.s66_source.specs.{are_places, corrects, directive_cover, directs, is_brief, is_correction, is_directive, is_letter, is_place, operand_behind, separates, skip_separators};
ghost use Rattle.s66_source.specs.{DIRECTIVE_LIMIT};

use crate::counts::{
    after_byte, after_comma, before_byte, cover_by_numeral, is_blank, is_numeral, is_one_of,
};
use crate::cover::Cover;
use crate::limits::DIRECTIVE_LIMIT;
use s66_line::{from_operand, is_decimal_digit, split_word, upper_case};

/// The names of directives and their short forms; one that isn't among them is told by its form.
const DIRECTIVES: [&[u8]; 72] = [
    b"ADDFILE",
    b"BEFORE",
    b"CALL",
    b"CALLALL",
    b"CALLC",
    b"CHANGE",
    b"COMDECK",
    b"COMPILE",
    b"COPY",
    b"CSET",
    b"CWEOR",
    b"DECK",
    b"DECLARE",
    b"DEFINE",
    b"DELETE",
    b"DO",
    b"DONT",
    b"EDIT",
    b"ELSE",
    b"ENDIF",
    b"ENDTEXT",
    b"IDENT",
    b"IF",
    b"IFCALL",
    b"IFDEF",
    b"INSERT",
    b"LIMIT",
    b"LIST",
    b"MOVE",
    b"NIFCALL",
    b"NOABBREV",
    b"NOLIST",
    b"PULLMOD",
    b"PURDECK",
    b"PURGE",
    b"READ",
    b"RESTORE",
    b"REWIND",
    b"SELPURGE",
    b"SELYANK",
    b"SEQUENCE",
    b"SKIP",
    b"TEXT",
    b"UNYANK",
    b"WEOR",
    b"WIDTH",
    b"YANK",
    b"YANKDECK",
    b"AF",
    b"CA",
    b"CD",
    b"CH",
    b"CW",
    b"CY",
    b"DC",
    b"DF",
    b"DK",
    b"DT",
    b"EI",
    b"ET",
    b"ID",
    b"LT",
    b"NA",
    b"NL",
    b"PD",
    b"PM",
    b"RD",
    b"RW",
    b"SK",
    b"SP",
    b"SY",
    b"YD",
];

fn is_letter(byte: u8) -> bool
    ensures { result ≡ is_letter byte }
{
    byte >= b'A' && byte <= b'Z'
}

fn is_name_byte(byte: u8) -> bool
    ensures { result ≡ (is_letter byte || (is_decimal byte || byte == 61)) }
{
    is_letter(byte) || is_decimal_digit(byte) || byte == b'='
}

fn are_name_bytes(bytes: &[u8]) -> bool
    ensures { result ≡ every (λ c. is_letter c || (is_decimal c || c == 61)) bytes.now }
{
    for byte in bytes {
        if !is_name_byte(*byte) {
            return false;
        }
    }
    true
}

/// Whether these bytes are the name of a correction.
fn is_correction(bytes: &[u8]) -> bool
    ensures { result ≡ is_correction bytes.now }
{
    match bytes {
        [first, rest @ ..] => is_letter(*first) && are_name_bytes(rest),
        [] => false,
    }
}

/// Whether a word says where to correct.
fn is_place(word: &[u8]) -> bool
    ensures { result ≡ is_place word.now }
{
    if is_numeral(word) {
        return true;
    }
    match after_byte(b'.', word) {
        Some(number) => is_correction(before_byte(b'.', word)) && is_numeral(number),
        None => false,
    }
}

/// Whether a word is one place, or two with a comma between.
fn are_places(word: &[u8]) -> bool
    ensures { result ≡ are_places word.now }
{
    is_place(before_byte(b',', word))
        && match after_byte(b',', word) {
            Some(second) => is_place(second),
            None => true,
        }
}

fn separates(byte: u8) -> bool
    ensures { result ≡ separates byte }
{
    is_blank(byte) || byte == b','
}

/// The bytes without the blanks and commas in front.
fn without_separators(bytes: &[u8]) -> &[u8]
    ensures { result.now ≡ skip_separators bytes.now }
{
    let mut begin = 0;
    while begin < bytes.len() && separates(bytes[begin]) {
        begin += 1;
    }
    &bytes[begin..]
}

/// Whether one place or two stand behind blanks and commas.
fn begin_with_places(bytes: &[u8]) -> bool
    ensures { result ≡ are_places (word (skip_separators bytes.now)) }
{
    are_places(split_word(without_separators(bytes)).0)
}

/// Whether a letter and a place stand behind the star.
fn corrects(text: &[u8]) -> bool
    ensures { result ≡ corrects text.now }
{
    match text {
        [_, between, rest @ ..] => separates(*between) && begin_with_places(rest),
        _ => false,
    }
}

/// Whether there are two words at most behind the star.
fn is_brief(text: &[u8]) -> bool
    ensures { result ≡ is_brief text.now }
{
    from_operand(text).is_empty()
}

/// Whether what follows a star makes a directive; it is in upper case.
fn directs(text: &[u8]) -> bool
    ensures { result ≡ directs text.now }
{
    let [letter, ..] = text else {
        return false;
    };
    let (word, _) = split_word(text);
    is_letter(*letter)
        && word != b"S66".as_slice()
        && (is_one_of(&DIRECTIVES, before_byte(b',', word)) || corrects(text) || is_brief(text))
}

/// Whether a byte is a letter, in upper or in lower case.
fn is_any_letter(byte: u8) -> bool
    ensures { result ≡ is_letter (upper_byte byte) }
{
    is_letter(byte) || byte >= b'a' && byte <= b'z'
}

/// The bytes behind the star that are looked at.
fn front(text: &[u8]) -> &[u8]
    ensures value { result.now ≡ take DIRECTIVE_LIMIT text.now }
    ensures within { length result.now ≤ DIRECTIVE_LIMIT }
{
    if text.len() > DIRECTIVE_LIMIT {
        return &text[..DIRECTIVE_LIMIT];
    }
    text
}

/// Whether a body is a directive.
#[tactic(auto, using(crate::proofs::Directives::front_decides))]
pub fn is_directive(body: &[u8]) -> bool
    requires { length body.now ≤ LINE_BYTES_LIMIT }
    ensures { result ≡ is_directive body.now }
{
    match body {
        [b'*', letter, ..] => {
            is_any_letter(*letter) && directs(upper_case(front(&body[1..])).as_slice())
        }
        _ => false,
    }
}

/// The operand behind a name.
fn operand_behind<'a>(name: &[u8], text: &'a [u8]) -> &'a [u8]
    requires { length name.now ≤ length text.now }
    ensures { result.now ≡ operand_behind name.now text.now }
{
    split_word(without_separators(&text[name.len()..])).0
}

/// Which lines a directive covers, by what follows its star in upper case.
fn cover_of_text(text: &[u8]) -> Cover
    ensures { result ≡ directive_cover text.now }
{
    let (word, _) = split_word(text);
    let name = before_byte(b',', word);
    if name == b"IF".as_slice() {
        cover_by_numeral(after_comma(after_comma(operand_behind(name, text))))
    } else if name == b"ELSE".as_slice() {
        cover_by_numeral(operand_behind(name, text))
    } else {
        Cover::Nothing
    }
}

/// Which lines a directive covers, by what follows its star.
pub fn directive_cover(text: &[u8]) -> Cover
    requires { length text.now ≤ LINE_BYTES_LIMIT - 1 }
    ensures { result ≡ directive_cover (upper text.now) }
{
    cover_of_text(upper_case(text).as_slice())
}
