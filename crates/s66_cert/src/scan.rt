//! Words and numbers in the bytes of a line.

ghost use Rattle.std.specs.Prelude.{◌≡◌, ◌≤◌, ◌<◌, ◌+◌, ◌-◌, ◌*◌, ◌^◌, true, if◌then◌else◌, length, IfSome, option_map};
ghost use Rattle.s66_isa.specs.{every};
ghost use Rattle.s66_line.specs.{is_decimal};
ghost use Rattle.s66_cert.specs.{first_word, after_first_word, words_in, value_after, has_no_leading_zero, number_in, numbers_in, if_count, LINE_LIMIT};

use crate::limits::LINE_LIMIT;
use arrayvec::ArrayVec;
use s66_line::is_decimal_digit;

/// The bytes before the first blank, and those after it if there is one.
pub(crate) fn split_word(bytes: &[u8]) -> (&[u8], Option<&[u8]>)
    ensures word { result.0.now ≡ first_word bytes.now }
    ensures rest { option_map (λ r. r.now) result.1 ≡ after_first_word bytes.now }
    ensures shorter { IfSome result.1 (λ r. length r.now < length bytes.now) }
{
    for (i, byte) in bytes.iter().enumerate() {
        if *byte == b' ' {
            return (&bytes[..i], Some(&bytes[i + 1..]));
        }
    }
    (bytes, None)
}

/// The number that the digits write after those of another.
fn with_digit(value: u32, byte: u8) -> u32
    requires small { value ≤ 99999999 }
    requires digit { is_decimal byte ≡ true }
    ensures value { result ≡ value * 10 + (byte - 48) }
    ensures below { result < 10 * value + 10 }
{
    value * 10 + (byte - b'0') as u32
}

/// The value of at most nine bytes, if all are digits.
fn value_of(word: &[u8]) -> Option<u32>
    requires { length word.now ≤ 9 }
    ensures value { result ≡ (if every is_decimal word.now then Some (value_after 0 word.now) else None) }
    ensures small { IfSome result (λ n. n < 10 ^ 9) }
{
    let mut value = 0;
    for byte in word {
        if !is_decimal_digit(*byte) {
            return None;
        }
        value = with_digit(value, *byte);
    }
    Some(value)
}

/// Whether there is a digit, and no zero leads another.
fn has_no_leading_zero(word: &[u8]) -> bool
    ensures { result ≡ has_no_leading_zero word.now }
{
    match word {
        [] => false,
        [_] => true,
        [first, ..] => *first != b'0',
    }
}

/// A number from low to high, in decimal digits with no leading zero; one of more digits than nine is above `LINE_LIMIT`.
pub(crate) fn number_in(word: &[u8], low: u32, high: u32) -> Option<u32>
    requires { high ≤ LINE_LIMIT }
    ensures value { result ≡ number_in low high word.now }
    ensures at_most { IfSome result (λ n. n ≤ high) }
{
    if word.len() > 9 {
        return None;
    }
    if !has_no_leading_zero(word) {
        return None;
    }
    let value = value_of(word)?;
    if value < low || value > high {
        return None;
    }
    Some(value)
}

/// At most `N` numbers, each in a range and one blank between two.
pub(crate) fn numbers_in<const N: usize>(
    rest: Option<&[u8]>,
    low: u32,
    high: u32,
) -> Option<ArrayVec<u8, N>>
    requires { high ≤ 255 }
    ensures { option_map (λ v. v.items) result ≡
        if_count 0 N (numbers_in low high (words_in (option_map (λ r. r.now) rest.entry))) }
{
    let mut numbers = ArrayVec::new();
    let mut left = rest;
    while let Some(bytes) = left {
        let (word, more) = split_word(bytes);
        match number_in(word, low, high) {
            None => return None,
            Some(number) => {
                if numbers.is_full() {
                    return None;
                }
                numbers.push(number as u8);
            }
        }
        left = more;
    }
    Some(numbers)
}
