//! Words that look like operations or registers: instruction names, slips of them, and names of registers.

use s66_line::is_table_name;
use s66_source::are_digits;

/// Whether these bytes, in upper case, are the operation of an instruction: two letters of the table and a digit 0 to 7.
pub(crate) fn is_instruction_name(word: &[u8]) -> bool {
    match word {
        [first, second, digit] => is_table_name(*first, *second) && is_octal(*digit),
        _ => false,
    }
}

/// Whether an operation, in upper case, begins like one of the table, and is none: two letters of the table, and then nothing, one
/// byte that is no digit 0 to 7, or two digits or more and nothing else.
pub(crate) fn is_slip(word: &[u8]) -> bool {
    match word {
        [first, second, rest @ ..] => is_table_name(*first, *second) && is_no_octal_digit(rest),
        _ => false,
    }
}

fn is_octal(byte: u8) -> bool {
    byte >= b'0' && byte <= b'7'
}

fn is_no_octal_digit(bytes: &[u8]) -> bool {
    match bytes {
        [] => true,
        [byte] => !is_octal(*byte),
        _ => are_digits(bytes),
    }
}

/// Whether these bytes, in upper case, name a register.
pub(crate) fn is_register(word: &[u8]) -> bool {
    match word {
        [b'A' | b'B' | b'X', digit] => is_octal(*digit),
        _ => false,
    }
}

/// Whether these bytes, in upper case, name a B register.
pub(crate) fn is_index(word: &[u8]) -> bool {
    match word {
        [b'B', digit] => is_octal(*digit),
        _ => false,
    }
}

/// Whether these bytes, in upper case, are letters alone.
pub(crate) fn are_letters(word: &[u8]) -> bool {
    word.iter().all(|byte| *byte >= b'A' && *byte <= b'Z')
}
