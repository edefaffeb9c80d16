//! What the assembler's operations do, by their names: branches, data, definitions, counts, and those that make no word.

use s66_source::is_one_of;

/// Branches without a condition; `EQ` is one if it compares nothing.
const JUMPS: [&[u8]; 4] = [b"RJ", b"JP", b"EQ", b"XJ"];

/// Jumps and the entry of a subroutine, behind which the next word begins whatever their operand is.
const LEAVING: [&[u8]; 4] = [b"PS", b"SUBR", b"RJ", b"JP"];

/// The entry of a subroutine.
const ENTRIES: [&[u8]; 2] = [b"PS", b"SUBR"];

/// Transfers of central memory.
const TRANSFERS: [&[u8]; 2] = [b"RE", b"WE"];

/// What ends a program.
const ENDS: [&[u8]; 2] = [b"END", b"IDENT"];

/// What gives an address another name.
const RENAMING: [&[u8]; 3] = [b"EQU", b"=", b"SET"];

/// Of these, those that do so for good.
const EQUATES: [&[u8]; 2] = [b"EQU", b"="];

/// What reserves words.
const RESERVES: [&[u8]; 2] = [b"BSS", b"BSSZ"];

/// What fills words with constants.
const CONSTANTS: [&[u8]; 2] = [b"CON", b"DATA"];

/// The conditional branches, but for `EQ`, which its operand tells.
const CONDITIONAL: [&[u8]; 14] = [
    b"ZR", b"NZ", b"PL", b"NG", b"MI", b"IR", b"OR", b"DF", b"ID", b"NE", b"GE", b"GT", b"LT",
    b"LE",
];

/// What begins a definition.
const DEFINITIONS: [&[u8]; 3] = [b"MACRO", b"MACROE", b"OPDEF"];

/// What counts the lines after it.
const COUNTING: [&[u8]; 20] = [
    b"DUP", b"ECHO", b"IF", b"IFC", b"IFPL", b"IFMI", b"IFEQ", b"IFNE", b"IFGT", b"IFGE", b"IFLT",
    b"IFLE", b"IFCP", b"IFCP6", b"IFCP7", b"IFPP", b"IFPP6", b"IFPP7", b"SKIP", b"ELSE",
];

/// Of these, those that evaluate an expression.
const EVALUATING: [&[u8]; 8] = [
    b"IFEQ", b"IFNE", b"IFGT", b"IFGE", b"IFLT", b"IFLE", b"IFPL", b"IFMI",
];

/// What ends the lines that an operation covers without a count.
const RANGE_ENDS: [&[u8]; 4] = [b"ENDD", b"ENDIF", b"END", b"IDENT"];

/// What else makes no word, and names no address.
const WORDLESS: [&[u8]; 20] = [
    b"=", b"EQU", b"SET", b"MAX", b"MIN", b"MICRO", b"DECMIC", b"OCTMIC", b"LOC", b"SPACE",
    b"EJECT", b"TITLE", b"TTL", b"LIST", b"BASE", b"QUAL", b"CTEXT", b"ENDX", b"ENDD", b"ENDIF",
];

/// What names no address either, though words may be elsewhere after it.
const WITHOUT_ADDRESS: [&[u8]; 11] = [
    b"ENDM", b"IDENT", b"END", b"RMT", b"USE", b"COMMON", b"IRP", b"STOPDUP", b"OPSYN", b"CPSYN",
    b"NIL",
];

/// Words of data and of what else follows code, before which the word of code ends.
const DATA: [&[u8]; 8] = [
    b"PS", b"BSS", b"BSSZ", b"CON", b"DATA", b"DIS", b"USE", b"END",
];

/// Words of data, and the entry of a subroutine.
const BEHIND_CODE: [&[u8]; 7] = [b"VFD", b"CON", b"DATA", b"BSS", b"BSSZ", b"DIS", b"PS"];

pub(crate) fn is_entry(operation: &[u8]) -> bool {
    is_one_of(&ENTRIES, operation)
}

pub(crate) fn is_transfer(operation: &[u8]) -> bool {
    is_one_of(&TRANSFERS, operation)
}

/// Whether the next word begins behind an operation, whatever its operand is.
pub(crate) fn leaves_word(operation: &[u8]) -> bool {
    is_one_of(&LEAVING, operation)
}

pub(crate) fn equates(operation: &[u8]) -> bool {
    is_one_of(&EQUATES, operation)
}

pub(crate) fn reserves(operation: &[u8]) -> bool {
    is_one_of(&RESERVES, operation)
}

pub(crate) fn is_constant(operation: &[u8]) -> bool {
    is_one_of(&CONSTANTS, operation)
}

pub(crate) fn is_branch(operation: &[u8]) -> bool {
    is_one_of(&JUMPS, operation) || is_one_of(&CONDITIONAL, operation)
}

/// Whether the next instruction may be executed after a branch other than `EQ`, or central memory is transferred, which leaves a half
/// word of its own.
pub(crate) fn falls_through(operation: &[u8]) -> bool {
    is_transfer(operation) || is_one_of(&CONDITIONAL, operation)
}

/// Whether an operation is a branch, a transfer of central memory, or the entry of a subroutine.
pub(crate) fn makes_words(operation: &[u8]) -> bool {
    is_entry(operation) || is_transfer(operation) || is_branch(operation)
}

/// Whether data, or the entry of a subroutine, stands behind code that runs into it.
pub(crate) fn is_data(operation: &[u8]) -> bool {
    is_one_of(&BEHIND_CODE, operation)
}

/// Whether an operation ends the search for a use of a register.
pub(crate) fn ends_program(operation: &[u8]) -> bool {
    is_one_of(&ENDS, operation)
}

/// Whether an operation gives another name to an address.
pub(crate) fn renames(operation: &[u8]) -> bool {
    is_one_of(&RENAMING, operation)
}

pub(crate) fn begins_definition(operation: &[u8]) -> bool {
    is_one_of(&DEFINITIONS, operation)
}

/// Whether an operation evaluates an expression to decide which lines are assembled.
pub(crate) fn evaluates(operation: &[u8]) -> bool {
    is_one_of(&EVALUATING, operation)
}

/// Whether an operation ends the lines that one without a known count covers.
pub(crate) fn ends_range(operation: &[u8]) -> bool {
    is_one_of(&RANGE_ENDS, operation)
}

/// Whether an operation makes no word.
pub(crate) fn is_wordless(operation: &[u8]) -> bool {
    is_one_of(&WORDLESS, operation) || is_one_of(&COUNTING, operation)
}

/// Whether the name in the location field of an operation is an address.
pub(crate) fn has_address(operation: &[u8]) -> bool {
    !(is_wordless(operation)
        || begins_definition(operation)
        || is_one_of(&WITHOUT_ADDRESS, operation))
}

/// Whether a word of code is full before an operation, so that nothing after it comes into that word.
pub(crate) fn closes_word(operation: &[u8]) -> bool {
    is_branch(operation) || is_one_of(&DATA, operation)
}
