//! Words, numbers and lists of instructions, of which the sentences are made.

ghost use Rattle.std.specs.Prelude.{◌≡◌, ◌++◌, OnOk, codes};
ghost use Rattle.s66_cert.specs.{document_of};
ghost use Rattle.s66_why.specs.{on_right};
ghost use Rattle.s66_reasons.specs.{counted, instruction, listed, separator, unit_name};

use s66_cert::Document;
use s66_device::push_field;
use s66_isa::Kind;
use s66_why::push_on_right;
use std::alloc::AllocError;

/// A number right in four places, and two blanks.
pub(crate) fn push_number(out: &mut Vec<u8>, number: usize) -> Result<(), AllocError>
    ensures { OnOk result (out.new.items ≡ out.old.items ++ (on_right 4 number ++ codes "  ")) }
{
    push_on_right(out, 4, number)?;
    out.extend_from_slice(b"  ")
}

/// An instruction of a document: its number and its text.
pub(crate) fn push_instruction(
    out: &mut Vec<u8>,
    document: &Document,
    n: u8,
) -> Result<(), AllocError>
    ensures { OnOk result (out.new.items ≡ out.old.items ++ instruction (document_of document.now) n) }
{
    push_field(out, b"", n as usize)?;
    out.extend_from_slice(b" ")?;
    match document.block().get((n as usize).saturating_sub(1)) {
        None => Ok(()),
        Some(text) => out.extend_from_slice(text.bytes()),
    }
}

/// An instruction of a document, between words.
pub(crate) fn push_around(
    out: &mut Vec<u8>,
    before: &[u8],
    document: &Document,
    n: u8,
    after: &[u8],
) -> Result<(), AllocError>
    ensures { OnOk result (out.new.items ≡ out.old.items ++
        (before.now ++ instruction (document_of document.now) n ++ after.now)) }
{
    out.extend_from_slice(before)?;
    push_instruction(out, document, n)?;
    out.extend_from_slice(after)
}

/// The name of a kind of unit.
pub(crate) fn unit_name(kind: Kind) -> &'static [u8]
    ensures { result.now ≡ unit_name kind }
{
    match kind {
        Kind::Boolean => b"Boolean",
        Kind::Shift => b"Shift",
        Kind::Add => b"Add",
        Kind::LongAdd => b"Long Add",
        Kind::Multiply => b"Multiply",
        Kind::Divide => b"Divide",
        Kind::Increment => b"Increment",
    }
}

/// What comes after one of some, by how many come later.
pub(crate) fn separator(later: usize) -> &'static [u8]
    ensures { result.now ≡ separator later }
{
    match later {
        0 => b"",
        1 => b" and ",
        _ => b", ",
    }
}

/// Some instructions of a document, one after the other.
pub(crate) fn push_instructions(
    out: &mut Vec<u8>,
    document: &Document,
    numbers: &[u8],
) -> Result<(), AllocError>
    ensures { OnOk result (out.new.items ≡ out.old.items ++
        listed (instruction (document_of document.now)) numbers.now) }
{
    for place in 0..numbers.len() {
        push_instruction(out, document, numbers[place])?;
        out.extend_from_slice(separator(numbers.len() - 1 - place))?;
    }
    Ok(())
}

/// So many, in the plural unless it is one.
pub(crate) fn push_counted(out: &mut Vec<u8>, count: usize, word: &[u8]) -> Result<(), AllocError>
    ensures { OnOk result (out.new.items ≡ out.old.items ++ counted count word.now) }
{
    push_field(out, b"", count)?;
    out.extend_from_slice(b" ")?;
    out.extend_from_slice(word)?;
    let ending: &[u8] = if count == 1 { b"" } else { b"s" };
    out.extend_from_slice(ending)
}
