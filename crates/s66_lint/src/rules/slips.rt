//! Findings by the form of a line alone: comments of other assemblers, and instructions in column 1.

use crate::line::{Fields, are_letters, is_instruction_name};
use s66_line::is_instruction;
use std::alloc::{AllocError, Global};

/// Whether an operation in upper case takes an operand in upper case, and is that of an instruction.
fn takes(alloc: Global, operation: &[u8], operand: &[u8]) -> Result<bool, AllocError> {
    let mut text = Vec::new(alloc);
    text.extend_from_slice(operation)?;
    if !operand.is_empty() {
        text.push(b' ')?;
        text.extend_from_slice(operand)?;
    }
    Ok(is_instruction(text.as_slice()))
}

/// Whether a line with these fields begins as a comment does in other assemblers: with `#`, `;` or `//`.
pub(crate) fn seems_comment(fields: Fields) -> bool {
    let first = if fields.location.is_empty() {
        fields.operation
    } else {
        fields.location
    };
    matches!(first, [b'#' | b';', ..] | [b'/', b'/', ..])
}

/// Whether an instruction stands in the location field of a line and its operand in place of an operation.
pub(crate) fn is_in_column(alloc: Global, fields: Fields) -> Result<bool, AllocError> {
    let Fields {
        location,
        operation,
        operand: _,
    } = fields;
    if !is_instruction_name(location) || operation == b"=".as_slice() {
        return Ok(false);
    }
    if !operation.is_empty() && are_letters(operation) {
        return Ok(false);
    }
    takes(alloc, location, operation)
}
