//! The finding that an instruction ends past column 72, where COMPASS reads no more, or may be put there by `order`.

use crate::line::Line;
use crate::rules::rules::Rules;
use s66_line::{
    Block, Class, Classified, Entry, LINE_BYTES_LIMIT, classify, fields_of, from_operand,
    operation_and_operand,
};
use std::alloc::{AllocError, Global};

/// How many bytes of a line COMPASS reads.
const READ: usize = 72;

/// How many bytes stand before the operation where `order` puts an instruction that follows no label.
const FRONT: usize = 10;

/// How many bytes an instruction that is accepted has in its line, from its operation to its operand's end: the characters of that may
/// go on behind a blank.
fn length_in(alloc: Global, body: &[u8]) -> Result<usize, AllocError> {
    if body.len() > LINE_BYTES_LIMIT {
        return Ok(0);
    }
    let Classified {
        class,
        label: _,
        bytes,
    } = classify(false, body);
    let Class::Instruction { located: _, instr } = class else {
        return Ok(0);
    };
    let mut entries = Vec::new(alloc);
    entries.push(Entry {
        instr,
        line: 1,
        bytes,
    })?;
    let block = Block::new(&[], entries);
    let text = block.whole_text(block.count());
    let (operation, operand) = operation_and_operand(bytes);
    let before = if operand.is_empty() {
        operation.len()
    } else {
        bytes.len().saturating_sub(from_operand(body).len())
    };
    // the whole text has one blank before the operand
    let behind = text.len().saturating_sub(operation.len());
    Ok(before.saturating_add(behind.saturating_sub(1)))
}

impl<'a> Rules<'a> {
    /// Whether the instruction at this index ends past what COMPASS reads: in its own line, or where `order` may put it: behind the
    /// label of its run, or in column 11.
    pub(crate) fn is_past_end(&self, at: usize, line: &Line<'a>) -> Result<bool, AllocError> {
        let Some(label) = self.deck.label_of_run(at) else {
            return Ok(false);
        };
        if !line.is_instruction() {
            return Ok(false);
        }
        let from_operation = fields_of(line.body).from_operation.len();
        let own = line.body.len().saturating_sub(from_operation);
        let front = own.max(FRONT).max(label.saturating_add(1));
        if front.saturating_add(from_operation) <= READ {
            return Ok(false);
        }
        Ok(front.saturating_add(length_in(self.alloc, line.body)?) > READ)
    }
}
