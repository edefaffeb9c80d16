//! The instructions of a block with their texts, as a document has them.

ghost use Rattle.std.specs.Prelude.{◌≡◌, IfOk};
ghost use Rattle.s66_answer.specs.{texts_of, IsSpelled};

use s66_cert::InstructionText;
use s66_line::Block;
use std::alloc::{AllocError, Global};

/// The instructions of a block with their texts. `Err` is out of memory.
pub(crate) fn texts_of(alloc: Global, block: &Block) -> Result<Vec<InstructionText>, AllocError>
    ensures texts { IfOk result (λ texts. texts.items ≡ texts_of block.now) }
    ensures spelled { IfOk result (λ texts. IsSpelled block.now) }
{
    let mut texts = Vec::new(alloc);
    for position in 0..block.count() {
        let bytes = block.text(position + 1);
        let instr = block.instr(position + 1);
        texts.push(InstructionText::new(alloc, bytes.as_slice(), instr)?)?;
    }
    Ok(texts)
}
