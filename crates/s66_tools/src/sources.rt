//! Sources, the only blocks of some, and what is printed and found of them.

use crate::calls::Answered;
use arrayvec::ArrayVec;
use s66_line::Block;
use s66_lint::findings_in;
use s66_source::{Columns, Placed, Source, SourceError, print_source, read_source};
use s66_test_search::{ONE_LOAD, only_block};
use std::alloc::{AllocError, Global};

/// Two runs, of which the second has a label, a note, a pad and a line that ends it.
const SOURCE: &str =
    "  SA1 A1+B1\n  BX6 X1\n* NOTE\n  BX7 X2\nLOOP  NO\n  FX1 X2*X3\n  ZR X1,LOOP\n";

/// Lines in which something is found: an operand that is refused, what isn't an instruction, what counts lines and words, what stores
/// into code, and what is redefined.
const SLIPS: &str =
    "L SA1 A1+B1\n  BX6 X2\n  IX1 X2*X3\n  BX8 X1\n  DUP 3,2\n  SA6 L+1\n  BX6 X1\n  BX7 X2\nRXX*X OPDEF I\n  ENDM\n  RX1 X2*X3\n";

/// A source that isn't refused.
pub(crate) fn source_of<'t>(alloc: Global, code: &'t str) -> Result<Source<'t>, AllocError> {
    match read_source(alloc, code.as_bytes()) {
        Ok(source) => Ok(source),
        Err(_) => Err(AllocError),
    }
}

/// The only block of a source.
pub(crate) fn block_of<'s, 't>(source: &'s Source<'t>) -> Result<&'s Block<'t>, AllocError> {
    match only_block(source) {
        Some(block) => Ok(block),
        None => Err(AllocError),
    }
}

/// How many blocks a source has; none if it is refused.
pub(crate) fn read(alloc: Global) -> Result<Answered, AllocError> {
    match read_source(alloc, SOURCE.as_bytes()) {
        Ok(source) => Ok([source.blocks().len(), 0, 0, 0]),
        Err(SourceError::OutOfMemory) => Err(AllocError),
        Err(_) => Ok([0; 4]),
    }
}

/// How many bytes one load is printed in, in its best order.
pub(crate) fn printed(alloc: Global) -> Result<Answered, AllocError> {
    let source = source_of(alloc, ONE_LOAD)?;
    let [block] = source.blocks() else {
        return Err(AllocError);
    };
    if block.count() != 3 {
        return Err(AllocError);
    }
    let Ok(order) = ArrayVec::try_from(&[1, 3, 2][..]) else {
        return Err(AllocError);
    };
    let given = [Some(Placed {
        order,
        source: 16,
        time: 12,
        bound: 12,
        splits: Some(0),
    })];
    let text = print_source(alloc, &source, &given, false, Columns::Usual)?;
    Ok([text.len(), 0, 0, 0])
}

/// How many bytes and lines the findings of a source are.
pub(crate) fn found(alloc: Global) -> Result<Answered, AllocError> {
    let found = findings_in(alloc, SLIPS.as_bytes(), false)?;
    Ok([found.text.len(), found.lines, 0, 0])
}
