//! Reads a text as documents (`read`), or tells its first fault: the call that others make, over `reader.rt`.

ghost use Rattle.std.specs.Prelude.{map, IfOk};
ghost use Rattle.s66_isa.specs.{BLOCK_LIMIT};
ghost use Rattle.s66_cert.specs.{IsText, document_of, Gives, read_of, RefusesText};

use crate::document::Document;
use crate::document_place::DocumentPlace;
use crate::error::CertError;
use crate::reader::Reader;
use std::alloc::Global;

/// Reads a text line by line.
fn read_lines(alloc: Global, text: &[u8]) -> Result<Vec<Document>, CertError>
    ensures { Gives (λ ds. map document_of ds.items) result (read_of text.now) }
{
    let mut reader = Reader::new(alloc);
    let whole = reader.take_all(alloc, text)?;
    let Reader {
        lines: _,
        documents,
        place,
        version: _,
        claim: _,
        left: _,
        splits: _,
    } = reader;
    if !whole {
        return Err(CertError::Truncated);
    }
    match place {
        DocumentPlace::AtHeader => Ok(documents),
        _ => Err(CertError::Truncated),
    }
}

/// Reads documents that follow each other. Returns the documents of which the input is the text, or the text's first fault in
/// reading order. It takes one pass over the text and one back over the lines of trees, and memory linear in it: for a tree,
/// twenty bytes a line and one a number.
pub fn read(alloc: Global, text: &[u8]) -> Result<Vec<Document>, CertError>
    ensures documents { IfOk result (λ ds. IsText BLOCK_LIMIT text.now (map document_of ds.items)) }
    ensures fault { RefusesText text.now result }
{
    read_lines(alloc, text)
}
