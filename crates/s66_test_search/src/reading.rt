//! What sources are read as, and the block of one.

use crate::blocks::only_block;
use s66_isa::Instr;
use s66_line::Block;
use s66_source::{Source, read_source};
use std::process::Abort;
use std::str;

/// The source that this code is.
pub(crate) fn source_of<'t, R: AllocGlobal + Abort>(rt: &R, code: &'t str) -> Source<'t> {
    read_source(rt.alloc(), code.as_bytes()).expect(rt, "a source")
}

/// The only block of a source.
pub(crate) fn block_of<'s, 't, R: Abort>(rt: &R, source: &'s Source<'t>) -> &'s Block<'t> {
    only_block(source).expect(rt, "one block")
}

/// An instruction as octal digits: code, i, j, k.
fn parcel_of<R: AllocGlobal + Abort>(rt: &R, instr: Instr) -> String {
    let (i, j, k) = (instr.i(), instr.j(), instr.k());
    format!(in rt.alloc(); "{:02o}{i}{j}{k}", instr.op().code()).expect(rt, "memory")
}

/// A text of bytes.
fn text_of<'t, R: Abort>(rt: &R, bytes: &'t [u8]) -> &'t str {
    str::from_utf8(bytes).expect(rt, "a text")
}

/// A line of a block: `[label] count: ` and of its first instruction `line parcel text <bytes>`, and of its last
/// ` to line parcel`.
fn push_block<R: AllocGlobal + Abort>(rt: &R, reading: &mut String, block: &Block) {
    let count = block.count();
    if count == 0 {
        return;
    }
    let label = text_of(rt, block.label());
    let bytes = text_of(rt, block.bytes(1));
    let text = block.text(1);
    let text = text_of(rt, text.as_slice());
    let (line, last_line) = (block.line(1), block.line(count));
    let first = parcel_of(rt, block.instr(1));
    let last = parcel_of(rt, block.instr(count));
    writeln!(
        reading,
        "[{label}] {count}: {line} {first} {text} <{bytes}> to {last_line} {last}"
    )
    .expect(rt, "memory");
}

/// What a source is read as: a line for each block, or why it is refused.
fn reading_of<R: AllocGlobal + Abort>(rt: &R, source: &str) -> String {
    let mut reading = String::new(rt.alloc());
    match read_source(rt.alloc(), source.as_bytes()) {
        Ok(source) => {
            for block in source.blocks() {
                push_block(rt, &mut reading, block);
            }
        }
        Err(refusal) => write!(reading, "{refusal}").expect(rt, "memory"),
    }
    reading
}

/// Checks what a source is read as.
pub(crate) fn check_reading<R: AllocGlobal + Abort>(
    rt: &R,
    name: &str,
    source: &str,
    wanted: &str,
) {
    let reading = reading_of(rt, source);
    assert!(rt; reading.as_str() == wanted, "{name}: {reading}");
}
