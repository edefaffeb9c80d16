//! Which texts are instructions, and the block that such texts make.
ghost use Rattle.std.specs.Prelude.{ℕ, List, map, IsTrue, Vec};
ghost use Rattle.std.specs.declared.alloc.Global.{Global};
ghost use Rattle.s66_isa.specs.{Among};
ghost use Rattle.s66_line.specs.{IsInstruction};

use crate::blocks::as_written;
use s66_isa::{BLOCK_LIMIT, Profile};
use s66_line::{Block, is_instruction};
use std::process::Abort;

/// Texts, and whether each is an instruction.
const TEXTS: &[(&str, bool)] = &[
    ("BX1 X2", true),
    ("NX1", true),
    ("SA1 A1+2*N", true),
    ("LX1 -100", true),
    ("", false),
    ("NO", false),
    ("bx1 X2", false),
    ("BX1 x2", false),
    (" BX1 X2", false),
    ("BX1  X2", false),
    ("BX1 X2 ", false),
    ("NX1 ", false),
    ("BX1", false),
    ("BX8 X2", false),
    ("BX1 X2 COPY", false),
];

#[test]
fn tells_instructions(rt: HostRuntime) {
    for &(text, wanted) in TEXTS {
        assert!(rt; is_instruction(text.as_bytes()) == wanted, "{text}");
    }
}

/// The lines of code, each a text.
fn texts_of<R: AllocGlobal + Abort>(rt: &R, code: &str) -> Vec<Vec<u8>> {
    let mut texts = Vec::new(rt.alloc());
    for line in code.split('\n') {
        let mut text = Vec::new(rt.alloc());
        text.extend_from_slice(line.as_bytes()).expect(rt, "memory");
        assert!(rt; texts.push(text).is_ok());
    }
    texts
}

/// Whether each text is one of an instruction.
fn are_instructions(texts: &[Vec<u8>]) -> bool
    ensures { IsTrue result → (text : List ℕ) → Among text (map (λ (t : Vec ℕ Global). t.items) texts.now) →
        IsInstruction text }
{
    for text in texts {
        if !is_instruction(text.as_slice()) {
            return false;
        }
    }
    true
}

#[test]
fn makes_block_of_texts(rt: HostRuntime) {
    let texts = texts_of(&rt, "FX1 X2*X3\nFX4 X5*X6\nFX0 X7*X7");
    assert!(rt; !texts.is_empty() && texts.len() <= BLOCK_LIMIT);
    assert!(rt; are_instructions(texts.as_slice()));
    let block = Block::of(rt.alloc(), texts.as_slice()).expect(&rt, "memory");
    let timed = as_written(&block, &Profile::standard());
    assert!(rt; block.count() == 3 && timed.total() == 22);
}
