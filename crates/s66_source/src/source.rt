//! A source that was read: its text, its blocks, and its lines (`read_source`, `read_source_with`).

ghost use Rattle.std.specs.Prelude.{◌≡◌, [], IfOk};
ghost use Rattle.s66_source.specs.{classed_lines, blocks_of, source_of, plain};
ghost use Rattle.s66_source.specs.Gives.{Gives};

use crate::error::SourceError;
use crate::kept::{Kept, KeptLine};
use crate::reader::Reader;
use crate::redefined::Redefined;
use crate::standing::Standing;
use s66_line::Block;
use std::alloc::Global;
use std::marker::Model;

/// A source that was read: a text that is accepted, and its blocks, which borrow from it.
#[derive(Drop)]
pub struct Source<'a> {
    text: &'a [u8],
    cut: bool,
    blocks: Vec<Block<'a>>,
    lines: Vec<KeptLine<'a>>,
}

impl<'a> Model for Source<'a> {
    ghost use Rattle.std.specs.Prelude.{◌≡◌, Ok, map};
    ghost use Rattle.s66_source.specs.Kept.{kept_line};
    ghost use Rattle.s66_source.specs.LeftAlone.{Reading};
    ghost use Rattle.s66_source.specs.Source.{classed_lines, source_of};

    ghost Value = { Reading };

    ghost view = { λ s. record { cut = s.cut; text = s.text.now } };

    ghost invariant = { λ s. (source_of (record { cut = s.cut; text = s.text.now }) ≡ Ok s.blocks.items) ×
        (s.lines.items ≡ map kept_line (classed_lines (record { cut = s.cut; text = s.text.now }))) };
}

impl<'a> Source<'a> {
    ghost use Rattle.std.specs.Prelude.{◌≡◌, Ok, map};
    ghost use Rattle.s66_source.specs.{kept_line, classed_lines, source_of};

    /// The blocks, in the order of their lines.
    pub fn blocks(&self) -> &[Block<'a>]
        ensures { source_of self.now ≡ Ok result.now }
    {
        self.blocks.as_slice()
    }

    pub(crate) fn lines(&self) -> &[KeptLine<'a>]
        ensures { result.now ≡ map kept_line (classed_lines self.now) }
    {
        self.lines.as_slice()
    }
}

/// Reads a source in one pass: its blocks, or its least refused line.
pub fn read_source(alloc: Global, text: &[u8]) -> Result<Source<'_>, SourceError>
    ensures source { IfOk result (λ source. source ≡ plain text.now) }
    ensures read { Gives (λ source. blocks_of (classed_lines source)) result (source_of (plain text.now)) }
{
    read_source_with(alloc, false, text)
}

/// Reads a source as `read_source` does. With `cut` no operand is refused: a line with such an operand is left alone, and so are
/// directives, definitions, and what operations cover that count lines.
pub fn read_source_with(alloc: Global, cut: bool, text: &[u8]) -> Result<Source<'_>, SourceError>
    ensures source { IfOk result (λ source. source ≡ record { cut = cut; text = text.now }) }
    ensures read { Gives (λ source. blocks_of (classed_lines source)) result
        (source_of (record { cut = cut; text = text.now })) }
{
    let redefined = Redefined::by(alloc, cut, text)?;
    let standing = Standing::at_first(&redefined);
    let mut reader = Reader {
        blocks: Vec::new(alloc),
        label: &[],
        entries: Vec::new(alloc),
        kept: Kept::new(alloc),
        after_code: false,
        cut,
        standing,
    };
    reader.take_all(alloc, text)?;
    reader.end_block(alloc)?;
    let Reader {
        blocks,
        label: _,
        entries: _,
        kept,
        after_code: _,
        cut: _,
        standing: _,
    } = reader;
    Ok(Source {
        text,
        cut,
        blocks,
        lines: kept.into_lines(),
    })
}
