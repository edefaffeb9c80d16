//! The lines of a source as they are kept: the bytes of each, what of its class printing has to know, and where it stands in its run.

ghost use Rattle.std.specs.Prelude.{◌≡◌, ◌<◌, suc, if◌then◌else◌, length, option_map};
ghost use Rattle.s66_line.specs.{line_of, begins_run};
ghost use Rattle.s66_source.specs.{bytes_at, begins_at, has_block_by, kind_of, runs_next, SOURCE_LINES_LIMIT};

use s66_line::{Block, Class};
use std::alloc::{AllocError, Global};
use std::marker::Model;

/// The class of a line, without its instruction and whether a location stands there.
#[derive(Clone, Copy)]
pub(crate) enum LineKind {
    Comment,
    /// Neither code nor a comment.
    Other,
    /// A `NO`.
    Pad,
    Instruction,
}

/// A line of a source.
#[derive(Drop)]
pub(crate) struct KeptLine<'a> {
    pub(crate) bytes: &'a [u8],
    pub(crate) kind: LineKind,
    /// The number of its run.
    pub(crate) run: u32,
    /// How many instructions of its run come before it.
    pub(crate) index: u32,
}

impl<'a> Model for KeptLine<'a> {
    ghost use Rattle.s66_source.specs.Kept.{KeptLine};

    ghost Value = { KeptLine };

    ghost view = { λ l. record { bytes = l.bytes.now; kind = l.kind; run = l.run; index = l.index } };
}

/// The lines that were read so far.
#[derive(Drop)]
pub(crate) struct Kept<'a> {
    lines: Vec<KeptLine<'a>>,
    /// How many there are.
    count: u32,
    /// The run of the next line, unless that begins one.
    run: u32,
    /// How many instructions it has so far.
    index: u32,
}

impl<'a> Model for Kept<'a> {
    ghost use Rattle.std.specs.Prelude.{◌≤◌};
    ghost use Rattle.s66_source.specs.Kept.{Kept};

    ghost Value = { Kept };

    ghost view = { λ k. record { lines = k.lines.items; count = k.count; run = k.run; index = k.index } };

    ghost invariant = { λ k. (k.run ≤ k.count) × (k.index ≤ k.count) };
}

fn kind_of(class: &Class) -> LineKind
    ensures { result ≡ kind_of class.now }
{
    match class {
        Class::Comment => LineKind::Comment,
        Class::Other | Class::Refused => LineKind::Other,
        Class::Pad { .. } => LineKind::Pad,
        Class::Instruction { .. } => LineKind::Instruction,
    }
}

/// Whether a line of this class begins a run.
fn begins_run(class: &Class) -> bool
    ensures { result ≡ begins_run class.now }
{
    match class {
        Class::Pad { located } => *located,
        Class::Instruction { located, .. } => *located,
        _ => false,
    }
}

impl<'a> Kept<'a> {
    ghost use Rattle.std.specs.Prelude.{◌≡◌, ◌<◌, OnOk};
    ghost use Rattle.s66_source.specs.{nothing_kept, put_line, SOURCE_LINES_LIMIT};

    pub(crate) fn new(alloc: Global) -> Kept<'a>
        ensures { result ≡ nothing_kept }
    {
        Kept {
            lines: Vec::new(alloc),
            count: 0,
            run: 0,
            index: 0,
        }
    }

    /// How many lines there are.
    pub(crate) fn count(&self) -> u32
        ensures { result ≡ self.now.count }
    {
        self.count
    }

    pub(crate) fn into_lines(self) -> Vec<KeptLine<'a>>
        ensures { result.items ≡ self.entry.lines }
    {
        self.lines
    }

    /// The next line, with its class.
    pub(crate) fn put(&mut self, class: &Class, bytes: &'a [u8]) -> Result<(), AllocError>
        requires { self.old.count < SOURCE_LINES_LIMIT }
        ensures { OnOk result (self.new ≡ put_line class.now bytes.now self.old) }
    {
        let mut run = self.run;
        let mut index = self.index;
        if begins_run(class) {
            run += 1;
            index = 0;
        }
        self.lines.push(KeptLine {
            bytes,
            kind: kind_of(class),
            run,
            index,
        })?;
        match class {
            Class::Other => {
                run += 1;
                index = 0;
            }
            Class::Instruction { .. } => index += 1,
            _ => {}
        }
        self.count += 1;
        self.run = run;
        self.index = index;
        Ok(())
    }
}

/// The line of the first instruction of a block.
pub(crate) fn first_line(block: &Block) -> u32
    ensures { result ≡ line_of block.now 1 }
{
    // so there is a first instruction
    prove!(block.count() >= 1);
    block.line(1)
}

/// The line of the last instruction of a block.
pub(crate) fn last_line(block: &Block) -> u32
    ensures { result ≡ line_of block.now (length block.now.entries) }
{
    block.line(block.count())
}

/// Whether this block, that begins next, begins in the line of this number.
pub(crate) fn begins_at(next: Option<&Block>, number: u32) -> bool
    ensures { result ≡ begins_at (option_map (λ block. block.now) next.entry) number }
{
    match next {
        Some(block) => first_line(block) == number,
        None => false,
    }
}

/// How many blocks begin up to a line, before which so many begin, and in it one or none.
pub(crate) fn count_after(begun: usize, begins: bool) -> usize
    requires { begun < SOURCE_LINES_LIMIT }
    ensures { result ≡ (if begins then suc begun else begun) }
{
    if begins { begun + 1 } else { begun }
}

/// Whether the first line of this block is of this run.
fn runs_next(lines: &[KeptLine], run: u32, next: Option<&Block>) -> bool
    ensures { result ≡ runs_next lines.now run (option_map (λ block. block.now) next.entry) }
{
    let Some(block) = next else {
        return false;
    };
    match lines.get((first_line(block) as usize).saturating_sub(1)) {
        Some(first) => first.run == run,
        None => false,
    }
}

/// Whether an instruction is in the run of a `NO`, before or after it, by the lines of its source and the block that begins next.
pub(crate) fn has_block(lines: &[KeptLine], next: Option<&Block>, line: &KeptLine) -> bool
    ensures { result ≡ has_block_by lines.now (option_map (λ block. block.now) next.entry) line.now }
{
    line.index > 0 || runs_next(lines, line.run, next)
}

/// The bytes of the line of this number, from 1; none of any other number.
pub(crate) fn bytes_at<'a>(lines: &[KeptLine<'a>], number: u32) -> &'a [u8]
    ensures { result.now ≡ bytes_at lines.now number }
{
    if number == 0 {
        return &[];
    }
    match lines.get(number as usize - 1) {
        Some(line) => line.bytes,
        None => &[],
    }
}
