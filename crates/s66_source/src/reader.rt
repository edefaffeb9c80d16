//! Reads a source line by line: instructions join the open block, a full block ends, and so does a run at a location field or at a line
//! that is neither code nor a comment.

ghost use Rattle.std.specs.Prelude.{◌≡◌, ◌≤◌, ◌<◌, [], length, OnOk};
ghost use Rattle.s66_isa.specs.{BLOCK_LIMIT};
ghost use Rattle.s66_line.specs.{lines_from, Spells, IsSpelled, is_code, TEXT_LIMIT};
ghost use Rattle.s66_source.specs.{put_line, put_lines, Steps, end_block, begin_run, with_entry, by_class, line_step, lines_step, flagged, state, after_line, class_at, flagged_from};
ghost use Rattle.s66_source.specs.{SOURCE_LINES_LIMIT};

use crate::continued::{is_continued, is_continued_at_first};
use crate::error::SourceError;
use crate::kept::Kept;
use crate::limits::SOURCE_LINES_LIMIT;
use crate::lines::cut_line;
use crate::standing::Standing;
use s66_isa::{BLOCK_LIMIT, Instr};
use s66_line::{Block, Class, Classified, Entry, LINE_BYTES_LIMIT};
use std::alloc::{AllocError, Global};
use std::mem;

/// What was made of the lines of a source so far.
#[derive(Drop)]
pub(crate) struct Reader<'r, 'a> {
    pub(crate) blocks: Vec<Block<'a>>,
    /// The label of the run until its first block is ended, empty from then on.
    pub(crate) label: &'a [u8],
    /// The instructions of the open block, fewer than `BLOCK_LIMIT`.
    pub(crate) entries: Vec<Entry<'a>>,
    /// The lines that were read.
    pub(crate) kept: Kept<'a>,
    /// Whether the last of them is an Instruction or a Pad.
    pub(crate) after_code: bool,
    /// Whether lines that are refused, or covered by a count, a definition or a directive, are left alone.
    pub(crate) cut: bool,
    pub(crate) standing: Standing<'r>,
}

impl<'r, 'a> Reader<'r, 'a> {
    /// Ends the open block if it has an instruction.
    pub(crate) fn end_block(&mut self, alloc: Global) -> Result<(), AllocError>
        requires { length self.old.entries.items ≤ BLOCK_LIMIT }
        ensures step { OnOk result (state self.new ≡ end_block (state self.old)) }
        ensures kept { self.new.kept ≡ self.old.kept }
        ensures cut { self.new.cut ≡ self.old.cut }
        ensures standing { self.new.standing ≡ self.old.standing }
    {
        if !self.entries.is_empty() {
            let entries = mem::replace(&mut self.entries, Vec::new(alloc));
            self.blocks.push(Block::new(self.label, entries))?;
        }
        self.label = &[];
        Ok(())
    }

    /// Ends the open run, and begins one with this label.
    fn begin_run(&mut self, alloc: Global, label: &'a [u8]) -> Result<(), AllocError>
        requires { length self.old.entries.items ≤ BLOCK_LIMIT }
        ensures step { OnOk result (state self.new ≡ begin_run label.now (state self.old)) }
        ensures kept { self.new.kept ≡ self.old.kept }
        ensures cut { self.new.cut ≡ self.old.cut }
        ensures standing { self.new.standing ≡ self.old.standing }
    {
        self.end_block(alloc)?;
        self.label = label;
        Ok(())
    }

    /// Puts the instruction of the next line into the open block, which ends if it is full.
    fn put(&mut self, alloc: Global, instr: Instr, bytes: &'a [u8]) -> Result<(), AllocError>
        requires few { length self.old.entries.items < BLOCK_LIMIT }
        requires lines { self.old.kept.count < SOURCE_LINES_LIMIT }
        requires bytes { length bytes.now ≤ TEXT_LIMIT }
        requires spelled { Spells bytes.now instr }
        ensures step { OnOk result (state self.new ≡ with_entry instr bytes.now (state self.old)) }
        ensures kept { self.new.kept ≡ self.old.kept }
        ensures cut { self.new.cut ≡ self.old.cut }
        ensures standing { self.new.standing ≡ self.old.standing }
        ensures few { OnOk result (length self.new.entries.items < BLOCK_LIMIT) }
    {
        let line = self.kept.count() + 1;
        self.entries.push(Entry { instr, line, bytes })?;
        if self.entries.len() == BLOCK_LIMIT {
            self.end_block(alloc)?;
        }
        Ok(())
    }

    /// Reads the next line, of these bytes, which was classified.
    fn take_classified(
        &mut self,
        alloc: Global,
        bytes: &'a [u8],
        line: Classified<'a>,
    ) -> Result<(), SourceError>
        requires few { length self.old.entries.items < BLOCK_LIMIT }
        requires lines { self.old.kept.count < SOURCE_LINES_LIMIT }
        requires bytes { length line.bytes.now ≤ TEXT_LIMIT }
        requires spelled { IsSpelled line.class line.bytes.now }
        ensures step { Steps (state self.new) result (by_class
            (state self.old) line.entry.class line.entry.label.now line.entry.bytes.now) }
        ensures kept { OnOk result (self.new.kept ≡ put_line line.entry.class bytes.now self.old.kept) }
        ensures after_code { OnOk result (self.new.after_code ≡ is_code line.entry.class) }
        ensures cut { self.new.cut ≡ self.old.cut }
        ensures standing { self.new.standing ≡ self.old.standing }
        ensures few { OnOk result (length self.new.entries.items < BLOCK_LIMIT) }
        ensures lines { OnOk result (self.new.kept.count ≤ SOURCE_LINES_LIMIT) }
    {
        let mut after_code = false;
        let class = line.class;
        match class {
            Class::Comment => {}
            Class::Other => self.end_block(alloc)?,
            Class::Refused => {
                return Err(SourceError::BadOperand {
                    line: self.kept.count() + 1,
                });
            }
            Class::Pad { located } => {
                if located {
                    self.begin_run(alloc, line.label)?;
                }
                after_code = true;
            }
            Class::Instruction { located, instr } => {
                if located {
                    self.begin_run(alloc, line.label)?;
                }
                self.put(alloc, instr, line.bytes)?;
                after_code = true;
            }
        }
        self.kept.put(&class, bytes)?;
        self.after_code = after_code;
        Ok(())
    }

    /// Reads the next line, which is continued or not.
    fn take_line(
        &mut self,
        alloc: Global,
        line: &'a [u8],
        continued: bool,
    ) -> Result<(), SourceError>
        requires few { length self.old.entries.items < BLOCK_LIMIT }
        requires lines { self.old.kept.count ≤ SOURCE_LINES_LIMIT }
        requires bodies { self.old.standing.bodies ≤ self.old.kept.count }
        ensures step { Steps (state self.new) result (line_step (state self.old)
            (flagged self.old continued line.now)) }
        ensures kept { OnOk result (self.new.kept ≡ put_line
            (class_at self.old.after_code (flagged self.old continued line.now)) line.now self.old.kept) }
        ensures after_code { OnOk result (self.new.after_code ≡
            is_code (class_at self.old.after_code (flagged self.old continued line.now))) }
        ensures standing { OnOk result (self.new.standing ≡ after_line self.old.cut self.old.standing line.now) }
        ensures cut { self.new.cut ≡ self.old.cut }
        ensures few { OnOk result (length self.new.entries.items < BLOCK_LIMIT) }
        ensures lines { OnOk result (self.new.kept.count ≤ SOURCE_LINES_LIMIT) }
        ensures bodies { OnOk result (self.new.standing.bodies ≤ self.new.kept.count) }
    {
        if line.len() > LINE_BYTES_LIMIT {
            return Err(SourceError::LineTooLong {
                line: self.kept.count() + 1,
            });
        }
        if self.kept.count() >= SOURCE_LINES_LIMIT {
            return Err(SourceError::TooLarge);
        }
        let classified = self
            .standing
            .take(self.cut, self.after_code, line, continued);
        self.take_classified(alloc, line, classified)
    }

    /// Reads all lines of a text.
    pub(crate) fn take_all(&mut self, alloc: Global, text: &'a [u8]) -> Result<(), SourceError>
        requires few { length self.old.entries.items < BLOCK_LIMIT }
        requires lines { self.old.kept.count ≤ SOURCE_LINES_LIMIT }
        requires bodies { self.old.standing.bodies ≤ self.old.kept.count }
        ensures step { Steps (state self.new) result (lines_step (state self.old)
            (flagged_from self.old.cut self.old.standing (lines_from [] text.now))) }
        ensures kept { OnOk result (self.new.kept ≡ put_lines self.old.after_code self.old.kept
            (flagged_from self.old.cut self.old.standing (lines_from [] text.now))) }
        ensures few { OnOk result (length self.new.entries.items < BLOCK_LIMIT) }
    {
        let mut rest = text;
        let mut continued = is_continued_at_first(self.cut, text);
        while let Some((line, more)) = cut_line(rest) {
            continued = is_continued(self.cut, continued, line, more);
            self.take_line(alloc, line, continued)?;
            rest = more;
        }
        Ok(())
    }
}
