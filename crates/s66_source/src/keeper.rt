//! Prints a source anew (`print_source`): some blocks in other orders, all other lines as they were read. The text of one block is in
//! `block_text.rt`.

ghost use Rattle.std.specs.Prelude.{◌≡◌, IfOk};
ghost use Rattle.s66_source.specs.{AreGiven, printed_in, blocks_of, classed_lines};

use crate::block_text::{push_copied, push_indented, push_note, push_report};
use crate::columns::Columns;
use crate::kept::{KeptLine, LineKind, count_after, first_line, has_block, last_line};
use crate::placed::Placed;
use crate::source::Source;
use s66_line::Block;
use std::alloc::{AllocError, Global};
use std::marker::Model;

/// How a source is printed.
#[derive(Drop)]
struct Keeper<'s, 'a> {
    source: &'s Source<'a>,
    blocks: &'s [Block<'a>],
    /// How each block is printed anew, or `None` if it stands; further blocks stand.
    given: &'s [Option<Placed>],
    /// Whether no report is printed.
    quiet: bool,
    columns: Columns,
}

impl<'s, 'a> Model for Keeper<'s, 'a> {
    ghost use Rattle.std.specs.Prelude.{◌≡◌, Ok};
    ghost use Rattle.s66_source.specs.Keeper.{Keeper};
    ghost use Rattle.s66_source.specs.Source.{source_of};

    ghost Value = { Keeper };

    ghost view = { λ k. record { source = k.source.now; given = k.given.now; quiet = k.quiet; columns = k.columns } };

    ghost invariant = { λ k. source_of k.source.now ≡ Ok k.blocks.now };
}

impl<'s, 'a> Keeper<'s, 'a> {
    ghost use Rattle.std.specs.Prelude.{ℕ, suc, if◌then◌else◌, ◌≡◌, ◌≤◌, ◌<◌, ◌^◌, ◌++◌, None, Some, MatchOption, is_some, length, map, option_map, slice_get, IfOk, IfSome, OnOk};
    ghost use Rattle.s66_isa.specs.{Among};
    ghost use Rattle.s66_source.specs.{IsKeeper, block_at, last_of, owner_by, placed_of, text_by, text_in, whole_text, kept_line, indented_lines, indents, Placed as PlacedOf, notes_text, anew_text};
    ghost use Rattle.s66_source.specs.{blocks_of, classed_lines, SOURCE_LINES_LIMIT};
    ghost use Rattle.s66_line.specs.{Block as BlockOf};

    /// The blocks of the source.
    fn blocks(&self) -> &'s [Block<'a>]
        ensures { result.now ≡ blocks_of (classed_lines self.now.source) }
    {
        self.blocks
    }

    /// The lines of the source.
    fn lines(&self) -> &'s [KeptLine<'a>]
        ensures { result.now ≡ map kept_line (classed_lines self.now.source) }
    {
        self.source.lines()
    }

    fn columns(&self) -> Columns
        ensures { result ≡ self.now.columns }
    {
        self.columns
    }

    /// The block that begins in the line of this number, if one does, before which so many begin.
    fn next_block(&self, begun: usize, number: u32) -> Option<&'s Block<'a>>
        ensures value { option_map (λ block. block.now) result ≡
            block_at (slice_get (blocks_of (classed_lines self.now.source)) begun) number }
        ensures some { IfSome result (λ block.
            slice_get (blocks_of (classed_lines self.now.source)) begun ≡ Some block.now) }
    {
        let block = self.blocks().get(begun)?;
        if first_line(block) == number {
            Some(block)
        } else {
            None
        }
    }

    /// The last line of the block of this number, from 1; 0 of any other number.
    fn last_of(&self, number: usize) -> u32
        ensures { result ≡ last_of (blocks_of (classed_lines self.now.source)) number }
    {
        if number == 0 {
            return 0;
        }
        match self.blocks().get(number - 1) {
            Some(block) => last_line(block),
            None => 0,
        }
    }

    /// How the block of this number is printed anew, from 1, or `None` if it stands or none has this number.
    fn placed(&self, number: usize) -> Option<&'s Placed>
        ensures { MatchOption result (placed_of (blocks_of (classed_lines self.now.source)) self.now.given number ≡ None)
            (λ p. placed_of (blocks_of (classed_lines self.now.source)) self.now.given number ≡ Some p.now) }
    {
        if number == 0 || number > self.blocks().len() {
            return None;
        }
        match self.given.get(number - 1) {
            Some(Some(placed)) => Some(placed),
            _ => None,
        }
    }

    /// The number of the block that a line is of, from 1; 0 if it is of none. So many blocks begin before it, and in it one or none.
    fn owner(&self, line: &KeptLine, number: u32, begun: usize, begins: bool) -> usize
        requires { begun < 2 ^ 32 }
        ensures { result ≡ owner_by (map kept_line (classed_lines self.now.source))
            (blocks_of (classed_lines self.now.source)) number begun begins line.now }
    {
        if begins {
            return begun + 1;
        }
        match line.kind {
            LineKind::Instruction => begun,
            LineKind::Comment => {
                if number < self.last_of(begun) {
                    begun
                } else {
                    0
                }
            }
            LineKind::Pad => {
                if !has_block(self.lines(), self.blocks().get(begun), line) {
                    0
                } else if line.index == 0 {
                    begun + 1
                } else {
                    begun
                }
            }
            LineKind::Other => 0,
        }
    }

    /// Prints the notes of a block: the comments between its first instruction and its last one.
    fn push_notes(&self, out: &mut Vec<u8>, block: &Block) -> Result<(), AllocError>
        ensures { OnOk result (out.new.items ≡ out.old.items ++ notes_text block.now (classed_lines self.now.source)) }
    {
        let lines = self.lines();
        let end = last_line(block).saturating_sub(1);
        let mut passed = first_line(block);
        while passed < end {
            push_note(out, lines, passed)?;
            passed += 1;
        }
        Ok(())
    }

    /// Prints the instructions of a block in this order.
    fn push_order(&self, out: &mut Vec<u8>, block: &Block, order: &[u8]) -> Result<(), AllocError>
        requires { (n : ℕ) → Among n order.now → (1 ≤ n) × (n ≤ length block.now.entries) }
        ensures { OnOk result (out.new.items ≡ out.old.items ++ indented_lines
            (indents self.now.columns (classed_lines self.now.source) block.now) block.now block.now.label order.now) }
    {
        push_indented(out, self.lines(), block, order, self.columns())
    }

    /// Prints the block of this number anew.
    fn push_anew(
        &self,
        out: &mut Vec<u8>,
        number: usize,
        block: &Block,
        placed: &Placed,
    ) -> Result<(), AllocError>
        requires few { number < 2 ^ 32 }
        requires placed { (n : ℕ) → Among n placed.now.order → (1 ≤ n) × (n ≤ length block.now.entries) }
        ensures { OnOk result (out.new.items ≡ out.old.items ++ anew_text self.now.quiet self.now.columns
            (classed_lines self.now.source) number block.now placed.now) }
    {
        if !self.quiet {
            push_report(out, number as u32, block.count(), placed)?;
        }
        self.push_notes(out, block)?;
        self.push_order(out, block, placed.order.as_slice())
    }

    /// Prints a line, or what is printed in its place: by how its block is printed anew, and by that which begins in it, before which
    /// so many begin.
    fn put_line(
        &self,
        out: &mut Vec<u8>,
        line: &KeptLine,
        begun: usize,
        placed: Option<&Placed>,
        block: Option<&Block>,
    ) -> Result<(), AllocError>
        requires few { begun < SOURCE_LINES_LIMIT }
        requires placed { (p : PlacedOf) → (b : BlockOf) → option_map (λ p. p.now) placed ≡ Some p →
            option_map (λ b. b.now) block ≡ Some b →
            (n : ℕ) → Among n p.order → (1 ≤ n) × (n ≤ length b.entries) }
        ensures { OnOk result (out.new.items ≡ out.old.items ++ text_in self.now (suc begun)
            (option_map (λ p. p.now) placed.entry) (option_map (λ b. b.now) block.entry) line.now.bytes) }
    {
        match (placed, block) {
            (None, _) => push_copied(out, line.bytes),
            (Some(placed), Some(block)) => self.push_anew(out, begun + 1, block, placed),
            (Some(_), None) => Ok(()),
        }
    }

    /// Prints the line of this number, before which so many blocks begin, or what is printed in its place. Returns how many begin up to
    /// it.
    fn print_line(
        &self,
        out: &mut Vec<u8>,
        line: &KeptLine,
        number: u32,
        begun: usize,
    ) -> Result<usize, AllocError>
        requires keeper { IsKeeper self.now }
        requires few { begun < SOURCE_LINES_LIMIT }
        ensures text { OnOk result (out.new.items ≡ out.old.items ++ text_by self.now number begun line.now) }
        ensures begun { IfOk result (λ after. after ≡
            (if is_some (block_at (slice_get (blocks_of (classed_lines self.now.source)) begun) number) then
            suc begun else begun)) }
    {
        let block = self.next_block(begun, number);
        let begins = block.is_some();
        let placed = self.placed(self.owner(line, number, begun, begins));
        self.put_line(out, line, begun, placed, block)?;
        Ok(count_after(begun, begins))
    }

    /// Prints all lines.
    fn print_all(&self, out: &mut Vec<u8>) -> Result<(), AllocError>
        requires { IsKeeper self.now }
        ensures { OnOk result (out.new.items ≡ out.old.items ++ whole_text self.now) }
    {
        let lines = self.lines();
        let mut number = 0;
        let mut begun = 0;
        for line in lines {
            number += 1;
            begun = self.print_line(out, line, number, begun)?;
        }
        Ok(())
    }
}

/// A source with some of its blocks printed anew: for each block it is given how, or `None` if it stands, and further blocks stand. Each
/// line of a block that stands is as it was read, and so is each that is of no block. In the place of any other block come its report,
/// unless it is `quiet`, its notes and its instructions, the first after the label, and the operations of those without a label in these
/// columns. It takes two passes over the lines at most, in time linear in the source and the orders. `Err` is out of memory.
pub fn print_source(
    alloc: Global,
    source: &Source,
    given: &[Option<Placed>],
    quiet: bool,
    columns: Columns,
) -> Result<Vec<u8>, AllocError>
    requires { AreGiven (blocks_of (classed_lines source.now)) given.now }
    ensures { IfOk result (λ text. text.items ≡ printed_in quiet columns source.now given.now) }
{
    let keeper = Keeper {
        source,
        blocks: source.blocks(),
        given,
        quiet,
        columns,
    };
    let mut out = Vec::new(alloc);
    keeper.print_all(&mut out)?;
    Ok(out)
}
