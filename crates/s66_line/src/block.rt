//! A straight-line block: the instructions of one run of lines, numbered from 1, with their lines and their texts. Nearly all crates
//! above take a `Block`.

ghost use Rattle.std.specs.Prelude.{◌≡◌};
ghost use Rattle.s66_line.specs.{instr_in_text, IsInstruction};

use crate::entry::Entry;
use crate::instruction_text::{instruction_in, spell, spell_whole};
use crate::limits::TEXT_LIMIT;
use arrayvec::ArrayVec;
use s66_isa::Instr;
use std::alloc::{AllocError, Global};
use std::marker::Model;

/// A straight-line block: 1 to `BLOCK_LIMIT` instructions of one run, numbered from 1 in source order; it borrows the source.
#[derive(Drop)]
pub struct Block<'a> {
    label: &'a [u8],
    entries: Vec<Entry<'a>>,
}

impl<'a> Model for Block<'a> {
    ghost use Rattle.std.specs.Prelude.{◌≤◌, ◌<◌, length};
    ghost use Rattle.s66_line.specs.Blocks.{Block};
    ghost use Rattle.s66_isa.specs.{BLOCK_LIMIT};

    ghost Value = { Block };

    ghost view = { λ b. record { label = b.label.now; entries = b.entries.items } };

    ghost invariant = { λ b. (0 < length b.entries.items) × (length b.entries.items ≤ BLOCK_LIMIT) };
}

/// The entry of the text of an instruction, at a line.
fn entry_of(text: &[u8], line: u32) -> Entry<'_>
    requires { IsInstruction text.now }
    ensures { result ≡ record { instr = instr_in_text text.now; line = line; bytes = text.now } }
{
    // so it isn't longer than a text may be
    prove!(text.len() <= TEXT_LIMIT);
    match instruction_in(text) {
        Some(instr) => Entry {
            instr,
            line,
            bytes: text,
        },
        None => unreachable!(),
    }
}

impl<'a> Block<'a> {
    ghost use Rattle.std.specs.Prelude.{ℕ, List, ◌≡◌, ◌*◌, ◌≤◌, ◌<◌, Some, IfOk, length, map, Vec};
    ghost use Rattle.std.specs.declared.alloc.Global.{Global};
    ghost use Rattle.s66_isa.specs.{weigh, Among, instr_at, parcels_of, Instr, BLOCK_LIMIT};
    ghost use Rattle.s66_line.specs.{Spells, IsTextOf, IsInstruction, instrs_of, entry_at, line_of, bytes_of, text_of, whole_text_of, block_of_texts, TEXT_LIMIT};

    pub fn new(label: &'a [u8], entries: Vec<Entry<'a>>) -> Block<'a>
        requires some { 0 < length entries.items }
        requires few { length entries.items ≤ BLOCK_LIMIT }
        ensures { result ≡ record { label = label.now; entries = entries.entry.items } }
    {
        Block { label, entries }
    }

    /// The block of these texts, each that of an instruction, as `is_instruction` tests. Line n is n, and there is no label. It
    /// borrows the texts. `Err` is out of memory.
    pub fn of(alloc: Global, texts: &'a [Vec<u8>]) -> Result<Block<'a>, AllocError>
        requires some { 1 ≤ length texts.now }
        requires few { length texts.now ≤ BLOCK_LIMIT }
        requires texts { (text : List ℕ) → Among text (map (λ (t : Vec ℕ Global). t.items) texts.now) →
            IsInstruction text }
        ensures { IfOk result (λ block. block ≡ block_of_texts (map (λ (t : Vec ℕ Global). t.items) texts.now)) }
    {
        let mut entries = Vec::new(alloc);
        for (position, text) in texts.iter().enumerate() {
            entries.push(entry_of(text.as_slice(), position as u32 + 1))?;
        }
        Ok(Block::new(&[], entries))
    }

    /// How many instructions there are, 1 to `BLOCK_LIMIT`.
    pub fn count(&self) -> usize
        ensures value { result ≡ length (instrs_of self.now) }
        ensures some { 1 ≤ result }
        ensures few { result ≤ BLOCK_LIMIT }
    {
        self.entries.len()
    }

    /// The location field of the run's first line, with the blank before it if it begins in column 2; empty in every block of a
    /// run but its first.
    pub fn label(&self) -> &'a [u8]
        ensures { result.now ≡ self.now.label }
    {
        self.label
    }

    fn entry(&self, number: usize) -> &Entry<'a>
        requires first { 1 ≤ number }
        requires last { number ≤ length (instrs_of self.now) }
        ensures { entry_at self.now number ≡ Some result.now }
    {
        &self.entries[number - 1]
    }

    /// The instruction of a number, from 1.
    pub fn instr(&self, number: usize) -> Instr
        requires first { 1 ≤ number }
        requires last { number ≤ length (instrs_of self.now) }
        ensures { result ≡ instr_at (instrs_of self.now) number }
    {
        self.entry(number).instr
    }

    /// The line of an instruction in the source, from 1.
    pub fn line(&self, number: usize) -> u32
        requires first { 1 ≤ number }
        requires last { number ≤ length (instrs_of self.now) }
        ensures { result ≡ line_of self.now number }
    {
        self.entry(number).line
    }

    /// The bytes of an instruction's line from its operation on, without the carriage returns at its end: at most
    /// `TEXT_LIMIT`.
    pub fn bytes(&self, number: usize) -> &'a [u8]
        requires first { 1 ≤ number }
        requires last { number ≤ length (instrs_of self.now) }
        ensures value { result.now ≡ bytes_of self.now number }
        ensures few { length result.now ≤ TEXT_LIMIT }
        ensures spells { Spells result.now (instr_at (instrs_of self.now) number) }
    {
        self.entry(number).bytes
    }

    /// The text of an instruction: its operation and operand in upper case, one blank between them if there is an operand.
    pub fn text(&self, number: usize) -> ArrayVec<u8, TEXT_LIMIT>
        requires first { 1 ≤ number }
        requires last { number ≤ length (instrs_of self.now) }
        ensures value { result.items ≡ text_of self.now number }
        ensures is_text { IsTextOf result.items (instr_at (instrs_of self.now) number) }
    {
        spell(self.bytes(number))
    }

    /// The text of an instruction with all characters of its operand: a blank may be among them, as in `SA1 =10HREAD ERROR`.
    pub fn whole_text(&self, number: usize) -> ArrayVec<u8, TEXT_LIMIT>
        requires first { 1 ≤ number }
        requires last { number ≤ length (instrs_of self.now) }
        ensures { result.items ≡ whole_text_of self.now number }
    {
        spell_whole(self.bytes(number))
    }

    /// The parcels of 15 bits of its instructions, `NO`s not counted: at most two an instruction.
    pub fn parcels(&self) -> u32
        ensures value { result ≡ weigh (λ (n : Instr). parcels_of n.op.code) (instrs_of self.now) }
        ensures at_most { result ≤ 2 * BLOCK_LIMIT }
    {
        let mut sum = 0;
        for entry in &self.entries {
            sum += entry.instr.parcels();
        }
        sum
    }
}
