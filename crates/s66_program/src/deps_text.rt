//! What `deps` writes: on which instructions each depends, and with `--text` why.

ghost use Rattle.std.specs.Prelude.{ℕ, List, ◌≡◌, ◌≤◌, ◌++◌, flat_map, length, IfOk, OnOk};
ghost use Rattle.s66_isa.specs.{BLOCK_LIMIT, after_blanks, weigh, instr_at, numbers, numbers_in};
ghost use Rattle.s66_model.specs.{all_needs, needs};
ghost use Rattle.s66_line.specs.{instrs_of};
ghost use Rattle.s66_why.specs.{hazards, hazards_text, IsOf};
ghost use Rattle.s66_program.specs.DepsText.{IsDepsOutput, dependences_in, deps_line, named, needs_line, needs_lines, deps_lines, pair_line, pair_lines};

use crate::block_head::push_block_head;
use crate::listing::{Listing, listing_output};
use s66_answer::Output;
use s66_device::push_field;
use s66_isa::{Profile, Set};
use s66_line::Block;
use s66_source::Source;
use s66_time::{Dependences, Timer};
use s66_why::{push_hazards, push_hazards_text};
use std::alloc::{AllocError, Global};

/// How many pairs depend in a block of `count` instructions.
fn pairs(dependences: &Dependences, count: usize) -> u32
    requires count { count ≡ length dependences.now }
    requires few { count ≤ BLOCK_LIMIT }
    ensures { result ≡ weigh (λ (ns : List ℕ). length ns) dependences.now }
{
    let mut sum = 0;
    for position in 0..count {
        sum += dependences.needs((position + 1) as u8).count();
    }
    sum
}

/// The line of a block, whose number is from 1.
fn push_deps_line(
    out: &mut Vec<u8>,
    number: usize,
    block: &Block,
    pairs: u32,
) -> Result<(), AllocError>
    requires { pairs ≡ dependences_in (instrs_of block.now) }
    ensures { OnOk result (out.new.items ≡ out.old.items ++ deps_line number block.now) }
{
    let count = block.count();
    push_block_head(out, number, block)?;
    push_field(out, b" COUNT ", count)?;
    push_field(out, b" DEPENDENCES ", pairs as usize)?;
    out.extend_from_slice(b"\n")
}

/// The numbers of a set, each after a blank.
fn push_set(out: &mut Vec<u8>, set: &Set) -> Result<(), AllocError>
    ensures { OnOk result (out.new.items ≡ out.old.items ++ after_blanks (numbers_in set.now)) }
{
    let mut rest = *set;
    while let Some(number) = rest.pop_first() {
        push_field(out, b" ", number as usize)?;
    }
    Ok(())
}

/// The line of an instruction, if it depends on some.
fn push_needs_line(out: &mut Vec<u8>, number: usize, needs: &Set) -> Result<(), AllocError>
    ensures { OnOk result (out.new.items ≡ out.old.items ++ needs_line number (numbers_in needs.now)) }
{
    if needs.count() == 0 {
        return Ok(());
    }
    push_field(out, b"", number)?;
    out.extend_from_slice(b" AFTER")?;
    push_set(out, needs)?;
    out.extend_from_slice(b"\n")
}

/// The lines of the instructions of a block that depend on some.
fn push_needs_lines(
    out: &mut Vec<u8>,
    block: &Block,
    dependences: &Dependences,
) -> Result<(), AllocError>
    requires { dependences.now ≡ all_needs (instrs_of block.now) }
    ensures { OnOk result (out.new.items ≡ out.old.items ++
        needs_lines (instrs_of block.now) (numbers (instrs_of block.now))) }
{
    for position in 0..block.count() {
        let needs = dependences.needs((position + 1) as u8);
        push_needs_line(out, position + 1, &needs)?;
    }
    Ok(())
}

/// The number of an instruction and its text.
fn push_named(out: &mut Vec<u8>, block: &Block, number: u8) -> Result<(), AllocError>
    requires { IsOf block.now number }
    ensures { OnOk result (out.new.items ≡ out.old.items ++ named block.now number) }
{
    push_field(out, b"", number as usize)?;
    out.extend_from_slice(b" ")?;
    out.extend_from_slice(block.text(number as usize).as_slice())
}

/// Why an instruction must stay after an earlier one.
fn push_reasons(
    alloc: Global,
    out: &mut Vec<u8>,
    block: &Block,
    later: u8,
    earlier: u8,
) -> Result<(), AllocError>
    requires later { IsOf block.now later }
    requires earlier { IsOf block.now earlier }
    ensures { OnOk result (out.new.items ≡ out.old.items ++
        hazards_text (hazards (instr_at (instrs_of block.now) earlier) (instr_at (instrs_of block.now) later))) }
{
    let mut hazards = Vec::new(alloc);
    push_hazards(
        &mut hazards,
        &block.instr(earlier as usize),
        &block.instr(later as usize),
    )?;
    push_hazards_text(out, hazards.as_slice())
}

/// The line that says why an instruction depends on an earlier one.
fn push_pair_line(
    alloc: Global,
    out: &mut Vec<u8>,
    block: &Block,
    later: u8,
    earlier: u8,
) -> Result<(), AllocError>
    requires later { IsOf block.now later }
    requires earlier { IsOf block.now earlier }
    ensures { OnOk result (out.new.items ≡ out.old.items ++ pair_line block.now later earlier) }
{
    push_named(out, block, later)?;
    out.extend_from_slice(b" AFTER ")?;
    push_named(out, block, earlier)?;
    out.extend_from_slice(b": ")?;
    push_reasons(alloc, out, block, later, earlier)?;
    out.extend_from_slice(b"\n")
}

/// The lines of an instruction, one for each of those on which it depends.
fn push_pairs_of(
    alloc: Global,
    out: &mut Vec<u8>,
    block: &Block,
    later: u8,
    set: &Set,
) -> Result<(), AllocError>
    requires later { IsOf block.now later }
    requires needs { numbers_in set.now ≡ needs (instrs_of block.now) later }
    ensures { OnOk result (out.new.items ≡ out.old.items ++
        flat_map (pair_line block.now later) (needs (instrs_of block.now) later)) }
{
    let mut rest = *set;
    while let Some(earlier) = rest.pop_first() {
        push_pair_line(alloc, out, block, later, earlier)?;
    }
    Ok(())
}

/// The lines of all pairs of a block that depend.
fn push_pair_lines(
    alloc: Global,
    out: &mut Vec<u8>,
    block: &Block,
    dependences: &Dependences,
) -> Result<(), AllocError>
    requires { dependences.now ≡ all_needs (instrs_of block.now) }
    ensures { OnOk result (out.new.items ≡ out.old.items ++ pair_lines block.now) }
{
    for position in 0..block.count() {
        let number = (position + 1) as u8;
        let needs = dependences.needs(number);
        push_pairs_of(alloc, out, block, number, &needs)?;
    }
    Ok(())
}

/// The lines of a block, whose number is from 1, with texts or without.
fn push_deps_lines(
    alloc: Global,
    out: &mut Vec<u8>,
    text: bool,
    number: usize,
    block: &Block,
) -> Result<(), AllocError>
    ensures { OnOk result (out.new.items ≡ out.old.items ++ deps_lines text number block.now) }
{
    let dependences = Dependences::of(block);
    let pairs = pairs(&dependences, block.count());
    push_deps_line(out, number, block, pairs)?;
    if text {
        push_pair_lines(alloc, out, block, &dependences)
    } else {
        push_needs_lines(out, block, &dependences)
    }
}

/// On which instructions those of blocks depend.
#[derive(Drop)]
struct Needs {
    /// Whether each pair has a line with their texts.
    text: bool,
}

impl Listing for Needs {
    ghost lines = { λ needs p. deps_lines needs.text };

    fn push_lines(
        &self,
        alloc: Global,
        out: &mut Vec<u8>,
        _timer: &mut Timer,
        number: usize,
        block: &Block,
    ) -> Result<(), AllocError> {
        push_deps_lines(alloc, out, self.text, number, block)
    }
}

/// On which instructions those of each block of a source depend, or of the only one that is printed, with texts or without. `Err` is
/// out of memory.
pub(crate) fn deps_output(
    alloc: Global,
    profile: &Profile,
    text: bool,
    only: Option<u32>,
    source: &Source,
) -> Result<Output, AllocError>
    ensures { IfOk result (λ output. IsDepsOutput text only source.now output.text.items output.status) }
{
    listing_output(alloc, profile, &Needs { text }, only, source)
}
