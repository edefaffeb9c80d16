//! The text of why an order isn't legal: which two lines stand in reverse, and by which register or memory one depends on the other.

ghost use Rattle.std.specs.Prelude.{◌≡◌, ◌≤◌, ◌<◌, ◌+◌, ◌-◌, ◌==◌, ◌++◌, OnOk, get_or, length};
ghost use Rattle.s66_line.specs.{instrs_of};
ghost use Rattle.s66_why.specs.{register_name};
ghost use Rattle.s66_compare.specs.{broken_text, first_shared, memory_reason, access, broken_at, instruction_text, pair_text, place_of, reason};

use s66_device::{push_field, push_printable};
use s66_isa::{Instr, Memory, Reg, has_register};
use s66_line::Block;
use s66_why::push_register_name;
use std::alloc::AllocError;

/// The first of these registers that is among others.
fn first_shared(registers: &[Reg], others: &[Reg]) -> Option<Reg>
    ensures { result ≡ first_shared registers.now others.now }
{
    for register in registers {
        if has_register(others, *register) {
            return Some(*register);
        }
    }
    None
}

/// A register, and the kind of dependence that it makes.
fn push_register(out: &mut Vec<u8>, register: Reg, kind: &[u8]) -> Result<(), AllocError>
    ensures { OnOk result (out.new.items ≡ out.old.items ++ (register_name register ++ kind.now)) }
{
    push_register_name(out, register)?;
    out.extend_from_slice(kind)
}

/// What a reference does to memory.
fn access(memory: Memory) -> &'static [u8]
    ensures { result.now ≡ access memory }
{
    match memory {
        Memory::Store => b"write",
        Memory::Load | Memory::None => b"read",
    }
}

/// The kind of dependence that two references to memory make.
fn push_memory_reason(out: &mut Vec<u8>, first: Memory, later: Memory) -> Result<(), AllocError>
    ensures { OnOk result (out.new.items ≡ out.old.items ++ memory_reason first later) }
{
    out.extend_from_slice(b"memory ")?;
    out.extend_from_slice(access(later))?;
    out.extend_from_slice(b" after ")?;
    out.extend_from_slice(access(first))
}

/// Why an instruction depends on one before it: by a register, or else by memory.
fn push_reason(out: &mut Vec<u8>, first: &Instr, later: &Instr) -> Result<(), AllocError>
    ensures { OnOk result (out.new.items ≡ out.old.items ++ reason first.now later.now) }
{
    let (results, reads) = (first.results(), first.reads());
    let (later_results, later_reads) = (later.results(), later.reads());
    if let Some(register) = first_shared(results.as_slice(), later_reads.as_slice()) {
        return push_register(out, register, b" read after write");
    }
    if let Some(register) = first_shared(results.as_slice(), later_results.as_slice()) {
        return push_register(out, register, b" write after write");
    }
    if let Some(register) = first_shared(reads.as_slice(), later_results.as_slice()) {
        return push_register(out, register, b" write after read");
    }
    push_memory_reason(out, first.memory(), later.memory())
}

/// Whether an order has a number at a place, from 0; past its end is 0.
fn is_at(order: &[u8], place: usize, number: u8) -> bool
    ensures { result ≡ (get_or order.now place 0 == number) }
{
    let here = if place < order.len() { order[place] } else { 0 };
    here == number
}

/// The place of a number in an order of so many, from 0, or the last one.
#[tactic(auto, using(crate::proofs::Places::place_here, crate::proofs::Places::place_next, crate::proofs::Places::place_last))]
fn place_of(count: usize, order: &[u8], number: u8) -> usize
    requires { 1 ≤ count }
    ensures place { result ≡ place_of count order.now number }
    ensures within { result < count }
{
    for place in 0..count - 1 {
        if is_at(order, place, number) {
            return place;
        }
    }
    count - 1
}

/// The line and the text of the instruction of a number, from 1, after this name. A control character of the text is a `?`.
fn push_instruction(
    out: &mut Vec<u8>,
    name: &[u8],
    block: &Block,
    number: usize,
) -> Result<(), AllocError>
    requires first { 1 ≤ number }
    requires last { number ≤ length (instrs_of block.now) }
    ensures { OnOk result (out.new.items ≡ out.old.items ++ instruction_text name.now block.now number) }
{
    push_field(out, name, block.line(number) as usize)?;
    out.extend_from_slice(b" ")?;
    push_printable(out, block.whole_text(number).as_slice())
}

/// Two instructions of a block, of which the second has to come first.
fn push_pair(out: &mut Vec<u8>, block: &Block, early: usize, late: usize) -> Result<(), AllocError>
    requires early { (1 ≤ early) × (early ≤ length (instrs_of block.now)) }
    requires late { (1 ≤ late) × (late ≤ length (instrs_of block.now)) }
    ensures { OnOk result (out.new.items ≡ out.old.items ++ pair_text block.now early late) }
{
    push_instruction(out, b" NOT LEGAL LINE ", block, early)?;
    push_instruction(out, b" BEFORE LINE ", block, late)
}

/// Two instructions of a block, of which the second has to come first, and why.
fn push_broken_at(
    out: &mut Vec<u8>,
    block: &Block,
    early: usize,
    late: usize,
) -> Result<(), AllocError>
    requires early { (1 ≤ early) × (early ≤ length (instrs_of block.now)) }
    requires late { (1 ≤ late) × (late ≤ length (instrs_of block.now)) }
    ensures { OnOk result (out.new.items ≡ out.old.items ++ broken_at block.now early late) }
{
    push_pair(out, block, early, late)?;
    out.extend_from_slice(b": ")?;
    push_reason(out, &block.instr(late), &block.instr(early))
}

/// By lines and instructions, that a new block, whose instructions come in this order of the old one's, has a number before another on
/// which it depends.
pub(crate) fn push_broken(
    out: &mut Vec<u8>,
    new: &Block,
    order: &[u8],
    number: u8,
    missing: u8,
) -> Result<(), AllocError>
    ensures { OnOk result (out.new.items ≡ out.old.items ++ broken_text new.now order.now number missing) }
{
    let count = new.count();
    let early = place_of(count, order, number);
    let late = place_of(count, order, missing);
    push_broken_at(out, new, early + 1, late + 1)
}
