//! What the bounds know of an instruction, worked out once, and how long a later instruction waits for it at least (`link`).

ghost use Rattle.std.specs.Prelude.{◌≡◌, if◌then◌else◌};
ghost use Rattle.s66_isa.specs.{greatest, Row, Write as WriteOf, row, has_reg, registers_in};
ghost use Rattle.s66_isa.specs.Table.{Reg as RegOf};
ghost use Rattle.s66_model.specs.{uses, link, tail};
ghost use Rattle.s66_bound.specs.{IsCostOf, AreCosts, timed_by};

use arrayvec::ArrayVec;
use s66_isa::{
    BLOCK_LIMIT, Instr, Kind, Memory, Profile, Reg, Registers, Write, is_memory_conflict, writes_of,
};
use s66_line::Block;

/// What the bounds know of an instruction under a profile, worked out once. Times are in minor cycles.
#[derive(Drop)]
pub(crate) struct Cost {
    pub(crate) kind: Kind,
    pub(crate) parcels: u32,
    pub(crate) writes: ArrayVec<Write, 2>,
    /// The registers that it reads or writes.
    pub used: Registers,
    pub(crate) memory: Memory,
    /// For how long it takes its unit: its hold and one.
    pub(crate) work: u32,
    /// The least time from its start until its unit is free and its results are done.
    pub(crate) tail: u32,
}

impl Default for Cost {
    /// A blank, as cheap as can be: a list makes one for each place that isn't taken.
    fn default() -> Cost {
        Cost {
            kind: Kind::Boolean,
            parcels: 1,
            writes: ArrayVec::new(),
            used: Registers::empty(),
            memory: Memory::None,
            work: 1,
            tail: 1,
        }
    }
}

/// The registers that are read, and those that are written.
fn used_registers(reads: &[Reg], writes: &[Write]) -> Registers
    ensures { (r : Row) → r.reads ≡ reads.now → r.writes ≡ writes.now → (x : RegOf) →
        has_reg x (registers_in result) ≡ uses r x }
{
    let mut used = Registers::of(reads);
    for write in writes {
        used = used.with(write.reg);
    }
    used
}

/// The greatest latency of these results.
fn greatest_latency(writes: &[Write]) -> u32
    ensures { result ≡ greatest (λ (w : WriteOf). w.latency) writes.now }
{
    let mut last = 0u32;
    for write in writes {
        last = last.max(write.latency);
    }
    last
}

/// What the bounds know of an instruction.
pub(crate) fn cost_of(instr: &Instr, profile: &Profile) -> Cost
    ensures { IsCostOf (row profile.now instr.now) result }
{
    let writes = writes_of(instr, profile);
    let work = instr.hold(profile) + 1;
    let latency = greatest_latency(writes.as_slice());
    Cost {
        kind: instr.kind(),
        parcels: instr.parcels(),
        used: used_registers(instr.reads().as_slice(), writes.as_slice()),
        writes,
        memory: instr.memory(),
        work,
        tail: work.max(latency),
    }
}

/// The costs of a block's instructions.
pub(crate) fn costs_of(block: &Block<'_>, profile: &Profile) -> ArrayVec<Cost, BLOCK_LIMIT>
    ensures { AreCosts (timed_by block.now profile.now) result.items }
{
    let mut costs = ArrayVec::new();
    for position in 0..block.count() {
        costs.push(cost_of(&block.instr(position + 1), profile));
    }
    costs
}

/// The greatest latency of the results that are among these registers.
fn greatest_shared(writes: &[Write], used: &Registers) -> u32
    ensures { result ≡
        greatest (λ (w : WriteOf). if has_reg w.reg (registers_in used.now) then w.latency else 0) writes.now }
{
    let mut last = 0u32;
    for write in writes {
        if used.has(write.reg) {
            last = last.max(write.latency);
        }
    }
    last
}

/// How long a later instruction waits at least from the start of this one, 0 if they have no link.
pub(crate) fn link(from: &Cost, to: &Cost) -> u32
    ensures { (r s : Row) → IsCostOf r from.now → IsCostOf s to.now → result ≡ link r s }
{
    let shared = greatest_shared(from.writes.as_slice(), &to.used);
    if is_memory_conflict(from.memory, to.memory) {
        shared.max(1)
    } else {
        shared
    }
}
