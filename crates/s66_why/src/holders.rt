//! Which earlier instruction holds one: at its issue, at its start, and for each of its results.

ghost use Rattle.std.specs.Prelude.{◌≡◌, map, reverse};
ghost use Rattle.s66_isa.specs.{Write as WriteOf};
ghost use Rattle.s66_why.specs.{lowest, holder, nobody, soonest, first_holder, second_holder, third_holder};

use crate::cause::{Cause, Holder, lower};
use crate::placed::{PlacedInstr, readers_wait};
use s66_isa::{Reg, Write};

/// The lowest number of the earlier instructions that let go at a time; 0 if none does.
fn lowest(earlier: &[PlacedInstr], cause: &Cause, time: u32) -> u8
    ensures { result ≡ lowest cause.now time (reverse earlier.now) }
{
    let mut number = 0;
    for point in earlier {
        if point.lets_go(cause, time) {
            number = lower(point.number, number);
        }
    }
    number
}

/// The earlier instruction that lets go at a time, if one does.
pub(crate) fn holder(earlier: &[PlacedInstr], cause: Cause, time: u32) -> Holder
    ensures { result ≡ holder cause time (reverse earlier.now) }
{
    let number = lowest(earlier, &cause, time);
    Holder { cause, number }
}

/// The earlier instruction whose result in one of these registers is done at a time, if one is.
fn soonest_of_registers(earlier: &[PlacedInstr], registers: &[Reg], time: u32) -> Holder
    ensures { result ≡ soonest nobody time (reverse earlier.now) registers.now }
{
    let mut best = Holder::nobody();
    for register in registers {
        best = best.sooner(holder(earlier, Cause::Writes(*register), time));
    }
    best
}

/// The earlier instruction whose result in one of the registers that are written is done at a time, if one is.
fn soonest_of_writes(earlier: &[PlacedInstr], writes: &[Write], time: u32) -> Holder
    ensures { result ≡ soonest nobody time (reverse earlier.now) (map (λ (w : WriteOf). w.reg) writes.now) }
{
    let mut best = Holder::nobody();
    for write in writes {
        best = best.sooner(holder(earlier, Cause::Writes(write.reg), time));
    }
    best
}

/// What an instruction waits for until it issues.
pub(crate) fn first_holder(earlier: &[PlacedInstr], point: &PlacedInstr) -> Holder
    ensures { result ≡ first_holder (reverse earlier.now) point.now }
{
    let result = soonest_of_writes(earlier, point.row.writes.as_slice(), point.issue);
    result.or_else(holder(earlier, Cause::Takes(point.row.kind), point.issue))
}

/// What an instruction waits for until it starts.
pub(crate) fn second_holder(earlier: &[PlacedInstr], point: &PlacedInstr) -> Holder
    ensures { result ≡ second_holder (reverse earlier.now) point.now }
{
    let result = soonest_of_registers(earlier, point.row.reads.as_slice(), point.start);
    result.or_else(holder(earlier, Cause::References(point.row.memory), point.start))
}

/// What a result waits for until it is done.
pub(crate) fn third_holder(earlier: &[PlacedInstr], write: &Write) -> Holder
    ensures { result ≡ third_holder (reverse earlier.now) write.now }
{
    holder(
        earlier,
        Cause::Reads(write.reg),
        readers_wait(earlier, write.reg),
    )
}
