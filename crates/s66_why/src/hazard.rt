//! Why an instruction must stay after another, in the words of textbooks: RAW, WAR and WAW hazards by register or by memory (J. L.
//! Hennessy and D. A. Patterson, Computer Architecture: A Quantitative Approach); for `deps --text`.

ghost use Rattle.std.specs.Prelude.{◌≡◌, ◌++◌, OnOk, codes, flat_map, map, option_to_list};
ghost use Rattle.s66_isa.specs.Table.{Reg as RegOf};
ghost use Rattle.s66_why.specs.{access_name, accesses_of_memory, common, hazard_text, hazards, hazards_text, memory_hazards, place_name, Hazard as HazardOf, Register};

use crate::text::push_register_name;
use s66_isa::{Instr, Memory, Reg, has_register};
use std::alloc::AllocError;

/// What two instructions do in one place, the later one first.
#[derive(Clone, Copy)]
pub enum Access {
    /// RAW: the later one needs what the earlier one writes.
    ReadAfterWrite,
    /// WAR: the later one may not write before the earlier one has read.
    WriteAfterRead,
    /// WAW: what the later one writes must remain.
    WriteAfterWrite,
}

/// Where two instructions meet.
#[derive(Clone, Copy)]
pub enum Place {
    Register(Reg),
    /// Anywhere: addresses aren't told apart.
    Memory,
}

/// Why an instruction must stay after an earlier one.
#[derive(Clone, Copy, Drop)]
pub struct Hazard {
    pub place: Place,
    pub access: Access,
}

/// Appends a hazard for each register that is in both lists.
fn push_common(
    out: &mut Vec<Hazard>,
    access: Access,
    registers: &[Reg],
    others: &[Reg],
) -> Result<(), AllocError>
    ensures { OnOk result (out.new.items ≡ out.old.items ++
        map (λ (r : RegOf). record { place = Register r; access = access }) (common registers.now others.now)) }
{
    for register in registers {
        if has_register(others, *register) {
            out.push(Hazard {
                place: Place::Register(*register),
                access,
            })?;
        }
    }
    Ok(())
}

/// What two references to memory do, if they must keep their order.
fn access_of_memory(earlier: Memory, later: Memory) -> Option<Access>
    ensures { option_to_list result ≡ accesses_of_memory earlier later }
{
    match (earlier, later) {
        (Memory::Store, Memory::Load) => Some(Access::ReadAfterWrite),
        (Memory::Load, Memory::Store) => Some(Access::WriteAfterRead),
        (Memory::Store, Memory::Store) => Some(Access::WriteAfterWrite),
        _ => None,
    }
}

/// Appends a hazard if both reference memory and one of them stores.
fn push_memory_hazard(
    out: &mut Vec<Hazard>,
    earlier: &Instr,
    later: &Instr,
) -> Result<(), AllocError>
    ensures { OnOk result (out.new.items ≡ out.old.items ++ memory_hazards earlier.now later.now) }
{
    if let Some(access) = access_of_memory(earlier.memory(), later.memory()) {
        out.push(Hazard {
            place: Place::Memory,
            access,
        })?;
    }
    Ok(())
}

/// Appends all because of which one instruction must stay after another: nothing if the two may be exchanged. `Err` is out of memory.
pub fn push_hazards(out: &mut Vec<Hazard>, earlier: &Instr, later: &Instr) -> Result<(), AllocError>
    ensures { OnOk result (out.new.items ≡ out.old.items ++ hazards earlier.now later.now) }
{
    let read = earlier.reads();
    let written = earlier.results();
    let reads = later.reads();
    let writes = later.results();
    push_common(
        out,
        Access::ReadAfterWrite,
        written.as_slice(),
        reads.as_slice(),
    )?;
    push_common(
        out,
        Access::WriteAfterRead,
        read.as_slice(),
        writes.as_slice(),
    )?;
    push_common(
        out,
        Access::WriteAfterWrite,
        written.as_slice(),
        writes.as_slice(),
    )?;
    push_memory_hazard(out, earlier, later)
}

/// The name that textbooks have.
fn access_name(access: Access) -> &'static [u8]
    ensures { result.now ≡ access_name access }
{
    match access {
        Access::ReadAfterWrite => b"RAW",
        Access::WriteAfterRead => b"WAR",
        Access::WriteAfterWrite => b"WAW",
    }
}

/// The name of a place.
fn push_place_name(out: &mut Vec<u8>, place: Place) -> Result<(), AllocError>
    ensures { OnOk result (out.new.items ≡ out.old.items ++ place_name place) }
{
    match place {
        Place::Register(register) => push_register_name(out, register),
        Place::Memory => out.extend_from_slice(b"MEMORY"),
    }
}

/// A hazard in words.
fn push_hazard_text(out: &mut Vec<u8>, hazard: &Hazard) -> Result<(), AllocError>
    ensures { OnOk result (out.new.items ≡ out.old.items ++ hazard_text hazard.now) }
{
    push_place_name(out, hazard.place)?;
    out.extend_from_slice(b" ")?;
    out.extend_from_slice(access_name(hazard.access))
}

/// Hazards in words, each after a comma.
fn push_other_hazards(out: &mut Vec<u8>, hazards: &[Hazard]) -> Result<(), AllocError>
    ensures { OnOk result (out.new.items ≡ out.old.items ++
        flat_map (λ (other : HazardOf). codes ", " ++ hazard_text other) hazards.now) }
{
    for hazard in hazards {
        out.extend_from_slice(b", ")?;
        push_hazard_text(out, hazard)?;
    }
    Ok(())
}

/// Appends hazards in words, with a comma between two: `X6 RAW, MEMORY WAR`. `Err` is out of memory.
pub fn push_hazards_text(out: &mut Vec<u8>, hazards: &[Hazard]) -> Result<(), AllocError>
    ensures { OnOk result (out.new.items ≡ out.old.items ++ hazards_text hazards.now) }
{
    match hazards {
        [] => Ok(()),
        [first, others @ ..] => {
            push_hazard_text(out, first)?;
            push_other_hazards(out, others)
        }
    }
}
