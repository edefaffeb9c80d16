//! What dependence sees of an instruction: the registers that it reads and writes, each set in one word, and how it references memory.
//! Two conflict if one writes what the other reads or writes, or both reference memory and one stores.

use s66_isa::{Instr, Memory, Registers, is_memory_conflict};

/// What of an instruction its dependences rest on: the registers that it reads and those that it writes, each in one word, and
/// how it references memory.
#[derive(Clone, Copy)]
pub(crate) struct Effects {
    reads: Registers,
    results: Registers,
    memory: Memory,
}

/// No register, and no memory.
impl Default for Effects {
    fn default() -> Effects {
        Effects {
            reads: Registers::empty(),
            results: Registers::empty(),
            memory: Memory::None,
        }
    }
}

impl Effects {
    ghost use Rattle.std.specs.Prelude.{◌≡◌};
    ghost use Rattle.s66_time.specs.{AreEffects, effects_conflict};

    /// Those of an instruction.
    pub(crate) fn of(instr: &Instr) -> Effects
        ensures { AreEffects result instr.now }
    {
        Effects {
            reads: Registers::of(instr.reads().as_slice()),
            results: Registers::of(instr.results().as_slice()),
            memory: instr.memory(),
        }
    }

    /// Whether a later instruction must stay after this one.
    pub(crate) fn is_conflict(&self, later: &Effects) -> bool
        ensures { result ≡ effects_conflict self.now later.now }
    {
        self.results.meets(&later.reads)
            || self.reads.meets(&later.results)
            || self.results.meets(&later.results)
            || is_memory_conflict(self.memory, later.memory)
    }
}
