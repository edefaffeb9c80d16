//! A set of registers, as a word with a bit for each.

ghost use Rattle.std.specs.Prelude.{◌<◌, ◌^◌};

use crate::reg::Reg;

/// A set of registers in one word.
#[derive(Clone, Copy)]
pub struct Registers {
    /// The bit of a register's index is set if the register is there.
    bits: u32,
    ghost few: { bits < 2 ^ 24 },
}

impl Registers {
    ghost use Rattle.std.specs.Prelude.{◌≡◌, ◌||◌, [], ◌∷◌, IfSome, IfNone};
    ghost use Rattle.s66_isa.specs.{some_of, same_reg, has_reg, registers_in};
    ghost use Rattle.s66_isa.specs.Table.{Reg};

    /// No register.
    pub fn empty() -> Registers
        ensures { registers_in result ≡ [] }
    {
        Registers { bits: 0 }
    }

    /// These registers; the time is that of their number.
    pub fn of(registers: &[Reg]) -> Registers
        ensures { (r : Reg) → has_reg r (registers_in result) ≡ has_reg r registers.now }
    {
        let mut set = Registers::empty();
        for register in registers {
            set = set.with(*register);
        }
        set
    }

    /// The registers of this set, and one more.
    pub fn with(self, register: Reg) -> Registers
        ensures { (r : Reg) → has_reg r (registers_in result) ≡ (same_reg r register || has_reg r (registers_in self)) }
    {
        Registers {
            bits: self.bits | (1 << register.index()),
        }
    }

    /// Takes the register of the lowest index out, if there is one.
    pub fn pop_first(&mut self) -> Option<Reg>
        ensures some { IfSome result (λ r. registers_in self.old ≡ r ∷ registers_in self.new) }
        ensures none { IfNone result (registers_in self.old ≡ []) }
    {
        if self.bits == 0 {
            return None;
        }
        let lowest = self.bits.trailing_zeros();
        // n & (n - 1) is n without the lowest bit that is set
        self.bits &= self.bits - 1;
        Some(Reg::of_index(lowest as u8))
    }

    /// Whether a register is there.
    pub fn has(&self, register: Reg) -> bool
        ensures { result ≡ has_reg register (registers_in self.now) }
    {
        (self.bits >> register.index()) & 1 == 1
    }

    /// Whether some register is in both sets.
    pub fn meets(&self, other: &Registers) -> bool
        ensures { result ≡ some_of (λ r. has_reg r (registers_in other.now)) (registers_in self.now) }
    {
        self.bits & other.bits != 0
    }
}
