//! The 24 registers A0 to A7, B0 to B7 and X0 to X7, each by its index.

ghost use Rattle.std.specs.Prelude.{◌≡◌, ◌≤◌};
ghost use Rattle.s66_isa.specs.{same_reg, is_b0, has_reg};

use std::marker::Model;

/// How many registers there are: three banks of eight.
pub const REGISTER_COUNT: usize = 24;

/// A bank of eight registers.
#[derive(Clone, Copy, Default, PartialEq, Eq)]
pub enum Bank {
    A,
    B,
    #[default]
    X,
}

/// A register: its bank, and its digit 0 to 7. It is stored as its index, so that a look at a word of it works nothing out.
#[derive(Clone, Copy, Default, PartialEq, Eq)]
pub struct Reg {
    /// 0 to 23: A0 to A7, then B0 to B7, then X0 to X7.
    index: u8,
}

impl Model for Reg {
    ghost use Rattle.std.specs.Prelude.{◌<◌};
    ghost use Rattle.s66_isa.specs.Table.{Reg};
    ghost use Rattle.s66_isa.specs.Registers.{index_of, register_at};
    ghost use Rattle.s66_isa.specs.RegisterIndices.{register_at-index};

    ghost Value = { Reg };

    ghost view = { λ r. register_at r.index };

    ghost inverse = { λ r. record { index = index_of r } };

    ghost inverse_ok = { λ r h i. record { index = register_at-index r.index h i } };

    ghost invariant = { λ r. r.index < 24 };
}

impl Reg {
    ghost use Rattle.std.specs.Prelude.{◌<◌};
    ghost use Rattle.s66_isa.specs.{REGISTER_COUNT, index_of, register_at};

    /// The register of a bank and a digit.
    pub fn new(bank: Bank, digit: u8) -> Reg
        requires { digit ≤ 7 }
        ensures { result ≡ record { bank = bank; digit = digit } }
    {
        let first = match bank {
            Bank::A => 0,
            Bank::B => 8,
            Bank::X => 16,
        };
        Reg {
            index: first + digit,
        }
    }

    /// The register of an index.
    pub fn of_index(index: u8) -> Reg
        requires { index < REGISTER_COUNT }
        ensures { result ≡ register_at index }
    {
        Reg { index }
    }

    /// Its bank.
    pub fn bank(&self) -> Bank
        ensures { result ≡ self.now.bank }
    {
        match self.index / 8 {
            0 => Bank::A,
            1 => Bank::B,
            _ => Bank::X,
        }
    }

    /// Its digit.
    pub fn digit(&self) -> u8
        ensures value { result ≡ self.now.digit }
        ensures at_most { result ≤ 7 }
    {
        self.index % 8
    }

    /// Its index, 0 to 23: A0 to A7, then B0 to B7, then X0 to X7.
    pub fn index(&self) -> u8
        ensures value { result ≡ index_of self.now }
        ensures at_most { result ≤ 23 }
        ensures digit { self.now.digit ≤ 7 }
    {
        self.index
    }
}

/// Whether the two are one register.
pub fn is_same_register(a: Reg, b: Reg) -> bool
    ensures { result ≡ same_reg a b }
{
    a.index == b.index
}

/// Whether it is B0, which is always zero.
pub fn is_zero_register(register: Reg) -> bool
    ensures { result ≡ is_b0 register }
{
    is_same_register(register, Reg::new(Bank::B, 0))
}

/// Whether a register is among these; the time is that of their number.
pub fn has_register(registers: &[Reg], register: Reg) -> bool
    ensures { result ≡ has_reg register registers.now }
{
    for other in registers {
        if is_same_register(register, *other) {
            return true;
        }
    }
    false
}
