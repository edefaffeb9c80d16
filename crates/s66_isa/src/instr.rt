//! An instruction by its octal code and its digits i, j and k, and what the instruction table says of it: its kind of functional unit,
//! parcels, hold, the registers that it reads and writes, and whether it loads or stores.
//!
//! The table is that of the CDC 6400/6500/6600 Computer Systems Reference Manual, publication 60100000. What timing reads of it in one
//! piece is `row.rt`; how an instruction is spelled is `s66_line`.

ghost use Rattle.std.specs.Prelude.{◌≡◌, ◌+◌, ◌<◌, ◌≤◌};
ghost use Rattle.arrayvec.specs.ArrayVec.{array_vec_len};
ghost use Rattle.s66_isa.specs.{KIND_COUNT, kind_name, insert, kind_number, same_kind, memory_pair, a_reg, b_reg, x_reg, idle_instr};

use crate::op::Op;
use crate::profile::Profile;
use crate::reg::{Bank, Reg, has_register, is_zero_register};
use crate::write::writes_of;
use arrayvec::ArrayVec;
use std::marker::Model;

/// A kind of functional unit. The tenth unit of the machine, Branch, is not used.
#[derive(Clone, Copy)]
pub enum Kind {
    Boolean,
    Shift,
    Add,
    LongAdd,
    Multiply,
    Divide,
    Increment,
}

/// How many kinds there are.
pub const KIND_COUNT: usize = 7;

/// All kinds, in the order in which they are counted.
pub const KINDS: [Kind; KIND_COUNT] = [
    Kind::Boolean,
    Kind::Shift,
    Kind::Add,
    Kind::LongAdd,
    Kind::Multiply,
    Kind::Divide,
    Kind::Increment,
];

/// How an instruction references memory.
#[derive(Clone, Copy)]
pub enum Memory {
    None,
    Load,
    Store,
}

/// Which registers the operand of an operation names, by the digits i, j and k of the instruction.
#[derive(Clone, Copy)]
pub enum Operands {
    Constant,
    Xi,
    Xj,
    Xk,
    Aj,
    Bj,
    XjXk,
    BjXk,
    XjBk,
    AjBk,
    BjBk,
}

/// The name of a kind in text, in upper case.
pub fn kind_name(kind: Kind) -> &'static [u8]
    ensures { result.now ≡ kind_name kind }
{
    match kind {
        Kind::Boolean => b"BOOLEAN",
        Kind::Shift => b"SHIFT",
        Kind::Add => b"ADD",
        Kind::LongAdd => b"LONGADD",
        Kind::Multiply => b"MULTIPLY",
        Kind::Divide => b"DIVIDE",
        Kind::Increment => b"INCREMENT",
    }
}

/// The number of a kind, from 0.
pub fn kind_number(kind: Kind) -> usize
    ensures value { result ≡ kind_number kind }
    ensures within { result < KIND_COUNT }
{
    match kind {
        Kind::Boolean => 0,
        Kind::Shift => 1,
        Kind::Add => 2,
        Kind::LongAdd => 3,
        Kind::Multiply => 4,
        Kind::Divide => 5,
        Kind::Increment => 6,
    }
}

/// Whether the two are one kind.
pub fn is_same_kind(a: Kind, b: Kind) -> bool
    ensures { result ≡ same_kind a b }
{
    a == b
}

/// Whether two references to memory must keep their order: both reference it, and one of them is a store.
pub fn is_memory_conflict(a: Memory, b: Memory) -> bool
    ensures { result ≡ memory_pair a b }
{
    match (a, b) {
        (Memory::None, _) | (_, Memory::None) => false,
        (Memory::Load, Memory::Load) => false,
        _ => true,
    }
}

/// An instruction: its operation and its octal digits i, j and k, each 0 to 7.
///
/// What each operation reads, writes and uses is the table of instructions of the CDC 6400/6500/6600 Computer Systems Reference
/// Manual, publication 60100000. The value of a constant is not kept, and a digit that the form lacks is 0 in what is read from a
/// source, so there two instructions are equal if operation and registers agree.
#[derive(Clone, Copy, PartialEq, Eq)]
pub struct Instr {
    op: Op,
    i: u8,
    j: u8,
    k: u8,
}

impl Model for Instr {
    ghost use Rattle.s66_isa.specs.Table.{Instr, IsDigit};

    ghost Value = { Instr };

    ghost view = { λ n. record { op = n.op; i = n.i; j = n.j; k = n.k } };

    ghost inverse = { λ n. record { op = n.op; i = n.i; j = n.j; k = n.k } };

    ghost invariant = { λ n. IsDigit n.i × IsDigit n.j × IsDigit n.k };
}

/// `SB0 B0+B0`, which reads and writes nothing.
impl Default for Instr {
    fn default() -> Instr
        ensures { result ≡ idle_instr }
    {
        Instr::new(Op::new(0o66), 0, 0, 0)
    }
}

impl Instr {
    ghost use Rattle.std.specs.Prelude.{option_to_list};
    ghost use Rattle.s66_isa.specs.{greatest, kind_of, parcels_of, memory_of, shape_of, reads_of, hold_of, held_registers, loaded_registers, results_of, writes_of};

    /// The instruction of an operation and its octal digits.
    pub fn new(op: Op, i: u8, j: u8, k: u8) -> Instr
        requires i { i ≤ 7 }
        requires j { j ≤ 7 }
        requires k { k ≤ 7 }
        ensures { result ≡ record { op = op; i = i; j = j; k = k } }
    {
        Instr { op, i, j, k }
    }

    /// Its operation.
    pub fn op(&self) -> Op
        ensures { result ≡ self.now.op }
    {
        self.op
    }

    /// Its first octal digit, which most operations take as the register that they write.
    pub fn i(&self) -> u8
        ensures value { result ≡ self.now.i }
        ensures at_most { result ≤ 7 }
    {
        self.i
    }

    /// Its second octal digit.
    pub fn j(&self) -> u8
        ensures value { result ≡ self.now.j }
        ensures at_most { result ≤ 7 }
    {
        self.j
    }

    /// Its third octal digit.
    pub fn k(&self) -> u8
        ensures value { result ≡ self.now.k }
        ensures at_most { result ≤ 7 }
    {
        self.k
    }

    /// The kind of unit that executes it.
    pub fn kind(&self) -> Kind
        ensures { result ≡ kind_of self.now.op.code }
    {
        match self.op.code() {
            0..0o20 => Kind::Boolean,
            0o20..0o30 | 0o43 => Kind::Shift,
            0o30..0o36 => Kind::Add,
            0o36..0o40 => Kind::LongAdd,
            0o40..0o43 => Kind::Multiply,
            0o44..0o50 => Kind::Divide,
            _ => Kind::Increment,
        }
    }

    /// How many parcels of 15 bits it takes: 2 if it has a constant of 18 bits, else 1.
    pub fn parcels(&self) -> u32
        ensures value { result ≡ parcels_of self.now.op.code }
        ensures at_least { 1 ≤ result }
        ensures at_most { result ≤ 2 }
    {
        if self.op.code() >= 0o50 && self.op.code() % 8 < 3 {
            2
        } else {
            1
        }
    }

    /// Whether it loads, stores, or leaves memory alone: `SA1` to `SA5` load, `SA6` and `SA7` store.
    pub fn memory(&self) -> Memory
        ensures { result ≡ memory_of self.now }
    {
        if self.op.code() < 0o50 || self.op.code() >= 0o60 || self.i == 0 {
            Memory::None
        } else if self.i < 6 {
            Memory::Load
        } else {
            Memory::Store
        }
    }

    /// Which registers its operand names.
    fn operands(&self) -> Operands
        ensures { result ≡ shape_of self.now.op.code }
    {
        match self.op.code() {
            0o10 => Operands::Xj,
            0o14 | 0o47 | 0o24..0o27 => Operands::Xk,
            0..0o20 => Operands::XjXk,
            0o20 | 0o21 => Operands::Xi,
            0o22 | 0o23 | 0o27 => Operands::BjXk,
            0o43 => Operands::Constant,
            0o30..0o50 => Operands::XjXk,
            _ => match self.op.code() % 8 {
                0 => Operands::Aj,
                1 => Operands::Bj,
                2 => Operands::Xj,
                3 => Operands::XjBk,
                4 | 5 => Operands::AjBk,
                _ => Operands::BjBk,
            },
        }
    }

    /// The registers that it reads, each once and B0 never; a store also reads what it stores.
    pub fn reads(&self) -> ArrayVec<Reg, 4>
        ensures { result.items ≡ reads_of self.now }
    {
        let mut registers = ArrayVec::new();
        match self.operands() {
            Operands::Constant => {}
            Operands::Xi => join(&mut registers, x(self.i)),
            Operands::Xj => join(&mut registers, x(self.j)),
            Operands::Xk => join(&mut registers, x(self.k)),
            Operands::Aj => join(&mut registers, a(self.j)),
            Operands::Bj => join(&mut registers, b(self.j)),
            Operands::XjXk => {
                join(&mut registers, x(self.j));
                join(&mut registers, x(self.k));
            }
            Operands::BjXk => {
                join(&mut registers, b(self.j));
                join(&mut registers, x(self.k));
            }
            Operands::XjBk => {
                join(&mut registers, x(self.j));
                join(&mut registers, b(self.k));
            }
            Operands::AjBk => {
                join(&mut registers, a(self.j));
                join(&mut registers, b(self.k));
            }
            Operands::BjBk => {
                join(&mut registers, b(self.j));
                join(&mut registers, b(self.k));
            }
        }
        if let Memory::Store = self.memory() {
            join(&mut registers, x(self.i));
        }
        registers
    }

    /// How many minor cycles of 100 ns its unit works.
    pub fn hold(&self, profile: &Profile) -> u32
        ensures value { result ≡ hold_of profile.now self.now.op.code }
        ensures at_least { 1 ≤ result }
        ensures at_most { result ≤ 100 }
    {
        match self.op.code() {
            0..0o20 => profile.boolean,
            0o24 | 0o25 => profile.normalise,
            0o20..0o30 | 0o43 => profile.shift,
            0o30..0o36 => profile.add,
            0o36..0o40 => profile.longadd,
            0o40..0o43 => profile.multiply,
            0o47 => profile.population,
            0o44..0o50 => profile.divide,
            _ => profile.increment,
        }
    }

    /// The results that its unit holds: all but the X result of a load, B0 never.
    pub fn held_registers(&self) -> ArrayVec<Reg, 2>
        ensures { result.items ≡ held_registers self.now }
    {
        let mut registers = ArrayVec::new();
        match self.op.code() {
            0..0o50 => {
                registers.push(x(self.i));
                if self.op.code() >= 0o24 && self.op.code() < 0o27 && self.j != 0 {
                    registers.push(b(self.j));
                }
            }
            0o50..0o60 => registers.push(a(self.i)),
            0o60..0o70 => {
                if self.i != 0 {
                    registers.push(b(self.i));
                }
            }
            _ => registers.push(x(self.i)),
        }
        registers
    }

    /// The X register that a load fetches.
    pub fn loaded_register(&self) -> Option<Reg>
        ensures { option_to_list result ≡ loaded_registers (memory_of self.now) self.now }
    {
        match self.memory() {
            Memory::Load => Some(x(self.i)),
            Memory::None | Memory::Store => None,
        }
    }

    /// The registers that it writes: B0 is never among them.
    pub fn results(&self) -> ArrayVec<Reg, 2>
        ensures { result.items ≡ results_of self.now }
    {
        let mut registers = self.held_registers();
        if let Some(register) = self.loaded_register() {
            registers.push(register);
        }
        registers
    }

    /// The registers that it writes, each with its latency in minor cycles: its hold, but the time of a load for the X
    /// result of a load. B0 is never among them.
    pub fn writes(&self, profile: &Profile) -> ArrayVec<(Reg, u32), 2>
        ensures value { result.items ≡ writes_of profile.now self.now }
        ensures at_most { greatest (λ w. w.1) result.items ≤ 100 }
    {
        let mut pairs = ArrayVec::new();
        for write in writes_of(self, profile).as_slice() {
            pairs.push((write.reg, write.latency));
        }
        pairs
    }
}

fn x(digit: u8) -> Reg
    requires { digit ≤ 7 }
    ensures { result ≡ x_reg digit }
{
    Reg::new(Bank::X, digit)
}

fn a(digit: u8) -> Reg
    requires { digit ≤ 7 }
    ensures { result ≡ a_reg digit }
{
    Reg::new(Bank::A, digit)
}

fn b(digit: u8) -> Reg
    requires { digit ≤ 7 }
    ensures { result ≡ b_reg digit }
{
    Reg::new(Bank::B, digit)
}

/// A register joins a set: B0 never does, and no register is there twice.
fn join(registers: &mut ArrayVec<Reg, 4>, register: Reg)
    requires { array_vec_len registers.old < 4 }
    ensures items { registers.new.items ≡ insert registers.old.items register }
    ensures len { array_vec_len registers.new ≤ array_vec_len registers.old + 1 }
{
    if !is_zero_register(register) && !has_register(registers.as_slice(), register) {
        registers.push(register);
    }
}
