//! Sets of registers, and which an instruction reads and writes, by its text.

use crate::line::line::Line;
use crate::line::operand::{ends_name, is_sign};
use crate::line::spelling::is_register;

/// The bit of each digit.
const BITS: [u8; 8] = [1, 2, 4, 8, 16, 32, 64, 128];

/// A set of registers.
#[derive(Clone, Copy, Default)]
pub(crate) struct Registers {
    a: u8,
    b: u8,
    x: u8,
}

fn bit(digit: u8) -> u8 {
    BITS.get(digit.saturating_sub(b'0') as usize)
        .copied()
        .unwrap_or(0)
}

impl Registers {
    /// The one with this letter and this digit.
    pub(crate) fn one(letter: u8, digit: u8) -> Registers {
        let none = Registers::default();
        match letter {
            b'A' => Registers {
                a: bit(digit),
                ..none
            },
            b'B' => Registers {
                b: bit(digit),
                ..none
            },
            b'X' => Registers {
                x: bit(digit),
                ..none
            },
            _ => none,
        }
    }

    /// The one with this name, if it is one.
    fn named(name: &[u8]) -> Registers {
        match name {
            [letter, digit] if is_register(name) => Registers::one(*letter, *digit),
            _ => Registers::default(),
        }
    }

    /// Those that an operand in upper case names.
    pub(crate) fn in_operand(operand: &[u8]) -> Registers {
        let mut registers = Registers::default();
        for name in operand.split(ends_name) {
            registers = registers.with(&Registers::named(name));
        }
        registers
    }

    pub(crate) fn is_empty(&self) -> bool {
        self.a == 0 && self.b == 0 && self.x == 0
    }

    pub(crate) fn with(&self, other: &Registers) -> Registers {
        Registers {
            a: self.a | other.a,
            b: self.b | other.b,
            x: self.x | other.x,
        }
    }

    pub(crate) fn without(&self, other: &Registers) -> Registers {
        Registers {
            a: self.a & !other.a,
            b: self.b & !other.b,
            x: self.x & !other.x,
        }
    }

    pub(crate) fn meets(&self, other: &Registers) -> bool {
        self.a & other.a != 0 || self.b & other.b != 0 || self.x & other.x != 0
    }

    fn has_x(&self) -> bool {
        self.x != 0
    }

    fn of_x(&self) -> Registers {
        Registers {
            x: self.x,
            ..Registers::default()
        }
    }

    fn of_b(&self) -> Registers {
        Registers {
            b: self.b,
            ..Registers::default()
        }
    }

    /// Without B0, which is always 0.
    fn without_zero(&self) -> Registers {
        Registers {
            b: self.b & 254,
            ..*self
        }
    }
}

/// What an instruction reads and writes.
#[derive(Clone, Copy)]
pub(crate) struct Access {
    reads: Registers,
    writes: Registers,
    /// Whether it loads or stores a word.
    touches: bool,
    stores: bool,
}

/// The registers in the operand of an accepted instruction.
fn named_in(operand: &[u8]) -> Registers {
    let mut registers = Registers::default();
    for name in operand.split(|byte| is_sign(byte) || matches!(*byte, b'*' | b'/' | b',')) {
        registers = registers.with(&Registers::named(name));
    }
    registers
}

/// Whether it reads the X register that it sets: a shift of it, or what is made of it since the operand names no other.
fn reads_its_own(first: u8, named: &Registers) -> bool {
    match first {
        b'L' | b'A' | b'N' | b'Z' | b'U' | b'P' => !named.has_x(),
        _ => false,
    }
}

impl Access {
    /// Of an accepted instruction.
    pub(crate) fn of(line: &Line) -> Access {
        match line.fields.operation {
            [b'S', letter, digit] => Access::of_set(*letter, *digit, line.fields.operand),
            [first, _, digit] => Access::of_x(*first, *digit, line.fields.operand),
            _ => Access::of_set(b' ', b'0', &[]),
        }
    }

    fn of_set(letter: u8, digit: u8, operand: &[u8]) -> Access {
        let named = named_in(operand);
        let set = Registers::one(letter, digit);
        let word = Registers::one(b'X', digit);
        let touches = letter == b'A' && digit != b'0';
        let stores = letter == b'A' && (digit == b'6' || digit == b'7');
        let reads = if stores { named.with(&word) } else { named };
        let writes = if touches && !stores {
            set.with(&word)
        } else {
            set
        };
        Access {
            reads: reads.without_zero(),
            writes: writes.without_zero(),
            touches,
            stores,
        }
    }

    fn of_x(first: u8, digit: u8, operand: &[u8]) -> Access {
        let named = named_in(operand);
        let set = Registers::one(b'X', digit);
        let own = if reads_its_own(first, &named) {
            set
        } else {
            Registers::default()
        };
        let read = named.with(&own);
        let (reads, writes) = if matches!(first, b'N' | b'Z' | b'U') {
            (read.of_x(), set.with(&named.of_b()))
        } else {
            (read, set)
        };
        Access {
            reads: reads.without_zero(),
            writes: writes.without_zero(),
            touches: false,
            stores: false,
        }
    }

    /// Whether the instruction after it depends on it.
    pub(crate) fn is_needed_by(&self, later: &Access) -> bool {
        self.writes.meets(&later.reads.with(&later.writes))
            || self.reads.meets(&later.writes)
            || self.touches && later.touches && (self.stores || later.stores)
    }
}
