//! What an instruction waits for, and which one it is waited for of (`Cause`, `Holder`).

ghost use Rattle.std.specs.Prelude.{◌≡◌};
ghost use Rattle.s66_why.specs.{lower, sooner, holder_or_else, nobody};

use s66_isa::{Kind, Memory, Reg};

/// What an earlier instruction has still to do for which another waits.
#[derive(Clone, Copy)]
pub enum Cause {
    /// It writes this register, which the other reads or writes too.
    Writes(Reg),
    /// It takes a unit of this kind, and the other needs one.
    Takes(Kind),
    /// It references memory, as the other does, whose reference is of this sort; one of the two stores.
    References(Memory),
    /// It reads this register, which the other writes.
    Reads(Reg),
    /// Its unit or one of its results is what the end of the order waits for.
    Ends,
}

/// What is waited for, and the number of the instruction that it is of; 0 is none.
#[derive(Clone, Copy)]
pub struct Holder {
    pub cause: Cause,
    pub number: u8,
}

/// The lower of two numbers, of which 0 is none.
pub(crate) fn lower(number: u8, other: u8) -> u8
    ensures { result ≡ lower number other }
{
    if other == 0 {
        number
    } else {
        number.min(other)
    }
}

impl Holder {
    /// No instruction.
    pub fn nobody() -> Holder
        ensures { result ≡ nobody }
    {
        Holder {
            cause: Cause::Ends,
            number: 0,
        }
    }

    /// This one, unless the other has a lower number, or this is nobody.
    pub fn sooner(self, other: Holder) -> Holder
        ensures { result ≡ sooner self other }
    {
        if other.number != 0 && (self.number == 0 || other.number < self.number) {
            other
        } else {
            self
        }
    }

    /// This one, or the other if this is nobody.
    pub fn or_else(self, other: Holder) -> Holder
        ensures { result ≡ holder_or_else self other }
    {
        if self.number == 0 { other } else { self }
    }
}
