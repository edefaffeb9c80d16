//! What units of a kind have to do for some instructions.

use crate::units::longest_use;
use s66_checker::{Prefix, amounts, use_time};
use s66_isa::Kind;

/// What units of a kind have to do for some instructions, in minor cycles.
#[derive(Clone, Copy)]
pub struct Work {
    pub kind: Kind,
    /// How many units there are.
    pub copies: u32,
    /// For how long all of the instructions need one.
    pub total: u32,
    /// For how long one of them does at most.
    pub most: u32,
    /// For how long the units have work.
    pub time: u32,
}

impl Work {
    ghost use Rattle.std.specs.Prelude.{◌≡◌};
    ghost use Rattle.s66_reasons.specs.{work_of_load, AreLoaded};

    /// Of these, whose kind is that of the first.
    pub(crate) fn of(prefix: &Prefix, numbers: &[u8]) -> Work
        requires { AreLoaded prefix.now numbers.now }
        ensures { result ≡ work_of_load prefix.now.problem numbers.now }
    {
        let kind = prefix.row(numbers[0]).kind;
        Work {
            kind,
            copies: prefix.copies(kind),
            total: amounts(prefix, numbers),
            most: longest_use(prefix, numbers),
            time: use_time(prefix, kind, numbers),
        }
    }
}
