//! A lower bound as a value (`Leaf`): a whole order's total, a chain, a load, or parcels.

use arrayvec::ArrayVec;
use s66_isa::{BLOCK_LIMIT, Kind};

/// A lower bound of the total of every legal order that begins with a prefix. Values are in minor cycles.
#[derive(Drop)]
pub enum Leaf {
    /// The prefix is a whole order: its total.
    Whole {
        value: u32,
    },
    /// Instructions that wait for one another, by rising number: the critical path of what remains.
    Chain {
        numbers: ArrayVec<u8, BLOCK_LIMIT>,
        value: u32,
    },
    /// The work that remains for a kind of unit: a resource bound.
    Load {
        kind: Kind,
        value: u32,
    },
    /// The parcels that remain.
    Parcels {
        value: u32,
    },
}

impl Leaf {
    ghost use Rattle.std.specs.Prelude.{◌≡◌};
    ghost use Rattle.s66_bound.specs.{value_of};

    /// The bound, in minor cycles.
    pub fn value(&self) -> u32
        ensures { result ≡ value_of self.now }
    {
        match self {
            Leaf::Whole { value }
            | Leaf::Chain { value, .. }
            | Leaf::Load { value, .. }
            | Leaf::Parcels { value } => *value,
        }
    }
}
