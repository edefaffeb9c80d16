//! The row of an instruction: all that timing under a profile reads of it, looked up once and kept.

ghost use Rattle.std.specs.Prelude.{◌≡◌};
ghost use Rattle.s66_isa.specs.{row};

use crate::instr::{Instr, Kind, Memory};
use crate::profile::Profile;
use crate::reg::Reg;
use crate::write::{Write, writes_of};
use arrayvec::ArrayVec;
use std::marker::Model;

/// All that timing under a profile needs of an instruction, as the table has it.
#[derive(Drop)]
pub struct Row {
    pub kind: Kind,
    /// 1 or 2.
    pub parcels: u32,
    pub reads: ArrayVec<Reg, 4>,
    pub writes: ArrayVec<Write, 2>,
    /// How many minor cycles its unit works.
    pub hold: u32,
    pub memory: Memory,
}

impl Model for Row {
    ghost use Rattle.s66_isa.specs.Table.{Row};
    ghost use Rattle.s66_isa.specs.Rows.{IsInRange};

    ghost Value = { Row };

    ghost view = { λ r.
        record { kind = r.kind; parcels = r.parcels; reads = r.reads.items; writes = r.writes.items; hold = r.hold; memory = r.memory } };

    ghost invariant = { λ r. IsInRange
        (record { kind = r.kind; parcels = r.parcels; reads = r.reads.items; writes = r.writes.items; hold = r.hold; memory = r.memory }) };
}

impl Default for Row {
    /// A blank, as cheap as can be: a list makes one for each place that isn't taken.
    fn default() -> Row {
        Row {
            kind: Kind::Boolean,
            parcels: 1,
            reads: ArrayVec::new(),
            writes: ArrayVec::new(),
            hold: 1,
            memory: Memory::None,
        }
    }
}

impl Row {
    /// The row of an instruction.
    #[tactic(auto, unfolding(crate::specs::Table::row))]
    pub fn of(instr: &Instr, profile: &Profile) -> Row
        ensures { result ≡ row profile.now instr.now }
    {
        Row {
            kind: instr.kind(),
            parcels: instr.parcels(),
            reads: instr.reads(),
            writes: writes_of(instr, profile),
            hold: instr.hold(profile),
            memory: instr.memory(),
        }
    }

    /// The same row.
    pub fn duplicate(&self) -> Row
        ensures { result ≡ self.now }
    {
        let Ok(reads) = ArrayVec::try_from(self.reads.as_slice()) else {
            unreachable!()
        };
        let Ok(writes) = ArrayVec::try_from(self.writes.as_slice()) else {
            unreachable!()
        };
        Row {
            kind: self.kind,
            parcels: self.parcels,
            reads,
            writes,
            hold: self.hold,
            memory: self.memory,
        }
    }
}
