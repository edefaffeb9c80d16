//! The words of a clock that aren't of registers or units: memory references, the next parcel and slot, the total, and the set of what
//! is pushed.

ghost use Rattle.std.specs.Prelude.{ℕ, [], ◌==◌, ◌||◌, ◌≡◌, ◌+◌, ◌≤◌, if◌then◌else◌, max};
ghost use Rattle.s66_isa.specs.{greatest, has, touches, stores, numbers_in, BLOCK_LIMIT};
ghost use Rattle.s66_model.specs.{ResultAt as ResultOf};
ghost use Rattle.s66_time.specs.{TOTAL_LIMIT};

use crate::tick::Tick;
use s66_isa::{Memory, Row, Set};

/// What a clock stores in one word each.
#[derive(Clone, Copy, Default, Drop)]
pub(crate) struct Progress {
    /// One minor cycle after the last start of a reference to memory; 0 if there is none.
    pub(crate) refs: u32,
    /// One minor cycle after the last start of a store; 0 if there is none.
    pub(crate) stores: u32,
    /// The parcel after those of the last instruction.
    pub(crate) parcel: u32,
    /// The first slot after the last issue.
    pub(crate) next: u32,
    /// When all units are free and all results done.
    pub(crate) total: u32,
    /// The numbers that are pushed.
    pub(crate) pushed: Set,
}

impl Progress {
    /// Before the first push.
    pub(crate) fn new() -> Progress
        ensures words { (result.refs ≡ 0) × (result.stores ≡ 0) × (result.parcel ≡ 0) × (result.next ≡ 0) ×
            (result.total ≡ 0) }
        ensures pushed { numbers_in result.pushed ≡ [] }
    {
        Progress {
            refs: 0,
            stores: 0,
            parcel: 0,
            next: 0,
            total: 0,
            pushed: Set::empty(),
        }
    }

    /// The progress after one more instruction, with its times.
    pub(crate) fn after(&self, number: u8, row: &Row, tick: &Tick) -> Progress
        requires number { (1 ≤ number) × (number ≤ BLOCK_LIMIT) }
        requires early { (tick.now.issue ≤ TOTAL_LIMIT + 3) × (tick.now.parcel ≤ TOTAL_LIMIT + 3) ×
            (tick.now.start ≤ TOTAL_LIMIT + 3) }
        ensures refs { result.refs ≡ max self.now.refs (if touches row.now.memory then tick.now.start + 1 else 0) }
        ensures stores { result.stores ≡ max self.now.stores (if stores row.now.memory then tick.now.start + 1 else 0) }
        ensures parcel { result.parcel ≡ tick.now.parcel + row.now.parcels }
        ensures next { result.next ≡ tick.now.issue + row.now.parcels }
        ensures total { result.total ≡
            max self.now.total (max tick.now.free (greatest (λ (d : ResultOf). d.time) tick.now.results.items)) }
        ensures pushed { (m : ℕ) → has m (numbers_in result.pushed) ≡
            (m == number || has m (numbers_in self.now.pushed)) }
    {
        let started = tick.start + 1;
        let (references, stored) = match row.memory {
            Memory::None => (0, 0),
            Memory::Load => (started, 0),
            Memory::Store => (started, started),
        };
        Progress {
            refs: self.refs.max(references),
            stores: self.stores.max(stored),
            parcel: tick.parcel + row.parcels,
            next: tick.issue + row.parcels,
            total: self.total.max(tick.end()),
            pushed: self.pushed.with(number),
        }
    }
}
