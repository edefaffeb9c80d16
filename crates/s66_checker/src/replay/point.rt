//! An instruction at its place in an order, with its times.

ghost use Rattle.std.specs.Prelude.{◌≡◌, ◌+◌, if◌then◌else◌, ◌<◌, ◌^◌};
ghost use Rattle.s66_isa.specs.{memory_pair};
ghost use Rattle.s66_model.specs.{busy_at, done_at, end_of, rest_busy, Point};

use crate::replay::result::{KeptResult, last_time};
use arrayvec::ArrayVec;
use s66_isa::{Kind, Memory, Reg, Row, is_memory_conflict, is_same_kind, is_same_register};
use std::marker::Model;

/// An instruction at its place in an order: its number, its row, its parcel from 0, and its times in minor cycles.
#[derive(Drop)]
pub struct KeptPoint {
    pub number: u8,
    pub row: Row,
    pub parcel: u32,
    pub issue: u32,
    pub start: u32,
    pub free: u32,
    pub(crate) results: ArrayVec<KeptResult, 2>,
}

impl Model for KeptPoint {
    ghost Value = { Point };

    ghost view = { λ p.
        record { number = p.number; row = p.row; parcel = p.parcel; issue = p.issue; start = p.start; results = p.results.items; free = p.free } };

    ghost invariant = { λ p. p.start + 1 < 2 ^ 32 };
}

impl Default for KeptPoint {
    fn default() -> KeptPoint {
        KeptPoint {
            number: 0,
            row: Row::default(),
            parcel: 0,
            issue: 0,
            start: 0,
            free: 1,
            results: ArrayVec::new(),
        }
    }
}

impl KeptPoint {
    /// How many parcels it has.
    pub fn parcels(&self) -> u32
        ensures { result ≡ self.now.row.parcels }
    {
        self.row.parcels
    }

    /// The kind of its unit.
    pub fn kind(&self) -> Kind
        ensures { result ≡ self.now.row.kind }
    {
        self.row.kind
    }

    /// The registers that it reads.
    pub fn reads(&self) -> &[Reg]
        ensures { result.now ≡ self.now.row.reads }
    {
        self.row.reads.as_slice()
    }

    /// Its results.
    pub(crate) fn results(&self) -> &[KeptResult]
        ensures { result.now ≡ self.now.results }
    {
        self.results.as_slice()
    }

    /// When its result in a register is done, 0 if it has none.
    pub fn done_at(&self, register: Reg) -> u32
        ensures { result ≡ done_at self.now register }
    {
        let mut last = 0u32;
        for done in self.results.as_slice() {
            if is_same_register(done.reg, register) {
                last = last.max(done.time);
            }
        }
        last
    }

    /// When its unit is free.
    pub fn free(&self) -> u32
        ensures { result ≡ self.now.free }
    {
        self.free
    }

    /// Whether it holds a unit of the kind beyond a time.
    pub fn is_busy(&self, kind: Kind, time: u32) -> bool
        ensures { result ≡ busy_at kind time self.now }
    {
        is_same_kind(self.row.kind, kind) && time < self.free
    }

    /// For how long a unit of the kind works on it after a time.
    pub fn rest_busy(&self, kind: Kind, time: u32) -> u32
        ensures { result ≡ rest_busy kind time self.now }
    {
        if is_same_kind(self.row.kind, kind) {
            self.free.saturating_sub(time)
        } else {
            0
        }
    }

    /// When its unit is free and all its results are done.
    pub fn end(&self) -> u32
        ensures { result ≡ end_of self.now }
    {
        self.free.max(last_time(self.results.as_slice()))
    }

    /// The minor cycle after its start.
    pub fn after_start(&self) -> u32
        ensures { result ≡ self.now.start + 1 }
    {
        self.start + 1
    }

    /// From when on a later reference to memory of this kind may start, as far as this one is a reference too.
    pub fn memory_wait(&self, memory: Memory) -> u32
        ensures { result ≡ if memory_pair self.now.row.memory memory then self.now.start + 1 else 0 }
    {
        if is_memory_conflict(self.row.memory, memory) {
            self.after_start()
        } else {
            0
        }
    }
}
