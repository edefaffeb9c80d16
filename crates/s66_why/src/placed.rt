//! An instruction at its place in a timed order, with all its times.

ghost use Rattle.std.specs.Prelude.{◌≡◌, ◌+◌, ◌≤◌, ◌==◌, if◌then◌else◌, max, reverse};
ghost use Rattle.s66_isa.specs.{same_reg};
ghost use Rattle.s66_model.specs.{done_at, end_of, readers_wait, writes_reg};
ghost use Rattle.s66_time.specs.{TOTAL_LIMIT};
ghost use Rattle.s66_why.specs.{lets_go};

use crate::cause::Cause;
use arrayvec::ArrayVec;
use s66_isa::{Reg, Registers, Row, is_memory_conflict, is_same_kind, is_same_register};
use s66_time::ResultAt;
use std::marker::Model;

/// The minor cycle in which a result is done, if it is in this register; 0 if it is in another.
fn time_in(made: &ResultAt, register: Reg) -> u32
    ensures { result ≡ if same_reg made.now.reg register then made.now.time else 0 }
{
    if is_same_register(made.reg, register) {
        made.time
    } else {
        0
    }
}

/// An instruction at its place in a timed order: its parcel from 0, and its times in minor cycles.
#[derive(Drop)]
pub struct PlacedInstr {
    pub number: u8,
    pub row: Row,
    pub parcel: u32,
    pub issue: u32,
    pub start: u32,
    pub results: ArrayVec<ResultAt, 2>,
    pub free: u32,
    /// When the last result is done; 0 if there is none.
    pub last: u32,
    /// The registers that it reads.
    pub reads: Registers,
}

impl Model for PlacedInstr {
    ghost use Rattle.s66_model.specs.{Point};
    ghost use Rattle.s66_why.specs.KeptPoints.{IsKeptPoint};

    ghost Value = { Point };

    ghost view = { λ p.
        record { number = p.number; row = p.row; parcel = p.parcel; issue = p.issue; start = p.start; results = p.results.items; free = p.free } };

    ghost invariant = { λ p. IsKeptPoint p.row p.parcel p.issue p.start p.results.items p.last p.reads };
}

impl Default for PlacedInstr {
    /// A blank: a list makes one for each place that isn't taken.
    fn default() -> PlacedInstr {
        let row = Row::default();
        let reads = Registers::of(row.reads.as_slice());
        PlacedInstr {
            number: 0,
            row,
            parcel: 0,
            issue: 0,
            start: 0,
            results: ArrayVec::new(),
            free: 0,
            last: 0,
            reads,
        }
    }
}

impl PlacedInstr {
    /// When its result in a register is done; 0 if it has none.
    pub fn done_at(&self, register: Reg) -> u32
        ensures { result ≡ done_at self.now register }
    {
        let mut done = 0u32;
        for made in self.results.as_slice() {
            done = done.max(time_in(made, register));
        }
        done
    }

    /// Whether it has a result in a register.
    pub fn writes(&self, register: Reg) -> bool
        ensures { result ≡ writes_reg register self.now }
    {
        for made in self.results.as_slice() {
            if is_same_register(made.reg, register) {
                return true;
            }
        }
        false
    }

    /// When its unit is free and its results are done.
    pub fn end(&self) -> u32
        ensures { result ≡ end_of self.now }
    {
        self.free.max(self.last)
    }

    /// Whether its result in a register is done then. Most are done before, which the last one shows.
    fn is_done_at(&self, register: Reg, time: u32) -> bool
        ensures { result ≡ (done_at self.now register == time) }
    {
        time <= self.last && self.done_at(register) == time
    }

    /// Whether another no longer waits for it from this time on.
    pub fn lets_go(&self, cause: &Cause, time: u32) -> bool
        ensures { result ≡ lets_go cause.now time self.now }
    {
        match cause {
            Cause::Writes(register) => self.is_done_at(*register, time),
            Cause::Takes(kind) => self.free == time && is_same_kind(self.row.kind, *kind),
            Cause::References(memory) => {
                self.start + 1 == time && is_memory_conflict(self.row.memory, *memory)
            }
            Cause::Reads(register) => { self.start + 1 == time && self.reads.has(*register) }
            Cause::Ends => self.end() == time,
        }
    }
}

/// One minor cycle after the last start of a register's readers; 0 if there is none.
pub(crate) fn readers_wait(earlier: &[PlacedInstr], register: Reg) -> u32
    ensures value { result ≡ readers_wait (reverse earlier.now) register }
    ensures at_most { result ≤ TOTAL_LIMIT + 1 }
{
    let mut wait = 0u32;
    for point in earlier {
        if point.reads.has(register) {
            wait = wait.max(point.start + 1);
        }
    }
    wait
}
