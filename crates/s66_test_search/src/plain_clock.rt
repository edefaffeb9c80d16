//! The plain form of timing: a push works out an instruction's times from all earlier points, by the three orders of conflict of
//! Thornton's Design of a Computer. All times are in minor cycles.

use arrayvec::ArrayVec;
use s66_isa::{
    Instr, Kind, Memory, Profile, Reg, has_register, is_memory_conflict, is_same_register,
    writes_of,
};
use std::process::Abort;

/// A result of an instruction.
#[derive(Default, Drop)]
struct PlainResult {
    register: Reg,
    /// When it is done.
    done: u32,
    /// Whether the unit holds it.
    is_held: bool,
}

/// An instruction at its place in an order.
#[derive(Drop)]
struct PlainPoint {
    number: u8,
    instr: Instr,
    /// The parcel in which it begins.
    parcel: u32,
    issue: u32,
    start: u32,
    results: ArrayVec<PlainResult, 2>,
    /// When its unit is free.
    free: u32,
}

/// The points of a beginning, the first instruction's first.
#[derive(Drop)]
pub(crate) struct PlainClock {
    profile: Profile,
    points: Vec<PlainPoint>,
}

impl PlainPoint {
    /// When its unit is free and its results are done.
    fn end(&self) -> u32 {
        let mut end = self.free;
        for result in &self.results {
            end = end.max(result.done);
        }
        end
    }

    /// How long it holds a unit of the kind beyond a time.
    fn holds(&self, kind: Kind, time: u32) -> u32 {
        if self.instr.kind() == kind {
            self.free.saturating_sub(time)
        } else {
            0
        }
    }

    /// When its result in a register is done; 0 if it has none.
    fn done_at(&self, register: Reg) -> u32 {
        for result in &self.results {
            if is_same_register(result.register, register) {
                return result.done;
            }
        }
        0
    }
}

/// When a unit is free that starts then: one minor cycle after the last result that it holds, or after its work if nothing is
/// written.
fn free_after(start: u32, hold: u32, results: &[PlainResult]) -> u32 {
    if results.is_empty() {
        return start.saturating_add(hold).saturating_add(1);
    }
    let mut last = 0u32;
    for result in results {
        if result.is_held {
            last = last.max(result.done);
        }
    }
    last.saturating_add(1)
}

impl PlainClock {
    /// Before the first push.
    pub(crate) fn new<R: AllocGlobal>(rt: &R, profile: &Profile) -> PlainClock {
        PlainClock {
            profile: *profile,
            points: Vec::new(rt.alloc()),
        }
    }

    /// The parcel in which an instruction begins that comes next, and when it can issue, but for conflicts: a minor cycle for each
    /// parcel. Two parcels are in one word of four.
    fn slot(&self, instr: &Instr) -> (u32, u32) {
        let Some(last) = self.points.last() else {
            return (0, 0);
        };
        let parcels = last.instr.parcels();
        let is_split = instr.parcels() == 2 && last.parcel.saturating_add(parcels) % 4 == 3;
        let gap = parcels.saturating_add(is_split as u32);
        (
            last.parcel.saturating_add(gap),
            last.issue.saturating_add(gap),
        )
    }

    /// First order: a unit is free, and no register that it writes is still to be written.
    fn can_issue(&self, instr: &Instr, time: u32) -> bool {
        for register in instr.results().as_slice() {
            if self.done_of(*register) > time {
                return false;
            }
        }
        self.busy_units(instr.kind(), time) < self.profile.copies(instr.kind())
    }

    /// How many units of a kind are busy beyond a time.
    fn busy_units(&self, kind: Kind, time: u32) -> u32 {
        let mut units = 0u32;
        for point in &self.points {
            if point.holds(kind, time) > 0 {
                units = units.saturating_add(1);
            }
        }
        units
    }

    /// The first minor cycle from the slot on in which an instruction can issue: `total` later, everything is free and done.
    fn issue(&self, instr: &Instr, slot: u32) -> u32 {
        let total = self.total();
        for wait in 0..total {
            let time = slot.saturating_add(wait);
            if self.can_issue(instr, time) {
                return time;
            }
        }
        slot.saturating_add(total)
    }

    /// From when on a reference to memory may start.
    fn memory_wait(&self, memory: Memory) -> u32 {
        let mut wait = 0u32;
        for point in &self.points {
            if is_memory_conflict(point.instr.memory(), memory) {
                wait = wait.max(point.start.saturating_add(1));
            }
        }
        wait
    }

    /// Second order: the unit waits for its operands, and a reference to memory for the earlier ones that it must come after.
    fn start(&self, instr: &Instr, issue: u32) -> u32 {
        let mut start = issue.max(self.memory_wait(instr.memory()));
        for register in instr.reads().as_slice() {
            start = start.max(self.done_of(*register));
        }
        start
    }

    /// From when on a register may be written: all its earlier readers have started.
    fn readers_wait(&self, register: Reg) -> u32 {
        let mut wait = 0u32;
        for point in &self.points {
            if has_register(point.instr.reads().as_slice(), register) {
                wait = wait.max(point.start.saturating_add(1));
            }
        }
        wait
    }

    /// Third order: a result is held until all earlier readers of its register have started.
    fn results(&self, instr: &Instr, start: u32) -> ArrayVec<PlainResult, 2> {
        let mut results = ArrayVec::new();
        for write in writes_of(instr, &self.profile).as_slice() {
            let done = start.saturating_add(write.latency);
            // always, since an instruction has two results at most
            if !results.is_full() {
                results.push(PlainResult {
                    register: write.reg,
                    done: done.max(self.readers_wait(write.reg)),
                    is_held: write.held,
                });
            }
        }
        results
    }

    /// Pushes an instruction, under its number.
    pub(crate) fn push<R: Abort>(&mut self, rt: &R, number: u8, instr: Instr) {
        let (parcel, slot) = self.slot(&instr);
        let issue = self.issue(&instr, slot);
        let start = self.start(&instr, issue);
        let results = self.results(&instr, start);
        let free = free_after(start, instr.hold(&self.profile), results.as_slice());
        let point = PlainPoint {
            number,
            instr,
            parcel,
            issue,
            start,
            results,
            free,
        };
        assert!(rt; self.points.push(point).is_ok());
    }

    /// Takes back the last push, and gives its number if there was one.
    pub(crate) fn undo(&mut self) -> Option<u8> {
        let point = self.points.pop()?;
        Some(point.number)
    }

    /// Whether an instruction of this number is pushed.
    pub(crate) fn has(&self, number: u8) -> bool {
        for point in &self.points {
            if point.number == number {
                return true;
            }
        }
        false
    }

    /// The first minor cycle after the last issue in which an instruction can issue.
    pub(crate) fn next(&self) -> u32 {
        match self.points.last() {
            Some(point) => point.issue.saturating_add(point.instr.parcels()),
            None => 0,
        }
    }

    /// When all units are free and all results done.
    pub(crate) fn total(&self) -> u32 {
        let mut total = 0u32;
        for point in &self.points {
            total = total.max(point.end());
        }
        total
    }

    /// When the last result in a register is done.
    pub(crate) fn done_of(&self, register: Reg) -> u32 {
        let mut last = 0u32;
        for point in &self.points {
            last = last.max(point.done_at(register));
        }
        last
    }

    /// How long the units of a kind work on from `next`, summed.
    pub(crate) fn busy(&self, kind: Kind) -> u32 {
        let next = self.next();
        let mut sum = 0u32;
        for point in &self.points {
            sum = sum.saturating_add(point.holds(kind, next));
        }
        sum
    }
}
