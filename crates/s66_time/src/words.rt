//! All words of a clock together, and the rule by which the next instruction is placed on them: when it issues (its unit and its result
//! registers are free), starts (its operands are done) and has its results (earlier readers have started). These are the three orders
//! of conflict of the 6600's scoreboard (J. E. Thornton, Design of a Computer: The Control Data 6600).

ghost use Rattle.std.specs.Prelude.{ℕ, ◌≡◌, ◌+◌, ◌-◌, ◌^◌, ◌<◌, ◌≤◌, List, [], ◌∷◌, length, get_or};
ghost use Rattle.s66_isa.specs.{copies_of, kind_number, Profile as ProfileOf, BLOCK_LIMIT, IsInRange};
ghost use Rattle.s66_model.specs.{fits_at, Point, issue_of, start_of, point};
ghost use Rattle.s66_time.specs.{COPIES_LIMIT, TOTAL_LIMIT, UNIT_LIMIT, WORK_LIMIT, under, IsWords, InTurn, IsSoonest, AreWordsInTurn, wait_of, point_of_tick, after_undo, Takes};

use crate::progress::Progress;
use crate::registers::RegisterWords;
use crate::step::Step;
use crate::tick::{Tick, free_after};
use crate::units::UnitWords;
use s66_isa::{KIND_COUNT, Memory, Profile, Row, kind_number};

/// Where an instruction of `parcels` parcels begins, when the parcels from this one on are empty: one of two parcels doesn't
/// begin in the last parcel of a word.
fn fits_at(empty: u32, parcels: u32) -> u32
    requires { empty + 1 < 2 ^ 32 }
    ensures { result ≡ fits_at empty parcels }
{
    if parcels == 2 && empty % 4 == 3 {
        empty + 1
    } else {
        empty
    }
}

/// The words of a clock.
#[derive(Drop)]
pub(crate) struct Words {
    /// When the last of a register's writers is done.
    pub(crate) done: RegisterWords,
    /// One minor cycle after the last start of a register's readers.
    pub(crate) read: RegisterWords,
    /// When each unit is free.
    pub(crate) units: UnitWords,
    /// Of each kind, by its number, for how long the instructions so far take a unit, summed: each for its hold and one.
    pub(crate) worked: [u32; KIND_COUNT],
    pub(crate) progress: Progress,
}

impl Words {
    /// Before the first push.
    pub(crate) fn new() -> Words
        ensures { (p : ProfileOf) → IsWords p [] result }
    {
        Words {
            done: RegisterWords::new(),
            read: RegisterWords::new(),
            units: UnitWords::new(),
            worked: [0; KIND_COUNT],
            progress: Progress::new(),
        }
    }

    /// Before the first push again, under a profile; the time is that of its units.
    pub(crate) fn clear(&mut self, profile: &Profile)
        requires { length self.old.units.words ≡ UNIT_LIMIT }
        ensures { IsWords profile.now [] self.new }
    {
        self.done = RegisterWords::new();
        self.read = RegisterWords::new();
        self.units.clear_all(profile);
        self.worked = [0; KIND_COUNT];
        self.progress = Progress::new();
    }

    /// The first slot of an instruction of `parcels` parcels.
    pub(crate) fn slot(&self, parcels: u32) -> u32
        requires parcel { self.now.progress.parcel ≤ TOTAL_LIMIT + 2 }
        requires next { self.now.progress.next ≤ TOTAL_LIMIT + 2 }
        ensures { result ≡
            self.now.progress.next + (fits_at self.now.progress.parcel parcels - self.now.progress.parcel) }
    {
        self.progress.next + (fits_at(self.progress.parcel, parcels) - self.progress.parcel)
    }

    /// From when on a reference to memory of this kind may start.
    pub(crate) fn memory_wait(&self, memory: Memory) -> u32
        ensures { result ≡ wait_of memory self.now.progress.refs self.now.progress.stores }
    {
        match memory {
            Memory::None => 0,
            Memory::Load => self.progress.stores,
            Memory::Store => self.progress.refs,
        }
    }

    /// When the instruction issues that takes this unit, the soonest of its kind.
    fn issue(&self, profile: &Profile, row: &Row, unit: usize) -> u32
        requires follows { AreWordsInTurn profile.now self.now }
        requires within { unit < UNIT_LIMIT }
        requires soonest { IsSoonest profile.now row.now.kind self.now.units.words unit }
        ensures { (s : List Point) → IsWords profile.now s self.now → result ≡ issue_of (under profile.now) s row.now }
    {
        let slot = self.slot(row.parcels);
        let written = self.done.greatest_written(row.writes.as_slice());
        slot.max(self.units.words[unit].max(written))
    }

    /// When the instruction starts that issues then.
    fn start(&self, row: &Row, issue: u32) -> u32
        ensures { (p : ProfileOf) (s : List Point) → IsWords p s self.now → InTurn s →
            issue ≡ issue_of (under p) s row.now → result ≡ start_of (under p) s row.now }
    {
        let done = self.done.greatest(row.reads.as_slice());
        issue.max(done.max(self.memory_wait(row.memory)))
    }

    /// Where and when the instruction is placed next.
    pub(crate) fn tick(&self, profile: &Profile, row: &Row) -> Tick
        requires follows { AreWordsInTurn profile.now self.now }
        ensures soonest { IsSoonest profile.now row.now.kind self.now.units.words result.unit }
        ensures value { (s : List Point) (n : ℕ) → IsWords profile.now s self.now → InTurn s →
            point_of_tick n row.now result ≡ point (under profile.now) s n row.now }
        ensures good { IsInRange row.now }
        ensures early { (result.issue ≤ TOTAL_LIMIT + 3) × (result.parcel ≤ TOTAL_LIMIT + 3) ×
            (result.start ≤ TOTAL_LIMIT + 3) }
    {
        self.tick_among(profile, profile.copies(row.kind), row)
    }

    /// The same, if `copies` units are of the instruction's kind.
    #[inline(always)]
    fn tick_among(&self, profile: &Profile, copies: u32, row: &Row) -> Tick
        requires copies { copies ≡ copies_of profile.now row.now.kind }
        requires some { (1 ≤ copies) × (copies ≤ COPIES_LIMIT) }
        requires follows { AreWordsInTurn profile.now self.now }
        ensures soonest { IsSoonest profile.now row.now.kind self.now.units.words result.unit }
        ensures value { (s : List Point) (n : ℕ) → IsWords profile.now s self.now → InTurn s →
            point_of_tick n row.now result ≡ point (under profile.now) s n row.now }
        ensures good { IsInRange row.now }
        ensures early { (result.issue ≤ TOTAL_LIMIT + 3) × (result.parcel ≤ TOTAL_LIMIT + 3) ×
            (result.start ≤ TOTAL_LIMIT + 3) }
    {
        let unit = self.units.soonest(copies, row.kind);
        let issue = self.issue(profile, row, unit);
        let start = self.start(row, issue);
        let results = self.read.results(row.writes.as_slice(), start);
        let free = free_after(start, row.hold, results.as_slice());
        Tick {
            unit,
            parcel: fits_at(self.progress.parcel, row.parcels),
            issue,
            start,
            free,
            results,
        }
    }

    /// Places the next instruction there, and writes into the step what was written over.
    #[inline(always)]
    pub(crate) fn take(&mut self, number: u8, row: &Row, tick: &Tick, step: &mut Step)
        requires number { (1 ≤ number) × (number ≤ BLOCK_LIMIT) }
        requires early { (tick.now.issue ≤ TOTAL_LIMIT + 3) × (tick.now.parcel ≤ TOTAL_LIMIT + 3) ×
            (tick.now.start ≤ TOTAL_LIMIT + 3) }
        requires worked { get_or self.old.worked (kind_number row.now.kind) 0 ≤ WORK_LIMIT }
        ensures number { step.new.number ≡ number }
        ensures back { after_undo self.new step.new ≡ self.old }
        ensures takes { Takes self.old self.new (point_of_tick number row.now tick.now) tick.now.unit }
    {
        // written field by field in its place: a step that is made and then moved costs as much as all the rest
        step.number = number;
        step.unit = tick.unit as u16;
        step.free = self.units.words[tick.unit];
        self.units.words[tick.unit] = tick.free;
        let kind = kind_number(row.kind);
        step.kind = kind as u8;
        step.worked = self.worked[kind];
        self.worked[kind] = step.worked + (row.hold + 1);
        let results = tick.results.as_slice();
        step.done_count = results.len() as u8;
        self.done.raise_results(results, &mut step.done);
        let reads = row.reads.as_slice();
        step.read_count = reads.len() as u8;
        self.read.raise_all(reads, tick.start + 1, &mut step.read);
        step.progress = self.progress;
        self.progress = self.progress.after(number, row, tick);
    }

    /// Places the next instruction, and writes into the step what was written over; `copies` units are of its kind.
    #[inline(always)]
    pub(crate) fn push(
        &mut self,
        profile: &Profile,
        copies: u32,
        number: u8,
        row: &Row,
        step: &mut Step,
    )
        requires copies { copies ≡ copies_of profile.now row.now.kind }
        requires some { (1 ≤ copies) × (copies ≤ COPIES_LIMIT) }
        requires number { (1 ≤ number) × (number ≤ BLOCK_LIMIT) }
        requires follows { AreWordsInTurn profile.now self.old }
        ensures number { step.new.number ≡ number }
        ensures back { after_undo self.new step.new ≡ self.old }
        ensures words { (s : List Point) → IsWords profile.now s self.old → InTurn s →
            IsWords profile.now (point (under profile.now) s number row.now ∷ s) self.new }
    {
        let tick = self.tick_among(profile, copies, row);
        self.take(number, row, &tick, step);
    }

    /// Puts back what a push wrote over.
    #[inline(always)]
    pub(crate) fn undo(&mut self, step: &Step)
        ensures { self.new ≡ after_undo self.old step.now }
    {
        self.done.put_back(&step.done, step.done_count as usize);
        self.read.put_back(&step.read, step.read_count as usize);
        self.units.words[step.unit as usize] = step.free;
        self.worked[step.kind as usize] = step.worked;
        self.progress = step.progress;
    }
}
