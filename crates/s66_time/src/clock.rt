//! The clock of a search (`Clock`): the times of a beginning, to which a number is pushed at its end and from which the last is undone.
//!
//! It is the scoreboard of the 6600 in a few words: for each register when its result is done and when its readers have started, for
//! each unit when it is free, and the last issue. A push costs a look at these words alone, whatever was pushed before; an undo puts
//! back what the push wrote over (`steps.rt`).

ghost use Rattle.std.specs.Prelude.{◌≡◌, map};
ghost use Rattle.s66_isa.specs.{row};
ghost use Rattle.s66_model.specs.{HaveDigits};
ghost use Rattle.s66_line.specs.{instrs_of};

use crate::copies::Copies;
use crate::mark::Mark;
use crate::mark_shape::MarkShape;
use crate::steps::Steps;
use crate::words::Words;
use arrayvec::ArrayVec;
use s66_isa::{BLOCK_LIMIT, Kind, Memory, Profile, Reg, Registers, Row, Set, kind_number};
use s66_line::Block;
use std::marker::Model;

/// The times of a beginning of a block's legal orders under a profile, in minor cycles from the issue of the first instruction. A
/// number is pushed at its end, and the last one is undone.
///
/// It stores a few words in place of the points, so that a push and an undo take a time that doesn't grow with the beginning.
#[derive(Drop)]
pub struct Clock<'a> {
    block: &'a Block<'a>,
    profile: Profile,
    /// How many units the profile has of each kind.
    copies: Copies,
    /// The rows of the block's instructions.
    rows: ArrayVec<Row, BLOCK_LIMIT>,
    /// How many free times of each kind a mark keeps.
    shape: MarkShape,
    words: Words,
    /// What each push wrote over, the oldest first.
    steps: Steps,
    looks: u32,
}

impl<'a> Model for Clock<'a> {
    ghost use Rattle.s66_line.specs.{instrs_of};
    ghost use Rattle.s66_time.specs.Ticking.{Ticking, numbers_of, IsTicking};

    ghost Value = { Ticking };

    ghost view = { λ c.
        record { block = c.block.now; profile = c.profile; numbers = numbers_of c.steps; looks = c.looks } };

    ghost invariant = { λ c. IsTicking (record { block = instrs_of c.block.now; profile = c.profile }) c.words c.steps
        c.copies c.rows.items c.shape };
}

/// The rows of a block's instructions.
pub fn rows_of(block: &Block<'_>, profile: &Profile) -> ArrayVec<Row, BLOCK_LIMIT>
    ensures rows { result.items ≡ map (row profile.now) (instrs_of block.now) }
    ensures digits { HaveDigits (instrs_of block.now) }
{
    let mut rows = ArrayVec::new();
    for position in 0..block.count() {
        let instr = block.instr(position + 1);
        prove!(instr.i() <= 7);
        prove!(instr.j() <= 7);
        prove!(instr.k() <= 7);
        rows.push(Row::of(&instr, profile));
    }
    rows
}

impl<'a> Clock<'a> {
    ghost use Rattle.std.specs.Prelude.{ℕ, ◌≡◌, ◌+◌, ◌-◌, ◌*◌, ◌<◌, ◌≤◌, ◌++◌, [], ◌∷◌, true, length, take, nat_le, nat_lt, if◌then◌else◌};
    ghost use Rattle.s66_isa.specs.{weigh, has, tally, greatest, copies_of, kind_of, instr_at, has_reg, memory_pair, registers_in, numbers_in, BLOCK_LIMIT};
    ghost use Rattle.s66_isa.specs.Table.{Reg as RegOf};
    ghost use Rattle.s66_line.specs.{instrs_of};
    ghost use Rattle.s66_model.specs.{is_ready, IsBeginning, Point, next, total, slot_of, busy_at, done_of, readers_wait, rest_busy, work_of};
    ghost use Rattle.s66_time.specs.{IsMarkOf, points, problem_of, COPIES_LIMIT, LOOK_LIMIT, TOTAL_LIMIT};

    /// Before the first push, in time linear in the block's length.
    pub fn new(block: &'a Block<'a>, profile: &Profile) -> Clock<'a>
        ensures { result ≡ record { block = block.now; profile = profile.now; numbers = []; looks = 0 } }
    {
        prove!(block.count() <= BLOCK_LIMIT);
        let copies = Copies::of(profile);
        let rows = rows_of(block, profile);
        let shape = MarkShape::of(rows.as_slice(), &copies);
        Clock {
            block,
            profile: *profile,
            copies,
            rows,
            shape,
            words: Words::new(),
            steps: Steps::new(),
            looks: 0,
        }
    }

    /// Pushes a number that is ready; the time is that of the copies of its unit, whatever was pushed before.
    #[inline(always)]
    pub fn push(&mut self, n: u8)
        requires { is_ready (instrs_of self.old.block) self.old.numbers n ≡ true }
        ensures value { self.new ≡ record self.old { numbers = self.old.numbers ++ n ∷ []; looks = self.new.looks } }
        ensures looks { self.new.looks ≤
            LOOK_LIMIT + copies_of self.old.profile (kind_of (instr_at (instrs_of self.old.block) n).op.code) }
    {
        let row = &self.rows[n as usize - 1];
        let copies = self.copies.at(row.kind);
        self.steps
            .push(&mut self.words, &self.profile, copies, n, row);
        // a word for each unit of the kind and its work, each saved word twice, the six of the progress, and the record
        self.looks = copies + 2 * self.steps.last().words() + 8;
    }

    /// Takes back the last push, in constant time.
    #[inline(always)]
    pub fn undo(&mut self)
        requires { 0 < length self.old.numbers }
        ensures value { self.new ≡ record
            self.old { numbers = take (length self.old.numbers - 1) self.old.numbers; looks = self.new.looks } }
        ensures looks { self.new.looks ≤ LOOK_LIMIT }
    {
        let step = self.steps.last();
        // each saved word, the unit's and the kind's, the six of the progress, and the record
        self.looks = step.words() + 9;
        self.words.undo(step);
        self.steps.remove_last();
    }

    /// How many words the last push or undo read or wrote, its record counted as one; 0 before the first push.
    pub fn looks(&self) -> u32
        ensures { result ≡ self.now.looks }
    {
        self.looks
    }

    /// What decides how soon each completion of the pushed numbers can be done.
    pub fn mark(&self) -> Mark
        ensures { IsMarkOf (problem_of self.now) self.now.numbers result }
    {
        let mut mark = Mark::blank();
        self.set_mark(&mut mark);
        mark
    }

    /// Makes of any mark the one that `mark` returns, where it is.
    pub fn set_mark(&self, mark: &mut Mark)
        ensures { IsMarkOf (problem_of self.now) self.now.numbers mark.new }
    {
        mark.set(&self.words, &self.profile, &self.copies, &self.shape);
    }

    /// The block.
    pub fn block(&self) -> &'a Block<'a>
        ensures { result.now ≡ self.now.block }
    {
        self.block
    }

    /// The profile.
    pub fn profile(&self) -> &Profile
        ensures { result.now ≡ self.now.profile }
    {
        &self.profile
    }

    /// The set of the numbers that are pushed.
    pub fn pushed(&self) -> Set
        ensures value { (m : ℕ) → has m (numbers_in result) ≡ has m self.now.numbers }
        ensures begins { IsBeginning (instrs_of self.now.block) self.now.numbers }
        ensures few { length (instrs_of self.now.block) ≤ BLOCK_LIMIT }
    {
        self.words.progress.pushed
    }

    /// The first minor cycle after the last issue in which an instruction can issue; 0 before the first push.
    pub fn next(&self) -> u32
        ensures value { result ≡ next (points self.now) }
        ensures at_most { result ≤ TOTAL_LIMIT }
    {
        self.words.progress.next
    }

    /// The first minor cycle in which an instruction of so many parcels can issue, a `NO` before it included; 0 before the first push.
    pub fn slot(&self, parcels: u32) -> u32
        ensures value { result ≡ slot_of (points self.now) parcels }
        ensures at_most { result ≤ TOTAL_LIMIT + 1 }
    {
        self.words.slot(parcels)
    }

    /// The minor cycle in which all units are free and all results done; 0 before the first push.
    pub fn total(&self) -> u32
        ensures value { result ≡ total (points self.now) }
        ensures at_most { result ≤ TOTAL_LIMIT }
    {
        self.words.progress.total
    }

    /// The minor cycle in which the last result in a register is done; 0 if none is written.
    pub fn done_of(&self, register: Reg) -> u32
        ensures { result ≡ done_of (points self.now) register }
    {
        self.words.done.at(register)
    }

    /// The registers whose last result is done after a time.
    pub fn late(&self, time: u32) -> Registers
        ensures { (r : RegOf) → r.digit ≤ 7 → has_reg r (registers_in result) ≡
            nat_lt time (done_of (points self.now) r) }
    {
        self.words.done.after(time)
    }

    /// One minor cycle after the last start of a register's readers; 0 if there are none.
    pub fn readers_of(&self, register: Reg) -> u32
        ensures value { result ≡ readers_wait (points self.now) register }
        ensures at_most { result ≤ TOTAL_LIMIT }
    {
        self.words.read.at(register)
    }

    /// The registers whose word `readers_of` is after a time.
    pub fn late_readers(&self, time: u32) -> Registers
        ensures { (r : RegOf) → r.digit ≤ 7 → has_reg r (registers_in result) ≡
            nat_lt time (readers_wait (points self.now) r) }
    {
        self.words.read.after(time)
    }

    /// The minor cycle from which on memory lets an instruction start that references it so: one after the last start of an earlier
    /// reference, if either of the two is a store; 0 if there is none.
    pub fn memory_wait(&self, memory: Memory) -> u32
        ensures value { result ≡
            greatest (λ (p : Point). if memory_pair p.row.memory memory then p.start + 1 else 0) (points self.now) }
        ensures at_most { result ≤ TOTAL_LIMIT }
    {
        self.words.memory_wait(memory)
    }

    /// For how long the pushed instructions of a kind take a unit, summed: each for its hold and one.
    pub fn worked(&self, kind: Kind) -> u32
        ensures value { result ≡ weigh (λ (p : Point). work_of kind p.row) (points self.now) }
        ensures begins { IsBeginning (instrs_of self.now.block) self.now.numbers }
        ensures few { length (instrs_of self.now.block) ≤ BLOCK_LIMIT }
    {
        self.words.worked[kind_number(kind)]
    }

    /// The minor cycle in which the only unit of a kind is free, or the next slot if that is later.
    pub fn free(&self, kind: Kind) -> u32
        requires { copies_of self.now.profile kind ≡ 1 }
        ensures value { result ≡
            next (points self.now) + weigh (rest_busy kind (next (points self.now))) (points self.now) }
        ensures at_most { result ≤ TOTAL_LIMIT }
    {
        self.words.units.first(kind).max(self.words.progress.next)
    }

    /// How many minor cycles the units of a kind work on from `next` until they are free, summed over the units; the time is that
    /// of their number.
    pub fn busy(&self, kind: Kind) -> u32
        ensures value { result ≡ weigh (rest_busy kind (next (points self.now))) (points self.now) }
        ensures at_most { result ≤ COPIES_LIMIT * TOTAL_LIMIT }
    {
        self.words
            .units
            .rest(&self.profile, kind, self.words.progress.next)
    }

    /// The minor cycle from which on a unit of a kind is free; the time is that of their number.
    pub fn soonest_free(&self, kind: Kind) -> u32
        ensures value { (t : ℕ) →
            nat_le result t ≡ nat_lt (tally (busy_at kind t) (points self.now)) (copies_of self.now.profile kind) }
        ensures at_most { result ≤ TOTAL_LIMIT }
    {
        let place = self.words.units.soonest(self.copies.at(kind), kind);
        self.words.units.words[place]
    }
}
