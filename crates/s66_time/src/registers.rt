//! A word for each register, a minor cycle: when it is written or when its readers have started.

ghost use Rattle.std.specs.Prelude.{ℕ, ◌≡◌, ◌+◌, ◌<◌, ◌≤◌, map, if◌then◌else◌, length, max, nat_lt, take};
ghost use Rattle.s66_isa.specs.{greatest, Write as WriteOf, same_reg, has_reg, word_of, registers_in};
ghost use Rattle.s66_isa.specs.Table.{Reg as RegOf};
ghost use Rattle.s66_model.specs.{ResultAt as ResultOf};
ghost use Rattle.s66_time.specs.{TOTAL_LIMIT, Tells, put_back};

use crate::result::ResultAt;
use crate::step::Saved;
use arrayvec::ArrayVec;
use s66_isa::{REGISTER_COUNT, Reg, Registers, Write};

/// A word for each register, by its index: a minor cycle.
///
/// An instruction has two results at most: they are taken one by one and not in a loop, so that the compiler keeps them out of
/// memory.
#[derive(Drop)]
pub(crate) struct RegisterWords {
    pub(crate) words: [u32; REGISTER_COUNT],
}

impl RegisterWords {
    /// All words are 0.
    pub(crate) fn new() -> RegisterWords
        ensures { (r : RegOf) → word_of result.words r ≡ 0 }
    {
        RegisterWords {
            words: [0; REGISTER_COUNT],
        }
    }

    /// The word of a register.
    pub(crate) fn at(&self, register: Reg) -> u32
        ensures { (f : RegOf → ℕ) → Tells self.now.words f → result ≡ f register }
    {
        self.words[register.index() as usize]
    }

    /// The registers whose words are after a time.
    pub(crate) fn after(&self, time: u32) -> Registers
        ensures { (f : RegOf → ℕ) → Tells self.now.words f → (r : RegOf) → r.digit ≤ 7 →
            has_reg r (registers_in result) ≡ nat_lt time (f r) }
    {
        let mut after = Registers::empty();
        for index in 0..REGISTER_COUNT {
            if time < self.words[index] {
                after = after.with(Reg::of_index(index as u8));
            }
        }
        after
    }

    /// The greatest word of these registers.
    pub(crate) fn greatest(&self, registers: &[Reg]) -> u32
        ensures { (f : RegOf → ℕ) → Tells self.now.words f → result ≡ greatest f registers.now }
    {
        let mut last = 0u32;
        for register in registers {
            last = last.max(self.at(*register));
        }
        last
    }

    /// The greatest word of the registers that are written, two at most.
    pub(crate) fn greatest_written(&self, writes: &[Write]) -> u32
        requires { length writes.now ≤ 2 }
        ensures { (f : RegOf → ℕ) → Tells self.now.words f → result ≡ greatest (λ (w : WriteOf). f w.reg) writes.now }
    {
        if writes.is_empty() {
            return 0;
        }
        let first = writes[0];
        let done = self.at(first.reg);
        if writes.len() == 1 {
            return done;
        }
        let second = writes[1];
        done.max(self.at(second.reg))
    }

    /// When a result is done, if the unit starts then and these are the words of the readers.
    fn result(&self, write: &Write, start: u32) -> ResultAt
        requires latency { write.now.latency ≤ 100 }
        requires start { start ≤ TOTAL_LIMIT + 3 }
        ensures { (f : RegOf → ℕ) → Tells self.now.words f →
            result ≡
            record { reg = write.now.reg; time = max (start + write.now.latency) (f write.now.reg); held = write.now.held } }
    {
        ResultAt {
            reg: write.reg,
            time: (start + write.latency).max(self.at(write.reg)),
            held: write.held,
        }
    }

    /// When each result is done, two at most, if the unit starts then and these are the words of the readers.
    pub(crate) fn results(&self, writes: &[Write], start: u32) -> ArrayVec<ResultAt, 2>
        requires few { length writes.now ≤ 2 }
        requires latencies { greatest (λ (w : WriteOf). w.latency) writes.now ≤ 100 }
        requires start { start ≤ TOTAL_LIMIT + 3 }
        ensures { (f : RegOf → ℕ) → Tells self.now.words f →
            result.items ≡ map (λ (w : WriteOf).
            record { reg = w.reg; time = max (start + w.latency) (f w.reg); held = w.held }) writes.now }
    {
        let mut results = ArrayVec::new();
        if writes.is_empty() {
            return results;
        }
        results.push(self.result(&writes[0], start));
        if writes.len() == 1 {
            return results;
        }
        results.push(self.result(&writes[1], start));
        results
    }

    /// Raises the word of a register to a time, and saves at a place what it was.
    fn raise<const N: usize>(&mut self, register: Reg, time: u32, saved: &mut [Saved; N], at: usize)
        requires { at < N }
        ensures words { (r : RegOf) → r.digit ≤ 7 → word_of self.new.words r ≡
            max (word_of self.old.words r) (if same_reg register r then time else 0) }
        ensures saved { put_back (take (at + 1) saved.new) self.new.words ≡
            put_back (take at saved.old) self.old.words }
    {
        let place = register.index();
        let word = self.words[place as usize];
        saved[at] = Saved { place, word };
        self.words[place as usize] = word.max(time);
    }

    /// Raises the words of the registers of results to the times at which they are done, and saves what they were, from the first
    /// place on.
    pub(crate) fn raise_results(&mut self, results: &[ResultAt], saved: &mut [Saved; 2])
        requires { length results.now ≤ 2 }
        ensures words { (r : RegOf) → r.digit ≤ 7 → word_of self.new.words r ≡
            max (word_of self.old.words r)
            (greatest (λ (d : ResultOf). if same_reg d.reg r then d.time else 0) results.now) }
        ensures saved { put_back (take (length results.now) saved.new) self.new.words ≡ self.old.words }
    {
        if results.is_empty() {
            return;
        }
        let first = results[0];
        self.raise(first.reg, first.time, saved, 0);
        if results.len() == 1 {
            return;
        }
        let second = results[1];
        self.raise(second.reg, second.time, saved, 1);
    }

    /// Raises the words of registers to a time, and saves what they were, from the first place on.
    pub(crate) fn raise_all(&mut self, registers: &[Reg], time: u32, saved: &mut [Saved; 4])
        requires { length registers.now ≤ 4 }
        ensures words { (r : RegOf) → r.digit ≤ 7 → word_of self.new.words r ≡
            max (word_of self.old.words r) (if has_reg r registers.now then time else 0) }
        ensures saved { put_back (take (length registers.now) saved.new) self.new.words ≡ self.old.words }
    {
        for position in 0..registers.len() {
            self.raise(registers[position], time, saved, position);
        }
    }

    /// Puts back what was saved at the first `count` places, the last word first.
    pub(crate) fn put_back(&mut self, saved: &[Saved], count: usize)
        requires { count ≤ length saved.now }
        ensures { self.new.words ≡ put_back (take count saved.now) self.old.words }
    {
        let mut left = count;
        while left > 0 {
            left -= 1;
            let before = saved[left];
            self.words[before.place as usize] = before.word;
        }
    }
}
