//! A walk through all legal orders of a block that compares the clock with its plain form at each step; for other tests.

ghost use Rattle.std.specs.Prelude.{◌≡◌, ◌++◌, [], ◌∷◌, IsTrue};
ghost use Rattle.s66_time.specs.{problem_of};

use crate::plain_clock::PlainClock;
use s66_isa::{Bank, KINDS, Profile, Reg};
use s66_line::Block;
use s66_time::{Clock, ready};
use std::process::Abort;

/// A walk through the legal orders of a block, depth first, the children of a beginning in rising number. At each step it checks
/// that the clock returns what the plain form returns.
#[derive(Drop)]
pub(crate) struct Walk<'a> {
    clock: Clock<'a>,
    plain: PlainClock,
    /// The number by which it goes on if that is ready.
    tried: u8,
    /// The totals of the whole orders that it came to.
    pub(crate) totals: Vec<u32>,
}

/// Pushes a number if it is ready, and returns whether it was.
pub(crate) fn push_ready(clock: &mut Clock, n: u8) -> bool
    ensures same { problem_of clock.new ≡ problem_of clock.old }
    ensures pushed { IsTrue result → clock.new.numbers ≡ clock.old.numbers ++ n ∷ [] }
{
    let is_ready = ready(clock.block(), &clock.pushed()).has(n);
    if is_ready {
        clock.push(n);
    }
    is_ready
}

/// Takes back the last push, and returns whether there was one.
pub(crate) fn undo_last(clock: &mut Clock) -> bool
    ensures { problem_of clock.new ≡ problem_of clock.old }
{
    let is_pushed = clock.pushed().count() > 0;
    if is_pushed {
        clock.undo();
    }
    is_pushed
}

impl<'a> Walk<'a> {
    pub(crate) fn new<R: AllocGlobal>(rt: &R, block: &'a Block<'a>, profile: &Profile) -> Walk<'a> {
        Walk {
            clock: Clock::new(block, profile),
            plain: PlainClock::new(rt, profile),
            tried: 1,
            totals: Vec::new(rt.alloc()),
        }
    }

    /// Goes on, or tries the next number, or goes back; false once all orders are walked through.
    pub(crate) fn step<R: AllocGlobal + Abort>(&mut self, rt: &R) -> bool {
        if self.enter(rt) {
            self.tried = 1;
        } else if (self.tried as usize) < self.clock.block().count() {
            self.tried = self.tried.saturating_add(1);
        } else if let Some(last) = self.leave(rt) {
            self.tried = last.saturating_add(1);
        } else {
            return false;
        }
        true
    }

    /// Goes on by the number if it is ready, and returns whether it was.
    fn enter<R: AllocGlobal + Abort>(&mut self, rt: &R) -> bool {
        let n = self.tried;
        if !push_ready(&mut self.clock, n) {
            return false;
        }
        let block = self.clock.block();
        assert!(rt; 1 <= n && n as usize <= block.count());
        let instr = block.instr(n as usize);
        self.plain.push(rt, n, instr);
        self.check_readings(rt);
        if self.clock.pushed().count() as usize == block.count() {
            self.totals.push(self.clock.total()).expect(rt, "memory");
        }
        true
    }

    /// Goes back by the last number, and gives it if there is one.
    fn leave<R: Abort>(&mut self, rt: &R) -> Option<u8> {
        let last = self.plain.undo();
        assert!(rt; undo_last(&mut self.clock) == last.is_some());
        self.check_readings(rt);
        last
    }

    /// Checks that the clock returns what the plain form returns.
    fn check_readings<R: Abort>(&self, rt: &R) {
        let (clock, plain) = (&self.clock, &self.plain);
        assert!(rt; clock.next() == plain.next() && clock.total() == plain.total());
        let pushed = clock.pushed();
        for n in 0..=u8::MAX {
            assert!(rt; pushed.has(n) == plain.has(n), "{n}");
        }
        for bank in [Bank::A, Bank::B, Bank::X] {
            for digit in 0..8u8 {
                let register = Reg::new(bank, digit);
                assert!(rt;
                    clock.done_of(register) == plain.done_of(register),
                    "{digit}"
                );
            }
        }
        for kind in KINDS {
            assert!(rt; clock.busy(kind) == plain.busy(kind));
        }
    }
}
