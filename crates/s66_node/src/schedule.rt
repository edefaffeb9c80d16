//! List scheduling: a good order that begins with the walk's prefix, made by always placing the ready instruction that comes first, and
//! of equal ones that with the longest tail. It is the usual heuristic of instruction schedulers, by critical path.

ghost use Rattle.std.specs.Prelude.{◌≡◌, ◌≤◌, ◌<◌, true, [], length, take, IfSome, IfNone};
ghost use Rattle.s66_model.specs.{is_ready, ready, IsComplete, total_of};

use crate::walk::Walk;
use s66_isa::{BLOCK_LIMIT, Reg};
use s66_time::{Order, Timed, time_of};

/// What comes first in a list schedule.
#[derive(Clone, Copy)]
pub enum Priority {
    /// What would start first if it waited for no memory.
    Start,
    /// What would issue first.
    Issue,
}

/// A number that is ready, and what decides whether it comes next: when it would come, and its longest tail, in minor cycles.
#[derive(Clone, Copy)]
struct Candidate {
    number: u8,
    time: u32,
    tail: u32,
}

impl Candidate {
    /// A number that is ready after the walk's prefix.
    fn of(walk: &mut Walk<'_>, priority: Priority, number: u8) -> Candidate
        requires { is_ready walk.old.problem.block walk.old.numbers number ≡ true }
        ensures number { result.number ≡ number }
        ensures same { walk.new ≡ walk.old }
    {
        Candidate {
            number,
            time: match priority {
                Priority::Start => start_of(walk, number),
                Priority::Issue => issue_of(walk, number),
            },
            tail: walk.bounds().tail(number),
        }
    }

    /// Whether it is placed rather than another of a lower number: it comes first, or with the other, and its tail is longer.
    fn is_better_than(&self, other: &Candidate) -> bool {
        self.time < other.time || self.time == other.time && other.tail < self.tail
    }
}

/// When a ready number would issue: it is pushed to find out, and the push is undone.
fn issue_of(walk: &mut Walk<'_>, n: u8) -> u32
    requires { is_ready walk.old.problem.block walk.old.numbers n ≡ true }
    ensures same { walk.new ≡ walk.old }
{
    let parcels = walk.parcels(n);
    walk.push(n);
    let next = walk.clock().next();
    walk.undo();
    next - parcels
}

/// When the last of these registers is done.
fn last_done(walk: &Walk<'_>, registers: &[Reg]) -> u32 {
    let mut last = 0u32;
    for register in registers {
        last = last.max(walk.clock().done_of(*register));
    }
    last
}

/// When a ready number would start if it waited for no memory: it has issued, and its operands are done.
fn start_of(walk: &mut Walk<'_>, n: u8) -> u32
    requires { is_ready walk.old.problem.block walk.old.numbers n ≡ true }
    ensures same { walk.new ≡ walk.old }
{
    let operands = last_done(walk, walk.reads(n).as_slice());
    operands.max(issue_of(walk, n))
}

/// The ready number that comes first; of equal ones that with the longest tail, and of these the lowest.
fn first_ready(walk: &mut Walk<'_>, priority: Priority) -> Option<u8>
    ensures ready { IfSome result (λ n. is_ready walk.old.problem.block walk.old.numbers n ≡ true) }
    ensures none { IfNone result (ready walk.old.problem.block walk.old.numbers ≡ []) }
    ensures same { walk.new ≡ walk.old }
{
    let mut rest = walk.ready();
    let mut best = Candidate::of(walk, priority, rest.pop_first()?);
    while let Some(number) = rest.pop_first() {
        let other = Candidate::of(walk, priority, number);
        if other.is_better_than(&best) {
            best = other;
        }
    }
    Some(best.number)
}

impl Walk<'_> {
    /// The whole order at which it stands, with its times, in time quadratic in the block's length.
    pub fn timed(&self) -> Timed
        requires { IsComplete self.now.problem.block self.now.numbers }
        ensures { result ≡ record { problem = self.now.problem; numbers = self.now.numbers } }
    {
        let block = self.clock.block();
        let Ok(order) = Order::new(block, self.numbers()) else {
            unreachable!()
        };
        time_of(block, self.clock.profile(), &order)
    }
}

/// Schedules what remains after the walk's prefix, by list scheduling. The walk goes on with the ready number that comes first; of equal ones with
/// that of the longest tail, and of these with the lowest. It ends at the whole order, which is a good one of those that begin
/// with the prefix.
///
/// Each place of the order costs a push and an undo for each number that is ready there, and a push; nothing is allocated.
pub fn schedule_rest(walk: &mut Walk<'_>, priority: Priority)
    ensures same { walk.new.problem ≡ walk.old.problem }
    ensures complete { IsComplete walk.new.problem.block walk.new.numbers }
    ensures continues { take (length walk.old.numbers) walk.new.numbers ≡ walk.old.numbers }
{
    // so it is a beginning
    prove!(walk.numbers().len() <= BLOCK_LIMIT);
    while let Some(n) = first_ready(walk, priority) {
        walk.push(n);
    }
}

/// A list schedule of what remains after the walk's prefix, as `schedule_rest` makes it, with its times, if its total is below
/// this one, in minor cycles; else None. The walk ends at the whole order in either case.
pub fn schedule_below(walk: &mut Walk<'_>, priority: Priority, best: u32) -> Option<Timed>
    ensures same { walk.new.problem ≡ walk.old.problem }
    ensures complete { IsComplete walk.new.problem.block walk.new.numbers }
    ensures continues { take (length walk.old.numbers) walk.new.numbers ≡ walk.old.numbers }
    ensures order { IfSome result (λ timed. timed ≡ record { problem = walk.new.problem; numbers = walk.new.numbers }) }
    ensures below { IfSome result (λ timed. total_of walk.new.problem walk.new.numbers < best) }
    ensures none { IfNone result (best ≤ total_of walk.new.problem walk.new.numbers) }
{
    schedule_rest(walk, priority);
    // few are, and only these are timed anew
    if best <= walk.floor_value() {
        return None;
    }
    Some(walk.timed())
}
