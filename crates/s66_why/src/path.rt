//! The path of waits of an order, from an instruction that waits for nothing to the one that ends last, and what each step adds to the
//! time. It is followed back from the end, and is the critical path of this one order.

ghost use Rattle.std.specs.Prelude.{◌≡◌, ◌≤◌, length, map, reverse};
ghost use Rattle.s66_isa.specs.{BLOCK_LIMIT};
ghost use Rattle.s66_model.specs.{total};
ghost use Rattle.s66_why.specs.{before_issue, before_start, decides, before, is_held, is_linked, next_wait, passes, steps, steps_from, walk, Step as StepOf};

use crate::cause::{Cause, Holder};
use crate::holders::{first_holder, holder, second_holder, third_holder};
use crate::placed::{PlacedInstr, readers_wait};
use crate::stretch::slot;
use arrayvec::ArrayVec;
use s66_isa::{BLOCK_LIMIT, Write, is_same_register};

/// With which instruction the path goes on, from the latest back.
#[derive(Clone, Copy)]
pub(crate) enum Link {
    /// This one.
    Held(Holder),
    /// The nearest one that did not issue in its slot.
    InLine,
}

/// What an instruction waited for last, and the minor cycle in which that was over; or that it stood in line until it issued then.
#[derive(Clone, Copy)]
pub(crate) struct Wait {
    pub(crate) link: Link,
    pub(crate) until: u32,
}

/// An instruction of the path, and the minor cycle in which it lets the next one go on.
#[derive(Clone, Copy, Default, Drop)]
pub(crate) struct Milestone {
    pub(crate) number: u8,
    pub(crate) time: u32,
}

/// An instruction of the path, and the minor cycles that it adds to the time of the order.
#[derive(Clone, Copy, Default, Drop)]
pub struct Step {
    pub number: u8,
    pub adds: u32,
}

/// What an instruction waited for last until it issued.
fn before_issue(earlier: &[PlacedInstr], point: &PlacedInstr) -> Wait
    ensures { result ≡ before_issue (reverse earlier.now) point.now }
{
    let link = if slot(earlier, point) < point.issue {
        Link::Held(first_holder(earlier, point))
    } else {
        Link::InLine
    };
    Wait {
        link,
        until: point.issue,
    }
}

/// What an instruction waited for last until it started.
fn before_start(earlier: &[PlacedInstr], point: &PlacedInstr) -> Wait
    ensures { result ≡ before_start (reverse earlier.now) point.now }
{
    if point.issue < point.start {
        Wait {
            link: Link::Held(second_holder(earlier, point)),
            until: point.start,
        }
    } else {
        before_issue(earlier, point)
    }
}

/// Whether an instruction lets go when this result of it is done.
fn decides(cause: &Cause, point: &PlacedInstr, write: &Write) -> bool
    ensures { result ≡ decides cause.now point.now write.now }
{
    let done = point.done_at(write.reg);
    let frees = write.held && done == point.free.saturating_sub(1);
    match cause {
        Cause::Writes(register) => is_same_register(write.reg, *register),
        Cause::Takes(_) => frees,
        Cause::References(_) | Cause::Reads(_) => false,
        Cause::Ends => {
            let end = point.end();
            done == end || (point.free == end && frees)
        }
    }
}

/// Whether this result is held for a reader.
fn is_held(earlier: &[PlacedInstr], point: &PlacedInstr, write: &Write) -> bool
    ensures { result ≡ is_held (reverse earlier.now) point.now write.now }
{
    let made = point.start as usize + write.latency as usize;
    made < readers_wait(earlier, write.reg) as usize
}

/// What an instruction waited for last until it let go for this cause.
fn before(cause: &Cause, earlier: &[PlacedInstr], point: &PlacedInstr) -> Wait
    ensures { result ≡ before cause.now (reverse earlier.now) point.now point.now.row.writes }
{
    for write in point.row.writes.as_slice() {
        if decides(cause, point, write) && is_held(earlier, point, write) {
            return Wait {
                link: Link::Held(third_holder(earlier, write)),
                until: readers_wait(earlier, write.reg),
            };
        }
    }
    before_start(earlier, point)
}

/// Whether an instruction is where the link leads.
fn is_linked(link: &Link, earlier: &[PlacedInstr], point: &PlacedInstr) -> bool
    ensures { result ≡ is_linked link.now (reverse earlier.now) point.now }
{
    match link {
        Link::Held(holder) => point.number == holder.number,
        Link::InLine => slot(earlier, point) < point.issue,
    }
}

/// What an instruction waited for last, to which a link led, before the next one of the path went on.
fn next_wait(link: &Link, earlier: &[PlacedInstr], point: &PlacedInstr) -> Wait
    ensures { result ≡ next_wait link.now (reverse earlier.now) point.now }
{
    match link {
        Link::Held(holder) => before(&holder.cause, earlier, point),
        Link::InLine => {
            Wait {
                link: Link::Held(first_holder(earlier, point)),
                until: point.issue,
            }
        }
    }
}

impl Wait {
    /// The minor cycle in which an instruction, to which this leads, lets the next one of the path go on.
    fn passes(&self, point: &PlacedInstr) -> u32
        ensures { result ≡ passes self.now.link self.now.until point.now }
    {
        match self.link {
            Link::Held(_) => self.until,
            Link::InLine => point.issue,
        }
    }
}

/// The milestones from a wait on, the latest first. Each of them looks back over the instructions before it.
fn walk(wait: Wait, points: &[PlacedInstr]) -> ArrayVec<Milestone, BLOCK_LIMIT>
    requires { length points.now ≤ BLOCK_LIMIT }
    ensures { result.items ≡ walk wait (reverse points.now) }
{
    let mut milestones = ArrayVec::new();
    let mut wait = wait;
    for back in 0..points.len() {
        let position = points.len() - 1 - back;
        let earlier = &points[..position];
        let point = &points[position];
        if is_linked(&wait.link, earlier, point) {
            milestones.push(Milestone {
                number: point.number,
                time: wait.passes(point),
            });
            wait = next_wait(&wait.link, earlier, point);
        }
    }
    milestones
}

/// The steps to these milestones, of which the latest comes first.
fn steps_to(milestones: &[Milestone]) -> ArrayVec<Step, BLOCK_LIMIT>
    requires { length milestones.now ≤ BLOCK_LIMIT }
    ensures { result.items ≡ steps_from 0 (reverse milestones.now) }
{
    let mut steps = ArrayVec::new();
    let mut from = 0;
    for back in 0..milestones.len() {
        let milestone = milestones[milestones.len() - 1 - back];
        steps.push(Step {
            number: milestone.number,
            adds: milestone.time.saturating_sub(from),
        });
        from = milestone.time;
    }
    steps
}

/// The steps of the path of an order that ends then: the instructions that its time comes from, of which each waits for the one
/// before it or stands in line behind it, up to the one that ends last.
pub fn steps_of(points: &[PlacedInstr], end: u32) -> ArrayVec<Step, BLOCK_LIMIT>
    requires few { length points.now ≤ BLOCK_LIMIT }
    requires end { end ≡ total (reverse points.now) }
    ensures { result.items ≡ steps (reverse points.now) }
{
    let wait = Wait {
        link: Link::Held(holder(points, Cause::Ends, end)),
        until: end,
    };
    steps_to(walk(wait, points).as_slice())
}

/// The numbers of the instructions of steps.
pub fn path_of(steps: &[Step]) -> ArrayVec<u8, BLOCK_LIMIT>
    requires { length steps.now ≤ BLOCK_LIMIT }
    ensures { result.items ≡ map (λ (x : StepOf). x.number) steps.now }
{
    let mut numbers = ArrayVec::new();
    for step in steps {
        numbers.push(step.number);
    }
    numbers
}
