//! What each instruction of a timed order does with its unit, as rows of units and a page draw it.

ghost use Rattle.std.specs.Prelude.{◌≡◌, ◌<◌, length, reverse};
ghost use Rattle.s66_model.specs.{points_of};
ghost use Rattle.s66_time.specs.{point_at};
ghost use Rattle.s66_why.specs.{work, works};

use crate::placed::PlacedInstr;
use arrayvec::ArrayVec;
use s66_isa::{BLOCK_LIMIT, Kind};
use s66_time::Timed;

/// An instruction of a timed order as it is drawn: its number, the kind of its unit, and in minor cycles when it issues and starts,
/// how long its last result takes, when that is done, when its unit is free, and how long that works.
#[derive(Clone, Copy, Drop)]
pub struct Work {
    pub number: u8,
    pub kind: Kind,
    pub issue: u32,
    pub start: u32,
    pub latency: u32,
    pub done: u32,
    pub free: u32,
    pub hold: u32,
}

impl Default for Work {
    /// A blank: a list makes one for each place that isn't taken.
    fn default() -> Work {
        Work {
            number: 0,
            kind: Kind::Boolean,
            issue: 0,
            start: 0,
            latency: 0,
            done: 0,
            free: 0,
            hold: 0,
        }
    }
}

/// The instruction at a position.
#[tactic(auto, using(crate::proofs::PointCount::points_length))]
fn work_at(timed: &Timed, points: &[PlacedInstr], position: usize) -> Work
    requires position { position < length timed.now.numbers }
    requires points { points.now ≡ reverse (points_of timed.now.problem timed.now.numbers) }
    ensures { result ≡ work (point_at timed.now position) }
{
    let point = &points[position];
    let times = timed.at(position);
    Work {
        number: point.number,
        kind: point.row.kind,
        issue: times.issue,
        start: times.start,
        latency: timed.latency(position),
        done: times.done,
        free: times.free,
        hold: point.row.hold,
    }
}

/// The instructions of a timed order, in order.
pub fn works_of(timed: &Timed, points: &[PlacedInstr]) -> ArrayVec<Work, BLOCK_LIMIT>
    requires { points.now ≡ reverse (points_of timed.now.problem timed.now.numbers) }
    ensures { result.items ≡ works timed.now }
{
    let mut works = ArrayVec::new();
    for position in 0..timed.order().numbers().len() {
        works.push(work_at(timed, points, position));
    }
    works
}
