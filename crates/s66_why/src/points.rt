//! The instructions of a timed order with all their times, each by a look back over those before it.

ghost use Rattle.std.specs.Prelude.{◌≡◌, ◌+◌, ◌<◌, ◌≤◌, length, map, reverse, take};
ghost use Rattle.s66_model.specs.{IsLegal, points_of, result_at};
ghost use Rattle.s66_time.specs.{point_at, TOTAL_LIMIT};

use crate::placed::{PlacedInstr, readers_wait};
use arrayvec::ArrayVec;
use s66_isa::{BLOCK_LIMIT, Registers, Row};
use s66_time::{ResultAt, Timed, last_time};

/// When each result is done of an instruction that starts then after the earlier ones.
fn results(earlier: &[PlacedInstr], row: &Row, start: u32) -> ArrayVec<ResultAt, 2>
    requires { start ≤ TOTAL_LIMIT }
    ensures { result.items ≡ map (result_at (reverse earlier.now) start) row.now.writes }
{
    let mut results = ArrayVec::new();
    for write in row.writes.as_slice() {
        let wait = readers_wait(earlier, write.reg);
        results.push(ResultAt {
            reg: write.reg,
            time: (start + write.latency).max(wait),
            held: write.held,
        });
    }
    results
}

/// The instruction at a position, after the earlier ones.
fn placed(timed: &Timed, position: usize, earlier: &[PlacedInstr]) -> PlacedInstr
    requires position { position < length timed.now.numbers }
    requires earlier { earlier.now ≡ reverse (points_of timed.now.problem (take position timed.now.numbers)) }
    ensures { result ≡ point_at timed.now position }
{
    let times = timed.at(position);
    let order = timed.order();
    let number = order.numbers()[position];
    let row = Row::of(&order.instr(number as usize), timed.profile());
    let results = results(earlier, &row, times.start);
    let last = last_time(results.as_slice());
    let reads = Registers::of(row.reads.as_slice());
    PlacedInstr {
        number,
        row,
        parcel: times.parcel,
        issue: times.issue,
        start: times.start,
        results,
        free: times.free,
        last,
        reads,
    }
}

/// The instructions of a timed order, in order. Each looks back over those before it.
pub fn points_of(timed: &Timed) -> ArrayVec<PlacedInstr, BLOCK_LIMIT>
    ensures value { result.items ≡ reverse (points_of timed.now.problem timed.now.numbers) }
    ensures legal { IsLegal timed.now.problem.block timed.now.numbers }
{
    let mut points = ArrayVec::new();
    for position in 0..timed.order().numbers().len() {
        let point = placed(timed, position, points.as_slice());
        points.push(point);
    }
    points
}
