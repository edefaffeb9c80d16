//! Longest paths to or from the moments of an instruction, in minor cycles.

ghost use Rattle.std.specs.Prelude.{◌≡◌, ◌&&◌, not, if◌then◌else◌, Some};
ghost use Rattle.s66_isa.specs.{greatest, some_of, Write as WriteOf, same_reg, has_reg};
ghost use Rattle.s66_moments.specs.{writes, fetches, only_if, same_moment, same_stage, later, plus, reaches};
ghost use Rattle.s66_facts.specs.{add, when, times_at, latest_done, latest_result, time_at_moment, time_along};

use crate::direction::Direction;
use s66_isa::{BLOCK_LIMIT, Reg, Row, Write, has_register, is_same_register};
use s66_moments::{Moment, Stage};

/// How long the longest path is that leads to each moment of an instruction, or from there; `None` if none does.
#[derive(Clone, Copy, Drop, PartialEq, Eq)]
pub struct Times {
    pub issue: Option<u64>,
    pub start: Option<u64>,
    pub free: Option<u64>,
    /// Of its first result, in the order of its row.
    pub first: Option<u64>,
    /// Of its second.
    pub second: Option<u64>,
}

impl Times {
    ghost use Rattle.std.specs.Prelude.{◌≡◌, ◌↔◌, IsTrue};
    ghost use Rattle.s66_facts.specs.{no_times, later_times};

    /// The later of two at each moment.
    pub(crate) fn later(&self, other: &Times) -> Times
        ensures { result ≡ later_times self.now other.now }
    {
        Times {
            issue: later(self.issue, other.issue),
            start: later(self.start, other.start),
            free: later(self.free, other.free),
            first: later(self.first, other.first),
            second: later(self.second, other.second),
        }
    }

    /// Whether they are the same at each moment.
    pub(crate) fn is_same(&self, other: &Times) -> bool
        ensures { IsTrue result ↔ (self.now ≡ other.now) }
    {
        *self == *other
    }

    /// No path leads anywhere.
    pub(crate) fn none() -> Times
        ensures { result ≡ no_times }
    {
        Times {
            issue: None,
            start: None,
            free: None,
            first: None,
            second: None,
        }
    }
}

/// The later of two.
pub(crate) fn later(a: Option<u64>, b: Option<u64>) -> Option<u64>
    ensures { result ≡ later a b }
{
    match (a, b) {
        (None, b) => b,
        (Some(a), None) => Some(a),
        (Some(a), Some(b)) => Some(a.max(b)),
    }
}

/// So much later.
pub(crate) fn add(time: Option<u64>, wait: u32) -> Option<u64>
    ensures { result ≡ add time wait }
{
    match time {
        None => None,
        Some(time) => Some(time.saturating_add(wait as u64)),
    }
}

/// If the test is met.
pub(crate) fn when(test: bool, time: Option<u64>) -> Option<u64>
    ensures { result ≡ when test time }
{
    if test { time } else { None }
}

/// Whether two moments are the same.
pub fn is_same_moment(a: &Moment, b: &Moment) -> bool
    ensures { result ≡ same_moment a.now b.now }
{
    match a {
        Moment::Origin => matches!(b, Moment::Origin),
        Moment::At(m, e) => match b {
            Moment::At(n, f) => *m == *n && is_same_stage(e, f),
            Moment::Origin | Moment::End => false,
        },
        Moment::End => matches!(b, Moment::End),
    }
}

/// Whether two stages are the same.
fn is_same_stage(a: &Stage, b: &Stage) -> bool
    ensures { result ≡ same_stage a.now b.now }
{
    match a {
        Stage::Issue => matches!(b, Stage::Issue),
        Stage::Start => matches!(b, Stage::Start),
        Stage::Done(x) => match b {
            Stage::Done(y) => is_same_register(*x, *y),
            Stage::Issue | Stage::Start | Stage::Free => false,
        },
        Stage::Free => matches!(b, Stage::Free),
    }
}

/// At what a load may come after or before; the origin and the end are given.
fn time_at_moment(
    times: &[Times; BLOCK_LIMIT],
    origin: Option<u64>,
    end: Option<u64>,
    moment: &Moment,
) -> Option<u64>
    ensures { result ≡ time_at_moment times.now origin end moment.now }
{
    match moment {
        Moment::Origin => origin,
        Moment::At(n, Stage::Issue) => times_at(times, *n).issue,
        Moment::At(n, Stage::Start) => times_at(times, *n).start,
        Moment::At(_, Stage::Done(_)) | Moment::At(_, Stage::Free) => None,
        Moment::End => end,
    }
}

/// The time of a moment where a load may begin; that of the moment at which all paths begin is given.
pub(crate) fn time_along(
    direction: Direction,
    times: &[Times; BLOCK_LIMIT],
    first: Option<u64>,
    moment: &Moment,
) -> Option<u64>
    ensures { result ≡ time_along direction times.now first moment.now }
{
    match direction {
        Direction::Forward => time_at_moment(times, first, None, moment),
        Direction::Backward => time_at_moment(times, None, first, moment),
    }
}

/// 0 if they are the same.
pub(crate) fn zero_if_same(a: &Moment, b: &Moment) -> Option<u64>
    ensures { result ≡ only_if (same_moment a.now b.now) 0 }
{
    when(is_same_moment(a, b), Some(0))
}

/// Those of a number, which are at n - 1; no path if there are none.
pub fn times_at(times: &[Times; BLOCK_LIMIT], n: u8) -> Times
    ensures { result ≡ times_at times.now n }
{
    if n == 0 || n as usize > BLOCK_LIMIT {
        return Times::none();
    }
    times[n as usize - 1]
}

/// Whether two paths and a wait between them take so long at least.
pub(crate) fn reaches_through(low: u32, first: Option<u64>, wait: u32, second: Option<u64>) -> bool
    ensures { result ≡ reaches low (plus (plus first (Some wait)) second) }
{
    match (first, second) {
        (None, _) => false,
        (Some(_), None) => false,
        (Some(first), Some(second)) => {
            low as u64 <= first.saturating_add(wait as u64).saturating_add(second)
        }
    }
}

/// Whether two paths take so long at least.
pub fn reaches_both(low: u32, first: Option<u64>, second: Option<u64>) -> bool
    ensures { result ≡ reaches low (plus first second) }
{
    match (first, second) {
        (None, _) => false,
        (Some(_), None) => false,
        (Some(first), Some(second)) => low as u64 <= first.saturating_add(second),
    }
}

/// Whether one of these results is in a register.
fn is_written(results: &[Write], register: Reg) -> bool
    ensures { result ≡ some_of (λ (w : WriteOf). same_reg w.reg register) results.now }
{
    for write in results {
        if is_same_register(write.reg, register) {
            return true;
        }
    }
    false
}

/// Whether an instruction writes a register.
pub fn writes(row: &Row, register: Reg) -> bool
    ensures { result ≡ writes row.now register }
{
    is_written(row.writes.as_slice(), register)
}

/// Whether one of them is fetched from memory into a register.
fn is_fetched(results: &[Write], register: Reg) -> bool
    ensures { result ≡ some_of (λ (w : WriteOf). same_reg w.reg register && not w.held) results.now }
{
    for write in results {
        if is_same_register(write.reg, register) && !write.held {
            return true;
        }
    }
    false
}

/// Whether an instruction fetches a word from memory into a register, so that no unit holds this result.
pub fn fetches(row: &Row, register: Reg) -> bool
    ensures { result ≡ fetches row.now register }
{
    is_fetched(row.writes.as_slice(), register)
}

/// How many minor cycles the result in a register takes from the start of its instruction; 0 if none of these results is in it.
pub fn latency_to(results: &[Write], register: Reg) -> u32
    ensures { result ≡ greatest (λ (w : WriteOf). if same_reg w.reg register then w.latency else 0) results.now }
{
    let mut latency = 0u32;
    for write in results {
        if is_same_register(write.reg, register) {
            latency = latency.max(write.latency);
        }
    }
    latency
}

/// The later of the results of a row in registers that another one writes.
pub(crate) fn latest_written(by: &Row, time: &Times, row: &Row) -> Option<u64>
    ensures { result ≡ latest_done (writes by.now) time.now row.now.writes }
{
    match row.writes.as_slice() {
        [] => None,
        [one] => when(writes(by, one.reg), time.first),
        [one, two, ..] => later(
            when(writes(by, one.reg), time.first),
            when(writes(by, two.reg), time.second),
        ),
    }
}

/// The later of those in registers that another one reads.
pub(crate) fn latest_read(by: &Row, time: &Times, row: &Row) -> Option<u64>
    ensures { result ≡ latest_done (λ x. has_reg x by.now.reads) time.now row.now.writes }
{
    match row.writes.as_slice() {
        [] => None,
        [one] => when(has_register(by.reads.as_slice(), one.reg), time.first),
        [one, two, ..] => later(
            when(has_register(by.reads.as_slice(), one.reg), time.first),
            when(has_register(by.reads.as_slice(), two.reg), time.second),
        ),
    }
}

/// The later of those that its unit holds.
pub(crate) fn latest_held(row: &Row, time: &Times) -> Option<u64>
    ensures { result ≡ latest_done (λ x. not (fetches row.now x)) time.now row.now.writes }
{
    match row.writes.as_slice() {
        [] => None,
        [one] => when(!fetches(row, one.reg), time.first),
        [one, two, ..] => later(
            when(!fetches(row, one.reg), time.first),
            when(!fetches(row, two.reg), time.second),
        ),
    }
}

/// The later of them, each after its latency.
pub(crate) fn latest_result(row: &Row, time: &Times) -> Option<u64>
    ensures { result ≡ latest_result row.now time.now row.now.writes }
{
    match row.writes.as_slice() {
        [] => None,
        [one] => add(time.first, latency_to(row.writes.as_slice(), one.reg)),
        [one, two, ..] => later(
            add(time.first, latency_to(row.writes.as_slice(), one.reg)),
            add(time.second, latency_to(row.writes.as_slice(), two.reg)),
        ),
    }
}
