//! The times of an instruction by what all that come before it leave. Points are in order, the oldest first, and times are in
//! minor cycles.

ghost use Rattle.std.specs.Prelude.{◌≡◌, ◌+◌, ◌<◌, ◌≤◌, ◌^◌, length, map, reverse};
ghost use Rattle.s66_isa.specs.{greatest, weigh, Write as WriteOf};
ghost use Rattle.s66_model.specs.{fits_at, Problem, done_of, next, next_parcel, parcel_of, slot_of, issue_of, start_of, readers_wait, result_at, point, rest_busy};
ghost use Rattle.s66_checker.specs.{TOTAL_LIMIT, with_profile, AreTimed};

use crate::replay::past::Past;
use crate::replay::point::KeptPoint;
use crate::replay::result::{KeptResult, free_after};
use arrayvec::ArrayVec;
use s66_isa::{Kind, Profile, Reg, Row, Write};

/// For how long the units of a kind work after a time, all together.
pub fn rest_busy(points: &[KeptPoint], kind: Kind, time: u32) -> u32
    requires { AreTimed points.now }
    ensures { result ≡ weigh (rest_busy kind time) points.now }
{
    let mut busy = 0;
    for point in points {
        busy += point.rest_busy(kind, time);
    }
    busy
}

/// When the last result in any of these registers is done.
pub(crate) fn registers_done(past: &Past, registers: &[Reg]) -> u32
    ensures { result ≡ greatest (λ r. done_of past.now r) registers.now }
{
    let mut last = 0u32;
    for register in registers {
        last = last.max(past.done_of(*register));
    }
    last
}

/// When the last earlier result in a register of these results is done.
pub(crate) fn writes_done(past: &Past, writes: &[Write]) -> u32
    ensures { result ≡ greatest (λ (w : WriteOf). done_of past.now w.reg) writes.now }
{
    let mut last = 0u32;
    for write in writes {
        last = last.max(past.done_of(write.reg));
    }
    last
}

/// The first minor cycle in which a next instruction could issue: the last issue plus its parcels.
pub fn next(points: &[KeptPoint]) -> u32
    requires { AreTimed points.now }
    ensures value { result ≡ next (reverse points.now) }
    ensures at_most { result ≤ TOTAL_LIMIT + 1 }
{
    match points.last() {
        None => 0,
        Some(last) => last.issue + last.parcels(),
    }
}

/// Where an instruction of one or two parcels begins if the parcels from this one on are empty.
fn fits_at(parcel: u32, parcels: u32) -> u32
    requires { parcel + 1 < 2 ^ 32 }
    ensures { result ≡ fits_at parcel parcels }
{
    if parcels == 2 && parcel % 4 == 3 {
        parcel + 1
    } else {
        parcel
    }
}

/// The parcel after the last instruction, from 0, before a NO is put in.
pub(crate) fn next_parcel(points: &[KeptPoint]) -> u32
    requires { AreTimed points.now }
    ensures value { result ≡ next_parcel (reverse points.now) }
    ensures at_most { result ≤ TOTAL_LIMIT + 1 }
{
    match points.last() {
        None => 0,
        Some(last) => last.parcel + last.parcels(),
    }
}

/// The parcel in which the next instruction begins, by the parcels that it has.
fn parcel(points: &[KeptPoint], parcels: u32) -> u32
    requires { AreTimed points.now }
    ensures { result ≡ parcel_of (reverse points.now) parcels }
{
    fits_at(next_parcel(points), parcels)
}

/// The first minor cycle in which the next instruction may issue, by the parcels that it has.
fn slot(points: &[KeptPoint], parcels: u32) -> u32
    requires { AreTimed points.now }
    ensures { result ≡ slot_of (reverse points.now) parcels }
{
    match points.last() {
        None => 0,
        Some(last) => last.issue + (parcel(points, parcels) - last.parcel),
    }
}

/// When the next instruction issues under a profile: a unit is free for it, and no earlier result of its registers is to come.
fn issue(past: &Past, profile: &Profile, row: &Row) -> u32
    requires { AreTimed past.now }
    ensures { result ≡ issue_of (with_profile profile.now) (reverse past.now) row.now }
{
    let slot = slot(past.points(), row.parcels);
    let written = writes_done(past, row.writes.as_slice());
    past.first_free(row.kind, profile.copies(row.kind), slot.max(written))
}

/// When the next instruction starts, which issues then: its operands are done, and memory is its to reference.
fn start(past: &Past, row: &Row, issue: u32) -> u32
    requires { AreTimed past.now }
    ensures { (b : Problem) → issue ≡ issue_of b (reverse past.now) row.now →
        result ≡ start_of b (reverse past.now) row.now }
{
    let done = registers_done(past, row.reads.as_slice());
    issue.max(done.max(past.memory_wait(row.memory)))
}

/// When each result is done if the unit starts then: a result waits until its earlier readers have started.
fn results(past: &Past, writes: &[Write], start: u32) -> ArrayVec<KeptResult, 2>
    requires few { length writes.now ≤ 2 }
    requires latencies { greatest (λ (w : WriteOf). w.latency) writes.now ≤ 100 }
    requires start { start ≤ TOTAL_LIMIT + 3 }
    ensures { result.items ≡ map (result_at past.now start) writes.now }
{
    let mut results = ArrayVec::new();
    for write in writes {
        results.push(KeptResult {
            reg: write.reg,
            time: (start + write.latency).max(past.readers_wait(write.reg)),
            held: write.held,
        });
    }
    results
}

/// The next instruction with its times under a profile.
pub(crate) fn next_point(past: &Past, profile: &Profile, number: u8, row: Row) -> KeptPoint
    requires { AreTimed past.now }
    ensures { result ≡ point (with_profile profile.now) (reverse past.now) number row }
{
    let issue = issue(past, profile, &row);
    let start = start(past, &row, issue);
    let results = results(past, row.writes.as_slice(), start);
    let free = free_after(start, row.hold, results.as_slice());
    KeptPoint {
        number,
        parcel: parcel(past.points(), row.parcels),
        row,
        issue,
        start,
        free,
        results,
    }
}
