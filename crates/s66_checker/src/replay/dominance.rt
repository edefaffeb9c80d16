//! Whether one beginning of an order leaves nothing later than another does, by its points and words. Points are in order, the oldest
//! first, and times are in minor cycles.

ghost use Rattle.std.specs.Prelude.{◌≡◌, ◌≤◌, reverse};
ghost use Rattle.s66_model.specs.{free_times};
ghost use Rattle.s66_checker.specs.{AreTimed, are_places_no_later, are_units_no_later, is_no_later, are_results_no_later, are_operands_no_later, is_reader_no_later, are_readers_no_later};
ghost use Rattle.s66_checker.specs.{finds_no_later};

use crate::replay::falling::FallingTimes;
use crate::replay::past::Past;
use crate::replay::point::KeptPoint;
use crate::replay::timing::{next, next_parcel};
use s66_isa::{KINDS, Kind, Profile, Reg, Row, Write, is_same_kind, kind_number};

/// When the units of a kind are free, the latest first: one look at each point.
fn free_times(points: &[KeptPoint], kind: Kind) -> FallingTimes
    requires { AreTimed points.now }
    ensures { result ≡ free_times kind (reverse points.now) }
{
    let mut times = FallingTimes::new();
    for point in points {
        if is_same_kind(point.kind(), kind) {
            times.insert(point.free());
        }
    }
    times
}

/// Whether a kind's units, `copies` of them, are free no later than another past's, place by place, or than
/// the clamp.
///
/// For one copy or two it reads two words. For more it looks at each point.
fn are_units_no_later(own: &Past, other: &Past, kind: Kind, copies: u32, clamp: u32) -> bool
    requires some { 1 ≤ copies }
    requires own { AreTimed own.now }
    requires other { AreTimed other.now }
    ensures { result ≡
        are_places_no_later copies clamp (free_times kind (reverse own.now)) (free_times kind (reverse other.now)) }
{
    if copies > 2 {
        return free_times(own.points(), kind).are_no_later(
            &free_times(other.points(), kind),
            copies,
            clamp,
        );
    }
    let place = kind_number(kind);
    let first = own.words().free[place];
    let second = other.words().free[place];
    if first.all > second.all.max(clamp) {
        return false;
    }
    if copies == 1 {
        return true;
    }
    first.all_but_one <= second.all_but_one.max(clamp)
}

/// The same of all kinds, of which there are as many units as a profile has.
fn are_all_units_no_later(own: &Past, other: &Past, profile: &Profile, clamp: u32) -> bool
    requires own { AreTimed own.now }
    requires other { AreTimed other.now }
    ensures { result ≡ are_units_no_later profile.now clamp (reverse own.now) (reverse other.now) }
{
    for kind in KINDS {
        if !are_units_no_later(own, other, kind, profile.copies(kind), clamp) {
            return false;
        }
    }
    true
}

/// Whether a past under a profile leaves nothing later than another one does, or than the clamps: that of registers'
/// readers, and that of all else.
pub(crate) fn is_no_later(
    own: &Past,
    other: &Past,
    profile: &Profile,
    readers: u32,
    others: u32,
) -> bool
    requires own { AreTimed own.now }
    requires other { AreTimed other.now }
    ensures { result ≡
        is_no_later profile.now (record { readers = readers; others = others }) (reverse own.now) (reverse other.now) }
{
    if next(own.points()) > next(other.points()) {
        return false;
    }
    if next_parcel(own.points()) % 4 != next_parcel(other.points()) % 4 {
        return false;
    }
    let first = own.words();
    let second = other.words();
    if !first.done.are_no_later(&second.done, others) {
        return false;
    }
    if !first.read.are_no_later(&second.read, readers) {
        return false;
    }
    if !are_all_units_no_later(own, other, profile, others) {
        return false;
    }
    if first.store > second.store.max(others) {
        return false;
    }
    first.load <= second.load.max(others)
}

/// Whether the last results in the registers of these writes are there no later than in another past, or than a time.
fn are_results_no_later(own: &Past, other: &Past, writes: &[Write], issue: u32) -> bool
    ensures { result ≡ are_results_no_later issue own.now other.now writes.now }
{
    for write in writes {
        if own.done_of(write.reg) > other.done_of(write.reg).max(issue) {
            return false;
        }
    }
    true
}

/// Whether the last results in these registers are.
fn are_operands_no_later(own: &Past, other: &Past, reads: &[Reg], start: u32) -> bool
    ensures { result ≡ are_operands_no_later start own.now other.now reads.now }
{
    for register in reads {
        if own.done_of(*register) > other.done_of(*register).max(start) {
            return false;
        }
    }
    true
}

/// Whether the readers of the register of a write have started no later than in another past, or than its result is there after a
/// start.
fn is_reader_no_later(own: &Past, other: &Past, write: &Write, start: u32) -> bool
    ensures { result ≡ is_reader_no_later start own.now other.now write.now }
{
    let wait = own.readers_wait(write.reg);
    wait <= other.readers_wait(write.reg) || wait.saturating_sub(write.latency) <= start
}

/// Whether those of all these writes have.
fn are_readers_no_later(own: &Past, other: &Past, writes: &[Write], start: u32) -> bool
    ensures { result ≡ are_readers_no_later start own.now other.now writes.now }
{
    for write in writes {
        if !is_reader_no_later(own, other, write, start) {
            return false;
        }
    }
    true
}

/// Whether an instruction of this row that comes after both, with `copies` units of its kind, finds nothing that it waits for later
/// in a past than in another one, or than it looks at that: it issues and starts no sooner than at these times.
pub(crate) fn finds_no_later(
    own: &Past,
    other: &Past,
    row: &Row,
    copies: u32,
    issue: u32,
    start: u32,
) -> bool
    requires some { 1 ≤ copies }
    requires own { AreTimed own.now }
    requires other { AreTimed other.now }
    ensures { result ≡ finds_no_later copies (reverse own.now) (reverse other.now) issue start row.now }
{
    let writes = row.writes.as_slice();
    if !are_results_no_later(own, other, writes, issue) {
        return false;
    }
    if !are_units_no_later(own, other, row.kind, copies, issue) {
        return false;
    }
    if !are_operands_no_later(own, other, row.reads.as_slice(), start) {
        return false;
    }
    if own.memory_wait(row.memory) > other.memory_wait(row.memory).max(start) {
        return false;
    }
    are_readers_no_later(own, other, writes, start)
}
