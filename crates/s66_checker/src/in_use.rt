//! Whether one beginning of an order dominates another in use, below a time: what a number that remains will wait for counts only from
//! the moment on at which the number could look at it at the soonest. All times are in minor cycles.

ghost use Rattle.std.specs.Prelude.{ℕ, ◌≡◌, ◌≤◌, ◌*◌, ◌↔◌, IsTrue, true, if◌then◌else◌, length};
ghost use Rattle.s66_isa.specs.{BLOCK_LIMIT};
ghost use Rattle.s66_model.specs.{row_at, is_remaining, sum_remaining};
ghost use Rattle.s66_facts.specs.{known_of as known_in};
ghost use Rattle.s66_checker.specs.{number_finds_no_later, dominates_in_use};

use crate::known::Known;
use crate::links::own_parcels;
use crate::replay::{Prefix, finds_no_later, next, next_parcel};

/// The parcels of a number that is known to stand before another, 0 if it isn't.
fn parcels_if_before(prefix: &Prefix, known: &Known, m: u8, n: u8) -> u32
    requires same { prefix.now.problem ≡ known.now.problem }
    requires first { (1 ≤ m) × (m ≤ length prefix.now.problem.block) }
    requires second { (1 ≤ n) × (n ≤ length prefix.now.problem.block) }
    ensures { result ≡ if (known_in known.now).before m n then (row_at prefix.now.problem m).parcels else 0 }
{
    if known.is_before(m, n) {
        own_parcels(prefix.row(m))
    } else {
        0
    }
}

/// The parcels of all that remains after a prefix and is known to stand before a number: a look at each other number.
fn parcels_before(prefix: &Prefix, known: &Known, n: u8) -> u32
    requires same { prefix.now.problem ≡ known.now.problem }
    requires number { (1 ≤ n) × (n ≤ length prefix.now.problem.block) }
    ensures value { result ≡ sum_remaining prefix.now.problem.block prefix.now.numbers
        (λ m. if (known_in known.now).before m n then (row_at prefix.now.problem m).parcels else 0) }
    ensures at_most { result ≤ 2 * BLOCK_LIMIT }
{
    let mut parcels = 0;
    for position in 0..prefix.count() {
        if prefix.is_remaining(position + 1) {
            parcels += parcels_if_before(prefix, known, position + 1, n);
        }
    }
    parcels
}

/// Whether a number that remains after both finds nothing later after a beginning than after another one of the same block, or than it
/// looks at that.
///
/// What must come before the number is looked for only if it finds something later as if it came next.
fn number_finds_no_later(own: &Prefix, at: &Prefix, known: &Known, n: u8) -> bool
    requires same { own.now.problem ≡ at.now.problem }
    requires known { at.now.problem ≡ known.now.problem }
    requires number { (1 ≤ n) × (n ≤ length at.now.problem.block) }
    ensures { result ≡ number_finds_no_later at.now.problem (known_in known.now) own.now.numbers at.now.numbers n }
{
    let past = own.past();
    let other = at.past();
    let row = at.row(n);
    let copies = at.copies(row.kind);
    let point = at.next_point(n);
    if finds_no_later(past, other, row, copies, point.issue, point.start) {
        return true;
    }
    let turn = next(at.points()) + parcels_before(at, known, n);
    let issue = point.issue.max(turn);
    let start = point.start.max(turn);
    finds_no_later(past, other, row, copies, issue, start)
}

/// Whether each number that remains does.
fn all_find_no_later(own: &Prefix, at: &Prefix, known: &Known) -> bool
    requires same { own.now.problem ≡ at.now.problem }
    requires known { at.now.problem ≡ known.now.problem }
    ensures { IsTrue result ↔ ((n : ℕ) → is_remaining at.now.problem.block at.now.numbers n ≡ true →
        number_finds_no_later at.now.problem (known_in known.now) own.now.numbers at.now.numbers n ≡ true) }
{
    for position in 0..at.count() {
        let n = position + 1;
        if at.is_remaining(n) && !number_finds_no_later(own, at, known, n) {
            return false;
        }
    }
    true
}

/// Whether a beginning dominates another one of the same block under the same profile in use, below a time, by what is known.
///
/// Each number that remains is timed once, as if it came next after the other.
pub(crate) fn dominates_in_use(own: &Prefix, at: &Prefix, known: &Known, low: u32) -> bool
    requires same { own.now.problem ≡ at.now.problem }
    requires known { at.now.problem ≡ known.now.problem }
    ensures { result ≡ dominates_in_use at.now.problem low (known_in known.now) own.now.numbers at.now.numbers }
{
    if !own.has_set_of(at) {
        return false;
    }
    let first = own.points();
    let second = at.points();
    if next(first) > next(second) {
        return false;
    }
    if next_parcel(first) % 4 != next_parcel(second) % 4 {
        return false;
    }
    if own.total() >= low && own.total() > at.total() {
        return false;
    }
    all_find_no_later(own, at, known)
}
