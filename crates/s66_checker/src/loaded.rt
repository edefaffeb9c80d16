//! Whether a prefix is closed by what units of one kind have to do for some numbers that remain. All times are in minor cycles.
//!
//! It is energetic reasoning below a prefix: from a minor cycle on at the soonest these instructions use units of one kind, for so long
//! in sum, and after any of them so much is left; so each order that begins with the prefix takes the bound at least.

ghost use Rattle.std.specs.Prelude.{◌≡◌, ◌≤◌, ◌<◌, ◌+◌, ◌*◌, ◌&&◌, Some, true, nat_le, length, map};
ghost use Rattle.s66_isa.specs.{BLOCK_LIMIT, every, least, weigh};
ghost use Rattle.s66_model.specs.{row_at, is_remaining};
ghost use Rattle.s66_moments.specs.{Use, use_time, use_of, reaches, plus, are_rising, is_left, is_loaded};
ghost use Rattle.s66_facts.specs.{known_of as known_in};

use crate::known::Known;
use crate::leaf::over;
use crate::replay::Prefix;
use s66_facts::are_rising;
use s66_isa::{Kind, is_same_kind};

/// Whether each of these numbers remains.
fn are_remaining(prefix: &Prefix, numbers: &[u8]) -> bool
    ensures { result ≡ every (is_remaining prefix.now.problem.block prefix.now.numbers) numbers.now }
{
    for n in numbers {
        if !prefix.is_remaining(*n) {
            return false;
        }
    }
    true
}

/// For how long a number has its unit: it works, and is free a minor cycle later.
fn amount(prefix: &Prefix, n: u8) -> u32
    requires { is_remaining prefix.now.problem.block prefix.now.numbers n ≡ true }
    ensures value { result ≡ (row_at prefix.now.problem n).hold + 1 }
    ensures at_most { result ≤ 101 }
{
    prefix.row(n).hold + 1
}

/// For how long all of these have theirs.
pub fn amounts(prefix: &Prefix, numbers: &[u8]) -> u32
    requires few { length numbers.now ≤ BLOCK_LIMIT }
    requires remain { every (is_remaining prefix.now.problem.block prefix.now.numbers) numbers.now ≡ true }
    ensures value { result ≡ weigh (λ (u : Use). u.amount) (map (use_of prefix.now.problem) numbers.now) }
    ensures at_most { result ≤ 101 * BLOCK_LIMIT }
{
    let mut sum = 0;
    for n in numbers {
        sum += amount(prefix, *n);
    }
    sum
}

/// For how long each of these has it at least.
fn least_amount(prefix: &Prefix, numbers: &[u8]) -> u32
    requires some { 0 < length numbers.now }
    requires remain { every (is_remaining prefix.now.problem.block prefix.now.numbers) numbers.now ≡ true }
    ensures value { result ≡ least (λ (u : Use). u.amount) (map (use_of prefix.now.problem) numbers.now) }
    ensures at_most { result ≤ 101 }
{
    let mut low = amount(prefix, numbers[0]);
    for n in numbers {
        low = low.min(amount(prefix, *n));
    }
    low
}

/// For how long the units of a kind have work: if they share all that, rounded up, and since one of them has as many of the numbers as it
/// has at least.
pub fn use_time(prefix: &Prefix, kind: Kind, numbers: &[u8]) -> u32
    requires some { 0 < length numbers.now }
    requires few { length numbers.now ≤ BLOCK_LIMIT }
    requires remain { every (is_remaining prefix.now.problem.block prefix.now.numbers) numbers.now ≡ true }
    ensures value { result ≡ use_time prefix.now.problem kind (map (use_of prefix.now.problem) numbers.now) }
    ensures at_most { result ≤ 101 * (BLOCK_LIMIT + 100) }
{
    let copies = prefix.copies(kind);
    let shared = over(amounts(prefix, numbers), copies);
    let whole = over(numbers.len() as u32, copies) * least_amount(prefix, numbers);
    shared.max(whole)
}

/// Whether a use begins at `after` at the soonest, and the longest path from there to the end, added to `until`, reaches `low`.
fn is_left_from(begins: u32, path: Option<u64>, after: u32, until: u64, low: u64) -> bool
    ensures { result ≡ (nat_le after begins && reaches low (plus (Some until) path)) }
{
    match path {
        None => false,
        Some(path) => after <= begins && low.saturating_sub(until) <= path,
    }
}

/// Whether the unit of a number that remains is of the kind, and its use begins with its issue or its start: at `after` at the soonest, if
/// it came next; and `after`, the time of all uses, and what is left after this one take the bound.
fn is_left(
    prefix: &Prefix,
    known: &Known,
    kind: Kind,
    bound: u32,
    after: u32,
    time: u32,
    n: u8,
) -> bool
    requires same { prefix.now.problem ≡ known.now.problem }
    requires number { is_remaining prefix.now.problem.block prefix.now.numbers n ≡ true }
    ensures { result ≡ is_left prefix.now.problem (known_in known.now) prefix.now.numbers kind bound after time n }
{
    if !is_same_kind(prefix.row(n).kind, kind) {
        return false;
    }
    // the use itself is in the time of all and on the path
    let low = amount(prefix, n) as u64 + bound as u64;
    let until = after as u64 + time as u64;
    let point = prefix.next_point(n);
    let tails = known.tails(n);
    is_left_from(point.issue, tails.issue, after, until, low)
        || is_left_from(point.start, tails.start, after, until, low)
}

/// Whether this holds of each of these numbers.
fn are_left(
    prefix: &Prefix,
    known: &Known,
    kind: Kind,
    bound: u32,
    after: u32,
    time: u32,
    numbers: &[u8],
) -> bool
    requires same { prefix.now.problem ≡ known.now.problem }
    requires remain { every (is_remaining prefix.now.problem.block prefix.now.numbers) numbers.now ≡ true }
    ensures { result ≡
        every (is_left prefix.now.problem (known_in known.now) prefix.now.numbers kind bound after time) numbers.now }
{
    for n in numbers {
        if !is_left(prefix, known, kind, bound, after, time, *n) {
            return false;
        }
    }
    true
}

/// Whether these numbers, at least one, rise, remain after a prefix and need units of one kind, which do it all from `after` on at the
/// soonest: that, the time of all uses, and what is left after any one of them take the bound.
///
/// Each number is timed once, as if it came next. This takes a time linear in the numbers, if their kind has one copy or two; if it has
/// more, timing a number takes some looks at each that is placed.
pub(crate) fn is_loaded(
    prefix: &Prefix,
    known: &Known,
    bound: u32,
    after: u32,
    numbers: &[u8],
) -> bool
    requires same { prefix.now.problem ≡ known.now.problem }
    requires few { length prefix.now.problem.block ≤ BLOCK_LIMIT }
    ensures { result ≡ is_loaded prefix.now.problem (known_in known.now) prefix.now.numbers bound after numbers.now }
{
    if numbers.is_empty() || !are_rising(numbers) || !are_remaining(prefix, numbers) {
        return false;
    }
    let kind = prefix.row(numbers[0]).kind;
    let time = use_time(prefix, kind, numbers);
    are_left(prefix, known, kind, bound, after, time, numbers)
}
