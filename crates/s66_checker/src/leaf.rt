//! Values of leaves, in minor cycles, and the numbers that are ready. The leaves are the four bounds without facts: a whole order, a
//! chain, a load, which is the work that remains for a kind of unit, shared by its copies and rounded up, and parcels.

ghost use Rattle.std.specs.Prelude.{◌≡◌, ◌+◌, ◌-◌, ◌*◌, ◌≤◌, ◌<◌, ◌^◌, ◌&&◌, nat_lt, true, length, IfSome, is_some};
ghost use Rattle.s66_isa.specs.{BLOCK_LIMIT};
ghost use Rattle.s66_model.specs.{points_of, row_at, next, is_remaining, ready, sum_remaining, Chain, head, link, is_linked, walk, work_of, over, if_last, parcels, load, chain_value};
ghost use Rattle.s66_checker.specs.{TOTAL_LIMIT, has_links, is_walk};

use crate::links::{link, own_parcels, tail, work};
use crate::replay::{Numbers, Prefix, next, registers_done, rest_busy, writes_done};
use arrayvec::ArrayVec;
use s66_isa::Kind;

/// What is ready after the prefix, rising: one look at a word for each number of the block.
pub(crate) fn ready(prefix: &Prefix) -> Numbers
    ensures { result.items ≡ ready prefix.now.problem.block prefix.now.numbers }
{
    let mut ready = ArrayVec::new();
    for position in 0..prefix.count() {
        if prefix.is_ready(position + 1) {
            ready.push(position + 1);
        }
    }
    ready
}

/// The parcels of all that remains.
pub fn remaining_parcels(prefix: &Prefix) -> u32
    ensures value { result ≡
        sum_remaining prefix.now.problem.block prefix.now.numbers (λ m. (row_at prefix.now.problem m).parcels) }
    ensures at_most { result ≤ 2 * BLOCK_LIMIT }
{
    let mut parcels = 0;
    for position in 0..prefix.count() {
        if prefix.is_remaining(position + 1) {
            parcels += own_parcels(prefix.row(position + 1));
        }
    }
    parcels
}

/// When all units are free and all results are done at least, if this number is the last: all that remain, with it, have
/// `parcels` parcels, and the first of them issues in this slot.
fn if_last(prefix: &Prefix, slot: u32, parcels: u32, n: u8) -> u32
    requires within { (1 ≤ n) × (n ≤ length prefix.now.problem.block) }
    requires slot { (slot ≡ next (points_of prefix.now.problem prefix.now.numbers)) × (slot ≤ TOTAL_LIMIT + 1) }
    requires parcels { (parcels ≡ sum_remaining prefix.now.problem.block prefix.now.numbers
        (λ m. (row_at prefix.now.problem m).parcels)) × (parcels ≤ 2 * BLOCK_LIMIT) }
    ensures { result ≡ if_last prefix.now.problem prefix.now.numbers n }
{
    let row = prefix.row(n);
    slot + parcels.saturating_sub(own_parcels(row)) + tail(row)
}

/// The parcels that remain after the next slot, and the least tail after them.
pub(crate) fn parcels(prefix: &Prefix) -> u32
    ensures { result ≡ parcels prefix.now.problem prefix.now.numbers }
{
    let slot = next(prefix.points());
    let parcels = remaining_parcels(prefix);
    let mut least = None;
    for position in 0..prefix.count() {
        if prefix.is_remaining(position + 1) {
            let end = if_last(prefix, slot, parcels, position + 1);
            least = match least {
                None => Some(end),
                Some(other) => Some(end.min(other)),
            };
        }
    }
    match least {
        None => 0,
        Some(end) => end,
    }
}

/// The work that remains for a kind of unit.
pub fn remaining_work(prefix: &Prefix, kind: Kind) -> u32
    ensures value { result ≡
        sum_remaining prefix.now.problem.block prefix.now.numbers (λ m. work_of kind (row_at prefix.now.problem m)) }
    ensures at_most { result ≤ TOTAL_LIMIT }
{
    let mut sum = 0;
    for position in 0..prefix.count() {
        if prefix.is_remaining(position + 1) {
            sum += work(prefix.row(position + 1), kind);
        }
    }
    sum
}

/// How long `copies` units work, if the work is divided among them: rounded up.
pub(crate) fn over(work: u32, copies: u32) -> u32
    requires copies { (1 ≤ copies) × (copies ≤ 100) }
    requires work { work + 100 < 2 ^ 32 }
    ensures value { result ≡ over work copies }
    ensures at_most { result ≤ work + 100 }
{
    (work + (copies - 1)) / copies
}

/// The load of a kind of unit: what remains for its copies and what they still work on, after the next slot.
pub fn load(prefix: &Prefix, kind: Kind) -> u32
    ensures { result ≡ load prefix.now.problem prefix.now.numbers kind }
{
    let slot = next(prefix.points());
    let work = remaining_work(prefix, kind) + rest_busy(prefix.points(), kind, slot);
    over(work, prefix.copies(kind)) + slot
}

/// When the instruction of a number starts at the soonest: it is next, and the registers are done that it reads or writes.
pub fn head(prefix: &Prefix, n: u8) -> u32
    requires { (1 ≤ n) × (n ≤ length prefix.now.problem.block) }
    ensures value { result ≡ head (points_of prefix.now.problem prefix.now.numbers) (row_at prefix.now.problem n) }
    ensures at_most { result ≤ TOTAL_LIMIT + 1 }
{
    let row = prefix.row(n);
    let past = prefix.past();
    let read = registers_done(past, row.reads.as_slice());
    let written = writes_done(past, row.writes.as_slice());
    next(prefix.points()).max(read.max(written))
}

/// How long m waits from the start of n, which remains; 0 if m doesn't remain, or they have no link.
fn wait(prefix: &Prefix, n: u8, m: u8) -> u32
    requires { is_remaining prefix.now.problem.block prefix.now.numbers n ≡ true }
    ensures links { nat_lt 0 result ≡
        (is_remaining prefix.now.problem.block prefix.now.numbers m && is_linked prefix.now.problem n m) }
    ensures value { 0 < result → result ≡ link (row_at prefix.now.problem n) (row_at prefix.now.problem m) }
{
    if !prefix.is_remaining(m) || m <= n {
        return 0;
    }
    link(prefix.row(n), prefix.row(m))
}

/// How long the walk from a number that remains along these takes, from its start to the end of the last. None if one of these
/// doesn't remain, or neighbours have no link.
fn walk(prefix: &Prefix, n: u8, later: &[u8]) -> Option<u32>
    requires few { length prefix.now.problem.block ≤ BLOCK_LIMIT }
    requires remains { is_remaining prefix.now.problem.block prefix.now.numbers n ≡ true }
    ensures links { is_some result ≡ is_walk prefix.now.problem prefix.now.numbers n later.now }
    ensures value { IfSome result (λ time. time ≡ walk prefix.now.problem n later.now) }
    ensures at_most { IfSome result (λ time. time ≤ TOTAL_LIMIT) }
{
    let mut last = n;
    let mut time = 0;
    for m in later {
        let wait = wait(prefix, last, *m);
        if wait == 0 {
            return None;
        }
        time += wait;
        last = *m;
    }
    Some(time + tail(prefix.row(last)))
}

/// The value of a chain; None if one of its numbers doesn't remain, or neighbours have no link.
pub(crate) fn chain_value(prefix: &Prefix, numbers: &[u8]) -> Option<u32>
    requires { length prefix.now.problem.block ≤ BLOCK_LIMIT }
    ensures links { is_some result ≡ has_links prefix.now.problem prefix.now.numbers (Chain numbers.now) }
    ensures value { IfSome result (λ value. value ≡ chain_value prefix.now.problem prefix.now.numbers numbers.now) }
{
    let (first, later) = numbers.split_first()?;
    if !prefix.is_remaining(*first) {
        return None;
    }
    let time = walk(prefix, *first, later)?;
    Some(head(prefix, *first) + time)
}
