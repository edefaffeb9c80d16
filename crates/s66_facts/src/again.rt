//! The longest paths once something more is known: only the times of numbers that may change are found again.
//!
//! A number is settled once all that comes sooner is. If its times change, those that come later have to be settled again; all others
//! keep what was found before. So one more fact costs a step for each number whose times may change, and not the whole network.

ghost use Rattle.std.specs.Prelude.{ℕ, ◌+◌, ◌≡◌, ◌≤◌, ◌<◌, ◌||◌, IsTrue, true, false, length};
ghost use Rattle.s66_isa.specs.{BLOCK_LIMIT, has, numbers_in};
ghost use Rattle.s66_moments.specs.{Issue, Start, At, IsNumber, same_moment};
ghost use Rattle.s66_facts.specs.{before_in, IsAcyclic, can_begin, sooner, AreAll, IsReady, IsMarkedUpTo, AreSettled, keeps, nth_number};

use crate::direction::Direction;
use crate::graph::Graph;
use crate::paths::times_of;
use crate::times::{Times, is_same_moment, times_at};
use s66_isa::{BLOCK_LIMIT, Set};
use s66_moments::{Moment, Stage};

/// Whether the same numbers come sooner than k if m comes sooner than n too.
fn keeps(direction: Direction, graph: &Graph, m: u8, n: u8, k: u8) -> bool
    requires m { IsNumber graph.now.problem m }
    requires n { IsNumber graph.now.problem n }
    requires k { IsNumber graph.now.problem k }
    ensures { result ≡ keeps (sooner direction (before_in graph.now.marks)) m n k }
{
    graph.is_sooner(direction, m, k) || !(k == n || graph.is_sooner(direction, n, k))
}

/// The numbers than which the same ones come sooner if m comes sooner than n too.
pub(crate) fn all_kept(direction: Direction, graph: &Graph, m: u8, n: u8) -> Set
    requires m { IsNumber graph.now.problem m }
    requires n { IsNumber graph.now.problem n }
    requires few { length graph.now.problem.block ≤ BLOCK_LIMIT }
    ensures { (k : ℕ) → IsNumber graph.now.problem k → has k (numbers_in result) ≡ true →
        keeps (sooner direction (before_in graph.now.marks)) m n k ≡ true }
{
    let mut same = Set::empty();
    for position in 0..graph.count() {
        if keeps(direction, graph, m, n, position + 1) {
            same = same.with(position + 1);
        }
    }
    same
}

/// Whether a moment is the issue or the start of a number.
fn is_its(moment: &Moment, n: u8) -> bool
    ensures { result ≡ (same_moment moment.now (At n Issue) || same_moment moment.now (At n Start)) }
{
    is_same_moment(moment, &Moment::At(n, Stage::Issue))
        || is_same_moment(moment, &Moment::At(n, Stage::Start))
}

/// All numbers but that of a moment, an issue or a start.
pub(crate) fn all_but(graph: &Graph, moment: &Moment) -> Set
    requires { length graph.now.problem.block ≤ BLOCK_LIMIT }
    ensures { (k : ℕ) → IsNumber graph.now.problem k → has k (numbers_in result) ≡ true →
        (same_moment moment.now (At k Issue) || same_moment moment.now (At k Start)) ≡ false }
{
    let mut others = Set::empty();
    for position in 0..graph.count() {
        if !is_its(moment, position + 1) {
            others = others.with(position + 1);
        }
    }
    others
}

/// Settles n, once all that comes sooner is settled: finds its times, and if they are others, what comes later has to be settled again.
fn settle(
    direction: Direction,
    graph: &Graph,
    from: &Moment,
    times: &mut [Times; BLOCK_LIMIT],
    settled: Set,
    n: u8,
) -> Set
    requires n { IsNumber graph.now.problem n }
    requires few { length graph.now.problem.block ≤ BLOCK_LIMIT }
    requires ordered { IsAcyclic graph.now }
    requires from { can_begin direction from.now ≡ true }
    ensures right { AreSettled direction graph.now from.now times.old settled →
        AreSettled direction graph.now from.now times.new result }
    ensures kept { (k : ℕ) → IsNumber graph.now.problem k → has k (numbers_in settled) ≡ true →
        (sooner direction (before_in graph.now.marks) n k ≡ true → has n (numbers_in settled) ≡ true) →
        has k (numbers_in result) ≡ true }
    ensures ready { IsReady direction graph.now settled n → has n (numbers_in result) ≡ true }
{
    if settled.has(n) {
        return settled;
    }
    if !graph.near(direction, n).is_within(&settled) {
        return settled;
    }
    let time = times_of(direction, graph, from, times, n);
    if time.is_same(&times_at(times, n)) {
        return settled.with(n);
    }
    times[n as usize - 1] = time;
    settled.without(&graph.later(direction, n)).with(n)
}

/// The number that is looked at after so many others: what comes sooner is mostly looked at before.
fn number_after(direction: Direction, graph: &Graph, position: u8) -> u8
    requires { position < length graph.now.problem.block }
    ensures { result ≡ nth_number direction (length graph.now.problem.block) position }
{
    let count = graph.count();
    match direction {
        Direction::Forward => position + 1,
        Direction::Backward => count - position,
    }
}

/// Settles each number that can be, in the order of the direction.
fn settle_each(
    direction: Direction,
    graph: &Graph,
    from: &Moment,
    times: &mut [Times; BLOCK_LIMIT],
    settled: Set,
) -> Set
    requires few { length graph.now.problem.block ≤ BLOCK_LIMIT }
    requires ordered { IsAcyclic graph.now }
    requires from { can_begin direction from.now ≡ true }
    ensures right { AreSettled direction graph.now from.now times.old settled →
        AreSettled direction graph.now from.now times.new result }
    ensures more { (h : ℕ) → IsMarkedUpTo direction graph.now h settled →
        IsMarkedUpTo direction graph.now (h + 1) result }
{
    let mut done = settled;
    for position in 0..graph.count() {
        let n = number_after(direction, graph, position);
        done = settle(direction, graph, from, times, done, n);
    }
    done
}

/// Whether all numbers are marked.
fn are_all(graph: &Graph, done: &Set) -> bool
    requires { length graph.now.problem.block ≤ BLOCK_LIMIT }
    ensures { IsTrue result → (n : ℕ) → IsNumber graph.now.problem n → has n (numbers_in done.now) ≡ true }
{
    for position in 0..graph.count() {
        if !done.has(position + 1) {
            return false;
        }
    }
    true
}

/// Makes times the longest paths from a moment in a direction: for numbers that are settled they agree. It takes the time of one step for
/// each number that isn't settled or comes later than one whose times change.
pub(crate) fn find_again(
    direction: Direction,
    graph: &Graph,
    from: &Moment,
    times: &mut [Times; BLOCK_LIMIT],
    settled: Set,
)
    requires few { length graph.now.problem.block ≤ BLOCK_LIMIT }
    requires ordered { IsAcyclic graph.now }
    requires from { can_begin direction from.now ≡ true }
    requires settled { AreSettled direction graph.now from.now times.old settled }
    ensures { AreAll direction graph.now from.now times.new }
{
    let mut done = settled;
    for _round in 0..graph.count() {
        done = settle_each(direction, graph, from, times, done);
        if are_all(graph, &done) {
            return;
        }
    }
}

/// The longest paths from a moment to all instructions in a direction: each is settled once, with what comes sooner settled first.
pub(crate) fn find_all(direction: Direction, graph: &Graph, from: &Moment) -> [Times; BLOCK_LIMIT]
    requires few { length graph.now.problem.block ≤ BLOCK_LIMIT }
    requires ordered { IsAcyclic graph.now }
    requires from { can_begin direction from.now ≡ true }
    ensures { AreAll direction graph.now from.now result }
{
    let mut times = [Times::none(); BLOCK_LIMIT];
    find_again(direction, graph, from, &mut times, Set::empty());
    times
}
