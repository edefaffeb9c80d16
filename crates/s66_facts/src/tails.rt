//! The longest paths from the moments of an instruction to a moment, by those of what stands after it.

ghost use Rattle.std.specs.Prelude.{◌≡◌};
ghost use Rattle.s66_moments.specs.{IsNumber};
ghost use Rattle.s66_facts.specs.{start_before, done_before, before_one, tail_done, tail_results, tail_start, tail_issue, tails_of};

use crate::graph::Graph;
use crate::times::{
    Times, add, fetches, later, latest_read, latest_result, times_at, when, writes, zero_if_same,
};
use s66_isa::{BLOCK_LIMIT, Reg, has_register, is_memory_conflict};
use s66_moments::{Moment, Stage};

/// The start of n before m.
fn start_before(graph: &Graph, n: u8, m: u8, time: &Times) -> Option<u64>
    requires n { IsNumber graph.now.problem n }
    requires m { IsNumber graph.now.problem m }
    ensures { result ≡ start_before graph.now.problem n m time.now }
{
    let is_pair = is_memory_conflict(graph.row(n).memory, graph.row(m).memory);
    let memory = when(is_pair, add(time.start, 1));
    let results = latest_read(graph.row(n), time, graph.row(m));
    later(memory, add(results, 1))
}

/// A result in a register before m, which may write or read it.
fn done_before(graph: &Graph, m: u8, time: &Times, register: Reg) -> Option<u64>
    requires m { IsNumber graph.now.problem m }
    ensures { result ≡ done_before graph.now.problem m time.now register }
{
    let row = graph.row(m);
    later(
        when(writes(row, register), time.issue),
        when(has_register(row.reads.as_slice(), register), time.start),
    )
}

/// The moments of n before m.
pub(crate) fn before_one(graph: &Graph, times: &[Times; BLOCK_LIMIT], n: u8, m: u8) -> Times
    requires n { IsNumber graph.now.problem n }
    requires m { IsNumber graph.now.problem m }
    ensures { result ≡ before_one graph.now.problem times.now n m }
{
    let time = times_at(times, m);
    let (first, second) = match graph.row(n).writes.as_slice() {
        [] => (None, None),
        [one] => (done_before(graph, m, &time, one.reg), None),
        [one, two, ..] => (
            done_before(graph, m, &time, one.reg),
            done_before(graph, m, &time, two.reg),
        ),
    };
    Times {
        issue: add(time.issue, graph.row(n).parcels),
        start: start_before(graph, n, m, &time),
        free: when(graph.share_unit(n, m), time.issue),
        first,
        second,
    }
}

/// From a result of n in a register, by what waits for it, and by the free of its unit if that holds it.
fn tail_done(
    graph: &Graph,
    to: &Moment,
    n: u8,
    free: Option<u64>,
    waiting: Option<u64>,
    register: Reg,
) -> Option<u64>
    requires { IsNumber graph.now.problem n }
    ensures { result ≡ tail_done graph.now.problem to.now n free waiting register }
{
    let by_unit = when(!fetches(graph.row(n), register), add(free, 1));
    later(zero_if_same(to, &Moment::End), later(by_unit, waiting))
}

/// From its free, and from its results in the order of its row.
fn tail_results(graph: &Graph, to: &Moment, n: u8, before: &Times, free: Option<u64>) -> Times
    requires { IsNumber graph.now.problem n }
    ensures { result ≡ tail_results graph.now.problem to.now n before.now free }
{
    let (first, second) = match graph.row(n).writes.as_slice() {
        [] => (None, None),
        [one] => (tail_done(graph, to, n, free, before.first, one.reg), None),
        [one, two, ..] => (
            tail_done(graph, to, n, free, before.first, one.reg),
            tail_done(graph, to, n, free, before.second, two.reg),
        ),
    };
    Times {
        issue: None,
        start: None,
        free,
        first,
        second,
    }
}

/// From its start, by its free and its results too.
fn tail_start(
    graph: &Graph,
    to: &Moment,
    n: u8,
    before: &Times,
    time: &Times,
    load: Option<u64>,
) -> Option<u64>
    requires { IsNumber graph.now.problem n }
    ensures { result ≡ tail_start graph.now.problem to.now n before.now time.now load }
{
    let row = graph.row(n);
    let itself = zero_if_same(to, &Moment::At(n, Stage::Start));
    let by_unit = add(time.free, row.hold + 1);
    later(
        later(itself, by_unit),
        later(latest_result(row, time), later(before.start, load)),
    )
}

/// From its issue, by its start too.
fn tail_issue(
    to: &Moment,
    n: u8,
    before: &Times,
    start: Option<u64>,
    load: Option<u64>,
) -> Option<u64>
    ensures { result ≡ tail_issue to.now n before.now start load }
{
    let itself = zero_if_same(to, &Moment::At(n, Stage::Issue));
    later(later(itself, start), later(before.issue, load))
}

/// From all its moments, by those of what stands after it, and by loads that come from its issue and from its start.
pub(crate) fn tails_of(
    graph: &Graph,
    to: &Moment,
    n: u8,
    before: &Times,
    load_issue: Option<u64>,
    load_start: Option<u64>,
) -> Times
    requires { IsNumber graph.now.problem n }
    ensures { result ≡ tails_of graph.now.problem to.now n before.now load_issue load_start }
{
    let free = later(zero_if_same(to, &Moment::End), before.free);
    let time = tail_results(graph, to, n, before, free);
    let start = tail_start(graph, to, n, before, &time, load_start);
    let issue = tail_issue(to, n, before, start, load_issue);
    Times {
        issue,
        start,
        ..time
    }
}
