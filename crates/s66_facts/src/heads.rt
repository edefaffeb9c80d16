//! The longest paths from a moment to those of an instruction, by those of what stands before it.

ghost use Rattle.std.specs.Prelude.{◌≡◌};
ghost use Rattle.s66_moments.specs.{IsNumber};
ghost use Rattle.s66_facts.specs.{issue_after, start_after, done_after, after_one, at_once, head_issue, head_start, head_done, head_results, head_free, heads_of};

use crate::graph::Graph;
use crate::times::{
    Times, add, latency_to, later, latest_held, latest_read, latest_written, times_at, when,
    zero_if_same,
};
use s66_isa::{BLOCK_LIMIT, Reg, has_register, is_memory_conflict};
use s66_moments::{Moment, Stage};

/// The issue of n after m.
fn issue_after(graph: &Graph, n: u8, m: u8, time: &Times) -> Option<u64>
    requires n { IsNumber graph.now.problem n }
    requires m { IsNumber graph.now.problem m }
    ensures { result ≡ issue_after graph.now.problem n m time.now }
{
    let parcels = add(time.issue, graph.row(m).parcels);
    let unit = when(graph.share_unit(m, n), time.free);
    let results = latest_written(graph.row(n), time, graph.row(m));
    later(parcels, later(unit, results))
}

/// The start of n after m.
fn start_after(graph: &Graph, n: u8, m: u8, time: &Times) -> Option<u64>
    requires n { IsNumber graph.now.problem n }
    requires m { IsNumber graph.now.problem m }
    ensures { result ≡ start_after graph.now.problem n m time.now }
{
    let is_pair = is_memory_conflict(graph.row(m).memory, graph.row(n).memory);
    let memory = when(is_pair, add(time.start, 1));
    let results = latest_read(graph.row(n), time, graph.row(m));
    later(memory, results)
}

/// A result in a register after m, which may read it.
fn done_after(graph: &Graph, m: u8, time: &Times, register: Reg) -> Option<u64>
    requires m { IsNumber graph.now.problem m }
    ensures { result ≡ done_after graph.now.problem m time.now register }
{
    let reads = has_register(graph.row(m).reads.as_slice(), register);
    when(reads, add(time.start, 1))
}

/// The moments of n after m.
pub(crate) fn after_one(graph: &Graph, times: &[Times; BLOCK_LIMIT], n: u8, m: u8) -> Times
    requires n { IsNumber graph.now.problem n }
    requires m { IsNumber graph.now.problem m }
    ensures { result ≡ after_one graph.now.problem times.now n m }
{
    let time = times_at(times, m);
    let issue = issue_after(graph, n, m, &time);
    let start = start_after(graph, n, m, &time);
    let (first, second) = match graph.row(n).writes.as_slice() {
        [] => (None, None),
        [one] => (done_after(graph, m, &time, one.reg), None),
        [one, two, ..] => (
            done_after(graph, m, &time, one.reg),
            done_after(graph, m, &time, two.reg),
        ),
    };
    Times {
        issue,
        start,
        free: None,
        first,
        second,
    }
}

/// A moment from itself, or from the origin.
fn at_once(from: &Moment, to: &Moment) -> Option<u64>
    ensures { result ≡ at_once from.now to.now }
{
    later(zero_if_same(from, to), zero_if_same(from, &Moment::Origin))
}

/// The issue of n, by what stands before it and by loads.
fn head_issue(from: &Moment, n: u8, after: &Times, load: Option<u64>) -> Option<u64>
    ensures { result ≡ head_issue from.now n after.now load }
{
    later(
        at_once(from, &Moment::At(n, Stage::Issue)),
        later(after.issue, load),
    )
}

/// Its start, by its issue too.
fn head_start(
    from: &Moment,
    n: u8,
    after: &Times,
    issue: Option<u64>,
    load: Option<u64>,
) -> Option<u64>
    ensures { result ≡ head_start from.now n after.now issue load }
{
    later(
        later(at_once(from, &Moment::At(n, Stage::Start)), issue),
        later(after.start, load),
    )
}

/// Its result in a register, by its start and by the earlier readers of the register.
fn head_done(
    graph: &Graph,
    from: &Moment,
    n: u8,
    start: Option<u64>,
    readers: Option<u64>,
    register: Reg,
) -> Option<u64>
    requires { IsNumber graph.now.problem n }
    ensures { result ≡ head_done graph.now.problem from.now n start readers register }
{
    let by_start = add(start, latency_to(graph.row(n).writes.as_slice(), register));
    later(
        zero_if_same(from, &Moment::Origin),
        later(by_start, readers),
    )
}

/// Its results, in the order of its row.
fn head_results(
    graph: &Graph,
    from: &Moment,
    n: u8,
    after: &Times,
    issue: Option<u64>,
    start: Option<u64>,
) -> Times
    requires { IsNumber graph.now.problem n }
    ensures { result ≡ head_results graph.now.problem from.now n after.now issue start }
{
    let (first, second) = match graph.row(n).writes.as_slice() {
        [] => (None, None),
        [one] => (head_done(graph, from, n, start, after.first, one.reg), None),
        [one, two, ..] => (
            head_done(graph, from, n, start, after.first, one.reg),
            head_done(graph, from, n, start, after.second, two.reg),
        ),
    };
    Times {
        issue,
        start,
        free: None,
        first,
        second,
    }
}

/// The free of its unit, by its start and its results.
fn head_free(graph: &Graph, from: &Moment, n: u8, time: &Times) -> Option<u64>
    requires { IsNumber graph.now.problem n }
    ensures { result ≡ head_free graph.now.problem from.now n time.now }
{
    let row = graph.row(n);
    let by_start = add(time.start, row.hold + 1);
    let by_results = add(latest_held(row, time), 1);
    later(
        zero_if_same(from, &Moment::Origin),
        later(by_start, by_results),
    )
}

/// All its moments, by those of what stands before it, and by loads that lead to its issue and to its start.
pub(crate) fn heads_of(
    graph: &Graph,
    from: &Moment,
    n: u8,
    after: &Times,
    load_issue: Option<u64>,
    load_start: Option<u64>,
) -> Times
    requires { IsNumber graph.now.problem n }
    ensures { result ≡ heads_of graph.now.problem from.now n after.now load_issue load_start }
{
    let issue = head_issue(from, n, after, load_issue);
    let start = head_start(from, n, after, issue, load_start);
    let time = head_results(graph, from, n, after, issue, start);
    let free = head_free(graph, from, n, &time);
    Times { free, ..time }
}
