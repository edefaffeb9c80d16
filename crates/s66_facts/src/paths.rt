//! The longest paths between a moment and those of an instruction, in a direction, by those of what comes sooner.
//! Here is one step of that: the times of a number, by those that decide them.

ghost use Rattle.std.specs.Prelude.{ℕ, ◌≡◌, true};
ghost use Rattle.s66_isa.specs.{BLOCK_LIMIT, has, numbers_in};
ghost use Rattle.s66_moments.specs.{IsNumber};
ghost use Rattle.s66_facts.specs.{IsAcyclic, can_begin, IsStep, by_one, by_all, all_moments};

use crate::direction::Direction;
use crate::graph::Graph;
use crate::heads::{after_one, heads_of};
use crate::tails::{before_one, tails_of};
use crate::times::Times;
use s66_isa::{BLOCK_LIMIT, Set};
use s66_moments::{Moment, Stage};

/// The moments of n by those of m.
fn by_one(direction: Direction, graph: &Graph, times: &[Times; BLOCK_LIMIT], n: u8, m: u8) -> Times
    requires n { IsNumber graph.now.problem n }
    requires m { IsNumber graph.now.problem m }
    ensures { result ≡ by_one direction graph.now.problem times.now n m }
{
    match direction {
        Direction::Forward => after_one(graph, times, n, m),
        Direction::Backward => before_one(graph, times, n, m),
    }
}

/// By those of all that are marked.
fn by_all(
    direction: Direction,
    graph: &Graph,
    near: Set,
    times: &[Times; BLOCK_LIMIT],
    n: u8,
) -> Times
    requires n { IsNumber graph.now.problem n }
    requires near { (m : ℕ) → has m (numbers_in near) ≡ true → IsNumber graph.now.problem m }
    ensures { result ≡ by_all direction graph.now.problem (λ i. has i (numbers_in near)) times.now n }
{
    // its clauses say that the block is short
    let _count = graph.count();
    let mut latest = Times::none();
    let mut rest = near;
    while let Some(m) = rest.pop_first() {
        latest = latest.later(&by_one(direction, graph, times, n, m));
    }
    latest
}

/// All moments of n, by others, and by loads that lead to its issue and to its start.
fn all_moments(
    direction: Direction,
    graph: &Graph,
    from: &Moment,
    n: u8,
    by_others: &Times,
    load_issue: Option<u64>,
    load_start: Option<u64>,
) -> Times
    requires { IsNumber graph.now.problem n }
    ensures { result ≡ all_moments direction graph.now.problem from.now n by_others.now load_issue load_start }
{
    match direction {
        Direction::Forward => heads_of(graph, from, n, by_others, load_issue, load_start),
        Direction::Backward => tails_of(graph, from, n, by_others, load_issue, load_start),
    }
}

/// All moments of n, by the times of what comes sooner. It takes a step for each number that decides them, and a look at each load that
/// leads to it in the direction and says something new.
pub(crate) fn times_of(
    direction: Direction,
    graph: &Graph,
    from: &Moment,
    times: &[Times; BLOCK_LIMIT],
    n: u8,
) -> Times
    requires n { IsNumber graph.now.problem n }
    requires ordered { IsAcyclic graph.now }
    requires from { can_begin direction from.now ≡ true }
    ensures { IsStep direction graph.now from.now times.now n result }
{
    // its clauses say that the block is short
    let _count = graph.count();
    let near = graph.near(direction, n);
    let by_others = by_all(direction, graph, near, times, n);
    let (issue, start) = (Moment::At(n, Stage::Issue), Moment::At(n, Stage::Start));
    let load_issue = graph.loads().latest(direction, times, from, &issue);
    let load_start = graph.loads().latest(direction, times, from, &start);
    all_moments(
        direction, graph, from, n, &by_others, load_issue, load_start,
    )
}
