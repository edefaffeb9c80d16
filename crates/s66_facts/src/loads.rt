//! Whether a load line is a fact, by what is known.
//!
//! The test is one of energetic reasoning: instructions of one kind of unit begin their use late enough after a moment and have to be
//! over before another, and their work, shared by the units there are, fills the time between. So the second moment comes so much later
//! than the first. `s66_deep` looks for such lines; here one is only tested.

ghost use Rattle.std.specs.Prelude.{◌+◌, ◌*◌, ◌^◌, ◌≡◌, ◌≤◌, ◌<◌, ◌&&◌, true, Some, length, map, nat_lt};
ghost use Rattle.s66_isa.specs.{BLOCK_LIMIT, every, some_of, least, weigh};
ghost use Rattle.s66_model.specs.{row_at, over};
ghost use Rattle.s66_moments.specs.{IsNumber, is_moment, Use, use_time, is_front, is_back, is_number, use_of, kind_of_load, plus, span, reaches, are_rising, leads_up, is_used, are_used, is_arc_up};
ghost use Rattle.s66_moments.specs.{is_late_load};
ghost use Rattle.s66_facts.specs.{before_in, ground_arcs, AreTimes, Forward, Backward, AreAll};

use crate::graph::Graph;
use crate::times::{Times, is_same_moment, times_at};
use s66_isa::{BLOCK_LIMIT, Kind, is_same_kind};
use s66_moments::{KnownArc, LoadLine, Moment, Stage};

/// Whether a load may come after a moment: it is the origin, or an issue or a start of an instruction of the block.
fn is_front(graph: &Graph, moment: &Moment) -> bool
    ensures { result ≡ (is_front moment.now && is_moment graph.now.problem moment.now) }
{
    match moment {
        Moment::Origin => true,
        Moment::At(n, Stage::Issue | Stage::Start) => graph.is_number(*n),
        Moment::At(_, Stage::Done(_) | Stage::Free) | Moment::End => false,
    }
}

/// Whether it may come before a moment: it is an issue or a start of an instruction of the block, or the end.
fn is_back(graph: &Graph, moment: &Moment) -> bool
    ensures { result ≡ (is_back moment.now && is_moment graph.now.problem moment.now) }
{
    match moment {
        Moment::At(n, Stage::Issue | Stage::Start) => graph.is_number(*n),
        Moment::Origin | Moment::At(_, Stage::Done(_) | Stage::Free) => false,
        Moment::End => true,
    }
}

/// Whether a number is known to stand before another, both of the block.
fn stands_before(graph: &Graph, m: u8, n: u8) -> bool
    ensures { result ≡ before_in graph.now.marks m n }
{
    // its clauses say how many marks there are
    let _count = graph.count();
    graph.is_number(m) && graph.is_number(n) && graph.is_before(m, n)
}

/// Whether the number of the first moment stands before that of the second; so it is if one of them has none.
fn leads_up(graph: &Graph, from: &Moment, to: &Moment) -> bool
    ensures { result ≡ leads_up (before_in graph.now.marks) from.now to.now }
{
    match from {
        Moment::At(m, _) => match to {
            Moment::At(n, _) => stands_before(graph, *m, *n),
            Moment::Origin | Moment::End => true,
        },
        Moment::Origin | Moment::End => true,
    }
}

/// Whether a load may lead from one of these moments to the other.
fn is_arc_up(graph: &Graph, from: &Moment, to: &Moment) -> bool
    ensures { result ≡ is_arc_up graph.now.problem (before_in graph.now.marks) from.now to.now }
{
    is_front(graph, from) && is_back(graph, to) && leads_up(graph, from, to)
}

/// Whether the block has each of these numbers.
fn are_numbers(graph: &Graph, numbers: &[u8]) -> bool
    ensures { result ≡ every (is_number graph.now.problem) numbers.now }
{
    for n in numbers {
        if !graph.is_number(*n) {
            return false;
        }
    }
    true
}

/// Whether each of these numbers is less than the next one.
pub fn are_rising(numbers: &[u8]) -> bool
    ensures { result ≡ are_rising numbers.now }
{
    for place in 1..numbers.len() {
        if numbers[place - 1] >= numbers[place] {
            return false;
        }
    }
    true
}

/// How many minor cycles a number has its unit: it works, and is free one later.
fn amount(graph: &Graph, n: u8) -> u64
    requires { IsNumber graph.now.problem n }
    ensures value { result ≡ (row_at graph.now.problem n).hold + 1 }
    ensures at_most { result ≤ 2 ^ 32 }
{
    graph.row(n).hold as u64 + 1
}

/// The amounts of all of them.
fn amounts(graph: &Graph, numbers: &[u8]) -> u64
    requires few { length numbers.now ≤ BLOCK_LIMIT }
    requires numbers { every (is_number graph.now.problem) numbers.now ≡ true }
    ensures value { result ≡ weigh (λ (u : Use). u.amount) (map (use_of graph.now.problem) numbers.now) }
    ensures at_most { result ≤ length numbers.now * 2 ^ 32 }
{
    let mut sum = 0u64;
    for n in numbers {
        sum += amount(graph, *n);
    }
    sum
}

/// The least amount of them.
fn least_amount(graph: &Graph, numbers: &[u8]) -> u64
    requires some { 0 < length numbers.now }
    requires numbers { every (is_number graph.now.problem) numbers.now ≡ true }
    ensures value { result ≡ least (λ (u : Use). u.amount) (map (use_of graph.now.problem) numbers.now) }
    ensures at_most { result ≤ 2 ^ 32 }
{
    let mut low = amount(graph, numbers[0]);
    for n in numbers {
        low = low.min(amount(graph, *n));
    }
    low
}

/// What one of so many units has of this at least, if they share it: rounded up.
fn over(work: u64, copies: u32) -> u64
    requires copies { 1 ≤ copies }
    requires work { work ≤ 2 ^ 62 }
    ensures value { result ≡ over work copies }
    ensures at_most { result ≤ work }
{
    (work + (copies as u64 - 1)) / copies as u64
}

/// How long the units of a kind have work: if they share the amounts, and since one of them has as many whole ones as it has at least.
fn use_time(graph: &Graph, kind: Kind, numbers: &[u8]) -> u64
    requires some { 0 < length numbers.now }
    requires few { length numbers.now ≤ BLOCK_LIMIT }
    requires numbers { every (is_number graph.now.problem) numbers.now ≡ true }
    ensures value { result ≡ use_time graph.now.problem kind (map (use_of graph.now.problem) numbers.now) }
    ensures at_most { result ≤ 2 ^ 40 }
{
    let copies = graph.copies(kind);
    let shared = over(amounts(graph, numbers), copies);
    let whole = over(numbers.len() as u64, copies) * least_amount(graph, numbers);
    shared.max(whole)
}

/// Whether there is a path, and it takes so long at least.
fn reaches(low: u64, path: Option<u64>) -> bool
    ensures { result ≡ reaches low path }
{
    match path {
        None => false,
        Some(path) => low <= path,
    }
}

/// Whether there is a path, and it takes so long at least after a time.
fn reaches_after(low: u64, time: u64, path: Option<u64>) -> bool
    ensures { result ≡ reaches low (plus (Some time) path) }
{
    match path {
        None => false,
        Some(path) => low <= time.saturating_add(path),
    }
}

/// Whether a use that begins with a stage is not before the line says, and shows its wait: by the longest paths from the line's first
/// moment to this stage and from there to its last one, with the time of all uses.
fn is_used_from(
    line: &LoadLine,
    amount: u64,
    time: u64,
    head: Option<u64>,
    tail: Option<u64>,
) -> bool
    requires amount { amount ≤ 2 ^ 32 }
    requires time { time ≤ 2 ^ 40 }
    ensures { result ≡
        (reaches line.now.after head && reaches (amount + line.now.wait) (plus (Some (line.now.after + time)) tail)) }
{
    reaches(line.after as u64, head)
        && reaches_after(amount + line.wait as u64, line.after as u64 + time, tail)
}

/// Whether the unit of a number is of the kind, and is used from its issue or from its start on.
fn is_used(
    graph: &Graph,
    line: &LoadLine,
    kind: Kind,
    time: u64,
    n: u8,
    head: &Times,
    tail: &Times,
) -> bool
    requires number { IsNumber graph.now.problem n }
    requires time { time ≤ 2 ^ 40 }
    requires head { AreTimes graph.now.problem (λ m. span graph.now.problem (ground_arcs graph.now) line.now.from m) n
        head.now }
    requires tail { AreTimes graph.now.problem (λ m. span graph.now.problem (ground_arcs graph.now) m line.now.to) n
        tail.now }
    ensures { result ≡ is_used graph.now.problem (ground_arcs graph.now) line.now kind time n }
{
    let amount = amount(graph, n);
    is_same_kind(graph.row(n).kind, kind)
        && (is_used_from(line, amount, time, head.issue, tail.issue)
            || is_used_from(line, amount, time, head.start, tail.start))
}

/// Whether each number of a line is of the block, and so used.
pub(crate) fn are_used(
    graph: &Graph,
    line: &LoadLine,
    heads: &[Times; BLOCK_LIMIT],
    tails: &[Times; BLOCK_LIMIT],
) -> bool
    requires some { 0 < length line.now.numbers.items }
    requires heads { AreAll Forward graph.now line.now.from heads.now }
    requires tails { AreAll Backward graph.now line.now.to tails.now }
    ensures { result ≡ are_used graph.now.problem (ground_arcs graph.now) line.now
        (kind_of_load graph.now.problem line.now.numbers.items) }
{
    // its clauses say that the block is short
    let _count = graph.count();
    let numbers = line.numbers.as_slice();
    if !are_numbers(graph, numbers) {
        return false;
    }
    let kind = graph.row(numbers[0]).kind;
    let time = use_time(graph, kind, numbers);
    for n in numbers {
        let head = times_at(heads, *n);
        let tail = times_at(tails, *n);
        if !is_used(graph, line, kind, time, *n, &head, &tail) {
            return false;
        }
    }
    true
}

/// Whether a load line leads up between moments that it may have, and has some numbers, each once.
pub(crate) fn is_load_line(graph: &Graph, line: &LoadLine) -> bool
    ensures { result ≡ (is_arc_up graph.now.problem (before_in graph.now.marks) line.now.from line.now.to &&
        nat_lt 0 (length line.now.numbers.items) && are_rising line.now.numbers.items) }
{
    is_arc_up(graph, &line.from, &line.to)
        && !line.numbers.is_empty()
        && are_rising(line.numbers.as_slice())
}

/// Whether a load takes the bound at least from the origin to the end.
fn is_late_load(bound: u32, load: &KnownArc) -> bool
    ensures { result ≡ is_late_load bound load.now }
{
    is_same_moment(&load.from, &Moment::Origin)
        && is_same_moment(&load.to, &Moment::End)
        && bound <= load.wait
}

/// Whether one of them does.
pub(crate) fn is_load_late(bound: u32, loads: &[KnownArc]) -> bool
    ensures { result ≡ some_of (is_late_load bound) loads.now }
{
    for load in loads {
        if is_late_load(bound, load) {
            return true;
        }
    }
    false
}
