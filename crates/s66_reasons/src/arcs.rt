//! How much later a moment comes at least than another by one arc, by the instruction table or by a load line.

ghost use Rattle.std.specs.Prelude.{◌≡◌, if◌then◌else◌, ◌||◌, ◌==◌, [], IsTrue, None};
ghost use Rattle.s66_moments.specs.{At, IsNumber, arc, has_stage, is_moment, later_arc, own_arc, network};
ghost use Rattle.s66_facts.specs.{before_in};
ghost use Rattle.s66_reasons.specs.{each_left, load_left, IsNumberOf, with_loads};

use crate::left::{to_show_after, with_left};
use s66_checker::Prefix;
use s66_facts::{Facts, fetches, latency_to, writes};
use s66_isa::{Row, has_register, is_memory_conflict, is_same_kind};
use s66_moments::{FactStep, Moment, Stage};

/// Whether an instruction has a stage.
fn has_stage(row: &Row, stage: &Stage) -> bool
    ensures { result ≡ has_stage row.now stage.now }
{
    match stage {
        Stage::Issue | Stage::Start | Stage::Free => true,
        Stage::Done(register) => writes(row, *register),
    }
}

/// Whether it is a moment of the block: the origin, the end, or a stage that one of its instructions has.
fn is_moment(prefix: &Prefix, moment: &Moment) -> bool
    requires { prefix.now.numbers ≡ [] }
    ensures value { result ≡ is_moment prefix.now.problem moment.now }
    ensures number { IsTrue result → IsNumberOf prefix.now.problem moment.now }
{
    match moment {
        Moment::Origin | Moment::End => true,
        Moment::At(n, stage) => prefix.is_remaining(*n) && has_stage(prefix.row(*n), stage),
    }
}

/// How many minor cycles a stage of an instruction comes later at least than another; `None` if nothing is said of the two.
fn own_arc(row: &Row, from: &Stage, to: &Stage) -> Option<u32>
    ensures { result ≡ own_arc row.now from.now to.now }
{
    match from {
        Stage::Issue => matches!(to, Stage::Start).then_some(0),
        Stage::Start => match to {
            Stage::Issue | Stage::Start => None,
            Stage::Done(register) => Some(latency_to(row.writes.as_slice(), *register)),
            Stage::Free => Some(row.hold + 1),
        },
        Stage::Done(register) => match to {
            Stage::Issue | Stage::Start | Stage::Done(_) => None,
            Stage::Free => (!fetches(row, *register)).then_some(1),
        },
        Stage::Free => None,
    }
}

/// The same of a stage of an instruction, and one of another that stands after it.
fn later_arc(prefix: &Prefix, earlier: &Row, later: &Row, from: &Stage, to: &Stage) -> Option<u32>
    ensures { result ≡ later_arc prefix.now.problem earlier.now later.now from.now to.now }
{
    match from {
        Stage::Issue => matches!(to, Stage::Issue).then_some(earlier.parcels),
        Stage::Start => match to {
            Stage::Issue | Stage::Free => None,
            Stage::Start => is_memory_conflict(earlier.memory, later.memory).then_some(1),
            Stage::Done(register) => {
                has_register(earlier.reads.as_slice(), *register).then_some(1)
            }
        },
        Stage::Done(register) => match to {
            Stage::Issue => writes(later, *register).then_some(0),
            Stage::Start => has_register(later.reads.as_slice(), *register).then_some(0),
            Stage::Done(_) | Stage::Free => None,
        },
        Stage::Free => match to {
            Stage::Issue => {
                let is_only = prefix.copies(later.kind) == 1;
                (is_same_kind(earlier.kind, later.kind) && is_only).then_some(0)
            }
            Stage::Start | Stage::Done(_) | Stage::Free => None,
        },
    }
}

/// The same of stages of two instructions of the block, by which of these is known to stand before the other.
fn arc_between(
    prefix: &Prefix,
    facts: &Facts,
    m: u8,
    from: &Stage,
    n: u8,
    to: &Stage,
) -> Option<u32>
    requires same { prefix.now.problem ≡ facts.now.problem }
    requires m { IsNumber prefix.now.problem m }
    requires n { IsNumber prefix.now.problem n }
    ensures { result ≡ if m == n || before_in facts.now.marks m n then
        arc prefix.now.problem (At m from.now) (At n to.now) else None }
{
    if m == n {
        own_arc(prefix.row(m), from, to)
    } else if facts.is_before(m, n) {
        later_arc(prefix, prefix.row(m), prefix.row(n), from, to)
    } else {
        None
    }
}

/// How many minor cycles a moment comes later at least than another by the table, and by which number is known to stand before which;
/// `None` if that says nothing of the two.
pub(crate) fn table_arc(prefix: &Prefix, facts: &Facts, from: &Moment, to: &Moment) -> Option<u32>
    requires same { prefix.now.problem ≡ facts.now.problem }
    requires start { prefix.now.numbers ≡ [] }
    ensures { result ≡ network prefix.now.problem (before_in facts.now.marks) from.now to.now }
{
    if !is_moment(prefix, from) || !is_moment(prefix, to) {
        return None;
    }
    match to {
        Moment::Origin => None,
        Moment::At(n, stage) => match from {
            Moment::Origin => Some(0),
            Moment::At(m, earlier) => arc_between(prefix, facts, *m, earlier, *n, stage),
            Moment::End => None,
        },
        Moment::End => match from {
            Moment::Origin | Moment::At(_, Stage::Done(_) | Stage::Free) => Some(0),
            Moment::At(_, Stage::Issue | Stage::Start) | Moment::End => None,
        },
    }
}

/// The same with all loads that fact lines leave known.
pub(crate) fn arc_by_lines(
    prefix: &Prefix,
    facts: &Facts,
    lines: &[FactStep],
    from: &Moment,
    to: &Moment,
) -> Option<u32>
    requires same { prefix.now.problem ≡ facts.now.problem }
    requires start { prefix.now.numbers ≡ [] }
    ensures { result ≡ with_loads from.now to.now (each_left load_left None lines.now)
        (network prefix.now.problem (before_in facts.now.marks) from.now to.now) }
{
    let mut wait = table_arc(prefix, facts, from, to);
    let mut to_show = None;
    for line in lines {
        wait = with_left(wait, to_show, line, from, to);
        to_show = to_show_after(to_show, line);
    }
    wait
}
