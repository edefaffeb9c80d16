//! A fact line in a sentence, by what is known before it.

ghost use Rattle.std.specs.Prelude.{◌≡◌, ◌≤◌, ◌<◌, ◌+◌, ◌^◌, ◌++◌, [], true, OnOk, Some, decimal, length};
ghost use Rattle.s66_isa.specs.{BLOCK_LIMIT};
ghost use Rattle.s66_model.specs.{row_at};
ghost use Rattle.s66_moments.specs.{Load, IsNumber, arcs_of, is_taken, plus, reaches};
ghost use Rattle.s66_facts.specs.{known_of as known_in};
ghost use Rattle.s66_cert.specs.{document_of};
ghost use Rattle.s66_checker.specs.{problem_of};
ghost use Rattle.s66_reasons.specs.{AreLoaded, listed, begins, by_parcels, by_unit, could_words, fact_sentence, from_words, has_words, in_all, issues_words, last_words, late_words, left_to, load_end};
ghost use Rattle.s66_reasons.specs.{load_sentence, many_words, mixed_words, need_words, one_words, pair_sentence, pair_words, rest_words, side_by_side, so_words, to_words, units_words};
ghost use Rattle.s66_reasons.specs.{until_words, which_words};

use crate::units::{kind_of, push_each};
use crate::words::{push_around, push_instruction, separator, unit_name};
use crate::work::Work;
use s66_cert::Document;
use s66_checker::Prefix;
use s66_device::{push_between, push_field};
use s66_facts::Facts;
use s66_isa::Kind;
use s66_moments::{FactLine, LoadLine, Moment, Stage};
use std::alloc::AllocError;

/// Where a load begins.
fn push_from(out: &mut Vec<u8>, moment: &Moment) -> Result<(), AllocError>
    ensures { OnOk result (out.new.items ≡ out.old.items ++ from_words moment.now) }
{
    match moment {
        Moment::Origin => out.extend_from_slice(b"From the beginning"),
        Moment::At(n, Stage::Issue) => push_between(out, b"From where ", *n as usize, b" issues"),
        Moment::At(n, Stage::Start) => push_between(out, b"From where ", *n as usize, b" starts"),
        Moment::At(_, Stage::Done(_) | Stage::Free) | Moment::End => Ok(()),
    }
}

/// Where it ends.
fn push_to(out: &mut Vec<u8>, moment: &Moment) -> Result<(), AllocError>
    ensures { OnOk result (out.new.items ≡ out.old.items ++ to_words moment.now) }
{
    match moment {
        Moment::At(n, Stage::Issue) => push_between(out, b"where ", *n as usize, b" issues"),
        Moment::At(n, Stage::Start) => push_between(out, b"where ", *n as usize, b" starts"),
        Moment::At(_, Stage::Done(_) | Stage::Free) | Moment::Origin => Ok(()),
        Moment::End => out.extend_from_slice(b"the end"),
    }
}

/// How long it is from where the last use begins to where a load ends, and how long with what comes before.
fn push_left_to(out: &mut Vec<u8>, to: &Moment, rest: usize, all: usize) -> Result<(), AllocError>
    ensures { OnOk result (out.new.items ≡ out.old.items ++ left_to to.now rest all) }
{
    push_to(out, to)?;
    push_field(out, b" it is ", rest)?;
    push_field(out, b" or more: ", all)
}

/// What units have to do before a moment, if they begin to work at `after`; so the moment comes at `wait` or later. Both are minor
/// cycles after the first moment of a load.
#[derive(Drop)]
struct UnitLoad {
    work: Work,
    to: Moment,
    after: u32,
    wait: u32,
}

/// A load of one instruction.
fn push_one(out: &mut Vec<u8>, load: &UnitLoad, n: u8) -> Result<(), AllocError>
    ensures { OnOk result (out.new.items ≡ out.old.items ++
        one_words load.now.work load.now.to load.now.after load.now.wait n) }
{
    push_between(out, b"", n as usize, b" has its ")?;
    out.extend_from_slice(unit_name(load.work.kind))?;
    out.extend_from_slice(b" unit, and from there to ")?;
    let rest = load.wait.saturating_sub(load.after);
    let all = load.after.max(load.wait);
    push_left_to(out, &load.to, rest as usize, all as usize)
}

/// Which units instructions share.
fn push_units(out: &mut Vec<u8>, copies: u32) -> Result<(), AllocError>
    ensures { OnOk result (out.new.items ≡ out.old.items ++ units_words copies) }
{
    if copies == 1 {
        out.extend_from_slice(b"it")
    } else {
        push_between(out, b"the ", copies as usize, b"")
    }
}

/// For how long the units work, if there are several.
fn push_side_by_side(out: &mut Vec<u8>, copies: u32, time: u32) -> Result<(), AllocError>
    ensures { OnOk result (out.new.items ≡ out.old.items ++ side_by_side copies time) }
{
    if copies == 1 {
        Ok(())
    } else {
        push_between(out, b" and ", time as usize, b" side by side")
    }
}

/// What all need, and for how long the units work on it.
fn push_in_all(out: &mut Vec<u8>, work: &Work) -> Result<(), AllocError>
    ensures { OnOk result (out.new.items ≡ out.old.items ++ in_all work.now) }
{
    push_between(out, b"", work.total as usize, b" in all")?;
    push_side_by_side(out, work.copies, work.time)
}

/// When the last of some instructions begins its use, if units begin to work at `after`.
fn begins(work: &Work, after: u32) -> usize
    ensures { result ≡ begins work.now after }
{
    (after as usize + work.time as usize).saturating_sub(work.most as usize)
}

/// What is left after the last of some instructions that need a unit for as long.
fn push_last(out: &mut Vec<u8>, to: &Moment, begins: usize, wait: u32) -> Result<(), AllocError>
    ensures { OnOk result (out.new.items ≡ out.old.items ++ last_words to.now begins wait) }
{
    let start = b"; so the last of them begins at ";
    push_between(out, start, begins, b" or later, and from there to ")?;
    let wait = wait as usize;
    push_left_to(out, to, wait.saturating_sub(begins), begins.max(wait))
}

/// How long a load of so many takes in all, by what is said of it.
pub(crate) fn load_end(work: &Work, after: u32, wait: u32, count: usize) -> usize
    requires { count ≤ BLOCK_LIMIT }
    ensures { result ≡ load_end work.now after wait count }
{
    if count == 1 {
        after.max(wait) as usize
    } else if work.total as usize == count * work.most as usize {
        begins(work, after).max(wait as usize)
    } else {
        wait as usize
    }
}

/// The same, if they need it for different times.
fn push_mixed(out: &mut Vec<u8>, to: &Moment, wait: u32) -> Result<(), AllocError>
    ensures { OnOk result (out.new.items ≡ out.old.items ++ mixed_words to.now wait) }
{
    let start = b"; so with what is left after the last of them begins it is ";
    push_field(out, start, wait as usize)?;
    out.extend_from_slice(b" or more to ")?;
    push_to(out, to)
}

/// What follows of what so many instructions need.
fn push_so(out: &mut Vec<u8>, load: &UnitLoad, count: usize) -> Result<(), AllocError>
    requires { count ≤ BLOCK_LIMIT }
    ensures { OnOk result (out.new.items ≡ out.old.items ++
        so_words load.now.work load.now.to load.now.after load.now.wait count) }
{
    let work = &load.work;
    if work.total as usize == count * work.most as usize {
        push_last(out, &load.to, begins(work, load.after), load.wait)
    } else {
        push_mixed(out, &load.to, load.wait)
    }
}

/// Numbers, one after the other.
fn push_numbers(out: &mut Vec<u8>, numbers: &[u8]) -> Result<(), AllocError>
    ensures { OnOk result (out.new.items ≡ out.old.items ++ listed decimal numbers.now) }
{
    for place in 0..numbers.len() {
        push_field(out, b"", numbers[place] as usize)?;
        out.extend_from_slice(separator(numbers.len() - 1 - place))?;
    }
    Ok(())
}

/// Which instructions a load has.
fn push_which(out: &mut Vec<u8>, work: &Work, numbers: &[u8]) -> Result<(), AllocError>
    ensures { OnOk result (out.new.items ≡ out.old.items ++ which_words work.now numbers.now) }
{
    out.extend_from_slice(b"one of ")?;
    push_numbers(out, numbers)?;
    out.extend_from_slice(b" has its ")?;
    out.extend_from_slice(unit_name(work.kind))?;
    out.extend_from_slice(b" unit")
}

/// What so many need.
fn push_need(out: &mut Vec<u8>, work: &Work, count: usize) -> Result<(), AllocError>
    requires { count ≤ BLOCK_LIMIT }
    ensures { OnOk result (out.new.items ≡ out.old.items ++ need_words work.now count) }
{
    out.extend_from_slice(b"; these need ")?;
    push_units(out, work.copies)?;
    out.extend_from_slice(b" for ")?;
    push_each(out, count, work.total, work.most)?;
    out.extend_from_slice(b", ")?;
    push_in_all(out, work)
}

/// A load of several instructions.
fn push_many(out: &mut Vec<u8>, load: &UnitLoad, numbers: &[u8]) -> Result<(), AllocError>
    requires { length numbers.now ≤ BLOCK_LIMIT }
    ensures { OnOk result (out.new.items ≡ out.old.items ++
        many_words load.now.work load.now.to load.now.after load.now.wait numbers.now) }
{
    push_which(out, &load.work, numbers)?;
    push_need(out, &load.work, numbers.len())?;
    push_so(out, load, numbers.len())
}

/// A load up to where its first use begins, and from there on.
fn push_until(out: &mut Vec<u8>, load: &UnitLoad, numbers: &[u8]) -> Result<(), AllocError>
    requires { length numbers.now ≤ BLOCK_LIMIT }
    ensures { OnOk result (out.new.items ≡ out.old.items ++
        until_words load.now.work load.now.to load.now.after load.now.wait numbers.now) }
{
    if numbers.len() == 1 {
        push_one(out, load, numbers[0])
    } else {
        push_many(out, load, numbers)
    }
}

/// What one moment comes later than another, by what units do for these instructions between.
pub(crate) fn push_load_sentence(
    out: &mut Vec<u8>,
    prefix: &Prefix,
    from: &Moment,
    to: &Moment,
    after: u32,
    wait: u32,
    numbers: &[u8],
) -> Result<(), AllocError>
    requires { AreLoaded prefix.now numbers.now }
    ensures { OnOk result (out.new.items ≡ out.old.items ++
        load_sentence prefix.now.problem from.now to.now after wait numbers.now) }
{
    let load = UnitLoad {
        work: Work::of(prefix, numbers),
        to: *to,
        after,
        wait,
    };
    push_from(out, from)?;
    push_between(out, b" it is ", after as usize, b" or more until ")?;
    push_until(out, &load, numbers)
}

/// How long it is to the end from a minor cycle, and how long in all.
pub(crate) fn push_rest(out: &mut Vec<u8>, until: u64, rest: u64) -> Result<(), AllocError>
    requires { until + rest < 2 ^ 64 }
    ensures { OnOk result (out.new.items ≡ out.old.items ++ rest_words until rest) }
{
    push_field(out, b", and from there to the end it is ", rest as usize)?;
    push_field(out, b" or more: ", (until + rest) as usize)
}

/// When n issues at the soonest.
fn push_issues(out: &mut Vec<u8>, soonest: u64, n: u8) -> Result<(), AllocError>
    ensures { OnOk result (out.new.items ≡ out.old.items ++ issues_words soonest n) }
{
    push_between(out, b"", n as usize, b" issues at ")?;
    push_between(out, b"", soonest as usize, b" or later; behind it ")
}

/// When m could issue after it.
fn push_could(out: &mut Vec<u8>, parcels: u32, m: u8) -> Result<(), AllocError>
    ensures { OnOk result (out.new.items ≡ out.old.items ++ could_words parcels m) }
{
    push_between(out, b"", m as usize, b" could issue ")?;
    push_between(out, b"", parcels as usize, b" later")
}

/// Until when n has the only unit of a kind at the soonest.
fn push_has(out: &mut Vec<u8>, kind: Kind, soonest: u64, n: u8) -> Result<(), AllocError>
    ensures { OnOk result (out.new.items ≡ out.old.items ++ has_words kind soonest n) }
{
    push_between(out, b"", n as usize, b" has the ")?;
    out.extend_from_slice(unit_name(kind))?;
    push_between(
        out,
        b" unit until ",
        soonest as usize,
        b" or later; behind it ",
    )
}

/// Why m can't stand behind n, by the parcels of n, which issues at `soonest` at the soonest; the end comes `rest` after m issues.
fn push_by_parcels(
    out: &mut Vec<u8>,
    soonest: u64,
    parcels: u32,
    rest: u64,
    m: u8,
    n: u8,
) -> Result<(), AllocError>
    requires { soonest + parcels + rest < 2 ^ 64 }
    ensures { OnOk result (out.new.items ≡ out.old.items ++ by_parcels soonest parcels rest m n) }
{
    push_issues(out, soonest, n)?;
    push_could(out, parcels, m)?;
    push_rest(out, soonest + parcels as u64, rest)
}

/// By the only unit of their kind, which n has until `soonest` at the soonest.
fn push_by_unit(
    out: &mut Vec<u8>,
    kind: Kind,
    soonest: u64,
    rest: u64,
    m: u8,
    n: u8,
) -> Result<(), AllocError>
    requires { soonest + rest < 2 ^ 64 }
    ensures { OnOk result (out.new.items ≡ out.old.items ++ by_unit kind soonest rest m n) }
{
    push_has(out, kind, soonest, n)?;
    push_between(out, b"", m as usize, b" could issue then")?;
    push_rest(out, soonest, rest)
}

/// How many parcels an instruction has.
fn parcels_of(prefix: &Prefix, n: u8) -> u32
    requires { (1 ≤ n) × (n ≤ length prefix.now.problem.block) }
    ensures { result ≡ (row_at prefix.now.problem n).parcels }
{
    prefix.row(n).parcels
}

/// Whether a path through parcels reaches the bound.
fn is_late_by_parcels(bound: u32, head: Option<u64>, parcels: u32, tail: Option<u64>) -> bool
    ensures { result ≡ reaches bound (plus (plus head (Some parcels)) tail) }
{
    match (head, tail) {
        (Some(head), Some(tail)) => {
            (bound as u64)
                .saturating_sub(head)
                .saturating_sub(parcels as u64)
                <= tail
        }
        _ => false,
    }
}

/// That m stands before n.
pub(crate) fn push_pair_words(
    out: &mut Vec<u8>,
    document: &Document,
    m: u8,
    n: u8,
) -> Result<(), AllocError>
    ensures { OnOk result (out.new.items ≡ out.old.items ++ pair_words (document_of document.now) m n) }
{
    push_instruction(out, document, m)?;
    push_around(
        out,
        b" stands before ",
        document,
        n,
        b" in a faster order: ",
    )
}

/// Why m would be too late for the bound behind n.
fn push_late(
    out: &mut Vec<u8>,
    bound: u32,
    prefix: &Prefix,
    facts: &Facts,
    m: u8,
    n: u8,
) -> Result<(), AllocError>
    requires same { prefix.now.problem ≡ facts.now.problem }
    requires m { IsNumber facts.now.problem m }
    requires n { IsNumber facts.now.problem n }
    ensures { OnOk result (out.new.items ≡ out.old.items ++
        late_words facts.now.problem bound (arcs_of facts.now.problem (known_in facts.now)) m n) }
{
    // its clauses say that what is known forms no ring, so paths are short
    let _count = facts.count();
    let head = facts.head(n);
    let tail = facts.tail(m).issue;
    let rest = tail.unwrap_or(0);
    let parcels = parcels_of(prefix, n);
    if is_late_by_parcels(bound, head.issue, parcels, tail) {
        let soonest = head.issue.unwrap_or(0);
        push_by_parcels(out, soonest, parcels, rest, m, n)
    } else {
        let soonest = head.free.unwrap_or(0);
        push_by_unit(out, kind_of(prefix, n), soonest, rest, m, n)
    }
}

/// Why m stands before n, by what is known.
fn push_pair(
    out: &mut Vec<u8>,
    document: &Document,
    prefix: &Prefix,
    facts: &Facts,
    m: u8,
    n: u8,
) -> Result<(), AllocError>
    requires same { prefix.now.problem ≡ facts.now.problem }
    requires problem { facts.now.problem ≡ problem_of (document_of document.now) }
    requires m { IsNumber facts.now.problem m }
    requires n { IsNumber facts.now.problem n }
    ensures { OnOk result (out.new.items ≡ out.old.items ++
        pair_sentence (document_of document.now)
        (arcs_of (problem_of (document_of document.now)) (known_in facts.now)) m n) }
{
    push_pair_words(out, document, m, n)?;
    push_late(out, document.bound(), prefix, facts, m, n)
}

/// A load line that is right.
fn push_load_fact(
    out: &mut Vec<u8>,
    prefix: &Prefix,
    facts: &Facts,
    bound: u32,
    load: &LoadLine,
) -> Result<(), AllocError>
    requires same { prefix.now.problem ≡ facts.now.problem }
    requires start { prefix.now.numbers ≡ [] }
    requires taken { is_taken facts.now.problem bound (known_in facts.now) (Load load.now) ≡ true }
    ensures { OnOk result (out.new.items ≡ out.old.items ++
        load_sentence prefix.now.problem load.now.from load.now.to load.now.after load.now.wait
        load.now.numbers.items) }
{
    let numbers = load.numbers.as_slice();
    push_load_sentence(
        out, prefix, &load.from, &load.to, load.after, load.wait, numbers,
    )
}

/// A fact line that is right by what is known before it.
pub(crate) fn push_fact(
    out: &mut Vec<u8>,
    document: &Document,
    prefix: &Prefix,
    facts: &Facts,
    line: &FactLine,
) -> Result<(), AllocError>
    requires same { prefix.now.problem ≡ facts.now.problem }
    requires start { prefix.now.numbers ≡ [] }
    requires problem { facts.now.problem ≡ problem_of (document_of document.now) }
    requires taken { is_taken facts.now.problem (document_of document.now).bound (known_in facts.now) line.now ≡ true }
    ensures { OnOk result (out.new.items ≡ out.old.items ++
        fact_sentence (document_of document.now) (known_in facts.now) line.now) }
{
    match line {
        FactLine::Pair(first, second) => push_pair(out, document, prefix, facts, *first, *second),
        FactLine::Load(load) => push_load_fact(out, prefix, facts, document.bound(), load),
    }
}
