//! The fact lines of a document in sentences, numbered, with the suppositions among them.

ghost use Rattle.std.specs.Prelude.{◌≡◌, ◌≤◌, ◌<◌, ◌+◌, ◌^◌, ◌++◌, [], ◌∷◌, true, length, IfOk, IfSome, OnOk};
ghost use Rattle.s66_isa.specs.{numbers};
ghost use Rattle.s66_moments.specs.{IsNumber, arcs_of, is_step_taken, premises_first};
ghost use Rattle.s66_facts.specs.{known_of as known_in, premises_in};
ghost use Rattle.s66_cert.specs.{document_of};
ghost use Rattle.s66_checker.specs.{KnowsAll, facts_of, problem_of};
ghost use Rattle.s66_reasons.specs.{comes_words, end_by_words, end_comes_words, facts_from, late_number, lines_before, margin, numbered_step, refuted_sentence, refuted_words, suppose_sentence, through_words};
ghost use Rattle.s66_reasons.specs.{to_show, too_late_words, AreBegun};

use crate::ends::end_line;
use crate::facts::{push_fact, push_pair_words, push_rest};
use crate::left::to_show_after;
use crate::words::push_around;
use s66_cert::Document;
use s66_checker::{Prefix, fact_lines};
use s66_device::push_between;
use s66_facts::{Facts, Supposing, reaches_both};
use s66_moments::FactStep;
use std::alloc::AllocError;

/// What is supposed: that n stands before m.
fn push_suppose(out: &mut Vec<u8>, document: &Document, m: u8, n: u8) -> Result<(), AllocError>
    ensures { OnOk result (out.new.items ≡ out.old.items ++ suppose_sentence (document_of document.now) m n) }
{
    push_around(out, b"If ", document, n, b" stood before ")?;
    push_around(out, b"", document, m, b" in a faster order:")
}

/// When n issues or starts, and how long it is from there to the end: so long that the bound is reached.
fn push_comes(
    out: &mut Vec<u8>,
    does: &[u8],
    soonest: u64,
    rest: u64,
    n: u8,
) -> Result<(), AllocError>
    requires { soonest + rest < 2 ^ 64 }
    ensures { OnOk result (out.new.items ≡ out.old.items ++ comes_words does.now soonest rest n) }
{
    push_between(out, b"", n as usize, does)?;
    push_between(out, b"", soonest as usize, b" or later")?;
    push_rest(out, soonest, rest)
}

/// The first number of the block through whose issue or start the longest path reaches the bound.
fn some_late(facts: &Facts, bound: u32) -> Option<u8>
    ensures value { result ≡ late_number facts.now.problem (arcs_of facts.now.problem (known_in facts.now)) bound
        (numbers facts.now.problem.block) }
    ensures number { IfSome result (λ n. IsNumber facts.now.problem n) }
{
    for position in 0..facts.count() {
        if facts.is_late_through(bound, position + 1) {
            return Some(position + 1);
        }
    }
    None
}

/// This number if that is so of it, and else the first one.
fn late_number(facts: &Facts, bound: u32, n: u8) -> Option<u8>
    requires { IsNumber facts.now.problem n }
    ensures value { result ≡ late_number facts.now.problem (arcs_of facts.now.problem (known_in facts.now)) bound
        (n ∷ numbers facts.now.problem.block) }
    ensures number { IfSome result (λ n. IsNumber facts.now.problem n) }
{
    if facts.is_late_through(bound, n) {
        Some(n)
    } else {
        some_late(facts, bound)
    }
}

/// When n issues if it is too late by that, and else when it starts.
fn push_through(out: &mut Vec<u8>, facts: &Facts, bound: u32, n: u8) -> Result<(), AllocError>
    requires { IsNumber facts.now.problem n }
    ensures { OnOk result (out.new.items ≡ out.old.items ++
        through_words facts.now.problem (arcs_of facts.now.problem (known_in facts.now)) bound n) }
{
    // its clauses say that what is known forms no ring, so paths are short
    let _count = facts.count();
    let head = facts.head(n);
    let tail = facts.tail(n);
    if reaches_both(bound, head.issue, tail.issue) {
        let soonest = head.issue.unwrap_or(0);
        push_comes(out, b" issues at ", soonest, tail.issue.unwrap_or(0), n)
    } else {
        let soonest = head.start.unwrap_or(0);
        push_comes(out, b" starts at ", soonest, tail.start.unwrap_or(0), n)
    }
}

/// When the end comes, by the load line of this number.
fn push_end_by(out: &mut Vec<u8>, number: usize, wait: u32) -> Result<(), AllocError>
    ensures { OnOk result (out.new.items ≡ out.old.items ++ end_by_words number wait) }
{
    let words = b" or later, by ";
    push_between(out, b"the end comes at ", wait as usize, words)?;
    push_between(out, b"", number, b".")
}

/// The same if there is such a line.
fn push_end_comes(out: &mut Vec<u8>, line: Option<(usize, u32)>) -> Result<(), AllocError>
    ensures { OnOk result (out.new.items ≡ out.old.items ++ end_comes_words line) }
{
    match line {
        None => Ok(()),
        Some((number, wait)) => push_end_by(out, number, wait),
    }
}

/// Which instruction is too late; by a load line of those before it is the end.
fn push_too_late(
    out: &mut Vec<u8>,
    facts: &Facts,
    bound: u32,
    before: &[FactStep],
    late: Option<u8>,
) -> Result<(), AllocError>
    requires { IfSome late (λ n. IsNumber facts.now.problem n) }
    ensures { OnOk result (out.new.items ≡ out.old.items ++
        too_late_words facts.now.problem (arcs_of facts.now.problem (known_in facts.now)) bound before.now late) }
{
    match late {
        None => push_end_comes(out, end_line(bound, before)),
        Some(n) => push_through(out, facts, bound, n),
    }
}

/// Why each order takes the bound in which this number stands behind, as is supposed.
fn push_refuted_words(
    out: &mut Vec<u8>,
    facts: &Facts,
    bound: u32,
    before: &[FactStep],
    behind: u8,
) -> Result<(), AllocError>
    requires { IsNumber facts.now.problem behind }
    ensures { OnOk result (out.new.items ≡ out.old.items ++
        refuted_words facts.now.problem (arcs_of facts.now.problem (known_in facts.now)) bound before.now behind) }
{
    out.extend_from_slice(b"if not, ")?;
    let late = late_number(facts, bound, behind);
    push_too_late(out, facts, bound, before, late)
}

/// The pair that a supposition shows, and why, after these lines.
fn push_refuted(
    out: &mut Vec<u8>,
    document: &Document,
    facts: &Facts,
    before: &[FactStep],
    to_show: Option<(u8, u8)>,
) -> Result<(), AllocError>
    requires problem { facts.now.problem ≡ problem_of (document_of document.now) }
    requires number { IfSome to_show (λ pair. IsNumber facts.now.problem pair.0) }
    ensures { OnOk result (out.new.items ≡ out.old.items ++
        refuted_sentence (document_of document.now)
        (arcs_of (problem_of (document_of document.now)) (known_in facts.now)) before.now to_show) }
{
    match to_show {
        None => Ok(()),
        Some((m, n)) => {
            push_pair_words(out, document, m, n)?;
            push_refuted_words(out, facts, document.bound(), before, m)
        }
    }
}

/// The fact lines of a document before the one of this number.
fn lines_before(document: &Document, number: usize) -> &[FactStep]
    requires { (1 ≤ number) × (number ≤ length (facts_of (document_of document.now))) }
    ensures { result.now ≡ lines_before (document_of document.now) number }
{
    &fact_lines(document)[..number - 1]
}

/// What comes before its number: a fact line within a supposition stands further in.
fn margin(to_show: Option<(u8, u8)>, step: &FactStep) -> &'static [u8]
    ensures { result.now ≡ margin to_show step.now }
{
    match step {
        FactStep::Fact(_) => match to_show {
            None => b"  ",
            Some(_) => b"    ",
        },
        FactStep::Suppose(..) | FactStep::Refuted => b"  ",
    }
}

/// A line that is right by what is known before it, with its number.
fn push_numbered(
    out: &mut Vec<u8>,
    document: &Document,
    prefix: &Prefix,
    supposing: &Supposing,
    shows: Option<(u8, u8)>,
    number: usize,
    step: &FactStep,
) -> Result<(), AllocError>
    requires same { prefix.now.problem ≡ supposing.now.ground.problem }
    requires start { prefix.now.numbers ≡ [] }
    requires problem { supposing.now.ground.problem ≡ problem_of (document_of document.now) }
    requires shows { shows ≡ to_show (premises_in supposing.now) }
    requires first { IfSome shows (λ pair. IsNumber supposing.now.ground.problem pair.0) }
    requires number { (1 ≤ number) × (number ≤ length (facts_of (document_of document.now))) }
    requires taken { is_step_taken (problem_of (document_of document.now)) (document_of document.now).bound
        (premises_in supposing.now) step.now ≡ true }
    ensures { OnOk result (out.new.items ≡ out.old.items ++
        numbered_step (document_of document.now) (premises_in supposing.now) number step.now) }
{
    push_between(out, margin(shows, step), number, b". ")?;
    match step {
        FactStep::Fact(line) => push_fact(out, document, prefix, supposing.facts(), line)?,
        FactStep::Suppose(first, second) => push_suppose(out, document, *first, *second)?,
        FactStep::Refuted => {
            let before = lines_before(document, number);
            push_refuted(out, document, supposing.facts(), before, shows)?
        }
    }
    out.extend_from_slice(b"\n")
}

/// All fact lines of a document, numbered. Returns what is known after them.
pub(crate) fn push_facts(
    out: &mut Vec<u8>,
    document: &Document,
    prefix: &Prefix,
    mut supposing: Supposing,
) -> Result<Facts, AllocError>
    requires { AreBegun (document_of document.now) prefix.now supposing }
    ensures text { OnOk result (out.new.items ≡ out.old.items ++
        facts_from (document_of document.now) (premises_first (problem_of (document_of document.now))) 1
        (facts_of (document_of document.now))) }
    ensures knows { IfOk result (KnowsAll (document_of document.now)) }
{
    let bound = document.bound();
    let mut number = 0;
    let mut to_show = None;
    let lines = fact_lines(document);
    for line in lines {
        number += 1;
        push_numbered(out, document, prefix, &supposing, to_show, number, line)?;
        supposing.take(bound, line);
        to_show = to_show_after(to_show, line);
    }
    Ok(supposing.into_facts())
}
