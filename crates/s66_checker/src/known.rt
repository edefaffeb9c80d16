//! What is known after the fact lines of a document, by which further leaves close a prefix.
//! The fact lines are taken in one after the other (`s66_facts`), and the longest paths to the end kept.

ghost use Rattle.std.specs.Prelude.{◌≡◌, ◌≤◌, IfSome, IfNone, length, ◌&&◌, IfOk, IfErr, OnOk, Some, nat_le, true};
ghost use Rattle.s66_isa.specs.{BLOCK_LIMIT};
ghost use Rattle.s66_model.specs.{is_remaining};
ghost use Rattle.s66_moments.specs.{premises_first, Issue, Start, At, tail, arcs_of, next_value, is_turned};
ghost use Rattle.s66_facts.specs.{known_of as known_in, premises_in};
ghost use Rattle.s66_cert.specs.{document_of, FACT_LIMIT};
ghost use Rattle.s66_checker.specs.{problem_of, facts_of, begun_by, KnowsAll, AreTaken, IsUntaken, is_reached, is_result_late, is_point_late};

use crate::replay::{KeptPoint, Prefix};
use s66_cert::{Document, FactStep};
use s66_facts::{Facts, Supposing, Times, times_at};
use s66_isa::{BLOCK_LIMIT, Instr, Profile, Write};
use std::marker::Model;

/// The fact lines of a document, with the suppositions among them; none in versions 1 to 3.
pub fn fact_lines(document: &Document) -> &[FactStep]
    ensures value { result.now ≡ facts_of (document_of document.now) }
    ensures few { length result.now ≤ FACT_LIMIT }
{
    match document.facts() {
        None => &[],
        Some(lines) => lines,
    }
}

/// The line on which the last supposition began, if a line has this step.
fn begun_by(line: u32, begun: u32, step: &FactStep) -> u32
    ensures { result ≡ begun_by line begun step.now }
{
    if step.begins_supposition() {
        line
    } else {
        begun
    }
}

/// Takes the fact lines of a document one after the other, and stops at the first that isn't shown by what is known before it. Returns
/// its number in the document, or that of the supposition that doesn't end, if there is one.
fn first_untaken(document: &Document, supposing: &mut Supposing) -> Option<u32>
    requires problem { supposing.old.ground.problem ≡ problem_of (document_of document.now) }
    requires first { premises_in supposing.old ≡ premises_first supposing.old.ground.problem }
    requires steps { supposing.old.steps ≡ 0 }
    ensures untaken { IfSome result (λ line. IsUntaken (document_of document.now) line) }
    ensures taken { IfNone result (AreTaken (document_of document.now)) }
    ensures known { IfNone result (KnowsAll (document_of document.now) supposing.new.ground) }
{
    let bound = document.bound();
    let mut number = document.block().len() as u32 + 7;
    let mut begun = 0;
    let lines = fact_lines(document);
    for line in lines {
        if !supposing.take(bound, line) {
            return Some(number);
        }
        begun = begun_by(number, begun, line);
        number += 1;
    }
    if supposing.is_open() {
        Some(begun)
    } else {
        None
    }
}

/// Whether a time and the longest path from there reach a bound; all in minor cycles.
fn is_reached(bound: u32, time: u32, path: Option<u64>) -> bool
    ensures { result ≡ is_reached bound time path }
{
    match path {
        None => false,
        Some(path) => u64::from(bound.saturating_sub(time)) <= path,
    }
}

/// Whether a result of an instruction does.
fn is_result_late(bound: u32, point: &KeptPoint, writes: &[Write], tails: &Times) -> bool
    requires { length writes.now ≤ 2 }
    ensures { result ≡ is_result_late bound point.now tails.now writes.now }
{
    match writes {
        [] => false,
        [one] => is_reached(bound, point.done_at(one.reg), tails.first),
        [one, two, ..] => {
            is_reached(bound, point.done_at(one.reg), tails.first)
                || is_reached(bound, point.done_at(two.reg), tails.second)
        }
    }
}

/// Whether some moment of an instruction does.
fn is_point_late(bound: u32, point: &KeptPoint, writes: &[Write], tails: &Times) -> bool
    requires { length writes.now ≤ 2 }
    ensures { result ≡ is_point_late bound point.now tails.now writes.now }
{
    is_reached(bound, point.issue, tails.issue)
        || is_reached(bound, point.start, tails.start)
        || is_reached(bound, point.free, tails.free)
        || is_result_late(bound, point, writes, tails)
}

/// What is known of a block after fact lines, with the longest path from each moment to the end.
#[derive(Drop)]
pub(crate) struct Known {
    facts: Facts,
    /// Those of number n are at n - 1.
    tails: [Times; BLOCK_LIMIT],
}

impl Model for Known {
    ghost use Rattle.std.specs.Prelude.{◌≡◌};
    ghost use Rattle.s66_facts.specs.{Ground};
    ghost use Rattle.s66_checker.specs.KeptKnown.{HasTails, AreTails};

    ghost Value = { Ground };

    ghost view = { λ k. k.facts };

    ghost invariant = { λ k. HasTails k.facts × AreTails k.facts k.tails };
}

impl Known {
    /// What is known after the fact lines of a document of this block under this profile. If one of them isn't shown by what is known
    /// before it, the number of the first such line in the document; if a supposition doesn't end, that of the line on which it began.
    pub(crate) fn after(
        document: &Document,
        block: &[Instr],
        profile: &Profile,
    ) -> Result<Known, u32>
        requires problem { record { block = block.now; profile = profile.now } ≡ problem_of (document_of document.now) }
        requires some { 1 ≤ length block.now }
        requires few { length block.now ≤ BLOCK_LIMIT }
        ensures untaken { IfErr result (λ line. IsUntaken (document_of document.now) line) }
        ensures taken { OnOk result (AreTaken (document_of document.now)) }
        ensures known { IfOk result (λ k. KnowsAll (document_of document.now) k) }
    {
        let mut supposing = Supposing::new(block, profile);
        if let Some(line) = first_untaken(document, &mut supposing) {
            return Err(line);
        }
        let facts = supposing.into_facts();
        let tails = facts.tails();
        Ok(Known { facts, tails })
    }

    /// The longest paths from the moments of an instruction to the end.
    pub(crate) fn tails(&self, n: u8) -> Times
        requires { (1 ≤ n) × (n ≤ length self.now.problem.block) }
        ensures issue { result.issue ≡
            Some (tail self.now.problem (arcs_of self.now.problem (known_in self.now)) (At n Issue)) }
        ensures start { result.start ≡
            Some (tail self.now.problem (arcs_of self.now.problem (known_in self.now)) (At n Start)) }
    {
        times_at(&self.tails, n)
    }

    /// Whether an instruction that remains takes a bound at least if it comes next: one of its moments, with the longest path from
    /// there to the end.
    fn is_late(&self, prefix: &Prefix, bound: u32, n: u8) -> bool
        requires problem { prefix.now.problem ≡ self.now.problem }
        requires number { is_remaining prefix.now.problem.block prefix.now.numbers n ≡ true }
        ensures { result ≡ nat_le bound (next_value self.now.problem (known_in self.now) prefix.now.numbers n) }
    {
        let point = prefix.next_point(n);
        let writes = prefix.row(n).writes.as_slice();
        is_point_late(bound, &point, writes, &self.tails[n as usize - 1])
    }

    /// Whether an instruction remains after a prefix, and takes a bound at least if it comes next.
    pub(crate) fn is_too_late(&self, prefix: &Prefix, bound: u32, n: u8) -> bool
        requires { prefix.now.problem ≡ self.now.problem }
        ensures { result ≡ (is_remaining prefix.now.problem.block prefix.now.numbers n &&
            nat_le bound (next_value self.now.problem (known_in self.now) prefix.now.numbers n)) }
    {
        prefix.is_remaining(n) && self.is_late(prefix, bound, n)
    }

    /// Whether m is known to stand before n.
    pub(crate) fn is_before(&self, m: u8, n: u8) -> bool
        requires first { (1 ≤ m) × (m ≤ length self.now.problem.block) }
        requires second { (1 ≤ n) × (n ≤ length self.now.problem.block) }
        ensures { result ≡ (known_in self.now).before m n }
    {
        self.facts.is_before(m, n)
    }

    /// Whether a prefix has the second number and not the first, which is known to stand before it.
    pub(crate) fn is_turned(&self, prefix: &Prefix, first: u8, second: u8) -> bool
        requires { prefix.now.problem ≡ self.now.problem }
        ensures { result ≡ is_turned self.now.problem (known_in self.now) prefix.now.numbers first second }
    {
        prefix.is_remaining(first) && prefix.has(second) && self.is_before(first, second)
    }
}
