//! The arcs and the longest paths to the end by what is known after fact lines, and which line gives an arc.

ghost use Rattle.std.specs.Prelude.{◌≡◌};
ghost use Rattle.s66_moments.specs.{plus, reaches};

use crate::arcs::{arc_by_lines, table_arc};
use crate::hop::Hop;
use crate::left::{leaves_apart, to_show_after};
use s66_cert::Document;
use s66_checker::{Prefix, fact_lines};
use s66_facts::Facts;
use s66_moments::{Moment, Stage};
use std::marker::Model;

/// What is known of a document's block, by dependence alone and after all fact lines. Contracts see the document.
#[derive(Drop)]
pub(crate) struct KnownPaths<'a> {
    pub(crate) document: &'a Document,
    /// The empty one.
    pub(crate) prefix: &'a Prefix,
    pub(crate) by_dependence: &'a Facts,
    pub(crate) by_lines: &'a Facts,
}

impl<'a> Model for KnownPaths<'a> {
    ghost use Rattle.s66_cert.specs.{Parts, document_of};
    ghost use Rattle.s66_reasons.specs.Within.{AreKnown};

    ghost Value = { Parts };

    ghost view = { λ k. k.document.now };

    ghost invariant = { λ k. AreKnown (document_of k.document.now) k.prefix.now k.by_dependence.now k.by_lines.now };
}

/// Whether an arc and a path take `left` minor cycles at least; not if one of the two isn't there.
fn takes(left: u64, arc: Option<u32>, path: Option<u64>) -> bool
    ensures { result ≡ reaches left (plus arc path) }
{
    match (arc, path) {
        (Some(arc), Some(path)) => left.saturating_sub(arc as u64) <= path,
        _ => false,
    }
}

impl<'a> KnownPaths<'a> {
    ghost use Rattle.std.specs.Prelude.{◌≡◌, IsTrue, map};
    ghost use Rattle.s66_isa.specs.{Write as WriteOf, numbers};
    ghost use Rattle.s66_model.specs.{row_at};
    ghost use Rattle.s66_moments.specs.{At, Done, IsNumber, reaches, moments_among, moments_of, network};
    ghost use Rattle.s66_cert.specs.{document_of};
    ghost use Rattle.s66_checker.specs.{known_of, problem_of};
    ghost use Rattle.s66_reasons.specs.{arcs, first_hop, hop_to, line_of_load, next_hop, to_end, AreKnown, IsNumberOf};

    /// Of a document's block, by its empty prefix.
    pub(crate) fn new(
        document: &'a Document,
        prefix: &'a Prefix,
        by_dependence: &'a Facts,
        by_lines: &'a Facts,
    ) -> KnownPaths<'a>
        requires { AreKnown (document_of document.now) prefix.now by_dependence.now by_lines.now }
        ensures { result ≡ document.now }
    {
        KnownPaths {
            document,
            prefix,
            by_dependence,
            by_lines,
        }
    }

    /// How many minor cycles a moment comes later at least than another by one arc; `None` if no arc leads there.
    fn arc(&self, from: &Moment, to: &Moment) -> Option<u32>
        ensures { result ≡ arcs (document_of self.now) from.now to.now }
    {
        let lines = fact_lines(self.document);
        arc_by_lines(self.prefix, self.by_lines, lines, from, to)
    }

    /// The arc from a moment to another, from which the longest path to the end is `path`; `None` if there is none, or if the two don't
    /// take `left` minor cycles.
    fn hop_to(&self, left: u64, from: &Moment, to: Moment, path: Option<u64>) -> Option<Hop>
        requires { path ≡ to_end (document_of self.now) to }
        ensures { result ≡ hop_to (document_of self.now) left from.now to }
    {
        let arc = self.arc(from, &to);
        if takes(left, arc, path) {
            Some(Hop {
                wait: arc.unwrap_or(0),
                to,
            })
        } else {
            None
        }
    }

    /// The arc, as `hop_to` has it, to the first result of n to which there is one.
    fn hop_to_result(&self, left: u64, from: &Moment, n: u8) -> Option<Hop>
        requires { IsNumber (problem_of (document_of self.now)) n }
        ensures { result ≡ first_hop (document_of self.now) left from.now
            (map (λ (w : WriteOf). At n (Done w.reg)) (row_at (problem_of (document_of self.now)) n).writes) }
    {
        let times = self.by_lines.tail(n);
        match self.prefix.row(n).writes.as_slice() {
            [] => None,
            [one] => {
                let first = Moment::At(n, Stage::Done(one.reg));
                self.hop_to(left, from, first, times.first)
            }
            [one, two, ..] => {
                let first = Moment::At(n, Stage::Done(one.reg));
                let second = Moment::At(n, Stage::Done(two.reg));
                self.hop_to(left, from, first, times.first)
                    .or(self.hop_to(left, from, second, times.second))
            }
        }
    }

    /// The same to the first moment of n: its issue, start, free, and then its results.
    fn hop_to_moment_of(&self, left: u64, from: &Moment, n: u8) -> Option<Hop>
        requires { IsNumber (problem_of (document_of self.now)) n }
        ensures { result ≡
            first_hop (document_of self.now) left from.now (moments_of (problem_of (document_of self.now)) n) }
    {
        let times = self.by_lines.tail(n);
        self.hop_to(left, from, Moment::At(n, Stage::Issue), times.issue)
            .or(self.hop_to(left, from, Moment::At(n, Stage::Start), times.start))
            .or(self.hop_to(left, from, Moment::At(n, Stage::Free), times.free))
            .or(self.hop_to_result(left, from, n))
    }

    /// The same to the first moment of all numbers of the block, the lowest number first.
    fn hop_among(&self, left: u64, from: &Moment) -> Option<Hop>
        ensures { result ≡ first_hop (document_of self.now) left from.now
            (moments_among (problem_of (document_of self.now)) (numbers (problem_of (document_of self.now)).block)) }
    {
        for position in 0..self.prefix.count() {
            let hop = self.hop_to_moment_of(left, from, position + 1);
            if hop.is_some() {
                return hop;
            }
        }
        None
    }

    /// The next arc of a longest path, from a moment than which the end comes `left` minor cycles later; `None` if it is the end.
    pub(crate) fn next_hop(&self, left: u64, from: &Moment) -> Option<Hop>
        ensures { result ≡ next_hop (document_of self.now) left from.now }
    {
        let hop = self.hop_to(left, from, Moment::End, Some(0));
        if hop.is_some() {
            return hop;
        }
        self.hop_among(left, from)
    }

    /// Whether the table has an arc as long as this one.
    pub(crate) fn is_of_table(&self, from: &Moment, hop: &Hop) -> bool
        ensures value { result ≡ reaches hop.now.wait (network (problem_of (document_of self.now))
            (known_of (document_of self.now)).before from.now hop.now.to) }
        ensures from { IsTrue result → IsNumberOf (problem_of (document_of self.now)) from.now }
        ensures to { IsTrue result → IsNumberOf (problem_of (document_of self.now)) hop.now.to }
    {
        match table_arc(self.prefix, self.by_lines, from, &hop.to) {
            None => false,
            Some(wait) => hop.wait <= wait,
        }
    }

    /// The number of the load that gives an arc from a moment; 0 if there is none.
    pub(crate) fn line_of_load(&self, from: &Moment, hop: &Hop) -> usize
        ensures { result ≡ line_of_load (document_of self.now) from.now hop.now }
    {
        let lines = fact_lines(self.document);
        let mut number = 0;
        let mut to_show = None;
        for line in lines {
            number += 1;
            if leaves_apart(to_show, line, from, &hop.to, hop.wait) {
                return number;
            }
            to_show = to_show_after(to_show, line);
        }
        0
    }
}
