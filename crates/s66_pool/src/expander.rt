//! What a worker expands prefixes with: its walk, and the nodes that it may name.

ghost use Rattle.std.specs.Prelude.{◌≡◌, ◌≤◌, IfSome};
ghost use Rattle.s66_model.specs.{Problem, splits};
ghost use Rattle.s66_node.specs.{tree_of};

use crate::known_nodes::KnownNodes;
use crate::shared_marks::SharedMarks;
use s66_ledger::piece_splits;
use s66_model::Rule;
use s66_node::{Least, Piece, Priority, Walk, schedule_below};
use s66_time::Timed;
use std::alloc::Global;
use std::marker::Model;
use std::sync::Wait;

/// What a worker expands prefixes with: a walk, and what it knows of nodes of the same block and profile.
#[derive(Drop)]
pub(crate) struct Expander<'s, 'b, R> {
    rule: Rule,
    walk: Walk<'b>,
    known: KnownNodes<'s, 'b, R>,
}

impl<'s, 'b, R> Model for Expander<'s, 'b, R> {
    ghost Value = { Problem };

    ghost view = { λ e. e.walk.problem };

    ghost invariant = { λ e. e.known.problem ≡ e.walk.problem };
}

impl<'s, 'b, R: Wait> Expander<'s, 'b, R> {
    /// One that has expanded nothing yet, and knows the nodes that all workers have grafted.
    pub(crate) fn new(
        alloc: Global,
        rt: &'s R,
        marks: &'s SharedMarks<'b>,
        rule: Rule,
    ) -> Expander<'s, 'b, R> {
        Expander {
            rule,
            walk: Walk::new(marks.block(), marks.profile()),
            known: KnownNodes::new(alloc, rt, marks),
        }
    }

    /// Expands a prefix by the rule of dominated leaves, within an allowance of splits, while the best time may fall. None if it
    /// is no beginning of the block's orders, or if out of memory; it may be called again then.
    pub(crate) fn expand<L: Least>(
        &mut self,
        alloc: Global,
        prefix: &[u8],
        incumbent: &mut L,
        allowance: u32,
    ) -> Option<Piece>
        ensures { IfSome result (λ piece. splits (tree_of piece) ≤ allowance) }
    {
        if !self.walk.try_go_to(prefix) {
            return None;
        }
        let rule = self.rule;
        let most = piece_splits(rule, allowance);
        let piece = match rule {
            Rule::NoneNamed => self.walk.expand(alloc, prefix, incumbent, most),
            Rule::WrittenEarlier | Rule::ClampedStanding => {
                self.known.forget_lines();
                self.walk
                    .expand_named(alloc, prefix, incumbent, most, rule, &mut self.known)
            }
        };
        piece.ok()
    }

    /// Lets all workers know the nodes of the ledger that its last piece has become: the node of this number, and those from `first`
    /// on. A piece of which that isn't said is forgotten by the next.
    pub(crate) fn settle(&mut self, root: u32, first: u32) {
        if self.rule == Rule::ClampedStanding {
            self.known.settle(self.rule, root, first);
        }
    }

    /// A list schedule from its prefix on, if its time is below the best.
    pub(crate) fn schedule_below(&mut self, best: u32) -> Option<Timed> {
        schedule_below(&mut self.walk, Priority::Start, best)
    }
}
