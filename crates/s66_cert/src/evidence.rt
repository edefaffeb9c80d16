//! What is to show a bound, if a document may have it (`Evidence`): fact lines and a tree. `s66_deep` makes one of what it found.

ghost use Rattle.std.specs.Prelude.{◌≡◌, ◌≤◌, ◌↔◌, IsTrue};
ghost use Rattle.s66_isa.specs.{BLOCK_LIMIT};
ghost use Rattle.s66_model.specs.{flat, splits};
ghost use Rattle.s66_cert.specs.{TreeFits, tree_of_lines};

use crate::indexed_tree::sibling_count;
use crate::limits::{FACT_LIMIT, SPLIT_LIMIT, TIME_LIMIT};
use crate::ranges::{are_fact_steps, is_vertex};
use s66_model::Tree;
use s66_moments::FactStep;
use std::marker::Model;

/// Whether lines are those of one whole tree that a document may have, of at most this many splits.
fn is_whole(tree: &Tree, most: u32) -> bool
    ensures { IsTrue result ↔ ((flat (tree_of_lines tree.now) ≡ tree.now) ×
        TreeFits BLOCK_LIMIT (tree_of_lines tree.now) × (splits (tree_of_lines tree.now) ≤ most)) }
{
    let mut lines = tree.lines();
    let mut left = 1usize;
    let mut splits = 0u32;
    while let Some(line) = lines.next() {
        if left == 0 || !is_vertex(line) {
            return false;
        }
        let count = sibling_count(line);
        if count > 0 {
            if splits >= most {
                return false;
            }
            splits += 1;
        }
        left = left - 1 + count;
    }
    left == 0
}

/// What is to show a bound in a document with fact lines. A document may have it; whether it shows the bound is for a checker to say.
#[derive(Drop)]
pub struct Evidence {
    bound: u32,
    lines: Vec<FactStep>,
    tree: Tree,
}

impl Model for Evidence {
    ghost use Rattle.s66_cert.specs.Evidence.{EvidenceOf, IsEvidence};

    ghost Value = { EvidenceOf };

    ghost view = { λ e. record { bound = e.bound; lines = e.lines.items; vertices = e.tree } };

    ghost invariant = { λ e. IsEvidence (record { bound = e.bound; lines = e.lines.items; vertices = e.tree }) };
}

impl Evidence {
    ghost use Rattle.std.specs.Prelude.{◌≡◌, ◌≤◌, IfSome, IfNone};
    ghost use Rattle.s66_model.specs.{splits};
    ghost use Rattle.s66_cert.specs.{tree_of_lines, IsEvidence};

    /// Fact lines, and a tree that is to show by them that no order takes less than a bound, in minor cycles. None exactly if a document
    /// may not have them, or the tree has more than this many splits.
    pub fn new(bound: u32, lines: Vec<FactStep>, tree: Tree, most: u32) -> Option<Evidence>
        ensures value { IfSome result (λ e. e ≡ record { bound = bound; lines = lines.items; vertices = tree }) }
        ensures splits { IfSome result (λ e. splits (tree_of_lines e.vertices) ≤ most) }
        ensures none { IfNone result (¬ (IsEvidence (record { bound = bound; lines = lines.items; vertices = tree }) ×
            (splits (tree_of_lines tree) ≤ most))) }
    {
        let are_few = bound <= TIME_LIMIT && lines.len() <= FACT_LIMIT;
        if !are_few || tree.has_dominated() || !are_fact_steps(lines.as_slice()) {
            return None;
        }
        if !is_whole(&tree, most.min(SPLIT_LIMIT)) {
            return None;
        }
        Some(Evidence { bound, lines, tree })
    }

    /// What no order is to take less than, in minor cycles.
    pub fn bound(&self) -> u32
        ensures { result ≡ self.now.bound }
    {
        self.bound
    }

    /// The fact lines, at most `FACT_LIMIT`.
    pub fn lines(&self) -> &[FactStep]
        ensures { result.now ≡ self.now.lines }
    {
        self.lines.as_slice()
    }

    /// The tree.
    pub fn tree(&self) -> &Tree
        ensures { result.now ≡ self.now.vertices }
    {
        &self.tree
    }

    /// The fact lines and the tree.
    pub fn into_parts(self) -> (Vec<FactStep>, Tree)
        ensures lines { result.0.items ≡ self.lines }
        ensures tree { result.1 ≡ self.vertices }
        ensures whole { IsEvidence self }
    {
        (self.lines, self.tree)
    }
}
