//! A piece: the tree that one expansion makes over a prefix, with its nodes, its splits and its best whole order. A ledger grafts it.

use crate::name::Dominance;
use crate::node::Node;
use arrayvec::ArrayVec;
use s66_isa::{BLOCK_LIMIT, Profile, is_same_profile};
use s66_line::Block;
use s66_model::Rule;
use s66_time::{Order, Timed};
use std::boxed::Box;
use std::marker::Model;

/// What a piece is a tree over: a prefix of the legal orders of a block, timed under a profile.
#[derive(Drop)]
pub(crate) struct Origin {
    pub(crate) source: Order,
    pub(crate) profile: Profile,
    pub(crate) prefix: ArrayVec<u8, BLOCK_LIMIT>,
}

/// A tree over a prefix of a block's legal orders: splits with exactly the ready numbers, leaves that are floors, dominated leaves
/// with names as its rule asks, and a frontier.
#[derive(Drop)]
pub struct Piece {
    pub(crate) rule: Rule,
    // boxed, so that a move of a piece is cheap
    pub(crate) origin: Box<Origin>,
    pub(crate) nodes: Vec<Node>,
    pub(crate) dominances: Vec<Dominance>,
    pub(crate) splits: u32,
    // boxed for the same reason
    pub(crate) timed: Option<Box<Timed>>,
}

impl Model for Piece {
    ghost use Rattle.std.specs.Prelude.{map, option_map};
    ghost use Rattle.s66_node.specs.Nodes.{named};
    ghost use Rattle.s66_node.specs.Pieces.{PieceOf, IsKeptPiece};

    ghost Value = { PieceOf };

    ghost view = { λ p.
        record { rule = p.rule; problem = record { block = p.origin.value.source.block; profile = p.origin.value.profile }; prefix = p.origin.value.prefix.items; nodes = p.nodes.items; names = map named p.dominances.items; timed = option_map (λ t. t.value) p.timed } };

    ghost invariant = { λ p. IsKeptPiece
        (record { rule = p.rule; problem = record { block = p.origin.value.source.block; profile = p.origin.value.profile }; prefix = p.origin.value.prefix.items; nodes = p.nodes.items; names = map named p.dominances.items; timed = option_map (λ t. t.value) p.timed })
        p.splits };
}

impl Piece {
    ghost use Rattle.std.specs.Prelude.{◌≡◌, ◌≤◌, ◌↔◌, IsTrue, length, map, option_copied};
    ghost use Rattle.s66_isa.specs.{BLOCK_LIMIT};
    ghost use Rattle.s66_line.specs.{instrs_of};
    ghost use Rattle.s66_model.specs.{splits};
    ghost use Rattle.s66_node.specs.{named, tree_of, IsBestTimed, AreTreeNodes};

    /// Whether it is of this block under this profile, in time linear in the block's length.
    pub fn is_of(&self, block: &Block, profile: &Profile) -> bool
        ensures { IsTrue result ↔ (self.now.problem ≡ record { block = instrs_of block.now; profile = profile.now }) }
    {
        self.origin.source.is_of(block) && is_same_profile(&self.origin.profile, profile)
    }

    /// The rule of its dominated leaves.
    pub fn rule(&self) -> Rule
        ensures { result ≡ self.now.rule }
    {
        self.rule
    }

    /// The prefix, by its numbers.
    pub fn prefix(&self) -> &[u8]
        ensures value { result.now ≡ self.now.prefix }
        ensures few { length result.now ≤ BLOCK_LIMIT }
    {
        self.origin.prefix.as_slice()
    }

    /// How many splits the tree has.
    pub fn splits(&self) -> u32
        ensures { result ≡ splits (tree_of self.now) }
    {
        self.splits
    }

    /// The nodes of the tree in preorder. The place of each among them is its number here.
    pub fn nodes(&self) -> &[Node]
        ensures value { result.now ≡ self.now.nodes }
        ensures tree { AreTreeNodes self.now }
        ensures few { length self.now.problem.block ≤ BLOCK_LIMIT }
    {
        // proof only: a number for each instruction
        let _few = self.origin.source.numbers();
        self.nodes.as_slice()
    }

    /// What the dominated nodes have besides, each at the place that its node's value says.
    pub fn dominances(&self) -> &[Dominance]
        ensures { map named result.now ≡ self.now.names }
    {
        self.dominances.as_slice()
    }

    /// A least one of the tree's whole orders, timed, if it has some.
    pub fn timed(&self) -> Option<&Timed>
        ensures value { option_copied result ≡ self.now.timed }
        ensures best { IsBestTimed self.now.problem self.now.prefix (tree_of self.now) self.now.timed }
    {
        self.timed.as_deref()
    }
}
