//! A document (`Document`): a certificate as data, which is well formed by its type, with its numbers in range and its tree whole. What
//! it claims may be false: that `s66_checker` says.

use crate::indexed_tree::IndexedTree;
use crate::instruction::InstructionText;
use arrayvec::ArrayVec;
use s66_isa::{BLOCK_LIMIT, PROFILE_LENGTH};
use s66_model::{Rule, Tree, TreeLine, TreeLines};
use s66_moments::FactStep;
use std::marker::Model;

/// What a document says.
#[derive(Drop)]
pub struct Claim {
    /// Which nodes its leaves may name. Without fact lines it is `NoneNamed` exactly when no leaf of the tree is dominated, with them
    /// `ClampedStanding`.
    pub rule: Rule,
    /// The fact lines and suppositions, if it may have some; then leaves may be of the kinds that come with them, and none is dominated.
    pub facts: Option<Vec<FactStep>>,
    /// The ten times of a profile, then its seven copies of units.
    pub profile: ArrayVec<u8, PROFILE_LENGTH>,
    /// The instructions with their texts.
    pub block: Vec<InstructionText>,
    /// What the order takes, in minor cycles.
    pub time: u32,
    /// What every order takes at least, in minor cycles.
    pub bound: u32,
    /// The numbers of the order.
    pub order: ArrayVec<u8, BLOCK_LIMIT>,
    /// The tree that shows the bound.
    pub tree: Tree,
}

impl Model for Claim {
    ghost use Rattle.s66_cert.specs.DocumentParts.{Parts, facts_in};

    ghost Value = { Parts };

    ghost view = { λ c.
        record { rule = c.rule; facts = facts_in c.facts; profile = c.profile.items; block = c.block.items; time = c.time; bound = c.bound; numbers = c.order.items; vertices = c.tree } };
}

/// A certificate: what it claims of a block under a profile, and a tree that shows it. It is one whole tree of at most
/// `SPLIT_LIMIT` splits, and every number is in its range; whether the claim is true is for a checker to say.
#[derive(Drop)]
pub struct Document {
    rule: Rule,
    facts: Option<Vec<FactStep>>,
    profile: ArrayVec<u8, PROFILE_LENGTH>,
    block: Vec<InstructionText>,
    time: u32,
    bound: u32,
    order: ArrayVec<u8, BLOCK_LIMIT>,
    tree: IndexedTree,
}

impl Model for Document {
    ghost use Rattle.s66_cert.specs.DocumentParts.{Parts, AreWhole, facts_in};

    ghost Value = { Parts };

    ghost view = { λ d.
        record { rule = d.rule; facts = facts_in d.facts; profile = d.profile.items; block = d.block.items; time = d.time; bound = d.bound; numbers = d.order.items; vertices = d.tree } };

    ghost invariant = { λ d. AreWhole
        (record { rule = d.rule; facts = facts_in d.facts; profile = d.profile.items; block = d.block.items; time = d.time; bound = d.bound; numbers = d.order.items; vertices = d.tree }) };
}

impl Document {
    ghost use Rattle.std.specs.Prelude.{◌≡◌, [], option_map};
    ghost use Rattle.s66_model.specs.{node_named, vertex_of};
    ghost use Rattle.s66_cert.specs.{AreWhole, document_of, IsLineAt};

    /// The document that says this. Its numbers have to be in their ranges, its texts those of instructions, and the lines of its
    /// tree those of one whole tree of at most `SPLIT_LIMIT` splits, of the kinds that may stand with its rule and its fact lines, of
    /// which there are at most `FACT_LIMIT`. It takes time linear in the lines, and no memory.
    #[tactic(auto, using(crate::proofs::FewLines::few_lines))]
    pub fn new(claim: Claim) -> Document
        requires { AreWhole claim }
        ensures { result ≡ claim }
    {
        let Claim {
            rule,
            facts,
            profile,
            block,
            time,
            bound,
            order,
            tree,
        } = claim;
        Document {
            rule,
            facts,
            profile,
            block,
            time,
            bound,
            order,
            tree: IndexedTree::new(tree),
        }
    }

    /// Which nodes its leaves may name. Without fact lines it is `NoneNamed` exactly when no leaf of the tree is dominated, with them
    /// `ClampedStanding`.
    pub fn rule(&self) -> Rule
        ensures value { result ≡ self.now.rule }
        ensures whole { AreWhole self.now }
    {
        self.rule
    }

    /// The fact lines and the lines of suppositions, together at most `FACT_LIMIT`, if it may have some.
    pub fn facts(&self) -> Option<&[FactStep]>
        ensures value { option_map (λ steps. steps.now) result ≡ self.now.facts }
        ensures whole { AreWhole self.now }
    {
        match &self.facts {
            None => None,
            Some(steps) => Some(steps.as_slice()),
        }
    }

    /// The ten times of the profile, then its seven copies of units; each 1 to 100.
    pub fn profile(&self) -> &[u8]
        ensures value { result.now ≡ self.now.profile }
        ensures whole { AreWhole self.now }
    {
        self.profile.as_slice()
    }

    /// The instructions with their texts, 1 to `BLOCK_LIMIT`.
    pub fn block(&self) -> &[InstructionText]
        ensures value { result.now ≡ self.now.block }
        ensures whole { AreWhole self.now }
    {
        self.block.as_slice()
    }

    /// What the order takes, in minor cycles.
    pub fn time(&self) -> u32
        ensures { result ≡ self.now.time }
    {
        self.time
    }

    /// What every order takes at least, in minor cycles.
    pub fn bound(&self) -> u32
        ensures { result ≡ self.now.bound }
    {
        self.bound
    }

    /// The numbers of the order.
    pub fn order(&self) -> &[u8]
        ensures value { result.now ≡ self.now.numbers }
        ensures whole { AreWhole self.now }
    {
        self.order.as_slice()
    }

    /// The lines of the tree.
    pub fn tree(&self) -> TreeLines<'_>
        ensures value { result ≡ self.now.vertices }
        ensures whole { AreWhole self.now }
    {
        self.tree.lines()
    }

    /// The line of the node of this name, which is the numbers of its prefix: at each split it is the first child of the
    /// number that comes next. It is found by jumps over whole trees, one for each earlier sibling on the way.
    #[tactic(auto, using(crate::proofs::FewLines::some_lines))]
    pub fn node_at(&self, name: &[u8]) -> Option<TreeLine<'_>>
        ensures { option_map vertex_of result ≡ node_named [] (document_of self.now).tree name.now }
    {
        self.tree.node_at(name)
    }

    /// The line of the tree at a place in preorder, from 0, and the numbers of its prefix, which are put into this room. None if there
    /// is no such line, or its prefix has more than `BLOCK_LIMIT` numbers. It is found by jumps over whole trees, one for each earlier
    /// sibling on the way.
    #[tactic(auto, using(crate::proofs::FewLines::some_lines))]
    pub fn line_at(
        &self,
        place: usize,
        path: &mut ArrayVec<u8, BLOCK_LIMIT>,
    ) -> Option<TreeLine<'_>>
        ensures { IsLineAt (document_of self.now).tree place (option_map vertex_of result) path.new.items }
    {
        self.tree.line_at(place, path)
    }
}
