//! The answer of a search (`Answer`): an order with its time, a lower bound, and the tree that shows the bound.

use crate::lines::push_line;
use crate::links::Links;
use s66_line::Block;
use s66_model::{Rule, Tree};
use s66_node::{Node, Walk};
use s66_time::{Order, Timed};
use std::alloc::{AllocError, Global};
use std::marker::Model;

/// An answer to a block under a profile, for a budget of splits: a legal order with its time, a lower bound of the totals of all
/// legal orders, and a tree that shows the bound. The tree's nodes are those of a ledger whose search has ended.
#[derive(Drop)]
pub struct Answer {
    pub(crate) rule: Rule,
    pub(crate) source: u32,
    pub(crate) best: Timed,
    pub(crate) budget: u32,
    pub(crate) nodes: Vec<Node>,
    pub(crate) bound: u32,
    pub(crate) splits: u32,
}

impl Model for Answer {
    ghost use Rattle.s66_ledger.specs.Answers.{AnswerOf, ended_of, IsKeptAnswer};

    ghost Value = { AnswerOf };

    ghost view = { λ a. ended_of a.rule a.best.problem a.budget a.nodes.items a.best.numbers a.splits };

    ghost invariant = { λ a. IsKeptAnswer (ended_of a.rule a.best.problem a.budget a.nodes.items a.best.numbers
        a.splits) a.nodes.items a.bound a.source };
}

impl Answer {
    ghost use Rattle.std.specs.Prelude.{◌≡◌, ◌≤◌, ◌<◌, ◌↔◌, IsTrue, IfOk, length};
    ghost use Rattle.s66_line.specs.{instrs_of};
    ghost use Rattle.s66_model.specs.{total_of, flat, IsAnswer, IsBestAnswer, source_time, IsBound, BUDGET_LIMIT};
    ghost use Rattle.s66_ledger.specs.{answer_of};

    /// The order.
    pub fn order(&self) -> &Order
        ensures { result.now ≡ record { block = self.now.problem.block; numbers = (answer_of self.now).order } }
    {
        self.best.order()
    }

    /// The order with its times.
    pub fn best(&self) -> &Timed
        ensures { result.now ≡ record { problem = self.now.problem; numbers = (answer_of self.now).order } }
    {
        &self.best
    }

    /// The same answer, also its bound and its tree, with another order that takes no longer, and less than the source order.
    pub fn with_order(self, timed: Timed) -> Answer
        requires problem { timed.problem ≡ self.problem }
        requires time { total_of timed.problem timed.numbers ≤ (answer_of self).time }
        requires faster { total_of timed.problem timed.numbers < source_time self.problem }
        ensures answer { answer_of result ≡ record (answer_of self)
            { order = timed.numbers; time = total_of timed.problem timed.numbers } }
        ensures rule { result.rule ≡ self.rule }
        ensures problem { result.problem ≡ self.problem }
        ensures budget { result.budget ≡ self.budget }
    {
        // proof only: it is legal
        let _legal = timed.order();
        let Answer {
            rule,
            source,
            budget,
            nodes,
            bound,
            splits,
            ..
        } = self;
        Answer {
            rule,
            source,
            best: timed,
            budget,
            nodes,
            bound,
            splits,
        }
    }

    /// The rule of its dominated leaves.
    pub fn rule(&self) -> Rule
        ensures { result ≡ self.now.rule }
    {
        self.rule
    }

    /// The total of the order, in minor cycles.
    pub fn time(&self) -> u32
        ensures value { result ≡ (answer_of self.now).time }
        ensures answer { IsAnswer self.now.rule self.now.problem self.now.budget (answer_of self.now) }
    {
        self.best.total()
    }

    /// The total of the source order, in minor cycles.
    pub fn source(&self) -> u32
        ensures { result ≡ source_time self.now.problem }
    {
        self.source
    }

    /// A lower bound of the totals of all legal orders, in minor cycles.
    pub fn bound(&self) -> u32
        ensures value { result ≡ (answer_of self.now).bound }
        ensures bound { IsBound self.now.problem result }
    {
        self.bound
    }

    /// How many splits the tree has, at most `BUDGET_LIMIT`.
    pub fn splits(&self) -> u32
        ensures value { result ≡ (answer_of self.now).splits }
        ensures few { result ≤ BUDGET_LIMIT }
    {
        self.splits
    }

    /// How many lines the tree has.
    pub fn line_count(&self) -> usize
        ensures { result ≡ length self.now.state.nodes }
    {
        self.nodes.len()
    }

    /// Whether the time is the bound, so that no legal order takes less; if it isn't, the tree has as many splits as the
    /// budget allows.
    pub fn is_best(&self) -> bool
        ensures value { IsTrue result ↔ IsBestAnswer (answer_of self.now) }
        ensures answer { IsAnswer self.now.rule self.now.problem self.now.budget (answer_of self.now) }
    {
        self.bound == self.best.total()
    }

    /// The tree, as a document stores it; the block is that of the answer. It takes time linear in the number of nodes, and 8
    /// bytes a node beside the tree. `Err` is out of memory.
    pub fn tree(&self, alloc: Global, block: &Block) -> Result<Tree, AllocError>
        requires { instrs_of block.now ≡ self.now.problem.block }
        ensures { IfOk result (λ tree. tree ≡ flat (answer_of self.now).tree) }
    {
        let nodes = self.nodes.as_slice();
        let links = Links::of(alloc, nodes)?;
        let mut walk = Walk::new(block, self.best.profile());
        let mut tree = Tree::new(alloc);
        let mut node = 0;
        let mut more = true;
        while more {
            more = push_line(nodes, &links, &mut walk, &mut node, &mut tree)?;
        }
        Ok(tree)
    }
}
