//! The search of one thread (`Ledger::search`): rounds of grant, claim, expand, offer and graft, until nothing is open below the best
//! time or the budget is spent.
//!
//! It is best-first branch and bound over subtrees: each round expands the open node of the least floor, depth first, by at most 64
//! splits. After every 256 splits a list schedule is offered, so that the best time falls early.

ghost use Rattle.std.specs.Prelude.{◌≡◌, ◌≤◌, ◌<◌, ◌/◌, ◌↔◌, IsTrue};
ghost use Rattle.s66_ledger.specs.{piece_splits, SCHEDULE_SPLITS};

use crate::ledger::Ledger;
use crate::limits::{DOMINATED_PIECE_LIMIT, SCHEDULE_SPLITS};
use crate::reply::{BackError, GraftError};
use s66_model::{Rule, Ticket};
use s66_node::{Constant, MarkTable, Piece, Priority, Walk, schedule_below};
use s66_time::Timed;
use std::alloc::{AllocError, Global};

/// How many splits a piece may have within an allowance, by the rule of dominated leaves. If any node of the ledger may be named,
/// they are at most `DOMINATED_PIECE_LIMIT`, so that the nodes that it makes are soon known.
pub fn piece_splits(rule: Rule, allowance: u32) -> u32
    ensures value { result ≡ piece_splits rule allowance }
    ensures within { result ≤ allowance }
{
    match rule {
        Rule::NoneNamed | Rule::WrittenEarlier => allowance,
        Rule::ClampedStanding => allowance.min(DOMINATED_PIECE_LIMIT),
    }
}

/// Whether a list schedule is due where a search or a worker had spent `before` splits and has spent `after`: these pass a multiple
/// of `SCHEDULE_SPLITS`.
pub fn is_schedule_due(before: u32, after: u32) -> bool
    ensures { IsTrue result ↔ (before / SCHEDULE_SPLITS < after / SCHEDULE_SPLITS) }
{
    before / SCHEDULE_SPLITS < after / SCHEDULE_SPLITS
}

/// Where a search stops before it has come to its end: after this many splits in all, or at a best time of no more than this, in
/// minor cycles.
#[derive(Clone, Copy)]
pub(crate) struct Stop {
    splits: u32,
    time: u32,
}

impl Ledger<'_> {
    ghost use Rattle.std.specs.Prelude.{true, false, Some, None, ◌≡◌, ◌≤◌, ◌<◌, OnOk, IfOk};
    ghost use Rattle.s66_model.specs.{splits, floor_value, total_of, IsBeginning, best_time, allowance, node_at, IsOut, Back, Returned, Covers};
    ghost use Rattle.s66_time.specs.TimedOrder.{TimedOrder};
    ghost use Rattle.s66_node.specs.{tree_of};
    ghost use Rattle.s66_ledger.specs.{IsEvent, Leads, IsIdle, WholesAreTimed, IsSearched, IsBetweenRounds, IsWithinRound, IsRoundPiece, IsOffering, IsTaken, still_to_go};

    /// Searches as worker 1, from where the ledger is, until `most` splits are spent in all, the best time is no more than `goal` minor
    /// cycles, no open node's floor is below the best time, or the budget is spent. Every allowance and every node that is out is
    /// taken back first, and what is left of worker 1's allowance goes back to the budget at the end. The walk and the marks are of the
    /// ledger's block and profile; the marks grow by those of the nodes that are made.
    ///
    /// Each round claims the open node of the least floor, expands it by what the worker may spend, offers the best of its whole orders
    /// and grafts the piece. After each `SCHEDULE_SPLITS` splits it offers a list schedule that begins with the node's prefix, so
    /// that good orders are found even if no expansion comes to its end.
    ///
    /// `Err` is out of memory. What is grafted by then stays.
    pub fn search(
        &mut self,
        alloc: Global,
        walk: &mut Walk<'_>,
        marks: &mut MarkTable<'_>,
        most: u32,
        goal: u32,
    ) -> Result<(), AllocError>
        requires walk { walk.old.problem ≡ self.old.problem }
        requires marks { marks.old.problem ≡ self.old.problem }
        requires workers { 1 ≤ self.old.workers }
        ensures walk { walk.new.problem ≡ walk.old.problem }
        ensures marks { marks.new.problem ≡ marks.old.problem }
        ensures leads { Leads self.old self.new }
        ensures best { best_time self.new.problem self.new.state ≤ best_time self.old.problem self.old.state }
    {
        let stop = Some(Stop {
            splits: most,
            time: goal,
        });
        self.search_on(alloc, walk, marks, stop)?;
        self.retire(1)?;
        Ok(())
    }

    /// Takes back every allowance and every node that is out, offers the whole orders among the nodes, and searches until it has to
    /// stop, no open node's floor is below the best time, or the budget is spent and no whole order is below it.
    pub(crate) fn search_on(
        &mut self,
        alloc: Global,
        walk: &mut Walk<'_>,
        marks: &mut MarkTable<'_>,
        stop: Option<Stop>,
    ) -> Result<(), AllocError>
        requires walk { walk.old.problem ≡ self.old.problem }
        requires marks { marks.old.problem ≡ self.old.problem }
        requires workers { 1 ≤ self.old.workers }
        ensures walk { walk.new.problem ≡ walk.old.problem }
        ensures marks { marks.new.problem ≡ marks.old.problem }
        ensures leads { Leads self.old self.new }
        ensures searched { OnOk result (stop ≡ None → IsSearched self.new.problem self.new.budget self.new.state) }
    {
        self.take_back()?;
        self.offer_wholes()?;
        self.search_rounds(alloc, walk, marks, stop)?;
        Ok(())
    }

    /// Searches round by round, as worker 1.
    fn search_rounds(
        &mut self,
        alloc: Global,
        walk: &mut Walk<'_>,
        marks: &mut MarkTable<'_>,
        stop: Option<Stop>,
    ) -> Result<(), AllocError>
        requires walk { walk.old.problem ≡ self.old.problem }
        requires marks { marks.old.problem ≡ self.old.problem }
        requires workers { 1 ≤ self.old.workers }
        requires idle { IsIdle self.old.state }
        requires wholes { WholesAreTimed self.old.problem self.old.state }
        ensures walk { walk.new.problem ≡ walk.old.problem }
        ensures marks { marks.new.problem ≡ marks.old.problem }
        ensures leads { Leads self.old self.new }
        ensures searched { OnOk result (stop ≡ None → IsSearched self.new.problem self.new.budget self.new.state) }
    {
        while !self.has_to_stop(stop) {
            let before = self.splits();
            let goes_on = self.search_round(alloc, walk, marks)?;
            if !goes_on {
                return Ok(());
            }
            self.offer_sometimes(walk, before)?;
        }
        Ok(())
    }

    /// Whether a search stops here.
    fn has_to_stop(&self, stop: Option<Stop>) -> bool
        ensures { stop ≡ None → result ≡ false }
    {
        match stop {
            Some(stop) => stop.splits <= self.splits() || self.best() <= stop.time,
            None => false,
        }
    }

    /// One round of a search; false if the search has come to its end.
    fn search_round(
        &mut self,
        alloc: Global,
        walk: &mut Walk<'_>,
        marks: &mut MarkTable<'_>,
    ) -> Result<bool, AllocError>
        requires walk { walk.old.problem ≡ self.old.problem }
        requires marks { marks.old.problem ≡ self.old.problem }
        requires workers { 1 ≤ self.old.workers }
        requires between { IsBetweenRounds self.old.problem self.old.state }
        ensures same { walk.new.problem ≡ walk.old.problem }
        ensures marks { marks.new.problem ≡ marks.old.problem }
        ensures leads { Leads self.old self.new }
        ensures goes_on { IfOk result (λ on. on ≡ true →
            IsBetweenRounds self.new.problem self.new.state × (still_to_go self.new < still_to_go self.old)) }
        ensures ends { IfOk result (λ on. on ≡ false → IsSearched self.new.problem self.new.budget self.new.state) }
    {
        let allowance = self.allowance_or_grant()?;
        if allowance == 0 {
            return Ok(false);
        }
        let Some(ticket) = self.claim(1)? else {
            return Ok(false);
        };
        let best = self.best();
        if best <= self.machine.floor_of(ticket.node()) {
            self.give_back(ticket.node())?;
            return Ok(false);
        }
        let piece = self.expand(alloc, walk, marks, ticket.prefix())?;
        let root = ticket.node();
        let first = self.node_count();
        self.take_in(ticket, piece)?;
        marks.settle(root, first);
        Ok(true)
    }

    /// Goes to a prefix and expands it by the rule of dominated leaves, by as many splits as a piece may have of those that worker 1 may
    /// spend. The marks grow by those of the nodes that it makes.
    fn expand(
        &self,
        alloc: Global,
        walk: &mut Walk<'_>,
        marks: &mut MarkTable<'_>,
        prefix: &[u8],
    ) -> Result<Piece, AllocError>
        requires workers { 1 ≤ self.now.workers }
        requires some { 1 ≤ allowance self.now.state 1 }
        requires walk { walk.old.problem ≡ self.now.problem }
        requires marks { marks.old.problem ≡ self.now.problem }
        requires prefix { IsBeginning self.now.problem.block prefix.now }
        ensures same { walk.new.problem ≡ walk.old.problem }
        ensures marks { marks.new.problem ≡ marks.old.problem }
        ensures piece { IfOk result (IsRoundPiece self.now prefix.now) }
    {
        let best = self.best();
        let rule = self.rule();
        let most = piece_splits(rule, self.machine.first_allowance());
        match rule {
            Rule::NoneNamed => walk.expand(alloc, prefix, &mut Constant(best), most),
            Rule::WrittenEarlier | Rule::ClampedStanding => {
                walk.expand_dominated(alloc, prefix, &mut Constant(best), most, marks, rule)
            }
        }
    }

    /// How many splits worker 1 may spend, after a grant if it has none; 0 only if the budget is spent.
    fn allowance_or_grant(&mut self) -> Result<u32, AllocError>
        requires workers { 1 ≤ self.old.workers }
        requires between { IsBetweenRounds self.old.problem self.old.state }
        ensures value { IfOk result (λ n. n ≡ allowance self.new.state 1) }
        ensures leads { Leads self.old self.new }
        ensures between { OnOk result (IsBetweenRounds self.new.problem self.new.state) }
        ensures same { OnOk result (still_to_go self.new ≡ still_to_go self.old) }
        ensures spent { IfOk result (λ n. n ≡ 0 → self.new.state.spent ≡ self.new.budget) }
    {
        let allowance = self.machine.first_allowance();
        if 0 < allowance {
            return Ok(allowance);
        }
        let granted = self.grant(1)?;
        Ok(granted)
    }

    /// Takes a node back that is out, as worker 1.
    pub(crate) fn give_back(&mut self, node: u32) -> Result<(), AllocError>
        requires workers { 1 ≤ self.old.workers }
        requires out { IsOut self.old.state node }
        ensures leads { Leads self.old self.new }
        ensures ok { OnOk result (IsEvent self.old (Back 1 node) Returned self.new) }
    {
        match self.back_at(1, node) {
            Ok(()) => Ok(()),
            Err(BackError::OutOfMemory) => Err(AllocError),
            Err(BackError::NotOut) => unreachable!(),
        }
    }

    /// Offers two list schedules of the whole block, so that a search begins with a good order. The walk is at the empty prefix.
    /// `Err` is out of memory.
    pub fn offer_schedules(&mut self, walk: &mut Walk<'_>) -> Result<(), AllocError>
        requires { 1 ≤ self.old.workers }
        ensures walk { walk.new.problem ≡ walk.old.problem }
        ensures offers { IsOffering self.old self.new }
        ensures best { best_time self.new.problem self.new.state ≤ best_time self.old.problem self.old.state }
    {
        self.offer_schedule(walk, Priority::Start)?;
        walk.go_to(&[]);
        self.offer_schedule(walk, Priority::Issue)?;
        Ok(())
    }

    /// Offers a list schedule from the walk's prefix on, if one is due since `before` splits were spent.
    fn offer_sometimes(&mut self, walk: &mut Walk<'_>, before: u32) -> Result<(), AllocError>
        requires { 1 ≤ self.old.workers }
        ensures walk { walk.new.problem ≡ walk.old.problem }
        ensures offers { IsOffering self.old self.new }
    {
        if is_schedule_due(before, self.splits()) {
            self.offer_schedule(walk, Priority::Start)?;
        }
        Ok(())
    }

    /// Offers a list schedule from the walk's prefix on, if its time is below the best; the walk ends at the whole order.
    fn offer_schedule(&mut self, walk: &mut Walk<'_>, priority: Priority) -> Result<(), AllocError>
        requires { 1 ≤ self.old.workers }
        ensures walk { walk.new.problem ≡ walk.old.problem }
        ensures offers { IsOffering self.old self.new }
    {
        match schedule_below(walk, priority, self.best()) {
            Some(timed) => self.offer_order(timed),
            None => Ok(()),
        }
    }

    /// Offers an order as worker 1: if it is one of the block under the profile, the best time is then no more than its total. `Err` is
    /// out of memory.
    pub fn offer_order(&mut self, timed: Timed) -> Result<(), AllocError>
        requires { 1 ≤ self.old.workers }
        ensures offers { IsOffering self.old self.new }
        ensures best { best_time self.new.problem self.new.state ≤ best_time self.old.problem self.old.state }
        ensures at_most { OnOk result (timed.problem ≡ self.old.problem →
            best_time self.new.problem self.new.state ≤ total_of timed.problem timed.numbers) }
    {
        self.offer(1, timed)?;
        Ok(())
    }

    /// Offers the best of the piece's whole orders, and puts the piece in the place of the ticket's node.
    fn take_in(&mut self, ticket: Ticket, piece: Piece) -> Result<(), AllocError>
        requires workers { 1 ≤ self.old.workers }
        requires covers { Covers self.old.rule self.old.problem self.old.budget self.old.state }
        requires within { IsWithinRound self.old.problem self.old.state ticket }
        requires piece { IsRoundPiece self.old ticket.prefix piece }
        requires some { 1 ≤ allowance self.old.state 1 }
        requires below { floor_value self.old.problem ticket.prefix < best_time self.old.problem self.old.state }
        ensures leads { Leads self.old self.new }
        ensures between { OnOk result (IsBetweenRounds self.new.problem self.new.state) }
        ensures less { OnOk result (still_to_go self.new < still_to_go self.old) }
    {
        // first, so that no whole order is left open below the best time
        self.offer_best(&piece)?;
        self.graft_within(ticket.node(), &piece)?;
        Ok(())
    }

    /// Offers the best of the piece's whole orders, if it has one below the best time.
    fn offer_best(&mut self, piece: &Piece) -> Result<(), AllocError>
        requires workers { 1 ≤ self.old.workers }
        requires problem { piece.now.problem ≡ self.old.problem }
        ensures offers { IsOffering self.old self.new }
        ensures at_most { OnOk result ((timed : TimedOrder) → piece.now.timed ≡ Some timed →
            best_time self.new.problem self.new.state ≤ total_of self.new.problem timed.numbers) }
    {
        let Some(timed) = piece.timed() else {
            return Ok(());
        };
        if timed.total() < self.best() {
            self.offer_order(timed.duplicate())?;
        }
        Ok(())
    }

    /// Puts a piece that no test refuses in the place of a node, as worker 1: it is of the block and the profile, by the rule, and within
    /// what the worker may spend, and the node is out and has its prefix.
    fn graft_within(&mut self, node: u32, piece: &Piece) -> Result<(), AllocError>
        requires worker { 1 ≤ self.old.workers }
        requires rule { piece.now.rule ≡ self.old.rule }
        requires problem { piece.now.problem ≡ self.old.problem }
        requires out { IsOut self.old.state node }
        requires prefix { (node_at self.old.state.nodes node).prefix ≡ piece.now.prefix }
        requires within { splits (tree_of piece.now) ≤ allowance self.old.state 1 }
        ensures leads { Leads self.old self.new }
        ensures ok { OnOk result (IsTaken self.old node piece.now self.new) }
    {
        match self.graft_if(1, node, piece, true) {
            Ok(()) => Ok(()),
            Err(GraftError::OutOfMemory) => Err(AllocError),
            Err(GraftError::NotOut) => unreachable!(),
            Err(GraftError::OtherPrefix) => unreachable!(),
            Err(GraftError::OverAllowance) => unreachable!(),
        }
    }
}
