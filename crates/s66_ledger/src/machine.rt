//! The machine (`Machine`): the state of a ledger without its history, and what each event does to it. What the events mean is
//! `s66_model/specs/LedgerRuns.antt`.

use crate::answer::Answer;
use crate::limits::GRANT_LIMIT;
use crate::node_table::NodeTable;
use crate::reply::{BackError, GraftError, Offered};
use arrayvec::ArrayVec;
use s66_isa::{BLOCK_LIMIT, Profile};
use s66_line::Block;
use s66_model::{BUDGET_LIMIT, Rule, Ticket};
use s66_node::{Piece, Walk};
use s66_time::{Order, Timed, time_of};
use std::alloc::{AllocError, Global};
use std::marker::Model;

/// The ledger of a search without its history: the state to which its events lead; it borrows the block. What a method does that
/// `Ledger` has too, is said there.
#[derive(Drop)]
pub(crate) struct Machine<'a> {
    pub(crate) rule: Rule,
    pub(crate) block: &'a Block<'a>,
    pub(crate) profile: Profile,
    pub(crate) budget: u32,
    pub(crate) table: NodeTable,
    /// The total of the source order, in minor cycles.
    source: u32,
    pub(crate) best: Timed,
    left: u32,
    pub(crate) allowances: Vec<u32>,
    pub(crate) spent: u32,
}

impl<'a> Model for Machine<'a> {
    ghost use Rattle.s66_line.specs.{instrs_of};
    ghost use Rattle.s66_ledger.specs.LedgerMachine.{MachineOf, machine_of, IsKeptMachine};

    ghost Value = { MachineOf };

    ghost view = { λ l. machine_of
        (record { rule = l.rule; problem = record { block = instrs_of l.block.now; profile = l.profile }; budget = l.budget; nodes = l.table; source = l.source; best = l.best; left = l.left; allowances = l.allowances.items; spent = l.spent }) };

    ghost invariant = { λ l. IsKeptMachine
        (record { rule = l.rule; problem = record { block = instrs_of l.block.now; profile = l.profile }; budget = l.budget; nodes = l.table; source = l.source; best = l.best; left = l.left; allowances = l.allowances.items; spent = l.spent }) };
}

impl<'a> Machine<'a> {
    ghost use Rattle.std.specs.Prelude.{true, Some, None, [], ◌+◌, ◌≡◌, ◌<◌, ◌≤◌, ◌⊎◌, ◌↔◌, length, IfOk, IfErr, IfSome, IfNone, OnOk, OnErr, IsTrue};
    ghost use Rattle.s66_line.specs.{instrs_of};
    ghost use Rattle.s66_model.specs.{IsBeginning, floor_value, splits, Event, opening, best_time, allowance, is_live, node_at, IsOut, Grant, Granted, Claim, Claimed, Back, Returned, NotOut, Retire};
    ghost use Rattle.s66_model.specs.{Retired, IsOfferOf, IsOwnPiece, bound_of, IsEnded, ended_answer, BUDGET_LIMIT};
    ghost use Rattle.s66_node.specs.{tree_of};
    ghost use Rattle.s66_ledger.specs.{IsMove, answer_of, NoneOut, WholesAreTimed, IsTakenMove, IsRefusedMove, claimed_node, IsTicketOf, IsLeastOpen, offered_reply};
    ghost use Rattle.s66_ledger.specs.declared.reply.BackError.TheVariants as refused;

    /// A machine of a walk's block and profile: of one open node, the empty prefix, at which the walk is, and whose best order is the
    /// source order; the workers count from 1, and the rule is that of dominated leaves.
    pub(crate) fn new(
        alloc: Global,
        walk: &Walk<'a>,
        rule: Rule,
        budget: u32,
        workers: u8,
    ) -> Result<Machine<'a>, AllocError>
        requires first { walk.now.numbers ≡ [] }
        requires budget { budget ≤ BUDGET_LIMIT }
        ensures rule { IfOk result (λ l. l.rule ≡ rule) }
        ensures problem { IfOk result (λ l. l.problem ≡ walk.now.problem) }
        ensures budget { IfOk result (λ l. l.budget ≡ budget) }
        ensures workers { IfOk result (λ l. l.workers ≡ workers) }
        ensures state { IfOk result (λ l. l.state ≡ opening l.problem budget workers) }
        ensures lines { IfOk result (λ l. length l.lines ≡ 1) }
    {
        let mut allowances = Vec::new(alloc);
        for _ in 0..workers {
            allowances.push(0)?;
        }
        let table = NodeTable::new(alloc, walk.floor_value())?;
        let block = walk.block();
        let profile = *walk.profile();
        let best = time_of(block, &profile, &Order::source(block));
        Ok(Machine {
            rule,
            block,
            profile,
            budget,
            table,
            source: best.total(),
            best,
            left: budget,
            allowances,
            spent: 0,
        })
    }

    pub(crate) fn bound(&self) -> u32
        ensures { result ≡ bound_of self.now.problem self.now.state }
    {
        self.table.least_floor(self.best.total())
    }

    pub(crate) fn grant(&mut self, w: u8) -> u32
        requires { (1 ≤ w) × (w ≤ self.old.workers) }
        ensures granted { IsMove self.old (Grant w) (Granted result) self.new }
        ensures lines { self.new.lines ≡ self.old.lines }
    {
        let share = self.left.min(GRANT_LIMIT);
        self.left -= share;
        self.allowances[w as usize - 1] += share;
        share
    }

    pub(crate) fn retire(&mut self, w: u8)
        requires { (1 ≤ w) × (w ≤ self.old.workers) }
        ensures retired { IsMove self.old (Retire w) Retired self.new }
        ensures lines { self.new.lines ≡ self.old.lines }
    {
        self.retire_at(w as usize - 1);
    }

    /// Gives the allowance of the worker at this place, from 0, back to the budget.
    pub(crate) fn retire_at(&mut self, at: usize)
        requires { at < self.old.workers }
        ensures retired { IsMove self.old (Retire (at + 1)) Retired self.new }
        ensures lines { self.new.lines ≡ self.old.lines }
    {
        self.left += self.allowances[at];
        self.allowances[at] = 0;
    }

    /// How many splits worker 1 may spend.
    pub(crate) fn first_allowance(&self) -> u32
        requires { 1 ≤ self.now.workers }
        ensures { result ≡ allowance self.now.state 1 }
    {
        self.allowances[0]
    }

    /// The value of the floor of a node that is out.
    pub(crate) fn floor_of(&self, node: u32) -> u32
        requires { IsOut self.now.state node }
        ensures { result ≡ floor_value self.now.problem (node_at self.now.state.nodes node).prefix }
    {
        self.table.value_of(node)
    }

    pub(crate) fn claim(&mut self, w: u8) -> Option<Ticket>
        requires { (1 ≤ w) × (w ≤ self.old.workers) }
        ensures ok { IsMove self.old (Claim w) (Claimed (claimed_node result)) self.new }
        ensures lines { self.new.lines ≡ self.old.lines }
        ensures ticket { IsTicketOf self.old.state result }
        ensures least { IsLeastOpen self.old.problem self.old.state result }
    {
        prove!(self.block.count() <= BLOCK_LIMIT);
        let Some(node) = self.table.claim() else {
            return None;
        };
        let prefix = self.table.prefix_of(node);
        Some(Ticket::new(node, prefix))
    }

    pub(crate) fn back(&mut self, w: u8, node: u32) -> Result<(), BackError>
        requires { (1 ≤ w) × (w ≤ self.old.workers) }
        ensures ok { OnOk result (IsMove self.old (Back w node) Returned self.new) }
        ensures lines { self.new.lines ≡ self.old.lines }
        ensures not_out { IfErr result (λ e. e ≡ refused.NotOut → IsMove self.old (Back w node) NotOut self.new) }
        ensures err { OnErr result (self.new ≡ self.old) }
    {
        if !self.table.is_out(node) {
            return Err(BackError::NotOut);
        }
        let Ok(()) = self.table.give_back(node) else {
            return Err(BackError::OutOfMemory);
        };
        Ok(())
    }

    /// Whether a node is out.
    pub(crate) fn is_out(&self, node: u32) -> bool
        ensures { IsTrue result ↔ IsOut self.now.state node }
    {
        self.table.is_out(node)
    }

    /// Whether it is known that no node is out.
    pub(crate) fn has_none_out(&self) -> bool
        ensures { IsTrue result → NoneOut self.now.state }
    {
        !self.table.has_out()
    }

    /// Whether it is known that no whole order is open or out.
    pub(crate) fn has_no_whole(&self) -> bool
        ensures { IsTrue result → WholesAreTimed self.now.problem self.now.state }
    {
        // so a depth can be such a length
        prove!(self.block.count() <= BLOCK_LIMIT);
        !self.table.may_reach(self.block.count())
    }

    pub(crate) fn workers(&self) -> u8
        ensures value { result ≡ self.now.workers }
        ensures allowances { result ≡ length self.now.state.allowances }
    {
        self.allowances.len() as u8
    }

    pub(crate) fn node_count(&self) -> u32
        ensures value { result ≡ length self.now.state.nodes }
        ensures lines { result ≡ length self.now.lines }
    {
        self.table.count() as u32
    }

    /// The whole order of a node that is open or out, with its floor below the best time; None of any other node, in constant time.
    pub(crate) fn promising_order(&self, node: u32) -> Option<ArrayVec<u8, BLOCK_LIMIT>>
        requires { node < length self.now.state.nodes }
        ensures prefix { IfSome result (λ order. order.items ≡ (node_at self.now.state.nodes node).prefix) }
        ensures begins { IfSome result (λ order. IsBeginning self.now.problem.block order.items) }
        ensures whole { IfSome result (λ order. length order.items ≡ length self.now.problem.block) }
        ensures none { IfNone result (is_live (node_at self.now.state.nodes node) ≡ true →
            (length (node_at self.now.state.nodes node).prefix < length self.now.problem.block) ⊎
            (best_time self.now.problem self.now.state ≤ floor_value self.now.problem
            (node_at self.now.state.nodes node).prefix)) }
    {
        // so the order fits
        prove!(self.block.count() <= BLOCK_LIMIT);
        if self.table.is_live_below(node, self.best.total())
            && self.table.has_length(node, self.block.count())
        {
            Some(self.table.prefix_of(node))
        } else {
            None
        }
    }

    pub(crate) fn offer(&mut self, w: u8, timed: Timed) -> Offered
        requires { (1 ≤ w) × (w ≤ self.old.workers) }
        ensures offered { (event : Event) × IsOfferOf self.old.problem w timed.problem timed.numbers event ×
            IsMove self.old event (offered_reply result) self.new }
        ensures lines { self.new.lines ≡ self.old.lines }
    {
        if !timed.is_of(self.block, &self.profile) {
            return Offered::OtherBlock;
        }
        // proof only: its order is legal
        let _legal = timed.order();
        let least = self.best.total();
        if timed.total() < least {
            self.best = timed;
            Offered::Lower
        } else {
            Offered::NotLower { least }
        }
    }

    /// Whether a piece is of the block and the profile, and by the rule, in time linear in the block's length.
    pub(crate) fn is_own(&self, piece: &Piece) -> bool
        ensures { IsTrue result ↔ ((piece.now.rule ≡ self.now.rule) × (piece.now.problem ≡ self.now.problem)) }
    {
        piece.rule() == self.rule && piece.is_of(self.block, &self.profile)
    }

    /// Puts a piece in the place of a node; `own` says whether it is of the block and the profile, and by the rule.
    pub(crate) fn graft(
        &mut self,
        w: u8,
        node: u32,
        piece: &Piece,
        own: bool,
    ) -> Result<(), GraftError>
        requires worker { (1 ≤ w) × (w ≤ self.old.workers) }
        requires own { IsOwnPiece self.old.rule self.old.problem piece.now.rule piece.now.problem own }
        ensures ok { OnOk result (IsTakenMove self.old w node piece.now self.new) }
        ensures refused { IfErr result (λ e. IsRefusedMove self.old w node piece.now e self.new) }
        ensures err { OnErr result (self.new ≡ self.old) }
    {
        if !self.table.is_out(node) {
            return Err(GraftError::NotOut);
        }
        if !own {
            return Err(GraftError::OtherPrefix);
        }
        if !self.table.is_over(node, piece.prefix()) {
            return Err(GraftError::OtherPrefix);
        }
        if self.allowances[w as usize - 1] < piece.splits() {
            return Err(GraftError::OverAllowance);
        }
        match self.put_in(w, node, piece) {
            Ok(()) => Ok(()),
            Err(AllocError) => Err(GraftError::OutOfMemory),
        }
    }

    /// Puts a piece that needs no test in the place of a node: it is of the block and the profile, by the rule, and within what the
    /// worker may spend, and the node is out and has its prefix.
    fn put_in(&mut self, w: u8, node: u32, piece: &Piece) -> Result<(), AllocError>
        requires worker { (1 ≤ w) × (w ≤ self.old.workers) }
        requires rule { piece.now.rule ≡ self.old.rule }
        requires problem { piece.now.problem ≡ self.old.problem }
        requires out { IsOut self.old.state node }
        requires prefix { (node_at self.old.state.nodes node).prefix ≡ piece.now.prefix }
        requires within { splits (tree_of piece.now) ≤ allowance self.old.state w }
        ensures ok { OnOk result (IsTakenMove self.old w node piece.now self.new) }
        ensures err { OnErr result (self.new ≡ self.old) }
    {
        // so the numbers of its nodes fit
        prove!(self.block.count() <= BLOCK_LIMIT);
        // proof only: its nodes are those of a piece's tree
        let _nodes = piece.nodes();
        let splits = piece.splits();
        let best = self.best.total();
        self.table.attach(node, best, piece)?;
        self.allowances[w as usize - 1] -= splits;
        self.spent += splits;
        Ok(())
    }

    /// The answer that the ledger is if its steps have ended.
    pub(crate) fn into_answer(self) -> Answer
        requires { IsEnded self.problem self.budget self.state }
        ensures rule { result.rule ≡ self.entry.rule }
        ensures problem { result.problem ≡ self.entry.problem }
        ensures budget { result.budget ≡ self.entry.budget }
        ensures answer { answer_of result ≡ ended_answer self.entry.problem self.entry.state }
    {
        let bound = self.bound();
        let Machine {
            rule,
            budget,
            table,
            source,
            best,
            spent,
            ..
        } = self;
        Answer {
            rule,
            source,
            best,
            budget,
            nodes: table.into_nodes(),
            bound,
            splits: spent,
        }
    }
}
