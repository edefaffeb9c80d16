//! The ledger (`Ledger`): a machine that also records each event in its history. These are the calls that workers make: grant, claim,
//! graft, offer, back and retire.

ghost use Rattle.std.specs.Prelude.{◌≡◌};
ghost use Rattle.s66_ledger.specs.{claimed_node};

use crate::answer::Answer;
use crate::attaching::opened_state;
use crate::event_record::{EventRecord, refusal_of};
use crate::history::History;
use crate::machine::Machine;
use crate::reply::{BackError, GraftError, Offered};
use s66_isa::Profile;
use s66_line::Block;
use s66_model::{BUDGET_LIMIT, Rule, Summed, Ticket};
use s66_node::{MarkTable, Piece, Walk};
use s66_time::Timed;
use std::alloc::{AllocError, Global};
use std::marker::Model;

/// The ledger of a search over one block's orders, for one thread; it borrows the block. It keeps its history.
#[derive(Drop)]
pub struct Ledger<'a> {
    pub(crate) machine: Machine<'a>,
    history: History,
}

impl<'a> Model for Ledger<'a> {
    ghost use Rattle.s66_ledger.specs.Ledgers.{LedgerOf, with_history, IsRecorded};

    ghost Value = { LedgerOf };

    ghost view = { λ l. with_history l.machine l.history.entries.items l.history.bytes.items };

    ghost invariant = { λ l. IsRecorded (with_history l.machine l.history.entries.items l.history.bytes.items) };
}

impl<'a> Summed for Ledger<'a> {
    ghost use Rattle.s66_ledger.specs.Ledgers.{account_summary};

    ghost summary = { λ l. account_summary l };
}

impl<'a> Ledger<'a> {
    ghost use Rattle.std.specs.Prelude.{[], ◌≡◌, ◌≤◌, length, IfOk, IfErr, OnOk, OnErr};
    ghost use Rattle.s66_line.specs.{instrs_of};
    ghost use Rattle.s66_isa.specs.{weigh};
    ghost use Rattle.s66_model.specs.{Account, Event, Run, opening, best_time, Grant, Granted, Claim, Claimed, Back, Returned, NotOut, Retire, Retired, Taken, IsOfferOf, IsOwnPiece, Covers, bound_of};
    ghost use Rattle.s66_model.specs.{IsFinished, IsBound, IsTable, BUDGET_LIMIT};
    ghost use Rattle.s66_ledger.specs.{IsEvent, IsRecorded, events_of, account_summary, answer_of, IsGraft, IsRefusedGraft, claimed_node, IsTicketOf, IsLeastOpen, offered_reply};
    ghost use Rattle.s66_ledger.specs.declared.reply.BackError.TheVariants as refused;

    /// A ledger of a walk's block and profile, of one open node, the empty prefix, at which the walk is. Its best order is the source
    /// order, and its history is empty; the workers count from 1, and the rule is that of dominated leaves.
    pub fn new(
        alloc: Global,
        walk: &Walk<'a>,
        rule: Rule,
        budget: u32,
        workers: u8,
    ) -> Result<Ledger<'a>, AllocError>
        requires first { walk.now.numbers ≡ [] }
        requires budget { budget ≤ BUDGET_LIMIT }
        ensures rule { IfOk result (λ l. l.rule ≡ rule) }
        ensures problem { IfOk result (λ l. l.problem ≡ walk.now.problem) }
        ensures budget { IfOk result (λ l. l.budget ≡ budget) }
        ensures workers { IfOk result (λ l. l.workers ≡ workers) }
        ensures state { IfOk result (λ l. l.state ≡ opening l.problem budget workers) }
        ensures history { IfOk result (λ l. (l.entries ≡ []) × (l.bytes ≡ [])) }
    {
        Ok(Ledger {
            machine: Machine::new(alloc, walk, rule, budget, workers)?,
            history: History::new(alloc),
        })
    }

    /// The block.
    pub fn block(&self) -> &'a Block<'a>
        ensures { instrs_of result.now ≡ self.now.problem.block }
    {
        self.machine.block
    }

    /// The rule of dominated leaves.
    pub fn rule(&self) -> Rule
        ensures { result ≡ self.now.rule }
    {
        self.machine.rule
    }

    /// The profile.
    pub fn profile(&self) -> &Profile
        ensures { result.now ≡ self.now.problem.profile }
    {
        &self.machine.profile
    }

    /// The most splits of the search.
    pub fn budget(&self) -> u32
        ensures value { result ≡ self.now.budget }
        ensures few { result ≤ BUDGET_LIMIT }
    {
        self.machine.budget
    }

    /// How many workers there are.
    pub fn workers(&self) -> u8
        ensures { result ≡ self.now.workers }
    {
        self.machine.workers()
    }

    /// What is stored of the events, which lead from the opening to the ledger as it is.
    pub fn history(&self) -> &History
        ensures entries { result.now.entries.items ≡ self.now.entries }
        ensures bytes { result.now.bytes.items ≡ self.now.bytes }
        ensures run { Run self.now.rule self.now.problem (opening self.now.problem self.now.budget self.now.workers)
            (events_of self.now) self.now.state }
    {
        &self.history
    }

    /// How many splits are spent, which is what the accounts of the workers add up to.
    pub fn splits(&self) -> u32
        ensures value { result ≡ self.now.state.spent }
        ensures within { result ≤ self.now.budget }
        ensures accounts { weigh (λ (a : Account). a.splits) (account_summary self.now).accounts ≡
            self.now.state.spent }
    {
        self.machine.spent
    }

    /// How many nodes it has. They are numbered from 0, in the order in which they are made.
    pub fn node_count(&self) -> u32
        ensures { result ≡ length self.now.state.nodes }
    {
        self.machine.node_count()
    }

    /// The best time, in minor cycles. Whatever happened to the ledger, every legal order begins with the prefix of exactly one of
    /// its nodes that aren't split, and its nodes are those of one tree.
    pub fn best(&self) -> u32
        ensures value { result ≡ best_time self.now.problem self.now.state }
        ensures covers { Covers self.now.rule self.now.problem self.now.budget self.now.state }
        ensures table { IsTable self.now.problem self.now.state }
    {
        self.machine.best.total()
    }

    /// The best order so far, with its times.
    pub fn best_order(&self) -> &Timed
        ensures { result.now ≡ record { problem = self.now.problem; numbers = self.now.state.best } }
    {
        &self.machine.best
    }

    /// A lower bound of the totals of all legal orders, in minor cycles: the least of the best time and the floors of the nodes that
    /// are open or out. In time linear in the number of nodes.
    pub fn bound(&self) -> u32
        ensures value { result ≡ bound_of self.now.problem self.now.state }
        ensures bound { IsBound self.now.problem result }
    {
        self.machine.bound()
    }

    /// Moves `GRANT_LIMIT` splits of the budget to the worker, or what is left of it, and returns how many.
    pub fn grant(&mut self, w: u8) -> Result<u32, AllocError>
        requires { (1 ≤ w) × (w ≤ self.old.workers) }
        ensures ok { IfOk result (λ n. IsEvent self.old (Grant w) (Granted n) self.new) }
        ensures err { OnErr result (self.new ≡ self.old) }
    {
        self.history.entries.reserve(1)?;
        let splits = self.machine.grant(w);
        self.history
            .entries
            .push_reserved(EventRecord::Grant { w, splits });
        Ok(splits)
    }

    /// Gives the worker's allowance back to the budget.
    pub fn retire(&mut self, w: u8) -> Result<(), AllocError>
        requires { (1 ≤ w) × (w ≤ self.old.workers) }
        ensures ok { OnOk result (IsEvent self.old (Retire w) Retired self.new) }
        ensures err { OnErr result (self.new ≡ self.old) }
    {
        self.history.entries.reserve(1)?;
        self.machine.retire(w);
        self.history
            .entries
            .push_reserved(EventRecord::Retire { w });
        Ok(())
    }

    /// Hands out the open node of the least floor, of equal ones the deepest, and of these the newest; None only if no node is
    /// open. In time logarithmic in the number of open nodes.
    pub fn claim(&mut self, w: u8) -> Result<Option<Ticket>, AllocError>
        requires { (1 ≤ w) × (w ≤ self.old.workers) }
        ensures ok { IfOk result (λ ticket. IsEvent self.old (Claim w) (Claimed (claimed_node ticket)) self.new) }
        ensures ticket { IfOk result (λ ticket. IsTicketOf self.old.state ticket) }
        ensures least { IfOk result (λ ticket. IsLeastOpen self.old.problem self.old.state ticket) }
        ensures err { OnErr result (self.new ≡ self.old) }
    {
        self.history.entries.reserve(1)?;
        let ticket = self.machine.claim(w);
        let node = node_of(&ticket);
        self.history
            .entries
            .push_reserved(EventRecord::Claim { w, node });
        Ok(ticket)
    }

    /// Takes a node back that was handed out, so that it is open again.
    pub fn back(&mut self, w: u8, ticket: Ticket) -> Result<(), (BackError, Ticket)>
        requires { (1 ≤ w) × (w ≤ self.old.workers) }
        ensures ok { OnOk result (IsEvent self.old (Back w ticket.node) Returned self.new) }
        ensures not_out { IfErr result (λ e. e.0 ≡ refused.NotOut →
            IsEvent self.old (Back w ticket.node) NotOut self.new) }
        ensures no_memory { IfErr result (λ e. e.0 ≡ refused.OutOfMemory → self.new ≡ self.old) }
        ensures err { OnErr result (self.new.state ≡ self.old.state) }
        ensures handed_back { IfErr result (λ e. e.1 ≡ ticket) }
    {
        match self.back_at(w, ticket.node()) {
            Ok(()) => Ok(()),
            Err(why) => Err((why, ticket)),
        }
    }

    /// Takes the node of this number back, as `back` does.
    pub(crate) fn back_at(&mut self, w: u8, node: u32) -> Result<(), BackError>
        requires { (1 ≤ w) × (w ≤ self.old.workers) }
        ensures ok { OnOk result (IsEvent self.old (Back w node) Returned self.new) }
        ensures not_out { IfErr result (λ e. e ≡ refused.NotOut → IsEvent self.old (Back w node) NotOut self.new) }
        ensures no_memory { IfErr result (λ e. e ≡ refused.OutOfMemory → self.new ≡ self.old) }
        ensures err { OnErr result (self.new.state ≡ self.old.state) }
    {
        let Ok(()) = self.history.entries.reserve(1) else {
            return Err(BackError::OutOfMemory);
        };
        match self.machine.back(w, node) {
            Ok(()) => {
                self.history.entries.push_reserved(EventRecord::Back {
                    w,
                    node,
                    returned: true,
                });
                Ok(())
            }
            Err(BackError::NotOut) => {
                self.history.entries.push_reserved(EventRecord::Back {
                    w,
                    node,
                    returned: false,
                });
                Err(BackError::NotOut)
            }
            Err(BackError::OutOfMemory) => Err(BackError::OutOfMemory),
        }
    }

    /// Makes an order the best if it is faster.
    pub fn offer(&mut self, w: u8, timed: Timed) -> Result<Offered, AllocError>
        requires { (1 ≤ w) × (w ≤ self.old.workers) }
        ensures ok { IfOk result (λ offered. (event : Event) ×
            IsOfferOf self.old.problem w timed.problem timed.numbers event ×
            IsEvent self.old event (offered_reply offered) self.new) }
        ensures err { OnErr result (self.new ≡ self.old) }
    {
        let numbers = timed.order().numbers();
        let count = numbers.len() as u8;
        self.history.entries.reserve(1)?;
        self.history.bytes.extend_from_slice(numbers)?;
        let time = timed.total();
        let offered = self.machine.offer(w, timed);
        self.history.entries.push_reserved(EventRecord::Offer {
            w,
            own: offered.is_own(),
            count,
            time,
            offered,
        });
        Ok(offered)
    }

    /// Puts a piece in the place of the node of this number, which was handed out, and spends its splits. The node takes the state of the
    /// piece's root, and the piece's other prefixes become nodes. A leaf that is below the best time is kept open. A dominated prefix is
    /// closed if its name is found at the place that the piece guesses, at a node that comes before it and isn't dominated
    /// itself; else it is kept open.
    ///
    /// It takes time linear in the piece's nodes and their names, with a logarithm of the number of open nodes for each that is
    /// open. All room is made before anything changes. The piece stays with the caller, who can drop it while no other thread waits.
    pub fn graft(&mut self, w: u8, node: u32, piece: &Piece) -> Result<(), GraftError>
        requires { (1 ≤ w) × (w ≤ self.old.workers) }
        ensures ok { OnOk result (IsGraft self.old w node piece.now Taken self.new) }
        ensures refused { IfErr result (λ why. IsRefusedGraft self.old w node piece.now why self.new) }
        ensures err { OnErr result (self.new.state ≡ self.old.state) }
    {
        let own = self.machine.is_own(piece);
        self.graft_if(w, node, piece, own)
    }

    /// Puts a piece in the place of the node of this number, if `own` says that it is of the ledger's block and profile, and by
    /// its rule.
    pub(crate) fn graft_if(
        &mut self,
        w: u8,
        node: u32,
        piece: &Piece,
        own: bool,
    ) -> Result<(), GraftError>
        requires worker { (1 ≤ w) × (w ≤ self.old.workers) }
        requires own { IsOwnPiece self.old.rule self.old.problem piece.now.rule piece.now.problem own }
        ensures ok { OnOk result (IsGraft self.old w node piece.now Taken self.new) }
        ensures refused { IfErr result (λ why. IsRefusedGraft self.old w node piece.now why self.new) }
        ensures err { OnErr result (self.new.state ≡ self.old.state) }
    {
        let Ok(()) = self.history.entries.reserve(1) else {
            return Err(GraftError::OutOfMemory);
        };
        let prefix = piece.prefix();
        let depth = prefix.len() as u8;
        let kept = self.history.bytes.len();
        let Ok(()) = self.history.bytes.extend_from_slice(prefix) else {
            return Err(GraftError::OutOfMemory);
        };
        let splits = piece.splits();
        let first = self.machine.node_count();
        let error = match self.machine.graft(w, node, piece, own) {
            Ok(()) => {
                let root = opened_state(piece.nodes()[0].state);
                let nodes = self.machine.node_count() - first;
                self.history.entries.push_reserved(EventRecord::Taken {
                    w,
                    node,
                    depth,
                    root,
                    nodes,
                    splits,
                });
                return Ok(());
            }
            Err(error) => error,
        };
        let Some(why) = refusal_of(error) else {
            self.history.bytes.truncate(kept);
            return Err(error);
        };
        self.history.entries.push_reserved(EventRecord::Refused {
            w,
            node,
            own,
            depth,
            splits,
            why,
        });
        Err(error)
    }

    /// Brings the search to its end, with a walk and marks of nodes that its caller may have used. It takes back every allowance and
    /// every node that is out, and offers the whole orders among the nodes. Then it goes on until no open node's floor is below the
    /// best time, or the budget is spent and no whole order is below it.
    ///
    /// The time is that of expanding what it claims, and linear in the number of nodes. `Err` is out of memory, and drops the ledger.
    pub fn finish(
        mut self,
        alloc: Global,
        walk: &mut Walk<'_>,
        marks: &mut MarkTable<'_>,
    ) -> Result<Answer, AllocError>
        requires walk { walk.old.problem ≡ self.problem }
        requires marks { marks.old.problem ≡ self.problem }
        requires workers { 1 ≤ self.workers }
        ensures rule { IfOk result (λ a. a.rule ≡ self.entry.rule) }
        ensures problem { IfOk result (λ a. a.problem ≡ self.entry.problem) }
        ensures budget { IfOk result (λ a. a.budget ≡ self.entry.budget) }
        ensures finished { IfOk result (λ a.
            IsFinished self.entry.rule self.entry.problem self.entry.budget self.entry.state (answer_of a)) }
    {
        // proof only: it leads to the ledger as it is
        let _history = self.history();
        self.search_on(alloc, walk, marks, None)?;
        let Ledger { machine, .. } = self;
        Ok(machine.into_answer())
    }
}

/// The number of the node that was claimed.
fn node_of(ticket: &Option<Ticket>) -> Option<u32>
    ensures { result ≡ claimed_node ticket.now }
{
    match ticket {
        Some(ticket) => Some(ticket.node()),
        None => None,
    }
}
