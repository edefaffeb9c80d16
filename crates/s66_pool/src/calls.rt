//! The calls of a hub: each waits for the lock, makes one call of the ledger or more, and gives the lock back.

use crate::hub::Hub;
use crate::seat::Seat;
use crate::supply::{Needs, Supply, serve};
use s66_ledger::{BackError, GraftError, Offered, Ticket};
use s66_node::Piece;
use s66_time::Timed;
use std::alloc::AllocError;
use std::sync::Wait;

impl<'a> Hub<'a> {
    ghost use Rattle.std.specs.Prelude.{◌≡◌, ◌≤◌, [], IfOk, IfErr, OnOk, OnErr};
    ghost use Rattle.s66_model.specs.{Grant, Granted, Back, Returned, NotOut, Retire, Retired, after_event, after_reading};
    ghost use Rattle.s66_ledger.specs.{offered_reply};
    ghost use Rattle.s66_ledger.specs.declared.reply.BackError.TheVariants as refused;
    ghost use Rattle.s66_pool.specs.{IsSupplyFor, HasSupply, HasGraftedAndSupply, HasBeenRefused, HasOffered, IsKnown};

    /// Moves splits of the budget to the worker, as `Ledger::grant` does.
    pub fn grant<R: Wait>(&self, rt: &R, seat: &mut Seat<'a>) -> Result<u32, AllocError>
        requires { seat.old.hub ≡ self.now.id }
        ensures here { seat.new.hub ≡ seat.old.hub }
        ensures ok { IfOk result (λ n. seat.new.book ≡
            after_event seat.old.book (Grant seat.old.book.who) (Granted n)) }
        ensures err { OnErr result (seat.new ≡ seat.old) }
    {
        let mut ledger = self.lock.take(rt, &mut seat.token);
        let granted = ledger.grant(seat.number);
        self.lock.give(&mut seat.token, ledger);
        granted
    }

    /// Gives the worker's allowance back to the budget.
    pub fn retire<R: Wait>(&self, rt: &R, seat: &mut Seat<'a>) -> Result<(), AllocError>
        requires { seat.old.hub ≡ self.now.id }
        ensures here { seat.new.hub ≡ seat.old.hub }
        ensures ok { OnOk result (seat.new.book ≡ after_event seat.old.book (Retire seat.old.book.who) Retired) }
        ensures err { OnErr result (seat.new ≡ seat.old) }
    {
        let mut ledger = self.lock.take(rt, &mut seat.token);
        let retired = ledger.retire(seat.number);
        self.lock.give(&mut seat.token, ledger);
        retired
    }

    /// Gives the worker what it needs, in one turn at the lock: splits, as `grant` does, and then up to `CLAIMS_LIMIT` nodes, as
    /// `Ledger::claim` does, until none is open. Their tickets are put into the list, which keeps its room. If nothing is left of the budget, or if out
    /// of memory, nothing more is done; what was done before that stays.
    pub fn supply<R: Wait>(
        &self,
        rt: &R,
        seat: &mut Seat<'a>,
        needs: Needs,
        tickets: &mut Vec<Ticket>,
    ) -> Supply
        requires here { seat.old.hub ≡ self.now.id }
        requires empty { tickets.old.items ≡ [] }
        ensures here { seat.new.hub ≡ seat.old.hub }
        ensures supply { HasSupply seat.old result tickets.new.items seat.new }
        ensures needed { IsSupplyFor needs result tickets.new.items }
    {
        let mut ledger = self.lock.take(rt, &mut seat.token);
        let got = serve(&mut *ledger, seat.number, needs, tickets);
        self.lock.give(&mut seat.token, ledger);
        got
    }

    /// Puts a piece in the place of the node of this number, as `Ledger::graft` does. If it is taken, gives the worker what it
    /// needs in the same turn at the lock, as `supply` does. The piece's nodes are made before the lock is taken; the piece stays
    /// with the caller. On `Err` nothing more is done.
    pub fn graft_and_supply<R: Wait>(
        &self,
        rt: &R,
        seat: &mut Seat<'a>,
        node: u32,
        piece: &Piece,
        needs: Needs,
        tickets: &mut Vec<Ticket>,
    ) -> Result<Supply, GraftError>
        requires here { seat.old.hub ≡ self.now.id }
        requires empty { tickets.old.items ≡ [] }
        ensures here { seat.new.hub ≡ seat.old.hub }
        ensures ok { IfOk result (λ supply.
            HasGraftedAndSupply seat.old node piece.now supply tickets.new.items seat.new) }
        ensures needed { IfOk result (λ supply. IsSupplyFor needs supply tickets.new.items) }
        ensures refused { IfErr result (λ why. HasBeenRefused seat.old node piece.now why seat.new) }
        ensures unclaimed { OnErr result (tickets.new.items ≡ []) }
    {
        let added = piece.splits();
        let mut ledger = self.lock.take(rt, &mut seat.token);
        seat.attached = ledger.node_count();
        if let Err(why) = ledger.graft(seat.number, node, piece) {
            self.lock.give(&mut seat.token, ledger);
            return Err(why);
        }
        // proof only: no worker has spent more than all have
        let _spent = ledger.splits();
        seat.splits += added;
        let got = serve(&mut *ledger, seat.number, needs, tickets);
        self.lock.give(&mut seat.token, ledger);
        Ok(got)
    }

    /// Takes a node back that was handed out, so that it is open again.
    pub fn back<R: Wait>(
        &self,
        rt: &R,
        seat: &mut Seat<'a>,
        ticket: Ticket,
    ) -> Result<(), (BackError, Ticket)>
        requires { seat.old.hub ≡ self.now.id }
        ensures here { seat.new.hub ≡ seat.old.hub }
        ensures ok { OnOk result (seat.new.book ≡
            after_event seat.old.book (Back seat.old.book.who ticket.node) Returned) }
        ensures not_out { IfErr result (λ e. e.0 ≡ refused.NotOut →
            seat.new.book ≡ after_event seat.old.book (Back seat.old.book.who ticket.node) NotOut) }
        ensures no_memory { IfErr result (λ e. e.0 ≡ refused.OutOfMemory → seat.new ≡ seat.old) }
        ensures handed_back { IfErr result (λ e. e.1 ≡ ticket) }
    {
        let mut ledger = self.lock.take(rt, &mut seat.token);
        let returned = ledger.back(seat.number, ticket);
        self.lock.give(&mut seat.token, ledger);
        returned
    }

    /// Makes an order the best if it is faster. The seat then knows the best time, unless the order is of another block or
    /// profile.
    pub fn offer<R: Wait>(
        &self,
        rt: &R,
        seat: &mut Seat<'a>,
        timed: Timed,
    ) -> Result<Offered, AllocError>
        requires { seat.old.hub ≡ self.now.id }
        ensures here { seat.new.hub ≡ seat.old.hub }
        ensures ok { IfOk result (λ offered. HasOffered seat.old timed (offered_reply offered) seat.new) }
        ensures answer { IfOk result (λ offered. IsKnown (offered_reply offered) seat.old.book) }
        ensures err { OnErr result (seat.new ≡ seat.old) }
    {
        let mut ledger = self.lock.take(rt, &mut seat.token);
        let Ok(offered) = ledger.offer(seat.number, timed) else {
            self.lock.give(&mut seat.token, ledger);
            return Err(AllocError);
        };
        match offered {
            Offered::OtherBlock => self.lock.give(&mut seat.token, ledger),
            _ => self.lock.give_read(&mut seat.token, ledger),
        }
        Ok(offered)
    }

    /// The best time, in minor cycles, which the seat then knows. It isn't above what the seat knew.
    pub fn best<R: Wait>(&self, rt: &R, seat: &mut Seat<'a>) -> u32
        requires { seat.old.hub ≡ self.now.id }
        ensures read { (result ≤ seat.old.book.least) ×
            (seat.new ≡ record seat.old { book = after_reading seat.old.book result }) }
    {
        let ledger = self.lock.take(rt, &mut seat.token);
        let best = ledger.best();
        self.lock.give_read(&mut seat.token, ledger);
        best
    }
}
