//! A worker's own lane (`Lane`): it puts tickets in and takes the first out.

use crate::lanes::pass::Pass;
use crate::lanes::protocol::{Collects, Counts, Deals, Hand, Puts, Rule, Settles, Takes};
use crossbeam_deque::Worker;
use s66_model::Ticket;
use std::alloc::{AllocError, Global};
use std::marker::Model;

/// The owner's end of a lane: a queue of tickets, of which others may steal the first. With the last of lane and thief, the tickets
/// that are left are dropped, and their nodes stay out.
#[derive(Drop)]
pub struct Lane {
    owner: Worker<Ticket, Global, Hand, Rule>,
    /// How many passes are out.
    out: u8,
    alloc: Global,
}

impl Model for Lane {
    ghost use Rattle.std.specs.Prelude.{◌≡◌, ◌+◌, ◌≤◌};
    ghost use Rattle.crossbeam_deque.specs.Handles.{worker_deque, worker_flavor, worker_view, worker_index, worker_capacity};
    ghost use Rattle.s66_share.specs.Lanes.{LaneOf};
    ghost use Rattle.s66_share.specs.Hands.{PARTS};

    ghost Value = { LaneOf };

    ghost view = { λ l.
        record { id = worker_deque l.owner; put = (worker_view l.owner).put; taken = (worker_view l.owner).taken; passes = l.out; used = worker_index l.owner; room = worker_capacity l.owner } };

    ghost invariant = { λ l. (worker_flavor l.owner ≡ 0) × (1 ≤ (worker_view l.owner).parts) ×
        ((worker_view l.owner).parts + l.out ≡ PARTS) };
}

impl Lane {
    ghost use Rattle.std.specs.Prelude.{◌≡◌, ◌+◌, ◌≤◌, List, [], ◌∷◌, ◌++◌, length, map, All, IfOk, OnErr, IfErr, OnOk, IfSome, IfNone};
    ghost use Rattle.crossbeam_deque.specs.Handles.{worker_deque, worker_flavor, worker_view, worker_index, worker_capacity};
    ghost use Rattle.s66_isa.specs.{rising};
    ghost use Rattle.s66_model.specs.{TicketOf};
    ghost use Rattle.s66_share.specs.{PASS_LIMIT, opening_hand, AreLeft};

    pub(crate) fn new(alloc: Global, owner: Worker<Ticket, Global, Hand, Rule>) -> Lane
        requires { (worker_flavor owner ≡ 0) × (worker_view owner ≡ opening_hand) }
        ensures { result ≡
            record { id = worker_deque owner; put = []; taken = []; passes = 0; used = worker_index owner; room = worker_capacity owner } }
    {
        Lane {
            owner,
            out: 0,
            alloc,
        }
    }

    /// A pass for each of n thieves. They are made once, before any ticket is put. If out of memory, the lane is as it was, and
    /// this may be called again.
    ///
    /// In time linear in n.
    pub fn passes(&mut self, n: usize) -> Result<Vec<Pass>, AllocError>
        requires few { n ≤ PASS_LIMIT }
        requires once { (self.old.passes ≡ 0) × (self.old.put ≡ []) }
        ensures ok { IfOk result (λ _. self.new ≡ record self.old { passes = n; room = self.new.room }) }
        ensures room { self.old.room ≤ self.new.room }
        ensures passes { IfOk result (λ dealt. (length dealt.items ≡ n) ×
            All (λ p. (p.lane ≡ self.old.id) × (p.taken ≡ [])) dealt.items) }
        ensures numbers { IfOk result (λ dealt. map (λ p. p.number) dealt.items ≡ rising n 0) }
        ensures err { OnErr result (self.new ≡ self.old) }
    {
        let mut dealt = Vec::with_capacity(self.alloc, n)?;
        for number in 0..n {
            dealt.push_reserved(Pass::new(number as u8, self.owner.another::<Deals>()));
        }
        self.out = n as u8;
        Ok(dealt)
    }

    /// Puts a ticket at the end of the lane. Out of memory, or if the lane can grow no further, the ticket is handed back, and the lane
    /// has the tickets that it had.
    ///
    /// In constant time, except for a put that makes room: it doubles the room, in time linear in it.
    pub fn put(&mut self, ticket: Ticket) -> Result<(), (AllocError, Ticket)>
        ensures ok { OnOk result (self.new ≡ record
            self.old { put = self.old.put ++ ticket ∷ []; used = self.new.used; room = self.new.room }) }
        ensures err { IfErr result (λ e. (e.1 ≡ ticket) × (self.new ≡ record self.old { room = self.new.room })) }
        ensures full { OnErr result (self.old.room ≤ self.old.used) }
        ensures used { (self.new.used ≤ self.old.used + 1) × (self.old.room ≤ self.new.room) }
    {
        match self.owner.push_as::<Puts>(ticket) {
            Ok(()) => Ok(()),
            Err(ticket) => Err((AllocError, ticket)),
        }
    }

    /// Takes the first ticket of the lane. None says only that this call took none.
    ///
    /// In constant time, and without memory.
    pub fn take(&mut self) -> Option<Ticket>
        ensures taken { IfSome result (λ t. self.new ≡
            record self.old { taken = self.old.taken ++ t ∷ []; used = self.new.used; room = self.new.room }) }
        ensures none { IfNone result (self.new ≡ record self.old { used = self.new.used; room = self.new.room }) }
        ensures used { (self.new.used ≤ self.old.used) × (self.old.room ≤ self.new.room) }
    {
        self.owner.pop_as::<Takes>()
    }

    /// Takes a pass back; what was stolen with it then counts as taken by the owner.
    ///
    /// In constant time, and without memory.
    pub fn take_back(&mut self, pass: Pass)
        requires { pass.lane ≡ self.old.id }
        ensures taken { self.new ≡ record
            self.old { taken = self.old.taken ++ pass.taken; passes = self.new.passes; room = self.new.room } }
        ensures passes { self.new.passes + 1 ≡ self.old.passes }
        ensures room { self.old.room ≤ self.new.room }
    {
        let Pass { token, .. } = pass;
        self.owner.absorb::<Collects>(token);
        // proof only: no hand has more than all parts, so this pass was one of those that are out
        let _tickets = self.owner.len_as::<Counts>();
        self.out -= 1;
    }

    /// Returns how many tickets are left in the lane, or None while a pass is out. Those that were taken and those that are left are
    /// those that were put, each as often.
    ///
    /// In constant time, and without memory.
    pub fn left(&mut self) -> Option<usize>
        ensures same { self.new ≡ record self.old { room = self.new.room } }
        ensures out { IfNone result (1 ≤ self.old.passes) }
        ensures back { IfSome result (λ _. self.old.passes ≡ 0) }
        ensures settled { IfSome result (λ count. (left : List TicketOf) × (length left ≡ count) ×
            AreLeft self.old left) }
    {
        if self.out != 0 {
            return None;
        }
        Some(self.owner.len_as::<Settles>())
    }
}
