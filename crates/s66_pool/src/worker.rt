//! The steps of one worker: find a node in the lanes or claim some, expand one, hand its piece in, and so on until there is nothing
//! more for it to do.
//!
//! It is work stealing with a shared pool of open nodes: a node comes from the worker's own lane, else from another's, else from the
//! ledger, and the lock is held only to graft, to claim and to be granted splits. When it may end is shown by a count of the workers
//! that still search.

ghost use Rattle.std.specs.Prelude.{◌≡◌, [], IfOk};
ghost use Rattle.s66_pool.specs.{IsSameMember, IsSameSeat};

use crate::expander::Expander;
use crate::gate::Gate;
use crate::hub::Hub;
use crate::limits::{CLAIMS_LIMIT, LOOKS, NONES_LIMIT};
use crate::member::Member;
use crate::seat::Seat;
use crate::shared_marks::SharedMarks;
use crate::supply::{Needs, Supply};
use s66_ledger::{Offered, Ticket, is_schedule_due};
use s66_model::Rule;
use s66_node::Piece;
use s66_time::Timed;
use std::alloc::{AllocError, Global};
use std::sync::Wait;
use std::sync::atomic::{AtomicUsize, Ordering};
use std::thread::yield_now;

/// Where workers search.
#[derive(Drop)]
pub(crate) struct Site<'s, 'a, 'b, R, G> {
    pub(crate) rt: &'s R,
    pub(crate) hub: &'s Hub<'a>,
    /// Of the search's block and profile.
    pub(crate) marks: &'s SharedMarks<'b>,
    pub(crate) gate: &'s G,
    /// Of the hub's dominated leaves.
    pub(crate) rule: Rule,
    /// The number of workers that have nodes, or may have left some open since they last found none.
    pub(crate) searching: AtomicUsize,
}

/// A worker of a search, with what it keeps from step to step.
#[derive(Drop)]
struct Worker<'s, 'b, R> {
    expander: Expander<'s, 'b, R>,
    /// How many splits are left of what it was granted.
    allowance: u32,
    has_claimed: bool,
    /// How many searches for a node in a row have found none.
    nones: u32,
}

/// What a worker does next.
#[derive(Drop)]
enum Step {
    /// Take a node from a lane, or claim some.
    Find,
    Claim,
    /// Expand a node.
    Expand(Ticket),
    /// Wait, since it found no node.
    Wait,
    End,
}

/// A worker's steps, until there is nothing more for it to do; then it gives the nodes of its lane back, and retires.
pub(crate) fn work_at<'a, R: AllocGlobal + Wait, G: Gate>(
    site: &Site<'_, 'a, '_, R, G>,
    member: &mut Member<'_, 'a>,
)
    requires { member.old.seat.hub ≡ site.now.hub.now.id }
    ensures { IsSameMember member.old member.new }
{
    let mut worker = Worker::new(site.rt.alloc(), site.rt, site.marks, site.rule);
    worker.take_steps(site, member);
    give_lane_back(site, member);
    if worker.found_none() {
        site.searching.fetch_sub(1, Ordering::SeqCst);
    }
    // an allowance that stays since memory ran out is taken back when the ledger is finished
    let _ = site.hub.retire(site.rt, &mut member.seat);
}

impl<'s, 'b, R: AllocGlobal + Wait> Worker<'s, 'b, R> {
    ghost use Rattle.std.specs.Prelude.{◌≡◌, ◌≤◌};
    ghost use Rattle.s66_model.specs.{splits};
    ghost use Rattle.s66_node.specs.{tree_of};
    ghost use Rattle.s66_pool.specs.{IsSameMember, IsSameSeat};

    /// A worker that has done nothing yet.
    fn new(alloc: Global, rt: &'s R, marks: &'s SharedMarks<'b>, rule: Rule) -> Worker<'s, 'b, R> {
        Worker {
            expander: Expander::new(alloc, rt, marks, rule),
            allowance: 0,
            has_claimed: false,
            nones: 0,
        }
    }

    /// Its steps, until there is nothing more for it to do.
    fn take_steps<'a, G: Gate>(
        &mut self,
        site: &Site<'_, 'a, '_, R, G>,
        member: &mut Member<'_, 'a>,
    )
        requires { member.old.seat.hub ≡ site.now.hub.now.id }
        ensures { IsSameMember member.old member.new }
    {
        let mut step = Step::Claim;
        for _ in site.rt.forever() {
            step = match step {
                Step::Find => self.find(site, member),
                Step::Claim => self.claim(site, member),
                Step::Expand(ticket) => self.expand(site, member, ticket),
                Step::Wait => self.wait_for_nodes(site),
                Step::End => break,
            };
        }
    }

    /// Takes the next node of its own lane, or steals one from the others, or claims some.
    fn find<'a, G: Gate>(
        &mut self,
        site: &Site<'_, 'a, '_, R, G>,
        member: &mut Member<'_, 'a>,
    ) -> Step
        requires { member.old.seat.hub ≡ site.now.hub.now.id }
        ensures { IsSameMember member.old member.new }
    {
        match member.local.take_or_steal() {
            Some(ticket) => {
                self.nones = 0;
                Step::Expand(ticket)
            }
            None => self.claim(site, member),
        }
    }

    /// Whether it may claim, after a grant if it has no allowance: if it has some then, or hasn't claimed yet.
    fn may_claim<'a, G: Gate>(&mut self, site: &Site<'_, 'a, '_, R, G>, seat: &mut Seat<'a>) -> bool
        requires { seat.old.hub ≡ site.now.hub.now.id }
        ensures { IsSameSeat seat.old seat.new }
    {
        if 0 < self.allowance {
            return true;
        }
        let Ok(granted) = site.hub.grant(site.rt, seat) else {
            return false;
        };
        self.allowance = granted;
        0 < granted || !self.has_claimed
    }

    /// Claims nodes if it may.
    fn claim<'a, G: Gate>(
        &mut self,
        site: &Site<'_, 'a, '_, R, G>,
        member: &mut Member<'_, 'a>,
    ) -> Step
        requires { member.old.seat.hub ≡ site.now.hub.now.id }
        ensures { IsSameMember member.old member.new }
    {
        if !self.may_claim(site, &mut member.seat) {
            return Step::End;
        }
        let needs = Needs {
            splits: false,
            nodes: true,
        };
        let Ok(mut claimed) = room_for(site.rt.alloc(), needs) else {
            return Step::End;
        };
        let supply = site
            .hub
            .supply(site.rt, &mut member.seat, needs, &mut claimed);
        self.has_claimed = true;
        self.take_up(site, member, supply, claimed)
    }

    /// Takes up what it has claimed: reports each claim to the gate, and puts all nodes but the first into its lane.
    fn take_up<'a, G: Gate>(
        &mut self,
        site: &Site<'_, 'a, '_, R, G>,
        member: &mut Member<'_, 'a>,
        supply: Supply,
        mut claimed: Vec<Ticket>,
    ) -> Step
        requires { member.old.seat.hub ≡ site.now.hub.now.id }
        ensures { IsSameMember member.old member.new }
    {
        tell_gate(site, member.seat.number(), claimed.len(), supply);
        claimed.reverse();
        let first = claimed.pop();
        put_all(site, member, claimed);
        match first {
            Some(ticket) if supply.out_of_memory => give_back(site, &mut member.seat, ticket),
            Some(ticket) => {
                self.nones = 0;
                Step::Expand(ticket)
            }
            None if supply.out_of_memory => Step::End,
            None => {
                self.nones = self.nones.saturating_add(1);
                Step::Wait
            }
        }
    }

    /// Whether its last search for a node found none.
    fn found_none(&self) -> bool {
        0 < self.nones
    }

    /// Waits for nodes, since it found none; it ends if none will be there, or after `NONES_LIMIT` times in a row.
    fn wait_for_nodes<'a, G>(&mut self, site: &Site<'_, 'a, '_, R, G>) -> Step {
        site.searching.fetch_sub(1, Ordering::SeqCst);
        let others_search = is_searched(&site.searching);
        site.searching.fetch_add(1, Ordering::SeqCst);
        if others_search && self.nones < NONES_LIMIT {
            Step::Find
        } else {
            Step::End
        }
    }

    /// Expands a node and hands its piece in.
    fn expand<'a, G: Gate>(
        &mut self,
        site: &Site<'_, 'a, '_, R, G>,
        member: &mut Member<'_, 'a>,
        ticket: Ticket,
    ) -> Step
        requires { member.old.seat.hub ≡ site.now.hub.now.id }
        ensures { IsSameMember member.old member.new }
    {
        let expanded = self.expander.expand(
            site.rt.alloc(),
            ticket.prefix(),
            &mut member.local.incumbent,
            self.allowance,
        );
        match expanded {
            Some(piece) => self.hand_in(site, member, ticket, &piece),
            // out of memory, or the hub is another block's
            None => give_back(site, &mut member.seat, ticket),
        }
    }

    /// Offers a piece's best whole order, grafts the piece, and in the same turn gets what it then needs.
    fn hand_in<'a, G: Gate>(
        &mut self,
        site: &Site<'_, 'a, '_, R, G>,
        member: &mut Member<'_, 'a>,
        ticket: Ticket,
        piece: &Piece,
    ) -> Step
        requires here { member.old.seat.hub ≡ site.now.hub.now.id }
        requires within { splits (tree_of piece.now) ≤ self.old.allowance }
        ensures { IsSameMember member.old member.new }
    {
        if offer_whole(site, member, piece) {
            self.allowance -= piece.splits();
            let before = member.seat.splits();
            if let Some(step) = self.graft(site, member, ticket.node(), piece) {
                return self.end_round(site, member, before, step);
            }
        }
        give_back(site, &mut member.seat, ticket)
    }

    /// Grafts a piece at its node, and in the same turn gets what it then needs. None if it isn't grafted.
    fn graft<'a, G: Gate>(
        &mut self,
        site: &Site<'_, 'a, '_, R, G>,
        member: &mut Member<'_, 'a>,
        node: u32,
        piece: &Piece,
    ) -> Option<Step>
        requires { member.old.seat.hub ≡ site.now.hub.now.id }
        ensures { IsSameMember member.old member.new }
    {
        let next = member.local.take_or_steal();
        let needs = Needs {
            splits: self.allowance == 0,
            nodes: next.is_none(),
        };
        let Ok(mut claimed) = room_for(site.rt.alloc(), needs) else {
            give_back_some(site, &mut member.seat, next);
            return None;
        };
        site.gate.before_graft(member.seat.number());
        let seat = &mut member.seat;
        let Ok(supply) = site
            .hub
            .graft_and_supply(site.rt, seat, node, piece, needs, &mut claimed)
        else {
            give_back_some(site, &mut member.seat, next);
            return None;
        };
        self.expander.settle(node, member.seat.attached);
        Some(self.go_on(site, member, needs, supply, next, claimed))
    }

    /// Goes on after the turn of its graft, with the node that it had found before it or with those that it claimed in it.
    fn go_on<'a, G: Gate>(
        &mut self,
        site: &Site<'_, 'a, '_, R, G>,
        member: &mut Member<'_, 'a>,
        needs: Needs,
        supply: Supply,
        next: Option<Ticket>,
        claimed: Vec<Ticket>,
    ) -> Step
        requires { member.old.seat.hub ≡ site.now.hub.now.id }
        ensures { IsSameMember member.old member.new }
    {
        let granted = supply.granted.unwrap_or(0);
        self.allowance = self.allowance.saturating_add(granted);
        // nothing is left of the budget, or out of memory: it claimed nothing
        if needs.splits && granted == 0 {
            give_back_some(site, &mut member.seat, next);
            return Step::End;
        }
        match next {
            Some(ticket) => Step::Expand(ticket),
            None => self.take_up(site, member, supply, claimed),
        }
    }

    /// Offers a list schedule if one is due since it had spent `before` splits; then comes the next step. If out of memory the worker
    /// ends, and gives its next node back.
    fn end_round<'a, G: Gate>(
        &mut self,
        site: &Site<'_, 'a, '_, R, G>,
        member: &mut Member<'_, 'a>,
        before: u32,
        next: Step,
    ) -> Step
        requires { member.old.seat.hub ≡ site.now.hub.now.id }
        ensures { IsSameMember member.old member.new }
    {
        if self.offer_sometimes(site, member, before) {
            return next;
        }
        match next {
            Step::Expand(ticket) => give_back(site, &mut member.seat, ticket),
            _ => Step::End,
        }
    }

    /// Offers a list schedule from the walk's prefix on, if one is due since it had spent `before` splits and its time is below the
    /// best; false if out of memory.
    fn offer_sometimes<'a, G: Gate>(
        &mut self,
        site: &Site<'_, 'a, '_, R, G>,
        member: &mut Member<'_, 'a>,
        before: u32,
    ) -> bool
        requires { member.old.seat.hub ≡ site.now.hub.now.id }
        ensures { IsSameMember member.old member.new }
    {
        if !is_schedule_due(before, member.seat.splits()) {
            return true;
        }
        let best = member.local.incumbent.load();
        match self.expander.schedule_below(best) {
            Some(timed) => offer(site, member, timed),
            None => true,
        }
    }
}

/// Offers a piece's best whole order, if its time is below the best; false if out of memory.
fn offer_whole<'a, R: Wait, G: Gate>(
    site: &Site<'_, 'a, '_, R, G>,
    member: &mut Member<'_, 'a>,
    piece: &Piece,
) -> bool
    requires { member.old.seat.hub ≡ site.now.hub.now.id }
    ensures { IsSameMember member.old member.new }
{
    match piece.timed() {
        Some(timed) if timed.total() < member.local.incumbent.load() => {
            offer(site, member, timed.duplicate())
        }
        _ => true,
    }
}

/// Offers an order, and lowers the hint to the best time that the ledger then has; false if out of memory.
fn offer<'a, R: Wait, G: Gate>(
    site: &Site<'_, 'a, '_, R, G>,
    member: &mut Member<'_, 'a>,
    timed: Timed,
) -> bool
    requires { member.old.seat.hub ≡ site.now.hub.now.id }
    ensures { IsSameMember member.old member.new }
{
    let total = timed.total();
    match site.hub.offer(site.rt, &mut member.seat, timed) {
        Ok(Offered::Lower) => member.local.incumbent.lower(total),
        Ok(Offered::NotLower { least }) => member.local.incumbent.lower(least),
        // the hub is another block's
        Ok(Offered::OtherBlock) => {}
        Err(AllocError) => return false,
    }
    true
}

/// Room for the nodes that a worker may claim in one turn, so that none is made while it has the lock.
fn room_for(alloc: Global, needs: Needs) -> Result<Vec<Ticket>, AllocError>
    ensures { IfOk result (λ claimed. claimed.items ≡ []) }
{
    let room = if needs.nodes { CLAIMS_LIMIT } else { 0 };
    Vec::with_capacity(alloc, room)
}

/// Reports each claim of a turn to the gate: those that got a node, and the last if it got none.
fn tell_gate<'a, R, G: Gate>(site: &Site<'_, 'a, '_, R, G>, w: u8, nodes: usize, supply: Supply) {
    for _ in 0..nodes {
        site.gate.after_claim(w, true);
    }
    if supply.none_open || supply.out_of_memory {
        site.gate.after_claim(w, false);
    }
}

/// Checks `LOOKS` times whether any worker is searching, and lets other threads run in between. If none is, each found no node
/// after it last grafted or gave one back, so none is open or in a lane, and none will be.
fn is_searched(searching: &AtomicUsize) -> bool {
    for _ in 0..LOOKS {
        if searching.load(Ordering::SeqCst) == 0 {
            return false;
        }
        yield_now();
    }
    true
}

/// Puts nodes into the worker's lane, the last first; those for which it has no room go back to the hub.
fn put_all<'a, R: Wait, G: Gate>(
    site: &Site<'_, 'a, '_, R, G>,
    member: &mut Member<'_, 'a>,
    mut claimed: Vec<Ticket>,
)
    requires { member.old.seat.hub ≡ site.now.hub.now.id }
    ensures { IsSameMember member.old member.new }
{
    while let Some(ticket) = claimed.pop() {
        if let Err((AllocError, refused)) = member.local.lane.put(ticket) {
            give_back(site, &mut member.seat, refused);
        }
    }
}

/// Gives the nodes of the worker's lane back.
fn give_lane_back<'a, R: Wait, G: Gate>(site: &Site<'_, 'a, '_, R, G>, member: &mut Member<'_, 'a>)
    requires { member.old.seat.hub ≡ site.now.hub.now.id }
    ensures { IsSameMember member.old member.new }
{
    for _ in site.rt.forever() {
        let Some(ticket) = member.local.lane.take() else {
            return;
        };
        give_back(site, &mut member.seat, ticket);
    }
}

/// Gives a node back, if there is one.
fn give_back_some<'a, R: Wait, G: Gate>(
    site: &Site<'_, 'a, '_, R, G>,
    seat: &mut Seat<'a>,
    ticket: Option<Ticket>,
)
    requires { seat.old.hub ≡ site.now.hub.now.id }
    ensures { IsSameSeat seat.old seat.new }
{
    if let Some(ticket) = ticket {
        give_back(site, seat, ticket);
    }
}

/// Gives a node back, with which the worker ends. If out of memory, its node stays out until the ledger is finished.
fn give_back<'a, R: Wait, G: Gate>(
    site: &Site<'_, 'a, '_, R, G>,
    seat: &mut Seat<'a>,
    ticket: Ticket,
) -> Step
    requires { seat.old.hub ≡ site.now.hub.now.id }
    ensures { IsSameSeat seat.old seat.new }
{
    let _ = site.hub.back(site.rt, seat, ticket);
    Step::End
}
