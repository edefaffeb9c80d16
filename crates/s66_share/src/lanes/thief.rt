//! What others steal with from a worker's lane (`Thief`): each try takes the first ticket, or nothing.

ghost use Rattle.std.specs.Prelude.{◌≡◌, [], ◌∷◌, ◌++◌, IfSome, IfNone};
ghost use Rattle.crossbeam_deque.specs.Handles.{stealer_deque};

use crate::lanes::pass::Pass;
use crate::lanes::protocol::{Hand, Rule, Takes};
use crossbeam_deque::{Steal, Stealer};
use s66_model::Ticket;
use std::alloc::Global;
use std::marker::Model;

/// What others steal from a lane with. They share it by reference.
#[derive(Drop)]
pub struct Thief {
    stealer: Stealer<Ticket, Global, Hand, Rule>,
}

impl Model for Thief {
    ghost use Rattle.crossbeam_deque.specs.Handles.{stealer_deque};
    ghost use Rattle.s66_share.specs.Lanes.{LaneId};

    ghost Value = { LaneId };

    ghost view = { λ t. stealer_deque t.stealer };
}

impl Thief {
    pub(crate) fn new(stealer: Stealer<Ticket, Global, Hand, Rule>) -> Thief
        ensures { result ≡ stealer_deque stealer }
    {
        Thief { stealer }
    }

    /// Tries once to take the first ticket of the lane. None says only that this call took none: the lane was empty, or someone else
    /// took that ticket.
    ///
    /// In constant time, and without memory.
    pub fn steal(&self, pass: &mut Pass) -> Option<Ticket>
        requires { pass.old.lane ≡ self.now }
        ensures taken { IfSome result (λ t. pass.new ≡ record pass.old { taken = pass.old.taken ++ t ∷ [] }) }
        ensures none { IfNone result (pass.new ≡ pass.old) }
    {
        match self.stealer.steal_as::<Takes>(&mut pass.token) {
            Steal::Success(ticket) => Some(ticket),
            Steal::Empty | Steal::Retry => None,
        }
    }
}
