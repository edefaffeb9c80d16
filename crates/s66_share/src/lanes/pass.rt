//! A thief's place at a lane (`Pass`), which says what was stolen with it.

use crate::lanes::protocol::Hand;
use s66_model::Ticket;
use std::marker::Model;

/// A thief's place at a lane, with which it steals. If it is dropped, it stays out.
// the number gives it a size, so that passes can be in a slice
#[derive(Drop)]
pub struct Pass {
    number: u8,
    pub(crate) token: crossbeam_deque::Pass<Ticket, Hand>,
}

impl Model for Pass {
    ghost use Rattle.std.specs.Prelude.{◌≡◌, [], None};
    ghost use Rattle.crossbeam_deque.specs.Handles.{view as known};
    ghost use Rattle.s66_share.specs.Lanes.{PassOf};

    ghost Value = { PassOf };

    ghost view = { λ p.
        record { lane = (p.token.rows, p.token.heap); number = p.number; taken = (known p.token).taken } };

    ghost invariant = { λ p. (p.token.me.hand ≡ None) × (p.token.me.spare ≡ None) × ((known p.token).parts ≡ 1) ×
        ((known p.token).put ≡ []) };
}

impl Pass {
    ghost use Rattle.std.specs.Prelude.{◌≡◌, [], None};
    ghost use Rattle.crossbeam_deque.specs.Handles.{view};
    ghost use Rattle.s66_share.specs.{new_hand};

    pub(crate) fn new(number: u8, token: crossbeam_deque::Pass<Ticket, Hand>) -> Pass
        requires empty { (token.me.hand ≡ None) × (token.me.spare ≡ None) }
        requires hand { view token ≡ new_hand }
        ensures { result ≡ record { lane = (token.rows, token.heap); number = number; taken = [] } }
    {
        Pass { number, token }
    }

    /// Which of the lane's passes it is, from 0.
    pub fn number(&self) -> u8
        ensures { result ≡ self.now.number }
    {
        self.number
    }
}
