//! A ticket: the right to expand one node of a ledger, with the prefix of that node.

ghost use Rattle.std.specs.Prelude.{◌≡◌};

use arrayvec::ArrayVec;
use s66_isa::BLOCK_LIMIT;
use std::marker::Model;

/// A node that a ledger handed out, with its prefix. It can't be copied; dropped, it leaves its node out.
#[derive(Drop)]
pub struct Ticket {
    node: u32,
    prefix: ArrayVec<u8, BLOCK_LIMIT>,
}

impl Model for Ticket {
    ghost use Rattle.s66_model.specs.Tickets.{TicketOf};

    ghost Value = { TicketOf };

    ghost view = { λ t. record { node = t.node; prefix = t.prefix.items } };
}

impl Ticket {
    /// The ticket of a node; a ledger makes it when it hands the node out.
    pub fn new(node: u32, prefix: ArrayVec<u8, BLOCK_LIMIT>) -> Ticket
        ensures { result ≡ record { node = node; prefix = prefix.items } }
    {
        Ticket { node, prefix }
    }

    /// The node's number in its ledger, from 0.
    pub fn node(&self) -> u32
        ensures { result ≡ self.now.node }
    {
        self.node
    }

    /// The instruction numbers with which the orders below the node begin.
    pub fn prefix(&self) -> &[u8]
        ensures { result.now ≡ self.now.prefix }
    {
        self.prefix.as_slice()
    }
}
