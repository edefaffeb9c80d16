//! A worker's seat at a hub: its number, and what it knows of the ledger.

ghost use Rattle.std.specs.Prelude.{◌≡◌, [], ◌∷◌};
ghost use Rattle.s66_share.specs.{idle, book, IsResting};

use s66_ledger::Ledger;
use s66_share::Token;
use std::boxed::Box;
use std::marker::Model;

/// A worker's seat at a hub: its number, its splits, and what it knows of the ledger.
#[derive(Drop)]
pub struct Seat<'a> {
    pub(crate) number: u8,
    pub(crate) splits: u32,
    /// How many nodes there were before its last graft: the number of the first one that it made, if it was taken.
    pub(crate) attached: u32,
    pub(crate) token: Token<Box<Ledger<'a>>>,
}

impl<'a> Model for Seat<'a> {
    ghost use Rattle.std.specs.Prelude.{◌≡◌};
    ghost use Rattle.s66_pool.specs.Hubs.{SeatOf};
    ghost use Rattle.s66_share.specs.{book, IsResting};

    ghost Value = { SeatOf };

    ghost view = { λ s. record { hub = s.token.table_id; book = book s.token } };

    ghost invariant = { λ s. IsResting s.token × ((book s.token).who ≡ s.number) ×
        ((book s.token).account.splits ≡ s.splits) };
}

impl<'a> Seat<'a> {
    pub(crate) fn new(number: u8, splits: u32, token: Token<Box<Ledger<'a>>>) -> Seat<'a>
        requires resting { IsResting token }
        requires number { (book token).who ≡ number }
        requires splits { (book token).account.splits ≡ splits }
        ensures { result ≡ record { hub = token.entry.table_id; book = book token.entry } }
    {
        Seat {
            number,
            splits,
            attached: 0,
            token,
        }
    }

    pub(crate) fn into_token(self) -> Token<Box<Ledger<'a>>>
        ensures here { result.table_id ≡ self.entry.hub }
        ensures resting { result.me ≡ (idle (self.entry.book ∷ []), []) }
    {
        let Seat { token, .. } = self;
        token
    }

    /// The number of its worker, from 1.
    pub fn number(&self) -> u8
        ensures { result ≡ self.now.book.who }
    {
        self.number
    }

    /// How many splits its worker's grafts have spent.
    pub fn splits(&self) -> u32
        ensures { result ≡ self.now.book.account.splits }
    {
        self.splits
    }
}
