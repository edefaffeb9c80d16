//! Another worker's lane with a pass at it, from which a worker steals.

ghost use Rattle.std.specs.Prelude.{◌≡◌};

use s66_model::Ticket;
use s66_share::{Lane, Pass, Thief};
use std::marker::Model;

/// Another worker's lane, from which a worker may steal.
#[derive(Drop)]
pub(crate) struct Victim<'t> {
    thief: &'t Thief,
    pass: Pass,
    /// The place of the lane's owner among the workers, from 0.
    place: usize,
}

impl<'t> Model for Victim<'t> {
    ghost use Rattle.std.specs.Prelude.{◌≡◌};
    ghost use Rattle.s66_pool.specs.Victims.{VictimOf};

    ghost Value = { VictimOf };

    ghost view = { λ v. record { place = v.place; lane = v.pass.lane } };

    ghost invariant = { λ v. v.pass.lane ≡ v.thief.now };
}

impl<'t> Victim<'t> {
    pub(crate) fn new(thief: &'t Thief, pass: Pass, place: usize) -> Victim<'t>
        requires { pass.lane ≡ thief.now }
        ensures { result ≡ record { place = place; lane = thief.now } }
    {
        Victim { thief, pass, place }
    }

    /// The place of the lane's owner among the workers, from 0.
    pub(crate) fn place(&self) -> usize
        ensures { result ≡ self.now.place }
    {
        self.place
    }

    /// Tries once to steal the first node of the lane. None says only that this call got none.
    pub(crate) fn steal(&mut self) -> Option<Ticket>
        ensures { self.new ≡ self.old }
    {
        self.thief.steal(&mut self.pass)
    }

    /// Gives the pass back to its lane.
    pub(crate) fn leave(self, lane: &mut Lane)
        requires here { self.lane ≡ lane.old.id }
        ensures same { lane.new.id ≡ lane.old.id }
    {
        let Victim { pass, .. } = self;
        lane.take_back(pass);
    }
}
