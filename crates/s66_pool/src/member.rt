//! A worker's seat with all that it needs beside it; and the node that it takes next, from its own lane or another's.

use crate::incumbent::Incumbent;
use crate::seat::Seat;
use crate::victim::Victim;
use s66_model::Ticket;
use s66_share::Lane;

/// What a worker needs beside its seat at the hub: its view of the best time, a lane of nodes, and the lanes from which it may steal.
#[derive(Drop)]
pub(crate) struct Local<'t> {
    pub(crate) incumbent: Incumbent<'t>,
    pub(crate) lane: Lane,
    pub(crate) victims: Vec<Victim<'t>>,
}

/// A worker's seat at the hub, with what it needs beside it.
#[derive(Drop)]
pub(crate) struct Member<'t, 'a> {
    pub(crate) seat: Seat<'a>,
    pub(crate) local: Local<'t>,
}

impl<'t> Local<'t> {
    ghost use Rattle.s66_pool.specs.{IsSameLocal};

    /// Takes the first node of the worker's own lane, or else tries once to steal one from each of the others. None says only that
    /// these calls got none.
    pub(crate) fn take_or_steal(&mut self) -> Option<Ticket>
        ensures { IsSameLocal self.old self.new }
    {
        if let Some(ticket) = self.lane.take() {
            return Some(ticket);
        }
        for i in 0..self.victims.len() {
            if let Some(ticket) = self.victims[i].steal() {
                return Some(ticket);
            }
        }
        None
    }
}
