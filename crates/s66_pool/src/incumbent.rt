//! The best time as a worker knows it, by the hint that all share.

ghost use Rattle.std.specs.Prelude.{◌≡◌, ◌≤◌, min};

use s66_node::Least;
use s66_share::{Hint, HintSeat};

/// The best time as a worker knows it: a hint, and the worker's seat there.
#[derive(Drop)]
pub(crate) struct Incumbent<'h> {
    hint: &'h Hint,
    seat: HintSeat,
    ghost here: { seat.hint ≡ hint.now },
}

impl<'h> Incumbent<'h> {
    pub(crate) fn new(hint: &'h Hint, seat: HintSeat) -> Incumbent<'h>
        requires { seat.hint ≡ hint.now }
        ensures { result.seat ≡ seat }
    {
        Incumbent { hint, seat }
    }

    /// Reads the hint, as `Hint::load` does.
    pub(crate) fn load(&mut self) -> u32
        ensures kept { self.new.seat.kept ≡ result }
        ensures known { result ≤ self.old.seat.kept }
    {
        self.hint.load(&mut self.seat)
    }

    /// Lowers the hint, as `Hint::lower` does.
    pub(crate) fn lower(&mut self, to: u32)
        ensures known { self.new.seat.kept ≤ min self.old.seat.kept to }
    {
        self.hint.lower(&mut self.seat, to);
    }
}

impl<'h> Least for Incumbent<'h> {
    ghost kept = { λ i. i.seat.kept };

    fn least(&mut self) -> u32 {
        self.load()
    }
}
