//! Where a test may make a worker wait, or count what it does; in the program it is always open.

/// What workers report their moves to, and what may make them wait; workers count from 1.
pub trait Gate {
    /// The worker is about to graft a piece.
    fn before_graft(&self, w: u8);

    /// The worker claimed, and got a node or none.
    fn after_claim(&self, w: u8, got: bool);
}

/// The gate that is always open.
#[derive(Clone, Copy)]
pub struct Free;

impl Gate for Free {
    fn before_graft(&self, _w: u8) {}

    fn after_claim(&self, _w: u8, _got: bool) {}
}
