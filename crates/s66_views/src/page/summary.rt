//! What the list of blocks shows of a block, and the sums of all.

/// What the list of blocks shows of a block; times are in minor cycles of 100 ns.
#[derive(Clone, Copy)]
pub(crate) struct Summary {
    /// The number of the block, from 1.
    pub(crate) number: usize,
    /// The line of its first instruction.
    pub(crate) line: u32,
    /// How many instructions it has.
    pub(crate) count: usize,
    /// The time of the source order.
    pub(crate) source: u32,
    /// The time of the best order found.
    pub(crate) time: u32,
    /// What every order takes at least.
    pub(crate) bound: u32,
}

impl Summary {
    ghost use Rattle.std.specs.Prelude.{◌≡◌};
    ghost use Rattle.s66_views.specs.{is_best};

    /// Whether the order is proved best.
    pub(crate) fn is_best(&self) -> bool
        ensures { result ≡ is_best self.now }
    {
        self.bound == self.time
    }
}

/// The sums of all rows of the list.
#[derive(Clone, Copy)]
pub(crate) struct Total {
    /// How many instructions there are.
    pub(crate) count: usize,
    /// The times of the source orders.
    pub(crate) source: usize,
    /// The times of the best orders found.
    pub(crate) time: usize,
    /// How many of these orders are proved best.
    pub(crate) best: usize,
}
