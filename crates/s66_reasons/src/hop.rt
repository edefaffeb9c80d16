//! One arc of a longest path, by which it goes on from a moment.

use s66_moments::Moment;

/// An arc from a moment: how many minor cycles it takes at least, and where it leads.
#[derive(Clone, Copy)]
pub(crate) struct Hop {
    pub(crate) wait: u32,
    pub(crate) to: Moment,
}
