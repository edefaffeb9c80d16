//! The two directions in which the longest paths are followed.

use s66_moments::{KnownArc, Moment};

/// From a moment on, or back from one.
#[derive(Clone, Copy, Drop)]
pub(crate) enum Direction {
    /// From a moment to those of all instructions: what stands before a number comes sooner.
    Forward,
    /// Back from a moment to those of all instructions: what stands after a number comes sooner.
    Backward,
}

impl Direction {
    ghost use Rattle.std.specs.Prelude.{◌≡◌};
    ghost use Rattle.s66_facts.specs.{source, arc_start, arc_end};

    /// The moment at which all paths begin.
    pub(crate) fn source(self) -> Moment
        ensures { result ≡ source self }
    {
        match self {
            Direction::Forward => Moment::Origin,
            Direction::Backward => Moment::End,
        }
    }

    /// The moment at which an arc begins.
    pub(crate) fn start_of(self, arc: &KnownArc) -> &Moment
        ensures { result.now ≡ arc_start self arc.now }
    {
        match self {
            Direction::Forward => &arc.from,
            Direction::Backward => &arc.to,
        }
    }

    /// The moment to which it leads.
    pub(crate) fn end_of(self, arc: &KnownArc) -> &Moment
        ensures { result.now ≡ arc_end self arc.now }
    {
        match self {
            Direction::Forward => &arc.to,
            Direction::Backward => &arc.from,
        }
    }
}
