//! Fact lines as types: a pair of numbers of which one stands before the other, or a load line, which gives an arc between two moments.
//! What makes a line a fact is in `specs/FactLines.antt`.

use crate::moment::Moment;
use arrayvec::ArrayVec;
use s66_isa::BLOCK_LIMIT;

/// A line of a certificate that gives a fact of all legal orders that take less than its bound.
#[derive(Drop)]
pub enum FactLine {
    /// The first number stands before the second.
    Pair(u8, u8),
    /// One moment comes later than another by what units do between.
    Load(LoadLine),
}

/// A fact line of a certificate, or the beginning or the end of a supposition. A supposition never holds another.
#[derive(Drop)]
pub enum FactStep {
    Fact(FactLine),
    /// The first number stands before the second, as the lines up to the end show: it is supposed that the second stands before the first.
    Suppose(u8, u8),
    /// Ends the supposition: by what is known there, no order takes less than the bound.
    Refuted,
}

impl FactStep {
    ghost use Rattle.std.specs.Prelude.{◌≡◌};
    ghost use Rattle.s66_moments.specs.{begins_supposition, is_of_supposition};

    /// Whether it begins a supposition.
    pub fn begins_supposition(&self) -> bool
        ensures { result ≡ begins_supposition self.now }
    {
        matches!(self, FactStep::Suppose(..))
    }

    /// Whether it begins or ends one.
    pub fn is_of_supposition(&self) -> bool
        ensures { result ≡ is_of_supposition self.now }
    {
        matches!(self, FactStep::Suppose(..) | FactStep::Refuted)
    }
}

/// Instructions of one kind of unit begin their use of it at least `after` minor cycles after a moment, and have to be over before
/// another. So this one comes later, by `wait` minor cycles at least.
#[derive(Drop)]
pub struct LoadLine {
    pub from: Moment,
    pub to: Moment,
    pub after: u32,
    pub wait: u32,
    /// The instructions, by their numbers.
    pub numbers: ArrayVec<u8, BLOCK_LIMIT>,
}

/// How much later one moment comes at least than another, in minor cycles.
#[derive(Clone, Copy)]
pub struct KnownArc {
    pub from: Moment,
    pub wait: u32,
    pub to: Moment,
}

impl Default for KnownArc {
    /// A blank: the end comes after the origin.
    fn default() -> KnownArc {
        KnownArc {
            from: Moment::Origin,
            wait: 0,
            to: Moment::End,
        }
    }
}
