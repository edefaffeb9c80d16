//! How a block is to be printed: the order, its times, its bound and the splits that are reported.

use arrayvec::ArrayVec;
use s66_isa::BLOCK_LIMIT;
use std::marker::Model;

/// How a block is to be printed, and what is reported of it; times are in minor cycles of 100 ns.
#[derive(Drop)]
pub struct Placed {
    /// The numbers of its instructions, from 1, in the order in which they are printed.
    pub order: ArrayVec<u8, BLOCK_LIMIT>,
    /// The time of the source order.
    pub source: u32,
    /// The time of this order.
    pub time: u32,
    /// What every order takes at least: if it is `time`, this order is best.
    pub bound: u32,
    /// How many splits the search took, if that is to be printed.
    pub splits: Option<u32>,
}

impl Model for Placed {
    ghost use Rattle.s66_source.specs.Printed.{Placed};

    ghost Value = { Placed };

    ghost view = { λ p.
        record { order = p.order.items; source = p.source; time = p.time; bound = p.bound; splits = p.splits } };
}
