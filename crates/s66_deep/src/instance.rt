//! A block under a profile, whose orders are sought.
//! Most functions of `look.rt`, `lines.rt` and `search.rt` take one.

ghost use Rattle.s66_model.specs.{Problem};
ghost use Rattle.s66_line.specs.{instrs_of};

use s66_isa::Profile;
use s66_line::Block;
use std::alloc::Global;
use std::marker::Model;

/// A block under a profile, whose orders are sought, and where memory comes from.
#[derive(Drop)]
pub(crate) struct Instance<'b> {
    pub(crate) alloc: Global,
    pub(crate) block: &'b Block<'b>,
    pub(crate) profile: &'b Profile,
}

impl<'b> Model for Instance<'b> {
    ghost Value = { Problem };

    ghost view = { λ i. record { block = instrs_of i.block.now; profile = i.profile.now } };
}
