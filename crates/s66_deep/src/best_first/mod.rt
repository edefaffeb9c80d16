//! Best-first branch and bound: a search of all legal orders of a block that goes on with the most promising prefix first, and
//! writes why no order takes less than the fastest one that it met.
//! Begin at `search.rt`.

mod allowed;
mod begun;
mod instructions;
mod loads;
mod nodes;
mod open;
mod remaining;
mod root;
mod search;
mod trail;
mod transpositions;
mod waits;
mod writer;

pub(crate) use root::root_leaf;
pub use search::{Branched, Limits, branch};
