//! What the fact lines of a certificate give of a block: which number stands before which, and the longest paths between its moments.
//! Nothing here schedules or allocates.
//! A checker and a finder both ask it whether a line is right. Begin at `facts.rt`.
//!
//! It promises that a line is taken in exactly if it passes the tests of `s66_moments`, and that the times that it keeps are the
//! longest paths by what is known.
#![tactic(auto, unfolding(s66_isa::specs::Table::row))]

mod again;
mod arcs;
mod closure;
mod direction;
mod facts;
mod graph;
mod heads;
mod limits;
mod loads;
mod marks;
mod near;
mod pairs;
mod paths;
mod supposing;
mod tails;
mod times;

pub use facts::Facts;
pub use limits::FACT_LIMIT;
pub use loads::are_rising;
pub use supposing::Supposing;
pub use times::{Times, fetches, is_same_moment, latency_to, reaches_both, times_at, writes};
