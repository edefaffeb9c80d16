//! Lower bounds of all orders that begin with what a clock has placed: chain, load, parcels, and the greatest of them, the floor. A
//! search closes a prefix whose floor is no less than the best time. Begin at `bounds.rt`. Sharper bounds, by longest paths through all
//! moments, are in `s66_deep`.
//!
//! It promises that each bound is that of the model, so that no legal order that begins so takes less.
#![tactic(auto)]

mod bounds;
mod cost;
mod floors;
mod leaf;
mod longest;
mod numbers;
mod printed;
mod tables;
mod values;

pub use bounds::Bounds;
pub use leaf::Leaf;
