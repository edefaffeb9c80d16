//! Dependences between the instructions of a block, legal orders of them, and what is ready after some of them: a basic block's
//! dependence graph and its topological orders. Nothing here allocates. Begin at `order.rt`.
//!
//! It promises that an `Order` is legal, by its type: none can be made that isn't.

mod beginning;
mod dependence;
mod effects;
mod openings;
mod order;
mod ranking;

pub use beginning::is_beginning;
pub use dependence::{Dependences, depends, ready};
pub use openings::Openings;
pub use order::{NotLegal, Order};
pub use ranking::Ranking;
