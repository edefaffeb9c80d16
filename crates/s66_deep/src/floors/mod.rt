//! A sharper lower bound of all orders that begin with what a clock has placed: the longest path through what remains, by what
//! follows each moment. Only that this is safe is proved: what it finds, a certificate shows.
//! Begin at `bounds.rt`. The checker has its own.

mod bounds;
mod left;
mod tables;
mod tails;
mod values;
mod words;

pub use bounds::PathBounds;
pub use left::Left;
pub use tails::Tails;
