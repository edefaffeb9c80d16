//! Of the legal orders of a block that take as long, one that is nearer to the source order: legal, as fast, and with no more of its
//! pairs in reverse. Begin at `nearest.rt`.

mod draft;
mod nearest;
mod pairs;

pub use nearest::nearer;
