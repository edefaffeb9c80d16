//! The beginning of an order, worked out anew number by number: its points, what they leave for the next instruction, and whether
//! it dominates another one. It is what a checker rests on.
//! Begin at `specs/Dominating.antt`, then `prefix.rt`.
//!
//! It shares nothing with the search: no clock, no marks of nodes, no sets of dependences, no bounds. So a mistake there, or in what is
//! proved of it, doesn't come back here. It uses the table of instructions and sets of numbers (`s66_isa`), the definitions of the model
//! (`s66_model`) and those of fact lines (`s66_moments`), and knows nothing of documents. It allocates nothing.
//!
//! What each instruction depends on is tested pair by pair, and stored in a word (`needs`). A prefix is pushed and popped
//! (`prefix`), with its points and what they leave for the next instruction (`past`, `words`, `timing`), or goes to other numbers. What
//! two of them leave decides whether one dominates the other (`dominance`, `falling`).
//!
//! A block takes time for each of its pairs once. A push and a pop take the same time whatever is placed, unless a kind has three or
//! more copies.

mod dominance;
mod falling;
mod needs;
mod past;
mod point;
mod prefix;
mod result;
mod timing;
mod words;

pub(crate) use dominance::finds_no_later;
pub(crate) use needs::Numbers;
pub(crate) use past::Past;
pub use point::KeptPoint;
pub use prefix::Prefix;
pub(crate) use result::KeptResult;
pub(crate) use timing::{next_parcel, registers_done, writes_done};
pub use timing::{next, rest_busy};
