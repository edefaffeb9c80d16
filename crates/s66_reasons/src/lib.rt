//! Why no order is faster, in sentences, by a certificate alone: what each leaf of a tree of few splits is checked by, number by
//! number, or how many splits and facts a larger one has.
//! Begin at `specs/Reasons.antt`, then `reasons.rt`.
//!
//! Nothing here bounds an order: numbers come from the document, and from what the checker computes of it (`s66_checker`, `s66_facts`).
#![tactic(auto)]

mod arcs;
mod chain;
mod ends;
mod examples;
mod facts;
mod hop;
mod known_paths;
mod laws;
mod leaf;
mod left;
mod pairs;
mod paragraphs;
mod parcels;
mod path;
mod reasons;
mod steps;
mod tree;
mod units;
mod words;
mod work;

pub use examples::{
    above_examples, by_examples, end_examples, reasons_examples, supposition_examples,
};
pub use laws::reasons_law;
pub use reasons::push_reasons;
pub use work::Work;
