//! The verdict on a certificate, from its document alone: under the document's profile a legal order, its time and a bound
//! that no order beats, or the first fault.
//! Begin at `specs/Verdict.antt`, then `check.rt`.
//!
//! A yes is proved to mean that what the document claims is true (`yes_law`).
//!
//! It goes through the order, then through the fact lines of a document of version 4 or 5, and then through the tree of the bound line
//! by line. A fact line has to be shown by what is known before it, and in version 5 by what is supposed. A split has to go on with all
//! instructions that are ready there. A leaf has to have a value that reaches the bound, by one of the four rules of the model, or to
//! name a node of the tree that dominates it. Such a node is an earlier one (version 2), or is no dominated leaf itself (versions 3 to
//! 5), so that no two rest on one another; from version 4 on it has to dominate in use only, below the bound, by what is known after
//! all fact lines. By that a leaf may also be closed without a node.
//!
//! It shares nothing with the search that made the certificate: no clock, no marks, no sets of dependences, no bounds, no ledger.
//! So a mistake there, or in what is proved of it, doesn't come back here as a yes. It uses the table of instructions and
//! sets of numbers (`s66_isa`), the definitions of the model (`s66_model`), beginnings of orders that are worked out anew (`replay/`),
//! what fact lines give of a block (`s66_moments`, `s66_facts`), and documents, their trees and their texts (`s66_cert`, `s66_line`). It
//! allocates nothing.
//!
//! One prefix is pushed and popped along the tree (`walk`). Another goes to the nodes that are named (`name`). What both leave decides
//! whether it dominates, clamped or in use (`in_use`), and what is known after the fact lines whether a leaf is right by facts (`known`,
//! `loaded`).
//!
//! A block takes time for each of its pairs once. A line of the tree takes a time linear in the block's length, on the average
//! over all lines, whatever the profile. A node that is named is found by a jump for each earlier sibling on the way. A leaf that
//! names a line of a node that doesn't dominate clamped takes a look at each number that remains, and for those that find something
//! later as if they came next, at each other number. A leaf by a load times each of its numbers once, which takes some looks at each
//! number that is placed if their kind has three or more copies.
#![tactic(auto)]

mod check;
mod examples;
mod fault;
mod in_use;
mod known;
mod laws;
mod leaf;
mod links;
mod loaded;
mod name;
mod replay;
mod verdict;
mod walk;

pub use check::{instructions_of, profile_of, verify};
pub use examples::{
    dominated_examples, dominating_examples, fact_examples, fact_leaf_examples, fault_examples,
    in_use_examples, leaf_examples, line_name_examples, load_leaf_examples, profile_examples,
    split_examples, supposition_examples, verdict_examples,
};
pub use known::fact_lines;
pub use laws::{dominating_law, yes_law};
pub use leaf::{head, load, remaining_parcels, remaining_work};
pub use links::{link, own_parcels, tail, uses};
pub use loaded::{amounts, use_time};
pub use replay::{KeptPoint, Prefix, next, rest_busy};
pub use verdict::{Reason, Verdict};
