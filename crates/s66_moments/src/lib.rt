//! Moments of an order, and facts of all legal orders that take less than a time: laws by which bounds are shown with few splits.
//! Types and laws alone: `s66_facts` works out what they define, `s66_deep` looks for facts. Begin at `specs/Moments.antt`, then
//! `lines.rt`.
#![tactic(auto, unfolding(s66_isa::specs::Table::row, s66_model::specs::Timing::issue_of, s66_model::specs::Timing::start_of, s66_model::specs::Timing::point, s66_model::specs::Dependence::conflict))]

mod examples;
mod fact_line;
mod facts;
mod known;
mod lines;
mod moment;
mod networks;
mod paths;
mod suppositions;

pub use examples::{
    arc_examples, fact_line_examples, in_use_examples, line_examples, line_tree_examples,
    path_examples, span_examples, supposition_examples,
};
pub use fact_line::{FactLine, FactStep, KnownArc, LoadLine};
pub use facts::{fact_law, load_arc_law, pair_law, prefix_law};
pub use known::{fact_lines_law, span_law};
pub use lines::{in_use_law, line_law, line_tree_law, next_leaf_law};
pub use moment::{Moment, Stage};
pub use networks::{greatest_path_law, more_arcs_law, more_pairs_law, network_law, precedes_law};
pub use paths::{path_law, table_law};
pub use suppositions::{plain_steps_law, supposition_law};
