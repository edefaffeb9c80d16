//! Expansion of one subtree of a search: a walk over the beginnings of a block's legal orders, and the piece that it makes. Branch and
//! bound, depth first, within an allowance of splits. Begin at `expansion.rt`, then `grow.rt`.
//!
//! It promises that a piece splits into exactly the ready numbers, that the values of its leaves are floors, and that its dominated
//! leaves have names by the rule, however the best time falls meanwhile.
#![tactic(auto)]

mod chains;
mod expansion;
mod grow;
mod least;
mod mark_table;
mod name;
mod naming;
mod near;
mod node;
mod piece;
mod schedule;
mod walk;
mod whole_order;

pub use least::{Constant, Least};
pub use mark_table::{MarkEntry, MarkTable};
pub use name::{Dominance, Name, NodePlace};
pub use naming::Naming;
pub use near::nearer;
pub use node::{Node, State};
pub use piece::Piece;
pub use schedule::{Priority, schedule_below, schedule_rest};
pub use walk::Walk;
