//! What a reader must believe: packing, dependence, legal orders, their meaning and their timing; lower bounds, dominance, trees and
//! answers; and the machine of a search (`machine/`). Each law is a function that does nothing, whose contract says it. Examples are such
//! functions too: each clause is one, under the standard profile if no other is named. Numbers count from 1, parcels from 0; times are
//! minor cycles of 100 ns. There is no code that schedules here: the lines of a tree (`lines.rt`) are only kept. Each other file has the
//! laws about a file of `specs/`. Begin at `specs/Timing.antt` and `timing.rt`.
#![tactic(auto, unfolding(s66_isa::specs::Table::row, crate::specs::Timing::issue_of, crate::specs::Timing::start_of, crate::specs::Timing::point, crate::specs::Dependence::conflict))]

mod answer;
mod best_and_bound;
mod dependence;
mod dominance;
mod dominated_leaves;
mod leaves;
mod legal_order;
mod limits;
mod lines;
mod machine;
mod meaning;
mod node_names;
mod options;
mod packing;
mod piece;
mod preorder;
mod rule;
mod stated;
mod table;
mod tails;
mod timing;
mod tree;

pub use answer::{answer_examples, answer_law};
pub use best_and_bound::bound_examples;
pub use dependence::dependence_examples;
pub use dominance::{dominance_examples, dominance_law};
pub use dominated_leaves::{dominated_examples, dominated_law};
pub use leaves::{floor_examples, floor_law, leaf_examples, leaf_law};
pub use legal_order::{beginning_law, order_examples, order_law, same_set_law, source_law};
pub use limits::{BUDGET_LIMIT, WORKERS_LIMIT};
pub use lines::{FactLeaf, KeptLines, Tree, TreeLine, TreeLines};
pub use machine::{
    Summed, Ticket, account_examples, account_law, best_whole_examples, claim_examples,
    coverage_examples, coverage_law, ended_examples, ended_law, expansion_examples, expansion_law,
    graft_examples, grant_examples, history_law, ledger_bound_law, loose_split_law,
    node_table_examples, node_table_law, offer_examples, opening_law, reached_law,
    recorded_examples, recorded_law, run_examples, seat_record_law, step_law,
};
pub use meaning::{meaning_examples, meaning_law, needed_law};
pub use node_names::node_name_examples;
pub use options::Options;
pub use packing::{packing_examples, packing_law};
pub use piece::piece_examples;
pub use preorder::{preorder_examples, preorder_law};
pub use rule::Rule;
pub use stated::{stated_examples, stated_law};
pub use table::{profile_examples, row_law, table_examples};
pub use tails::{floor_parts_law, printed_chain_law, tail_examples, tail_law};
pub use timing::{issue_law, timing_examples, total_law, written_order_law};
pub use tree::{tree_examples, tree_law};
