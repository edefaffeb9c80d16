//! The machine of a search: which reply an event of its ledger may have, what its steps keep, and how it ends. Beside it stand
//! expansions, and what several crates share of a ledger. Each law is a function that does nothing, whose contract says it. Examples
//! are such functions too: each clause is one, under the standard profile if no other is named. Like the model, it has no code that
//! schedules: `s66_ledger` has that of the ledger, `s66_node` that of expansions. Begin at `specs/LedgerRuns.antt` and `ledger.rt`.

mod accounts;
mod coverage;
mod ended;
mod expansion;
mod history;
mod ledger;
mod node_table;
mod summed;
mod ticket;

pub use accounts::{account_examples, account_law, seat_record_law};
pub use coverage::{coverage_examples, coverage_law, ledger_bound_law, opening_law, step_law};
pub use ended::{ended_examples, ended_law};
pub use expansion::{best_whole_examples, expansion_examples, expansion_law};
pub use history::{history_law, reached_law, recorded_examples, recorded_law};
pub use ledger::{claim_examples, graft_examples, grant_examples, offer_examples, run_examples};
pub use node_table::{loose_split_law, node_table_examples, node_table_law};
pub use summed::Summed;
pub use ticket::Ticket;
