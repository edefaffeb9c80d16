//! The ledger of a search over one block's orders: which prefixes are open, handed out, split or closed, the best order so far, and
//! what is left of the budget. One thread searches with it here; `s66_pool` puts it under a lock for several. Begin at `search.rt`, the
//! loop, then `ledger.rt` and `machine.rt`.
//!
//! It promises that whatever calls come in whatever order, each legal order begins with one node that isn't split, and that an answer's
//! order is legal and its bound shown by its tree.
#![tactic(auto)]

mod answer;
mod attaching;
mod event_record;
mod history;
mod ledger;
mod limits;
mod lines;
mod links;
mod live;
mod machine;
mod node_table;
mod path;
mod rank;
mod reply;
mod search;
mod taking;

pub use answer::Answer;
pub use event_record::{EventRecord, Refusal};
pub use history::History;
pub use ledger::Ledger;
pub use limits::{DOMINATED_PIECE_LIMIT, GRANT_LIMIT, SCHEDULE_SPLITS};
pub use reply::{BackError, GraftError, Offered};
pub use s66_model::{Ticket, coverage_law};
pub use search::{is_schedule_due, piece_splits};
