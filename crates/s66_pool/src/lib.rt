//! The workers of a search: its ledger under a lock, a hint of its best time, a seat at each for every worker, and threads. Begin at
//! `search.rt`, which decides who searches, then `worker.rt`, the steps of one worker.
//!
//! It promises that however the steps of workers fall, `run` returns an answer for its splits. That they work side by side is tested.
#![tactic(auto)]

mod calls;
mod crew;
mod expander;
mod gate;
mod hub;
mod incumbent;
mod known_nodes;
mod limits;
mod locals;
mod lone;
mod member;
mod opening;
mod search;
mod seat;
mod shared_marks;
mod supply;
mod victim;
mod worker;

pub use crew::work;
pub use gate::{Free, Gate};
pub use hub::{Hub, SeatsMissing};
pub use limits::{CLAIMS_LIMIT, FIRST_SPLITS};
pub use lone::LoneSearch;
pub use s66_share::{Hint, HintSeat};
pub use search::run;
pub use seat::Seat;
pub use supply::{Needs, Supply};
