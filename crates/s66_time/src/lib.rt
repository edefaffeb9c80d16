//! Legal orders of a block, by the dependences between its instructions (`graph/`); how an order is packed, and when each of its
//! instructions issues, starts and is done. Begin at `timed.rt`, which times a whole order, and `clock.rt`, which times a beginning that
//! grows and shrinks.
//!
//! It promises that an `Order` is legal, and that its times are those of the definition (`s66_model`), whatever was timed or pushed
//! before.
#![tactic(auto)]

mod clock;
mod copies;
mod dominance;
mod graph;
mod limits;
mod mark;
mod mark_shape;
mod mark_words;
mod progress;
mod registers;
mod result;
mod step;
mod steps;
mod tick;
mod timed;
mod units;
mod words;

pub use clock::{Clock, rows_of};
pub use dominance::{dominates, dominates_clamped};
pub use graph::{Dependences, NotLegal, Openings, Order, Ranking, depends, is_beginning, ready};
pub use limits::{COPIES_LIMIT, LOOK_LIMIT, TOTAL_LIMIT};
pub use mark::Mark;
pub use result::{ResultAt, last_time};
pub use timed::{Timed, Timer, Times, time_of};
