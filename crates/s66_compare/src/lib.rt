//! Whether one source is another but for the legal orders of its blocks, and what is written of that. Begin at `specs/Compared.antt`,
//! then `compared.rt`.
//!
//! It promises that what is accepted leaves what the old source leaves (`same_meaning_law`).
#![tactic(auto)]

mod alignment;
mod broken;
mod compared;
mod difference;
mod fingerprint;
mod laws;
mod limits;
mod pairing;
mod rows;
mod text;
mod verdict;

pub use compared::{Compared, compare, is_accepted};
pub use difference::{Difference, difference_of};
pub use laws::{difference_law, frame_examples, same_meaning_law, verdict_examples};
pub use rows::{Row, Side, aligned_rows};
pub use text::{push_ending, push_row};
pub use verdict::{BlockVerdict, Judged};
