//! What is answered for a block, and for the blocks of a source; of each answer only what is asked for is kept. Nothing is printed
//! here. Begin at `specs/Answers.antt`, then `answers.rt`.
//!
//! It promises that the order of an answer is legal, with its time, and that no legal order takes less than its bound: by a search, or
//! by a document that the checker accepts.
#![tactic(auto)]

mod answered;
mod answers;
mod block_texts;
mod documents;
mod kept;
mod observer;
mod outcome;
mod selection;
mod share;
mod turns;

pub use answered::{Answered, keep_answers, text_of_answers};
pub use answers::{ByFacts, BySearch, Found};
pub use documents::document_of;
pub use kept::{BlockAnswer, Keep};
pub use observer::{Observer, Silent};
pub use outcome::{Output, Status};
pub use selection::{blocks_before, shown};
pub use turns::{Task, make_each};
