//! The program but for its process: what is read for a command, and what is written. What a subcommand writes is one file, named after
//! it (`time_text.rt`, `order_text.rt`), beside a file of `specs/` of that name. Begin at `program.rt`, then `run.rt` and `output.rt`.
//!
//! It promises, for all words and inputs, what is written and which status comes (`run_program`); what follows of that is in `laws.rt`
//! and `order_laws.rt`.
#![tactic(auto)]

mod best_reasons;
mod block_head;
mod chart_text;
mod check_text;
mod compare_text;
mod deps_text;
mod entries;
mod examples;
mod fault;
mod guard_text;
mod hint;
mod json_text;
mod laws;
mod limits;
mod lint_text;
mod listing;
mod loop_examples;
mod loops;
mod moved;
mod order_laws;
mod order_text;
mod output;
mod page_text;
mod program;
mod progress;
mod prove_text;
mod reading;
mod remark;
mod run;
mod statement;
mod sum_text;
mod telling;
mod time_text;
mod why_text;
mod words;

pub use examples::remark_examples;
pub use fault::Fault;
pub use laws::{
    again_examples, answered_law, checked_law, done_law, front_law, ordered_again_law, proved_law,
    total_limit_law,
};
pub use limits::{FEED_CALLS, FEED_ROOM, SOURCE_FRONT};
pub use loop_examples::{entry_examples, statement_examples};
pub use order_laws::{compared_law, reported_law};
pub use program::run_program;
pub use progress::Progress;
pub use remark::{Ended, Missing, Remark};
pub use run::run_command;
pub use s66_answer::{Observer, Silent, Status, Task, document_of, make_each};
pub use s66_command::{
    Asked, Command, NODES_DEFAULT, OrderStyle, Strategy, SumStyle, Usage, VERSION, WORKERS_DEFAULT,
    command_of, goes_deep,
};
pub use telling::refuse_words;
