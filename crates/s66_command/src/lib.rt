//! The command line: what the words that the program is called with ask for, and the timing profile that they give as a JSON text or a
//! list. `clap` parses the words, `serde_json` the text. Begin at `specs/Usage.antt`, then `usage.rt`.
//!
//! It promises that a command comes only from words that give it by the rules of `clap`, and that help, the version or a mistake is
//! shown only where these rules find it (`command_of`).
#![tactic(auto)]

mod app;
mod changes;
mod command;
mod examples;
mod help;
mod hint;
mod limits;
mod options;
mod profile;
mod profile_error;
mod profile_list;
mod strategy;
mod subcommand;
mod usage;

pub use app::VERSION;
pub use changes::{Change, changes_of, push_changes};
pub use command::{Asked, Command, OrderStyle, Reads, SumStyle};
pub use examples::{hint_examples, list_examples, profile_examples, refusal_examples};
pub use hint::profile_hint;
pub use limits::{BLOCK_NUMBER_LIMIT, NODES_DEFAULT, WORKERS_DEFAULT};
pub use profile::read_profile;
pub use profile_error::ProfileError;
pub use strategy::Strategy;
pub use usage::{Usage, command_of, goes_deep};
