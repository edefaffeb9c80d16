//! Certificates: what a document claims of a block, and its text. Examples are functions that do nothing: each clause is one.
//! Begin at `specs/Documents.antt`, then `document.rt`; reading begins at `reading.rt` and `reader.rt`, printing at `printing.rt`.
//! Whether a claim is true is for `s66_checker` to say.
//!
//! It promises that a text is the text of one list of documents or has a first fault (`reading_law`, `one_reading_law`), and that what
//! is printed is read again as what it was.
#![tactic(auto)]

mod document;
mod document_place;
mod error;
mod evidence;
mod examples;
mod indexed_tree;
mod instruction;
mod laws;
mod limits;
mod line;
mod parse;
mod printing;
mod ranges;
mod reader;
mod reading;
mod readings;
mod scan;
mod text;
mod version;

pub use document::{Claim, Document};
pub use error::CertError;
pub use evidence::Evidence;
pub use examples::document_examples;
pub use instruction::InstructionText;
pub use laws::{old_documents_stay, one_reading_law, reading_law};
pub use limits::{FACT_LIMIT, LINE_LIMIT, SPLIT_LIMIT, TIME_LIMIT};
pub use printing::push_document;
pub use reading::read;
pub use readings::{fault_examples, reading_examples};
pub use s66_model::{FactLeaf, Tree, TreeLine, TreeLines};
pub use s66_moments::{FactLine, FactStep, LoadLine};
pub use text::text_examples;
