//! Sources: their lines are read into straight-line blocks, and printed with the blocks in other orders. Begin at
//! `specs/LeftAlone.antt`, then `source.rt`; printing begins at `keeper.rt`.
//!
//! It promises that a source has the blocks of its definition or is refused at its least wrong line, that what is printed is the
//! defined text, and that its blocks are the same when it is read again (`read_again_law`).
#![tactic(auto)]

mod block_text;
mod columns;
mod continued;
mod counts;
mod cover;
mod directive;
mod error;
mod frame;
mod halves;
mod keeper;
mod kept;
mod laws;
mod limits;
mod lines;
mod operation;
mod placed;
mod reader;
mod redefined;
mod source;
mod standing;

pub use columns::Columns;
pub use continued::{is_continued, is_continued_at_first};
pub use counts::{are_digits, counting_text, cover_of, is_one_of};
pub use cover::{Cover, Covered};
pub use directive::{directive_cover, is_directive};
pub use error::SourceError;
pub use frame::{FramePart, frame_of};
pub use halves::{Halves, halves_of};
pub use keeper::print_source;
pub use laws::{
    alone_law, block_examples, case_law, columns_examples, columns_law, copied_law, count_examples,
    cut_law, left_alone_examples, line_examples, line_law, parts_law, plain_law, printed_examples,
    read_again_examples, read_again_law, spelled_law,
};
pub use limits::SOURCE_LINES_LIMIT;
pub use lines::cut_line;
pub use placed::Placed;
pub use redefined::{Redefined, redefined_examples};
pub use source::{Source, read_source, read_source_with};
pub use standing::{Standing, is_far, is_switch};
