//! Orders of blocks as others read them: a page for a browser (`page/`), and lines of JSON for a program (`json_lines/`). Begin at
//! `specs/Page.antt`, then `page/page.rt`; or at `specs/Json.antt`, then `json_lines/line.rt`.
#![tactic(auto)]

mod json_lines;
mod page;

pub use json_lines::{
    bytes_law, found_example, instruction_example, label_example, order_law, profile_example,
    push_found_line, push_written_line, written_example,
};
pub use page::{
    FoundOrder, block_example, escape_law, head_law, index_example, pairs_page,
    profile_line_example, push_page, row_example, row_law, still_examples, title_example,
    unit_example,
};
