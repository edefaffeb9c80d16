//! Orders of blocks as a page for a browser: one HTML file that stands alone. Begin at `specs/Page.antt`, then `page.rt`; the page of
//! two sources begins at `pairs.rt`.
//!
//! It promises that no byte of a source is markup (`escape_law`), that nothing is run or fetched (`head_law`), and that each
//! instruction has its row (`row_law`).

mod bar;
mod block;
mod escape;
mod examples;
mod found_order;
mod laws;
mod order;
mod page;
mod pairs;
mod register;
mod row;
mod start;
mod summary;
mod text;
mod unit;

pub use examples::{
    block_example, index_example, profile_line_example, row_example, title_example, unit_example,
};
pub use found_order::FoundOrder;
pub use laws::{escape_law, head_law, row_law, still_examples};
pub use page::push_page;
pub use pairs::pairs_page;
