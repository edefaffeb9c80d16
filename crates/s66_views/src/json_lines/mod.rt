//! A block as a line of JSON: its instructions, and the orders in which it is timed. Begin at `specs/Json.antt`, then `line.rt`.
//!
//! It promises that a line is the text of the defined value, from which the bytes of the source are got back (`bytes_law`).

mod block;
mod examples;
mod instruction;
mod label;
mod laws;
mod line;
mod list;
mod order;
mod point;
mod profile;
mod string;
mod text;
mod wait;
mod words;

pub use examples::{
    found_example, instruction_example, label_example, profile_example, written_example,
};
pub use laws::{bytes_law, order_law};
pub use line::{push_found_line, push_written_line};
