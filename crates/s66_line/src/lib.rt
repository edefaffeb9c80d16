//! Lines of a COMPASS source: their fields, their classes, what operands spell, and straight-line blocks. One line is looked at by
//! itself here; a whole source is `s66_source`. Begin at `class.rt`.
//!
//! It promises that nothing of a line is lost in its fields (`whole_law`), and that an operand is taken exactly if the definition gives
//! it an instruction.
#![tactic(auto)]

mod block;
mod characters;
mod class;
mod entry;
mod fields;
mod instruction_text;
mod laws;
mod limits;
mod operand;

pub use block::Block;
pub use characters::{Place, is_decimal_digit};
pub use class::{Class, Classified, classify};
pub use entry::Entry;
pub use fields::{
    Fields, body_of, fields_of, from_operand, is_comment_line, is_continuation,
    operation_and_operand, split_word, without_trailing,
};
pub use instruction_text::{instruction_of_text, is_instruction, upper_case};
pub use laws::{
    byte_examples, character_examples, code_law, constant_examples, instruction_examples,
    operation_law, set_form_law, term_law, whole_law,
};
pub use limits::{LINE_BYTES_LIMIT, TEXT_LIMIT};
pub use operand::{is_octal_digit, is_table_name};
