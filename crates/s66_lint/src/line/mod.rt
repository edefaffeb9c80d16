//! A line by itself (`line.rt`): its fields, its kind, its operation, its operand, and the registers of an instruction.

mod line;
mod operand;
mod operations;
mod registers;
mod spelling;

pub(crate) use line::{Fields, Kind, Line};
pub(crate) use operand::{
    Term, ends_name, ends_sum, has_other_term, is_before, is_comma, is_name, names_index,
    names_nothing, number_of, terms_of, without_plus,
};
pub(crate) use operations::{
    begins_definition, closes_word, ends_program, ends_range, equates, evaluates, is_branch,
    is_data, is_entry, is_transfer,
};
pub(crate) use registers::{Access, Registers};
pub(crate) use spelling::{are_letters, is_instruction_name, is_slip};
