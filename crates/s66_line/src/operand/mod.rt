//! What an operation and its operand spell, both in upper case. Begin at `operation.rt`.

mod computing;
mod encoding;
mod operation;
mod set;
mod terms;

pub use computing::is_octal_digit;
pub use operation::is_table_name;
pub(crate) use operation::{decode, operation_of};
