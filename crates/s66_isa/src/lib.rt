//! Instructions of the Control Data 6600: what each reads, writes and occupies, and the profile of its times. All other crates use it,
//! and it uses none of them; so the sets of numbers that many of them keep (`Set`) stand here too. Begin at `specs/Table.antt`, the
//! instruction table, then `instr.rt`.
//!
//! It promises that what code says of an instruction is what the table says of it (`Row::of`).
#![tactic(auto)]

mod instr;
mod limits;
mod op;
mod profile;
mod reg;
mod registers;
mod row;
mod set;
mod write;

pub use instr::{
    Instr, KIND_COUNT, KINDS, Kind, Memory, Operands, is_memory_conflict, is_same_kind, kind_name,
    kind_number,
};
pub use limits::{BLOCK_LIMIT, PROFILE_LENGTH, PROFILE_LIMIT};
pub use op::Op;
pub use profile::{Profile, is_same_profile};
pub use reg::{Bank, REGISTER_COUNT, Reg, has_register, is_same_register, is_zero_register};
pub use registers::Registers;
pub use row::Row;
pub use set::Set;
pub use write::{Write, longest_latency, writes_of};
