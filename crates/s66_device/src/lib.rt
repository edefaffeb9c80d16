//! The devices that bytes come from and go to, and short texts. Begin at `specs/Devices.antt`, then `device.rt`.
//!
//! It promises that `write_all` writes all of a text, or a beginning of it if the writer fails.
#![tactic(auto)]

mod device;
mod limits;
mod printable;
mod text;

pub use device::{Failed, Feed, OverRead, OverWrite, Sink, WriteError, write_all};
pub use limits::FAULT_ROOM;
pub use printable::{printable_examples, push_printable};
pub use text::{line_refusal, push_between, push_field, short_text};
