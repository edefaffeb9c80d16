//! The errors of reading a source, and the line that reports each.

ghost use Rattle.std.specs.Prelude.{◌≡◌, ◌<◌, length};
ghost use Rattle.s66_device.specs.{FAULT_ROOM};
ghost use Rattle.s66_source.specs.declared.error.SourceError.TheVariants.{OutOfMemory};

use arrayvec::ArrayString;
use s66_device::{FAULT_ROOM, line_refusal, short_text};
use std::alloc::{AllocError, AllocFailed};
use std::{error, fmt};

/// Why a source was refused; lines count from 1, and the least refused line is reported. It is displayed as the line that reports
/// it.
///
/// On one line `LineTooLong` goes before `TooLarge`, and that before `BadOperand`. `OutOfMemory` is for a growth that was
/// refused, and may be returned in place of any other answer.
#[derive(Clone, Copy, Debug, Drop, PartialEq, Eq)]
pub enum SourceError {
    /// An operation of the table with an operand that it does not take, or a line with a comma in column 1 directly after
    /// an instruction or a `NO`.
    BadOperand { line: u32 },
    /// A line of more than `LINE_BYTES_LIMIT` bytes, its newline not counted.
    LineTooLong { line: u32 },
    /// A line past the `SOURCE_LINES_LIMIT`th.
    TooLarge,
    OutOfMemory,
}

impl From<AllocError> for SourceError {
    ghost from_gives = { λ _ e. e ≡ OutOfMemory };

    fn from(_e: AllocError) -> SourceError {
        SourceError::OutOfMemory
    }
}

impl<T: Drop> From<AllocFailed<T>> for SourceError {
    ghost from_gives = { λ _ e. e ≡ OutOfMemory };

    fn from(_e: AllocFailed<T>) -> SourceError {
        SourceError::OutOfMemory
    }
}

impl SourceError {
    ghost use Rattle.std.specs.Prelude.{◌≡◌, ◌<◌, length};
    ghost use Rattle.s66_source.specs.{refusal_line};

    /// The line that reports it, without a newline.
    pub fn line(&self) -> ArrayString<FAULT_ROOM>
        ensures text { result.bytes ≡ refusal_line self.now }
        ensures short { length result.bytes < FAULT_ROOM }
    {
        match self {
            SourceError::BadOperand { line } => line_refusal(u64::from(*line), " BAD OPERAND"),
            SourceError::LineTooLong { line } => line_refusal(u64::from(*line), " TOO LONG"),
            SourceError::TooLarge => short_text("TOO MANY LINES"),
            SourceError::OutOfMemory => short_text("OUT OF MEMORY"),
        }
    }
}

impl fmt::Display for SourceError {
    ghost use Rattle.std.specs.Prelude.{Some};
    ghost use Rattle.s66_source.specs.Refusals.{refusal_line};

    ghost output = { λ e. Some (refusal_line e) };

    fn fmt<W: fmt::Write>(&self, f: &mut fmt::Formatter<W>) -> fmt::Result {
        f.write_str(self.line().as_str())
    }
}

impl error::Error for SourceError {}
