//! The errors of reading documents, and the line that reports each.

ghost use Rattle.std.specs.Prelude.{◌≡◌};
ghost use Rattle.s66_cert.specs.declared.error.CertError.TheVariants.{OutOfMemory};

use arrayvec::ArrayString;
use s66_device::{FAULT_ROOM, line_refusal, short_text};
use std::alloc::{AllocError, AllocFailed};
use std::{error, fmt};

/// Why a text is no text of documents: its first fault in reading order. It is displayed as the line that reports it.
///
/// `OutOfMemory` is returned only if a growth was refused in the call. It may be returned in place of any other answer.
#[derive(Clone, Copy, Debug, Drop, PartialEq, Eq)]
pub enum CertError {
    /// A line of the whole input, from 1, is not what a document has in its place.
    BadLine { line: u64 },
    /// The input ends inside a document, or in a line without its newline.
    Truncated,
    /// A split is one more than `SPLIT_LIMIT` of one document.
    TooManyNodes,
    OutOfMemory,
}

impl From<AllocError> for CertError {
    ghost from_gives = { λ _ e. e ≡ OutOfMemory };

    fn from(_e: AllocError) -> CertError {
        CertError::OutOfMemory
    }
}

impl<T: Drop> From<AllocFailed<T>> for CertError {
    ghost from_gives = { λ _ e. e ≡ OutOfMemory };

    fn from(_e: AllocFailed<T>) -> CertError {
        CertError::OutOfMemory
    }
}

impl CertError {
    ghost use Rattle.std.specs.Prelude.{◌≡◌, ◌<◌, length};
    ghost use Rattle.s66_device.specs.{FAULT_ROOM};
    ghost use Rattle.s66_cert.specs.{document_refusal_line};

    /// The line that reports it, without a newline.
    pub fn line(&self) -> ArrayString<FAULT_ROOM>
        ensures text { result.bytes ≡ document_refusal_line self.now }
        ensures short { length result.bytes < FAULT_ROOM }
    {
        match self {
            CertError::BadLine { line } => line_refusal(*line, " BAD LINE"),
            CertError::Truncated => short_text("TRUNCATED"),
            CertError::TooManyNodes => short_text("TOO MANY NODES"),
            CertError::OutOfMemory => short_text("OUT OF MEMORY"),
        }
    }
}

impl fmt::Display for CertError {
    ghost use Rattle.std.specs.Prelude.{Some};
    ghost use Rattle.s66_cert.specs.Refusals.{document_refusal_line};

    ghost output = { λ e. Some (document_refusal_line e) };

    fn fmt<W: fmt::Write>(&self, f: &mut fmt::Formatter<W>) -> fmt::Result {
        f.write_str(self.line().as_str())
    }
}

impl error::Error for CertError {}
