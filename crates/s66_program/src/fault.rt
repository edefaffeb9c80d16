//! Why a command failed (`Fault`): the line that standard error gets, and the status.

ghost use Rattle.std.specs.Prelude.{◌≡◌, ◌++◌, ◌<◌, ◌≤◌, codes, decimal, length};
ghost use Rattle.s66_device.specs.{FAULT_ROOM};
ghost use Rattle.s66_program.specs.declared.fault.Fault.TheVariants.{Memory};
ghost use Rattle.s66_program.specs.Fault.{document_fault, new_refusal_line, new_source_fault, profile_fault, source_fault};

use arrayvec::ArrayString;
use itoa::Buffer;
use s66_cert::CertError;
use s66_command::ProfileError;
use s66_device::{FAULT_ROOM, short_text};
use s66_source::SourceError;
use std::alloc::{AllocError, AllocFailed};
use std::{error, fmt};

/// Why a command failed. It is displayed as the line that standard error gets.
#[derive(Clone, Copy, Debug, Drop, PartialEq, Eq)]
pub enum Fault {
    /// The source was refused; never for `OutOfMemory`, which is `Memory`.
    Source(SourceError),
    /// The source after the line that marks it was refused; never for `OutOfMemory`, which is `Memory`.
    NewSource(SourceError),
    /// No line marks a second source.
    NoNewSource,
    /// The documents were refused; never for `OutOfMemory`, which is `Memory`.
    Document(CertError),
    /// The text for the profile gives none; never for `OutOfMemory`, which is `Memory`.
    Profile,
    /// A growth was refused.
    Memory,
    /// The reader failed, or none of 16,777,216 calls with room for 65,536 bytes each gave the end.
    Read,
    /// The writer failed.
    Write,
}

impl From<AllocError> for Fault {
    ghost from_gives = { λ _ e. e ≡ Memory };

    fn from(_e: AllocError) -> Fault {
        Fault::Memory
    }
}

impl<T: Drop> From<AllocFailed<T>> for Fault {
    ghost from_gives = { λ _ e. e ≡ Memory };

    fn from(_e: AllocFailed<T>) -> Fault {
        Fault::Memory
    }
}

impl From<SourceError> for Fault {
    ghost from_gives = { λ e fault. fault ≡ source_fault e };

    fn from(e: SourceError) -> Fault {
        match e {
            SourceError::OutOfMemory => Fault::Memory,
            refusal => Fault::Source(refusal),
        }
    }
}

impl From<CertError> for Fault {
    ghost from_gives = { λ e fault. fault ≡ document_fault e };

    fn from(e: CertError) -> Fault {
        match e {
            CertError::OutOfMemory => Fault::Memory,
            refusal => Fault::Document(refusal),
        }
    }
}

impl From<ProfileError> for Fault {
    ghost from_gives = { λ e fault. fault ≡ profile_fault e };

    fn from(e: ProfileError) -> Fault {
        match e {
            ProfileError::BadProfile => Fault::Profile,
            ProfileError::OutOfMemory => Fault::Memory,
        }
    }
}

/// A line of the new source, and what is wrong with it.
fn new_line_refusal(line: u32, what: &str) -> ArrayString<FAULT_ROOM>
    requires { length what.now ≤ 12 }
    ensures text { result.bytes ≡ codes "NEW LINE " ++ decimal line ++ what.now }
    ensures short { length result.bytes < FAULT_ROOM }
{
    let mut digits = Buffer::new();
    let mut text = ArrayString::new();
    text.push_str("NEW LINE ");
    text.push_str(digits.format(line));
    text.push_str(what);
    text
}

/// The line that reports why the new source was refused.
fn new_line(refusal: &SourceError) -> ArrayString<FAULT_ROOM>
    ensures text { result.bytes ≡ new_refusal_line refusal.now }
    ensures short { length result.bytes < FAULT_ROOM }
{
    match refusal {
        SourceError::BadOperand { line } => new_line_refusal(*line, " BAD OPERAND"),
        SourceError::LineTooLong { line } => new_line_refusal(*line, " TOO LONG"),
        SourceError::TooLarge => short_text("NEW TOO MANY LINES"),
        SourceError::OutOfMemory => short_text("NEW OUT OF MEMORY"),
    }
}

impl Fault {
    ghost use Rattle.std.specs.Prelude.{◌≡◌, ◌<◌, length};
    ghost use Rattle.s66_device.specs.{FAULT_ROOM};
    ghost use Rattle.s66_program.specs.{fault_code, fault_line, new_source_fault};

    /// Of a new source that was refused for this.
    pub fn of_new_source(refusal: SourceError) -> Fault
        ensures { result ≡ new_source_fault refusal }
    {
        match refusal {
            SourceError::OutOfMemory => Fault::Memory,
            refusal => Fault::NewSource(refusal),
        }
    }

    /// The status of the process.
    pub fn code(&self) -> u8
        ensures { result ≡ fault_code self.now }
    {
        match self {
            Fault::Source(_)
            | Fault::NewSource(_)
            | Fault::NoNewSource
            | Fault::Document(_)
            | Fault::Profile => 3,
            Fault::Memory => 4,
            Fault::Read | Fault::Write => 6,
        }
    }

    /// The line that standard error gets, without its newline.
    pub fn line(&self) -> ArrayString<FAULT_ROOM>
        ensures text { result.bytes ≡ fault_line self.now }
        ensures short { length result.bytes < FAULT_ROOM }
    {
        match self {
            Fault::Source(e) => e.line(),
            Fault::NewSource(e) => new_line(e),
            Fault::NoNewSource => short_text("NO NEW SOURCE"),
            Fault::Document(e) => e.line(),
            Fault::Profile => short_text("BAD PROFILE"),
            Fault::Memory => SourceError::OutOfMemory.line(),
            Fault::Read => short_text("READ FAILED"),
            Fault::Write => short_text("WRITE FAILED"),
        }
    }
}

impl fmt::Display for Fault {
    ghost use Rattle.std.specs.Prelude.{Some};
    ghost use Rattle.s66_program.specs.Fault.{fault_line};

    ghost output = { λ fault. Some (fault_line fault) };

    fn fmt<W: fmt::Write>(&self, f: &mut fmt::Formatter<W>) -> fmt::Result {
        f.write_str(self.line().as_str())
    }
}

impl error::Error for Fault {}
