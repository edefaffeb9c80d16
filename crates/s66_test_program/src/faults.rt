//! Tests of the line that each fault and each refusal is shown as.

use s66_cert::CertError;
use s66_program::Fault;
use s66_source::SourceError;
use std::fmt::Display;
use std::process::Abort;

/// Checks the text that a value shows.
fn check_shown<R: AllocGlobal + Abort, T: Display>(rt: &R, value: &T, text: &str) {
    let shown = format!(in rt.alloc(); "{value}").expect(rt, "memory");
    assert!(rt; shown.as_str() == text, "{shown} for {text}");
}

/// Why a source is refused, and what that shows.
const SOURCE_ERRORS: &[(SourceError, &str)] = &[
    (SourceError::BadOperand { line: 2 }, "LINE 2 BAD OPERAND"),
    (SourceError::LineTooLong { line: 1 }, "LINE 1 TOO LONG"),
    (SourceError::TooLarge, "TOO MANY LINES"),
    (SourceError::OutOfMemory, "OUT OF MEMORY"),
];

/// Why a new source is refused, and what that shows.
const NEW_ERRORS: &[(SourceError, &str)] = &[
    (
        SourceError::BadOperand { line: 20_000 },
        "NEW LINE 20000 BAD OPERAND",
    ),
    (SourceError::LineTooLong { line: 1 }, "NEW LINE 1 TOO LONG"),
    (SourceError::TooLarge, "NEW TOO MANY LINES"),
];

/// Why documents are refused, and what that shows.
const CERT_ERRORS: &[(CertError, &str)] = &[
    (
        CertError::BadLine {
            line: 20_000_000_000,
        },
        "LINE 20000000000 BAD LINE",
    ),
    (CertError::Truncated, "TRUNCATED"),
    (CertError::TooManyNodes, "TOO MANY NODES"),
    (CertError::OutOfMemory, "OUT OF MEMORY"),
];

/// The other reasons why the program fails, and what they show.
const FAULTS: &[(Fault, &str)] = &[
    (Fault::NoNewSource, "NO NEW SOURCE"),
    (Fault::Profile, "BAD PROFILE"),
    (Fault::Memory, "OUT OF MEMORY"),
    (Fault::Read, "READ FAILED"),
    (Fault::Write, "WRITE FAILED"),
];

#[test]
fn shows_faults(rt: HostRuntime) {
    for &(error, text) in SOURCE_ERRORS {
        check_shown(&rt, &error, text);
        check_shown(&rt, &Fault::Source(error), text);
    }
    for &(error, text) in NEW_ERRORS {
        check_shown(&rt, &Fault::NewSource(error), text);
    }
    for &(error, text) in CERT_ERRORS {
        check_shown(&rt, &error, text);
        check_shown(&rt, &Fault::Document(error), text);
    }
    for &(fault, text) in FAULTS {
        check_shown(&rt, &fault, text);
    }
}
