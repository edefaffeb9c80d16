//! Tests of what `check` says of altered documents, by line and reason.

use crate::commands::{PLAIN_CHECK, check_output, run};
use crate::documents::{FORCED_PAIRS, LINES_NAMED, ONE_LOAD, THREE_MULTIPLIES};
use s66_cert::CertError;
use s66_program::{Fault, Status};
use std::process::Abort;
use std::sync::Wait;
use std::thread::Threads;

/// The text with `new` in place of the first `old`.
pub(crate) fn altered<R: AllocGlobal + Abort>(rt: &R, text: &str, old: &str, new: &str) -> String {
    let (front, back) = text.split_once(old).expect(rt, "what is altered");
    format!(in rt.alloc(); "{front}{new}{back}").expect(rt, "memory")
}

/// What of a document is altered, what it is then, and the line and the reason of the verdict.
pub(crate) type Denial = (&'static str, &'static str, u32, u32);

/// Alterations of one load's document.
const ALTERED_LOADS: &[Denial] = &[
    ("PROFILE 3", "PROFILE 4", 7, 2),
    ("BOUND 12", "BOUND 13", 8, 8),
    ("ORDER 1 3 2", "ORDER 1 2 3", 7, 2),
    ("ORDER 1 3 2", "ORDER 2 1 3", 9, 1),
    ("C 1 2", "C 1 3", 10, 4),
    ("C 1 2", "C 2", 10, 5),
    ("C 1 2", "T", 10, 6),
];

/// Alterations of three multiplies' document.
const ALTERED_MULTIPLIES: &[Denial] = &[
    ("ORDER 1 2 3", "ORDER 1 2", 9, 1),
    ("S 1 2 3", "S 1 3 2", 10, 3),
    ("S 3\nT\n", "T\n", 12, 6),
    ("S 3\nT\n", "U MULTIPLY\n", 12, 5),
    ("S 3\nT\n", "C 3\n", 12, 5),
    ("S 3\nT\n", "C 1\n", 12, 4),
    ("S 3\nT\n", "S 3\nP\n", 13, 6),
    // the third child is left out, with all below it
    (
        "S 1 2 3\nS 2 3\nS 3\nT\nS 2\nT\nS 1 3\nS 3\nT\nS 1\nT\nS 1 2\nS 2\nT\nS 1\nT\n",
        "S 1 2\nS 2 3\nS 3\nT\nS 2\nT\nS 1 3\nS 3\nT\nS 1\nT\n",
        10,
        3,
    ),
];

/// Alterations of the document of forced pairs.
const ALTERED_PAIRS: &[Denial] = &[
    ("F 1 3", "F 3 1", 12, 11),
    ("F 2 1\n", "", 15, 13),
    ("F 1 3\n", "", 18, 13),
    ("\nE 3", "\nE 5", 18, 12),
    ("\nE 3", "\nE 1", 18, 12),
    ("R 2 1", "R 1 2", 16, 13),
    ("R 1 3", "R 2 3", 19, 13),
    ("BOUND 11", "BOUND 12", 10, 8),
];

/// Alterations of that of lines that are named.
const ALTERED_NAMES: &[Denial] = &[
    ("N 12", "N 11", 15, 9),
    ("N 12", "N 15", 15, 9),
    ("N 12", "N 9", 15, 9),
    ("N 12", "N 20", 15, 9),
    ("N 16", "N 18", 19, 9),
];

/// Checks that altered documents are denied.
pub(crate) fn check_denied<R: AllocGlobal + Abort + Threads + Wait + Sync>(
    rt: &R,
    document: &str,
    denials: &[Denial],
) {
    for &(old, new, line, reason) in denials {
        let text = altered(rt, document, old, new);
        let verdict = format!(in rt.alloc(); "DOCUMENT 1 NO LINE {line} REASON {reason}\n").expect(
            rt, "memory",
        );
        check_output(
            rt,
            PLAIN_CHECK,
            text.as_str(),
            Status::Denied,
            verdict.as_str(),
        );
    }
}

#[test]
fn denies_altered_documents(rt: HostRuntime) {
    check_denied(&rt, ONE_LOAD, ALTERED_LOADS);
    check_denied(&rt, THREE_MULTIPLIES, ALTERED_MULTIPLIES);
}

#[test]
fn denies_altered_facts(rt: HostRuntime) {
    let yes = "DOCUMENT 1 YES TIME 11 BOUND 11\n";
    check_output(&rt, PLAIN_CHECK, FORCED_PAIRS, Status::Done, yes);
    let yes = "DOCUMENT 1 YES TIME 8 BOUND 7\n";
    check_output(&rt, PLAIN_CHECK, LINES_NAMED, Status::Done, yes);
    check_denied(&rt, FORCED_PAIRS, ALTERED_PAIRS);
    check_denied(&rt, LINES_NAMED, ALTERED_NAMES);
}

/// What `check` says of three multiplies and one load.
const BOTH: &str = "DOCUMENT 1 YES TIME 22 BOUND 22\nDOCUMENT 2 YES TIME 12 BOUND 12\n";

/// What it says if the second's bound is above its time.
const FIRST: &str = "DOCUMENT 1 YES TIME 22 BOUND 22\nDOCUMENT 2 NO LINE 8 REASON 8\n";

/// A document is checked under its own profile, here of a slower Boolean unit.
#[test]
fn checks_under_its_profile(rt: HostRuntime) {
    let slower = altered(&rt, ONE_LOAD, "PROFILE 3", "PROFILE 4");
    let true_of_it = altered(&rt, slower.as_str(), "TIME 12", "TIME 13");
    let yes = "DOCUMENT 1 YES TIME 13 BOUND 12\n";
    check_output(&rt, PLAIN_CHECK, true_of_it.as_str(), Status::Done, yes);
    // no Boolean in it
    let same = altered(&rt, THREE_MULTIPLIES, "PROFILE 3", "PROFILE 4");
    let yes = "DOCUMENT 1 YES TIME 22 BOUND 22\n";
    check_output(&rt, PLAIN_CHECK, same.as_str(), Status::Done, yes);
}

#[test]
fn tells_each_document(rt: HostRuntime) {
    check_output(&rt, PLAIN_CHECK, "", Status::Done, "");
    let both = altered(&rt, ONE_LOAD, "", THREE_MULTIPLIES);
    check_output(&rt, PLAIN_CHECK, both.as_str(), Status::Done, BOTH);
    let above = altered(&rt, both.as_str(), "BOUND 12\n", "BOUND 13\n");
    check_output(&rt, PLAIN_CHECK, above.as_str(), Status::Denied, FIRST);
    let lower = altered(&rt, ONE_LOAD, "BOUND 12", "BOUND 11");
    let verdict = "DOCUMENT 1 YES TIME 12 BOUND 11\n";
    check_output(&rt, PLAIN_CHECK, lower.as_str(), Status::Done, verdict);
}

/// What of three multiplies' document is altered, and why it is no document.
const REFUSED: &[(&str, &str, CertError)] = &[
    (" 1 2\nBLOCK", " 1\nBLOCK", CertError::BadLine { line: 2 }),
    (" 1 2\nBLOCK", " 1 0\nBLOCK", CertError::BadLine { line: 2 }),
    ("PROFILE 3", "PROFILE 101", CertError::BadLine { line: 2 }),
    ("BLOCK 3", "BLOCK 129", CertError::BadLine { line: 3 }),
    ("I FX1 X2*X3", "I fx1 X2*X3", CertError::BadLine { line: 4 }),
    ("I FX1 X2*X3", "I ZR X1,L", CertError::BadLine { line: 4 }),
    ("TIME 22", "TIME 022", CertError::BadLine { line: 7 }),
    ("TIME 22", "TIME  22", CertError::BadLine { line: 7 }),
    ("TIME 22", "TIME 100001", CertError::BadLine { line: 7 }),
    (
        "TIME 22",
        "TIME 222222222222222222222222222222",
        CertError::BadLine { line: 7 },
    ),
    ("S 1 2 3\n", "S 129\n", CertError::BadLine { line: 10 }),
    ("S 1 2 3\n", "S 1  2 3\n", CertError::BadLine { line: 10 }),
    ("T\nEND", "T\nT\nEND", CertError::BadLine { line: 26 }),
    ("END\n", "", CertError::Truncated),
    ("END\n", "END", CertError::Truncated),
];

/// Checks that a text is refused, and nothing is written.
pub(crate) fn check_refused<R: AllocGlobal + Abort + Threads + Wait + Sync>(
    rt: &R,
    text: &str,
    refusal: CertError,
) {
    let (result, written) = run(rt, PLAIN_CHECK, text.as_bytes());
    assert_eq!(rt; result, Err(Fault::Document(refusal)), "{text}");
    assert!(rt; written.is_empty(), "{text}");
}

#[test]
fn refuses_altered_documents(rt: HostRuntime) {
    for &(old, new, refusal) in REFUSED {
        let text = altered(&rt, THREE_MULTIPLIES, old, new);
        check_refused(&rt, text.as_str(), refusal);
    }
    let both = altered(&rt, ONE_LOAD, "", THREE_MULTIPLIES);
    let zero = altered(&rt, both.as_str(), "BOUND 12\n", "BOUND 012\n");
    check_refused(&rt, zero.as_str(), CertError::BadLine { line: 34 });
}
