//! Tests of `prove`, also of large trees and of the longest block, which `check` goes over.

use crate::commands::{PLAIN_CHECK, check_output, prove_by, run};
use crate::documents::{ONE_LOAD, THREE_MULTIPLIES};
use crate::rows::STORE_THEN_LOAD;
use s66_model::Rule;
use s66_program::Status;
use s66_test_search::{MULTIPLIES, SEVEN_MULTIPLIES};

/// A source, and its documents.
const PROOFS: &[(&str, &str)] = &[
    ("", ""),
    (
        "  BX1 X2+X3\n",
        "S66 CERTIFICATE 1\nPROFILE 3 3 4 4 3 10 29 8 3 8 1 1 1 1 2 1 2\nBLOCK 1\nI BX1 X2+X3\nTIME 4\nBOUND 4\nORDER 1\nC 1\nEND\n",
    ),
    (
        "  BX1 X2\n  BX3 X4\n",
        "S66 CERTIFICATE 1\nPROFILE 3 3 4 4 3 10 29 8 3 8 1 1 1 1 2 1 2\nBLOCK 2\nI BX1 X2\nI BX3 X4\nTIME 8\nBOUND 8\nORDER 1 2\nU BOOLEAN\nEND\n",
    ),
    (
        "LOOP sa1   a1+b1 NEXT\n* NOTE\n  bx6 x1\n  bx7 x2 MOVE\n",
        ONE_LOAD,
    ),
    (
        STORE_THEN_LOAD,
        "S66 CERTIFICATE 1\nPROFILE 3 3 4 4 3 10 29 8 3 8 1 1 1 1 2 1 2\nBLOCK 2\nI SA6 A6+B1\nI SA1 A2+B2\nTIME 9\nBOUND 9\nORDER 1 2\nC 1 2\nEND\n",
    ),
    (MULTIPLIES, THREE_MULTIPLIES),
];

#[test]
fn proves_worked_rows(rt: HostRuntime) {
    let prove = prove_by(1, 100_000, Rule::NoneNamed);
    for &(source, documents) in PROOFS {
        check_output(&rt, prove, source, Status::Done, documents);
    }
}

/// How many newlines there are.
fn lines(text: &[u8]) -> u32 {
    let mut count = 0u32;
    for byte in text {
        if *byte == b'\n' {
            count = count.saturating_add(1);
        }
    }
    count
}

/// Sixteen workers make one large proof, and five of it are checked: no call runs out of memory, however much it is about.
#[test]
fn proves_and_checks_large_trees(rt: HostRuntime) {
    let prove = prove_by(16, 100_000, Rule::NoneNamed);
    let (result, document) = run(&rt, prove, SEVEN_MULTIPLIES.as_bytes());
    assert_eq!(rt; result, Ok(Status::Done));
    // 14 lines of head and end
    assert_eq!(rt; lines(document.as_slice()), 14 + 8660 + 5040);
    let mut documents = Vec::new(rt.alloc());
    for _ in 0..5 {
        documents
            .extend_from_slice(document.as_slice())
            .expect(&rt, "memory");
    }
    let (result, verdicts) = run(&rt, PLAIN_CHECK, documents.as_slice());
    assert_eq!(rt; result, Ok(Status::Done));
    let yes =
        "DOCUMENT 1 YES TIME 44 BOUND 44\nDOCUMENT 2 YES TIME 44 BOUND 44\nDOCUMENT 3 YES TIME 44 BOUND 44\nDOCUMENT 4 YES TIME 44 BOUND 44\nDOCUMENT 5 YES TIME 44 BOUND 44\n";
    assert_eq!(rt; verdicts.as_slice(), yes.as_bytes());
}

/// A chain of the most instructions that a block has is proved, and its document is checked.
#[test]
fn proves_and_checks_a_block_of_128(rt: HostRuntime) {
    let prove = prove_by(1, 0, Rule::NoneNamed);
    let source = "  BX0 X0\n".repeat(rt.alloc(), 128).expect(&rt, "memory");
    let (result, document) = run(&rt, prove, source.as_bytes());
    assert_eq!(rt; result, Ok(Status::Done));
    let (result, verdict) = run(&rt, PLAIN_CHECK, document.as_slice());
    assert_eq!(rt; result, Ok(Status::Done));
    let yes = "DOCUMENT 1 YES TIME 512 BOUND 512\n";
    assert_eq!(rt; verdict.as_slice(), yes.as_bytes());
}
