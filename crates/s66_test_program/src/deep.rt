//! Tests of `--deep` with few splits: facts show what splits alone don't.

use crate::running::{CHECK, check, run};

/// The next random number, the sum of all and their count: each is stored before the next load.
const RANDOM: &str =
    "  SA1 SEED\n  SA2 FACTOR\n  DX6 X1*X2\n  UX6 X6\n  SA6 A1\n  PX3 B0,X6\n  NX3 B0,X3\n  SA4 SUM\n  FX5 X3+X4\n  NX7 B0,X5\n  SA7 A4\n  SA1 COUNT\n  SX6 X1+1\n  SA6 A1\n";

/// Searches of at most seven splits, and the verdict on what they show. No order takes less than 57, which eleven splits show.
const SHOWN: &[(&[&str], u8, &str)] = &[
    (
        &[
            "s66",
            "prove",
            "--workers",
            "1",
            "--nodes",
            "7",
            "--dominate-tree",
        ],
        7,
        "DOCUMENT 1 YES TIME 57 BOUND 56\n",
    ),
    (
        &["s66", "prove", "--workers", "1", "--nodes", "7", "--deep"],
        0,
        "DOCUMENT 1 YES TIME 57 BOUND 57\n",
    ),
];

/// Facts and a few splits show what splits alone don't.
#[test]
fn facts_show_more(rt: HostRuntime) {
    for &(words, status, verdict) in SHOWN {
        let ran = run(&rt, words, RANDOM.as_bytes());
        assert!(rt; ran.status == status, "{verdict}");
        check(&rt, verdict, CHECK, ran.written.as_slice(), 0, verdict);
    }
}
