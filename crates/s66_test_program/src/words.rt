//! Tests of the command line: the command that words give, and words that give none. Their tables are in `words/`.

use crate::commands::{PLAIN, check_output};
use crate::running::run;
use s66_program::{Command, Status, command_of};
use std::process::Abort;
use table::{CHECKS, LISTINGS, ORDERS, PROOFS, SUMS, VIEWS};

mod table;

/// Words, and the status: 0 of help, 2 of words that are no command.
const NO_COMMANDS: &[(&[&str], u8)] = &[
    (&["s66"], 2),
    (&["s66", "nonsense"], 2),
    (&["s66", "proves"], 2),
    (&["s66", "--trace", "time"], 2),
    (&["s66", "time", "--nodes", "5"], 2),
    (&["s66", "time", "--trace=1"], 2),
    (&["s66", "time", "--trace", "--trace"], 2),
    (&["s66", "time", "--profile"], 2),
    (&["s66", "time", "--profile", "{}", "--profile", "{}"], 2),
    (&["s66", "deps", "--profile", "{}"], 2),
    (&["s66", "check", "--profile", "{}"], 2),
    (&["s66", "deps", "--trace"], 2),
    (&["s66", "deps", "extra"], 2),
    (&["s66", "deps", "--cut", "--cut"], 2),
    (&["s66", "check", "--cut"], 2),
    (&["s66", "lint", "--cut", "--cut"], 2),
    (&["s66", "lint", "--block", "1"], 2),
    (&["s66", "guard", "--cut"], 2),
    (&["s66", "guard", "extra"], 2),
    (&["s66", "deps", "chart"], 2),
    (&["s66", "chart", "--trace"], 2),
    (&["s66", "why", "--trace"], 2),
    (&["s66", "why", "--text", "--text"], 2),
    (&["s66", "order", "--columns"], 2),
    (&["s66", "order", "--columns", "--quiet", "--block", "1"], 2),
    (&["s66", "order", "--keep", "--columns", "--columns"], 2),
    (
        &[
            "s66",
            "order",
            "--keep",
            "--columns",
            "--deep",
            "--dominate",
        ],
        2,
    ),
    (&["s66", "order", "--text"], 2),
    (&["s66", "order", "--words"], 2),
    (&["s66", "sum", "--keep", "--columns"], 2),
    (&["s66", "sum", "--words", "--words"], 2),
    (&["s66", "prove", "--words"], 2),
    (&["s66", "check", "--text", "--text"], 2),
    (&["s66", "check", "--text", "extra"], 2),
    (&["s66", "json", "--text"], 2),
    (&["s66", "why", "--dominate", "--dominate-tree"], 2),
    (&["s66", "why", "--dominate", "--deep"], 2),
    (&["s66", "chart", "--order"], 2),
    (&["s66", "chart", "--block"], 2),
    (&["s66", "chart", "--block", "0"], 2),
    (&["s66", "deps", "--block", "20001"], 2),
    (&["s66", "time", "--block", "1", "--block", "2"], 2),
    (&["s66", "time", "--block", "-1"], 2),
    (&["s66", "order", "--block", "0"], 2),
    (&["s66", "order", "--keep", "--keep"], 2),
    (&["s66", "prove", "--block"], 2),
    (&["s66", "prove", "--keep"], 2),
    (&["s66", "sum", "--block", "20001"], 2),
    (&["s66", "sum", "--quiet"], 2),
    (&["s66", "compare", "--block", "1"], 2),
    (&["s66", "compare", "--deep"], 2),
    (&["s66", "compare", "old", "new"], 2),
    (&["s66", "compare", "--strict", "--strict"], 2),
    (&["s66", "compare", "--some"], 2),
    (&["s66", "order", "--strict"], 2),
    (&["s66", "check", "--strict"], 2),
    (&["s66", "check", "--some", "--some"], 2),
    (&["s66", "json", "--trace"], 2),
    (&["s66", "json", "--order", "--deep", "--dominate"], 2),
    (&["s66", "page", "--trace"], 2),
    (&["s66", "page", "--dominate", "--dominate-tree"], 2),
    (&["s66", "page", "--compare", "--deep"], 2),
    (&["s66", "page", "--compare", "--nodes", "5"], 2),
    (&["s66", "page", "--compare", "--workers", "1"], 2),
    (&["s66", "page", "--compare", "--block", "1"], 2),
    (&["s66", "page", "--compare", "--text"], 2),
    (&["s66", "sum", "--compare"], 2),
    (&["s66", "order", "--workers", "0"], 2),
    (&["s66", "order", "--workers", "17"], 2),
    (&["s66", "order", "--nodes"], 2),
    (&["s66", "order", "--nodes", "x"], 2),
    (&["s66", "order", "--nodes", "1000001"], 2),
    (&["s66", "order", "--nodes", "1", "--nodes", "1"], 2),
    (&["s66", "prove", "--workers", "17"], 2),
    (&["s66", "order", "--dominate", "--dominate"], 2),
    (&["s66", "order", "--dominate=1"], 2),
    (&["s66", "order", "--dominate-tree", "--dominate"], 2),
    (&["s66", "prove", "--trace"], 2),
    (&["s66", "prove", "--dominate-tree", "--dominate-tree"], 2),
    (&["s66", "prove", "--dominate", "--dominate-tree"], 2),
    (&["s66", "time", "--dominate"], 2),
    (&["s66", "check", "--nodes", "5"], 2),
    (&["s66", "lint", "--trace"], 2),
    (&["s66", "sum", "--trace", "--trace"], 2),
    (&["s66", "sum", "--workers", "0"], 2),
    (&["s66", "sum", "--dominate", "--dominate-tree"], 2),
    (&["s66", "help"], 0),
    (&["s66", "--help"], 0),
    (&["s66", "time", "--help"], 0),
    (&["s66", "deps", "--help"], 0),
    (&["s66", "chart", "--help"], 0),
    (&["s66", "why", "--help"], 0),
    (&["s66", "page", "--help"], 0),
    (&["s66", "order", "--help"], 0),
    (&["s66", "prove", "--help"], 0),
    (&["s66", "check", "--help"], 0),
    (&["s66", "lint", "--help"], 0),
    (&["s66", "guard", "--help"], 0),
    (&["s66", "sum", "--help"], 0),
    (&["s66", "compare", "--help"], 0),
    (&["s66", "json", "--help"], 0),
];

#[test]
fn runs_no_commands(rt: HostRuntime) {
    for &(words, status) in NO_COMMANDS {
        let ran = run(&rt, words, b"  SA1 *+2\n");
        assert!(rt; ran.status == status, "{words:?}");
        assert!(rt; ran.written.is_empty() == (status != 0), "{words:?}");
        assert!(rt; ran.stated.is_empty() == (status == 0), "{words:?}");
    }
}

/// Checks which command some words ask for.
fn check_words<R: AllocGlobal + Abort>(rt: &R, words: &[&str], command: Command) {
    let read = command_of(rt.alloc(), words);
    assert!(rt; matches!(read, Ok(read) if read == command), "{words:?}");
}

#[test]
fn reads_words_of_listings(rt: HostRuntime) {
    for (words, command) in LISTINGS {
        check_words(&rt, words, command);
    }
}

#[test]
fn reads_words_of_views(rt: HostRuntime) {
    for (words, command) in VIEWS {
        check_words(&rt, words, command);
    }
}

#[test]
fn reads_words_of_checks(rt: HostRuntime) {
    for (words, command) in CHECKS {
        check_words(&rt, words, command);
    }
}

#[test]
fn reads_words_of_orders(rt: HostRuntime) {
    for (words, command) in ORDERS {
        check_words(&rt, words, command);
    }
}

#[test]
fn reads_words_of_proofs(rt: HostRuntime) {
    for (words, command) in PROOFS {
        check_words(&rt, words, command);
    }
}

#[test]
fn reads_words_of_sums(rt: HostRuntime) {
    for (words, command) in SUMS {
        check_words(&rt, words, command);
    }
}

#[test]
fn runs_a_command(rt: HostRuntime) {
    let output = "BLOCK 1 LINE 1 COUNT 1 DEPENDENCES 0\n";
    check_output(&rt, PLAIN, "  BX1 X2+X3\n", Status::Done, output);
}
