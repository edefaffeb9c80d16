//! Runs the rows of `rows/`: words, an input, a status, and what is written. A test of a subcommand is a row there.

use crate::running::{GUARD, LINT, ORDER, ORDER_TRACE, PAGE, TIME, check, check_told, run};
use crate::verdicts::altered;
use s66_test_search::{MULTIPLIES, ONE_LOAD, PACKING_GAP};
use std::process::Abort;
use std::sync::Wait;
use std::thread::Threads;

mod chart;
mod compare;
mod controls;
mod deps;
mod facts;
mod guard;
mod json;
mod kept;
mod left_alone;
mod lint;
mod order;
mod page;
mod profile;
mod remarks;
mod sum;
mod suppositions;
mod time;
mod unseen;
mod why;
mod words;

/// A run: name, words, input, status, and the text that is written if the status is 0, 5, 7 or 8, and else goes to standard error.
pub(crate) type Row = (
    &'static str,
    &'static [&'static str],
    &'static str,
    u8,
    &'static str,
);

pub(crate) const B0: &str = "  NX1 B0,X2\n  SB0 5\n  SX3 B0\n";

pub(crate) const STORE_THEN_LOAD: &str = "  SA6 A6+B1\n  SA1 A2+B2\n";

pub(crate) const UNPACK_THEN_SHIFT: &str = "  UX1 B1,X1\n  LX1 B1\n";

/// Two divides in the only unit, with what reads or replaces their results: 29 minor cycles each, and every order keeps them so.
pub(crate) const TWO_DIVIDES: &str = "  FX1 X2/X3\n  FX4 X1+X5\n  FX1 X5/X6\n  FX6 X1*X2\n";

pub(crate) const MIXED_SOURCE: &str =
    "* TEST\nLOOP      SA1 A1+1     LOAD\n          NO\n* NOTE\n          BX6 X1\n+         SA6 A6+B1    STORE\n          ZR X1,LOOP\n          BX1 X2\n          VFD 60/0\n";

/// Sources with several best orders: name, source, how the output of `order` begins and ends, and what `time` writes of it.
const ORDERED: &[(&str, &str, &str, &str, &str)] = &[
    (
        "packing gap",
        PACKING_GAP,
        "* BLOCK 1 COUNT 4 SOURCE 12 TIME 8 BEST\n          SA1 A1+100\n",
        "\n",
        "BLOCK 1 LINE 2 COUNT 4 PARCELS 5 NO 0 TIME 8\n",
    ),
    (
        "B0",
        B0,
        "* BLOCK 1 COUNT 3 SOURCE 7 TIME 6 BEST\n",
        "\n          SB0 5\n",
        "BLOCK 1 LINE 2 COUNT 3 PARCELS 4 NO 0 TIME 6\n",
    ),
];

/// Runs as `Row`, whose input is a piece and how many times it is repeated.
const REPEATED: &[(&str, &[&str], &str, usize, u8, &str)] = &[
    (
        "sixty-four",
        TIME,
        "  BX0 X0\n",
        64,
        0,
        "BLOCK 1 LINE 1 COUNT 64 PARCELS 64 NO 0 TIME 256\n",
    ),
    (
        "sixty-five",
        TIME,
        "  BX0 X0\n",
        65,
        0,
        "BLOCK 1 LINE 1 COUNT 65 PARCELS 65 NO 0 TIME 260\n",
    ),
    (
        "a block of 128",
        TIME,
        "  BX0 X0\n",
        128,
        0,
        "BLOCK 1 LINE 1 COUNT 128 PARCELS 128 NO 0 TIME 512\n",
    ),
    (
        "one more than a block of 128",
        TIME,
        "  BX0 X0\n",
        129,
        0,
        "BLOCK 1 LINE 1 COUNT 128 PARCELS 128 NO 0 TIME 512\nBLOCK 2 LINE 129 COUNT 1 PARCELS 1 NO 0 TIME 4\n",
    ),
    (
        "201 bytes",
        TIME,
        "*",
        201,
        3,
        "LINE 1 TOO LONG\na line has at most 200 bytes; s66 lint lists all that have more\n",
    ),
    ("201 bytes, listed", LINT, "*", 201, 5, "LINE 1 TOO LONG\n"),
    (
        "201 bytes, guarded",
        GUARD,
        "*",
        201,
        3,
        "LINE 1 TOO LONG\na line has at most 200 bytes; s66 lint lists all that have more\n",
    ),
    // one of two units has 17 of them, each for 11; the floor, which shares out 33 times 11, is 182
    (
        "thirty-three multiplies, with facts",
        &["s66", "sum", "--workers", "1", "--deep", "--nodes", "0"],
        MULTIPLIES,
        11,
        0,
        "BLOCK 1 LINE 1 COUNT 33 SOURCE 187 TIME 187 BEST MOVED 0\nTOTAL BLOCKS 1 SOURCE 187 TIME 187 BEST 1 MOVED 0\n",
    ),
    ("20,000 lines", TIME, "*\n", 20_000, 0, ""),
    (
        "20,001 lines",
        TIME,
        "*\n",
        20_001,
        3,
        "TOO MANY LINES\na source has at most 20000 lines; s66 order --quiet adds none\n",
    ),
    ("20,000 lines, listed", LINT, "*\n", 20_000, 0, ""),
    (
        "20,001 lines, listed",
        LINT,
        "*\n",
        20_001,
        5,
        "TOO MANY LINES\n",
    ),
    (
        "20,001 lines, guarded",
        GUARD,
        "*\n",
        20_001,
        3,
        "TOO MANY LINES\na source has at most 20000 lines; s66 order --quiet adds none\n",
    ),
    (
        "17,039,360 lines",
        TIME,
        "\n",
        17_039_360,
        3,
        "TOO MANY LINES\na source has at most 20000 lines; s66 order --quiet adds none\n",
    ),
];

/// How many instructions a chain has, and what it takes.
const CHAINS: &[(usize, u32)] = &[(64, 256), (65, 260), (128, 512)];

/// What is told after a success of the row of this name.
fn told_of(name: &str, words: &[&str]) -> &'static str {
    for &(row, subcommand, told) in remarks::TOLD {
        if row == name && words.contains(&subcommand) {
            return told;
        }
    }
    ""
}

fn check_rows<R: AllocGlobal + Abort + Threads + Wait + Sync>(rt: &R, rows: &[Row]) {
    for &(name, words, input, status, text) in rows {
        let told = told_of(name, words);
        check_told(rt, name, words, input.as_bytes(), status, text, told);
    }
}

#[test]
fn runs_rows(rt: HostRuntime) {
    check_rows(&rt, time::ROWS);
    check_rows(&rt, deps::ROWS);
    check_rows(&rt, chart::ROWS);
    check_rows(&rt, profile::ROWS);
    check_rows(&rt, words::ROWS);
}

#[test]
fn runs_rows_of_views(rt: HostRuntime) {
    check_rows(&rt, why::ROWS);
    check_rows(&rt, json::ROWS);
}

#[test]
fn runs_rows_of_orders(rt: HostRuntime) {
    check_rows(&rt, order::ROWS);
    check_rows(&rt, kept::ROWS);
}

#[test]
fn runs_rows_by_facts(rt: HostRuntime) {
    check_rows(&rt, facts::ROWS);
    check_rows(&rt, facts::PROOF_ROWS);
}

#[test]
fn runs_rows_of_searches(rt: HostRuntime) {
    check_rows(&rt, facts::SOUGHT_ROWS);
}

#[test]
fn runs_rows_of_sums(rt: HostRuntime) {
    check_rows(&rt, sum::ROWS);
    check_rows(&rt, sum::LOOP_ROWS);
}

#[test]
fn runs_rows_of_sources(rt: HostRuntime) {
    check_rows(&rt, left_alone::ROWS);
    check_rows(&rt, left_alone::DEFINITION_ROWS);
    check_rows(&rt, left_alone::SWITCH_ROWS);
    check_rows(&rt, left_alone::LISTED_ROWS);
}

#[test]
fn runs_rows_of_findings(rt: HostRuntime) {
    check_rows(&rt, lint::ROWS);
    check_rows(&rt, lint::FORM_ROWS);
    check_rows(&rt, guard::ROWS);
}

#[test]
fn runs_rows_of_pairs(rt: HostRuntime) {
    check_rows(&rt, compare::ROWS);
    check_rows(&rt, compare::TEXT_ROWS);
    check_rows(&rt, compare::SOURCE_ROWS);
}

#[test]
fn runs_rows_of_control_characters(rt: HostRuntime) {
    check_rows(&rt, controls::ROWS);
}

#[test]
fn runs_rows_of_remarks(rt: HostRuntime) {
    check_rows(&rt, remarks::ROWS);
    check_rows(&rt, remarks::PAIR_ROWS);
}

#[test]
fn runs_rows_of_documents(rt: HostRuntime) {
    check_rows(&rt, suppositions::ROWS);
    check_rows(&rt, suppositions::REFUSED_ROWS);
}

#[test]
fn runs_unseen_rows(rt: HostRuntime) {
    check_rows(&rt, unseen::ROWS);
}

/// The profile is refused before anything is read, so also if the input is refused.
#[test]
fn refuses_bad_profiles(rt: HostRuntime) {
    for &(text, stated) in profile::BAD {
        for command in [
            "time", "chart", "why", "page", "order", "prove", "sum", "json",
        ] {
            let words = ["s66", command, "--profile", text];
            for input in [ONE_LOAD, "  SA1 *+2\n"] {
                check(&rt, text, &words, input.as_bytes(), 3, stated);
            }
        }
    }
}

#[test]
fn orders_rows(rt: HostRuntime) {
    for &(name, input, begins, ends, time) in ORDERED {
        let ran = run(&rt, ORDER, input.as_bytes());
        let written = ran.written.as_slice();
        let told = told_of(name, ORDER).as_bytes();
        assert!(rt; ran.status == 0 && ran.stated.as_slice() == told, "{name}");
        assert!(rt;
            written.starts_with(begins.as_bytes()) && written.ends_with(ends.as_bytes()),
            "{name}: {written:?}"
        );
        check(&rt, name, TIME, written, 0, time);
    }
}

fn check_pages<R: AllocGlobal + Abort + Threads + Wait + Sync>(rt: &R, rows: &[Row]) {
    for &(name, words, input, status, ends) in rows {
        let ran = run(rt, words, input.as_bytes());
        let written = ran.written.as_slice();
        let told = told_of(name, words).as_bytes();
        assert!(rt;
            ran.status == status && ran.stated.as_slice() == told,
            "{name}"
        );
        assert!(rt;
            written.starts_with(b"<!DOCTYPE html>\n") && written.ends_with(ends.as_bytes()),
            "{name}: {written:?}"
        );
    }
}

#[test]
fn shows_pages(rt: HostRuntime) {
    check_pages(&rt, page::ENDS);
    check_pages(&rt, page::BLOCK_ENDS);
}

#[test]
fn shows_pages_of_any_characters(rt: HostRuntime) {
    check_pages(&rt, page::ESCAPED_ENDS);
}

#[test]
fn shows_pages_of_pairs(rt: HostRuntime) {
    check_pages(&rt, page::PAIR_ENDS);
}

/// What stands before the list of blocks is the same in each page but for the title. On paper it hides the box that only a screen can
/// use, and nothing else anywhere.
#[test]
fn hides_no_rows(rt: HostRuntime) {
    let ran = run(&rt, PAGE, b"");
    let page = String::from_utf8(ran.written).expect(&rt, "a text");
    let page = altered(&rt, page.as_str(), "#fit,#fit+label{display:none}", "");
    for &word in page::RESTLESS {
        assert!(rt; !page.as_str().contains(word), "{word}");
    }
}

#[test]
fn runs_repeated_rows(rt: HostRuntime) {
    for &(name, words, piece, times, status, text) in REPEATED {
        let input = piece.repeat(rt.alloc(), times).expect(&rt, "memory");
        let told = told_of(name, words);
        check_told(&rt, name, words, input.as_bytes(), status, text, told);
    }
}

/// Each instruction waits for the one before it, so the source order is the only one.
#[test]
fn orders_long_chains(rt: HostRuntime) {
    for &(count, time) in CHAINS {
        let lines = "          BX0 X0\n"
            .repeat(rt.alloc(), count)
            .expect(&rt, "memory");
        let text = format!(in rt.alloc();
            "* BLOCK 1 COUNT {count} SOURCE {time} TIME {time} BEST\n* SPLITS 0\n{lines}"
        ).expect(&rt, "memory");
        check(
            &rt,
            "long chain",
            ORDER_TRACE,
            lines.as_bytes(),
            0,
            text.as_str(),
        );
    }
}
