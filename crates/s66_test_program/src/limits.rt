//! Tests of the longest sources, and of the memory that they take.

use crate::running::{CHART, CHECK, DEPS, LINT, TIME, TRACE, check, check_sum, run};
use s66_source::SOURCE_LINES_LIMIT;
use std::process::Abort;

const ORDER_FEW: &[&str] = &["s66", "order", "--workers", "1", "--nodes", "1"];

const PROVE_FEW: &[&str] = &["s66", "prove", "--workers", "1", "--nodes", "1"];

/// 20,000 instructions in blocks of 128: 156 of 128, and one of 32.
const BLOCKS: usize = 157;

const CODE: [&str; 8] = [
    "SA1 A1+B1 ",
    "BX6 X1*X2 ",
    "FX3 X1+X6 ",
    "SA6 A6+B1 ",
    "LX1 12 ",
    "SB2 100 ",
    "IX7 X7+X3 ",
    "NX0 B2,X0 ",
];

/// The most lines, each of the most bytes; each that begins a block of 128 has a label.
fn longest_source<R: AllocGlobal + Abort>(rt: &R) -> String {
    let mut source = String::new(rt.alloc());
    for i in 0..SOURCE_LINES_LIMIT as usize {
        let code = CODE[i % 8];
        let written = if i % 128 == 0 {
            writeln!(source, "LABEL{i:05} {code:R<189}")
        } else {
            writeln!(source, "           {code:R<189}")
        };
        written.expect(rt, "memory");
    }
    source
}

/// The most lines, each with a label.
fn labelled_source<R: AllocGlobal + Abort>(rt: &R) -> String {
    let mut source = String::new(rt.alloc());
    for i in 0..SOURCE_LINES_LIMIT as usize {
        let code = CODE[i % 8];
        writeln!(source, "LABEL{i:05} {code}").expect(rt, "memory");
    }
    source
}

#[test]
fn keeps_memory(rt: HostRuntime) {
    let longest = longest_source(&rt);
    assert!(rt; longest.len() == 4_020_000);
    let longest = longest.as_bytes();
    check_sum(
        &rt,
        "longest source, trace",
        TRACE,
        longest,
        1_040_355,
        2_191_233_989,
    );
    check_sum(
        &rt,
        "longest source, deps",
        DEPS,
        longest,
        1_781_212,
        2_081_357_281,
    );
    check_sum(
        &rt,
        "longest source, chart",
        CHART,
        longest,
        4_861_722,
        531_766_293,
    );
    let most = labelled_source(&rt);
    let most = most.as_bytes();
    check_sum(
        &rt,
        "most blocks, time",
        TIME,
        most,
        1_037_788,
        1_390_320_940,
    );
    check_sum(
        &rt,
        "most blocks, chart",
        CHART,
        most,
        772_788,
        4_078_082_067,
    );
}

/// The line behind the last that a source may have is too long: both is listed.
#[test]
fn lists_a_long_line_behind_the_last(rt: HostRuntime) {
    let lines = SOURCE_LINES_LIMIT as usize;
    let mut source = "*\n".repeat(rt.alloc(), lines).expect(&rt, "memory");
    writeln!(source, "{:*<201}", "").expect(&rt, "memory");
    check(
        &rt,
        "a long line behind the last",
        LINT,
        source.as_bytes(),
        5,
        "LINE 20001 TOO LONG\nTOO MANY LINES\n",
    );
}

/// How many lines there are, and how many of them have this word.
fn count_lines(text: &str, word: &str) -> (usize, usize) {
    let mut lines = 0usize;
    let mut with_word = 0usize;
    for line in text.lines() {
        lines = lines.saturating_add(1);
        if line.contains(word) {
            with_word = with_word.saturating_add(1);
        }
    }
    (lines, with_word)
}

/// The longest source is printed with a line for each block more, and each of its blocks has a certificate that is checked.
#[test]
fn searches_longest_source(rt: HostRuntime) {
    let longest = longest_source(&rt);
    let longest = longest.as_bytes();
    let ordered = run(&rt, ORDER_FEW, longest);
    let ordered = String::from_utf8(ordered.written).expect(&rt, "a text");
    let lines = SOURCE_LINES_LIMIT as usize + BLOCKS;
    assert_eq!(&rt; count_lines(ordered.as_str(), "* BLOCK "), (lines, BLOCKS));
    let proved = run(&rt, PROVE_FEW, longest);
    let checked = run(&rt, CHECK, proved.written.as_slice());
    assert_eq!(&rt; checked.status, 0);
    let checked = String::from_utf8(checked.written).expect(&rt, "a text");
    assert_eq!(&rt; count_lines(checked.as_str(), " YES "), (BLOCKS, BLOCKS));
}
