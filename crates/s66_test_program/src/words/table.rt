//! The tables of words, each with the command that they ask for: a plain one with fields changed.

use crate::commands::{PLAIN, STYLE, TRACED};
use s66_model::{Options, Rule};
use s66_program::{Asked, Command, OrderStyle, Strategy, SumStyle};

/// How a search goes that no option changes.
const SEARCH: Options = Options {
    workers: 4,
    nodes: 100_000,
    rule: Rule::NoneNamed,
};

/// One by `--dominate`.
const DOMINATE: Options = Options {
    workers: 4,
    nodes: 100_000,
    rule: Rule::WrittenEarlier,
};

/// One by `--dominate-tree`.
const DOMINATE_TREE: Options = Options {
    workers: 4,
    nodes: 100_000,
    rule: Rule::ClampedStanding,
};

/// How the best order of a block is looked for if no option changes that.
const STRATEGY: Strategy = Strategy {
    search: SEARCH,
    deep: false,
};

/// How it is looked for by `--deep`, which also leaves out what is dominated.
const DEEP: Strategy = Strategy {
    search: DOMINATE_TREE,
    deep: true,
};

/// What `sum` prints beside times if no flag is given.
const SUM_STYLE: SumStyle = SumStyle {
    trace: false,
    words: false,
};

/// Words of `time`, `deps` and `chart`, and the command that they ask for.
#[rattlefmt::skip]
pub(crate) const LISTINGS: [(&[&str], Command<'static>); 14] = [
    (&["s66", "time"], Command { asked: Asked::Time { trace: false }, ..PLAIN }),
    (&["s66", "time", "--trace"], Command { asked: Asked::Time { trace: true }, ..PLAIN }),
    (&["s66", "time", "--profile", "{\"boolean\":5}"],
        Command { profile: Some("{\"boolean\":5}"), asked: Asked::Time { trace: false }, ..PLAIN }),
    (&["s66", "deps"], PLAIN),
    (&["s66", "deps", "--text"], Command { asked: Asked::Deps { text: true }, ..PLAIN }),
    (&["s66", "chart", "--units"], Command { asked: Asked::Chart { text: false, units: true }, ..PLAIN }),
    (&["s66", "deps", "--cut"], Command { cut: true, ..PLAIN }),
    (&["s66", "time", "--cut"], Command { cut: true, asked: Asked::Time { trace: false }, ..PLAIN }),
    (&["s66", "chart", "--profile={}", "--cut"],
        Command { cut: true, profile: Some("{}"), asked: Asked::Chart { text: false, units: false }, ..PLAIN }),
    (&["s66", "time", "--block", "20000"],
        Command { block: Some(20_000), asked: Asked::Time { trace: false }, ..PLAIN }),
    (&["s66", "deps", "--block=+7", "--cut"], Command { cut: true, block: Some(7), ..PLAIN }),
    (&["s66", "chart", "--block", "1", "--text"],
        Command { block: Some(1), asked: Asked::Chart { text: true, units: false }, ..PLAIN }),
    (&["s66", "chart"], Command { asked: Asked::Chart { text: false, units: false }, ..PLAIN }),
    (&["s66", "chart", "--profile="], Command { profile: Some(""), asked: Asked::Chart { text: false, units: false }, ..PLAIN }),
];

/// Words of `why`, `json` and `page`, and the command that they ask for.
#[rattlefmt::skip]
pub(crate) const VIEWS: [(&[&str], Command<'static>); 10] = [
    (&["s66", "why", "--cut", "--profile={}"],
        Command { cut: true, profile: Some("{}"), asked: Asked::Why { order: None, text: false }, ..PLAIN }),
    (&["s66", "why", "--nodes", "9"], Command { asked: Asked::Why { order: None, text: false }, ..PLAIN }),
    (&["s66", "json", "--cut", "--profile={}"],
        Command { cut: true, profile: Some("{}"), asked: Asked::Json { order: None }, ..PLAIN }),
    (&["s66", "why", "--text", "--block", "2"],
        Command { block: Some(2), asked: Asked::Why { order: None, text: true }, ..PLAIN }),
    (&["s66", "why", "--nodes", "9", "--order", "--block=2", "--dominate"],
        Command { block: Some(2), asked: Asked::Why { text: false,
            order: Some(Strategy { search: Options { workers: 4, nodes: 9, rule: Rule::WrittenEarlier }, ..STRATEGY }) }, ..PLAIN }),
    (&["s66", "json", "--order", "--deep", "--block=2"],
        Command { block: Some(2), asked: Asked::Json { order: Some(DEEP) }, ..PLAIN }),
    (&["s66", "page", "--block", "3"], Command { block: Some(3), asked: Asked::Page { strategy: STRATEGY }, ..PLAIN }),
    (&["s66", "page", "--compare"], Command { asked: Asked::Pairs, ..PLAIN }),
    (&["s66", "page", "--compare", "--cut", "--profile={}"], Command { cut: true, profile: Some("{}"), asked: Asked::Pairs, ..PLAIN }),
    (&["s66", "page", "--cut", "--nodes=7", "--dominate-tree"],
        Command { cut: true, asked: Asked::Page {
            strategy: Strategy { search: Options { workers: 4, nodes: 7, rule: Rule::ClampedStanding }, ..STRATEGY } }, ..PLAIN }),
];

/// Words of `lint`, `guard`, `compare` and `check`, and the command that they ask for.
#[rattlefmt::skip]
pub(crate) const CHECKS: [(&[&str], Command<'static>); 10] = [
    (&["s66", "lint"], Command { asked: Asked::Lint, ..PLAIN }),
    (&["s66", "lint", "--cut"], Command { cut: true, asked: Asked::Lint, ..PLAIN }),
    (&["s66", "guard"], Command { asked: Asked::Guard, ..PLAIN }),
    (&["s66", "compare"], Command { asked: Asked::Compare { text: false }, ..PLAIN }),
    (&["s66", "compare", "--strict"], Command { strict: true, asked: Asked::Compare { text: false }, ..PLAIN }),
    (&["s66", "compare", "--text"], Command { asked: Asked::Compare { text: true }, ..PLAIN }),
    (&["s66", "compare", "--profile", "{}", "--cut"],
        Command { cut: true, profile: Some("{}"), asked: Asked::Compare { text: false }, ..PLAIN }),
    (&["s66", "check"], Command { asked: Asked::Check { text: false }, ..PLAIN }),
    (&["s66", "check", "--text"], Command { asked: Asked::Check { text: true }, ..PLAIN }),
    (&["s66", "check", "--some"], Command { some: true, asked: Asked::Check { text: false }, ..PLAIN }),
];

/// Words of `order`, and the command that they ask for.
#[rattlefmt::skip]
pub(crate) const ORDERS: [(&[&str], Command<'static>); 11] = [
    (&["s66", "order", "--trace", "--cut"],
        Command { cut: true, asked: Asked::Order { strategy: STRATEGY, style: TRACED }, ..PLAIN }),
    (&["s66", "order", "--keep", "--block", "2"],
        Command { block: Some(2), asked: Asked::Order { style: OrderStyle { keep: true, ..STYLE },
            strategy: STRATEGY }, ..PLAIN }),
    (&["s66", "order", "--quiet"],
        Command { asked: Asked::Order { strategy: STRATEGY, style: OrderStyle { quiet: true, ..STYLE } }, ..PLAIN }),
    (&["s66", "order", "--trace", "--profile=--trace"],
        Command { profile: Some("--trace"), asked: Asked::Order { strategy: STRATEGY, style: TRACED }, ..PLAIN }),
    (&["s66", "order"], Command { asked: Asked::Order { strategy: STRATEGY, style: STYLE }, ..PLAIN }),
    (&["s66", "order", "--trace"], Command { asked: Asked::Order { strategy: STRATEGY, style: TRACED }, ..PLAIN }),
    (&["s66", "order", "--workers", "1", "--nodes", "0"],
        Command { asked: Asked::Order { style: STYLE,
            strategy: Strategy { search: Options { workers: 1, nodes: 0, rule: Rule::NoneNamed }, ..STRATEGY } }, ..PLAIN }),
    (&["s66", "order", "--nodes=1000000", "--workers=16", "--trace"],
        Command { asked: Asked::Order { style: TRACED, strategy: Strategy {
            search: Options { workers: 16, nodes: 1_000_000, rule: Rule::NoneNamed }, ..STRATEGY } }, ..PLAIN }),
    (&["s66", "order", "--dominate"],
        Command { asked: Asked::Order { strategy: Strategy { search: DOMINATE, ..STRATEGY }, style: STYLE }, ..PLAIN }),
    (&["s66", "order", "--trace", "--dominate-tree", "--nodes", "8"],
        Command { asked: Asked::Order { style: TRACED,
            strategy: Strategy { search: Options { workers: 4, nodes: 8, rule: Rule::ClampedStanding }, ..STRATEGY } }, ..PLAIN }),
    (&["s66", "order", "--columns", "--keep"],
        Command { asked: Asked::Order { style: OrderStyle { keep: true, columns: true, ..STYLE },
            strategy: STRATEGY }, ..PLAIN }),
];

/// Words of `prove`, and the command that they ask for.
#[rattlefmt::skip]
pub(crate) const PROOFS: [(&[&str], Command<'static>); 5] = [
    (&["s66", "prove", "--cut", "--profile=--cut"],
        Command { cut: true, profile: Some("--cut"), asked: Asked::Prove { strategy: STRATEGY }, ..PLAIN }),
    (&["s66", "prove", "--block", "20000"],
        Command { block: Some(20_000), asked: Asked::Prove { strategy: STRATEGY }, ..PLAIN }),
    (&["s66", "prove", "--profile", "no profile", "--nodes", "7"],
        Command { profile: Some("no profile"), asked: Asked::Prove {
            strategy: Strategy { search: Options { workers: 4, nodes: 7, rule: Rule::NoneNamed }, ..STRATEGY } }, ..PLAIN }),
    (&["s66", "prove", "--dominate", "--profile=--dominate-tree"],
        Command { profile: Some("--dominate-tree"), asked: Asked::Prove {
            strategy: Strategy { search: DOMINATE, ..STRATEGY } }, ..PLAIN }),
    (&["s66", "prove", "--dominate-tree"],
        Command { asked: Asked::Prove { strategy: Strategy { search: DOMINATE_TREE, ..STRATEGY } }, ..PLAIN }),
];

/// Words of `sum`, and the command that they ask for.
#[rattlefmt::skip]
pub(crate) const SUMS: [(&[&str], Command<'static>); 7] = [
    (&["s66", "sum", "--deep", "--nodes", "9"],
        Command { asked: Asked::Sum { style: SUM_STYLE,
            strategy: Strategy { search: Options { workers: 4, nodes: 9, rule: Rule::ClampedStanding }, deep: true } }, ..PLAIN }),
    (&["s66", "sum", "--cut", "--workers=2"],
        Command { cut: true, asked: Asked::Sum { style: SUM_STYLE,
            strategy: Strategy { search: Options { workers: 2, nodes: 100_000, rule: Rule::NoneNamed }, ..STRATEGY } }, ..PLAIN }),
    (&["s66", "sum", "--block=3", "--deep"],
        Command { block: Some(3), asked: Asked::Sum { strategy: DEEP, style: SUM_STYLE }, ..PLAIN }),
    (&["s66", "sum", "--workers", "16", "--profile", "{}"],
        Command { profile: Some("{}"), asked: Asked::Sum { style: SUM_STYLE,
            strategy: Strategy { search: Options { workers: 16, nodes: 100_000, rule: Rule::NoneNamed }, ..STRATEGY } }, ..PLAIN }),
    (&["s66", "sum", "--dominate-tree", "--trace", "--nodes=0"],
        Command { asked: Asked::Sum { style: SumStyle { trace: true, ..SUM_STYLE },
            strategy: Strategy { search: Options { workers: 4, nodes: 0, rule: Rule::ClampedStanding }, ..STRATEGY } }, ..PLAIN }),
    (&["s66", "sum", "--dominate"],
        Command { asked: Asked::Sum { style: SUM_STYLE,
            strategy: Strategy { search: DOMINATE, ..STRATEGY } }, ..PLAIN }),
    (&["s66", "sum", "--words", "--deep"],
        Command { asked: Asked::Sum { strategy: DEEP, style: SumStyle { words: true, ..SUM_STYLE } }, ..PLAIN }),
];
