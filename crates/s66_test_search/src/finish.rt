//! Tests of how a ledger is brought to its end that no worker has touched.

use crate::blocks::{SEVEN_ALIKE, THREE_ALIKE};
use crate::ledger::check_finished;
use crate::reading::{block_of, source_of};
use s66_isa::Profile;
use s66_ledger::Ledger;
use s66_line::Block;
use s66_model::Rule;
use s66_node::Walk;
use std::process::Abort;

/// More splits than any of the searches takes.
const BUDGET: u32 = 10_000;

/// A block's code, the rule, and the time and the splits that the search takes. Every beginning that lacks some has a floor below
/// the time. So without dominated leaves there is a split for each of them. With them there is one for each set of such a
/// beginning's numbers, since the first that is known of a set dominates all others: 7 of three, 127 of seven. If only earlier
/// ones of the same piece are named, all are in one piece.
const SEARCHES: &[(&str, Rule, u32, u32)] = &[
    (THREE_ALIKE, Rule::NoneNamed, 8, 10),
    (THREE_ALIKE, Rule::WrittenEarlier, 8, 7),
    (THREE_ALIKE, Rule::ClampedStanding, 8, 7),
    (SEVEN_ALIKE, Rule::NoneNamed, 16, 8_660),
    (SEVEN_ALIKE, Rule::ClampedStanding, 16, 127),
];

/// Checks how a ledger that no worker has touched is brought to its end.
fn check_finish<R: AllocGlobal + Abort>(rt: &R, block: &Block, rule: Rule, time: u32, splits: u32) {
    let profile = Profile::standard();
    let ledger = Ledger::new(rt.alloc(), &Walk::new(block, &profile), rule, BUDGET, 1);
    check_finished(rt, ledger.expect(rt, "memory"), (time, time, splits));
}

#[test]
fn finish_leaves_out_what_is_dominated(rt: HostRuntime) {
    for &(code, rule, time, splits) in SEARCHES {
        let source = source_of(&rt, code);
        check_finish(&rt, block_of(&rt, &source), rule, time, splits);
    }
}
