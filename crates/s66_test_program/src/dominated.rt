//! Tests of dominated leaves: what `check` says of altered names, and what `order` leaves out.

ghost use Rattle.std.specs.Prelude.{◌≤◌};
ghost use Rattle.s66_model.specs.{WORKERS_LIMIT};

use crate::commands::{PLAIN_CHECK, check_output, order_by, prove_by};
use crate::documents::{ONE_DOMINATED, THREE_DOMINATED, THREE_MULTIPLIES};
use crate::verdicts::{Denial, altered, check_denied, check_refused};
use s66_cert::CertError;
use s66_model::Rule;
use s66_program::Status;
use s66_test_search::THREE_ALIKE;
use std::process::Abort;
use std::sync::Wait;
use std::thread::Threads;

/// Alterations of a document with one dominated leaf, in both versions.
const ALTERED_LEAVES: &[Denial] = &[
    // the prefix itself
    ("D 1 2 3", "D 1 3 2", 18, 9),
    // a node over another set
    ("D 1 2 3", "D 1 2 4", 18, 9),
    // a beginning that is no node of the tree
    ("D 1 2 3", "D 2 1 3", 18, 9),
    // a complete order isn't dominated
    ("S 4\nT\n", "S 4\nD 1 2 3 4\n", 15, 6),
    // a node that doesn't dominate
    ("S 2\nT\nC 3\n", "S 2\nT\nS 2 3\nD 1 2 4\nC 2\n", 22, 10),
];

#[test]
fn checks_dominated_leaves(rt: HostRuntime) {
    let yes = "DOCUMENT 1 YES TIME 33 BOUND 33\n";
    check_output(&rt, PLAIN_CHECK, ONE_DOMINATED, Status::Done, yes);
    check_denied(&rt, ONE_DOMINATED, ALTERED_LEAVES);
    let third = altered(&rt, ONE_DOMINATED, "CERTIFICATE 2", "CERTIFICATE 3");
    check_output(&rt, PLAIN_CHECK, third.as_str(), Status::Done, yes);
    check_denied(&rt, third.as_str(), ALTERED_LEAVES);
}

/// Alterations of the document of three that don't differ.
const ALTERED_NAMES: &[Denial] = &[
    // two leaves that name each other
    ("S 3\nT\n", "D 2 1\n", 12, 9),
    // a leaf that is itself dominated
    ("D 2 3", "D 3 1", 22, 9),
    // other numbers
    ("D 1 3", "D 1 2", 21, 9),
    // fewer numbers
    ("D 1 3", "D 1", 21, 9),
];

/// A leaf may name a node after it in version 3 alone.
#[test]
fn checks_which_nodes_are_named(rt: HostRuntime) {
    let yes = "DOCUMENT 1 YES TIME 8 BOUND 8\n";
    check_output(&rt, PLAIN_CHECK, THREE_DOMINATED, Status::Done, yes);
    check_denied(&rt, THREE_DOMINATED, ALTERED_NAMES);
    let second = altered(&rt, THREE_DOMINATED, "CERTIFICATE 3", "CERTIFICATE 2");
    check_output(&rt, PLAIN_CHECK, second.as_str(), Status::Done, yes);
    let split = altered(&rt, THREE_DOMINATED, "D 1 2\n", "S 3\nT\n");
    let later = altered(&rt, split.as_str(), "S 3\nT\n", "D 2 1\n");
    check_output(&rt, PLAIN_CHECK, later.as_str(), Status::Done, yes);
    check_denied(
        &rt,
        later.as_str(),
        &[("CERTIFICATE 3", "CERTIFICATE 2", 12, 9)],
    );
}

/// Dominated leaves are in versions 2 and 3 alone, and each of these has one.
#[test]
fn refuses_other_versions(rt: HostRuntime) {
    let first = altered(&rt, ONE_DOMINATED, "CERTIFICATE 2", "CERTIFICATE 1");
    check_refused(&rt, first.as_str(), CertError::BadLine { line: 18 });
    for version in ["CERTIFICATE 2", "CERTIFICATE 3"] {
        let none = altered(&rt, THREE_MULTIPLIES, "CERTIFICATE 1", version);
        check_refused(&rt, none.as_str(), CertError::BadLine { line: 26 });
    }
}

/// What `order` prints of three that don't differ if it leaves out what is dominated: without that it takes 10 splits.
const SEVEN_SPLITS: &str =
    "* BLOCK 1 COUNT 3 SOURCE 8 TIME 8 BEST\n* SPLITS 7\n          SB0 B1\n          SB0 B1\n          SB0 B1\n";

/// Checks that dominated beginnings aren't split, and are leaves of the certificate.
fn check_left_out<R: AllocGlobal + Abort + Threads + Wait + Sync>(
    rt: &R,
    workers: u8,
    rule: Rule,
    document: &str,
)
    requires { (1 ≤ workers) × (workers ≤ WORKERS_LIMIT) }
{
    let order = order_by(workers, 100, rule);
    check_output(rt, order, THREE_ALIKE, Status::Done, SEVEN_SPLITS);
    let prove = prove_by(workers, 100, rule);
    check_output(rt, prove, THREE_ALIKE, Status::Done, document);
}

#[test]
fn leaves_out_what_is_dominated(rt: HostRuntime) {
    let second = altered(&rt, THREE_DOMINATED, "CERTIFICATE 3", "CERTIFICATE 2");
    check_left_out(&rt, 1, Rule::WrittenEarlier, second.as_str());
    check_left_out(&rt, 16, Rule::WrittenEarlier, second.as_str());
    // 2 3 and 3 2 dominate one another; where any node may be named, the later one is split
    let standing = altered(
        &rt,
        THREE_DOMINATED,
        "S 1\nT\nS 1 2\nD 1 3\nD 2 3\n",
        "D 3 2\nS 1 2\nD 1 3\nS 1\nT\n",
    );
    check_left_out(&rt, 1, Rule::ClampedStanding, standing.as_str());
    check_left_out(&rt, 16, Rule::ClampedStanding, standing.as_str());
}
