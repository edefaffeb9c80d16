//! Tests that `order` and `prove` give the same by any number of workers.

ghost use Rattle.std.specs.Prelude.{◌≤◌};
ghost use Rattle.s66_model.specs.{WORKERS_LIMIT};

use crate::commands::{PLAIN_CHECK, check_output, order_by, prove_by, run};
use crate::documents::THREE_MULTIPLIES;
use s66_model::Rule;
use s66_program::Status;
use s66_test_search::MULTIPLIES;
use std::process::Abort;
use std::sync::Wait;
use std::thread::Threads;

/// What `order` prints of three multiplies.
const BEST_ORDER: &str =
    "* BLOCK 1 COUNT 3 SOURCE 22 TIME 22 BEST\n* SPLITS 10\n          FX1 X2*X3\n          FX4 X5*X6\n          FX0 X7*X7\n";

/// What it prints if one split is wanting.
const BOUNDED_ORDER: &str =
    "* BLOCK 1 COUNT 3 SOURCE 22 TIME 22 AT LEAST 17\n* SPLITS 9\n          FX1 X2*X3\n          FX4 X5*X6\n          FX0 X7*X7\n";

/// Checks what `order` prints of three multiplies, with splits enough and with one wanting.
fn check_order<R: AllocGlobal + Abort + Threads + Wait + Sync>(rt: &R, workers: u8)
    requires { (1 ≤ workers) × (workers ≤ WORKERS_LIMIT) }
{
    let order = order_by(workers, 10, Rule::NoneNamed);
    check_output(rt, order, MULTIPLIES, Status::Done, BEST_ORDER);
    let order = order_by(workers, 9, Rule::NoneNamed);
    check_output(
        rt,
        order,
        MULTIPLIES,
        Status::Bounded { blocks: 1, of: 1 },
        BOUNDED_ORDER,
    );
}

/// Checks what `prove` prints. If one split is missing, the workers' steps decide which node stays a leaf, but not what `check`
/// says.
fn check_proof<R: AllocGlobal + Abort + Threads + Wait + Sync>(rt: &R, workers: u8)
    requires { (1 ≤ workers) × (workers ≤ WORKERS_LIMIT) }
{
    let prove = prove_by(workers, 10, Rule::NoneNamed);
    check_output(rt, prove, MULTIPLIES, Status::Done, THREE_MULTIPLIES);
    let prove = prove_by(workers, 9, Rule::NoneNamed);
    let (result, document) = run(rt, prove, MULTIPLIES.as_bytes());
    assert_eq!(rt; result, Ok(Status::Bounded { blocks: 1, of: 1 }));
    let (result, verdict) = run(rt, PLAIN_CHECK, document.as_slice());
    assert_eq!(rt; result, Ok(Status::Done));
    let yes = b"DOCUMENT 1 YES TIME 22 BOUND 17\n";
    assert_eq!(rt; verdict.as_slice(), yes.as_slice());
}

#[test]
fn workers_print_the_same(rt: HostRuntime) {
    check_order(&rt, 1);
    check_order(&rt, 2);
    check_order(&rt, 16);
    check_proof(&rt, 1);
    check_proof(&rt, 2);
    check_proof(&rt, 16);
}
