//! Tests of whole searches by several workers: what they find, and that they share the work.

ghost use Rattle.std.specs.Prelude.{◌≤◌};
ghost use Rattle.s66_model.specs.{BUDGET_LIMIT, WORKERS_LIMIT};

use crate::blocks::{MULTIPLIES, SEVEN_ALIKE, SEVEN_MULTIPLIES};
use crate::gates::{Meeting, Watch};
use crate::ledger::finished;
use crate::reading::{block_of, source_of};
use s66_isa::Profile;
use s66_ledger::Ledger;
use s66_line::Block;
use s66_model::{BUDGET_LIMIT, Options, Rule, WORKERS_LIMIT};
use s66_node::{MarkTable, Walk};
use s66_pool::{FIRST_SPLITS, Free, Gate, Hub, Seat, run, work};
use std::process::Abort;
use std::sync::Wait;
use std::thread::Threads;
use std::time::Clock;

/// Every order takes 33, and every beginning that lacks some has a floor of 28, so that the whole tree is searched.
const FIVE_MULTIPLIES: &str = "  FX0 X7*X7\n  FX1 X7*X7\n  FX2 X7*X7\n  FX3 X7*X7\n  FX4 X7*X7\n";

/// How many splits its whole tree has.
const ALL_SPLITS: u32 = 206;

/// Every order takes 28, and 8,191 sets lack some of the numbers.
const THIRTEEN_ALIKE: &str =
    "  SB0 B1\n  SB0 B1\n  SB0 B1\n  SB0 B1\n  SB0 B1\n  SB0 B1\n  SB0 B1\n  SB0 B1\n  SB0 B1\n  SB0 B1\n  SB0 B1\n  SB0 B1\n  SB0 B1\n";

/// The best order takes 30, the source order 32. Workers that don't read the hint before each split take 138 splits.
const UNPACK: &str =
    "  SA1 B4\n  MX0 54\n  LX1 6\n  BX6 -X0*X1\n  SA6 B5\n  LX1 6\n  BX6 -X0*X1\n  SA6 A6+B1\n  LX1 6\n  BX6 -X0*X1\n  SA6 A6+B1\n  LX1 6\n  BX6 -X0*X1\n  SA6 A6+B1\n";

/// The best order takes 20, the source order 29. Workers that don't lower the hint by the orders that they find take 4,020 splits.
const FOUR_LOADS: &str =
    "  SA1 A1+B1\n  BX6 X1\n  SA2 A2+B1\n  BX7 X2\n  SA3 A3+B1\n  BX0 X3\n  SA4 A4+B1\n  LX4 X4,B2\n";

/// How many splits all seats have spent, and how many the one that has spent the fewest.
fn splits_of(seats: &[Seat]) -> (u32, u32) {
    let mut sum = 0u32;
    let mut fewest = u32::MAX;
    for seat in seats {
        sum = sum.saturating_add(seat.splits());
        fewest = fewest.min(seat.splits());
    }
    (sum, fewest)
}

/// What workers leave of a search, and what comes of it.
#[derive(Drop)]
struct Left {
    /// How many splits all of them have spent.
    splits: u32,
    /// How many the one has spent that has spent the fewest.
    fewest: u32,
    /// What every order takes at least.
    bound: u32,
    /// The time, the bound and the splits of the search once it is finished.
    finished: (u32, u32, u32),
}

/// Lets workers search a block from the first split on, as long as they find something to do, and finishes what they leave.
fn left_by<R: AllocGlobal + Abort + Threads + Wait + Sync, G: Gate + Sync>(
    rt: &R,
    block: &Block,
    options: Options,
    gate: &G,
) -> Left {
    let alloc = rt.alloc();
    let profile = Profile::standard();
    let Options {
        workers,
        nodes,
        rule,
    } = options;
    let ledger = Ledger::new(alloc, &Walk::new(block, &profile), rule, nodes, workers).expect(
        rt, "memory",
    );
    let (hub, mut seats) = Hub::new(alloc, ledger).expect(rt, "memory");
    let mut none = MarkTable::new(alloc, block, &profile);
    assert!(rt; work(rt, &hub, &mut seats, block, &profile, rule, gate, &mut none).is_ok());
    let (splits, fewest) = splits_of(seats.as_slice());
    let Ok(ledger) = hub.close(seats) else {
        panic!(rt; "all seats are there")
    };
    assert!(rt; ledger.splits() == splits);
    Left {
        splits,
        fewest,
        bound: ledger.bound(),
        finished: finished(rt, ledger),
    }
}

/// What workers leave of a search of some code by a rule.
fn left_of<R: AllocGlobal + Abort + Threads + Wait + Sync, G: Gate + Sync>(
    rt: &R,
    code: &str,
    rule: Rule,
    workers: u8,
    nodes: u32,
    gate: &G,
) -> Left
    requires workers { (1 ≤ workers) × (workers ≤ WORKERS_LIMIT) }
    requires nodes { nodes ≤ BUDGET_LIMIT }
{
    let source = source_of(rt, code);
    let options = Options {
        workers,
        nodes,
        rule,
    };
    left_by(rt, block_of(rt, &source), options, gate)
}

/// Checks that two workers meet that search three multiplies, each order of which takes 22, and whose whole tree has 10 splits.
fn check_meeting<R: AllocGlobal + Abort + Clock + Threads + Wait + Sync>(rt: &R, meeting: Meeting) {
    let gate = Watch::new(rt, meeting);
    let left = left_of(rt, MULTIPLIES, Rule::NoneNamed, 2, BUDGET_LIMIT, &gate);
    assert!(rt; left.finished == (22, 22, 10));
    gate.check_met(rt);
}

#[test]
fn one_graft_waits(rt: HostRuntime) {
    check_meeting(&rt, Meeting::OneGraft { held: 1 });
    check_meeting(&rt, Meeting::OneGraft { held: 2 });
}

#[test]
fn two_claims_meet(rt: HostRuntime) {
    check_meeting(&rt, Meeting::Claims);
}

/// Each worker claims at least once, even if another has spent all splits, and reports its own number to the gate.
#[test]
fn each_worker_claims(rt: HostRuntime) {
    for workers in [2, 3] {
        let gate = Watch::new(&rt, Meeting::Free);
        let left = left_of(&rt, MULTIPLIES, Rule::NoneNamed, workers, 10, &gate);
        assert!(rt; left.finished == (22, 22, 10));
        assert!(rt; gate.claimants() == [true, true, workers == 3]);
    }
}

/// The code of a block, a rule, and how many workers search; how many splits they spend and what every order takes at least. By five
/// multiplies they leave nothing to be done. A worker names the nodes of its earlier pieces, so that it splits no set of those alike
/// twice.
const SEARCHES: &[(&str, Rule, u8, u32, u32)] = &[
    (FIVE_MULTIPLIES, Rule::NoneNamed, 1, ALL_SPLITS, 33),
    (FIVE_MULTIPLIES, Rule::NoneNamed, 2, ALL_SPLITS, 33),
    (FIVE_MULTIPLIES, Rule::NoneNamed, 16, ALL_SPLITS, 33),
    (UNPACK, Rule::NoneNamed, 1, 55, 30),
    (FOUR_LOADS, Rule::NoneNamed, 1, 127, 20),
    (SEVEN_ALIKE, Rule::ClampedStanding, 1, SETS, 16),
];

/// How many sets lack some of the seven that don't differ: one split for each.
const SETS: u32 = 127;

#[test]
fn work_is_done(rt: HostRuntime) {
    for &(code, rule, workers, splits, bound) in SEARCHES {
        assert!(rt; 1 <= workers && workers <= WORKERS_LIMIT);
        let left = left_of(&rt, code, rule, workers, BUDGET_LIMIT, &Free);
        assert!(rt; left.splits == splits && left.bound == bound, "{code}");
        assert!(rt; left.finished == (bound, bound, splits), "{code}");
    }
}

/// What two workers leave of a search in which they meet at their grafts; each has split something.
fn left_of_two<R: AllocGlobal + Abort + Clock + Threads + Wait + Sync>(
    rt: &R,
    code: &str,
    rule: Rule,
) -> Left {
    let gate = Watch::new(rt, Meeting::Grafts);
    let left = left_of(rt, code, rule, 2, BUDGET_LIMIT, &gate);
    assert!(rt; 0 < left.fewest);
    gate.check_met(rt);
    left
}

#[test]
fn both_graft(rt: HostRuntime) {
    let left = left_of_two(&rt, FIVE_MULTIPLIES, Rule::NoneNamed);
    assert!(rt; left.splits == ALL_SPLITS && left.bound == 33);
}

/// Two workers name each other's nodes: they may split again only what the other is about to graft.
#[test]
fn each_set_is_split_once(rt: HostRuntime) {
    let left = left_of_two(&rt, SEVEN_ALIKE, Rule::ClampedStanding);
    assert!(rt; left.splits < 2 * SETS && left.bound == 16);
}

/// After its first piece, of at most 64 splits, a worker claims several nodes: all but one go into its lane.
#[test]
fn lane_fills(rt: HostRuntime) {
    let gate = Watch::new(&rt, Meeting::Free);
    let left = left_of(
        &rt,
        FIVE_MULTIPLIES,
        Rule::NoneNamed,
        1,
        BUDGET_LIMIT,
        &gate,
    );
    assert!(rt; left.splits == ALL_SPLITS && 4 <= gate.nodes_between());
}

/// A search by `run`, and what it gives.
struct Run {
    name: &'static str,
    code: &'static str,
    rule: Rule,
    workers: u8,
    nodes: u32,
    /// What the workers wait for.
    meeting: Meeting,
    /// What the best order takes, and every order at least.
    times: (u32, u32),
    /// How many splits are spent at least, and at most.
    splits: (u32, u32),
    /// Whether each worker claims.
    claimants: [bool; 3],
    /// How many pieces the workers come to graft at least.
    pieces: u32,
}

/// The whole trees of seven multiplies and of thirteen alike have more than the first splits.
const RUNS: &[Run] = &[
    Run {
        name: "first splits start no worker",
        code: SEVEN_MULTIPLIES,
        rule: Rule::NoneNamed,
        workers: 3,
        nodes: FIRST_SPLITS,
        meeting: Meeting::Free,
        times: (44, 39),
        splits: (FIRST_SPLITS, FIRST_SPLITS),
        claimants: [false, false, false],
        pieces: 0,
    },
    Run {
        name: "one more starts all",
        code: SEVEN_MULTIPLIES,
        rule: Rule::NoneNamed,
        workers: 3,
        nodes: FIRST_SPLITS + 1,
        meeting: Meeting::Free,
        times: (44, 39),
        splits: (FIRST_SPLITS + 1, FIRST_SPLITS + 1),
        claimants: [true, true, true],
        pieces: 1,
    },
    Run {
        name: "a single worker never starts",
        code: SEVEN_MULTIPLIES,
        rule: Rule::NoneNamed,
        workers: 1,
        nodes: BUDGET_LIMIT,
        meeting: Meeting::Free,
        times: (44, 44),
        splits: (8660, 8660),
        claimants: [false, false, false],
        pieces: 0,
    },
    Run {
        name: "long search is shared",
        code: SEVEN_MULTIPLIES,
        rule: Rule::NoneNamed,
        workers: 2,
        nodes: BUDGET_LIMIT,
        meeting: Meeting::Claims,
        times: (44, 44),
        splits: (8660, 8660),
        claimants: [true, true, false],
        pieces: 1,
    },
    Run {
        name: "one worker names nodes of earlier pieces",
        code: FIVE_MULTIPLIES,
        rule: Rule::ClampedStanding,
        workers: 1,
        nodes: BUDGET_LIMIT,
        meeting: Meeting::Free,
        times: (33, 33),
        splits: (1, ALL_SPLITS - 1),
        claimants: [false, false, false],
        pieces: 0,
    },
    Run {
        name: "the first splits of four name nodes of earlier pieces",
        code: FIVE_MULTIPLIES,
        rule: Rule::ClampedStanding,
        workers: 4,
        nodes: BUDGET_LIMIT,
        meeting: Meeting::Free,
        times: (33, 33),
        splits: (1, ALL_SPLITS - 1),
        claimants: [false, false, false],
        pieces: 0,
    },
    Run {
        name: "workers name nodes",
        code: THIRTEEN_ALIKE,
        rule: Rule::ClampedStanding,
        workers: 2,
        nodes: BUDGET_LIMIT,
        meeting: Meeting::Free,
        times: (28, 28),
        splits: (8_191, 16_381),
        claimants: [true, true, false],
        pieces: 17,
    },
];

/// Checks what a search by `run` gives.
fn check_run<R: AllocGlobal + Abort + Threads + Wait + Sync, G: Gate + Sync>(
    rt: &R,
    wanted: &Run,
    gate: &G,
) {
    let (workers, nodes, rule) = (wanted.workers, wanted.nodes, wanted.rule);
    assert!(rt; 1 <= workers && workers <= WORKERS_LIMIT && nodes <= BUDGET_LIMIT);
    let options = Options {
        workers,
        nodes,
        rule,
    };
    let source = source_of(rt, wanted.code);
    let block = block_of(rt, &source);
    let answer = run(rt, block, &Profile::standard(), options, gate).expect(rt, "memory");
    let times = (answer.time(), answer.bound());
    assert!(rt; times == wanted.times, "{}: {times:?}", wanted.name);
    let ((least, most), splits) = (wanted.splits, answer.splits());
    assert!(rt;
        least <= splits && splits <= most,
        "{}: {splits}",
        wanted.name
    );
}

#[test]
fn searches_by_run(rt: HostRuntime) {
    for wanted in RUNS {
        let gate = Watch::new(&rt, wanted.meeting);
        check_run(&rt, wanted, &gate);
        assert!(rt; gate.claimants() == wanted.claimants, "{}", wanted.name);
        assert!(rt; wanted.pieces <= gate.pieces(), "{}", wanted.name);
        assert!(rt; !gate.is_over(), "{}", wanted.name);
    }
}
