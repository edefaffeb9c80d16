//! Tests of a ledger: its history, event by event, and its end wherever a search stops. Other tests use its calls.

ghost use Rattle.std.specs.Prelude.{◌≡◌, ◌≤◌};
ghost use Rattle.s66_model.specs.{BUDGET_LIMIT};

use crate::blocks::{MULTIPLIES, as_written};
use crate::expansion::piece_of;
use crate::reading::{block_of, source_of};
use s66_isa::Profile;
use s66_ledger::{BackError, EventRecord, Ledger, Offered, Ticket};
use s66_line::Block;
use s66_model::Rule;
use s66_node::{MarkTable, State, Walk};
use std::process::Abort;

/// The most splits of the search.
const BUDGET: u32 = 10;

/// The search of two workers, of whom the first has the whole budget until it retires. Of the root's children, whose floors are
/// equal, the newest is handed out.
const HISTORY: &[EventRecord] = &[
    EventRecord::Grant {
        w: 1,
        splits: BUDGET,
    },
    EventRecord::Claim {
        w: 1,
        node: Some(0),
    },
    EventRecord::Taken {
        w: 1,
        node: 0,
        depth: 0,
        root: State::Split,
        nodes: 3,
        splits: 1,
    },
    EventRecord::Offer {
        w: 2,
        own: true,
        count: 3,
        time: 22,
        offered: Offered::NotLower { least: 22 },
    },
    EventRecord::Grant { w: 2, splits: 0 },
    EventRecord::Claim {
        w: 2,
        node: Some(3),
    },
    EventRecord::Back {
        w: 2,
        node: 3,
        returned: true,
    },
    EventRecord::Claim {
        w: 2,
        node: Some(3),
    },
    EventRecord::Retire { w: 1 },
    EventRecord::Grant {
        w: 2,
        splits: BUDGET - 1,
    },
];

/// The bytes of the entries: the source order, since the piece's prefix is empty.
const BYTES: &[u8] = &[1, 2, 3];

/// A ledger of so many workers, of which no leaf is dominated.
pub(crate) fn open_ledger<'a, R: AllocGlobal + Abort>(
    rt: &R,
    block: &'a Block<'a>,
    budget: u32,
    workers: u8,
) -> Ledger<'a>
    requires { budget ≤ BUDGET_LIMIT }
    ensures { result.workers ≡ workers }
{
    let walk = Walk::new(block, &Profile::standard());
    let ledger = Ledger::new(rt.alloc(), &walk, Rule::NoneNamed, budget, workers);
    ledger.expect(rt, "memory")
}

/// A ledger of two workers.
pub(crate) fn new_ledger<'a, R: AllocGlobal + Abort>(rt: &R, block: &'a Block<'a>) -> Ledger<'a>
    ensures { result.workers ≡ 2 }
{
    open_ledger(rt, block, BUDGET, 2)
}

/// Checks that the ledger's history is `HISTORY` with its bytes, and that the piece's three nodes were made.
fn check_history<R: Abort>(rt: &R, ledger: &Ledger) {
    let history = ledger.history();
    assert!(rt; history.entries.as_slice() == HISTORY);
    assert!(rt; history.bytes.as_slice() == BYTES);
    assert!(rt; ledger.node_count() == 4);
}

/// Checks how many splits of a search are spent, and how many nodes it has. Its best time is 22, and its bound 17.
fn check_readings<R: Abort>(rt: &R, ledger: &Ledger, splits: u32, nodes: u32) {
    assert!(rt; ledger.best() == 22 && ledger.bound() == 17);
    assert!(rt; ledger.splits() == splits && ledger.node_count() == nodes);
}

/// Checks how many splits a worker is granted.
pub(crate) fn check_grant<R: Abort>(rt: &R, ledger: &mut Ledger, w: u8, splits: u32)
    requires { (1 ≤ w) × (w ≤ ledger.old.workers) }
    ensures { ledger.new.workers ≡ ledger.old.workers }
{
    assert!(rt; ledger.grant(w) == Ok(splits));
}

/// Claims a node for a worker, and checks its prefix.
pub(crate) fn claim_node<R: Abort>(rt: &R, ledger: &mut Ledger, w: u8, prefix: &[u8]) -> Ticket
    requires { (1 ≤ w) × (w ≤ ledger.old.workers) }
    ensures { ledger.new.workers ≡ ledger.old.workers }
{
    let claimed = ledger.claim(w).expect(rt, "memory");
    let ticket = claimed.expect(rt, "an open node");
    assert!(rt; ticket.prefix() == prefix, "{prefix:?}");
    ticket
}

/// Splits the root by a worker that has claimed it.
fn graft_root<R: AllocGlobal + Abort>(rt: &R, ledger: &mut Ledger)
    requires { 1 ≤ ledger.old.workers }
    ensures { ledger.new.workers ≡ ledger.old.workers }
{
    let piece = piece_of(rt, ledger.block(), &[], 22, 1);
    assert!(rt; ledger.graft(1, 0, &piece).is_ok());
    check_readings(rt, ledger, 1, 4);
}

/// The first three steps.
pub(crate) fn split_root<R: AllocGlobal + Abort>(rt: &R, ledger: &mut Ledger)
    requires { 1 ≤ ledger.old.workers }
    ensures { ledger.new.workers ≡ ledger.old.workers }
{
    check_readings(rt, ledger, 0, 1);
    check_grant(rt, ledger, 1, BUDGET);
    claim_node(rt, ledger, 1, &[]);
    graft_root(rt, ledger);
}

/// A worker offers the source order, which isn't faster.
fn offer_source<R: Abort>(rt: &R, ledger: &mut Ledger)
    requires { 2 ≤ ledger.old.workers }
    ensures { ledger.new.workers ≡ ledger.old.workers }
{
    let timed = as_written(ledger.block(), &Profile::standard());
    assert!(rt; ledger.offer(2, timed) == Ok(Offered::NotLower { least: 22 }));
}

/// A worker claims a child of the root, and gives it back.
fn claim_in_vain<R: Abort>(rt: &R, ledger: &mut Ledger)
    requires { 2 ≤ ledger.old.workers }
    ensures { ledger.new.workers ≡ ledger.old.workers }
{
    let child = claim_node(rt, ledger, 2, &[3]);
    assert!(rt; ledger.back(2, child).is_ok());
}

/// The steps of the search: its events, but for a claim and what gives that node back, which are one.
const STEPS: usize = 9;

/// Takes the step of this number.
fn take_step<R: AllocGlobal + Abort>(rt: &R, ledger: &mut Ledger, step: usize)
    requires { 2 ≤ ledger.old.workers }
    ensures { ledger.new.workers ≡ ledger.old.workers }
{
    match step {
        0 => check_grant(rt, ledger, 1, BUDGET),
        1 => drop(claim_node(rt, ledger, 1, &[])),
        2 => graft_root(rt, ledger),
        3 => offer_source(rt, ledger),
        4 => check_grant(rt, ledger, 2, 0),
        5 => claim_in_vain(rt, ledger),
        6 => drop(claim_node(rt, ledger, 2, &[3])),
        7 => assert!(rt; ledger.retire(1).is_ok()),
        _ => check_grant(rt, ledger, 2, BUDGET - 1),
    }
}

/// A search that stops after so many of these steps.
fn stopped<'a, R: AllocGlobal + Abort>(rt: &R, block: &'a Block<'a>, count: usize) -> Ledger<'a>
    ensures { result.workers ≡ 2 }
{
    let mut ledger = new_ledger(rt, block);
    for step in 0..count {
        take_step(rt, &mut ledger, step);
    }
    ledger
}

/// The time, the bound and the splits of a search once list schedules are offered and it is finished.
pub(crate) fn finished<R: AllocGlobal + Abort>(rt: &R, mut ledger: Ledger) -> (u32, u32, u32)
    requires { 1 ≤ ledger.workers }
{
    let (alloc, profile) = (rt.alloc(), *ledger.profile());
    let mut walk = Walk::new(ledger.block(), &profile);
    let mut marks = MarkTable::new(alloc, ledger.block(), &profile);
    assert!(rt; ledger.offer_schedules(&mut walk).is_ok());
    let answer = ledger
        .finish(alloc, &mut walk, &mut marks)
        .expect(rt, "memory");
    (answer.time(), answer.bound(), answer.splits())
}

/// Finishes a search, and checks its time, its bound and its splits.
pub(crate) fn check_finished<R: AllocGlobal + Abort>(
    rt: &R,
    ledger: Ledger,
    wanted: (u32, u32, u32),
)
    requires { 1 ≤ ledger.workers }
{
    let (time, bound, splits) = finished(rt, ledger);
    let is_wanted = time == wanted.0 && bound == wanted.1 && splits == wanted.2;
    assert!(rt; is_wanted, "{time} {bound} {splits}");
}

/// Checks that it ends as ever, after however many steps it stops.
fn check_stops<R: AllocGlobal + Abort>(rt: &R, block: &Block) {
    for count in 0..=STEPS {
        let ledger = stopped(rt, &*block, count);
        check_finished(rt, ledger, (22, 22, 10));
    }
}

/// Checks the history of the search, with one entry more for a node that isn't out: that of another ledger's ticket.
fn check_events<R: AllocGlobal + Abort>(rt: &R, block: &Block) {
    let mut ledger = stopped(rt, &*block, STEPS);
    check_history(rt, &ledger);
    let root = claim_node(rt, &mut new_ledger(rt, block), 1, &[]);
    let refused = ledger.back(1, root);
    assert!(rt; matches!(refused, Err((BackError::NotOut, _))));
    assert!(rt; ledger.history().entries.len() == HISTORY.len() + 1);
}

#[test]
fn follows_events(rt: HostRuntime) {
    let source = source_of(&rt, MULTIPLIES);
    let block = block_of(&rt, &source);
    check_events(&rt, block);
    check_stops(&rt, block);
}
