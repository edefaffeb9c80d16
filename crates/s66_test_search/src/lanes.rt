//! Tests of lanes: the owner and thieves take each ticket once.

ghost use Rattle.std.specs.Prelude.{◌≡◌, ◌+◌, ◌≤◌, ◌<◌, []};

use crate::blocks::MULTIPLIES;
use crate::ledger::{claim_node, new_ledger, split_root};
use crate::reading::{block_of, source_of};
use s66_ledger::Ledger;
use s66_line::Block;
use s66_share::{Lane, PASS_LIMIT, Pass, Thief, lane};
use std::process::Abort;

/// The root's children, each of which is put once.
const NODES: [u32; 3] = [1, 2, 3];

/// How often a thief tries to steal.
const TRIES: usize = 10;

/// Claims a node of this prefix and puts its ticket, for which there is room.
fn claim_and_put<R: Abort>(rt: &R, ledger: &mut Ledger, lane: &mut Lane, prefix: &[u8])
    requires workers { 1 ≤ ledger.old.workers }
    requires room { lane.old.used < lane.old.room }
    ensures workers { ledger.new.workers ≡ ledger.old.workers }
    ensures used { lane.new.used ≤ lane.old.used + 1 }
    ensures room { lane.old.room ≤ lane.new.room }
    ensures lane { (lane.new.id ≡ lane.old.id) × (lane.new.passes ≡ lane.old.passes) }
{
    let ticket = claim_node(rt, ledger, 1, prefix);
    let Ok(()) = lane.put(ticket) else {
        unreachable!()
    };
}

/// Splits the root and puts its three children.
fn put_children<R: AllocGlobal + Abort>(rt: &R, block: &Block, lane: &mut Lane)
    requires { lane.old.used + 3 ≤ lane.old.room }
    ensures { (lane.new.id ≡ lane.old.id) × (lane.new.passes ≡ lane.old.passes) }
{
    let mut ledger = new_ledger(rt, block);
    split_root(rt, &mut ledger);
    claim_and_put(rt, &mut ledger, lane, &[3]);
    claim_and_put(rt, &mut ledger, lane, &[2]);
    claim_and_put(rt, &mut ledger, lane, &[1]);
}

/// Steals, and pushes the nodes of what was stolen.
fn steal_some<R: Abort>(rt: &R, thief: &Thief, pass: &mut Pass, nodes: &mut Vec<u32>)
    requires { pass.old.lane ≡ thief.now }
    ensures { pass.new.lane ≡ pass.old.lane }
{
    for _ in 0..TRIES {
        if let Some(ticket) = thief.steal(pass) {
            assert!(rt; nodes.push(ticket.node()).is_ok());
        }
    }
    assert!(rt; !nodes.is_empty());
}

/// Takes what is left, and checks that these nodes and some others are all, each once.
fn take_rest<R: Abort>(rt: &R, lane: &mut Lane, nodes: &mut Vec<u32>)
    ensures { lane.new.id ≡ lane.old.id }
{
    for _ in 0..NODES.len() {
        let Some(ticket) = lane.take() else {
            break;
        };
        assert!(rt; nodes.push(ticket.node()).is_ok());
    }
    assert!(rt; lane.take().is_none());
    nodes.as_mut_slice().sort_unstable();
    assert!(rt; nodes.as_slice() == NODES.as_slice());
}

/// Checks that the owner takes each ticket once.
fn check_takes<R: AllocGlobal + Abort>(rt: &R, block: &Block) {
    let (mut lane, _) = lane(rt.alloc(), NODES.len()).expect(rt, "memory");
    put_children(rt, block, &mut lane);
    take_rest(rt, &mut lane, &mut Vec::new(rt.alloc()));
    assert!(rt; lane.left() == Some(0));
}

#[test]
fn owner_takes_each_ticket_once(rt: HostRuntime) {
    let source = source_of(&rt, MULTIPLIES);
    check_takes(&rt, block_of(&rt, &source));
}

/// The only pass of a lane.
fn only_pass<R: Abort>(rt: &R, lane: &mut Lane) -> Pass
    requires { (lane.old.passes ≡ 0) × (lane.old.put ≡ []) }
    ensures pass { result.lane ≡ lane.old.id }
    ensures lane { (lane.new.id ≡ lane.old.id) × (lane.new.used ≡ lane.old.used) × (lane.old.room ≤ lane.new.room) }
{
    let mut passes = lane.passes(1).expect(rt, "memory");
    let pass = passes.pop().expect(rt, "a pass");
    assert!(rt; passes.is_empty());
    pass
}

/// Checks that a thief and the owner together take each ticket once, and that nothing is left.
fn check_steals<R: AllocGlobal + Abort>(rt: &R, block: &Block) {
    let (mut lane, thief) = lane(rt.alloc(), NODES.len()).expect(rt, "memory");
    let mut pass = only_pass(rt, &mut lane);
    put_children(rt, block, &mut lane);
    let mut nodes = Vec::new(rt.alloc());
    steal_some(rt, &thief, &mut pass, &mut nodes);
    take_rest(rt, &mut lane, &mut nodes);
    assert!(rt; lane.left().is_none());
    lane.take_back(pass);
    assert!(rt; lane.left() == Some(0));
}

/// Checks that a lane has passes for as many thieves as it may have.
fn check_passes<R: AllocGlobal + Abort>(rt: &R) {
    let (mut lane, _) = lane(rt.alloc(), 1).expect(rt, "memory");
    let passes = lane.passes(PASS_LIMIT).expect(rt, "memory");
    assert!(rt; passes.len() == 15 && passes[14].number() == 14);
}

#[test]
fn thief_steals(rt: HostRuntime) {
    let source = source_of(&rt, MULTIPLIES);
    check_steals(&rt, block_of(&rt, &source));
    check_passes(&rt);
}
