//! Workers that keep what they claimed or hand in what they shouldn't, and searches that stop anywhere: `finish` answers as ever.
ghost use Rattle.std.specs.Prelude.{◌≡◌, ◌≤◌, All};

use crate::blocks::{MULTIPLIES, ONE_LOAD, as_written};
use crate::dominated::dominated_piece;
use crate::expansion::piece_of;
use crate::hub::{claim_root, grant, open_hub, put_seat, take_seat, timed_of};
use crate::ledger::{check_finished, check_grant, claim_node, new_ledger, open_ledger};
use crate::reading::{block_of, source_of};
use s66_isa::Profile;
use s66_ledger::{BackError, GraftError, Ledger, Offered};
use s66_line::Block;
use s66_model::Rule;
use s66_node::{Constant, MarkTable, Piece, Walk};
use s66_pool::{Free, Hub, Seat, work};
use s66_time::Timed;
use std::process::Abort;
use std::sync::Wait;
use std::thread::Threads;

/// The time, the bound and the splits of a finished search of three multiplies.
const WHOLE: (u32, u32, u32) = (22, 22, 10);

/// Each budget is kept.
fn check_budgets<R: AllocGlobal + Abort>(rt: &R, block: &Block) {
    for budget in 0..13u32 {
        let ledger = open_ledger(rt, &*block, budget, 1);
        let wanted = if budget < 10 { (22, 17, budget) } else { WHOLE };
        check_finished(rt, ledger, wanted);
    }
}

/// A piece for a best time below every floor, or above every time, is grafted by a worker that hasn't claimed the node.
fn check_pieces<R: AllocGlobal + Abort>(rt: &R, block: &Block) {
    for best in [1, u32::MAX] {
        let mut ledger = new_ledger(rt, &*block);
        check_grant(rt, &mut ledger, 2, 10);
        claim_node(rt, &mut ledger, 1, &[]);
        let piece = piece_of(rt, block, &[], best, 10);
        assert!(rt; ledger.graft(2, 0, &piece).is_ok());
        check_finished(rt, ledger, WHOLE);
    }
}

/// A worker without an allowance hands in a piece of one split. Then the node is given back twice, the second time by another worker,
/// with a ticket of another ledger.
fn check_refusals<R: AllocGlobal + Abort>(rt: &R, block: &Block) {
    let mut ledger = new_ledger(rt, &*block);
    let root = claim_node(rt, &mut ledger, 1, &[]);
    let piece = piece_of(rt, block, &[], 22, 1);
    graft(rt, &mut ledger, 0, piece, Err(GraftError::OverAllowance));
    assert!(rt; ledger.back(1, root).is_ok());
    let again = claim_node(rt, &mut new_ledger(rt, block), 1, &[]);
    assert!(rt; matches!(ledger.back(2, again), Err((BackError::NotOut, _))));
    check_finished(rt, ledger, WHOLE);
}

/// Puts a piece of the first worker in the place of a node, and checks the answer.
fn graft<R: Abort>(
    rt: &R,
    ledger: &mut Ledger,
    node: u32,
    piece: Piece,
    answer: Result<(), GraftError>,
)
    requires { 1 ≤ ledger.old.workers }
    ensures { ledger.new.workers ≡ ledger.old.workers }
{
    let seen = ledger.graft(1, node, &piece);
    assert!(rt; seen == answer, "{seen:?}");
}

/// Offers an order, and checks the answer.
fn offer<R: Abort>(rt: &R, ledger: &mut Ledger, w: u8, timed: Timed, answer: Offered)
    requires { (1 ≤ w) × (w ≤ ledger.old.workers) }
    ensures { ledger.new.workers ≡ ledger.old.workers }
{
    let seen = ledger.offer(w, timed).expect(rt, "memory");
    assert!(rt; seen == answer, "{seen:?}");
}

/// Splits one load's root; another worker keeps node 1, which is 1, and the first has node 2, which is 3.
fn hand_out<R: AllocGlobal + Abort>(rt: &R, ledger: &mut Ledger)
    requires { 2 ≤ ledger.old.workers }
    ensures { ledger.new.workers ≡ ledger.old.workers }
{
    check_grant(rt, ledger, 1, 10);
    claim_node(rt, ledger, 1, &[]);
    let piece = piece_of(rt, ledger.block(), &[], 16, 1);
    graft(rt, ledger, 0, piece, Ok(()));
    claim_node(rt, ledger, 2, &[1]);
    claim_node(rt, ledger, 1, &[3]);
}

/// A worker makes a piece for the time of the source order, 16. Meanwhile another, which keeps its node, offers the best order, with
/// 12. The piece's best order, with 13, is then too slow, and of its two splits none was needed.
fn check_old_piece<R: AllocGlobal + Abort>(rt: &R, block: &Block) {
    let mut ledger = new_ledger(rt, block);
    hand_out(rt, &mut ledger);
    let piece = piece_of(rt, block, &[3], 16, 9);
    let slower = piece.timed().expect(rt, "a whole order").duplicate();
    let faster = timed_of(rt, block, &[1, 3, 2]);
    offer(rt, &mut ledger, 2, faster, Offered::Lower);
    offer(rt, &mut ledger, 1, slower, Offered::NotLower { least: 12 });
    graft(rt, &mut ledger, 2, piece, Ok(()));
    check_finished(rt, ledger, (12, 12, 3));
}

/// A worker hands in pieces of another block, under another profile and by another rule, at the root, which is out.
fn hand_in_others<R: AllocGlobal + Abort>(rt: &R, ledger: &mut Ledger, block: &Block, other: &Block)
    requires { 1 ≤ ledger.old.workers }
    ensures { ledger.new.workers ≡ ledger.old.workers }
{
    let piece = piece_of(rt, other, &[], 22, 10);
    graft(rt, ledger, 0, piece, Err(GraftError::OtherPrefix));
    let mut slower = Profile::standard();
    slower.multiply = 11;
    let piece = Walk::new(block, &slower)
        .expand(rt.alloc(), &[], &mut Constant(40), 10)
        .expect(rt, "memory");
    graft(rt, ledger, 0, piece, Err(GraftError::OtherPrefix));
    let piece = dominated_piece(rt, block, &[], 22, 10);
    graft(rt, ledger, 0, piece, Err(GraftError::OtherPrefix));
}

/// A worker hands in such pieces, and an order of the other block, whose time is below all of the ledger's.
fn check_others<R: AllocGlobal + Abort>(rt: &R, block: &Block, other: &Block) {
    let mut ledger = new_ledger(rt, block);
    check_grant(rt, &mut ledger, 1, 10);
    claim_node(rt, &mut ledger, 1, &[]);
    hand_in_others(rt, &mut ledger, block, other);
    let timed = as_written(other, &Profile::standard());
    offer(rt, &mut ledger, 1, timed, Offered::OtherBlock);
    check_finished(rt, ledger, WHOLE);
}

#[test]
fn finish_answers_as_ever(rt: HostRuntime) {
    let source = source_of(&rt, MULTIPLIES);
    let block = block_of(&rt, &source);
    check_budgets(&rt, block);
    check_pieces(&rt, block);
    check_refusals(&rt, block);
    let other = source_of(&rt, ONE_LOAD);
    let other = block_of(&rt, &other);
    check_old_piece(&rt, other);
    check_others(&rt, block, other);
}

/// Two workers search a block by a rule at these seats, and come back.
fn work_by<'a, R: AllocGlobal + Abort + Threads + Wait + Sync>(
    rt: &R,
    hub: &Hub<'a>,
    mut seats: Vec<Seat<'a>>,
    block: &Block,
    rule: Rule,
) -> Vec<Seat<'a>>
    requires { All (λ s. s.hub ≡ hub.now.id) seats.items }
    ensures { All (λ s. s.hub ≡ hub.now.id) result.items }
{
    let profile = Profile::standard();
    let mut none = MarkTable::new(rt.alloc(), block, &profile);
    let worked = work(rt, hub, &mut seats, block, &profile, rule, &Free, &mut none);
    assert!(rt; worked.is_ok());
    seats
}

/// Closes the hub of a search of three multiplies by which no split was spent, and finishes it.
fn check_closed<'a, R: AllocGlobal + Abort>(rt: &R, hub: Hub<'a>, seats: Vec<Seat<'a>>)
    requires { All (λ s. s.hub ≡ hub.id) seats.items }
{
    let Ok(ledger) = hub.close(seats) else {
        panic!(rt; "all seats are there")
    };
    assert!(rt; 1 <= ledger.workers() && ledger.splits() == 0);
    check_finished(rt, ledger, WHOLE);
}

/// A seat takes the whole budget, or drops the root's ticket, or both, and does nothing more, while two workers look for work.
fn check_idle_seat<R: AllocGlobal + Abort + Threads + Wait + Sync>(
    rt: &R,
    block: &Block,
    takes_splits: bool,
    takes_root: bool,
) {
    let (hub, mut seats) = open_hub(rt, &*block, 10, 3);
    let mut seat = take_seat(rt, &hub, &mut seats, 3);
    if takes_splits {
        assert!(rt; grant(rt, &hub, &mut seat) == 10);
    }
    if takes_root {
        claim_root(rt, &hub, &mut seat);
    }
    let mut seats = work_by(rt, &hub, seats, block, Rule::NoneNamed);
    put_seat(rt, &hub, &mut seats, seat);
    check_closed(rt, hub, seats);
}

/// Two workers search another block than the hub's, or by another rule, with walks and marks of that: no piece of theirs is taken.
fn check_strangers<R: AllocGlobal + Abort + Threads + Wait + Sync>(
    rt: &R,
    block: &Block,
    other: &Block,
    rule: Rule,
) {
    let (hub, seats) = open_hub(rt, &*block, 10, 2);
    let seats = work_by(rt, &hub, seats, other, rule);
    check_closed(rt, hub, seats);
}

#[test]
fn outlives_idle_seats_and_strangers(rt: HostRuntime) {
    let source = source_of(&rt, MULTIPLIES);
    let block = block_of(&rt, &source);
    check_idle_seat(&rt, block, true, true);
    check_idle_seat(&rt, block, true, false);
    check_idle_seat(&rt, block, false, true);
    let other = source_of(&rt, ONE_LOAD);
    let other = block_of(&rt, &other);
    check_strangers(&rt, block, other, Rule::NoneNamed);
    check_strangers(&rt, block, other, Rule::ClampedStanding);
    let same = source_of(&rt, MULTIPLIES);
    check_strangers(&rt, block, block_of(&rt, &same), Rule::ClampedStanding);
}
