//! Tests of each call of a hub. Other tests use its calls.

ghost use Rattle.std.specs.Prelude.{◌≡◌, ◌≤◌, All};
ghost use Rattle.s66_model.specs.{BUDGET_LIMIT};

use crate::blocks::{MULTIPLIES, ONE_LOAD};
use crate::expansion::piece_of;
use crate::ledger::open_ledger;
use crate::reading::{block_of, source_of};
use s66_isa::Profile;
use s66_ledger::{GraftError, Offered, Ticket};
use s66_line::Block;
use s66_node::Piece;
use s66_pool::{Hub, Needs, Seat, SeatsMissing, Supply};
use s66_time::{Order, Timed, time_of};
use std::process::Abort;
use std::sync::Wait;

const NOTHING: Needs = Needs {
    splits: false,
    nodes: false,
};

const NODES: Needs = Needs {
    splits: false,
    nodes: true,
};

const BOTH: Needs = Needs {
    splits: true,
    nodes: true,
};

/// A hub on a ledger of a block, and a seat for each worker.
pub(crate) fn open_hub<'a, R: AllocGlobal + Abort>(
    rt: &R,
    block: &'a Block<'a>,
    budget: u32,
    workers: u8,
) -> (Hub<'a>, Vec<Seat<'a>>)
    requires budget { budget ≤ BUDGET_LIMIT }
    requires workers { 1 ≤ workers }
    ensures { All (λ s. s.hub ≡ result.0.id) result.1.items }
{
    let ledger = open_ledger(rt, block, budget, workers);
    Hub::new(rt.alloc(), ledger).expect(rt, "memory")
}

/// Takes the last seat out, and checks its number.
pub(crate) fn take_seat<'a, R: Abort>(
    rt: &R,
    hub: &Hub<'a>,
    seats: &mut Vec<Seat<'a>>,
    number: u8,
) -> Seat<'a>
    requires { All (λ s. s.hub ≡ hub.now.id) seats.old.items }
    ensures here { result.hub ≡ hub.now.id }
    ensures rest { All (λ s. s.hub ≡ hub.now.id) seats.new.items }
{
    let seat = seats.pop().expect(rt, "a seat");
    assert!(rt; seat.number() == number);
    seat
}

/// Puts a seat after the others.
pub(crate) fn put_seat<'a, R: Abort>(
    rt: &R,
    _hub: &Hub<'a>,
    seats: &mut Vec<Seat<'a>>,
    seat: Seat<'a>,
)
    requires here { seat.hub ≡ _hub.now.id }
    requires rest { All (λ s. s.hub ≡ _hub.now.id) seats.old.items }
    ensures { All (λ s. s.hub ≡ _hub.now.id) seats.new.items }
{
    assert!(rt; seats.push(seat).is_ok());
}

/// Moves splits of the budget to a seat, and returns how many.
pub(crate) fn grant<'a, R: Abort + Wait>(rt: &R, hub: &Hub<'a>, seat: &mut Seat<'a>) -> u32
    requires { seat.old.hub ≡ hub.now.id }
    ensures { seat.new.hub ≡ seat.old.hub }
{
    hub.grant(rt, seat).expect(rt, "memory")
}

/// Claims the root of a hub's tree, of which no other node is there.
pub(crate) fn claim_root<'a, R: AllocGlobal + Abort + Wait>(
    rt: &R,
    hub: &Hub<'a>,
    seat: &mut Seat<'a>,
) -> Ticket
    requires { seat.old.hub ≡ hub.now.id }
    ensures { seat.new.hub ≡ seat.old.hub }
{
    let ticket = claim_all(rt, hub, seat, 1).expect(rt, "an open node");
    assert!(rt; ticket.node() == 0 && ticket.prefix().is_empty());
    ticket
}

/// Claims nodes in one turn, and checks how many; none is open after that. The last of them is returned.
fn claim_all<'a, R: AllocGlobal + Abort + Wait>(
    rt: &R,
    hub: &Hub<'a>,
    seat: &mut Seat<'a>,
    expected: usize,
) -> Option<Ticket>
    requires { seat.old.hub ≡ hub.now.id }
    ensures { seat.new.hub ≡ seat.old.hub }
{
    let mut claimed = Vec::new(rt.alloc());
    let supply = hub.supply(rt, seat, NODES, &mut claimed);
    assert!(rt; supply == all_claimed(None) && claimed.len() == expected);
    claimed.pop()
}

/// A supply whose claims ended since no node was open.
fn all_claimed(granted: Option<u32>) -> Supply {
    Supply {
        granted,
        none_open: true,
        out_of_memory: false,
    }
}

/// Gives a seat's splits back to the budget.
fn retire<'a, R: Abort + Wait>(rt: &R, hub: &Hub<'a>, seat: &mut Seat<'a>)
    requires { seat.old.hub ≡ hub.now.id }
    ensures { seat.new.hub ≡ seat.old.hub }
{
    assert!(rt; hub.retire(rt, seat).is_ok());
}

/// Makes each call of a seat that has the whole budget.
fn check_calls<'a, R: AllocGlobal + Abort + Wait>(rt: &R, hub: &Hub<'a>, seat: &mut Seat<'a>)
    requires { seat.old.hub ≡ hub.now.id }
{
    let root = claim_root(rt, hub, seat);
    assert!(rt; grant(rt, hub, seat) == 10);
    assert!(rt; hub.back(rt, seat, root).is_ok());
    claim_root(rt, hub, seat);
    retire(rt, hub, seat);
    assert!(rt; grant(rt, hub, seat) == 10);
}

/// Closes a hub that lacks its second seat, which it hands back with the first.
fn close_early<'a, R: Abort>(rt: &R, hub: Hub<'a>, seats: Vec<Seat<'a>>) -> (Hub<'a>, Vec<Seat<'a>>)
    requires { All (λ s. s.hub ≡ hub.id) seats.items }
    ensures same { result.0.id ≡ hub.entry.id }
    ensures here { All (λ s. s.hub ≡ result.0.id) result.1.items }
{
    match hub.close(seats) {
        Ok(_) => panic!(rt; "closed without a seat"),
        Err((SeatsMissing, hub, seats)) => (hub, seats),
    }
}

/// Closes a hub that has all its seats.
fn close<'a, R: Abort>(rt: &R, hub: Hub<'a>, seats: Vec<Seat<'a>>)
    requires { All (λ s. s.hub ≡ hub.id) seats.items }
{
    assert!(rt; hub.close(seats).is_ok());
}

/// Checks each call of a hub with one seat.
fn check_new_hub<R: AllocGlobal + Abort + Wait>(rt: &R, block: &Block) {
    let (hub, mut seats) = open_hub(rt, block, 10, 1);
    let mut seat = take_seat(rt, &hub, &mut seats, 1);
    assert!(rt; seats.is_empty());
    check_calls(rt, &hub, &mut seat);
}

/// Checks that a hub closes only with all its seats, in any order.
fn check_missing_seat<R: AllocGlobal + Abort + Wait>(rt: &R, block: &Block) {
    let (hub, mut seats) = open_hub(rt, block, 10, 2);
    let second = take_seat(rt, &hub, &mut seats, 2);
    let (hub, mut seats) = close_early(rt, hub, seats);
    let first = take_seat(rt, &hub, &mut seats, 1);
    put_seat(rt, &hub, &mut seats, second);
    put_seat(rt, &hub, &mut seats, first);
    close(rt, hub, seats);
}

#[test]
fn new_hub(rt: HostRuntime) {
    let source = source_of(&rt, MULTIPLIES);
    let block = block_of(&rt, &source);
    check_new_hub(&rt, block);
    check_missing_seat(&rt, block);
}

/// Grafts a piece of one split at the root, which is out, and then hands in one more there.
fn graft_twice<'a, R: AllocGlobal + Abort + Wait>(
    rt: &R,
    hub: &Hub<'a>,
    seat: &mut Seat<'a>,
    block: &Block,
)
    requires { seat.old.hub ≡ hub.now.id }
    ensures { seat.new.hub ≡ seat.old.hub }
{
    let root = claim_root(rt, hub, seat);
    let piece = piece_of(rt, block, root.prefix(), 22, 1);
    let again = piece_of(rt, block, root.prefix(), 22, 1);
    let mut claimed = Vec::new(rt.alloc());
    let taken = hub.graft_and_supply(rt, seat, root.node(), &piece, NOTHING, &mut claimed);
    assert!(rt; taken.is_ok() && claimed.is_empty());
    let refused = hub.graft_and_supply(rt, seat, 0, &again, BOTH, &mut claimed);
    assert!(rt; matches!(refused, Err(GraftError::NotOut)));
    assert!(rt; claimed.is_empty() && seat.splits() == 1);
}

/// Grafts a piece of a claimed node, and claims all open nodes in the same turn; checks what is granted there and how many nodes are
/// claimed. The last of them is returned.
fn graft_claiming<'a, R: AllocGlobal + Abort + Wait>(
    rt: &R,
    hub: &Hub<'a>,
    seat: &mut Seat<'a>,
    node: u32,
    piece: &Piece,
    needs: Needs,
    expected: (Option<u32>, usize),
) -> Ticket
    requires { seat.old.hub ≡ hub.now.id }
    ensures { seat.new.hub ≡ seat.old.hub }
{
    let (granted, nodes) = expected;
    let mut claimed = Vec::new(rt.alloc());
    let Ok(supply) = hub.graft_and_supply(rt, seat, node, piece, needs, &mut claimed) else {
        panic!(rt; "the piece wasn't taken")
    };
    assert!(rt; supply == all_claimed(granted) && claimed.len() == nodes);
    claimed.pop().expect(rt, "an open node")
}

/// The turns of a worker that has the whole budget of 10 splits: it splits the root and a child, and retires.
fn spend_two<'a, R: AllocGlobal + Abort + Wait>(
    rt: &R,
    hub: &Hub<'a>,
    seat: &mut Seat<'a>,
    block: &Block,
)
    requires { seat.old.hub ≡ hub.now.id }
{
    assert!(rt; grant(rt, hub, seat) == 10);
    graft_twice(rt, hub, seat, block);
    let child = claim_all(rt, hub, seat, 3).expect(rt, "an open node");
    assert!(rt; child.prefix().len() == 1);
    let piece = piece_of(rt, block, child.prefix(), 22, 1);
    let mut claimed = Vec::new(rt.alloc());
    let after = hub.graft_and_supply(rt, seat, child.node(), &piece, BOTH, &mut claimed);
    let spent = Supply {
        granted: Some(0),
        none_open: false,
        out_of_memory: false,
    };
    assert!(rt; after == Ok(spent));
    retire(rt, hub, seat);
    assert!(rt; claimed.is_empty() && seat.splits() == 2);
}

/// A worker's turn after that, in which the two children of the node that was split are open: it leaves one of them open, and is
/// granted the rest of the budget in the turn of its graft.
fn ask_for_splits<'a, R: AllocGlobal + Abort + Wait>(
    rt: &R,
    hub: &Hub<'a>,
    seat: &mut Seat<'a>,
    block: &Block,
)
    requires { seat.old.hub ≡ hub.now.id }
{
    let node = claim_all(rt, hub, seat, 2).expect(rt, "an open node");
    let piece = piece_of(rt, block, node.prefix(), 22, 0);
    graft_claiming(rt, hub, seat, node.node(), &piece, BOTH, (Some(8), 1));
    assert!(rt; seat.splits() == 0);
}

/// Checks what two workers get in the turns of their grafts. Each prefix but a whole order has a floor of 17, below every total, so that
/// some node is open all the time.
fn check_turns<R: AllocGlobal + Abort + Wait>(rt: &R, block: &Block) {
    let (hub, mut seats) = open_hub(rt, block, 10, 2);
    let mut second = take_seat(rt, &hub, &mut seats, 2);
    let mut first = take_seat(rt, &hub, &mut seats, 1);
    spend_two(rt, &hub, &mut first, block);
    ask_for_splits(rt, &hub, &mut second, block);
}

#[test]
fn pieces_are_grafted(rt: HostRuntime) {
    let source = source_of(&rt, MULTIPLIES);
    check_turns(&rt, block_of(&rt, &source));
}

/// An order of the block with its times.
pub(crate) fn timed_of<R: Abort>(rt: &R, block: &Block, numbers: &[u8]) -> Timed {
    let order = Order::new(block, numbers).expect(rt, "a legal order");
    time_of(block, &Profile::standard(), &order)
}

/// Offers an order, and checks the answer.
fn offer<'a, R: Abort + Wait>(
    rt: &R,
    hub: &Hub<'a>,
    seat: &mut Seat<'a>,
    timed: Timed,
    answer: Offered,
)
    requires { seat.old.hub ≡ hub.now.id }
    ensures { seat.new.hub ≡ seat.old.hub }
{
    assert!(rt; hub.offer(rt, seat, timed) == Ok(answer));
}

/// Offers the best order at one seat while another has the root out, and reads its time there after the graft.
fn offer_while_out<'a, R: AllocGlobal + Abort + Wait>(
    rt: &R,
    hub: &Hub<'a>,
    seat: &mut Seat<'a>,
    other: &mut Seat<'a>,
    block: &Block,
)
    requires seat { seat.old.hub ≡ hub.now.id }
    requires other { other.old.hub ≡ hub.now.id }
{
    let root = claim_root(rt, hub, other);
    assert!(rt; hub.best(rt, other) == 16);
    let piece = piece_of(rt, block, root.prefix(), 16, 0);
    let best = timed_of(rt, block, &[1, 3, 2]);
    offer(rt, hub, seat, best, Offered::Lower);
    graft_claiming(rt, hub, other, root.node(), &piece, NODES, (None, 1));
    assert!(rt; hub.best(rt, other) == 12);
}

/// Reads the best time at one seat, and claims at another; the root is out.
fn read_offer<'a, R: AllocGlobal + Abort + Wait>(
    rt: &R,
    hub: &Hub<'a>,
    seat: &mut Seat<'a>,
    other: &mut Seat<'a>,
    block: &Block,
)
    requires seat { seat.old.hub ≡ hub.now.id }
    requires other { other.old.hub ≡ hub.now.id }
{
    assert!(rt; hub.best(rt, seat) == 12);
    let slower = timed_of(rt, block, &[1, 2, 3]);
    offer(rt, hub, seat, slower, Offered::NotLower { least: 12 });
    assert!(rt; claim_all(rt, hub, other, 0).is_none());
}

/// Checks that seats read what another has offered.
fn check_offers<R: AllocGlobal + Abort + Wait>(rt: &R, block: &Block) {
    let (hub, mut seats) = open_hub(rt, block, 10, 4);
    let mut fourth = take_seat(rt, &hub, &mut seats, 4);
    let mut third = take_seat(rt, &hub, &mut seats, 3);
    let mut second = take_seat(rt, &hub, &mut seats, 2);
    let mut first = take_seat(rt, &hub, &mut seats, 1);
    assert!(rt; hub.best(rt, &mut second) == 16);
    offer_while_out(rt, &hub, &mut first, &mut third, block);
    read_offer(rt, &hub, &mut second, &mut fourth, block);
}

#[test]
fn offers_are_read(rt: HostRuntime) {
    let source = source_of(&rt, ONE_LOAD);
    check_offers(&rt, block_of(&rt, &source));
}
