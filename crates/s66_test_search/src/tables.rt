//! Workers whose tables of marks are full, empty or wrong: what they hand in covers the same orders, and `finish` answers as ever.
ghost use Rattle.std.specs.Prelude.{◌≡◌, ◌≤◌};
ghost use Rattle.s66_isa.specs.{standard};
ghost use Rattle.s66_line.specs.{instrs_of};

use crate::blocks::THREE_ALIKE;
use crate::ledger::{check_finished, check_grant, finished};
use crate::reading::{block_of, source_of};
use s66_isa::Profile;
use s66_ledger::{Ledger, Ticket};
use s66_line::Block;
use s66_model::Rule;
use s66_node::{Constant, MarkTable, Piece, Walk};
use s66_time::is_beginning;
use std::process::Abort;

/// More splits than the whole tree of three alike has.
const BUDGET: u32 = 40;

/// The time of each order of three alike.
const TIME: u32 = 8;

/// A ledger of one worker, which is granted its budget.
fn open_ledger<'a, R: AllocGlobal + Abort>(rt: &R, block: &'a Block<'a>) -> Ledger<'a>
    ensures { result.workers ≡ 1 }
{
    let profile = Profile::standard();
    let rule = Rule::ClampedStanding;
    let mut ledger = Ledger::new(rt.alloc(), &Walk::new(block, &profile), rule, BUDGET, 1).expect(
        rt, "memory",
    );
    check_grant(rt, &mut ledger, 1, BUDGET);
    ledger
}

/// A piece of a claimed node by a worker's marks, of at most `allowance` splits.
fn piece_of<R: AllocGlobal + Abort>(
    rt: &R,
    block: &Block,
    ticket: &Ticket,
    marks: &mut MarkTable,
    allowance: u32,
) -> Piece
    requires { marks.old.problem ≡ record { block = instrs_of block.now; profile = standard } }
    ensures { marks.new.problem ≡ marks.old.problem }
{
    let prefix = ticket.prefix();
    assert!(rt; is_beginning(block, prefix));
    let (mut best, rule) = (Constant(TIME), Rule::ClampedStanding);
    Walk::new(block, &Profile::standard())
        .expand_dominated(rt.alloc(), prefix, &mut best, allowance, marks, rule)
        .expect(rt, "memory")
}

/// What a worker does with its table after each of its pieces.
#[derive(Clone, Copy)]
enum Habit {
    /// It says which nodes the lines have become.
    Settles,
    /// It says that they have become other nodes.
    Mistakes,
    /// It says which, and empties the table.
    Empties,
}

/// Does to a table what its worker does after a piece whose root is this node, and whose other nodes are those from `first` on.
fn end_piece(marks: &mut MarkTable, habit: Habit, root: u32, first: u32)
    ensures { marks.new.problem ≡ marks.old.problem }
{
    match habit {
        Habit::Settles => marks.settle(root, first),
        Habit::Mistakes => marks.settle(first, root),
        Habit::Empties => {
            marks.settle(root, first);
            marks.clear();
        }
    }
}

/// A worker of this habit hands in a piece of so many splits at most, if a node is open.
fn hand_in<R: AllocGlobal + Abort>(
    rt: &R,
    ledger: &mut Ledger,
    marks: &mut MarkTable,
    block: &Block,
    habit: Habit,
    allowance: u32,
)
    requires workers { 1 ≤ ledger.old.workers }
    requires marks { marks.old.problem ≡ record { block = instrs_of block.now; profile = standard } }
    ensures workers { ledger.new.workers ≡ ledger.old.workers }
    ensures marks { marks.new.problem ≡ marks.old.problem }
{
    let claimed = ledger.claim(1).expect(rt, "memory");
    let Some(ticket) = claimed else {
        return;
    };
    let piece = piece_of(rt, block, &ticket, marks, allowance);
    let node = ticket.node();
    let first = ledger.node_count();
    assert!(rt; ledger.graft(1, node, &piece).is_ok());
    end_piece(marks, habit, node, first);
}

/// A search in which a worker of this habit, whose table keeps so many marks at most, hands in so many pieces, or all that there are.
fn search_by<'a, R: AllocGlobal + Abort>(
    rt: &R,
    block: &'a Block<'a>,
    habit: Habit,
    limit: usize,
    allowance: u32,
    pieces: u32,
) -> Ledger<'a>
    ensures { result.workers ≡ 1 }
{
    let mut ledger = open_ledger(rt, block);
    let mut marks = MarkTable::with_limit(rt.alloc(), block, &Profile::standard(), limit);
    for _ in 0..pieces {
        hand_in(rt, &mut ledger, &mut marks, block, habit, allowance);
    }
    ledger
}

/// Finishes a search of three alike, of which nothing is left to be done, and checks its splits, its time and its bound.
fn check_done<R: AllocGlobal + Abort>(rt: &R, ledger: Ledger, splits: u32)
    requires { 1 ≤ ledger.workers }
{
    assert!(rt; ledger.bound() == TIME && ledger.splits() == splits);
    check_finished(rt, ledger, (TIME, TIME, splits));
}

/// The most marks that a table keeps, and how many splits a piece over all orders of three alike then has. The empty prefix, 1, 1 2,
/// 1 3, 2, 2 3 and 3 are split in any case, and their marks kept in this order. 2 1 is split too if the mark of 1 2 isn't kept, 3 1 if
/// that of 1 3 isn't, and 3 2 if that of 2 3 isn't.
const LIMITS: [(usize, u32); 8] = [
    (0, 10),
    (1, 10),
    (2, 10),
    (3, 9),
    (4, 8),
    (5, 8),
    (6, 7),
    (usize::MAX, 7),
];

/// Checks how many splits one piece over all orders has, by a table of this limit.
fn check_limit<R: AllocGlobal + Abort>(rt: &R, block: &Block, limit: usize, splits: u32) {
    let ledger = search_by(rt, block, Habit::Settles, limit, BUDGET, 1);
    check_done(rt, ledger, splits);
}

#[test]
fn full_tables_find_less(rt: HostRuntime) {
    let source = source_of(&rt, THREE_ALIKE);
    let block = block_of(&rt, &source);
    for (limit, splits) in LIMITS {
        check_limit(&rt, block, limit, splits);
    }
}

/// How many splits three alike then take if each piece has one. Beginnings of the same numbers have different parents, so that they
/// are made by different pieces: one is left out only if the other is known, and is the node that the table says.
const HABITS: [(Habit, u32); 3] = [
    (Habit::Settles, 7),
    (Habit::Mistakes, 10),
    (Habit::Empties, 10),
];

/// A worker of this habit stops after each of its pieces, or when no node is open.
fn check_habit<R: AllocGlobal + Abort>(rt: &R, block: &Block, habit: Habit, splits: u32) {
    for pieces in 0..splits {
        let ledger = search_by(rt, &*block, habit, usize::MAX, 1, pieces);
        let (time, bound, _) = finished(rt, ledger);
        assert!(rt; time == TIME && bound == TIME, "{pieces}");
    }
    let ledger = search_by(rt, &*block, habit, usize::MAX, 1, splits);
    check_done(rt, ledger, splits);
}

#[test]
fn tables_are_right_wrong_or_empty(rt: HostRuntime) {
    let source = source_of(&rt, THREE_ALIKE);
    let block = block_of(&rt, &source);
    for (habit, splits) in HABITS {
        check_habit(&rt, block, habit, splits);
    }
}
