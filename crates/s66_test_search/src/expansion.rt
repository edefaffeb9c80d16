//! Tests of expansions: the nodes of a piece and its best order, also by a best time that falls meanwhile.

use crate::blocks::{MULTIPLIES, ONE_LOAD, SEVEN_MULTIPLIES};
use crate::reading::{block_of, source_of};
use s66_isa::Profile;
use s66_line::Block;
use s66_node::{Constant, Least, Node, Piece, State, Walk};
use s66_time::is_beginning;
use std::process::Abort;

/// A best time that is read once, and falls when it is read again.
#[derive(Drop)]
struct Falling {
    kept: u32,
    next: u32,
    is_stated: bool,
}

impl Least for Falling {
    ghost kept = { λ f. f.kept };

    fn least(&mut self) -> u32 {
        if self.is_stated {
            self.kept = self.kept.min(self.next);
        }
        self.is_stated = true;
        self.kept
    }
}

/// What a prefix of a block gives, for a best time and a number of splits that are allowed.
pub(crate) fn piece_of<R: AllocGlobal + Abort>(
    rt: &R,
    block: &Block,
    prefix: &[u8],
    best: u32,
    allowance: u32,
) -> Piece {
    assert!(rt; is_beginning(block, prefix));
    Walk::new(block, &Profile::standard())
        .expand(rt.alloc(), prefix, &mut Constant(best), allowance)
        .expect(rt, "memory")
}

/// What the empty prefix of a block gives, by a best time that is read before each split.
fn piece_by<R: AllocGlobal + Abort, L: Least>(
    rt: &R,
    block: &Block,
    incumbent: &mut L,
    allowance: u32,
) -> Piece {
    Walk::new(block, &Profile::standard())
        .expand(rt.alloc(), &[], incumbent, allowance)
        .expect(rt, "memory")
}

/// A node of a piece: the place of its parent, its number, and what it is with its floor. The number of the first isn't looked at, which
/// is 0 here, nor is the floor of a split.
type Line = (u32, u8, State, u32);

/// Whether a node is as a line says.
fn is_like(node: &Node, line: &Line) -> bool {
    let (parent, number, state, value) = *line;
    let is_there = node.parent == parent && (number == 0 || node.number == number);
    is_there && node.state == state && (state == State::Split || node.value == value)
}

/// Checks the nodes of a piece, and that each split is counted.
fn check_lines<R: Abort>(rt: &R, piece: &Piece, lines: &[Line]) {
    let nodes = piece.nodes();
    assert!(rt; nodes.len() == lines.len());
    let mut splits = 0u32;
    for place in 0..lines.len() {
        let line = &lines[place];
        assert!(rt; is_like(&nodes[place], line), "node {place}");
        if line.2 == State::Split {
            splits = splits.saturating_add(1);
        }
    }
    assert!(rt; piece.splits() == splits);
}

/// Checks the order of a piece that is timed, and its total; no numbers: it has none.
fn check_timed<R: Abort>(rt: &R, piece: &Piece, numbers: &[u8], total: u32) {
    match piece.timed() {
        None => assert!(rt; numbers.is_empty()),
        Some(timed) => {
            let seen = (timed.order().numbers(), timed.total());
            assert!(rt; seen == (numbers, total), "{seen:?}");
        }
    }
}

/// The code of a block, a prefix, the best time and the splits that are allowed; the nodes of the piece that these give, and its order
/// with the total.
type Row = (
    &'static str,
    &'static [u8],
    u32,
    u32,
    &'static [Line],
    &'static [u8],
    u32,
);

/// Three multiplies take 22 in any order, and at least 17 while fewer than three are placed. All orders of one load take less than 17,
/// so each incomplete prefix is split.
const ROWS: &[Row] = &[
    (
        MULTIPLIES,
        &[],
        22,
        1,
        &[
            (0, 0, State::Split, 0),
            (0, 1, State::Open, 17),
            (0, 2, State::Open, 17),
            (0, 3, State::Open, 17),
        ],
        &[],
        0,
    ),
    (MULTIPLIES, &[], 17, 1, &[(0, 0, State::Closed, 17)], &[], 0),
    (
        MULTIPLIES,
        &[1, 2, 3],
        22,
        0,
        &[(0, 0, State::Closed, 22)],
        &[1, 2, 3],
        22,
    ),
    (
        ONE_LOAD,
        &[],
        17,
        100,
        &[
            (0, 0, State::Split, 0),
            (0, 1, State::Split, 0),
            (1, 2, State::Split, 0),
            (2, 3, State::Closed, 16),
            (1, 3, State::Split, 0),
            (4, 2, State::Closed, 12),
            (0, 3, State::Split, 0),
            (6, 1, State::Split, 0),
            (7, 2, State::Closed, 13),
        ],
        &[1, 3, 2],
        12,
    ),
];

#[test]
fn expands_prefixes(rt: HostRuntime) {
    for &(code, prefix, best, allowance, lines, numbers, total) in ROWS {
        let source = source_of(&rt, code);
        let block = block_of(&rt, &source);
        let piece = piece_of(&rt, block, prefix, best, allowance);
        check_lines(&rt, &piece, lines);
        check_timed(&rt, &piece, numbers, total);
    }
}

/// The children of the root are leaves.
const FALLEN: &[Line] = &[
    (0, 0, State::Split, 0),
    (0, 1, State::Closed, 17),
    (0, 2, State::Closed, 17),
    (0, 3, State::Closed, 17),
];

/// Once the best time is 17, no prefix of the three multiplies is split.
#[test]
fn expands_by_a_falling_time(rt: HostRuntime) {
    let source = source_of(&rt, MULTIPLIES);
    let mut falling = Falling {
        kept: 40,
        next: 17,
        is_stated: false,
    };
    let piece = piece_by(&rt, block_of(&rt, &source), &mut falling, 100);
    check_lines(&rt, &piece, FALLEN);
    assert!(rt; falling.kept == 17 && piece.timed().is_none());
}

/// A piece may be as large as its tree.
#[test]
fn expands_to_many_orders(rt: HostRuntime) {
    let source = source_of(&rt, SEVEN_MULTIPLIES);
    let piece = piece_of(&rt, block_of(&rt, &source), &[], 44, 10_000);
    assert!(rt; piece.splits() == 8660 && piece.nodes().len() == 8660 + 5040);
}
