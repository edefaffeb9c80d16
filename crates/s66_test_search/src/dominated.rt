//! Tests of expansions with dominated leaves, by both rules.

ghost use Rattle.std.specs.Prelude.{◌≡◌};
ghost use Rattle.s66_isa.specs.{standard};
ghost use Rattle.s66_line.specs.{instrs_of};

use crate::blocks::{LATE_READER, THREE_ALIKE};
use crate::reading::{block_of, source_of};
use s66_isa::Profile;
use s66_line::Block;
use s66_model::Rule;
use s66_node::{Constant, MarkTable, NodePlace, Piece, State, Walk};
use s66_time::is_beginning;
use std::process::Abort;

/// Checks how many splits a piece has, and how many of its nodes are dominated. Each other one is a leaf with this value.
fn check_counts<R: Abort>(rt: &R, piece: &Piece, leaf: u32, counts: (u32, u32)) {
    let mut dominated = 0u32;
    for node in piece.nodes() {
        match node.state {
            State::Split => {}
            State::Closed => assert!(rt; node.value == leaf),
            State::Dominated => dominated = dominated.saturating_add(1),
            State::Open | State::Out => panic!(rt; "no node is open"),
        }
    }
    assert!(rt; piece.splits() == counts.0 && dominated == counts.1);
}

/// Checks how many splits a piece has, and how many of its nodes are dominated, by the node with these numbers at this place.
fn check_piece<R: Abort>(
    rt: &R,
    piece: &Piece,
    leaf: u32,
    counts: (u32, u32),
    numbers: &[u8],
    place: NodePlace,
) {
    check_counts(rt, piece, leaf, counts);
    for dominance in piece.dominances() {
        let name = &dominance.name;
        assert!(rt; name.numbers.as_slice() == numbers && name.place == place);
    }
}

/// A piece over a prefix by the nodes before each in the piece.
pub(crate) fn dominated_piece<R: AllocGlobal + Abort>(
    rt: &R,
    block: &Block,
    prefix: &[u8],
    best: u32,
    allowance: u32,
) -> Piece {
    assert!(rt; is_beginning(block, prefix));
    let profile = Profile::standard();
    let mut marks = MarkTable::new(rt.alloc(), block, &profile);
    let (mut best, rule) = (Constant(best), Rule::WrittenEarlier);
    Walk::new(block, &profile)
        .expand_dominated(rt.alloc(), prefix, &mut best, allowance, &mut marks, rule)
        .expect(rt, "memory")
}

/// With all orders of three that take 8, the beginnings 2 1, 3 1 and 3 2 are dominated.
fn check_three_alike<R: AllocGlobal + Abort>(rt: &R, block: &Block) {
    for best in 8..10u32 {
        let piece = dominated_piece(rt, block, &[], best, 64);
        check_counts(rt, &piece, 8, (7, 3));
        assert!(rt; piece.rule() == Rule::WrittenEarlier);
    }
}

/// Of the late reader's beginnings over 1, only 1 3 2 is dominated, by 1 2 3.
fn check_late_reader<R: AllocGlobal + Abort>(rt: &R, block: &Block) {
    let piece = dominated_piece(rt, block, &[1], 40, 64);
    check_piece(rt, &piece, 33, (9, 1), &[1, 2, 3], NodePlace::Line(2));
}

#[test]
fn expands_by_earlier_nodes(rt: HostRuntime) {
    let alike = source_of(&rt, THREE_ALIKE);
    check_three_alike(&rt, block_of(&rt, &alike));
    let late = source_of(&rt, LATE_READER);
    check_late_reader(&rt, block_of(&rt, &late));
}

/// A piece over a prefix of one number of three alike, by marks that go on from piece to piece.
fn piece_after<R: AllocGlobal + Abort>(rt: &R, block: &Block, marks: &mut MarkTable, n: u8) -> Piece
    requires { marks.old.problem ≡ record { block = instrs_of block.now; profile = standard } }
    ensures { marks.new.problem ≡ marks.old.problem }
{
    assert!(rt; is_beginning(block, &[n]));
    let (mut best, rule) = (Constant(9), Rule::ClampedStanding);
    Walk::new(block, &Profile::standard())
        .expand_dominated(rt.alloc(), &[n], &mut best, 64, marks, rule)
        .expect(rt, "memory")
}

/// Checks pieces over prefixes of three alike: 2 1 of the second is dominated by a node of the first, which stands by then.
fn check_standing<R: AllocGlobal + Abort>(rt: &R, block: &Block) {
    let mut marks = MarkTable::new(rt.alloc(), block, &Profile::standard());
    let first = piece_after(rt, block, &mut marks, 1);
    check_counts(rt, &first, 8, (3, 0));
    marks.settle(4, 20);
    let second = piece_after(rt, block, &mut marks, 2);
    check_piece(rt, &second, 8, (2, 1), &[1, 2], NodePlace::Node(20));
}

#[test]
fn expands_by_standing_nodes(rt: HostRuntime) {
    let source = source_of(&rt, THREE_ALIKE);
    check_standing(&rt, block_of(&rt, &source));
}
