//! Tests of a table of marks: what is found in it, kept, settled and forgotten.

ghost use Rattle.std.specs.Prelude.{◌≡◌};
ghost use Rattle.s66_isa.specs.{standard};
ghost use Rattle.s66_line.specs.{instrs_of};

use crate::blocks::LATE_READER;
use crate::reading::{block_of, source_of};
use arrayvec::ArrayVec;
use s66_isa::Profile;
use s66_line::Block;
use s66_model::Rule;
use s66_node::{MarkTable, NodePlace, Walk};
use std::process::Abort;

/// Each is ready from the first on.
const SEVEN_INCREMENTS: &str = "  SB1 1\n  SB2 2\n  SB3 3\n  SB4 4\n  SB5 5\n  SB6 6\n  SB7 7\n";

/// What is done with a table of marks.
enum Step {
    /// The mark of these numbers is kept as that of a line.
    Keep(&'static [u8], usize),
    /// What is found for these numbers.
    Find(&'static [u8], Option<NodePlace>),
    /// Lines become nodes: the root this one, the others those from another on.
    Settle(u32, u32),
    /// Lines that didn't become nodes are forgotten.
    ForgetLines,
    Clear,
}

/// Of two marks of a set, the one that dominates the other stays.
const DOMINATING: &[Step] = &[
    Step::Find(&[1, 3, 2], None),
    Step::Keep(&[1, 3, 2], 7),
    Step::Find(&[1, 3, 2], Some(NodePlace::Line(7))),
    Step::Find(&[1, 2, 3], None),
    // it dominates the first, which goes
    Step::Keep(&[1, 2, 3], 8),
    Step::Find(&[1, 3, 2], Some(NodePlace::Line(8))),
    // neither of these dominates the other
    Step::Keep(&[1, 2, 4], 9),
    Step::Keep(&[1, 4, 2], 10),
    Step::Find(&[1, 2, 4], Some(NodePlace::Line(9))),
    Step::Find(&[1, 4, 2], Some(NodePlace::Line(10))),
    Step::Find(&[1, 2], None),
];

/// After those no mark is found by a rule that names none; nor is one when the table is cleared.
const UNNAMED: &[Step] = &[Step::Find(&[1, 3, 2], None)];

const CLEARED: &[Step] = &[Step::Clear, Step::Find(&[1, 3, 2], None)];

/// Earlier numbers alone are found by the rule of these.
const EARLIER: &[Step] = &[
    Step::Keep(&[1, 2, 3], 1),
    Step::Find(&[1, 3, 2], Some(NodePlace::Line(1))),
    Step::Find(&[1, 2, 3], None),
];

/// Lines become nodes, and lines that don't are forgotten.
const SETTLED: &[Step] = &[
    Step::Keep(&[1], 0),
    Step::Keep(&[1, 2], 1),
    Step::Keep(&[1, 2, 3], 5),
    Step::Settle(9, 40),
    Step::Keep(&[1, 2, 4], 2),
    Step::Find(&[1], Some(NodePlace::Node(9))),
    Step::Find(&[1, 2], Some(NodePlace::Node(40))),
    Step::Find(&[1, 3, 2], Some(NodePlace::Node(44))),
    Step::Find(&[1, 2, 4], Some(NodePlace::Line(2))),
    Step::ForgetLines,
    Step::Find(&[1, 2, 4], None),
    Step::Find(&[1, 3, 2], Some(NodePlace::Node(44))),
];

/// The walk at these numbers of a block, under the standard profile.
fn walk_at<'a, R: Abort>(rt: &R, block: &'a Block<'a>, numbers: &[u8]) -> Walk<'a>
    ensures { result.problem ≡ record { block = instrs_of block.now; profile = standard } }
{
    let mut walk = Walk::new(block, &Profile::standard());
    assert!(rt; walk.try_go_to(numbers));
    walk
}

/// The place that is found for these numbers.
fn found<R: Abort>(
    rt: &R,
    marks: &MarkTable,
    block: &Block,
    rule: Rule,
    numbers: &[u8],
) -> Option<NodePlace>
    requires { marks.now.problem ≡ record { block = instrs_of block.now; profile = standard } }
{
    match marks.find(&walk_at(rt, block, numbers), rule) {
        Some((_, place)) => Some(place),
        None => None,
    }
}

/// Does a step by a rule, and checks what is found.
fn do_step<R: Abort>(rt: &R, marks: &mut MarkTable, block: &Block, rule: Rule, step: &Step)
    requires { marks.old.problem ≡ record { block = instrs_of block.now; profile = standard } }
    ensures { marks.new.problem ≡ marks.old.problem }
{
    match step {
        Step::Keep(numbers, line) => marks.insert(&walk_at(rt, block, numbers), rule, *line),
        Step::Find(numbers, place) => {
            assert!(rt;
                found(rt, marks, block, rule, numbers) == *place,
                "{numbers:?}"
            );
        }
        Step::Settle(root, first) => marks.settle(*root, *first),
        Step::ForgetLines => marks.forget_lines(),
        Step::Clear => marks.clear(),
    }
}

/// Does some steps by a rule.
fn do_steps<R: Abort>(rt: &R, marks: &mut MarkTable, block: &Block, rule: Rule, steps: &[Step])
    requires { marks.old.problem ≡ record { block = instrs_of block.now; profile = standard } }
    ensures { marks.new.problem ≡ marks.old.problem }
{
    for step in steps {
        do_step(rt, marks, block, rule, step);
    }
}

/// Checks which marks of a block of the late reader are found.
fn check_late_reader<R: AllocGlobal + Abort>(rt: &R, block: &Block) {
    let profile = Profile::standard();
    let mut marks = MarkTable::new(rt.alloc(), block, &profile);
    do_steps(rt, &mut marks, block, Rule::ClampedStanding, DOMINATING);
    do_steps(rt, &mut marks, block, Rule::NoneNamed, UNNAMED);
    do_steps(rt, &mut marks, block, Rule::ClampedStanding, CLEARED);
    do_steps(rt, &mut marks, block, Rule::WrittenEarlier, EARLIER);
    marks.clear();
    do_steps(rt, &mut marks, block, Rule::ClampedStanding, SETTLED);
}

/// What a table has whose entries are moved to another one, which is made for two.
const BEFORE_MOVES: &[Step] = &[
    Step::Keep(&[1], 3),
    Step::Keep(&[1, 3, 2], 4),
    // it dominates the last, which goes
    Step::Keep(&[1, 2, 3], 5),
    Step::Keep(&[1, 2, 4], 6),
];

/// Entries go with their nodes, the last first, and no more are kept than a table is made for.
const MOVED_TO: &[Step] = &[
    Step::Find(&[1, 2, 4], Some(NodePlace::Line(6))),
    Step::Find(&[1, 3, 2], Some(NodePlace::Line(5))),
    Step::Find(&[1], None),
];

const MOVED_FROM: &[Step] = &[
    Step::Find(&[1, 2, 4], None),
    Step::Keep(&[1, 2, 4], 7),
    Step::Find(&[1, 2, 4], Some(NodePlace::Line(7))),
];

/// Moves the entries of a table to another one, the last first.
fn move_entries(from: &mut MarkTable, to: &mut MarkTable, rule: Rule)
    requires { to.old.problem ≡ from.old.problem }
    ensures from { from.new.problem ≡ from.old.problem }
    ensures to { to.new.problem ≡ to.old.problem }
{
    for _ in 0..4u32 {
        if let Some((entry, place)) = from.pop() {
            to.put(entry, place, rule);
        }
    }
}

/// Checks which marks are found after entries have gone from one table to another.
fn check_moved<R: AllocGlobal + Abort>(rt: &R, block: &Block) {
    let rule = Rule::ClampedStanding;
    let profile = Profile::standard();
    let mut own = MarkTable::new(rt.alloc(), block, &profile);
    let mut two = MarkTable::with_limit(rt.alloc(), block, &profile, 2);
    do_steps(rt, &mut own, block, rule, BEFORE_MOVES);
    move_entries(&mut own, &mut two, rule);
    do_steps(rt, &mut two, block, rule, MOVED_TO);
    do_steps(rt, &mut own, block, rule, MOVED_FROM);
}

#[test]
fn finds_dominating_marks(rt: HostRuntime) {
    let source = source_of(&rt, LATE_READER);
    let block = block_of(&rt, &source);
    check_late_reader(&rt, block);
    check_moved(&rt, block);
}

/// The numbers up to 7 whose bits are set.
fn numbers_of(bits: u32) -> ArrayVec<u8, 7> {
    let mut numbers = ArrayVec::new();
    for n in 1..=7u8 {
        if (bits >> n) & 1 == 1 && numbers.len() < 7 {
            numbers.push(n);
        }
    }
    numbers
}

/// Keeps the mark of each set of seven numbers, as that of the line with the set's number.
fn keep_sets<R: Abort>(rt: &R, marks: &mut MarkTable, block: &Block)
    requires { marks.old.problem ≡ record { block = instrs_of block.now; profile = standard } }
    ensures { marks.new.problem ≡ marks.old.problem }
{
    for set in 0..128u32 {
        let numbers = numbers_of(2 * set);
        let walk = walk_at(rt, &*block, numbers.as_slice());
        marks.insert(&walk, Rule::ClampedStanding, set as usize);
    }
}

/// Checks that a mark of each set of seven numbers is found.
fn check_sets<R: AllocGlobal + Abort>(rt: &R, block: &Block) {
    let rule = Rule::ClampedStanding;
    let mut marks = MarkTable::new(rt.alloc(), block, &Profile::standard());
    keep_sets(rt, &mut marks, block);
    for set in 0..128u32 {
        let numbers = numbers_of(2 * set);
        let place = found(rt, &marks, block, rule, numbers.as_slice());
        assert!(rt; place == Some(NodePlace::Line(set)), "{set}");
    }
}

#[test]
fn finds_marks_of_many_sets(rt: HostRuntime) {
    let source = source_of(&rt, SEVEN_INCREMENTS);
    check_sets(&rt, block_of(&rt, &source));
}
