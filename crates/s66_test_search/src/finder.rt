//! Tests of what finds fact lines: what loads and pairs show, and that no line that is left is needless. Other tests use its calls.

use crate::blocks::{SIXTEEN, TWENTY, TWENTY_FOUR, TWO_BOOLEANS, TWO_SUMS, as_written};
use crate::reading::{block_of, source_of};
use crate::text::{Claimed, NONE, verdict_on};
use s66_checker::{Reason, Verdict};
use s66_deep::Finder;
use s66_isa::Profile;
use s66_line::Block;
use s66_moments::{FactLine, FactStep};
use std::process::Abort;

/// What a finder knows of a block by dependences alone.
pub(crate) fn found_at_first<R: AllocGlobal + Abort>(rt: &R, block: &Block) -> Finder {
    Finder::new(rt.alloc(), block, &Profile::standard()).expect(rt, "memory")
}

/// What a finder knows of a block that has found its loads.
pub(crate) fn found_by_loads<R: AllocGlobal + Abort>(rt: &R, block: &Block) -> Finder {
    let mut finder = found_at_first(rt, block);
    finder.find_loads().expect(rt, "memory");
    finder
}

/// What it knows that has found loads, and then what is so in all orders that take less than a time.
pub(crate) fn found_below<R: AllocGlobal + Abort>(rt: &R, block: &Block, below: u32) -> Finder {
    let mut finder = found_by_loads(rt, block);
    finder.find_below(below).expect(rt, "memory");
    finder
}

/// The steps of those lines that a bound needs.
fn needed_steps<R: AllocGlobal + Abort>(rt: &R, finder: &Finder, bound: u32) -> Vec<FactStep> {
    let needed = finder.needed(bound).expect(rt, "memory");
    needed.steps().expect(rt, "memory")
}

/// The tree that is one leaf: an instruction comes too late if it comes first.
fn leaf_of<R: AllocGlobal + Abort>(rt: &R, n: u8) -> String {
    format!(in rt.alloc(); "E {n}\n").expect(rt, "memory")
}

/// The longest path takes 12. That two need one Boolean unit after the issue of the first makes 16.
#[test]
fn a_load_shows_more_than_a_path(rt: HostRuntime) {
    let source = source_of(&rt, TWO_BOOLEANS);
    let block = block_of(&rt, &source);
    let timed = as_written(block, &Profile::standard());
    let claimed = Claimed {
        code: TWO_BOOLEANS,
        timed: &timed,
        bound: 16,
    };
    assert!(rt; found_at_first(&rt, block).root() == (1, 12));
    let finder = found_by_loads(&rt, block);
    assert!(rt; finder.root() == (1, 16));
    let needed = needed_steps(&rt, &finder, 16);
    assert!(rt; needed.len() == 1);
    let verdict = verdict_on(&rt, claimed, needed.as_slice(), NONE, "E 1\n");
    assert!(rt; matches!(verdict, Verdict::Yes { .. }));
    let verdict = verdict_on(&rt, claimed, needed.as_slice(), 0, "E 1\n");
    let reason = Reason::Event;
    assert!(rt; verdict == Verdict::No { line: 11, reason });
}

/// Below 31 the fifth instruction stands before the sixth, and then a path takes 31.
#[test]
fn a_pair_shows_more_than_loads(rt: HostRuntime) {
    let source = source_of(&rt, TWO_SUMS);
    let block = block_of(&rt, &source);
    assert!(rt; found_by_loads(&rt, block).root().1 < 31);
    let finder = found_below(&rt, block, 31);
    assert!(rt; finder.root() == (1, 31));
    let needed = needed_steps(&rt, &finder, 31);
    assert!(rt; matches!(needed.as_slice(), [FactStep::Fact(FactLine::Pair(5, 6))]));
}

/// A block of whose orders paths and loads show that they take 19 at least, and only a supposition that they take 22, as some do.
const SUPPOSED: &str = "  DX3 X1-X4
  IX3 X1+X0
  DX2 X2-X5
  FX7 X1*X1
  LX2 B2,X3
  BX2 X2*X2
  BX0 X7*X4
  BX5 X7*X5
";

/// Of two numbers one is supposed to stand before the other, and then no order takes less.
#[test]
fn a_supposition_shows_more_than_pairs(rt: HostRuntime) {
    let source = source_of(&rt, SUPPOSED);
    let block = block_of(&rt, &source);
    let timed = as_written(block, &Profile::standard());
    let mut finder = found_below(&rt, block, 22);
    assert!(rt; finder.root().1 == 19);
    let left = finder.suppose_below(22, 0).expect(&rt, "memory");
    assert!(rt; left == 0 && finder.root().1 == 19);
    finder.suppose_below(22, 100).expect(&rt, "memory");
    assert!(rt; 22 <= finder.root().1);
    let needed = finder.needed(22).expect(&rt, "memory");
    let steps = needed.steps().expect(&rt, "memory");
    let claimed = Claimed {
        code: SUPPOSED,
        timed: &timed,
        bound: 22,
    };
    let leaf = leaf_of(&rt, needed.root().0);
    let verdict = verdict_on(&rt, claimed, steps.as_slice(), NONE, leaf.as_str());
    assert!(rt; matches!(verdict, Verdict::Yes { .. }));
    assert!(rt; steps.len() < finder.line_count());
}

/// Checks that a document with what is found shows a bound, that fewer lines do so too, and that none of these can be left out.
fn check_lines<R: AllocGlobal + Abort>(rt: &R, claimed: Claimed<'_>, finder: &Finder) {
    let yes = Verdict::Yes {
        time: claimed.timed.total(),
        bound: claimed.bound,
    };
    let needed = finder.needed(claimed.bound).expect(rt, "memory");
    let all = leaf_of(rt, finder.root().0);
    let few = leaf_of(rt, needed.root().0);
    let steps = finder.steps().expect(rt, "memory");
    let left = needed.steps().expect(rt, "memory");
    assert!(rt; verdict_on(rt, claimed, steps.as_slice(), NONE, all.as_str()) == yes);
    assert!(rt; verdict_on(rt, claimed, left.as_slice(), NONE, few.as_str()) == yes);
    assert!(rt; left.len() < steps.len());
    for place in 0..left.len() {
        let verdict = verdict_on(rt, claimed, left.as_slice(), place, few.as_str());
        assert!(rt; matches!(verdict, Verdict::No { .. }));
    }
}

/// Blocks, what fact lines alone show at least, and what a best order takes.
const SHOWN: &[(&str, u32, u32)] = &[(SIXTEEN, 54, 60), (TWENTY, 48, 50), (TWENTY_FOUR, 58, 58)];

/// What fact lines for orders that take less than a best one show of a block.
#[test]
fn lines_are_right_and_needed(rt: HostRuntime) {
    for &(code, least, best) in SHOWN {
        let source = source_of(&rt, code);
        let block = block_of(&rt, &source);
        let timed = &as_written(block, &Profile::standard());
        let finder = found_below(&rt, block, best);
        let (_, bound) = finder.root();
        assert!(rt; least <= bound && bound <= best, "{code}");
        check_lines(&rt, Claimed { code, timed, bound }, &finder);
    }
}
