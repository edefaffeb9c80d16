//! Tests of the best-first search: its orders, its bounds, and the trees that it writes, which the checker goes over.

use crate::blocks::{BEST_TIMES, MULTIPLIES, THREE_BOOLEANS, TWO_BOOLEANS, as_written};
use crate::finder::{found_at_first, found_below};
use crate::reading::{block_of, source_of};
use crate::text::{Claimed, NONE, tree_text, verdict_on};
use s66_cert::Tree;
use s66_checker::Verdict;
use s66_deep::{Branched, Finder, Limits, branch};
use s66_isa::Profile;
use s66_line::Block;
use std::process::Abort;

/// More splits than any of the searches takes.
const SPLITS: u32 = 10_000;

/// The lines of a document before its fact lines, but for those of its instructions.
const HEAD_LINES: u32 = 6;

/// The number in its document of the first line of a tree after so many fact lines.
fn first_line(block: &Block, lines: usize) -> u32 {
    let before = block.count().saturating_add(lines);
    u32::try_from(before)
        .unwrap_or(u32::MAX)
        .saturating_add(HEAD_LINES + 1)
}

/// A search for orders that take less than a time, from the order in which the block is written.
fn search<R: AllocGlobal + Abort>(
    rt: &R,
    block: &Block,
    finder: &Finder,
    below: u32,
    splits: u32,
) -> Branched {
    search_until(rt, block, finder, below, 0, splits)
}

/// The same, which stops at an order that is enough.
fn search_until<R: AllocGlobal + Abort>(
    rt: &R,
    block: &Block,
    finder: &Finder,
    below: u32,
    enough: u32,
    splits: u32,
) -> Branched {
    let profile = Profile::standard();
    let written = as_written(block, &profile);
    let limits = Limits {
        below,
        enough,
        splits,
        first_line: first_line(block, finder.line_count()),
    };
    branch(rt.alloc(), block, &profile, finder, written, limits).expect(rt, "memory")
}

/// The tree of a search.
fn tree_of<'b, R: Abort>(rt: &R, branched: &'b Branched) -> &'b Tree {
    branched.tree.as_ref().expect(rt, "a tree")
}

/// Checks that the tree of a search shows its bound of a block's orders.
fn check_tree<R: AllocGlobal + Abort>(rt: &R, code: &str, finder: &Finder, branched: &Branched) {
    let (timed, bound) = (&branched.best, branched.bound);
    let time = timed.total();
    let claimed = Claimed { code, timed, bound };
    let tree = tree_text(rt, tree_of(rt, branched));
    let steps = finder.steps().expect(rt, "memory");
    let verdict = verdict_on(rt, claimed, steps.as_slice(), NONE, tree.as_str());
    assert!(rt; verdict == Verdict::Yes { time, bound }, "{code}");
}

/// Checks a search for orders that take less than a time: what the order takes that it leaves, and its bound, as its tree shows it.
fn check_search<R: AllocGlobal + Abort>(
    rt: &R,
    code: &str,
    block: &Block,
    below: u32,
    time: u32,
    bound: u32,
) {
    let finder = found_below(rt, block, below);
    let branched = search(rt, block, &finder, below, SPLITS);
    assert!(rt;
        branched.best.total() == time && branched.bound == bound,
        "{code}"
    );
    check_tree(rt, code, &finder, &branched);
}

/// A search for orders that take less than the order in which a block is written finds a best one; for less than a best one there is
/// none.
#[test]
fn shows_that_an_order_is_best(rt: HostRuntime) {
    for &(code, best) in BEST_TIMES {
        let source = source_of(&rt, code);
        let block = block_of(&rt, &source);
        let time = as_written(block, &Profile::standard()).total();
        check_search(&rt, code, block, time, best, best);
        check_search(&rt, code, block, best, time, best);
    }
}

/// Checks that a search which knows dependences alone, and may make one split less than it needs, doesn't show that its order is best, and
/// that it writes no tree if all orders are known to take as much as it shows.
fn check_cut_off<R: AllocGlobal + Abort>(rt: &R, code: &str, block: &Block, best: u32) {
    let finder = found_at_first(rt, block);
    let whole = search(rt, block, &finder, u32::MAX, SPLITS);
    assert!(rt; whole.bound == best && 0 < whole.splits, "{code}");
    let fewer = whole.splits.saturating_sub(1);
    let branched = search(rt, block, &finder, u32::MAX, fewer);
    let bound = branched.bound;
    assert!(rt; branched.splits == fewer, "{code}");
    assert!(rt; bound <= best && bound < branched.best.total(), "{code}");
    check_tree(rt, code, &finder, &branched);
    let same = search_until(rt, block, &finder, u32::MAX, bound, fewer);
    assert!(rt; same.bound == bound && same.tree.is_none(), "{code}");
}

#[test]
fn shows_less_by_fewer_splits(rt: HostRuntime) {
    for &(code, best) in BEST_TIMES {
        // a load shows the best time of these without a split
        if code != TWO_BOOLEANS && code != MULTIPLIES {
            let source = source_of(&rt, code);
            check_cut_off(&rt, code, block_of(&rt, &source), best);
        }
    }
}

#[test]
fn stops_at_an_order_that_is_enough(rt: HostRuntime) {
    for &(code, best) in BEST_TIMES {
        let source = source_of(&rt, code);
        let block = block_of(&rt, &source);
        let finder = found_at_first(&rt, block);
        let branched = search_until(&rt, block, &finder, u32::MAX, best, SPLITS);
        assert_eq!(rt; branched.best.total(), best, "{code}");
        assert!(rt; branched.tree.is_none(), "{code}");
    }
}

/// Longest paths show 18 after the first instruction and 16 after the second. But two of those that remain need the only Boolean unit
/// for 4 each. After the first they have it from 4 on, after the second they have X1 from 3 on, and 10 are left after either of them.
#[test]
fn closes_prefixes_by_loads(rt: HostRuntime) {
    let source = source_of(&rt, THREE_BOOLEANS);
    let block = block_of(&rt, &source);
    let finder = found_at_first(&rt, block);
    let branched = search(&rt, block, &finder, 21, SPLITS);
    check_tree(&rt, THREE_BOOLEANS, &finder, &branched);
    let tree = tree_text(&rt, tree_of(&rt, &branched));
    assert!(rt; tree.as_str() == "S 1 2\nL 4 3 4\nL 3 3 4\n");
}
