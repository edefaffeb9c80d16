//! What trees show beyond fact lines.
//! Searches seek orders below the best time, with wider beams between them; then what they show is raised a minor cycle at a time, each
//! time by the lines and the tree of a search for orders that take less.

ghost use Rattle.std.specs.Prelude.{◌≤◌, ◌+◌, ◌/◌, IfOk};
ghost use Rattle.s66_deep.specs.{IsGood};

use crate::best_first::{Branched, Limits, branch, root_leaf};
use crate::facts::Finder;
use crate::instance::Instance;
use crate::limits::{
    BEAM_WIDTH, FIRST_SHARE, RAISES_LIMIT, SHORT_COUNT, SPLITS_A_SUPPOSITION, WIDE_SPLITS,
    WIDE_WIDTH, WIDEST_WIDTH,
};
use crate::lines::{Bound, Halved, Lined, beam_by, best_by_lines, found_below, halve};
use crate::orders::faster;
use s66_cert::{FactLeaf, Tree, TreeLine};
use s66_line::Block;
use s66_moments::FactStep;
use s66_time::Timed;
use std::alloc::{AllocError, Global};

/// The lines of a document before its fact lines, but for those of its instructions.
const HEAD_LINES: u32 = 6;

/// What shows a bound, as a certificate has it: fact lines and a tree.
#[derive(Drop)]
pub(crate) struct Written {
    pub(crate) bound: u32,
    pub(crate) lines: Vec<FactStep>,
    pub(crate) tree: Tree,
}

/// What may be shown of all orders: by fact lines and one leaf, or by a tree.
#[derive(Drop)]
pub(crate) enum Shown {
    ByLeaf(Bound),
    ByTree(Written),
}

/// The best order, what may be shown of all, and how many splits were made for both.
#[derive(Drop)]
pub(crate) struct Searched {
    pub(crate) best: Timed,
    pub(crate) shown: Shown,
    pub(crate) splits: u32,
}

/// For what orders are sought, and how long.
#[derive(Clone, Copy)]
struct Goal {
    /// They take less than this, in minor cycles.
    limit: u32,
    /// One that takes no more than this is enough: a bound of all.
    bound: u32,
    /// The most splits.
    splits: u32,
}

/// What a search of so many splits found: the best order, and what suppositions or its tree show, if that is more than was known.
#[derive(Drop)]
pub(crate) struct Attempt {
    pub(crate) best: Timed,
    pub(crate) splits: u32,
    pub(crate) shown: Option<Shown>,
}

/// The finder of a bound. If its lines are to be printed, it has only those that the bound needs.
fn for_print(bound: Bound, is_printed: bool) -> Result<Finder, AllocError> {
    if is_printed {
        bound.finder.needed(bound.value)
    } else {
        Ok(bound.finder)
    }
}

/// The fact lines of a bound, and one leaf: the instruction of a number came too late if it came first.
fn by_leaf(alloc: Global, bound: Bound, is_printed: bool) -> Result<Written, AllocError> {
    let value = bound.value;
    let finder = for_print(bound, is_printed)?;
    let (leaf, _) = finder.root();
    let mut tree = Tree::new(alloc);
    tree.push(TreeLine::Factual(FactLeaf::Next(leaf)))?;
    Ok(Written {
        bound: value,
        lines: finder.steps()?,
        tree,
    })
}

impl Shown {
    /// What all orders take at least, in minor cycles.
    fn bound(&self) -> u32 {
        match self {
            Shown::ByLeaf(bound) => bound.value,
            Shown::ByTree(written) => written.bound,
        }
    }

    /// This, or the other if it is more.
    fn or_more(self, other: Option<Shown>) -> Shown {
        match other {
            Some(shown) if self.bound() < shown.bound() => shown,
            _ => self,
        }
    }

    /// As a certificate has it, which is printed or not. `Err` is out of memory.
    pub(crate) fn written(self, alloc: Global, is_printed: bool) -> Result<Written, AllocError> {
        match self {
            Shown::ByLeaf(bound) => by_leaf(alloc, bound, is_printed),
            Shown::ByTree(written) => Ok(written),
        }
    }
}

/// The number in its document of the first line of a tree after so many fact lines.
fn first_line(block: &Block, lines: usize) -> u32 {
    let before = block.count().saturating_add(lines);
    match u32::try_from(before) {
        Ok(before) => before.saturating_add(HEAD_LINES + 1),
        Err(_) => u32::MAX,
    }
}

/// A search for orders of a goal, by fact lines of such orders.
fn search_below(
    instance: &Instance<'_>,
    below: Finder,
    best: Timed,
    goal: Goal,
) -> Result<Attempt, AllocError>
    requires { IsGood instance.now best }
    ensures best { IfOk result (λ attempt. IsGood instance.now attempt.best) }
    ensures splits { IfOk result (λ attempt. attempt.splits ≤ goal.splits) }
{
    let limits = Limits {
        below: goal.limit,
        enough: goal.bound,
        splits: goal.splits,
        first_line: first_line(instance.block, below.line_count()),
    };
    let copy = best.duplicate();
    let branched = branch(
        instance.alloc,
        instance.block,
        instance.profile,
        &below,
        copy,
        limits,
    )?;
    let Branched {
        best: other,
        splits,
        bound,
        tree,
    } = branched;
    let shown = match tree {
        Some(tree) => Some(Shown::ByTree(Written {
            bound,
            lines: below.steps()?,
            tree,
        })),
        None => None,
    };
    Ok(Attempt {
        best: faster(best, Some(other)),
        splits,
        shown,
    })
}

/// The lines of a finder and one leaf of the empty prefix, if they show that no order takes less than a limit.
fn by_root(
    instance: &Instance<'_>,
    finder: &Finder,
    limit: u32,
) -> Result<Option<Written>, AllocError> {
    let tree = root_leaf(
        instance.alloc,
        instance.block,
        instance.profile,
        finder,
        limit,
    )?;
    match tree {
        Some(tree) => Ok(Some(Written {
            bound: limit,
            lines: finder.steps()?,
            tree,
        })),
        None => Ok(None),
    }
}

/// The same without a line, if that is enough.
fn by_short_root(
    instance: &Instance<'_>,
    finder: &Finder,
    limit: u32,
) -> Result<Option<Written>, AllocError> {
    let written = by_root(instance, finder, limit)?;
    if written.is_none() {
        return Ok(None);
    }
    let first = finder.without_lines()?;
    let short = by_root(instance, &first, limit)?;
    Ok(short.or(written))
}

/// A leaf of the empty prefix, or suppositions of orders of a goal, and if these don't show that there is none, a search for such orders.
/// How many suppositions are left is counted down.
fn suppose_and_search(
    instance: &Instance<'_>,
    below: Finder,
    best: Timed,
    goal: Goal,
    suppositions: &mut u32,
) -> Result<Attempt, AllocError>
    requires { IsGood instance.now best }
    ensures best { IfOk result (λ attempt. IsGood instance.now attempt.best) }
    ensures splits { IfOk result (λ attempt. attempt.splits ≤ goal.splits) }
{
    let mut below = below;
    if below.root().1 < goal.limit
        && let Some(written) = by_short_root(instance, &below, goal.limit)?
    {
        return Ok(Attempt {
            best,
            splits: 0,
            shown: Some(Shown::ByTree(written)),
        });
    }
    *suppositions = below.suppose_below(goal.limit, *suppositions)?;
    if goal.limit <= below.root().1 {
        return Ok(Attempt {
            best,
            splits: 0,
            shown: Some(Shown::ByLeaf(Bound {
                value: goal.limit,
                finder: below,
            })),
        });
    }
    search_below(instance, below, best, goal)
}

/// An order that takes no more than a bound of all, or a tree that shows one minor cycle more: by the fact lines of orders that take no
/// more, a beam, and a search of at most so many splits.
fn try_above(
    instance: &Instance<'_>,
    finder: &Finder,
    best: Timed,
    bound: u32,
    splits: u32,
    suppositions: &mut u32,
) -> Result<Attempt, AllocError>
    requires { IsGood instance.now best }
    ensures best { IfOk result (λ attempt. IsGood instance.now attempt.best) }
    ensures splits { IfOk result (λ attempt. attempt.splits ≤ splits) }
{
    let limit = bound.saturating_add(1);
    let below = found_below(finder, limit)?;
    let other = beam_by(instance, &below, WIDE_WIDTH, limit)?;
    let best = faster(best, other);
    if best.total() <= bound {
        return Ok(Attempt {
            best,
            splits: 0,
            shown: None,
        });
    }
    let goal = Goal {
        limit,
        bound,
        splits,
    };
    suppose_and_search(instance, below, best, goal, suppositions)
}

/// Raises what is shown of all orders, one minor cycle after the other, each by the fact lines of orders that take less than what is to
/// be shown, until an order takes no more, or so many more splits are made.
fn raise(
    instance: &Instance<'_>,
    finder: &Finder,
    searched: Searched,
    most: u32,
    suppositions: &mut u32,
) -> Result<Searched, AllocError>
    requires { IsGood instance.now searched.best }
    ensures best { IfOk result (λ raised. IsGood instance.now raised.best) }
    ensures splits { IfOk result (λ raised. raised.splits ≤ searched.splits + most) }
{
    let Searched {
        mut best,
        mut shown,
        splits,
    } = searched;
    let mut made = 0u32;
    for _ in 0..RAISES_LIMIT {
        let bound = shown.bound();
        if best.total() <= bound {
            break;
        }
        let left = most.saturating_sub(made);
        let attempt = try_above(instance, finder, best, bound, left, suppositions)?;
        best = attempt.best;
        made = made.saturating_add(attempt.splits);
        shown = shown.or_more(attempt.shown);
        if shown.bound() <= bound {
            break;
        }
    }
    let splits = splits.saturating_add(made);
    Ok(Searched {
        best,
        shown,
        splits,
    })
}

/// Goes on from what was found, unless no order takes less: by fact lines of orders that take less, at most so many suppositions, and a
/// search of at most so many more splits.
fn search_lines(
    instance: &Instance<'_>,
    lined: Lined,
    shown: Shown,
    splits: u32,
    most: u32,
    suppositions: &mut u32,
) -> Result<Searched, AllocError>
    requires { IsGood instance.now lined.best }
    ensures best { IfOk result (λ next. IsGood instance.now next.best) }
    ensures splits { IfOk result (λ next. next.splits ≤ splits + most) }
{
    let Lined { best, below } = lined;
    let bound = shown.bound();
    if best.total() <= bound {
        return Ok(Searched {
            best,
            shown,
            splits,
        });
    }
    let goal = Goal {
        limit: best.total(),
        bound,
        splits: most,
    };
    let attempt = suppose_and_search(instance, below, best, goal, suppositions)?;
    Ok(Searched {
        best: attempt.best,
        shown: shown.or_more(attempt.shown),
        splits: splits.saturating_add(attempt.splits),
    })
}

/// Goes on from what was found, unless no order takes less, by the fact lines of orders that take less: beams of this width, and a search
/// of at most so many more splits.
fn go_on(
    instance: &Instance<'_>,
    finder: &Finder,
    searched: Searched,
    width: usize,
    most: u32,
    suppositions: &mut u32,
) -> Result<Searched, AllocError>
    requires { IsGood instance.now searched.best }
    ensures best { IfOk result (λ next. IsGood instance.now next.best) }
    ensures splits { IfOk result (λ next. next.splits ≤ searched.splits + most) }
{
    if searched.best.total() <= searched.shown.bound() {
        return Ok(searched);
    }
    let Searched {
        best,
        shown,
        splits,
    } = searched;
    let lined = best_by_lines(instance, finder, width, best)?;
    search_lines(instance, lined, shown, splits, most, suppositions)
}

/// The best order that is found, and what shows that none takes less, or how little less: fact lines and a leaf, or a tree of at most
/// this many splits. At most half as many more are made to raise what is shown, after those for orders that take less than the best.
/// Beside few splits of a long block nothing is tried that takes longer than they do.
pub(crate) fn search(
    instance: &Instance<'_>,
    finder: &Finder,
    best: Timed,
    most: u32,
) -> Result<Searched, AllocError>
    requires { IsGood instance.now best }
    ensures best { IfOk result (λ searched. IsGood instance.now searched.best) }
    ensures splits { IfOk result (λ searched. searched.splits ≤ most + most / 2) }
{
    let lined = best_by_lines(instance, finder, BEAM_WIDTH, best)?;
    if most < WIDE_SPLITS && SHORT_COUNT < instance.block.count() {
        let shown = Shown::ByLeaf(lined.bound()?);
        return search_lines(instance, lined, shown, 0, most, &mut 0);
    }
    let Halved { best, below, bound } = halve(instance, lined)?;
    let searched = Searched {
        best,
        shown: Shown::ByLeaf(bound),
        splits: 0,
    };
    let mut suppositions = most / SPLITS_A_SUPPOSITION;
    let first = go_on(
        instance,
        &below,
        searched,
        WIDE_WIDTH,
        most / FIRST_SHARE,
        &mut suppositions,
    )?;
    let left = most.saturating_sub(first.splits);
    let second = go_on(
        instance,
        &below,
        first,
        WIDEST_WIDTH,
        left,
        &mut suppositions,
    )?;
    raise(instance, &below, second, most / 2, &mut suppositions)
}

/// What shows that no order takes less than this one, which is known to be best: fact lines and a leaf, or a tree of at most so many
/// splits.
pub(crate) fn show(
    instance: &Instance<'_>,
    finder: &Finder,
    best: Timed,
    most: u32,
) -> Result<Attempt, AllocError>
    requires { IsGood instance.now best }
    ensures best { IfOk result (λ attempt. IsGood instance.now attempt.best) }
    ensures splits { IfOk result (λ attempt. attempt.splits ≤ most) }
{
    let total = best.total();
    let below = found_below(finder, total)?;
    let goal = Goal {
        limit: total,
        // a tree that shows less is of no use
        bound: total.saturating_sub(1),
        splits: most,
    };
    suppose_and_search(instance, below, best, goal, &mut 0)
}
