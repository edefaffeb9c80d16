//! The tree of an expansion as it grows: branch and bound, depth first by rising number, with a stack of what is still to come at each
//! depth.
//!
//! A prefix is a leaf if its floor is no less than the best time, is dominated if a node is known that dominates it, is split while the
//! allowance lasts, and stays open after that.

ghost use Rattle.std.specs.Prelude.{◌≡◌, ◌≤◌, ◌++◌, ◌⊎◌, [], ℕ, List, IfOk, OnOk, IfSome, IfNone, IsTrue};
ghost use Rattle.s66_isa.specs.{Among};
ghost use Rattle.s66_model.specs.{NoneNamed, WrittenEarlier, floor_value, Tree, Terminal, whole_at};
ghost use Rattle.s66_node.specs.{Span, span, IsDue, IsFound, IsOpen, IsLeast, IsGrown, IsEmpty, IsValued, terminal_by};

use crate::least::Least;
use crate::name::{Dominance, Name};
use crate::naming::Naming;
use crate::node::{Node, State};
use crate::walk::Walk;
use crate::whole_order::{WholeOrder, keep_lesser};
use arrayvec::ArrayVec;
use s66_isa::{BLOCK_LIMIT, Set};
use s66_model::Rule;
use std::alloc::{AllocError, Global};
use std::boxed::Box;

/// How many nodes there is room for from the start in a tree that is split: a small tree needs no more.
const FIRST_NODES: usize = 64;

/// A tree by its nodes in preorder, what its dominated nodes have besides, how many of its nodes are split, and the first of the
/// least of its whole orders.
#[derive(Drop)]
pub(crate) struct Grown {
    pub(crate) nodes: Vec<Node>,
    pub(crate) dominances: Vec<Dominance>,
    pub(crate) splits: u32,
    pub(crate) least: Option<WholeOrder>,
}

/// What a prefix has that isn't split. A value is that of its floor, in minor cycles.
#[derive(Drop)]
pub(crate) enum Unsplit {
    /// Its floor is its leaf.
    Leaf { value: u32 },
    /// It stays open.
    Open { value: u32 },
    /// This node dominates it.
    Dominated { value: u32, name: Box<Name> },
}

impl Unsplit {
    ghost use Rattle.std.specs.Prelude.{◌≡◌};
    ghost use Rattle.s66_node.specs.{state_by};

    /// The state of its node.
    fn state(&self) -> State
        ensures { result ≡ state_by self.now }
    {
        match self {
            Unsplit::Leaf { .. } => State::Closed,
            Unsplit::Open { .. } => State::Open,
            Unsplit::Dominated { .. } => State::Dominated,
        }
    }
}

/// A node that is split, by its place, and the last numbers of its children that are still to come.
#[derive(Clone, Copy, Default)]
pub(crate) struct OpenSplit {
    pub(crate) node: u32,
    pub(crate) left: Set,
}

/// A count of nodes or names as the place of the next one. `Err` if no place is so great: there is no memory for so many.
fn place_of(count: usize) -> Result<u32, AllocError>
    ensures { IfOk result (λ place. place ≡ count) }
{
    match u32::try_from(count) {
        Ok(place) => Ok(place),
        Err(_) => Err(AllocError),
    }
}

/// The value of the node of a prefix that isn't split, whose dominance is kept if it has one.
fn keep_dominance(dominances: &mut Vec<Dominance>, unsplit: Unsplit) -> Result<u32, AllocError>
    ensures { IfOk result (λ value. IsValued dominances.old.items dominances.new.items unsplit value) }
{
    match unsplit {
        Unsplit::Leaf { value } | Unsplit::Open { value } => Ok(value),
        Unsplit::Dominated { value, name } => {
            let place = place_of(dominances.len())?;
            dominances.push(Dominance { floor: value, name })?;
            Ok(place)
        }
    }
}

/// What the walk's prefix, whose floor has this value, has if it isn't split. That is its floor as leaf if the floor is at least
/// the best time or the prefix is complete, else it stays open. Nothing if it is to be split.
fn unsplit_by_floor(walk: &Walk<'_>, value: u32, best: u32, may_split: bool) -> Option<Unsplit>
    requires { value ≡ floor_value walk.now.problem walk.now.numbers }
    ensures found { IfSome result (IsFound NoneNamed walk.now.problem (span best best) walk.now.numbers []) }
    ensures left_open { IfSome result (λ unsplit. IsOpen unsplit → ¬ IsTrue may_split) }
    ensures due { IfNone result (IsDue walk.now.problem best walk.now.numbers) }
    ensures may { IfNone result (IsTrue may_split) }
{
    if walk.is_complete() || value >= best {
        return Some(Unsplit::Leaf { value });
    }
    if may_split {
        None
    } else {
        Some(Unsplit::Open { value })
    }
}

/// What the walk's prefix has below the root, if it may be split by the best time. That is the name of a node that dominates it,
/// if one is known. Else it is nothing if the prefix is to be split, or it stays open; it may be known from then on, and its node
/// has this line of the tree.
fn unsplit_by_name<N: Naming>(
    alloc: Global,
    walk: &Walk<'_>,
    value: u32,
    line: usize,
    may_split: bool,
    rule: Rule,
    names: &mut N,
) -> Result<Option<Unsplit>, AllocError>
    requires value { value ≡ floor_value walk.now.problem walk.now.numbers }
    requires suits { N.suits names.old walk.now.problem }
    ensures suits { N.suits names.new walk.now.problem }
    ensures known { (name : List ℕ) → Among name (N.names names.new) →
        (name ≡ walk.now.numbers) ⊎ Among name (N.names names.old) }
    ensures same { rule ≡ WrittenEarlier →
        IfOk result (λ unsplit. IfSome unsplit (λ u. N.names names.new ≡ N.names names.old)) }
    ensures found { (best : Span) → IsDue walk.now.problem best.high walk.now.numbers → IfOk result (λ unsplit.
        IfSome unsplit (IsFound rule walk.now.problem best walk.now.numbers (N.names names.old))) }
    ensures left_open { IfOk result (λ unsplit. IfSome unsplit (λ u. IsOpen u → ¬ IsTrue may_split)) }
    ensures may { IfOk result (λ unsplit. IfNone unsplit (IsTrue may_split)) }
{
    if let Some(name) = names.find_or_keep(alloc, walk, rule, line, may_split)? {
        return Ok(Some(Unsplit::Dominated { value, name }));
    }
    if may_split {
        Ok(None)
    } else {
        Ok(Some(Unsplit::Open { value }))
    }
}

/// What the walk's prefix has if it isn't split, by the last best time. If that would split it, the best time is read again, and
/// decides whether it still does; a node that dominates it forbids it. If none does, it may be known from then on: its node has
/// this line of the tree.
fn unsplit_child<L: Least, N: Naming>(
    alloc: Global,
    walk: &Walk<'_>,
    best: &mut u32,
    incumbent: &mut L,
    line: usize,
    may_split: bool,
    rule: Rule,
    names: &mut N,
) -> Result<Option<Unsplit>, AllocError>
    requires kept { L.kept incumbent.old ≡ best.old }
    requires suits { N.suits names.old walk.now.problem }
    ensures suits { N.suits names.new walk.now.problem }
    ensures known { (name : List ℕ) → Among name (N.names names.new) →
        (name ≡ walk.now.numbers) ⊎ Among name (N.names names.old) }
    ensures same { rule ≡ WrittenEarlier →
        IfOk result (λ unsplit. IfSome unsplit (λ u. N.names names.new ≡ N.names names.old)) }
    ensures kept { L.kept incumbent.new ≡ best.new }
    ensures falls { best.new ≤ best.old }
    ensures lowest { (L.lowest incumbent.new ≡ L.lowest incumbent.old) ×
        (L.lowest incumbent.old ≤ best.old → L.lowest incumbent.old ≤ best.new) }
    ensures found { IfOk result (λ unsplit.
        IfSome unsplit (IsFound rule walk.now.problem (span best.old best.new) walk.now.numbers (N.names names.old))) }
    ensures due { IfOk result (λ unsplit. IfNone unsplit (IsDue walk.now.problem best.new walk.now.numbers)) }
    ensures left_open { IfOk result (λ unsplit. IfSome unsplit (λ u. IsOpen u → ¬ IsTrue may_split)) }
    ensures may { IfOk result (λ unsplit. IfNone unsplit (IsTrue may_split)) }
{
    let value = walk.floor_value();
    if let Some(leaf) = unsplit_by_floor(walk, value, *best, true) {
        return Ok(Some(leaf));
    }
    if may_split {
        *best = incumbent.least();
        if let Some(leaf) = unsplit_by_floor(walk, value, *best, true) {
            return Ok(Some(leaf));
        }
    }
    unsplit_by_name(alloc, walk, value, line, may_split, rule, names)
}

/// Keeps the lesser of the least whole order so far and that of the walk's prefix, if this is its leaf.
fn keep_whole(least: &mut Option<WholeOrder>, walk: &Walk<'_>, unsplit: &Unsplit)
    ensures { (rule : Rule) (best : Span) (known found : List (List ℕ)) →
        IsFound rule walk.now.problem best walk.now.numbers known unsplit.now →
        IsLeast walk.now.problem found least.old →
        IsLeast walk.now.problem (found ++
        whole_at walk.now.numbers (terminal_by walk.now.problem walk.now.numbers unsplit.now)) least.new }
{
    if let Unsplit::Leaf { value } = unsplit {
        if walk.is_complete() {
            keep_lesser(least, walk.numbers(), *value);
        }
    }
}

impl Grown {
    ghost use Rattle.std.specs.Prelude.{◌≡◌, ◌+◌, ◌<◌, ◌^◌, IfOk, OnOk};
    ghost use Rattle.s66_node.specs.{IsEmpty, IsUnsplitPut, IsSplitPut};

    /// No node yet.
    pub(crate) fn empty(alloc: Global) -> Grown
        ensures { IsEmpty result }
    {
        Grown {
            nodes: Vec::new(alloc),
            dominances: Vec::new(alloc),
            splits: 0,
            least: None,
        }
    }

    /// Appends the node of the walk's prefix, which isn't split, with what it has. Its parent is at this place, and this is its last
    /// number; both are 0 of the root.
    fn push_unsplit(
        &mut self,
        walk: &Walk<'_>,
        parent: u32,
        number: u8,
        unsplit: Unsplit,
    ) -> Result<(), AllocError>
        ensures { OnOk result (IsUnsplitPut walk.now.problem walk.now.numbers self.old parent number unsplit self.new) }
    {
        keep_whole(&mut self.least, walk, &unsplit);
        let state = unsplit.state();
        let value = keep_dominance(&mut self.dominances, unsplit)?;
        self.nodes
            .push(Node::new(parent, number, walk.depth(), value, state))?;
        Ok(())
    }

    /// Appends the node of the walk's prefix, which is split, as `push_unsplit` does. All its children are still to come.
    fn push_split(
        &mut self,
        walk: &mut Walk<'_>,
        parent: u32,
        number: u8,
    ) -> Result<OpenSplit, AllocError>
        requires { self.old.splits + 1 < 2 ^ 32 }
        ensures same { walk.new ≡ walk.old }
        ensures put { IfOk result (λ frame.
            IsSplitPut walk.old.problem walk.old.numbers self.old parent number self.new frame) }
    {
        let node = place_of(self.nodes.len())?;
        self.nodes
            .push(Node::new(parent, number, walk.depth(), 0, State::Split))?;
        self.splits += 1;
        Ok(OpenSplit {
            node,
            left: walk.ready(),
        })
    }
}

/// Makes the tree over the walk's prefix, where there is no node yet, depth first by rising number: at most `allowance` splits, each
/// at an incomplete prefix whose floor is below the best time. A prefix is left open only after all of them. The best time is read
/// at the walk's prefix, and before each split below it.
///
/// A split below the walk's prefix costs one look for each instruction that depends directly on its last number, and each of its
/// children a push, an undo and a floor. Nothing is allocated but room for nodes and names.
///
/// Below its root, a prefix that would be split or stay open is dominated if a node is known that dominates it by the rule.
/// Those that are split or stay open may be known from then on.
pub(crate) fn grow<L: Least, N: Naming>(
    grown: &mut Grown,
    alloc: Global,
    walk: &mut Walk<'_>,
    incumbent: &mut L,
    allowance: u32,
    rule: Rule,
    names: &mut N,
) -> Result<(), AllocError>
    requires empty { IsEmpty grown.old }
    requires suits { N.suits names.old walk.old.problem }
    requires unknown { rule ≡ WrittenEarlier → N.names names.old ≡ [] }
    ensures suits { N.suits names.new walk.old.problem }
    ensures same { walk.new.problem ≡ walk.old.problem }
    ensures falls { L.kept incumbent.new ≤ L.kept incumbent.old }
    ensures lowest { (L.lowest incumbent.new ≡ L.lowest incumbent.old) ×
        (L.lowest incumbent.old ≤ L.kept incumbent.new) }
    ensures grown { OnOk result ((tree : Tree Terminal) ×
        IsGrown rule walk.old.problem (span (L.kept incumbent.old) (L.kept incumbent.new)) allowance walk.old.numbers
        grown.new tree) }
{
    // so each prefix has a frame
    prove!(walk.numbers().len() <= BLOCK_LIMIT);
    let value = walk.floor_value();
    let mut best = incumbent.least();
    if let Some(unsplit) = unsplit_by_floor(walk, value, best, 0 < allowance) {
        names.keep_root(walk, rule, unsplit.state());
        grown.push_unsplit(walk, 0, 0, unsplit)?;
        return Ok(());
    }
    names.keep_root(walk, rule, State::Split);
    grown.nodes.reserve(FIRST_NODES)?;
    // of each prefix from the first one down to the walk's, the children that are still to come
    let mut frames: ArrayVec<OpenSplit, BLOCK_LIMIT> = ArrayVec::new();
    let root = grown.push_split(walk, 0, 0)?;
    frames.push(root);
    while let Some(mut frame) = frames.pop() {
        if let Some(n) = frame.left.pop_first() {
            frames.push(frame);
            walk.push(n);
            let line = grown.nodes.len();
            let may_split = grown.splits < allowance;
            let child = unsplit_child(
                alloc, walk, &mut best, incumbent, line, may_split, rule, names,
            )?;
            match child {
                Some(unsplit) => {
                    grown.push_unsplit(walk, frame.node, n, unsplit)?;
                    walk.undo();
                }
                None => {
                    let below = grown.push_split(walk, frame.node, n)?;
                    frames.push(below);
                }
            }
        } else if !frames.is_empty() {
            walk.undo();
        }
    }
    Ok(())
}
