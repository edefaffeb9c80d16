//! Writes the tree of an answer as lines, in preorder, for a certificate. What a line is stands in `s66_model`.

ghost use Rattle.std.specs.Prelude.{◌≡◌, ◌≢◌, ◌<◌, ◌+◌, ◌++◌, [], ◌∷◌, true, length, IfOk, OnOk};
ghost use Rattle.s66_isa.specs.{numbers_in};
ghost use Rattle.s66_model.specs.{children, coming, later, is_ready, ready, is_split_at, ending_at, Bounding, AtTerminal};
ghost use Rattle.s66_bound.specs.{leaf_of};
ghost use Rattle.s66_node.specs.declared.node.State.TheVariants as state;
ghost use Rattle.s66_ledger.specs.{AreOneTree, StandsAt, lines_left, AreLinks, stored_at, nodes_of, HaveFloors};

use crate::links::Links;
use crate::path::{name_of, up};
use s66_bound::Leaf;
use s66_isa::Set;
use s66_model::{Tree, TreeLine};
use s66_node::{Node, State, Walk};
use std::alloc::AllocError;

/// Appends the line of a leaf, which leaves out its value.
fn push_leaf(tree: &mut Tree, leaf: &Leaf) -> Result<(), AllocError>
    ensures { OnOk result (tree.new ≡ tree.old ++ AtTerminal (Bounding (leaf_of leaf.now)) ∷ []) }
{
    match leaf {
        Leaf::Whole { .. } => tree.push(TreeLine::Whole),
        Leaf::Chain { numbers, .. } => tree.push(TreeLine::Chain(numbers.as_slice())),
        Leaf::Load { kind, .. } => tree.push(TreeLine::Load(*kind)),
        Leaf::Parcels { .. } => tree.push(TreeLine::Parcels),
    }
}

/// Appends the line of the prefix at which the walk stands, which isn't split: that of its floor, or of its name if it is dominated.
fn push_terminal(
    nodes: &[Node],
    walk: &Walk<'_>,
    node: usize,
    tree: &mut Tree,
) -> Result<(), AllocError>
    requires tree { AreOneTree walk.now.problem nodes.now }
    requires floors { HaveFloors walk.now.problem nodes.now }
    requires stands { StandsAt nodes.now node walk.now.numbers }
    requires unsplit { (stored_at nodes.now node).state ≢ state.Split }
    ensures { OnOk result (tree.new ≡ tree.old ++
        AtTerminal (ending_at walk.now.problem (nodes_of walk.now.problem nodes.now) walk.now.numbers) ∷ []) }
{
    if let State::Dominated = nodes[node].state {
        // proof only: so a name fits
        let _few = walk.numbers();
        let name = name_of(nodes, node);
        return tree.push(TreeLine::Dominated(name.as_slice()));
    }
    push_leaf(tree, &walk.floor_of_value(nodes[node].value))
}

/// Appends the line of the prefix at which the walk stands, and goes on to the next prefix. Returns whether there is one. The
/// time is that of a floor, and that of a look at each earlier sibling of the next prefix.
pub(crate) fn push_line(
    nodes: &[Node],
    links: &Links,
    walk: &mut Walk<'_>,
    node: &mut usize,
    tree: &mut Tree,
) -> Result<bool, AllocError>
    requires tree { AreOneTree walk.old.problem nodes.now }
    requires floors { HaveFloors walk.old.problem nodes.now }
    requires links { AreLinks nodes.now links.now.last.items links.now.before.items (length nodes.now) }
    requires stands { StandsAt nodes.now node.old walk.old.numbers }
    ensures problem { walk.new.problem ≡ walk.old.problem }
    ensures one { OnOk result (length tree.new ≡ length tree.old + 1) }
    ensures rest { IfOk result (λ more. tree.new ++ lines_left walk.old.problem nodes.now more walk.new.numbers ≡
        tree.old ++ lines_left walk.old.problem nodes.now true walk.old.numbers) }
    ensures stands { IfOk result (λ more. more ≡ true → StandsAt nodes.now node.new walk.new.numbers) }
{
    if let State::Split = nodes[*node].state {
        let numbers = walk.ready();
        tree.push(TreeLine::Split(numbers.numbers().as_slice()))?;
        return Ok(go_below(nodes, links, numbers, walk, node));
    }
    push_terminal(nodes, walk, *node, tree)?;
    Ok(go_on(nodes, links, walk, node))
}

/// Goes down to a child.
fn go_down(nodes: &[Node], links: &Links, number: u8, walk: &mut Walk<'_>, node: &mut usize)
    requires tree { AreOneTree walk.old.problem nodes.now }
    requires links { AreLinks nodes.now links.now.last.items links.now.before.items (length nodes.now) }
    requires stands { StandsAt nodes.now node.old walk.old.numbers }
    requires split { is_split_at (nodes_of walk.old.problem nodes.now) walk.old.numbers ≡ true }
    requires ready { is_ready walk.old.problem.block walk.old.numbers number ≡ true }
    ensures walk { walk.new ≡ record walk.old { numbers = walk.old.numbers ++ number ∷ [] } }
    ensures stands { StandsAt nodes.now node.new walk.new.numbers }
{
    *node = links.child(nodes, *node, number);
    walk.push(number);
}

/// Goes on from a prefix, all of whose lines are appended, to the next one. Returns whether there is one.
fn go_on(nodes: &[Node], links: &Links, walk: &mut Walk<'_>, node: &mut usize) -> bool
    requires tree { AreOneTree walk.old.problem nodes.now }
    requires links { AreLinks nodes.now links.now.last.items links.now.before.items (length nodes.now) }
    requires stands { StandsAt nodes.now node.old walk.old.numbers }
    ensures problem { walk.new.problem ≡ walk.old.problem }
    ensures next { coming walk.old.problem.block result walk.new.numbers ≡
        later walk.old.problem.block [] walk.old.numbers }
    ensures stands { result ≡ true → StandsAt nodes.now node.new walk.new.numbers }
{
    while 0 < *node {
        let number = nodes[*node].number;
        *node = up(nodes, *node);
        walk.undo();
        if let Some(next) = walk.next_ready(number) {
            go_down(nodes, links, next, walk, node);
            return true;
        }
    }
    false
}

/// Goes on from a split prefix, whose children these are, to the first of them. Returns whether a prefix is to come.
fn go_below(
    nodes: &[Node],
    links: &Links,
    numbers: Set,
    walk: &mut Walk<'_>,
    node: &mut usize,
) -> bool
    requires tree { AreOneTree walk.old.problem nodes.now }
    requires links { AreLinks nodes.now links.now.last.items links.now.before.items (length nodes.now) }
    requires stands { StandsAt nodes.now node.old walk.old.numbers }
    requires split { is_split_at (nodes_of walk.old.problem nodes.now) walk.old.numbers ≡ true }
    requires numbers { numbers_in numbers ≡ ready walk.old.problem.block walk.old.numbers }
    ensures problem { walk.new.problem ≡ walk.old.problem }
    ensures next { coming walk.old.problem.block result walk.new.numbers ≡
        children walk.old.numbers (numbers_in numbers) ++ later walk.old.problem.block [] walk.old.numbers }
    ensures stands { result ≡ true → StandsAt nodes.now node.new walk.new.numbers }
{
    let mut rest = numbers;
    match rest.pop_first() {
        Some(first) => {
            go_down(nodes, links, first, walk, node);
            true
        }
        None => go_on(nodes, links, walk, node),
    }
}
