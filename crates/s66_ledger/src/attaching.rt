//! Puts the nodes of a piece under a node of the table (a graft, step by step), and looks for the nodes that its dominated leaves name.

ghost use Rattle.std.specs.Prelude.{ℕ, ◌+◌, ◌≡◌, ◌<◌, ◌^◌, ◌↔◌, IsTrue, length, map, IfOk, OnOk, OnErr};
ghost use Rattle.std.specs.BinaryHeap.{IsHeap, heap_items};
ghost use Rattle.s66_node.specs.declared.node.State.TheVariants as state;
ghost use Rattle.s66_node.specs.{named};
ghost use Rattle.s66_ledger.specs.{AreCounted, put_state, AreOpenNodes, compare_ranked, placed, settled_state, opened_state, IsNamed, IsGrafting, HaveNames};
ghost use Rattle.s66_ledger.specs.Grafting.{Grafts};

use crate::path;
use crate::rank::rank_of;
use s66_node::{Dominance, Node, State};
use std::alloc::AllocError;
use std::collections::BinaryHeap;

/// Gives the node of this number another state.
pub(crate) fn set_state(nodes: &mut Vec<Node>, i: usize, state: State)
    requires { i < length nodes.old.items }
    ensures { nodes.new.items ≡ put_state nodes.old.items i state }
{
    nodes[i].state = state;
}

/// What a node of a piece is for this best time: a leaf below it is open, and none is handed out.
pub(crate) fn settled_state(state: State, value: u32, best: u32) -> State
    ensures { result ≡ settled_state best value state }
{
    match state {
        State::Closed => {
            if best <= value {
                State::Closed
            } else {
                State::Open
            }
        }
        State::Open | State::Out | State::Dominated => State::Open,
        State::Split => State::Split,
    }
}

/// What is made of a node of a piece if its name isn't found.
pub(crate) fn opened_state(state: State) -> State
    ensures { result ≡ opened_state state }
{
    match state {
        State::Dominated => State::Open,
        _ => state,
    }
}

/// A piece's node under the root of this number; the first node after the root has the number `first`.
fn placed(node: &Node, root: u32, first: u32) -> Node
    ensures { result ≡ placed root first node.now }
{
    let parent = match node.parent {
        0 => root,
        place => first.saturating_add(place - 1),
    };
    Node { parent, ..*node }
}

/// Whether the node of this number has this prefix and isn't dominated, in time linear in the prefix's length.
fn is_named(nodes: &[Node], named: u32, numbers: &[u8]) -> bool
    ensures { IsTrue result ↔ IsNamed nodes.now named numbers.now }
{
    let i = named as usize;
    i < nodes.len() && nodes[i].state != State::Dominated && path::is_over(nodes, named, numbers)
}

/// A piece's node for this best time, to be put after those that there are. One that is dominated is closed if the node of its
/// name is found at the place that the name guesses, and else open.
fn grafted(
    nodes: &[Node],
    root: u32,
    first: u32,
    best: u32,
    node: &Node,
    dominances: &[Dominance],
) -> Node
    requires { node.now.state ≡ state.Dominated → node.now.value < length dominances.now }
    ensures { Grafts best root first (map named dominances.now) nodes.now node.now result }
{
    let placed = placed(node, root, first);
    if node.state != State::Dominated {
        return Node {
            state: settled_state(node.state, node.value, best),
            ..placed
        };
    }
    let dominance = &dominances[node.value as usize];
    let named = dominance.name.place.number(root, first);
    if is_named(nodes, named, dominance.name.numbers.as_slice()) {
        Node {
            value: named,
            ..placed
        }
    } else {
        Node {
            value: dominance.floor,
            made: State::Open,
            state: State::Open,
            ..placed
        }
    }
}

/// Puts a piece's nodes below its root after those that there are, under the root of this number. Dominated ones are closed if
/// their names are found, and those that are open go into the heap. Returns how deep those that are open or out are then. It takes
/// time linear in their number and in the length of each name, with a logarithm of the number of open nodes for each that is open.
/// `Err` leaves all as it was.
pub(crate) fn append(
    nodes: &mut Vec<Node>,
    heap: &mut BinaryHeap<(u32, u32)>,
    deepest: u8,
    root: u32,
    best: u32,
    below: &[Node],
    dominances: &[Dominance],
) -> Result<u8, AllocError>
    requires heap { IsHeap compare_ranked (heap_items heap.old) }
    requires open_nodes { AreOpenNodes nodes.old.items (heap_items heap.old) }
    requires room { length nodes.old.items + length below.now < 2 ^ 32 }
    requires names { HaveNames (length dominances.now) below.now }
    ensures heap { IsHeap compare_ranked (heap_items heap.new) }
    ensures open_nodes { AreOpenNodes nodes.new.items (heap_items heap.new) }
    ensures ok { OnOk result (IsGrafting best root
        (map named dominances.now) nodes.old.items below.now nodes.new.items) }
    ensures counted { IfOk result (λ d. (out : ℕ) → AreCounted nodes.old.items out deepest →
        AreCounted nodes.new.items out d) }
    ensures err { OnErr result (nodes.new.items ≡ nodes.old.items) }
{
    heap.reserve(below.len())?;
    nodes.reserve(below.len())?;
    let mut deepest = deepest;
    let first = nodes.len() as u32;
    for i in 0..below.len() {
        let node = grafted(nodes.as_slice(), root, first, best, &below[i], dominances);
        if node.state.is_open() {
            let Ok(()) = heap.push((rank_of(node.value, node.depth), first + i as u32)) else {
                unreachable!()
            };
            deepest = deepest.max(node.depth);
        }
        nodes.push_reserved(node);
    }
    Ok(deepest)
}
