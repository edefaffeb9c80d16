//! The prefix of a node in the table, read up its parents and turned around; and the name of a dominated one.

ghost use Rattle.std.specs.Prelude.{[], ◌∷◌, ◌++◌, ◌≡◌, ◌<◌, ◌≤◌, ◌↔◌, length, get_or, IsTrue};
ghost use Rattle.s66_isa.specs.{BLOCK_LIMIT};
ghost use Rattle.s66_ledger.specs.{name_at, stored_at, prefixes, parent_of};

use arrayvec::ArrayVec;
use s66_isa::BLOCK_LIMIT;
use s66_node::Node;

/// Whether this is the prefix of a node: up its parents, in time linear in the prefix's length.
pub(crate) fn is_over(nodes: &[Node], node: u32, prefix: &[u8]) -> bool
    requires { node < length nodes.now }
    ensures { IsTrue result ↔ (get_or (prefixes nodes.now) node [] ≡ prefix.now) }
{
    let mut i = node as usize;
    let mut rest = prefix.len();
    while 0 < i {
        if rest == 0 {
            return false;
        }
        rest -= 1;
        if nodes[i].number != prefix[rest] {
            return false;
        }
        i = up(nodes, i);
    }
    rest == 0
}

/// The prefix of a node: up its parents, and then turned around, in time linear in its length.
pub(crate) fn prefix_of(nodes: &[Node], node: u32) -> ArrayVec<u8, BLOCK_LIMIT>
    requires within { node < length nodes.now }
    requires few { length (get_or (prefixes nodes.now) node []) ≤ BLOCK_LIMIT }
    ensures { result.items ≡ get_or (prefixes nodes.now) node [] }
{
    let mut i = node as usize;
    let mut prefix = ArrayVec::new();
    while 0 < i {
        prefix.push(nodes[i].number);
        i = up(nodes, i);
    }
    prefix.as_mut_slice().reverse();
    prefix
}

/// The name of a node that is dominated, in time linear in its length: the prefix of the node whose number is its value, which
/// comes before it.
pub(crate) fn name_of(nodes: &[Node], node: usize) -> ArrayVec<u8, BLOCK_LIMIT>
    requires within { node < length nodes.now }
    requires few { length (name_at nodes.now node) ≤ BLOCK_LIMIT }
    ensures { result.items ≡ name_at nodes.now node }
{
    let value = nodes[node].value;
    let named = if (value as usize) < node { value } else { 0 };
    prefix_of(nodes, named)
}

/// The parent of a node, which comes before it.
pub(crate) fn up(nodes: &[Node], i: usize) -> usize
    requires some { 0 < i }
    requires within { i < length nodes.now }
    ensures before { result < i }
    ensures parent { result ≡ parent_of nodes.now i }
    ensures prefix { get_or (prefixes nodes.now) i [] ≡ get_or (prefixes nodes.now) result [] ++
        (stored_at nodes.now i).number ∷ [] }
{
    let parent = nodes[i].parent as usize;
    if parent < i { parent } else { 0 }
}
