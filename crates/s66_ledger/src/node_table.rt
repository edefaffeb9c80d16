//! The nodes of a ledger by number, and the open ones in a heap by their floors, so that the most promising is claimed first
//! (best-first branch and bound).

use crate::attaching::{append, set_state, settled_state};
use crate::rank::rank_of;
use crate::{live, path};
use arrayvec::ArrayVec;
use s66_isa::BLOCK_LIMIT;
use s66_node::{Dominance, Node, Piece, State};
use std::alloc::{AllocError, Global};
use std::collections::BinaryHeap;
use std::marker::Model;

/// The nodes of a ledger, by number from 0, and which of them are open.
#[derive(Drop)]
pub(crate) struct NodeTable {
    nodes: Vec<Node>,
    /// The rank and the number of each open node.
    open: BinaryHeap<(u32, u32)>,
    /// How many nodes are handed out.
    out: usize,
    /// No prefix that is open or out is longer, or this is the greatest value of a byte.
    deepest: u8,
}

impl Model for NodeTable {
    ghost use Rattle.std.specs.Prelude.{List};
    ghost use Rattle.std.specs.BinaryHeap.{IsHeap, heap_items};
    ghost use Rattle.s66_node.specs.{Node};
    ghost use Rattle.s66_ledger.specs.Nodes.{HaveDepths};
    ghost use Rattle.s66_ledger.specs.OpenNodes.{AreOpenNodes, compare_ranked};
    ghost use Rattle.s66_ledger.specs.LiveNodes.{AreCounted};

    ghost Value = { List Node };

    ghost view = { λ t. t.nodes.items };

    ghost invariant = { λ t. IsHeap compare_ranked (heap_items t.open) ×
        AreOpenNodes t.nodes.items (heap_items t.open) × HaveDepths t.nodes.items ×
        AreCounted t.nodes.items t.out t.deepest };
}

impl NodeTable {
    ghost use Rattle.std.specs.Prelude.{ℕ, List, [], ◌∷◌, ◌+◌, ◌^◌, ◌≡◌, ◌<◌, ◌≤◌, ◌↔◌, true, false, IsTrue, IfOk, OnOk, OnErr, IfSome, IfNone, length, map, get_or};
    ghost use Rattle.s66_isa.specs.{tally, least, BLOCK_LIMIT};
    ghost use Rattle.s66_ledger.specs.{live_values, IsGrafting, IsSplitUnder, IsAttachedAs, HaveNames, stores_open, stored_at, put_state, prefixes, HaveFloors, HaveDepths, StoresOut, ranked};
    ghost use Rattle.s66_node.specs.{Node, State, named, is_stored_live};

    /// One node, the empty prefix with its floor, open.
    pub(crate) fn new(alloc: Global, floor: u32) -> Result<NodeTable, AllocError>
        ensures { IfOk result (λ t. t ≡
            (record { parent = 0; value = floor; number = 0; depth = 0; made = State.Open; state = State.Open }) ∷ []) }
    {
        let mut nodes = Vec::new(alloc);
        nodes.push(Node::new(0, 0, 0, floor, State::Open))?;
        let mut open = BinaryHeap::new(alloc);
        open.push((rank_of(floor, 0), 0))?;
        Ok(NodeTable {
            nodes,
            open,
            out: 0,
            deepest: 0,
        })
    }

    /// How many nodes there are.
    pub(crate) fn count(&self) -> usize
        ensures { result ≡ length self.now }
    {
        self.nodes.len()
    }

    /// The nodes by number.
    pub(crate) fn into_nodes(self) -> Vec<Node>
        ensures { result.items ≡ self }
    {
        self.nodes
    }

    /// The least of this value and the floors of the nodes that are open or out, in time linear in the number of nodes.
    pub(crate) fn least_floor(&self, value: u32) -> u32
        ensures { result ≡ least (λ v. v) (value ∷ live_values self.now) }
    {
        live::least_floor(self.nodes.as_slice(), value)
    }

    /// Whether any node is handed out.
    pub(crate) fn has_out(&self) -> bool
        ensures { result ≡ false → (i : ℕ) → ¬ StoresOut self.now i }
    {
        self.out != 0
    }

    /// Whether some prefix of `count` numbers may be open or out.
    pub(crate) fn may_reach(&self, count: usize) -> bool
        requires { count ≤ BLOCK_LIMIT }
        ensures { result ≡ false → (i : ℕ) → i < length self.now → is_stored_live (stored_at self.now i).state ≡ true →
            length (get_or (prefixes self.now) i []) < count }
    {
        count <= self.deepest as usize
    }

    /// Whether this node is handed out.
    pub(crate) fn is_out(&self, node: u32) -> bool
        ensures { IsTrue result ↔ StoresOut self.now node }
    {
        let i = node as usize;
        i < self.nodes.len() && self.nodes[i].state == State::Out
    }

    /// Whether a node is open or out, with a floor below this value.
    pub(crate) fn is_live_below(&self, node: u32, value: u32) -> bool
        requires { node < length self.now }
        ensures { IsTrue result ↔ (IsTrue (is_stored_live (stored_at self.now node).state) ×
            ((stored_at self.now node).value < value)) }
    {
        let node = &self.nodes[node as usize];
        node.state.is_live() && node.value < value
    }

    /// Whether this is the prefix of a node.
    pub(crate) fn is_over(&self, node: u32, prefix: &[u8]) -> bool
        requires { node < length self.now }
        ensures { IsTrue result ↔ (get_or (prefixes self.now) node [] ≡ prefix.now) }
    {
        path::is_over(self.nodes.as_slice(), node, prefix)
    }

    /// The prefix of a node.
    pub(crate) fn prefix_of(&self, node: u32) -> ArrayVec<u8, BLOCK_LIMIT>
        requires within { node < length self.now }
        requires few { length (get_or (prefixes self.now) node []) ≤ BLOCK_LIMIT }
        ensures { result.items ≡ get_or (prefixes self.now) node [] }
    {
        path::prefix_of(self.nodes.as_slice(), node)
    }

    /// Whether the prefix of a node has this length.
    pub(crate) fn has_length(&self, node: u32, count: usize) -> bool
        requires within { node < length self.now }
        requires few { count ≤ BLOCK_LIMIT }
        ensures { IsTrue result ↔ (length (get_or (prefixes self.now) node []) ≡ count) }
    {
        self.nodes[node as usize].depth as usize == count
    }

    /// The value that a node has: its floor's, if it isn't split.
    pub(crate) fn value_of(&self, node: u32) -> u32
        requires { node < length self.now }
        ensures { result ≡ (stored_at self.now node).value }
    {
        self.nodes[node as usize].value
    }

    /// Hands out the open node of the least floor, of equal ones the deepest, and of these the newest; None only if no node is
    /// open. In time logarithmic in the number of open nodes.
    pub(crate) fn claim(&mut self) -> Option<u32>
        ensures within { IfSome result (λ i. i < length self.old) }
        ensures was { IfSome result (λ i. (stored_at self.old i).state ≡ State.Open) }
        ensures moved { IfSome result (λ i. self.new ≡ put_state self.old i State.Out) }
        ensures least { IfSome result (λ i. (j : ℕ) → stores_open (stored_at self.old j) ≡ true →
            ranked (stored_at self.old i).value ≤ ranked (stored_at self.old j).value) }
        ensures none { IfNone result (tally stores_open self.old ≡ 0) }
        ensures same { IfNone result (self.new ≡ self.old) }
    {
        let (_, node) = self.open.pop()?;
        // this one isn't out
        prove!(self.out < self.nodes.len());
        self.nodes[node as usize].state = State::Out;
        self.out += 1;
        Some(node)
    }

    /// Opens a node that is handed out, in time logarithmic in the number of open nodes.
    pub(crate) fn give_back(&mut self, node: u32) -> Result<(), AllocError>
        requires { StoresOut self.old node }
        ensures ok { OnOk result (self.new ≡ put_state self.old node State.Open) }
        ensures err { OnErr result (self.new ≡ self.old) }
    {
        let i = node as usize;
        let rank = rank_of(self.nodes[i].value, self.nodes[i].depth);
        self.open.push((rank, node))?;
        self.nodes[i].state = State::Open;
        self.out -= 1;
        Ok(())
    }

    /// Puts a piece in the place of a node that is handed out. The node takes the state of the piece's root, and the piece's other
    /// nodes come after those that there are; dominated ones are closed if the nodes of their names are found, and else open. It
    /// takes time linear in the piece's nodes and their names, with a logarithm of the number of open nodes for each that is open.
    /// `Err` leaves all as it was.
    pub(crate) fn attach(&mut self, root: u32, best: u32, piece: &Piece) -> Result<(), AllocError>
        requires out { StoresOut self.old root }
        requires over { get_or (prefixes self.old) root [] ≡ piece.now.prefix }
        requires floors { HaveFloors piece.now.problem self.old }
        requires room { length self.old + length piece.now.nodes < 2 ^ 32 }
        ensures err { OnErr result (self.new ≡ self.old) }
        ensures ok { OnOk result (IsAttachedAs piece.now best root self.old self.new) }
    {
        // proof only: the nodes have depths
        let _ = &self.nodes;
        let Some((first, below)) = piece.nodes().split_first() else {
            unreachable!()
        };
        if let State::Split = first.state {
            return self.attach_split(root, best, below, piece.dominances());
        }
        if settled_state(first.state, first.value, best).is_open() {
            self.give_back(root)?;
            return Ok(());
        }
        set_state(&mut self.nodes, root as usize, State::Closed);
        self.out -= 1;
        Ok(())
    }

    /// Splits a node that is handed out: these nodes of a piece go under it.
    fn attach_split(
        &mut self,
        root: u32,
        best: u32,
        below: &[Node],
        dominances: &[Dominance],
    ) -> Result<(), AllocError>
        requires out { StoresOut self.old root }
        requires room { length self.old + length below.now < 2 ^ 32 }
        requires names { HaveNames (length dominances.now) below.now }
        requires depths { (all : List Node) → IsGrafting best root (map named dominances.now) self.old below.now all →
            HaveDepths all }
        ensures err { OnErr result (self.new ≡ self.old) }
        ensures ok { OnOk result (IsSplitUnder best root (map named dominances.now) self.old below.now self.new) }
    {
        let deepest = append(
            &mut self.nodes,
            &mut self.open,
            self.deepest,
            root,
            best,
            below,
            dominances,
        )?;
        self.deepest = deepest;
        set_state(&mut self.nodes, root as usize, State::Split);
        self.out -= 1;
        Ok(())
    }
}
