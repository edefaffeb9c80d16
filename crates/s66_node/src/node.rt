//! A node of a search's tree: its parent, its last number, its floor, and whether it is open, out, closed, split or dominated. A piece
//! has nodes in preorder, a ledger in the order in which they came.

/// What a node is: it can be claimed, is handed out, is closed with its floor, is split, or is closed as dominated by another
/// node.
#[derive(Clone, Copy, Debug, PartialEq, Eq)]
pub enum State {
    Open,
    Out,
    Closed,
    Split,
    Dominated,
}

impl State {
    ghost use Rattle.std.specs.Prelude.{◌≡◌};
    ghost use Rattle.s66_node.specs.{is_stored_open, is_stored_live};

    /// Whether it can be claimed.
    pub fn is_open(self) -> bool
        ensures { result ≡ is_stored_open self }
    {
        matches!(self, State::Open)
    }

    /// Whether it is open or out.
    pub fn is_live(self) -> bool
        ensures { result ≡ is_stored_live self }
    {
        matches!(self, State::Open | State::Out)
    }
}

/// A prefix of a search's tree: its parent's, and then its own last number.
///
/// A piece's nodes are in preorder, from its root on, and each names its parent by the place among them. Once they are in a ledger,
/// they name it by its number there.
#[derive(Clone, Copy)]
pub struct Node {
    /// 0 of the first node.
    pub parent: u32,
    /// The floor's value in minor cycles; 0 of a node that was split in the piece that made it. Of one that is dominated it is, in a
    /// piece, the place of its name, and in a ledger the number of the node that dominates it, which comes before it.
    pub value: u32,
    pub number: u8,
    /// How many numbers the prefix has.
    pub depth: u8,
    /// What it was in the piece that made it, and open if a ledger did not find the name that it had there.
    pub made: State,
    pub state: State,
}

impl Node {
    ghost use Rattle.std.specs.Prelude.{◌≡◌};
    ghost use Rattle.s66_node.specs.{Node};

    /// A node in the state in which it is made.
    pub fn new(parent: u32, number: u8, depth: u8, value: u32, state: State) -> Node
        ensures { result ≡
            record { parent = parent; value = value; number = number; depth = depth; made = state; state = state } }
    {
        Node {
            parent,
            value,
            number,
            depth,
            made: state,
            state,
        }
    }
}
