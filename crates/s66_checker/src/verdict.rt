//! What a checker says: yes, or the first line that is wrong and the reason, with its number.

ghost use Rattle.std.specs.Prelude.{◌≡◌};
ghost use Rattle.s66_checker.specs.{number_of};

/// What a checker says of a document.
#[derive(Clone, Copy, Debug, PartialEq, Eq)]
pub enum Verdict {
    /// The order is legal and takes the time, and no legal order takes less than the bound; both in minor cycles.
    Yes { time: u32, bound: u32 },
    /// The first fault: its line, from the document's first, which is 1, and what is wrong there.
    No { line: u32, reason: Reason },
}

/// What is wrong with a line of a document.
#[derive(Clone, Copy, Debug, PartialEq, Eq)]
pub enum Reason {
    /// `ORDER` is no legal order.
    Order,
    /// `TIME` isn't the order's total.
    Time,
    /// The children of a split aren't exactly the ready instructions in rising number.
    Children,
    /// A chain has a number that doesn't remain, or neighbours without a link.
    Chain,
    /// A leaf's value is below `BOUND`.
    Value,
    /// A whole order at a prefix that isn't complete, or another leaf at one that is.
    Place,
    /// `BOUND` is above `TIME`.
    Bound,
    /// The name of a dominated leaf is none that it may have. It may be that of a node of the tree over the same set of numbers:
    /// an earlier one in version 2, and none that is dominated itself in versions 3 to 5.
    Name,
    /// The node that a dominated leaf names doesn't dominate.
    Dominance,
    /// A fact line isn't shown by what is known before it. Or a supposition may not begin or end there, or doesn't end.
    Fact,
    /// An instruction that doesn't remain, or isn't too late for the bound if it comes next.
    Event,
    /// The first instruction is placed, or the second isn't, or the first isn't known to stand before it.
    Pair,
    /// The numbers of a load don't rise, don't all remain or aren't of one kind; or one of them may begin its use sooner, or what they need
    /// of the units doesn't take the bound.
    Loaded,
}

impl Reason {
    /// The number by which it is printed. No reason has 7.
    pub fn number(self) -> u32
        ensures { result ≡ number_of self }
    {
        match self {
            Reason::Order => 1,
            Reason::Time => 2,
            Reason::Children => 3,
            Reason::Chain => 4,
            Reason::Value => 5,
            Reason::Place => 6,
            Reason::Bound => 8,
            Reason::Name => 9,
            Reason::Dominance => 10,
            Reason::Fact => 11,
            Reason::Event => 12,
            Reason::Pair => 13,
            Reason::Loaded => 14,
        }
    }
}
