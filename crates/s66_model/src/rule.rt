//! The rule of dominance of a tree: which nodes its dominated leaves may name.

/// Which nodes the dominated leaves of a tree may name. Rules can't be mixed in one tree: no law covers that.
#[derive(Clone, Copy, Debug, PartialEq, Eq)]
pub enum Rule {
    /// None: no leaf is dominated.
    NoneNamed,
    /// An earlier node, which dominates as written.
    WrittenEarlier,
    /// A node that is no dominated leaf itself, earlier or later, which dominates clamped at the next slot.
    ClampedStanding,
}
