//! Which line of a document the reader expects next: the states of `reader.rt`.

/// Which line of a document comes next.
#[derive(Clone, Copy)]
pub(crate) enum DocumentPlace {
    AtHeader,
    AtProfile,
    AtBlock,
    AtInstruction,
    AtTime,
    AtBound,
    AtOrder,
    AtTree,
    AtEnd,
}
