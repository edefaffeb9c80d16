//! The names in location fields, what each means, and sums of them. Begin at `names.rt`.

mod crowd;
mod distance;
mod lengths;
mod names;
mod renaming;

pub(crate) use crowd::{Crowd, are_many};
pub(crate) use distance::Distance;
pub(crate) use lengths::Lengths;
pub(crate) use names::{Code, NamePlace, Names, Referent};
pub(crate) use renaming::rename;
