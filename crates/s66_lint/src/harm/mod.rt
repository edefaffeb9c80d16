//! What a finding harms: runs that may change, which a `Tracker` collects. What is near the places of a name is in `near_names.rt`.

mod near_names;
mod tracker;

pub(crate) use tracker::Tracker;
