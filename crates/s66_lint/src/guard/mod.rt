//! Where `guard` puts switches, and that nothing else changes. Begin at `guard.rt`; what is in danger is in `source_harm.rt`.

mod guard;
mod laws;
mod marks;
mod regions;
mod source_harm;

pub use guard::{Guarded, guard_text};
pub use laws::{guard_kept_law, guarded_examples, guarded_law, unguarded_law};
