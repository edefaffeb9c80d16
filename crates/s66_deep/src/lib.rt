//! What is found of a block beside a search of its orders: a good order, and fact lines and a tree by which a certificate shows a bound.
//! Whether they are right is for a checker to say.
//! Only that it is safe and its orders legal is proved. Begin at `look.rt`, then `search.rt`.
//!
//! There are four parts beside what joins them: `facts/` finds fact lines, `floors/` bounds prefixes by longest paths, `beam/` finds
//! good orders, and `best_first/` searches all orders and writes a tree.
#![tactic(auto)]

mod beam;
mod best_first;
mod classes;
mod facts;
mod floors;
mod instance;
mod limits;
mod lines;
mod look;
mod orders;
mod search;
mod walk;
mod work;

pub use beam::beam_below;
pub use best_first::{Branched, Limits, branch};
pub use facts::Finder;
pub use floors::{Left, PathBounds, Tails};
pub use look::{Look, Looked, look_at, show_best};
pub use orders::faster;
pub use walk::PathWalk;
