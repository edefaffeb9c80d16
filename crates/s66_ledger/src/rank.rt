//! The rank of an open node in the heap: least floor first, then the deepest.

ghost use Rattle.std.specs.Prelude.{◌≡◌, ◌<◌};
ghost use Rattle.s66_ledger.specs.{rank_of, DEPTH_RANKS};

use crate::limits::{DEPTH_RANKS, RANKED_LIMIT};

/// The rank of an open node by its floor and the length of its prefix: the less its floor, and then the deeper it is, the
/// greater.
pub(crate) fn rank_of(floor: u32, depth: u8) -> u32
    ensures value { result ≡ rank_of floor depth }
    ensures few { depth < DEPTH_RANKS }
{
    (RANKED_LIMIT - floor.min(RANKED_LIMIT)) * DEPTH_RANKS + depth as u32
}
