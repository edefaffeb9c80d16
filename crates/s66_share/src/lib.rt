//! What threads share: a lock whose tokens know what is under it, by its summary; a hint that only falls; and lanes of tickets, from
//! which others steal. Only the lock waits for another thread. Begin at `lock.rt`, and for lanes at `lanes/owner.rt`; what is promised
//! is in `specs/Hints.antt` and `specs/Lanes.antt`, and why it holds in `specs/Locked.antt` and `specs/Hands.antt`.
#![tactic(auto)]

mod hint;
mod lanes;
mod limits;
mod lock;
mod view;

pub use hint::{Hint, HintSeat};
pub use lanes::{Lane, Pass, Thief, lane};
pub use limits::{CAPACITY_LIMIT, PASS_LIMIT, SPINS};
pub use lock::{Lock, Token};
pub use view::View;
