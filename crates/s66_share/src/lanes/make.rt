//! Makes a lane: its owner's end, and what others steal with.

ghost use Rattle.std.specs.Prelude.{◌≡◌, ◌≤◌, [], IfOk};
ghost use Rattle.s66_share.specs.{CAPACITY_LIMIT};

use crate::lanes::owner::Lane;
use crate::lanes::protocol::{Hand, Rule};
use crate::lanes::thief::Thief;
use crossbeam_deque::Worker;
use s66_model::Ticket;
use std::alloc::{AllocError, Global};

/// An empty lane whose first `capacity` puts need no memory, and the thief that its passes steal with.
///
/// In time linear in the capacity.
pub fn lane(alloc: Global, capacity: usize) -> Result<(Lane, Thief), AllocError>
    requires { (1 ≤ capacity) × (capacity ≤ CAPACITY_LIMIT) }
    ensures empty { IfOk result (λ r. (r.0.put ≡ []) × (r.0.taken ≡ []) × (r.0.passes ≡ 0) × (r.0.used ≡ 0)) }
    ensures room { IfOk result (λ r. capacity ≤ r.0.room) }
    ensures thief { IfOk result (λ r. r.1 ≡ r.0.id) }
{
    let owner: Worker<Ticket, Global, Hand, Rule> = Worker::fifo_as(alloc, capacity)?;
    let stealer = owner.stealer()?;
    Ok((Lane::new(alloc, owner), Thief::new(stealer)))
}
