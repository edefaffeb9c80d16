//! The history of a ledger: its entries, and the numbers that some of them have.

ghost use Rattle.std.specs.Prelude.{◌≡◌, []};

use crate::event_record::EventRecord;
use std::alloc::Global;

/// What a ledger stores of its events.
#[derive(Drop)]
pub struct History {
    /// An entry for each event, the oldest first.
    pub entries: Vec<EventRecord>,
    /// The bytes of the entries that have some, one's after another's.
    pub bytes: Vec<u8>,
}

impl History {
    /// Of no event.
    pub(crate) fn new(alloc: Global) -> History
        ensures entries { result.entries.items ≡ [] }
        ensures bytes { result.bytes.items ≡ [] }
    {
        History {
            entries: Vec::new(alloc),
            bytes: Vec::new(alloc),
        }
    }
}
