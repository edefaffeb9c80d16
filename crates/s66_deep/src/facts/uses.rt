//! Whether a load line is right by the paths that a search knows: the same test as in `s66_facts/src/loads.rt`, unproved.

use crate::facts::ground::Ground;
use crate::facts::nodes::{Times, issue, start, time_at};
use crate::work::Work;
use s66_moments::LoadLine;

/// The use of units by the instructions of a load line, which all have to be over in a time.
#[derive(Drop)]
struct Uses<'a> {
    load: &'a LoadLine,
    /// How long the units have work.
    time: u32,
    /// The longest paths from the first moment, and to the last one.
    heads: &'a Times,
    tails: &'a Times,
}

impl Uses<'_> {
    /// Whether a use that begins at a node is late enough, and shows the wait.
    fn is_from(&self, node: usize, amount: u32) -> bool {
        let (heads, tails) = (self.heads, self.tails);
        match (time_at(heads, node), time_at(tails, node)) {
            (Some(head), Some(tail)) => {
                let all = self.load.after as u64 + self.time as u64 + tail as u64;
                self.load.after <= head && amount as u64 + self.load.wait as u64 <= all
            }
            _ => false,
        }
    }
}

/// How long the units have work by all of these, which need one of the same kind.
fn time_of(ground: &Ground, numbers: &[u8]) -> u32 {
    let mut work = Work::default();
    let mut copies = 1;
    for n in numbers {
        work = work.with(ground.amount(*n));
        if let Some(row) = ground.row(*n) {
            copies = ground.copies(row.kind);
        }
    }
    work.time(copies)
}

/// Whether each instruction of a load line is used late enough, and shows its wait, by the longest paths from its first moment and to its
/// last one.
pub(crate) fn are_used(ground: &Ground, load: &LoadLine, heads: &Times, tails: &Times) -> bool {
    let numbers = load.numbers.as_slice();
    let uses = Uses {
        load,
        time: time_of(ground, numbers),
        heads,
        tails,
    };
    for n in numbers {
        let amount = ground.amount(*n);
        if !uses.is_from(issue(*n), amount) && !uses.is_from(start(*n), amount) {
            return false;
        }
    }
    true
}
