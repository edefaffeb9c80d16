//! The finding of more `NO`s in a row than packing ever needs.

use crate::deck::Deck;
use crate::line::{Kind, Line};
use std::alloc::{AllocError, Global};

/// As many pads one after another are never needed.
const TOO_MANY: usize = 4;

/// The pads of a run one after another.
#[derive(Drop)]
struct PadRow {
    run: Option<usize>,
    first: usize,
    count: usize,
}

impl PadRow {
    /// Takes the next line of a run, which has this index; whether it is the first pad too many.
    fn take(&mut self, at: usize, line: &Line, run: Option<usize>) -> bool {
        if !matches!(line.kind, Kind::Pad) {
            self.count = 0;
            return false;
        }
        if self.run != run || self.count == 0 {
            self.run = run;
            self.first = at;
            self.count = 0;
        }
        self.count = self.count.saturating_add(1);
        self.count == TOO_MANY
    }
}

/// The first lines, by index, of four pads or more one after another in a run that may change.
pub(crate) fn rows_of(alloc: Global, deck: &Deck) -> Result<Vec<usize>, AllocError> {
    let mut rows = Vec::new(alloc);
    let mut row = PadRow {
        run: None,
        first: 0,
        count: 0,
    };
    for (at, line) in deck.lines().iter().enumerate() {
        if let Some(run) = deck.changing.run_at(at) {
            if row.take(at, line, Some(run)) && !deck.before(row.first).in_definition {
                rows.push(row.first)?;
            }
        }
    }
    Ok(rows)
}
