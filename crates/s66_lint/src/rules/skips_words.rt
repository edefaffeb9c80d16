//! The finding that a called routine may skip words behind its call, and what it harms.

use crate::deck::Deck;
use crate::harm::Tracker;
use crate::layout::Extent;
use crate::line::{Line, ends_program, has_other_term, names_index};
use crate::names::Names;
use crate::rules::rules::{Rules, is_load};
use std::alloc::AllocError;

/// How many words behind its call a routine may skip.
const SKIPPED: i64 = 3;

/// Whether a line is a jump that is computed from a B register and another term.
fn is_computed_jump(line: &Line) -> bool {
    line.operation() == b"JP".as_slice()
        && has_other_term(line.fields.operand)
        && names_index(line.fields.operand)
}

/// Marks the entries that a load reads alone with a computed jump between that load and the next entry.
pub(crate) fn mark_skipping<'a>(deck: &Deck<'a>, names: &mut Names<'a>) {
    let mut leads_to_jump = false;
    let mut at = deck.lines().len();
    for line in deck.lines().iter().rev() {
        at = at.saturating_sub(1);
        if leads_to_jump && is_load(line.operation()) && !deck.before(at).in_definition {
            names.mark_skipping(line.fields.operand);
        }
        if ends_program(line.operation())
            || !line.name().is_empty() && names.is_entry(line.name())
        {
            leads_to_jump = false;
        } else if is_computed_jump(line) {
            leads_to_jump = true;
        }
    }
}

impl<'a> Rules<'a> {
    /// Harms the words behind a call that its routine may skip.
    pub(crate) fn harm_skipped(
        &self,
        tracker: &mut Tracker,
        at: usize,
        line: &Line<'a>,
    ) -> Result<(), AllocError> {
        if self.deck.before(at).in_definition || !self.names.is_skipping(line.fields.operand) {
            return Ok(());
        }
        let Some(next) = self.deck.after(at).next else {
            return Ok(());
        };
        if self.is_joined(at) {
            return Ok(());
        }
        let extent = Extent::Forward { words: SKIPPED };
        self.harm_near(tracker, self.deck.layout.place_of(next), &extent)
    }
}
