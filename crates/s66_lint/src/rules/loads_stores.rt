//! The findings that a load or a store meets a word of code, and what these harm.

use crate::harm::Tracker;
use crate::layout::{Extent, Span};
use crate::line::{
    Line, Registers, Term, ends_name, ends_program, ends_sum, is_name, terms_of, without_plus,
};
use crate::names::{Code, Distance, Names};
use crate::rules::rules::Rules;
use std::alloc::{AllocError, Global};

/// In as many statements the use of an address is looked for.
pub(crate) const USE_LIMIT: usize = 40;

/// A part of an operand.
#[derive(Drop)]
struct OperandPart<'a> {
    bytes: &'a [u8],
    /// The terms of a sum, or the names in what is no sum.
    terms: Vec<Term<'a>>,
    is_sum: bool,
    has_register: bool,
}

/// The names in a part of an operand.
fn names_in<'a>(alloc: Global, bytes: &'a [u8]) -> Result<Vec<Term<'a>>, AllocError> {
    let mut names = Vec::new(alloc);
    for name in bytes.split(ends_name) {
        if is_name(name) {
            names.push(Term {
                is_subtracted: false,
                bytes: name,
            })?;
        }
    }
    Ok(names)
}

impl<'a> OperandPart<'a> {
    fn of(alloc: Global, bytes: &'a [u8]) -> Result<OperandPart<'a>, AllocError> {
        let sum = terms_of(alloc, bytes)?;
        let is_sum = !sum.is_empty();
        let terms = if is_sum { sum } else { names_in(alloc, bytes)? };
        let has_register = has_register(terms.as_slice());
        Ok(OperandPart {
            bytes,
            terms,
            is_sum,
            has_register,
        })
    }

    /// How many words what it means is from a name in it.
    fn distance(&self, names: &Names<'a>, name: &[u8]) -> Distance {
        let mut distance = Distance::none();
        if !self.is_sum {
            return distance;
        }
        for term in self.terms.as_slice() {
            if term.bytes != name && !term.is_register() {
                distance = distance.with(names, term);
            }
        }
        distance
    }

    /// Which words near a label of code are meant.
    fn extent_from_code(&self, names: &Names<'a>, name: &[u8]) -> Extent {
        if self.has_register {
            return Extent::Around;
        }
        let distance = self.distance(names, name);
        match distance.words() {
            Some(words) => Extent::Words {
                words,
                with_own: true,
            },
            None if distance.leads_back() => Extent::BackToName,
            None => Extent::WordToName,
        }
    }

    /// How many words from an entry is meant; nothing if a register tells that.
    fn words_from_entry(&self, names: &Names<'a>, name: &[u8]) -> Option<i64> {
        if self.has_register {
            return None;
        }
        self.distance(names, name).words()
    }
}

/// Whether one of some terms is a register.
pub(crate) fn has_register(terms: &[Term]) -> bool {
    terms.iter().any(|term| term.is_register())
}

impl<'a> Rules<'a> {
    /// What a load or a store harms, which is in the line at this index.
    pub(crate) fn harm_referenced(
        &self,
        tracker: &mut Tracker,
        at: usize,
        line: &Line<'a>,
    ) -> Result<(), AllocError> {
        for sum in line.fields.operand.split(ends_sum) {
            let part = OperandPart::of(self.alloc, sum)?;
            for term in part.terms.as_slice() {
                self.harm_name(tracker, at, line, &part, term.bytes)?;
            }
        }
        Ok(())
    }

    fn harm_name(
        &self,
        tracker: &mut Tracker,
        at: usize,
        line: &Line,
        part: &OperandPart<'a>,
        name: &'a [u8],
    ) -> Result<(), AllocError> {
        if tracker.is_done() {
            return Ok(());
        }
        let program = self.deck.before(at).program;
        if let Some(code) = self.names.code_of(name, program) {
            let is_chained = self.is_chained(at, line);
            return self.harm_part(tracker, part, name, &code, is_chained);
        }
        let entries = self.names.entries_of(name, program, false);
        if entries.is_empty() {
            return Ok(());
        }
        match part.words_from_entry(&self.names, name) {
            Some(0) if self.is_chained(at, line) => {
                self.harm_entries(tracker, entries, &Extent::Stretch)
            }
            Some(words) => self.harm_from_entries(tracker, entries, words),
            None => Ok(()),
        }
    }

    fn harm_part(
        &self,
        tracker: &mut Tracker,
        part: &OperandPart<'a>,
        name: &'a [u8],
        code: &Code,
        is_chained: bool,
    ) -> Result<(), AllocError> {
        let extent = part.extent_from_code(&self.names, name);
        if without_plus(part.bytes) == name && !is_chained {
            return self.harm_loose(tracker, code, &extent);
        }
        self.harm_code(tracker, code, &extent)?;
        if is_chained {
            self.harm_code(tracker, code, &Extent::Stretch)?;
        }
        Ok(())
    }

    fn harm_from_entries(
        &self,
        tracker: &mut Tracker,
        entries: Span,
        words: i64,
    ) -> Result<(), AllocError> {
        if words > 0 {
            let words = words.saturating_add(1);
            self.harm_entries(tracker, entries, &Extent::Forward { words })
        } else if words < 0 {
            let with_own = true;
            self.harm_entries(tracker, entries, &Extent::Words { words, with_own })
        } else {
            Ok(())
        }
    }

    /// Whether the A register that the line at this index sets is used with another term before it is set anew.
    fn is_chained(&self, at: usize, line: &Line) -> bool {
        let [_, letter, digit] = line.operation() else {
            return false;
        };
        let name = [*letter, *digit];
        let register = Registers::one(*letter, *digit);
        for place in self.places_behind(at) {
            let Some(next) = self.deck.statement(place) else {
                return false;
            };
            if ends_program(next.operation()) {
                return false;
            }
            let reads = Registers::in_operand(next.fields.operand).meets(&register);
            if reads && next.is_set() && next.fields.operand != name.as_slice() {
                return true;
            }
            if !reads && next.operation() == line.operation() {
                return false;
            }
        }
        false
    }

    /// The places in which the use of an address is looked for that the line at this index sets.
    pub(crate) fn places_behind(&self, at: usize) -> std::ops::Range<usize> {
        let first = self.deck.layout.place_of(at).saturating_add(1);
        first..first.saturating_add(USE_LIMIT)
    }
}
