//! The finding that a line counts words of code, as `*+2`, `NAME+1` or a computed jump do, and what it harms.

use crate::harm::Tracker;
use crate::layout::{Extent, Span};
use crate::line::{
    Kind, Line, Term, ends_name, ends_sum, evaluates, is_branch, is_comma, is_name, names_index,
    terms_of,
};
use crate::names::{Code, Distance, are_many};
use crate::rules::loads_stores::has_register;
use crate::rules::rules::Rules;
use std::alloc::AllocError;

/// Whether a sum is the next word, which begins anew behind an unconditional jump.
fn is_next_word(sum: &[u8]) -> bool {
    matches!(sum, b"*+1" | b"1+*")
}

/// Whether a sum is the word of the line itself.
fn is_own_word(sum: &[u8]) -> bool {
    matches!(sum, b"*" | b"*+0" | b"*-0")
}

/// Whether a sum is of the address of its line.
fn is_from_here(terms: &[Term]) -> bool {
    terms.iter().any(|term| term.is_here()) && !terms.iter().any(|term| term.is_high())
}

/// Whether a sum means a word by its content.
fn means_content(terms: &[Term]) -> bool {
    terms.iter().any(|term| matches!(term.bytes, b"$" | b"*P"))
}

impl<'a> Rules<'a> {
    /// What is harmed by counting words, in the line at this index.
    pub(crate) fn harm_counted(
        &self,
        tracker: &mut Tracker,
        at: usize,
        line: &Line<'a>,
    ) -> Result<(), AllocError> {
        let operand = line.fields.operand;
        for sum in operand.split(ends_sum) {
            let terms = terms_of(self.alloc, sum)?;
            self.harm_from_label(tracker, at, terms.as_slice())?;
        }
        let before = self.deck.before(at);
        if !before.in_definition && !before.in_peripheral {
            self.harm_from_here(tracker, at, line)?;
        }
        if line.operation() == b"JP".as_slice() && names_index(operand) {
            self.harm_jumped_into(tracker, at, operand)?;
        }
        Ok(())
    }

    /// The only address among these terms, and how many words the others are.
    fn only_address(&self, terms: &[Term<'a>], program: usize) -> Option<(&'a [u8], Distance)> {
        let mut only: Option<&'a [u8]> = None;
        for term in terms {
            if term.is_high() {
                return None;
            }
            if self.names.is_address(term.bytes, program) {
                if only.is_some() {
                    return None;
                }
                only = Some(term.bytes);
            }
        }
        let name = only?;
        let mut distance = Distance::none();
        for term in terms {
            if term.bytes != name && term.counts() {
                distance = distance.with(&self.names, term);
            }
        }
        Some((name, distance))
    }

    fn harm_from_label(
        &self,
        tracker: &mut Tracker,
        at: usize,
        terms: &[Term<'a>],
    ) -> Result<(), AllocError> {
        if terms.len() < 2 || tracker.is_done() {
            return Ok(());
        }
        let program = self.deck.before(at).program;
        let Some((name, distance)) = self.only_address(terms, program) else {
            return Ok(());
        };
        if distance.is_empty || distance.words() == Some(0) {
            return Ok(());
        }
        if let Some(code) = self.names.code_of(name, program) {
            let extent = match distance.words() {
                Some(words) => Extent::Words {
                    words,
                    with_own: false,
                },
                None if distance.leads_back() => Extent::BackToName,
                None => Extent::WordToName,
            };
            return self.harm_code(tracker, &code, &extent);
        }
        let entries = self.names.entries_of(name, program, true);
        self.harm_counted_entries(tracker, entries, &distance)
    }

    fn harm_counted_entries(
        &self,
        tracker: &mut Tracker,
        entries: Span,
        distance: &Distance,
    ) -> Result<(), AllocError> {
        if entries.is_empty() {
            return Ok(());
        }
        let extent = match distance.words() {
            Some(1) => return Ok(()),
            Some(words) if words > 0 => Extent::Forward {
                words: words.saturating_add(1),
            },
            Some(words) => Extent::Words {
                words,
                with_own: false,
            },
            None if distance.leads_back() => Extent::BackToName,
            None => Extent::ForwardToName,
        };
        self.harm_entries(tracker, entries, &extent)
    }

    /// Harms what a line counts from its own word on.
    fn harm_from_here(
        &self,
        tracker: &mut Tracker,
        at: usize,
        line: &Line<'a>,
    ) -> Result<(), AllocError> {
        let operation = line.operation();
        if matches!(operation, b"EQU" | b"=") {
            return self.harm_from_name(tracker, at, line);
        }
        if !matches!(line.kind, Kind::Instruction)
            && !is_branch(operation)
            && !evaluates(operation)
        {
            return Ok(());
        }
        for sum in line.fields.operand.split(is_comma) {
            let terms = terms_of(self.alloc, sum)?;
            if is_from_here(terms.as_slice()) && !self.stays(at, line, sum) {
                self.harm_sum_from_here(tracker, at, line, terms.as_slice())?;
            }
        }
        Ok(())
    }

    /// Harms what the name of a line counts from its word on.
    fn harm_from_name(
        &self,
        tracker: &mut Tracker,
        at: usize,
        line: &Line,
    ) -> Result<(), AllocError> {
        let words = line.words_from_here();
        if line.name().is_empty() || words == 0 || self.deck.code_named(at, line).is_none() {
            return Ok(());
        }
        self.harm_words_from_here(tracker, at, words, false)
    }

    /// Whether the word to which a branch goes stays where it is: the next one behind an unconditional jump, or its own, if that
    /// can't change before it.
    fn stays(&self, at: usize, line: &Line, sum: &[u8]) -> bool {
        let operation = line.operation();
        if matches!(operation, b"RJ" | b"EQ" | b"JP")
            && is_next_word(sum)
            && sum.len() == line.fields.operand.len()
        {
            return !self.is_joined(at);
        }
        is_branch(operation)
            && is_own_word(sum)
            && (line.is_forced() || self.deck.before(at).follows_forced)
    }

    /// Whether the next line stands in the word of the line at this index for its place.
    pub(crate) fn is_joined(&self, at: usize) -> bool {
        let next = self.deck.line(self.deck.after(at).next);
        next.is_some_and(|next| next.joins())
    }

    fn harm_sum_from_here(
        &self,
        tracker: &mut Tracker,
        at: usize,
        line: &Line<'a>,
        terms: &[Term<'a>],
    ) -> Result<(), AllocError> {
        let mut distance = Distance::none();
        for term in terms {
            if !term.is_here() && !term.is_register() {
                distance = distance.with(&self.names, term);
            }
        }
        let has_index = has_register(terms);
        if let Some(next) = self.deck.after(at).next {
            if line.halts() && !self.is_joined(at) && distance.words().unwrap_or(0) >= 1 {
                let extent = if has_index {
                    Extent::ForwardToName
                } else {
                    Extent::Forward {
                        words: distance.words().unwrap_or(0),
                    }
                };
                return self.harm_near(tracker, self.deck.layout.place_of(next), &extent);
            }
        }
        let with_own = matches!(line.kind, Kind::Instruction) || means_content(terms);
        match distance.words() {
            Some(words) if !has_index => {
                self.harm_words_from_here(tracker, at, words, with_own)?;
            }
            _ => self.harm_near(tracker, self.deck.layout.place_of(at), &Extent::Around)?,
        }
        self.harm_between(tracker, at, terms)
    }

    /// Harms so many words from that of the line at this index, or from the next if it has none.
    fn harm_words_from_here(
        &self,
        tracker: &mut Tracker,
        at: usize,
        words: i64,
        with_own: bool,
    ) -> Result<(), AllocError> {
        let table = &self.deck.layout;
        let place = table.place_of(at);
        if words < 0 || table.has_words(place) {
            return self.harm_near(tracker, place, &Extent::Words { words, with_own });
        }
        self.harm(tracker, table.back(place, 0))?;
        if words == 0 && !with_own {
            return Ok(());
        }
        let next = place.saturating_add(1);
        let words = words.saturating_add(1);
        self.harm_near(tracker, next, &Extent::Forward { words })
    }

    /// Harms all between the line at this index and the labels of code among these terms.
    fn harm_between(
        &self,
        tracker: &mut Tracker,
        at: usize,
        terms: &[Term<'a>],
    ) -> Result<(), AllocError> {
        let here = self.deck.layout.place_of(at);
        for term in terms {
            let Some(code) = self.names.code_of(term.bytes, self.deck.before(at).program) else {
                continue;
            };
            let span = self.reach_of(tracker, &code, here)?;
            self.harm(tracker, span)?;
        }
        Ok(())
    }

    /// All between the statement at a place and this code.
    fn reach_of(
        &self,
        tracker: &mut Tracker,
        code: &Code,
        here: usize,
    ) -> Result<Span, AllocError> {
        if !are_many(code.places) {
            return Ok(self.names.reach_of(code, here));
        }
        match tracker.crowd(&self.names, code.places)? {
            Some(crowd) => Ok(crowd.reach(here)),
            None => Ok(Span::default()),
        }
    }

    /// Harms what a computed jump may reach.
    fn harm_jumped_into(
        &self,
        tracker: &mut Tracker,
        at: usize,
        operand: &'a [u8],
    ) -> Result<(), AllocError> {
        let program = self.deck.before(at).program;
        for name in operand.split(ends_name) {
            if is_name(name) && !tracker.is_done() {
                let places = self.names.places_of(name, program);
                self.harm_reached(tracker, places)?;
            }
        }
        Ok(())
    }
}
