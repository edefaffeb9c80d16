//! Adds to the harm of a finding: the code near all places of a name, by which words near it are meant.

use crate::harm::tracker::{Question, Tracker};
use crate::layout::{Extent, Span};
use crate::names::{Code, NamePlace, Referent, are_many};
use crate::rules::Rules;
use std::alloc::AllocError;

/// What is asked of the places of a name, beside the extent.
#[derive(Clone, Copy)]
enum Asked {
    /// What is near them as code.
    Code,
    /// The same, but for words that can't change.
    LooseCode,
    /// What is near them as entries.
    Entries,
    /// What a computed jump may reach from them.
    Reached,
}

impl<'a> Rules<'a> {
    /// Harms these statements.
    pub(crate) fn harm(&self, tracker: &mut Tracker, statements: Span) -> Result<(), AllocError> {
        tracker.harm(&self.deck.changing, self.deck.lines_of(statements))
    }

    /// Harms what is meant near the statement at a place.
    pub(crate) fn harm_near(
        &self,
        tracker: &mut Tracker,
        place: usize,
        extent: &Extent,
    ) -> Result<(), AllocError> {
        let statements = match extent {
            Extent::Stretch => self.stretch(place),
            _ => extent.from(&self.deck.layout, place),
        };
        self.harm(tracker, statements)
    }

    /// The stretch from a statement, to the end that a sum tells, or as far as it goes.
    fn stretch(&self, place: usize) -> Span {
        let layout = &self.deck.layout;
        match (self.lengths.end_of(place), layout.line_of(place)) {
            (Some(end), Some(line)) if end > line => Span {
                first: place,
                end: layout.place_of(end),
            },
            _ => layout.stretch(place),
        }
    }

    /// Harms what is meant near all the places of a label of code.
    pub(crate) fn harm_code(
        &self,
        tracker: &mut Tracker,
        code: &Code,
        extent: &Extent,
    ) -> Result<(), AllocError> {
        self.harm_places(tracker, code, extent, Asked::Code)
    }

    /// The same, but for places in words that can't change.
    pub(crate) fn harm_loose(
        &self,
        tracker: &mut Tracker,
        code: &Code,
        extent: &Extent,
    ) -> Result<(), AllocError> {
        if self.names.is_held(code) {
            return Ok(());
        }
        self.harm_places(tracker, code, extent, Asked::LooseCode)
    }

    /// Harms what is meant near all the places of an entry, if there is something behind it, or code before it.
    pub(crate) fn harm_entries(
        &self,
        tracker: &mut Tracker,
        entries: Span,
        extent: &Extent,
    ) -> Result<(), AllocError> {
        self.harm_places(tracker, &Code::at(entries), extent, Asked::Entries)
    }

    /// Harms what a computed jump may reach from these places of a name.
    pub(crate) fn harm_reached(
        &self,
        tracker: &mut Tracker,
        places: Span,
    ) -> Result<(), AllocError> {
        self.harm_places(tracker, &Code::at(places), &Extent::Around, Asked::Reached)
    }

    /// Harms what is asked of places; an answer to what was asked before is used again.
    fn harm_places(
        &self,
        tracker: &mut Tracker,
        code: &Code,
        extent: &Extent,
        asked: Asked,
    ) -> Result<(), AllocError> {
        let places = self.names.places_in(code.places);
        if let [place] = places {
            return self.harm_place(tracker, place, code.words, extent, asked);
        }
        let question = Question::of(code, extent, asked as u8);
        if tracker.recall(&question)? {
            return Ok(());
        }
        if extent.counts() && are_many(code.places) {
            self.harm_crowd(tracker, code, extent)?;
            return tracker.keep(&question);
        }
        for place in places {
            self.harm_place(tracker, place, code.words, extent, asked)?;
            if tracker.is_done() {
                break;
            }
        }
        tracker.keep(&question)
    }

    /// Harms what is meant near all the places of a name that has many, and all between, so that the time doesn't grow with their number.
    fn harm_crowd(
        &self,
        tracker: &mut Tracker,
        code: &Code,
        extent: &Extent,
    ) -> Result<(), AllocError> {
        match tracker.crowd(&self.names, code.places)? {
            Some(crowd) => self.harm(tracker, crowd.near(&self.deck.layout, extent, code.words)),
            None => Ok(()),
        }
    }

    fn harm_place(
        &self,
        tracker: &mut Tracker,
        place: &NamePlace,
        further: i64,
        extent: &Extent,
        asked: Asked,
    ) -> Result<(), AllocError> {
        match asked {
            Asked::Code => self.harm_code_at(tracker, place, further, extent, false),
            Asked::LooseCode => self.harm_code_at(tracker, place, further, extent, true),
            Asked::Entries if !self.is_at_entry(place, extent) => Ok(()),
            Asked::Entries => self.harm_near(tracker, place.at, extent),
            Asked::Reached => self.harm_reached_at(tracker, place),
        }
    }

    fn harm_code_at(
        &self,
        tracker: &mut Tracker,
        place: &NamePlace,
        further: i64,
        extent: &Extent,
        is_loose: bool,
    ) -> Result<(), AllocError> {
        let Referent::Code { at, words, is_held } = place.referent else {
            return Ok(());
        };
        if is_loose && is_held && further == 0 {
            return Ok(());
        }
        let extent = extent.further(words.saturating_add(further));
        self.harm_near(tracker, at, &extent)
    }

    /// Whether something stands behind an entry or, if what is meant leads back, code before it; and a stretch has a length.
    fn is_at_entry(&self, place: &NamePlace, extent: &Extent) -> bool {
        let Referent::Entry {
            is_before,
            is_behind_code,
        } = place.referent
        else {
            return false;
        };
        let is_there = if extent.leads_back() {
            is_behind_code
        } else {
            is_before
        };
        is_there && (!matches!(extent, Extent::Stretch) || self.lengths.has(place.at))
    }

    fn harm_reached_at(&self, tracker: &mut Tracker, place: &NamePlace) -> Result<(), AllocError> {
        self.harm_near(tracker, place.code.unwrap_or(place.at), &Extent::Around)?;
        if place.code.is_some() {
            self.harm_near(tracker, place.at, &Extent::ForwardToName)?;
        }
        Ok(())
    }
}
