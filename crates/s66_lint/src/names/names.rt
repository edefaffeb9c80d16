//! The names in the location fields of a source, and where each stands: as code, as an entry of a subroutine, or elsewhere.

use crate::deck::Deck;
use crate::layout::Span;
use crate::line::{Line, equates, number_of};
use std::alloc::{AllocError, Global};
use std::collections::BTreeMap;

/// What stands where a name does.
#[derive(Clone, Copy)]
pub(crate) enum Referent {
    /// Code, so many words from the statement at this place; or in its word, and perhaps so that it can't change.
    Code {
        at: usize,
        words: i64,
        is_held: bool,
    },
    /// A word of its own, with something behind it, and code before it.
    Entry {
        is_before: bool,
        is_behind_code: bool,
    },
    Nothing,
}

/// Where a name stands.
#[derive(Clone, Copy)]
pub(crate) struct NamePlace {
    program: usize,
    /// The place of the statement with the name.
    pub(crate) at: usize,
    /// That of the code in whose word it stands, defined code too.
    pub(crate) code: Option<usize>,
    pub(crate) referent: Referent,
    is_address: bool,
}

/// How many of some places are of code, of code that may change, of an entry, and of an address.
#[derive(Clone, Copy, Default)]
struct PlaceCounts {
    code: usize,
    loose: usize,
    entries: usize,
    addresses: usize,
}

/// The address that a name has by another name.
#[derive(Clone, Copy)]
struct Alias {
    program: usize,
    /// The places of that.
    places: Span,
    /// How many words further it is.
    words: i64,
}

/// What is known of a name.
#[derive(Clone, Copy, Default)]
struct NameRecord {
    /// All its places.
    places: Span,
    alias: Option<Alias>,
    /// The number that it is.
    value: Option<i64>,
    /// An entry has it that is a word.
    is_entry: bool,
    /// It is an entry that may skip words behind its call.
    skips: bool,
}

/// The code that a name means.
#[derive(Clone, Copy)]
pub(crate) struct Code {
    pub(crate) places: Span,
    /// So many words further than the places say.
    pub(crate) words: i64,
}

impl Code {
    /// At these places.
    pub(crate) fn at(places: Span) -> Code {
        Code { places, words: 0 }
    }
}

/// The names in the location fields of a source, with their places, those of a name one after another.
#[derive(Drop)]
pub(crate) struct Names<'a> {
    ids: BTreeMap<&'a [u8], usize>,
    records: Vec<NameRecord>,
    places: Vec<NamePlace>,
    /// Of the places before each, and of all.
    counts: Vec<PlaceCounts>,
}

/// What stands where the line at this index has its name.
fn referent_of(deck: &Deck, at: usize, line: &Line, code: Option<usize>) -> Referent {
    if deck.before(at).in_definition {
        return Referent::Nothing;
    }
    match code {
        Some(code) => code_referent(deck, at, line, code),
        None => entry_referent(deck, at, line),
    }
}

fn code_referent(deck: &Deck, at: usize, line: &Line, code: usize) -> Referent {
    let words = line.words_from_here();
    let from = if words == 0 { code } else { at };
    Referent::Code {
        at: deck.layout.place_of(from),
        words,
        is_held: words == 0 && deck.after(code).is_held,
    }
}

fn entry_referent(deck: &Deck, at: usize, line: &Line) -> Referent {
    let last = deck.line(deck.before(at).last);
    let is_behind_code = last.is_some_and(|last| last.has_words());
    let is_word = line.is_one_word();
    Referent::Entry {
        is_before: is_word && deck.after(at).next_statement.is_some(),
        is_behind_code: is_word && is_behind_code,
    }
}

/// Where the line at this index has its name.
fn place_of(deck: &Deck, at: usize, line: &Line) -> NamePlace {
    let code = deck.code_named(at, line);
    let referent = referent_of(deck, at, line, code);
    NamePlace {
        program: deck.before(at).program,
        at: deck.layout.place_of(at),
        code: code.map(|code| deck.layout.place_of(code)),
        referent,
        is_address: matches!(referent, Referent::Code { .. }) || line.has_address(),
    }
}

impl<'a> Names<'a> {
    pub(crate) fn of(alloc: Global, deck: &Deck<'a>) -> Result<Names<'a>, AllocError> {
        let mut names = Names {
            ids: BTreeMap::new(alloc),
            records: Vec::new(alloc),
            places: Vec::new(alloc),
            counts: Vec::new(alloc),
        };
        let named = names.take_names(alloc, deck)?;
        names.lay_out();
        for _ in named.as_slice() {
            names.places.push(NamePlace {
                program: 0,
                at: 0,
                code: None,
                referent: Referent::Nothing,
                is_address: false,
            })?;
        }
        names.put_places(deck, named.as_slice());
        names.count()?;
        Ok(names)
    }

    /// The lines with a name, by index, each with the number of the name.
    fn take_names(
        &mut self,
        alloc: Global,
        deck: &Deck<'a>,
    ) -> Result<Vec<(usize, usize)>, AllocError> {
        let mut named = Vec::new(alloc);
        for (at, line) in deck.lines().iter().enumerate() {
            let name = line.name();
            if !name.is_empty() {
                let id = self.id_of(name)?;
                self.take_value(id, line);
                named.push((at, id))?;
            }
        }
        Ok(named)
    }

    /// The number of a name, which may be new. Its places are counted.
    fn id_of(&mut self, name: &'a [u8]) -> Result<usize, AllocError> {
        if let Some(id) = self.ids.get(&name) {
            return Ok(*id);
        }
        let id = self.records.len();
        self.records.push(NameRecord::default())?;
        let _before = self.ids.insert(name, id)?;
        Ok(id)
    }

    fn take_value(&mut self, id: usize, line: &Line) {
        let value = if equates(line.operation()) {
            number_of(line.fields.operand)
        } else {
            None
        };
        if let Some(record) = self.records.get_mut(id) {
            record.places.end = record.places.end.saturating_add(1);
            if value.is_some() {
                record.value = value;
            }
        }
    }

    /// Gives each name room for as many places as were counted. None is there yet.
    fn lay_out(&mut self) {
        let mut end: usize = 0;
        for record in self.records.iter_mut() {
            let count = record.places.end;
            record.places = Span { first: end, end };
            end = end.saturating_add(count);
        }
    }

    fn put_places(&mut self, deck: &Deck<'a>, named: &[(usize, usize)]) {
        for (at, id) in named {
            if let Some(line) = deck.line(Some(*at)) {
                let place = place_of(deck, *at, line);
                self.put_place(*id, line, &place);
            }
        }
    }

    fn put_place(&mut self, id: usize, line: &Line, place: &NamePlace) {
        let Some(record) = self.records.get_mut(id) else {
            return;
        };
        let is_entry = matches!(place.referent, Referent::Entry { .. });
        let is_word = !line.operation().is_empty() && !line.renames();
        record.is_entry = record.is_entry || is_entry && is_word;
        if let Some(free) = self.places.get_mut(record.places.end) {
            *free = *place;
        }
        record.places.end = record.places.end.saturating_add(1);
    }

    fn count(&mut self) -> Result<(), AllocError> {
        let mut counts = PlaceCounts::default();
        self.counts.push(counts)?;
        for place in self.places.as_slice() {
            counts = counts.with(place);
            self.counts.push(counts)?;
        }
        Ok(())
    }

    fn record(&self, name: &'a [u8]) -> Option<&NameRecord> {
        self.records.get(*self.ids.get(&name)?)
    }

    fn record_mut(&mut self, name: &'a [u8]) -> Option<&mut NameRecord> {
        self.records.get_mut(*self.ids.get(&name)?)
    }

    /// Of all places of a name those in a program; or all, if it doesn't stand there.
    fn own_or_all(&self, record: &NameRecord, program: usize) -> Span {
        let own = self.own(record, program);
        if own.first < own.end {
            own
        } else {
            record.places
        }
    }

    fn own(&self, record: &NameRecord, program: usize) -> Span {
        let Span { first, end } = record.places;
        let places = self.places_in(record.places);
        let before = places.partition_point(|place| place.program < program);
        let within = places.partition_point(|place| place.program <= program);
        Span {
            first: first.saturating_add(before),
            end: first.saturating_add(within).min(end),
        }
    }

    fn counts_at(&self, place: usize) -> PlaceCounts {
        self.counts.get(place).copied().unwrap_or_default()
    }

    /// These places.
    pub(crate) fn places_in(&self, span: Span) -> &[NamePlace] {
        self.places.get(span.first..span.end).unwrap_or(&[])
    }

    /// The places, of any kind, that a name means in a program.
    pub(crate) fn places_of(&self, name: &'a [u8], program: usize) -> Span {
        match self.record(name) {
            Some(record) => self.own_or_all(record, program),
            None => Span::default(),
        }
    }

    /// The code that a name means in a program, if any.
    pub(crate) fn code_of(&self, name: &'a [u8], program: usize) -> Option<Code> {
        if matches!(name, [] | [b'=', ..]) {
            return None;
        }
        let record = self.record(name)?;
        if let Some(alias) = record.alias {
            let own = self.own(record, program);
            return if alias.program == program || own.first >= own.end {
                Some(Code {
                    places: alias.places,
                    words: alias.words,
                })
            } else {
                None
            };
        }
        let places = self.own_or_all(record, program);
        if self.counts_at(places.end).code > self.counts_at(places.first).code {
            Some(Code::at(places))
        } else {
            None
        }
    }

    /// Whether the words of all this code can't change.
    pub(crate) fn is_held(&self, code: &Code) -> bool {
        let Span { first, end } = code.places;
        code.words == 0 && self.counts_at(end).loose == self.counts_at(first).loose
    }

    /// Whether a name is a label of code in some program.
    fn is_code(&self, record: &NameRecord) -> bool {
        let Span { first, end } = record.places;
        record.alias.is_some() || self.counts_at(end).code > self.counts_at(first).code
    }

    fn has_entries(&self, record: &NameRecord) -> bool {
        let Span { first, end } = record.places;
        record.alias.is_none() && self.counts_at(end).entries > self.counts_at(first).entries
    }

    /// The places of a name as an entry in a program, by whether it may be a label of code too.
    pub(crate) fn entries_of(&self, name: &'a [u8], program: usize, besides_code: bool) -> Span {
        let Some(record) = self.record(name) else {
            return Span::default();
        };
        if !self.has_entries(record) || !besides_code && self.is_code(record) {
            return Span::default();
        }
        self.own_or_all(record, program)
    }

    /// Whether a name is an address in a program.
    pub(crate) fn is_address(&self, name: &'a [u8], program: usize) -> bool {
        let Some(record) = self.record(name) else {
            return false;
        };
        let own = self.own(record, program);
        let places = self.own_or_all(record, program);
        self.counts_at(places.end).addresses > self.counts_at(places.first).addresses
            || record
                .alias
                .is_some_and(|alias| alias.program == program || own.first >= own.end)
    }

    /// The place of the last statement in a program with a name.
    pub(crate) fn last_in(&self, name: &'a [u8], program: usize) -> Option<usize> {
        let own = self.own(self.record(name)?, program);
        Some(self.places_in(own).last()?.at)
    }

    /// All between the statement at a place and this code.
    pub(crate) fn reach_of(&self, code: &Code, here: usize) -> Span {
        let mut reach = Span {
            first: here,
            end: here,
        };
        for place in self.places_in(code.places) {
            if let Referent::Code { at, .. } = place.referent {
                reach.first = reach.first.min(at);
                reach.end = reach.end.max(at);
            }
        }
        reach
    }

    /// The number that a term is, or the name of it.
    pub(crate) fn value_of(&self, term: &'a [u8]) -> Option<i64> {
        if let Some(record) = self.record(term) {
            if record.value.is_some() {
                return record.value;
            }
        }
        number_of(term)
    }

    /// Whether an entry that is a word has a name.
    pub(crate) fn is_entry(&self, name: &'a [u8]) -> bool {
        self.record(name)
            .is_some_and(|record| record.is_entry && self.has_entries(record))
    }

    /// Marks a name, if it is an entry, as one that may skip words behind its call.
    pub(crate) fn mark_skipping(&mut self, name: &'a [u8]) {
        let is_entry = self
            .record(name)
            .is_some_and(|record| self.has_entries(record));
        if let Some(record) = self.record_mut(name) {
            record.skips = record.skips || is_entry;
        }
    }

    /// Whether a name is an entry that may skip words behind its call.
    pub(crate) fn is_skipping(&self, name: &'a [u8]) -> bool {
        self.record(name).is_some_and(|record| record.skips)
    }

    /// Whether a name may get an address by another name: it is no label of code yet.
    pub(crate) fn may_rename(&self, name: &'a [u8]) -> bool {
        self.record(name)
            .is_some_and(|record| !self.is_code(record))
    }

    /// Gives a name in a program the address of code, so many words further.
    pub(crate) fn rename(&mut self, name: &'a [u8], program: usize, code: &Code, words: i64) {
        if let Some(record) = self.record_mut(name) {
            record.alias = Some(Alias {
                program,
                places: code.places,
                words: code.words.saturating_add(words),
            });
        }
    }
}

impl PlaceCounts {
    fn with(&self, place: &NamePlace) -> PlaceCounts {
        let (code, loose, entries) = match place.referent {
            Referent::Code { is_held: true, .. } => (1, 0, 0),
            Referent::Code { .. } => (1, 1, 0),
            Referent::Entry { .. } => (0, 0, 1),
            Referent::Nothing => (0, 0, 0),
        };
        PlaceCounts {
            code: self.code.saturating_add(code),
            loose: self.loose.saturating_add(loose),
            entries: self.entries.saturating_add(entries),
            addresses: self
                .addresses
                .saturating_add(if place.is_address { 1 } else { 0 }),
        }
    }
}
