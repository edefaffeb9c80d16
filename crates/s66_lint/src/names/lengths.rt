//! How far a piece of code goes whose length is a difference of two addresses in the source, as `M-L`.

use crate::deck::Deck;
use crate::layout::Span;
use crate::line::{Term, ends_sum, names_nothing, terms_of};
use crate::names::names::{Names, Referent};
use std::alloc::{AllocError, Global};
use std::collections::BTreeMap;

/// The places of a name, as code or as an entry.
#[derive(Clone, Copy, PartialEq, Eq, PartialOrd, Ord)]
struct StretchStart {
    first: usize,
    end: usize,
    is_code: bool,
}

/// To which line a stretch goes that begins at a statement, by sums as `M-L` and `*-L` in the source.
#[derive(Drop)]
pub(crate) struct Lengths {
    /// By the place of the statement, the index of the last line; 0 if the sum has no end in its program.
    ends: Vec<Option<usize>>,
}

/// The sums of a source.
#[derive(Drop)]
struct Sums {
    ends: BTreeMap<StretchStart, usize>,
}

impl Sums {
    fn put(&mut self, begin: StretchStart, end: usize) -> Result<(), AllocError> {
        let known = self.ends.get(&begin).copied().unwrap_or(0);
        let _before = self.ends.insert(begin, known.max(end))?;
        Ok(())
    }

    /// Puts that a stretch from a name goes to this line.
    fn put_name<'a>(
        &mut self,
        names: &Names<'a>,
        name: &'a [u8],
        program: usize,
        end: usize,
    ) -> Result<(), AllocError> {
        if let Some(code) = names.code_of(name, program) {
            let Span { first, end: behind } = code.places;
            self.put(
                StretchStart {
                    first,
                    end: behind,
                    is_code: true,
                },
                end,
            )?;
        }
        let entries = names.entries_of(name, program, true);
        if entries.is_empty() {
            return Ok(());
        }
        self.put(
            StretchStart {
                first: entries.first,
                end: entries.end,
                is_code: false,
            },
            end,
        )
    }
}

/// The line to which an added term goes in the line at this index, if it is an address; 0 if that isn't in its program.
fn end_of<'a>(deck: &Deck<'a>, names: &Names<'a>, term: &Term<'a>, at: usize) -> Option<usize> {
    let program = deck.before(at).program;
    if term.is_subtracted {
        return None;
    }
    if matches!(term.bytes, b"*" | b"*L") {
        return Some(at);
    }
    if !names.is_address(term.bytes, program) {
        return None;
    }
    match names.last_in(term.bytes, program) {
        Some(place) => deck.layout.line_of(place),
        None => Some(0),
    }
}

impl Lengths {
    pub(crate) fn of<'a>(
        alloc: Global,
        deck: &Deck<'a>,
        names: &Names<'a>,
    ) -> Result<Lengths, AllocError> {
        let mut sums = Sums {
            ends: BTreeMap::new(alloc),
        };
        for (at, line) in deck.lines().iter().enumerate() {
            let operand = line.fields.operand;
            if !line.is_comment() && operand.contains(&b'-') && !names_nothing(operand) {
                take_operand(alloc, &mut sums, deck, names, at, operand)?;
            }
        }
        let mut lengths = Lengths {
            ends: Vec::new(alloc),
        };
        if sums.ends.is_empty() {
            return Ok(lengths);
        }
        for _ in 0..deck.layout.count() {
            lengths.ends.push(None)?;
        }
        for (begin, end) in sums.ends.iter() {
            lengths.put(names, begin, *end);
        }
        Ok(lengths)
    }

    fn put(&mut self, names: &Names, begin: &StretchStart, end: usize) {
        let places = names.places_in(Span {
            first: begin.first,
            end: begin.end,
        });
        for place in places {
            let at = match place.referent {
                Referent::Code { at, .. } if begin.is_code => Some(at),
                Referent::Entry { .. } if !begin.is_code => Some(place.at),
                _ => None,
            };
            if let Some(known) = self.ends.get_mut(at.unwrap_or(usize::MAX)) {
                *known = Some(end.max(known.unwrap_or(0)));
            }
        }
    }

    /// Whether a sum in the source tells how long the stretch from a statement is.
    pub(crate) fn has(&self, place: usize) -> bool {
        self.end_of(place).is_some()
    }

    /// The index of the last line of that stretch.
    pub(crate) fn end_of(&self, place: usize) -> Option<usize> {
        self.ends.get(place).copied()?
    }
}

fn take_operand<'a>(
    alloc: Global,
    sums: &mut Sums,
    deck: &Deck<'a>,
    names: &Names<'a>,
    at: usize,
    operand: &'a [u8],
) -> Result<(), AllocError> {
    for sum in operand.split(ends_sum) {
        let terms = terms_of(alloc, sum)?;
        let mut end: Option<usize> = None;
        for term in terms.as_slice() {
            if let Some(line) = end_of(deck, names, term, at) {
                end = Some(line.max(end.unwrap_or(0)));
            }
        }
        let Some(end) = end else {
            continue;
        };
        for term in terms.as_slice() {
            if term.is_subtracted {
                sums.put_name(names, term.bytes, deck.before(at).program, end)?;
            }
        }
    }
    Ok(())
}
