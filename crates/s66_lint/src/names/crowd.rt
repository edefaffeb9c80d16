//! A name with many places, looked at as one stretch from the first place to the last, so that the time doesn't grow with their number.

use crate::layout::{Extent, Layout, Span};
use crate::names::names::{NamePlace, Referent};

/// Up to so many places of a name are looked at one by one.
const FEW: usize = 100;

/// Where the places of a name are, as code and as an entry.
#[derive(Clone, Copy)]
pub(crate) struct Crowd {
    /// The first and the last statement from which words are counted.
    first: usize,
    last: usize,
    /// How many words further than its statement a place is, at least and at most.
    least: i64,
    most: i64,
}

/// Whether there are more places than are looked at one by one.
pub(crate) fn are_many(places: Span) -> bool {
    places.end.saturating_sub(places.first) > FEW
}

/// The statement from which words are counted at a place, and how many words further it is.
fn beginning(place: &NamePlace) -> Option<(usize, i64)> {
    match place.referent {
        Referent::Code { at, words, .. } => Some((at, words)),
        Referent::Entry {
            is_before,
            is_behind_code,
        } if is_before || is_behind_code => Some((place.at, 0)),
        _ => None,
    }
}

impl Crowd {
    /// Of these places; nothing if no words are counted from them.
    pub(crate) fn of(places: &[NamePlace]) -> Option<Crowd> {
        let mut crowd = None;
        for place in places {
            if let Some((at, words)) = beginning(place) {
                crowd = Some(with(crowd, at, words));
            }
        }
        crowd
    }

    /// All that is meant near one of the places, so many words further, and all from the first place to the last.
    pub(crate) fn near(&self, layout: &Layout, extent: &Extent, further: i64) -> Span {
        let before = extent
            .further(self.least.saturating_add(further))
            .from(layout, self.first);
        let behind = extent
            .further(self.most.saturating_add(further))
            .from(layout, self.last);
        Span {
            first: before.first.min(self.first),
            end: behind.end.max(self.last.saturating_add(1)),
        }
    }

    /// All between a statement and the places, the last of them left out.
    pub(crate) fn reach(&self, here: usize) -> Span {
        Span {
            first: here.min(self.first),
            end: here.max(self.last),
        }
    }
}

/// A crowd with a place more.
fn with(crowd: Option<Crowd>, at: usize, words: i64) -> Crowd {
    let Some(crowd) = crowd else {
        return Crowd {
            first: at,
            last: at,
            least: words,
            most: words,
        };
    };
    Crowd {
        first: crowd.first.min(at),
        last: crowd.last.max(at),
        least: crowd.least.min(words),
        most: crowd.most.max(words),
    }
}
