//! Which words near a statement are meant: those around it, so many words further, or to the next name.

use crate::layout::layout::{Layout, Span};

/// Which words near a statement are meant.
#[derive(Clone, Copy)]
pub(crate) enum Extent {
    /// From the name before it to the next.
    Around,
    /// Back to a name.
    BackToName,
    /// From its word to the next name.
    WordToName,
    /// From it to the next name.
    ForwardToName,
    /// What stands so many words from its word, back if there are less than 0, and all between; with what is in its word, or
    /// without.
    Words { words: i64, with_own: bool },
    /// From it so many words.
    Forward { words: i64 },
    /// The stretch that begins with it.
    Stretch,
}

/// A number of words that may be less than 0.
fn count(words: i64) -> usize {
    words.unsigned_abs() as usize
}

/// Statements, and those directly after, if there are some.
fn joined(before: Span, after: Span) -> Span {
    Span {
        first: before.first,
        end: before.end.max(after.end),
    }
}

impl Extent {
    /// So many words further.
    pub(crate) fn further(&self, more: i64) -> Extent {
        match self {
            Extent::Words { words, with_own } => Extent::Words {
                words: words.saturating_add(more),
                with_own: *with_own,
            },
            _ => *self,
        }
    }

    /// Whether a number says how many words are meant.
    pub(crate) fn counts(&self) -> bool {
        matches!(self, Extent::Words { .. } | Extent::Forward { .. })
    }

    /// Whether it leads back from an entry.
    pub(crate) fn leads_back(&self) -> bool {
        matches!(self, Extent::BackToName | Extent::Words { .. })
    }

    /// The statements that are meant, near that at this place; a stretch has a length of its own.
    pub(crate) fn from(&self, layout: &Layout, place: usize) -> Span {
        match self {
            Extent::Around => around(layout, place),
            Extent::BackToName => layout.back_to_name(place),
            Extent::WordToName => joined(layout.back(place, 0), layout.forward_to_name(place)),
            Extent::ForwardToName => layout.forward_to_name(place),
            Extent::Words {
                words: number,
                with_own,
            } => word_at(layout, place, *number, *with_own),
            Extent::Forward { words: number } => layout.forward(place, count(*number)),
            Extent::Stretch => layout.stretch(place),
        }
    }

    /// A number for it, and how many words are meant.
    pub(crate) fn number(&self) -> (u8, i64) {
        match self {
            Extent::Around => (0, 0),
            Extent::BackToName => (1, 0),
            Extent::WordToName => (2, 0),
            Extent::ForwardToName => (3, 0),
            Extent::Words {
                words,
                with_own: true,
            } => (4, *words),
            Extent::Words { words, .. } => (5, *words),
            Extent::Forward { words } => (6, *words),
            Extent::Stretch => (7, 0),
        }
    }
}

fn around(layout: &Layout, place: usize) -> Span {
    let back = layout.back_to_name(place);
    let own = layout.back(place, 0);
    joined(
        Span {
            first: back.first.min(own.first),
            end: back.end,
        },
        layout.forward_to_name(place),
    )
}

fn word_at(layout: &Layout, place: usize, number: i64, with_own: bool) -> Span {
    if number < 0 {
        return layout.back(place, count(number));
    }
    let own = layout.back(place, 0);
    if number == 0 && !with_own {
        return own;
    }
    joined(own, layout.forward(place, count(number).saturating_add(1)))
}
