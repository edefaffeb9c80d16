//! How many words the terms beside a name in a sum are.

use crate::line::Term;
use crate::names::names::Names;

/// How many words the terms beside a name are.
#[derive(Clone, Copy)]
pub(crate) struct Distance {
    words: i64,
    is_known: bool,
    /// A term that isn't known is subtracted.
    is_back: bool,
    /// There is none.
    pub(crate) is_empty: bool,
}

impl Distance {
    pub(crate) fn none() -> Distance {
        Distance {
            words: 0,
            is_known: true,
            is_back: false,
            is_empty: true,
        }
    }

    /// With a term more.
    pub(crate) fn with<'a>(&self, names: &Names<'a>, term: &Term<'a>) -> Distance {
        match names.value_of(term.bytes) {
            Some(number) => Distance {
                words: self.words.saturating_add(term.signed(number)),
                is_empty: false,
                ..*self
            },
            None => Distance {
                is_known: false,
                is_back: self.is_back || term.is_subtracted,
                is_empty: false,
                ..*self
            },
        }
    }

    /// The words, if they are known.
    pub(crate) fn words(&self) -> Option<i64> {
        if self.is_known {
            Some(self.words)
        } else {
            None
        }
    }

    /// Whether it isn't known, and leads back.
    pub(crate) fn leads_back(&self) -> bool {
        self.is_back
    }
}
