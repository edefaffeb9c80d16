//! Collects the harm of one finding after another, as runs; questions that several findings ask are answered once.

use crate::deck::{Changing, RunRange};
use crate::layout::{Extent, Span};
use crate::names::{Code, Crowd, Names};
use std::alloc::{AllocError, Global};
use std::collections::BTreeMap;

/// What is asked of the places of a name: which words near them, and of which of them.
#[derive(Clone, Copy, PartialEq, Eq, PartialOrd, Ord)]
pub(crate) struct Question {
    /// The first of the places, and the end.
    first: usize,
    end: usize,
    asked: u8,
    extent: u8,
    words: i64,
}

impl Question {
    /// Of these words near the places of code, by what else is asked.
    pub(crate) fn of(code: &Code, extent: &Extent, asked: u8) -> Question {
        let (extent, words) = extent.number();
        Question {
            first: code.places.first,
            end: code.places.end,
            asked,
            extent,
            words: words.saturating_add(code.words),
        }
    }
}

/// Finds the harm of one finding after another.
#[derive(Drop)]
pub(crate) struct Tracker {
    alloc: Global,
    /// Whether all of a harm is wanted, or only whether there is one.
    wants_all: bool,
    /// The runs of all harms.
    runs: Vec<RunRange>,
    /// Where those begin that were added last in one go.
    begin: usize,
    /// The parts of the list that are the harm so far.
    parts: Vec<Span>,
    /// What was answered, as parts of the list.
    answers: BTreeMap<Question, Span>,
    /// Where the places of names are that have many, by the first of these and the end.
    crowds: BTreeMap<(usize, usize), Option<Crowd>>,
}

impl Tracker {
    pub(crate) fn new(alloc: Global, wants_all: bool) -> Tracker {
        Tracker {
            alloc,
            wants_all,
            runs: Vec::new(alloc),
            begin: 0,
            parts: Vec::new(alloc),
            answers: BTreeMap::new(alloc),
            crowds: BTreeMap::new(alloc),
        }
    }

    /// Where these places of a name are.
    pub(crate) fn crowd(
        &mut self,
        names: &Names,
        places: Span,
    ) -> Result<Option<Crowd>, AllocError> {
        let key = (places.first, places.end);
        if let Some(known) = self.crowds.get(&key) {
            return Ok(*known);
        }
        let crowd = Crowd::of(names.places_in(places));
        let _before = self.crowds.insert(key, crowd)?;
        Ok(crowd)
    }

    pub(crate) fn is_empty(&self) -> bool {
        self.parts.is_empty()
    }

    /// Whether nothing more is wanted of this harm.
    pub(crate) fn is_done(&self) -> bool {
        !self.wants_all && !self.parts.is_empty()
    }

    /// The last runs that were added in one go.
    fn last(&self) -> Option<RunRange> {
        self.runs.get(self.begin..)?.last().copied()
    }

    /// Adds the runs of these lines that may change.
    pub(crate) fn harm(&mut self, changing: &Changing, lines: Span) -> Result<(), AllocError> {
        let Some(runs) = changing.touched(lines) else {
            return Ok(());
        };
        match self.last() {
            Some(last) if last.holds(&runs) => Ok(()),
            _ => self.push(runs),
        }
    }

    fn push(&mut self, runs: RunRange) -> Result<(), AllocError> {
        self.runs.push(runs)?;
        let end = self.runs.len();
        match self.parts.as_mut_slice().last_mut() {
            Some(part) if part.end.saturating_add(1) == end && part.end > self.begin => {
                part.end = end;
            }
            _ => self.parts.push(Span {
                first: end.saturating_sub(1),
                end,
            })?,
        }
        Ok(())
    }

    /// The harm so far, as parts of the list of runs. Another one begins.
    pub(crate) fn take(&mut self) -> Vec<Span> {
        self.begin_anew();
        std::mem::replace(&mut self.parts, Vec::new(self.alloc))
    }

    /// From here on runs are added in one go.
    fn begin_anew(&mut self) {
        self.begin = self.runs.len();
    }

    /// Adds what was answered to a question, if it was asked before; else what is added from here on is its answer.
    pub(crate) fn recall(&mut self, question: &Question) -> Result<bool, AllocError> {
        let Some(answer) = self.answers.get(question).copied() else {
            self.begin_anew();
            return Ok(false);
        };
        if answer.first < answer.end {
            self.parts.push(answer)?;
        }
        Ok(true)
    }

    /// Keeps the answer to a question.
    pub(crate) fn keep(&mut self, question: &Question) -> Result<(), AllocError> {
        let answer = Span {
            first: self.begin,
            end: self.runs.len(),
        };
        let _before = self.answers.insert(*question, answer)?;
        self.begin_anew();
        Ok(())
    }

    /// The runs of all harms.
    pub(crate) fn into_runs(self) -> Vec<RunRange> {
        let Tracker {
            alloc: _,
            wants_all: _,
            runs,
            begin: _,
            parts: _,
            answers: _,
            crowds: _,
        } = self;
        runs
    }
}
