//! A trial of a supposition with some of its lines: whether, with what is known before it, these still show that no order is left.

use crate::facts::arcs::Arcs;
use crate::facts::copies::copy_of_line;
use crate::facts::found::Supposition;
use crate::facts::ground::Ground;
use crate::facts::pairs::is_late;
use crate::facts::selection::Selection;
use crate::facts::uses::are_used;
use s66_moments::{FactLine, LoadLine};
use std::alloc::{AllocError, Global};

/// What is known before a supposition.
#[derive(Clone, Copy)]
pub(crate) struct Trial<'a> {
    pub(crate) ground: &'a Ground,
    pub(crate) arcs: &'a Arcs,
    pub(crate) selection: Selection,
}

/// What is known within a supposition.
#[derive(Clone, Copy)]
struct Within<'a> {
    trial: Trial<'a>,
    bound: u32,
    /// Whether there may be longer paths by the pairs that were selected last.
    is_open: bool,
    /// Whether no order is left that takes less than the bound.
    is_refuted: bool,
}

impl Within<'_> {
    /// Selects a pair. What paths follow is found by `settle`, which takes most of the time of a trial.
    fn select(&mut self, m: u8, n: u8) {
        self.trial.selection.select(m, n);
        self.is_open = true;
    }

    /// Finds the paths that follow from what was selected, and whether an order is left.
    fn settle(&mut self) {
        if self.is_open {
            let trial = &mut self.trial;
            trial.selection.settle(trial.ground, trial.arcs);
            self.is_refuted = trial.selection.is_late(self.bound);
            self.is_open = false;
        }
    }

    /// Whether n before m would be too late by the paths that were found.
    fn is_late(&self, m: u8, n: u8) -> bool {
        is_late(
            self.trial.ground,
            self.trial.selection.paths(),
            self.bound,
            m,
            n,
        )
    }

    /// Takes a pair in if it is right and new and an order is left, and returns whether it did.
    fn take_pair(&mut self, m: u8, n: u8) -> bool {
        if !self.trial.selection.open_to(m).has(n) {
            return false;
        }
        if !self.is_late(m, n) {
            self.settle();
            if self.is_refuted || !self.is_late(m, n) {
                return false;
            }
        }
        self.select(m, n);
        true
    }

    /// Takes a load line in, from the origin to the end, if it is right and takes the bound, and returns whether it does.
    fn take_load(&mut self, load: &LoadLine) -> bool {
        self.settle();
        let paths = self.trial.selection.paths();
        if load.wait < self.bound
            || !are_used(self.trial.ground, load, &paths.heads, &paths.tails)
        {
            return false;
        }
        self.is_refuted = true;
        true
    }

    /// Takes a line in if it is right and new, and returns whether it is.
    fn take(&mut self, line: &FactLine) -> bool {
        match line {
            FactLine::Pair(m, n) => self.take_pair(*m, *n),
            FactLine::Load(load) => self.take_load(load),
        }
    }

    /// Takes in those of some lines that are right, up to one with which no order is left, but for some that are passed over; whether
    /// none is left.
    fn takes_all(&mut self, lines: &[FactLine], first: usize, end: usize) -> bool {
        for place in 0..lines.len() {
            if self.is_refuted {
                return true;
            }
            if place < first || end <= place {
                self.take(&lines[place]);
            }
        }
        self.settle();
        self.is_refuted
    }
}

impl<'a> Trial<'a> {
    /// What is known if m stands before n.
    fn within(&self, bound: u32, m: u8, n: u8) -> Within<'a> {
        let mut within = Within {
            trial: *self,
            bound,
            is_open: false,
            is_refuted: false,
        };
        within.select(m, n);
        within.settle();
        within
    }

    /// Whether the lines of a supposition, those that are right, show that no order takes less than the bound.
    pub(crate) fn is_refuted(&self, bound: u32, supposition: &Supposition) -> bool {
        let mut within = self.within(bound, supposition.second, supposition.first);
        within.takes_all(supposition.lines.as_slice(), 0, 0)
    }

    /// A supposition with those of its lines that are needed, as far as is found: parts that aren't are dropped from the last one on, first
    /// of half the lines, then of fewer. How many more trials may be made is counted down. `Err` is out of memory.
    pub(crate) fn shortened(
        &self,
        alloc: Global,
        bound: u32,
        supposition: &Supposition,
        left: &mut u32,
    ) -> Result<Supposition, AllocError> {
        let start = self.within(bound, supposition.second, supposition.first);
        let mut lines = right_of(alloc, &start, supposition.lines.as_slice())?;
        let mut size = lines.len();
        for _size in 0..32 {
            lines = without_parts(alloc, &start, lines, size, left)?;
            if size <= 1 {
                break;
            }
            size = size.saturating_add(1) / 2;
        }
        Ok(Supposition {
            first: supposition.first,
            second: supposition.second,
            lines,
        })
    }
}

/// Those of some lines that are right and new, up to one with which no order is left.
fn right_of(
    alloc: Global,
    start: &Within<'_>,
    lines: &[FactLine],
) -> Result<Vec<FactLine>, AllocError> {
    let mut within = *start;
    let mut right = Vec::new(alloc);
    for line in lines {
        if within.is_refuted {
            break;
        }
        if within.take(line) {
            right.push(copy_of_line(line))?;
        }
    }
    Ok(right)
}

/// The lines without those from a place up to another.
fn without(
    alloc: Global,
    lines: &[FactLine],
    first: usize,
    end: usize,
) -> Result<Vec<FactLine>, AllocError> {
    let mut others = Vec::new(alloc);
    for place in 0..lines.len() {
        if place < first || end <= place {
            others.push(copy_of_line(&lines[place]))?;
        }
    }
    Ok(others)
}

/// The lines without parts of some size that aren't needed, from the last one on. How many more may be tried is counted down.
fn without_parts(
    alloc: Global,
    start: &Within<'_>,
    lines: Vec<FactLine>,
    size: usize,
    left: &mut u32,
) -> Result<Vec<FactLine>, AllocError> {
    let mut lines = lines;
    let mut end = lines.len();
    for _part in 0..lines.len() {
        if end == 0 || *left == 0 {
            break;
        }
        *left = left.saturating_sub(1);
        let first = end.saturating_sub(size);
        let mut within = *start;
        if within.takes_all(lines.as_slice(), first, end) {
            let others = without(alloc, lines.as_slice(), first, end)?;
            lines = right_of(alloc, start, others.as_slice())?;
        }
        end = first;
    }
    Ok(lines)
}
