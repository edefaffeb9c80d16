//! The runs whose order or words may change, numbered, and which lines are theirs.

use crate::deck::runs::Runs;
use crate::layout::Span;
use crate::line::Line;
use std::alloc::{AllocError, Global};

/// Runs one after another, of those that may change, from the first to the last.
#[derive(Clone, Copy)]
pub(crate) struct RunRange {
    pub(crate) first: usize,
    pub(crate) last: usize,
}

impl RunRange {
    /// Whether all of the other are among them.
    pub(crate) fn holds(&self, other: &RunRange) -> bool {
        self.first <= other.first && other.last <= self.last
    }

    /// Whether a run of the other is among them.
    pub(crate) fn meets(&self, other: &RunRange) -> bool {
        self.first <= other.last && other.first <= self.last
    }
}

/// The runs that may change, numbered in their order, and the lines of them.
#[derive(Drop)]
pub(crate) struct Changing {
    /// How many such lines come before each line, and before the end.
    before: Vec<usize>,
    /// Of each of them, the number of its run.
    runs: Vec<usize>,
}

impl Changing {
    pub(crate) fn of(alloc: Global, lines: &[Line], runs: &Runs) -> Result<Changing, AllocError> {
        let mut changing = Changing {
            before: Vec::new(alloc),
            runs: Vec::new(alloc),
        };
        let mut count: usize = 0;
        let mut last = None;
        for (at, line) in lines.iter().enumerate() {
            let before = changing.runs.len();
            changing.before.push(before)?;
            if line.is_in_run() && runs.may_change(at) {
                let run = runs.number_at(at);
                if run != last {
                    count = count.saturating_add(1);
                }
                last = run;
                changing.runs.push(count.saturating_sub(1))?;
            }
        }
        let all = changing.runs.len();
        changing.before.push(all)?;
        Ok(changing)
    }

    /// How many runs there are.
    pub(crate) fn count(&self) -> usize {
        let last = self.runs.as_slice().last();
        last.map_or(0, |last| last.saturating_add(1))
    }

    fn lines_before(&self, line: usize) -> usize {
        self.before.get(line).copied().unwrap_or(self.runs.len())
    }

    /// The runs of the lines from one to before another, by index.
    pub(crate) fn touched(&self, lines: Span) -> Option<RunRange> {
        let first = self.lines_before(lines.first);
        let end = self.lines_before(lines.end);
        if first >= end {
            return None;
        }
        Some(RunRange {
            first: self.runs.get(first).copied()?,
            last: self.runs.get(end.saturating_sub(1)).copied()?,
        })
    }

    /// The number of the run of the line at this index, if it may change.
    pub(crate) fn run_at(&self, line: usize) -> Option<usize> {
        let lines = Span {
            first: line,
            end: line.saturating_add(1),
        };
        Some(self.touched(lines)?.first)
    }

    /// Whether the line at this index may change.
    pub(crate) fn holds(&self, line: usize) -> bool {
        self.run_at(line).is_some()
    }
}
