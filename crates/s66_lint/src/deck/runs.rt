//! The runs of a source as `lint` reads it, and which of them may change.

use crate::line::{Access, Line};
use s66_isa::BLOCK_LIMIT;
use s66_line::fields_of;
use std::alloc::{AllocError, Global};

/// The instructions and pads of a run, refused lines among them passed over.
#[derive(Clone, Copy)]
pub(crate) struct Run {
    /// Its first line has a location field.
    is_located: bool,
    /// How many bytes that has, with the blank before it if it begins in column 2.
    label: usize,
    instructions: usize,
    has_pads: bool,
    /// What the last instruction reads and writes.
    last: Option<Access>,
    /// An instruction doesn't depend on that before it.
    is_loose: bool,
}

impl Run {
    /// Whether an instruction or a pad of it may come into another word, or go.
    fn may_change(&self) -> bool {
        self.instructions > 0 && (self.has_pads || self.is_loose)
    }

    /// Whether a line before which `index` of its instructions come is within one of its blocks, or between the pad with its label
    /// and that.
    fn holds(&self, index: usize) -> bool {
        index < self.instructions && (index % BLOCK_LIMIT != 0 || index == 0 && self.is_located)
    }
}

/// Where a line stands: in which run, and after how many of its instructions.
#[derive(Clone, Copy)]
struct RunPlace {
    run: usize,
    index: usize,
}

/// Whether `--cut` or a switch leaves the line at this index alone.
fn is_left_alone(alone: &[bool], at: usize, line: &Line) -> bool {
    line.is_off || alone.get(at).copied().unwrap_or(false)
}

/// The runs of a source as `lint` reads it.
#[derive(Drop)]
pub(crate) struct Runs {
    /// Those that have ended.
    runs: Vec<Run>,
    /// That which has not.
    open: Option<Run>,
    /// Where each line stands, if it is a comment or of a run.
    places: Vec<Option<RunPlace>>,
}

/// A run before its first line.
fn begun(first: &Line) -> Run {
    Run {
        is_located: first.is_located(),
        label: fields_of(first.body).label.len(),
        instructions: 0,
        has_pads: false,
        last: None,
        is_loose: false,
    }
}

impl Runs {
    /// The runs that remain where these lines, by index, are left alone, and those between switches.
    pub(crate) fn of(alloc: Global, lines: &[Line], alone: &[bool]) -> Result<Runs, AllocError> {
        let mut runs = Runs {
            runs: Vec::new(alloc),
            open: None,
            places: Vec::new(alloc),
        };
        for (at, line) in lines.iter().enumerate() {
            runs.take(line, is_left_alone(alone, at, line))?;
        }
        runs.end()?;
        Ok(runs)
    }

    fn end(&mut self) -> Result<(), AllocError> {
        if let Some(run) = self.open {
            self.runs.push(run)?;
        }
        self.open = None;
        Ok(())
    }

    fn take(&mut self, line: &Line, is_alone: bool) -> Result<(), AllocError> {
        if is_alone {
            self.end()?;
        } else if line.is_in_run() {
            if line.is_located() {
                self.end()?;
            }
            let run = self.open.unwrap_or(begun(line));
            self.open = Some(run.with(line));
        } else if !(line.is_comment() && !line.is_long || line.is_refused) {
            self.end()?;
        }
        let place = self.place();
        self.places.push(place)?;
        Ok(())
    }

    fn place(&self) -> Option<RunPlace> {
        let run = self.open?;
        Some(RunPlace {
            run: self.runs.len(),
            index: run.instructions,
        })
    }

    fn at(&self, line: usize) -> Option<(Run, usize)> {
        let place = self.places.get(line).copied()??;
        Some((self.runs.get(place.run).copied()?, place.index))
    }

    /// Whether the line at this index, which is in a run, may come into another word, or go.
    pub(crate) fn may_change(&self, line: usize) -> bool {
        self.at(line).is_some_and(|(run, _)| run.may_change())
    }

    /// The number of the run in which the line at this index stands.
    pub(crate) fn number_at(&self, line: usize) -> Option<usize> {
        Some(self.places.get(line).copied()??.run)
    }

    /// How many bytes the label has of the run in which the line at this index stands.
    pub(crate) fn label_at(&self, line: usize) -> Option<usize> {
        Some(self.at(line)?.0.label)
    }

    /// Whether the comment at this index is within a block, or between the label of one and it.
    pub(crate) fn is_within_block(&self, line: usize) -> bool {
        self.at(line).is_some_and(|(run, index)| run.holds(index))
    }
}

impl Run {
    /// With one instruction or one pad more.
    fn with(&self, line: &Line) -> Run {
        if !line.is_instruction() {
            return Run {
                has_pads: true,
                ..*self
            };
        }
        let access = Access::of(line);
        let depends = match self.last {
            Some(last) => last.is_needed_by(&access),
            None => true,
        };
        Run {
            instructions: self.instructions.saturating_add(1),
            last: Some(access),
            is_loose: self.is_loose || !depends,
            ..*self
        }
    }
}
