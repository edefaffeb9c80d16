//! Which lines a bound needs.
//! The others are dropped, so that a certificate that is printed has few.
//!
//! Parts of the lines are left out and the bound is tried without them: a part that isn't needed goes as a whole, another is divided
//! into halves. So few lines are tried singly, as in the search for a minimal conflict by division (U. Junker, QuickXplain, AAAI 2004).

use crate::facts::found::Found;
use crate::facts::sketch::Sketch;
use crate::limits::TAKES_LIMIT;
use std::alloc::{AllocError, Global};

/// Whether a bound needs some of a part's lines.
#[derive(Clone, Copy)]
enum Need {
    /// That has to be tried.
    Untried,
    /// It does, unless lines were kept since they had been so often: it needs some of a part of which this is the first half, so if none
    /// of the second half, then some of this.
    UnlessKept(usize),
}

/// Lines next to each other, of which it isn't decided yet whether they are needed.
#[derive(Drop)]
struct Part<'a> {
    /// What is known before them.
    before: Sketch<'a>,
    first: usize,
    /// The place after the last one.
    end: usize,
    need: Need,
}

/// Lines that are dropped, part by part from the last one, if a bound doesn't need them.
#[derive(Drop)]
struct Dropping<'a> {
    alloc: Global,
    lines: &'a [Found],
    bound: u32,
    /// The parts that aren't decided, the last one last.
    parts: Vec<Part<'a>>,
    /// The places of the lines after these that are needed, in their order.
    kept: Vec<usize>,
    /// How often some were kept.
    keeps: usize,
    /// How many more lines may be taken in to find out.
    left: u32,
}

impl<'a> Dropping<'a> {
    /// Takes a line in, and returns whether it was right, and wasn't known.
    fn take(&mut self, taken: &mut Sketch<'a>, place: usize) -> Result<bool, AllocError> {
        match self.lines.get(place) {
            None => Ok(false),
            Some(line) => {
                self.left = self.left.saturating_sub(1);
                taken.take(self.bound, line)
            }
        }
    }

    /// What is known after these lines, by what is known before them.
    fn after(
        &mut self,
        before: &Sketch<'a>,
        first: usize,
        end: usize,
    ) -> Result<Sketch<'a>, AllocError> {
        let mut taken = before.duplicate()?;
        for place in first..end {
            self.take(&mut taken, place)?;
        }
        Ok(taken)
    }

    /// The place of a kept line; one of no line if there are no more.
    fn kept_at(&self, position: usize) -> usize {
        match self.kept.get(position) {
            None => usize::MAX,
            Some(place) => *place,
        }
    }

    /// Those of the kept lines that are right after what is known, up to one with which some path takes the bound; None if none does.
    fn kept_after(&mut self, before: &Sketch<'a>) -> Result<Option<Vec<usize>>, AllocError> {
        let mut taken = before.duplicate()?;
        let mut places = Vec::new(self.alloc);
        for position in 0..self.kept.len() {
            if taken.longest() >= self.bound {
                break;
            }
            let place = self.kept_at(position);
            if self.take(&mut taken, place)? {
                places.push(place)?;
            }
        }
        if taken.longest() >= self.bound {
            Ok(Some(places))
        } else {
            Ok(None)
        }
    }

    /// Keeps these lines, which stand before all that are kept.
    fn keep(&mut self, first: usize, end: usize) -> Result<(), AllocError> {
        let mut places = Vec::new(self.alloc);
        for place in first..end {
            places.push(place)?;
        }
        for place in self.kept.as_slice() {
            places.push(*place)?;
        }
        self.kept = places;
        self.keeps = self.keeps.saturating_add(1);
        Ok(())
    }

    /// Whether it is known that the bound needs some lines.
    fn is_needed(&self, need: Need) -> bool {
        match need {
            Need::Untried => self.left == 0,
            Need::UnlessKept(keeps) => self.left == 0 || keeps == self.keeps,
        }
    }

    /// Divides a part of which some lines are needed into two.
    fn divide(&mut self, part: Part<'a>, middle: usize) -> Result<(), AllocError> {
        let Part {
            before,
            first,
            end,
            ..
        } = part;
        let after = self.after(&before, first, middle)?;
        self.parts.push(Part {
            before,
            first,
            end: middle,
            need: Need::UnlessKept(self.keeps),
        })?;
        self.parts.push(Part {
            before: after,
            first: middle,
            end,
            need: Need::Untried,
        })?;
        Ok(())
    }

    /// Drops a part if none of its lines is needed, and else divides it, or keeps it if it is one line or nothing more may be tried.
    fn decide(&mut self, part: Part<'a>) -> Result<(), AllocError> {
        if !self.is_needed(part.need)
            && let Some(places) = self.kept_after(&part.before)?
        {
            self.kept = places;
            return Ok(());
        }
        let count = part.end.saturating_sub(part.first);
        if count <= 1 || self.left == 0 {
            return self.keep(part.first, part.end);
        }
        let middle = part.first.saturating_add(count / 2);
        self.divide(part, middle)
    }

    /// Decides all parts.
    fn decide_all(&mut self) -> Result<(), AllocError> {
        // lines that are divided down to single ones have fewer parts than this
        for _part in 0..self.lines.len().saturating_mul(2) {
            match self.parts.pop() {
                None => return Ok(()),
                Some(part) => self.decide(part)?,
            }
        }
        Ok(())
    }
}

/// The places of some of the lines, in their order, after which some path still takes the bound if one does after all of them. `before`
/// is what is known without them. No more of these can be dropped one by one, unless `TAKES_LIMIT` lines were taken to find out.
///
/// `Err` is out of memory.
pub(crate) fn needed_of<'a>(
    alloc: Global,
    before: Sketch<'a>,
    lines: &'a [Found],
    bound: u32,
) -> Result<Vec<usize>, AllocError> {
    let mut parts = Vec::new(alloc);
    parts.push(Part {
        before,
        first: 0,
        end: lines.len(),
        need: Need::Untried,
    })?;
    let mut dropping = Dropping {
        alloc,
        lines,
        bound,
        parts,
        kept: Vec::new(alloc),
        keeps: 0,
        left: TAKES_LIMIT,
    };
    dropping.decide_all()?;
    Ok(dropping.kept)
}
