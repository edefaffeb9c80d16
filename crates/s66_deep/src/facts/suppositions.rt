//! Pairs by suppositions: if one number stood before another, no order would take less than a bound, so the other stands first. This is
//! shaving (Martin and Shmoys 1996; Carlier and Pinson 1994): what is supposed is only followed as far as it forces more pairs, and is
//! never divided into cases.

use crate::facts::arcs::Arcs;
use crate::facts::copies::copy_of_line;
use crate::facts::found::{Found, Supposition};
use crate::facts::ground::Ground;
use crate::facts::load::{Load, Whole};
use crate::facts::pairs::longest_with;
use crate::facts::selection::Selection;
use crate::facts::trial::Trial;
use crate::facts::ways::Ways;
use crate::limits::{FOLLOWED_LIMIT, NEAR};
use s66_isa::{BLOCK_LIMIT, KINDS, Kind};
use s66_moments::{FactLine, LoadLine, Moment};
use std::alloc::{AllocError, Global};

/// Two numbers, and how long the longest path is if the first stands before the second.
#[derive(Clone, Copy)]
struct Candidate {
    time: u32,
    first: u8,
    second: u8,
}

/// A pair, and what follows from it.
#[derive(Drop)]
struct Followed {
    selection: Selection,
    lines: Vec<FactLine>,
    /// Whether no order is left that takes less than the bound.
    is_refuted: bool,
}

/// Suppositions of a block for a bound.
#[derive(Drop)]
pub(crate) struct Shaving<'a> {
    alloc: Global,
    ground: &'a Ground,
    arcs: Arcs,
    bound: u32,
    selection: Selection,
    ways: Ways,
    /// How many more pairs may be supposed, and trials made to drop lines.
    left: u32,
    found: Vec<Found>,
    is_refuted: bool,
}

impl<'a> Shaving<'a> {
    /// By what is known, and the arcs that stand for it.
    pub(crate) fn new(
        alloc: Global,
        ground: &'a Ground,
        arcs: Arcs,
        selection: Selection,
        bound: u32,
        left: u32,
    ) -> Shaving<'a> {
        Shaving {
            alloc,
            ground,
            arcs,
            bound,
            selection,
            ways: Ways::new(alloc),
            left,
            found: Vec::new(alloc),
            is_refuted: false,
        }
    }

    /// How many more pairs may be supposed.
    pub(crate) fn left(&self) -> u32 {
        self.left
    }

    /// What was found.
    pub(crate) fn into_found(self) -> Vec<Found> {
        self.found
    }

    /// Supposes pairs, those first that come nearest to the bound, until no more follow.
    pub(crate) fn shave(&mut self) -> Result<(), AllocError> {
        for _round in 0..FOLLOWED_LIMIT {
            let count = self.found.len();
            let candidates = self.candidates()?;
            for candidate in candidates.as_slice() {
                if self.is_refuted || self.left == 0 {
                    return Ok(());
                }
                self.suppose(candidate.first, candidate.second)?;
            }
            if self.found.len() == count {
                return Ok(());
            }
        }
        Ok(())
    }

    /// The pairs by which some path comes near to the bound, the nearest first.
    fn candidates(&self) -> Result<Vec<Candidate>, AllocError> {
        let mut candidates = Vec::new(self.alloc);
        let mut rest = self.selection.all();
        while let Some(first) = rest.pop_first() {
            self.push_candidates(&mut candidates, first)?;
        }
        candidates.sort_by(|a, b| b.time.cmp(&a.time))?;
        Ok(candidates)
    }

    /// Appends those of which a number stands first.
    fn push_candidates(
        &self,
        candidates: &mut Vec<Candidate>,
        first: u8,
    ) -> Result<(), AllocError> {
        let least = self.bound.saturating_sub(NEAR);
        let mut others = self.selection.open_to(first);
        while let Some(second) = others.pop_first() {
            let time = longest_with(self.ground, self.selection.paths(), first, second);
            if least <= time {
                candidates.push(Candidate {
                    time,
                    first,
                    second,
                })?;
            }
        }
        Ok(())
    }

    /// Supposes that m stands before n, if it isn't known how they stand; if that is refuted, n stands before m.
    fn suppose(&mut self, m: u8, n: u8) -> Result<(), AllocError> {
        if !self.selection.open_to(m).has(n) {
            return Ok(());
        }
        self.left = self.left.saturating_sub(1);
        let followed = self.followed_by_loads(m, n)?;
        if !followed.is_refuted {
            return Ok(());
        }
        let supposition = Supposition {
            first: n,
            second: m,
            lines: followed.lines,
        };
        let mut left = self.left;
        let short = self
            .trial()
            .shortened(self.alloc, self.bound, &supposition, &mut left)?;
        self.left = left;
        self.found.push(Found::BySupposition(short))?;
        self.keep(n, m)
    }

    /// What is known, for suppositions.
    fn trial(&self) -> Trial<'_> {
        Trial {
            ground: self.ground,
            arcs: &self.arcs,
            selection: self.selection,
        }
    }

    /// Keeps a pair that was found, and those that it forces.
    fn keep(&mut self, m: u8, n: u8) -> Result<(), AllocError> {
        let Followed {
            selection,
            lines,
            is_refuted,
        } = self.followed(m, n)?;
        self.selection = selection;
        self.is_refuted = is_refuted;
        for line in lines.as_slice() {
            self.found.push(Found::ByLine(copy_of_line(line)))?;
        }
        Ok(())
    }

    /// What follows if m stands before n by the pairs that it forces.
    fn followed(&self, m: u8, n: u8) -> Result<Followed, AllocError> {
        let mut followed = Followed {
            selection: self.selection,
            lines: Vec::new(self.alloc),
            is_refuted: false,
        };
        followed.selection.select(m, n);
        for _round in 0..FOLLOWED_LIMIT {
            followed.selection.settle(self.ground, &self.arcs);
            if followed.selection.is_late(self.bound) {
                followed.is_refuted = true;
                break;
            }
            if !self.take_forced(&mut followed)? {
                break;
            }
        }
        Ok(followed)
    }

    /// Takes the pairs that are forced by paths which grew; whether there are some.
    fn take_forced(&self, followed: &mut Followed) -> Result<bool, AllocError> {
        let mut is_more = false;
        for _pair in 0..BLOCK_LIMIT * BLOCK_LIMIT {
            let forced = followed.selection.next_forced(self.ground, self.bound);
            let Some((before, after)) = forced else {
                break;
            };
            followed.selection.select(before, after);
            followed.lines.push(FactLine::Pair(before, after))?;
            is_more = true;
        }
        Ok(is_more)
    }

    /// What follows if m stands before n by the pairs that it forces, and if that isn't enough, by what units have to do in all.
    fn followed_by_loads(&mut self, m: u8, n: u8) -> Result<Followed, AllocError> {
        let mut followed = self.followed(m, n)?;
        if !followed.is_refuted
            && let Some(line) = self.late_load(&followed.selection)?
        {
            followed.lines.push(FactLine::Load(line))?;
            followed.is_refuted = true;
        }
        Ok(followed)
    }

    /// A load line from the origin to the end that takes the bound, if there is one.
    fn late_load(&mut self, selection: &Selection) -> Result<Option<LoadLine>, AllocError> {
        for kind in KINDS {
            if let Some(line) = self.late_load_of(selection, kind)? {
                return Ok(Some(line));
            }
        }
        Ok(None)
    }

    /// One by instructions of a kind.
    fn late_load_of(
        &mut self,
        selection: &Selection,
        kind: Kind,
    ) -> Result<Option<LoadLine>, AllocError> {
        let numbers = self.ground.users(kind);
        if numbers.count() <= self.ground.copies(kind) {
            return Ok(None);
        }
        let load = Load {
            ground: self.ground,
            reach: Whole {
                paths: selection.paths(),
            },
            numbers,
            copies: self.ground.copies(kind),
        };
        let Some(best) = self.ways.best(&load, self.bound.saturating_sub(1))? else {
            return Ok(None);
        };
        Ok(Some(LoadLine {
            from: Moment::Origin,
            to: Moment::End,
            after: best.after,
            wait: self.bound,
            numbers: load.users(&best),
        }))
    }
}
