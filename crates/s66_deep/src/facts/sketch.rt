//! What is known of a block after what was found, worked out quickly.
//! It is as `Facts` of `s66_facts`, but by fewer arcs and without proof, for `needed.rt`.

use crate::facts::arcs::Arcs;
use crate::facts::found::{Found, Supposition};
use crate::facts::ground::Ground;
use crate::facts::network::{Arc, Network, node_of};
use crate::facts::nodes::{NODE_COUNT, Times, issue, number_at, raise, time_at};
use crate::facts::pairs::is_late;
use crate::facts::precedence::Precedence;
use crate::facts::selection::Selection;
use crate::facts::trial::Trial;
use crate::facts::uses::are_used;
use crate::limits::TRIALS_LIMIT;
use s66_isa::{BLOCK_LIMIT, Set};
use s66_moments::{FactLine, LoadLine, Moment};
use std::alloc::{AllocError, Global};

/// What is known of a block after some lines, as `Facts` knows it but by few arcs. Nothing is promised of it.
#[derive(Drop)]
pub(crate) struct Sketch<'a> {
    alloc: Global,
    ground: &'a Ground,
    arcs: Arcs,
    selection: Selection,
}

impl<'a> Sketch<'a> {
    /// By what is known of a block by dependence alone.
    pub(crate) fn of(
        alloc: Global,
        ground: &'a Ground,
        known: &Precedence,
    ) -> Result<Sketch<'a>, AllocError> {
        let network = Network::of(alloc, ground, known, &[])?;
        Ok(Sketch {
            alloc,
            ground,
            arcs: Arcs::of(alloc, &network)?,
            selection: Selection::of(known, network.paths()),
        })
    }

    /// The same. `Err` is out of memory.
    pub(crate) fn duplicate(&self) -> Result<Sketch<'a>, AllocError> {
        Ok(Sketch {
            alloc: self.alloc,
            ground: self.ground,
            arcs: self.arcs.duplicate(self.alloc)?,
            selection: self.selection,
        })
    }

    /// How long the longest path from an issue to the end is.
    pub(crate) fn longest(&self) -> u32 {
        let mut longest = 0;
        for position in 0..BLOCK_LIMIT {
            let node = issue((position + 1) as u8);
            let time = time_at(&self.selection.paths().tails, node).unwrap_or(0);
            longest = longest.max(time);
        }
        longest
    }

    /// Takes in what was right when more was known, if it still is and wasn't known, and returns whether it did.
    pub(crate) fn take(&mut self, bound: u32, found: &Found) -> Result<bool, AllocError> {
        match found {
            Found::ByLine(line) => self.take_line(bound, line),
            Found::BySupposition(supposition) => self.take_supposition(bound, supposition),
        }
    }

    /// Takes a line in.
    fn take_line(&mut self, bound: u32, line: &FactLine) -> Result<bool, AllocError> {
        match line {
            FactLine::Pair(m, n) => Ok(self.take_pair(bound, *m, *n)),
            FactLine::Load(load) => self.take_load(load),
        }
    }

    /// Selects a pair, and finds the paths that follow.
    fn select(&mut self, m: u8, n: u8) {
        self.selection.select(m, n);
        self.selection.settle(self.ground, &self.arcs);
    }

    /// Takes a pair in.
    fn take_pair(&mut self, bound: u32, m: u8, n: u8) -> bool {
        if !self.selection.open_to(m).has(n)
            || !is_late(self.ground, self.selection.paths(), bound, m, n)
        {
            return false;
        }
        self.select(m, n);
        true
    }

    /// Takes the pair of a supposition in.
    fn take_supposition(
        &mut self,
        bound: u32,
        supposition: &Supposition,
    ) -> Result<bool, AllocError> {
        let (m, n) = (supposition.first, supposition.second);
        if !self.selection.open_to(m).has(n) || !self.is_refuted(bound, supposition) {
            return Ok(false);
        }
        self.select(m, n);
        Ok(true)
    }

    /// Whether the lines of a supposition, those that are right, show that no order takes less than the bound.
    fn is_refuted(&self, bound: u32, supposition: &Supposition) -> bool {
        self.trial().is_refuted(bound, supposition)
    }

    /// What is known, for suppositions.
    fn trial(&self) -> Trial<'_> {
        Trial {
            ground: self.ground,
            arcs: &self.arcs,
            selection: self.selection,
        }
    }

    /// The same, of a supposition with those of its lines that are needed, as far as is found. `Err` is out of memory.
    pub(crate) fn shortened(&self, bound: u32, found: &Found) -> Result<Found, AllocError> {
        match found {
            Found::ByLine(_) => found.duplicate(self.alloc),
            Found::BySupposition(supposition) => {
                let mut left = TRIALS_LIMIT;
                let short = self
                    .trial()
                    .shortened(self.alloc, bound, supposition, &mut left)?;
                Ok(Found::BySupposition(short))
            }
        }
    }

    /// Takes the arc of a load in.
    fn take_load(&mut self, load: &LoadLine) -> Result<bool, AllocError> {
        if !self.leads_up(&load.from, &load.to)
            || !are_used(
                self.ground,
                load,
                &self.heads(&load.from),
                &self.tails(&load.to),
            )
        {
            return Ok(false);
        }
        let (from, wait, to) = (node_of(&load.from), load.wait, node_of(&load.to));
        self.arcs.add(Arc { from, wait, to })?;
        self.selection.wait(from, wait, to);
        self.selection.settle(self.ground, &self.arcs);
        Ok(true)
    }

    /// Whether the number of the first moment is known to stand before that of the second, if both have one.
    fn leads_up(&self, from: &Moment, to: &Moment) -> bool {
        match (from, to) {
            (Moment::At(m, _), Moment::At(n, _)) => self.selection.is_before(*m, *n),
            _ => true,
        }
    }

    /// The longest paths from a moment.
    fn heads(&self, from: &Moment) -> Times {
        if let Moment::Origin = from {
            return self.selection.paths().heads;
        }
        let mut heads = [None; NODE_COUNT];
        let node = node_of(from);
        raise(&mut heads, node, 0);
        let those = number_at(Set::empty(), node);
        self.selection
            .follow(self.ground, &self.arcs, &mut heads, those);
        heads
    }

    /// The longest paths to a moment.
    fn tails(&self, to: &Moment) -> Times {
        if let Moment::End = to {
            return self.selection.paths().tails;
        }
        let mut tails = [None; NODE_COUNT];
        let node = node_of(to);
        raise(&mut tails, node, 0);
        let those = number_at(Set::empty(), node);
        self.selection
            .follow_back(self.ground, &self.arcs, &mut tails, those);
        tails
    }
}
