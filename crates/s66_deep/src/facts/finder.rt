//! Finds fact lines of a block.
//! It is the fixed point of two rules: forced pairs (`pairs.rt`) and load lines (`ways.rt`), each tried anew where paths have grown,
//! until nothing more is found or some path takes the bound. Where these end, suppositions (`suppositions.rt`) may show more pairs.

use crate::facts::arcs::Arcs;
use crate::facts::found::{Found, Supposition, duplicates_of, line_count, steps_of};
use crate::facts::ground::Ground;
use crate::facts::load::{Best, Between, Load};
use crate::facts::needed::needed_of;
use crate::facts::network::Network;
use crate::facts::pairs::Forced;
use crate::facts::precedence::Precedence;
use crate::facts::selection::Selection;
use crate::facts::sketch::Sketch;
use crate::facts::spans::{FROM_ORIGIN, Spans, TO_END, at_issue};
use crate::facts::suppositions::Shaving;
use crate::facts::taken::{Taken, word};
use crate::facts::tried_loads::TriedLoads;
use crate::facts::ways::Ways;
use crate::floors::Tails;
use crate::limits::{PASSES_LIMIT, ROUNDS_LIMIT, WAIT_LIMIT};
use s66_facts::{Facts, Times};
use s66_isa::{BLOCK_LIMIT, KINDS, Kind, Profile, Set};
use s66_line::Block;
use s66_moments::{FactLine, FactStep, LoadLine, Moment, Stage};
use std::alloc::{AllocError, Global};
use std::boxed::Box;

/// What is found of a block's legal orders. What takes room lies on the heap: searches hold several finders at a time, and a thread's
/// stack may be small.
#[derive(Drop)]
pub struct Finder {
    alloc: Global,
    ground: Box<Ground>,
    taken: Box<Taken>,
    found: Vec<Found>,
    ways: Ways,
    tried: TriedLoads,
    /// The bound for which there is nothing more to be found, if there is one.
    settled: Option<u32>,
}

/// What a look for pairs came to.
#[derive(Clone, Copy, PartialEq, Eq)]
enum Pairs {
    /// A path takes the bound.
    ReachBound,
    /// There are no more.
    AreAll,
    /// There may be more.
    AreSome,
}

/// Where a load line leads from; 0 is the origin.
fn front(n: u8) -> Moment {
    match n {
        0 => Moment::Origin,
        _ => Moment::At(n, Stage::Issue),
    }
}

/// Where it leads to; 0 is the end.
fn back(n: u8) -> Moment {
    match n {
        0 => Moment::End,
        _ => Moment::At(n, Stage::Issue),
    }
}

/// The place that a load line leads from; that of 0 is the origin.
fn front_place(n: u8) -> usize {
    match n {
        0 => FROM_ORIGIN,
        _ => at_issue(n),
    }
}

/// The place that it leads to; that of 0 is the end.
fn back_place(n: u8) -> usize {
    match n {
        0 => TO_END,
        _ => at_issue(n),
    }
}

/// The number from which a line makes paths grow; 0 is the origin.
fn number_of(line: &FactLine) -> u8 {
    match line {
        FactLine::Pair(m, _) => *m,
        FactLine::Load(load) => match load.from {
            Moment::At(n, _) => n,
            _ => 0,
        },
    }
}

/// What follows the stages of an instruction.
fn tails_of(times: &Times) -> Tails {
    Tails {
        issue: word(times.issue),
        start: word(times.start),
        first: word(times.first),
        second: word(times.second),
        free: word(times.free),
    }
}

/// A load line as it was found, and the numbers of a kind from which its own are.
#[derive(Clone, Copy)]
struct FoundLoad {
    best: Best,
    kind: Kind,
    numbers: Set,
}

/// The load of some numbers of a kind between the places of two numbers.
fn load_of<'a>(
    ground: &'a Ground,
    spans: &'a Spans,
    from: u8,
    to: u8,
    kind: Kind,
    numbers: Set,
) -> Load<'a, Between<'a>> {
    Load {
        ground,
        reach: Between {
            spans,
            from: front_place(from),
            to: back_place(to),
        },
        numbers,
        copies: ground.copies(kind),
    }
}

impl Finder {
    /// Knows only what follows by dependence. `Err` is out of memory.
    pub fn new(alloc: Global, block: &Block<'_>, profile: &Profile) -> Result<Finder, AllocError> {
        Finder::of_ground(alloc, Box::new(alloc, Ground::of(block, profile))?)
    }

    /// The same, of a block whose needs are these.
    fn of_ground(alloc: Global, ground: Box<Ground>) -> Result<Finder, AllocError> {
        Ok(Finder {
            alloc,
            taken: Box::new(alloc, Taken::new(&ground))?,
            ground,
            found: Vec::new(alloc),
            ways: Ways::new(alloc),
            tried: TriedLoads::new(alloc)?,
            settled: None,
        })
    }

    /// Takes load lines, which hold for all orders, until no path grows or `ROUNDS_LIMIT` rounds are over. `Err` is out of memory.
    pub fn find_loads(&mut self) -> Result<(), AllocError> {
        for _round in 0..ROUNDS_LIMIT {
            if !self.take_loads(false)? {
                return Ok(());
            }
        }
        Ok(())
    }

    /// Takes pairs that are forced in all orders that take less than the bound, and load lines, until no path grows, or one takes the
    /// bound, or `ROUNDS_LIMIT` rounds are over. `Err` is out of memory.
    pub fn find_below(&mut self, bound: u32) -> Result<(), AllocError> {
        if self.settled == Some(bound) {
            return Ok(());
        }
        for _round in 0..ROUNDS_LIMIT {
            let pairs = self.take_pairs(bound)?;
            if pairs == Pairs::ReachBound {
                return Ok(());
            }
            if !self.take_loads(true)? {
                if pairs == Pairs::AreAll {
                    self.settled = Some(bound);
                }
                return Ok(());
            }
        }
        Ok(())
    }

    /// The number whose issue is followed by the longest path to the end, and how long that is: all orders take so long at least, if they
    /// take less than the bounds for which lines were taken.
    pub fn root(&self) -> (u8, u32) {
        self.taken.root()
    }

    /// What follows the stages of each number; that of n is at n - 1.
    pub fn tails(&self) -> [Tails; BLOCK_LIMIT] {
        let times = self.taken.facts().tails();
        let mut tails = [Tails::default(); BLOCK_LIMIT];
        for position in 0..BLOCK_LIMIT {
            tails[position] = tails_of(&times[position]);
        }
        tails
    }

    /// What the block's instructions need.
    pub(crate) fn ground(&self) -> &Ground {
        &self.ground
    }

    /// What is known.
    pub(crate) fn facts(&self) -> &Facts {
        self.taken.facts()
    }

    /// How many lines a document has for what was found.
    pub fn line_count(&self) -> usize {
        line_count(self.found.as_slice())
    }

    /// What was found, as the steps of a document. `Err` is out of memory.
    pub fn steps(&self) -> Result<Vec<FactStep>, AllocError> {
        steps_of(self.alloc, self.found.as_slice())
    }

    /// The same finder. `Err` is out of memory.
    pub fn duplicate(&self) -> Result<Finder, AllocError> {
        Ok(Finder {
            alloc: self.alloc,
            ground: Box::new(self.alloc, self.ground.duplicate())?,
            taken: Box::new(self.alloc, self.taken.duplicate())?,
            found: duplicates_of(self.alloc, self.found.as_slice())?,
            ways: Ways::new(self.alloc),
            tried: self.tried.duplicate(self.alloc)?,
            settled: self.settled,
        })
    }

    /// The same with some of its lines, in their order, after which a path from an issue to the end still takes the bound, if one does:
    /// as few as are found. Its lines are to hold for the bound.
    ///
    /// Which these are is found out by a sketch of what is known, into which some `TAKES_LIMIT` lines are taken at most. `Err` is out of
    /// memory.
    pub fn needed(&self, bound: u32) -> Result<Finder, AllocError> {
        if self.root().1 < bound {
            return self.duplicate();
        }
        let found = self.found.as_slice();
        let known = Precedence::of(Taken::new(&self.ground).facts());
        let mut sketch = Sketch::of(self.alloc, &self.ground, &known)?;
        let places = needed_of(self.alloc, sketch.duplicate()?, found, bound)?;
        let mut other = self.without_lines()?;
        for place in places.as_slice() {
            if let Some(one) = found.get(*place) {
                let short = sketch.shortened(bound, one)?;
                sketch.take(bound, &short)?;
                other.take_found(bound, short)?;
            }
        }
        if other.root().1 < bound {
            return self.duplicate();
        }
        Ok(other)
    }

    /// A finder of the block that knows only what follows by dependence. `Err` is out of memory.
    pub(crate) fn without_lines(&self) -> Result<Finder, AllocError> {
        Finder::of_ground(self.alloc, Box::new(self.alloc, self.ground.duplicate())?)
    }

    /// The arcs by what is known.
    fn network(&self, known: &Precedence) -> Result<Network, AllocError> {
        Network::of(self.alloc, &self.ground, known, self.found.as_slice())
    }

    /// Takes pairs until there are no more, or a path takes the bound, or `PASSES_LIMIT` passes are over.
    fn take_pairs(&mut self, bound: u32) -> Result<Pairs, AllocError> {
        for _pass in 0..PASSES_LIMIT {
            if self.root().1 >= bound {
                return Ok(Pairs::ReachBound);
            }
            let known = Precedence::of(self.taken.facts());
            let network = self.network(&known)?;
            let forced = Forced::of(&self.ground, &known, &network, bound);
            if !self.take_forced(&known, &forced, bound)? {
                return Ok(Pairs::AreAll);
            }
        }
        Ok(Pairs::AreSome)
    }

    /// Takes forced pairs; whether there are some. With one of a ring some path takes the bound.
    fn take_forced(
        &mut self,
        known: &Precedence,
        forced: &Forced,
        bound: u32,
    ) -> Result<bool, AllocError> {
        if let Some((m, n)) = forced.ring() {
            return self.take(bound, FactLine::Pair(m, n));
        }
        let mut is_more = false;
        for m in known.order() {
            if self.take_after(forced.right_after(known, *m), bound, *m)? {
                is_more = true;
            }
        }
        Ok(is_more)
    }

    /// Takes a line if it is right; whether it is.
    fn take(&mut self, bound: u32, line: FactLine) -> Result<bool, AllocError> {
        let is_taken = self.taken.take(bound, &line);
        if is_taken {
            self.settled = None;
            self.forget_before(number_of(&line));
            self.found.push(Found::ByLine(line))?;
        }
        Ok(is_taken)
    }

    /// Takes what a supposition shows, if that wasn't known; whether it did.
    fn take_supposition(&mut self, supposition: Supposition) -> Result<bool, AllocError> {
        let (m, n) = (supposition.first, supposition.second);
        let is_taken = self.taken.take_shown(m, n, supposition.lines.len());
        if is_taken {
            self.settled = None;
            self.forget_before(m);
            self.found.push(Found::BySupposition(supposition))?;
        }
        Ok(is_taken)
    }

    /// Takes what was found; whether it did.
    fn take_found(&mut self, bound: u32, found: Found) -> Result<bool, AllocError> {
        match found {
            Found::ByLine(line) => self.take(bound, line),
            Found::BySupposition(supposition) => self.take_supposition(supposition),
        }
    }

    /// Takes pairs that suppositions show for orders that take less than the bound, and what follows from them, until nothing more is
    /// found, or a path takes the bound, or so many pairs were supposed. Returns how many more may be. `Err` is out of memory.
    pub fn suppose_below(&mut self, bound: u32, most: u32) -> Result<u32, AllocError> {
        let mut left = most;
        for _round in 0..ROUNDS_LIMIT {
            if left == 0 || self.root().1 >= bound {
                break;
            }
            let count = self.found.len();
            left = self.shave(bound, left)?;
            if self.found.len() == count {
                break;
            }
            self.find_below(bound)?;
        }
        Ok(left)
    }

    /// The same of what is known now; pairs alone.
    fn shave(&mut self, bound: u32, most: u32) -> Result<u32, AllocError> {
        let known = Precedence::of(self.taken.facts());
        let network = self.network(&known)?;
        let arcs = Arcs::of(self.alloc, &network)?;
        let selection = Selection::of(&known, network.paths());
        let mut shaving = Shaving::new(self.alloc, &self.ground, arcs, selection, bound, most);
        shaving.shave()?;
        let left = shaving.left();
        for one in shaving.into_found() {
            self.take_found(bound, one)?;
        }
        Ok(left)
    }

    /// Paths from a number grew, 0 for the origin, and so did those through it: from numbers before it, and from the origin.
    fn forget_before(&mut self, number: u8) {
        self.tried.forget(0);
        for position in 0..self.taken.facts().count() {
            let n = position + 1;
            if n == number || self.taken.is_before(n, number) {
                self.tried.forget(n);
            }
        }
    }

    /// Takes the pairs of m and of these numbers; whether some are taken.
    fn take_after(&mut self, numbers: Set, bound: u32, m: u8) -> Result<bool, AllocError> {
        let mut is_more = false;
        for n in numbers.numbers().as_slice() {
            if !self.taken.is_before(m, *n) && self.take(bound, FactLine::Pair(m, *n))? {
                is_more = true;
            }
        }
        Ok(is_more)
    }

    /// Takes load lines from all places, the last ones first, so that what stands between two is known; whether some are taken.
    fn take_loads(&mut self, has_origin: bool) -> Result<bool, AllocError> {
        let known = Precedence::of(self.taken.facts());
        let network = self.network(&known)?;
        let mut spans = Spans::of(self.alloc, &network, self.taken.facts().count())?;
        let mut is_more = false;
        let order = known.order();
        for back in 0..order.len() {
            if self.take_from(&known, &mut spans, order[order.len() - 1 - back])? {
                is_more = true;
            }
        }
        if has_origin && self.take_from(&known, &mut spans, 0)? {
            is_more = true;
        }
        Ok(is_more)
    }

    /// Takes load lines from a number, or from the origin, if it is 0; whether some are taken.
    fn take_from(
        &mut self,
        known: &Precedence,
        spans: &mut Spans,
        from: u8,
    ) -> Result<bool, AllocError> {
        let mut is_more = false;
        for to in known.order() {
            if (from == 0 || known.after(from).has(*to))
                && self.take_between(known, spans, from, *to)?
            {
                is_more = true;
            }
        }
        if from != 0 && self.take_between(known, spans, from, 0)? {
            is_more = true;
        }
        Ok(is_more)
    }

    /// What says most between two places, and more than a wait.
    fn best_between(
        &mut self,
        known: &Precedence,
        spans: &Spans,
        from: u8,
        to: u8,
        wait: u32,
    ) -> Result<Option<FoundLoad>, AllocError> {
        let between = known.between(from, to);
        let mut wait = wait;
        let mut found = None;
        for kind in KINDS {
            let numbers = between.both(&self.ground.users(kind));
            if let Some(best) = self.best_of(spans, from, to, kind, numbers, wait)? {
                wait = u32::try_from(best.wait).unwrap_or(u32::MAX);
                found = Some(FoundLoad {
                    best,
                    kind,
                    numbers,
                });
            }
        }
        Ok(found)
    }

    /// What says most by instructions of a kind.
    fn best_of(
        &mut self,
        spans: &Spans,
        from: u8,
        to: u8,
        kind: Kind,
        numbers: Set,
        wait: u32,
    ) -> Result<Option<Best>, AllocError> {
        if numbers.count() <= self.ground.copies(kind) {
            return Ok(None);
        }
        let load = load_of(&self.ground, spans, from, to, kind, numbers);
        self.ways.best(&load, wait)
    }

    /// Takes the load line that says most between two places, if one is worth it; whether one is taken.
    fn take_between(
        &mut self,
        known: &Precedence,
        spans: &mut Spans,
        from: u8,
        to: u8,
    ) -> Result<bool, AllocError> {
        let known_wait = wait_known(spans, from, to);
        if self.tried.has(from, to, known_wait) {
            return Ok(false);
        }
        let Some(found) = self.best_between(known, spans, from, to, known_wait)? else {
            self.tried.add(from, to, known_wait);
            return Ok(false);
        };
        let wait = u32::try_from(found.best.wait).unwrap_or(u32::MAX);
        if wait > WAIT_LIMIT {
            return Ok(false);
        }
        let load = load_of(&self.ground, spans, from, to, found.kind, found.numbers);
        let line = LoadLine {
            from: front(from),
            to: back(to),
            after: found.best.after,
            wait,
            numbers: load.users(&found.best),
        };
        // a load line holds for each bound
        let is_taken = self.take(0, FactLine::Load(line))?;
        if is_taken {
            spans.add(front_place(from), wait, back_place(to));
        }
        Ok(is_taken)
    }
}

/// How long a wait between two places may be with which neither a path from the origin grows nor one to the end.
fn wait_known(spans: &Spans, from: u8, to: u8) -> u32 {
    let (front, back) = (front_place(from), back_place(to));
    let between = spans.between(front, back).unwrap_or(0);
    let tail = spans.between(front, TO_END).unwrap_or(0);
    let by_tail = tail.saturating_sub(spans.between(back, TO_END).unwrap_or(0));
    let head = spans.between(FROM_ORIGIN, back).unwrap_or(0);
    let by_head = head.saturating_sub(spans.between(FROM_ORIGIN, front).unwrap_or(0));
    between.max(by_tail.min(by_head))
}
