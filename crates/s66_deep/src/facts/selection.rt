//! A selection, as of a disjunctive graph: which instruction stands before which, one pair more after the other, and the longest paths
//! that follow.

use crate::facts::arcs::{Arcs, Fan};
use crate::facts::ground::Ground;
use crate::facts::network::Paths;
use crate::facts::nodes::{Times, first, free, issue, number_at, raise, second, start, time_at};
use crate::facts::pairs::is_late;
use crate::facts::precedence::{Precedence, joined, set_of};
use s66_isa::{BLOCK_LIMIT, Set};

/// Which number stands before which, and the longest paths by that and by arcs. What is of n is at n - 1.
#[derive(Clone, Copy)]
pub(crate) struct Selection {
    /// All numbers of the block.
    all: Set,
    before: [Set; BLOCK_LIMIT],
    after: [Set; BLOCK_LIMIT],
    /// The pairs that arcs stand for.
    old_before: [Set; BLOCK_LIMIT],
    old_after: [Set; BLOCK_LIMIT],
    paths: Paths,
    /// From where longer paths are to be followed, onward and back.
    open: Sides,
    /// The numbers whose paths grew, from the origin and to the end.
    grown: Sides,
}

/// Numbers for the paths from the origin, and for those to the end.
#[derive(Clone, Copy)]
struct Sides {
    heads: Set,
    tails: Set,
}

/// A number alone, if the block has it.
fn one(n: u8) -> Set {
    if n == 0 || n as usize > BLOCK_LIMIT {
        return Set::empty();
    }
    Set::empty().with(n)
}

/// The lowest number.
fn lowest(numbers: Set) -> Option<u8> {
    let mut rest = numbers;
    rest.pop_first()
}

/// One of these numbers in whose set none of them is.
fn first_of(sets: &[Set; BLOCK_LIMIT], numbers: Set) -> Option<u8> {
    let mut first = lowest(numbers)?;
    for _step in 0..BLOCK_LIMIT {
        match lowest(set_of(sets, first).both(&numbers)) {
            None => return Some(first),
            Some(n) => first = n,
        }
    }
    Some(first)
}

/// The numbers that have the only unit of a kind after n, or before.
fn mates_of(ground: &Ground, n: u8) -> Set {
    match ground.row(n) {
        Some(row) if ground.copies(row.kind) == 1 => ground.users(row.kind),
        _ => Set::empty(),
    }
}

/// For how many parcels the next one waits behind n.
fn parcels_of(ground: &Ground, n: u8) -> u32 {
    match ground.row(n) {
        None => 0,
        Some(row) => row.parcels,
    }
}

/// Makes times as long as the arcs from the stages of a number ask for, and returns the numbers of which some grew.
fn lift_by(fan: &Fan, times: &mut Times, stages: [usize; 5], all: Set) -> Set {
    let mut grown = Set::empty();
    for node in stages {
        grown = joined(all, grown, fan.raise_from(times, node));
    }
    grown
}

/// Makes the paths to these numbers as long as n before them asks for, by parcels or by the only unit of their kind, and returns those
/// whose paths grew.
fn raise_after(ground: &Ground, heads: &mut Times, n: u8, those: Set) -> Set {
    let mut grown = Set::empty();
    let Some(time) = time_at(heads, issue(n)) else {
        return grown;
    };
    let by_parcels = time.saturating_add(parcels_of(ground, n));
    let by_unit = time_at(heads, free(n)).unwrap_or(0);
    let mates = mates_of(ground, n);
    let mut rest = those;
    while let Some(m) = rest.pop_first() {
        let time = if mates.has(m) {
            by_parcels.max(by_unit)
        } else {
            by_parcels
        };
        if raise(heads, issue(m), time) {
            grown = grown.with(m);
        }
    }
    grown
}

/// The same of the paths from these numbers, before n.
fn raise_before(ground: &Ground, tails: &mut Times, n: u8, those: Set) -> Set {
    let mut grown = Set::empty();
    let Some(time) = time_at(tails, issue(n)) else {
        return grown;
    };
    let mates = mates_of(ground, n);
    let mut rest = those;
    while let Some(m) = rest.pop_first() {
        let is_free = mates.has(m) && raise(tails, free(m), time);
        let by_parcels = time.saturating_add(parcels_of(ground, m));
        if raise(tails, issue(m), by_parcels) || is_free {
            grown = grown.with(m);
        }
    }
    grown
}

/// Adds some numbers to the sets of these.
fn join_each(sets: &mut [Set; BLOCK_LIMIT], all: Set, at: Set, more: Set) {
    let mut rest = at;
    while let Some(n) = rest.pop_first() {
        let place = n as usize - 1;
        sets[place] = joined(all, sets[place], more);
    }
}

impl Selection {
    /// Of what is known, with the paths by arcs that stand for it.
    pub(crate) fn of(known: &Precedence, paths: Paths) -> Selection {
        let none = Sides {
            heads: Set::empty(),
            tails: Set::empty(),
        };
        let (before, after) = (*known.all_before(), *known.all_after());
        Selection {
            all: known.all(),
            before,
            after,
            old_before: before,
            old_after: after,
            paths,
            open: none,
            grown: none,
        }
    }

    /// The longest paths.
    pub(crate) fn paths(&self) -> &Paths {
        &self.paths
    }

    /// All numbers of the block.
    pub(crate) fn all(&self) -> Set {
        self.all
    }

    /// Whether m stands before n.
    pub(crate) fn is_before(&self, m: u8, n: u8) -> bool {
        set_of(&self.after, m).has(n)
    }

    /// The numbers that may stand before n or after it.
    pub(crate) fn open_to(&self, n: u8) -> Set {
        let known = joined(self.all, set_of(&self.before, n), set_of(&self.after, n));
        self.all.without(&known).without(&one(n))
    }

    /// Selects a pair: m stands before n, and so do those before m and after n. What paths follow is found by `settle`.
    pub(crate) fn select(&mut self, m: u8, n: u8) {
        let front = joined(self.all, set_of(&self.before, m), one(m));
        let back = joined(self.all, set_of(&self.after, n), one(n));
        join_each(&mut self.before, self.all, back, front);
        join_each(&mut self.after, self.all, front, back);
        self.open.heads = joined(self.all, self.open.heads, front);
        self.open.tails = joined(self.all, self.open.tails, back);
    }

    /// Adds the wait of an arc, which is among the arcs.
    pub(crate) fn wait(&mut self, from: usize, wait: u32, to: usize) {
        if let Some(time) = time_at(&self.paths.heads, from)
            && raise(&mut self.paths.heads, to, time.saturating_add(wait))
        {
            self.open.heads = number_at(self.open.heads, to);
            self.grown.heads = number_at(self.grown.heads, to);
        }
        if let Some(time) = time_at(&self.paths.tails, to)
            && raise(&mut self.paths.tails, from, time.saturating_add(wait))
        {
            self.open.tails = number_at(self.open.tails, from);
            self.grown.tails = number_at(self.grown.tails, from);
        }
    }

    /// Follows longer paths from these numbers onward, and returns the numbers of which some grew.
    pub(crate) fn follow(&self, ground: &Ground, arcs: &Arcs, heads: &mut Times, from: Set) -> Set {
        let (mut rest, mut grown) = (from, Set::empty());
        // each number is followed after all that stand before it, so once
        for _number in 0..BLOCK_LIMIT {
            let Some(n) = first_of(&self.before, rest) else {
                break;
            };
            let stages = [issue(n), start(n), first(n), second(n), free(n)];
            let by_arcs = lift_by(&arcs.onward, heads, stages, self.all);
            let new = set_of(&self.after, n).without(&set_of(&self.old_after, n));
            let by_pairs = raise_after(ground, heads, n, new);
            let both = joined(self.all, by_arcs, by_pairs);
            grown = joined(self.all, grown, both);
            rest = joined(self.all, rest, both).without(&one(n));
        }
        grown
    }

    /// The same back to the numbers before these.
    pub(crate) fn follow_back(
        &self,
        ground: &Ground,
        arcs: &Arcs,
        tails: &mut Times,
        from: Set,
    ) -> Set {
        let (mut rest, mut grown) = (from, Set::empty());
        for _number in 0..BLOCK_LIMIT {
            let Some(n) = first_of(&self.after, rest) else {
                break;
            };
            let stages = [free(n), second(n), first(n), start(n), issue(n)];
            let by_arcs = lift_by(&arcs.back, tails, stages, self.all);
            let new = set_of(&self.before, n).without(&set_of(&self.old_before, n));
            let by_pairs = raise_before(ground, tails, n, new);
            let both = joined(self.all, by_arcs, by_pairs);
            grown = joined(self.all, grown, both);
            rest = joined(self.all, rest, both).without(&one(n));
        }
        grown
    }

    /// Finds the paths that follow from the pairs that were selected since the last time.
    pub(crate) fn settle(&mut self, ground: &Ground, arcs: &Arcs) {
        let Sides { heads, tails } = self.open;
        let mut times = self.paths.heads;
        let grown = self.follow(ground, arcs, &mut times, heads);
        self.paths.heads = times;
        self.grown.heads = joined(self.all, self.grown.heads, grown);
        let mut times = self.paths.tails;
        let grown = self.follow_back(ground, arcs, &mut times, tails);
        self.paths.tails = times;
        self.grown.tails = joined(self.all, self.grown.tails, grown);
        self.open = Sides {
            heads: Set::empty(),
            tails: Set::empty(),
        };
    }

    /// Whether a path through the issue or the start of a number takes the bound.
    fn is_late_through(&self, bound: u32, n: u8) -> bool {
        for node in [issue(n), start(n)] {
            let (head, tail) = (
                time_at(&self.paths.heads, node),
                time_at(&self.paths.tails, node),
            );
            if let (Some(head), Some(tail)) = (head, tail)
                && bound <= head.saturating_add(tail)
            {
                return true;
            }
        }
        false
    }

    /// Whether a path through some number whose paths grew takes the bound.
    pub(crate) fn is_late(&self, bound: u32) -> bool {
        let mut rest = joined(self.all, self.grown.heads, self.grown.tails);
        while let Some(n) = rest.pop_first() {
            if self.is_late_through(bound, n) {
                return true;
            }
        }
        false
    }

    /// The next pair that paths force which grew, if there is one: the first number would come too late behind the second. Of several with
    /// a number, one that the others don't follow from.
    pub(crate) fn next_forced(&mut self, ground: &Ground, bound: u32) -> Option<(u8, u8)> {
        for _number in 0..BLOCK_LIMIT {
            let Some(n) = first_of(&self.before, self.grown.heads) else {
                break;
            };
            if let Some(m) = first_of(&self.after, self.late_behind(ground, bound, n)) {
                return Some((m, n));
            }
            self.grown.heads = self.grown.heads.without(&one(n));
        }
        for _number in 0..BLOCK_LIMIT {
            let Some(m) = first_of(&self.after, self.grown.tails) else {
                break;
            };
            if let Some(n) = first_of(&self.before, self.late_before(ground, bound, m)) {
                return Some((m, n));
            }
            self.grown.tails = self.grown.tails.without(&one(m));
        }
        None
    }

    /// The numbers that would come too late behind n.
    fn late_behind(&self, ground: &Ground, bound: u32, n: u8) -> Set {
        let mut late = Set::empty();
        let mut rest = self.open_to(n);
        while let Some(m) = rest.pop_first() {
            if is_late(ground, &self.paths, bound, m, n) {
                late = late.with(m);
            }
        }
        late
    }

    /// The numbers behind which m would come too late.
    fn late_before(&self, ground: &Ground, bound: u32, m: u8) -> Set {
        let mut late = Set::empty();
        let mut rest = self.open_to(m);
        while let Some(n) = rest.pop_first() {
            if is_late(ground, &self.paths, bound, m, n) {
                late = late.with(n);
            }
        }
        late
    }
}
