//! Arcs of loads, found by their moments.
//! Those of each number are in a chain; an arc that says no more than another between the same moments is in none.

ghost use Rattle.std.specs.Prelude.{ℕ, ◌-◌, ◌≡◌, ◌≤◌, ◌<◌, ◌++◌, ◌∷◌, [], IsTrue, false, length, get_or};
ghost use Rattle.s66_isa.specs.{BLOCK_LIMIT};
ghost use Rattle.s66_facts.specs.{FACT_LIMIT, number_of, no_arc, along, is_as_long, HasAsLong, IsFalling, IsChained, by_arc, time_along, by_loads};

use crate::direction::Direction;
use crate::limits::FACT_LIMIT;
use crate::times::{Times, add, is_same_moment, later, time_along, when, zero_if_same};
use arrayvec::ArrayVec;
use s66_isa::BLOCK_LIMIT;
use s66_moments::{KnownArc, Moment};
use std::marker::Model;

/// The number of a moment, 0 if it has none.
fn number_of(moment: &Moment) -> u8
    ensures { result ≡ number_of moment.now }
{
    match moment {
        Moment::Origin | Moment::End => 0,
        Moment::At(n, _) => *n,
    }
}

/// The places of arcs, counted from 1, by the number of one of their moments.
#[derive(Drop)]
struct Chains {
    /// The last place of number n is at n - 1; 0 if it has none.
    last: [u16; BLOCK_LIMIT],
    /// Of each place the one before it of the same number; 0 if there is none.
    before: ArrayVec<u16, FACT_LIMIT>,
}

/// Whether an arc leads between the same moments as another, and is no shorter.
fn is_as_long(arc: &KnownArc, other: &KnownArc) -> bool
    ensures { result ≡ is_as_long arc.now other.now }
{
    is_same_moment(&arc.from, &other.from)
        && is_same_moment(&arc.to, &other.to)
        && other.wait <= arc.wait
}

/// The arc at a place.
fn arc_at(arcs: &[KnownArc], place: u16) -> &KnownArc
    requires { (1 ≤ place) × (place ≤ length arcs.now) }
    ensures { result.now ≡ get_or arcs.now (place - 1) no_arc }
{
    &arcs[place as usize - 1]
}

/// The place before it, 0 if there is none.
fn place_before(before: &[u16], place: u16) -> u16
    requires { (1 ≤ place) × (place ≤ length before.now) }
    ensures { result ≡ get_or before.now (place - 1) 0 }
{
    before[place as usize - 1]
}

/// The time of a moment by an arc that may lead to it.
fn by_arc(
    direction: Direction,
    times: &[Times; BLOCK_LIMIT],
    first: Option<u64>,
    to: &Moment,
    arc: &KnownArc,
) -> Option<u64>
    ensures { result ≡ by_arc direction (time_along direction times.now first) to.now arc.now }
{
    let time = time_along(direction, times, first, direction.start_of(arc));
    when(
        is_same_moment(direction.end_of(arc), to),
        add(time, arc.wait),
    )
}

/// Whether a chain has an arc that leads between the same moments as another, and is no shorter.
fn has_as_long(arcs: &[KnownArc], before: &[u16], first: u16, other: &KnownArc) -> bool
    requires falling { IsFalling arcs.now before.now }
    requires fits { first ≤ length arcs.now }
    ensures { IsTrue result → HasAsLong arcs.now before.now first other.now }
{
    let mut place = first;
    while place > 0 {
        if is_as_long(arc_at(arcs, place), other) {
            return true;
        }
        place = place_before(before, place);
    }
    false
}

/// The latest along a chain by arcs that lead to a moment.
fn latest_along(
    direction: Direction,
    arcs: &[KnownArc],
    before: &[u16],
    last: u16,
    times: &[Times; BLOCK_LIMIT],
    first: Option<u64>,
    to: &Moment,
) -> Option<u64>
    requires falling { IsFalling arcs.now before.now }
    requires fits { last ≤ length arcs.now }
    ensures { result ≡
        along (by_arc direction (time_along direction times.now first) to.now) arcs.now before.now last last }
{
    let mut latest = None;
    let mut place = last;
    while place > 0 {
        let time = by_arc(direction, times, first, to, arc_at(arcs, place));
        latest = later(latest, time);
        place = place_before(before, place);
    }
    latest
}

impl Chains {
    ghost use Rattle.std.specs.Prelude.{replicate};
    ghost use Rattle.s66_facts.specs.{IsPushed};

    /// Of no arcs.
    fn none() -> Chains
        ensures last { result.last ≡ replicate BLOCK_LIMIT 0 }
        ensures before { result.before.items ≡ [] }
    {
        Chains {
            last: [0; BLOCK_LIMIT],
            before: ArrayVec::new(),
        }
    }

    /// The same.
    fn duplicate(&self) -> Chains
        ensures last { result.last ≡ self.now.last }
        ensures before { result.before.items ≡ self.now.before.items }
    {
        let Ok(before) = ArrayVec::try_from(self.before.as_slice()) else {
            unreachable!()
        };
        Chains {
            last: self.last,
            before,
        }
    }

    /// Whether an arc of number n says nothing new: n is none, or its chain has one that is as long.
    fn has(&self, arcs: &[KnownArc], arc: &KnownArc, n: u8) -> bool
        requires falling { IsFalling arcs.now self.now.before.items }
        requires fits { (k : ℕ) → 1 ≤ k → k ≤ BLOCK_LIMIT → get_or self.now.last (k - 1) 0 ≤ length arcs.now }
        ensures known { IsTrue result → 1 ≤ n → n ≤ BLOCK_LIMIT →
            HasAsLong arcs.now self.now.before.items (get_or self.now.last (n - 1) 0) arc.now }
        ensures new { result ≡ false → (1 ≤ n) × (n ≤ BLOCK_LIMIT) }
    {
        n == 0
            || n as usize > BLOCK_LIMIT
            || has_as_long(arcs, self.before.as_slice(), self.last[n as usize - 1], arc)
    }

    /// One place more, of number n. Its chain gets it if the arc says something new.
    fn push(&mut self, arcs: &[KnownArc], arc: &KnownArc, n: u8)
        requires room { length arcs.now < FACT_LIMIT }
        requires falling { IsFalling arcs.now self.old.before.items }
        requires fits { (k : ℕ) → 1 ≤ k → k ≤ BLOCK_LIMIT → get_or self.old.last (k - 1) 0 ≤ length arcs.now }
        ensures { IsPushed BLOCK_LIMIT arcs.now arc.now n self.old.last self.old.before.items self.new.last
            self.new.before.items }
    {
        if self.has(arcs, arc, n) {
            self.before.push(0);
        } else {
            self.before.push(self.last[n as usize - 1]);
            self.last[n as usize - 1] = arcs.len() as u16 + 1;
        }
    }
}

/// Arcs of loads, found by the number to which they lead, and by that from which they come.
#[derive(Drop)]
pub(crate) struct Arcs {
    all: ArrayVec<KnownArc, FACT_LIMIT>,
    to: Chains,
    from: Chains,
}

impl Model for Arcs {
    ghost use Rattle.std.specs.Prelude.{List};
    ghost use Rattle.s66_moments.specs.{KnownArc as KnownArcOf};
    ghost use Rattle.s66_isa.specs.{BLOCK_LIMIT};
    ghost use Rattle.s66_facts.specs.declared.direction.Direction.TheVariants.{Forward, Backward};
    ghost use Rattle.s66_facts.specs.Chained.{IsChained};

    ghost Value = { List KnownArcOf };

    ghost view = { λ a. a.all.items };

    ghost invariant = { λ a. IsChained BLOCK_LIMIT Forward a.all.items a.to.last a.to.before.items ×
        IsChained BLOCK_LIMIT Backward a.all.items a.from.last a.from.before.items };
}

impl Arcs {
    /// None.
    pub(crate) fn none() -> Arcs
        ensures { result ≡ [] }
    {
        Arcs {
            all: ArrayVec::new(),
            to: Chains::none(),
            from: Chains::none(),
        }
    }

    /// The same.
    pub(crate) fn duplicate(&self) -> Arcs
        ensures { result ≡ self.now }
    {
        let Ok(all) = ArrayVec::try_from(self.all.as_slice()) else {
            unreachable!()
        };
        Arcs {
            all,
            to: self.to.duplicate(),
            from: self.from.duplicate(),
        }
    }

    /// One more. It takes a look at each that has one of its numbers.
    pub(crate) fn push(&mut self, arc: KnownArc)
        requires { length self.old < FACT_LIMIT }
        ensures { self.new ≡ self.old ++ arc ∷ [] }
    {
        let all = self.all.as_slice();
        self.to.push(all, &arc, number_of(&arc.to));
        self.from.push(all, &arc, number_of(&arc.from));
        self.all.push(arc);
    }

    /// All of them, in order.
    pub(crate) fn as_slice(&self) -> &[KnownArc]
        ensures { result.now ≡ self.now }
    {
        self.all.as_slice()
    }

    /// Those that are found by the number to which they lead.
    fn chains(&self, direction: Direction) -> &Chains
        ensures { IsChained BLOCK_LIMIT direction self.now result.now.last result.now.before.items }
    {
        match direction {
            Direction::Forward => &self.to,
            Direction::Backward => &self.from,
        }
    }

    /// The latest by those that lead to a moment, for paths from another one, if each is its wait later than the moment at which it
    /// begins. It takes a look at each that leads to its number and says something new.
    pub(crate) fn latest(
        &self,
        direction: Direction,
        times: &[Times; BLOCK_LIMIT],
        from: &Moment,
        to: &Moment,
    ) -> Option<u64>
        requires { (1 ≤ number_of to.now) × (number_of to.now ≤ BLOCK_LIMIT) }
        ensures { result ≡ by_loads direction self.now times.now from.now to.now }
    {
        let chains = self.chains(direction);
        latest_along(
            direction,
            self.all.as_slice(),
            chains.before.as_slice(),
            chains.last[number_of(to) as usize - 1],
            times,
            zero_if_same(from, &direction.source()),
            to,
        )
    }
}
