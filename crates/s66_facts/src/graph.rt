//! A block under a profile, and what is known of it: which number stands before which, and arcs of loads.
//! It is the network in which `paths.rt` follows the longest paths.

ghost use Rattle.std.specs.Prelude.{ℕ, ◌≡◌, ◌≢◌, ◌≤◌, ◌<◌, ◌↔◌, IsTrue, true, false, [], ◌∷◌, ◌++◌, length, map};
ghost use Rattle.s66_isa.specs.{row, BLOCK_LIMIT};
ghost use Rattle.s66_facts.specs.{FACT_LIMIT};

use crate::arcs::Arcs;
use crate::closure::{before_each, marks_at};
use crate::direction::Direction;
use crate::marks::{copy_of, none_each};
use crate::near::near_each;
use crate::pairs::{turned, with_pair};
use arrayvec::ArrayVec;
use s66_isa::{BLOCK_LIMIT, Instr, Kind, Profile, Row, Set, is_same_kind};
use s66_moments::{KnownArc, Moment};
use std::marker::Model;

/// A block under a profile, and what is known of it.
#[derive(Drop)]
pub(crate) struct Graph {
    block: ArrayVec<Instr, BLOCK_LIMIT>,
    profile: Profile,
    rows: ArrayVec<Row, BLOCK_LIMIT>,
    /// Of each number those that stand before it.
    before: ArrayVec<Set, BLOCK_LIMIT>,
    /// After it.
    after: ArrayVec<Set, BLOCK_LIMIT>,
    /// Those of the former that decide its times.
    near_before: ArrayVec<Set, BLOCK_LIMIT>,
    /// Those of the latter.
    near_after: ArrayVec<Set, BLOCK_LIMIT>,
    loads: Arcs,
}

impl Model for Graph {
    ghost use Rattle.s66_facts.specs.BlockGround.{Ground};
    ghost use Rattle.s66_facts.specs.Near.{IsKept};

    ghost Value = { Ground };

    ghost view = { λ g.
        record { problem = record { block = g.block.items; profile = g.profile }; marks = g.before.items; loads = g.loads } };

    ghost invariant = { λ g. IsKept g.block.items g.profile g.rows.items g.before.items g.after.items
        g.near_before.items g.near_after.items g.loads };
}

/// The rows of a block's instructions under a profile.
fn rows_of(block: &[Instr], profile: &Profile) -> ArrayVec<Row, BLOCK_LIMIT>
    requires { length block.now ≤ BLOCK_LIMIT }
    ensures { result.items ≡ map (row profile.now) block.now }
{
    let mut rows = ArrayVec::new();
    for instr in block {
        rows.push(Row::of(instr, profile));
    }
    rows
}

impl Graph {
    ghost use Rattle.s66_model.specs.{row_at, copies};
    ghost use Rattle.s66_moments.specs.{IsNumber, known_first, with_line, is_number, is_arc_up, Pair};
    ghost use Rattle.s66_isa.specs.{has, numbers_in};
    ghost use Rattle.s66_facts.specs.{before_in, IsAcyclic, known_of, sooner, IsNear, share_unit};

    /// What is known of a block under a profile by dependence alone.
    pub(crate) fn new(block: &[Instr], profile: &Profile) -> Graph
        requires { length block.now ≤ BLOCK_LIMIT }
        ensures problem { result.problem ≡ record { block = block.now; profile = profile.now } }
        ensures known { known_of result ≡ known_first result.problem }
    {
        let mut graph = Graph::close(block, profile);
        graph.thin_out();
        graph
    }

    /// The same, if all that stands before a number decides its times.
    fn close(block: &[Instr], profile: &Profile) -> Graph
        requires { length block.now ≤ BLOCK_LIMIT }
        ensures problem { result.problem ≡ record { block = block.now; profile = profile.now } }
        ensures known { known_of result ≡ known_first result.problem }
    {
        let Ok(copy) = ArrayVec::try_from(block) else {
            unreachable!()
        };
        let before = before_each(block);
        let near_before = copy_of(before.as_slice());
        let after = turned(before.as_slice());
        let near_after = copy_of(after.as_slice());
        Graph {
            block: copy,
            profile: *profile,
            rows: rows_of(block, profile),
            before,
            after,
            near_before,
            near_after,
            loads: Arcs::none(),
        }
    }

    /// Finds which numbers decide the times of each. Each number that stands before another is compared with those that do.
    fn thin_out(&mut self)
        ensures { self.new ≡ self.old }
    {
        let count = self.count();
        let none = none_each(count);
        let near_before = near_each(
            self,
            self.before.as_slice(),
            none.as_slice(),
            none.as_slice(),
        );
        let near_after = near_each(
            self,
            self.after.as_slice(),
            none.as_slice(),
            none.as_slice(),
        );
        self.near_before = near_before;
        self.near_after = near_after;
    }

    /// The same, in time linear in the block's length and in the loads.
    pub(crate) fn duplicate(&self) -> Graph
        ensures { result ≡ self.now }
    {
        let Ok(block) = ArrayVec::try_from(self.block.as_slice()) else {
            unreachable!()
        };
        Graph {
            block,
            profile: self.profile,
            rows: rows_of(self.block.as_slice(), &self.profile),
            before: copy_of(self.before.as_slice()),
            after: copy_of(self.after.as_slice()),
            near_before: copy_of(self.near_before.as_slice()),
            near_after: copy_of(self.near_after.as_slice()),
            loads: self.loads.duplicate(),
        }
    }

    /// How many instructions the block has.
    pub(crate) fn count(&self) -> u8
        ensures value { result ≡ length self.now.problem.block }
        ensures few { result ≤ BLOCK_LIMIT }
        ensures ordered { IsAcyclic self.now }
    {
        self.block.len() as u8
    }

    /// The row of the instruction of a number.
    pub(crate) fn row(&self, n: u8) -> &Row
        requires { IsNumber self.now.problem n }
        ensures { result.now ≡ row_at self.now.problem n }
    {
        &self.rows.as_slice()[n as usize - 1]
    }

    /// Whether two numbers need the only unit of their kind.
    pub(crate) fn share_unit(&self, m: u8, n: u8) -> bool
        requires m { IsNumber self.now.problem m }
        requires n { IsNumber self.now.problem n }
        ensures { result ≡ share_unit self.now.problem m n }
    {
        let kind = self.row(n).kind;
        is_same_kind(self.row(m).kind, kind) && self.profile.copies(kind) == 1
    }

    /// Whether m is known to stand before n.
    pub(crate) fn is_before(&self, m: u8, n: u8) -> bool
        requires m { IsNumber self.now.problem m }
        requires n { IsNumber self.now.problem n }
        ensures { result ≡ before_in self.now.marks m n }
    {
        self.before[n as usize - 1].has(m)
    }

    /// Whether m is known to come sooner than n in a direction.
    pub(crate) fn is_sooner(&self, direction: Direction, m: u8, n: u8) -> bool
        requires m { IsNumber self.now.problem m }
        requires n { IsNumber self.now.problem n }
        ensures { result ≡ sooner direction (before_in self.now.marks) m n }
    {
        match direction {
            Direction::Forward => self.is_before(m, n),
            Direction::Backward => self.is_before(n, m),
        }
    }

    /// The numbers that come later than n.
    pub(crate) fn later(&self, direction: Direction, n: u8) -> Set
        requires { IsNumber self.now.problem n }
        ensures { (m : ℕ) → IsNumber self.now.problem m →
            has m (numbers_in result) ≡ sooner direction (before_in self.now.marks) n m }
    {
        match direction {
            Direction::Forward => self.after[n as usize - 1],
            Direction::Backward => self.before[n as usize - 1],
        }
    }

    /// Those of the numbers that come sooner than n that decide its times.
    pub(crate) fn near(&self, direction: Direction, n: u8) -> Set
        requires { IsNumber self.now.problem n }
        ensures { IsNear self.now.problem (sooner direction (before_in self.now.marks)) result n }
    {
        match direction {
            Direction::Forward => self.near_before[n as usize - 1],
            Direction::Backward => self.near_after(n),
        }
    }

    /// Those of the numbers that stand after n.
    fn near_after(&self, n: u8) -> Set
        requires { IsNumber self.now.problem n }
        ensures { IsNear self.now.problem (λ m k. before_in self.now.marks k m) result n }
    {
        marks_at(self.near_after.as_slice(), n as usize - 1)
    }

    /// How many units there are of a kind.
    pub(crate) fn copies(&self, kind: Kind) -> u32
        ensures value { result ≡ copies self.now.problem kind }
        ensures at_least { 1 ≤ result }
        ensures at_most { result ≤ 100 }
    {
        self.profile.copies(kind)
    }

    /// Whether the block has a number.
    pub(crate) fn is_number(&self, n: u8) -> bool
        ensures value { result ≡ is_number self.now.problem n }
        ensures number { IsTrue result ↔ IsNumber self.now.problem n }
    {
        1 <= n && n <= self.count()
    }

    /// One pair more, which isn't turned.
    pub(crate) fn add_pair(&mut self, m: u8, n: u8)
        requires m { IsNumber self.old.problem m }
        requires n { IsNumber self.old.problem n }
        requires differ { m ≢ n }
        requires turned { before_in self.old.marks n m ≡ false }
        ensures problem { self.new.problem ≡ self.old.problem }
        ensures known { known_of self.new ≡ with_line (known_of self.old) (Pair m n) }
    {
        let before = with_pair(self.before.as_slice(), m, n);
        let after = with_pair(self.after.as_slice(), n, m);
        let near_before = near_each(
            self,
            before.as_slice(),
            self.before.as_slice(),
            self.near_before.as_slice(),
        );
        let near_after = near_each(
            self,
            after.as_slice(),
            self.after.as_slice(),
            self.near_after.as_slice(),
        );
        self.before = before;
        self.after = after;
        self.near_before = near_before;
        self.near_after = near_after;
    }

    /// One arc of a load more, which leads up.
    pub(crate) fn add_load(&mut self, from: &Moment, wait: u32, to: &Moment)
        requires room { length self.old.loads < FACT_LIMIT }
        requires up { is_arc_up self.old.problem (before_in self.old.marks) from.now to.now ≡ true }
        ensures problem { self.new.problem ≡ self.old.problem }
        ensures marks { self.new.marks ≡ self.old.marks }
        ensures loads { self.new.loads ≡ self.old.loads ++ record { from = from.now; wait = wait; to = to.now } ∷ [] }
    {
        self.loads.push(KnownArc {
            from: *from,
            wait,
            to: *to,
        });
    }

    /// The arcs of loads.
    pub(crate) fn loads(&self) -> &Arcs
        ensures { result.now ≡ self.now.loads }
    {
        &self.loads
    }
}
