//! A walk over beginnings (`PathWalk`), as that of `s66_node`, which keeps also what remains by rank, for the longest paths of `floors/`.

ghost use Rattle.std.specs.Prelude.{◌≡◌, length, ◌<◌, ◌++◌, [], ◌∷◌, true, IfSome};
ghost use Rattle.s66_model.specs.{is_ready, IsIncomplete, total_of, vertex_of, IsShort};
ghost use Rattle.s66_line.specs.{instrs_of};
ghost use Rattle.s66_node.specs.Walked.{Walked};

use crate::floors::{Left, PathBounds, Tails};
use s66_isa::{BLOCK_LIMIT, KINDS, Kind, Profile, Set};
use s66_line::Block;
use s66_model::{FactLeaf, TreeLine};
use s66_node::Walk;
use s66_time::Timed;
use std::marker::Model;

/// A walk over the beginnings of a block's legal orders, with the greatest paths of what remains after its prefix.
#[derive(Drop)]
pub struct PathWalk<'a> {
    walk: Walk<'a>,
    paths: PathBounds<'a>,
    /// What remains, by the ranks of what follows.
    left: Left,
}

impl<'a> Model for PathWalk<'a> {
    ghost Value = { Walked };

    ghost view = { λ p. p.walk };

    ghost invariant = { λ p. p.paths ≡ length p.walk.problem.block };
}

impl<'a> PathWalk<'a> {
    /// The empty one, with what follows the stages of each number, n at place n - 1: in time quadratic in the block's length.
    pub fn new(
        block: &'a Block<'a>,
        profile: &Profile,
        tails: &[Tails; BLOCK_LIMIT],
    ) -> PathWalk<'a>
        ensures { result ≡
            record { problem = record { block = instrs_of block.now; profile = profile.now }; numbers = [] } }
    {
        let paths = PathBounds::new(block, profile, tails);
        let left = paths.left_after(&Set::empty());
        PathWalk {
            walk: Walk::new(block, profile),
            paths,
            left,
        }
    }

    /// The walk, which is at this prefix.
    pub fn walk(&self) -> &Walk<'a>
        ensures { result.now ≡ self.now }
    {
        &self.walk
    }

    /// How many numbers it has.
    pub fn depth(&self) -> u8
        ensures { result ≡ length self.now.numbers }
    {
        self.walk.depth()
    }

    /// Goes on with a number that is ready, in the time of a clock's push.
    fn push(&mut self, n: u8)
        requires { is_ready self.old.problem.block self.old.numbers n ≡ true }
        ensures { self.new ≡ record self.old { numbers = self.old.numbers ++ n ∷ [] } }
    {
        self.paths.take_out(&mut self.left, n);
        self.walk.push(n);
    }

    /// Goes on with a number if it is ready, and returns whether it is.
    pub fn try_push(&mut self, n: u8) -> bool
        ensures ready { result ≡ is_ready self.old.problem.block self.old.numbers n }
        ensures problem { self.new.problem ≡ self.old.problem }
    {
        if !self.walk.is_ready(n) {
            return false;
        }
        self.push(n);
        true
    }

    /// Goes back by the last number, if there is one, in constant time.
    pub fn undo(&mut self)
        ensures { self.new.problem ≡ self.old.problem }
    {
        let Some(&n) = self.walk.numbers().last() else {
            return;
        };
        self.walk.undo();
        self.paths.put_back(&mut self.left, n);
    }

    /// Goes back to this many numbers, if it has more.
    pub fn go_back(&mut self, count: usize)
        ensures { self.new.problem ≡ self.old.problem }
    {
        for _ in count..self.walk.numbers().len() {
            self.undo();
        }
    }

    /// Goes to another beginning: an undo or a push for each number in which the two differ, and a step for each number that remains.
    /// Where these numbers are no beginning, it stops on the way.
    pub fn go_to(&mut self, numbers: &[u8])
        ensures { self.new.problem ≡ self.old.problem }
    {
        self.walk.try_go_to(numbers);
        self.left = self.paths.left_after(&self.walk.pushed());
    }

    /// The numbers that are ready after it, as the walk finds them.
    pub fn ready(&mut self) -> Set
        ensures { self.new ≡ self.old }
    {
        self.walk.ready()
    }

    /// The order that it is, with its times, if it is whole and takes less than this, in minor cycles: in time quadratic in the
    /// block's length.
    pub fn timed_below(&self, total: u32) -> Option<Timed>
        ensures problem { IfSome result (λ timed. timed.problem ≡ self.now.problem) }
        ensures below { IfSome result (λ timed. total_of timed.problem timed.numbers < total) }
    {
        if !self.walk.is_complete() || total <= self.walk.clock().total() {
            return None;
        }
        Some(self.walk.timed())
    }

    /// The greatest path of what remains, in minor cycles: what each completion takes at least, if the tails are right.
    pub fn path_floor(&self) -> u32 {
        self.paths.floor_by_ranks(self.walk.clock(), &self.left)
    }

    /// What each completion takes at least, in minor cycles, by the greatest path of what remains, the load of each kind of unit, and
    /// the parcels.
    pub fn floor(&self) -> u32
        requires { IsIncomplete self.now.problem.block self.now.numbers }
    {
        let (bounds, clock) = (self.walk.bounds(), self.walk.clock());
        let mut floor = self.path_floor();
        for kind in KINDS {
            floor = floor.max(bounds.load(clock, kind));
        }
        floor.max(bounds.parcels(clock))
    }

    /// The first kind of unit whose load is so great at least.
    fn loaded(&self, low: u32) -> Option<Kind> {
        for kind in KINDS {
            if low <= self.walk.bounds().load(self.walk.clock(), kind) {
                return Some(kind);
            }
        }
        None
    }

    /// A leaf whose value is so great at least: the greatest path of what remains, the load of a kind of unit, or the parcels.
    pub fn leaf(&self, low: u32) -> Option<TreeLine<'static>>
        requires { IsIncomplete self.now.problem.block self.now.numbers }
        ensures { IfSome result (λ line. IsShort (vertex_of line)) }
    {
        if low <= self.path_floor() {
            let leaf = FactLeaf::Next(self.paths.leaf(self.walk.clock()));
            return Some(TreeLine::Factual(leaf));
        }
        if let Some(kind) = self.loaded(low) {
            return Some(TreeLine::Load(kind));
        }
        if low <= self.walk.bounds().parcels(self.walk.clock()) {
            return Some(TreeLine::Parcels);
        }
        None
    }
}
