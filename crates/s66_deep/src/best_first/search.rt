//! The search itself (`branch`): it takes the open prefix of the least floor, splits it, and closes each child by a path, a load, a
//! pair that is turned, or a prefix that dominates it.
//!
//! It is best-first branch and bound (A. H. Land and A. G. Doig, An automatic method of solving discrete programming problems,
//! Econometrica 28, 1960): since the least floor comes first, no prefix is split whose floor is above what the best order takes. What
//! dominates is decided by what remains (`allowed.rt`), so that more prefixes are closed than by a comparison of all times.

ghost use Rattle.std.specs.Prelude.{◌≡◌, ◌≤◌, IfOk};
ghost use Rattle.s66_model.specs.{total_of};
ghost use Rattle.s66_line.specs.{instrs_of};
ghost use Rattle.s66_deep.specs.{IsNoSlower};

use crate::best_first::instructions::Instructions;
use crate::best_first::loads::Loads;
use crate::best_first::nodes::{Fate, Nodes, ROOT, SearchNode};
use crate::best_first::open::{Next, Open};
use crate::best_first::remaining::Remaining;
use crate::best_first::trail::Trail;
use crate::best_first::transpositions::{Key, Probe, Transpositions};
use crate::best_first::waits::{Waits, word};
use crate::best_first::writer::{Leaves, written};
use crate::facts::Finder;
use crate::walk::PathWalk;
use s66_isa::{BLOCK_LIMIT, Profile};
use s66_line::Block;
use s66_model::Tree;
use s66_time::Timed;
use std::alloc::{AllocError, Global};
use std::marker::Model;

/// The most prefixes that are looked at to one split: its children, and itself.
const LOOKS: u64 = BLOCK_LIMIT as u64 + 1;

/// What a search of all legal orders came to.
#[derive(Drop)]
pub struct Branched {
    /// The fastest order that it met; the one that it was given if none is faster.
    pub best: Timed,
    /// How many prefixes were split.
    pub splits: u32,
    /// What each order takes at least, in minor cycles. If the search came to its end, this is the time below which it sought, or what
    /// the fastest order takes, if that is less.
    pub bound: u32,
    /// The lines in preorder of a tree that shows this, if there is one; none if the search stopped at an order that is enough, or if all
    /// orders are known to take as much.
    pub tree: Option<Tree>,
}

/// How far a search goes.
#[derive(Clone, Copy)]
pub struct Limits {
    /// It seeks orders that take less than this, in minor cycles.
    pub below: u32,
    /// It stops at an order that takes no more than this: what all orders are known to take at least, in minor cycles.
    pub enough: u32,
    /// The most splits.
    pub splits: u32,
    /// The number in the document of the tree's first line, from 1.
    pub first_line: u32,
}

/// What becomes of a prefix at which the search looks: its fate, or if it is open its floor, in minor cycles.
#[derive(Clone, Copy)]
enum Outcome {
    Is(Fate),
    IsOpen(u32),
}

/// A search under way.
#[derive(Drop)]
struct Search<'a> {
    trail: Trail<'a>,
    instructions: Instructions<'a>,
    loads: Loads,
    nodes: Nodes,
    open: Open,
    transpositions: Transpositions,
    splits: u32,
    /// The most splits.
    most: u32,
    /// Orders are sought that take less than this, in minor cycles.
    low: u32,
    /// One that takes no more than this is enough.
    enough: u32,
    best: Timed,
}

impl<'a> Model for Search<'a> {
    ghost use Rattle.std.specs.Prelude.{◌≡◌};
    ghost use Rattle.s66_deep.specs.Branching.{Searching};

    ghost Value = { Searching };

    ghost view = { λ s. record { best = s.best; splits = s.splits; most = s.most } };

    ghost invariant = { λ s. s.trail ≡ s.best.problem };
}

/// Keeps the whole order that a prefix is, if it is one and faster than the best.
// few prefixes come here, and no other is to pay for its locals
#[inline(never)]
fn keep_faster(prefix: &PathWalk<'_>, best: &mut Timed)
    requires { prefix.now.problem ≡ best.old.problem }
    ensures { IsNoSlower best.old best.new }
{
    if let Some(timed) = prefix.timed_below(best.total()) {
        *best = timed;
    }
}

impl<'a> Search<'a> {
    ghost use Rattle.std.specs.Prelude.{◌≡◌, ◌≤◌, ◌<◌};
    ghost use Rattle.s66_isa.specs.{BLOCK_LIMIT};
    ghost use Rattle.s66_deep.specs.{SearchGoesOn, Looks};

    /// The prefix at which the trail is, as that of a node: the place in its word of its next parcel, and its floor.
    fn probe(&self, node: u32, place: u8, floor: u32) -> Probe {
        let clock = self.trail.prefix.walk().clock();
        Probe {
            key: Key {
                pushed: clock.pushed(),
                node,
                slot: clock.next(),
                place,
                total: clock.total(),
            },
            floor,
            waits: Waits::of(clock),
        }
    }

    /// What becomes of the prefix at which the trail is, if another one in the table dominates it.
    fn dominated(&self, probe: &Probe) -> Option<Fate> {
        let remaining = Remaining::new(&self.instructions, self.trail.prefix.walk().clock());
        let other = self.transpositions.find(&self.nodes, &remaining, probe)?;
        Some(Fate::Dominated {
            other,
            floor: word(probe.floor),
        })
    }

    /// The first number that is known to stand before n and isn't in the prefix.
    fn missing_before(&self, n: u8) -> Option<u8> {
        let mut missing = self
            .instructions
            .before(n)
            .without(&self.trail.prefix.walk().pushed());
        missing.pop_first()
    }

    /// Finds what the prefix of a new node is, whose next parcel has this place in its word, and stores it in the table if it is open. A whole order that
    /// is faster is the best from then on.
    fn look(&mut self, node: u32, place: u8) -> Result<Outcome, AllocError>
        ensures { Looks self.old self.new }
    {
        if self.trail.prefix.walk().is_complete() {
            keep_faster(&self.trail.prefix, &mut self.best);
            self.low = self.low.min(self.best.total());
            return Ok(Outcome::Is(Fate::Closed));
        }
        let floor = self.trail.prefix.floor();
        if self.low <= floor {
            return Ok(Outcome::Is(Fate::Closed));
        }
        let probe = self.probe(node, place, floor);
        if let Some(fate) = self.dominated(&probe) {
            return Ok(Outcome::Is(fate));
        }
        self.transpositions
            .store(&probe, self.trail.prefix.walk().clock())?;
        Ok(Outcome::IsOpen(floor))
    }

    /// Adds the child of a node with a number that is ready, to which the trail goes and back, and returns whether it could. The place is
    /// that of the child's next parcel in its word.
    fn add_child(&mut self, parent: u32, place: u8, n: u8) -> Result<bool, AllocError>
        ensures { Looks self.old self.new }
    {
        let index = self.nodes.len();
        let missing = self.missing_before(n);
        // a split has no other; this look is what shows that it may be pushed
        if !self.trail.prefix.try_push(n) {
            return Ok(false);
        }
        let depth = self.trail.prefix.depth();
        let found = match missing {
            Some(other) => Outcome::Is(Fate::Turned(other)),
            None => self.look(index, place)?,
        };
        self.trail.prefix.undo();
        let fate = match found {
            Outcome::Is(fate) => fate,
            Outcome::IsOpen(floor) => {
                self.open.push(index, depth, floor)?;
                Fate::Open
            }
        };
        self.nodes.push(SearchNode {
            parent,
            number: n,
            depth,
            place,
            fate,
        })?;
        Ok(true)
    }

    /// Adds the children of a node, at which the trail is, and returns whether it could. Its next parcel has this place in its word.
    fn split(&mut self, node: u32, place: u8) -> Result<bool, AllocError>
        requires { self.old.splits < self.old.most }
        ensures { SearchGoesOn self.old self.new }
    {
        let first = self.nodes.len();
        let ready = self.trail.prefix.ready().numbers();
        for n in ready.as_slice() {
            let after = self.instructions.place_after(place, *n);
            if !self.add_child(node, after, *n)? {
                return Ok(false);
            }
        }
        let count = ready.len() as u8;
        self.nodes.set_fate(node, Fate::Split { first, count });
        self.splits = self.splits.saturating_add(1);
        Ok(true)
    }

    /// What closes an open node at which the trail is, if anything does now: a prefix that was met since then and dominates it, or a load.
    fn closed(&mut self, probe: &Probe) -> Option<Fate>
        ensures { Looks self.old self.new }
    {
        if let Some(fate) = self.dominated(probe) {
            return Some(fate);
        }
        let clock = self.trail.prefix.walk().clock();
        if self.loads.close(&self.instructions, clock, self.low) {
            return Some(Fate::Closed);
        }
        None
    }

    /// Splits an open node, unless something closes it now, and returns whether it could: it can't once all splits are made.
    fn take(&mut self, next: &Next) -> Result<bool, AllocError>
        ensures { SearchGoesOn self.old self.new }
    {
        let Some(own) = self.nodes.at(next.node) else {
            return Ok(false);
        };
        if !self.trail.go_to(&self.nodes, next.node) {
            return Ok(false);
        }
        let probe = self.probe(next.node, own.place, next.floor);
        if let Some(fate) = self.closed(&probe) {
            self.nodes.set_fate(next.node, fate);
            return Ok(true);
        }
        if self.splits >= self.most {
            return Ok(false);
        }
        self.split(next.node, own.place)
    }

    /// Whether an order was met that is enough.
    fn has_enough(&self) -> bool {
        self.low <= self.enough
    }

    /// Goes on until no open node's floor is so low that a faster order may begin so, an order is enough, or a node has to be split when
    /// all splits are made. What each order takes at least then, in minor cycles.
    fn run(&mut self) -> Result<u32, AllocError>
        ensures { SearchGoesOn self.old self.new }
    {
        let looks = LOOKS * (u64::from(self.most) + 1);
        let mut bound = 0;
        for _ in 0..looks {
            let Some(next) = self.open.pop() else {
                return Ok(self.low);
            };
            if self.low <= next.floor {
                return Ok(self.low);
            }
            bound = next.floor;
            if !self.take(&next)? || self.has_enough() {
                return Ok(bound);
            }
        }
        Ok(bound)
    }

    /// Opens the root.
    fn open_root(&mut self) -> Result<(), AllocError>
        ensures { Looks self.old self.new }
    {
        if let Outcome::IsOpen(floor) = self.look(ROOT, 0)? {
            self.open.push(ROOT, 0, floor)?;
        }
        Ok(())
    }
}

/// Goes through the legal orders of a block under a profile that take less than a limit, the most promising prefix first, and writes the
/// tree of why none does, or why none takes less than the fastest that it met. `best` is the fastest order so far. What the finder knows of
/// the block is so in the orders below the limit; it stays so when a faster order is met.
///
/// A child of a split costs a push, an undo, a few looks for each word of its clock that is late, and at most 64 comparisons with others
/// of the same numbers; for each word that is later in one of them, once a look at each instruction that remains and waits for it. A
/// prefix whose turn comes costs these comparisons again, and for each kind of unit a few looks at each instruction that remains, and one
/// more for each minor cycle at which another one may begin. To write it costs a push and an undo once more, and if it is closed by a path
/// a look at each number that remains, by a load those for each kind.
///
/// # Errors
///
/// `AllocError` if memory runs out.
pub fn branch(
    alloc: Global,
    block: &Block<'_>,
    profile: &Profile,
    finder: &Finder,
    best: Timed,
    limits: Limits,
) -> Result<Branched, AllocError>
    requires { best.problem ≡ record { block = instrs_of block.now; profile = profile.now } }
    ensures problem { IfOk result (λ branched. branched.best.problem ≡ best.problem) }
    ensures total { IfOk result (λ branched. total_of branched.best.problem branched.best.numbers ≤
        total_of best.problem best.numbers) }
    ensures splits { IfOk result (λ branched. branched.splits ≤ limits.splits) }
{
    let instructions = Instructions::new(finder);
    let tails = finder.tails();
    let mut search = Search {
        trail: Trail::new(PathWalk::new(block, profile, &tails)),
        loads: Loads::of(alloc, &instructions, &tails)?,
        instructions,
        nodes: Nodes::new(alloc)?,
        open: Open::new(alloc),
        transpositions: Transpositions::new(alloc, profile),
        splits: 0,
        most: limits.splits,
        low: limits.below.min(best.total()),
        enough: limits.enough,
        best,
    };
    search.open_root()?;
    let bound = search.run()?;
    let shows_more = limits.enough < bound && !search.has_enough();
    let Search {
        mut trail,
        instructions,
        loads,
        nodes,
        open,
        transpositions,
        splits,
        best,
        ..
    } = search;
    // a tree needs as much room as these
    drop(open);
    drop(transpositions);
    if !shows_more {
        return Ok(Branched {
            best,
            splits,
            bound,
            tree: None,
        });
    }
    let leaves = Leaves {
        instructions: &instructions,
        loads,
        low: bound,
    };
    let tree = written(alloc, &mut trail, &nodes, leaves, limits.first_line)?;
    Ok(Branched {
        best,
        splits,
        bound,
        tree,
    })
}
