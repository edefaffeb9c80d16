//! Which pairs are forced in all orders that take less than a bound: immediate selection.
//!
//! If n stood before m, the longest path to n, what m then waits for n, and the longest path from m to the end would take the bound; so
//! m stands before n in all faster orders (J. Carlier and E. Pinson, An algorithm for solving the job-shop problem, Management Science
//! 35, 1989). Here that is tried for parcels, which all instructions share, and for a kind with one unit.

use crate::facts::ground::Ground;
use crate::facts::network::{Network, Paths};
use crate::facts::nodes::{free, issue, time_at};
use crate::facts::precedence::{Precedence, set_of, turned};
use s66_isa::{BLOCK_LIMIT, Set, is_same_kind};

/// The numbers that have to stand after each, and before each; what is of n is at n - 1.
#[derive(Drop)]
pub(crate) struct Forced {
    after: [Set; BLOCK_LIMIT],
    before: [Set; BLOCK_LIMIT],
}

/// What pairs are forced by.
#[derive(Drop)]
struct Looks<'a> {
    ground: &'a Ground,
    known: &'a Precedence,
    paths: Paths,
    bound: u32,
}

/// How long two paths take, one after the other; 0 if there is none.
fn along(head: Option<u32>, wait: u32, tail: Option<u32>) -> u32 {
    match (head, tail) {
        (Some(head), Some(tail)) => head.saturating_add(wait).saturating_add(tail),
        _ => 0,
    }
}

/// How long the longest path from n to m is if n stands before m: by parcels, or by the only unit of their kind.
pub(crate) fn longest_with(ground: &Ground, paths: &Paths, n: u8, m: u8) -> u32 {
    let (Some(row), Some(other)) = (ground.row(n), ground.row(m)) else {
        return 0;
    };
    let tail = time_at(&paths.tails, issue(m));
    let by_parcels = along(time_at(&paths.heads, issue(n)), row.parcels, tail);
    if is_same_kind(row.kind, other.kind) && ground.copies(row.kind) == 1 {
        by_parcels.max(along(time_at(&paths.heads, free(n)), 0, tail))
    } else {
        by_parcels
    }
}

/// Whether m would come too late for a bound if n stood before it: by parcels, or by the only unit of their kind.
pub(crate) fn is_late(ground: &Ground, paths: &Paths, bound: u32, m: u8, n: u8) -> bool {
    bound <= longest_with(ground, paths, n, m)
}

impl<'a> Looks<'a> {
    /// Whether m would come too late if n stood before it.
    fn is_late(&self, m: u8, n: u8) -> bool {
        is_late(self.ground, &self.paths, self.bound, m, n)
    }

    /// The numbers that stand after m, or have to.
    fn after(&self, m: u8) -> Set {
        let known = self.known;
        let mut those = known.after(m);
        let mut open = known.all().without(&those).without(&known.before(m));
        while let Some(n) = open.pop_first() {
            if n != m && self.is_late(m, n) {
                those = those.with(n);
            }
        }
        those
    }

    /// The same of each number.
    fn after_each(&self) -> [Set; BLOCK_LIMIT] {
        let mut after = [Set::empty(); BLOCK_LIMIT];
        let mut rest = self.known.all();
        while let Some(m) = rest.pop_first() {
            after[m as usize - 1] = self.after(m);
        }
        after
    }
}

impl Forced {
    /// By what is known, for a bound.
    pub(crate) fn of(ground: &Ground, known: &Precedence, network: &Network, bound: u32) -> Forced {
        let looks = Looks {
            ground,
            known,
            paths: network.paths(),
            bound,
        };
        let after = looks.after_each();
        Forced {
            after,
            before: turned(&after),
        }
    }

    /// Two numbers of which each has to stand before the other, if there are such.
    pub(crate) fn ring(&self) -> Option<(u8, u8)> {
        for position in 0..BLOCK_LIMIT {
            let mut both = self.after[position].both(&self.before[position]);
            if let Some(n) = both.pop_first() {
                return Some(((position + 1) as u8, n));
            }
        }
        None
    }

    /// The numbers that have to stand after m, which isn't known.
    pub(crate) fn after(&self, known: &Precedence, m: u8) -> Set {
        set_of(&self.after, m).without(&known.after(m))
    }

    /// Those of them that don't follow from what others have to.
    pub(crate) fn right_after(&self, known: &Precedence, m: u8) -> Set {
        let mut those = Set::empty();
        let all = set_of(&self.after, m);
        let mut new = self.after(known, m);
        while let Some(n) = new.pop_first() {
            if all.both(&set_of(&self.before, n)).count() == 0 {
                those = those.with(n);
            }
        }
        those
    }
}
