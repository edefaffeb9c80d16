//! The load line that says most between two places, by energetic reasoning: what units of a kind have to do there takes so long at
//! least.
//!
//! Of the instructions of a kind between two places some are chosen: those whose use begins so late after the first, and after which so
//! much is left before the last. How late, the time that units need for their work, and what is left add up to how much later the last
//! place comes. The best of all such choices is found in time quadratic in their number (energetic reasoning: J. Erschler and P. Lopez;
//! P. Baptiste, C. Le Pape and W. Nuijten, Constraint-Based Scheduling, 2001).

use crate::facts::load::{Best, Load, Reach, Way};
use crate::facts::shares::Shares;
use crate::facts::sort::sort;
use crate::facts::spans::{at_issue, at_start};
use crate::limits::WAIT_LIMIT;
use crate::work::Work;
use s66_isa::{BLOCK_LIMIT, Set};
use std::alloc::{AllocError, Global};

/// When an instruction begins its use at the latest, as far as paths show, and how long it has its unit.
#[derive(Clone, Copy)]
struct Latest {
    head: u32,
    amount: u32,
}

/// How long so many units have work at most by those that begin so late.
fn longest_after(latest: &[Latest], copies: u32, after: u32) -> u32 {
    let mut work = Work::default();
    for one in latest {
        if one.head >= after {
            work = work.with(one.amount);
        }
    }
    work.longest_time(copies)
}

/// Whether a head is one of these.
fn has_head(heads: &[u32], head: u32) -> bool {
    for one in heads {
        if *one == head {
            return true;
        }
    }
    false
}

/// The best of those that begin so late, or what was better. The ways are sorted, and the uses of those that begin so late take no longer
/// than this.
fn best_after(ways: &[Way], copies: u32, longest: u32, after: u32, best: Best) -> Best {
    let mut best = best;
    let mut seen = Set::empty();
    let mut work = Work::default();
    for way in ways {
        // those that follow have no more left
        if (after as i64 + longest as i64).saturating_add(way.left) <= best.wait {
            return best;
        }
        let n = way.number;
        if way.head >= after && !seen.has(n) && n >= 1 && n as usize <= BLOCK_LIMIT {
            seen = seen.with(n);
            work = work.with(way.amount);
            let room = best
                .wait
                .saturating_sub(way.left)
                .saturating_sub(after as i64);
            if work.takes_longer(copies, room) {
                best = Best {
                    after,
                    left: way.left,
                    wait: (after as i64 + work.time(copies) as i64).saturating_add(way.left),
                };
            }
        }
    }
    best
}

/// The ways of a load. The room is kept from one load to the next.
#[derive(Drop)]
pub(crate) struct Ways {
    shares: Shares,
    ways: Vec<Way>,
    /// The last way of each number.
    latest: Vec<Latest>,
    /// The heads after which the best was sought.
    heads: Vec<u32>,
}

impl Ways {
    /// With no room.
    pub(crate) fn new(alloc: Global) -> Ways {
        Ways {
            shares: Shares::new(alloc),
            ways: Vec::new(alloc),
            latest: Vec::new(alloc),
            heads: Vec::new(alloc),
        }
    }

    /// Adds a way, if there is one.
    fn add(&mut self, way: Option<Way>) -> Result<(), AllocError> {
        if let Some(way) = way {
            self.ways.push(way)?;
        }
        Ok(())
    }

    /// Adds the ways of an instruction of a load: its use begins at its issue or at its start, which comes later.
    fn add_both<R: Reach>(&mut self, load: &Load<R>, n: u8) -> Result<(), AllocError> {
        let (issue, start) = (load.way(n, at_issue(n)), load.way(n, at_start(n)));
        if let Some(way) = start.or(issue) {
            self.latest.push(Latest {
                head: way.head,
                amount: way.amount,
            })?;
        }
        self.add(issue)?;
        self.add(start)
    }

    /// Finds those of a load, sorted by what is left, the most first.
    fn find<R: Reach>(&mut self, load: &Load<R>) -> Result<(), AllocError> {
        self.ways.clear();
        self.latest.clear();
        let mut rest = load.numbers;
        while let Some(n) = rest.pop_first() {
            self.add_both(load, n)?;
        }
        sort(self.ways.as_mut_slice(), |way| way.left);
        Ok(())
    }

    /// What says most of a load, and more than a wait, if something does. It takes time quadratic in how many numbers there are.
    ///
    /// `Err` is out of memory.
    pub(crate) fn best<R: Reach>(
        &mut self,
        load: &Load<R>,
        wait: u32,
    ) -> Result<Option<Best>, AllocError> {
        self.shares.find(load)?;
        if !self.shares.may_pass(load.copies, wait) {
            return Ok(None);
        }
        self.find(load)?;
        self.heads.clear();
        let (ways, latest) = (self.ways.as_slice(), self.latest.as_slice());
        let mut best = Best {
            after: 0,
            left: 0,
            wait: wait as i64,
        };
        for way in ways {
            let after = way.head;
            if after <= WAIT_LIMIT && !has_head(self.heads.as_slice(), after) {
                self.heads.push(after)?;
                let longest = longest_after(latest, load.copies, after);
                best = best_after(ways, load.copies, longest, after, best);
            }
        }
        if best.wait > wait as i64 {
            Ok(Some(best))
        } else {
            Ok(None)
        }
    }
}
