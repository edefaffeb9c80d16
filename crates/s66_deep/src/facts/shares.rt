//! Whether a load may say more than a wait: a quick look, which few loads pass.
//! An upper bound of what the load line can say tells whether `ways.rt` is worth its time.

use crate::facts::load::{Load, Reach};
use crate::facts::sort::sort;
use crate::facts::spans::{at_issue, at_start};
use crate::work::Work;
use std::alloc::{AllocError, Global};

/// What an instruction may add to a load.
#[derive(Clone, Copy)]
struct Share {
    /// How long it has its unit.
    amount: u32,
    /// How much later than the first place its use begins at most, as far as paths show: at its start.
    head: u32,
    /// How much earlier than the last place it begins at most: at its issue.
    tail: u32,
}

impl Share {
    /// How much is left after its use at most.
    fn left(&self) -> i64 {
        self.tail as i64 - self.amount as i64
    }

    /// What lies between the two places beside its use at most.
    fn beside(&self) -> i64 {
        self.head as i64 + self.tail as i64 - self.amount as i64
    }
}

/// How long so many units have work by those of these at most that begin so late.
fn longest_after(shares: &[Share], copies: u32, after: u32) -> u32 {
    let mut work = Work::default();
    for share in shares {
        if share.head >= after {
            work = work.with(share.amount);
        }
    }
    work.longest_time(copies)
}

/// Whether some of these that begin so late may say more than a wait. They are sorted.
fn pass_after(shares: &[Share], copies: u32, after: u32, wait: u32) -> bool {
    let longest = longest_after(shares, copies, after);
    let mut work = Work::default();
    for share in shares {
        let room = wait as i64 - after as i64 - share.tail as i64 + share.amount as i64;
        // after those that follow no more is left
        if longest as i64 <= room {
            return false;
        }
        if share.head >= after {
            work = work.with(share.amount);
            if work.may_take_longer(copies, room) {
                return true;
            }
        }
    }
    false
}

/// What the instructions of a load may add. The room is kept from one load to the next.
#[derive(Drop)]
pub(crate) struct Shares {
    shares: Vec<Share>,
}

impl Shares {
    /// With no room.
    pub(crate) fn new(alloc: Global) -> Shares {
        Shares {
            shares: Vec::new(alloc),
        }
    }

    /// Finds those of a load.
    pub(crate) fn find<R: Reach>(&mut self, load: &Load<R>) -> Result<(), AllocError> {
        self.shares.clear();
        let mut rest = load.numbers;
        while let Some(n) = rest.pop_first() {
            self.shares.push(Share {
                amount: load.ground.amount(n),
                head: load.reach.head(at_start(n)).unwrap_or(0),
                tail: load.reach.tail(at_issue(n)).unwrap_or(0),
            })?;
        }
        Ok(())
    }

    /// How long so many units have work by any of them at most.
    pub(crate) fn longest_time(&self, copies: u32) -> u32 {
        longest_after(self.shares.as_slice(), copies, 0)
    }

    /// Leaves out those that are in no load which says more than a wait. All uses of such a load lie between the two places, with what
    /// lies beside any one of them.
    fn leave_out(&mut self, copies: u32, wait: u32) {
        // less time is taken by the others, so that more may be left out then
        for _ in 0..self.shares.len() {
            let count = self.shares.len();
            let least = wait as i64 - self.longest_time(copies) as i64;
            self.shares.retain(|share| share.beside() > least);
            if self.shares.len() == count {
                return;
            }
        }
    }

    /// Whether some of them may say more than a wait; those are left out that can't. It takes time quadratic in how many there are.
    pub(crate) fn may_pass(&mut self, copies: u32, wait: u32) -> bool {
        self.leave_out(copies, wait);
        // as many as there are units say no more than a path
        if self.shares.len() <= copies as usize {
            return false;
        }
        sort(self.shares.as_mut_slice(), |share| share.left());
        let shares = self.shares.as_slice();
        for share in shares {
            if pass_after(shares, copies, share.head, wait) {
                return true;
            }
        }
        false
    }
}
