//! What units of one kind have to do.
//! Kept are the sum, the least and the greatest of what some instructions need, by which so many units take at least so long.

/// How long some instructions have units of one kind, in minor cycles.
#[derive(Clone, Copy, Default)]
pub(crate) struct Work {
    count: u32,
    sum: u32,
    least: u32,
    greatest: u32,
}

/// What one of so many units has of this at least.
fn over(work: u32, copies: u32) -> u32 {
    match copies {
        0 | 1 => work,
        _ => work.saturating_add(copies - 1) / copies,
    }
}

/// Whether so many units take no longer than this for work of such a sum, even if the last turn is of one instruction, for so long.
fn are_far(sum: i64, last: u32, copies: u32, than: i64) -> bool {
    let units = copies.max(1) as i64;
    let idle = (units - 1).saturating_mul(last as i64);
    sum.saturating_add(idle) <= units.saturating_mul(than)
}

impl Work {
    /// The same with one more.
    pub(crate) fn with(&self, amount: u32) -> Work {
        Work {
            count: self.count.saturating_add(1),
            sum: self.sum.saturating_add(amount),
            least: match self.count {
                0 => amount,
                _ => self.least.min(amount),
            },
            greatest: self.greatest.max(amount),
        }
    }

    /// How long so many units have work by all of them at least, if each is one unit's.
    pub(crate) fn time(&self, copies: u32) -> u32 {
        over(self.sum, copies).max(over(self.count, copies).saturating_mul(self.least))
    }

    /// No less than they have by any of them.
    pub(crate) fn longest_time(&self, copies: u32) -> u32 {
        over(self.sum, copies).max(over(self.count, copies).saturating_mul(self.greatest))
    }

    /// Whether `time` is more than this. Mostly it is far from that, which shows without a division.
    pub(crate) fn takes_longer(&self, copies: u32, than: i64) -> bool {
        !are_far(self.sum as i64, self.least, copies, than) && self.time(copies) as i64 > than
    }

    /// Whether `longest_time` is more than this. Mostly it is far from that, which shows without a division.
    pub(crate) fn may_take_longer(&self, copies: u32, than: i64) -> bool {
        let most = (self.count as i64).saturating_mul(self.greatest as i64);
        !are_far(most, self.greatest, copies, than) && self.longest_time(copies) as i64 > than
    }
}
