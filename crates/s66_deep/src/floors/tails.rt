//! What follows the stages of an instruction: by how much the end comes later than each.

ghost use Rattle.std.specs.Prelude.{◌≤◌};
ghost use Rattle.s66_deep.specs.{TAIL_LIMIT, IsSmall, AreSmall};

use crate::limits::TAIL_LIMIT;
use s66_isa::BLOCK_LIMIT;

/// What follows the stages of an instruction: by how many minor cycles the end comes later at least than each.
#[derive(Clone, Copy, Default)]
pub struct Tails {
    /// After it issues.
    pub issue: u32,
    /// After it starts.
    pub start: u32,
    /// After its first result is done.
    pub first: u32,
    /// After its second result is done.
    pub second: u32,
    /// After its unit is free.
    pub free: u32,
}

/// What the words of a clock are waited for with: an issue, a start, and the two results.
#[derive(Clone, Copy)]
pub(crate) enum Stage {
    Issue,
    Start,
    First,
    Second,
}

impl Tails {
    /// What follows a stage.
    pub(crate) fn after(&self, stage: Stage) -> u32
        requires { IsSmall self.now }
        ensures { result ≤ TAIL_LIMIT }
    {
        match stage {
            Stage::Issue => self.issue,
            Stage::Start => self.start,
            Stage::First => self.first,
            Stage::Second => self.second,
        }
    }

    /// The same, cut where it is more than the limit, or more than what follows the issue, as it is in no network.
    fn cut(&self) -> Tails
        ensures { IsSmall result }
    {
        let issue = self.issue.min(TAIL_LIMIT);
        Tails {
            issue,
            start: self.start.min(issue),
            first: self.first.min(issue),
            second: self.second.min(issue),
            free: self.free,
        }
    }
}

/// What follows the stages of all numbers, each cut.
pub(crate) fn cut_all(tails: &[Tails; BLOCK_LIMIT]) -> [Tails; BLOCK_LIMIT]
    ensures { AreSmall result }
{
    let mut those = [Tails::default(); BLOCK_LIMIT];
    for place in 0..BLOCK_LIMIT {
        those[place] = tails[place].cut();
    }
    those
}
