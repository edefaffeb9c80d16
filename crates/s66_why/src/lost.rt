//! The sums of how long instructions were kept back, by the order of conflict.

ghost use Rattle.std.specs.Prelude.{ℕ, ◌≡◌, ◌≤◌, ◌+◌, ◌^◌, [], ◌∷◌, length};
ghost use Rattle.s66_why.specs.{lost, sum_of, AreAtMost, Conflict as ConflictOf};

use crate::stretch::{Conflict, Stretch};

/// How many minor cycles the stretches of each conflict are long, in sum.
#[derive(Clone, Copy, Drop)]
pub struct Lost {
    pub first: usize,
    pub second: usize,
    pub third: usize,
}

impl Lost {
    /// Of no stretch.
    pub fn none() -> Lost
        ensures { result ≡ record { first = 0; second = 0; third = 0 } }
    {
        Lost {
            first: 0,
            second: 0,
            third: 0,
        }
    }

    /// Counts a stretch too.
    fn add(&mut self, stretch: &Stretch)
        requires { AreAtMost (2 ^ 63) self.old }
        ensures sums { (conflict : ConflictOf) → sum_of self.new conflict ≡
            sum_of self.old conflict + lost conflict (stretch.now ∷ []) }
        ensures at_most { (n : ℕ) → AreAtMost n self.old → AreAtMost (n + 2 ^ 32) self.new }
    {
        let cycles = stretch.to.saturating_sub(stretch.from) as usize;
        match stretch.conflict {
            Conflict::First => self.first += cycles,
            Conflict::Second => self.second += cycles,
            Conflict::Third => self.third += cycles,
        }
    }

    /// Counts the stretches of an instruction too.
    pub fn add_all(&mut self, stretches: &[Stretch])
        requires few { length stretches.now ≤ 4 }
        requires at_most { AreAtMost (2 ^ 62) self.old }
        ensures sums { (conflict : ConflictOf) → sum_of self.new conflict ≡
            sum_of self.old conflict + lost conflict stretches.now }
        ensures at_most { (n : ℕ) → AreAtMost n self.old → AreAtMost (n + 2 ^ 34) self.new }
    {
        for stretch in stretches {
            self.add(stretch);
        }
    }
}
