//! A word for each functional unit, when it is free; and the unit of a kind that is free soonest.

ghost use Rattle.std.specs.Prelude.{ℕ, ◌≡◌, ◌+◌, ◌-◌, ◌*◌, ◌<◌, ◌≤◌, length, get_or, replicate};
ghost use Rattle.s66_isa.specs.{greatest, weigh, copies_of, Kind as KindOf};
ghost use Rattle.s66_time.specs.{COPIES_LIMIT, TOTAL_LIMIT, UNIT_LIMIT, first_unit, units_of};

use crate::limits::{COPIES_LIMIT, UNIT_LIMIT};
use s66_isa::{KINDS, Kind, Profile, kind_number};

/// A word for each unit: when it is free. Those of a kind are together, from a multiple of `COPIES_LIMIT` on.
#[derive(Drop)]
pub(crate) struct UnitWords {
    pub(crate) words: [u32; UNIT_LIMIT],
}

/// The place of the first unit of a kind.
pub(crate) fn first_unit(kind: Kind) -> usize
    ensures value { result ≡ first_unit kind }
    ensures within { result + COPIES_LIMIT ≤ UNIT_LIMIT }
{
    kind_number(kind) * COPIES_LIMIT
}

impl UnitWords {
    /// All words are 0.
    pub(crate) fn new() -> UnitWords
        ensures { result.words ≡ replicate UNIT_LIMIT 0 }
    {
        UnitWords {
            words: [0; UNIT_LIMIT],
        }
    }

    /// The words of a kind's `copies` units are 0 from now on; no word that was 0 changes.
    fn clear(&mut self, copies: u32, kind: Kind)
        requires { copies ≤ COPIES_LIMIT }
        ensures own { (i : ℕ) → i < copies → get_or self.new.words (first_unit kind + i) 0 ≡ 0 }
        ensures others { (j : ℕ) → get_or self.old.words j 0 ≡ 0 → get_or self.new.words j 0 ≡ 0 }
        ensures size { length self.new.words ≡ length self.old.words }
    {
        let first = first_unit(kind);
        for copy in 0..copies as usize {
            self.words[first + copy] = 0;
        }
    }

    /// The words of all units that a profile has are 0 from now on.
    pub(crate) fn clear_all(&mut self, profile: &Profile)
        ensures zeros { (kind : KindOf) (i : ℕ) → i < copies_of profile.now kind →
            get_or self.new.words (first_unit kind + i) 0 ≡ 0 }
        ensures size { length self.new.words ≡ length self.old.words }
    {
        for kind in KINDS {
            self.clear(profile.copies(kind), kind);
        }
    }

    /// The place of a unit of the kind that no other is free before, if there are `copies` of them.
    pub(crate) fn soonest(&self, copies: u32, kind: Kind) -> usize
        requires { (1 ≤ copies) × (copies ≤ COPIES_LIMIT) }
        ensures within { result < UNIT_LIMIT }
        ensures own { first_unit kind ≤ result }
        ensures copy { result - first_unit kind < copies }
        ensures least { (i : ℕ) →
            i < copies → get_or self.now.words result 0 ≤ get_or self.now.words (first_unit kind + i) 0 }
    {
        let first = first_unit(kind);
        let copies = copies as usize;
        let mut soonest = first;
        for copy in 1..copies {
            if self.words[first + copy] < self.words[soonest] {
                soonest = first + copy;
            }
        }
        soonest
    }

    /// When the first unit of a kind is free.
    pub(crate) fn first(&self, kind: Kind) -> u32
        ensures { result ≡ get_or self.now.words (first_unit kind) 0 }
    {
        self.words[first_unit(kind)]
    }

    /// How long the units of a kind are still to work after a time, all together.
    pub(crate) fn rest(&self, profile: &Profile, kind: Kind, time: u32) -> u32
        requires { greatest (λ (w : ℕ). w) (units_of profile.now kind self.now.words) ≤ TOTAL_LIMIT }
        ensures value { result ≡ weigh (λ w. w - time) (units_of profile.now kind self.now.words) }
        ensures at_most { result ≤ COPIES_LIMIT * TOTAL_LIMIT }
    {
        let first = first_unit(kind);
        let copies = profile.copies(kind) as usize;
        // most kinds have one unit: the first comes before the loop, so that one needs none
        let mut rest = self.words[first].saturating_sub(time);
        for copy in 1..copies {
            rest += self.words[first + copy].saturating_sub(time);
        }
        rest
    }
}
