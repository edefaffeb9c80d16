//! Of two beginnings of the same numbers, which one dominates: every word of its mark is no later, so that each completion of it is
//! done no later.

ghost use Rattle.std.specs.Prelude.{ℕ, ◌≡◌, ◌↔◌, List, IsTrue};
ghost use Rattle.s66_model.specs.{Problem, points_of, next, total_of, IsSameSet, IsNoLater, no_clamp, clamp_at, Dominates, DominatesClamped};
ghost use Rattle.s66_time.specs.{IsMarkOf};

use crate::limits::{READERS_AT, REFERENCES_AT};
use crate::mark::Mark;

impl Mark {
    /// The minor cycle in which all units are free and all results done; 0 of no instruction.
    pub fn total(&self) -> u32
        ensures { (b : Problem) (numbers : List ℕ) → IsMarkOf b numbers self.now → result ≡ total_of b numbers }
    {
        u32::from(self.total)
    }

    /// Whether nothing is later than the other's, or than the clamp: one for the words of readers, and one for all others.
    fn is_within(&self, other: &Mark, readers: u16, others: u16) -> bool
        ensures { (b : Problem) (numbers_of_self numbers : List ℕ) → IsMarkOf b numbers_of_self self.now →
            IsMarkOf b numbers other.now →
            IsTrue result ↔ IsNoLater b (record { readers = readers; others = others }) (points_of b numbers_of_self)
            (points_of b numbers) }
    {
        if self.next > other.next {
            return false;
        }
        if self.place != other.place {
            return false;
        }
        if !self.words.are_no_later(&other.words, 0, READERS_AT, others) {
            return false;
        }
        // the words of readers seldom decide, so they come last
        let count = self.count as usize;
        if !self
            .words
            .are_no_later(&other.words, REFERENCES_AT, count, others)
        {
            return false;
        }
        self.words
            .are_no_later(&other.words, READERS_AT, REFERENCES_AT, readers)
    }
}

/// Whether the first beginning dominates the second, of the same numbers: whatever completes the second then completes the
/// first, and takes no more. The totals aren't compared, since that of the first is no greater if nothing else of it is later.
pub fn dominates(other: &Mark, prefix: &Mark) -> bool
    ensures no_later { (b : Problem) (numbers_of_other numbers : List ℕ) → IsMarkOf b numbers_of_other other.now →
        IsMarkOf b numbers prefix.now →
        IsTrue result ↔ IsNoLater b no_clamp (points_of b numbers_of_other) (points_of b numbers) }
    ensures dominates { (b : Problem) (numbers_of_other numbers : List ℕ) → IsMarkOf b numbers_of_other other.now →
        IsMarkOf b numbers prefix.now → IsSameSet numbers_of_other numbers →
        IsTrue result ↔ Dominates b numbers_of_other numbers }
{
    other.is_within(prefix, 0, 0)
}

/// The same, if what is past by the second's next slot doesn't count. That the total is no greater follows here too.
pub fn dominates_clamped(other: &Mark, prefix: &Mark) -> bool
    ensures no_later { (b : Problem) (numbers_of_other numbers : List ℕ) →
        IsMarkOf b numbers_of_other other.now → IsMarkOf b numbers prefix.now → IsTrue result ↔
        IsNoLater b (clamp_at (next (points_of b numbers))) (points_of b numbers_of_other) (points_of b numbers) }
    ensures dominates { (b : Problem) (numbers_of_other numbers : List ℕ) → IsMarkOf b numbers_of_other other.now →
        IsMarkOf b numbers prefix.now → IsSameSet numbers_of_other numbers →
        IsTrue result ↔ DominatesClamped b numbers_of_other numbers }
{
    let now = prefix.next;
    other.is_within(prefix, now.saturating_add(1), now)
}
