//! How late another prefix may leave what the instructions that remain look at.
//!
//! One prefix dominates another of the same numbers if it leaves nothing later; but a word may be later as long as no instruction that
//! remains looks at it so soon. How soon each can look is worked out only where a word is later (`remaining.rt`). It is dominance in
//! use, which the checker tests anew.

ghost use Rattle.std.specs.Prelude.{◌+◌, ◌<◌, ◌≤◌};
ghost use Rattle.s66_deep.specs.{LANES, WORD_COUNT};

use crate::best_first::remaining::Remaining;
use crate::best_first::waits::{WORD_COUNT, Waits, all_free_at, one_free_at, word};
use s66_isa::{KINDS, Profile};
use s66_time::Clock;

/// How many words are compared at once.
const LANES: usize = 8;

/// How often that is.
const GROUPS: usize = WORD_COUNT / LANES;

// each word has a bit, and is in one group
const _: () = prove!(WORD_COUNT == u64::BITS as usize);

/// How late the words of another prefix with the same numbers may be for it to dominate one. A word may be as late as that of this
/// prefix, or as the soonest moment at which an instruction that remains looks at it. That moment is worked out once a later word comes;
/// until then the next slot stands for it, which is no later.
#[derive(Clone, Copy)]
pub(crate) struct Allowed {
    words: [u16; WORD_COUNT],
    /// The bit of a place is set if the soonest look at its word is worked out.
    settled: u64,
}

/// The words of a prefix, those of units no later than they are for certain.
fn least_words(waits: &Waits, profile: &Profile) -> [u16; WORD_COUNT] {
    let mut words = waits.words;
    for kind in KINDS {
        // of one unit and of two, the word of all is exact
        if 2 < profile.copies(kind) {
            words[all_free_at(kind)] = words[one_free_at(kind)];
        }
    }
    words
}

/// Whether none of the words at `LANES` places is later than what is allowed. No branch depends on a word, so that the compiler compares
/// them all at once.
fn are_lanes_allowed(words: &[u16; WORD_COUNT], allowed: &[u16; WORD_COUNT], first: usize) -> bool
    requires { first + LANES ≤ WORD_COUNT }
{
    let mut all = true;
    for lane in 0..LANES {
        all &= words[first + lane] <= allowed[first + lane];
    }
    all
}

impl Allowed {
    ghost use Rattle.std.specs.Prelude.{◌+◌, ◌<◌, ◌≤◌};
    ghost use Rattle.s66_deep.specs.{LANES, WORD_COUNT};

    /// By the words of a prefix, which has this clock.
    pub(crate) fn of(waits: &Waits, clock: &Clock<'_>) -> Allowed {
        let mut words = least_words(waits, clock.profile());
        let slot = word(clock.next());
        for place in 0..WORD_COUNT {
            words[place] = words[place].max(slot);
        }
        Allowed { words, settled: 0 }
    }

    /// Whether the word at a place may be so late, which is later than is known to be allowed.
    fn allow_late(&mut self, remaining: &Remaining<'_, '_>, place: usize, late: u16) -> bool
        requires { place < WORD_COUNT }
    {
        let bit = 1u64 << place;
        if self.settled & bit != 0 {
            return false;
        }
        self.settled |= bit;
        let look = word(remaining.soonest_look(place));
        self.words[place] = self.words[place].max(look);
        late <= self.words[place]
    }

    /// Whether no word of a group from a place on is too late.
    fn allow_group(&mut self, remaining: &Remaining<'_, '_>, waits: &Waits, first: usize) -> bool
        requires { first + LANES ≤ WORD_COUNT }
    {
        if are_lanes_allowed(&waits.words, &self.words, first) {
            return true;
        }
        for place in first..first + LANES {
            let late = waits.words[place];
            if late > self.words[place] && !self.allow_late(remaining, place, late) {
                return false;
            }
        }
        true
    }

    /// Whether no word of another prefix is too late for what remains.
    pub(crate) fn allow(&mut self, remaining: &Remaining<'_, '_>, waits: &Waits) -> bool {
        for group in 0..GROUPS {
            if !self.allow_group(remaining, waits, group * LANES) {
                return false;
            }
        }
        true
    }
}
