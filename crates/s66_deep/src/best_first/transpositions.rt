//! The transposition table: the prefixes that were met and may dominate others, to be found by the sets of their numbers.
//! A prefix is compared with those of the same set.

ghost use Rattle.std.specs.Prelude.{◌≤◌, length};
ghost use Rattle.s66_deep.specs.{TRANSPOSITIONS_LIMIT};

use crate::best_first::allowed::Allowed;
use crate::best_first::nodes::Nodes;
use crate::best_first::remaining::Remaining;
use crate::best_first::waits::Waits;
use crate::limits::{LOOK_LIMIT, TRANSPOSITIONS_LIMIT};
use s66_isa::{KINDS, Profile, Set};
use s66_time::{Clock, Mark, dominates_clamped};
use std::alloc::{AllocError, Global};

/// In place of a place: there is none.
const NONE: u32 = u32::MAX;

/// How many lists there are at first.
const FIRST_LISTS: usize = 64;

/// What is compared of two prefixes before their words.
#[derive(Clone, Copy)]
pub(crate) struct Key {
    /// The set of its numbers.
    pub(crate) pushed: Set,
    /// The index of its node.
    pub(crate) node: u32,
    /// The next slot, in minor cycles.
    pub(crate) slot: u32,
    /// The place in its word of the next parcel.
    pub(crate) place: u8,
    /// When all units are free and all results done, in minor cycles.
    pub(crate) total: u32,
}

/// A prefix in the table: its key, and the place of the next one in its list.
#[derive(Clone, Copy)]
struct StoredPrefix {
    key: Key,
    next: u32,
}

/// A prefix with what is compared when the table is asked for one that dominates it.
#[derive(Clone, Copy)]
pub(crate) struct Probe {
    pub(crate) key: Key,
    /// What each completion of it takes at least, in minor cycles.
    pub(crate) floor: u32,
    pub(crate) waits: Waits,
}

/// Prefixes, each in the list of the hash of its set: some 170 bytes each, and some 380 more with its mark. At most 262,144 are
/// stored.
///
/// Nothing is promised of what is in which list: who looks for a set compares it with that of each entry.
#[derive(Drop)]
pub(crate) struct Transpositions {
    entries: Vec<StoredPrefix>,
    waits: Vec<Waits>,
    /// Whether a kind has more than two units, of which the words don't tell all: then marks are kept too.
    has_marks: bool,
    marks: Vec<Mark>,
    /// The place of the first entry of each list.
    firsts: Vec<u32>,
}

/// The list of a set, of so many.
fn list_of(pushed: &Set, lists: usize) -> usize {
    // the high bits of a hash differ most
    ((pushed.hash() >> 32).wrapping_mul(lists as u64) >> 32) as usize
}

/// Puts the entry of a place first in its list.
fn put(entry: &mut StoredPrefix, firsts: &mut [u32], place: u32) {
    let list = list_of(&entry.key.pushed, firsts.len());
    if list < firsts.len() {
        entry.next = firsts[list];
        firsts[list] = place;
    }
}

/// Puts each entry into its list; all lists are empty before.
fn put_all(entries: &mut [StoredPrefix], firsts: &mut [u32])
    requires { length entries.old ≤ TRANSPOSITIONS_LIMIT }
{
    for place in 0..entries.len() {
        put(&mut entries[place], firsts, place as u32);
    }
}

/// Whether a kind has more than two units.
fn has_many_units(profile: &Profile) -> bool {
    for kind in KINDS {
        if profile.copies(kind) > 2 {
            return true;
        }
    }
    false
}

impl Key {
    /// Whether this prefix may dominate another one, by all but the words. A total up to the other's floor makes no difference, since no
    /// completion of the other takes less.
    fn may_dominate(&self, other: &Probe) -> bool {
        self.pushed == other.key.pushed
            && self.node != other.key.node
            && self.slot <= other.key.slot
            && self.place == other.key.place
            && self.total <= other.key.total.max(other.floor)
    }
}

impl Transpositions {
    ghost use Rattle.std.specs.Prelude.{◌≤◌, length};
    ghost use Rattle.s66_deep.specs.{TRANSPOSITIONS_LIMIT};

    /// No prefix under a profile.
    pub(crate) fn new(alloc: Global, profile: &Profile) -> Transpositions {
        Transpositions {
            entries: Vec::new(alloc),
            waits: Vec::new(alloc),
            has_marks: has_many_units(profile),
            marks: Vec::new(alloc),
            firsts: Vec::new(alloc),
        }
    }

    /// The place of the first entry in the list of a set.
    fn first(&self, pushed: &Set) -> u32 {
        let list = list_of(pushed, self.firsts.len());
        if list < self.firsts.len() {
            self.firsts[list]
        } else {
            NONE
        }
    }

    /// Whether the words of the prefix at a place are allowed.
    fn are_allowed(
        &self,
        place: usize,
        allowed: &mut Allowed,
        remaining: &Remaining<'_, '_>,
    ) -> bool {
        match self.waits.get(place) {
            Some(waits) => allowed.allow(remaining, waits),
            None => false,
        }
    }

    /// Whether the prefix at a place has a mark that dominates that of a clock.
    fn is_marked_ahead(&self, place: usize, clock: &Clock<'_>) -> bool {
        match self.marks.get(place) {
            Some(mark) => dominates_clamped(mark, &clock.mark()),
            None => false,
        }
    }

    /// The node of another prefix with the same numbers that dominates this one and is dominated by none, if one of the first 64 of its
    /// list does.
    pub(crate) fn find(
        &self,
        nodes: &Nodes,
        remaining: &Remaining<'_, '_>,
        probe: &Probe,
    ) -> Option<u32> {
        let mut allowed = Allowed::of(&probe.waits, remaining.clock);
        let mut place = self.first(&probe.key.pushed);
        for _ in 0..LOOK_LIMIT {
            let index = place as usize;
            if index >= self.entries.len() {
                return None;
            }
            let entry = &self.entries[index];
            if entry.key.may_dominate(probe)
                && !nodes.is_dominated(entry.key.node)
                && (self.are_allowed(index, &mut allowed, remaining)
                    || self.is_marked_ahead(index, remaining.clock))
            {
                return Some(entry.key.node);
            }
            place = entry.next;
        }
        None
    }

    /// Makes twice as many lists.
    fn double_lists(&mut self) -> Result<(), AllocError>
        requires { length self.old.entries.items ≤ TRANSPOSITIONS_LIMIT }
    {
        let lists = self.firsts.len().saturating_mul(2).max(FIRST_LISTS);
        self.firsts.clear();
        self.firsts.resize(lists, NONE)?;
        put_all(self.entries.as_mut_slice(), self.firsts.as_mut_slice());
        Ok(())
    }

    /// Stores a prefix, which has this clock, if there is room.
    ///
    /// # Errors
    ///
    /// `AllocError` if memory runs out.
    pub(crate) fn store(&mut self, one: &Probe, clock: &Clock<'_>) -> Result<(), AllocError> {
        let place = self.entries.len();
        if place >= TRANSPOSITIONS_LIMIT {
            return Ok(());
        }
        if place >= self.firsts.len() {
            self.double_lists()?;
        }
        let mut entry = StoredPrefix {
            key: one.key,
            next: NONE,
        };
        put(&mut entry, self.firsts.as_mut_slice(), place as u32);
        self.entries.push(entry)?;
        self.waits.push(one.waits)?;
        if self.has_marks {
            self.marks.push(clock.mark())?;
        }
        Ok(())
    }
}
