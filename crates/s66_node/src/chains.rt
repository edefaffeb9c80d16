//! The buckets of a hash table: lists of places by hash. The marks that are kept there are in `mark_table.rt`.

use std::alloc::{AllocError, Global};

/// In place of a place: there is none.
pub(crate) const NONE: u32 = u32::MAX;

/// How many lists there are at first.
const FIRST_LISTS: usize = 64;

/// Lists of the places of a table, each place in the list of a hash. A place that leaves its list is used again.
///
/// Nothing is promised of what is in which list: who looks for something in one looks at what each place has.
#[derive(Drop)]
pub(crate) struct Chains {
    /// The first place of each list.
    firsts: Vec<u32>,
    /// The place after each place in its list.
    nexts: Vec<u32>,
    /// The first place of the list of those to be used again.
    free: u32,
}

impl Chains {
    /// No list.
    pub(crate) fn new(alloc: Global) -> Chains {
        Chains {
            firsts: Vec::new(alloc),
            nexts: Vec::new(alloc),
            free: NONE,
        }
    }

    /// The list of a hash.
    fn list_of(&self, hash: u64) -> usize {
        // the high bits of a hash differ most
        ((hash >> 32).wrapping_mul(self.firsts.len() as u64) >> 32) as usize
    }

    /// The first place of the list of a hash.
    pub(crate) fn first(&self, hash: u64) -> u32 {
        let list = self.list_of(hash);
        if list < self.firsts.len() {
            self.firsts[list]
        } else {
            NONE
        }
    }

    /// The place after a place in its list.
    pub(crate) fn next(&self, place: u32) -> u32 {
        let index = place as usize;
        if index < self.nexts.len() {
            self.nexts[index]
        } else {
            NONE
        }
    }

    fn set_first(&mut self, hash: u64, place: u32) {
        let list = self.list_of(hash);
        if list < self.firsts.len() {
            self.firsts[list] = place;
        }
    }

    fn set_next(&mut self, place: u32, next: u32) {
        let index = place as usize;
        if index < self.nexts.len() {
            self.nexts[index] = next;
        }
    }

    /// Puts a place first in the list of a hash.
    pub(crate) fn put(&mut self, hash: u64, place: u32) {
        let next = self.first(hash);
        self.set_next(place, next);
        self.set_first(hash, place);
    }

    /// Takes a place out of the list of a hash if it is in it, among at most `places`.
    pub(crate) fn remove_place(&mut self, hash: u64, place: u32, places: usize) {
        let mut before = NONE;
        let mut other = self.first(hash);
        for _ in 0..places {
            if other == place {
                self.remove(hash, before, place);
                return;
            }
            before = other;
            other = self.next(other);
        }
    }

    /// Takes a place out of the list of a hash; `before` is the place before it there, or `NONE`.
    pub(crate) fn remove(&mut self, hash: u64, before: u32, place: u32) {
        let next = self.next(place);
        if before == NONE {
            self.set_first(hash, next);
        } else {
            self.set_next(before, next);
        }
        self.set_next(place, self.free);
        self.free = place;
    }

    /// A place to be used again, if there is one.
    pub(crate) fn reuse(&mut self) -> Option<u32> {
        let place = self.free;
        if place == NONE {
            return None;
        }
        self.free = self.next(place);
        Some(place)
    }

    /// Makes one more place, in no list.
    ///
    /// # Errors
    ///
    /// `AllocError` if memory runs out; nothing is changed then.
    pub(crate) fn add_place(&mut self) -> Result<(), AllocError> {
        self.nexts.push(NONE)?;
        Ok(())
    }

    /// Takes all places away. It keeps its memory.
    pub(crate) fn clear(&mut self) {
        for list in 0..self.firsts.len() {
            self.firsts[list] = NONE;
        }
        self.nexts.clear();
        self.free = NONE;
    }

    /// Whether `places` places are more than the lists are made for.
    pub(crate) fn is_crowded(&self, places: usize) -> bool {
        places >= self.firsts.len()
    }

    /// Makes twice as many lists, all of them empty.
    ///
    /// # Errors
    ///
    /// `AllocError` if memory runs out; nothing is changed then.
    pub(crate) fn double(&mut self) -> Result<(), AllocError> {
        let more = self.firsts.len().max(FIRST_LISTS);
        self.firsts.try_reserve(more)?;
        for list in 0..self.firsts.len() {
            self.firsts[list] = NONE;
        }
        for _ in 0..more {
            self.firsts.push(NONE)?;
        }
        Ok(())
    }
}
