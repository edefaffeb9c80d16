//! The mark of a beginning: all that decides how soon what comes next can be done, in words that can be compared (`dominance.rt`).

ghost use Rattle.std.specs.Prelude.{◌+◌, ◌%◌, ◌≡◌, ◌≤◌, get_or};
ghost use Rattle.s66_isa.specs.Table.{Reg};
ghost use Rattle.s66_isa.specs.{index_of, word_of, Kind};
ghost use Rattle.s66_time.specs.ClockWords.{AreCopies, AreWordsInTurn};
ghost use Rattle.s66_time.specs.KeptUnits.{first_kept, word_count};
ghost use Rattle.s66_time.specs.LatestWords.{words_from, kept_in, AreLatest};
ghost use Rattle.s66_time.specs.Places.{units_of};
ghost use Rattle.s66_time.specs.declared.limits.TheConstants.{MARK_LIMIT, READERS_AT, REFERENCES_AT, STORES_AT, UNITS_AT};

use crate::copies::Copies;
use crate::limits::{READERS_AT, REFERENCES_AT, STORES_AT, UNITS_AT};
use crate::mark_shape::MarkShape;
use crate::mark_words::MarkWords;
use crate::words::Words;
use s66_isa::Profile;

/// What decides, of a beginning, how soon each of its completions can be done, in minor cycles.
///
/// It is small enough to be stored by the ten thousand, and takes no memory beside itself.
#[derive(Clone, Copy, Drop)]
pub struct Mark {
    /// The first slot after the last issue.
    pub(crate) next: u16,
    /// When all units are free and all results done.
    pub(crate) total: u16,
    /// The place of the next parcel in its word of memory.
    pub(crate) place: u8,
    /// How many words are stored; those after them count for nothing.
    pub(crate) count: u8,
    pub(crate) words: MarkWords,
    ghost within: { (UNITS_AT ≤ count) × (count ≤ MARK_LIMIT) },
}

impl Mark {
    /// The mark of nothing yet, to be written by `set`.
    pub fn blank() -> Mark {
        Mark {
            next: 0,
            total: 0,
            place: 0,
            count: UNITS_AT as u8,
            words: MarkWords::new(),
        }
    }

    /// Becomes the mark of a clock's words, under a profile with these copies. It is written where it is, since it is long to copy.
    pub(crate) fn set(
        &mut self,
        words: &Words,
        profile: &Profile,
        copies: &Copies,
        shape: &MarkShape,
    )
        requires follows { AreWordsInTurn profile.now words.now }
        requires copies { AreCopies profile.now copies.now }
        ensures progress { (self.new.next ≡ words.now.progress.next) × (self.new.total ≡ words.now.progress.total) ×
            (self.new.place ≡ words.now.progress.parcel % 4) }
        ensures count { self.new.count ≡ word_count (kept_in shape.now.kept) }
        ensures writers { (r : Reg) → r.digit ≤ 7 → get_or self.new.words.words (index_of r) 0 ≡
            word_of words.now.done.words r }
        ensures readers { (r : Reg) → r.digit ≤ 7 → get_or self.new.words.words (READERS_AT + index_of r) 0 ≡
            word_of words.now.read.words r }
        ensures memory { (get_or self.new.words.words REFERENCES_AT 0 ≡ words.now.progress.refs) ×
            (get_or self.new.words.words STORES_AT 0 ≡ words.now.progress.stores) }
        ensures units { (kind : Kind) → AreLatest (kept_in shape.now.kept kind)
            (units_of profile.now kind words.now.units.words)
            (words_from (first_kept (kept_in shape.now.kept) kind) (kept_in shape.now.kept kind) self.new.words.words) }
    {
        let progress = words.progress;
        let marked = &mut self.words;
        marked.put_registers(0, &words.done);
        marked.put_registers(READERS_AT, &words.read);
        marked.words[REFERENCES_AT] = progress.refs as u16;
        marked.words[STORES_AT] = progress.stores as u16;
        let count = marked.put_all_units(&words.units, copies, shape);
        self.next = progress.next as u16;
        self.total = progress.total as u16;
        self.place = (progress.parcel % 4) as u8;
        self.count = count as u8;
    }
}
