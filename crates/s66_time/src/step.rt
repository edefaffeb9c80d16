//! What one push of a clock wrote over, so that it can be undone.

ghost use Rattle.std.specs.Prelude.{◌<◌, ◌≤◌};
ghost use Rattle.s66_isa.specs.{KIND_COUNT, REGISTER_COUNT};
ghost use Rattle.s66_time.specs.declared.limits.TheConstants.{UNIT_LIMIT};

use crate::progress::Progress;

/// A word of a register before it was written.
#[derive(Clone, Copy)]
pub(crate) struct Saved {
    /// The register's index.
    pub(crate) place: u8,
    /// What it was, in minor cycles.
    pub(crate) word: u32,
    ghost within: { place < REGISTER_COUNT },
}

impl Default for Saved {
    fn default() -> Saved {
        Saved { place: 0, word: 0 }
    }
}

/// What a push wrote over, which its undo puts back.
#[derive(Drop)]
pub(crate) struct Step {
    /// The number that was pushed.
    pub(crate) number: u8,
    /// The unit that it took, by its place among the words.
    pub(crate) unit: u16,
    /// When that unit was free before.
    pub(crate) free: u32,
    /// The number of its kind.
    pub(crate) kind: u8,
    /// The word `Words::worked` of its kind.
    pub(crate) worked: u32,
    /// How many registers it writes.
    pub(crate) done_count: u8,
    /// From the first place on, the words `Words::done` of the registers that it writes.
    pub(crate) done: [Saved; 2],
    /// How many registers it reads.
    pub(crate) read_count: u8,
    /// From the first place on, the words `Words::read` of the registers that it reads.
    pub(crate) read: [Saved; 4],
    pub(crate) progress: Progress,
    ghost within: { (unit < UNIT_LIMIT) × (kind < KIND_COUNT) },
    ghost few: { (done_count ≤ 2) × (read_count ≤ 4) },
}

impl Default for Step {
    fn default() -> Step {
        Step {
            number: 0,
            unit: 0,
            free: 0,
            kind: 0,
            worked: 0,
            done_count: 0,
            done: [Saved::default(); 2],
            read_count: 0,
            read: [Saved::default(); 4],
            progress: Progress::default(),
        }
    }
}

impl Step {
    /// How many words of registers are in it.
    pub(crate) fn words(&self) -> u32
        ensures { result ≤ 6 }
    {
        self.done_count as u32 + self.read_count as u32
    }
}
