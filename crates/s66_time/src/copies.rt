//! How many units of each kind a profile has, by the kind's number.

ghost use Rattle.std.specs.Prelude.{ℕ, ◌≡◌, ◌<◌, ◌≤◌, get_or};
ghost use Rattle.s66_isa.specs.{KIND_COUNT, kind_number, copies_of, Kind as KindOf};
ghost use Rattle.s66_time.specs.declared.limits.TheConstants.{COPIES_LIMIT};

use s66_isa::{KIND_COUNT, Kind, Profile, kind_number};

/// How many units a profile has of each kind, by the kind's number.
#[derive(Drop)]
pub(crate) struct Copies {
    counts: [u32; KIND_COUNT],
    ghost some: { (i : ℕ) → i < KIND_COUNT → 1 ≤ get_or counts i 0 },
    ghost few: { (i : ℕ) → i < KIND_COUNT → get_or counts i 0 ≤ COPIES_LIMIT },
}

impl Copies {
    /// Those of a profile.
    pub(crate) fn of(profile: &Profile) -> Copies
        ensures { (kind : KindOf) → get_or result.counts (kind_number kind) 0 ≡ copies_of profile.now kind }
    {
        Copies {
            counts: [
                profile.copies(Kind::Boolean),
                profile.copies(Kind::Shift),
                profile.copies(Kind::Add),
                profile.copies(Kind::LongAdd),
                profile.copies(Kind::Multiply),
                profile.copies(Kind::Divide),
                profile.copies(Kind::Increment),
            ],
        }
    }

    /// How many units there are of a kind.
    pub(crate) fn at(&self, kind: Kind) -> u32
        ensures value { result ≡ get_or self.now.counts (kind_number kind) 0 }
        ensures at_least { 1 ≤ result }
        ensures at_most { result ≤ COPIES_LIMIT }
    {
        self.counts[kind_number(kind)]
    }
}
