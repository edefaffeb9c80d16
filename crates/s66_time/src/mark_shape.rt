//! How many free times of each kind of unit a mark keeps: no more than there are instructions of the kind.

ghost use Rattle.std.specs.Prelude.{◌≡◌, ◌+◌, ◌≤◌, length, min};
ghost use Rattle.s66_isa.specs.{tally, weigh, Row as RowOf, all_kinds, same_kind, Kind as KindOf, BLOCK_LIMIT};
ghost use Rattle.s66_time.specs.LatestWords.{kept_in};

use crate::copies::Copies;
use s66_isa::{KIND_COUNT, Kind, Row, kind_number};

/// How many free times of each kind a mark keeps, by the kind's number.
#[derive(Drop)]
pub(crate) struct MarkShape {
    kept: [u8; KIND_COUNT],
    ghost few: { weigh (kept_in kept) all_kinds ≤ BLOCK_LIMIT },
}

impl MarkShape {
    /// Of each kind as many as it has copies, but no more than there are rows of the kind.
    pub(crate) fn of(rows: &[Row], copies: &Copies) -> MarkShape
        requires { length rows.now ≤ BLOCK_LIMIT }
        ensures { (kind : KindOf) → kept_in result.kept kind ≡
            min (kept_in copies.now.counts kind) (tally (λ (r : RowOf). same_kind r.kind kind) rows.now) }
    {
        let mut kept = [0; KIND_COUNT];
        for row in rows {
            let kind = kind_number(row.kind);
            if u32::from(kept[kind]) < copies.at(row.kind) {
                kept[kind] += 1;
            }
        }
        MarkShape { kept }
    }

    /// How many are of a kind.
    pub(crate) fn at(&self, kind: Kind) -> usize
        ensures value { result ≡ kept_in self.now.kept kind }
        ensures few { weigh (kept_in self.now.kept) all_kinds ≤ BLOCK_LIMIT }
    {
        self.kept[kind_number(kind)] as usize
    }
}
