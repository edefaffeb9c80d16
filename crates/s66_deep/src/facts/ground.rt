//! What the instructions of a block need.
//! It is their rows, how many units there are, and which instructions take each kind.

ghost use Rattle.std.specs.Prelude.{◌≤◌, length};
ghost use Rattle.s66_isa.specs.{BLOCK_LIMIT};

use crate::facts::copies::copy_of;
use arrayvec::ArrayVec;
use s66_isa::{BLOCK_LIMIT, Instr, KIND_COUNT, KINDS, Kind, Profile, Row, Set, kind_number};
use s66_line::Block;
use s66_time::rows_of;

/// A block under a profile, its rows, and its units.
#[derive(Drop)]
pub(crate) struct Ground {
    block: ArrayVec<Instr, BLOCK_LIMIT>,
    profile: Profile,
    rows: ArrayVec<Row, BLOCK_LIMIT>,
    /// How many units there are of each kind, by its number.
    copies: [u32; KIND_COUNT],
    /// The numbers that need one of each kind.
    users: [Set; KIND_COUNT],
}

/// The instructions of a block.
fn instrs_of(block: &Block<'_>) -> ArrayVec<Instr, BLOCK_LIMIT> {
    let mut instrs = ArrayVec::new();
    for position in 0..block.count() {
        instrs.push(block.instr(position + 1));
    }
    instrs
}

/// The numbers that need a unit of each kind.
fn users_of(rows: &[Row]) -> [Set; KIND_COUNT]
    requires { length rows.now ≤ BLOCK_LIMIT }
{
    let mut users = [Set::empty(); KIND_COUNT];
    for position in 0..rows.len() {
        let row = &rows[position];
        let kind = kind_number(row.kind);
        users[kind] = users[kind].with((position + 1) as u8);
    }
    users
}

/// How many units there are of each kind.
fn copies_of(profile: &Profile) -> [u32; KIND_COUNT] {
    let mut copies = [1; KIND_COUNT];
    for index in 0..KIND_COUNT {
        copies[index] = profile.copies(KINDS[index]);
    }
    copies
}

impl Ground {
    /// Of a block under a profile.
    pub(crate) fn of(block: &Block<'_>, profile: &Profile) -> Ground {
        let rows = rows_of(block, profile);
        Ground {
            block: instrs_of(block),
            profile: *profile,
            copies: copies_of(profile),
            users: users_of(rows.as_slice()),
            rows,
        }
    }

    /// The same.
    pub(crate) fn duplicate(&self) -> Ground {
        let mut rows: ArrayVec<Row, BLOCK_LIMIT> = ArrayVec::new();
        for row in self.rows.as_slice() {
            if !rows.is_full() {
                rows.push(row.duplicate());
            }
        }
        Ground {
            block: copy_of(self.block.as_slice()),
            profile: self.profile,
            rows,
            copies: self.copies,
            users: self.users,
        }
    }

    /// The block's instructions.
    pub(crate) fn block(&self) -> &[Instr]
        ensures { length result.now ≤ BLOCK_LIMIT }
    {
        self.block.as_slice()
    }

    /// The profile.
    pub(crate) fn profile(&self) -> &Profile {
        &self.profile
    }

    /// The rows; that of number n is at n - 1.
    pub(crate) fn rows(&self) -> &[Row]
        ensures { length result.now ≤ BLOCK_LIMIT }
    {
        self.rows.as_slice()
    }

    /// The row of a number.
    pub(crate) fn row(&self, n: u8) -> Option<&Row> {
        if n == 0 {
            return None;
        }
        self.rows.get(n as usize - 1)
    }

    /// How long an instruction has its unit, in minor cycles; 0 if the block has no such number.
    pub(crate) fn amount(&self, n: u8) -> u32 {
        match self.row(n) {
            None => 0,
            Some(row) => row.hold.saturating_add(1),
        }
    }

    /// How many units there are of a kind.
    pub(crate) fn copies(&self, kind: Kind) -> u32 {
        self.copies[kind_number(kind)]
    }

    /// The numbers that need one.
    pub(crate) fn users(&self, kind: Kind) -> Set {
        self.users[kind_number(kind)]
    }
}
