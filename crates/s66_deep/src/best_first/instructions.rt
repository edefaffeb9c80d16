//! What a search knows of a block's instructions.
//! It is at which register, unit or memory each looks, and which stand before which by the fact lines.

use crate::classes::{Class, Role, those_of, users_of};
use crate::facts::{Finder, Ground, Precedence};
use s66_isa::{Kind, REGISTER_COUNT, Row, Set};

/// The instructions of a block, by which word of a clock they look at, and which is known to stand before which.
#[derive(Drop)]
pub(crate) struct Instructions<'a> {
    ground: &'a Ground,
    precedence: Precedence,
    /// The numbers that write each register, by its index.
    pub(crate) writers: [Set; REGISTER_COUNT],
    /// Those that read each register.
    pub(crate) readers: [Set; REGISTER_COUNT],
    pub(crate) loads: Set,
    pub(crate) stores: Set,
    /// Those of two parcels.
    pub(crate) long: Set,
}

impl<'a> Instructions<'a> {
    /// By what a finder knows.
    pub(crate) fn new(finder: &'a Finder) -> Instructions<'a> {
        let ground = finder.ground();
        let rows = ground.rows();
        Instructions {
            ground,
            precedence: Precedence::of(finder.facts()),
            writers: users_of(rows, Role::Writes),
            readers: users_of(rows, Role::Reads),
            loads: those_of(rows, &Class::Loads),
            stores: those_of(rows, &Class::Stores),
            long: those_of(rows, &Class::Long),
        }
    }

    /// The row of n; None if the block has no such number.
    pub(crate) fn row(&self, n: u8) -> Option<&Row> {
        self.ground.row(n)
    }

    /// How long n has its unit, in minor cycles.
    pub(crate) fn amount(&self, n: u8) -> u32 {
        self.ground.amount(n)
    }

    /// How many units there are of a kind.
    pub(crate) fn copies(&self, kind: Kind) -> u32 {
        self.ground.copies(kind)
    }

    /// The numbers that are known to stand before n; none if the block has no such number.
    pub(crate) fn before(&self, n: u8) -> Set {
        self.precedence.before(n)
    }

    /// The numbers that take a unit of a kind.
    pub(crate) fn takers(&self, kind: Kind) -> Set {
        self.ground.users(kind)
    }

    /// The numbers of the block that aren't in a set.
    pub(crate) fn without(&self, pushed: &Set) -> Set {
        self.precedence.all().without(pushed)
    }

    /// The place in its word of the next parcel after n, if that of the next one before n is this.
    pub(crate) fn place_after(&self, place: u8, n: u8) -> u8 {
        let Some(row) = self.row(n) else {
            return place;
        };
        if row.parcels == 1 {
            return place.wrapping_add(1) % 4;
        }
        // one of two parcels doesn't begin in the last parcel of a word
        if place == 3 {
            2
        } else {
            place.wrapping_add(2) % 4
        }
    }
}
