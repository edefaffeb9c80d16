//! From when until when a unit or a register is held, and how a minor cycle of it is drawn.

ghost use Rattle.std.specs.Prelude.{◌≡◌, ◌≤◌, length, map};
ghost use Rattle.s66_isa.specs.{BLOCK_LIMIT};
ghost use Rattle.s66_why.specs.{cell, holds, mark, register_reservations, unit_reservation};

use crate::placed::PlacedInstr;
use crate::work::Work;
use arrayvec::ArrayVec;
use itoa::Buffer;
use s66_isa::{BLOCK_LIMIT, Reg};

/// A minor cycle in which nobody holds.
const FREE: u8 = b'.';

/// One in which somebody does, after his number.
const CONTINUES: u8 = b'-';

/// A unit or a register is held by an instruction from a minor cycle on, and free again in another.
#[derive(Clone, Copy, Default, Drop)]
pub struct Reservation {
    /// The number of the instruction.
    pub number: u8,
    pub from: u32,
    pub until: u32,
}

impl Reservation {
    /// Whether it is held in a minor cycle.
    fn holds(&self, cycle: u32) -> bool
        ensures { result ≡ holds self.now cycle }
    {
        self.from <= cycle && cycle < self.until
    }

    /// How a minor cycle is drawn in which it is held: a digit of the number or, after those, a dash.
    fn mark(&self, cycle: u32) -> u8
        requires { self.now.from ≤ cycle }
        ensures { result ≡ mark self.now cycle }
    {
        let mut buffer = Buffer::new();
        let digits = buffer.format(self.number).as_bytes();
        let place = (cycle - self.from) as usize;
        if place < digits.len() {
            digits[place]
        } else {
            CONTINUES
        }
    }
}

/// How a minor cycle is drawn, by the first of these that holds then.
pub(crate) fn cell(reservations: &[Reservation], cycle: u32) -> u8
    ensures { result ≡ cell reservations.now cycle }
{
    for reservation in reservations {
        if reservation.holds(cycle) {
            return reservation.mark(cycle);
        }
    }
    FREE
}

/// How a unit is held that does this.
pub(crate) fn unit_reservations(works: &[Work]) -> ArrayVec<Reservation, BLOCK_LIMIT>
    requires { length works.now ≤ BLOCK_LIMIT }
    ensures { result.items ≡ map unit_reservation works.now }
{
    let mut reservations = ArrayVec::new();
    for work in works {
        reservations.push(Reservation {
            number: work.number,
            from: work.issue,
            until: work.free,
        });
    }
    reservations
}

/// How a register is held, by those of these instructions that write it.
pub fn register_reservations(
    points: &[PlacedInstr],
    register: Reg,
) -> ArrayVec<Reservation, BLOCK_LIMIT>
    requires { length points.now ≤ BLOCK_LIMIT }
    ensures { result.items ≡ register_reservations register points.now }
{
    let mut reservations = ArrayVec::new();
    for point in points {
        if point.writes(register) {
            reservations.push(Reservation {
                number: point.number,
                from: point.issue,
                until: point.done_at(register),
            });
        }
    }
    reservations
}
