//! The stretches in which an instruction is kept back: it can't issue, can't start, or can't hand in a result. These are the three
//! orders of conflict that Thornton describes.

ghost use Rattle.std.specs.Prelude.{◌≡◌, ◌≤◌, option_to_list, reverse};
ghost use Rattle.s66_why.specs.{slot, first_stretch, second_stretch, third_stretch};

use crate::cause::Holder;
use crate::holders::{first_holder, second_holder, third_holder};
use crate::placed::{PlacedInstr, readers_wait};
use s66_isa::Write;

/// Thornton's orders of conflict.
#[derive(Clone, Copy)]
pub enum Conflict {
    /// An instruction can't issue.
    First,
    /// It can't start.
    Second,
    /// It can't hand in its result.
    Third,
}

/// The minor cycles from one to another in which an instruction is kept back.
#[derive(Clone, Copy, Drop)]
pub struct Stretch {
    pub number: u8,
    pub conflict: Conflict,
    pub from: u32,
    pub to: u32,
    pub holder: Holder,
}

impl Default for Stretch {
    /// A blank: a list makes one for each place that isn't taken.
    fn default() -> Stretch {
        Stretch {
            number: 0,
            conflict: Conflict::First,
            from: 0,
            to: 0,
            holder: Holder::nobody(),
        }
    }
}

/// The minor cycle in which an instruction issues if it waits only for the parcels before it.
pub(crate) fn slot(earlier: &[PlacedInstr], point: &PlacedInstr) -> u32
    ensures { result ≡ slot (reverse earlier.now) point.now }
{
    match earlier.last() {
        None => 0,
        Some(before) => before.issue + (point.parcel.saturating_sub(before.parcel)),
    }
}

/// For how long an instruction can't issue, if its slot is past.
pub(crate) fn first_stretch(earlier: &[PlacedInstr], point: &PlacedInstr) -> Option<Stretch>
    ensures { option_to_list result ≡ first_stretch (reverse earlier.now) point.now }
{
    let from = slot(earlier, point);
    let to = point.issue;
    if from < to {
        Some(Stretch {
            number: point.number,
            conflict: Conflict::First,
            from,
            to,
            holder: first_holder(earlier, point),
        })
    } else {
        None
    }
}

/// For how long an instruction that has issued can't start, if it waits.
pub(crate) fn second_stretch(earlier: &[PlacedInstr], point: &PlacedInstr) -> Option<Stretch>
    ensures { option_to_list result ≡ second_stretch (reverse earlier.now) point.now }
{
    let from = point.issue;
    let to = point.start;
    if from < to {
        Some(Stretch {
            number: point.number,
            conflict: Conflict::Second,
            from,
            to,
            holder: second_holder(earlier, point),
        })
    } else {
        None
    }
}

/// For how long this result of an instruction is held, if it is.
pub(crate) fn third_stretch(
    earlier: &[PlacedInstr],
    point: &PlacedInstr,
    write: &Write,
) -> Option<Stretch>
    requires { write.now.latency ≤ 100 }
    ensures { option_to_list result ≡ third_stretch (reverse earlier.now) point.now write.now }
{
    let from = point.start + write.latency;
    let to = readers_wait(earlier, write.reg);
    if from < to {
        Some(Stretch {
            number: point.number,
            conflict: Conflict::Third,
            from,
            to,
            holder: third_holder(earlier, write),
        })
    } else {
        None
    }
}
