//! All stretches in which one instruction is kept back, in order: until it issues, until it starts, and for each result.

ghost use Rattle.std.specs.Prelude.{◌≡◌, ◌≤◌, ◌+◌, ◌++◌, length, option_to_list, reverse};
ghost use Rattle.s66_why.specs.{stretches_at};

use crate::placed::PlacedInstr;
use crate::stretch::{Stretch, first_stretch, second_stretch, third_stretch};
use arrayvec::ArrayVec;

/// Adds a stretch to a list, if there is one.
fn add(waits: &mut ArrayVec<Stretch, 4>, stretch: &Option<Stretch>)
    requires { length waits.old.items ≤ 3 }
    ensures items { waits.new.items ≡ waits.old.items ++ option_to_list stretch.now }
    ensures few { length waits.new.items ≤ length waits.old.items + 1 }
{
    let Ok(()) = waits.try_extend_from_slice(stretch.as_slice()) else {
        unreachable!()
    };
}

/// For how long an instruction is kept back that comes after these, and by what: until it issues, until it starts, and each of its
/// two results at most.
pub fn waits_of(earlier: &[PlacedInstr], point: &PlacedInstr) -> ArrayVec<Stretch, 4>
    ensures { result.items ≡ stretches_at (reverse earlier.now) point.now }
{
    let mut waits = ArrayVec::new();
    add(&mut waits, &first_stretch(earlier, point));
    add(&mut waits, &second_stretch(earlier, point));
    for write in point.row.writes.as_slice() {
        add(&mut waits, &third_stretch(earlier, point, write));
    }
    waits
}
