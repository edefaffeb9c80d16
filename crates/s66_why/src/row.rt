//! Draws one row of a chart over the front of a page.

ghost use Rattle.std.specs.Prelude.{ℕ, ◌≡◌, ◌++◌, OnOk, length, map};
ghost use Rattle.std.specs.List.{range_with_len};
ghost use Rattle.s66_why.specs.{letter, chart_row_text, until, IsInOrder};

use crate::activity::{Activity, IDLE, ISSUES, WAITS, WAITS_FOR_READERS, WORKS};
use crate::places::push_blanks;
use std::alloc::AllocError;

/// The places of a name.
pub(crate) const NAME_ROOM: usize = 3;

/// Writes a letter over those of the minor cycles before the end.
fn fill_until(letters: &mut [u8], end: usize, letter: u8)
    ensures len { length letters.new ≡ length letters.old }
    ensures letters { (others : ℕ → ℕ) (count : ℕ) → letters.old ≡ map others (range_with_len 0 count) →
        letters.new ≡ map (until end letter others) (range_with_len 0 count) }
{
    let end = end.min(letters.len());
    letters[..end].fill(letter);
}

/// Writes the letters of as many minor cycles as there is room for. A run of equal letters is written at once, the last run
/// first, since each run is written over all that comes before its end.
fn draw(letters: &mut [u8], activity: &Activity)
    requires { IsInOrder activity.now }
    ensures { letters.new ≡ map (letter activity.now) (range_with_len 0 (length letters.old)) }
{
    letters.fill(IDLE);
    fill_until(letters, activity.done, WAITS_FOR_READERS);
    fill_until(letters, activity.finish, WORKS);
    fill_until(letters, activity.start, WAITS);
    fill_until(letters, activity.issue + 1, ISSUES);
    fill_until(letters, activity.issue, IDLE);
}

/// Appends the letters of as many minor cycles.
fn push_letters(out: &mut Vec<u8>, activity: &Activity, cycles: u32) -> Result<(), AllocError>
    requires { IsInOrder activity.now }
    ensures { OnOk result (out.new.items ≡ out.old.items ++ map (letter activity.now) (range_with_len 0 cycles)) }
{
    let from = out.len();
    out.resize(from + cycles as usize, IDLE)?;
    draw(&mut out.as_mut_slice()[from..], activity);
    Ok(())
}

/// Appends a row: a name, right in three places, one blank, the letters of `cycles` minor cycles, and a newline.
pub(crate) fn push_row(
    out: &mut Vec<u8>,
    name: &[u8],
    activity: &Activity,
    cycles: u32,
) -> Result<(), AllocError>
    requires { IsInOrder activity.now }
    ensures { OnOk result (out.new.items ≡ out.old.items ++ chart_row_text name.now activity.now cycles) }
{
    push_blanks(out, NAME_ROOM.saturating_sub(name.len()))?;
    out.extend_from_slice(name)?;
    out.extend_from_slice(b" ")?;
    push_letters(out, activity, cycles)?;
    out.extend_from_slice(b"\n")
}
