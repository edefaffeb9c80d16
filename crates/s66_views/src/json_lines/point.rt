//! The object of an instruction in a timed order: its place, its times, its results, and what it waits for.

ghost use Rattle.std.specs.Prelude.{◌≡◌, ◌++◌, OnOk};
ghost use Rattle.s66_model.specs.{latest_result};
ghost use Rattle.s66_views.specs.{lists_text, place_text, point_text, result_text, results_text, json_times_text};

use crate::json_lines::text::{push_comma, push_text};
use crate::json_lines::wait::push_waits;
use crate::json_lines::words::push_register;
use s66_device::push_field;
use s66_time::ResultAt;
use s66_why::{PlacedInstr, Stretch};
use std::alloc::AllocError;

/// When a result is done.
#[tactic(auto, unfolding(crate::specs::Pieces::result_text))]
fn push_result(out: &mut Vec<u8>, made: &ResultAt) -> Result<(), AllocError>
    ensures { OnOk result (out.new.items ≡ out.old.items ++ result_text made.now) }
{
    push_text(out, b"{\"register\":")?;
    push_register(out, made.reg)?;
    push_field(out, b",\"done\":", made.time as usize)?;
    push_text(out, b"}")
}

/// When each result is done.
#[tactic(auto, unfolding(crate::specs::Pieces::results_text))]
fn push_results(out: &mut Vec<u8>, results: &[ResultAt]) -> Result<(), AllocError>
    ensures { OnOk result (out.new.items ≡ out.old.items ++ results_text results.now) }
{
    push_text(out, b"[")?;
    for (i, made) in results.iter().enumerate() {
        push_comma(out, 0 < i)?;
        push_result(out, made)?;
    }
    push_text(out, b"]")
}

/// Which instruction it is, where it stands, and when it issues.
#[tactic(auto, unfolding(crate::specs::Pieces::place_text))]
fn push_place(out: &mut Vec<u8>, point: &PlacedInstr) -> Result<(), AllocError>
    ensures { OnOk result (out.new.items ≡ out.old.items ++ place_text point.now) }
{
    push_field(out, b"{\"n\":", point.number as usize)?;
    push_field(out, b",\"parcel\":", point.parcel as usize)?;
    push_field(out, b",\"issue\":", point.issue as usize)
}

/// When its last result is done, or the hold is over if it writes nothing.
fn done(point: &PlacedInstr) -> usize
    ensures { result ≡ latest_result point.now }
{
    if point.results.is_empty() {
        point.start as usize + point.row.hold as usize
    } else {
        point.last as usize
    }
}

/// When it starts, is done, and frees its unit.
#[tactic(auto, unfolding(crate::specs::Pieces::json_times_text))]
fn push_times(out: &mut Vec<u8>, point: &PlacedInstr) -> Result<(), AllocError>
    ensures { OnOk result (out.new.items ≡ out.old.items ++ json_times_text point.now) }
{
    push_field(out, b",\"start\":", point.start as usize)?;
    push_field(out, b",\"done\":", done(point))?;
    push_field(out, b",\"free\":", point.free as usize)
}

/// Its results, and what it waits for.
#[tactic(auto, unfolding(crate::specs::Pieces::lists_text))]
fn push_lists(out: &mut Vec<u8>, point: &PlacedInstr, waits: &[Stretch]) -> Result<(), AllocError>
    ensures { OnOk result (out.new.items ≡ out.old.items ++ lists_text point.now waits.now) }
{
    push_text(out, b",\"results\":")?;
    push_results(out, point.results.as_slice())?;
    push_text(out, b",\"waits\":")?;
    push_waits(out, waits)?;
    push_text(out, b"}")
}

/// An instruction of a timed order, which waits so.
#[tactic(auto, unfolding(crate::specs::Pieces::point_text))]
pub(crate) fn push_point(
    out: &mut Vec<u8>,
    point: &PlacedInstr,
    waits: &[Stretch],
) -> Result<(), AllocError>
    ensures { OnOk result (out.new.items ≡ out.old.items ++ point_text point.now waits.now) }
{
    push_place(out, point)?;
    push_times(out, point)?;
    push_lists(out, point, waits)
}
