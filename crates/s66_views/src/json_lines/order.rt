//! The members of a timed order: time, instructions, path, steps and sums; with a found order, bound and splits.

ghost use Rattle.std.specs.Prelude.{◌≡◌, ◌≤◌, ◌++◌, OnOk, IfOk, length, map, reverse};
ghost use Rattle.s66_isa.specs.{BLOCK_LIMIT};
ghost use Rattle.s66_why.specs.{sum_of, lost, stretches, Step as StepOf, Conflict as ConflictOf};
ghost use Rattle.s66_views.specs.{json_bound_text, lost_text, path_text, points_text, steps_text, timed_text};
ghost use Rattle.s66_views.specs.Pieces.{order_text};

use crate::json_lines::list::{push_added, push_numbers};
use crate::json_lines::point::push_point;
use crate::json_lines::text::{push_comma, push_text};
use crate::json_lines::words::truth;
use s66_device::push_field;
use s66_time::Timed;
use s66_why::{Lost, PlacedInstr, Step, path_of, points_of, steps_of, waits_of};
use std::alloc::AllocError;

/// The numbers of an order, and what it takes.
#[tactic(auto, unfolding(crate::specs::Pieces::order_text))]
fn push_order_numbers(
    out: &mut Vec<u8>,
    time: u32,
    fillers: u32,
    numbers: &[u8],
) -> Result<(), AllocError>
    ensures { OnOk result (out.new.items ≡ out.old.items ++ order_text time fillers numbers.now) }
{
    push_field(out, b"{\"time\":", time as usize)?;
    push_field(out, b",\"no\":", fillers as usize)?;
    push_text(out, b",\"order\":")?;
    push_numbers(out, numbers)?;
    push_text(out, b",\"at\":[")
}

/// The instructions of an order, and how long they were kept back.
fn push_points(out: &mut Vec<u8>, points: &[PlacedInstr]) -> Result<Lost, AllocError>
    requires { length points.now ≤ BLOCK_LIMIT }
    ensures text { OnOk result (out.new.items ≡ out.old.items ++ points_text (reverse points.now)) }
    ensures sums { (conflict : ConflictOf) →
        IfOk result (λ sums. sum_of sums conflict ≡ lost conflict (stretches (reverse points.now))) }
{
    let mut sums = Lost::none();
    for position in 0..points.len() {
        let point = &points[position];
        let waits = waits_of(&points[..position], point);
        sums.add_all(waits.as_slice());
        push_comma(out, 0 < position)?;
        push_point(out, point, waits.as_slice())?;
    }
    Ok(sums)
}

/// The path of an order.
#[tactic(auto, unfolding(crate::specs::Pieces::path_text))]
fn push_path(out: &mut Vec<u8>, path: &[u8]) -> Result<(), AllocError>
    ensures { OnOk result (out.new.items ≡ out.old.items ++ path_text path.now) }
{
    push_text(out, b"],\"path\":")?;
    push_numbers(out, path)
}

/// What the steps of the path add.
#[tactic(auto, unfolding(crate::specs::Pieces::steps_text))]
fn push_steps(out: &mut Vec<u8>, steps: &[Step]) -> Result<(), AllocError>
    ensures { OnOk result (out.new.items ≡ out.old.items ++ steps_text (map (λ (x : StepOf). x.adds) steps.now)) }
{
    push_text(out, b",\"steps\":")?;
    push_added(out, steps)
}

/// For how long instructions were kept back.
#[tactic(auto, unfolding(crate::specs::Pieces::lost_text))]
fn push_lost(out: &mut Vec<u8>, sums: &Lost) -> Result<(), AllocError>
    ensures { OnOk result (out.new.items ≡ out.old.items ++ lost_text sums.now.first sums.now.second sums.now.third) }
{
    push_field(out, b",\"lost\":{\"first\":", sums.first)?;
    push_field(out, b",\"second\":", sums.second)?;
    push_field(out, b",\"third\":", sums.third)?;
    push_text(out, b"}")
}

/// A timed order, without the brace that closes it.
pub(crate) fn push_timed(out: &mut Vec<u8>, timed: &Timed) -> Result<(), AllocError>
    ensures { OnOk result (out.new.items ≡ out.old.items ++ timed_text timed.now) }
{
    let points = points_of(timed);
    let points = points.as_slice();
    let fillers = timed.fillers();
    push_order_numbers(out, timed.total(), fillers, timed.order().numbers())?;
    let sums = push_points(out, points)?;
    let steps = steps_of(points, timed.total());
    let steps = steps.as_slice();
    push_path(out, path_of(steps).as_slice())?;
    push_steps(out, steps)?;
    push_lost(out, &sums)
}

/// What every order takes at least, and how many splits there were.
#[tactic(auto, unfolding(crate::specs::Pieces::json_bound_text))]
pub(crate) fn push_bound(
    out: &mut Vec<u8>,
    bound: u32,
    splits: u32,
    best: bool,
) -> Result<(), AllocError>
    ensures { OnOk result (out.new.items ≡ out.old.items ++ json_bound_text bound splits best) }
{
    push_field(out, b",\"bound\":", bound as usize)?;
    push_text(out, b",\"best\":")?;
    push_text(out, truth(best))?;
    push_field(out, b",\"splits\":", splits as usize)
}
