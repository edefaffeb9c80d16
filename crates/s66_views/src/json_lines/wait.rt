//! The object of a stretch in which an instruction waits.

ghost use Rattle.std.specs.Prelude.{◌≡◌, ◌++◌, OnOk, codes};
ghost use Rattle.s66_views.specs.{json_cause_text, json_register_text, unit_text, wait_start, wait_text, waits_text};

use crate::json_lines::text::{push_comma, push_text};
use crate::json_lines::words::{conflict, push_register, unit};
use s66_device::push_field;
use s66_isa::{Kind, Reg};
use s66_why::{Cause, Stretch};
use std::alloc::AllocError;

/// From when to when an instruction waits.
#[tactic(auto, unfolding(crate::specs::Pieces::wait_start))]
fn push_wait_start(out: &mut Vec<u8>, stretch: &Stretch) -> Result<(), AllocError>
    ensures { OnOk result (out.new.items ≡ out.old.items ++ wait_start stretch.now) }
{
    push_text(out, b"{\"conflict\":")?;
    push_text(out, conflict(stretch.conflict))?;
    push_field(out, b",\"from\":", stretch.from as usize)?;
    push_field(out, b",\"to\":", stretch.to as usize)
}

/// A register that is waited for.
fn push_for_register(out: &mut Vec<u8>, register: Reg) -> Result<(), AllocError>
    ensures { OnOk result (out.new.items ≡ out.old.items ++
        (codes ",\"for\":\"register\",\"name\":" ++ json_register_text register)) }
{
    push_text(out, b",\"for\":\"register\",\"name\":")?;
    push_register(out, register)
}

/// A unit that is waited for.
fn push_for_unit(out: &mut Vec<u8>, kind: Kind) -> Result<(), AllocError>
    ensures { OnOk result (out.new.items ≡ out.old.items ++ (codes ",\"for\":\"unit\",\"name\":" ++ unit_text kind)) }
{
    push_text(out, b",\"for\":\"unit\",\"name\":")?;
    push_text(out, unit(kind))
}

/// What is waited for.
#[tactic(auto, unfolding(crate::specs::Pieces::json_cause_text, crate::specs::Pieces::sort_text, crate::specs::Pieces::name_text, crate::specs::Pieces::json_register_text, crate::specs::Pieces::unit_text, serde_json::proofs::OnLiterals::serde_json_on_literals))]
fn push_cause(out: &mut Vec<u8>, cause: &Cause) -> Result<(), AllocError>
    ensures { OnOk result (out.new.items ≡ out.old.items ++ json_cause_text cause.now) }
{
    match cause {
        Cause::Writes(register) | Cause::Reads(register) => push_for_register(out, *register),
        Cause::Takes(kind) => push_for_unit(out, *kind),
        Cause::References(_) => push_text(out, b",\"for\":\"memory\",\"name\":null"),
        Cause::Ends => push_text(out, b",\"for\":\"end\",\"name\":null"),
    }
}

/// A stretch of minor cycles in which an instruction waits.
#[tactic(auto, unfolding(crate::specs::Pieces::wait_text))]
fn push_wait(out: &mut Vec<u8>, stretch: &Stretch) -> Result<(), AllocError>
    ensures { OnOk result (out.new.items ≡ out.old.items ++ wait_text stretch.now) }
{
    push_wait_start(out, stretch)?;
    push_cause(out, &stretch.holder.cause)?;
    push_field(out, b",\"by\":", stretch.holder.number as usize)?;
    push_text(out, b"}")
}

/// All that an instruction waits for.
#[tactic(auto, unfolding(crate::specs::Pieces::waits_text))]
pub(crate) fn push_waits(out: &mut Vec<u8>, waits: &[Stretch]) -> Result<(), AllocError>
    ensures { OnOk result (out.new.items ≡ out.old.items ++ waits_text waits.now) }
{
    push_text(out, b"[")?;
    for (i, stretch) in waits.iter().enumerate() {
        push_comma(out, 0 < i)?;
        push_wait(out, stretch)?;
    }
    push_text(out, b"]")
}
