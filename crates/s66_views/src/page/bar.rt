//! The bars of a row: what an instruction does and what it waits for, with the words that a bar shows.

ghost use Rattle.std.specs.Prelude.{◌≡◌, ◌-◌, ◌++◌, OnOk, codes};
ghost use Rattle.s66_isa.specs.{kind_name};
ghost use Rattle.s66_why.specs.{register_name};
ghost use Rattle.s66_views.specs.{bar, bar_start, numbered_bar, span, cause_words, words, stretch_title, stretch_bar, stretch_words, work_title, work_bar};

use crate::page::text::{push_number, push_text};
use s66_device::push_field;
use s66_isa::{Kind, Reg, kind_name};
use s66_why::{Cause, Holder, Stretch, Work, conflict_name, push_register_name};
use std::alloc::AllocError;

/// The end of a bar, after its title.
const BAR_END: &[u8] = b"</title></rect>";

/// The class of a bar, with which it begins.
fn push_class(out: &mut Vec<u8>, class: &[u8]) -> Result<(), AllocError>
    ensures { OnOk result (out.new.items ≡ out.old.items ++ codes "<rect class='" ++ class.now ++ codes "'") }
{
    push_text(out, b"<rect class='")?;
    push_text(out, class)?;
    push_text(out, b"'")
}

/// From which minor cycle on a bar is drawn, and how many long.
#[tactic(auto, unfolding(crate::specs::Page::span))]
fn push_span(out: &mut Vec<u8>, from: u32, cycles: u32) -> Result<(), AllocError>
    ensures { OnOk result (out.new.items ≡ out.old.items ++ span from cycles) }
{
    push_field(out, b" x='", from as usize)?;
    push_field(out, b"em' width='", cycles as usize)?;
    push_text(out, b"em'><title>")
}

/// A bar from a minor cycle on, up to its title.
#[tactic(auto, unfolding(crate::specs::Page::bar_start))]
fn push_bar_start(out: &mut Vec<u8>, class: &[u8], from: u32, cycles: u32) -> Result<(), AllocError>
    ensures { OnOk result (out.new.items ≡ out.old.items ++ bar_start class.now from cycles) }
{
    push_class(out, class)?;
    push_span(out, from, cycles)
}

/// A register and words after it.
fn push_register(out: &mut Vec<u8>, register: Reg, words: &[u8]) -> Result<(), AllocError>
    ensures { OnOk result (out.new.items ≡ out.old.items ++ (register_name register ++ words.now)) }
{
    push_register_name(out, register)?;
    push_text(out, words)
}

/// A kind of unit and words after it.
fn push_kind(out: &mut Vec<u8>, kind: Kind, words: &[u8]) -> Result<(), AllocError>
    ensures { OnOk result (out.new.items ≡ out.old.items ++ (kind_name kind ++ words.now)) }
{
    push_text(out, kind_name(kind))?;
    push_text(out, words)
}

/// What is waited for.
fn push_cause(out: &mut Vec<u8>, cause: &Cause) -> Result<(), AllocError>
    ensures { OnOk result (out.new.items ≡ out.old.items ++ cause_words cause.now) }
{
    match cause {
        Cause::Writes(register) => push_register(out, *register, b" still to come from "),
        Cause::Takes(kind) => push_kind(out, *kind, b" taken by "),
        Cause::References(_) => push_text(out, b"memory used by "),
        Cause::Reads(register) => push_register(out, *register, b" still to be read by "),
        Cause::Ends => push_text(out, b"the end of "),
    }
}

/// What is waited for, and of which instruction.
fn push_words(out: &mut Vec<u8>, holder: &Holder) -> Result<(), AllocError>
    ensures { OnOk result (out.new.items ≡ out.old.items ++ words holder.now) }
{
    push_cause(out, &holder.cause)?;
    push_number(out, holder.number)
}

/// The title of the bar of a stretch.
#[tactic(auto, unfolding(crate::specs::Page::stretch_title))]
fn push_stretch_title(out: &mut Vec<u8>, stretch: &Stretch) -> Result<(), AllocError>
    ensures { OnOk result (out.new.items ≡ out.old.items ++ stretch_title stretch.now) }
{
    push_text(out, conflict_name(stretch.conflict))?;
    push_field(out, b" ", stretch.from as usize)?;
    push_field(out, b" TO ", stretch.to as usize)?;
    push_text(out, b": ")?;
    push_words(out, &stretch.holder)
}

/// The bar of a stretch.
#[tactic(auto, unfolding(crate::specs::Page::stretch_bar))]
pub(crate) fn push_stretch_bar(out: &mut Vec<u8>, stretch: &Stretch) -> Result<(), AllocError>
    ensures { OnOk result (out.new.items ≡ out.old.items ++ stretch_bar stretch.now) }
{
    let cycles = stretch.to.saturating_sub(stretch.from);
    push_bar_start(out, conflict_name(stretch.conflict), stretch.from, cycles)?;
    push_stretch_title(out, stretch)?;
    push_text(out, BAR_END)
}

/// The words of a stretch.
#[tactic(auto, unfolding(crate::specs::Page::stretch_words))]
pub(crate) fn push_stretch_words(out: &mut Vec<u8>, stretch: &Stretch) -> Result<(), AllocError>
    ensures { OnOk result (out.new.items ≡ out.old.items ++ stretch_words stretch.now) }
{
    push_text(out, b" <tspan class='")?;
    push_text(out, conflict_name(stretch.conflict))?;
    push_text(out, b"'>")?;
    push_words(out, &stretch.holder)?;
    push_text(out, b"</tspan>")
}

/// The title of the bar of an instruction.
#[tactic(auto, unfolding(crate::specs::Page::work_title))]
fn push_work_title(out: &mut Vec<u8>, work: &Work) -> Result<(), AllocError>
    ensures { OnOk result (out.new.items ≡ out.old.items ++ work_title work.now) }
{
    push_field(out, b"ISSUE ", work.issue as usize)?;
    push_field(out, b" START ", work.start as usize)?;
    push_field(out, b" DONE ", work.done as usize)?;
    push_field(out, b" FREE ", work.free as usize)
}

/// A bar of this class while a unit works on an instruction.
fn push_worked(out: &mut Vec<u8>, class: &[u8], work: &Work) -> Result<(), AllocError>
    ensures { OnOk result (out.new.items ≡ out.old.items ++
        bar class.now work.now.start work.now.latency (work_title work.now)) }
{
    push_bar_start(out, class, work.start, work.latency)?;
    push_work_title(out, work)?;
    push_text(out, BAR_END)
}

/// The bar of an instruction while its unit works.
#[tactic(auto, unfolding(crate::specs::Page::work_bar))]
pub(crate) fn push_work_bar(out: &mut Vec<u8>, work: &Work) -> Result<(), AllocError>
    ensures { OnOk result (out.new.items ≡ out.old.items ++ work_bar work.now) }
{
    push_worked(out, kind_name(work.kind), work)
}

/// A bar whose title is the number of an instruction.
#[tactic(auto, unfolding(crate::specs::Page::numbered_bar))]
pub(crate) fn push_numbered_bar(
    out: &mut Vec<u8>,
    class: &[u8],
    from: u32,
    cycles: u32,
    number: u8,
) -> Result<(), AllocError>
    ensures { OnOk result (out.new.items ≡ out.old.items ++ numbered_bar class.now from cycles number) }
{
    push_bar_start(out, class, from, cycles)?;
    push_number(out, number)?;
    push_text(out, BAR_END)
}
