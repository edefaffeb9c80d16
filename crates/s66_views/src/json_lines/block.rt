//! The members of a block: number, label, lines, size, profile, instructions and the source order.

ghost use Rattle.std.specs.Prelude.{◌≡◌, ◌++◌, OnOk};
ghost use Rattle.s66_views.specs.{head_text, json_lines_text, name_of_block, size_text, start_text};

use crate::json_lines::instruction::push_instructions;
use crate::json_lines::label::push_label;
use crate::json_lines::order::push_timed;
use crate::json_lines::profile::push_profile;
use crate::json_lines::text::push_text;
use s66_device::push_field;
use s66_isa::Profile;
use s66_line::Block;
use s66_time::Timed;
use std::alloc::AllocError;

/// The number of a block, its label and the name by which it is entered.
#[tactic(auto, unfolding(crate::specs::Pieces::name_of_block))]
fn push_name(out: &mut Vec<u8>, number: usize, label: &[u8], entry: &[u8]) -> Result<(), AllocError>
    ensures { OnOk result (out.new.items ≡ out.old.items ++ name_of_block number label.now entry.now) }
{
    push_field(out, b"{\"schema\":1,\"block\":", number)?;
    push_text(out, b",\"label\":")?;
    push_label(out, label)?;
    push_text(out, b",\"entry\":")?;
    push_label(out, entry)
}

/// Its first and its last line.
#[tactic(auto, unfolding(crate::specs::Pieces::json_lines_text))]
fn push_lines(out: &mut Vec<u8>, block: &Block) -> Result<(), AllocError>
    ensures { OnOk result (out.new.items ≡ out.old.items ++ json_lines_text block.now) }
{
    let count = block.count();
    push_field(out, b",\"line\":", block.line(1) as usize)?;
    push_field(out, b",\"last_line\":", block.line(count) as usize)
}

/// How many instructions and parcels it has.
#[tactic(auto, unfolding(crate::specs::Pieces::size_text))]
fn push_size(out: &mut Vec<u8>, block: &Block) -> Result<(), AllocError>
    ensures { OnOk result (out.new.items ≡ out.old.items ++ size_text block.now) }
{
    push_field(out, b",\"count\":", block.count())?;
    push_field(out, b",\"parcels\":", block.parcels() as usize)
}

/// What a block is, and under which profile it is timed.
#[tactic(auto, unfolding(crate::specs::Pieces::head_text))]
fn push_head(
    out: &mut Vec<u8>,
    number: usize,
    entry: &[u8],
    profile: &Profile,
    block: &Block,
) -> Result<(), AllocError>
    ensures { OnOk result (out.new.items ≡ out.old.items ++ head_text number entry.now profile.now block.now) }
{
    push_name(out, number, block.label(), entry)?;
    push_lines(out, block)?;
    push_size(out, block)?;
    push_profile(out, profile)
}

/// A block, whose number is from 1, as it is written, to where it is said what is found.
#[tactic(auto, unfolding(crate::specs::Pieces::start_text))]
pub(crate) fn push_start(
    out: &mut Vec<u8>,
    number: usize,
    entry: &[u8],
    block: &Block,
    written: &Timed,
) -> Result<(), AllocError>
    ensures { OnOk result (out.new.items ≡ out.old.items ++ start_text number entry.now block.now written.now) }
{
    push_head(out, number, entry, written.profile(), block)?;
    push_instructions(out, written.profile(), block)?;
    push_text(out, b",\"written\":")?;
    push_timed(out, written)?;
    push_text(out, b"},\"found\":")
}
