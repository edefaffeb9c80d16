//! The rows of units and registers below a chart, for `chart --units` (`push_units_chart`).

ghost use Rattle.std.specs.Prelude.{◌≡◌, ◌≤◌, ◌+◌, ◌++◌, OnOk, flat_map, length, map};
ghost use Rattle.std.specs.List.{range_with_len};
ghost use Rattle.s66_isa.specs.{BLOCK_LIMIT, all_kinds};
ghost use Rattle.s66_model.specs.{points_of};
ghost use Rattle.s66_line.specs.{instrs_of, TEXT_LIMIT};
ghost use Rattle.s66_why.specs.{cell, cells, copy_rows, kind_rows, register_head, register_row, register_rows, reservation_rows, unit_head, unit_row, units_chart, units_width};

use crate::chart::push_chart_in_places;
use crate::placed::PlacedInstr;
use crate::places::{push_blanks, push_in_places, text_width};
use crate::points::points_of;
use crate::reservation::{Reservation, cell, register_reservations, unit_reservations};
use crate::row::NAME_ROOM;
use crate::text::push_register_name;
use crate::units::{left, taken, works_of_kind};
use crate::work::{Work, works_of};
use arrayvec::ArrayVec;
use itoa::Buffer;
use s66_isa::{BLOCK_LIMIT, KINDS, Kind, REGISTER_COUNT, Reg, kind_name};
use s66_line::Block;
use s66_time::Timed;
use std::alloc::AllocError;

/// The places of the longest name of a kind.
const KIND_ROOM: usize = 9;

/// How the minor cycles of a row are drawn.
fn push_marks(
    out: &mut Vec<u8>,
    cycles: u32,
    reservations: &[Reservation],
) -> Result<(), AllocError>
    ensures { OnOk result (out.new.items ≡ out.old.items ++ map (cell reservations.now) (range_with_len 0 cycles)) }
{
    for cycle in 0..cycles {
        out.push(cell(reservations, cycle))?;
    }
    Ok(())
}

/// What stands after the head of a row.
fn push_cells(
    out: &mut Vec<u8>,
    cycles: u32,
    reservations: &[Reservation],
) -> Result<(), AllocError>
    ensures { OnOk result (out.new.items ≡ out.old.items ++ cells cycles reservations.now) }
{
    push_blanks(out, NAME_ROOM + 1)?;
    push_marks(out, cycles, reservations)?;
    out.extend_from_slice(b"\n")
}

/// The kind of a unit and its number among those of the kind, from 1.
fn push_unit_head(
    out: &mut Vec<u8>,
    width: usize,
    kind: Kind,
    copy: usize,
) -> Result<(), AllocError>
    ensures { OnOk result (out.new.items ≡ out.old.items ++ unit_head width kind copy) }
{
    let mut buffer = Buffer::new();
    push_in_places(out, kind_name(kind), KIND_ROOM)?;
    push_in_places(
        out,
        buffer.format(copy).as_bytes(),
        width.saturating_sub(KIND_ROOM + 1),
    )
}

/// The row of a unit that does this, if it does anything.
fn push_unit_row(
    out: &mut Vec<u8>,
    width: usize,
    cycles: u32,
    kind: Kind,
    copy: usize,
    works: &[Work],
) -> Result<(), AllocError>
    requires { length works.now ≤ BLOCK_LIMIT }
    ensures { OnOk result (out.new.items ≡ out.old.items ++ unit_row width cycles kind copy works.now) }
{
    let reservations = unit_reservations(works);
    match reservations.as_slice() {
        [] => Ok(()),
        held => {
            push_unit_head(out, width, kind, copy)?;
            push_cells(out, cycles, held)
        }
    }
}

/// The rows of the units of a kind, whose instructions these are: as many as `most`, at most.
fn push_copy_rows(
    out: &mut Vec<u8>,
    most: usize,
    width: usize,
    cycles: u32,
    kind: Kind,
    works: ArrayVec<Work, BLOCK_LIMIT>,
) -> Result<(), AllocError>
    requires { most ≤ BLOCK_LIMIT }
    ensures { OnOk result (out.new.items ≡ out.old.items ++ copy_rows most 1 width cycles kind works.items) }
{
    let mut rest = works;
    for unit in 0..most {
        push_unit_row(
            out,
            width,
            cycles,
            kind,
            unit + 1,
            taken(rest.as_slice()).as_slice(),
        )?;
        rest = left(rest.as_slice());
    }
    Ok(())
}

/// The rows of the units of a kind.
fn push_kind_rows(
    out: &mut Vec<u8>,
    width: usize,
    cycles: u32,
    works: &[Work],
    kind: Kind,
) -> Result<(), AllocError>
    requires { length works.now ≤ BLOCK_LIMIT }
    ensures { OnOk result (out.new.items ≡ out.old.items ++ kind_rows width cycles works.now kind) }
{
    push_copy_rows(
        out,
        works.len(),
        width,
        cycles,
        kind,
        works_of_kind(works, kind),
    )
}

/// The rows of all units that these instructions take.
fn push_unit_rows(
    out: &mut Vec<u8>,
    width: usize,
    cycles: u32,
    works: &[Work],
) -> Result<(), AllocError>
    requires { length works.now ≤ BLOCK_LIMIT }
    ensures { OnOk result (out.new.items ≡ out.old.items ++ flat_map (kind_rows width cycles works.now) all_kinds) }
{
    for kind in KINDS {
        push_kind_rows(out, width, cycles, works, kind)?;
    }
    Ok(())
}

/// The name of a register.
fn push_register_head(out: &mut Vec<u8>, width: usize, register: Reg) -> Result<(), AllocError>
    ensures { OnOk result (out.new.items ≡ out.old.items ++ register_head width register) }
{
    push_register_name(out, register)?;
    push_blanks(out, width.saturating_sub(2))?;
    out.extend_from_slice(b" ")
}

/// The row of a register, if any of these instructions writes it.
fn push_register_row(
    out: &mut Vec<u8>,
    width: usize,
    cycles: u32,
    points: &[PlacedInstr],
    register: Reg,
) -> Result<(), AllocError>
    requires { length points.now ≤ BLOCK_LIMIT }
    ensures { OnOk result (out.new.items ≡ out.old.items ++ register_row width cycles points.now register) }
{
    let reservations = register_reservations(points, register);
    match reservations.as_slice() {
        [] => Ok(()),
        held => {
            push_register_head(out, width, register)?;
            push_cells(out, cycles, held)
        }
    }
}

/// The rows of all registers that these instructions write.
fn push_register_rows(
    out: &mut Vec<u8>,
    width: usize,
    cycles: u32,
    points: &[PlacedInstr],
) -> Result<(), AllocError>
    requires { length points.now ≤ BLOCK_LIMIT }
    ensures { OnOk result (out.new.items ≡ out.old.items ++ register_rows width cycles points.now) }
{
    for index in 0..REGISTER_COUNT {
        push_register_row(out, width, cycles, points, Reg::of_index(index as u8))?;
    }
    Ok(())
}

/// The rows of what a timed order reserves.
fn push_reservation_rows(out: &mut Vec<u8>, width: usize, timed: &Timed) -> Result<(), AllocError>
    ensures { OnOk result (out.new.items ≡ out.old.items ++ reservation_rows width timed.now) }
{
    let points = points_of(timed);
    let points = points.as_slice();
    let works = works_of(timed, points);
    push_unit_rows(out, width, timed.total(), works.as_slice())?;
    push_register_rows(out, width, timed.total(), points)
}

/// How many places a chart of a block needs before its rows.
fn units_width(block: &Block) -> usize
    ensures value { result ≡ units_width block.now }
    ensures few { result ≤ TEXT_LIMIT }
{
    text_width(block).max(KIND_ROOM + 4)
}

/// Appends a timed order of a block as `push_text_chart` draws it, and below it which instruction holds what in each minor cycle:
/// a row for each functional unit that is taken, from the issue of an instruction until it is free, and one for each register that is
/// written, from the issue until the result is done. In a row stands the number of the instruction, then dashes, and dots while nobody
/// holds. `Err` is out of memory.
pub fn push_units_chart(out: &mut Vec<u8>, block: &Block, timed: &Timed) -> Result<(), AllocError>
    requires { timed.now.problem.block ≡ instrs_of block.now }
    ensures { OnOk result (out.new.items ≡ out.old.items ++ units_chart block.now timed.now) }
{
    let width = units_width(block);
    push_chart_in_places(out, block, width, timed)?;
    push_reservation_rows(out, width, timed)
}
