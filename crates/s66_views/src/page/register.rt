//! The rows of registers: which instruction holds each, from when until when.

ghost use Rattle.std.specs.Prelude.{◌≡◌, ◌≤◌, ◌++◌, OnOk, flat_map, length};
ghost use Rattle.s66_isa.specs.{BLOCK_LIMIT};
ghost use Rattle.s66_views.specs.{register_bar, page_register_head, page_register_row, register_row_of, page_register_rows};

use crate::page::bar::push_numbered_bar;
use crate::page::text::{push_number_at, push_text};
use s66_isa::{REGISTER_COUNT, Reg};
use s66_why::{PlacedInstr, Reservation, push_register_name, register_reservations};
use std::alloc::AllocError;

/// What is drawn in the row of a register of an instruction that writes it.
#[tactic(auto, unfolding(crate::specs::Page::register_bar))]
fn push_register_bar(out: &mut Vec<u8>, reservation: &Reservation) -> Result<(), AllocError>
    ensures { OnOk result (out.new.items ≡ out.old.items ++ register_bar reservation.now) }
{
    let cycles = reservation.until.saturating_sub(reservation.from);
    push_numbered_bar(out, b"taken", reservation.from, cycles, reservation.number)?;
    push_number_at(out, reservation.from as usize, reservation.number as usize)
}

/// What is drawn in the row of a register.
fn push_register_bars(out: &mut Vec<u8>, reservations: &[Reservation]) -> Result<(), AllocError>
    ensures { OnOk result (out.new.items ≡ out.old.items ++ flat_map register_bar reservations.now) }
{
    for reservation in reservations {
        push_register_bar(out, reservation)?;
    }
    Ok(())
}

/// How the row of a register begins.
#[tactic(auto, unfolding(crate::specs::Page::page_register_head))]
fn push_register_head(out: &mut Vec<u8>, register: Reg) -> Result<(), AllocError>
    ensures { OnOk result (out.new.items ≡ out.old.items ++ page_register_head register) }
{
    push_text(out, b"<tr class='register'><th>     ")?;
    push_register_name(out, register)?;
    push_text(out, b"<td><svg>")
}

/// The row of a register.
#[tactic(auto, unfolding(crate::specs::Page::page_register_row))]
fn push_register_row(
    out: &mut Vec<u8>,
    register: Reg,
    reservations: &[Reservation],
) -> Result<(), AllocError>
    ensures { OnOk result (out.new.items ≡ out.old.items ++ page_register_row register reservations.now) }
{
    push_register_head(out, register)?;
    push_register_bars(out, reservations)?;
    push_text(out, b"</svg>\n")
}

/// The row of a register, if it is reserved at all.
fn push_register_row_of(
    out: &mut Vec<u8>,
    register: Reg,
    reservations: &[Reservation],
) -> Result<(), AllocError>
    ensures { OnOk result (out.new.items ≡ out.old.items ++ register_row_of register reservations.now) }
{
    match reservations {
        [] => Ok(()),
        _ => push_register_row(out, register, reservations),
    }
}

/// The rows of all registers that these instructions write.
pub(crate) fn push_register_rows(
    out: &mut Vec<u8>,
    points: &[PlacedInstr],
) -> Result<(), AllocError>
    requires { length points.now ≤ BLOCK_LIMIT }
    ensures { OnOk result (out.new.items ≡ out.old.items ++ page_register_rows points.now) }
{
    for index in 0..REGISTER_COUNT {
        let register = Reg::of_index(index as u8);
        let reservations = register_reservations(points, register);
        push_register_row_of(out, register, reservations.as_slice())?;
    }
    Ok(())
}
