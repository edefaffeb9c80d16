//! The rows of units: what each copy of a kind does, and for how much of the time.

ghost use Rattle.std.specs.Prelude.{◌≡◌, ◌*◌, ◌<◌, ◌≤◌, ◌^◌, ◌++◌, OnOk, flat_map, length};
ghost use Rattle.s66_isa.specs.{BLOCK_LIMIT};
ghost use Rattle.s66_views.specs.{unit_bars, percentage_of, taken, worked, page_unit_head, unit_shares, page_unit_row, unit_row_of, unit_rows, page_kind_rows, all_kind_rows};

use crate::page::bar::push_numbered_bar;
use crate::page::text::{push_number_at, push_text, push_two};
use arrayvec::ArrayVec;
use s66_isa::{BLOCK_LIMIT, Kind, kind_name};
use s66_why::{Work, left, taken, works_of_kind};
use std::alloc::AllocError;

/// What is drawn of an instruction in the row of its unit.
#[tactic(auto, unfolding(crate::specs::Page::unit_bars))]
fn push_unit_bars(out: &mut Vec<u8>, work: &Work) -> Result<(), AllocError>
    ensures { OnOk result (out.new.items ≡ out.old.items ++ unit_bars work.now) }
{
    let taken = work.free.saturating_sub(work.issue);
    push_numbered_bar(out, b"taken", work.issue, taken, work.number)?;
    push_numbered_bar(
        out,
        kind_name(work.kind),
        work.start,
        work.hold,
        work.number,
    )?;
    push_number_at(out, work.start as usize, work.number as usize)
}

/// What is drawn of instructions in the row of their unit.
fn push_all_unit_bars(out: &mut Vec<u8>, works: &[Work]) -> Result<(), AllocError>
    ensures { OnOk result (out.new.items ≡ out.old.items ++ flat_map unit_bars works.now) }
{
    for work in works {
        push_unit_bars(out, work)?;
    }
    Ok(())
}

/// For how many minor cycles a unit is taken.
fn cycles_taken(works: &[Work]) -> usize
    requires { length works.now ≤ BLOCK_LIMIT }
    ensures value { result ≡ taken works.now }
    ensures few { result ≤ 2 ^ 40 }
{
    let mut cycles = 0usize;
    for work in works {
        cycles += work.free.saturating_sub(work.issue) as usize;
    }
    cycles
}

/// For how many minor cycles a unit works on an instruction.
fn hold_of(work: &Work) -> u32
    ensures { result ≡ work.now.hold }
{
    work.hold
}

/// For how many minor cycles a unit works.
fn cycles_worked(works: &[Work]) -> usize
    requires { length works.now ≤ BLOCK_LIMIT }
    ensures value { result ≡ worked works.now }
    ensures few { result ≤ 2 ^ 40 }
{
    let mut cycles = 0usize;
    for work in works {
        cycles += hold_of(work) as usize;
    }
    cycles
}

/// A share of a time, in per cent, rounded down.
fn share(cycles: usize, total: u32) -> usize
    requires { cycles ≤ 2 ^ 40 }
    ensures { result ≡ percentage_of cycles total }
{
    if total == 0 {
        0
    } else {
        100 * cycles / total as usize
    }
}

/// The shares of the time for which a unit is taken and works, in per cent.
#[tactic(auto, unfolding(crate::specs::Page::unit_shares))]
fn push_unit_shares(out: &mut Vec<u8>, taken: usize, works: usize) -> Result<(), AllocError>
    ensures { OnOk result (out.new.items ≡ out.old.items ++ unit_shares taken works) }
{
    push_two(out, b" TAKEN ", taken, b" % WORKS ", works, b" %<td><svg>")
}

/// How the row of a unit begins.
#[tactic(auto, unfolding(crate::specs::Page::page_unit_head))]
fn push_unit_head(
    out: &mut Vec<u8>,
    name: &[u8],
    taken: usize,
    works: usize,
) -> Result<(), AllocError>
    ensures { OnOk result (out.new.items ≡ out.old.items ++ page_unit_head name.now taken works) }
{
    push_text(out, b"<tr class='unit'><th>     ")?;
    push_text(out, name)?;
    push_unit_shares(out, taken, works)
}

/// The row of a unit.
#[tactic(auto, unfolding(crate::specs::Page::page_unit_row))]
fn push_unit_row(
    out: &mut Vec<u8>,
    kind: Kind,
    total: u32,
    works: &[Work],
) -> Result<(), AllocError>
    requires { length works.now ≤ BLOCK_LIMIT }
    ensures { OnOk result (out.new.items ≡ out.old.items ++ page_unit_row kind total works.now) }
{
    let taken = share(cycles_taken(works), total);
    let worked = share(cycles_worked(works), total);
    push_unit_head(out, kind_name(kind), taken, worked)?;
    push_all_unit_bars(out, works)?;
    push_text(out, b"</svg>\n")
}

/// The row of a unit, if it does anything.
fn push_unit_row_of(
    out: &mut Vec<u8>,
    kind: Kind,
    total: u32,
    works: &[Work],
) -> Result<(), AllocError>
    requires { length works.now ≤ BLOCK_LIMIT }
    ensures { OnOk result (out.new.items ≡ out.old.items ++ unit_row_of kind total works.now) }
{
    match works {
        [] => Ok(()),
        _ => push_unit_row(out, kind, total, works),
    }
}

/// The rows of the units of a kind, whose instructions these are: as many as `most`, at most.
fn push_unit_rows(
    out: &mut Vec<u8>,
    most: usize,
    kind: Kind,
    total: u32,
    works: ArrayVec<Work, BLOCK_LIMIT>,
) -> Result<(), AllocError>
    ensures { OnOk result (out.new.items ≡ out.old.items ++ unit_rows most kind total works.items) }
{
    let mut rest = works;
    for unit in 0..most {
        push_unit_row_of(out, kind, total, taken(rest.as_slice()).as_slice())?;
        rest = left(rest.as_slice());
    }
    Ok(())
}

/// The rows of the units of a kind.
#[tactic(auto, unfolding(crate::specs::Page::page_kind_rows))]
fn push_kind_rows(
    out: &mut Vec<u8>,
    total: u32,
    works: &[Work],
    kind: Kind,
) -> Result<(), AllocError>
    requires { length works.now ≤ BLOCK_LIMIT }
    ensures { OnOk result (out.new.items ≡ out.old.items ++ page_kind_rows total works.now kind) }
{
    push_unit_rows(out, works.len(), kind, total, works_of_kind(works, kind))
}

/// The rows of all units that these instructions of an order take.
#[tactic(auto, unfolding(crate::specs::Page::all_kind_rows))]
pub(crate) fn push_all_kind_rows(
    out: &mut Vec<u8>,
    total: u32,
    works: &[Work],
) -> Result<(), AllocError>
    requires { length works.now ≤ BLOCK_LIMIT }
    ensures { OnOk result (out.new.items ≡ out.old.items ++ all_kind_rows total works.now) }
{
    push_kind_rows(out, total, works, Kind::Boolean)?;
    push_kind_rows(out, total, works, Kind::Shift)?;
    push_kind_rows(out, total, works, Kind::Add)?;
    push_kind_rows(out, total, works, Kind::LongAdd)?;
    push_kind_rows(out, total, works, Kind::Multiply)?;
    push_kind_rows(out, total, works, Kind::Divide)?;
    push_kind_rows(out, total, works, Kind::Increment)
}
