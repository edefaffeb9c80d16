//! The row of a kind of unit: which instructions need it, and for how long.

ghost use Rattle.std.specs.Prelude.{◌≡◌, ◌≤◌, ◌++◌, ◌&&◌, OnOk, length};
ghost use Rattle.s66_isa.specs.{BLOCK_LIMIT, same_kind};
ghost use Rattle.s66_model.specs.{row_at, is_remaining};
ghost use Rattle.s66_cert.specs.{document_of};
ghost use Rattle.s66_checker.specs.{problem_of};
ghost use Rattle.s66_reasons.specs.{after_words, before_words, how_long_words, load_words, no_need_words, numbers_of, sharing_words, slot_after, slot_words, unit_words, who_needs_words, work_before};
ghost use Rattle.s66_reasons.specs.{each_words, longest_use, row_text, AreWithin};
ghost use Rattle.s66_reasons.specs.Reasons.{load_row};

use crate::words::{push_instructions, push_number, unit_name};
use arrayvec::ArrayVec;
use s66_cert::Document;
use s66_checker::{Prefix, load, next, remaining_work, rest_busy};
use s66_device::{push_between, push_field};
use s66_isa::{BLOCK_LIMIT, Kind, is_same_kind};
use std::alloc::AllocError;

/// The kind of unit that an instruction needs.
pub(crate) fn kind_of(prefix: &Prefix, n: u8) -> Kind
    requires { (1 ≤ n) × (n ≤ length prefix.now.problem.block) }
    ensures { result ≡ (row_at prefix.now.problem n).kind }
{
    prefix.row(n).kind
}

/// Whether a number remains, and its instruction needs this kind.
fn needs(prefix: &Prefix, kind: Kind, n: u8) -> bool
    requires { (1 ≤ n) × (n ≤ length prefix.now.problem.block) }
    ensures { result ≡ (is_remaining prefix.now.problem.block prefix.now.numbers n &&
        same_kind (row_at prefix.now.problem n).kind kind) }
{
    prefix.is_remaining(n) && is_same_kind(kind_of(prefix, n), kind)
}

/// The numbers that remain whose instructions need this kind, rising.
fn numbers_of(prefix: &Prefix, kind: Kind) -> ArrayVec<u8, BLOCK_LIMIT>
    ensures value { result.items ≡ numbers_of prefix.now.problem prefix.now.numbers kind }
    ensures within { AreWithin (length prefix.now.problem.block) result.items }
{
    let mut numbers = ArrayVec::new();
    for position in 0..prefix.count() {
        if needs(prefix, kind, position + 1) {
            numbers.push(position + 1);
        }
    }
    numbers
}

/// For how long one of these needs its unit at most.
pub(crate) fn longest_use(prefix: &Prefix, numbers: &[u8]) -> u32
    requires { AreWithin (length prefix.now.problem.block) numbers.now }
    ensures { result ≡ longest_use prefix.now.problem numbers.now }
{
    let mut most = 0u32;
    for n in numbers {
        most = most.max(prefix.row(*n).hold + 1);
    }
    most
}

/// For how long each of so many needs its unit.
pub(crate) fn push_each(
    out: &mut Vec<u8>,
    count: usize,
    total: u32,
    most: u32,
) -> Result<(), AllocError>
    requires { count ≤ BLOCK_LIMIT }
    ensures { OnOk result (out.new.items ≡ out.old.items ++ each_words count total most) }
{
    if count == 1 {
        push_field(out, b"", total as usize)
    } else if total as usize == count * most as usize {
        push_field(out, b"", most as usize)?;
        out.extend_from_slice(b" each")
    } else {
        push_field(out, b"up to ", most as usize)
    }
}

/// How units of so many copies share what they do.
fn push_sharing(out: &mut Vec<u8>, copies: u32) -> Result<(), AllocError>
    ensures { OnOk result (out.new.items ≡ out.old.items ++ sharing_words copies) }
{
    if copies == 1 {
        out.extend_from_slice(b", one after the other")
    } else {
        push_between(out, b", shared by ", copies as usize, b"")
    }
}

/// The units of a kind, of which there are so many.
fn push_unit(out: &mut Vec<u8>, kind: Kind, copies: u32) -> Result<(), AllocError>
    ensures { OnOk result (out.new.items ≡ out.old.items ++ unit_words kind copies) }
{
    out.extend_from_slice(unit_name(kind))?;
    let ending: &[u8] = if copies == 1 { b" unit" } else { b" units" };
    out.extend_from_slice(ending)
}

/// No instruction that remains needs the units of a kind, where `slot` is the next.
fn push_no_need(out: &mut Vec<u8>, slot: u32, kind: Kind, copies: u32) -> Result<(), AllocError>
    ensures { OnOk result (out.new.items ≡ out.old.items ++ no_need_words slot kind copies) }
{
    let none: &[u8] = if slot == 0 { b"no" } else { b"no other" };
    out.extend_from_slice(none)?;
    out.extend_from_slice(b" instruction needs the ")?;
    push_unit(out, kind, copies)
}

/// Which instructions need the units of a kind.
fn push_who_needs(
    out: &mut Vec<u8>,
    document: &Document,
    kind: Kind,
    copies: u32,
    numbers: &[u8],
) -> Result<(), AllocError>
    ensures { OnOk result (out.new.items ≡ out.old.items ++
        who_needs_words (document_of document.now) kind copies numbers.now) }
{
    push_instructions(out, document, numbers)?;
    let need: &[u8] = if numbers.len() == 1 {
        b" needs the "
    } else {
        b" need the "
    };
    out.extend_from_slice(need)?;
    push_unit(out, kind, copies)
}

/// For how long they do, and how the units share it.
fn push_how_long(
    out: &mut Vec<u8>,
    copies: u32,
    total: u32,
    count: usize,
    most: u32,
) -> Result<(), AllocError>
    requires { count ≤ BLOCK_LIMIT }
    ensures { OnOk result (out.new.items ≡ out.old.items ++ how_long_words copies total count most) }
{
    out.extend_from_slice(b" for ")?;
    push_each(out, count, total, most)?;
    push_field(out, b": ", total as usize)?;
    push_sharing(out, copies)
}

/// Which instructions need the units of a kind, and for how long.
fn push_needs(
    out: &mut Vec<u8>,
    document: &Document,
    kind: Kind,
    copies: u32,
    total: u32,
    most: u32,
    numbers: &[u8],
) -> Result<(), AllocError>
    requires { length numbers.now ≤ BLOCK_LIMIT }
    ensures { OnOk result (out.new.items ≡ out.old.items ++
        (who_needs_words (document_of document.now) kind copies numbers.now ++
        how_long_words copies total (length numbers.now) most)) }
{
    push_who_needs(out, document, kind, copies, numbers)?;
    push_how_long(out, copies, total, numbers.len(), most)
}

/// What these instructions, which are all that remain of a kind, need of its units.
fn push_load_words(
    out: &mut Vec<u8>,
    document: &Document,
    slot: u32,
    kind: Kind,
    copies: u32,
    total: u32,
    most: u32,
    numbers: &[u8],
) -> Result<(), AllocError>
    requires { length numbers.now ≤ BLOCK_LIMIT }
    ensures { OnOk result (out.new.items ≡ out.old.items ++
        load_words (document_of document.now) slot kind copies total most numbers.now) }
{
    if numbers.is_empty() {
        return push_no_need(out, slot, kind, copies);
    }
    push_needs(out, document, kind, copies, total, most, numbers)
}

/// What units still do for a prefix, if there is something, and with it.
fn push_before(out: &mut Vec<u8>, total: u32, before: u32) -> Result<(), AllocError>
    ensures { OnOk result (out.new.items ≡ out.old.items ++ before_words total before) }
{
    if before == 0 {
        return Ok(());
    }
    push_between(out, b"; with ", before as usize, b" for those before: ")?;
    push_field(out, b"", total as usize + before as usize)
}

/// From when on all is counted, if a prefix comes first.
fn push_slot(out: &mut Vec<u8>, slot: u32) -> Result<(), AllocError>
    ensures { OnOk result (out.new.items ≡ out.old.items ++ slot_words slot) }
{
    if slot == 0 {
        return Ok(());
    }
    push_between(out, b"; from ", slot as usize, b" on")
}

/// What a prefix adds to a load.
fn push_after(
    out: &mut Vec<u8>,
    prefix: &Prefix,
    kind: Kind,
    total: u32,
    slot: u32,
) -> Result<(), AllocError>
    requires { slot ≡ slot_after prefix.now.problem prefix.now.numbers }
    ensures { OnOk result (out.new.items ≡ out.old.items ++
        after_words total (work_before prefix.now.problem prefix.now.numbers kind) slot) }
{
    push_before(out, total, rest_busy(prefix.points(), kind, slot))?;
    push_slot(out, slot)
}

/// The row of the load of a kind of unit, which of all that remain these instructions need.
fn push_load_row(
    out: &mut Vec<u8>,
    document: &Document,
    prefix: &Prefix,
    kind: Kind,
    numbers: &[u8],
) -> Result<(), AllocError>
    requires problem { prefix.now.problem ≡ problem_of (document_of document.now) }
    requires few { length numbers.now ≤ BLOCK_LIMIT }
    requires within { AreWithin (length prefix.now.problem.block) numbers.now }
    requires numbers { numbers.now ≡ numbers_of prefix.now.problem prefix.now.numbers kind }
    ensures { OnOk result (out.new.items ≡ out.old.items ++
        row_text (load_row (document_of document.now) prefix.now.numbers kind)) }
{
    let slot = next(prefix.points());
    let copies = prefix.copies(kind);
    let total = remaining_work(prefix, kind);
    let most = longest_use(prefix, numbers);
    push_number(out, load(prefix, kind) as usize)?;
    push_load_words(out, document, slot, kind, copies, total, most, numbers)?;
    push_after(out, prefix, kind, total, slot)?;
    out.extend_from_slice(b"\n")
}

/// The row of the load of a kind of unit, after the prefix.
pub(crate) fn push_load(
    out: &mut Vec<u8>,
    document: &Document,
    prefix: &Prefix,
    kind: Kind,
) -> Result<(), AllocError>
    requires { prefix.now.problem ≡ problem_of (document_of document.now) }
    ensures { OnOk result (out.new.items ≡ out.old.items ++
        row_text (load_row (document_of document.now) prefix.now.numbers kind)) }
{
    let numbers = numbers_of(prefix, kind);
    push_load_row(out, document, prefix, kind, numbers.as_slice())
}
