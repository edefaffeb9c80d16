//! The rows of the parcels: whichever instruction issues last, it issues after the parcels of all others.

ghost use Rattle.std.specs.Prelude.{◌≡◌, ◌≤◌, ◌++◌, OnOk, length, map};
ghost use Rattle.s66_model.specs.{row_at, remaining, sum_remaining};
ghost use Rattle.s66_cert.specs.{document_of};
ghost use Rattle.s66_checker.specs.{problem_of};
ghost use Rattle.s66_reasons.specs.{row_text, rows_text, if_last_words, last_row, slot_after};

use crate::words::{push_around, push_number};
use s66_cert::Document;
use s66_checker::{Prefix, next, own_parcels, remaining_parcels, tail};
use s66_device::push_between;
use std::alloc::AllocError;

/// When the end is if n issues last, in this slot, and takes this time.
fn push_if_last(
    out: &mut Vec<u8>,
    document: &Document,
    n: u8,
    slot: usize,
    time: usize,
) -> Result<(), AllocError>
    ensures { OnOk result (out.new.items ≡ out.old.items ++ if_last_words (document_of document.now) n slot time) }
{
    push_around(out, b"if ", document, n, b"")?;
    push_between(out, b" issues last: at ", slot, b" or later, and ")?;
    push_between(out, b"", time, b" to the end")
}

/// The row of an instruction that may issue last, of those that remain, which have so many parcels and begin with this slot.
fn push_last(
    out: &mut Vec<u8>,
    document: &Document,
    prefix: &Prefix,
    next: u32,
    parcels: u32,
    n: u8,
) -> Result<(), AllocError>
    requires problem { prefix.now.problem ≡ problem_of (document_of document.now) }
    requires next { next ≡ slot_after prefix.now.problem prefix.now.numbers }
    requires parcels { parcels ≡ sum_remaining prefix.now.problem.block prefix.now.numbers (λ m.
        (row_at prefix.now.problem m).parcels) }
    requires n { (1 ≤ n) × (n ≤ length prefix.now.problem.block) }
    ensures { OnOk result (out.new.items ≡ out.old.items ++
        row_text (last_row (document_of document.now) prefix.now.numbers n)) }
{
    let row = prefix.row(n);
    let slot = next as usize + parcels.saturating_sub(own_parcels(row)) as usize;
    let time = tail(row) as usize;
    push_number(out, slot + time)?;
    push_if_last(out, document, n, slot, time)?;
    out.extend_from_slice(b"\n")
}

/// The rows of the parcels, one for each instruction that remains.
pub(crate) fn push_parcels(
    out: &mut Vec<u8>,
    document: &Document,
    prefix: &Prefix,
) -> Result<(), AllocError>
    requires { prefix.now.problem ≡ problem_of (document_of document.now) }
    ensures { OnOk result (out.new.items ≡ out.old.items ++
        rows_text (map (last_row (document_of document.now) prefix.now.numbers)
        (remaining prefix.now.problem.block prefix.now.numbers))) }
{
    let next = next(prefix.points());
    let parcels = remaining_parcels(prefix);
    for position in 0..prefix.count() {
        if prefix.is_remaining(position + 1) {
            push_last(out, document, prefix, next, parcels, position + 1)?;
        }
    }
    Ok(())
}
