//! The rows of a chain: what each of its instructions waits for of the one before it, and the end of the last.

ghost use Rattle.std.specs.Prelude.{◌≡◌, ◌+◌, ◌≤◌, ◌<◌, ◌^◌, ◌++◌, IfOk, OnOk, None, Some, length};
ghost use Rattle.s66_isa.specs.{BLOCK_LIMIT};
ghost use Rattle.s66_model.specs.{points_of, row_at, head, link};
ghost use Rattle.s66_cert.specs.{document_of};
ghost use Rattle.s66_checker.specs.{problem_of};
ghost use Rattle.s66_reasons.specs.{awaited, chain_rows, end_row, end_words, last_result, lasting, link_row, link_words, start_rows, walk_rows, row_text, rows_text, AreWithin};

use crate::words::{push_around, push_instruction, push_number};
use s66_cert::Document;
use s66_checker::{Prefix, head, link, tail, uses};
use s66_isa::{Reg, Row, Write, has_register};
use s66_why::push_register_name;
use std::alloc::AllocError;

/// The first of these results for which a later instruction waits so long; none if it waits for a reference to memory.
fn awaited(wait: u32, later: &Row, writes: &[Write]) -> Option<Reg>
    ensures { result ≡ awaited wait later.now writes.now }
{
    for write in writes {
        if uses(later, write.reg) && write.latency == wait {
            return Some(write.reg);
        }
    }
    None
}

/// The first of these results that takes so long.
fn lasting(time: u32, writes: &[Write]) -> Option<Reg>
    ensures { result ≡ lasting time writes.now }
{
    for write in writes {
        if write.latency == time {
            return Some(write.reg);
        }
    }
    None
}

/// The result that is there last of all that an instruction does; none if its unit is free no sooner.
fn last_result(row: &Row) -> Option<Reg>
    ensures { result ≡ last_result row.now }
{
    let time = tail(row);
    if row.hold + 1 == time {
        None
    } else {
        lasting(time, row.writes.as_slice())
    }
}

/// What n waits for of m.
pub(crate) fn push_link_words(
    out: &mut Vec<u8>,
    document: &Document,
    later: &Row,
    m: u8,
    n: u8,
    awaited: Option<Reg>,
) -> Result<(), AllocError>
    requires { later.now ≡ row_at (problem_of (document_of document.now)) n }
    ensures { OnOk result (out.new.items ≡ out.old.items ++ link_words (document_of document.now) m n awaited) }
{
    match awaited {
        None => {
            push_instruction(out, document, n)?;
            out.extend_from_slice(b" can reference memory, after ")?;
            push_instruction(out, document, m)?;
            out.extend_from_slice(b" has")
        }
        Some(which) => {
            push_register_name(out, which)?;
            out.extend_from_slice(b" of ")?;
            push_instruction(out, document, m)?;
            out.extend_from_slice(b" is there, which ")?;
            push_instruction(out, document, n)?;
            let use_of_it: &[u8] = if has_register(later.reads.as_slice(), which) {
                b" reads"
            } else {
                b" writes again"
            };
            out.extend_from_slice(use_of_it)
        }
    }
}

/// A result of n is there at last.
fn push_result_end(
    out: &mut Vec<u8>,
    document: &Document,
    n: u8,
    which: Reg,
) -> Result<(), AllocError>
    ensures { OnOk result (out.new.items ≡ out.old.items ++ end_words (document_of document.now) n (Some which)) }
{
    push_register_name(out, which)?;
    out.extend_from_slice(b" of ")?;
    push_instruction(out, document, n)?;
    out.extend_from_slice(b" is there, and that is the end")
}

/// What comes last of all that n does.
pub(crate) fn push_end_words(
    out: &mut Vec<u8>,
    document: &Document,
    n: u8,
    last: Option<Reg>,
) -> Result<(), AllocError>
    ensures { OnOk result (out.new.items ≡ out.old.items ++ end_words (document_of document.now) n last) }
{
    match last {
        None => {
            let after = b" is free, and that is the end";
            push_around(out, b"the unit of ", document, n, after)
        }
        Some(which) => push_result_end(out, document, n, which),
    }
}

/// The row of n, which comes so long after m, which starts no sooner than `start`.
fn push_link(
    out: &mut Vec<u8>,
    document: &Document,
    prefix: &Prefix,
    start: usize,
    wait: u32,
    m: u8,
    n: u8,
) -> Result<(), AllocError>
    requires problem { prefix.now.problem ≡ problem_of (document_of document.now) }
    requires m { (1 ≤ m) × (m ≤ length prefix.now.problem.block) }
    requires n { (1 ≤ n) × (n ≤ length prefix.now.problem.block) }
    requires wait { wait ≡ link (row_at prefix.now.problem m) (row_at prefix.now.problem n) }
    requires start { start < 2 ^ 60 }
    ensures { OnOk result (out.new.items ≡ out.old.items ++ row_text (link_row (document_of document.now) start m n)) }
{
    let later = prefix.row(n);
    let awaited = awaited(wait, later, prefix.row(m).writes.as_slice());
    push_number(out, start + wait as usize)?;
    push_link_words(out, document, later, m, n, awaited)?;
    out.extend_from_slice(b"\n")
}

/// The row of the end of n, the last of a chain, which starts no sooner than `start`.
fn push_end(
    out: &mut Vec<u8>,
    document: &Document,
    prefix: &Prefix,
    start: usize,
    n: u8,
) -> Result<(), AllocError>
    requires problem { prefix.now.problem ≡ problem_of (document_of document.now) }
    requires n { (1 ≤ n) × (n ≤ length prefix.now.problem.block) }
    requires start { start < 2 ^ 60 }
    ensures { OnOk result (out.new.items ≡ out.old.items ++ row_text (end_row (document_of document.now) start n)) }
{
    let row = prefix.row(n);
    push_number(out, start + tail(row) as usize)?;
    push_end_words(out, document, n, last_result(row))?;
    out.extend_from_slice(b"\n")
}

/// How long n waits from the start of m.
fn wait_between(prefix: &Prefix, m: u8, n: u8) -> u32
    requires m { (1 ≤ m) × (m ≤ length prefix.now.problem.block) }
    requires n { (1 ≤ n) × (n ≤ length prefix.now.problem.block) }
    ensures { result ≡ link (row_at prefix.now.problem m) (row_at prefix.now.problem n) }
{
    link(prefix.row(m), prefix.row(n))
}

/// The rows of a chain of these numbers after the first, which starts no sooner than `start`.
fn push_walk(
    out: &mut Vec<u8>,
    document: &Document,
    prefix: &Prefix,
    start: usize,
    first: u8,
    later: &[u8],
) -> Result<(), AllocError>
    requires problem { prefix.now.problem ≡ problem_of (document_of document.now) }
    requires start { start ≤ 2 ^ 32 }
    requires few { length later.now ≤ BLOCK_LIMIT }
    requires first { (1 ≤ first) × (first ≤ length prefix.now.problem.block) }
    requires within { AreWithin (length prefix.now.problem.block) later.now }
    ensures { OnOk result (out.new.items ≡ out.old.items ++
        rows_text (walk_rows (document_of document.now) start first later.now)) }
{
    let mut last = first;
    let mut time = start;
    for n in later {
        let wait = wait_between(prefix, last, *n);
        push_link(out, document, prefix, time, wait, last, *n)?;
        time += wait as usize;
        last = *n;
    }
    push_end(out, document, prefix, time, last)
}

/// The row of where a chain begins, with n, if the prefix has numbers. Returns the minor cycle.
fn push_start(
    out: &mut Vec<u8>,
    document: &Document,
    prefix: &Prefix,
    n: u8,
) -> Result<usize, AllocError>
    requires problem { prefix.now.problem ≡ problem_of (document_of document.now) }
    requires n { (1 ≤ n) × (n ≤ length prefix.now.problem.block) }
    ensures text { OnOk result (out.new.items ≡ out.old.items ++
        rows_text (start_rows (document_of document.now) prefix.now.numbers n)) }
    ensures start { IfOk result (λ start. start ≡
        head (points_of prefix.now.problem prefix.now.numbers) (row_at prefix.now.problem n)) }
    ensures at_most { IfOk result (λ start. start ≤ 2 ^ 32) }
{
    let start = head(prefix, n) as usize;
    if !prefix.numbers().is_empty() {
        push_number(out, start)?;
        push_around(out, b"", document, n, b" can start")?;
        out.extend_from_slice(b"\n")?;
    }
    Ok(start)
}

/// The rows of a chain of these numbers, after the prefix.
pub(crate) fn push_chain(
    out: &mut Vec<u8>,
    document: &Document,
    prefix: &Prefix,
    numbers: &[u8],
) -> Result<(), AllocError>
    requires problem { prefix.now.problem ≡ problem_of (document_of document.now) }
    requires some { 1 ≤ length numbers.now }
    requires few { length numbers.now ≤ BLOCK_LIMIT }
    requires within { AreWithin (length prefix.now.problem.block) numbers.now }
    ensures { OnOk result (out.new.items ≡ out.old.items ++
        rows_text (chain_rows (document_of document.now) prefix.now.numbers numbers.now)) }
{
    let first = numbers[0];
    let start = push_start(out, document, prefix, first)?;
    push_walk(out, document, prefix, start, first, &numbers[1..])
}
