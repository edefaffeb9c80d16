//! All that is said of a document (`push_reasons`): the opening, then fact lines and leaves or how many there are, and whether the
//! order is best.

ghost use Rattle.std.specs.Prelude.{◌≡◌, ◌≤◌, ◌++◌, [], OnOk, length};
ghost use Rattle.s66_isa.specs.{BLOCK_LIMIT};
ghost use Rattle.s66_model.specs.{splits};
ghost use Rattle.s66_moments.specs.{premises_first};
ghost use Rattle.s66_cert.specs.{tree_placed, document_of};
ghost use Rattle.s66_checker.specs.{Yes, facts_of, problem_of, verdict};
ghost use Rattle.s66_reasons.specs.{and_facts, colon, counts_text, faster_words, closing_line, leaves_text, lines_text, opening_words, reasons_text, splits_words, tree_text, facts_from, AreBegun, IsRight};

use crate::known_paths::KnownPaths;
use crate::paragraphs::push_paragraphs;
use crate::steps::push_facts;
use crate::tree::{has_factual, is_said, splits};
use crate::words::push_counted;
use s66_cert::Document;
use s66_checker::{Prefix, fact_lines, instructions_of, profile_of};
use s66_device::{push_between, push_field};
use s66_facts::Supposing;
use s66_isa::{Instr, Profile};
use std::alloc::AllocError;

/// Up to the bound.
fn push_opening(out: &mut Vec<u8>, document: &Document) -> Result<(), AllocError>
    ensures { OnOk result (out.new.items ≡ out.old.items ++ opening_words (document_of document.now)) }
{
    push_field(out, b"Every order takes ", document.bound() as usize)?;
    out.extend_from_slice(b" or more")
}

/// By how many splits.
fn push_splits(out: &mut Vec<u8>, count: usize) -> Result<(), AllocError>
    ensures { OnOk result (out.new.items ≡ out.old.items ++ splits_words count) }
{
    out.extend_from_slice(b", by ")?;
    push_counted(out, count, b"split")
}

/// So many facts, if there are some.
fn push_and_facts(out: &mut Vec<u8>, count: usize) -> Result<(), AllocError>
    ensures { OnOk result (out.new.items ≡ out.old.items ++ and_facts count) }
{
    if count == 0 {
        return Ok(());
    }
    out.extend_from_slice(b" and ")?;
    push_counted(out, count, b"fact")
}

/// By how many splits and facts a tree that isn't said shows the bound.
fn push_counts(out: &mut Vec<u8>, document: &Document, count: usize) -> Result<(), AllocError>
    requires { count ≡ splits (document_of document.now).tree }
    ensures { OnOk result (out.new.items ≡ out.old.items ++ counts_text (document_of document.now)) }
{
    push_splits(out, count)?;
    push_and_facts(out, fact_lines(document).len())?;
    out.extend_from_slice(b".\n")
}

/// By how many splits a tree does that is said, if there are some.
fn push_colon(out: &mut Vec<u8>, count: usize) -> Result<(), AllocError>
    ensures { OnOk result (out.new.items ≡ out.old.items ++ colon count) }
{
    if count > 0 {
        push_splits(out, count)?;
    }
    out.extend_from_slice(b":\n")
}

/// The orders that rows by facts are said of.
fn push_faster(out: &mut Vec<u8>, bound: u32) -> Result<(), AllocError>
    ensures { OnOk result (out.new.items ≡ out.old.items ++ faster_words bound) }
{
    push_between(out, b"If an order took less than ", bound as usize, b":\n")
}

/// The fact lines, and each leaf by what is known after them.
fn push_by_facts(
    out: &mut Vec<u8>,
    document: &Document,
    prefix: Prefix,
    supposing: Supposing,
) -> Result<(), AllocError>
    requires begun { AreBegun (document_of document.now) prefix supposing }
    requires right { IsRight (document_of document.now) }
    ensures { OnOk result (out.new.items ≡ out.old.items ++
        (facts_from (document_of document.now) (premises_first (problem_of (document_of document.now))) 1 (facts_of (document_of document.now)) ++
        faster_words (document_of document.now).bound) ++
        lines_text (document_of document.now) (tree_placed [] (document_of document.now).tree)) }
{
    let by_dependence = supposing.facts().duplicate();
    let by_lines = push_facts(out, document, &prefix, supposing)?;
    push_faster(out, document.bound())?;
    let known = KnownPaths::new(document, &prefix, &by_dependence, &by_lines);
    push_paragraphs(out, document, Some(&known), prefix.start_again())
}

/// Each leaf of a tree, after the fact lines if one is by facts.
fn push_leaves(
    out: &mut Vec<u8>,
    document: &Document,
    block: &[Instr],
    profile: &Profile,
) -> Result<(), AllocError>
    requires block { record { block = block.now; profile = profile.now } ≡ problem_of (document_of document.now) }
    requires some { 1 ≤ length block.now }
    requires few { length block.now ≤ BLOCK_LIMIT }
    requires right { IsRight (document_of document.now) }
    ensures { OnOk result (out.new.items ≡ out.old.items ++ leaves_text (document_of document.now)) }
{
    let prefix = Prefix::new(block, profile);
    if has_factual(document) {
        push_by_facts(out, document, prefix, Supposing::new(block, profile))
    } else {
        push_paragraphs(out, document, None, prefix)
    }
}

/// What is said of a tree after its bound: each leaf, or how many splits and facts it has.
fn push_tree(
    out: &mut Vec<u8>,
    document: &Document,
    block: &[Instr],
    profile: &Profile,
) -> Result<(), AllocError>
    requires block { record { block = block.now; profile = profile.now } ≡ problem_of (document_of document.now) }
    requires some { 1 ≤ length block.now }
    requires few { length block.now ≤ BLOCK_LIMIT }
    requires right { IsRight (document_of document.now) }
    ensures { OnOk result (out.new.items ≡ out.old.items ++ tree_text (document_of document.now)) }
{
    let count = splits(document);
    if !is_said(document, count) {
        return push_counts(out, document, count);
    }
    push_colon(out, count)?;
    push_leaves(out, document, block, profile)
}

/// Whether an order of this time is best.
fn push_last_line(out: &mut Vec<u8>, time: u32, bound: u32) -> Result<(), AllocError>
    ensures { OnOk result (out.new.items ≡ out.old.items ++ closing_line time bound) }
{
    if time == bound {
        push_between(out, b"So the order of ", time as usize, b" is best.\n")
    } else {
        push_between(out, b"The order found takes ", time as usize, b".\n")
    }
}

/// Appends why no order of a document's block takes less than its bound, in sentences, by what the document has alone: the verdict on it
/// is yes, with this time and this bound. `Err` is out of memory.
///
/// A tree of at most three splits is said leaf by leaf, unless one names another node or is a longest path below a split. Of a leaf below
/// splits come first the numbers of its prefix, and then rows, which hold of the orders that begin so. A row has a minor cycle of 100 ns,
/// right in four places, and what can't be sooner; the last one reaches the bound, or in the case of parcels each. Leaves by facts come
/// after the fact lines. Any other tree is counted. The last line says whether the order that the document has is best.
///
/// It takes some looks at each line of the tree; for each leaf that is said, at each instruction, and its prefix is placed anew from where
/// it parts from that of the leaf before it. Fact lines are taken in again, in the time that a verdict takes for them. Nothing is allocated
/// but room in `out`.
pub fn push_reasons(
    out: &mut Vec<u8>,
    document: &Document,
    time: u32,
    bound: u32,
) -> Result<(), AllocError>
    requires { verdict (document_of document.now) ≡ Yes time bound }
    ensures { OnOk result (out.new.items ≡ out.old.items ++ reasons_text (document_of document.now)) }
{
    let block = instructions_of(document.block());
    let profile = profile_of(document);
    push_opening(out, document)?;
    push_tree(out, document, block.as_slice(), &profile)?;
    push_last_line(out, time, bound)
}
