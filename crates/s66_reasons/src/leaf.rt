//! What is said of a leaf at its prefix.
//! That depends on its kind: a whole order, a chain, a load, parcels, or by facts.

ghost use Rattle.std.specs.Prelude.{◌≡◌, ◌++◌, false, IfNone, IfSome, OnOk};
ghost use Rattle.s66_model.specs.{AtTerminal, Factual, fact_leaf_of, vertex_of};
ghost use Rattle.s66_moments.specs.{IsNumber};
ghost use Rattle.s66_cert.specs.{is_factual, document_of};
ghost use Rattle.s66_checker.specs.{problem_of};
ghost use Rattle.s66_reasons.specs.{issue_row, leaf_text, left_row, next_rows, turned_text, whole_row, row_text, rows_text, AreLoaded, IsGranted, vertex_text};

use crate::chain::push_chain;
use crate::facts::{load_end, push_load_sentence};
use crate::known_paths::KnownPaths;
use crate::parcels::push_parcels;
use crate::path::push_by;
use crate::units::push_load;
use crate::words::{push_around, push_number};
use crate::work::Work;
use s66_cert::{Document, FactLeaf, TreeLine};
use s66_checker::Prefix;
use s66_moments::Moment;
use std::alloc::AllocError;

/// The row of a whole order.
fn push_whole(out: &mut Vec<u8>, document: &Document, prefix: &Prefix) -> Result<(), AllocError>
    requires { prefix.now.problem ≡ problem_of (document_of document.now) }
    ensures { OnOk result (out.new.items ≡ out.old.items ++
        row_text (whole_row (document_of document.now) prefix.now.numbers)) }
{
    push_number(out, prefix.total() as usize)?;
    out.extend_from_slice(b"all are placed, and that is the end\n")
}

/// The row of where a path begins.
fn push_issue_row(out: &mut Vec<u8>, document: &Document, n: u8) -> Result<(), AllocError>
    ensures { OnOk result (out.new.items ≡ out.old.items ++ row_text (issue_row (document_of document.now) n)) }
{
    push_number(out, 0)?;
    push_around(out, b"", document, n, b" can issue")?;
    out.extend_from_slice(b"\n")
}

/// The rows of a longest path from the issue of n to the end.
fn push_path(out: &mut Vec<u8>, known: &KnownPaths<'_>, n: u8) -> Result<(), AllocError>
    requires { IsNumber (problem_of (document_of known.now)) n }
    ensures { OnOk result (out.new.items ≡ out.old.items ++ rows_text (next_rows (document_of known.now) n)) }
{
    push_issue_row(out, known.document, n)?;
    known.push_longest(out, n)
}

/// By which fact lines m stands before n, which is placed.
fn push_turned(out: &mut Vec<u8>, known: &KnownPaths<'_>, m: u8, n: u8) -> Result<(), AllocError>
    requires m { IsNumber (problem_of (document_of known.now)) m }
    requires n { IsNumber (problem_of (document_of known.now)) n }
    ensures { OnOk result (out.new.items ≡ out.old.items ++ turned_text (document_of known.now) m n) }
{
    push_around(out, b"      ", known.document, m, b" stands before ")?;
    push_around(out, b"", known.document, n, b" in a faster order")?;
    push_by(out, known.pairs_of(m, n).as_slice())?;
    out.extend_from_slice(b"\n")
}

/// The row of what units do for some instructions.
fn push_left_row(
    out: &mut Vec<u8>,
    document: &Document,
    prefix: &Prefix,
    after: u32,
    numbers: &[u8],
) -> Result<(), AllocError>
    requires same { prefix.now.problem ≡ problem_of (document_of document.now) }
    requires loaded { AreLoaded prefix.now numbers.now }
    ensures { OnOk result (out.new.items ≡ out.old.items ++
        row_text (left_row (document_of document.now) after numbers.now)) }
{
    let bound = document.bound();
    let work = Work::of(prefix, numbers);
    push_number(out, load_end(&work, after, bound, numbers.len()))?;
    push_load_sentence(
        out,
        prefix,
        &Moment::Origin,
        &Moment::End,
        after,
        bound,
        numbers,
    )?;
    out.extend_from_slice(b"\n")
}

/// What is said of a leaf by facts at its prefix.
fn push_factual(
    out: &mut Vec<u8>,
    known: &KnownPaths<'_>,
    prefix: &Prefix,
    leaf: FactLeaf<'_>,
) -> Result<(), AllocError>
    requires same { prefix.now.problem ≡ problem_of (document_of known.now) }
    requires granted { IsGranted (document_of known.now) prefix.now.numbers (AtTerminal (Factual (fact_leaf_of leaf))) }
    ensures { OnOk result (out.new.items ≡ out.old.items ++
        leaf_text (document_of known.now) prefix.now.numbers (Factual (fact_leaf_of leaf.entry))) }
{
    match leaf {
        FactLeaf::Next(n) => push_path(out, known, n),
        FactLeaf::Turned(m, n) => push_turned(out, known, m, n),
        FactLeaf::LoadFrom(after, numbers) => {
            push_left_row(out, known.document, prefix, after, numbers)
        }
        FactLeaf::AtLine(_) => Ok(()),
    }
}

/// What is said of a leaf at its prefix; of one by facts by what is known after the fact lines.
pub(crate) fn push_leaf(
    out: &mut Vec<u8>,
    document: &Document,
    known: Option<&KnownPaths<'_>>,
    prefix: &Prefix,
    line: TreeLine<'_>,
) -> Result<(), AllocError>
    requires same { prefix.now.problem ≡ problem_of (document_of document.now) }
    requires granted { IsGranted (document_of document.now) prefix.now.numbers (vertex_of line) }
    requires known { IfSome known (λ k. k.now ≡ document.now) }
    requires factual { IfNone known (is_factual (vertex_of line) ≡ false) }
    ensures { OnOk result (out.new.items ≡ out.old.items ++
        vertex_text (document_of document.now) prefix.now.numbers (vertex_of line.entry)) }
{
    match line {
        TreeLine::Whole => push_whole(out, document, prefix),
        TreeLine::Chain(numbers) => push_chain(out, document, prefix, numbers),
        TreeLine::Load(kind) => push_load(out, document, prefix, kind),
        TreeLine::Parcels => push_parcels(out, document, prefix),
        TreeLine::Split(_) | TreeLine::Dominated(_) => Ok(()),
        TreeLine::Factual(leaf) => {
            let Some(known) = known else { unreachable!() };
            push_factual(out, known, prefix, leaf)
        }
    }
}
