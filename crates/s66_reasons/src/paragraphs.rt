//! The paragraphs of a tree: each leaf with its prefix, in the order of the tree's lines.

ghost use Rattle.std.specs.Prelude.{◌≡◌, ◌++◌, [], true, false, IfNone, IfSome, OnOk};
ghost use Rattle.s66_isa.specs.{Among};
ghost use Rattle.s66_model.specs.{vertex_of};
ghost use Rattle.s66_cert.specs.{has_factual, is_factual, tree_placed, document_of};
ghost use Rattle.s66_checker.specs.{problem_of, is_beginning};
ghost use Rattle.s66_reasons.specs.{if_words, tree_line_text, lines_text, then_words, IsGranted, IsRight, vertex_text};

use crate::known_paths::KnownPaths;
use crate::leaf::push_leaf;
use crate::tree::is_split;
use arrayvec::ArrayVec;
use s66_cert::{Document, TreeLine};
use s66_checker::Prefix;
use s66_device::{push_between, push_field};
use std::alloc::AllocError;

/// The numbers after the first, one after the other, and the end of the line.
fn push_then(out: &mut Vec<u8>, numbers: &[u8]) -> Result<(), AllocError>
    ensures { OnOk result (out.new.items ≡ out.old.items ++ then_words numbers.now) }
{
    for n in numbers {
        push_field(out, b", then ", *n as usize)?;
    }
    out.extend_from_slice(b":\n")
}

/// The numbers with which the orders of a leaf begin.
fn push_if(out: &mut Vec<u8>, numbers: &[u8]) -> Result<(), AllocError>
    ensures { OnOk result (out.new.items ≡ out.old.items ++ if_words numbers.now) }
{
    if numbers.is_empty() {
        return Ok(());
    }
    push_between(out, b"If ", numbers[0] as usize, b" comes first")?;
    push_then(out, &numbers[1..])
}

/// The paragraph of a leaf, whose prefix has these numbers. The prefix goes there.
fn push_paragraph(
    out: &mut Vec<u8>,
    document: &Document,
    known: Option<&KnownPaths<'_>>,
    prefix: &mut Prefix,
    numbers: &[u8],
    line: TreeLine<'_>,
) -> Result<(), AllocError>
    requires same { prefix.old.problem ≡ problem_of (document_of document.now) }
    requires begins { is_beginning (problem_of (document_of document.now)).block numbers.now ≡ true }
    requires granted { IsGranted (document_of document.now) numbers.now (vertex_of line) }
    requires known { IfSome known (λ k. k.now ≡ document.now) }
    requires factual { IfNone known (is_factual (vertex_of line) ≡ false) }
    ensures text { OnOk result (out.new.items ≡ out.old.items ++
        (if_words numbers.now ++ vertex_text (document_of document.now) numbers.now (vertex_of line.entry))) }
    ensures problem { prefix.new.problem ≡ prefix.old.problem }
{
    if !prefix.go_to(numbers) {
        unreachable!()
    }
    push_if(out, numbers)?;
    push_leaf(out, document, known, prefix, line)
}

/// What is said of a line at its prefix: of a split nothing.
fn push_line(
    out: &mut Vec<u8>,
    document: &Document,
    known: Option<&KnownPaths<'_>>,
    prefix: &mut Prefix,
    numbers: &[u8],
    line: TreeLine<'_>,
) -> Result<(), AllocError>
    requires same { prefix.old.problem ≡ problem_of (document_of document.now) }
    requires right { IsRight (document_of document.now) }
    requires among { Among (numbers.now, vertex_of line) (tree_placed [] (document_of document.now).tree) }
    requires known { IfSome known (λ k. k.now ≡ document.now) }
    requires factual { IfNone known (has_factual (document_of document.now).tree ≡ false) }
    ensures text { OnOk result (out.new.items ≡ out.old.items ++
        tree_line_text (document_of document.now) numbers.now (vertex_of line.entry)) }
    ensures problem { prefix.new.problem ≡ prefix.old.problem }
{
    if is_split(&line) {
        return Ok(());
    }
    push_paragraph(out, document, known, prefix, numbers, line)
}

/// The paragraphs of all leaves of a document's tree, by the empty prefix of its block.
pub(crate) fn push_paragraphs(
    out: &mut Vec<u8>,
    document: &Document,
    known: Option<&KnownPaths<'_>>,
    mut prefix: Prefix,
) -> Result<(), AllocError>
    requires same { prefix.problem ≡ problem_of (document_of document.now) }
    requires right { IsRight (document_of document.now) }
    requires known { IfSome known (λ k. k.now ≡ document.now) }
    requires factual { IfNone known (has_factual (document_of document.now).tree ≡ false) }
    ensures { OnOk result (out.new.items ≡ out.old.items ++
        lines_text (document_of document.now) (tree_placed [] (document_of document.now).tree)) }
{
    let mut numbers = ArrayVec::new();
    let mut place = 0usize;
    while let Some(line) = document.line_at(place, &mut numbers) {
        push_line(out, document, known, &mut prefix, numbers.as_slice(), line)?;
        place += 1;
    }
    Ok(())
}
