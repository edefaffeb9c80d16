//! Which trees are said leaf by leaf: those of few splits whose leaves can all be said.

ghost use Rattle.std.specs.Prelude.{◌≡◌, ◌≤◌};
ghost use Rattle.s66_isa.specs.{every, some_of, tally};
ghost use Rattle.s66_model.specs.{splits, vertex_of};
ghost use Rattle.s66_cert.specs.{SPLIT_LIMIT, has_factual, is_factual, document_of};
ghost use Rattle.s66_reasons.specs.{is_line_said, is_said, is_split};

use s66_cert::{Document, FactLeaf, TreeLine, TreeLines};

/// The most splits of a tree that is said leaf by leaf.
pub(crate) const SAID_SPLITS: usize = 3;

/// Whether a line is a split.
pub(crate) fn is_split(line: &TreeLine<'_>) -> bool
    ensures { result ≡ is_split (vertex_of line.now) }
{
    matches!(line, TreeLine::Split(_))
}

/// How many of these lines are splits.
fn count_splits(mut lines: TreeLines<'_>) -> usize
    requires { tally is_split lines ≤ SPLIT_LIMIT }
    ensures { result ≡ tally is_split lines.entry }
{
    let mut count = 0;
    while let Some(line) = lines.next() {
        if is_split(&line) {
            count += 1;
        }
    }
    count
}

/// How many splits a document's tree has.
pub(crate) fn splits(document: &Document) -> usize
    ensures { result ≡ splits (document_of document.now).tree }
{
    count_splits(document.tree())
}

/// Whether a line of a tree of so many splits can be said.
fn is_line_said(line: &TreeLine<'_>, count: usize) -> bool
    ensures { result ≡ is_line_said count (vertex_of line.now) }
{
    match line {
        TreeLine::Factual(FactLeaf::Next(_)) => count == 0,
        TreeLine::Dominated(_) | TreeLine::Factual(FactLeaf::AtLine(_)) => false,
        _ => true,
    }
}

/// Whether each of these lines of a tree of so many splits can.
fn are_said(mut lines: TreeLines<'_>, count: usize) -> bool
    ensures { result ≡ every (is_line_said count) lines.entry }
{
    while let Some(line) = lines.next() {
        if !is_line_said(&line, count) {
            return false;
        }
    }
    true
}

/// Whether a document's tree, of so many splits, is said.
pub(crate) fn is_said(document: &Document, count: usize) -> bool
    requires { count ≡ splits (document_of document.now).tree }
    ensures { result ≡ is_said (document_of document.now).tree }
{
    count <= SAID_SPLITS && are_said(document.tree(), count)
}

/// Whether a line is a leaf by facts.
fn is_factual(line: &TreeLine<'_>) -> bool
    ensures { result ≡ is_factual (vertex_of line.now) }
{
    matches!(line, TreeLine::Factual(_))
}

/// Whether one of these lines is.
fn some_factual(mut lines: TreeLines<'_>) -> bool
    ensures { result ≡ some_of is_factual lines.entry }
{
    while let Some(line) = lines.next() {
        if is_factual(&line) {
            return true;
        }
    }
    false
}

/// Whether a document's tree has a leaf by facts.
pub(crate) fn has_factual(document: &Document) -> bool
    ensures { result ≡ has_factual (document_of document.now).tree }
{
    some_factual(document.tree())
}
