//! Which names a dominated leaf may have.
//! It has to be a node of the same tree, of the same set of numbers, that the rule lets be named.

ghost use Rattle.std.specs.Prelude.{◌≡◌, IsTrue, Some, option_map};
ghost use Rattle.s66_model.specs.{is_standing, may_be_named, vertex_of};
ghost use Rattle.s66_cert.specs.{document_of};
ghost use Rattle.s66_checker.specs.{problem_of, is_early_enough, is_name, is_name_at, name_of, node_on, IsNodeOn};

use crate::known::fact_lines;
use crate::replay::Prefix;
use arrayvec::ArrayVec;
use s66_cert::{Document, FactLeaf, TreeLine};
use s66_isa::BLOCK_LIMIT;
use s66_model::Rule;

/// Whether the node of this line is no dominated leaf.
fn is_standing(line: TreeLine<'_>) -> bool
    ensures { result ≡ is_standing (Some (vertex_of line.entry)) }
{
    !matches!(
        line,
        TreeLine::Dominated(_) | TreeLine::Factual(FactLeaf::AtLine(_))
    )
}

/// Whether a rule lets this node be named, by its line.
fn may_be_named(rule: Rule, node: Option<TreeLine<'_>>) -> bool
    ensures { result ≡ may_be_named rule (option_map vertex_of node.entry) }
{
    let Some(line) = node else {
        return false;
    };
    match rule {
        Rule::NoneNamed => false,
        Rule::WrittenEarlier => true,
        Rule::ClampedStanding => is_standing(line),
    }
}

/// Whether a name is earlier than the prefix, if a rule requires that.
fn is_early_enough(prefix: &Prefix, rule: Rule, name: &[u8]) -> bool
    ensures { result ≡ is_early_enough rule name.now prefix.now.numbers }
{
    match rule {
        Rule::WrittenEarlier => prefix.is_after(name),
        Rule::NoneNamed | Rule::ClampedStanding => true,
    }
}

/// Whether a dominated leaf at the prefix may have this name. It has to be that of a node which the rule lets be named, and the
/// beginning of a legal order of the same numbers. The other prefix is then there, and else anywhere.
pub(crate) fn is_name(prefix: &Prefix, named: &mut Prefix, document: &Document, name: &[u8]) -> bool
    requires problem { prefix.now.problem ≡ problem_of (document_of document.now) }
    requires same { named.old.problem ≡ prefix.now.problem }
    ensures value { result ≡ is_name (document_of document.now) prefix.now.numbers name.now }
    ensures there { IsTrue result → named.new.numbers ≡ name.now }
    ensures same { named.new.problem ≡ named.old.problem }
{
    let rule = document.rule();
    if !may_be_named(rule, document.node_at(name)) {
        return false;
    }
    if !is_early_enough(prefix, rule, name) {
        return false;
    }
    if !named.go_to(name) {
        return false;
    }
    named.has_set_of(prefix)
}

/// The node of a line of the document, and the numbers of its prefix, which are put into this room. None if the line isn't one of the
/// tree, or if the prefix is longer than any block.
fn node_on<'a>(
    document: &'a Document,
    line: u32,
    name: &mut ArrayVec<u8, BLOCK_LIMIT>,
) -> Option<TreeLine<'a>>
    ensures { IsNodeOn (document_of document.now) line (option_map vertex_of result) name.new.items }
{
    let first = document.block().len() + 7 + fact_lines(document).len();
    if (line as usize) < first {
        return None;
    }
    document.line_at(line as usize - first, name)
}

/// The same of the node of a line of the document.
pub(crate) fn is_name_at(
    prefix: &Prefix,
    named: &mut Prefix,
    document: &Document,
    line: u32,
) -> bool
    requires problem { prefix.now.problem ≡ problem_of (document_of document.now) }
    requires same { named.old.problem ≡ prefix.now.problem }
    ensures value { result ≡
        is_name_at (document_of document.now) prefix.now.numbers (node_on (document_of document.now) line) }
    ensures there { IsTrue result → named.new.numbers ≡ name_of (node_on (document_of document.now) line) }
    ensures same { named.new.problem ≡ named.old.problem }
{
    let mut name = ArrayVec::new();
    let Some(node) = node_on(document, line, &mut name) else {
        return false;
    };
    if !is_standing(node) {
        return false;
    }
    if !named.go_to(name.as_slice()) {
        return false;
    }
    named.has_set_of(prefix)
}
