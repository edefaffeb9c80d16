//! What is wrong with a line of a tree.
//! There is a rule for each kind of line: for a split, and for each kind of leaf.

ghost use Rattle.std.specs.Prelude.{◌≡◌, ◌≤◌, if◌then◌else◌, nat_lt, None, Some, length, bytes_eq};
ghost use Rattle.s66_isa.specs.{BLOCK_LIMIT};
ghost use Rattle.s66_model.specs.{ready, Whole, Chain, Load, Parcels, AtTerminal, Factual, fact_leaf_of, vertex_of};
ghost use Rattle.s66_cert.specs.{document_of};
ghost use Rattle.s66_checker.specs.declared.verdict.Reason.TheVariants as fault;
ghost use Rattle.s66_checker.specs.{KnowsAll, problem_of, is_complete, line_fault, leaf_fault, dominated_fault, at_line_fault, next_fault, turned_fault, load_from_fault};

use crate::in_use::dominates_in_use;
use crate::known::Known;
use crate::leaf::{chain_value, load, parcels, ready};
use crate::loaded::is_loaded;
use crate::name::{is_name, is_name_at};
use crate::replay::Prefix;
use crate::verdict::Reason;
use s66_cert::{Document, FactLeaf, TreeLine};
use s66_isa::Kind;
use s66_model::Rule;

/// What is wrong with a line of a document's tree at the prefix, if anything is. A leaf's value has to reach the bound, and
/// the node that a dominated leaf names has to dominate; a leaf by facts has to be right by what is known after all fact lines.
/// The other prefix goes to the node.
pub(crate) fn line_fault(
    prefix: &Prefix,
    named: &mut Prefix,
    document: &Document,
    known: &Known,
    line: TreeLine<'_>,
) -> Option<Reason>
    requires problem { prefix.now.problem ≡ problem_of (document_of document.now) }
    requires same { named.old.problem ≡ prefix.now.problem }
    requires known { KnowsAll (document_of document.now) known.now }
    ensures value { result ≡ line_fault (document_of document.now) prefix.now.numbers (vertex_of line.entry) }
    ensures same { named.new.problem ≡ named.old.problem }
{
    let bound = document.bound();
    match line {
        TreeLine::Split(children) => split_fault(prefix, children),
        TreeLine::Whole => whole_fault(prefix, bound),
        TreeLine::Chain(numbers) => chain_fault(prefix, bound, numbers),
        TreeLine::Load(kind) => load_fault(prefix, bound, kind),
        TreeLine::Parcels => parcels_fault(prefix, bound),
        TreeLine::Dominated(name) => dominated_fault(prefix, named, document, name),
        TreeLine::Factual(leaf) => fact_leaf_fault(prefix, named, document, known, leaf),
    }
}

/// The same of a leaf by facts.
fn fact_leaf_fault(
    prefix: &Prefix,
    named: &mut Prefix,
    document: &Document,
    known: &Known,
    leaf: FactLeaf<'_>,
) -> Option<Reason>
    requires problem { prefix.now.problem ≡ problem_of (document_of document.now) }
    requires same { named.old.problem ≡ prefix.now.problem }
    requires known { KnowsAll (document_of document.now) known.now }
    ensures value { result ≡ line_fault (document_of document.now) prefix.now.numbers
        (AtTerminal (Factual (fact_leaf_of leaf.entry))) }
    ensures same { named.new.problem ≡ named.old.problem }
{
    match leaf {
        FactLeaf::AtLine(line) => at_line_fault(prefix, named, document, known, line),
        FactLeaf::Next(n) => next_fault(prefix, document, known, n),
        FactLeaf::Turned(first, second) => turned_fault(prefix, document, known, first, second),
        FactLeaf::LoadFrom(after, numbers) => {
            load_from_fault(prefix, document, known, after, numbers)
        }
    }
}

/// Whether nothing remains.
fn is_complete(prefix: &Prefix) -> bool
    ensures value { result ≡ is_complete prefix.now.problem prefix.now.numbers }
    ensures few { length prefix.now.problem.block ≤ BLOCK_LIMIT }
{
    prefix.numbers().len() == prefix.count() as usize
}

/// The fault of a split: its children are exactly the ready numbers, rising.
fn split_fault(prefix: &Prefix, children: &[u8]) -> Option<Reason>
    ensures { result ≡ if bytes_eq children.now (ready prefix.now.problem.block prefix.now.numbers) then
        None else Some fault.Children }
{
    if children == ready(prefix).as_slice() {
        None
    } else {
        Some(Reason::Children)
    }
}

/// The fault of a value below the bound.
fn value_fault(value: u32, bound: u32) -> Option<Reason>
    ensures { result ≡ if nat_lt value bound then Some fault.Value else None }
{
    if value < bound {
        Some(Reason::Value)
    } else {
        None
    }
}

/// The fault of a whole order.
fn whole_fault(prefix: &Prefix, bound: u32) -> Option<Reason>
    ensures { result ≡ leaf_fault prefix.now.problem bound prefix.now.numbers Whole }
{
    if is_complete(prefix) {
        value_fault(prefix.total(), bound)
    } else {
        Some(Reason::Place)
    }
}

/// The fault of a chain of these numbers.
fn chain_fault(prefix: &Prefix, bound: u32, numbers: &[u8]) -> Option<Reason>
    ensures { result ≡ leaf_fault prefix.now.problem bound prefix.now.numbers (Chain numbers.now) }
{
    if is_complete(prefix) {
        return Some(Reason::Place);
    }
    match chain_value(prefix, numbers) {
        None => Some(Reason::Chain),
        Some(value) => value_fault(value, bound),
    }
}

/// The fault of the load of a kind of unit.
fn load_fault(prefix: &Prefix, bound: u32, kind: Kind) -> Option<Reason>
    ensures { result ≡ leaf_fault prefix.now.problem bound prefix.now.numbers (Load kind) }
{
    if is_complete(prefix) {
        Some(Reason::Place)
    } else {
        value_fault(load(prefix, kind), bound)
    }
}

/// The fault of the parcels.
fn parcels_fault(prefix: &Prefix, bound: u32) -> Option<Reason>
    ensures { result ≡ leaf_fault prefix.now.problem bound prefix.now.numbers Parcels }
{
    if is_complete(prefix) {
        Some(Reason::Place)
    } else {
        value_fault(parcels(prefix), bound)
    }
}

/// The fault of a dominated leaf of this name. The other prefix goes there.
fn dominated_fault(
    prefix: &Prefix,
    named: &mut Prefix,
    document: &Document,
    name: &[u8],
) -> Option<Reason>
    requires problem { prefix.now.problem ≡ problem_of (document_of document.now) }
    requires same { named.old.problem ≡ prefix.now.problem }
    ensures value { result ≡ dominated_fault (document_of document.now) prefix.now.numbers name.now }
    ensures same { named.new.problem ≡ named.old.problem }
{
    if is_complete(prefix) {
        return Some(Reason::Place);
    }
    if !is_name(prefix, named, document, name) {
        return Some(Reason::Name);
    }
    if named.dominates(prefix, document.rule()) {
        None
    } else {
        Some(Reason::Dominance)
    }
}

/// The fault of a dominated leaf that names the line of a node. The other prefix goes there.
fn at_line_fault(
    prefix: &Prefix,
    named: &mut Prefix,
    document: &Document,
    known: &Known,
    line: u32,
) -> Option<Reason>
    requires problem { prefix.now.problem ≡ problem_of (document_of document.now) }
    requires same { named.old.problem ≡ prefix.now.problem }
    requires known { KnowsAll (document_of document.now) known.now }
    ensures value { result ≡ at_line_fault (document_of document.now) prefix.now.numbers line }
    ensures same { named.new.problem ≡ named.old.problem }
{
    if is_complete(prefix) {
        return Some(Reason::Place);
    }
    if !is_name_at(prefix, named, document, line) {
        return Some(Reason::Name);
    }
    // this is enough, and takes some looks only
    if named.dominates(prefix, Rule::ClampedStanding) {
        return None;
    }
    if dominates_in_use(named, prefix, known, document.bound()) {
        None
    } else {
        Some(Reason::Dominance)
    }
}

/// The fault of a leaf that says that an instruction is too late if it comes next.
fn next_fault(prefix: &Prefix, document: &Document, known: &Known, n: u8) -> Option<Reason>
    requires problem { prefix.now.problem ≡ problem_of (document_of document.now) }
    requires known { KnowsAll (document_of document.now) known.now }
    ensures { result ≡ next_fault (document_of document.now) prefix.now.numbers n }
{
    if is_complete(prefix) {
        return Some(Reason::Place);
    }
    if known.is_too_late(prefix, document.bound(), n) {
        None
    } else {
        Some(Reason::Event)
    }
}

/// The fault of a leaf that says that the second instruction is placed, and not the first, which stands before it.
fn turned_fault(
    prefix: &Prefix,
    document: &Document,
    known: &Known,
    first: u8,
    second: u8,
) -> Option<Reason>
    requires problem { prefix.now.problem ≡ problem_of (document_of document.now) }
    requires known { KnowsAll (document_of document.now) known.now }
    ensures { result ≡ turned_fault (document_of document.now) prefix.now.numbers first second }
{
    if is_complete(prefix) {
        return Some(Reason::Place);
    }
    if known.is_turned(prefix, first, second) {
        None
    } else {
        Some(Reason::Pair)
    }
}

/// The fault of a leaf that says that units do what remains of these numbers from a minor cycle on at the soonest, and so take the
/// bound.
fn load_from_fault(
    prefix: &Prefix,
    document: &Document,
    known: &Known,
    after: u32,
    numbers: &[u8],
) -> Option<Reason>
    requires problem { prefix.now.problem ≡ problem_of (document_of document.now) }
    requires known { KnowsAll (document_of document.now) known.now }
    ensures { result ≡ load_from_fault (document_of document.now) prefix.now.numbers after numbers.now }
{
    if is_complete(prefix) {
        return Some(Reason::Place);
    }
    if is_loaded(prefix, known, document.bound(), after, numbers) {
        None
    } else {
        Some(Reason::Loaded)
    }
}
