//! Which numbers, fact lines and lines of a tree a document may have.

ghost use Rattle.std.specs.Prelude.{◌≡◌, ◌↔◌, [], ◌∷◌, IsTrue};
ghost use Rattle.s66_isa.specs.{BLOCK_LIMIT};
ghost use Rattle.s66_model.specs.{Factual, fact_leaf_of, vertex_of};
ghost use Rattle.s66_moments.specs.declared.fact_line.FactLine.TheVariants as fact;
ghost use Rattle.s66_moments.specs.{IsMomentWithin, is_front, is_back};
ghost use Rattle.s66_cert.specs.{AreIn, AreNumbers, AreFactSteps, IsFactLine, IsFactStep, IsLeafLine, IsVertex};

use crate::limits::{LINE_LIMIT, TIME_LIMIT};
use s66_isa::BLOCK_LIMIT;
use s66_model::{FactLeaf, TreeLine};
use s66_moments::{FactLine, FactStep, LoadLine, Moment, Stage};

/// Whether a block may have an instruction of this number.
fn is_number(n: u8) -> bool
    ensures { IsTrue result ↔ AreIn 1 BLOCK_LIMIT (n ∷ []) }
{
    1 <= n && n as usize <= BLOCK_LIMIT
}

/// Whether blocks may have instructions of all these numbers.
fn are_all_numbers(numbers: &[u8]) -> bool
    ensures { IsTrue result ↔ AreIn 1 BLOCK_LIMIT numbers.now }
{
    for n in numbers {
        if !is_number(*n) {
            return false;
        }
    }
    true
}

/// Whether a line may have these numbers.
fn are_numbers(numbers: &[u8]) -> bool
    ensures { IsTrue result ↔ AreNumbers BLOCK_LIMIT numbers.now }
{
    1 <= numbers.len() && numbers.len() <= BLOCK_LIMIT && are_all_numbers(numbers)
}

/// Whether a block may have this moment.
fn is_moment(moment: &Moment) -> bool
    ensures { IsTrue result ↔ IsMomentWithin BLOCK_LIMIT moment.now }
{
    match moment {
        Moment::At(n, _) => is_number(*n),
        Moment::Origin | Moment::End => true,
    }
}

/// Whether a load may come after this moment.
fn is_front(moment: &Moment) -> bool
    ensures { result ≡ is_front moment.now }
{
    matches!(
        moment,
        Moment::Origin | Moment::At(_, Stage::Issue | Stage::Start)
    )
}

/// Whether it may come before this moment.
fn is_back(moment: &Moment) -> bool
    ensures { result ≡ is_back moment.now }
{
    matches!(
        moment,
        Moment::At(_, Stage::Issue | Stage::Start) | Moment::End
    )
}

fn is_load(line: &LoadLine) -> bool
    ensures { IsTrue result ↔ IsFactLine BLOCK_LIMIT (fact.Load line.now) }
{
    let has_front = is_front(&line.from) && is_moment(&line.from);
    let has_back = is_back(&line.to) && is_moment(&line.to);
    let is_short = line.after <= TIME_LIMIT && line.wait <= TIME_LIMIT;
    has_front && has_back && is_short && are_numbers(line.numbers.as_slice())
}

fn is_fact_line(line: &FactLine) -> bool
    ensures { IsTrue result ↔ IsFactLine BLOCK_LIMIT line.now }
{
    match line {
        FactLine::Pair(first, second) => is_number(*first) && is_number(*second),
        FactLine::Load(load) => is_load(load),
    }
}

fn is_fact_step(step: &FactStep) -> bool
    ensures { IsTrue result ↔ IsFactStep BLOCK_LIMIT step.now }
{
    match step {
        FactStep::Fact(line) => is_fact_line(line),
        FactStep::Suppose(first, second) => is_number(*first) && is_number(*second),
        FactStep::Refuted => true,
    }
}

/// Whether a document may have each of these fact lines.
pub(crate) fn are_fact_steps(steps: &[FactStep]) -> bool
    ensures { IsTrue result ↔ AreFactSteps BLOCK_LIMIT steps.now }
{
    for step in steps {
        if !is_fact_step(step) {
            return false;
        }
    }
    true
}

/// Whether a tree may have this leaf by facts.
fn is_fact_leaf(leaf: FactLeaf<'_>) -> bool
    ensures { IsTrue result ↔ IsLeafLine BLOCK_LIMIT (Factual (fact_leaf_of leaf.entry)) }
{
    match leaf {
        FactLeaf::Next(number) => is_number(number),
        FactLeaf::Turned(first, second) => is_number(first) && is_number(second),
        FactLeaf::AtLine(line) => 1 <= line && line <= LINE_LIMIT,
        FactLeaf::LoadFrom(after, numbers) => after <= TIME_LIMIT && are_numbers(numbers),
    }
}

/// Whether a tree may have this line.
pub(crate) fn is_vertex(line: TreeLine<'_>) -> bool
    ensures { IsTrue result ↔ IsVertex BLOCK_LIMIT (vertex_of line.entry) }
{
    match line {
        TreeLine::Split(numbers) | TreeLine::Chain(numbers) | TreeLine::Dominated(numbers) => {
            are_numbers(numbers)
        }
        TreeLine::Factual(leaf) => is_fact_leaf(leaf),
        TreeLine::Whole | TreeLine::Load(_) | TreeLine::Parcels => true,
    }
}
