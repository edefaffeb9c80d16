//! Pushes the text of a document (`push_document`): its lines in order, from the version to `END`.

ghost use Rattle.std.specs.Prelude.{option_map, ◌≡◌, ◌++◌, ◌∷◌, OnOk, codes, decimal};
ghost use Rattle.s66_isa.specs.{after_blanks};
ghost use Rattle.s66_model.specs.{Factual, fact_leaf_of, vertex_of};
ghost use Rattle.s66_moments.specs.declared.fact_line.FactLine.TheVariants as fact;
ghost use Rattle.s66_cert.specs.{claim_lines, document_text, fact_line, facts_text, head_lines, instructions_text, leaf_line, moment_text, step_line, step_lines, tree_lines, vertex_line, document_of};
ghost use Rattle.s66_cert.specs.{version};

use crate::document::Document;
use crate::instruction::InstructionText;
use crate::version::Version;
use s66_device::push_field;
use s66_isa::kind_name;
use s66_model::{FactLeaf, TreeLine, TreeLines};
use s66_moments::{FactLine, FactStep, LoadLine, Moment, Stage};
use std::alloc::AllocError;

/// A number after a blank. Most have one digit or two, and a large tree has millions of them.
#[tactic(auto, using(crate::proofs::Printed::one_digit, crate::proofs::Printed::two_digits, crate::proofs::Printed::three_digits))]
fn push_number(out: &mut Vec<u8>, number: u8) -> Result<(), AllocError>
    ensures { OnOk result (out.new.items ≡ out.old.items ++ (32 ∷ decimal number)) }
{
    if number < 10 {
        out.extend_from_slice(&[b' ', b'0' + number])
    } else if number < 100 {
        out.extend_from_slice(&[b' ', b'0' + number / 10, b'0' + number % 10])
    } else {
        out.extend_from_slice(&[
            b' ',
            b'0' + number / 100,
            b'0' + number % 100 / 10,
            b'0' + number % 10,
        ])
    }
}

/// A text and numbers after it, each after a blank.
fn push_numbers(out: &mut Vec<u8>, text: &[u8], numbers: &[u8]) -> Result<(), AllocError>
    ensures { OnOk result (out.new.items ≡ out.old.items ++ (text.now ++ after_blanks numbers.now)) }
{
    out.extend_from_slice(text)?;
    for number in numbers {
        push_number(out, *number)?;
    }
    Ok(())
}

/// What a document has before its instructions.
fn push_head(out: &mut Vec<u8>, document: &Document) -> Result<(), AllocError>
    ensures { OnOk result (out.new.items ≡ out.old.items ++
        head_lines (version document.now.facts document.now.rule) (document_of document.now)) }
{
    let version = Version::of(document.facts(), document.rule());
    push_field(out, b"S66 CERTIFICATE ", version.number() as usize)?;
    push_numbers(out, b"\nPROFILE", document.profile())?;
    push_field(out, b"\nBLOCK ", document.block().len())?;
    out.extend_from_slice(b"\n")
}

/// The instructions of these texts.
fn push_block(out: &mut Vec<u8>, block: &[InstructionText]) -> Result<(), AllocError>
    ensures { OnOk result (out.new.items ≡ out.old.items ++ instructions_text block.now) }
{
    for text in block {
        out.extend_from_slice(b"I ")?;
        out.extend_from_slice(text.bytes())?;
        out.extend_from_slice(b"\n")?;
    }
    Ok(())
}

/// What a document has between its instructions and its fact lines.
fn push_claim(out: &mut Vec<u8>, document: &Document) -> Result<(), AllocError>
    ensures { OnOk result (out.new.items ≡ out.old.items ++ claim_lines (document_of document.now)) }
{
    push_field(out, b"TIME ", document.time() as usize)?;
    push_field(out, b"\nBOUND ", document.bound() as usize)?;
    push_numbers(out, b"\nORDER", document.order())?;
    out.extend_from_slice(b"\n")
}

/// A moment that a fact line may have, and nothing of any other.
fn push_moment(out: &mut Vec<u8>, moment: Moment) -> Result<(), AllocError>
    ensures { OnOk result (out.new.items ≡ out.old.items ++ moment_text moment) }
{
    match moment {
        Moment::Origin => out.extend_from_slice(b"0"),
        Moment::End => out.extend_from_slice(b"END"),
        Moment::At(number, Stage::Issue) => push_field(out, b"I", number as usize),
        Moment::At(number, Stage::Start) => push_field(out, b"S", number as usize),
        Moment::At(_, _) => Ok(()),
    }
}

/// The two moments of the line of a load.
fn push_moments(out: &mut Vec<u8>, from: Moment, to: Moment) -> Result<(), AllocError>
    ensures { OnOk result (out.new.items ≡ out.old.items ++
        (codes "A " ++ moment_text from ++ codes " " ++ moment_text to)) }
{
    out.extend_from_slice(b"A ")?;
    push_moment(out, from)?;
    out.extend_from_slice(b" ")?;
    push_moment(out, to)
}

/// The line of a load, without its newline.
fn push_load(out: &mut Vec<u8>, line: &LoadLine) -> Result<(), AllocError>
    ensures { OnOk result (out.new.items ≡ out.old.items ++ fact_line (fact.Load line.now)) }
{
    push_moments(out, line.from, line.to)?;
    push_field(out, b" ", line.after as usize)?;
    push_field(out, b" ", line.wait as usize)?;
    push_numbers(out, b"", line.numbers.as_slice())
}

/// A fact line or a line of a supposition, without its newline.
fn push_step(out: &mut Vec<u8>, step: &FactStep) -> Result<(), AllocError>
    ensures { OnOk result (out.new.items ≡ out.old.items ++ step_line step.now) }
{
    match step {
        FactStep::Fact(FactLine::Pair(first, second)) => push_numbers(
            out,
            b"F",
            &[*first, *second],
        ),
        FactStep::Fact(FactLine::Load(line)) => push_load(out, line),
        FactStep::Suppose(first, second) => push_numbers(out, b"B", &[*first, *second]),
        FactStep::Refuted => out.extend_from_slice(b"Q"),
    }
}

/// Fact lines and lines of suppositions.
fn push_steps(out: &mut Vec<u8>, steps: &[FactStep]) -> Result<(), AllocError>
    ensures { OnOk result (out.new.items ≡ out.old.items ++ step_lines steps.now) }
{
    for step in steps {
        push_step(out, step)?;
        out.extend_from_slice(b"\n")?;
    }
    Ok(())
}

/// The fact lines, if there may be some.
fn push_facts(out: &mut Vec<u8>, facts: Option<&[FactStep]>) -> Result<(), AllocError>
    ensures { OnOk result (out.new.items ≡ out.old.items ++
        facts_text (option_map (λ steps. steps.now) facts.entry)) }
{
    match facts {
        None => Ok(()),
        Some(steps) => push_steps(out, steps),
    }
}

/// The line of a leaf by facts, without its newline.
fn push_fact_leaf(out: &mut Vec<u8>, leaf: FactLeaf<'_>) -> Result<(), AllocError>
    ensures { OnOk result (out.new.items ≡ out.old.items ++ leaf_line (Factual (fact_leaf_of leaf.entry))) }
{
    match leaf {
        FactLeaf::Next(number) => push_field(out, b"E ", number as usize),
        FactLeaf::Turned(first, second) => push_numbers(out, b"R", &[first, second]),
        FactLeaf::AtLine(line) => push_field(out, b"N ", line as usize),
        FactLeaf::LoadFrom(after, numbers) => {
            push_field(out, b"L ", after as usize)?;
            push_numbers(out, b"", numbers)
        }
    }
}

/// A line of a tree, without its newline.
fn push_tree_line(out: &mut Vec<u8>, line: TreeLine<'_>) -> Result<(), AllocError>
    ensures { OnOk result (out.new.items ≡ out.old.items ++ vertex_line (vertex_of line.entry)) }
{
    match line {
        TreeLine::Split(numbers) => push_numbers(out, b"S", numbers),
        TreeLine::Whole => out.extend_from_slice(b"T"),
        TreeLine::Chain(numbers) => push_numbers(out, b"C", numbers),
        TreeLine::Load(kind) => {
            out.extend_from_slice(b"U ")?;
            out.extend_from_slice(kind_name(kind))
        }
        TreeLine::Parcels => out.extend_from_slice(b"P"),
        TreeLine::Dominated(numbers) => push_numbers(out, b"D", numbers),
        TreeLine::Factual(leaf) => push_fact_leaf(out, leaf),
    }
}

/// The lines of a tree.
fn push_tree(out: &mut Vec<u8>, mut lines: TreeLines<'_>) -> Result<(), AllocError>
    ensures { OnOk result (out.new.items ≡ out.old.items ++ tree_lines lines.entry) }
{
    while let Some(line) = lines.next() {
        push_tree_line(out, line)?;
        out.extend_from_slice(b"\n")?;
    }
    Ok(())
}

/// Appends the text of a document, in time linear in the text; it allocates nothing but room in `out`. `Err` is out of memory, and then
/// nothing is said of `out`.
pub fn push_document(out: &mut Vec<u8>, document: &Document) -> Result<(), AllocError>
    ensures { OnOk result (out.new.items ≡ out.old.items ++ document_text (document_of document.now)) }
{
    push_head(out, document)?;
    push_block(out, document.block())?;
    push_claim(out, document)?;
    push_facts(out, document.facts())?;
    push_tree(out, document.tree())?;
    out.extend_from_slice(b"END\n")
}
