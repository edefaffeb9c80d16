//! The text of a finding as `lint` lists it, and which findings are listed with `--cut`.

ghost use Rattle.std.specs.Prelude.{◌≡◌, ◌++◌, codes, if◌then◌else◌, OnOk};
ghost use Rattle.s66_lint.specs.{after_blank, finding_line, is_listed, listing, rule_words, is_alone_at, is_marked};

use crate::finding::{Finding, FindingRule};
use s66_device::{push_field, push_printable};
use std::alloc::AllocError;

fn words_of(rule: FindingRule) -> &'static [u8]
    ensures { result.now ≡ rule_words rule }
{
    match rule {
        FindingRule::TooLong => b" TOO LONG",
        FindingRule::BadOperand => b" BAD OPERAND",
        FindingRule::FarOperand => b" FAR OPERAND",
        FindingRule::Redefined => b" REDEFINED",
        FindingRule::NotAComment => b" NOT A COMMENT",
        FindingRule::NotAnInstruction => b" NOT AN INSTRUCTION",
        FindingRule::InColumn1 => b" IN COLUMN 1",
        FindingRule::InColumn2 => b" IN COLUMN 2",
        FindingRule::Directive => b" DIRECTIVE",
        FindingRule::HasABody => b" HAS A BODY",
        FindingRule::PastColumn72 => b" PAST COLUMN 72",
        FindingRule::LoadsCode => b" LOADS CODE",
        FindingRule::StoresIntoCode => b" STORES INTO CODE",
        FindingRule::TakesCode => b" TAKES CODE",
        FindingRule::PassesCode => b" PASSES CODE",
        FindingRule::SkipsWords => b" SKIPS WORDS",
        FindingRule::JoinsAWord => b" JOINS A WORD",
        FindingRule::CountsWords => b" COUNTS WORDS",
        FindingRule::FallsIntoData => b" FALLS INTO DATA",
        FindingRule::RowOfNo => b" ROW OF NO",
        FindingRule::CountsLines => b" COUNTS LINES",
    }
}

/// Whether `--cut` leaves alone the line at this place, from 0.
fn is_alone_at(alone: &[bool], place: usize) -> bool
    ensures { result ≡ is_alone_at alone.now place }
{
    alone.get(place).copied().unwrap_or(false)
}

/// Whether `--cut` leaves alone what a finding means: a refused or redefined line, one with an operand that isn't seen, or a
/// directive, itself, or the lines after one that covers these.
fn is_marked(alone: &[bool], found: &Finding) -> bool
    ensures { result ≡ is_marked alone.now found.now }
{
    match found.rule {
        FindingRule::BadOperand
        | FindingRule::FarOperand
        | FindingRule::Redefined
        | FindingRule::Directive => {
            is_alone_at(alone, (found.number as usize).saturating_sub(1))
        }
        FindingRule::HasABody | FindingRule::CountsLines => is_alone_at(
            alone,
            found.number as usize,
        ),
        _ => false,
    }
}

/// The end of the line that states a finding.
fn ending_of(is_marked: bool) -> &'static [u8]
    ensures { result.now ≡ (if is_marked then codes " (CUT)\n" else codes "\n") }
{
    if is_marked { b" (CUT)\n" } else { b"\n" }
}

/// A word after a blank, if there is one, with `?` for each control character.
pub(crate) fn push_word(out: &mut Vec<u8>, word: &[u8]) -> Result<(), AllocError>
    ensures { OnOk result (out.new.items ≡ out.old.items ++ after_blank word.now) }
{
    if word.is_empty() {
        return Ok(());
    }
    out.extend_from_slice(b" ")?;
    push_printable(out, word)
}

/// The words of a finding, as they are listed.
pub(crate) fn push_text(
    out: &mut Vec<u8>,
    rule: FindingRule,
    first: &[u8],
    second: &[u8],
) -> Result<(), AllocError> {
    out.extend_from_slice(words_of(rule).get(1..).unwrap_or(&[]))?;
    push_word(out, first)?;
    push_word(out, second)
}

/// The line that states what was found. `alone` says of each line whether `--cut` leaves it alone.
fn push_found(out: &mut Vec<u8>, alone: &[bool], found: &Finding) -> Result<(), AllocError>
    ensures { OnOk result (out.new.items ≡ out.old.items ++ finding_line alone.now found.now) }
{
    push_field(out, b"LINE ", found.number as usize)?;
    out.extend_from_slice(words_of(found.rule))?;
    push_word(out, found.first)?;
    push_word(out, found.second)?;
    out.extend_from_slice(ending_of(is_marked(alone, found)))
}

/// Whether a finding is listed, with `--cut` or without.
fn is_listed(alone: &[bool], found: &Finding, cut: bool) -> bool
    ensures { result ≡ is_listed cut alone.now found.now }
{
    !(cut && is_marked(alone, found))
}

/// A line for each finding that is listed, with `--cut` or without. `alone` says of each line whether `--cut` leaves it alone.
pub(crate) fn push_listing(
    out: &mut Vec<u8>,
    alone: &[bool],
    all: &[Finding],
    cut: bool,
) -> Result<(), AllocError>
    ensures { OnOk result (out.new.items ≡ out.old.items ++ listing cut alone.now all.now) }
{
    for found in all {
        if is_listed(alone, found, cut) {
            push_found(out, alone, found)?;
        }
    }
    Ok(())
}
