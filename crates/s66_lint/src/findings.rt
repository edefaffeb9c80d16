//! All findings of a source (`findings_in`), line after line, for `lint`.

ghost use Rattle.std.specs.Prelude.{ℕ, suc, ◌≡◌, ◌≤◌, ◌++◌, true, length, min, nat_lt, is_some, IfOk, OnOk};
ghost use Rattle.s66_line.specs.{lines_of};
ghost use Rattle.s66_source.specs.{SOURCE_LINES_LIMIT};
ghost use Rattle.s66_lint.specs.{AreFindings, IsFindings, has_more, is_in_order, past_line};

use crate::deck::{Deck, Lines};
use crate::finding::{Finding, FindingRule, Harm, LineFinding};
use crate::harm::Tracker;
use crate::line::Line;
use crate::listing::push_listing;
use crate::rules::Rules;
use s66_line::LINE_BYTES_LIMIT;
use s66_source::{Redefined, SOURCE_LINES_LIMIT, cut_line};
use std::alloc::{AllocError, Global};

/// What was found in the line of this number, after what was found in those before it.
fn push_findings<'a>(
    all: &mut Vec<Finding<'a>>,
    number: u32,
    findings: &[LineFinding<'a>],
) -> Result<(), AllocError>
    requires { 1 ≤ number }
    ensures { (before : ℕ) → before ≤ number → is_in_order 1 before all.old.items ≡ true →
        OnOk result (is_in_order 1 number all.new.items ≡ true) }
{
    for finding in findings {
        all.push(Finding {
            number,
            rule: finding.rule,
            first: finding.first,
            second: finding.second,
        })?;
    }
    Ok(())
}

/// That the first line past the limit is too long, if there is one and it is, by its length.
fn push_long(all: &mut Vec<Finding>, past: Option<usize>) -> Result<(), AllocError>
    ensures { (before last : ℕ) → before ≤ min SOURCE_LINES_LIMIT last → is_in_order 1 before all.old.items ≡ true →
        is_some past ≡ nat_lt SOURCE_LINES_LIMIT last →
        OnOk result (is_in_order 1 (min (suc SOURCE_LINES_LIMIT) last) all.new.items ≡ true) }
{
    let too_long = LineFinding {
        rule: FindingRule::TooLong,
        first: &[],
        second: &[],
        harm: Harm::Nothing,
    };
    match past {
        Some(length) if length > LINE_BYTES_LIMIT => {
            push_findings(all, SOURCE_LINES_LIMIT + 1, &[too_long])
        }
        _ => Ok(()),
    }
}

/// All that is found in a source, of which these are the lines up to the limit, and some, by index, are left alone.
fn found_in<'a>(
    alloc: Global,
    text: &[u8],
    lines: &'a [Line<'a>],
    past: Option<usize>,
    alone: &[bool],
    redefined: Redefined,
) -> Result<Vec<Finding<'a>>, AllocError>
    requires lines { length lines.now ≤ min SOURCE_LINES_LIMIT (length (lines_of text.now)) }
    requires past { is_some past ≡ has_more text.now }
    ensures { IfOk result (λ all. AreFindings text.now all.items) }
{
    let rules = Rules::of(alloc, Deck::of(alloc, lines, alone)?, redefined)?;
    let mut tracker = Tracker::new(alloc, false);
    let mut all = Vec::new(alloc);
    for (at, line) in lines.iter().enumerate() {
        let found = rules.findings_of(&mut tracker, at, line)?;
        push_findings(&mut all, at as u32 + 1, found.as_slice())?;
    }
    push_long(&mut all, past)?;
    Ok(all)
}

/// The lines that are left alone where the order of code is asked for: with `--cut` alone.
fn left_alone(alone: &[bool], cut: bool) -> &[bool] {
    if cut { alone } else { &[] }
}

/// That a source has too many lines, if it has.
fn push_past(out: &mut Vec<u8>, has_more: bool) -> Result<(), AllocError>
    ensures { OnOk result (out.new.items ≡ out.old.items ++ past_line has_more) }
{
    if !has_more {
        return Ok(());
    }
    out.extend_from_slice(b"TOO MANY LINES\n")
}

/// How many lines a text has.
fn count_lines(text: &[u8]) -> usize
    ensures { result ≡ length (lines_of text.now) }
{
    let mut count = 0;
    let mut rest = text;
    while let Some((_, more)) = cut_line(rest) {
        count += 1;
        rest = more;
    }
    count
}

/// What `lint` lists of a source.
#[derive(Drop)]
pub struct Listed {
    /// A line for each finding.
    pub text: Vec<u8>,
    /// How many lines that are.
    pub lines: usize,
}

/// A line for each finding in a source, which may be any text, in the order of its lines, and of the first `SOURCE_LINES_LIMIT`
/// lines alone; and how many these are. With `cut` those are left out that `--cut` leaves alone. `Err` is out of memory.
pub fn findings_in(alloc: Global, text: &[u8], cut: bool) -> Result<Listed, AllocError>
    ensures text { IfOk result (λ listed. IsFindings (record { cut = cut; text = text.now }) listed.text.items) }
    ensures lines { IfOk result (λ listed. listed.lines ≡ length (lines_of listed.text.items)) }
{
    let letters = text.to_ascii_uppercase(alloc)?;
    let redefined = Redefined::of(alloc, text)?;
    let lines = Lines::of(alloc, text, letters.as_slice(), &redefined)?;
    let alone = lines.alone.as_slice();
    let all = found_in(
        alloc,
        text,
        lines.lines.as_slice(),
        lines.past,
        left_alone(alone, cut),
        redefined,
    )?;
    let mut out = Vec::new(alloc);
    push_listing(&mut out, alone, all.as_slice(), cut)?;
    push_past(&mut out, lines.past.is_some())?;
    let lines = count_lines(out.as_slice());
    Ok(Listed { text: out, lines })
}
