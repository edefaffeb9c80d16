//! What all findings of a source harm, by line (`source_harm`): which lines are harmed, and by which findings. `guard` asks it.

use crate::deck::{Changing, Deck, Lines, RunRange};
use crate::finding::{Harm, LineFinding};
use crate::harm::Tracker;
use crate::layout::Span;
use crate::line::Line;
use crate::listing::push_text;
use crate::rules::Rules;
use s66_source::Redefined;
use std::alloc::{AllocError, Global};
use std::collections::BTreeMap;

/// A finding that concerns the order of code.
#[derive(Drop)]
struct HarmingFinding {
    /// The index of its line.
    line: usize,
    /// Its text, as a part of all.
    text: Span,
    harm: Harm,
}

/// What is known of a line.
#[derive(Clone, Copy, Default)]
struct LineHarm {
    is_harmed: bool,
    may_change: bool,
    /// It is not between switches, and a comment that is neither a directive nor a switch, or has words of code, or makes no word.
    is_passed: bool,
}

/// What the findings of a source harm that concern the order of code, by the reading with `--cut`. Lines are named by their index.
#[derive(Drop)]
pub(crate) struct SourceHarm {
    changing: Changing,
    lines: Vec<LineHarm>,
    findings: Vec<HarmingFinding>,
    texts: Vec<u8>,
    /// The runs of all harms, of which each has parts.
    runs: Vec<RunRange>,
}

/// Whether one of some runs is among these.
fn are_met(runs: &[RunRange], asked: &RunRange) -> bool {
    runs.iter().any(|range| range.meets(asked))
}

fn is_passed(line: &Line) -> bool {
    if line.is_off {
        return false;
    }
    if line.is_comment() {
        return !line.is_directive() && !line.is_on_switch();
    }
    line.has_words() || line.is_wordless()
}

/// Whether each of the runs that may change is in one of some ranges.
fn harmed_runs(alloc: Global, count: usize, ranges: &[RunRange]) -> Result<Vec<bool>, AllocError> {
    let mut steps: Vec<(usize, usize)> = Vec::new(alloc);
    for _ in 0..count {
        steps.push((0, 0))?;
    }
    for range in ranges {
        if let Some(step) = steps.get_mut(range.first) {
            step.0 = step.0.saturating_add(1);
        }
        if let Some(step) = steps.get_mut(range.last) {
            step.1 = step.1.saturating_add(1);
        }
    }
    let mut harmed = Vec::new(alloc);
    let mut depth: usize = 0;
    for (begins, ends) in steps.as_slice() {
        depth = depth.saturating_add(*begins);
        harmed.push(depth > 0)?;
        depth = depth.saturating_sub(*ends);
    }
    Ok(harmed)
}

/// What the findings of a source harm, which may be any text, by the reading with `--cut`; of the first `SOURCE_LINES_LIMIT` lines
/// alone. `Err` is out of memory.
pub(crate) fn source_harm(alloc: Global, text: &[u8]) -> Result<SourceHarm, AllocError> {
    let letters = text.to_ascii_uppercase(alloc)?;
    let redefined = Redefined::of(alloc, text)?;
    let read = Lines::of(alloc, text, letters.as_slice(), &redefined)?;
    let lines = read.lines.as_slice();
    let deck = Deck::of(alloc, lines, read.alone.as_slice())?;
    harm_by(alloc, &Rules::of(alloc, deck, redefined)?, lines)
}

/// The harm that these rules find in these lines.
fn harm_by<'a>(
    alloc: Global,
    rules: &Rules<'a>,
    lines: &'a [Line<'a>],
) -> Result<SourceHarm, AllocError> {
    let mut harms = SourceHarm {
        changing: Changing::of(alloc, lines, rules.deck.runs())?,
        lines: Vec::new(alloc),
        findings: Vec::new(alloc),
        texts: Vec::new(alloc),
        runs: Vec::new(alloc),
    };
    harms.take_findings(alloc, rules, lines)?;
    harms.look_at_lines(alloc, lines)?;
    Ok(harms)
}

/// Adds a finding, if it concerns the order of code.
fn push_harming(
    findings: &mut Vec<HarmingFinding>,
    texts: &mut Vec<u8>,
    line: usize,
    found: LineFinding,
) -> Result<(), AllocError> {
    let LineFinding {
        rule,
        first,
        second,
        harm,
    } = found;
    if matches!(harm, Harm::Nothing) {
        return Ok(());
    }
    let begin = texts.len();
    push_text(texts, rule, first, second)?;
    let text = Span {
        first: begin,
        end: texts.len(),
    };
    findings.push(HarmingFinding { line, text, harm })?;
    Ok(())
}

impl SourceHarm {
    fn take_findings<'a>(
        &mut self,
        alloc: Global,
        rules: &Rules<'a>,
        lines: &'a [Line<'a>],
    ) -> Result<(), AllocError> {
        let mut tracker = Tracker::new(alloc, true);
        for (at, line) in lines.iter().enumerate() {
            for found in rules.findings_of(&mut tracker, at, line)? {
                push_harming(&mut self.findings, &mut self.texts, at, found)?;
            }
        }
        self.runs = tracker.into_runs();
        Ok(())
    }

    fn look_at_lines(&mut self, alloc: Global, lines: &[Line]) -> Result<(), AllocError> {
        let harmed = harmed_runs(alloc, self.changing.count(), self.runs.as_slice())?;
        for (at, line) in lines.iter().enumerate() {
            let run = self.changing.run_at(at);
            let is_harmed = run.is_some_and(|run| harmed.get(run).copied().unwrap_or(false));
            self.lines.push(LineHarm {
                is_harmed,
                may_change: run.is_some(),
                is_passed: is_passed(line),
            })?;
        }
        for finding in self.findings.as_slice() {
            if matches!(finding.harm, Harm::Itself) {
                if let Some(line) = self.lines.get_mut(finding.line) {
                    line.is_harmed = true;
                }
            }
        }
        Ok(())
    }

    fn line(&self, line: usize) -> LineHarm {
        self.lines.get(line).copied().unwrap_or_default()
    }

    /// Whether a line is in the harm of some finding.
    pub(crate) fn is_harmed(&self, line: usize) -> bool {
        self.line(line).is_harmed
    }

    /// Whether a line may stand between two harmed ones without an end of the switches: it is harmed too, or it can't change, is not
    /// between switches, and is a comment that is neither a directive nor a switch, has words of code, or makes no word.
    pub(crate) fn may_stand_between(&self, line: usize) -> bool {
        let line = self.line(line);
        line.is_harmed || !line.may_change && line.is_passed
    }

    /// The texts of the findings that harm a line from the first to the last, in the order of the lines in which they are, each text
    /// once: the words of the rule, and up to two words of the line. It looks once at each finding, and at each answer that they share.
    pub(crate) fn texts_in(
        &self,
        alloc: Global,
        first: usize,
        last: usize,
    ) -> Result<Vec<&[u8]>, AllocError> {
        let lines = Span {
            first,
            end: last.saturating_add(1),
        };
        let runs = self.changing.touched(lines);
        let mut known: BTreeMap<&[u8], ()> = BTreeMap::new(alloc);
        let mut answers: BTreeMap<(usize, usize), bool> = BTreeMap::new(alloc);
        let mut texts = Vec::new(alloc);
        for finding in self.findings.as_slice() {
            if self.harms(finding, lines, runs, &mut answers)? {
                let Span { first, end } = finding.text;
                let text = self.texts.get(first..end).unwrap_or(&[]);
                if known.insert(text, ())?.is_none() {
                    texts.push(text)?;
                }
            }
        }
        Ok(texts)
    }

    fn harms(
        &self,
        finding: &HarmingFinding,
        lines: Span,
        runs: Option<RunRange>,
        answers: &mut BTreeMap<(usize, usize), bool>,
    ) -> Result<bool, AllocError> {
        match &finding.harm {
            Harm::Nothing => Ok(false),
            Harm::Itself => Ok(finding.line >= lines.first && finding.line < lines.end),
            Harm::Runs(parts) => match runs {
                Some(runs) => self.harms_runs(parts.as_slice(), &runs, answers),
                None => Ok(false),
            },
        }
    }

    /// Whether one of these parts of a harm meets some runs. Findings share parts, so what each does is kept.
    fn harms_runs(
        &self,
        parts: &[Span],
        runs: &RunRange,
        answers: &mut BTreeMap<(usize, usize), bool>,
    ) -> Result<bool, AllocError> {
        for part in parts {
            if self.meets(part, runs, answers)? {
                return Ok(true);
            }
        }
        Ok(false)
    }

    fn meets(
        &self,
        part: &Span,
        runs: &RunRange,
        answers: &mut BTreeMap<(usize, usize), bool>,
    ) -> Result<bool, AllocError> {
        let key = (part.first, part.end);
        if let Some(known) = answers.get(&key) {
            return Ok(*known);
        }
        let own = self.runs.get(part.first..part.end).unwrap_or(&[]);
        let meets = are_met(own, runs);
        let _before = answers.insert(key, meets)?;
        Ok(meets)
    }
}
