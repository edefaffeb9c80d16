//! What is found in a line: each rule with its condition, in the order in which findings of one line are listed. Rules that need more
//! than a few lines have a file of their own, by the name of the finding.

use crate::deck::Deck;
use crate::finding::{FindingRule, Harm, LineFinding};
use crate::harm::Tracker;
use crate::layout::{Extent, Span};
use crate::line::{Line, is_data, is_slip, names_nothing};
use crate::names::{Lengths, Names, rename};
use crate::rules::passes_code::Macros;
use crate::rules::rows_of_no::rows_of;
use crate::rules::skips_words::mark_skipping;
use crate::rules::slips::{is_in_column, seems_comment};
use s66_source::Redefined;
use std::alloc::{AllocError, Global};

/// A source, and the names in it.
#[derive(Drop)]
pub(crate) struct Rules<'a> {
    pub(crate) alloc: Global,
    pub(crate) deck: Deck<'a>,
    pub(crate) names: Names<'a>,
    pub(crate) lengths: Lengths,
    pub(crate) macros: Macros<'a>,
    redefined: Redefined,
    /// The first lines, by index, of too many pads.
    rows: Vec<usize>,
}

/// What was found in a line, and the harm that is being found.
#[derive(Drop)]
struct Sheet<'a, 't> {
    found: Vec<LineFinding<'a>>,
    tracker: &'t mut Tracker,
}

impl<'a, 't> Sheet<'a, 't> {
    /// Adds a finding that doesn't concern the order of code, if it is there.
    fn push_if(
        &mut self,
        there: bool,
        rule: FindingRule,
        line: &Line<'a>,
    ) -> Result<(), AllocError> {
        if there {
            self.found.push(LineFinding::of(rule, line, Harm::Nothing))?;
        }
        Ok(())
    }

    /// Adds a finding, if it has a harm.
    fn push_harm(&mut self, rule: FindingRule, line: &Line<'a>) -> Result<(), AllocError> {
        if !self.tracker.is_empty() {
            let harm = Harm::Runs(self.tracker.take());
            self.found.push(LineFinding::of(rule, line, harm))?;
        }
        Ok(())
    }
}

pub(crate) fn is_load(operation: &[u8]) -> bool {
    matches!(operation, [b'S', b'A', b'1'..=b'5'])
}

fn is_store(operation: &[u8]) -> bool {
    matches!(operation, [b'S', b'A', b'6' | b'7'])
}

impl<'a> Rules<'a> {
    /// Of a source that redefines this.
    pub(crate) fn of(
        alloc: Global,
        deck: Deck<'a>,
        redefined: Redefined,
    ) -> Result<Rules<'a>, AllocError> {
        let mut names = Names::of(alloc, &deck)?;
        rename(alloc, &deck, &mut names)?;
        mark_skipping(&deck, &mut names);
        let lengths = Lengths::of(alloc, &deck, &names)?;
        let macros = Macros::of(alloc, &deck, &names)?;
        let rows = rows_of(alloc, &deck)?;
        Ok(Rules {
            alloc,
            deck,
            names,
            lengths,
            macros,
            redefined,
            rows,
        })
    }

    /// What may be wrong with the line at this index.
    pub(crate) fn findings_of(
        &self,
        tracker: &mut Tracker,
        at: usize,
        line: &Line<'a>,
    ) -> Result<Vec<LineFinding<'a>>, AllocError> {
        let mut sheet = Sheet {
            found: Vec::new(self.alloc),
            tracker,
        };
        if line.is_long {
            sheet.push_if(true, FindingRule::TooLong, line)?;
        } else if line.is_comment() && !line.is_off {
            self.push_comment(&mut sheet, at, line)?;
        } else if !line.is_off {
            self.push_statement(&mut sheet, at, line)?;
        }
        let Sheet { found, tracker: _ } = sheet;
        Ok(found)
    }

    fn push_comment(
        &self,
        sheet: &mut Sheet<'a, '_>,
        at: usize,
        line: &Line<'a>,
    ) -> Result<(), AllocError> {
        let is_directive = line.is_directive() && self.deck.is_within_block(at);
        sheet.push_if(is_directive, FindingRule::Directive, line)?;
        let covers = self.deck.after(at).covers_code;
        sheet.push_if(covers, FindingRule::CountsLines, line)
    }

    fn push_statement(
        &self,
        sheet: &mut Sheet<'a, '_>,
        at: usize,
        line: &Line<'a>,
    ) -> Result<(), AllocError> {
        sheet.push_if(line.is_refused, FindingRule::BadOperand, line)?;
        if line.continues {
            return Ok(());
        }
        let is_redefined = self.is_redefined(at, line);
        let is_far = line.is_far() && !self.deck.before(at).in_definition;
        sheet.push_if(is_far, FindingRule::FarOperand, line)?;
        sheet.push_if(is_redefined, FindingRule::Redefined, line)?;
        let seems_comment = !self.deck.before(at).in_peripheral && seems_comment(line.fields);
        sheet.push_if(seems_comment, FindingRule::NotAComment, line)?;
        if !line.is_instruction_or_pad() {
            self.push_form(sheet, at, line)?;
        }
        if !(is_far || is_redefined) {
            self.push_past_end(sheet, at, line)?;
        }
        if !names_nothing(line.fields.operand) {
            self.push_named(sheet, at, line)?;
        }
        self.push_joining(sheet, at, line, is_redefined)?;
        if !names_nothing(line.fields.operand) {
            self.harm_counted(sheet.tracker, at, line)?;
            sheet.push_harm(FindingRule::CountsWords, line)?;
        }
        self.push_order(sheet, at, line)
    }

    /// Whether the source redefines the instruction or the pad at this index.
    fn is_redefined(&self, at: usize, line: &Line<'a>) -> bool {
        line.is_instruction_or_pad()
            && !self.deck.before(at).in_definition
            && line.is_one_of(&self.redefined)
    }

    /// What a statement is itself that is no instruction.
    fn push_form(
        &self,
        sheet: &mut Sheet<'a, '_>,
        at: usize,
        line: &Line<'a>,
    ) -> Result<(), AllocError> {
        let slips = !self.deck.before(at).in_peripheral && is_slip(line.operation());
        sheet.push_if(slips, FindingRule::NotAnInstruction, line)?;
        if is_in_column(self.alloc, line.fields)? {
            let rule = if matches!(line.body, [b' ', ..]) {
                FindingRule::InColumn2
            } else {
                FindingRule::InColumn1
            };
            sheet.push_if(true, rule, line)?;
        }
        let has_body = self.deck.after(at).has_body;
        sheet.push_if(has_body, FindingRule::HasABody, line)
    }

    /// That an instruction ends where COMPASS reads no more, or may be put there.
    fn push_past_end(
        &self,
        sheet: &mut Sheet<'a, '_>,
        at: usize,
        line: &Line<'a>,
    ) -> Result<(), AllocError> {
        if !self.deck.before(at).in_definition && self.is_past_end(at, line)? {
            let finding = LineFinding::of(FindingRule::PastColumn72, line, Harm::Itself);
            sheet.found.push(finding)?;
        }
        Ok(())
    }

    /// What a statement does to the words of code that it names.
    fn push_named(
        &self,
        sheet: &mut Sheet<'a, '_>,
        at: usize,
        line: &Line<'a>,
    ) -> Result<(), AllocError> {
        let operation = line.operation();
        if is_load(operation) {
            self.harm_referenced(sheet.tracker, at, line)?;
            return sheet.push_harm(FindingRule::LoadsCode, line);
        }
        if is_store(operation) {
            self.harm_referenced(sheet.tracker, at, line)?;
            return sheet.push_harm(FindingRule::StoresIntoCode, line);
        }
        if operation == b"RJ".as_slice() {
            self.harm_called(sheet.tracker, at, line)?;
            return sheet.push_harm(FindingRule::StoresIntoCode, line);
        }
        self.harm_taken(sheet.tracker, at, line)?;
        sheet.push_harm(FindingRule::TakesCode, line)?;
        self.harm_passed(sheet.tracker, at, line)?;
        sheet.push_harm(FindingRule::PassesCode, line)
    }

    /// Harms the word into which a return jump stores.
    fn harm_called(
        &self,
        tracker: &mut Tracker,
        at: usize,
        line: &Line<'a>,
    ) -> Result<(), AllocError> {
        let before = self.deck.before(at);
        if before.in_definition || before.in_peripheral {
            return Ok(());
        }
        match self.names.code_of(line.fields.operand, before.program) {
            Some(code) => {
                let extent = Extent::Words {
                    words: 0,
                    with_own: true,
                };
                self.harm_loose(tracker, &code, &extent)
            }
            None => Ok(()),
        }
    }

    /// How a statement stands in a word with others.
    fn push_joining(
        &self,
        sheet: &mut Sheet<'a, '_>,
        at: usize,
        line: &Line<'a>,
        is_redefined: bool,
    ) -> Result<(), AllocError> {
        if line.operation() == b"RJ".as_slice() {
            self.harm_skipped(sheet.tracker, at, line)?;
            sheet.push_harm(FindingRule::SkipsWords, line)?;
        }
        if self.deck.before(at).in_definition {
            return Ok(());
        }
        let joining = self.deck.joining(at);
        if joining.joins && !is_redefined {
            let finding = LineFinding::of(FindingRule::JoinsAWord, line, Harm::Itself);
            sheet.found.push(finding)?;
        }
        if let Some(first) = joining.slides_from {
            let slid = Span { first, end: at };
            sheet.tracker.harm(&self.deck.changing, slid)?;
            sheet.push_harm(FindingRule::JoinsAWord, line)?;
        }
        Ok(())
    }

    /// What depends on the order of code and of lines.
    fn push_order(
        &self,
        sheet: &mut Sheet<'a, '_>,
        at: usize,
        line: &Line<'a>,
    ) -> Result<(), AllocError> {
        self.harm_falling(sheet.tracker, at, line)?;
        sheet.push_harm(FindingRule::FallsIntoData, line)?;
        if self.rows.as_slice().binary_search(&at).is_ok() {
            self.harm(sheet.tracker, self.own(at))?;
            sheet.push_harm(FindingRule::RowOfNo, line)?;
        }
        let covers = self.deck.after(at).covers_code;
        sheet.push_if(covers, FindingRule::CountsLines, line)
    }

    /// The statement in the line at this index.
    fn own(&self, at: usize) -> Span {
        let first = self.deck.layout.place_of(at);
        Span {
            first,
            end: first.saturating_add(1),
        }
    }

    /// Harms the code that runs from the line at this index into data.
    fn harm_falling(
        &self,
        tracker: &mut Tracker,
        at: usize,
        line: &Line<'a>,
    ) -> Result<(), AllocError> {
        let before = self.deck.before(at);
        if before.in_definition || before.in_peripheral || !line.is_code() {
            return Ok(());
        }
        if self.is_before_data(at) {
            let own = self.own(at);
            let first = self.deck.layout.falling_into(own.first).first;
            self.harm(tracker, Span { first, ..own })?;
        }
        Ok(())
    }

    /// Whether data, or an entry with a name, stands directly behind the line at this index.
    fn is_before_data(&self, at: usize) -> bool {
        let next = self.deck.line(self.deck.after(at).next);
        next.is_some_and(|next| {
            !next.joins()
                && is_data(next.operation())
                && !(next.operation() == b"PS".as_slice() && next.name().is_empty())
        })
    }
}
