//! All lines of a source (`Deck`), with what each pass found out of them: by the lines before, by those after, and by the words of code.

use crate::deck::after::{After, LinesAfter};
use crate::deck::before::{Before, LinesBefore};
use crate::deck::changing::Changing;
use crate::deck::joining::{Joining, OpenWord};
use crate::deck::runs::Runs;
use crate::layout::{Layout, Span};
use crate::line::{Line, is_before};
use std::alloc::{AllocError, Global};

/// A source, with what is known of each line by those around it.
#[derive(Drop)]
pub(crate) struct Deck<'a> {
    lines: &'a [Line<'a>],
    runs: Runs,
    pub(crate) changing: Changing,
    pub(crate) layout: Layout,
    before: Vec<Before>,
    after: Vec<After>,
    joining: Vec<Joining>,
}

impl<'a> Deck<'a> {
    /// Of these lines, of which some, by index, are left alone besides those between switches.
    pub(crate) fn of(
        alloc: Global,
        lines: &'a [Line<'a>],
        alone: &[bool],
    ) -> Result<Deck<'a>, AllocError> {
        let runs = Runs::of(alloc, lines, alone)?;
        let changing = Changing::of(alloc, lines, &runs)?;
        let mut deck = Deck {
            lines,
            runs,
            changing,
            layout: Layout::of(alloc, lines)?,
            before: Vec::new(alloc),
            after: Vec::new(alloc),
            joining: Vec::new(alloc),
        };
        deck.look_back()?;
        deck.look_ahead()?;
        deck.look_at_words()?;
        Ok(deck)
    }

    fn look_back(&mut self) -> Result<(), AllocError> {
        let mut standing = LinesBefore::default();
        for line in self.lines {
            let before = standing.take(self.before.len(), line);
            self.before.push(before)?;
        }
        Ok(())
    }

    fn look_ahead(&mut self) -> Result<(), AllocError> {
        let mut rest = LinesAfter::at_end();
        let mut at = self.lines.len();
        for line in self.lines.iter().rev() {
            at = at.saturating_sub(1);
            let before = self.before(at);
            let after = rest.take(at, line, &before);
            self.after.push(after)?;
        }
        self.after.reverse();
        Ok(())
    }

    fn look_at_words(&mut self) -> Result<(), AllocError> {
        let mut word = OpenWord::default();
        for line in self.lines {
            let at = self.joining.len();
            let joining = word.take(
                at,
                line,
                self.line(self.after(at).next),
                self.changing.holds(at),
            );
            self.joining.push(joining)?;
        }
        Ok(())
    }

    pub(crate) fn lines(&self) -> &'a [Line<'a>] {
        self.lines
    }

    pub(crate) fn runs(&self) -> &Runs {
        &self.runs
    }

    /// What is known of the line at this index by those before it.
    pub(crate) fn before(&self, at: usize) -> Before {
        self.before.get(at).copied().unwrap_or_default()
    }

    /// What is known of it by those after it.
    pub(crate) fn after(&self, at: usize) -> After {
        self.after.get(at).copied().unwrap_or_default()
    }

    /// How it may stand in a word with another line.
    pub(crate) fn joining(&self, at: usize) -> Joining {
        self.joining.get(at).copied().unwrap_or_default()
    }

    /// Whether the comment at this index is within a block, or between the label of one and it.
    pub(crate) fn is_within_block(&self, at: usize) -> bool {
        self.runs.is_within_block(at)
    }

    /// How many bytes the label has of the run in which the line at this index stands, if it is in one.
    pub(crate) fn label_of_run(&self, at: usize) -> Option<usize> {
        self.runs.label_at(at)
    }

    /// The line at this index, if there is one.
    pub(crate) fn line(&self, at: Option<usize>) -> Option<&'a Line<'a>> {
        self.lines.get(at?)
    }

    /// The statement at a place among all statements.
    pub(crate) fn statement(&self, place: usize) -> Option<&'a Line<'a>> {
        self.line(self.layout.line_of(place))
    }

    /// The lines of some statements, by index, with the comments between.
    pub(crate) fn lines_of(&self, statements: Span) -> Span {
        if statements.is_empty() {
            return Span::default();
        }
        Span {
            first: self.index_of(statements.first),
            end: self.index_of(statements.end),
        }
    }

    fn index_of(&self, place: usize) -> usize {
        self.layout.line_of(place).unwrap_or(self.lines.len())
    }

    /// The index of the line of code in whose word the name stands that the line at this index may have.
    pub(crate) fn code_named(&self, at: usize, line: &Line) -> Option<usize> {
        if line.is_code() {
            return Some(at);
        }
        let is_before = match line.operation() {
            b"EQU" | b"=" => is_before(line.fields.operand)?,
            _ if line.is_mark() => false,
            _ => return None,
        };
        let near = if is_before {
            self.before(at).last
        } else {
            self.after(at).next
        };
        if self.line(near)?.is_code() {
            near
        } else {
            None
        }
    }
}
