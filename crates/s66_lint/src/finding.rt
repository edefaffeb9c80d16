//! The list of all rules (`FindingRule`), a finding in a line, and what a finding harms. When a rule applies is in `rules/`, how it is
//! worded in `listing.rt`.

use crate::layout::Span;
use crate::line::Line;
use s66_line::split_word;

/// What may be wrong with a line, in the order in which the findings of one line are listed.
#[derive(Clone, Copy)]
pub enum FindingRule {
    /// It is too long.
    TooLong,
    /// It is refused.
    BadOperand,
    /// Its operand isn't seen.
    FarOperand,
    /// The source redefines its operation, or its form.
    Redefined,
    /// It begins as a comment does elsewhere, and is none here.
    NotAComment,
    /// Its operation begins like one of the instruction table, and is none.
    NotAnInstruction,
    /// An instruction stands in its location field, in column 1 or 2.
    InColumn1,
    InColumn2,
    /// It is a directive within a block.
    Directive,
    /// It begins a definition, or an `ECHO`, that holds an instruction.
    HasABody,
    /// It ends past column 72, or may be put there.
    PastColumn72,
    /// It loads the word of an instruction.
    LoadsCode,
    /// It stores into the word of an instruction.
    StoresIntoCode,
    /// It takes the address of code into a register.
    TakesCode,
    /// It passes the address of code to a macro.
    PassesCode,
    /// It calls a routine that may skip words behind the call.
    SkipsWords,
    /// It stands for its place in the word of the line before it; or the line after it stands in its word, and may come into the
    /// other half of it.
    JoinsAWord,
    /// It counts words of code.
    CountsWords,
    /// It is code directly before data.
    FallsIntoData,
    /// It is the first of more pads than are needed.
    RowOfNo,
    /// It counts lines after it, of which one is an instruction.
    CountsLines,
}

/// What was found in a line, without the line's number: the rule, up to two words of the line, and what it harms.
#[derive(Drop)]
pub(crate) struct LineFinding<'a> {
    pub(crate) rule: FindingRule,
    pub(crate) first: &'a [u8],
    pub(crate) second: &'a [u8],
    pub(crate) harm: Harm,
}

/// What a finding harms.
#[derive(Drop)]
pub(crate) enum Harm {
    /// It doesn't concern the order of code.
    Nothing,
    /// Its own line.
    Itself,
    /// Runs that may change, as parts of a list of them.
    Runs(Vec<Span>),
}

impl<'a> LineFinding<'a> {
    /// With the words of the line that are shown, as they are written.
    pub(crate) fn of(rule: FindingRule, line: &Line<'a>, harm: Harm) -> LineFinding<'a> {
        let (first, second) = shown(rule, line);
        LineFinding {
            rule,
            first,
            second,
            harm,
        }
    }
}

/// The words of a line that are shown with a finding.
fn shown<'a>(rule: FindingRule, line: &Line<'a>) -> (&'a [u8], &'a [u8]) {
    let none: &'a [u8] = &[];
    let written = line.written();
    match rule {
        FindingRule::TooLong | FindingRule::RowOfNo => (none, none),
        FindingRule::Directive | FindingRule::CountsLines if line.is_comment() => (
            split_word(line.body).0,
            none,
        ),
        FindingRule::InColumn1 | FindingRule::InColumn2 => (written.location, written.operation),
        FindingRule::NotAComment if !written.location.is_empty() => (
            written.location,
            written.operation,
        ),
        FindingRule::NotAnInstruction | FindingRule::HasABody | FindingRule::CountsLines => (
            written.operation,
            none,
        ),
        _ => (written.operation, written.operand),
    }
}

/// What was found in the line of this number, with up to two words of it.
#[derive(Clone, Copy)]
pub struct Finding<'a> {
    pub number: u32,
    pub rule: FindingRule,
    pub first: &'a [u8],
    pub second: &'a [u8],
}
