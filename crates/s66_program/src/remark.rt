//! What standard error gets after a success: what the input lacks, how many lines `lint` lists, and how many blocks are only bounded.
//! And the status by that.

ghost use Rattle.std.specs.Prelude.{ℕ, List, [], ◌∷◌, ◌≡◌, ◌==◌, ◌<◌, ◌≤◌, ◌++◌, Some, true, false, if◌then◌else◌, codes, IfOk, length};
ghost use Rattle.s66_command.specs.{reads_cut, reads_of};
ghost use Rattle.s66_command.specs.declared.command.Reads.TheVariants as reads;
ghost use Rattle.s66_source.specs.{source_of};
ghost use Rattle.s66_program.specs.{shows_blocks, source_in, AreCounts, IsCount, IsRemark, bounded_line, counted_sources, found_words, asks_for_facts, lines_word, lint_words, listed_line, missing_line};
ghost use Rattle.s66_program.specs.{missing_of_documents, missing_of_source, prints_orders, raised, regions_line, without_block, without_blocks};
ghost use Rattle.s66_program.specs.declared.remark.Missing.TheVariants as missing;

use crate::limits::REMARK_ROOM;
use arrayvec::ArrayString;
use itoa::Buffer;
use s66_answer::{Output, Status};
use s66_command::Command;
use s66_lint::findings_in;
use s66_source::{Source, halves_of};
use std::alloc::{AllocError, Global};

/// What an input lacks of which blocks or documents are shown.
#[derive(Clone, Copy)]
pub enum Missing {
    Nothing,
    /// A line, and so a block.
    Lines,
    /// A block, though there are lines.
    Blocks,
    /// The only block that was asked for, by its number; the last has another one.
    Block { number: u32, last: usize },
    /// A document.
    Documents,
}

/// What standard error gets after a success.
#[derive(Clone, Copy)]
pub struct Remark {
    /// What the input lacks.
    pub missing: Missing,
    /// Whether `lint` is to be called with `--cut`.
    pub cut: bool,
    /// How many lines `lint` then lists.
    pub listed: usize,
    /// How many regions `guard` put between switches, and how many lines they have.
    pub regions: usize,
    pub lines: usize,
}

/// How a command that wrote all its text ended, and what is told of that.
#[derive(Clone, Copy)]
pub struct Ended {
    pub status: Status,
    pub remark: Remark,
}

/// That a block isn't there.
fn push_no_block(text: &mut ArrayString<REMARK_ROOM>, number: u32, last: usize)
    requires { text.old.bytes ≡ [] }
    ensures text { text.new.bytes ≡ missing_line (missing.Block number last) }
    ensures short { length text.new.bytes ≤ 66 }
{
    let mut digits = Buffer::new();
    text.push_str("no block ");
    text.push_str(digits.format(number));
    text.push_str(": the last is ");
    text.push_str(digits.format(last));
    text.push_str("\n");
}

/// What an input lacks.
fn missing_line(missing: Missing) -> ArrayString<REMARK_ROOM>
    ensures text { result.bytes ≡ missing_line missing }
    ensures short { length result.bytes ≤ 66 }
{
    let mut text = ArrayString::new();
    match missing {
        Missing::Nothing => {}
        Missing::Lines => text.push_str("no block: the source is empty\n"),
        Missing::Blocks => {
            text.push_str("no block: an instruction's operation begins in column 3 or later\n")
        }
        Missing::Block { number, last } => push_no_block(&mut text, number, last),
        Missing::Documents => {
            text.push_str("no document: s66 check reads what s66 prove prints\n")
        }
    }
    text
}

fn lint_words(cut: bool) -> &'static str
    ensures text { result.now ≡ lint_words cut }
    ensures short { length result.now ≤ 21 }
{
    if cut {
        "s66 lint --cut lists "
    } else {
        "s66 lint lists "
    }
}

/// What `lint` lists.
fn found_words(cut: bool, count: usize) -> &'static str
    ensures text { result.now ≡ found_words cut count }
    ensures short { length result.now ≤ 51 }
{
    match (cut, count == 1) {
        (false, true) => " line that order may harm\n",
        (false, false) => " lines that order may harm\n",
        (true, true) => " finding; s66 guard puts switches around the code\n",
        (true, false) => " findings; s66 guard puts switches around the code\n",
    }
}

fn lines_word(count: usize) -> &'static str
    ensures text { result.now ≡ lines_word count }
    ensures short { length result.now ≤ 6 }
{
    if count == 1 { " line" } else { " lines" }
}

fn places_word(count: usize) -> &'static str
    ensures text { result.now ≡ (if count == 1 then codes " place with " else codes " places with ") }
    ensures short { length result.now ≤ 13 }
{
    if count == 1 {
        " place with "
    } else {
        " places with "
    }
}

/// What becomes of these places.
fn places_end(count: usize) -> &'static str
    ensures text { result.now ≡ (if count == 1 then codes " is left alone\n" else codes " are left alone\n") }
    ensures short { length result.now ≤ 16 }
{
    if count == 1 {
        " is left alone\n"
    } else {
        " are left alone\n"
    }
}

/// How many lines `lint` lists, if it lists some.
fn push_listed(text: &mut ArrayString<REMARK_ROOM>, cut: bool, count: usize)
    requires { length text.old.bytes ≤ 66 }
    ensures text { text.new.bytes ≡ text.old.bytes ++ listed_line cut count }
    ensures short { length text.new.bytes ≤ 158 }
{
    if count == 0 {
        return;
    }
    let mut digits = Buffer::new();
    text.push_str(lint_words(cut));
    text.push_str(digits.format(count));
    text.push_str(found_words(cut, count));
}

/// How many regions `guard` put between switches, if it did so, and how many lines they have.
fn push_regions(text: &mut ArrayString<REMARK_ROOM>, regions: usize, lines: usize)
    requires { length text.old.bytes ≤ 158 }
    ensures text { text.new.bytes ≡ text.old.bytes ++ regions_line regions lines }
    ensures short { length text.new.bytes ≤ 233 }
{
    if regions == 0 {
        return;
    }
    let mut digits = Buffer::new();
    text.push_str(digits.format(regions));
    text.push_str(places_word(regions));
    text.push_str(digits.format(lines));
    text.push_str(lines_word(lines));
    text.push_str(places_end(regions));
}

impl Remark {
    ghost use Rattle.std.specs.Prelude.{◌≡◌};
    ghost use Rattle.s66_program.specs.{remark_text};

    /// The lines that standard error gets of an input, each with its newline.
    fn text(&self) -> ArrayString<REMARK_ROOM>
        ensures text { result.bytes ≡ remark_text self.now }
        ensures short { length result.bytes ≤ 233 }
    {
        let mut text = missing_line(self.missing);
        push_listed(&mut text, self.cut, self.listed);
        push_regions(&mut text, self.regions, self.lines);
        text
    }
}

/// Whether a command asks for a search by facts.
fn is_deep(command: Command) -> bool
    ensures { result ≡ asks_for_facts command.entry }
{
    match command.asked.strategy() {
        Some(strategy) => strategy.deep,
        None => false,
    }
}

fn blocks_word(count: usize) -> &'static str
    ensures text { result.now ≡ (if count == 1 then codes " block" else codes " blocks") }
    ensures short { length result.now ≤ 7 }
{
    if count == 1 { " block" } else { " blocks" }
}

/// What may decide so many blocks that are only bounded.
fn bounded_end(count: usize) -> &'static str
    ensures text { result.now ≡ (if count == 1 then codes " is only bounded; --deep may decide it\n" else codes " are only bounded; --deep decides most of these\n") }
    ensures short { length result.now ≤ 49 }
{
    if count == 1 {
        " is only bounded; --deep may decide it\n"
    } else {
        " are only bounded; --deep decides most of these\n"
    }
}

/// That blocks are only bounded, if some are.
fn push_bounded(text: &mut ArrayString<REMARK_ROOM>, status: Status)
    requires { length text.old.bytes ≤ 233 }
    ensures { text.new.bytes ≡ text.old.bytes ++ bounded_line status }
{
    if let Status::Bounded { blocks, of } = status {
        let mut digits = Buffer::new();
        text.push_str(digits.format(blocks));
        text.push_str(" of ");
        text.push_str(digits.format(of));
        text.push_str(blocks_word(of));
        text.push_str(bounded_end(blocks));
    }
}

impl Ended {
    ghost use Rattle.std.specs.Prelude.{◌≡◌};
    ghost use Rattle.s66_program.specs.{told_text};

    /// The lines that standard error gets after a command, each with its newline.
    pub fn text(&self, command: Command) -> ArrayString<REMARK_ROOM>
        ensures { result.bytes ≡ told_text command.entry self.now }
    {
        let mut text = self.remark.text();
        if !is_deep(command) {
            push_bounded(&mut text, self.status);
        }
        text
    }
}

/// What a command writes, and what is told after that.
#[derive(Drop)]
pub(crate) struct Finished {
    pub(crate) output: Output,
    pub(crate) remark: Remark,
}

/// Whether a command prints orders that were looked for, or their times.
fn prints_orders(command: Command) -> bool
    ensures { result ≡ prints_orders command.entry }
{
    command.asked.strategy().is_some()
}

/// Why a source has no block.
fn without_blocks(text: &[u8]) -> Missing
    ensures { result ≡ without_blocks text.now }
{
    match text {
        [] => Missing::Lines,
        [_, ..] => Missing::Blocks,
    }
}

/// Whether a source whose last block has this number lacks the only one that is to be printed.
fn without_block(only: Option<u32>, last: usize) -> Missing
    ensures { result ≡ without_block only last }
{
    let Some(number) = only else {
        return Missing::Nothing;
    };
    if last < number as usize {
        Missing::Block { number, last }
    } else {
        Missing::Nothing
    }
}

/// What a source of this text lacks.
fn missing_of_source(source: &Source, only: Option<u32>, text: &[u8]) -> Missing
    ensures { result ≡ missing_of_source only text.now (source_of source.now) }
{
    let blocks = source.blocks();
    match blocks {
        [] => without_blocks(text),
        [_, ..] => without_block(only, blocks.len()),
    }
}

/// What a text of documents lacks.
pub(crate) fn missing_of_documents(text: &[u8]) -> Missing
    ensures { result ≡ missing_of_documents text.now }
{
    match text {
        [] => Missing::Documents,
        [_, ..] => Missing::Nothing,
    }
}

/// How many lines `lint` lists of a source.
fn listed_in(alloc: Global, source: &[u8], cut: bool) -> Result<usize, AllocError>
    ensures { IfOk result (IsCount (record { cut = cut; text = source.now })) }
{
    Ok(findings_in(alloc, source, cut)?.lines)
}

/// How many lines `lint` lists of two sources, the second only if it is asked for.
fn listed_in_both(
    alloc: Global,
    old: &[u8],
    new: &[u8],
    both: bool,
    cut: bool,
) -> Result<usize, AllocError>
    ensures { IfOk result (AreCounts (record { cut = cut; text = old.now } ∷
        (if both then record { cut = cut; text = new.now } ∷ [] else []))) }
{
    let of_old = listed_in(alloc, old, cut)?;
    if !both {
        return Ok(of_old);
    }
    let of_new = listed_in(alloc, new, cut)?;
    // memory holds no more lines than a number counts
    of_old.checked_add(of_new).ok_or(AllocError)
}

/// How many lines `lint` lists of the only source of an input, or 0 if that isn't told.
fn listed_of(alloc: Global, command: Command, input: &[u8]) -> Result<usize, AllocError>
    requires { reads_of command.asked ≡ reads.Source }
    ensures { IfOk result (AreCounts (counted_sources command.entry input.now)) }
{
    if !prints_orders(command) {
        return Ok(0);
    }
    let listed = listed_in(alloc, input, command.reads_cut())?;
    Ok(listed)
}

/// How many lines `lint` lists of the old source of two, and if it is to be strict of the new one too.
pub(crate) fn listed_of_halves(
    alloc: Global,
    command: Command,
    input: &[u8],
) -> Result<usize, AllocError>
    requires prints { prints_orders command ≡ false }
    requires reads { reads_of command.asked ≡ reads.Sources }
    ensures { IfOk result (AreCounts (counted_sources command.entry input.now)) }
{
    match halves_of(input) {
        Some(halves) => listed_in_both(
            alloc,
            halves.old,
            halves.new,
            command.strict,
            command.reads_cut(),
        ),
        None => Ok(0),
    }
}

/// What is told of an input that `guard` doesn't read.
pub(crate) fn remark_with(command: Command, missing: Missing, listed: usize) -> Remark
    ensures { result ≡ record { missing = missing; cut = reads_cut command.entry; listed = listed; regions = 0; lines = 0 } }
{
    Remark {
        missing,
        cut: command.reads_cut(),
        listed,
        regions: 0,
        lines: 0,
    }
}

/// What is told after a command has written its text for a source, which was read from this input.
pub(crate) fn remark_of(
    alloc: Global,
    command: Command,
    source: &Source,
    input: &[u8],
) -> Result<Remark, AllocError>
    requires reads { reads_of command.asked ≡ reads.Source }
    requires shows { shows_blocks command.asked ≡ true }
    requires source { source.now ≡ source_in command input.now }
    ensures { (text : List ℕ) → IfOk result (IsRemark command.entry input.now text) }
{
    let listed = listed_of(alloc, command, input)?;
    let missing = missing_of_source(source, command.block, input);
    Ok(remark_with(command, missing, listed))
}

/// How a command ends whose text ends so, by what is told.
pub(crate) fn raised(command: Command, remark: Remark, status: Status) -> Status
    ensures { result ≡ raised command.entry remark status }
{
    match status {
        Status::Done => {
            if command.some && matches!(remark.missing, Missing::Documents) {
                Status::Denied
            } else if command.strict && 0 < remark.listed {
                Status::Listed
            } else {
                Status::Done
            }
        }
        _ => status,
    }
}
