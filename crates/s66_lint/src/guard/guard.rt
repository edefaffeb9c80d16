//! Prints a source with the switches `*S66 OFF GUARD` and `*S66 ON GUARD` around the lines that are marked (`guard_text`). Which these
//! are is decided in `marks.rt`.

ghost use Rattle.std.specs.Prelude.{◌≡◌, ◌≤◌, ◌<◌, ◌^◌, ◌++◌, ◌∷◌, ◌||◌, ◌&&◌, Bool, not, [], true, length, take, IfOk, OnOk, take_while};
ghost use Rattle.std.specs.List.{prefix_len};
ghost use Rattle.s66_line.specs.{is_newline};
ghost use Rattle.s66_source.specs.{is_off_switch, is_on_switch, off_after};
ghost use Rattle.s66_lint.specs.{Begins, IsGuard, Kept, beginnings, between, guarded_lines, guarded_text, shown_reason, Finishes, GainsLines, first_mark, later_marks, marks_of, reason_texts};

use crate::guard::marks::{LineMark, marks_of};
use crate::listing::push_word;
use s66_line::{body_of, without_trailing};
use s66_source::{cut_line, is_switch};
use std::alloc::{AllocError, Global};

/// How many bytes of a reason are shown, so that its line has up to 72.
pub(crate) const REASON_LIMIT: usize = 57;

/// A source with switches around lines that `order` could harm.
#[derive(Drop)]
pub struct Guarded {
    pub text: Vec<u8>,
    /// How many regions were put between switches, and how many lines of the source these have.
    pub regions: usize,
    pub lines: usize,
}

/// How many bytes come before the first newline.
fn line_length(bytes: &[u8]) -> usize
    ensures value { result ≡ prefix_len (λ b. not (is_newline b)) bytes.now }
    ensures within { result ≤ length bytes.now }
{
    bytes.iter().take_while(|b| **b != b'\n').count()
}

/// The bytes before the first newline.
fn first_line(bytes: &[u8]) -> &[u8]
    ensures { result.now ≡ take_while (λ b. not (is_newline b)) bytes.now }
{
    &bytes[..line_length(bytes)]
}

/// The bytes up to the limit.
fn front(bytes: &[u8]) -> &[u8]
    ensures { result.now ≡ take REASON_LIMIT bytes.now }
{
    if bytes.len() > REASON_LIMIT {
        return &bytes[..REASON_LIMIT];
    }
    bytes
}

/// What is shown of a reason.
fn shown(reason: &[u8]) -> &[u8]
    ensures { result.now ≡ shown_reason reason.now }
{
    without_trailing(front(first_line(reason)))
}

/// The line before a region, for a reason.
fn push_reason(out: &mut Vec<u8>, reason: &[u8]) -> Result<(), AllocError>
    ensures { OnOk result (out.new.items ≡ out.old.items ++ guarded_text (Begins reason.now ∷ [])) }
{
    out.extend_from_slice(b"*S66 OFF GUARD")?;
    push_word(out, shown(reason))?;
    out.extend_from_slice(b"\n")
}

/// A line before a region for each reason, or one if there is none.
fn push_beginnings(out: &mut Vec<u8>, reasons: &[Vec<u8>]) -> Result<(), AllocError>
    ensures { OnOk result (out.new.items ≡ out.old.items ++ guarded_text (beginnings (reason_texts reasons.now))) }
{
    if reasons.is_empty() {
        return push_reason(out, &[]);
    }
    for reason in reasons {
        push_reason(out, reason.as_slice())?;
    }
    Ok(())
}

/// Why a region is in danger that the first of some lines begins.
fn first_reasons(marks: &[LineMark]) -> &[Vec<u8>]
    ensures { reason_texts result.now ≡ (first_mark (marks_of marks.now)).reasons }
{
    match marks {
        [mark, ..] => mark.reasons.as_slice(),
        [] => &[],
    }
}

/// Whether the first of some lines is in danger.
fn is_first_harmed(marks: &[LineMark]) -> bool
    ensures { result ≡ (first_mark (marks_of marks.now)).is_harmed }
{
    match marks {
        [mark, ..] => mark.is_harmed,
        [] => false,
    }
}

/// The marks of the others.
fn later_marks(marks: &[LineMark]) -> &[LineMark]
    ensures { marks_of result.now ≡ later_marks (marks_of marks.now) }
{
    match marks {
        [_, more @ ..] => more,
        [] => marks,
    }
}

/// Whether the first of some lines is guarded, of which this is the body: it is in danger, isn't left alone without `--cut`, and is no
/// switch. `off` says whether a switch `OFF` of the source is open.
fn is_guarded(marks: &[LineMark], off: bool, body: &[u8]) -> bool
    ensures { result ≡ ((first_mark (marks_of marks.now)).is_harmed &&
        not ((off || is_off_switch body.now) || is_on_switch body.now)) }
{
    is_first_harmed(marks) && !(off || is_switch(body, b"OFF") || is_switch(body, b"ON"))
}

/// Whether a switch `OFF` of the source is open after a line.
fn off_after(off: bool, body: &[u8]) -> bool
    ensures { result ≡ off_after off body.now }
{
    !is_switch(body, b"ON") && (off || is_switch(body, b"OFF"))
}

impl Guarded {
    fn nothing(alloc: Global) -> Guarded
        ensures text { result.text.items ≡ [] }
        ensures regions { result.regions ≡ 0 }
        ensures lines { result.lines ≡ 0 }
    {
        Guarded {
            text: Vec::new(alloc),
            regions: 0,
            lines: 0,
        }
    }

    /// Adds what stands between two lines, by whether each is guarded; the reasons are those of the second.
    fn push_between(
        &mut self,
        first: bool,
        second: bool,
        reasons: &[Vec<u8>],
    ) -> Result<(), AllocError>
        requires { self.old.regions < 2 ^ 63 }
        ensures { OnOk result (GainsLines self.old self.new (between first second (reason_texts reasons.now))) }
    {
        match (first, second) {
            (false, true) => push_beginnings(&mut self.text, reasons),
            (true, false) => {
                self.regions += 1;
                self.text.extend_from_slice(b"*S66 ON GUARD\n")
            }
            _ => Ok(()),
        }
    }

    /// Adds a line of the source.
    fn push_line(&mut self, guarded: bool, line: &[u8]) -> Result<(), AllocError>
        requires { self.old.lines < 2 ^ 63 }
        ensures { (alone : Bool) → OnOk result (GainsLines self.old self.new
            (Kept guarded (record { alone = alone; bytes = line.now }) ∷ [])) }
    {
        self.lines += guarded as usize;
        self.text.extend_from_slice(line)?;
        self.text.extend_from_slice(b"\n")
    }
}

/// Prints a source with switches around the lines that are marked, from the first line on.
fn print_guarded(alloc: Global, marks: &[LineMark], text: &[u8]) -> Result<Guarded, AllocError>
    ensures { IfOk result (λ printed. Finishes printed [] (guarded_lines (marks_of marks.now) text.now)) }
{
    let mut printed = Guarded::nothing(alloc);
    let mut left = marks;
    let mut rest = text;
    let mut off = false;
    let mut inside = false;
    while let Some((line, more)) = cut_line(rest) {
        let body = body_of(line);
        let here = is_guarded(left, off, body);
        printed.push_between(inside, here, first_reasons(left))?;
        printed.push_line(here, line)?;
        off = off_after(off, body);
        inside = here;
        left = later_marks(left);
        rest = more;
    }
    printed.push_between(inside, false, &[])?;
    Ok(printed)
}

/// The source with the comments `*S66 OFF GUARD` and `*S66 ON GUARD` around the lines that `order --cut` could harm.
pub fn guard_text(alloc: Global, text: &[u8]) -> Result<Guarded, AllocError>
    ensures { IfOk result (λ printed. IsGuard text.now printed.text.items printed.regions printed.lines) }
{
    let marks = marks_of(alloc, text)?;
    print_guarded(alloc, marks.as_slice(), text)
}
