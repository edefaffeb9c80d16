//! What `check` writes: a line with the verdict on each document, and sentences with `--text`.

ghost use Rattle.std.specs.Prelude.{◌≡◌, ◌++◌, map, IfOk, OnOk};
ghost use Rattle.s66_cert.specs.{document_of, RefusesText};
ghost use Rattle.s66_checker.specs.{verdict as verdict_of};
ghost use Rattle.s66_program.specs.{IsCheckOutput, is_yes, reasons_by, verdict_line, verdict_lines, verdict_text, verdicts_status};

use s66_answer::{Observer, Output, Status};
use s66_cert::{CertError, Document, read};
use s66_checker::{Verdict, verify};
use s66_device::push_field;
use s66_reasons::push_reasons;
use std::alloc::{AllocError, Global};

/// The line of a document, whose number is from 1.
fn push_verdict_line(out: &mut Vec<u8>, number: usize, verdict: Verdict) -> Result<(), AllocError>
    ensures { OnOk result (out.new.items ≡ out.old.items ++ verdict_line number verdict) }
{
    push_field(out, b"DOCUMENT ", number)?;
    match verdict {
        Verdict::Yes { time, bound } => {
            push_field(out, b" YES TIME ", time as usize)?;
            push_field(out, b" BOUND ", bound as usize)?;
        }
        Verdict::No { line, reason } => {
            push_field(out, b" NO LINE ", line as usize)?;
            push_field(out, b" REASON ", reason.number() as usize)?;
        }
    }
    out.extend_from_slice(b"\n")
}

/// Why no order of a document's block is faster, if this verdict on it is yes.
fn push_reasons_by(
    out: &mut Vec<u8>,
    document: &Document,
    verdict: Verdict,
) -> Result<(), AllocError>
    requires { verdict ≡ verdict_of (document_of document.now) }
    ensures { OnOk result (out.new.items ≡ out.old.items ++ reasons_by verdict (document_of document.now)) }
{
    match verdict {
        Verdict::Yes { time, bound } => push_reasons(out, document, time, bound),
        Verdict::No { .. } => Ok(()),
    }
}

/// What is written of a document, whose number is from 1, with sentences or without them. Returns whether its verdict is yes.
fn push_verdict(
    out: &mut Vec<u8>,
    text: bool,
    number: usize,
    document: &Document,
) -> Result<bool, AllocError>
    ensures text { OnOk result (out.new.items ≡ out.old.items ++ verdict_text text number (document_of document.now)) }
    ensures yes { IfOk result (λ yes. yes ≡ is_yes (verdict_of (document_of document.now))) }
{
    let verdict = verify(document);
    push_verdict_line(out, number, verdict)?;
    if text {
        push_reasons_by(out, document, verdict)?;
    }
    Ok(matches!(verdict, Verdict::Yes { .. }))
}

/// The verdict on each document, with sentences or without them, and whether each is yes.
fn check_all<O: Observer>(
    alloc: Global,
    with_text: bool,
    documents: &[Document],
    observer: &mut O,
) -> Result<Output, AllocError>
    ensures text { IfOk result (λ output. output.text.items ≡
        verdict_lines with_text 0 (map document_of documents.now)) }
    ensures status { IfOk result (λ output. output.status ≡ verdicts_status (map document_of documents.now)) }
{
    let mut text = Vec::new(alloc);
    let mut all_yes = true;
    for (i, document) in documents.iter().enumerate() {
        observer.done(i, documents.len());
        let yes = push_verdict(&mut text, with_text, i + 1, document)?;
        all_yes = all_yes && yes;
    }
    let status = if all_yes {
        Status::Done
    } else {
        Status::Denied
    };
    Ok(Output { text, status })
}

/// The verdict on each document of a text, with sentences that say why no order is faster or without them, or why it is no text of
/// documents.
pub(crate) fn check_output<O: Observer>(
    alloc: Global,
    with_text: bool,
    text: &[u8],
    observer: &mut O,
) -> Result<Output, CertError>
    ensures ok { IfOk result (λ output. IsCheckOutput with_text text.now output.text.items output.status) }
    ensures err { RefusesText text.now result }
{
    let documents = read(alloc, text)?;
    Ok(check_all(alloc, with_text, documents.as_slice(), observer)?)
}
