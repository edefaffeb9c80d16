//! What `lint` writes of any text, and its status: whether a line is refused, or findings are listed.

ghost use Rattle.std.specs.Prelude.{◌≡◌, IfOk, is_err};
ghost use Rattle.s66_source.specs.{source_of};
ghost use Rattle.s66_program.specs.{IsLintOutput, lint_status};

use s66_answer::{Output, Status};
use s66_lint::findings_in;
use s66_source::{SourceError, read_source_with};
use std::alloc::{AllocError, Global};

/// How `lint` ends, by whether some line is refused and by its text.
fn lint_status(refused: bool, text: &[u8]) -> Status
    ensures { result ≡ lint_status refused text.now }
{
    if refused {
        Status::Denied
    } else if text.is_empty() {
        Status::Done
    } else {
        Status::Listed
    }
}

/// Whether some line of a source is refused, with `--cut` or without.
fn is_refused(alloc: Global, input: &[u8], cut: bool) -> Result<bool, AllocError>
    ensures { IfOk result (λ refused. refused ≡ is_err (source_of (record { cut = cut; text = input.now }))) }
{
    match read_source_with(alloc, cut, input) {
        Ok(_) => Ok(false),
        Err(SourceError::OutOfMemory) => Err(AllocError),
        Err(_) => Ok(true),
    }
}

/// What is stated of the lines of a source, which may be any text; with `cut`, of those alone that `--cut` doesn't leave alone.
pub(crate) fn lint_output(alloc: Global, input: &[u8], cut: bool) -> Result<Output, AllocError>
    ensures { IfOk result (λ output. IsLintOutput
        (record { cut = cut; text = input.now }) output.text.items output.status) }
{
    let text = findings_in(alloc, input, cut)?.text;
    let status = lint_status(is_refused(alloc, input, cut)?, text.as_slice());
    Ok(Output { text, status })
}
