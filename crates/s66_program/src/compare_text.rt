//! What `compare` and `page --compare` write of the two sources of an input.

ghost use Rattle.std.specs.Prelude.{◌≡◌, if◌then◌else◌, Bool, IfOk, IfErr};
ghost use Rattle.s66_answer.specs.{Denied, Done};
ghost use Rattle.s66_program.specs.{IsCompareRefusal, IsNewRefusal, IsViewOf, IsViewOutput};

use crate::fault::Fault;
use s66_answer::{Output, Status};
use s66_compare::{Compared, compare};
use s66_isa::Profile;
use s66_source::{Source, halves_of, read_source_with};
use s66_views::pairs_page;
use std::alloc::{AllocError, Global};

/// How two sources are shown.
#[derive(Clone, Copy)]
pub(crate) enum View {
    /// A line for each row, with `text` by lines and instructions where an order isn't legal.
    InLines { text: bool },
    /// A page.
    InPairs,
}

/// An old source and a new one. `Err` is out of memory.
fn show(
    alloc: Global,
    profile: &Profile,
    view: View,
    old: &Source,
    new: &Source,
) -> Result<Compared, AllocError>
    ensures { IfOk result (λ shown. IsViewOf profile.now view old.now new.now shown.text.items shown.is_accepted) }
{
    match view {
        View::InLines { text } => compare(alloc, profile, text, old, new),
        View::InPairs => pairs_page(alloc, profile, old, new),
    }
}

/// What is written of an old source and a new one. `Err` is out of memory.
fn compared_output(
    alloc: Global,
    profile: &Profile,
    view: View,
    old: &Source,
    new: &Source,
) -> Result<Output, AllocError>
    ensures { IfOk result (λ output. (accepted : Bool) ×
        IsViewOf profile.now view old.now new.now output.text.items accepted ×
        (output.status ≡ (if accepted then Done else Denied))) }
{
    let Compared { text, is_accepted } = show(alloc, profile, view, old, new)?;
    let status = if is_accepted {
        Status::Done
    } else {
        Status::Denied
    };
    Ok(Output { text, status })
}

/// The new source of an input, or why it was refused.
fn read_new(alloc: Global, cut: bool, text: &[u8]) -> Result<Source<'_>, Fault>
    ensures source { IfOk result (λ source. source ≡ record { cut = cut; text = text.now }) }
    ensures refused { IfErr result (IsNewRefusal (record { cut = cut; text = text.now })) }
{
    match read_source_with(alloc, cut, text) {
        Ok(source) => Ok(source),
        Err(refusal) => Err(Fault::of_new_source(refusal)),
    }
}

/// What is written of the two sources of an input under a profile, or why these were refused.
pub(crate) fn compare_output(
    alloc: Global,
    cut: bool,
    profile: &Profile,
    view: View,
    input: &[u8],
) -> Result<Output, Fault>
    ensures ok { IfOk result (λ output. IsViewOutput profile.now view cut input.now output.text.items output.status) }
    ensures err { IfErr result (IsCompareRefusal cut input.now) }
{
    let Some(halves) = halves_of(input) else {
        return Err(Fault::NoNewSource);
    };
    let old = read_source_with(alloc, cut, halves.old)?;
    let new = read_new(alloc, cut, halves.new)?;
    Ok(compared_output(alloc, profile, view, &old, &new)?)
}
