//! Numbers between pieces of markup, as all files here append them.

ghost use Rattle.std.specs.Prelude.{◌≡◌, ◌++◌, OnOk, decimal};
ghost use Rattle.s66_views.specs.{number_at};

use s66_device::push_field;
use std::alloc::AllocError;

/// Appends a text. `Err` is out of memory, here and in all that appends to the page.
pub(crate) fn push_text(out: &mut Vec<u8>, text: &[u8]) -> Result<(), AllocError>
    ensures { OnOk result (out.new.items ≡ out.old.items ++ text.now) }
{
    out.extend_from_slice(text)
}

/// Appends a number in decimal.
pub(crate) fn push_number(out: &mut Vec<u8>, number: u8) -> Result<(), AllocError>
    ensures { OnOk result (out.new.items ≡ out.old.items ++ decimal number) }
{
    push_field(out, b"", number as usize)
}

/// Appends two numbers before, between and after texts.
pub(crate) fn push_two(
    out: &mut Vec<u8>,
    before: &[u8],
    first: usize,
    between: &[u8],
    second: usize,
    after: &[u8],
) -> Result<(), AllocError>
    ensures { OnOk result (out.new.items ≡ out.old.items ++
        (before.now ++ decimal first ++ between.now ++ decimal second ++ after.now)) }
{
    push_field(out, before, first)?;
    push_field(out, between, second)?;
    push_text(out, after)
}

/// Appends a number that is drawn from a minor cycle on.
#[tactic(auto, unfolding(crate::specs::Page::number_at))]
pub(crate) fn push_number_at(
    out: &mut Vec<u8>,
    cycle: usize,
    number: usize,
) -> Result<(), AllocError>
    ensures { OnOk result (out.new.items ≡ out.old.items ++ number_at cycle number) }
{
    push_two(
        out,
        b"<text x='",
        cycle,
        b"em' y='12'><tspan>",
        number,
        b"</tspan></text>",
    )
}
