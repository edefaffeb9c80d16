//! Short texts with a number, as the lines of faults are.

ghost use Rattle.std.specs.Prelude.{◌≡◌, ◌++◌, ◌<◌, ◌≤◌, codes, decimal, length, OnOk};
ghost use Rattle.s66_device.specs.{FAULT_ROOM};

use crate::limits::FAULT_ROOM;
use arrayvec::ArrayString;
use itoa::Buffer;
use std::alloc::AllocError;

/// Appends a text and a number after it, in decimal. `Err` is out of memory.
pub fn push_field(out: &mut Vec<u8>, name: &[u8], number: usize) -> Result<(), AllocError>
    ensures { OnOk result (out.new.items ≡ out.old.items ++ name.now ++ decimal number) }
{
    let mut buffer = Buffer::new();
    out.extend_from_slice(name)?;
    out.extend_from_slice(buffer.format(number).as_bytes())
}

/// Appends a number in decimal, and texts before and after it. `Err` is out of memory.
pub fn push_between(
    out: &mut Vec<u8>,
    before: &[u8],
    number: usize,
    after: &[u8],
) -> Result<(), AllocError>
    ensures { OnOk result (out.new.items ≡ out.old.items ++ (before.now ++ decimal number ++ after.now)) }
{
    push_field(out, before, number)?;
    out.extend_from_slice(after)
}

/// A text of a few bytes.
pub fn short_text(text: &str) -> ArrayString<FAULT_ROOM>
    requires { length text.now < FAULT_ROOM }
    ensures { result.bytes ≡ text.now }
{
    let mut line = ArrayString::new();
    line.push_str(text);
    line
}

/// A line of the input, and what is wrong with it.
pub fn line_refusal(line: u64, what: &str) -> ArrayString<FAULT_ROOM>
    requires { length what.now ≤ 12 }
    ensures text { result.bytes ≡ codes "LINE " ++ decimal line ++ what.now }
    ensures short { length result.bytes < FAULT_ROOM }
{
    let mut digits = Buffer::new();
    let mut text = ArrayString::new();
    text.push_str("LINE ");
    text.push_str(digits.format(line));
    text.push_str(what);
    text
}
