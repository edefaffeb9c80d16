//! A text of a source as text of the page: no byte of it can begin or end an element.

ghost use Rattle.std.specs.Prelude.{◌≡◌, ◌++◌, OnOk, codes, decimal, if◌then◌else◌, nat_le};
ghost use Rattle.s66_views.specs.{is_printed, escaped_byte, escaped, escaped_lines, escaped_or_newline};

use s66_device::push_field;
use std::alloc::AllocError;

/// Whether a byte is a blank, a tab, or what ASCII prints.
fn is_printed(byte: u8) -> bool
    ensures { result ≡ is_printed byte }
{
    byte == b'\t' || (32 <= byte && byte < 127)
}

/// What stands for a byte that isn't printed: a character of Latin 1, or a replacement character.
fn push_unprinted(out: &mut Vec<u8>, byte: u8) -> Result<(), AllocError>
    ensures { OnOk result (out.new.items ≡ out.old.items ++
        (if nat_le 160 byte then codes "&#" ++ decimal byte ++ codes ";" else codes "&#65533;")) }
{
    if 160 <= byte {
        push_field(out, b"&#", byte as usize)?;
        out.extend_from_slice(b";")
    } else {
        out.extend_from_slice(b"&#65533;")
    }
}

/// A byte of a text, or what stands for it.
fn push_byte(out: &mut Vec<u8>, byte: u8) -> Result<(), AllocError>
    ensures { OnOk result (out.new.items ≡ out.old.items ++ escaped_byte byte) }
{
    if byte == b'<' {
        out.extend_from_slice(b"&lt;")
    } else if byte == b'>' {
        out.extend_from_slice(b"&gt;")
    } else if byte == b'&' {
        out.extend_from_slice(b"&amp;")
    } else if byte == b'"' {
        out.extend_from_slice(b"&quot;")
    } else if byte == b'\'' {
        out.extend_from_slice(b"&#39;")
    } else if is_printed(byte) {
        out.extend_from_slice(&[byte])
    } else {
        push_unprinted(out, byte)
    }
}

/// Appends a text of a source so that nothing of it is read as a part of the page. `<`, `>`, `&` and quotes are references to
/// characters, and so are bytes from 160 on, to those of Latin 1; other bytes that ASCII doesn't print are replacement characters.
/// `Err` is out of memory.
pub(crate) fn push_escaped(out: &mut Vec<u8>, text: &[u8]) -> Result<(), AllocError>
    ensures { OnOk result (out.new.items ≡ out.old.items ++ escaped text.now) }
{
    for byte in text {
        push_byte(out, *byte)?;
    }
    Ok(())
}

/// A byte of a text of several lines, or what stands for it.
fn push_byte_or_newline(out: &mut Vec<u8>, byte: u8) -> Result<(), AllocError>
    ensures { OnOk result (out.new.items ≡ out.old.items ++ escaped_or_newline byte) }
{
    if byte == b'\n' {
        out.extend_from_slice(b"\n")
    } else {
        push_byte(out, byte)
    }
}

/// Appends a text of several lines in the same way; each ends as it did. `Err` is out of memory.
pub(crate) fn push_escaped_lines(out: &mut Vec<u8>, text: &[u8]) -> Result<(), AllocError>
    ensures { OnOk result (out.new.items ≡ out.old.items ++ escaped_lines text.now) }
{
    for byte in text {
        push_byte_or_newline(out, *byte)?;
    }
    Ok(())
}
