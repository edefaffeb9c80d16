//! A text of a source as a JSON string: each byte as the character of its number.

ghost use Rattle.std.specs.Prelude.{◌≡◌, ◌<◌, ◌++◌, OnOk};
ghost use Rattle.std.specs.Char.{digit_char};
ghost use Rattle.json.specs.Print.{escape};
ghost use Rattle.s66_views.specs.{character, string_text};

use std::alloc::AllocError;

/// A digit of base 16.
fn digit(value: u8) -> u8
    requires { value < 16 }
    ensures { result ≡ digit_char value }
{
    if value < 10 {
        b'0' + value
    } else {
        b'a' + (value - 10)
    }
}

/// A control character, which JSON escapes.
#[tactic(auto, unfolding(json::specs::Print::escape_byte))]
fn push_control(out: &mut Vec<u8>, byte: u8) -> Result<(), AllocError>
    requires { byte < 32 }
    ensures { OnOk result (out.new.items ≡ out.old.items ++ escape (character byte)) }
{
    match byte {
        8 => out.extend_from_slice(b"\\b"),
        9 => out.extend_from_slice(b"\\t"),
        10 => out.extend_from_slice(b"\\n"),
        12 => out.extend_from_slice(b"\\f"),
        13 => out.extend_from_slice(b"\\r"),
        _ => out.extend_from_slice(&[b'\\', b'u', b'0', b'0', digit(byte / 16), digit(byte % 16)]),
    }
}

/// The character of a byte's number, escaped as JSON does.
#[tactic(auto, unfolding(json::specs::Print::escape_byte))]
fn push_character(out: &mut Vec<u8>, byte: u8) -> Result<(), AllocError>
    ensures { OnOk result (out.new.items ≡ out.old.items ++ escape (character byte)) }
{
    if byte < 32 {
        push_control(out, byte)
    } else if byte == b'"' || byte == b'\\' {
        out.extend_from_slice(&[b'\\', byte])
    } else if byte < 128 {
        out.extend_from_slice(&[byte])
    } else {
        out.extend_from_slice(&[192 + byte / 64, 128 + byte % 64])
    }
}

/// A text of a source as a JSON string, each byte as the character of its number.
#[tactic(auto, unfolding(crate::specs::Pieces::string_text))]
pub(crate) fn push_string(out: &mut Vec<u8>, text: &[u8]) -> Result<(), AllocError>
    ensures { OnOk result (out.new.items ≡ out.old.items ++ string_text text.now) }
{
    out.extend_from_slice(b"\"")?;
    for byte in text {
        push_character(out, *byte)?;
    }
    out.extend_from_slice(b"\"")
}
