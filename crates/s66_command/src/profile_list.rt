//! A profile as a list of names with their numbers, as `units_add=2,load=5`, which stands for a JSON object.

ghost use Rattle.std.specs.Prelude.{◌≡◌, ◌<◌, ◌++◌, IfErr, IfOk, OnOk, length, string_bytes, true};
ghost use Rattle.std.specs.Option.{option_map_or};
ghost use Rattle.s66_command.specs.{byte_in_json, is_name_byte, json_of, may_follow};

use std::alloc::{AllocError, Global};

/// Whether a byte may be one of a name.
fn is_name_byte(byte: u8) -> bool
    ensures value { result ≡ is_name_byte byte }
    ensures ascii { result ≡ true → byte < 128 }
{
    byte.is_ascii_alphabetic() || byte == b'_'
}

/// Whether a byte may stand behind another one in a list.
fn may_follow(before: u8, byte: u8) -> bool
    ensures value { result ≡ may_follow before byte }
    ensures ascii { result ≡ true → byte < 128 }
{
    if is_name_byte(byte) {
        is_name_byte(before) || before == b','
    } else if byte.is_ascii_digit() {
        before.is_ascii_digit() || before == b'='
    } else {
        (byte == b'=' && is_name_byte(before)) || (byte == b',' && before.is_ascii_digit())
    }
}

/// Appends a byte of a list as JSON has it.
fn push_in_json(object: &mut String, byte: u8) -> Result<(), AllocError>
    requires { byte < 128 }
    ensures { OnOk result (string_bytes object.new ≡ string_bytes object.old ++ byte_in_json byte) }
{
    match byte {
        b'=' => object.push_str("\":"),
        b',' => object.push_str(",\""),
        _ => object.push(char::from(byte)),
    }
}

/// The JSON object for which a text stands, if it is a list. An empty one, which is none, needs no memory.
pub(crate) fn object_of_list(alloc: Global, text: &str) -> Result<Option<String>, AllocError>
    ensures json { IfOk result (λ object. json_of text.now ≡ option_map_or (λ o. string_bytes o) object text.now) }
    ensures memory { IfErr result (λ e. 0 < length text.now) }
{
    if text.is_empty() {
        return Ok(None);
    }
    let mut object = String::from_str(alloc, "{\"")?;
    let mut before = b',';
    for byte in text.as_bytes() {
        if !may_follow(before, *byte) {
            return Ok(None);
        }
        push_in_json(&mut object, *byte)?;
        before = *byte;
    }
    if !before.is_ascii_digit() {
        return Ok(None);
    }
    object.push_str("}")?;
    Ok(Some(object))
}
