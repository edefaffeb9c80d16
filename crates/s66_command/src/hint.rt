//! Why a text is no profile: which key is no name of a number, or which value is no number of a profile.

ghost use Rattle.std.specs.Prelude.{[], ◌≡◌, ◌↔◌, ◌++◌, IfOk, IsSome, codes, string_bytes};
ghost use Rattle.serde_json.specs.View.{members_view};
ghost use Rattle.s66_command.specs.{hint_in_members, hint_in_text, shown, wrong_name, profile_in_text};

use crate::profile::{number, place, value_of};
use crate::profile_error::ProfileError;
use s66_isa::PROFILE_LIMIT;
use serde_json::{Map, Value};
use std::alloc::{AllocError, Global};

/// What is wrong with a text that is no JSON object, nor stands for one.
const NO_OBJECT: &str = "no JSON object such as {\"units_add\":2}, nor units_add=2";

/// What comes after a name that is wrong.
const RIGHT_NAMES: &str = "\n\
    the names are boolean, shift, normalise, add, longadd, multiply, divide,\n\
    population, increment, load, units_boolean, units_shift, units_add,\n\
    units_longadd, units_multiply, units_divide, units_increment";

/// A key as JSON writes it: in quotes, with each quote, each backslash and each byte below a space escaped. Other bytes stand as they
/// are, also those of the control characters U+007F to U+009F.
fn shown(alloc: Global, key: &str) -> Result<String, AllocError>
    ensures { IfOk result (λ text. string_bytes text ≡ shown key.now) }
{
    Value::String(String::from_str(alloc, key)?).to_string(alloc)
}

/// What is wrong with a key that names no number.
fn no_such_number(alloc: Global, key: &str) -> Result<String, AllocError>
    ensures { IfOk result (λ hint. string_bytes hint ≡ wrong_name (shown key.now)) }
{
    let mut hint = String::from_str(alloc, "no number of a profile is called ")?;
    hint.push_str(shown(alloc, key)?.as_str())?;
    hint.push_str(RIGHT_NAMES)?;
    Ok(hint)
}

// `no_whole_number` writes the limit out.
const _: () = prove!(PROFILE_LIMIT == 100);

/// What is wrong with the value of a key that names a number.
fn no_whole_number(alloc: Global, key: &str) -> Result<String, AllocError>
    ensures { IfOk result (λ hint. string_bytes hint ≡ shown key.now ++ codes " is no whole number 1 to 100") }
{
    let mut hint = shown(alloc, key)?;
    hint.push_str(" is no whole number 1 to 100")?;
    Ok(hint)
}

/// What is wrong with the first member that sets no number, in the order of the keys; empty if each sets one.
fn hint_in(alloc: Global, members: &Map<String, Value>) -> Result<String, AllocError>
    ensures { IfOk result (λ hint. string_bytes hint ≡ hint_in_members (members_view members.now.entries)) }
{
    for (name, value) in members.iter() {
        if place(name.as_str()).is_none() {
            return no_such_number(alloc, name.as_str());
        }
        if number(value).is_none() {
            return no_whole_number(alloc, name.as_str());
        }
    }
    Ok(String::new(alloc))
}

/// Why a text gives no profile, as lines without the last newline; empty if it gives one. For after `read_profile` gave `BadProfile`.
///
/// # Errors
///
/// `AllocError` if a growth was refused.
pub fn profile_hint(alloc: Global, text: &str) -> Result<String, AllocError>
    ensures value { IfOk result (λ hint. string_bytes hint ≡ hint_in_text text.now) }
    ensures empty { IfOk result (λ hint. (string_bytes hint ≡ []) ↔ IsSome (profile_in_text text.now)) }
{
    match value_of(alloc, text) {
        Ok(value) => match value.as_object() {
            Some(members) => hint_in(alloc, members),
            None => String::from_str(alloc, NO_OBJECT),
        },
        Err(ProfileError::BadProfile) => String::from_str(alloc, NO_OBJECT),
        Err(ProfileError::OutOfMemory) => Err(AllocError),
    }
}
