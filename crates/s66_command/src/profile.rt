//! A profile read from a JSON object, or from a list that stands for one; and the names of its numbers.

ghost use Rattle.std.specs.Prelude.{◌≡◌, ◌<◌, ◌≤◌, Err, IfOk, IfSome, None, Some, length, option_map};
ghost use Rattle.serde_json.specs.View.{view};
ghost use Rattle.serde_json.specs.Read.{read};
ghost use Rattle.s66_isa.specs.{profile_of, entries};
ghost use Rattle.s66_command.specs.{Gives, json_of, profile_number, profile_numbers, profile_numbers_in_text, place_of, profile_in_text, BadProfile};
ghost use Rattle.s66_command.specs.declared.profile_error.ProfileError.TheVariants.{OutOfMemory};

use crate::profile_error::ProfileError;
use crate::profile_list::object_of_list;
use s66_isa::{PROFILE_LENGTH, PROFILE_LIMIT, Profile};
use serde_json::Value;
use std::alloc::Global;

/// The name of each number of a profile, in the order of `Profile::entries`.
pub(crate) const NAMES: [&str; PROFILE_LENGTH] = [
    "boolean",
    "shift",
    "normalise",
    "add",
    "longadd",
    "multiply",
    "divide",
    "population",
    "increment",
    "load",
    "units_boolean",
    "units_shift",
    "units_add",
    "units_longadd",
    "units_multiply",
    "units_divide",
    "units_increment",
];

/// The place of the number of this name.
pub(crate) fn place(name: &str) -> Option<usize>
    ensures value { result ≡ place_of name.now }
    ensures within { IfSome result (λ at. at < PROFILE_LENGTH) }
{
    NAMES.iter().position(|known| *known == name)
}

/// The number that a value is, if it may be in a profile.
pub(crate) fn number(value: &Value) -> Option<u8>
    ensures value { result ≡ profile_number (view value.now) }
    ensures range { IfSome result (λ n. (1 ≤ n) × (n ≤ PROFILE_LIMIT)) }
{
    let number = value.as_u64()?;
    if 1 <= number && number <= u64::from(PROFILE_LIMIT) {
        Some(number as u8)
    } else {
        None
    }
}

/// The profile that a JSON value gives: each member of the object sets the number that it names, and the others are the standard
/// profile's.
fn profile_in(value: &Value) -> Option<Profile>
    ensures value { result ≡ option_map profile_of (profile_numbers (view value.now)) }
    ensures numbers { IfSome result (λ p. profile_numbers (view value.now) ≡ Some (entries p)) }
{
    let members = value.as_object()?;
    let mut numbers = Profile::standard().entries();
    for (name, member) in members.iter() {
        let at = place(name.as_str())?;
        numbers[at] = number(member)?;
    }
    Profile::of(&numbers)
}

/// The JSON value of a text, or of the object for which the text stands if it is a list.
pub(crate) fn value_of(alloc: Global, text: &str) -> Result<Value, ProfileError>
    ensures value { IfOk result (λ value. read (json_of text.now) ≡ Some (view value)) }
    ensures refused { result ≡ Err BadProfile → read (json_of text.now) ≡ None }
    ensures memory { result ≡ Err OutOfMemory → 0 < length text.now }
{
    match object_of_list(alloc, text)? {
        Some(object) => Ok(Value::from_str(alloc, object.as_str())?),
        None => Ok(Value::from_str(alloc, text)?),
    }
}

/// The profile that a JSON object gives, or a list that stands for one, as `units_add=2,load=5`. Its keys are names of the numbers of
/// a profile, as `boolean` or `units_multiply`, and its values whole numbers 1 to `PROFILE_LIMIT`, written in digits alone. A number
/// that has no key is the standard profile's, and of equal keys the last counts.
///
/// # Errors
///
/// `BadProfile` for any other text. `OutOfMemory` if a growth was refused, which may be returned in place of any other answer; an
/// empty text needs no memory.
pub fn read_profile(alloc: Global, text: &str) -> Result<Profile, ProfileError>
    ensures profile { Gives result (profile_in_text text.now) }
    ensures numbers { IfOk result (λ p. profile_numbers_in_text text.now ≡ Some (entries p)) }
    ensures memory { result ≡ Err OutOfMemory → 0 < length text.now }
{
    let value = value_of(alloc, text)?;
    profile_in(&value).ok_or(ProfileError::BadProfile)
}
