//! That a text is read if memory is left, and said why it gives no profile, which no clause says.

use s66_command::{ProfileError, profile_hint, read_profile};
use std::process::Abort;

/// Each key, with a number that no other has, in an order that isn't that of a profile's numbers.
const EACH_KEY: &str = "{\
    \"units_increment\":27,\"units_divide\":26,\"units_multiply\":25,\"units_longadd\":24,\
    \"units_add\":23,\"units_shift\":22,\"units_boolean\":21,\
    \"load\":20,\"increment\":19,\"population\":18,\"divide\":17,\"multiply\":16,\
    \"longadd\":15,\"add\":14,\"normalise\":13,\"shift\":12,\"boolean\":11}";

/// Texts that give a profile, and its numbers.
const PROFILES: &[(&str, &str)] = &[
    (
        "{}",
        "[3, 3, 4, 4, 3, 10, 29, 8, 3, 8, 1, 1, 1, 1, 2, 1, 2]",
    ),
    (
        "{\"boolean\":5}",
        "[5, 3, 4, 4, 3, 10, 29, 8, 3, 8, 1, 1, 1, 1, 2, 1, 2]",
    ),
    (
        " { \"units_multiply\" : 3 , \"\\u006coad\" : 100 }\n",
        "[3, 3, 4, 4, 3, 10, 29, 8, 3, 100, 1, 1, 1, 1, 3, 1, 2]",
    ),
    (
        "units_increment=27,units_add=2,shift=12,units_add=23",
        "[3, 12, 4, 4, 3, 10, 29, 8, 3, 8, 1, 1, 23, 1, 2, 1, 27]",
    ),
    (
        EACH_KEY,
        "[11, 12, 13, 14, 15, 16, 17, 18, 19, 20, 21, 22, 23, 24, 25, 26, 27]",
    ),
];

/// Texts that give none.
const REFUSED: &[&str] = &[
    "",
    "{",
    "[]",
    "{\"boolean\":0}",
    "{\"boolean\":101}",
    "{\"boolean\":3.0}",
    "{\"boolean\":\"3\"}",
    "{\"branch\":3}",
    "{\"boolean\":5} x",
    "boolean==,,boolean=5",
];

/// Texts, and why they give no profile.
const HINTS: &[(&str, &str)] = &[
    (
        "slow.json",
        "no JSON object such as {\"units_add\":2}, nor units_add=2",
    ),
    (
        "[]",
        "no JSON object such as {\"units_add\":2}, nor units_add=2",
    ),
    (
        "{\"units_mult\":1}",
        "no number of a profile is called \"units_mult\"\nthe names are boolean, shift, normalise, add, longadd, multiply, divide,\npopulation, increment, load, units_boolean, units_shift, units_add,\nunits_longadd, units_multiply, units_divide, units_increment",
    ),
    (
        "{\"multiply\":0}",
        "\"multiply\" is no whole number 1 to 100",
    ),
    (
        "{\"a\\u001b\\n\":5}",
        "no number of a profile is called \"a\\u001b\\n\"\nthe names are boolean, shift, normalise, add, longadd, multiply, divide,\npopulation, increment, load, units_boolean, units_shift, units_add,\nunits_longadd, units_multiply, units_divide, units_increment",
    ),
    ("{}", ""),
];

/// Checks the numbers of the profile that a text gives, or why it gives none.
fn check_numbers<R: AllocGlobal + Abort>(rt: &R, text: &str, wanted: &str) {
    let numbers = match read_profile(rt.alloc(), text) {
        Ok(profile) => format!(in rt.alloc(); "{:?}", profile.entries()),
        Err(refusal) => format!(in rt.alloc(); "{refusal}"),
    };
    let numbers = numbers.expect(rt, "memory");
    assert!(rt; numbers.as_str() == wanted, "{text}: {numbers}");
}

#[test]
fn reads_profiles(rt: HostRuntime) {
    for (text, numbers) in PROFILES {
        check_numbers(&rt, text, numbers);
    }
    for text in REFUSED {
        check_numbers(&rt, text, "BAD PROFILE");
    }
    assert!(rt; ProfileError::OutOfMemory.line() == "OUT OF MEMORY");
}

#[test]
fn gives_hints(rt: HostRuntime) {
    for (text, wanted) in HINTS {
        let hint = profile_hint(rt.alloc(), text).expect(&rt, "memory");
        assert!(rt; hint.as_str() == *wanted, "{text}: {hint}");
    }
}
