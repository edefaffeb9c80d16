//! The numbers of a profile that differ from the standard profile's, and their text. Other crates print it above what they say under
//! such a profile.

ghost use Rattle.std.specs.Prelude.{ℕ, List, [], ◌≡◌, ◌≤◌, ◌++◌, OnOk, get_or, length, map};
ghost use Rattle.std.specs.Borrow.{Bor};
ghost use Rattle.s66_isa.specs.{PROFILE_LENGTH};
ghost use Rattle.s66_command.specs.{changes, changes_from, changes_text};

use crate::profile::NAMES;
use arrayvec::ArrayVec;
use s66_device::push_field;
use s66_isa::{PROFILE_LENGTH, Profile};
use std::alloc::AllocError;

/// A number of a profile that isn't the standard profile's.
#[derive(Clone, Copy, Default)]
pub struct Change {
    /// Its place among `Profile::entries`.
    pub place: usize,
    pub value: u8,
}

/// The name at a place; empty if there is none.
fn name_among(names: &[&'static str], place: usize) -> &'static [u8]
    ensures { result.now ≡ get_or (map (λ (known : Bor (List ℕ)). known.now) names.now) place [] }
{
    match names.get(place) {
        Some(name) => name.as_bytes(),
        None => b"",
    }
}

impl Change {
    ghost use Rattle.std.specs.Prelude.{◌≡◌};
    ghost use Rattle.s66_command.specs.{name_at};

    /// What the number is called.
    pub fn name(&self) -> &'static [u8]
        ensures { result.now ≡ name_at self.now.place }
    {
        name_among(&NAMES, self.place)
    }
}

/// Of these numbers those that differ from the standard ones beside them.
fn changes_among(numbers: &[u8], standard: &[u8]) -> ArrayVec<Change, PROFILE_LENGTH>
    requires { length numbers.now ≤ PROFILE_LENGTH }
    ensures { result.items ≡ changes_from 0 numbers.now standard.now }
{
    let mut changes = ArrayVec::new();
    let mut place = 0;
    let mut numbers = numbers;
    let mut standard = standard;
    while let [value, more @ ..] = numbers {
        let [usual, others @ ..] = standard else {
            return changes;
        };
        if *value != *usual {
            changes.push(Change {
                place,
                value: *value,
            });
        }
        place += 1;
        numbers = more;
        standard = others;
    }
    changes
}

/// The numbers of a profile that aren't the standard profile's, in the order of `Profile::entries`.
pub fn changes_of(profile: &Profile) -> ArrayVec<Change, PROFILE_LENGTH>
    ensures { result.items ≡ changes profile.now }
{
    changes_among(&profile.entries(), &Profile::standard().entries())
}

/// Appends the name and the value of each of these numbers, a blank before each. `Err` is out of memory.
pub fn push_changes(out: &mut Vec<u8>, changes: &[Change]) -> Result<(), AllocError>
    ensures { OnOk result (out.new.items ≡ out.old.items ++ changes_text changes.now) }
{
    for change in changes {
        out.extend_from_slice(b" ")?;
        out.extend_from_slice(change.name())?;
        push_field(out, b" ", change.value as usize)?;
    }
    Ok(())
}
