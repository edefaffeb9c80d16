//! The numbers of a profile that aren't the standard profile's, as a member.

ghost use Rattle.std.specs.Prelude.{◌≡◌, ◌++◌, false, OnOk};
ghost use Rattle.s66_command.specs.{changes};
ghost use Rattle.s66_views.specs.{changes_listed, profile_member_text};

use crate::json_lines::string::push_string;
use crate::json_lines::text::{push_comma, push_text};
use s66_command::{Change, changes_of};
use s66_device::push_field;
use s66_isa::Profile;
use std::alloc::AllocError;

/// Numbers of a profile with their names, and the brace that closes them.
fn push_listed(out: &mut Vec<u8>, changes: &[Change]) -> Result<(), AllocError>
    ensures { OnOk result (out.new.items ≡ out.old.items ++ changes_listed false changes.now) }
{
    for (i, change) in changes.iter().enumerate() {
        push_comma(out, 0 < i)?;
        push_string(out, change.name())?;
        push_field(out, b":", change.value as usize)?;
    }
    push_text(out, b"}")
}

/// Numbers of a profile as a member of an object, if there are any.
fn push_changes(out: &mut Vec<u8>, changes: &[Change]) -> Result<(), AllocError>
    ensures { OnOk result (out.new.items ≡ out.old.items ++ profile_member_text changes.now) }
{
    match changes {
        [] => Ok(()),
        _ => {
            push_text(out, b",\"profile\":{")?;
            push_listed(out, changes)
        }
    }
}

/// The numbers of a profile that aren't the standard profile's, if there are any.
pub(crate) fn push_profile(out: &mut Vec<u8>, profile: &Profile) -> Result<(), AllocError>
    ensures { OnOk result (out.new.items ≡ out.old.items ++ profile_member_text (changes profile.now)) }
{
    push_changes(out, changes_of(profile).as_slice())
}
