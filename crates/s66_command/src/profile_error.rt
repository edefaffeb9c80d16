//! The errors of reading a profile, and the line that reports each.

ghost use Rattle.std.specs.Prelude.{◌≡◌};
ghost use Rattle.serde_json.specs.Errors.{IsMemory};
ghost use Rattle.s66_command.specs.declared.profile_error.ProfileError.TheVariants.{BadProfile, OutOfMemory};

use std::alloc::AllocError;
use std::{error, fmt};

/// Why a text gave no profile. It is displayed as the line that reports it.
///
/// `OutOfMemory` is for a growth that was refused, and may be returned in place of any other answer.
#[derive(Clone, Copy, Debug, Drop, PartialEq, Eq)]
pub enum ProfileError {
    /// It is neither a JSON object whose keys all name numbers of a profile, each with a whole number 1 to `PROFILE_LIMIT`, nor a list
    /// that stands for one.
    BadProfile,
    OutOfMemory,
}

impl From<AllocError> for ProfileError {
    ghost from_gives = { λ _ fault. fault ≡ OutOfMemory };

    fn from(_e: AllocError) -> ProfileError {
        ProfileError::OutOfMemory
    }
}

impl From<serde_json::Error> for ProfileError {
    ghost from_gives = { λ e fault. (IsMemory e → fault ≡ OutOfMemory) × ((¬ IsMemory e) → fault ≡ BadProfile) };

    fn from(e: serde_json::Error) -> ProfileError {
        if e.is_memory() {
            ProfileError::OutOfMemory
        } else {
            ProfileError::BadProfile
        }
    }
}

impl ProfileError {
    ghost use Rattle.std.specs.Prelude.{◌≡◌};
    ghost use Rattle.s66_command.specs.{profile_refusal_line};

    /// The line that reports it, without a newline.
    pub fn line(&self) -> &'static str
        ensures { result.now ≡ profile_refusal_line self.now }
    {
        match self {
            ProfileError::BadProfile => "BAD PROFILE",
            ProfileError::OutOfMemory => "OUT OF MEMORY",
        }
    }
}

impl fmt::Display for ProfileError {
    ghost use Rattle.std.specs.Prelude.{Some};
    ghost use Rattle.s66_command.specs.ProfileRefusals.{profile_refusal_line};

    ghost output = { λ e. Some (profile_refusal_line e) };

    fn fmt<W: fmt::Write>(&self, f: &mut fmt::Formatter<W>) -> fmt::Result {
        f.write_str(self.line())
    }
}

impl error::Error for ProfileError {}
