//! How a command ended that wrote all its text (`Status`), and its text with that (`Output`).

ghost use Rattle.std.specs.Prelude.{◌≡◌};
ghost use Rattle.s66_answer.specs.{status_by};

/// How a command that wrote all its text ended.
#[derive(Clone, Copy, Debug, PartialEq, Eq)]
pub enum Status {
    Done,
    /// What the input claims was found wrong.
    Denied,
    /// This many of all blocks are only bounded: what they were given to search was spent before the end.
    Bounded { blocks: usize, of: usize },
    /// Something may be wrong with the input, and nothing is refused.
    Listed,
}

/// What a command writes, and how it ends.
#[derive(Drop)]
pub struct Output {
    pub text: Vec<u8>,
    pub status: Status,
}

impl Status {
    ghost use Rattle.std.specs.Prelude.{◌≡◌};
    ghost use Rattle.s66_answer.specs.{status_code};

    /// The status of the process.
    pub fn code(&self) -> u8
        ensures { result ≡ status_code self.now }
    {
        match self {
            Status::Done => 0,
            Status::Denied => 5,
            Status::Bounded { .. } => 7,
            Status::Listed => 8,
        }
    }
}

/// Done if no order is only bounded; else how many are, and of how many.
pub(crate) fn status_by(bounded: usize, of: usize) -> Status
    ensures { result ≡ status_by bounded of }
{
    if bounded == 0 {
        Status::Done
    } else {
        Status::Bounded {
            blocks: bounded,
            of,
        }
    }
}
