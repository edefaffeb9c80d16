//! A value that a lock may guard: the rule of the lock reads a summary of it alone.

use std::boxed::Box;

/// A value with a summary, which is all that the rule of a lock reads of it.
pub trait Summed {
    ghost use Rattle.s66_model.specs.Accounts.{Summary};

    ghost summary: { Self → Summary };
}

impl<T: Summed> Summed for Box<T> {
    ghost summary = { λ b. T.summary b.value };
}
