//! The best time as an expansion reads it, which another worker may lower meanwhile (`Least`).

ghost use Rattle.std.specs.Prelude.{ℕ, ◌≡◌, ◌≤◌};

/// A best time that may fall while a tree is made, in minor cycles: a number that is kept, and never rises.
pub trait Least {
    // what is kept
    ghost kept: { Self → ℕ };

    // what it never falls below
    ghost lowest: { Self → ℕ } = { λ _. 0 };

    /// Returns what is kept afterwards, which isn't above what was kept before.
    fn least(&mut self) -> u32
        ensures now { result ≡ kept self.new }
        ensures falls { kept self.new ≤ kept self.old }
        ensures lowest { (lowest self.new ≡ lowest self.old) × (lowest self.new ≤ kept self.new) };
}

/// A best time that doesn't change.
#[derive(Clone, Copy, Drop, PartialEq, Eq)]
pub struct Constant(pub u32);

impl Least for Constant {
    ghost kept = { λ c. c.0 };

    ghost lowest = { λ c. c.0 };

    fn least(&mut self) -> u32 {
        self.0
    }
}
