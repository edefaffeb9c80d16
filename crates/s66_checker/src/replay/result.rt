//! A result of a placed instruction, and when its unit is free after its results.

ghost use Rattle.std.specs.Prelude.{◌≡◌, ◌+◌, ◌<◌, ◌^◌, if◌then◌else◌};
ghost use Rattle.s66_isa.specs.{greatest};
ghost use Rattle.s66_model.specs.{ResultAt, free_after};

use s66_isa::Reg;
use std::marker::Model;

/// A result: its register, the minor cycle in which it is done, and whether the unit holds it.
#[derive(Clone, Copy, Default, Drop)]
pub(crate) struct KeptResult {
    pub(crate) reg: Reg,
    pub(crate) time: u32,
    pub(crate) held: bool,
}

impl Model for KeptResult {
    ghost Value = { ResultAt };

    ghost view = { λ d. record { reg = d.reg; time = d.time; held = d.held } };

    ghost inverse = { λ d. record { reg = d.reg; time = d.time; held = d.held } };
}

impl KeptResult {
    /// When it is done; 0 if the unit doesn't hold it.
    fn held_time(&self) -> u32
        ensures { result ≡ if self.now.held then self.now.time else 0 }
    {
        if self.held { self.time } else { 0 }
    }
}

/// When the last of these results is done; 0 if there is none.
pub(crate) fn last_time(results: &[KeptResult]) -> u32
    ensures { result ≡ greatest (λ (d : ResultAt). d.time) results.now }
{
    let mut last = 0u32;
    for done in results {
        last = last.max(done.time);
    }
    last
}

/// When the last of these results that the unit holds is done; 0 if there is none.
fn last_held_time(results: &[KeptResult]) -> u32
    ensures { result ≡ greatest (λ (d : ResultAt). if d.held then d.time else 0) results.now }
{
    let mut last = 0u32;
    for done in results {
        last = last.max(done.held_time());
    }
    last
}

/// When the unit of an instruction is free: one minor cycle after the last result that it holds, or after its hold if nothing is
/// written.
pub(crate) fn free_after(start: u32, hold: u32, results: &[KeptResult]) -> u32
    requires start { start + hold + 1 < 2 ^ 32 }
    requires results { greatest (λ (d : ResultAt). d.time) results.now + 1 < 2 ^ 32 }
    ensures { result ≡ free_after start hold results.now }
{
    if results.is_empty() {
        start + hold + 1
    } else {
        last_held_time(results) + 1
    }
}
