//! What is known of a block while steps are taken one after the other, with what is supposed.

ghost use Rattle.std.specs.Prelude.{◌≡◌, ◌≤◌, ◌<◌, ◌+◌, ◌&&◌, not, IsTrue, is_some, length};
ghost use Rattle.s66_isa.specs.{BLOCK_LIMIT};
ghost use Rattle.s66_facts.specs.{FACT_LIMIT};

use crate::facts::Facts;
use s66_isa::{Instr, Profile};
use s66_moments::{FactLine, FactStep};
use std::marker::Model;

/// A supposition that is open: it is to show that the first number stands before the second, by what was known when it began.
#[derive(Drop)]
struct OpenSupposition {
    first: u8,
    second: u8,
    outer: Facts,
}

/// What is known of a block, with what is supposed. After a step that may not be taken only the block and its profile are sure.
#[derive(Drop)]
pub struct Supposing {
    facts: Facts,
    supposed: Option<OpenSupposition>,
    /// How many fact lines were tried. No more loads are known.
    steps: u32,
}

impl Model for Supposing {
    ghost use Rattle.std.specs.Prelude.{◌≤◌, length};
    ghost use Rattle.s66_facts.specs.Supposing.{Grounds, MayBeOpen};

    ghost Value = { Grounds };

    ghost view = { λ s. record { ground = s.facts; supposed = s.supposed; steps = s.steps } };

    ghost invariant = { λ s. MayBeOpen s.facts.problem s.steps s.supposed × (length s.facts.loads ≤ s.steps) };
}

impl Supposing {
    ghost use Rattle.s66_moments.specs.{is_taken, premises_first, with_step, may_be_supposed, is_late, is_step_taken};
    ghost use Rattle.s66_moments.specs.declared.fact_line.FactStep.TheVariants.{Fact, Suppose, Refuted};
    ghost use Rattle.s66_facts.specs.{known_of, premises_in};

    /// What is known of a block under a profile before the first step.
    pub fn new(block: &[Instr], profile: &Profile) -> Supposing
        requires { length block.now ≤ BLOCK_LIMIT }
        ensures problem { result.ground.problem ≡ record { block = block.now; profile = profile.now } }
        ensures premises { premises_in result ≡ premises_first result.ground.problem }
        ensures steps { result.steps ≡ 0 }
    {
        Supposing {
            facts: Facts::new(block, profile),
            supposed: None,
            steps: 0,
        }
    }

    /// Takes a fact line in if it is shown by what is known, and returns whether it is.
    fn take_line(&mut self, bound: u32, line: &FactLine) -> bool
        requires room { self.old.steps < FACT_LIMIT }
        ensures taken { result ≡ is_taken self.old.ground.problem bound (known_of self.old.ground) line.now }
        ensures problem { self.new.ground.problem ≡ self.old.ground.problem }
        ensures premises { IsTrue result → premises_in self.new ≡ with_step (premises_in self.old) (Fact line.now) }
        ensures steps { self.new.steps ≡ self.old.steps + 1 }
    {
        self.steps += 1;
        match line {
            FactLine::Pair(first, second) => self.facts.take_pair(bound, *first, *second),
            FactLine::Load(load) => self.facts.take_load(load),
        }
    }

    /// Whether two numbers are of the block, and neither is known to stand before the other.
    fn may_suppose(&self, first: u8, second: u8) -> bool
        ensures { result ≡ may_be_supposed self.now.ground.problem (known_of self.now.ground) first second }
    {
        let count = self.facts.count();
        first != second
            && (1 <= first && first <= count)
            && (1 <= second && second <= count)
            && !self.facts.is_before(first, second)
            && !self.facts.is_before(second, first)
    }

    /// Supposes that the second number stands before the first, if that may be supposed and nothing is, and returns whether it may.
    fn suppose(&mut self, first: u8, second: u8) -> bool
        requires room { self.old.steps < FACT_LIMIT }
        ensures taken { result ≡ (not (is_some self.old.supposed) &&
            may_be_supposed self.old.ground.problem (known_of self.old.ground) first second) }
        ensures problem { self.new.ground.problem ≡ self.old.ground.problem }
        ensures premises { IsTrue result → premises_in self.new ≡ with_step (premises_in self.old)
            (Suppose first second) }
        ensures steps { self.new.steps ≡ self.old.steps }
    {
        if self.supposed.is_some() || !self.may_suppose(first, second) {
            return false;
        }
        let outer = self.facts.duplicate();
        self.facts.add_pair(second, first);
        self.supposed = Some(OpenSupposition {
            first,
            second,
            outer,
        });
        true
    }

    /// Ends the supposition, if one is open and every order takes the bound with it, and returns whether it does.
    fn refute(&mut self, bound: u32) -> bool
        requires room { self.old.steps < FACT_LIMIT }
        ensures taken { result ≡
            (is_some self.old.supposed && is_late self.old.ground.problem bound (known_of self.old.ground)) }
        ensures problem { self.new.ground.problem ≡ self.old.ground.problem }
        ensures premises { IsTrue result → premises_in self.new ≡ with_step (premises_in self.old) Refuted }
        ensures steps { self.new.steps ≡ self.old.steps }
    {
        if !self.facts.is_late_for(bound) {
            return false;
        }
        let Some(supposition) = self.supposed.take() else {
            return false;
        };
        self.facts = supposition.outer;
        self.facts.add_pair(supposition.first, supposition.second);
        true
    }

    /// Takes a step if it may be taken, and returns whether it may. A fact line has to be shown by what is known and supposed.
    pub fn take(&mut self, bound: u32, step: &FactStep) -> bool
        requires room { self.old.steps < FACT_LIMIT }
        ensures taken { result ≡ is_step_taken self.old.ground.problem bound (premises_in self.old) step.now }
        ensures problem { self.new.ground.problem ≡ self.old.ground.problem }
        ensures premises { IsTrue result → premises_in self.new ≡ with_step (premises_in self.old) step.now }
        ensures steps { self.new.steps ≤ self.old.steps + 1 }
    {
        match step {
            FactStep::Fact(line) => self.take_line(bound, line),
            FactStep::Suppose(first, second) => self.suppose(*first, *second),
            FactStep::Refuted => self.refute(bound),
        }
    }

    /// What is known now, with what is supposed.
    pub fn facts(&self) -> &Facts
        ensures { result.now ≡ self.now.ground }
    {
        &self.facts
    }

    /// Whether a supposition is open.
    pub fn is_open(&self) -> bool
        ensures { result ≡ is_some self.now.supposed }
    {
        self.supposed.is_some()
    }

    /// What is known at the end.
    pub fn into_facts(self) -> Facts
        ensures { result ≡ self.ground }
    {
        self.facts
    }
}
