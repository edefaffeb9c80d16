//! The stack of what the pushes of a clock wrote over.

ghost use Rattle.std.specs.Prelude.{◌≡◌, ◌<◌, ◌≤◌, length, take};
ghost use Rattle.s66_isa.specs.{BLOCK_LIMIT};

use crate::step::Step;
use crate::words::Words;
use arrayvec::ArrayVec;
use s66_isa::{BLOCK_LIMIT, Profile, Row};
use std::marker::Model;

/// What the pushes of a clock wrote over, the oldest first. A step that is taken back stays in its place until another is written
/// over it, so that nothing has to be blanked.
#[derive(Drop)]
pub(crate) struct Steps {
    places: ArrayVec<Step, BLOCK_LIMIT>,
    /// How many of the places are of steps that aren't taken back.
    count: usize,
    ghost within: { count ≤ length places.items },
}

impl Model for Steps {
    ghost use Rattle.std.specs.Prelude.{List, take};
    ghost use Rattle.s66_time.specs.declared.step.Step.{Step};

    ghost Value = { List Step };

    ghost view = { λ s. take s.count s.places.items };
}

impl Steps {
    ghost use Rattle.std.specs.Prelude.{◌≡◌, ◌-◌, ◌<◌, ◌≤◌, ◌++◌, [], ◌∷◌, List, length, take, get_or};
    ghost use Rattle.s66_isa.specs.{copies_of};
    ghost use Rattle.s66_model.specs.{Point, point};
    ghost use Rattle.s66_time.specs.{COPIES_LIMIT, Step as StepOf, under, IsWords, InTurn, AreWordsInTurn, after_undo};

    /// No step.
    pub(crate) fn new() -> Steps
        ensures { result ≡ [] }
    {
        Steps {
            places: ArrayVec::new(),
            count: 0,
        }
    }

    /// Places the next instruction on the words, and writes after the last step what was written over; `copies` units are of its
    /// kind.
    #[inline(always)]
    pub(crate) fn push(
        &mut self,
        words: &mut Words,
        profile: &Profile,
        copies: u32,
        number: u8,
        row: &Row,
    )
        requires room { length self.old < BLOCK_LIMIT }
        requires copies { copies ≡ copies_of profile.now row.now.kind }
        requires some { (1 ≤ copies) × (copies ≤ COPIES_LIMIT) }
        requires number { (1 ≤ number) × (number ≤ BLOCK_LIMIT) }
        requires follows { AreWordsInTurn profile.now words.old }
        ensures step { (step : StepOf) × (self.new ≡ self.old ++ step ∷ []) × (step.number ≡ number) ×
            (after_undo words.new step ≡ words.old) }
        ensures words { (s : List Point) → IsWords profile.now s words.old → InTurn s →
            IsWords profile.now (point (under profile.now) s number row.now ∷ s) words.new }
    {
        make_room(&mut self.places, self.count);
        words.push(profile, copies, number, row, &mut self.places[self.count]);
        self.count += 1;
    }

    /// The last step.
    pub(crate) fn last(&self) -> &Step
        requires { 0 < length self.now }
        ensures { result.now ≡ get_or self.now (length self.now - 1) result.now }
    {
        &self.places[self.count - 1]
    }

    /// Takes the last step back, in constant time.
    pub(crate) fn remove_last(&mut self)
        requires { 0 < length self.old }
        ensures { self.new ≡ take (length self.old - 1) self.old }
    {
        self.count -= 1;
    }
}

/// Makes room for a step after the first `count`.
fn make_room(places: &mut ArrayVec<Step, BLOCK_LIMIT>, count: usize)
    requires { (count ≤ length places.old.items) × (count < BLOCK_LIMIT) }
    ensures room { count < length places.new.items }
    ensures kept { take count places.new.items ≡ take count places.old.items }
{
    if count == places.len() {
        places.push(Step::default());
    }
}
