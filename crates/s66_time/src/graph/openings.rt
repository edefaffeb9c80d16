//! Direct dependences (`Openings`): a transitive reduction of the dependence graph, by which what is ready after one more instruction
//! follows from what was ready before.

ghost use Rattle.std.specs.Prelude.{ℕ, ◌≡◌, ◌≤◌, ◌-◌, List, [], true, length, get_or, filter};
ghost use Rattle.s66_isa.specs.{has, rising, numbers_in, no_set};
ghost use Rattle.s66_time.specs.{needs_of, is_direct};

use crate::graph::dependence::Dependences;
use arrayvec::ArrayVec;
use s66_isa::{BLOCK_LIMIT, Set};
use s66_line::Block;
use std::marker::Model;

/// What the instructions of a block open: on which each of them depends, and which depend on it directly.
///
/// One depends on another directly if it depends on it, and nothing else on which it depends does. When the other is placed, only
/// such can become ready by it: any other that depends on it still waits for what is between them.
#[derive(Drop)]
pub struct Openings {
    dependences: Dependences,
    /// For each number those that depend on it directly.
    opened: ArrayVec<Set, BLOCK_LIMIT>,
}

impl Model for Openings {
    ghost use Rattle.std.specs.Prelude.{ℕ, List};
    ghost use Rattle.s66_time.specs.Opens.{AreOpened};

    ghost Value = { List (List ℕ) };

    ghost view = { λ o. o.dependences };

    ghost invariant = { λ o. AreOpened o.opened.items o.dependences };
}

/// The numbers on which n depends directly: a look for each on which it depends.
fn direct_needs(dependences: &Dependences, n: u8) -> Set
    requires number { (1 ≤ n) × (n ≤ length dependences.now) }
    requires needs { (k : ℕ) → has k (needs_of dependences.now n) ≡ true → (1 ≤ k) × (k ≤ length dependences.now) }
    ensures { (m : ℕ) → has m (numbers_in result) ≡ is_direct dependences.now m n }
{
    let mut direct = dependences.needs(n);
    let mut rest = direct;
    while let Some(k) = rest.pop_first() {
        direct = direct.without(&dependences.needs(k));
    }
    direct
}

/// The numbers that depend on n directly. Of each number, `direct` has those on which it does.
fn opened_by(direct: &[Set], n: u8) -> Set
    requires { length direct.now ≤ BLOCK_LIMIT }
    ensures { numbers_in result ≡
        filter (λ m. has n (numbers_in (get_or direct.now (m - 1) no_set))) (rising (length direct.now) 1) }
{
    let mut opened = Set::empty();
    for position in 0..direct.len() {
        if direct[position].has(n) {
            opened = opened.with((position + 1) as u8);
        }
    }
    opened
}

impl Openings {
    ghost use Rattle.std.specs.Prelude.{ℕ, ◌≡◌, ◌≤◌, ◌++◌, ◌∷◌, [], List, true, length};
    ghost use Rattle.s66_isa.specs.{has, BLOCK_LIMIT, numbers_in};
    ghost use Rattle.s66_isa.specs.Table.{Instr};
    ghost use Rattle.s66_line.specs.{instrs_of};
    ghost use Rattle.s66_model.specs.{all_needs, is_ready, ready, IsBeginning};
    ghost use Rattle.s66_time.specs.{opens};

    /// Those of a block, in time quadratic in its length.
    pub fn of(block: &Block) -> Openings
        ensures { result ≡ all_needs (instrs_of block.now) }
    {
        let dependences = Dependences::of(block);
        let mut direct = ArrayVec::<Set, BLOCK_LIMIT>::new();
        for position in 0..block.count() {
            direct.push(direct_needs(&dependences, (position + 1) as u8));
        }
        let mut opened = ArrayVec::new();
        for position in 0..block.count() {
            opened.push(opened_by(direct.as_slice(), (position + 1) as u8));
        }
        Openings {
            dependences,
            opened,
        }
    }

    /// On which instructions each depends.
    #[inline]
    pub fn dependences(&self) -> &Dependences
        ensures { result.now ≡ self.now }
    {
        &self.dependences
    }

    /// The numbers that depend on n directly.
    #[inline]
    fn opened(&self, n: u8) -> Set
        requires { (1 ≤ n) × (n ≤ length self.now) }
        ensures opened { numbers_in result ≡ opens self.now n }
        ensures few { length self.now ≤ BLOCK_LIMIT }
    {
        self.opened[n as usize - 1]
    }

    /// What is ready after a beginning and n, from what was ready `before` n, which has n; `placed` are the numbers of the beginning
    /// and n. One look for each number that depends on n directly.
    #[inline]
    pub fn ready_after(&self, before: &Set, n: u8, placed: &Set) -> Set
        requires { (1 ≤ n) × (n ≤ length self.now) }
        ensures { (block : List Instr) (prefix : List ℕ) → self.now ≡ all_needs block → IsBeginning block prefix →
            is_ready block prefix n ≡ true → numbers_in before.now ≡ ready block prefix →
            ((m : ℕ) → has m (numbers_in placed.now) ≡ has m (prefix ++ n ∷ [])) →
            numbers_in result ≡ ready block (prefix ++ n ∷ []) }
    {
        let mut after = before.without(placed);
        let mut rest = self.opened(n);
        while let Some(m) = rest.pop_first() {
            if self.dependences.needs(m).is_within(placed) {
                after = after.with(m);
            }
        }
        after
    }

    /// What was ready after a beginning before n, which was ready then, from what is ready `after` n; in constant time.
    #[inline]
    pub fn ready_before(&self, after: &Set, n: u8) -> Set
        requires { (1 ≤ n) × (n ≤ length self.now) }
        ensures { (block : List Instr) (prefix : List ℕ) → self.now ≡ all_needs block → IsBeginning block prefix →
            is_ready block prefix n ≡ true → numbers_in after.now ≡ ready block (prefix ++ n ∷ []) →
            numbers_in result ≡ ready block prefix }
    {
        after.without(&self.opened(n)).with(n)
    }
}
