//! What an expansion asks for nodes that dominate a prefix (`Naming`): a table of marks, or several that workers share.

ghost use Rattle.std.specs.Prelude.{ℕ, List, ◌≡◌, ◌⊎◌, IfOk, IfSome, IsTrue, []};
ghost use Rattle.s66_isa.specs.{Among};
ghost use Rattle.s66_model.specs.{WrittenEarlier, Problem, IsIncomplete, DominatesByRule};

use crate::name::Name;
use crate::node::State;
use crate::walk::Walk;
use s66_model::Rule;
use std::alloc::{AllocError, Global};
use std::boxed::Box;

/// What knows nodes that dominate others, while a tree is made.
pub trait Naming {
    // it may be asked about prefixes of this problem
    ghost suits: { Self → Problem → Type 0 };

    // the numbers of the nodes that it knows
    ghost names: { Self → List (List ℕ) };

    /// A node that dominates the walk's prefix, as the rule asks, if one is known. By the rule of earlier nodes it has these
    /// numbers.
    ///
    /// If none is known, the prefix may be known from then on: its node has this place, and is split or stays open. By the rule of
    /// earlier nodes one that stays open isn't.
    fn find_or_keep(
        &mut self,
        alloc: Global,
        walk: &Walk<'_>,
        rule: Rule,
        line: usize,
        is_split: bool,
    ) -> Result<Option<Box<Name>>, AllocError>
        requires suits { suits self.old walk.now.problem }
        ensures suits { suits self.new walk.now.problem }
        ensures dominates { IfOk result (λ found. IfSome found
            (λ name. IsIncomplete walk.now.problem.block walk.now.numbers →
            DominatesByRule rule walk.now.problem name.value.numbers.items walk.now.numbers)) }
        ensures known { rule ≡ WrittenEarlier →
            IfOk result (λ found. IfSome found (λ name. Among name.value.numbers.items (names self.old))) }
        ensures kept { (name : List ℕ) → Among name (names self.new) →
            (name ≡ walk.now.numbers) ⊎ Among name (names self.old) }
        ensures found { rule ≡ WrittenEarlier →
            IfOk result (λ found. IfSome found (λ name. names self.new ≡ names self.old)) }
        ensures open { rule ≡ WrittenEarlier → ¬ IsTrue is_split → names self.new ≡ names self.old };

    /// May know the walk's prefix from now on, which is the root of a tree: its node has this state.
    fn keep_root(&mut self, walk: &Walk<'_>, rule: Rule, state: State)
        requires suits { suits self.old walk.now.problem }
        ensures suits { suits self.new walk.now.problem }
        ensures kept { (name : List ℕ) → Among name (names self.new) →
            (name ≡ walk.now.numbers) ⊎ Among name (names self.old) };
}

/// No node is known.
#[derive(Drop)]
pub(crate) struct NoNames;

impl Naming for NoNames {
    ghost suits = { λ _ _. Unit {0} };

    ghost names = { λ _. [] };

    fn find_or_keep(
        &mut self,
        _alloc: Global,
        _walk: &Walk<'_>,
        _rule: Rule,
        _line: usize,
        _is_split: bool,
    ) -> Result<Option<Box<Name>>, AllocError> {
        Ok(None)
    }

    fn keep_root(&mut self, _walk: &Walk<'_>, _rule: Rule, _state: State) {}
}
