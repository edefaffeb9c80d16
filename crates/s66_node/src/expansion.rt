//! The expansion of a prefix (`Walk::expand`): from a prefix to a piece over it, with or without dominated leaves. The loop itself is
//! in `grow.rt`.

ghost use Rattle.std.specs.Prelude.{◌≡◌, ℕ, List, IfOk, option_map};
ghost use Rattle.s66_model.specs.{Problem, Tree, Terminal, whole_orders};
ghost use Rattle.s66_line.specs.{instrs_of};
ghost use Rattle.s66_node.specs.{IsBestTimed, IsLeast};

use crate::grow::{Grown, grow};
use crate::least::Least;
use crate::mark_table::MarkTable;
use crate::naming::{Naming, NoNames};
use crate::piece::{Origin, Piece};
use crate::walk::Walk;
use crate::whole_order::{WholeOrder, copy_of};
use s66_isa::Profile;
use s66_line::Block;
use s66_model::Rule;
use s66_time::{Order, Timed, time_of};
use std::alloc::{AllocError, Global};
use std::boxed::Box;

/// The least order with its times.
fn timed_of(
    alloc: Global,
    block: &Block,
    profile: &Profile,
    least: Option<WholeOrder>,
) -> Result<Option<Box<Timed>>, AllocError>
    ensures { let b : Problem = record { block = instrs_of block.now; profile = profile.now } in
        (prefix : List ℕ) (tree : Tree Terminal) → IsLeast b (whole_orders prefix tree) least →
        IfOk result (λ timed. IsBestTimed b prefix tree (option_map (λ t. t.value) timed)) }
{
    let Some(least) = least else {
        return Ok(None);
    };
    match Order::new(block, least.numbers.as_slice()) {
        Ok(order) => Ok(Some(Box::new(alloc, time_of(block, profile, &order))?)),
        Err(_) => Ok(None),
    }
}

impl Walk<'_> {
    ghost use Rattle.std.specs.Prelude.{◌≡◌, ◌≤◌, [], IfOk};
    ghost use Rattle.s66_model.specs.{NoneNamed, WrittenEarlier, IsBeginning};
    ghost use Rattle.s66_node.specs.{IsExpandedPiece};

    /// Goes to a prefix and expands it by branch and bound: a tree over it with at most `allowance` splits, made depth first by rising
    /// number. The best time may fall meanwhile: it is read at the prefix, and before each split below it. Times are in minor cycles.
    ///
    /// A prefix whose floor is at least the first best time isn't split, and carries its floor as leaf, as a whole order does. One
    /// that isn't split and whose floor is below the last best time is in the frontier, if it isn't complete. With a floor in between
    /// it may be either. The frontier is empty if there are fewer splits than `allowance`. With the tree comes a least one of its
    /// whole orders, timed.
    ///
    /// Each split costs a push, a floor and an undo for each of its children, and a look for each instruction that depends directly
    /// on the last one of its prefix. It takes no lock and waits for nobody. `Err` is out of memory: the walk is then at some prefix of
    /// the same block, and the best time may have fallen.
    pub fn expand<L: Least>(
        &mut self,
        alloc: Global,
        prefix: &[u8],
        incumbent: &mut L,
        allowance: u32,
    ) -> Result<Piece, AllocError>
        requires { IsBeginning self.old.problem.block prefix.now }
        ensures same { self.new.problem ≡ self.old.problem }
        ensures falls { L.kept incumbent.new ≤ L.kept incumbent.old }
        ensures lowest { (L.lowest incumbent.new ≡ L.lowest incumbent.old) ×
            (L.lowest incumbent.old ≤ L.kept incumbent.new) }
        ensures piece { IfOk result (IsExpandedPiece NoneNamed self.old.problem (L.kept incumbent.old)
            (L.kept incumbent.new) allowance prefix.now) }
    {
        let rule = Rule::NoneNamed;
        self.expand_named(alloc, prefix, incumbent, allowance, rule, &mut NoNames)
    }

    /// Goes to a prefix and expands it as `expand` does, but a prefix below it that a known node dominates isn't split.
    /// It is a dominated leaf, if it is incomplete and its floor is below the last best time.
    ///
    /// If the rule names earlier nodes alone, all marks are forgotten first, and then those of the prefixes that are split here
    /// are kept. If it names others too, only those of lines that weren't settled are forgotten first; then those of the prefixes
    /// that are split or stay open are kept, beside the marks that were there. On `Err` some may have been kept. By `NoneNamed`
    /// no prefix is dominated, and `expand` is cheaper.
    pub fn expand_dominated<L: Least>(
        &mut self,
        alloc: Global,
        prefix: &[u8],
        incumbent: &mut L,
        allowance: u32,
        marks: &mut MarkTable<'_>,
        rule: Rule,
    ) -> Result<Piece, AllocError>
        requires prefix { IsBeginning self.old.problem.block prefix.now }
        requires marks { marks.old.problem ≡ self.old.problem }
        ensures marks { marks.new.problem ≡ marks.old.problem }
        ensures same { self.new.problem ≡ self.old.problem }
        ensures falls { L.kept incumbent.new ≤ L.kept incumbent.old }
        ensures lowest { (L.lowest incumbent.new ≡ L.lowest incumbent.old) ×
            (L.lowest incumbent.old ≤ L.kept incumbent.new) }
        ensures piece { IfOk result (IsExpandedPiece rule self.old.problem (L.kept incumbent.old)
            (L.kept incumbent.new) allowance prefix.now) }
    {
        match rule {
            Rule::WrittenEarlier => marks.clear(),
            Rule::ClampedStanding | Rule::NoneNamed => marks.forget_lines(),
        }
        self.expand_named(alloc, prefix, incumbent, allowance, rule, marks)
    }

    /// Goes to a prefix and expands it as `expand_dominated` does, by the nodes that `names` knows instead of those of a table.
    /// By the rule of earlier nodes it knows none at first. On `Err` the walk is at some prefix of the same block, the best time
    /// may have fallen, and `names` may know other nodes.
    pub fn expand_named<L: Least, N: Naming>(
        &mut self,
        alloc: Global,
        prefix: &[u8],
        incumbent: &mut L,
        allowance: u32,
        rule: Rule,
        names: &mut N,
    ) -> Result<Piece, AllocError>
        requires prefix { IsBeginning self.old.problem.block prefix.now }
        requires suits { N.suits names.old self.old.problem }
        requires unknown { rule ≡ WrittenEarlier → N.names names.old ≡ [] }
        ensures suits { N.suits names.new self.old.problem }
        ensures same { self.new.problem ≡ self.old.problem }
        ensures falls { L.kept incumbent.new ≤ L.kept incumbent.old }
        ensures lowest { (L.lowest incumbent.new ≡ L.lowest incumbent.old) ×
            (L.lowest incumbent.old ≤ L.kept incumbent.new) }
        ensures piece { IfOk result (IsExpandedPiece rule self.old.problem (L.kept incumbent.old)
            (L.kept incumbent.new) allowance prefix.now) }
    {
        self.go_to(prefix);
        let mut grown = Grown::empty(alloc);
        grow(&mut grown, alloc, self, incumbent, allowance, rule, names)?;
        let Grown {
            nodes,
            dominances,
            splits,
            least,
        } = grown;
        let block = self.clock.block();
        let profile = self.clock.profile();
        let origin = Origin {
            source: Order::source(block),
            profile: *profile,
            prefix: copy_of(prefix),
        };
        Ok(Piece {
            rule,
            origin: Box::new(alloc, origin)?,
            nodes,
            dominances,
            splits,
            timed: timed_of(alloc, block, profile, least)?,
        })
    }
}
