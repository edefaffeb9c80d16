//! What is found of a block (`look_at`): the best order met, and the fact lines and the tree that are to show a bound; if a certificate
//! may have these. It calls the finder, beams and searches in turn.

ghost use Rattle.std.specs.Prelude.{◌≡◌, ◌≤◌, ◌+◌, ◌/◌, IfOk, IfSome};
ghost use Rattle.s66_model.specs.{source_time, Problem};
ghost use Rattle.s66_line.specs.{instrs_of};
ghost use Rattle.s66_deep.specs.{IsGood, IsLooked};

use crate::facts::Finder;
use crate::instance::Instance;
use crate::lines::best_by_beams;
use crate::orders::{faster, source_order};
use crate::search::{Attempt, Searched, Written, search, show};
use s66_cert::Evidence;
use s66_isa::Profile;
use s66_line::Block;
use s66_time::Timed;
use std::alloc::{AllocError, Global};

/// What is found of a block before its orders are searched.
#[derive(Drop)]
pub struct Looked {
    /// The best order that was found.
    pub best: Timed,
    /// What the source order takes, in minor cycles.
    pub source: u32,
    /// What is to show a bound, which is at most what the best order takes.
    pub evidence: Evidence,
}

/// What a look at a block came to.
#[derive(Drop)]
pub struct Look {
    /// What is found, if a certificate may have it.
    pub found: Option<Looked>,
    /// How many splits were made for it.
    pub splits: u32,
}

/// What is found, if a certificate may have it, with a tree of at most so many splits, all of which were made.
fn fitting(best: Timed, source: u32, written: Written, most: u32, made: u32) -> Option<Looked>
    ensures { (b : Problem) → IsGood b best → source ≡ source_time b → IfSome result (IsLooked b most made) }
{
    let Written { bound, lines, tree } = written;
    if best.total() < bound {
        return None;
    }
    let evidence = Evidence::new(bound, lines, tree, most.min(made))?;
    Some(Looked {
        best,
        source,
        evidence,
    })
}

/// What is found of a block under a profile beyond an order of it that was found before: the best of this, the source order, and what
/// beams and searches find that know facts; and fact lines and a tree of at most so many splits, by which a certificate can show a
/// bound, as great as may be. For that at most half as many more are made, and the tree has no more than were made. Whether the lines show
/// the bound is for a checker to say.
///
/// If the lines are to be printed, those are left out that the bound doesn't need if a single leaf shows it; which these are takes time
/// to find out.
///
/// `Err` is out of memory.
pub fn look_at(
    alloc: Global,
    block: &Block,
    profile: &Profile,
    first: &Timed,
    most: u32,
    is_printed: bool,
) -> Result<Look, AllocError>
    requires { first.now.problem ≡ record { block = instrs_of block.now; profile = profile.now } }
    ensures found { IfOk result (λ look. IfSome look.found
        (IsLooked (record { block = instrs_of block.now; profile = profile.now }) most look.splits)) }
    ensures splits { IfOk result (λ look. look.splits ≤ most + most / 2) }
{
    let written = source_order(block, profile);
    let source = written.total();
    let best = faster(written, Some(first.duplicate()));
    let mut finder = Finder::new(alloc, block, profile)?;
    finder.find_loads()?;
    let instance = Instance {
        alloc,
        block,
        profile,
    };
    let best = best_by_beams(&instance, &finder, best)?;
    let Searched {
        best,
        shown,
        splits,
    } = search(&instance, &finder, best, most)?;
    let written = shown.written(alloc, is_printed)?;
    Ok(Look {
        found: fitting(best, source, written, most, splits),
        splits,
    })
}

/// Fact lines and a tree of at most so many splits, by which a certificate can show that no order of a block takes less than this one,
/// which is known to be best. No other order is sought, so this takes far less time than a look. Whether the lines show it is for a
/// checker to say.
///
/// `Err` is out of memory.
pub fn show_best(
    alloc: Global,
    block: &Block,
    profile: &Profile,
    best: &Timed,
    most: u32,
) -> Result<Look, AllocError>
    requires { best.now.problem ≡ record { block = instrs_of block.now; profile = profile.now } }
    ensures found { IfOk result (λ look. IfSome look.found
        (IsLooked (record { block = instrs_of block.now; profile = profile.now }) most look.splits)) }
    ensures splits { IfOk result (λ look. look.splits ≤ most) }
{
    let written = source_order(block, profile);
    let source = written.total();
    let first = faster(written, Some(best.duplicate()));
    let instance = Instance {
        alloc,
        block,
        profile,
    };
    let finder = Finder::new(alloc, block, profile)?;
    let Attempt {
        best,
        splits,
        shown,
    } = show(&instance, &finder, first, most)?;
    let found = match shown {
        Some(shown) => fitting(best, source, shown.written(alloc, true)?, most, splits),
        None => None,
    };
    Ok(Look { found, splits })
}
