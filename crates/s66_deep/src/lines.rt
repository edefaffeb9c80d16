//! A good order and a bound by fact lines alone.
//! By the lines for orders below a time a beam may find a faster order, or a longest path shows that there is none.
//!
//! The bound is found by supposing a time: if facts that all orders below it would share lead to a path as long as that, there are none
//! (R. Klein and A. Scholl, Computing lower bounds by destructive improvement, European Journal of Operational Research 112, 1999).
//! Between the bound and the best time the middle is tried, again and again.

ghost use Rattle.std.specs.Prelude.{◌≡◌, IfOk, IfSome};
ghost use Rattle.s66_deep.specs.{IsGood};

use crate::beam::beam_below;
use crate::facts::Finder;
use crate::instance::Instance;
use crate::limits::{BEAM_WIDTH, BEAMS_LIMIT, FIRST_WIDTHS, HALVES_LIMIT};
use crate::orders::faster;
use s66_time::Timed;
use std::alloc::AllocError;

/// The best order, and the fact lines for orders that take less.
#[derive(Drop)]
pub(crate) struct Lined {
    pub(crate) best: Timed,
    pub(crate) below: Finder,
}

/// A bound of all orders, in minor cycles, and a finder whose lines show it by one leaf.
#[derive(Drop)]
pub(crate) struct Bound {
    pub(crate) value: u32,
    pub(crate) finder: Finder,
}

/// The best order, fact lines for orders that take no more than it or less, and what such lines show.
#[derive(Drop)]
pub(crate) struct Halved {
    pub(crate) best: Timed,
    pub(crate) below: Finder,
    pub(crate) bound: Bound,
}

impl Lined {
    /// What its lines show of all orders, which is at most what the best one takes. `Err` is out of memory.
    pub(crate) fn bound(&self) -> Result<Bound, AllocError> {
        Ok(Bound {
            value: self.below.root().1.min(self.best.total()),
            finder: self.below.duplicate()?,
        })
    }
}

/// An order that a beam of this width finds by fact lines for orders below a limit, if there is one.
pub(crate) fn beam_by(
    instance: &Instance<'_>,
    finder: &Finder,
    width: usize,
    limit: u32,
) -> Result<Option<Timed>, AllocError>
    ensures { IfOk result (λ other. IfSome other (λ timed. timed.problem ≡ instance.now)) }
{
    let tails = finder.tails();
    beam_below(
        instance.alloc,
        instance.block,
        instance.profile,
        &tails,
        width,
        limit,
    )
}

/// The best order, or a better one that beams find by fact lines of all orders: first narrow ones, which find most of the best orders. They
/// end when an order takes no more than the lines show of all.
pub(crate) fn best_by_beams(
    instance: &Instance<'_>,
    finder: &Finder,
    best: Timed,
) -> Result<Timed, AllocError>
    requires { IsGood instance.now best }
    ensures { IfOk result (IsGood instance.now) }
{
    let (_, bound) = finder.root();
    let mut best = best;
    for width in FIRST_WIDTHS {
        if best.total() <= bound {
            break;
        }
        let other = beam_by(instance, finder, width, best.total())?;
        best = faster(best, other);
    }
    Ok(best)
}

/// All fact lines that are found for orders which take less than a bound, after those of another finder.
pub(crate) fn found_below(finder: &Finder, bound: u32) -> Result<Finder, AllocError> {
    let mut other = finder.duplicate()?;
    other.find_below(bound)?;
    Ok(other)
}

/// The best order, and the fact lines for orders that take less. As long as a beam of this width finds one by such lines, the next ones
/// are by its time.
pub(crate) fn best_by_lines(
    instance: &Instance<'_>,
    finder: &Finder,
    width: usize,
    best: Timed,
) -> Result<Lined, AllocError>
    requires { IsGood instance.now best }
    ensures { IfOk result (λ lined. IsGood instance.now lined.best) }
{
    let mut best = best;
    let mut below = found_below(finder, best.total())?;
    for _ in 0..BEAMS_LIMIT {
        if best.total() <= below.root().1 {
            break;
        }
        let other = beam_by(instance, &below, width, best.total())?;
        if other.is_none() {
            break;
        }
        best = faster(best, other);
        below = found_below(finder, best.total())?;
    }
    Ok(Lined { best, below })
}

/// The middle of a bound and what is above it, in minor cycles; the greater one of two.
fn middle_of(bound: u32, above: u32) -> u32 {
    bound.saturating_add(above.saturating_sub(bound).saturating_add(1) / 2)
}

/// A bound that fact lines are found to show, and a good order: between the bound and the order's time, one of the two is brought nearer
/// by halves. Lines for orders below the middle show it, or guide a beam to such an order, or else less is tried.
pub(crate) fn halve(instance: &Instance<'_>, lined: Lined) -> Result<Halved, AllocError>
    requires { IsGood instance.now lined.best }
    ensures { IfOk result (λ halved. IsGood instance.now halved.best) }
{
    let mut bound = lined.bound()?;
    let Lined { mut best, below } = lined;
    let mut above = best.total();
    for _ in 0..HALVES_LIMIT {
        let middle = middle_of(bound.value, above);
        if middle <= bound.value {
            break;
        }
        let next = found_below(&below, middle)?;
        if middle <= next.root().1 {
            bound = Bound {
                value: middle,
                finder: next,
            };
        } else {
            let other = beam_by(instance, &next, BEAM_WIDTH, middle)?;
            best = faster(best, other);
            above = best.total().min(middle.saturating_sub(1));
        }
    }
    Ok(Halved { best, below, bound })
}
