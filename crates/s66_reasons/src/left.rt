//! What a fact line leaves known after all: nothing within a supposition, and at its end the pair that it was to show.

ghost use Rattle.std.specs.Prelude.{◌≡◌, None, Some};
ghost use Rattle.s66_moments.specs.declared.fact_line.FactStep.TheVariants.{Fact};
ghost use Rattle.s66_reasons.specs.{keeps_apart, load_left, pair_left, is_some_passing, to_show_after, with_load};

use s66_facts::is_same_moment;
use s66_moments::{FactLine, FactStep, LoadLine, Moment};

/// The pair that is to be shown behind a line.
pub(crate) fn to_show_after(to_show: Option<(u8, u8)>, step: &FactStep) -> Option<(u8, u8)>
    ensures { result ≡ to_show_after to_show step.now }
{
    match step {
        FactStep::Fact(_) => to_show,
        FactStep::Suppose(first, second) => Some((*first, *second)),
        FactStep::Refuted => None,
    }
}

/// The pair of a fact line.
fn pair_of(line: &FactLine) -> Option<(u8, u8)>
    ensures { result ≡ pair_left None (Fact line.now) }
{
    match line {
        FactLine::Pair(first, second) => Some((*first, *second)),
        FactLine::Load(_) => None,
    }
}

/// The pair that a line leaves known.
pub(crate) fn pair_left(to_show: Option<(u8, u8)>, step: &FactStep) -> Option<(u8, u8)>
    ensures { result ≡ pair_left to_show step.now }
{
    match step {
        FactStep::Fact(line) => match to_show {
            None => pair_of(line),
            Some(_) => None,
        },
        FactStep::Suppose(..) => None,
        FactStep::Refuted => to_show,
    }
}

/// Whether a load keeps two moments so many minor cycles apart.
fn keeps_apart(load: &LoadLine, from: &Moment, to: &Moment, wait: u32) -> bool
    ensures { result ≡ keeps_apart from.now to.now wait load.now }
{
    is_same_moment(&load.from, from) && is_same_moment(&load.to, to) && wait <= load.wait
}

/// Whether the load that a line leaves known does, if it leaves one.
pub(crate) fn leaves_apart(
    to_show: Option<(u8, u8)>,
    step: &FactStep,
    from: &Moment,
    to: &Moment,
    wait: u32,
) -> bool
    ensures { result ≡ is_some_passing (keeps_apart from.now to.now wait) (load_left to_show step.now) }
{
    match step {
        FactStep::Fact(FactLine::Load(load)) => {
            to_show.is_none() && keeps_apart(load, from, to, wait)
        }
        FactStep::Fact(FactLine::Pair(..)) | FactStep::Suppose(..) | FactStep::Refuted => false,
    }
}

/// How many minor cycles a moment comes later at least than another with a load, where it is `wait` without that.
fn with_load(wait: Option<u32>, load: &LoadLine, from: &Moment, to: &Moment) -> Option<u32>
    ensures { result ≡ with_load from.now to.now (Some load.now) wait }
{
    if is_same_moment(from, &load.from) && is_same_moment(to, &load.to) {
        Some(load.wait.max(wait.unwrap_or(0)))
    } else {
        wait
    }
}

/// The same with the load that a line leaves known, if it leaves one.
pub(crate) fn with_left(
    wait: Option<u32>,
    to_show: Option<(u8, u8)>,
    step: &FactStep,
    from: &Moment,
    to: &Moment,
) -> Option<u32>
    ensures { result ≡ with_load from.now to.now (load_left to_show step.now) wait }
{
    match step {
        FactStep::Fact(FactLine::Load(load)) => match to_show {
            None => with_load(wait, load, from, to),
            Some(_) => wait,
        },
        FactStep::Fact(FactLine::Pair(..)) | FactStep::Suppose(..) | FactStep::Refuted => wait,
    }
}
