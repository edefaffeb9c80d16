//! By which load line the end comes so late as the bound, of the fact lines before another.

ghost use Rattle.std.specs.Prelude.{◌≡◌};
ghost use Rattle.s66_moments.specs.{reaches};
ghost use Rattle.s66_reasons.specs.{end_line, stays_known, wait_to_end};

use s66_facts::is_same_moment;
use s66_moments::{FactLine, FactStep, Moment};

/// How much later the end comes than the beginning by a load line.
fn wait_to_end(step: &FactStep) -> Option<u32>
    ensures { result ≡ wait_to_end step.now }
{
    match step {
        FactStep::Fact(FactLine::Load(load)) => {
            if is_same_moment(&load.from, &Moment::Origin)
                && is_same_moment(&load.to, &Moment::End)
            {
                Some(load.wait)
            } else {
                None
            }
        }
        FactStep::Fact(FactLine::Pair(..)) | FactStep::Suppose(..) | FactStep::Refuted => None,
    }
}

/// Whether what is known before these lines is so behind them.
fn stays_known(steps: &[FactStep]) -> bool
    ensures { result ≡ stays_known steps.now }
{
    for step in steps {
        match step {
            FactStep::Fact(_) => {}
            FactStep::Suppose(..) => return true,
            FactStep::Refuted => return false,
        }
    }
    true
}

/// Whether a wait is there, and the bound or longer.
fn reaches(bound: u32, wait: Option<u32>) -> bool
    ensures { result ≡ reaches bound wait }
{
    match wait {
        None => false,
        Some(wait) => bound <= wait,
    }
}

/// The number of the first of these lines by which the end comes as late as the bound, and which is still known behind them, and its
/// wait. It takes time linear in the lines, and for each that says so in those up to where the next supposition begins or ends.
pub(crate) fn end_line(bound: u32, steps: &[FactStep]) -> Option<(usize, u32)>
    ensures { result ≡ end_line bound 1 steps.now }
{
    let mut number = 0;
    for step in steps {
        number += 1;
        let wait = wait_to_end(step);
        if reaches(bound, wait) && stays_known(&steps[number..]) {
            return Some((number, wait.unwrap_or(0)));
        }
    }
    None
}
