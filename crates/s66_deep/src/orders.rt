//! A good order of a block.
//! Here are the source order, and the faster of two.

ghost use Rattle.std.specs.Prelude.{◌≡◌, ◌<◌, IfSome};
ghost use Rattle.s66_isa.specs.{numbers};
ghost use Rattle.s66_model.specs.{Problem, total_of};
ghost use Rattle.s66_line.specs.{instrs_of};
ghost use Rattle.s66_deep.specs.{IsGood};

use s66_isa::Profile;
use s66_line::Block;
use s66_time::{Order, Timed, time_of};

/// The source order.
pub(crate) fn source_order(block: &Block, profile: &Profile) -> Timed
    ensures good { IsGood (record { block = instrs_of block.now; profile = profile.now }) result }
    ensures source { result.numbers ≡ numbers (instrs_of block.now) }
{
    time_of(block, profile, &Order::source(block))
}

/// The other order, if there is one and it takes less.
pub fn faster(best: Timed, other: Option<Timed>) -> Timed
    ensures { (b : Problem) → IsGood b best → IfSome other (λ t. t.problem ≡ b) → IsGood b result }
{
    match other {
        Some(timed) if timed.total() < best.total() => timed,
        _ => best,
    }
}

/// The order of these numbers with its times, if it is legal and its total is below the best, in minor cycles.
pub(crate) fn timed_below(
    block: &Block,
    profile: &Profile,
    numbers: &[u8],
    best: u32,
) -> Option<Timed>
    ensures problem { IfSome result (λ timed. timed.problem ≡
        record { block = instrs_of block.now; profile = profile.now }) }
    ensures below { IfSome result (λ timed. total_of timed.problem timed.numbers < best) }
{
    let Ok(order) = Order::new(block, numbers) else {
        return None;
    };
    let timed = time_of(block, profile, &order);
    if timed.total() < best {
        Some(timed)
    } else {
        None
    }
}
