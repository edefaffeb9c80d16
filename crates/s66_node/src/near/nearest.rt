//! The legal order that takes as long and is nearer to the source (`nearer`): a local search, in which each instruction in turn is
//! taken out and put where the fewest pairs stand in reverse of the source.

ghost use Rattle.std.specs.Prelude.{◌≡◌, ◌≤◌};
ghost use Rattle.s66_model.specs.{total_of};
ghost use Rattle.s66_line.specs.{instrs_of};
ghost use Rattle.s66_node.specs.{reversed};

use crate::near::draft::Draft;
use crate::walk::Walk;
use s66_line::Block;
use s66_time::Timed;

/// How often all numbers are settled at most.
const ROUNDS_LIMIT: u32 = 64;

/// Settles all numbers of an order until none moves. The walk may be anywhere.
fn settled(walk: &mut Walk, timed: &Timed) -> Draft
    ensures problem { walk.new.problem ≡ walk.old.problem }
    ensures nearer { reversed result.numbers.items ≤ reversed timed.now.numbers }
{
    let mut draft = Draft::new(timed.order().numbers(), timed.total());
    for _ in 0..ROUNDS_LIMIT {
        let before = draft.pairs;
        draft.settle_all(walk);
        if draft.pairs == before {
            break;
        }
    }
    draft
}

/// A legal order of the block that takes as long as this one, with no more pairs of instructions in reverse of the source.
///
/// It is what this one becomes as each instruction in turn is taken out and put where the fewest pairs stand in reverse, until none
/// moves or a limit is met. Each place that is tried costs an undo and a push for each instruction from there on. Nothing is allocated.
pub fn nearer(block: &Block, timed: &Timed) -> Timed
    requires { timed.now.problem.block ≡ instrs_of block.now }
    ensures problem { result.problem ≡ timed.now.problem }
    ensures time { total_of result.problem result.numbers ≡ total_of timed.now.problem timed.now.numbers }
    ensures nearer { reversed result.numbers ≤ reversed timed.now.numbers }
{
    let mut walk = Walk::new(block, timed.profile());
    let draft = settled(&mut walk, timed);
    if walk.try_go_to(draft.numbers.as_slice())
        && walk.is_complete()
        && walk.floor_value() == timed.total()
    {
        walk.timed()
    } else {
        timed.duplicate()
    }
}
