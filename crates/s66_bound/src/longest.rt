//! The longest tail of each instruction: the longest path along links to later ones, from the last number back to the first.

ghost use Rattle.std.specs.Prelude.{◌≡◌, ◌+◌, ◌-◌, ◌<◌, ◌≤◌, length};
ghost use Rattle.s66_isa.specs.{BLOCK_LIMIT};
ghost use Rattle.s66_model.specs.{Problem, longest_tail, walk_to, HasWords};
ghost use Rattle.s66_bound.specs.{AreCosts, HasLater};

use crate::cost::{Cost, link};
use s66_isa::BLOCK_LIMIT;

/// The longest walk from the instruction at a place that goes on with the one at a later place, 0 if they have no link.
fn walk_to(costs: &[Cost], longest: &[u32; BLOCK_LIMIT], place: usize, later: usize) -> u32
    requires few { length costs.now ≤ BLOCK_LIMIT }
    requires order { (place < later) × (later < length costs.now) }
    requires known { (b : Problem) × AreCosts b costs.now × HasLater b place longest.now }
    ensures { (b : Problem) → AreCosts b costs.now → HasLater b place longest.now →
        result ≡ walk_to b (place + 1) (later + 1) }
{
    let link = link(&costs[place], &costs[later]);
    if link == 0 { 0 } else { link + longest[later] }
}

/// The longest walk from the instruction at a place.
fn longest_from(costs: &[Cost], longest: &[u32; BLOCK_LIMIT], place: usize) -> u32
    requires few { length costs.now ≤ BLOCK_LIMIT }
    requires place { place < length costs.now }
    requires known { (b : Problem) × AreCosts b costs.now × HasLater b place longest.now }
    ensures { (b : Problem) → AreCosts b costs.now → HasLater b place longest.now →
        result ≡ longest_tail b (place + 1) }
{
    let mut last = costs[place].tail;
    for later in place + 1..costs.len() {
        last = last.max(walk_to(costs, longest, place, later));
    }
    last
}

/// The longest walk from each instruction of a block, in minor cycles; each pair is looked at once.
pub(crate) fn longest_tails(costs: &[Cost]) -> [u32; BLOCK_LIMIT]
    requires few { length costs.now ≤ BLOCK_LIMIT }
    requires known { (b : Problem) × AreCosts b costs.now }
    ensures { (b : Problem) → AreCosts b costs.now → HasWords b (longest_tail b) result }
{
    let mut longest = [0; BLOCK_LIMIT];
    let mut place = costs.len();
    while place > 0 {
        place -= 1;
        longest[place] = longest_from(costs, &longest, place);
    }
    longest
}
