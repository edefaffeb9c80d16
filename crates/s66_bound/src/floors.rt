//! The leaf of a floor, by its value: the first of the bounds that has it, with the chain before the loads, and the parcels after them.
//! Values are in minor cycles.

ghost use Rattle.std.specs.Prelude.{◌≡◌, ◌<◌, length};
ghost use Rattle.s66_model.specs.{floor, floor_value};
ghost use Rattle.s66_line.specs.{instrs_of};
ghost use Rattle.s66_time.specs.{problem_of};
ghost use Rattle.s66_bound.specs.{AreCosts, leaf_of, value_of, AreRemaining, IsTables};

use crate::cost::Cost;
use crate::leaf::Leaf;
use crate::printed::chain_numbers;
use crate::tables::Tables;
use crate::values::{chain_of, load_of};
use s66_isa::{KINDS, Set};
use s66_time::Clock;

/// The floor, if something remains and the floor's value is known: the first of the bounds that has it.
pub(crate) fn floor_of_value(
    costs: &[Cost],
    tables: &Tables,
    clock: &Clock<'_>,
    rest: &Set,
    value: u32,
) -> Leaf
    requires costs { AreCosts (problem_of clock.now) costs.now }
    requires tables { IsTables (problem_of clock.now) tables.now }
    requires rest { AreRemaining clock.now rest.now }
    requires some { length clock.now.numbers < length (instrs_of clock.now.block) }
    requires value { value ≡ floor_value (problem_of clock.now) clock.now.numbers }
    ensures leaf { leaf_of result ≡ floor (problem_of clock.now) clock.now.numbers }
    ensures value { value_of result ≡ value }
{
    if chain_of(tables, clock, rest) == value {
        return Leaf::Chain {
            numbers: chain_numbers(costs, tables, clock, rest, value),
            value,
        };
    }
    for kind in KINDS {
        if load_of(tables, clock, kind) == value {
            return Leaf::Load { kind, value };
        }
    }
    Leaf::Parcels { value }
}
