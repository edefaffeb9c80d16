//! Blocks, each the only one of a source, and what is read of one.

ghost use Rattle.std.specs.Prelude.{◌≡◌};
ghost use Rattle.s66_line.specs.{instrs_of};

use s66_isa::Profile;
use s66_line::Block;
use s66_source::Source;
use s66_time::{Order, Timed, time_of};

/// The legal orders take 16 (1 2 3), 12 (1 3 2) and 13 (3 1 2).
pub const ONE_LOAD: &str = "  SA1 A1+B1\n  BX6 X1\n  BX7 X2\n";

/// Every order takes 22, and every beginning that lacks some has a floor of 17: the whole tree has 10 splits.
pub const MULTIPLIES: &str = "  FX1 X2*X3\n  FX4 X5*X6\n  FX0 X7*X7\n";

/// Every order takes 44, and every beginning that lacks some has a floor of at most 39: the whole tree has 8,660 splits, and 5,040
/// whole orders.
pub const SEVEN_MULTIPLIES: &str =
    "  FX0 X7*X7\n  FX1 X7*X7\n  FX2 X7*X7\n  FX3 X7*X7\n  FX4 X7*X7\n  FX5 X7*X7\n  FX6 X7*X7\n";

/// Three that don't differ: every order takes 8, and of two beginnings with the same numbers each dominates the other.
pub const THREE_ALIKE: &str = "  SB0 B1\n  SB0 B1\n  SB0 B1\n";

/// Every order takes 16, and the first beginning that is known of a set of numbers dominates all others.
pub(crate) const SEVEN_ALIKE: &str =
    "  SB0 B1\n  SB0 B1\n  SB0 B1\n  SB0 B1\n  SB0 B1\n  SB0 B1\n  SB0 B1\n";

/// A gap is left before the load if an odd number of parcels comes before it.
pub const PACKING_GAP: &str = "  BX7 X2\n  LX3 1\n  IX4 X5+X6\n  SA1 A1+100\n";

/// The result of the last waits until the one before it has read its register.
pub const THIRD_ORDER: &str = "  FX1 X2/X3\n  BX4 X1*X5\n  SX5 B1\n";

/// The third waits for the X1 of the first.
pub(crate) const LATE_READER: &str = "  FX1 X2/X3\n  SX5 B1\n  BX4 X1\n  FX6 X7+X0\n";

/// Every order takes 16, though its longest path takes 12: two instructions that wait for X1 need the only Boolean unit.
pub(crate) const TWO_BOOLEANS: &str = "  BX1 X2*X3\n  BX4 X1*X1\n  BX5 X1*X1\n  FX6 X4+X5\n";

/// No order takes less than 21: the last waits for two of three instructions that need the only Boolean unit.
pub(crate) const THREE_BOOLEANS: &str = "  BX7 X2\n  SX1 B1\n  BX4 X1\n  BX5 X1\n  FX6 X4*X5\n";

/// No order takes less than 31: either of the two sums may come first, and needs the only Add unit before the other.
pub(crate) const TWO_SUMS: &str =
    "  SA1 A1+B1\n  SA2 A2+B1\n  FX3 X1*X0\n  FX4 X2*X0\n  FX6 X3+X5\n  FX7 X4+X5\n  SA6 A6+B1\n  SA7 A7+B1\n";

/// The order in which it is written takes 65, a best one 60.
pub(crate) const SIXTEEN: &str =
    "  SA1 A1+B1\n  SA2 B2+Y\n  FX1 X1+X2\n  SA3 A3+B1\n  SA4 A4+B1\n  RX2 X3*X4\n  FX6 X1*X2\n  SA6 A2+B2\n  SB4 B4-B1\n  SA5 A5+B1\n  SA3 A3+B1\n  FX0 X5*X3\n  SA4 A4+B3\n  NX1 B7,X4\n  FX7 X0+X1\n  SA3 B4+X\n";

/// The order in which it is written takes 63, a best one 50.
pub(crate) const TWENTY: &str =
    "  SA1 CON\n  LX1 1\n  BX7 X1\n  SA7 A7+B1\n  SB2 B2+B1\n  SA2 B2+Y\n  SA3 A3+B3\n  IX0 X2+X3\n  SA4 B5+Y\n  LX4 48\n  BX6 X0+X4\n  SA5 B2+TAB\n  SA1 A1+B3\n  BX2 X5*X1\n  SA3 A3+B4\n  BX7 X2*X3\n  SA7 B3+OUT\n  SB3 B3+1\n  SA5 A5+B1\n  LX0 B2,X5\n";

/// The order in which it is written takes 75, a best one 58, as fact lines alone show.
pub(crate) const TWENTY_FOUR: &str =
    "  SA1 A1+B1\n  BX1 X1-X0\n  AX1 54\n  BX7 X1\n  SA7 A2+B2\n  SB4 B4-B1\n  BX2 X0\n  MX1 18\n  BX1 -X1*X2\n  BX6 X1\n  SA6 A3+B2\n  SB2 B2+2\n  IX3 X0+X0\n  BX7 X3\n  SA7 RESULT\n  SB5 X3\n  SA4 A4+B1\n  BX4 X0-X4\n  BX6 X4\n  SA6 RESULT\n  SB2 B2+2\n  SA3 X5+B2\n  AX3 18\n  SA5 MASK\n";

/// Blocks, and what a best order takes, in minor cycles: as trying all orders of the short ones tells, and another program's search of
/// the long ones.
pub(crate) const BEST_TIMES: &[(&str, u32)] = &[
    (ONE_LOAD, 12),
    (TWO_BOOLEANS, 16),
    (THREE_BOOLEANS, 21),
    (MULTIPLIES, 22),
    (TWO_SUMS, 31),
    (SIXTEEN, 60),
    (TWENTY, 50),
    (TWENTY_FOUR, 58),
];

/// The block of a source; None if it has none, or more than one.
pub fn only_block<'s, 't>(source: &'s Source<'t>) -> Option<&'s Block<'t>> {
    match source.blocks() {
        [block] => Some(block),
        _ => None,
    }
}

/// The order in which a block is written, with its times.
pub fn as_written(block: &Block, profile: &Profile) -> Timed
    ensures { result.problem ≡ record { block = instrs_of block.now; profile = profile.now } }
{
    time_of(block, profile, &Order::source(block))
}
