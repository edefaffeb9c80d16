//! Rows of `why`: each conflict, the path and the sums, and why no order is faster.

use crate::rows::{Row, STORE_THEN_LOAD};
use crate::running::WHY;
use s66_test_search::{MULTIPLIES, ONE_LOAD, PACKING_GAP, THIRD_ORDER};

/// A linear interpolation, from its entry on the second line.
const LERP: &str =
    "* LERP\nLERP      SA1 B2\n          SA2 B3\n          SA3 A2+B1\n          FX0 X1-X2\n          NX0 X0\n          SA4 A3+B1\n          FX0 X0*X4\n          SA5 B5\n          FX7 X5-X3\n          NX7 X7\n          FX7 X7*X0\n          FX6 X3+X7\n          NX6 X6\n          SA6 B4\n";

pub(crate) const ROWS: &[Row] = &[
    ("empty input, why", WHY, "", 0, ""),
    (
        "one load, why",
        WHY,
        ONE_LOAD,
        0,
        "BLOCK 1 LINE 1 TIME 16\n  2 SECOND 1 TO 8 REGISTER X1 BY 1\n  3 FIRST 2 TO 12 UNIT BOOLEAN BY 2\nPATH 1 2 3\nSTEPS 8 4 4 TIME 16\nLOST FIRST 10 SECOND 7 THIRD 0\n",
    ),
    (
        "one load, why, with texts",
        &["s66", "why", "--text"],
        ONE_LOAD,
        0,
        "BLOCK 1 LINE 1 TIME 16\n  2 BX6 X1    SECOND 1 TO 8 REGISTER X1 BY 1 SA1 A1+B1\n  3 BX7 X2    FIRST 2 TO 12 UNIT BOOLEAN BY 2 BX6 X1\nPATH\n  1 SA1 A1+B1    8\n  2 BX6 X1       4\n  3 BX7 X2       4\nTIME            16\nLOST FIRST 10 SECOND 7 THIRD 0\n",
    ),
    (
        "one load, why, the best order, with texts",
        &["s66", "why", "--order", "--text", "--workers", "1"],
        ONE_LOAD,
        0,
        "BLOCK 1 LINE 1 TIME 12\n  2 BX6 X1    FIRST 2 TO 5 UNIT BOOLEAN BY 3 BX7 X2\n  2 BX6 X1    SECOND 5 TO 8 REGISTER X1 BY 1 SA1 A1+B1\nPATH\n  1 SA1 A1+B1    8\n  2 BX6 X1       4\nTIME            12\nLOST FIRST 3 SECOND 3 THIRD 0\nEvery order takes 12 or more:\n   8  X1 of 1 SA1 A1+B1 is there, which 2 BX6 X1 reads\n  12  the unit of 2 BX6 X1 is free, and that is the end\nSo the order of 12 is best.\n",
    ),
    (
        "packing gap, why",
        WHY,
        PACKING_GAP,
        0,
        "BLOCK 1 LINE 1 TIME 12\nPATH 4\nSTEPS 12 TIME 12\nLOST FIRST 0 SECOND 0 THIRD 0\n",
    ),
    (
        "third order, why",
        WHY,
        THIRD_ORDER,
        0,
        "BLOCK 1 LINE 1 TIME 33\n  2 SECOND 1 TO 29 REGISTER X1 BY 1\n  3 THIRD 5 TO 30 REGISTER X5 BY 2\nPATH 1 2\nSTEPS 29 4 TIME 33\nLOST FIRST 0 SECOND 28 THIRD 25\n",
    ),
    (
        "store then load, why",
        WHY,
        STORE_THEN_LOAD,
        0,
        "BLOCK 1 LINE 1 TIME 9\nPATH 2\nSTEPS 9 TIME 9\nLOST FIRST 0 SECOND 0 THIRD 0\n",
    ),
    (
        "memory",
        WHY,
        "  FX6 X1*X2\n  SA6 A6+B1\n  SA2 A2+B2\n",
        0,
        "BLOCK 1 LINE 1 TIME 19\n  2 SECOND 1 TO 10 REGISTER X6 BY 1\n  3 SECOND 2 TO 11 MEMORY BY 2\nPATH 1 2 3\nSTEPS 10 1 8 TIME 19\nLOST FIRST 0 SECOND 18 THIRD 0\n",
    ),
    (
        "a NO, and two units that are free at once",
        WHY,
        "  FX1 X2*X3\n  SA2 X1+B1\n  SB3 X1+B2\n  SA4 A4+100\n",
        0,
        "BLOCK 1 LINE 1 TIME 22\n  2 SECOND 1 TO 10 REGISTER X1 BY 1\n  3 SECOND 2 TO 10 REGISTER X1 BY 1\n  4 FIRST 4 TO 14 UNIT INCREMENT BY 2\nPATH 1 2 4\nSTEPS 10 4 8 TIME 22\nLOST FIRST 10 SECOND 17 THIRD 0\n",
    ),
    (
        "a linear interpolation",
        WHY,
        LERP,
        0,
        "BLOCK 1 LINE 2 TIME 56\n  3 FIRST 2 TO 4 UNIT INCREMENT BY 1\n  4 SECOND 5 TO 9 REGISTER X2 BY 2\n  5 FIRST 6 TO 13 REGISTER X0 BY 4\n  7 FIRST 15 TO 17 REGISTER X0 BY 5\n  7 SECOND 17 TO 22 REGISTER X4 BY 6\n  9 SECOND 19 TO 26 REGISTER X5 BY 8\n 10 FIRST 20 TO 30 REGISTER X7 BY 9\n 11 FIRST 31 TO 34 REGISTER X7 BY 10\n 12 SECOND 35 TO 44 REGISTER X7 BY 11\n 13 FIRST 36 TO 48 REGISTER X6 BY 12\n 14 SECOND 49 TO 52 REGISTER X6 BY 13\nPATH 2 4 5 7 8 9 10 11 12 13 14\nSTEPS 9 4 4 0 9 4 4 10 4 4 4 TIME 56\nLOST FIRST 36 SECOND 28 THIRD 0\n",
    ),
    (
        "two Boolean units",
        &["s66", "why", "--profile", "{\"units_boolean\":2}"],
        ONE_LOAD,
        0,
        "BLOCK 1 LINE 1 TIME 12\n  2 SECOND 1 TO 8 REGISTER X1 BY 1\nPATH 1 2\nSTEPS 8 4 TIME 12\nLOST FIRST 0 SECOND 7 THIRD 0\n",
    ),
    (
        "one load, why, the best order",
        &["s66", "why", "--order", "--workers", "1"],
        ONE_LOAD,
        0,
        "BLOCK 1 LINE 1 TIME 12\n  2 FIRST 2 TO 5 UNIT BOOLEAN BY 3\n  2 SECOND 5 TO 8 REGISTER X1 BY 1\nPATH 1 2\nSTEPS 8 4 TIME 12\nLOST FIRST 3 SECOND 3 THIRD 0\nEvery order takes 12 or more:\n   8  X1 of 1 SA1 A1+B1 is there, which 2 BX6 X1 reads\n  12  the unit of 2 BX6 X1 is free, and that is the end\nSo the order of 12 is best.\n",
    ),
    (
        "three multiplies, why, one split short",
        &["s66", "why", "--order", "--workers", "1", "--nodes", "9"],
        MULTIPLIES,
        7,
        "BLOCK 1 LINE 1 TIME 22\n  3 FIRST 2 TO 11 UNIT MULTIPLY BY 1\nPATH 1 3\nSTEPS 11 11 TIME 22\nLOST FIRST 9 SECOND 0 THIRD 0\n",
    ),
    (
        "the second block, why, the best order",
        &["s66", "why", "--block", "2", "--order", "--workers", "1"],
        "  FX1 X2*X3\n  FX4 X5*X6\n  FX0 X7*X7\n  EQ B1,B2,L\n  SA1 A1+B1\n  BX6 X1\n  BX7 X2\n",
        0,
        "BLOCK 2 LINE 5 TIME 12\n  2 FIRST 2 TO 5 UNIT BOOLEAN BY 3\n  2 SECOND 5 TO 8 REGISTER X1 BY 1\nPATH 1 2\nSTEPS 8 4 TIME 12\nLOST FIRST 3 SECOND 3 THIRD 0\nEvery order takes 12 or more:\n   8  X1 of 1 SA1 A1+B1 is there, which 2 BX6 X1 reads\n  12  the unit of 2 BX6 X1 is free, and that is the end\nSo the order of 12 is best.\n",
    ),
    (
        "the second block, why",
        &["s66", "why", "--block", "2"],
        "  BX1 X2\n  EQ B1,B2,L\n  FX1 X2+X3\n",
        0,
        "BLOCK 2 LINE 3 TIME 5\nPATH 1\nSTEPS 5 TIME 5\nLOST FIRST 0 SECOND 0 THIRD 0\n",
    ),
    (
        "no third block, why",
        &["s66", "why", "--block", "3", "--order"],
        "  BX1 X2\n  EQ B1,B2,L\n  FX1 X2+X3\n",
        0,
        "",
    ),
    (
        "a bad line outside the block, why",
        &["s66", "why", "--block", "1"],
        "  BX1 X2\n  EQ B1,B2,L\n  SA1 *+2\n",
        3,
        "LINE 3 BAD OPERAND\ns66 lint lists all such lines, --cut leaves them alone\n",
    ),
    (
        "two blocks, why",
        WHY,
        "  BX1 X2\n  EQ B1,B2,L\n  FX1 X2+X3\n",
        0,
        "BLOCK 1 LINE 1 TIME 4\nPATH 1\nSTEPS 4 TIME 4\nLOST FIRST 0 SECOND 0 THIRD 0\nBLOCK 2 LINE 3 TIME 5\nPATH 1\nSTEPS 5 TIME 5\nLOST FIRST 0 SECOND 0 THIRD 0\n",
    ),
];
