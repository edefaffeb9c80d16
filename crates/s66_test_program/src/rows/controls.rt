//! Rows of control characters in sources: texts that tell of one show each as `?`, and what prints the source keeps it.

use crate::rows::Row;
use crate::running::{COMPARE_TEXT, GUARD, LINT, SUM};

pub(crate) const ROWS: &[Row] = &[
    (
        "an entry",
        SUM,
        "L\x1b[2J\rX BX6 X1\n",
        0,
        "BLOCK 1 LINE 1 COUNT 1 SOURCE 4 TIME 4 BEST MOVED 0 ENTRY L?[2J?X\nTOTAL BLOCKS 1 SOURCE 4 TIME 4 BEST 1 MOVED 0\n",
    ),
    (
        "two words of a finding",
        LINT,
        ";\x07 A\x7fB\n",
        8,
        "LINE 1 NOT A COMMENT ;? A?B\n",
    ),
    (
        "a refused operand",
        LINT,
        "  BX6 \x1b[31mX1\n",
        5,
        "LINE 1 BAD OPERAND BX6 ?[31mX1 (CUT)\n",
    ),
    (
        "characters of a literal",
        COMPARE_TEXT,
        "  SX6 4RA \x1b\x7f\n  BX7 X6\n*S66 NEW\n  BX7 X6\n  SX6 4RA \x1b\x7f\n",
        5,
        "BLOCK 1 LINE 1 COUNT 2 TIME 7 NEW LINE 1 COUNT 2 TIME 5 NOT LEGAL LINE 1 BX7 X6 BEFORE LINE 2 SX6 4RA ??: X6 read after write\nTOTAL BLOCKS 1 TIME 7 NEW BLOCKS 1 TIME 5 LEGAL 0\n",
    ),
    (
        "a line that is added",
        GUARD,
        "  SA2 P\x07UG\n  IX6 X1+X2\n  SA6 A2\n  RJ VOID\nP\x07UG SX7 0\n  SA1 B2\n  SX6 B1\n  EQ X\n",
        0,
        "  SA2 P\x07UG\n  IX6 X1+X2\n  SA6 A2\n  RJ VOID\n*S66 OFF GUARD LOADS CODE SA2 P?UG\nP\x07UG SX7 0\n  SA1 B2\n  SX6 B1\n*S66 ON GUARD\n  EQ X\n",
    ),
    (
        "the same guarded again",
        GUARD,
        "  SA2 P\x07UG\n  IX6 X1+X2\n  SA6 A2\n  RJ VOID\n*S66 OFF GUARD LOADS CODE SA2 P?UG\nP\x07UG SX7 0\n  SA1 B2\n  SX6 B1\n*S66 ON GUARD\n  EQ X\n",
        0,
        "  SA2 P\x07UG\n  IX6 X1+X2\n  SA6 A2\n  RJ VOID\n*S66 OFF GUARD LOADS CODE SA2 P?UG\nP\x07UG SX7 0\n  SA1 B2\n  SX6 B1\n*S66 ON GUARD\n  EQ X\n",
    ),
];
