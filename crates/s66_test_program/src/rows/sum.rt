//! Rows of `sum`, also with the trace and with words and loops.

use crate::rows::{MIXED_SOURCE, Row};
use crate::running::SUM;
use s66_test_search::{MULTIPLIES, THREE_ALIKE};

/// Blocks that save 1, 4, 4 and 0 minor cycles.
const FOUR_BLOCKS: &str =
    "  NX1 B0,X2\n  SB0 5\n  SX3 B0\n  ZR X1,L\n  SA1 A1+B1\n  BX6 X1\n  BX7 X2\n  EQ L\n  BX7 X2\n  LX3 1\n  IX4 X5+X6\n  SA1 A1+100\n+ BX1 X2\n";

/// A block of three words, two of whose parcels a `NO` fills: parcels 0, 1 and 2, 4 and 5, 6, 8 and 9. Each of its best orders fits
/// into two words.
const TWO_FILLERS: &str = "  SB5 B1+B2\n  SB4 7\n  SB3 B3+1\n  BX6 X1\n  SA1 A1+100\n";

/// A loop of 28 instructions of a parcel each: with the branch that closes it it takes a word more.
const SEVEN_WORDS: &str =
    "LOOP BX6 X1\n  BX7 X2\n  BX7 X2\n  BX7 X2\n  BX7 X2\n  BX7 X2\n  BX7 X2\n  BX7 X2\n  BX7 X2\n  BX7 X2\n  BX7 X2\n  BX7 X2\n  BX7 X2\n  BX7 X2\n  BX7 X2\n  BX7 X2\n  BX7 X2\n  BX7 X2\n  BX7 X2\n  BX7 X2\n  BX7 X2\n  BX7 X2\n  BX7 X2\n  BX7 X2\n  BX7 X2\n  BX7 X2\n  BX7 X2\n  BX7 X2\n  NZ B7,LOOP\n";

/// Blocks with a branch out of the loop between them.
const TWO_BLOCKS: &str = "A BX6 X1\n  ZR X1,OUT\n  BX7 X2\n  EQ B1,B2,A\n";

/// Orders of which one is as good as any other.
pub(crate) const ROWS: &[Row] = &[
    (
        "empty input",
        SUM,
        "",
        0,
        "TOTAL BLOCKS 0 SOURCE 0 TIME 0 BEST 0 MOVED 0\n",
    ),
    (
        "no block",
        &["s66", "sum"],
        "* NOTE\n  NO\n",
        0,
        "TOTAL BLOCKS 0 SOURCE 0 TIME 0 BEST 0 MOVED 0\n",
    ),
    (
        "four blocks",
        SUM,
        FOUR_BLOCKS,
        0,
        "BLOCK 2 LINE 5 COUNT 3 SOURCE 16 TIME 12 BEST MOVED 1\nBLOCK 3 LINE 9 COUNT 4 SOURCE 12 TIME 8 BEST MOVED 1\nBLOCK 1 LINE 1 COUNT 3 SOURCE 7 TIME 6 BEST MOVED 1\nBLOCK 4 LINE 13 COUNT 1 SOURCE 4 TIME 4 BEST MOVED 0\nTOTAL BLOCKS 4 SOURCE 39 TIME 30 BEST 4 MOVED 3\n",
    ),
    (
        "mixed source",
        SUM,
        MIXED_SOURCE,
        0,
        "BLOCK 1 LINE 2 COUNT 2 SOURCE 12 TIME 12 BEST MOVED 0 ENTRY LOOP\nBLOCK 2 LINE 6 COUNT 1 SOURCE 4 TIME 4 BEST MOVED 0\nBLOCK 3 LINE 8 COUNT 1 SOURCE 4 TIME 4 BEST MOVED 0\nTOTAL BLOCKS 3 SOURCE 20 TIME 20 BEST 3 MOVED 0\n",
    ),
    (
        "three multiplies, one split short",
        &["s66", "sum", "--workers", "1", "--nodes", "9"],
        MULTIPLIES,
        7,
        "BLOCK 1 LINE 1 COUNT 3 SOURCE 22 TIME 22 AT LEAST 17 MOVED 0\nTOTAL BLOCKS 1 SOURCE 22 TIME 22 BEST 0 MOVED 0\n",
    ),
    (
        "no block, with the trace",
        &["s66", "sum", "--trace"],
        "* NOTE\n  NO\n",
        0,
        "TOTAL BLOCKS 0 SOURCE 0 TIME 0 BEST 0 MOVED 0 SPLITS 0\n",
    ),
    (
        "three multiplies twice, one split short",
        &["s66", "sum", "--workers", "1", "--nodes", "9", "--trace"],
        "  FX1 X2*X3\n  FX4 X5*X6\n  FX0 X7*X7\n  EQ L\n  FX1 X2*X3\n  FX4 X5*X6\n  FX0 X7*X7\n",
        7,
        "BLOCK 1 LINE 1 COUNT 3 SOURCE 22 TIME 22 AT LEAST 17 MOVED 0 SPLITS 9\nBLOCK 2 LINE 5 COUNT 3 SOURCE 22 TIME 22 AT LEAST 17 MOVED 0 SPLITS 9\nTOTAL BLOCKS 2 SOURCE 44 TIME 44 BEST 0 MOVED 0 SPLITS 18\n",
    ),
    (
        "three alike",
        &["s66", "sum", "--workers", "1", "--trace"],
        THREE_ALIKE,
        0,
        "BLOCK 1 LINE 1 COUNT 3 SOURCE 8 TIME 8 BEST MOVED 0 SPLITS 10\nTOTAL BLOCKS 1 SOURCE 8 TIME 8 BEST 1 MOVED 0 SPLITS 10\n",
    ),
    (
        "three alike, what is dominated left out",
        &["s66", "sum", "--workers", "1", "--dominate", "--trace"],
        THREE_ALIKE,
        0,
        "BLOCK 1 LINE 1 COUNT 3 SOURCE 8 TIME 8 BEST MOVED 0 SPLITS 7\nTOTAL BLOCKS 1 SOURCE 8 TIME 8 BEST 1 MOVED 0 SPLITS 7\n",
    ),
    (
        "three alike, what any other dominates left out",
        &["s66", "sum", "--workers", "1", "--dominate-tree", "--trace"],
        THREE_ALIKE,
        0,
        "BLOCK 1 LINE 1 COUNT 3 SOURCE 8 TIME 8 BEST MOVED 0 SPLITS 7\nTOTAL BLOCKS 1 SOURCE 8 TIME 8 BEST 1 MOVED 0 SPLITS 7\n",
    ),
    (
        "three multiplies in three units",
        &["s66", "sum", "--profile", "{\"units_multiply\":3}"],
        MULTIPLIES,
        0,
        "PROFILE units_multiply 3\nBLOCK 1 LINE 1 COUNT 3 SOURCE 13 TIME 13 BEST MOVED 0\nTOTAL BLOCKS 1 SOURCE 13 TIME 13 BEST 1 MOVED 0\n",
    ),
    (
        "four blocks, one of which is printed",
        &["s66", "sum", "--workers", "1", "--block", "3", "--trace"],
        "  BX1 X2\n  ZR X1,L\n  BX1 X2\n  ZR X1,L\n  BX7 X2\n  ZR X1,L\n  BX1 X2\n",
        0,
        "BLOCK 3 LINE 5 COUNT 1 SOURCE 4 TIME 4 BEST MOVED 0 SPLITS 0\nTOTAL BLOCKS 1 SOURCE 4 TIME 4 BEST 1 MOVED 0 SPLITS 0\n",
    ),
    (
        "four blocks, with their words",
        &["s66", "sum", "--workers", "1", "--words"],
        FOUR_BLOCKS,
        0,
        "BLOCK 2 LINE 5 COUNT 3 SOURCE 16 TIME 12 BEST MOVED 1 WORDS 1 FOUND 1\nBLOCK 3 LINE 9 COUNT 4 SOURCE 12 TIME 8 BEST MOVED 1 WORDS 2 FOUND 2\nBLOCK 1 LINE 1 COUNT 3 SOURCE 7 TIME 6 BEST MOVED 1 WORDS 1 FOUND 1\nBLOCK 4 LINE 13 COUNT 1 SOURCE 4 TIME 4 BEST MOVED 0 WORDS 1 FOUND 1\nTOTAL BLOCKS 4 SOURCE 39 TIME 30 BEST 4 MOVED 3 WORDS 5 FOUND 5\n",
    ),
    (
        "a word less",
        &["s66", "sum", "--deep", "--words"],
        TWO_FILLERS,
        0,
        "BLOCK 1 LINE 1 COUNT 5 SOURCE 16 TIME 10 BEST MOVED 2 WORDS 3 FOUND 2\nTOTAL BLOCKS 1 SOURCE 16 TIME 10 BEST 1 MOVED 2 WORDS 3 FOUND 2\n",
    ),
    (
        "words after splits",
        &["s66", "sum", "--words", "--workers", "1", "--trace"],
        THREE_ALIKE,
        0,
        "BLOCK 1 LINE 1 COUNT 3 SOURCE 8 TIME 8 BEST MOVED 0 SPLITS 10 WORDS 1 FOUND 1\nTOTAL BLOCKS 1 SOURCE 8 TIME 8 BEST 1 MOVED 0 SPLITS 10 WORDS 1 FOUND 1\n",
    ),
    (
        "no block has no word",
        &["s66", "sum", "--words"],
        "* NOTE\n  NO\n",
        0,
        "TOTAL BLOCKS 0 SOURCE 0 TIME 0 BEST 0 MOVED 0 WORDS 0 FOUND 0\n",
    ),
    (
        "the words of the block that is printed",
        &["s66", "sum", "--workers", "1", "--block", "2", "--words"],
        "  SA1 A1+100\n  EQ L\n  SB4 7\n  SB3 B3+1\n  SB2 B2+1\n",
        0,
        "BLOCK 2 LINE 3 COUNT 3 SOURCE 8 TIME 8 BEST MOVED 0 WORDS 2 FOUND 2\nTOTAL BLOCKS 1 SOURCE 8 TIME 8 BEST 1 MOVED 0 WORDS 2 FOUND 2\n",
    ),
];

/// Loops, whose words are counted.
pub(crate) const LOOP_ROWS: &[Row] = &[
    (
        "a loop of eight words",
        &["s66", "sum", "--workers", "1", "--nodes", "0", "--words"],
        SEVEN_WORDS,
        0,
        "BLOCK 1 LINE 1 COUNT 28 SOURCE 112 TIME 112 BEST MOVED 0 WORDS 8 FOUND 8 LOOP ENTRY LOOP\nTOTAL BLOCKS 1 SOURCE 112 TIME 112 BEST 1 MOVED 0 WORDS 7 FOUND 7\n",
    ),
    (
        "a loop of two blocks",
        &["s66", "sum", "--workers", "1", "--words"],
        TWO_BLOCKS,
        0,
        "BLOCK 1 LINE 1 COUNT 1 SOURCE 4 TIME 4 BEST MOVED 0 WORDS 1 FOUND 1 ENTRY A\nBLOCK 2 LINE 3 COUNT 1 SOURCE 4 TIME 4 BEST MOVED 0 WORDS 2 FOUND 2 LOOP\nTOTAL BLOCKS 2 SOURCE 8 TIME 8 BEST 2 MOVED 0 WORDS 2 FOUND 2\n",
    ),
    (
        "one block of a loop of two",
        &["s66", "sum", "--workers", "1", "--block", "2", "--words"],
        TWO_BLOCKS,
        0,
        "BLOCK 2 LINE 3 COUNT 1 SOURCE 4 TIME 4 BEST MOVED 0 WORDS 1 FOUND 1\nTOTAL BLOCKS 1 SOURCE 4 TIME 4 BEST 1 MOVED 0 WORDS 1 FOUND 1\n",
    ),
    (
        "a label within a loop begins a word, and names have either case",
        &["s66", "sum", "--workers", "1", "--words"],
        "a bx6 x1\nB BX7 X2\n  JP A\n",
        0,
        "BLOCK 1 LINE 1 COUNT 1 SOURCE 4 TIME 4 BEST MOVED 0 WORDS 1 FOUND 1 ENTRY a\nBLOCK 2 LINE 2 COUNT 1 SOURCE 4 TIME 4 BEST MOVED 0 WORDS 2 FOUND 2 LOOP ENTRY B\nTOTAL BLOCKS 2 SOURCE 8 TIME 8 BEST 2 MOVED 0 WORDS 2 FOUND 2\n",
    ),
    (
        "a loop whose name stands on the line before",
        &["s66", "sum", "--workers", "1", "--words"],
        "LOOP BSS 0\n* NOTE\n  BX6 X1\n  PL X1,LOOP\n",
        0,
        "BLOCK 1 LINE 3 COUNT 1 SOURCE 4 TIME 4 BEST MOVED 0 WORDS 1 FOUND 1 LOOP ENTRY LOOP\nTOTAL BLOCKS 1 SOURCE 4 TIME 4 BEST 1 MOVED 0 WORDS 1 FOUND 1\n",
    ),
    (
        "a branch forward, and a call in a loop",
        &["s66", "sum", "--workers", "1", "--words"],
        "  BX6 X1\n  NZ X1,L\nL BX7 X2\n  RJ SUB\n  BX5 X3\n  NZ X3,L\n",
        0,
        "BLOCK 1 LINE 1 COUNT 1 SOURCE 4 TIME 4 BEST MOVED 0 WORDS 1 FOUND 1\nBLOCK 2 LINE 3 COUNT 1 SOURCE 4 TIME 4 BEST MOVED 0 WORDS 1 FOUND 1 ENTRY L\nBLOCK 3 LINE 5 COUNT 1 SOURCE 4 TIME 4 BEST MOVED 0 WORDS 1 FOUND 1\nTOTAL BLOCKS 3 SOURCE 12 TIME 12 BEST 3 MOVED 0 WORDS 3 FOUND 3\n",
    ),
    (
        "a return to the entry of a routine closes no loop",
        &["s66", "sum", "--workers", "1", "--words"],
        "SUB PS\n  BX7 X1\n  ZR X1,SUB\nL BX6 X1\n  NZ X6,L\n  EQ SUB\n",
        0,
        "BLOCK 1 LINE 2 COUNT 1 SOURCE 4 TIME 4 BEST MOVED 0 WORDS 1 FOUND 1 ENTRY SUB\nBLOCK 2 LINE 4 COUNT 1 SOURCE 4 TIME 4 BEST MOVED 0 WORDS 1 FOUND 1 LOOP ENTRY L\nTOTAL BLOCKS 2 SOURCE 8 TIME 8 BEST 2 MOVED 0 WORDS 2 FOUND 2\n",
    ),
    (
        "a loop of a word less, with a branch out of it before the one that closes it",
        &["s66", "sum", "--deep", "--words"],
        "L SB5 B1+B2\n  SB4 7\n  SB3 B3+1\n  BX6 X1\n  SA1 A1+100\n  ZR X1,OUT\n  NZ X2,L\n",
        0,
        "BLOCK 1 LINE 1 COUNT 5 SOURCE 16 TIME 10 BEST MOVED 2 WORDS 4 FOUND 3 LOOP ENTRY L\nTOTAL BLOCKS 1 SOURCE 16 TIME 10 BEST 1 MOVED 2 WORDS 3 FOUND 2\n",
    ),
    (
        "a refused source",
        SUM,
        "  BX1 X2\n  SA1 *+2\n",
        3,
        "LINE 2 BAD OPERAND\ns66 lint lists all such lines, --cut leaves them alone\n",
    ),
];
