//! Rows of `order` where some blocks stand, as with `--keep` and `--block`.

use crate::rows::{MIXED_SOURCE, Row};
use crate::running::ORDER;

/// A block that keeps its order, with a `NO`, and one that doesn't.
const ONE_KEPT: &str =
    "* HEAD\r\n  BX1 X2   FIRST \r\n  NO\n  ZR X1,L\nL\tSA1 A1+B1\n* NOTE\n  BX6 X1\n  NO\n  BX7 X2\n  NO\n";

/// A label on a `NO`, and a `NO` between two runs.
const LABELLED: &str = "LOOP NO  WAIT\n* LOADED\n\tBX1 X2\n  NO\n+ BX6 X1\n";

/// Sources of which some blocks stand.
pub(crate) const ROWS: &[Row] = &[
    ("nothing to keep", &["s66", "order", "--keep"], "", 0, ""),
    (
        "a block that keeps its order is copied with its NO",
        &["s66", "order", "--workers", "1", "--keep"],
        ONE_KEPT,
        0,
        "* HEAD\n  BX1 X2   FIRST \n  NO\n  ZR X1,L\n* BLOCK 2 COUNT 3 SOURCE 16 TIME 12 BEST\n* NOTE\nL         SA1 A1+B1\n          BX7 X2\n          BX6 X1\n",
    ),
    (
        "operations that keep their columns",
        &["s66", "order", "--workers", "1", "--keep", "--columns"],
        ONE_KEPT,
        0,
        "* HEAD\n  BX1 X2   FIRST \n  NO\n  ZR X1,L\n* BLOCK 2 COUNT 3 SOURCE 16 TIME 12 BEST\n* NOTE\nL         SA1 A1+B1\n  BX7 X2\n  BX6 X1\n",
    ),
    (
        "operations in columns 5, 2 by a tab, and 29",
        &["s66", "order", "--columns", "--keep", "--quiet", "--deep"],
        "    SA1 A1+B1\n\tBX6 X1\n                            BX7 X2  THIRD\n",
        0,
        "    SA1 A1+B1\n                            BX7 X2  THIRD\n  BX6 X1\n",
    ),
    (
        "the first instruction gives its label away",
        &["s66", "order", "--keep", "--columns", "--deep"],
        "LP BX7 X2\n      SA1 A1+B1\n    BX6 X1\n",
        0,
        "* BLOCK 1 COUNT 3 SOURCE 13 TIME 12 BEST\nLP        SA1 A1+B1\n   BX7 X2\n    BX6 X1\n",
    ),
    (
        "columns of the only block that is put in order",
        &[
            "s66",
            "order",
            "--keep",
            "--columns",
            "--block",
            "1",
            "--deep",
        ],
        ONE_KEPT,
        0,
        "* HEAD\n  BX1 X2   FIRST \n  NO\n  ZR X1,L\nL\tSA1 A1+B1\n* NOTE\n  BX6 X1\n  NO\n  BX7 X2\n  NO\n",
    ),
    (
        "no report",
        &["s66", "order", "--workers", "1", "--quiet", "--trace"],
        ONE_KEPT,
        0,
        "* HEAD\n          BX1 X2   FIRST\n  ZR X1,L\n* NOTE\nL         SA1 A1+B1\n          BX7 X2\n          BX6 X1\n",
    ),
    (
        "no report, and what keeps its order",
        &["s66", "order", "--workers", "1", "--quiet", "--keep"],
        ONE_KEPT,
        0,
        "* HEAD\n  BX1 X2   FIRST \n  NO\n  ZR X1,L\n* NOTE\nL         SA1 A1+B1\n          BX7 X2\n          BX6 X1\n",
    ),
    (
        "the first block alone, whose report tells that it keeps its order",
        &["s66", "order", "--workers", "1", "--block", "1", "--trace"],
        ONE_KEPT,
        0,
        "* HEAD\n* BLOCK 1 COUNT 1 SOURCE 4 TIME 4 BEST\n* SPLITS 0\n          BX1 X2   FIRST\n  ZR X1,L\nL\tSA1 A1+B1\n* NOTE\n  BX6 X1\n  NO\n  BX7 X2\n  NO\n",
    ),
    (
        "the second block alone",
        &["s66", "order", "--workers", "1", "--block", "2"],
        ONE_KEPT,
        0,
        "* HEAD\n  BX1 X2   FIRST \n  NO\n  ZR X1,L\n* BLOCK 2 COUNT 3 SOURCE 16 TIME 12 BEST\n* NOTE\nL         SA1 A1+B1\n          BX7 X2\n          BX6 X1\n",
    ),
    (
        "no such block",
        &["s66", "order", "--workers", "1", "--block", "3"],
        ONE_KEPT,
        0,
        "* HEAD\n  BX1 X2   FIRST \n  NO\n  ZR X1,L\nL\tSA1 A1+B1\n* NOTE\n  BX6 X1\n  NO\n  BX7 X2\n  NO\n",
    ),
    (
        "a label on a NO",
        &["s66", "order", "--workers", "1", "--keep"],
        LABELLED,
        0,
        LABELLED,
    ),
    (
        "a NO after a block is of that block",
        &["s66", "order", "--workers", "1", "--block", "2"],
        LABELLED,
        0,
        "LOOP NO  WAIT\n* LOADED\n\tBX1 X2\n  NO\n* BLOCK 2 COUNT 1 SOURCE 4 TIME 4 BEST\n+         BX6 X1\n",
    ),
    (
        "and not of the next one",
        &["s66", "order", "--workers", "1", "--block", "1"],
        LABELLED,
        0,
        "* LOADED\n* BLOCK 1 COUNT 1 SOURCE 4 TIME 4 BEST\nLOOP      BX1 X2\n+ BX6 X1\n",
    ),
    (
        "mixed source",
        &["s66", "order", "--workers", "1", "--keep"],
        MIXED_SOURCE,
        0,
        MIXED_SOURCE,
    ),
    (
        "one block's certificate",
        &["s66", "prove", "--workers", "1", "--block", "3"],
        ONE_KEPT,
        0,
        "",
    ),
    (
        "a refused source",
        &["s66", "order", "--keep", "--block", "1"],
        "  BX1 X2\n  SA1 *+2\n",
        3,
        "LINE 2 BAD OPERAND\ns66 lint lists all such lines, --cut leaves them alone\n",
    ),
    (
        "without an option",
        ORDER,
        LABELLED,
        0,
        "* LOADED\n* BLOCK 1 COUNT 1 SOURCE 4 TIME 4 BEST\nLOOP      BX1 X2\n* BLOCK 2 COUNT 1 SOURCE 4 TIME 4 BEST\n+         BX6 X1\n",
    ),
];
