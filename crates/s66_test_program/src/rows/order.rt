//! Rows of `order`: sources, and these with their blocks in best orders.

use crate::rows::{MIXED_SOURCE, Row, STORE_THEN_LOAD, TWO_DIVIDES};
use crate::running::{CHECK, ORDER, ORDER_TRACE};
use s66_test_search::{MULTIPLIES, ONE_LOAD, THIRD_ORDER};

const COMMENT: &str =
    "*A COMMENT OF TWO HUNDRED BYTES A COMMENT OF TWO HUNDRED BYTES A COMMENT OF TWO HUNDRED BYTES A COMMENT OF TWO HUNDRED BYTES A COMMENT OF TWO HUNDRED BYTES A COMMENT OF TWO HUNDRED BYTES A COMMENT OF \n";

pub(crate) const ROWS: &[Row] = &[
    ("empty input", ORDER, "", 0, ""),
    ("empty input", &["s66", "prove"], "", 0, ""),
    ("empty input", CHECK, "", 0, ""),
    (
        "one Boolean",
        ORDER_TRACE,
        "  BX1 X2+X3\n",
        0,
        "* BLOCK 1 COUNT 1 SOURCE 4 TIME 4 BEST\n* SPLITS 0\n          BX1 X2+X3\n",
    ),
    (
        "two Booleans",
        &["s66", "order", "--workers", "1", "--nodes", "0", "--trace"],
        "  BX1 X2\n  BX3 X4\n",
        0,
        "* BLOCK 1 COUNT 2 SOURCE 8 TIME 8 BEST\n* SPLITS 0\n          BX1 X2\n          BX3 X4\n",
    ),
    (
        "one load",
        ORDER,
        ONE_LOAD,
        0,
        "* BLOCK 1 COUNT 3 SOURCE 16 TIME 12 BEST\n          SA1 A1+B1\n          BX7 X2\n          BX6 X1\n",
    ),
    (
        "one load, where any node may dominate",
        &["s66", "order", "--workers", "1", "--dominate-tree"],
        ONE_LOAD,
        0,
        "* BLOCK 1 COUNT 3 SOURCE 16 TIME 12 BEST\n          SA1 A1+B1\n          BX7 X2\n          BX6 X1\n",
    ),
    (
        "the same without facts",
        &[
            "s66",
            "order",
            "--workers",
            "1",
            "--dominate-tree",
            "--nodes",
            "0",
            "--trace",
        ],
        TWO_DIVIDES,
        7,
        "* BLOCK 1 COUNT 4 SOURCE 70 TIME 70 AT LEAST 69\n* SPLITS 0\n          FX1 X2/X3\n          FX4 X1+X5\n          FX1 X5/X6\n          FX6 X1*X2\n",
    ),
    (
        "three multiplies",
        ORDER_TRACE,
        MULTIPLIES,
        0,
        "* BLOCK 1 COUNT 3 SOURCE 22 TIME 22 BEST\n* SPLITS 10\n          FX1 X2*X3\n          FX4 X5*X6\n          FX0 X7*X7\n",
    ),
    (
        "three multiplies, one split short",
        &["s66", "order", "--workers", "1", "--nodes", "9", "--trace"],
        MULTIPLIES,
        7,
        "* BLOCK 1 COUNT 3 SOURCE 22 TIME 22 AT LEAST 17\n* SPLITS 9\n          FX1 X2*X3\n          FX4 X5*X6\n          FX0 X7*X7\n",
    ),
    (
        "third order",
        ORDER,
        THIRD_ORDER,
        0,
        "* BLOCK 1 COUNT 3 SOURCE 33 TIME 33 BEST\n          FX1 X2/X3\n          BX4 X1*X5\n          SX5 B1\n",
    ),
    (
        "store then load",
        ORDER,
        STORE_THEN_LOAD,
        0,
        "* BLOCK 1 COUNT 2 SOURCE 9 TIME 9 BEST\n          SA6 A6+B1\n          SA1 A2+B2\n",
    ),
    (
        "mixed source",
        ORDER,
        MIXED_SOURCE,
        0,
        "* TEST\n* BLOCK 1 COUNT 2 SOURCE 12 TIME 12 BEST\n* NOTE\nLOOP      SA1 A1+1     LOAD\n          BX6 X1\n* BLOCK 2 COUNT 1 SOURCE 4 TIME 4 BEST\n+         SA6 A6+B1    STORE\n          ZR X1,LOOP\n* BLOCK 3 COUNT 1 SOURCE 4 TIME 4 BEST\n          BX1 X2\n          VFD 60/0\n",
    ),
    (
        "column two",
        ORDER,
        " LP       SA1    A1+B1   NEXT WORD\r\n",
        0,
        "* BLOCK 1 COUNT 1 SOURCE 8 TIME 8 BEST\n LP       SA1    A1+B1   NEXT WORD\n",
    ),
    (
        "column two, out of order",
        ORDER,
        " LP       BX6    X2      NEXT WORD\r\n\tSA1 A1+B1 \r\r\n",
        0,
        "* BLOCK 1 COUNT 2 SOURCE 9 TIME 8 BEST\n LP       SA1 A1+B1\n          BX6    X2      NEXT WORD\n",
    ),
    ("a comment of 200 bytes", ORDER, COMMENT, 0, COMMENT),
    (
        "repeats",
        ORDER_TRACE,
        "  CX1 X2\n  FX3 X4/X5\n",
        0,
        "* BLOCK 1 COUNT 2 SOURCE 39 TIME 39 BEST\n* SPLITS 0\n          CX1 X2\n          FX3 X4/X5\n",
    ),
    (
        "settled: each to where the fewest pairs stand in reverse",
        ORDER,
        "  SA1 A4+B3\n  SA5 A5+B6\n  SB7 B5+1\n  LX3 3\n  SB4 B2+1\n  SA3 A3+B4\n  SA2 A3+B1\n  SA7 A7+B1\n  NX6 X6\n",
        0,
        "* BLOCK 1 COUNT 9 SOURCE 21 TIME 17 BEST\n          SA1 A4+B3\n          LX3 3\n          SB4 B2+1\n          SA5 A5+B6\n          SA3 A3+B4\n          SA2 A3+B1\n          SB7 B5+1\n          NX6 X6\n          SA7 A7+B1\n",
    ),
    (
        "settled past places that are no nearer",
        ORDER,
        "  FX5 X0+X5\n  FX5 X0*X2\n  NX1 X5\n  BX7 X5\n  NX0 X3\n  FX6 X6*X3\n",
        0,
        "* BLOCK 1 COUNT 6 SOURCE 31 TIME 19 BEST\n          FX5 X0+X5\n          FX5 X0*X2\n          BX7 X5\n          NX0 X3\n          FX6 X6*X3\n          NX1 X5\n",
    ),
];
